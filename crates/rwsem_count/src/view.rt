//! What a pass knows of a count. No value of this type is ever made: it exists in proofs alone.

/// The bias, one reader's share of the count, that a pass has added and by which nobody holds.
pub enum Bias {
    Clear,
    /// That of a try: it neither holds by it nor has taken it back. With the word that the addition
    /// saw.
    Transit(u64),
    /// That of a waker, which keeps writers out until the batch is counted. With the word that the
    /// addition saw.
    Reserve(u64),
}
