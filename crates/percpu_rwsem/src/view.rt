//! What a pass knows of a per-CPU semaphore. No value of this type is ever made: it exists in
//! proofs alone.

/// How far a pass is with the words of the semaphore.
pub enum Phase {
    /// Nothing of it is in them.
    Idle,
    /// It has added to its count, and is to load the block word.
    Added,
    /// It has seen a code there, and is to take the addition back.
    Back,
    /// It holds shared.
    Reads,
    /// It blocks new readers, and has seen so many counts zero, from that of task 0 on. It holds
    /// alone where it has seen all.
    Blocks(u64),
}
