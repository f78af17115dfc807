//! Fields of a packed word.
ghost use Rattle.std.specs.Prelude.{◌≡◌, ◌+◌, ◌*◌, ◌/◌, ◌%◌, ◌^◌, ◌<◌};
ghost use Rattle.word_bits.specs.OwnerWord.{bit};

#[tactic(auto, using(crate::proofs::Fields::masked))]
/// The field of `width` bits that begins at bit `low`.
pub(crate) fn field(word: u64, low: u32, width: u32) -> u64
    requires place { low < 64 }
    requires narrow { width < 64 }
    ensures { result ≡ word / 2 ^ low % 2 ^ width }
{
    (word >> low) & ((1 << width) - 1)
}

#[tactic(auto, using(crate::proofs::Fields::joined))]
/// The word that has `low` in its first `at` bits and `high` above them.
pub(crate) fn join(low: u64, high: u64, at: u32) -> u64
    requires place { at < 64 }
    requires below { low < 2 ^ at }
    requires fits { high * 2 ^ at < 2 ^ 64 }
    ensures { result ≡ low + high * 2 ^ at }
{
    (high << at) | low
}

/// Whether the bit is 1.
pub(crate) fn is_set(word: u64, at: u32) -> bool
    requires { at < 64 }
    ensures { bit result ≡ word / 2 ^ at % 2 }
{
    field(word, at, 1) == 1
}
