//! What a queued spin lock says, and its word.
ghost use Rattle.std.specs.Prelude.{◌≡◌, ◌<◌, ◌≤◌, ◌^◌, ◌⊎◌, IfSome};
ghost use Rattle.word_bits.specs.Packed.{Unpacks};
ghost use Rattle.word_bits.specs.SpinWord.{IsSpin, IsTail, spin_word, tail_code};

use crate::bits::{field, is_set};

/// The last node of a spin lock's queue.
#[derive(Clone, Copy, Debug, PartialEq, Eq)]
pub struct Tail {
    /// The CPU, below 2^21 - 1.
    pub cpu: u32,
    /// Which of the CPU's nodes it is, below 4.
    pub index: u32,
}

/// What the word of a queued spin lock says.
#[derive(Clone, Copy, Debug, Default, PartialEq, Eq)]
pub struct Spin {
    /// Somebody holds the lock.
    pub locked: bool,
    /// Somebody waits for the lock in head of the queue, without a node.
    pub pending: bool,
    /// The last node of the queue, or `None` where the queue is empty.
    pub tail: Option<Tail>,
}

fn code_of(tail: Option<Tail>) -> u64
    requires { IfSome tail IsTail }
    ensures code { result ≡ tail_code tail }
    ensures small { result < 2 ^ 23 }
{
    match tail {
        Some(tail) => u64::from(tail.index) + (u64::from(tail.cpu) + 1) * 4,
        None => 0,
    }
}

fn tail_of(code: u64) -> Option<Tail>
    requires small { code < 2 ^ 23 }
    requires whole { (code ≡ 0) ⊎ (4 ≤ code) }
    ensures code { tail_code result ≡ code }
    ensures ranges { IfSome result IsTail }
{
    match code {
        0 => None,
        _ => Some(Tail {
            cpu: (code / 4 - 1) as u32,
            index: (code % 4) as u32,
        }),
    }
}

impl Spin {
    /// The word of a spin lock: `locked` in bit 0, `pending` in bit 8, and of the tail the index in
    /// bits 9 and 10 and the CPU's number plus 1 in bits 11 to 31.
    pub fn pack(self) -> u64
        requires { IsSpin self }
        ensures { result ≡ spin_word self }
    {
        u64::from(self.locked) + u64::from(self.pending) * 256 + code_of(self.tail) * 512
    }

    /// The spin lock whose word it is. `None` where no spin lock packs to the word.
    pub fn unpack(word: u64) -> Option<Spin>
        ensures { Unpacks IsSpin spin_word word result }
    {
        let tail = word / 512;
        if word >> 32 != 0 || field(word, 1, 7) != 0 || matches!(tail, 1..4) {
            return None;
        }
        Some(Spin {
            locked: is_set(word, 0),
            pending: is_set(word, 8),
            tail: tail_of(tail),
        })
    }
}
