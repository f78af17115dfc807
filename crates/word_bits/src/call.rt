//! A call as two constant words.
ghost use Rattle.std.specs.Prelude.{◌≡◌, ◌<◌};
ghost use Rattle.word_bits.specs.Calls.{Says, has_mode, mode_number, mode_of, signal_of, words_of};
ghost use Rattle.word_bits.specs.Calls.{access_in, first_in, kind_in, prot_in, second_in};
ghost use Rattle.word_bits.specs.Calls.{third_in, with_third};

use crate::bits::field;
use crate::kind::CallKind;

/// How a call takes the lock of its object.
#[derive(Clone, Copy, Debug, PartialEq, Eq)]
pub enum Mode {
    /// It waits.
    Plain,
    /// It waits until a signal interrupts it.
    Int,
    /// It doesn't wait.
    Try,
}

impl Mode {
    /// The number of the mode in a call's words.
    fn number(self) -> u64
        ensures number { result ≡ mode_number self }
        ensures small { result < 3 }
    {
        match self {
            Mode::Plain => 0,
            Mode::Int => 1,
            Mode::Try => 2,
        }
    }
}

/// A call as two words. `a` has its first number, and its second one times 2^32. `b` has its kind
/// in bits 0 to 7, the protection from bit 8 on, the access from bit 16 on, the mode from bit 24 on,
/// and the third number from bit 32 on.
#[derive(Clone, Copy, Debug, PartialEq, Eq)]
pub struct CallWords {
    pub a: u64,
    pub b: u64,
}

impl CallWords {
    /// The words of a call. What it doesn't have is 0.
    pub fn new(kind: u8, first: u32, second: u32, prot: u8, access: u8, mode: Mode) -> CallWords
        ensures words { result ≡ words_of kind first second prot access (mode_number mode) }
        ensures says { Says result kind first second prot access mode }
    {
        CallWords {
            a: u64::from(first) + (u64::from(second) << 32),
            b: u64::from(kind)
                + (u64::from(prot) << 8)
                + (u64::from(access) << 16)
                + (mode.number() << 24),
        }
    }

    /// These words, with a third number.
    pub fn with_third(self, third: u32) -> CallWords
        requires none { third_in self ≡ 0 }
        ensures words { result ≡ with_third self third }
    {
        CallWords {
            a: self.a,
            b: self.b + (u64::from(third) << 32),
        }
    }

    /// The kind, which says what the call does.
    pub fn kind(self) -> u8
        ensures { result ≡ kind_in self }
    {
        field(self.b, 0, 8) as u8
    }

    /// The first number.
    pub fn first(self) -> u32
        ensures { result ≡ first_in self }
    {
        field(self.a, 0, 32) as u32
    }

    /// The second number.
    pub fn second(self) -> u32
        ensures { result ≡ second_in self }
    {
        (self.a >> 32) as u32
    }

    /// The third number.
    pub fn third(self) -> u32
        ensures { result ≡ third_in self }
    {
        (self.b >> 32) as u32
    }

    /// The protection: r 1, w 2, x 4.
    pub fn prot(self) -> u8
        ensures { result ≡ prot_in self }
    {
        field(self.b, 8, 8) as u8
    }

    /// The access, in the same bits.
    pub fn access(self) -> u8
        ensures { result ≡ access_in self }
    {
        field(self.b, 16, 8) as u8
    }

    /// Whether the words have a mode.
    pub fn has_mode(self) -> bool
        ensures { result ≡ has_mode self }
    {
        field(self.b, 24, 8) < 3
    }

    /// The mode. Words of no mode are read as plain ones.
    pub fn mode(self) -> Mode
        ensures { result ≡ mode_of self }
    {
        match field(self.b, 24, 8) {
            1 => Mode::Int,
            2 => Mode::Try,
            _ => Mode::Plain,
        }
    }

    /// The task that a signal is sent to. `None` where the kind isn't that of a signal.
    pub fn signal(self) -> Option<u32>
        ensures { result ≡ signal_of self }
    {
        if self.kind() != CallKind::Signal.number() {
            return None;
        }
        Some(self.first())
    }
}
