//! What a call replies.
ghost use Rattle.std.specs.Prelude.{◌≡◌};
ghost use Rattle.word_bits.specs.Replies.{errno_number};

/// Why a call is refused.
#[derive(Clone, Copy, Debug, PartialEq, Eq)]
pub enum Errno {
    BadF,
    NoMem,
    Exist,
    Inval,
    MFile,
    Fault,
}

impl Errno {
    /// The error's number on Linux.
    pub fn number(self) -> u32
        ensures { result ≡ errno_number self }
    {
        match self {
            Errno::BadF => 9,
            Errno::NoMem => 12,
            Errno::Exist => 17,
            Errno::Inval => 22,
            Errno::MFile => 24,
            Errno::Fault => 14,
        }
    }
}

/// The reply of a call.
#[derive(Clone, Copy, Debug, PartialEq, Eq)]
pub enum Reply {
    /// It is done, and there is nothing to tell.
    Good,
    /// It is done, with this number.
    Num(u32),
    /// It is refused, and changed nothing.
    Refused(Errno),
    /// The page is unmapped.
    MapErr,
    /// The page's protection lacks the access.
    AccErr,
    /// The lock was seen unavailable in this word.
    Busy(u64),
    /// The wait was interrupted by a signal.
    Intr,
    /// The signal is sent.
    Sent,
}
