//! How the program ends.
ghost use Rattle.std.specs.Prelude.{◌≡◌};
ghost use Rattle.lock_words.specs.Statuses.{status_number};

/// How a run of the program ended.
#[derive(Clone, Copy, Debug, PartialEq, Eq)]
pub(crate) enum Status {
    /// All is written.
    Done,
    /// The words are no command line, or a line is no question.
    Usage,
    /// A line of a course is refused.
    Refused,
    /// The input can't be read.
    ReadFault,
    /// Standard output can't be written.
    WriteFault,
    /// There was no memory.
    NoMemory,
}

impl Status {
    /// The exit status of the program.
    pub(crate) fn number(self) -> u8
        ensures { result ≡ status_number self }
    {
        match self {
            Status::Done => 0,
            Status::Usage => 2,
            Status::Refused => 3,
            Status::ReadFault => 4,
            Status::WriteFault => 5,
            Status::NoMemory => 6,
        }
    }

    /// What failed, and what to do next, in words, where the program couldn't do what it was asked
    /// for.
    pub(crate) fn complaint(self) -> Option<&'static str> {
        match self {
            Status::Done => None,
            Status::Usage => Some("these words or lines can't be read: lock_words --help"),
            Status::Refused => Some(
                "a line is refused: docs/LOCK_WORDS_PROGRAM.md has the reasons",
            ),
            Status::ReadFault => Some("the input can't be read"),
            Status::WriteFault => Some("standard output can't be written"),
            Status::NoMemory => Some("there is no memory"),
        }
    }
}
