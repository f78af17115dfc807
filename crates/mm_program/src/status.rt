//! How the program ends.
ghost use Rattle.std.specs.Prelude.{◌≡◌, option_map};
ghost use Rattle.mm_program.specs.Answers.{complaint_text, status_number};

/// How a run of the program ended.
#[derive(Clone, Copy, Debug, PartialEq, Eq)]
pub enum Status {
    /// The whole text is written.
    Done,
    /// The words are no command line. The source is as it was.
    Usage,
    /// The input isn't in the grammar.
    Refused,
    /// The source failed.
    ReadFault,
    /// The sink failed. It has a front of what would be there.
    WriteFault,
    /// There was no memory, and nothing is written.
    NoMemory,
}

impl Status {
    /// The exit status of the program.
    pub fn number(self) -> u8
        ensures { result ≡ status_number self }
    {
        match self {
            Status::Done => 0,
            Status::Usage => 2,
            Status::Refused => 3,
            Status::ReadFault => 4,
            Status::WriteFault => 5,
            Status::NoMemory => 6,
        }
    }

    /// What is told on standard error, where the program didn't do what it was asked for.
    pub fn complaint(self) -> Option<&'static str>
        ensures { option_map (λ s. s.now) result ≡ complaint_text self }
    {
        match self {
            Status::Done => None,
            Status::Usage => Some("a script is read from standard input; --help says more"),
            Status::Refused => Some("docs/PROGRAM.md says what each reason means"),
            Status::ReadFault => Some("standard input can't be read"),
            Status::WriteFault => Some("standard output can't be written"),
            Status::NoMemory => Some("there is no memory"),
        }
    }
}
