//! Why a script is refused.

/// Why a line of a script is refused. The first that holds is told.
#[derive(Clone, Copy, Debug, PartialEq, Eq)]
pub enum Reason {
    /// The text has more than 1,048,576 bytes.
    TooLong,
    /// A byte outside a comment is neither a blank nor a visible ASCII character.
    Byte,
    /// A line that begins as that of a version, and isn't `version 2`.
    Version,
    /// The number of words is wrong.
    Words,
    /// A version behind other lines, a declaration behind a task, or a call in front of all tasks.
    Place,
    /// A word isn't a name.
    Name,
    /// The name is declared already.
    Twice,
    /// There are 16 objects or 64 tasks already, or a signal goes to a task past 63. In version 2 the
    /// numbers are 32, 400 and 399.
    Limit,
    /// The name isn't declared.
    Unknown,
    /// The object has no such call.
    Call,
    /// A signal has a mode.
    Mode,
    /// A word isn't a number, or the number of a file is past 65,535.
    Number,
    /// A word isn't a protection.
    Prot,
    /// A word isn't an access.
    Access,
}
