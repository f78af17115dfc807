//! The kinds of calls, and their numbers.
ghost use Rattle.std.specs.Prelude.{◌≡◌};
ghost use Rattle.word_bits.specs.Packed.{IsFound};
ghost use Rattle.word_bits.specs.CallKinds.{kind_number, kind_of_number};

/// What a call does. Each kind has a number of its own in a call's words.
#[derive(Clone, Copy, Debug, PartialEq, Eq)]
pub enum CallKind {
    /// Maps pages of a space, whatever was there.
    Map,
    /// Maps pages of a space at the lowest start where they fit.
    MapAny,
    /// Maps pages of a space where none of them is mapped.
    MapNew,
    /// Unmaps pages of a space.
    Unmap,
    /// Changes the protection of pages of a space.
    Protect,
    /// Maps pages of a space, and counts the readable ones.
    Populate,
    /// Touches a page of a space.
    Fault,
    /// Opens a file at the lowest free descriptor of a table.
    Open,
    /// Closes a descriptor of a table.
    Close,
    /// Copies a descriptor of a table to the lowest free one.
    Dup,
    /// Copies a descriptor of a table to a given one.
    Dup2,
    /// Looks which file a descriptor of a table has.
    Get,
    /// Moves pages of a space.
    Remap,
    /// Sends a signal to a task.
    Signal,
}

impl CallKind {
    /// The number in a call's words.
    pub fn number(self) -> u8
        ensures { result ≡ kind_number self }
    {
        match self {
            CallKind::Map => 1,
            CallKind::MapAny => 2,
            CallKind::MapNew => 3,
            CallKind::Unmap => 4,
            CallKind::Protect => 5,
            CallKind::Populate => 6,
            CallKind::Fault => 7,
            CallKind::Open => 8,
            CallKind::Close => 9,
            CallKind::Dup => 10,
            CallKind::Dup2 => 11,
            CallKind::Get => 12,
            CallKind::Remap => 13,
            CallKind::Signal => 15,
        }
    }

    /// The kind of a number. `None` where no kind has it.
    pub fn of_number(number: u8) -> Option<CallKind>
        ensures value { result ≡ kind_of_number number }
        ensures exact { IsFound (λ kind. kind_number kind ≡ number) result }
    {
        match number {
            1 => Some(CallKind::Map),
            2 => Some(CallKind::MapAny),
            3 => Some(CallKind::MapNew),
            4 => Some(CallKind::Unmap),
            5 => Some(CallKind::Protect),
            6 => Some(CallKind::Populate),
            7 => Some(CallKind::Fault),
            8 => Some(CallKind::Open),
            9 => Some(CallKind::Close),
            10 => Some(CallKind::Dup),
            11 => Some(CallKind::Dup2),
            12 => Some(CallKind::Get),
            13 => Some(CallKind::Remap),
            15 => Some(CallKind::Signal),
            _ => None,
        }
    }
}
