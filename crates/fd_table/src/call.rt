//! The calls on a table of descriptors.
ghost use Rattle.std.specs.Prelude.{◌≡◌};
ghost use Rattle.word_bits.specs.Packed.{IsFound};
ghost use Rattle.fd_table.specs.Tables.{IsCallOf, call_of};

use word_bits::{CallKind, CallWords};

/// A call on a table of descriptors. A descriptor past the last one isn't open.
#[derive(Clone, Copy, Debug, PartialEq, Eq)]
pub enum TableCall {
    /// Opens the lowest free descriptor to a file.
    Open { file: u16 },
    /// Frees an open descriptor.
    Close { fd: u32 },
    /// Opens the lowest free descriptor to the file of an open one.
    Dup { fd: u32 },
    /// Opens `to` to the file of an open descriptor, whatever `to` was before.
    Dup2 { fd: u32, to: u32 },
    /// Asks to which file a descriptor is open.
    Get { fd: u32 },
}

impl TableCall {
    /// The call whose words in some mode these are. `None` where no call has them.
    pub fn call_of(words: CallWords) -> Option<TableCall>
        ensures value { result ≡ call_of words }
        ensures exact { IsFound (IsCallOf words) result }
    {
        if !words.has_mode() || words.prot() != 0 || words.access() != 0 || words.third() != 0 {
            return None;
        }
        let first = words.first();
        match (CallKind::of_number(words.kind())?, words.second()) {
            (CallKind::Open, 0) => Some(TableCall::Open {
                file: u16::try_from(first).ok()?,
            }),
            (CallKind::Close, 0) => Some(TableCall::Close { fd: first }),
            (CallKind::Dup, 0) => Some(TableCall::Dup { fd: first }),
            (CallKind::Dup2, to) => Some(TableCall::Dup2 { fd: first, to }),
            (CallKind::Get, 0) => Some(TableCall::Get { fd: first }),
            _ => None,
        }
    }
}
