//! An entry of a log, and its word.
ghost use Rattle.std.specs.Prelude.{◌≡◌};
ghost use Rattle.word_bits.specs.Packed.{Unpacks};
ghost use Rattle.word_bits.specs.EntryWord.{IsEntry, entry_word};

use crate::MAX_TASKS;
use crate::bits::{field, join};

/// A call that an object's log names.
#[derive(Clone, Copy, Debug, PartialEq, Eq)]
pub struct Entry {
    /// The task, below `MAX_TASKS`.
    pub task: u32,
    /// The number of the call among its task's calls on the object, from 0, below 2^18.
    pub call: u32,
}

impl Entry {
    /// The word of an entry: the call in bits 0 to 17, the task in bits 18 to 26.
    pub fn pack(self) -> u64
        requires { IsEntry self }
        ensures { result ≡ entry_word self }
    {
        join(u64::from(self.call), u64::from(self.task), 18)
    }

    /// The entry whose word it is. `None` where no entry packs to the word.
    pub fn unpack(word: u64) -> Option<Entry>
        ensures { Unpacks IsEntry entry_word word result }
    {
        let task = field(word, 18, 9) as u32;
        if word >> 27 != 0 || task >= MAX_TASKS {
            return None;
        }
        Some(Entry {
            task,
            call: field(word, 0, 18) as u32,
        })
    }
}
