//! Who holds a rw_semaphore, and the count word.
ghost use Rattle.std.specs.Prelude.{◌≡◌};
ghost use Rattle.word_bits.specs.Packed.{Unpacks};
ghost use Rattle.word_bits.specs.CountWord.{IsCount, count_word};

use crate::bits::{field, is_set};

/// What a count word says.
#[derive(Clone, Copy, Debug, Default, PartialEq, Eq)]
pub struct Count {
    /// A writer holds the semaphore.
    pub writer: bool,
    /// There are waiters in the list.
    pub waiters: bool,
    /// The first waiter asks that no one takes the semaphore before it does.
    pub handoff: bool,
    /// How many readers hold the semaphore or have added their bias, below 2^55.
    pub readers: u64,
    /// There are so many readers that no further one may be added.
    pub read_fail: bool,
}

impl Count {
    /// The word of a count: the flags `writer`, `waiters` and `handoff` in bits 0 to 2, `readers`
    /// in bits 8 to 62, and `read_fail` in bit 63.
    pub fn pack(self) -> u64
        requires { IsCount self }
        ensures { result ≡ count_word self }
    {
        let flags = u64::from(self.writer)
            + u64::from(self.waiters) * 2
            + u64::from(self.handoff) * 4;
        flags + (self.readers << 8) + (u64::from(self.read_fail) << 63)
    }

    /// The count whose word it is. `None` where no count packs to the word.
    pub fn unpack(word: u64) -> Option<Count>
        ensures { Unpacks IsCount count_word word result }
    {
        if field(word, 3, 5) != 0 {
            return None;
        }
        Some(Count {
            writer: is_set(word, 0),
            waiters: is_set(word, 1),
            handoff: is_set(word, 2),
            readers: field(word, 8, 55),
            read_fail: is_set(word, 63),
        })
    }
}
