//! A run of pages, and its word.
ghost use Rattle.std.specs.Prelude.{◌≡◌};
ghost use Rattle.word_bits.specs.Packed.{Unpacks};
ghost use Rattle.word_bits.specs.AreaWord.{IsArea, area_word};

use crate::bits::{field, join};

/// A run of pages of one protection.
#[derive(Clone, Copy, Debug, Default, PartialEq, Eq)]
pub struct Area {
    /// The first page.
    pub start: u32,
    /// The page behind the last one, at most 1,048,576.
    pub end: u32,
    /// The protection: r 1, w 2, x 4.
    pub prot: u8,
}

impl Area {
    /// The word of an area: the protection in bits 0 to 2, `end` in bits 3 to 23, `start` in bits
    /// 24 to 43.
    pub fn pack(self) -> u64
        requires { IsArea self }
        ensures { result ≡ area_word self }
    {
        let low = join(u64::from(self.prot), u64::from(self.end), 3);
        join(low, u64::from(self.start), 24)
    }

    /// The area whose word it is. `None` where no area packs to the word.
    pub fn unpack(word: u64) -> Option<Area>
        ensures { Unpacks IsArea area_word word result }
    {
        let start = field(word, 24, 20) as u32;
        let end = field(word, 3, 21) as u32;
        if word >> 44 != 0 || end <= start || end > 1 << 20 {
            return None;
        }
        Some(Area {
            start,
            end,
            prot: field(word, 0, 3) as u8,
        })
    }
}
