//! The words that store a table of descriptors.
ghost use Rattle.std.specs.Prelude.{◌≡◌, length, map};
ghost use Rattle.word_bits.specs.Packed.{IsFound};
ghost use Rattle.fd_table.specs.Tables.{IsTable, slot_word};

use crate::DESCRIPTORS;

/// Writes a word for each descriptor: 0, or the number of its file plus 1.
pub(crate) fn store(files: &[Option<u16>], out: &mut [u64])
    requires { length out.old ≡ length files.now }
    ensures { out.new ≡ map slot_word files.now }
{
    for (fd, file) in files.iter().enumerate() {
        out[fd] = match file {
            None => 0,
            Some(file) => u64::from(*file) + 1,
        };
    }
}

/// The files that the words store. `None` where they store none.
pub(crate) fn load(words: &[u64]) -> Option<[Option<u16>; DESCRIPTORS]>
    requires { length words.now ≡ 64 }
    ensures { IsFound (λ files. IsTable files × (map slot_word files ≡ words.now)) result }
{
    let mut files = [None; DESCRIPTORS];
    for (fd, word) in words.iter().enumerate() {
        files[fd] = match *word {
            0 => None,
            word => Some(u16::try_from(word - 1).ok()?),
        };
    }
    Some(files)
}
