//! The record of a call, and its word.
ghost use Rattle.std.specs.Prelude.{◌≡◌, ◌<◌, ◌^◌};
ghost use Rattle.word_bits.specs.Packed.{Unpacks, IsFound};
ghost use Rattle.word_bits.specs.Replies.{errno_number};
ghost use Rattle.word_bits.specs.RecWord.{IsRec, rec_word, kind_of, value_of, KindAndValue};

use crate::bits::{field, join};
use crate::reply::{Errno, Reply};

/// What is recorded of a call.
#[derive(Clone, Copy, Debug, PartialEq, Eq)]
pub struct Rec {
    /// How many logged calls stand before it, below 2^18.
    pub k: u32,
    /// Its reply. A number, or a lock's word, is below 2^22.
    pub reply: Reply,
}

fn kind(reply: Reply) -> u64
    ensures { result ≡ kind_of reply }
{
    match reply {
        Reply::Good => 1,
        Reply::Num(_) => 2,
        Reply::Refused(_) => 3,
        Reply::MapErr => 4,
        Reply::AccErr => 5,
        Reply::Busy(_) => 6,
        Reply::Intr => 7,
        Reply::Sent => 8,
    }
}

fn value(reply: Reply) -> u64
    ensures { result ≡ value_of reply }
{
    match reply {
        Reply::Num(number) => u64::from(number),
        Reply::Refused(errno) => u64::from(errno.number()),
        Reply::Busy(word) => word,
        Reply::Good | Reply::MapErr | Reply::AccErr | Reply::Intr | Reply::Sent => 0,
    }
}

fn errno(number: u64) -> Option<Errno>
    ensures { IsFound (λ e. errno_number e ≡ number) result }
{
    match number {
        9 => Some(Errno::BadF),
        12 => Some(Errno::NoMem),
        14 => Some(Errno::Fault),
        17 => Some(Errno::Exist),
        22 => Some(Errno::Inval),
        24 => Some(Errno::MFile),
        _ => None,
    }
}

fn reply(kind: u64, value: u64) -> Option<Reply>
    requires { value < 2 ^ 32 }
    ensures { IsFound (KindAndValue kind value) result }
{
    match (kind, value) {
        (1, 0) => Some(Reply::Good),
        (2, _) => Some(Reply::Num(value as u32)),
        (3, _) => Some(Reply::Refused(errno(value)?)),
        (4, 0) => Some(Reply::MapErr),
        (5, 0) => Some(Reply::AccErr),
        (6, _) => Some(Reply::Busy(value)),
        (7, 0) => Some(Reply::Intr),
        (8, 0) => Some(Reply::Sent),
        _ => None,
    }
}

impl Rec {
    /// The word of a record: `k` in bits 0 to 17, the kind of its reply in bits 18 to 21, the value
    /// in bits 22 to 43. No record has the word 0, which stands for a call that isn't recorded.
    pub fn pack(self) -> u64
        requires { IsRec self }
        ensures { result ≡ rec_word self }
    {
        let low = join(u64::from(self.k), kind(self.reply), 18);
        join(low, value(self.reply), 22)
    }

    /// The record whose word it is. `None` where no record packs to the word.
    pub fn unpack(word: u64) -> Option<Rec>
        ensures { Unpacks IsRec rec_word word result }
    {
        if word >> 44 != 0 {
            return None;
        }
        Some(Rec {
            k: field(word, 0, 18) as u32,
            reply: reply(field(word, 18, 4), field(word, 22, 22))?,
        })
    }
}
