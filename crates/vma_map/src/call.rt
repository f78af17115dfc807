//! The calls on an address space.
ghost use Rattle.std.specs.Prelude.{◌≡◌};
ghost use Rattle.word_bits.specs.CallKinds.{kind_number};
ghost use Rattle.word_bits.specs.Packed.{IsFound};
ghost use Rattle.vma_map.specs.Spaces.{IsCallOf, call_in, call_of};

use word_bits::{CallKind, CallWords};

/// A call on an address space. Pages are numbered from 0 to 1,048,575.
#[derive(Clone, Copy, Debug, PartialEq, Eq)]
pub enum SpaceCall {
    /// Gives `len` pages from `start` on the protection `prot` (r 1, w 2, x 4), whatever was there.
    Map { start: u32, len: u32, prot: u8 },
    /// Maps `len` pages at the lowest start from which so many pages are unmapped.
    MapAny { len: u32, prot: u8 },
    /// As `Map`, where no page of the range is mapped yet.
    MapNew { start: u32, len: u32, prot: u8 },
    /// Unmaps `len` pages from `start` on, mapped or not.
    Unmap { start: u32, len: u32 },
    /// Gives the range another protection, where each of its pages is mapped.
    Protect { start: u32, len: u32, prot: u8 },
    /// As `Map`. The reply is how many pages of the range can be read.
    Populate { start: u32, len: u32, prot: u8 },
    /// Touches a page by an access: r 1, w 2 or x 4.
    Fault { page: u32, access: u8 },
    /// Moves `len` pages from `start` on to `to`, whatever was there, where each of them is mapped.
    Remap { start: u32, len: u32, to: u32 },
}

/// The call of a kind with three numbers, a protection and an access. What it doesn't have must be 0.
fn call_in(
    kind: CallKind,
    first: u32,
    second: u32,
    third: u32,
    prot: u8,
    access: u8,
) -> Option<SpaceCall>
    ensures { result ≡ call_in (kind_number kind) first second third prot access }
{
    let (start, len) = (first, second);
    let has_prot = prot < 8 && access == 0 && third == 0;
    match kind {
        CallKind::Map if has_prot => Some(SpaceCall::Map { start, len, prot }),
        CallKind::MapAny if has_prot && second == 0 => Some(SpaceCall::MapAny { len: first, prot }),
        CallKind::MapNew if has_prot => Some(SpaceCall::MapNew { start, len, prot }),
        CallKind::Unmap if has_prot && prot == 0 => Some(SpaceCall::Unmap { start, len }),
        CallKind::Protect if has_prot => Some(SpaceCall::Protect { start, len, prot }),
        CallKind::Populate if has_prot => Some(SpaceCall::Populate { start, len, prot }),
        CallKind::Fault if second == 0 && third == 0 && prot == 0 && matches!(access, 1 | 2 | 4) =>
            {
                Some(SpaceCall::Fault {
                    page: first,
                    access,
                })
            }
        CallKind::Remap if prot == 0 && access == 0 => Some(SpaceCall::Remap {
            start,
            len,
            to: third,
        }),
        _ => None,
    }
}

impl SpaceCall {
    /// The call whose words in some mode these are. `None` where no call has them.
    pub fn call_of(words: CallWords) -> Option<SpaceCall>
        ensures value { result ≡ call_of words }
        ensures exact { IsFound (IsCallOf words) result }
    {
        if !words.has_mode() {
            return None;
        }
        call_in(
            CallKind::of_number(words.kind())?,
            words.first(),
            words.second(),
            words.third(),
            words.prot(),
            words.access(),
        )
    }
}
