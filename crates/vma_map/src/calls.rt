//! What the calls do to an address space, wherever its areas are kept.
ghost use Rattle.std.specs.Prelude.{◌≡◌, ◌+◌, ◌<◌, ◌≤◌, ◌↔◌, IsOk, IfOk, IfErr};
ghost use Rattle.vma_map.specs.Runs.{page_map};
ghost use Rattle.vma_map.specs.Spaces.{IsAccess, IsCall, mapped, mapped_any, mapped_new, unmapped, protected, populated, readable, remapped, access_reply, meaning, reply_of};

use crate::PAGES;
use crate::call::SpaceCall;
use crate::query::{is_free, is_mapped, lowest_free, prot_of};
use crate::range::change;
use crate::remapping::remap;
use crate::store::AreaStore;
use word_bits::{Errno, Reply};

/// Does a call. The reply of a refused one names the error, and the areas are as before.
pub fn apply<S: AreaStore>(place: &S::Place, hand: &mut S::Hand, call: SpaceCall) -> Reply
    requires has { S.has place.now hand.old }
    requires valid { IsCall call }
    ensures has { S.has place.now hand.new }
    ensures kept { S.keeps place.now hand.old hand.new }
    ensures next { page_map (S.areas place.now hand.new)
        ≡ (meaning (page_map (S.areas place.now hand.old)) call).0 }
    ensures reply { result ≡ (meaning (page_map (S.areas place.now hand.old)) call).1 }
{
    let outcome = outcome::<S>(place, hand, call);
    outcome.unwrap_or_else(Reply::Refused)
}

fn outcome<S: AreaStore>(
    place: &S::Place,
    hand: &mut S::Hand,
    call: SpaceCall,
) -> Result<Reply, Errno>
    requires has { S.has place.now hand.old }
    requires valid { IsCall call }
    ensures has { S.has place.now hand.new }
    ensures kept { S.keeps place.now hand.old hand.new }
    ensures next { page_map (S.areas place.now hand.new)
        ≡ (meaning (page_map (S.areas place.now hand.old)) call).0 }
    ensures reply { reply_of result
        ≡ (meaning (page_map (S.areas place.now hand.old)) call).1 }
{
    match call {
        SpaceCall::Map { start, len, prot } => map::<S>(place, hand, start, len, prot),
        SpaceCall::MapAny { len, prot } => map_any::<S>(place, hand, len, prot),
        SpaceCall::MapNew { start, len, prot } => map_new::<S>(place, hand, start, len, prot),
        SpaceCall::Unmap { start, len } => unmap::<S>(place, hand, start, len),
        SpaceCall::Protect { start, len, prot } => protect::<S>(place, hand, start, len, prot),
        SpaceCall::Populate { start, len, prot } => populate::<S>(place, hand, start, len, prot),
        SpaceCall::Fault { page, access } => Ok(fault::<S>(place, hand, page, access)),
        SpaceCall::Remap { start, len, to } => remap_pages::<S>(place, hand, start, len, to),
    }
}

fn map<S: AreaStore>(
    place: &S::Place,
    hand: &mut S::Hand,
    start: u32,
    len: u32,
    prot: u8,
) -> Result<Reply, Errno>
    requires has { S.has place.now hand.old }
    requires prot { prot < 8 }
    ensures has { S.has place.now hand.new }
    ensures kept { S.keeps place.now hand.old hand.new }
    ensures next { page_map (S.areas place.now hand.new)
        ≡ (mapped (page_map (S.areas place.now hand.old)) start len prot).0 }
    ensures reply { reply_of result
        ≡ (mapped (page_map (S.areas place.now hand.old)) start len prot).1 }
{
    let end = range_end(start, len)?;
    change::<S>(place, hand, start, end, Some(prot))?;
    Ok(Reply::Num(start))
}

fn map_any<S: AreaStore>(
    place: &S::Place,
    hand: &mut S::Hand,
    len: u32,
    prot: u8,
) -> Result<Reply, Errno>
    requires has { S.has place.now hand.old }
    requires prot { prot < 8 }
    ensures has { S.has place.now hand.new }
    ensures kept { S.keeps place.now hand.old hand.new }
    ensures next { page_map (S.areas place.now hand.new)
        ≡ (mapped_any (page_map (S.areas place.now hand.old)) len prot).0 }
    ensures reply { reply_of result
        ≡ (mapped_any (page_map (S.areas place.now hand.old)) len prot).1 }
{
    if len == 0 {
        return Err(Errno::Inval);
    }
    let start = lowest_free::<S>(place, hand, len).ok_or(Errno::NoMem)?;
    map::<S>(place, hand, start, len, prot)
}

fn map_new<S: AreaStore>(
    place: &S::Place,
    hand: &mut S::Hand,
    start: u32,
    len: u32,
    prot: u8,
) -> Result<Reply, Errno>
    requires has { S.has place.now hand.old }
    requires prot { prot < 8 }
    ensures has { S.has place.now hand.new }
    ensures kept { S.keeps place.now hand.old hand.new }
    ensures next { page_map (S.areas place.now hand.new)
        ≡ (mapped_new (page_map (S.areas place.now hand.old)) start len prot).0 }
    ensures reply { reply_of result
        ≡ (mapped_new (page_map (S.areas place.now hand.old)) start len prot).1 }
{
    let end = range_end(start, len)?;
    if !is_free::<S>(place, hand, start, len) {
        return Err(Errno::Exist);
    }
    change::<S>(place, hand, start, end, Some(prot))?;
    Ok(Reply::Num(start))
}

fn unmap<S: AreaStore>(
    place: &S::Place,
    hand: &mut S::Hand,
    start: u32,
    len: u32,
) -> Result<Reply, Errno>
    requires has { S.has place.now hand.old }
    ensures has { S.has place.now hand.new }
    ensures kept { S.keeps place.now hand.old hand.new }
    ensures next { page_map (S.areas place.now hand.new)
        ≡ (unmapped (page_map (S.areas place.now hand.old)) start len).0 }
    ensures reply { reply_of result
        ≡ (unmapped (page_map (S.areas place.now hand.old)) start len).1 }
{
    let end = range_end(start, len)?;
    change::<S>(place, hand, start, end, None)?;
    Ok(Reply::Good)
}

fn protect<S: AreaStore>(
    place: &S::Place,
    hand: &mut S::Hand,
    start: u32,
    len: u32,
    prot: u8,
) -> Result<Reply, Errno>
    requires has { S.has place.now hand.old }
    requires prot { prot < 8 }
    ensures has { S.has place.now hand.new }
    ensures kept { S.keeps place.now hand.old hand.new }
    ensures next { page_map (S.areas place.now hand.new)
        ≡ (protected (page_map (S.areas place.now hand.old)) start len prot).0 }
    ensures reply { reply_of result
        ≡ (protected (page_map (S.areas place.now hand.old)) start len prot).1 }
{
    let end = range_end(start, len)?;
    if !is_mapped::<S>(place, hand, start, len) {
        return Err(Errno::NoMem);
    }
    change::<S>(place, hand, start, end, Some(prot))?;
    Ok(Reply::Good)
}

fn populate<S: AreaStore>(
    place: &S::Place,
    hand: &mut S::Hand,
    start: u32,
    len: u32,
    prot: u8,
) -> Result<Reply, Errno>
    requires has { S.has place.now hand.old }
    requires prot { prot < 8 }
    ensures has { S.has place.now hand.new }
    ensures kept { S.keeps place.now hand.old hand.new }
    ensures next { page_map (S.areas place.now hand.new)
        ≡ (populated (page_map (S.areas place.now hand.old)) start len prot).0 }
    ensures reply { reply_of result
        ≡ (populated (page_map (S.areas place.now hand.old)) start len prot).1 }
{
    let end = range_end(start, len)?;
    change::<S>(place, hand, start, end, Some(prot))?;
    Ok(Reply::Num(readable(len, prot)))
}

// It isn't inlined, so that the lists of areas that it builds stay out of the frame of the other
// calls.
#[inline(never)]
fn remap_pages<S: AreaStore>(
    place: &S::Place,
    hand: &mut S::Hand,
    start: u32,
    len: u32,
    to: u32,
) -> Result<Reply, Errno>
    requires has { S.has place.now hand.old }
    ensures has { S.has place.now hand.new }
    ensures kept { S.keeps place.now hand.old hand.new }
    ensures next { page_map (S.areas place.now hand.new)
        ≡ (remapped (page_map (S.areas place.now hand.old)) start len to).0 }
    ensures reply { reply_of result
        ≡ (remapped (page_map (S.areas place.now hand.old)) start len to).1 }
{
    let page = remap::<S>(place, hand, start, len, to)?;
    Ok(Reply::Num(page))
}

fn fault<S: AreaStore>(place: &S::Place, hand: &mut S::Hand, page: u32, access: u8) -> Reply
    requires has { S.has place.now hand.old }
    requires access { IsAccess access }
    ensures has { S.has place.now hand.new }
    ensures kept { S.keeps place.now hand.old hand.new }
    ensures same { S.areas place.now hand.new ≡ S.areas place.now hand.old }
    ensures reply { result ≡ access_reply (page_map (S.areas place.now hand.old) page) access }
{
    meet(prot_of::<S>(place, hand, page), access)
}

/// What an access meets at a page of this protection.
pub fn meet(prot: Option<u8>, access: u8) -> Reply
    requires { IsAccess access }
    ensures { result ≡ access_reply prot access }
{
    match prot {
        None => Reply::MapErr,
        Some(prot) if prot & access != 0 => Reply::Good,
        Some(_) => Reply::AccErr,
    }
}

/// The page behind a range.
fn range_end(start: u32, len: u32) -> Result<u32, Errno>
    ensures valid { IsOk result ↔ ((0 < len) × (start + len ≤ 1048576)) }
    ensures end { IfOk result (λ end. end ≡ start + len) }
    ensures errno { IfErr result (λ errno. errno ≡ Errno.Inval) }
{
    match start.checked_add(len) {
        Some(end) if len > 0 && end <= PAGES => Ok(end),
        _ => Err(Errno::Inval),
    }
}

/// The bit of a protection that admits reading.
const READ: u8 = 1;

#[tactic(auto, using(crate::proofs::FaultLemmas::read_bit))]
/// How many of so many pages of this protection can be read.
fn readable(len: u32, prot: u8) -> u32
    ensures { result ≡ readable len prot }
{
    if prot & READ != 0 { len } else { 0 }
}
