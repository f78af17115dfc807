//! Moves of a range of pages to another place.
ghost use Rattle.std.specs.Prelude.{◌≡◌, ℕ, ◌+◌, ◌-◌, ◌<◌, ◌≤◌, ◌↔◌, take, drop, length, None, IsTrue, IfOk, IfErr, OnOk, OnErr};
ghost use Rattle.std.specs.List.{AllByRecursion};
ghost use Rattle.arrayvec.specs.ArrayVec.{array_vec_len};
ghost use Rattle.word_bits.specs.PageMaps.{PageMap, runs};
ghost use Rattle.vma_map.specs.Runs.{page_map, AreRuns};
ghost use Rattle.vma_map.specs.Remaps.{AreApart, IsMoved, IsRemapAnswer, with_moved};

use crate::query::{count_begun_from, count_ended, is_mapped};
use crate::range::append;
use crate::store::AreaStore;
use crate::{MAX_AREAS, PAGES};
use arrayvec::ArrayVec;
use word_bits::{Area, Errno};

/// The most pieces in a list that is built: of each of four parts of the space one of each area.
const PIECES: usize = 4 * MAX_AREAS;

/// Adds what the areas have from one page to another behind the list, so that it begins at `to`.
fn append_moved(next: &mut ArrayVec<Area, PIECES>, areas: &[Area], from: u32, end: u32, to: u32)
    requires runs { AreRuns next.old.items }
    requires room { array_vec_len next.old + length areas.now ≤ 1024 }
    requires behind { (page : ℕ) → to ≤ page → page_map next.old.items page ≡ None }
    requires areas { AreRuns areas.now }
    requires order { from ≤ end }
    requires within { to + (end - from) ≤ 1048576 }
    ensures runs { AreRuns next.new.items }
    ensures few { array_vec_len next.new ≤ array_vec_len next.old + length areas.now }
    ensures pages { (page : ℕ) → page_map next.new.items page
        ≡ with_moved (page_map next.old.items) (page_map areas.now) from end to page }
{
    for area in areas {
        append(
            next,
            Area {
                start: area.start.clamp(from, end) - from + to,
                end: area.end.clamp(from, end) - from + to,
                prot: area.prot,
            },
        );
    }
}

/// The areas after the pages of a range went to a lower one.
fn moved_down(areas: &[Area], start: u32, len: u32, to: u32) -> ArrayVec<Area, PIECES>
    requires runs { AreRuns areas.now }
    requires few { length areas.now ≤ 256 }
    requires down { to + len ≤ start }
    requires within { start + len ≤ 1048576 }
    ensures runs { AreRuns result.items }
    ensures moved { IsMoved (page_map areas.now) start len to (page_map result.items) }
{
    let mut next = ArrayVec::new();
    append_moved(&mut next, areas, 0, to, 0);
    append_moved(&mut next, areas, start, start + len, to);
    append_moved(&mut next, areas, to + len, start, to + len);
    append_moved(&mut next, areas, start + len, PAGES, start + len);
    next
}

/// The areas after the pages of a range went to a higher one.
fn moved_up(areas: &[Area], start: u32, len: u32, to: u32) -> ArrayVec<Area, PIECES>
    requires runs { AreRuns areas.now }
    requires few { length areas.now ≤ 256 }
    requires up { start + len ≤ to }
    requires within { to + len ≤ 1048576 }
    ensures runs { AreRuns result.items }
    ensures moved { IsMoved (page_map areas.now) start len to (page_map result.items) }
{
    let mut next = ArrayVec::new();
    append_moved(&mut next, areas, 0, start, 0);
    append_moved(&mut next, areas, start + len, to, start + len);
    append_moved(&mut next, areas, start, start + len, to);
    append_moved(&mut next, areas, to + len, PAGES, to + len);
    next
}

/// The areas after the pages of a range went to another.
fn moved(areas: &[Area], start: u32, len: u32, to: u32) -> ArrayVec<Area, PIECES>
    requires runs { AreRuns areas.now }
    requires few { length areas.now ≤ 256 }
    requires apart { AreApart start len to }
    ensures runs { AreRuns result.items }
    ensures moved { IsMoved (page_map areas.now) start len to (page_map result.items) }
{
    if to < start {
        moved_down(areas, start, len, to)
    } else {
        moved_up(areas, start, len, to)
    }
}

/// Whether two ranges have pages, all within the space, and none in common.
fn are_apart(start: u32, len: u32, to: u32) -> bool
    ensures { IsTrue result ↔ AreApart start len to }
{
    match (start.checked_add(len), to.checked_add(len)) {
        (Some(end), Some(to_end)) if len > 0 && end <= PAGES && to_end <= PAGES => {
            end <= to || to_end <= start
        }
        _ => false,
    }
}

/// So many areas from a place on, in order.
fn areas_at<S: AreaStore>(
    place: &S::Place,
    hand: &mut S::Hand,
    at: usize,
    count: usize,
) -> ArrayVec<Area, MAX_AREAS>
    requires has { S.has place.now hand.old }
    requires within { at + count ≤ length (S.areas place.now hand.old) }
    ensures has { S.has place.now hand.new }
    ensures kept { S.keeps place.now hand.old hand.new }
    ensures same { S.areas place.now hand.new ≡ S.areas place.now hand.old }
    ensures all { result.items ≡ take count (drop at (S.areas place.now hand.old)) }
{
    let mut areas = ArrayVec::new();
    for i in 0..count {
        areas.push(S::get(place, hand, at + i));
    }
    areas
}

/// The place of the first area that meets a range of pages or touches it, and how many do.
fn meeting<S: AreaStore>(
    place: &S::Place,
    hand: &mut S::Hand,
    start: u32,
    end: u32,
) -> (usize, usize)
    requires has { S.has place.now hand.old }
    requires some { start < end }
    ensures has { S.has place.now hand.new }
    ensures kept { S.keeps place.now hand.old hand.new }
    ensures same { S.areas place.now hand.new ≡ S.areas place.now hand.old }
    ensures within { result.0 + result.1 ≤ length (S.areas place.now hand.old) }
    ensures before { AllByRecursion (λ area. area.end < start)
        (take result.0 (S.areas place.now hand.old)) }
    ensures behind { AllByRecursion (λ area. end < area.start)
        (drop result.1 (drop result.0 (S.areas place.now hand.old))) }
{
    let at = count_ended::<S>(place, hand, start);
    (at, count_begun_from::<S>(place, hand, at, end) - at)
}

/// Moves pages to a range apart, and answers its start. All areas from the one range to the other
/// are replaced at once, since there could be too many between two changes.
fn move_apart<S: AreaStore>(
    place: &S::Place,
    hand: &mut S::Hand,
    start: u32,
    len: u32,
    to: u32,
) -> Result<u32, Errno>
    requires has { S.has place.now hand.old }
    requires apart { AreApart start len to }
    ensures has { S.has place.now hand.new }
    ensures kept { S.keeps place.now hand.old hand.new }
    ensures page { IfOk result (λ page. page ≡ to) }
    ensures moved { OnOk result (IsMoved (page_map (S.areas place.now hand.old)) start len to
        (page_map (S.areas place.now hand.new))) }
    ensures refused { OnErr result (S.areas place.now hand.new ≡ S.areas place.now hand.old) }
    ensures many { OnErr result ((next : PageMap) →
        IsMoved (page_map (S.areas place.now hand.old)) start len to next →
        256 < length (runs next)) }
    ensures error { IfErr result (λ error. error ≡ Errno.NoMem) }
{
    let (at, count) = meeting::<S>(place, hand, start.min(to), start.max(to) + len);
    let met = areas_at::<S>(place, hand, at, count);
    let next = moved(met.as_slice(), start, len, to);
    if S::len(place, hand) - count + next.len() > MAX_AREAS {
        return Err(Errno::NoMem);
    }
    S::splice(place, hand, at, count, next.as_slice());
    Ok(to)
}

/// Moves `len` pages from `start` on to `to`, and answers that page. `Inval` where a range is empty,
/// ends past the last page or meets the other, `Fault` where a page of the first is unmapped, and
/// `NoMem` where the space would have too many areas.
pub fn remap<S: AreaStore>(
    place: &S::Place,
    hand: &mut S::Hand,
    start: u32,
    len: u32,
    to: u32,
) -> Result<u32, Errno>
    requires has { S.has place.now hand.old }
    ensures has { S.has place.now hand.new }
    ensures kept { S.keeps place.now hand.old hand.new }
    ensures answer { IsRemapAnswer (page_map (S.areas place.now hand.old)) start len to result }
    ensures moved { OnOk result (IsMoved (page_map (S.areas place.now hand.old)) start len to
        (page_map (S.areas place.now hand.new))) }
    ensures refused { OnErr result (S.areas place.now hand.new ≡ S.areas place.now hand.old) }
{
    if !are_apart(start, len, to) {
        return Err(Errno::Inval);
    }
    if !is_mapped::<S>(place, hand, start, len) {
        return Err(Errno::Fault);
    }
    move_apart::<S>(place, hand, start, len, to)
}
