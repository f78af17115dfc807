//! Changes of a range of pages, in place over areas in order.
ghost use Rattle.std.specs.Prelude.{◌≡◌, ℕ, ◌+◌, ◌-◌, ◌<◌, ◌≤◌, ◌↔◌, ◌++◌, nat_lt, if◌then◌else◌, take, drop, length, None, Some, IfSome, IsOk, OnOk, OnErr, IfErr};
ghost use Rattle.std.specs.List.{AllByRecursion};
ghost use Rattle.arrayvec.specs.ArrayVec.{array_vec_len};
ghost use Rattle.word_bits.specs.PageMaps.{runs};
ghost use Rattle.vma_map.specs.Runs.{page_map, AreRuns, ends_of};
ghost use Rattle.vma_map.specs.Spaces.{changed};

use crate::MAX_AREAS;
use crate::query::{count_begun_from, count_ended};
use crate::store::AreaStore;
use arrayvec::ArrayVec;
use word_bits::{Area, Errno};

/// The most areas that a change makes of those that meet its range: what they leave in front of it,
/// the range, and what they leave behind it.
const PIECES: usize = 3;

/// Adds a piece behind the others. An empty one is dropped, and one that touches the last area and
/// has its protection is joined with it.
pub(crate) fn append<const N: usize>(next: &mut ArrayVec<Area, N>, piece: Area)
    requires runs { AreRuns next.old.items }
    requires room { array_vec_len next.old < N }
    requires within { piece.end ≤ 1048576 }
    requires prot { piece.prot < 8 }
    requires behind { piece.start < piece.end →
        (page : ℕ) → piece.start ≤ page → page_map next.old.items page ≡ None }
    ensures runs { AreRuns next.new.items }
    ensures few { array_vec_len next.new ≤ array_vec_len next.old + 1 }
    ensures empty { piece.end ≤ piece.start → next.new.items ≡ next.old.items }
    ensures pages { (page : ℕ) → page_map next.new.items page
        ≡ changed (page_map next.old.items) piece.start piece.end (Some piece.prot) page }
{
    if piece.end <= piece.start {
        return;
    }
    match next.pop() {
        Some(last) if last.end == piece.start && last.prot == piece.prot => {
            next.push(Area {
                start: last.start,
                ..piece
            });
        }
        Some(last) => {
            next.push(last);
            next.push(piece);
        }
        None => next.push(piece),
    }
}

/// Adds a range of pages behind the areas, if they are to have a protection.
fn append_range(next: &mut ArrayVec<Area, PIECES>, start: u32, end: u32, prot: Option<u8>)
    requires runs { AreRuns next.old.items }
    requires room { array_vec_len next.old < 3 }
    requires some { start < end }
    requires within { end ≤ 1048576 }
    requires prot { IfSome prot (λ bits. bits < 8) }
    requires behind { (page : ℕ) → start ≤ page → page_map next.old.items page ≡ None }
    ensures runs { AreRuns next.new.items }
    ensures few { array_vec_len next.new ≤ array_vec_len next.old + 1 }
    ensures pages { (page : ℕ) → page_map next.new.items page
        ≡ changed (page_map next.old.items) start end prot page }
{
    if let Some(prot) = prot {
        append(next, Area { start, end, prot });
    }
}

/// What areas leave in front of a page, where no one ends before it.
fn piece_before(areas: &[Area], page: u32) -> ArrayVec<Area, PIECES>
    requires runs { AreRuns areas.now }
    requires reach { AllByRecursion (λ area. page ≤ area.end) areas.now }
    ensures runs { AreRuns result.items }
    ensures few { array_vec_len result ≤ 1 }
    ensures pages { (q : ℕ) → page_map result.items q
        ≡ (if nat_lt q page then page_map areas.now q else None) }
{
    let mut pieces = ArrayVec::new();
    if let Some(area) = areas.first() {
        append(
            &mut pieces,
            Area {
                end: area.end.min(page),
                ..*area
            },
        );
    }
    pieces
}

/// Adds what areas leave from a page on, where no one begins behind it.
fn append_from(next: &mut ArrayVec<Area, PIECES>, areas: &[Area], page: u32)
    requires runs { AreRuns next.old.items }
    requires room { array_vec_len next.old < 3 }
    requires before { (q : ℕ) → page ≤ q → page_map next.old.items q ≡ None }
    requires areas { AreRuns areas.now }
    requires reach { AllByRecursion (λ area. area.start ≤ page) areas.now }
    ensures runs { AreRuns next.new.items }
    ensures pages { (q : ℕ) → page_map next.new.items q
        ≡ (if nat_lt q page then page_map next.old.items q else page_map areas.now q) }
{
    if let Some(area) = areas.last() {
        append(
            next,
            Area {
                start: area.start.max(page),
                ..*area
            },
        );
    }
}

/// What the areas that meet a range become: each page of the range has this protection, or none.
fn pieces_of(met: &[Area], start: u32, end: u32, prot: Option<u8>) -> ArrayVec<Area, PIECES>
    requires runs { AreRuns met.now }
    requires some { start < end }
    requires within { end ≤ 1048576 }
    requires prot { IfSome prot (λ bits. bits < 8) }
    requires ends { AllByRecursion (λ area. start ≤ area.end) met.now }
    requires starts { AllByRecursion (λ area. area.start ≤ end) met.now }
    ensures runs { AreRuns result.items }
    ensures pages { (q : ℕ) →
        page_map result.items q ≡ changed (page_map met.now) start end prot q }
{
    let mut pieces = piece_before(met, start);
    append_range(&mut pieces, start, end, prot);
    append_from(&mut pieces, met, end);
    pieces
}

/// Moves the areas at a place behind those that follow them.
fn move_behind(areas: &mut [Area], place: usize, count: usize)
    requires { place + count ≤ length areas.old }
    ensures { areas.new ≡ take place areas.old ++ drop (place + count) areas.old
        ++ take count (drop place areas.old) }
{
    areas[place..].rotate_left(count);
}

/// Writes pieces over the areas at a place.
fn write_over(areas: &mut [Area], place: usize, pieces: &[Area])
    requires { place + length pieces.now ≤ length areas.old }
    ensures { areas.new ≡ take place areas.old ++ pieces.now
        ++ drop (place + length pieces.now) areas.old }
{
    areas[place..place + pieces.len()].copy_from_slice(pieces);
}

/// Puts pieces in the place of so many areas.
pub(crate) fn splice(
    areas: &mut ArrayVec<Area, MAX_AREAS>,
    place: usize,
    count: usize,
    pieces: &[Area],
)
    requires within { place + count ≤ array_vec_len areas.old }
    requires room { array_vec_len areas.old + length pieces.now ≤ 256 + count }
    ensures { areas.new.items ≡ take place areas.old.items ++ pieces.now
        ++ drop (place + count) areas.old.items }
{
    let (over, more) = pieces.split_at(pieces.len().min(count));
    write_over(areas.as_mut_slice(), place, over);
    let place = place + over.len();
    if pieces.len() <= count {
        let len = areas.len();
        let unused = count - pieces.len();
        move_behind(areas.as_mut_slice(), place, unused);
        areas.truncate(len - unused);
    } else {
        for (i, piece) in more.iter().enumerate() {
            areas.insert(place + i, *piece);
        }
    }
}

/// Of so many areas from a place on the first and the last.
fn ends_of<S: AreaStore>(
    place: &S::Place,
    hand: &mut S::Hand,
    at: usize,
    count: usize,
) -> ArrayVec<Area, 2>
    requires has { S.has place.now hand.old }
    requires within { at + count ≤ length (S.areas place.now hand.old) }
    ensures has { S.has place.now hand.new }
    ensures kept { S.keeps place.now hand.old hand.new }
    ensures same { S.areas place.now hand.new ≡ S.areas place.now hand.old }
    ensures ends { result.items ≡ ends_of (take count (drop at (S.areas place.now hand.old))) }
{
    let mut ends = ArrayVec::new();
    if count == 0 {
        return ends;
    }
    ends.push(S::get(place, hand, at));
    if count > 1 {
        ends.push(S::get(place, hand, at + count - 1));
    }
    ends
}

/// Gives each page of a range this protection, or none, unless there are too many areas then. Of
/// the areas that meet the range only the first and the last tell what it leaves of them.
pub(crate) fn change<S: AreaStore>(
    place: &S::Place,
    hand: &mut S::Hand,
    start: u32,
    end: u32,
    prot: Option<u8>,
) -> Result<(), Errno>
    requires has { S.has place.now hand.old }
    requires some { start < end }
    requires within { end ≤ 1048576 }
    requires prot { IfSome prot (λ bits. bits < 8) }
    ensures has { S.has place.now hand.new }
    ensures kept { S.keeps place.now hand.old hand.new }
    ensures few { IsOk result ↔ (length
        (runs (changed (page_map (S.areas place.now hand.old)) start end prot)) ≤ 256) }
    ensures ok { OnOk result (page_map (S.areas place.now hand.new)
        ≡ changed (page_map (S.areas place.now hand.old)) start end prot) }
    ensures err { OnErr result (S.areas place.now hand.new ≡ S.areas place.now hand.old) }
    ensures errno { IfErr result (λ errno. errno ≡ Errno.NoMem) }
{
    let at = count_ended::<S>(place, hand, start);
    let count = count_begun_from::<S>(place, hand, at, end) - at;
    let met = ends_of::<S>(place, hand, at, count);
    let pieces = pieces_of(met.as_slice(), start, end, prot);
    if S::len(place, hand) - count + pieces.len() > MAX_AREAS {
        return Err(Errno::NoMem);
    }
    S::splice(place, hand, at, count, pieces.as_slice());
    Ok(())
}
