//! What a holder looks for in an address space under its lock.
ghost use Rattle.std.specs.Prelude.{◌≡◌, ◌≢◌, ◌^◌, ◌<◌, ◌≤◌, Some, drop, length, slice_get, take};
ghost use Rattle.std.specs.List.{AllByRecursion};
ghost use Rattle.word_bits.specs.PageMaps.{PageMap, IsPageMap, runs};
ghost use Rattle.lock_core.specs.Pasts.{GoesOn};
ghost use Rattle.lock_core.specs.Shown.{StepsOn};
ghost use Rattle.lock_core.specs.Locking.{Looks};
ghost use Rattle.vma_map.specs.Runs.{page_map};
ghost use Rattle.vma_map.specs.Spaces.{IsRunAt, stores};
ghost use Rattle.guarded.specs.CallServing.{readable_from, share};
ghost use Rattle.guarded.specs.Splicing.{HaveAreas, area_of, areas_in};
ghost use Rattle.guarded.specs.Types.{No};

use sleep_lock::SleepLock;
use vma_map::{Areas, Bisection, Search};
use word_bits::Area;

/// The run that has the page. `None` where the page is unmapped. It loads only the words that the
/// search wants, at most 10.
pub(crate) fn find_page<L: SleepLock<Areas>>(
    lock: &L,
    pass: &mut L::Pass,
    page: u32,
) -> Option<Area>
    requires own { L.sits lock.now pass.old }
    requires held { (L.view pass.old).hand.held ≢ No }
    ensures on { StepsOn L.sits L.view lock.now pass.old pass.new }
    ensures queue { GoesOn (L.spun pass.old) (L.spun pass.new) }
    ensures kept { Looks (L.view pass.old) (L.view pass.new) }
    ensures found { (m : PageMap) → IsPageMap m → stores m ≡ (L.view pass.old).hand.known →
        IsRunAt (runs m) m page result }
{
    let mut search = Search::new(page);
    // Nobody writes while the pass holds, so the words that are loaded are those of one moment.
    while let Some(at) = search.want() {
        search.give(lock.word(pass, at));
    }
    search.answer()
}

/// An area, by its place in their order.
pub(crate) fn area_at<L: SleepLock<Areas>>(lock: &L, pass: &mut L::Pass, at: usize) -> Area
    requires own { L.sits lock.now pass.old }
    requires held { (L.view pass.old).hand.held ≢ No }
    requires areas { HaveAreas (L.view pass.old).hand.known }
    requires inside { at < length (areas_in (L.view pass.old).hand.known) }
    ensures on { StepsOn L.sits L.view lock.now pass.old pass.new }
    ensures queue { GoesOn (L.spun pass.old) (L.spun pass.new) }
    ensures kept { Looks (L.view pass.old) (L.view pass.new) }
    ensures area { slice_get (areas_in (L.view pass.old).hand.known) at ≡ Some result }
{
    area_of(lock.word(pass, at + 1))
}

/// The area that has this word. Each word of a space has one, so it isn't tested again.
fn area_of(word: u64) -> Area
    requires { word < 2 ^ 44 }
    ensures { result ≡ area_of word }
{
    Area {
        start: (word >> 24) as u32,
        end: ((word >> 3) & 0x1f_ffff) as u32,
        prot: (word & 7) as u8,
    }
}

/// How many areas end at a page or before it. The space has `count` areas.
fn count_ended_by<L: SleepLock<Areas>>(
    lock: &L,
    pass: &mut L::Pass,
    page: u32,
    count: usize,
) -> usize
    requires own { L.sits lock.now pass.old }
    requires held { (L.view pass.old).hand.held ≢ No }
    requires areas { HaveAreas (L.view pass.old).hand.known }
    requires all { count ≡ length (areas_in (L.view pass.old).hand.known) }
    ensures on { StepsOn L.sits L.view lock.now pass.old pass.new }
    ensures queue { GoesOn (L.spun pass.old) (L.spun pass.new) }
    ensures kept { Looks (L.view pass.old) (L.view pass.new) }
    ensures within { result ≤ count }
    ensures ended { AllByRecursion (λ area. area.end ≤ page)
        (take result (areas_in (L.view pass.old).hand.known)) }
    ensures others { AllByRecursion (λ area. page < area.end)
        (drop result (areas_in (L.view pass.old).hand.known)) }
{
    let mut ended = Bisection::new(count);
    while let Some(middle) = ended.middle() {
        if area_at(lock, pass, middle).end <= page {
            ended.passes();
        } else {
            ended.fails();
        }
    }
    ended.least()
}

/// How many pages of a range admit reading, by the areas that meet it.
pub(crate) fn count_readable<L: SleepLock<Areas>>(
    lock: &L,
    pass: &mut L::Pass,
    start: u32,
    len: u32,
) -> u32
    requires own { L.sits lock.now pass.old }
    requires held { (L.view pass.old).hand.held ≢ No }
    requires areas { HaveAreas (L.view pass.old).hand.known }
    ensures on { StepsOn L.sits L.view lock.now pass.old pass.new }
    ensures queue { GoesOn (L.spun pass.old) (L.spun pass.new) }
    ensures kept { Looks (L.view pass.old) (L.view pass.new) }
    ensures pages { result
        ≡ readable_from (page_map (areas_in (L.view pass.old).hand.known)) start len }
{
    let count = lock.word(pass, 0) as usize;
    let end = start.saturating_add(len);
    let mut pages = 0;
    // Nobody writes while the pass holds, so the areas are those of one moment.
    for at in count_ended_by(lock, pass, start, count)..count {
        let area = area_at(lock, pass, at);
        if end <= area.start {
            // The areas stand in order, so none behind this one meets the range.
            return pages;
        }
        pages += readable_between(area, start, end);
    }
    pages
}

/// How many pages of the area lie between two and admit reading.
fn readable_between(area: Area, start: u32, end: u32) -> u32
    ensures { result ≡ share area start end }
{
    if area.prot % 2 == 1 {
        area.end.min(end).saturating_sub(area.start.max(start))
    } else {
        0
    }
}
