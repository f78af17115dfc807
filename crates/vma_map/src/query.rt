//! What areas in order say of a page and of a range of pages.
ghost use Rattle.std.specs.Prelude.{◌≡◌, ◌+◌, ◌<◌, ◌≤◌, drop, take, length};
ghost use Rattle.std.specs.List.{AllByRecursion};
ghost use Rattle.vma_map.specs.Runs.{page_map};
ghost use Rattle.vma_map.specs.Spaces.{is_free, is_mapped, lowest_free};

use crate::PAGES;
use crate::bisection::Bisection;
use crate::store::AreaStore;

/// How many areas end before a page.
pub(crate) fn count_ended<S: AreaStore>(place: &S::Place, hand: &mut S::Hand, page: u32) -> usize
    requires has { S.has place.now hand.old }
    ensures has { S.has place.now hand.new }
    ensures kept { S.keeps place.now hand.old hand.new }
    ensures same { S.areas place.now hand.new ≡ S.areas place.now hand.old }
    ensures within { result ≤ length (S.areas place.now hand.old) }
    ensures ended { AllByRecursion (λ area. area.end < page)
        (take result (S.areas place.now hand.old)) }
    ensures others { AllByRecursion (λ area. page ≤ area.end)
        (drop result (S.areas place.now hand.old)) }
{
    let mut ended = Bisection::new(S::len(place, hand));
    while let Some(middle) = ended.middle() {
        if S::get(place, hand, middle).end < page {
            ended.passes();
        } else {
            ended.fails();
        }
    }
    ended.least()
}

/// How many areas begin at a page or before it.
pub(crate) fn count_begun<S: AreaStore>(place: &S::Place, hand: &mut S::Hand, page: u32) -> usize
    requires has { S.has place.now hand.old }
    ensures has { S.has place.now hand.new }
    ensures kept { S.keeps place.now hand.old hand.new }
    ensures same { S.areas place.now hand.new ≡ S.areas place.now hand.old }
    ensures within { result ≤ length (S.areas place.now hand.old) }
    ensures begun { AllByRecursion (λ area. area.start ≤ page)
        (take result (S.areas place.now hand.old)) }
    ensures others { AllByRecursion (λ area. page < area.start)
        (drop result (S.areas place.now hand.old)) }
{
    let mut begun = Bisection::new(S::len(place, hand));
    while let Some(middle) = begun.middle() {
        if S::get(place, hand, middle).start <= page {
            begun.passes();
        } else {
            begun.fails();
        }
    }
    begun.least()
}

/// The same, where those in front of a place are known to have begun. It looks at the next ones in
/// turn: of the areas that a change meets, all but the first and the last vanish by it.
pub(crate) fn count_begun_from<S: AreaStore>(
    place: &S::Place,
    hand: &mut S::Hand,
    from: usize,
    page: u32,
) -> usize
    requires has { S.has place.now hand.old }
    requires inside { from ≤ length (S.areas place.now hand.old) }
    requires front { AllByRecursion (λ area. area.start ≤ page)
        (take from (S.areas place.now hand.old)) }
    ensures has { S.has place.now hand.new }
    ensures kept { S.keeps place.now hand.old hand.new }
    ensures same { S.areas place.now hand.new ≡ S.areas place.now hand.old }
    ensures within { result ≤ length (S.areas place.now hand.old) }
    ensures begun { AllByRecursion (λ area. area.start ≤ page)
        (take result (S.areas place.now hand.old)) }
    ensures others { AllByRecursion (λ area. page < area.start)
        (drop result (S.areas place.now hand.old)) }
{
    let count = S::len(place, hand);
    for at in from..count {
        if page < S::get(place, hand, at).start {
            return at;
        }
    }
    count
}

/// The protection of a page, where it is mapped.
pub(crate) fn prot_of<S: AreaStore>(place: &S::Place, hand: &mut S::Hand, page: u32) -> Option<u8>
    requires has { S.has place.now hand.old }
    ensures has { S.has place.now hand.new }
    ensures kept { S.keeps place.now hand.old hand.new }
    ensures same { S.areas place.now hand.new ≡ S.areas place.now hand.old }
    ensures value { result ≡ page_map (S.areas place.now hand.old) page }
{
    let begun = count_begun::<S>(place, hand, page);
    if begun == 0 {
        return None;
    }
    let area = S::get(place, hand, begun - 1);
    if page < area.end {
        Some(area.prot)
    } else {
        None
    }
}

/// Whether each page of the range is unmapped.
pub(crate) fn is_free<S: AreaStore>(
    place: &S::Place,
    hand: &mut S::Hand,
    start: u32,
    len: u32,
) -> bool
    requires has { S.has place.now hand.old }
    requires some { 0 < len }
    requires within { start + len ≤ 1048576 }
    ensures has { S.has place.now hand.new }
    ensures kept { S.keeps place.now hand.old hand.new }
    ensures same { S.areas place.now hand.new ≡ S.areas place.now hand.old }
    ensures value { result ≡ is_free (page_map (S.areas place.now hand.old)) start len }
{
    let at = count_ended::<S>(place, hand, start + 1);
    if at == S::len(place, hand) {
        return true;
    }
    start + len <= S::get(place, hand, at).start
}

/// Whether each page of the range is mapped.
pub(crate) fn is_mapped<S: AreaStore>(
    place: &S::Place,
    hand: &mut S::Hand,
    start: u32,
    len: u32,
) -> bool
    requires has { S.has place.now hand.old }
    requires within { start + len ≤ 1048576 }
    ensures has { S.has place.now hand.new }
    ensures kept { S.keeps place.now hand.old hand.new }
    ensures same { S.areas place.now hand.new ≡ S.areas place.now hand.old }
    ensures value { result ≡ is_mapped (page_map (S.areas place.now hand.old)) start len }
{
    let end = start + len;
    let first = count_ended::<S>(place, hand, start + 1);
    let count = S::len(place, hand);
    let mut next = start;
    for at in first..count {
        let area = S::get(place, hand, at);
        if end <= next || next < area.start {
            return end <= next;
        }
        next = next.max(area.end);
    }
    end <= next
}

/// The lowest start from which so many pages are unmapped. `None` where there is none.
pub(crate) fn lowest_free<S: AreaStore>(
    place: &S::Place,
    hand: &mut S::Hand,
    len: u32,
) -> Option<u32>
    requires has { S.has place.now hand.old }
    ensures has { S.has place.now hand.new }
    ensures kept { S.keeps place.now hand.old hand.new }
    ensures same { S.areas place.now hand.new ≡ S.areas place.now hand.old }
    ensures value { result ≡ lowest_free (page_map (S.areas place.now hand.old)) len }
{
    let count = S::len(place, hand);
    let mut start = 0;
    for at in 0..count {
        let area = S::get(place, hand, at);
        if len <= area.start - start {
            return Some(start);
        }
        start = area.end;
    }
    (len <= PAGES - start).then_some(start)
}
