//! A search for the area of a page, in words that it asks for one at a time.
ghost use Rattle.std.specs.Prelude.{◌≡◌, ◌-◌, ◌^◌, ◌<◌, ◌≤◌, nat_lt};

use crate::MAX_AREAS;
use crate::bisection::Bisection;
use word_bits::Area;

/// A search by halves for the area that has a page, in the words that store an address space. Who
/// searches loads only the words that it wants.
#[derive(Clone, Copy)]
pub struct Search {
    page: u32,
    asked: usize,
    /// Whether the number of areas was given.
    counted: bool,
    /// How many areas begin at the page or before it.
    begun: Bisection,
    /// The word of the last area that is known to do so.
    last: u64,
    ghost few: { asked ≤ 10 },
    ghost number: { counted ≡ nat_lt 0 asked },
    ghost within: { begun.high ≤ 256 },
    ghost narrow: { begun.high - begun.low < 2 ^ (10 - asked) },
}

impl Search {
    ghost use Rattle.std.specs.Prelude.{◌≡◌, ◌≢◌, ◌+◌, ◌<◌, ◌≤◌, List, None, Some, IsSome, IfSome, slice_index, ℕ};
    ghost use Rattle.word_bits.specs.PageMaps.{PageMap, IsPageMap, runs};
    ghost use Rattle.vma_map.specs.Spaces.{IsRunAt, stores};
    ghost use Rattle.vma_map.specs.Searches.{AgreesWith, asked, page_of, wanted};

    /// A search that was given nothing.
    pub fn new(page: u32) -> Search
        ensures page { page_of result ≡ page }
        ensures none { asked result ≡ 0 }
        ensures wants { wanted result ≡ Some 0 }
        ensures agrees { (words : List ℕ) → AgreesWith words result }
    {
        Search {
            page,
            asked: 0,
            counted: false,
            begun: Bisection::new(0),
            last: 0,
        }
    }

    /// The place of the word that is wanted. `None` where the search is over.
    pub fn want(&self) -> Option<usize>
        ensures is { result ≡ wanted self.now }
        ensures inside { IfSome result (λ at. at < 257) }
        ensures few { IfSome result (λ at. asked self.now < 10) }
    {
        if !self.counted {
            return Some(0);
        }
        match self.begun.middle() {
            Some(middle) => Some(middle + 1),
            None => None,
        }
    }

    /// Gives the word at the place that is wanted.
    pub fn give(&mut self, word: u64)
        requires wants { IsSome (wanted self.old) }
        ensures page { page_of self.new ≡ page_of self.old }
        ensures more { asked self.new ≡ asked self.old + 1 }
        ensures agrees { (words : List ℕ) → IfSome (wanted self.old) (λ at.
            slice_index words at ≡ word) → AgreesWith words self.old → AgreesWith words self.new }
    {
        self.asked += 1;
        // A start stands above all else in its word, so the words ascend as the areas do.
        if !self.counted {
            self.counted = true;
            self.begun = Bisection::new(number_in(word));
        } else if word >> 24 <= u64::from(self.page) {
            self.begun.passes();
            self.last = word;
        } else {
            self.begun.fails();
        }
    }

    /// How many words were given.
    pub fn asked(&self) -> usize
        ensures is { result ≡ asked self.now }
        ensures few { result ≤ 10 }
    {
        self.asked
    }

    /// The area that has the page. `None` where the page is unmapped.
    pub fn answer(&self) -> Option<Area>
        requires over { wanted self.now ≡ None }
        ensures found { (m : PageMap) → IsPageMap m → AgreesWith (stores m) self.now →
            IsRunAt (runs m) m (page_of self.now) result }
    {
        if self.begun.least() == 0 {
            return None;
        }
        let area = Area::unpack(self.last)?;
        if self.page < area.end {
            Some(area)
        } else {
            None
        }
    }
}

/// How many areas a space's first word counts. More than a space has are none.
fn number_in(word: u64) -> usize
    ensures few { result ≤ 256 }
    ensures number { word ≤ 256 → result ≡ word }
{
    if word <= MAX_AREAS as u64 {
        word as usize
    } else {
        0
    }
}
