//! The words that store an address space.
ghost use Rattle.std.specs.Prelude.{◌≡◌, ◌==◌, ◌<◌, ◌≤◌, ◌↔◌, List, [], ◌∷◌, ◌++◌};
ghost use Rattle.std.specs.Prelude.{length, map, IsTrue};
ghost use Rattle.std.specs.List.{list_all};
ghost use Rattle.word_bits.specs.AreaWord.{IsArea, area_word};
ghost use Rattle.word_bits.specs.Packed.{IsFound};
ghost use Rattle.word_bits.specs.PageMaps.{PageMap, IsPageMap, runs};
ghost use Rattle.word_bits.specs.declared.area.Area.{Area};
ghost use Rattle.vma_map.specs.Runs.{AreRuns, IsSpace, words_of_areas};
ghost use Rattle.vma_map.specs.Spaces.{AreSpaceWords, IsRunAt, stores};

use crate::MAX_AREAS;
use crate::search::Search;
use arrayvec::ArrayVec;
use word_bits::Area;

/// How many words store an address space.
pub(crate) const SPACE_WORDS: usize = 257;

/// Writes the number of areas, their words, and zeros.
pub(crate) fn store(areas: &[Area], out: &mut [u64])
    requires room { length out.old ≡ 257 }
    requires space { IsSpace areas.now }
    ensures { out.new ≡ words_of_areas areas.now }
{
    out.fill(0);
    out[0] = areas.len() as u64;
    for (i, area) in areas.iter().enumerate() {
        out[i + 1] = area.pack();
    }
}

/// Whether the areas are in order with one more behind them.
fn can_follow(areas: &[Area], area: Area) -> bool
    requires runs { AreRuns areas.now }
    requires is { IsArea area }
    ensures { IsTrue result ↔ AreRuns (areas.now ++ area ∷ []) }
{
    match areas.last() {
        None => true,
        Some(last) => {
            last.end < area.start || (last.end == area.start && last.prot != area.prot)
        }
    }
}

/// The areas in order that have these words. `None` where none have.
fn load_areas(words: &[u64]) -> Option<ArrayVec<Area, MAX_AREAS>>
    requires { length words.now ≤ 256 }
    ensures { IsFound (λ areas.
        AreRuns areas.items × (map area_word areas.items ≡ words.now)) result }
{
    let mut areas = ArrayVec::new();
    for word in words {
        let area = Area::unpack(*word)?;
        if !can_follow(areas.as_slice(), area) {
            return None;
        }
        areas.push(area);
    }
    Some(areas)
}

fn all_zero(words: &[u64]) -> bool
    ensures { result ≡ list_all (λ word. word == 0) words.now }
{
    words.iter().all(|word| *word == 0)
}

/// The areas that the words store. `None` where they store none.
pub(crate) fn load(words: &[u64]) -> Option<ArrayVec<Area, MAX_AREAS>>
    requires { length words.now ≡ 257 }
    ensures { IsFound (λ areas.
        IsSpace areas.items × (words_of_areas areas.items ≡ words.now)) result }
{
    if words[0] > MAX_AREAS as u64 {
        return None;
    }
    let (used, unused) = words[1..].split_at(words[0] as usize);
    if !all_zero(unused) {
        return None;
    }
    load_areas(used)
}

/// The run that has the page, in the address space that the words store. `None` where the page is
/// unmapped.
pub fn find(words: &[u64], page: u32) -> Option<Area>
    requires { AreSpaceWords words.now }
    ensures { (m : PageMap) → IsPageMap m → stores m ≡ words.now →
        IsRunAt (runs m) m page result }
{
    let mut search = Search::new(page);
    while let Some(at) = search.want() {
        search.give(words[at]);
    }
    search.answer()
}
