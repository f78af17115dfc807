//! Searches that ask for one word at a time, beside `find` over all words.
ghost use Rattle.vma_map.specs.Spaces.{AreSpaceWords};

use std::test::Fail;
use vma_map::{Areas, Search, find};
use word_bits::{Area, ValueObject};

/// The words of a space with an area for each of the first 256 pages.
fn all_areas() -> [u64; 257] {
    let mut words = [0u64; 257];
    words[0] = 256;
    for page in 0..256u64 {
        words[page as usize + 1] = page << 24 | (page + 1) << 3 | (1 + 2 * (page % 2));
    }
    words
}

fn stored(space: &Areas) -> [u64; 257]
    ensures { AreSpaceWords result }
{
    let mut words = [0; 257];
    space.store(&mut words);
    words
}

/// How many words a search asked for, and what it answered.
fn searched(words: &[u64; 257], page: u32) -> (usize, Option<Area>) {
    let mut search = Search::new(page);
    while let Some(at) = search.want() {
        search.give(words[at]);
    }
    (search.asked(), search.answer())
}

#[test]
fn a_search_asks_for_ten_words_at_most(rt: HostRuntime) -> Result<(), Fail> {
    let words = all_areas();
    let space = Areas::load(&words).ok_or("no space")?;
    let stored = stored(&space);
    assert!(rt; stored.as_slice() == words.as_slice());
    for page in 0..257 {
        let (asked, answer) = searched(&stored, page);
        assert!(rt; asked <= 10, "{page}");
        assert!(rt; answer == find(&stored, page), "{page}");
        assert!(rt; answer.is_some() == (page < 256), "{page}");
    }
    Ok(())
}

#[test]
fn a_search_of_no_areas_asks_once(rt: HostRuntime) {
    for page in [0, 16, u32::MAX] {
        assert!(rt; searched(&[0; 257], page) == (1, None), "{page}");
    }
}
