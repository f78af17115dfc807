//! An address space.
ghost use Rattle.std.specs.Prelude.{◌≡◌, OnOk, OnErr};
ghost use Rattle.word_bits.specs.PageMaps.{mapped_from, runs};
ghost use Rattle.vma_map.specs.Runs.{page_map};
ghost use Rattle.vma_map.specs.Remaps.{IsMoved, IsRemapAnswer};

use crate::MAX_AREAS;
use crate::call::SpaceCall;
use crate::calls::apply;
use crate::range::splice;
use crate::remapping::remap;
use crate::store::AreaStore;
use crate::words::{self, SPACE_WORDS};
use arrayvec::ArrayVec;
use std::marker::Model;
use word_bits::{Area, CallWords, Errno, Object, Reply, ValueObject};

/// An address space. Contracts see its areas in order; `page_map` is what they say of each page.
#[derive(Drop)]
pub struct Areas {
    areas: ArrayVec<Area, MAX_AREAS>,
}

impl Model for Areas {
    ghost use Rattle.std.specs.Prelude.{List};
    ghost use Rattle.word_bits.specs.declared.area.Area.{Area};
    ghost use Rattle.vma_map.specs.Runs.{IsSpace};

    ghost Value = { List Area };

    ghost view = { λ s. s.areas.items };

    ghost invariant = { λ s. IsSpace s.areas.items };
}

impl Areas {
    /// The maximal runs of pages of one protection, ascending.
    pub fn runs(&self) -> &[Area]
        ensures { result.now ≡ runs (page_map self.now) }
    {
        self.areas.as_slice()
    }

    /// How many pages are mapped.
    pub fn pages(&self) -> u32
        ensures { result ≡ mapped_from (page_map self.now) 0 1048576 }
    {
        let mut pages = 0;
        for area in self.areas.as_slice() {
            pages += area.end - area.start;
        }
        pages
    }

    /// Moves `len` pages from `start` on to `to`, and answers that page.
    pub fn remap(&mut self, start: u32, len: u32, to: u32) -> Result<u32, Errno>
        ensures answer { IsRemapAnswer (page_map self.old) start len to result }
        ensures moved { OnOk result (IsMoved (page_map self.old) start len to (page_map self.new)) }
        ensures refused { OnErr result (self.new ≡ self.old) }
    {
        remap::<InMemory>(&(), &mut self.areas, start, len, to)
    }
}

/// Areas in memory.
struct InMemory;

impl AreaStore for InMemory {
    ghost use Rattle.std.specs.Prelude.{⊤, refl};
    ghost use Rattle.vma_map.specs.Runs.{IsSpace};

    type Place = ();

    type Hand = ArrayVec<Area, MAX_AREAS>;

    ghost areas = { λ _ kept. kept.items };

    ghost has = { λ _ kept. IsSpace kept.items };

    ghost keeps = { λ _ _ _. ⊤ };

    fn len(_place: &(), hand: &mut ArrayVec<Area, MAX_AREAS>) -> usize {
        hand.len()
    }

    fn get(_place: &(), hand: &mut ArrayVec<Area, MAX_AREAS>, at: usize) -> Area {
        hand.as_slice()[at]
    }

    fn splice(
        _place: &(),
        hand: &mut ArrayVec<Area, MAX_AREAS>,
        at: usize,
        count: usize,
        pieces: &[Area],
    ) {
        splice(hand, at, count, pieces);
    }

    ghost in_order = { λ _ _ has. has };

    ghost keeps_itself = { λ _ _. tt };

    ghost keeps_on = { λ _ _ _ _ _ _. tt };
}

impl Object for Areas {
    ghost use Rattle.vma_map.specs.Runs.{page_map};
    ghost use Rattle.vma_map.specs.Spaces.{space};
    ghost use Rattle.vma_map.specs.Laws.Space.{few_words, starts, zeros, called, signals, goes_on, replies, reading, refused};

    type Call = SpaceCall;

    const WORDS: usize = SPACE_WORDS;

    ghost WORDS = { 257 };

    ghost object = { space };

    ghost state = { page_map };

    fn call_of(words: CallWords) -> Option<SpaceCall> {
        SpaceCall::call_of(words)
    }

    fn reads(call: SpaceCall) -> bool {
        matches!(call, SpaceCall::Fault { .. })
    }

    ghost few_words = { few_words };

    ghost starts = { starts };

    ghost zeros = { zeros };

    ghost called = { called };

    ghost signals = { signals };

    ghost goes_on = { goes_on };

    ghost replies = { replies };

    ghost reading = { reading };

    ghost refused = { refused };
}

impl ValueObject for Areas {
    ghost use Rattle.vma_map.specs.Laws.Space.{sized, apart};

    fn empty() -> Self {
        Areas {
            areas: ArrayVec::new(),
        }
    }

    fn apply(&mut self, call: SpaceCall) -> Reply {
        apply::<InMemory>(&(), &mut self.areas, call)
    }

    fn load(words: &[u64]) -> Option<Self> {
        Some(Areas {
            areas: words::load(words)?,
        })
    }

    fn store(&self, out: &mut [u64]) {
        words::store(self.areas.as_slice(), out);
    }

    ghost sized = { sized };

    ghost apart = { apart };

    ghost exact = { λ s words is. is };

    ghost represents = { λ s words is. is };
}
