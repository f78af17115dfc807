//! Pairs of exchanges of a word, without a lock.
use crate::timed::Timed;
use std::alloc::{AllocError, Global};
use std::sync::Wait;
use std::sync::atomic::{AtomicU64, Ordering};

/// A word that threads exchange.
#[derive(Drop)]
pub struct Exchanges {
    word: AtomicU64,
}

/// What exchanges it: a thread needs nothing of its own.
#[derive(Drop)]
pub struct Exchanger;

impl Timed for Exchanges {
    ghost use Rattle.lock_bench.specs.BenchRooms.{unbounded};

    type Worker = Exchanger;

    const ROOM: u32 = u32::MAX;

    ghost ROOM = { 4294967295 };

    ghost idle = { λ _ _. Unit {0} };

    ghost made = { λ _ _ _. Unit {0} };

    ghost serves = { λ _ _ _. Unit {0} };

    ghost enough = { unbounded };

    fn start<W: Wait>(
        _rt: &W,
        _alloc: Global,
        _threads: u32,
        _count: u32,
    ) -> Result<(Exchanges, Exchanger), AllocError> {
        let word = AtomicU64::new(0);
        Ok((Exchanges { word }, Exchanger))
    }

    fn another(
        &mut self,
        _alloc: Global,
        _first: &mut Exchanger,
        _task: u32,
    ) -> Result<Exchanger, AllocError> {
        Ok(Exchanger)
    }

    fn rounds<W: Wait>(&self, _rt: &W, _worker: &mut Exchanger, task: u32, count: u32) {
        for _ in 0..count {
            self.word.swap(u64::from(task), Ordering::SeqCst);
            self.word.swap(0, Ordering::SeqCst);
        }
    }
}
