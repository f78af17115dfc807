//! Rounds on words that a mutex keeps with an invariant, with work inside and outside.
ghost use Rattle.std.specs.Prelude.{◌≡◌, ◌<◌};
ghost use Rattle.kept_words.specs.Keeping.{HoldsAlone};
ghost use Rattle.lock_bench.specs.EqualWords.{AreEqual};

use crate::crewed::TURNS;
use crate::timed::Timed;
use crate::work::stepped;
use cpu_task::ParkCrew;
use kept_words::{Invariant, Kept, KeptMutex, MutexTask};
use std::alloc::{AllocError, Global};
use std::sync::Wait;

/// The four words are equal.
#[derive(Drop)]
pub struct Equal;

impl Invariant for Equal {
    ghost use Rattle.std.proofs.Common.{lit≤};

    const WORDS: usize = 4;

    ghost WORDS = { 4 };

    ghost keeps = { AreEqual };

    ghost few = { lit≤ tt };
}

/// Raises each word, by a load and a store.
fn raise<K: Kept<I = Equal>>(words: &mut K, by: u64)
    requires { HoldsAlone AreEqual (K.hold words.old) }
    ensures { HoldsAlone AreEqual (K.hold words.new) }
{
    let first = words.get(0).wrapping_add(by);
    words.set(0, first);
    let second = words.get(1).wrapping_add(by);
    words.set(1, second);
    let third = words.get(2).wrapping_add(by);
    words.set(2, third);
    let fourth = words.get(3).wrapping_add(by);
    words.set(3, fourth);
}

/// A lock whose tasks all stand with its first worker, until their threads begin.
#[derive(Drop)]
pub struct Raising;

/// A task, and those that are still to be given to other workers.
#[derive(Drop)]
pub struct Raiser {
    task: MutexTask<Equal>,
    others: Vec<MutexTask<Equal>>,
}

impl Timed for Raising {
    ghost use Rattle.lock_bench.specs.BenchRooms.{unbounded};

    type Worker = Raiser;

    const ROOM: u32 = u32::MAX;

    ghost ROOM = { 4294967295 };

    ghost idle = { λ _ _. Unit {0} };

    ghost made = { λ _ _ _. Unit {0} };

    ghost serves = { λ _ _ _. Unit {0} };

    ghost enough = { unbounded };

    fn start<W: Wait>(
        rt: &W,
        alloc: Global,
        threads: u32,
        _count: u32,
    ) -> Result<(Raising, Raiser), AllocError> {
        let tasks = threads + 1;
        let crew = ParkCrew::new(alloc, tasks)?;
        let mut others = KeptMutex::<Equal, ParkCrew>::open(
            rt, alloc, crew, TURNS, tasks, &[0; 4],
        )?;
        let Some(task) = others.pop() else {
            unreachable!()
        };
        Ok((Raising, Raiser { task, others }))
    }

    fn another(
        &mut self,
        alloc: Global,
        first: &mut Raiser,
        _task: u32,
    ) -> Result<Raiser, AllocError> {
        let others = Vec::new(alloc);
        match first.others.pop() {
            Some(task) => Ok(Raiser { task, others }),
            None => Err(AllocError),
        }
    }

    fn rounds<W: Wait>(&self, rt: &W, worker: &mut Raiser, task: u32, count: u32) {
        let mut number = u64::from(task);
        for _ in 0..count {
            worker.task.with(rt, |words| raise(words, number));
            number = stepped(number);
        }
    }
}
