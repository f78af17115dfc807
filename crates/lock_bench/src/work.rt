//! Rounds on a lock with work inside and outside.
ghost use Rattle.std.specs.Prelude.{◌<◌};

use crate::crewed::{Crewed, Worker, Write};
use crate::timed::{Timed, rounds};
use lock_core::Nothing;
use sleep_lock::SleepLock;
use std::alloc::{AllocError, Global};
use std::io;
use std::sync::Wait;
use std::sync::atomic::{AtomicU64, Ordering};
use std::thread::Threads;
use std::time::{Clock, Duration};
use word_bits::MAX_TASKS;

/// How many steps a thread makes between two rounds, each of which needs the result of the one
/// before.
const STEPS: u32 = 20;

/// A lock, and words that its threads raise while they hold it alone.
#[derive(Drop)]
pub struct Guarding<L: SleepLock<Nothing>> {
    crewed: Crewed<L, Write>,
    words: [AtomicU64; 4],
}

impl<L: SleepLock<Nothing>> Guarding<L> {
    /// Raises each word, by a load and a store.
    fn raise(&self, by: u64) {
        for word in &self.words {
            let raised = word.load(Ordering::SeqCst).wrapping_add(by);
            word.store(raised, Ordering::SeqCst);
        }
    }
}

/// What so many steps of a generator of numbers make of this one.
pub fn stepped(mut number: u64) -> u64 {
    for _ in 0..STEPS {
        number = number
            .wrapping_mul(6_364_136_223_846_793_005)
            .wrapping_add(1_442_695_040_888_963_407);
    }
    number
}

impl<L: SleepLock<Nothing> + Drop> Timed for Guarding<L> {
    ghost use Rattle.std.specs.Prelude.{◌≡◌, ◌+◌, ◌<◌, length};
    ghost use Rattle.lock_bench.specs.RoundsBetween.{IsIdle, takes_in};
    ghost use Rattle.lock_bench.specs.BenchRooms.{unbounded};

    type Worker = Worker<L::Pass>;

    const ROOM: u32 = u32::MAX;

    ghost ROOM = { 4294967295 };

    ghost idle = { λ guarding worker.
        IsIdle (L.sits guarding.crewed.lock worker.pass) (L.view worker.pass) };

    ghost made = { λ n v u. takes_in (L.view u.pass) ≡ takes_in (L.view v.pass) + n };

    ghost serves = { λ guarding task _. task < length (L.calls_on guarding.crewed.lock) };

    ghost enough = { unbounded };

    fn start<W: Wait>(
        rt: &W,
        alloc: Global,
        threads: u32,
        count: u32,
    ) -> Result<(Guarding<L>, Worker<L::Pass>), AllocError> {
        let (crewed, worker) = Crewed::<L, Write>::start(rt, alloc, threads, count)?;
        let words: [AtomicU64; 4] = Default::default();
        Ok((Guarding { crewed, words }, worker))
    }

    fn another(
        &mut self,
        alloc: Global,
        first: &mut Worker<L::Pass>,
        task: u32,
    ) -> Result<Worker<L::Pass>, AllocError> {
        self.crewed.another(alloc, first, task)
    }

    fn rounds<W: Wait>(&self, rt: &W, worker: &mut Worker<L::Pass>, task: u32, count: u32) {
        let lock = &self.crewed.lock;
        let crew = &self.crewed.crew;
        let mut number = u64::from(task);
        lock.begin(rt, &mut worker.pass, task);
        for _ in 0..count {
            lock.alone(rt, &mut worker.pass, &mut worker.cpu, crew);
            self.raise(number);
            lock.release_alone(rt, &mut worker.pass, crew);
            number = stepped(number);
        }
        lock.end(&mut worker.pass);
    }
}

/// Each of so many threads makes so many rounds with work inside and outside: on one new lock, and
/// on more of them, one after the other, where one hasn't room for so many. How long the threads
/// took.
pub fn working_rounds<
    L: SleepLock<Nothing, Pass: Send, Site: Sync, Rule: Sync> + Sync + Drop,
    R: Threads + Wait + Sync + Clock,
>(rt: &R, alloc: Global, threads: u32, count: u32) -> io::Result<Duration>
    requires { threads < MAX_TASKS }
{
    rounds::<Guarding<L>, R>(rt, alloc, threads, count)
}
