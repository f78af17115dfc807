//! Rounds on the locks that tasks sleep on.
ghost use Rattle.std.specs.Prelude.{◌≡◌, ◌+◌, ◌<◌};
ghost use Rattle.lock_bench.specs.RoundsBetween.{IsBetween};

use crate::plan::without_calls;
use crate::timed::{Timed, rounds};
use cpu_task::{Crew, ParkCpu, ParkCrew, Turns};
use lock_core::Nothing;
use sleep_lock::SleepLock;
use std::alloc::{AllocError, Global};
use std::io;
use std::marker::PhantomData;
use std::sync::Wait;
use std::thread::Threads;
use std::time::{Clock, Duration};
use word_bits::MAX_TASKS;

/// How long a task spins before it sleeps, and waits before it is owed the lock.
pub const TURNS: Turns = Turns {
    spin: 100,
    overdue: 100,
};

/// A pass, and the CPU of its thread.
#[derive(Drop)]
pub struct Worker<P> {
    pub pass: P,
    pub cpu: ParkCpu,
}

/// What a task does with a lock in a round: it takes it once, and releases it.
pub trait Round {
    /// Does so in the round of this number.
    fn make<W: Wait, L: SleepLock<Nothing>>(
        rt: &W,
        lock: &L,
        worker: &mut Worker<L::Pass>,
        crew: &ParkCrew,
        number: u32,
    )
        requires own { L.sits lock.now worker.old.pass }
        requires between { IsBetween (L.view worker.old.pass) }
        ensures own { L.sits lock.now worker.new.pass }
        ensures between { IsBetween (L.view worker.new.pass) }
        ensures took { (L.view worker.new.pass).hand.takes ≡
            (L.view worker.old.pass).hand.takes + 1 };
}

/// Holds alone.
#[derive(Clone, Copy, Debug)]
pub struct Write;

impl Round for Write {
    fn make<W: Wait, L: SleepLock<Nothing>>(
        rt: &W,
        lock: &L,
        worker: &mut Worker<L::Pass>,
        crew: &ParkCrew,
        _number: u32,
    ) {
        lock.alone(rt, &mut worker.pass, &mut worker.cpu, crew);
        lock.release_alone(rt, &mut worker.pass, crew);
    }
}

/// Holds beside others.
#[derive(Clone, Copy, Debug)]
pub struct Read;

impl Round for Read {
    fn make<W: Wait, L: SleepLock<Nothing>>(
        rt: &W,
        lock: &L,
        worker: &mut Worker<L::Pass>,
        crew: &ParkCrew,
        _number: u32,
    ) {
        lock.shared(rt, &mut worker.pass, &mut worker.cpu, crew);
        lock.release_shared(rt, &mut worker.pass, crew);
    }
}

/// Holds beside others in nine rounds of ten, and alone in the tenth.
#[derive(Clone, Copy, Debug)]
pub struct Mixed;

impl Round for Mixed {
    fn make<W: Wait, L: SleepLock<Nothing>>(
        rt: &W,
        lock: &L,
        worker: &mut Worker<L::Pass>,
        crew: &ParkCrew,
        number: u32,
    ) {
        if number % 10 == 9 {
            Write::make(rt, lock, worker, crew, number);
        } else {
            Read::make(rt, lock, worker, crew, number);
        }
    }
}

/// A lock that tasks make such rounds with, and the crew that wakes those who sleep on it.
#[derive(Drop)]
pub struct Crewed<L: SleepLock<Nothing>, T> {
    pub lock: L,
    pub crew: ParkCrew,
    round: PhantomData<T>,
}

impl<L: SleepLock<Nothing> + Drop, T: Round> Timed for Crewed<L, T> {
    ghost use Rattle.std.specs.Prelude.{◌≡◌, ◌+◌, ◌<◌, length};
    ghost use Rattle.lock_bench.specs.RoundsBetween.{IsIdle, takes_in};
    ghost use Rattle.lock_bench.specs.BenchRooms.{unbounded};

    type Worker = Worker<L::Pass>;

    const ROOM: u32 = u32::MAX;

    ghost ROOM = { 4294967295 };

    ghost idle = { λ crewed worker. IsIdle (L.sits crewed.lock worker.pass) (L.view worker.pass) };

    ghost made = { λ n v u. takes_in (L.view u.pass) ≡ takes_in (L.view v.pass) + n };

    ghost serves = { λ crewed task _. task < length (L.calls_on crewed.lock) };

    ghost enough = { unbounded };

    fn start<W: Wait>(
        _rt: &W,
        alloc: Global,
        threads: u32,
        _count: u32,
    ) -> Result<(Crewed<L, T>, Worker<L::Pass>), AllocError> {
        let plan = without_calls(alloc, threads)?;
        let (lock, pass) = L::open(alloc, plan)?;
        let mut crew = ParkCrew::new(alloc, threads)?;
        let cpu = crew.cpu(alloc, 0, TURNS)?;
        let crewed = Crewed {
            lock,
            crew,
            round: PhantomData,
        };
        Ok((crewed, Worker { pass, cpu }))
    }

    /// The crew then wakes the CPU of the new worker in the name of the task.
    fn another(
        &mut self,
        alloc: Global,
        first: &mut Worker<L::Pass>,
        task: u32,
    ) -> Result<Worker<L::Pass>, AllocError> {
        let cpu = self.crew.cpu(alloc, task, TURNS)?;
        let pass = self.lock.split(&mut first.pass);
        Ok(Worker { pass, cpu })
    }

    fn rounds<W: Wait>(&self, rt: &W, worker: &mut Worker<L::Pass>, task: u32, count: u32) {
        self.lock.begin(rt, &mut worker.pass, task);
        for number in 0..count {
            T::make(rt, &self.lock, worker, &self.crew, number);
        }
        self.lock.end(&mut worker.pass);
    }
}

/// Each of so many threads makes so many of these rounds: on one new lock, and on more of them, one
/// after the other, where one hasn't room for so many. How long the threads took.
pub fn crewed_rounds<
    L: SleepLock<Nothing, Pass: Send, Site: Sync, Rule: Sync> + Sync + Drop,
    T: Round + Sync,
    R: Threads + Wait + Sync + Clock,
>(rt: &R, alloc: Global, threads: u32, count: u32) -> io::Result<Duration>
    requires { threads < MAX_TASKS }
{
    rounds::<Crewed<L, T>, R>(rt, alloc, threads, count)
}
