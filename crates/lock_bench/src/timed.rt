//! Rounds on any of the locks, on threads.
ghost use Rattle.std.specs.Prelude.{◌<◌, ◌≤◌, ◌*◌, ℕ, length, All, IfOk};
ghost use Rattle.crossbeam_utils.specs.Padded.{padded_value};
ghost use Rattle.word_bits.specs.declared.TheConstants.{MAX_TASKS};

use crossbeam_utils::CachePadded;
use std::alloc::{AllocError, Global};
use std::io;
use std::sync::Wait;
use std::thread::{Threads, for_each_mut};
use std::time::{Clock, Duration, Instant};
use word_bits::MAX_TASKS;

/// A lock whose rounds are timed, with what its threads share beside it. A round takes the lock
/// once and releases it, or is one call on what the lock guards.
pub trait Timed: Sized {
    /// What one thread makes its rounds with.
    type Worker: Drop;

    /// How many rounds all threads together can make on one lock.
    const ROOM: u32;

    ghost ROOM: { ℕ };

    // The worker is one of the lock's, and is in no call.
    ghost idle: { Self → Self.Worker → Type 0 };

    // The worker, first and last, has made so many rounds between.
    ghost made: { ℕ → Self.Worker → Self.Worker → Type 0 };

    // In the name of this task so many rounds can be made.
    ghost serves: { Self → (task count : ℕ) → Type 0 };

    /// A new lock, on which each of so many threads is to make so many rounds, and its first
    /// worker.
    fn start<W: Wait>(
        rt: &W,
        alloc: Global,
        threads: u32,
        count: u32,
    ) -> Result<(Self, Self::Worker), AllocError>
        requires threads { threads < MAX_TASKS }
        requires room { threads * count ≤ ROOM }
        ensures idle { IfOk result (λ t. idle t.0 t.1) }
        ensures serves { IfOk result (λ t. (task : ℕ) → task < threads → serves t.0 task count) };

    /// A worker for the thread of a task, split off the first.
    fn another(
        &mut self,
        alloc: Global,
        first: &mut Self::Worker,
        task: u32,
    ) -> Result<Self::Worker, AllocError>
        requires { idle self.old first.old }
        ensures first { idle self.new first.new }
        ensures other { IfOk result (λ worker. idle self.new worker) }
        ensures others { (w : Self.Worker) → idle self.old w → idle self.new w }
        ensures serves { (task count : ℕ) → serves self.old task count →
            serves self.new task count };

    /// Makes so many rounds, in the name of a task.
    fn rounds<W: Wait>(&self, rt: &W, worker: &mut Self::Worker, task: u32, count: u32)
        requires idle { idle self.now worker.old }
        requires serves { serves self.now task count }
        ensures idle { idle self.now worker.new }
        ensures made { made count worker.old worker.new };

    // A law: as many threads as there can be have room for a round each.
    ghost enough: { MAX_TASKS ≤ ROOM };
}

/// Each worker makes so many rounds on a thread of its own, in the name of the task of its place.
/// No two workers share a cache line: each thread writes to its own all the time.
fn on_threads<R: Threads + Wait + Sync, L: Timed + Sync>(
    rt: &R,
    lock: &L,
    workers: &mut [CachePadded<L::Worker>],
    count: u32,
)
where
    L::Worker: Send,
    requires idle { All (λ w. L.idle lock.now (padded_value w)) workers.old }
    requires serves { (task : ℕ) → task < length workers.old → L.serves lock.now task count }
    requires few { length workers.old ≤ MAX_TASKS }
{
    let threads = workers.len().max(1);
    for_each_mut(
        rt,
        workers,
        threads,
        &|task, worker: &mut CachePadded<L::Worker>|
            requires idle { L.idle lock.now (padded_value worker.old) }
            requires serves { L.serves lock.now task count }
            requires few { task < MAX_TASKS }
        { lock.rounds(rt, worker, task as u32, count) },
    );
}

/// Each of so many threads makes so many rounds on one new lock. How long the threads took.
fn on_one_lock<L: Timed + Sync + Drop, R: Threads + Wait + Sync + Clock>(
    rt: &R,
    alloc: Global,
    threads: u32,
    count: u32,
) -> io::Result<Duration>
where
    L::Worker: Send,
    requires threads { threads < MAX_TASKS }
    requires room { threads * count ≤ L.ROOM }
{
    let (mut lock, mut first) = L::start(rt, alloc, threads, count)?;
    let mut workers = Vec::new(alloc);
    for task in 0..threads {
        let worker = lock.another(alloc, &mut first, task)?;
        workers.push(CachePadded::new(worker))?;
    }
    let start = Instant::now(rt)?;
    on_threads(rt, &lock, workers.as_mut_slice(), count);
    start.elapsed(rt)
}

/// Each of so many threads makes so many rounds: on one new lock, and on more of them, one after
/// the other, where one hasn't room for so many. How long the threads took.
pub fn rounds<L: Timed + Sync + Drop, R: Threads + Wait + Sync + Clock>(
    rt: &R,
    alloc: Global,
    threads: u32,
    count: u32,
) -> io::Result<Duration>
where
    L::Worker: Send,
    requires { threads < MAX_TASKS }
{
    let most = L::ROOM / threads.max(1);
    let mut left = count;
    let mut spent = Duration::ZERO;
    while left > 0 {
        let here = left.min(most);
        let more = on_one_lock::<L, R>(rt, alloc, threads, here)?;
        spent = spent.saturating_add(more);
        left -= here;
    }
    Ok(spent)
}
