//! CPUs for tests, which show another thread how far their task has come, and sleep until that
//! thread lets them go on.
use cpu_task::{Cpu, Crew, Turns};
use std::alloc::{AllocError, Global};
use std::sync::Wait;
use std::sync::atomic::{AtomicU64, Ordering};

/// A task doesn't spin.
pub const NO_TURNS: Turns = Turns {
    spin: 0,
    overdue: 0,
};

/// What the CPUs of a crew did, and may do.
#[derive(Default, Drop)]
pub struct Watch {
    /// How often they were asked whether they need rescheduling.
    pub asked: AtomicU64,
    /// How many sleeps began.
    pub sleeps: AtomicU64,
    /// How many sleeps of a CPU may end.
    pub ends: AtomicU64,
    /// How often the crew woke a task.
    pub wakes: AtomicU64,
    /// One more than the number of the task that it woke last, and 0 before.
    pub woken: AtomicU64,
}

/// Counts one more.
fn count(counter: &AtomicU64) {
    let _ = counter.fetch_update(Ordering::SeqCst, Ordering::SeqCst, |n| n.checked_add(1));
}

/// A thread looks so often for what another one does, which is longer than that takes.
pub const LOOKS: u32 = 100_000_000;

/// Waits until the counter has come so far, or the looks run out.
pub fn await_count(counter: &AtomicU64, least: u64) {
    for _ in 0..LOOKS {
        if counter.load(Ordering::SeqCst) >= least {
            return;
        }
    }
}

/// A CPU whose steps are counted. Its task spins for so many turns.
#[derive(Drop)]
pub struct WatchedCpu<'a> {
    watch: &'a Watch,
    spins: u32,
    rescheds: u64,
    sleeps: u64,
}

impl<'a> Cpu for WatchedCpu<'a> {
    ghost rescheds = { λ c. c.rescheds };

    ghost sleeps = { λ c. c.sleeps };

    fn need_resched(&mut self) -> bool {
        count(&self.watch.asked);
        if self.spins > 0 {
            self.spins -= 1;
            return false;
        }
        self.rescheds = self.rescheds.saturating_add(1);
        true
    }

    fn overdue(&mut self) -> bool {
        true
    }

    /// Sleeps until as many sleeps may end as it began.
    fn sleep<R: Wait>(&mut self, _rt: &R) {
        self.sleeps = self.sleeps.saturating_add(1);
        count(&self.watch.sleeps);
        await_count(&self.watch.ends, self.sleeps);
    }
}

/// Gives watched CPUs, and counts wakes.
#[derive(Drop)]
pub struct WatchedCrew<'a> {
    pub watch: &'a Watch,
}

impl<'a> Crew for WatchedCrew<'a> {
    type C = WatchedCpu<'a>;

    fn cpu(
        &mut self,
        _alloc: Global,
        _task: u32,
        turns: Turns,
    ) -> Result<WatchedCpu<'a>, AllocError> {
        Ok(WatchedCpu {
            watch: self.watch,
            spins: turns.spin,
            rescheds: 0,
            sleeps: 0,
        })
    }

    fn wake(&self, task: u32) {
        count(&self.watch.wakes);
        self.watch
            .woken
            .store(u64::from(task) + 1, Ordering::SeqCst);
    }
}
