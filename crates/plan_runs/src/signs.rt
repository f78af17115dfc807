//! How threads of a test show each other how far they have come, and the words of their records.
use cpu_task::{Cpu, Crew, ParkCpu, ParkCrew, Turns};
use std::alloc::{AllocError, Global};
use std::sync::Wait;
use std::sync::atomic::{AtomicBool, AtomicU32, Ordering};
use std::thread;

/// A record's word has the kind of the reply above its place in the log, and the value above both.
pub const KIND: u64 = 262_144;

/// What the value of a reply is multiplied by in a record's word.
pub const VALUE: u64 = 4_194_304;

/// A thread looks so often for what others do, which is longer than that takes.
const LOOKS: u32 = 100_000_000;

/// Counts one more.
pub fn count(counter: &AtomicU32) {
    let _ = counter.fetch_update(Ordering::SeqCst, Ordering::SeqCst, |n| n.checked_add(1));
}

/// Waits until the flag is set, or the looks run out.
pub fn await_flag(flag: &AtomicBool) {
    for _ in 0..LOOKS {
        if flag.load(Ordering::SeqCst) {
            return;
        }
        thread::yield_now();
    }
}

/// Waits until the counter has come so far, or the looks run out.
pub fn await_count(counter: &AtomicU32, least: u32) {
    for _ in 0..LOOKS {
        if counter.load(Ordering::SeqCst) >= least {
            return;
        }
        thread::yield_now();
    }
}

/// A CPU that counts its task among those that have slept.
#[derive(Drop)]
pub struct CountedCpu<'a> {
    cpu: ParkCpu,
    counted: bool,
    slept: &'a AtomicU32,
}

impl<'a> Cpu for CountedCpu<'a> {
    ghost rescheds = { λ c. c.cpu.rescheds };

    ghost sleeps = { λ c. c.cpu.sleeps };

    fn need_resched(&mut self) -> bool {
        self.cpu.need_resched()
    }

    fn overdue(&mut self) -> bool {
        self.cpu.overdue()
    }

    fn sleep<R: Wait>(&mut self, rt: &R) {
        if !self.counted {
            self.counted = true;
            count(self.slept);
        }
        self.cpu.sleep(rt);
    }
}

/// Gives such CPUs.
#[derive(Drop)]
pub struct CountedCrew<'a> {
    pub crew: ParkCrew,
    pub slept: &'a AtomicU32,
}

impl<'a> Crew for CountedCrew<'a> {
    type C = CountedCpu<'a>;

    fn cpu(
        &mut self,
        alloc: Global,
        task: u32,
        turns: Turns,
    ) -> Result<CountedCpu<'a>, AllocError> {
        let cpu = self.crew.cpu(alloc, task, turns)?;
        Ok(CountedCpu {
            cpu,
            counted: false,
            slept: self.slept,
        })
    }

    fn wake(&self, task: u32) {
        self.crew.wake(task);
    }
}
