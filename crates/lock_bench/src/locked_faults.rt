//! Faults on an address space under its lock.
ghost use Rattle.std.specs.Prelude.{◌≡◌, ◌<◌};
ghost use Rattle.guarded.specs.GuardedHandles.{lock_of};
ghost use Rattle.lock_bench.specs.RoundsBetween.{IsIdle};
ghost use Rattle.lock_bench.specs.FaultPlans.{HasFaults, MapsArea};
ghost use Rattle.lock_bench.specs.BenchRooms.{but_one};

use crate::crewed::{TURNS, Worker};
use crate::plan::with_faults;
use crate::timed::{Timed, rounds};
use cpu_task::{Crew, OpenGate, ParkCpu, ParkCrew};
use guarded::Guarded;
use sleep_lock::SleepLock;
use std::alloc::{AllocError, Global};
use std::io;
use std::sync::Wait;
use std::thread::Threads;
use std::time::{Clock, Duration};
use vma_map::Areas;
use word_bits::MAX_TASKS;

/// An address space under its lock, and the crew that wakes those who sleep on that.
#[derive(Drop)]
pub struct LockedFaults<L: SleepLock<Areas>> {
    space: Guarded<L, Areas>,
    crew: ParkCrew,
}

/// Maps the area, in the name of a task whose call that is.
fn map_area<W: Wait, L: SleepLock<Areas>>(
    rt: &W,
    space: &Guarded<L, Areas>,
    pass: &mut L::Pass,
    cpu: &mut ParkCpu,
    crew: &ParkCrew,
    task: u32,
)
    requires idle { IsIdle (L.sits (lock_of space.now) pass.old) (L.view pass.old) }
    requires maps { MapsArea (L.calls_on (lock_of space.now)) task }
    ensures idle { IsIdle (L.sits (lock_of space.now) pass.new) (L.view pass.new) }
{
    space.begin(rt, pass, task);
    if space.done(pass) == 0 {
        space.perform(rt, pass, cpu, crew, &OpenGate, 0);
    }
    space.end(pass);
}

impl<L: SleepLock<Areas> + Drop> Timed for LockedFaults<L> {
    type Worker = Worker<L::Pass>;

    const ROOM: u32 = 131_071;

    ghost ROOM = { 131071 };

    ghost idle = { λ faults worker.
        IsIdle (L.sits (lock_of faults.space) worker.pass) (L.view worker.pass) };

    ghost made = { λ n v u. (L.view u.pass).hand.done ≡ n };

    ghost serves = { λ faults task count.
        HasFaults (L.calls_on (lock_of faults.space)) task count };

    ghost enough = { but_one };

    /// The area is mapped, in the name of a task behind those of the threads.
    fn start<W: Wait>(
        rt: &W,
        alloc: Global,
        threads: u32,
        count: u32,
    ) -> Result<(LockedFaults<L>, Worker<L::Pass>), AllocError> {
        let plan = with_faults(alloc, threads, count)?;
        let (space, mut pass) = Guarded::<L, Areas>::open(alloc, 0, plan)?;
        let mut crew = ParkCrew::new(alloc, threads)?;
        let mut cpu = crew.cpu(alloc, 0, TURNS)?;
        map_area(rt, &space, &mut pass, &mut cpu, &crew, threads);
        Ok((LockedFaults { space, crew }, Worker { pass, cpu }))
    }

    /// The crew then wakes the CPU of the new worker in the name of the task.
    fn another(
        &mut self,
        alloc: Global,
        first: &mut Worker<L::Pass>,
        task: u32,
    ) -> Result<Worker<L::Pass>, AllocError> {
        let cpu = self.crew.cpu(alloc, task, TURNS)?;
        let pass = self.space.split(&mut first.pass);
        Ok(Worker { pass, cpu })
    }

    fn rounds<W: Wait>(&self, rt: &W, worker: &mut Worker<L::Pass>, task: u32, count: u32) {
        let space = &self.space;
        let crew = &self.crew;
        space.begin(rt, &mut worker.pass, task);
        for call in space.done(&worker.pass)..count {
            space.perform(rt, &mut worker.pass, &mut worker.cpu, crew, &OpenGate, call);
        }
        space.end(&mut worker.pass);
    }
}

/// Each of so many threads makes so many faults: on one new space, and on more of them, one after
/// the other, where one hasn't room for so many. How long the threads took.
pub fn locked_fault_rounds<
    L: SleepLock<Areas, Pass: Send, Site: Sync, Rule: Sync> + Sync + Drop,
    R: Threads + Wait + Sync + Clock,
>(rt: &R, alloc: Global, threads: u32, count: u32) -> io::Result<Duration>
    requires { threads < MAX_TASKS }
{
    rounds::<LockedFaults<L>, R>(rt, alloc, threads, count)
}
