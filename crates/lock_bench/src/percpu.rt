//! Rounds of readers of the per-CPU semaphore.
ghost use Rattle.std.specs.Prelude.{◌≡◌, ◌+◌, ◌<◌, length};
ghost use Rattle.percpu_rwsem.specs.PercpuHandles.{hand_in, plan_of};
ghost use Rattle.lock_bench.specs.BenchPercpuPasses.{IsIdle};
ghost use Rattle.lock_bench.specs.BenchRooms.{unbounded};

use crate::crewed::{TURNS, Worker};
use crate::plan::without_calls;
use crate::timed::Timed;
use cpu_task::{Crew, ParkCrew};
use lock_core::Nothing;
use percpu_rwsem::{PercpuPass, PercpuRwSem};
use std::alloc::{AllocError, Global};
use std::sync::Wait;

/// A per-CPU semaphore that is held by readers, and the crew that wakes those who sleep on it.
#[derive(Drop)]
pub struct PercpuReaders {
    sem: PercpuRwSem<Nothing>,
    crew: ParkCrew,
}

impl Timed for PercpuReaders {
    type Worker = Worker<PercpuPass<Nothing>>;

    const ROOM: u32 = u32::MAX;

    ghost ROOM = { 4294967295 };

    ghost idle = { λ readers worker. IsIdle readers.sem worker.pass };

    ghost made = { λ n v u. (hand_in u.pass).takes ≡ (hand_in v.pass).takes + n };

    ghost serves = { λ readers task _. task < length (plan_of readers.sem) };

    ghost enough = { unbounded };

    fn start<W: Wait>(
        _rt: &W,
        alloc: Global,
        threads: u32,
        _count: u32,
    ) -> Result<(PercpuReaders, Worker<PercpuPass<Nothing>>), AllocError> {
        let plan = without_calls(alloc, threads)?;
        let (sem, pass) = PercpuRwSem::<Nothing>::open(alloc, plan)?;
        let mut crew = ParkCrew::new(alloc, threads)?;
        let cpu = crew.cpu(alloc, 0, TURNS)?;
        Ok((PercpuReaders { sem, crew }, Worker { pass, cpu }))
    }

    /// The crew then wakes the CPU of the new worker in the name of the task.
    fn another(
        &mut self,
        alloc: Global,
        first: &mut Worker<PercpuPass<Nothing>>,
        task: u32,
    ) -> Result<Worker<PercpuPass<Nothing>>, AllocError> {
        let cpu = self.crew.cpu(alloc, task, TURNS)?;
        let pass = self.sem.split(&mut first.pass);
        Ok(Worker { pass, cpu })
    }

    fn rounds<W: Wait>(
        &self,
        rt: &W,
        worker: &mut Worker<PercpuPass<Nothing>>,
        task: u32,
        count: u32,
    ) {
        let sem = &self.sem;
        sem.begin(rt, &mut worker.pass, task);
        for _ in 0..count {
            sem.down_read(rt, &mut worker.pass, &mut worker.cpu, &self.crew);
            sem.up_read(&mut worker.pass, &self.crew);
        }
        sem.end(&mut worker.pass);
    }
}
