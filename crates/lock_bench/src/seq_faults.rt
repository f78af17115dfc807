//! Faults on an address space without its lock.
ghost use Rattle.std.specs.Prelude.{◌≡◌};
ghost use Rattle.seq_fault.specs.SeqHandles.{done_in, plan_of};
ghost use Rattle.lock_bench.specs.FaultPlans.{HasFaults, MapsArea};
ghost use Rattle.lock_bench.specs.FaultPasses.{IsIdle};
ghost use Rattle.lock_bench.specs.BenchRooms.{but_one};

use crate::plan::with_faults;
use crate::timed::Timed;
use lock_core::SiteLock;
use seq_fault::{SeqSpace, SpacePass};
use std::alloc::{AllocError, Global};
use std::sync::Wait;

/// Maps the area, in the name of a task whose call that is.
fn map_area<W: Wait>(rt: &W, space: &SeqSpace, pass: &mut SpacePass, task: u32)
    requires idle { IsIdle space.now pass.old }
    requires maps { MapsArea (plan_of space.now) task }
    ensures idle { IsIdle space.now pass.new }
{
    space.begin(rt, pass, task);
    if space.done(pass) == 0 {
        space.write(rt, pass, 0);
    }
    space.end(pass);
}

impl Timed for SeqSpace {
    type Worker = SpacePass;

    const ROOM: u32 = 131_071;

    ghost ROOM = { 131071 };

    ghost idle = { IsIdle };

    ghost made = { λ n v u. done_in u ≡ n };

    ghost serves = { λ space task count. HasFaults (plan_of space) task count };

    ghost enough = { but_one };

    /// The area is mapped, in the name of a task behind those of the threads.
    fn start<W: Wait>(
        rt: &W,
        alloc: Global,
        threads: u32,
        count: u32,
    ) -> Result<(SeqSpace, SpacePass), AllocError> {
        let plan = with_faults(alloc, threads, count)?;
        let (space, mut pass) = SeqSpace::open(alloc, plan)?;
        map_area(rt, &space, &mut pass, threads);
        Ok((space, pass))
    }

    fn another(
        &mut self,
        _alloc: Global,
        first: &mut SpacePass,
        _task: u32,
    ) -> Result<SpacePass, AllocError> {
        Ok(self.split(first))
    }

    fn rounds<W: Wait>(&self, rt: &W, worker: &mut SpacePass, task: u32, count: u32) {
        self.begin(rt, worker, task);
        for call in self.done(worker)..count {
            self.fault_wait(rt, worker, call);
        }
        self.end(worker);
    }
}
