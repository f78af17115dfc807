//! Rounds on the front of the optimistic spin queue.
ghost use Rattle.std.specs.Prelude.{◌≡◌, ◌+◌, ◌<◌};
ghost use Rattle.osq_nodes.specs.OsqHandles.{fronts_in, tasks_of};
ghost use Rattle.lock_bench.specs.Idles.{IsIdle};
ghost use Rattle.lock_bench.specs.BenchRooms.{unbounded};

use crate::timed::Timed;
use osq_nodes::{Osq, OsqPass};
use std::alloc::{AllocError, Global};
use std::sync::Wait;

impl Timed for Osq {
    type Worker = OsqPass;

    const ROOM: u32 = u32::MAX;

    ghost ROOM = { 4294967295 };

    ghost idle = { IsIdle };

    ghost made = { λ n v u. fronts_in u ≡ fronts_in v + n };

    ghost serves = { λ osq task _. task < tasks_of osq };

    ghost enough = { unbounded };

    fn start<W: Wait>(
        _rt: &W,
        alloc: Global,
        threads: u32,
        _count: u32,
    ) -> Result<(Osq, OsqPass), AllocError> {
        Osq::open(alloc, threads)
    }

    fn another(
        &mut self,
        _alloc: Global,
        first: &mut OsqPass,
        _task: u32,
    ) -> Result<OsqPass, AllocError> {
        Ok(self.split(first))
    }

    fn rounds<W: Wait>(&self, rt: &W, worker: &mut OsqPass, task: u32, count: u32) {
        self.begin(rt, worker, task);
        for _ in 0..count {
            self.wait(rt, worker);
            self.unlock(rt, worker);
        }
        self.end(worker);
    }
}
