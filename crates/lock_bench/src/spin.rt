//! Rounds on the queued spin lock.
ghost use Rattle.std.specs.Prelude.{◌≡◌, ◌+◌, ◌<◌, length};
ghost use Rattle.lock_core.specs.SiteHandles.{plan_of, view_of};
ghost use Rattle.qspin_queue.specs.SpinQueueHandles.{IsIdle};
ghost use Rattle.lock_bench.specs.BenchRooms.{unbounded};

use crate::plan::without_calls;
use crate::timed::Timed;
use lock_core::{Bare, Pass, Site};
use qspin_queue::lock;
use qspin_word::unlock;
use std::alloc::{AllocError, Global};
use std::sync::Wait;

impl Timed for Site<Bare> {
    type Worker = Pass<Bare>;

    const ROOM: u32 = u32::MAX;

    ghost ROOM = { 4294967295 };

    ghost idle = { IsIdle };

    ghost made = { λ n v u. (view_of u).spin.entries ≡ (view_of v).spin.entries + n };

    ghost serves = { λ site task _. task < length (plan_of site) };

    ghost enough = { unbounded };

    fn start<W: Wait>(
        _rt: &W,
        alloc: Global,
        threads: u32,
        _count: u32,
    ) -> Result<(Site<Bare>, Pass<Bare>), AllocError> {
        let plan = without_calls(alloc, threads)?;
        Site::<Bare>::open(alloc, plan)
    }

    fn another(
        &mut self,
        _alloc: Global,
        first: &mut Pass<Bare>,
        _task: u32,
    ) -> Result<Pass<Bare>, AllocError> {
        Ok(self.split(first))
    }

    fn rounds<W: Wait>(&self, rt: &W, worker: &mut Pass<Bare>, task: u32, count: u32) {
        self.begin(rt, worker, task);
        for _ in 0..count {
            lock(self, rt, worker);
            unlock(self, worker);
        }
        self.end(worker);
    }
}
