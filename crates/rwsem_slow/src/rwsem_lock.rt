//! The semaphore, as one of the locks that tasks sleep on. Its readers share it.

use crate::calls::{RwPass, RwSem};
use cpu_task::Crew;
use lock_core::{How, Interrupted, Plan, Tally};
use sleep_lock::{CountLock, SleepLock};
use std::alloc::{AllocError, Global};
use std::sync::Wait;
use word_bits::Object;

impl<O: Object> SleepLock<O> for RwSem<O> {
    ghost use Rattle.std.specs.Prelude.{◌≡◌, ◌+◌, [], ◌∷◌, length, refl};
    ghost use Rattle.lock_core.specs.Kinds.{semaphore, wakes_alone, wakes_down, wakes_shared};
    ghost use Rattle.rwsem_slow.specs.RwSemHandles.{dozes_in, newest, spun_of};
    ghost use Rattle.rwsem_slow.specs.Releasing.{LeavesCount};
    ghost use Rattle.rwsem_wake.specs.RwSemViews.{count_at};
    ghost use Rattle.rwsem_slow.specs.RwSemStated.{MarksDozes, waits_on};
    ghost use Rattle.rwsem_slow.specs.RwSemLocks.{KnowsRwSem};
    ghost use Rattle.osq_nodes.specs.OsqRuled.{newest as newest_queue};
    ghost use Rattle.osq_unqueue.specs.LockSpinQueues.{KnowsSpinQueue};
    ghost use Rattle.rwsem_slow.specs.Laws.RwSemLock.{rwsem-stands};
    ghost use Rattle.rwsem_slow.specs.Types.{No, Shared};

    ghost kind = { semaphore };

    ghost word_at = { count_at };

    ghost opened = { newest };

    ghost opened_queue = { λ k. newest_queue (length k) ∷ [] };

    ghost waits = { waits_on };

    ghost tells = { λ k v. KnowsRwSem O.object O.WORDS k v };

    ghost tells_queue = { KnowsSpinQueue };

    // It is one step.
    ghost tries_alone = { λ v u. u.steps ≡ v.steps + 1 };

    ghost ends_shared = { LeavesCount (wakes_shared semaphore) No 256 0 };

    ghost ends_alone = { LeavesCount (wakes_alone semaphore) No 1 0 };

    ghost turns_shared = { LeavesCount (wakes_down semaphore) Shared 0 255 };

    ghost spun = { spun_of };

    ghost dozes = { dozes_in };

    ghost marks_dozes = { MarksDozes };

    fn open(alloc: Global, plan: Plan) -> Result<(RwSem<O>, RwPass<O>), AllocError> {
        RwSem::open(alloc, plan)
    }

    fn split(&self, pass: &mut RwPass<O>) -> RwPass<O> {
        self.split(pass)
    }

    fn begin<W: Wait>(&self, rt: &W, pass: &mut RwPass<O>, task: u32) {
        self.begin(rt, pass, task);
    }

    fn end(&self, pass: &mut RwPass<O>) {
        self.end(pass);
    }

    fn gather(&self, into: &mut RwPass<O>, other: RwPass<O>) {
        self.gather(into, other);
    }

    fn recall(&self, pass: &mut RwPass<O>) {
        self.recall(pass);
    }

    fn recall_queue(&self, pass: &mut RwPass<O>) {
        self.recall_spin_queue(pass);
    }

    fn tally(pass: &RwPass<O>) -> Tally {
        pass.tally()
    }

    fn shared<W: Wait, C: Crew>(
        &self,
        rt: &W,
        pass: &mut RwPass<O>,
        cpu: &mut C::C,
        crew: &C,
    ) -> How {
        self.down_read(rt, pass, cpu, crew)
    }

    fn alone<W: Wait, C: Crew>(
        &self,
        rt: &W,
        pass: &mut RwPass<O>,
        cpu: &mut C::C,
        crew: &C,
    ) -> How {
        self.down_write(rt, pass, cpu, crew)
    }

    fn shared_int<W: Wait, C: Crew>(
        &self,
        rt: &W,
        pass: &mut RwPass<O>,
        cpu: &mut C::C,
        crew: &C,
    ) -> Result<How, Interrupted> {
        self.down_read_interruptible(rt, pass, cpu, crew)
    }

    fn alone_int<W: Wait, C: Crew>(
        &self,
        rt: &W,
        pass: &mut RwPass<O>,
        cpu: &mut C::C,
        crew: &C,
    ) -> Result<How, Interrupted> {
        self.down_write_interruptible(rt, pass, cpu, crew)
    }

    fn try_shared<W: Wait>(&self, rt: &W, pass: &mut RwPass<O>) -> Result<(), u64> {
        self.down_read_trylock(rt, pass)
    }

    fn try_alone<W: Wait>(&self, _rt: &W, pass: &mut RwPass<O>) -> Result<(), u64> {
        self.down_write_trylock(pass)
    }

    fn release_shared<W: Wait, C: Crew>(&self, rt: &W, pass: &mut RwPass<O>, crew: &C) {
        self.up_read(rt, pass, crew);
    }

    fn release_alone<W: Wait, C: Crew>(&self, rt: &W, pass: &mut RwPass<O>, crew: &C) {
        self.up_write(rt, pass, crew);
    }

    fn downgrade<W: Wait, C: Crew>(&self, rt: &W, pass: &mut RwPass<O>, crew: &C) {
        self.downgrade_write(rt, pass, crew);
    }

    ghost shuts = { λ reads word shut. shut };

    ghost opens = { λ reads word shut. shut };

    ghost leaves = { λ p w. refl };

    ghost keeps_dozes = { λ p w. refl };

    ghost planned = { λ s p is. is.planned };

    ghost small = { λ s. s.site.small };

    ghost stands = { λ s p is. rwsem-stands O.object s p is };
}

impl<O: Object> CountLock<O> for RwSem<O> {
    ghost use Rattle.std.specs.Prelude.{refl};

    ghost counts = { refl };
}
