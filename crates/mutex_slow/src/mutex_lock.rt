//! The mutex, as one of the locks that tasks sleep on. A shared hold of it is an exclusive one.

use crate::calls::{Mutex, MutexPass};
use cpu_task::Crew;
use lock_core::{How, Interrupted, Plan, Tally};
use sleep_lock::{OwnerLock, SleepLock};
use std::alloc::{AllocError, Global};
use std::sync::Wait;
use word_bits::Object;

impl<O: Object> SleepLock<O> for Mutex<O> {
    ghost use Rattle.std.specs.Prelude.{◌≡◌, [], ◌∷◌, length, refl};
    ghost use Rattle.lock_core.specs.Kinds.{mutex as mutex_kind};
    ghost use Rattle.mutex_slow.specs.MutexHandles.{dozes_in, newest, spun_of};
    ghost use Rattle.mutex_slow.specs.Mutexes.{owner_at};
    ghost use Rattle.mutex_slow.specs.MutexPlaces.{EndsHold};
    ghost use Rattle.mutex_slow.specs.MutexStated.{MarksDozes, waits_on};
    ghost use Rattle.mutex_slow.specs.MutexLocks.{KnowsMutex};
    ghost use Rattle.osq_nodes.specs.OsqRuled.{newest as newest_queue};
    ghost use Rattle.osq_unqueue.specs.LockSpinQueues.{KnowsSpinQueue};
    ghost use Rattle.mutex_slow.specs.Laws.MutexLock.{mutex-stands};

    ghost kind = { mutex_kind };

    ghost word_at = { owner_at };

    ghost opened = { newest };

    ghost opened_queue = { λ k. newest_queue (length k) ∷ [] };

    ghost waits = { waits_on };

    ghost tells = { λ k v. KnowsMutex O.object O.WORDS k v };

    ghost tells_queue = { KnowsSpinQueue };

    // A try makes another step where only flags changed meanwhile.
    ghost tries_alone = { λ v u. Unit {0} };

    ghost ends_shared = { EndsHold };

    ghost ends_alone = { EndsHold };

    ghost turns_shared = { λ v u. u ≡ v };

    ghost spun = { spun_of };

    ghost dozes = { dozes_in };

    ghost marks_dozes = { MarksDozes };

    fn open(alloc: Global, plan: Plan) -> Result<(Mutex<O>, MutexPass<O>), AllocError> {
        Mutex::open(alloc, plan)
    }

    fn split(&self, pass: &mut MutexPass<O>) -> MutexPass<O> {
        self.split(pass)
    }

    fn begin<W: Wait>(&self, rt: &W, pass: &mut MutexPass<O>, task: u32) {
        self.begin(rt, pass, task);
    }

    fn end(&self, pass: &mut MutexPass<O>) {
        self.end(pass);
    }

    fn gather(&self, into: &mut MutexPass<O>, other: MutexPass<O>) {
        self.gather(into, other);
    }

    fn recall(&self, pass: &mut MutexPass<O>) {
        self.recall(pass);
    }

    fn recall_queue(&self, pass: &mut MutexPass<O>) {
        self.recall_spin_queue(pass);
    }

    fn tally(pass: &MutexPass<O>) -> Tally {
        pass.tally()
    }

    fn shared<W: Wait, C: Crew>(
        &self,
        rt: &W,
        pass: &mut MutexPass<O>,
        cpu: &mut C::C,
        crew: &C,
    ) -> How {
        self.lock(rt, pass, cpu, crew)
    }

    fn alone<W: Wait, C: Crew>(
        &self,
        rt: &W,
        pass: &mut MutexPass<O>,
        cpu: &mut C::C,
        crew: &C,
    ) -> How {
        self.lock(rt, pass, cpu, crew)
    }

    fn shared_int<W: Wait, C: Crew>(
        &self,
        rt: &W,
        pass: &mut MutexPass<O>,
        cpu: &mut C::C,
        crew: &C,
    ) -> Result<How, Interrupted> {
        self.lock_interruptible(rt, pass, cpu, crew)
    }

    fn alone_int<W: Wait, C: Crew>(
        &self,
        rt: &W,
        pass: &mut MutexPass<O>,
        cpu: &mut C::C,
        crew: &C,
    ) -> Result<How, Interrupted> {
        self.lock_interruptible(rt, pass, cpu, crew)
    }

    fn try_shared<W: Wait>(&self, rt: &W, pass: &mut MutexPass<O>) -> Result<(), u64> {
        self.trylock(rt, pass)
    }

    fn try_alone<W: Wait>(&self, rt: &W, pass: &mut MutexPass<O>) -> Result<(), u64> {
        self.trylock(rt, pass)
    }

    fn release_shared<W: Wait, C: Crew>(&self, rt: &W, pass: &mut MutexPass<O>, crew: &C) {
        self.unlock(rt, pass, crew);
    }

    fn release_alone<W: Wait, C: Crew>(&self, rt: &W, pass: &mut MutexPass<O>, crew: &C) {
        self.unlock(rt, pass, crew);
    }

    fn downgrade<W: Wait, C: Crew>(&self, _rt: &W, _pass: &mut MutexPass<O>, _crew: &C) {}

    ghost shuts = { λ reads word shut. shut };

    ghost opens = { λ reads word shut. shut };

    ghost leaves = { λ p w. refl };

    ghost keeps_dozes = { λ p w. refl };

    ghost planned = { λ m p is. is.planned };

    ghost small = { λ m. m.site.small };

    ghost stands = { λ m p is. mutex-stands O.object m p is };
}

impl<O: Object> OwnerLock<O> for Mutex<O> {
    ghost use Rattle.std.specs.Prelude.{refl};

    ghost owned = { refl };
}
