//! The calls of a reader.
ghost use Rattle.std.specs.Prelude.{◌≡◌, ◌<◌, ◌+◌, false, Some, IsSome, IfOk, IfErr};
ghost use Rattle.lock_core.specs.Holding.{released};
ghost use Rattle.lock_core.specs.Pasts.{FoundAt};
ghost use Rattle.percpu_rwsem.specs.PercpuPlays.{NamesOther};
ghost use Rattle.percpu_rwsem.specs.PercpuRuled.{block_at};
ghost use Rattle.percpu_rwsem.specs.PercpuStated.{CountFalls};
ghost use Rattle.percpu_rwsem.specs.Types.{No, Shared, Idle, Reads};

use crate::pass::PercpuPass;
use crate::site::PercpuRwSem;
use crate::steps;
use cpu_task::{Cpu, Crew};
use std::sync::Wait;
use word_bits::Object;

impl<O: Object> PercpuRwSem<O> {
    ghost use Rattle.percpu_rwsem.specs.PercpuHandles.{plan_of, view_of, hand_in, past_of, task_in, held_in, blocks_in, after, CameTo, FindsAtStep, IsLatest, SitsAt, SleepsEachTry, TakesSince, StepsOn};

    /// Tries once to read, as `__percpu_down_read_trylock` does: two steps if it gets in, three if
    /// not. `Ok`: the pass holds shared. `Err` has the code of the task that blocks, 1 plus its
    /// number; the count is as before. It wakes nobody, though a writer may have seen the count at
    /// 1.
    pub fn read_try(&self, pass: &mut PercpuPass<O>) -> Result<(), u64>
        requires own { SitsAt self.now pass.old }
        requires numbered { IsSome (task_in pass.old) }
        requires out { held_in pass.old ≡ No }
        requires apart { blocks_in pass.old ≡ false }
        ensures on { StepsOn self.now pass.old pass.new }
        ensures last { IsLatest pass.new }
        ensures apart { blocks_in pass.new ≡ false }
        ensures took { IfOk result (λ _. TakesSince O.object (plan_of self.now) Shared Reads
            (view_of pass.old) (view_of pass.new)) }
        ensures holds { IfOk result (λ _. held_in pass.new ≡ Shared) }
        ensures two { IfOk result (λ _.
            (view_of pass.new).steps ≡ (view_of pass.old).steps + 2) }
        ensures free { IfOk result (λ _. FoundAt block_at 0 (past_of pass.new)) }
        ensures back { IfErr result (λ _.
            view_of pass.new ≡ after 3 (view_of pass.old) (hand_in pass.old) Idle) }
        ensures out { IfErr result (λ _. held_in pass.new ≡ No) }
        ensures task { task_in pass.new ≡ task_in pass.old }
        ensures names { IfErr result (λ word.
            NamesOther (plan_of self.now) (task_in pass.old) word) }
        ensures found { IfErr result (λ word.
            FindsAtStep ((view_of pass.old).steps + 2) block_at word pass.old pass.new) }
    {
        let Some(task) = pass.pass.task() else {
            unreachable!()
        };
        // The count goes up before the block word is loaded: a writer that found this count zero
        // has blocked before, so this load sees its code.
        steps::add(&self.site, &mut pass.pass, task);
        let looked = steps::look(&self.site, &mut pass.pass, task);
        if looked.is_err() {
            steps::go_back(&self.site, &mut pass.pass, task);
        }
        looked
    }

    /// Tries to read until the pass holds shared (`percpu_down_read`). After each failed try it
    /// wakes the task that blocks, which may have seen this count at 1, and then sleeps.
    pub fn down_read<W: Wait, C: Crew>(
        &self,
        rt: &W,
        pass: &mut PercpuPass<O>,
        cpu: &mut C::C,
        crew: &C,
    )
        requires own { SitsAt self.now pass.old }
        requires numbered { IsSome (task_in pass.old) }
        requires out { held_in pass.old ≡ No }
        requires apart { blocks_in pass.old ≡ false }
        ensures on { StepsOn self.now pass.old pass.new }
        ensures last { IsLatest pass.new }
        ensures apart { blocks_in pass.new ≡ false }
        ensures took { TakesSince O.object (plan_of self.now) Shared Reads
            (view_of pass.old) (view_of pass.new) }
        ensures holds { held_in pass.new ≡ Shared }
        ensures task { task_in pass.new ≡ task_in pass.old }
        ensures free { FoundAt block_at 0 (past_of pass.new) }
        ensures sleeps { SleepsEachTry 2 (view_of pass.old).steps (view_of pass.new).steps
            (C.C.sleeps cpu.old) (C.C.sleeps cpu.new) }
    {
        for _ in rt.forever() {
            match self.read_try(pass) {
                Ok(()) => return,
                Err(word) => crew.wake((word - 1) as u32),
            }
            cpu.sleep(rt);
        }
        unreachable!()
    }

    /// Ends the pass's shared hold (`percpu_up_read`): it takes its count back, then loads the block
    /// word, and wakes the task that blocks, if there is one.
    pub fn up_read<C: Crew>(&self, pass: &mut PercpuPass<O>, crew: &C)
        requires own { SitsAt self.now pass.old }
        requires held { held_in pass.old ≡ Shared }
        ensures on { StepsOn self.now pass.old pass.new }
        ensures last { IsLatest pass.new }
        ensures apart { blocks_in pass.new ≡ false }
        ensures kept { view_of pass.new ≡
            after 2 (view_of pass.old) (released (hand_in pass.old) 0) Idle }
        ensures first { CameTo (after 1 (view_of pass.old) (released (hand_in pass.old) 0) Idle)
            pass.old pass.new }
        ensures falls { CountFalls (plan_of self.now) (task_in pass.old)
            ((view_of pass.old).steps + 1) (past_of pass.old) (past_of pass.new) }
        ensures out { held_in pass.new ≡ No }
        ensures task { task_in pass.new ≡ task_in pass.old }
    {
        let Some(task) = pass.pass.task() else {
            unreachable!()
        };
        steps::end_read(&self.site, &mut pass.pass, task);
        // Loaded behind the subtraction: a writer that saw this count at 1 had blocked before, and is
        // woken.
        let word = steps::see(&self.site, &mut pass.pass);
        if word != 0 {
            crew.wake((word - 1) as u32);
        }
    }
}
