//! The calls of a writer.
ghost use Rattle.std.specs.Prelude.{◌≡◌, ◌≢◌, ◌<◌, ◌+◌, ℕ, false, true, None, Some, IsSome, IfOk, IfErr, length};
ghost use Rattle.lock_core.specs.Views.{first, ticked};
ghost use Rattle.lock_core.specs.Pasts.{FoundAt};
ghost use Rattle.percpu_rwsem.specs.PercpuPlays.{NamesOther, unheld};
ghost use Rattle.percpu_rwsem.specs.PercpuRuled.{block_at, count_at};
ghost use Rattle.percpu_rwsem.specs.Types.{No, Alone, Idle, Blocks};

use crate::pass::PercpuPass;
use crate::site::PercpuRwSem;
use crate::steps;
use cpu_task::{Cpu, Crew};
use std::sync::Wait;
use word_bits::Object;

impl<O: Object> PercpuRwSem<O> {
    ghost use Rattle.percpu_rwsem.specs.PercpuHandles.{plan_of, view_of, hand_in, past_of, task_in, held_in, seen_in, blocks_in, after, FindsZerosUpTo, IsLatest, LooksUpTo, SitsAt, SleepsBehind, StepsTo, TakesSince, StepsOn};

    /// Blocks new readers by one compare-exchange. `Err` has the code of the task that blocks
    /// already, 1 plus its number. After `Ok` the pass blocks, and holds nothing until `drain`
    /// answers `Ok`.
    pub fn block(&self, pass: &mut PercpuPass<O>) -> Result<(), u64>
        requires own { SitsAt self.now pass.old }
        requires numbered { IsSome (task_in pass.old) }
        requires out { held_in pass.old ≡ No }
        requires apart { blocks_in pass.old ≡ false }
        ensures on { StepsOn self.now pass.old pass.new }
        ensures last { IsLatest pass.new }
        ensures out { held_in pass.new ≡ No }
        ensures task { task_in pass.new ≡ task_in pass.old }
        ensures blocks { IfOk result (λ _. blocks_in pass.new ≡ true) }
        ensures seen { IfOk result (λ _. seen_in pass.new ≡ Some 0) }
        ensures blocked { IfOk result (λ _.
            view_of pass.new ≡ after 1 (view_of pass.old) (hand_in pass.old) (Blocks 0)) }
        ensures free { IfOk result (λ _. FoundAt block_at 0 (past_of pass.new)) }
        ensures apart { IfErr result (λ _. blocks_in pass.new ≡ false) }
        ensures kept { IfErr result (λ _. view_of pass.new ≡ ticked (view_of pass.old)) }
        ensures names { IfErr result (λ word.
            NamesOther (plan_of self.now) (task_in pass.old) word) }
        ensures found { IfErr result (λ word. FoundAt block_at word (past_of pass.new)) }
    {
        let Some(task) = pass.pass.task() else {
            unreachable!()
        };
        steps::block(&self.site, &mut pass.pass, task)?;
        pass.seen = Some(0);
        Ok(())
    }

    /// Looks at the counts of the plan's tasks in order, from the first that the pass hasn't seen
    /// zero since it blocked. `Ok`: it has seen each zero, and holds alone. `Err` has the task
    /// whose count it saw at 1; those below stay seen.
    pub fn drain(&self, pass: &mut PercpuPass<O>) -> Result<(), u32>
        requires own { SitsAt self.now pass.old }
        requires blocks { blocks_in pass.old ≡ true }
        requires out { held_in pass.old ≡ No }
        ensures on { StepsOn self.now pass.old pass.new }
        ensures last { IsLatest pass.new }
        ensures blocks { blocks_in pass.new ≡ true }
        ensures took { IfOk result (λ _. TakesSince O.object (plan_of self.now) Alone
            (Blocks (length (plan_of self.now))) (view_of pass.old) (view_of pass.new)) }
        ensures holds { IfOk result (λ _. held_in pass.new ≡ Alone) }
        ensures out { IfErr result (λ _. held_in pass.new ≡ No) }
        ensures task { task_in pass.new ≡ task_in pass.old }
        ensures kept { IfErr result (λ task.
            StepsTo (Blocks task) (view_of pass.old) (view_of pass.new)) }
        ensures seen { IfErr result (λ task. seen_in pass.new ≡ Some task) }
        ensures other { IfErr result (λ task. task_in pass.old ≢ Some task) }
        ensures found { IfErr result (λ task. FoundAt (count_at task) 1 (past_of pass.new)) }
        ensures looked_at_all { IfOk result (λ _.
            LooksUpTo (length (plan_of self.now)) pass.old pass.new) }
        ensures all_zero { IfOk result (λ _.
            FindsZerosUpTo (length (plan_of self.now)) pass.old pass.new) }
        ensures looked { IfErr result (λ task. LooksUpTo (task + 1) pass.old pass.new) }
        ensures zero_below { IfErr result (λ task. FindsZerosUpTo task pass.old pass.new) }
    {
        let Some(task) = pass.pass.task() else {
            unreachable!()
        };
        let Some(first) = pass.seen else {
            unreachable!()
        };
        // One count after the other: whoever raises a count that was seen zero finds the block word
        // set, and takes it back.
        for next in first..self.site.tasks() {
            if steps::drain(&self.site, &mut pass.pass, task, next).is_err() {
                return Err(next);
            }
            pass.seen = Some(next + 1);
        }
        Ok(())
    }

    /// Tries to block until the pass blocks, and sleeps after each failed try.
    fn wait_to_block<W: Wait, U: Cpu>(&self, rt: &W, pass: &mut PercpuPass<O>, cpu: &mut U)
        requires own { SitsAt self.now pass.old }
        requires numbered { IsSome (task_in pass.old) }
        requires out { held_in pass.old ≡ No }
        requires apart { blocks_in pass.old ≡ false }
        ensures on { StepsOn self.now pass.old pass.new }
        ensures blocks { blocks_in pass.new ≡ true }
        ensures seen { seen_in pass.new ≡ Some 0 }
        ensures out { held_in pass.new ≡ No }
        ensures kept { StepsTo (Blocks 0) (view_of pass.old) (view_of pass.new) }
        ensures task { task_in pass.new ≡ task_in pass.old }
        ensures sleeps { SleepsBehind 1 (view_of pass.old).steps (view_of pass.new).steps
            (U.sleeps cpu.old) (U.sleeps cpu.new) }
    {
        for _ in rt.forever() {
            if self.block(pass).is_ok() {
                return;
            }
            cpu.sleep(rt);
        }
        unreachable!()
    }

    /// Looks at the counts until the pass has seen each zero, and sleeps if one isn't.
    fn wait_to_drain<W: Wait, U: Cpu>(&self, rt: &W, pass: &mut PercpuPass<O>, cpu: &mut U)
        requires own { SitsAt self.now pass.old }
        requires blocks { blocks_in pass.old ≡ true }
        requires out { held_in pass.old ≡ No }
        ensures on { StepsOn self.now pass.old pass.new }
        ensures last { IsLatest pass.new }
        ensures blocks { blocks_in pass.new ≡ true }
        ensures took { TakesSince O.object (plan_of self.now) Alone
            (Blocks (length (plan_of self.now))) (view_of pass.old) (view_of pass.new) }
        ensures holds { held_in pass.new ≡ Alone }
        ensures task { task_in pass.new ≡ task_in pass.old }
        ensures sleeps { (first : ℕ) → seen_in pass.old ≡ Some first →
            SleepsBehind (length (plan_of self.now)) (view_of pass.old).steps
            ((view_of pass.new).steps + first) (U.sleeps cpu.old) (U.sleeps cpu.new) }
    {
        for _ in rt.forever() {
            if self.drain(pass).is_ok() {
                return;
            }
            cpu.sleep(rt);
        }
        unreachable!()
    }

    /// Blocks new readers, then waits for those inside, until the pass holds alone
    /// (`percpu_down_write`). It blocks by one step and sees each count zero by one, and makes
    /// one step more for each time that it slept. The crew isn't asked for anything: `up_read`, `down_read` and
    /// `unblock` wake the writer.
    pub fn down_write<W: Wait, C: Crew>(
        &self,
        rt: &W,
        pass: &mut PercpuPass<O>,
        cpu: &mut C::C,
        _crew: &C,
    )
        requires own { SitsAt self.now pass.old }
        requires numbered { IsSome (task_in pass.old) }
        requires out { held_in pass.old ≡ No }
        requires apart { blocks_in pass.old ≡ false }
        ensures on { StepsOn self.now pass.old pass.new }
        ensures last { IsLatest pass.new }
        ensures blocks { blocks_in pass.new ≡ true }
        ensures took { TakesSince O.object (plan_of self.now) Alone
            (Blocks (length (plan_of self.now))) (view_of pass.old) (view_of pass.new) }
        ensures holds { held_in pass.new ≡ Alone }
        ensures task { task_in pass.new ≡ task_in pass.old }
        ensures sleeps { SleepsBehind (length (plan_of self.now) + 1)
            (view_of pass.old).steps (view_of pass.new).steps
            (C.C.sleeps cpu.old) (C.C.sleeps cpu.new) }
    {
        self.wait_to_block(rt, pass, cpu);
        self.wait_to_drain(rt, pass, cpu);
    }

    /// Lets readers in again and wakes all tasks of the plan (`percpu_up_write`). The pass may hold
    /// alone, or nothing yet; it holds nothing afterwards.
    pub fn unblock<C: Crew>(&self, pass: &mut PercpuPass<O>, crew: &C)
        requires own { SitsAt self.now pass.old }
        requires blocks { blocks_in pass.old ≡ true }
        requires quiet { (hand_in pass.old).writes ≡ false }
        ensures on { StepsOn self.now pass.old pass.new }
        ensures last { IsLatest pass.new }
        ensures apart { blocks_in pass.new ≡ false }
        ensures out { held_in pass.new ≡ No }
        ensures kept { view_of pass.new ≡
            after 1 (view_of pass.old) (unheld (hand_in pass.old)) Idle }
        ensures task { task_in pass.new ≡ task_in pass.old }
    {
        let Some(task) = pass.pass.task() else {
            unreachable!()
        };
        steps::unblock(&self.site, &mut pass.pass, task);
        pass.seen = None;
        for woken in 0..self.site.tasks() {
            crew.wake(woken);
        }
    }
}
