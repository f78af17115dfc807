//! Faults without the lock.
ghost use Rattle.std.specs.Prelude.{◌≡◌, ◌+◌, ◌≤◌, IsSome, IfOk, IfErr};
ghost use Rattle.lock_core.specs.Pasts.{FoundAt};
ghost use Rattle.lock_core.specs.Views.{OwesNoSignal, ticked};
ghost use Rattle.seq_fault.specs.SeqHandles.{plan_of, view_of, hand_in, past_of, task_in, held_in, done_in, front_in, FindsAtStep, IsLatest, ReadsAtOneWord, SaysSame, SitsAt, StepsOn};
ghost use Rattle.seq_fault.specs.SeqRuled.{V, seq_at};
ghost use Rattle.seq_fault.specs.SeqSteps.{AtOneWord, Faults, HasNextFault, IsRace, OnlySteps};
ghost use Rattle.seq_fault.specs.Types.{No};

use crate::reading::{next_fault, read_optimistically, validate};
use crate::site::{SeqPass, SeqSite};
use crate::steps::Raced;
use cpu_task::Pauses;
use std::sync::Wait;
use vma_map::Areas;
use word_bits::Reply;

/// An address space with a sequence word.
pub type SeqSpace = SeqSite<Areas>;

/// A pass of such a space.
pub type SpacePass = SeqPass<Areas>;

impl SeqSite<Areas> {
    /// Does the next call of the pass's task, a fault, without the lock: at most 13 loads, beside
    /// the two of the call's own words. `Err` has the words that the first and the last load of the
    /// sequence word saw, and records nothing.
    pub fn fault(&self, pass: &mut SeqPass<Areas>, call: u32) -> Result<Reply, Raced>
        requires own { SitsAt self.now pass.old }
        requires numbered { IsSome (task_in pass.old) }
        requires out { held_in pass.old ≡ No }
        requires call { call ≡ done_in pass.old }
        requires recorded { OwesNoSignal (hand_in pass.old) }
        requires next { HasNextFault (plan_of self.now) (hand_in pass.old) }
        ensures on { StepsOn self.now pass.old pass.new }
        ensures last { IsLatest pass.new }
        ensures ok { IfOk result (λ reply. Faults (plan_of self.now)
            (ticked (ticked (view_of pass.old))) reply (view_of pass.new)) }
        ensures read { IfOk result (λ _. ReadsAtOneWord 2 pass.old pass.new) }
        ensures raced { IfErr result (λ why. IsRace why.before why.after) }
        ensures first { IfErr result (λ why. FindsAtStep 3 seq_at why.before pass.old pass.new) }
        ensures second { IfErr result (λ why. FoundAt seq_at why.after (past_of pass.new)) }
        ensures kept { IfErr result (λ _. OnlySteps (view_of pass.old) (view_of pass.new)) }
        ensures face { IfErr result (λ _. SaysSame pass.old pass.new) }
        ensures few { IfErr result (λ _.
            (view_of pass.new).steps ≤ (view_of pass.old).steps + 15) }
    {
        let (page, access) = next_fault(&self.site, &mut pass.pass, call);
        let read = match read_optimistically(&self.site, &mut pass.pass, page, access) {
            Ok(read) => read,
            Err(raced) => return Err(raced),
        };
        validate(&self.site, &mut pass.pass, call, read)
    }

    /// Does the next call of the pass's task, a fault, as often as a writer comes between its loads.
    pub fn fault_wait<W: Wait>(&self, rt: &W, pass: &mut SeqPass<Areas>, call: u32) -> Reply
        requires own { SitsAt self.now pass.old }
        requires numbered { IsSome (task_in pass.old) }
        requires out { held_in pass.old ≡ No }
        requires call { call ≡ done_in pass.old }
        requires recorded { OwesNoSignal (hand_in pass.old) }
        requires next { HasNextFault (plan_of self.now) (hand_in pass.old) }
        ensures on { StepsOn self.now pass.old pass.new }
        ensures last { IsLatest pass.new }
        ensures ok { (v : V) × OnlySteps (view_of pass.old) v
            × Faults (plan_of self.now) (ticked (ticked v)) result (view_of pass.new) }
        ensures read { (v : V) × OnlySteps (view_of pass.old) v × AtOneWord 2 (front_in pass.new)
            v (view_of pass.new) (past_of pass.old) (past_of pass.new) }
    {
        let pauses = Pauses::new();
        for _ in rt.forever() {
            if let Ok(reply) = self.fault(pass, call) {
                return reply;
            }
            pauses.pause();
        }
        unreachable!()
    }
}
