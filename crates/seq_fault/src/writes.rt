//! Changing calls.
ghost use Rattle.std.specs.Prelude.{◌≡◌, ◌+◌, IsSome};
ghost use Rattle.lock_core.specs.Views.{Beside, OwesNoSignal};
ghost use Rattle.seq_fault.specs.SeqHandles.{plan_of, view_of, hand_in, task_in, held_in, done_in, IsLatest, SitsAt, StepsOn};
ghost use Rattle.seq_fault.specs.SeqWriting.{HasNextChange, Writes};
ghost use Rattle.seq_fault.specs.Types.{No};

use crate::site::{SeqPass, SeqSite};
use crate::writing::change;
use std::sync::Wait;
use word_bits::{Reply, ValueObject};

impl<O: ValueObject + Drop> SeqSite<O> {
    /// Does the next call of the pass's task, which changes the object: it enters, does the call on
    /// a copy, writes that back, and leaves.
    pub fn write<W: Wait>(&self, rt: &W, pass: &mut SeqPass<O>, call: u32) -> Reply
        requires own { SitsAt self.now pass.old }
        requires numbered { IsSome (task_in pass.old) }
        requires out { held_in pass.old ≡ No }
        requires call { call ≡ done_in pass.old }
        requires recorded { OwesNoSignal (hand_in pass.old) }
        requires next { HasNextChange O.object (plan_of self.now) (hand_in pass.old) }
        ensures on { StepsOn self.now pass.old pass.new }
        ensures last { IsLatest pass.new }
        ensures out { held_in pass.new ≡ No }
        ensures wrote { Writes O.object (plan_of self.now)
            (hand_in pass.old) result (hand_in pass.new) }
        ensures beside { Beside (view_of pass.old) (view_of pass.new) }
        ensures task { task_in pass.new ≡ task_in pass.old }
        ensures done { done_in pass.new ≡ done_in pass.old + 1 }
    {
        self.enter(rt, pass);
        let reply = change(&self.site, &mut pass.pass, call);
        self.leave(pass);
        reply
    }
}
