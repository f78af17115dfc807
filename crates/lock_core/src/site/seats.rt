//! How a pass takes a task's number and gives it back.
ghost use Rattle.std.specs.Prelude.{◌≡◌, ◌+◌, ◌<◌, ◌≤◌, ℕ, length, None, Some, IsSome};
ghost use Rattle.word_bits.specs.declared.rec.Rec.{Rec as Record};
ghost use Rattle.lock_core.specs.Records.{row};
ghost use Rattle.lock_core.specs.Views.{handed, gave_up, Beside, BesideForgetting, HoldsNothing, Knows, OwesNoSignal};
ghost use Rattle.lock_core.specs.SitePasses.{HasSeenAfter, HasSeenAfterCall};
ghost use Rattle.lock_core.specs.SiteHandles.{plan_of, view_of, hand_in, task_in, front_in, SitsAt, StepsAt, IsOneOf, KeepsSeat, KeepsNest, SaysSame, IsLatest, TakesNumber};

use super::Site;
use crate::layout::LINES_AT;
use crate::pass::{Face, Pass};
use crate::rule::SiteRule;
use cpu_task::Pauses;
use std::marker::Brand;
use std::sync::Wait;
use word_bits::{Rec, is_logged};

impl<R: SiteRule> Site<R> {
    /// Waits until nobody has the task's number, and takes it with the task's records. What the
    /// pass saw of the lock's word and of the spin word is forgotten, and it has seen as many
    /// entries as the task.
    pub fn begin<W: Wait>(&self, rt: &W, pass: &mut Pass<R>, task: u32)
        requires own { SitsAt self.now pass.old }
        requires numberless { task_in pass.old ≡ None }
        requires there { task < length (plan_of self.now) }
        ensures on { StepsAt self.now pass.old pass.new }
        ensures became { TakesNumber R.O.object R.unavailable self.now task pass.old pass.new }
        ensures nest { KeepsNest pass.old pass.new }
        ensures beside { BesideForgetting (view_of pass.old) (view_of pass.new) }
        ensures rises { (front_in pass.old) ≤ (front_in pass.new) }
    {
        self.take_number(rt, pass, task);
        let done = self.recorded(pass, task);
        let seen = self.task_seen(pass, task, done);
        pass.face = Face {
            task: Some(task),
            held: pass.face.held,
            done,
            front: pass.face.front.max(seen),
        };
    }

    fn take_number<W: Wait>(&self, rt: &W, pass: &mut Pass<R>, task: u32)
        requires own { IsOneOf self.now pass.old }
        requires numberless { (hand_in pass.old).task ≡ None }
        requires there { task < length (plan_of self.now) }
        ensures own { KeepsSeat pass.old pass.new }
        ensures face { SaysSame pass.old pass.new }
        ensures became { TakesNumber R.O.object R.unavailable self.now task pass.old pass.new }
        ensures beside { BesideForgetting (view_of pass.old) (view_of pass.new) }
    {
        let pauses = Pauses::new();
        for _ in rt.forever() {
            // Of two passes that want the number, one finds the other's 1.
            if self.take::<Brand>(pass, task) {
                return;
            }
            pauses.pause();
        }
        unreachable!()
    }

    /// How many of its task's calls are recorded: the first of so many, and no other.
    fn recorded(&self, pass: &mut Pass<R>, task: u32) -> u32
        requires own { IsOneOf self.now pass.old }
        requires latest { IsLatest pass.old }
        requires plan { (hand_in pass.old).plan ≡ Some (plan_of self.now) }
        requires there { task < length (plan_of self.now) }
        requires mine { (hand_in pass.old).task ≡ Some task }
        requires short { (hand_in pass.old).done ≤ length (row (plan_of self.now) task) }
        requires known { (c : ℕ) → c < (hand_in pass.old).done →
            (r : Record) × Knows (hand_in pass.old) (record { task = task; call = c }) r }
        ensures own { KeepsSeat pass.old pass.new }
        ensures face { SaysSame pass.old pass.new }
        ensures kept { hand_in pass.new ≡ hand_in pass.old }
        ensures count { result ≡ (hand_in pass.old).done }
        ensures beside { Beside (view_of pass.old) (view_of pass.new) }
    {
        // Nobody else records for the task while its number is taken, so the border between its
        // calls with and without a record stays where it is during the search.
        let mut low = 0;
        let mut high = self.calls(task);
        while low < high {
            let middle = low + (high - low) / 2;
            if self.record(pass, task, middle) == 0 {
                high = middle;
            } else {
                low = middle + 1;
            }
        }
        low
    }

    /// How many entries a task has seen whose first calls have these records.
    fn task_seen(&self, pass: &mut Pass<R>, task: u32, done: u32) -> u32
        requires own { IsOneOf self.now pass.old }
        requires latest { IsLatest pass.old }
        requires plan { (hand_in pass.old).plan ≡ Some (plan_of self.now) }
        requires there { task < length (plan_of self.now) }
        requires short { done ≤ length (row (plan_of self.now) task) }
        ensures own { KeepsSeat pass.old pass.new }
        ensures face { SaysSame pass.old pass.new }
        ensures kept { hand_in pass.new ≡ hand_in pass.old }
        ensures seen { HasSeenAfter R.O.object R.unavailable (plan_of self.now)
            (hand_in pass.old) task done result }
        ensures beside { Beside (view_of pass.old) (view_of pass.new) }
    {
        if done == 0 {
            return 0;
        }
        self.seen(pass, task, done - 1)
    }

    /// How many entries a task had seen after a call.
    fn seen(&self, pass: &mut Pass<R>, task: u32, call: u32) -> u32
        requires own { IsOneOf self.now pass.old }
        requires plan { (hand_in pass.old).plan ≡ Some (plan_of self.now) }
        requires there { task < length (plan_of self.now) }
        requires call { call < length (row (plan_of self.now) task) }
        ensures own { KeepsSeat pass.old pass.new }
        ensures face { SaysSame pass.old pass.new }
        ensures kept { hand_in pass.new ≡ hand_in pass.old }
        ensures seen { HasSeenAfterCall R.O.object (plan_of self.now)
            (hand_in pass.old) task call result }
        ensures beside { Beside (view_of pass.old) (view_of pass.new) }
    {
        let word = self.record(pass, task, call);
        let words = self.load_call(pass, task, call);
        match Rec::unpack(word) {
            Some(rec) => rec.k + u32::from(is_logged::<R::O>(words, rec.reply)),
            None => 0,
        }
    }

    /// Gives the pass's number back.
    pub fn end(&self, pass: &mut Pass<R>)
        requires own { SitsAt self.now pass.old }
        requires numbered { IsSome (task_in pass.old) }
        requires rests { HoldsNothing (view_of pass.old) × R.rests (view_of pass.old) }
        requires recorded { OwesNoSignal (hand_in pass.old) }
        ensures on { StepsAt self.now pass.old pass.new }
        ensures nest { KeepsNest pass.old pass.new }
        ensures kept { view_of pass.new ≡ handed (view_of pass.old) (gave_up (hand_in pass.old)) }
    {
        if let Some(task) = pass.face.task {
            self.put::<Brand>(pass, LINES_AT + 8 * task as usize, 0);
            pass.face.task = None;
        }
    }
}
