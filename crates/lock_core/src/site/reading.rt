//! What a pass reads of the plan, the records and the log.
ghost use Rattle.std.specs.Prelude.{◌≡◌, ◌≢◌, ◌+◌, ◌*◌, ◌<◌, ◌≤◌, length, slice_get, Some};
ghost use Rattle.word_bits.specs.declared.rec.Rec.{Rec as Record};
ghost use Rattle.word_bits.specs.RecWord.{IsRec, rec_word};
ghost use Rattle.lock_core.specs.Plans.{calls_in, start};
ghost use Rattle.lock_core.specs.Layout.{record_place};
ghost use Rattle.lock_core.specs.Records.{row};
ghost use Rattle.lock_core.specs.Pasts.{FoundAt};
ghost use Rattle.lock_core.specs.Views.{ticked};
ghost use Rattle.lock_core.specs.SitePasses.{Shows, TellsKnown};
ghost use Rattle.lock_core.specs.SiteHandles.{plan_of, view_of, hand_in, past_of, SitsAt, StepsAt, IsOneOf, KeepsSeat, KeepsNest, SaysSame, UndoneIsZero};

use super::Site;
use super::plays::{CallWord, RecWord};
use crate::layout::ENTRIES_AT;
use crate::pass::Pass;
use crate::rule::SiteRule;
use word_bits::CallWords;

impl<R: SiteRule> Site<R> {
    /// How many tasks the plan has.
    pub fn tasks(&self) -> u32
        ensures { result ≡ length (plan_of self.now) }
    {
        (self.starts.len() - 1) as u32
    }

    /// How many calls stand before those of a task. Behind the last task it is how many there are.
    fn start(&self, task: usize) -> usize
        requires { task ≤ length (plan_of self.now) }
        ensures { result ≡ start (plan_of self.now) task }
    {
        self.starts[task]
    }

    /// How many calls a task has.
    pub fn calls(&self, task: u32) -> u32
        requires { task < length (plan_of self.now) }
        ensures { result ≡ length (row (plan_of self.now) task) }
    {
        (self.start(task as usize + 1) - self.start(task as usize)) as u32
    }

    /// The number of a call among the calls of all tasks.
    pub(crate) fn place(&self, task: u32, call: u32) -> usize
        requires task { task < length (plan_of self.now) }
        requires call { call < length (row (plan_of self.now) task) }
        ensures place { result ≡ start (plan_of self.now) task + call }
        ensures inside { result < calls_in (plan_of self.now) }
        ensures few { result < 131072 }
    {
        self.start(task as usize) + call as usize
    }

    /// The words of a call of the plan.
    pub fn call(&self, pass: &mut Pass<R>, task: u32, call: u32) -> CallWords
        requires own { SitsAt self.now pass.old }
        requires task { task < length (plan_of self.now) }
        requires call { call < length (row (plan_of self.now) task) }
        ensures on { StepsAt self.now pass.old pass.new }
        ensures nest { KeepsNest pass.old pass.new }
        ensures kept { view_of pass.new ≡ ticked (ticked (view_of pass.old)) }
        ensures words { slice_get (row (plan_of self.now) task) call ≡ Some result }
    {
        self.load_call(pass, task, call)
    }

    /// The word of a call's record, and 0 where the call has none.
    pub fn rec_word(&self, pass: &mut Pass<R>, task: u32, call: u32) -> u64
        requires own { SitsAt self.now pass.old }
        requires task { task < length (plan_of self.now) }
        requires call { call < length (row (plan_of self.now) task) }
        ensures on { StepsAt self.now pass.old pass.new }
        ensures nest { KeepsNest pass.old pass.new }
        ensures kept { view_of pass.new ≡ ticked (view_of pass.old) }
        ensures known { TellsKnown (hand_in pass.old) (record { task = task; call = call }) result }
        ensures made { result ≢ 0 → (r : Record) × IsRec r × (result ≡ rec_word r) }
        ensures there { FoundAt
            (record_place (plan_of self.now) task call) result (past_of pass.new) }
        ensures mine { UndoneIsZero pass.old task call result }
    {
        self.record(pass, task, call)
    }

    /// Loads the words of a call.
    pub(crate) fn load_call(&self, pass: &mut Pass<R>, task: u32, call: u32) -> CallWords
        requires own { IsOneOf self.now pass.old }
        requires plan { (hand_in pass.old).plan ≡ Some (plan_of self.now) }
        requires task { task < length (plan_of self.now) }
        requires call { call < length (row (plan_of self.now) task) }
        ensures own { KeepsSeat pass.old pass.new }
        ensures face { SaysSame pass.old pass.new }
        ensures kept { view_of pass.new ≡ ticked (ticked (view_of pass.old)) }
        ensures words { slice_get (row (plan_of self.now) task) call ≡ Some result }
    {
        let at = ENTRIES_AT + 2 * self.count + 2 * self.place(task, call);
        let a = self.find::<CallWord>(pass, at);
        let b = self.find::<CallWord>(pass, at + 1);
        CallWords { a, b }
    }

    /// Loads the word of a call's record.
    pub(crate) fn record(&self, pass: &mut Pass<R>, task: u32, call: u32) -> u64
        requires own { IsOneOf self.now pass.old }
        requires plan { (hand_in pass.old).plan ≡ Some (plan_of self.now) }
        requires task { task < length (plan_of self.now) }
        requires call { call < length (row (plan_of self.now) task) }
        ensures own { KeepsSeat pass.old pass.new }
        ensures face { SaysSame pass.old pass.new }
        ensures kept { view_of pass.new ≡ ticked (view_of pass.old) }
        ensures there { FoundAt
            (record_place (plan_of self.now) task call) result (past_of pass.new) }
        ensures shows { Shows (hand_in pass.old) (record { task = task; call = call }) result }
    {
        self.find::<RecWord>(pass, ENTRIES_AT + self.count + self.place(task, call))
    }
}
