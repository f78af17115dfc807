//! Sites with a sequence word.
ghost use Rattle.std.specs.Prelude.{◌≡◌, ◌<◌, ◌≤◌, ℕ, false, true, None, IsSome, IfOk, [], ◌∷◌, length};
ghost use Rattle.lock_core.specs.Holding.{released};
ghost use Rattle.lock_core.specs.Records.{IsPlan};
ghost use Rattle.lock_core.specs.Views.{first, ticked, handed, split_off, merged, gave_up, BesideForgetting, HoldsNothing, OwesNoSignal};
ghost use Rattle.lock_core.specs.Pasts.{BeganWith, EachMoment, KeepsJoined, Paced};
ghost use Rattle.lock_core.specs.SiteStated.{IsNew};
ghost use Rattle.lock_core.specs.Locked.{IsSiteStepWhere};
ghost use Rattle.seq_fault.specs.SeqRuled.{never, newest, seq_at};
ghost use Rattle.seq_fault.specs.SeqStated.{CountsEnters, IsSeqSiteThen, StaysAtOneWord};
ghost use Rattle.seq_fault.specs.SeqSteps.{EntersSince};
ghost use Rattle.seq_fault.specs.Types.{No, Alone, Off};

use crate::rule::SeqRule;
use crate::steps;
use cpu_task::Pauses;
use lock_core::{Pass, Plan, Site};
use std::alloc::{AllocError, Global};
use std::sync::Wait;
use word_bits::Object;

mod calls;

/// A site whose lock is a sequence word. Contracts see its plan (`plan_of`).
#[derive(Drop)]
pub struct SeqSite<O: Object> {
    pub(crate) site: Site<SeqRule<O>>,
}

/// A pass of such a site. Contracts see what it knows (`view_of`), the moments of the table up to
/// its last step (`past_of`), and what it says of itself (`task_in`, `held_in`, `done_in`,
/// `front_in`).
#[derive(Drop)]
pub struct SeqPass<O: Object> {
    pub(crate) pass: Pass<SeqRule<O>>,
}

impl<O: Object> SeqSite<O> {
    ghost use Rattle.seq_fault.specs.SeqHandles.{plan_of, view_of, hand_in, past_of, joined_by, task_in, held_in, front_in, IsLatest, SaysSame, SitsAt, TakesNumber, StepsOn};

    /// A new site: nobody holds, the state is empty, no call is logged or recorded.
    pub fn open(alloc: Global, plan: Plan) -> Result<(SeqSite<O>, SeqPass<O>), AllocError>
        requires { IsPlan O.object plan }
        ensures own { IfOk result (λ t. SitsAt t.0 t.1) }
        ensures plan { IfOk result (λ t. (plan_of t.0) ≡ plan) }
        ensures new { IfOk result (λ _. IsNew O.object O.WORDS plan (newest plan)) }
        ensures view { IfOk result (λ t. view_of t.1 ≡ first plan Off) }
        ensures past { IfOk result (λ t. past_of t.1 ≡ newest plan ∷ []) }
    {
        let (site, pass) = Site::open(alloc, plan)?;
        Ok((SeqSite { site }, SeqPass { pass }))
    }

    /// A pass without a task number, which has seen as many entries.
    pub fn split(&self, pass: &mut SeqPass<O>) -> SeqPass<O>
        requires own { SitsAt self.now pass.old }
        ensures on { StepsOn self.now pass.old pass.new }
        ensures kept { view_of pass.new ≡ ticked (view_of pass.old) }
        ensures its_own { SitsAt self.now result }
        ensures given { view_of result ≡ split_off Off (view_of pass.old) }
        ensures past { past_of result ≡ past_of pass.old }
    {
        let pass = self.site.split(&mut pass.pass);
        SeqPass { pass }
    }

    /// Waits until nobody has the task's number, and takes it with the task's records.
    pub fn begin<W: Wait>(&self, rt: &W, pass: &mut SeqPass<O>, task: u32)
        requires own { SitsAt self.now pass.old }
        requires numberless { task_in pass.old ≡ None }
        requires there { task < length (plan_of self.now) }
        ensures on { StepsOn self.now pass.old pass.new }
        ensures last { IsLatest pass.new }
        ensures became { TakesNumber O.object never self.now task pass.old pass.new }
        ensures beside { BesideForgetting (view_of pass.old) (view_of pass.new) }
        ensures rises { (front_in pass.old) ≤ (front_in pass.new) }
    {
        self.site.begin(rt, &mut pass.pass, task);
    }

    /// Gives the pass's number back.
    pub fn end(&self, pass: &mut SeqPass<O>)
        requires own { SitsAt self.now pass.old }
        requires numbered { IsSome (task_in pass.old) }
        requires rests { HoldsNothing (view_of pass.old) }
        requires recorded { OwesNoSignal (hand_in pass.old) }
        ensures on { StepsOn self.now pass.old pass.new }
        ensures last { IsLatest pass.new }
        ensures kept { view_of pass.new ≡ handed (view_of pass.old) (gave_up (hand_in pass.old)) }
    {
        self.site.end(&mut pass.pass);
    }

    /// Takes in another pass, which is spent: `into` then knows the records that `other` knew, and
    /// has seen as many entries as either.
    pub fn gather(&self, into: &mut SeqPass<O>, other: SeqPass<O>)
        requires own { SitsAt self.now into.old }
        requires others_own { SitsAt self.now other }
        requires rests { HoldsNothing (view_of into.old) }
        requires other_rests { HoldsNothing (view_of other) }
        requires numberless { task_in other ≡ None }
        ensures on { StepsOn self.now into.old into.new }
        ensures kept { view_of into.new ≡ merged (view_of into.old) (view_of other) }
        ensures rises { front_in into.old ≤ front_in into.new }
        ensures others { front_in other ≤ front_in into.new }
        ensures joined { joined_by into.new ≡
            record { moments = past_of other } ∷ joined_by into.old }
    {
        let SeqPass { pass } = other;
        self.site.gather(&mut into.pass, pass);
    }

    /// Enters where the word is an even one, but for the greatest.
    fn enter_once(&self, pass: &mut SeqPass<O>) -> bool
        requires own { SitsAt self.now pass.old }
        requires numbered { IsSome (task_in pass.old) }
        requires out { held_in pass.old ≡ No }
        ensures on { StepsOn self.now pass.old pass.new }
        ensures last { IsLatest pass.new }
        ensures took { result ≡ true → EntersSince O.object (plan_of self.now)
            (view_of pass.old) (view_of pass.new) }
        ensures holds { result ≡ true → held_in pass.new ≡ Alone }
        ensures missed { result ≡ false → (s : ℕ) × ((view_of pass.old).steps ≤ s)
            × (view_of pass.new ≡ record (view_of pass.old) { steps = s }) }
        ensures face { result ≡ false → SaysSame pass.old pass.new }
    {
        let word = steps::look(&self.site, &mut pass.pass);
        if word % 2 == 0 && word < u64::MAX - 1 {
            return steps::enter(&self.site, &mut pass.pass, word);
        }
        false
    }

    /// Waits for an even word, which isn't the greatest one, and exchanges it for the next odd one.
    /// The pass holds alone.
    pub fn enter<W: Wait>(&self, rt: &W, pass: &mut SeqPass<O>)
        requires own { SitsAt self.now pass.old }
        requires numbered { IsSome (task_in pass.old) }
        requires out { held_in pass.old ≡ No }
        ensures on { StepsOn self.now pass.old pass.new }
        ensures last { IsLatest pass.new }
        ensures took { EntersSince O.object (plan_of self.now)
            (view_of pass.old) (view_of pass.new) }
        ensures holds { held_in pass.new ≡ Alone }
    {
        let pauses = Pauses::new();
        for _ in rt.forever() {
            if self.enter_once(pass) {
                return;
            }
            pauses.pause();
        }
        unreachable!()
    }

    /// Ends the pass's hold: the word becomes even.
    pub fn leave(&self, pass: &mut SeqPass<O>)
        requires own { SitsAt self.now pass.old }
        requires held { held_in pass.old ≡ Alone }
        requires quiet { (hand_in pass.old).writes ≡ false }
        ensures on { StepsOn self.now pass.old pass.new }
        ensures last { IsLatest pass.new }
        ensures kept { view_of pass.new ≡
            handed (view_of pass.old) (released (hand_in pass.old) 0) }
        ensures out { held_in pass.new ≡ No }
    {
        steps::leave(&self.site, &mut pass.pass);
    }

    /// A load, after which the pass knows that at each moment of the table so far, from the new
    /// table on, the facts of every site were so, and the word was odd exactly where a pass held;
    /// how often a pass had entered by then; that the object stayed between two moments of one even
    /// word; and what each step did to the site's words.
    pub fn recall(&self, pass: &mut SeqPass<O>)
        requires own { SitsAt self.now pass.old }
        ensures on { StepsOn self.now pass.old pass.new }
        ensures kept { view_of pass.new ≡ ticked (view_of pass.old) }
        ensures last { IsLatest pass.new }
        ensures begins { BeganWith (newest (plan_of self.now)) (past_of pass.new) }
        ensures always { EachMoment (IsSeqSiteThen O.object O.WORDS (plan_of self.now))
            (past_of pass.new) }
        ensures entered { CountsEnters (past_of pass.new) }
        ensures stays { StaysAtOneWord (plan_of self.now) (past_of pass.new) }
        ensures moves { Paced (IsSiteStepWhere true (plan_of self.now) seq_at) (past_of pass.new) }
        ensures joined { KeepsJoined (joined_by pass.old) (past_of pass.new) }
    {
        self.site.recall(&mut pass.pass);
    }
}
