//! Sites with an owner word.
ghost use Rattle.std.specs.Prelude.{◌≡◌, ◌<◌, false, None, IsSome, Bool, IfOk, IfErr, ◌≤◌, [], ◌∷◌, length};
ghost use Rattle.word_bits.specs.LockWords.{owned};
ghost use Rattle.lock_core.specs.Kinds.{mutex, wakes_alone};
ghost use Rattle.lock_core.specs.Locking.{Misses, Releases, Takes};
ghost use Rattle.lock_core.specs.Records.{IsPlan};
ghost use Rattle.lock_core.specs.Views.{first, ticked, handed, split_off, merged, gave_up, BesideForgetting, HoldsNothing};
ghost use Rattle.lock_core.specs.Pasts.{EachMoment, FoundAt, KeepsJoined, Ran, Tail};
ghost use Rattle.lock_core.specs.SiteStated.{IsNew, IsSiteMove};
ghost use Rattle.lock_core.specs.Linear.{IsLinearizable};
ghost use Rattle.mutex_word.specs.Holders.{own_word, TakesOwner, MissesOwner, ReleasesOwner};
ghost use Rattle.mutex_word.specs.OwnerRuled.{IsOwnerSiteThen, newest, owner_at, unmarked, unturned};
ghost use Rattle.mutex_word.specs.Types.{No, Alone};

use crate::rule::OwnerRule;
use crate::site_steps;
use lock_core::{Pass, Plan, Site};
use std::alloc::{AllocError, Global};
use std::sync::Wait;
use word_bits::Object;

mod calls;

/// A site whose lock is an owner word alone. Contracts see its plan (`plan_of`).
#[derive(Drop)]
pub struct OwnerSite<O: Object> {
    site: Site<OwnerRule<O>>,
}

/// A pass of such a site.
#[derive(Drop)]
pub struct OwnerPass<O: Object> {
    pass: Pass<OwnerRule<O>>,
}

impl<O: Object> OwnerSite<O> {
    ghost use Rattle.mutex_word.specs.OwnerHandles.{plan_of, view_of, hand_in, past_of, joined_by, task_in, held_in, front_in, shown_of, IsLatest, SitsAt, TakesNumber, StepsOn};

    /// A new site: nobody holds, the state is empty, no call is logged or recorded. The pass has no
    /// task number.
    pub fn open(alloc: Global, plan: Plan) -> Result<(OwnerSite<O>, OwnerPass<O>), AllocError>
        requires { IsPlan O.object plan }
        ensures own { IfOk result (λ t. SitsAt t.0 t.1) }
        ensures plan { IfOk result (λ t. (plan_of t.0) ≡ plan) }
        ensures new { IfOk result (λ _. IsNew O.object O.WORDS plan (newest plan)) }
        ensures view { IfOk result (λ t. view_of t.1 ≡ first plan tt) }
        ensures past { IfOk result (λ t. past_of t.1 ≡ newest plan ∷ []) }
    {
        let (site, pass) = Site::open(alloc, plan)?;
        Ok((OwnerSite { site }, OwnerPass { pass }))
    }

    /// A pass without a task number, which has seen as many entries.
    pub fn split(&self, pass: &mut OwnerPass<O>) -> OwnerPass<O>
        requires own { SitsAt self.now pass.old }
        ensures on { StepsOn self.now pass.old pass.new }
        ensures kept { view_of pass.new ≡ ticked (view_of pass.old) }
        ensures its_own { SitsAt self.now result }
        ensures given { view_of result ≡ split_off tt (view_of pass.old) }
        ensures past { past_of result ≡ past_of pass.old }
    {
        let pass = self.site.split(&mut pass.pass);
        OwnerPass { pass }
    }

    /// Waits until nobody has the task's number, and takes it with the task's records. What the
    /// pass saw of the lock and of the spin word is forgotten, and it has seen as many entries as
    /// the task.
    pub fn begin<W: Wait>(&self, rt: &W, pass: &mut OwnerPass<O>, task: u32)
        requires own { SitsAt self.now pass.old }
        requires numberless { task_in pass.old ≡ None }
        requires there { task < length (plan_of self.now) }
        ensures on { StepsOn self.now pass.old pass.new }
        ensures last { IsLatest pass.new }
        ensures became { TakesNumber O.object owned self.now task pass.old pass.new }
        ensures beside { BesideForgetting (view_of pass.old) (view_of pass.new) }
        ensures rises { (front_in pass.old) ≤ (front_in pass.new) }
    {
        self.site.begin(rt, &mut pass.pass, task);
    }

    /// Gives the pass's number back.
    pub fn end(&self, pass: &mut OwnerPass<O>)
        requires own { SitsAt self.now pass.old }
        requires numbered { IsSome (task_in pass.old) }
        requires rests { HoldsNothing (view_of pass.old) }
        requires recorded { ((hand_in pass.old).sent ≡ None) × ((hand_in pass.old).consumed ≡ 0) }
        ensures on { StepsOn self.now pass.old pass.new }
        ensures last { IsLatest pass.new }
        ensures kept { view_of pass.new ≡ handed (view_of pass.old) (gave_up (hand_in pass.old)) }
    {
        self.site.end(&mut pass.pass);
    }

    /// Takes in another pass, which is spent: `into` then knows the records that `other` knew, and
    /// has seen as many entries as either. Once it has looked back as its next step (`recall_holders`),
    /// its past goes back to all that `other` did.
    pub fn gather(&self, into: &mut OwnerPass<O>, other: OwnerPass<O>)
        requires own { SitsAt self.now into.old }
        requires others_own { SitsAt self.now other }
        requires rests { HoldsNothing (view_of into.old) }
        requires other_rests { HoldsNothing (view_of other) }
        requires numberless { task_in other ≡ None }
        ensures on { StepsOn self.now into.old into.new }
        ensures kept { view_of into.new ≡ merged (view_of into.old) (view_of other) }
        ensures rises { front_in into.old ≤ front_in into.new }
        ensures others { front_in other ≤ front_in into.new }
        ensures joined { joined_by into.new ≡
            record { moments = past_of other } ∷ joined_by into.old }
    {
        let OwnerPass { pass } = other;
        self.site.gather(&mut into.pass, pass);
    }

    /// Takes the lock where it is free, by one compare-exchange of the owner word from 0. `Err` has
    /// the word, not 0, that the exchange saw.
    pub fn trylock_once(&self, pass: &mut OwnerPass<O>) -> Result<(), u64>
        requires own { SitsAt self.now pass.old }
        requires numbered { IsSome (task_in pass.old) }
        requires out { held_in pass.old ≡ No }
        ensures on { StepsOn self.now pass.old pass.new }
        ensures last { IsLatest pass.new }
        ensures took { IfOk result (λ _.
            TakesOwner unturned O.object (plan_of self.now) (view_of pass.old) (view_of pass.new)) }
        ensures missed { IfErr result (λ word.
            MissesOwner (view_of pass.old) word (view_of pass.new)) }
        ensures takes { IfOk result (λ _. Takes O.object (plan_of self.now) Alone
            (shown_of pass.old) (shown_of pass.new)) }
        ensures misses { IfErr result (λ word. (reads : Bool) → Misses mutex reads owner_at word
            (shown_of pass.old) (shown_of pass.new)) }
        ensures names { IfErr result (λ word. (reads : Bool) → owned reads word) }
        ensures free { IfOk result (λ _. FoundAt owner_at 0 (past_of pass.new)) }
        ensures found { IfErr result (λ word. FoundAt owner_at word (past_of pass.new)) }
    {
        site_steps::take_free(&self.site, &mut pass.pass)
    }

    /// Ends the pass's hold, by one compare-exchange of the owner word from the own code to 0. It
    /// always succeeds, since nothing sets a flag.
    pub fn unlock_once(&self, pass: &mut OwnerPass<O>)
        requires own { SitsAt self.now pass.old }
        requires held { held_in pass.old ≡ Alone }
        requires quiet { (hand_in pass.old).writes ≡ false }
        ensures on { StepsOn self.now pass.old pass.new }
        ensures last { IsLatest pass.new }
        ensures releases { Releases (wakes_alone mutex)
            (shown_of pass.old) (shown_of pass.new) }
        ensures released { ReleasesOwner unturned (view_of pass.old) 0 (view_of pass.new) }
        ensures found { FoundAt owner_at (own_word (task_in pass.old)) (past_of pass.new) }
    {
        let _ = site_steps::release_plain(&self.site, &mut pass.pass);
    }

    /// A load, after which the pass knows that at each moment of the table so far, from the new
    /// table on, the facts of every site were so, and the owner word stated who held; and what each
    /// step did to the site's words and to what the passes count. Each call took effect at the step
    /// that stored its record.
    pub fn recall_holders(&self, pass: &mut OwnerPass<O>)
        requires own { SitsAt self.now pass.old }
        ensures on { StepsOn self.now pass.old pass.new }
        ensures kept { view_of pass.new ≡ ticked (view_of pass.old) }
        ensures last { IsLatest pass.new }
        ensures begins { Tail (newest (plan_of self.now) ∷ []) (past_of pass.new) }
        ensures linear { IsLinearizable O.object O.WORDS (plan_of self.now) (past_of pass.new) }
        ensures always { EachMoment (IsOwnerSiteThen O.object O.WORDS (plan_of self.now))
            (past_of pass.new) }
        ensures moves { Ran unmarked (newest (plan_of self.now))
            (IsSiteMove (plan_of self.now) owner_at)
            (past_of pass.new) }
        ensures joined { KeepsJoined (joined_by pass.old) (past_of pass.new) }
    {
        self.site.recall(&mut pass.pass);
    }

    /// A load, after which the pass knows what each step of the table so far did to the site's
    /// words and to what the passes count: no entry of the log was lost, and no count fell.
    pub fn grown(&self, pass: &mut OwnerPass<O>)
        requires own { SitsAt self.now pass.old }
        ensures on { StepsOn self.now pass.old pass.new }
        ensures kept { view_of pass.new ≡ ticked (view_of pass.old) }
        ensures last { IsLatest pass.new }
        ensures moves { Ran unmarked (newest (plan_of self.now))
            (IsSiteMove (plan_of self.now) owner_at)
            (past_of pass.new) }
    {
        self.site.grown(&mut pass.pass);
    }
}
