//! Sites with a count.
ghost use Rattle.std.specs.Prelude.{◌≡◌, ◌<◌, ◌≤◌, ◌+◌, ℕ, false, true, None, IsSome, IfOk, IfErr, [], ◌∷◌, length};
ghost use Rattle.word_bits.specs.LockWords.{counted};
ghost use Rattle.lock_core.specs.Holding.{downgraded, released};
ghost use Rattle.lock_core.specs.Kinds.{semaphore, wakes_alone, wakes_shared};
ghost use Rattle.lock_core.specs.Locking.{Downgrades, Misses, Releases, Takes};
ghost use Rattle.lock_core.specs.Records.{IsPlan};
ghost use Rattle.lock_core.specs.Views.{first, ticked, handed, split_off, merged, gave_up, BesideForgetting, HoldsNothing, OwesNoSignal};
ghost use Rattle.lock_core.specs.Pasts.{EachMoment, FoundAt, IsMarked, KeepsJoined, Ran, Tail};
ghost use Rattle.lock_core.specs.SiteStated.{IsNew, IsSiteMove};
ghost use Rattle.lock_core.specs.Linear.{IsLinearizable};
ghost use Rattle.rwsem_count.specs.Counts.{based};
ghost use Rattle.rwsem_count.specs.CountRuled.{IsCountSiteThen, IsPlain, count_at, new_bias, newest};
ghost use Rattle.rwsem_count.specs.CountStated.{kept_bias};
ghost use Rattle.rwsem_count.specs.CountTries.{FindsFree, FindsShut, IsTransit, LeftBy, MissesCount, MissesSince, TakesCount, TakesSince};
ghost use Rattle.rwsem_count.specs.CountWordSteps.{IsReadFree};
ghost use Rattle.rwsem_count.specs.Types.{No, Shared, Alone, Clear};

use crate::pass::CountPass;
use crate::rule::CountRule;
use crate::{steps, tries};
use lock_core::{Plan, Site};
use std::alloc::{AllocError, Global};
use std::sync::Wait;
use word_bits::Object;

mod calls;

/// A site whose lock is a count alone. Contracts see its plan (`plan_of`).
#[derive(Drop)]
pub struct CountSite<O: Object> {
    site: Site<CountRule<O>>,
}

impl<O: Object> CountSite<O> {
    ghost use Rattle.rwsem_count.specs.CountHandles.{plan_of, view_of, hand_in, past_of, joined_by, task_in, held_in, front_in, shown_of, transit_in, IsLatest, SitsAt, TakesNumber, StepsOn};

    /// A new site: nobody holds, the state is empty, no call is logged or recorded. The pass has no
    /// task number.
    pub fn open(alloc: Global, plan: Plan) -> Result<(CountSite<O>, CountPass<O>), AllocError>
        requires { IsPlan O.object plan }
        ensures own { IfOk result (λ t. SitsAt t.0 t.1) }
        ensures apart { IfOk result (λ t. transit_in t.1 ≡ false) }
        ensures plan { IfOk result (λ t. (plan_of t.0) ≡ plan) }
        ensures new { IfOk result (λ _. IsNew O.object O.WORDS plan (newest plan)) }
        ensures view { IfOk result (λ t. view_of t.1 ≡ first plan Clear) }
        ensures past { IfOk result (λ t. past_of t.1 ≡ newest plan ∷ []) }
    {
        let (site, pass) = Site::open(alloc, plan)?;
        let transit = false;
        Ok((CountSite { site }, CountPass { pass, transit }))
    }

    /// A pass without a task number, which has seen as many entries.
    pub fn split(&self, pass: &mut CountPass<O>) -> CountPass<O>
        requires own { SitsAt self.now pass.old }
        ensures on { StepsOn self.now pass.old pass.new }
        ensures transit { transit_in pass.new ≡ transit_in pass.old }
        ensures kept { view_of pass.new ≡ ticked (view_of pass.old) }
        ensures its_own { SitsAt self.now result }
        ensures apart { transit_in result ≡ false }
        ensures given { view_of result ≡ split_off Clear (view_of pass.old) }
        ensures past { past_of result ≡ past_of pass.old }
    {
        let pass = self.site.split(&mut pass.pass);
        let transit = false;
        CountPass { pass, transit }
    }

    /// Waits until nobody has the task's number, and takes it with the task's records. What the
    /// pass saw of the lock and of the spin word is forgotten, and it has seen as many entries as
    /// the task.
    pub fn begin<W: Wait>(&self, rt: &W, pass: &mut CountPass<O>, task: u32)
        requires own { SitsAt self.now pass.old }
        requires numberless { task_in pass.old ≡ None }
        requires there { task < length (plan_of self.now) }
        ensures on { StepsOn self.now pass.old pass.new }
        ensures transit { transit_in pass.new ≡ transit_in pass.old }
        ensures last { IsLatest pass.new }
        ensures became { TakesNumber O.object counted self.now task pass.old pass.new }
        ensures beside { BesideForgetting (view_of pass.old) (view_of pass.new) }
        ensures rises { (front_in pass.old) ≤ (front_in pass.new) }
    {
        self.site.begin(rt, &mut pass.pass, task);
    }

    /// Gives the pass's number back.
    pub fn end(&self, pass: &mut CountPass<O>)
        requires own { SitsAt self.now pass.old }
        requires numbered { IsSome (task_in pass.old) }
        requires rests { HoldsNothing (view_of pass.old) }
        requires apart { transit_in pass.old ≡ false }
        requires recorded { OwesNoSignal (hand_in pass.old) }
        ensures on { StepsOn self.now pass.old pass.new }
        ensures transit { transit_in pass.new ≡ transit_in pass.old }
        ensures last { IsLatest pass.new }
        ensures kept { view_of pass.new ≡ handed (view_of pass.old) (gave_up (hand_in pass.old)) }
    {
        self.site.end(&mut pass.pass);
    }

    /// Takes in another pass, which is spent: `into` then knows the records that `other` knew, and
    /// has seen as many entries as either. Once it has looked back as its next step (`recall_count`),
    /// its past goes back to all that `other` did.
    pub fn gather(&self, into: &mut CountPass<O>, other: CountPass<O>)
        requires own { SitsAt self.now into.old }
        requires others_own { SitsAt self.now other }
        requires rests { HoldsNothing (view_of into.old) }
        requires apart { transit_in into.old ≡ false }
        requires other_rests { HoldsNothing (view_of other) }
        requires numberless { task_in other ≡ None }
        ensures on { StepsOn self.now into.old into.new }
        ensures transit { transit_in into.new ≡ false }
        ensures kept { view_of into.new ≡ merged (view_of into.old) (view_of other) }
        ensures rises { front_in into.old ≤ front_in into.new }
        ensures others { front_in other ≤ front_in into.new }
        ensures joined { joined_by into.new ≡
            record { moments = past_of other } ∷ joined_by into.old }
    {
        let CountPass { pass, transit: _ } = other;
        self.site.gather(&mut into.pass, pass);
    }

    /// Takes the lock shared where the count lets a reader in. It tries again where others changed
    /// the count meanwhile. `Err` has a count that a step of this call saw, which lets no reader
    /// in.
    pub fn read_try<W: Wait>(&self, rt: &W, pass: &mut CountPass<O>) -> Result<(), u64>
        requires own { SitsAt self.now pass.old }
        requires numbered { IsSome (task_in pass.old) }
        requires out { held_in pass.old ≡ No }
        requires apart { transit_in pass.old ≡ false }
        ensures on { StepsOn self.now pass.old pass.new }
        ensures last { IsLatest pass.new }
        ensures apart { transit_in pass.new ≡ false }
        ensures took { IfOk result (λ _. TakesSince new_bias O.object (plan_of self.now) Shared
            (view_of pass.old) (view_of pass.new)) }
        ensures missed { IfErr result (λ word.
            MissesSince (view_of pass.old) word (view_of pass.new)) }
        ensures takes { IfOk result (λ _. Takes O.object (plan_of self.now) Shared
            (shown_of pass.old) (shown_of pass.new)) }
        ensures free { IfOk result (λ _. FindsFree count_at 0 (past_of pass.new)) }
        ensures misses { IfErr result (λ word. Misses semaphore true count_at word
            (shown_of pass.old) (shown_of pass.new)) }
        ensures shut { IfErr result (λ word. IsReadFree word → ⊥) }
        ensures found { IfErr result (λ word. FoundAt count_at word (past_of pass.new)) }
    {
        tries::read_try(&self.site, rt, &mut pass.pass)
    }

    /// Takes the lock alone where it is free, by one compare-exchange of the count from 0. `Err`
    /// has the word, not 0, that the exchange saw.
    pub fn write_try(&self, pass: &mut CountPass<O>) -> Result<(), u64>
        requires own { SitsAt self.now pass.old }
        requires numbered { IsSome (task_in pass.old) }
        requires out { held_in pass.old ≡ No }
        requires apart { transit_in pass.old ≡ false }
        ensures on { StepsOn self.now pass.old pass.new }
        ensures last { IsLatest pass.new }
        ensures apart { transit_in pass.new ≡ false }
        ensures took { IfOk result (λ _. TakesCount new_bias O.object (plan_of self.now) Alone
            (view_of pass.old) (view_of pass.new)) }
        ensures missed { IfErr result (λ word.
            MissesCount (view_of pass.old) word (view_of pass.new)) }
        ensures takes { IfOk result (λ _. Takes O.object (plan_of self.now) Alone
            (shown_of pass.old) (shown_of pass.new)) }
        ensures misses { IfErr result (λ word. Misses semaphore false count_at word
            (shown_of pass.old) (shown_of pass.new)) }
        ensures free { IfOk result (λ _. FoundAt count_at 0 (past_of pass.new)) }
        ensures found { IfErr result (λ word. FoundAt count_at word (past_of pass.new)) }
    {
        steps::write_try(&self.site, &mut pass.pass)
    }

    /// Adds a reader's bias to the count, in one step. `Ok` where the count then lets a reader in:
    /// the pass holds shared. `Err` has the new count, which doesn't; the bias stays in it, and the
    /// pass is in transit.
    pub fn read_add(&self, pass: &mut CountPass<O>) -> Result<(), u64>
        requires own { SitsAt self.now pass.old }
        requires numbered { IsSome (task_in pass.old) }
        requires out { held_in pass.old ≡ No }
        requires apart { transit_in pass.old ≡ false }
        ensures on { StepsOn self.now pass.old pass.new }
        ensures last { IsLatest pass.new }
        ensures took { IfOk result (λ _. TakesCount new_bias O.object (plan_of self.now) Shared
            (view_of pass.old) (view_of pass.new)) }
        ensures takes { IfOk result (λ _. Takes O.object (plan_of self.now) Shared
            (shown_of pass.old) (shown_of pass.new)) }
        ensures free { IfOk result (λ _. FindsFree count_at 256 (past_of pass.new)) }
        ensures transit { IfErr result (λ count.
            IsTransit new_bias (view_of pass.old) count (view_of pass.new)) }
        ensures waits { IfErr result (λ _. transit_in pass.new ≡ true) }
        ensures holds { IfOk result (λ _. transit_in pass.new ≡ false) }
        ensures misses { IfErr result (λ count. (word : ℕ) × (count ≡ word + 256)
            × Misses semaphore true count_at word (shown_of pass.old) (shown_of pass.new)) }
        ensures shut { IfErr result (λ count. FindsShut count_at count (past_of pass.new)) }
    {
        let added = steps::read_add(&self.site, &mut pass.pass);
        pass.transit = added.is_err();
        added
    }

    /// Takes back the bias of a pass in transit, in one step. Answers the new count.
    pub fn read_back(&self, pass: &mut CountPass<O>) -> u64
        requires own { SitsAt self.now pass.old }
        requires transit { transit_in pass.old ≡ true }
        ensures on { StepsOn self.now pass.old pass.new }
        ensures last { IsLatest pass.new }
        ensures apart { transit_in pass.new ≡ false }
        ensures kept { view_of pass.new ≡
            based new_bias (view_of pass.old) (hand_in pass.old) Clear }
        ensures left { LeftBy count_at IsPlain 256 0 result (past_of pass.new) }
    {
        let count = steps::read_back(&self.site, &mut pass.pass);
        pass.transit = false;
        count
    }

    /// Ends the pass's shared hold, in one step. Answers the new count.
    pub fn up_read_once(&self, pass: &mut CountPass<O>) -> u64
        requires own { SitsAt self.now pass.old }
        requires held { held_in pass.old ≡ Shared }
        ensures on { StepsOn self.now pass.old pass.new }
        ensures last { IsLatest pass.new }
        ensures apart { transit_in pass.new ≡ false }
        ensures kept { view_of pass.new ≡
            based new_bias (view_of pass.old) (released (hand_in pass.old) result) Clear }
        ensures releases { Releases (wakes_shared semaphore)
            (shown_of pass.old) (shown_of pass.new) }
        ensures left { LeftBy count_at IsPlain 256 0 result (past_of pass.new) }
    {
        steps::up_read(&self.site, &mut pass.pass)
    }

    /// Ends the pass's exclusive hold, in one step. Answers the new count.
    pub fn up_write_once(&self, pass: &mut CountPass<O>) -> u64
        requires own { SitsAt self.now pass.old }
        requires held { held_in pass.old ≡ Alone }
        requires quiet { (hand_in pass.old).writes ≡ false }
        ensures on { StepsOn self.now pass.old pass.new }
        ensures last { IsLatest pass.new }
        ensures apart { transit_in pass.new ≡ false }
        ensures kept { view_of pass.new ≡
            based new_bias (view_of pass.old) (released (hand_in pass.old) result) Clear }
        ensures releases { Releases (wakes_alone semaphore)
            (shown_of pass.old) (shown_of pass.new) }
        ensures left { LeftBy count_at IsPlain 1 0 result (past_of pass.new) }
    {
        steps::up_write(&self.site, &mut pass.pass)
    }

    /// Turns the pass's exclusive hold into a shared one, in one step. Answers the new count.
    pub fn downgrade_once(&self, pass: &mut CountPass<O>) -> u64
        requires own { SitsAt self.now pass.old }
        requires held { held_in pass.old ≡ Alone }
        requires quiet { (hand_in pass.old).writes ≡ false }
        ensures on { StepsOn self.now pass.old pass.new }
        ensures last { IsLatest pass.new }
        ensures apart { transit_in pass.new ≡ false }
        ensures kept { view_of pass.new ≡
            based new_bias (view_of pass.old) (downgraded (hand_in pass.old) result) Clear }
        ensures downgrades { Downgrades semaphore (shown_of pass.old) (shown_of pass.new) }
        ensures left { LeftBy count_at IsPlain 0 255 result (past_of pass.new) }
    {
        steps::downgrade(&self.site, &mut pass.pass)
    }

    /// A load, after which the pass knows that at each moment of the table so far, from the new
    /// table on, the facts of every site were so, and the count stated who held and who was in
    /// transit; and what each step did to the site's words and to what the passes count. Each call
    /// took effect at the step that stored its record.
    pub fn recall_count(&self, pass: &mut CountPass<O>)
        requires own { SitsAt self.now pass.old }
        ensures on { StepsOn self.now pass.old pass.new }
        ensures transit { transit_in pass.new ≡ transit_in pass.old }
        ensures kept { view_of pass.new ≡ ticked (view_of pass.old) }
        ensures last { IsLatest pass.new }
        ensures marked { IsMarked kept_bias (view_of pass.new) (past_of pass.new) }
        ensures begins { Tail (newest (plan_of self.now) ∷ []) (past_of pass.new) }
        ensures linear { IsLinearizable O.object O.WORDS (plan_of self.now) (past_of pass.new) }
        ensures always { EachMoment (IsCountSiteThen O.object O.WORDS (plan_of self.now))
            (past_of pass.new) }
        ensures moves { Ran kept_bias (newest (plan_of self.now))
            (IsSiteMove (plan_of self.now) count_at)
            (past_of pass.new) }
        ensures joined { KeepsJoined (joined_by pass.old) (past_of pass.new) }
    {
        self.site.recall(&mut pass.pass);
    }

    /// A load, after which the pass knows what each step of the table so far did to the site's
    /// words and to what the passes count: no entry of the log was lost, and no count fell.
    pub fn grown(&self, pass: &mut CountPass<O>)
        requires own { SitsAt self.now pass.old }
        ensures on { StepsOn self.now pass.old pass.new }
        ensures transit { transit_in pass.new ≡ transit_in pass.old }
        ensures kept { view_of pass.new ≡ ticked (view_of pass.old) }
        ensures last { IsLatest pass.new }
        ensures moves { Ran kept_bias (newest (plan_of self.now))
            (IsSiteMove (plan_of self.now) count_at)
            (past_of pass.new) }
    {
        self.site.grown(&mut pass.pass);
    }
}
