//! Per-CPU reader-writer semaphores and their passes.
ghost use Rattle.std.specs.Prelude.{◌≡◌, ◌<◌, ◌≤◌, false, None, IsSome, IfOk, [], ◌∷◌, length};
ghost use Rattle.lock_core.specs.Records.{IsPlan};
ghost use Rattle.lock_core.specs.Views.{first, ticked, handed, split_off, merged, gave_up, BesideForgetting, HoldsNothing, OwesNoSignal};
ghost use Rattle.lock_core.specs.Pasts.{EachMoment, IsMarked, KeepsJoined, Paced, Tail};
ghost use Rattle.lock_core.specs.SiteStated.{IsNew};
ghost use Rattle.lock_core.specs.Linear.{IsLinearizable};
ghost use Rattle.percpu_rwsem.specs.PercpuStated.{IsPercpuSiteThen, IsPercpuStep};
ghost use Rattle.percpu_rwsem.specs.PercpuRuled.{kept_phase, never, newest};
ghost use Rattle.percpu_rwsem.specs.Types.{Idle};

use crate::pass::PercpuPass;
use crate::rule::PercpuRule;
use lock_core::{Plan, Site};
use std::alloc::{AllocError, Global};
use std::sync::Wait;
use word_bits::Object;

mod calls;

/// A semaphore whose readers count in words of their own tasks. Contracts see its plan (`plan_of`).
#[derive(Drop)]
pub struct PercpuRwSem<O: Object> {
    pub(crate) site: Site<PercpuRule<O>>,
}

impl<O: Object> PercpuRwSem<O> {
    ghost use Rattle.percpu_rwsem.specs.PercpuHandles.{plan_of, view_of, hand_in, past_of, joined_by, task_in, front_in, seen_in, blocks_in, IsLatest, SitsAt, TakesNumber, StepsOn};

    /// A new semaphore: nobody holds, the state is empty, no call is logged or recorded. The pass
    /// has no task number.
    pub fn open(alloc: Global, plan: Plan) -> Result<(PercpuRwSem<O>, PercpuPass<O>), AllocError>
        requires { IsPlan O.object plan }
        ensures own { IfOk result (λ t. SitsAt t.0 t.1) }
        ensures apart { IfOk result (λ t. seen_in t.1 ≡ None) }
        ensures plan { IfOk result (λ t. (plan_of t.0) ≡ plan) }
        ensures new { IfOk result (λ _. IsNew O.object O.WORDS plan (newest plan)) }
        ensures view { IfOk result (λ t. view_of t.1 ≡ first plan Idle) }
        ensures past { IfOk result (λ t. past_of t.1 ≡ newest plan ∷ []) }
    {
        let (site, pass) = Site::open(alloc, plan)?;
        let seen = None;
        Ok((PercpuRwSem { site }, PercpuPass { pass, seen }))
    }

    /// A pass without a task number, which has seen as many entries.
    pub fn split(&self, pass: &mut PercpuPass<O>) -> PercpuPass<O>
        requires own { SitsAt self.now pass.old }
        ensures on { StepsOn self.now pass.old pass.new }
        ensures seen { seen_in pass.new ≡ seen_in pass.old }
        ensures kept { view_of pass.new ≡ ticked (view_of pass.old) }
        ensures its_own { SitsAt self.now result }
        ensures apart { seen_in result ≡ None }
        ensures given { view_of result ≡ split_off Idle (view_of pass.old) }
        ensures past { past_of result ≡ past_of pass.old }
    {
        let pass = self.site.split(&mut pass.pass);
        let seen = None;
        PercpuPass { pass, seen }
    }

    /// Waits until nobody has the task's number, and takes it with the task's records. The pass has
    /// seen as many entries as the task.
    pub fn begin<W: Wait>(&self, rt: &W, pass: &mut PercpuPass<O>, task: u32)
        requires own { SitsAt self.now pass.old }
        requires numberless { task_in pass.old ≡ None }
        requires there { task < length (plan_of self.now) }
        ensures on { StepsOn self.now pass.old pass.new }
        ensures seen { seen_in pass.new ≡ seen_in pass.old }
        ensures last { IsLatest pass.new }
        ensures became { TakesNumber O.object never self.now task pass.old pass.new }
        ensures beside { BesideForgetting (view_of pass.old) (view_of pass.new) }
        ensures rises { (front_in pass.old) ≤ (front_in pass.new) }
    {
        self.site.begin(rt, &mut pass.pass, task);
    }

    /// Gives the pass's number back.
    pub fn end(&self, pass: &mut PercpuPass<O>)
        requires own { SitsAt self.now pass.old }
        requires numbered { IsSome (task_in pass.old) }
        requires rests { HoldsNothing (view_of pass.old) }
        requires apart { blocks_in pass.old ≡ false }
        requires recorded { OwesNoSignal (hand_in pass.old) }
        ensures on { StepsOn self.now pass.old pass.new }
        ensures seen { seen_in pass.new ≡ seen_in pass.old }
        ensures last { IsLatest pass.new }
        ensures kept { view_of pass.new ≡ handed (view_of pass.old) (gave_up (hand_in pass.old)) }
    {
        self.site.end(&mut pass.pass);
    }

    /// Takes in another pass, which is spent: `into` then knows the records that `other` knew, and
    /// has seen as many entries as either.
    pub fn gather(&self, into: &mut PercpuPass<O>, other: PercpuPass<O>)
        requires own { SitsAt self.now into.old }
        requires others_own { SitsAt self.now other }
        requires rests { HoldsNothing (view_of into.old) }
        requires apart { blocks_in into.old ≡ false }
        requires other_rests { HoldsNothing (view_of other) }
        requires other_apart { blocks_in other ≡ false }
        requires numberless { task_in other ≡ None }
        ensures on { StepsOn self.now into.old into.new }
        ensures seen { seen_in into.new ≡ seen_in into.old }
        ensures kept { view_of into.new ≡ merged (view_of into.old) (view_of other) }
        ensures rises { front_in into.old ≤ front_in into.new }
        ensures others { front_in other ≤ front_in into.new }
        ensures joined { joined_by into.new ≡
            record { moments = past_of other } ∷ joined_by into.old }
    {
        let PercpuPass { pass, seen: _ } = other;
        self.site.gather(&mut into.pass, pass);
    }

    /// Looks back at the table's whole past, by a load that changes nothing. At each moment, from
    /// the new table on, the facts of every site held, each count said whether its task was inside,
    /// and the block word said who blocked. Each step left its pass's phase and these words, or
    /// led it to a next phase and did to the words what goes with that. Each call took effect at the
    /// step that stored its record.
    pub fn recall(&self, pass: &mut PercpuPass<O>)
        requires own { SitsAt self.now pass.old }
        ensures on { StepsOn self.now pass.old pass.new }
        ensures seen { seen_in pass.new ≡ seen_in pass.old }
        ensures kept { view_of pass.new ≡ ticked (view_of pass.old) }
        ensures last { IsLatest pass.new }
        ensures marked { IsMarked kept_phase (view_of pass.new) (past_of pass.new) }
        ensures begins { Tail (newest (plan_of self.now) ∷ []) (past_of pass.new) }
        ensures linear { IsLinearizable O.object O.WORDS (plan_of self.now) (past_of pass.new) }
        ensures always { EachMoment (IsPercpuSiteThen O.object O.WORDS (plan_of self.now))
            (past_of pass.new) }
        ensures moves { Paced (IsPercpuStep (plan_of self.now)) (past_of pass.new) }
        ensures joined { KeepsJoined (joined_by pass.old) (past_of pass.new) }
    {
        self.site.recall(&mut pass.pass);
    }
}
