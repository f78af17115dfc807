//! Semaphores, their passes, and their calls.
ghost use Rattle.std.specs.Prelude.{◌≡◌, ◌<◌, List, [], ◌∷◌, length, Some, None, IsSome, IfOk};
ghost use Rattle.lock_core.specs.Kinds.{semaphore, unavailable};
ghost use Rattle.lock_core.specs.Pasts.{EachMoment, GoesOn, Paced, Ran, Tail};
ghost use Rattle.lock_core.specs.Locking.{Looks, Has};
ghost use Rattle.lock_core.specs.Locked.{IsLockedThen, IsSiteStep};
ghost use Rattle.lock_core.specs.SitePasses.{Numbered};
ghost use Rattle.lock_core.specs.Records.{IsPlan};
ghost use Rattle.lock_core.specs.Shown.{AllButHand, IsLatestStep, shown_new, shown_split};
ghost use Rattle.lock_core.specs.SpinStated.{IsSpinLockThen, IsSpinMove};
ghost use Rattle.lock_core.specs.SiteStated.{IsNew};
ghost use Rattle.lock_core.specs.Views.{gathered, gave_up};
ghost use Rattle.osq_nodes.specs.OsqHandles.{tasks_of};
ghost use Rattle.osq_nodes.specs.OsqRuled.{newest as newest_queue};
ghost use Rattle.lock_core.specs.SiteHandles as inner;
ghost use Rattle.lock_core.specs.Linear.{IsLinearizable};
ghost use Rattle.wait_list.specs.declared.view.Waiter.{Waiter as Waiters};
ghost use Rattle.rwsem_wake.specs.SemParts.{SemPart};
ghost use Rattle.rwsem_wake.specs.RwSemViews.{count_at};
ghost use Rattle.rwsem_slow.specs.RwSems.{standing, wait_lock_at};
ghost use Rattle.rwsem_slow.specs.RwSemStated.{HasBecome, IsOutOfLine, IsRwSemThen, MarksCounts, waits_on};
ghost use Rattle.rwsem_slow.specs.Types.{No};

use crate::SemRule;
use lock_core::{Pass, Plan, Site, Tally};
use osq_nodes::{Osq, OsqPass};
use rwsem_wake::{NO_WAKES, WakeCounts};
use std::alloc::{AllocError, Global};
use std::sync::Wait;
use word_bits::Object;

mod laws;
mod reads;
mod releases;
mod site;
mod tries;
mod writes;

/// A reader-writer semaphore that guards an object of the kind `O`, with the object's plan, records
/// and log. Contracts see its plan (`plan_of`).
#[derive(Drop)]
pub struct RwSem<O: Object> {
    site: Site<SemRule<O>>,
    osq: Osq,
    ghost sized: { tasks_of osq ≡ length (inner.plan_of site) },
}

/// A pass of a semaphore, with one of its spin queue, and with what it counts of its calls that
/// wait. Contracts see what callers of any lock see of a pass (`shown_of`).
#[derive(Drop)]
pub struct RwPass<O: Object> {
    pass: Pass<SemRule<O>>,
    queue: OsqPass,
    tally: Tally,
    counts: WakeCounts,
}

impl<O: Object> RwPass<O> {
    ghost use Rattle.rwsem_slow.specs.RwSemHandles.{dozes_in, shown_of, wakes_in};

    /// What it has counted of its calls that waited.
    pub fn tally(&self) -> Tally
        ensures { result ≡ (shown_of self.now).tally }
    {
        self.tally
    }

    /// How many wake words it has set: one for each task that it chose to be woken. It stays at the
    /// last value of a u64.
    pub fn wakes(&self) -> u64
        ensures { result ≡ wakes_in self.now }
    {
        self.counts.wakes
    }

    /// How often its task fell asleep in the list: it swapped its own wake word for 0, and that
    /// was 0. It stays at the last value of a u64.
    pub fn dozes(&self) -> u64
        ensures { result ≡ dozes_in self.now }
    {
        self.counts.dozes
    }
}

impl<O: Object> RwSem<O> {
    ghost use Rattle.rwsem_slow.specs.RwSemHandles.{newest, plan_of, shown_of, spun_of, hand_in, dozes_in, wakes_in, KeepsWakes, SitsAt, SpunGoesOn, StepsOn};

    /// A new semaphore: nobody holds, the state is empty, no call is logged or recorded. The pass
    /// has no task number.
    pub fn open(alloc: Global, plan: Plan) -> Result<(RwSem<O>, RwPass<O>), AllocError>
        requires { IsPlan O.object plan }
        ensures own { IfOk result (λ t. SitsAt t.0 t.1) }
        ensures plan { IfOk result (λ t. plan_of t.0 ≡ plan) }
        ensures new { IfOk result (λ _. IsNew O.object O.WORDS plan (newest plan)) }
        ensures view { IfOk result (λ t.
            shown_of t.1 ≡ shown_new (Some plan) [] (newest plan ∷ [])) }
        ensures unspun { IfOk result (λ t. spun_of t.1 ≡ newest_queue (length plan) ∷ []) }
        ensures fresh { IfOk result (λ t. (wakes_in t.1 ≡ 0) × (dozes_in t.1 ≡ 0)) }
    {
        let (site, pass) = Site::open(alloc, plan)?;
        let (osq, queue) = Osq::open(alloc, site.tasks())?;
        let first = RwPass {
            pass,
            queue,
            tally: Tally::new(),
            counts: NO_WAKES,
        };
        Ok((RwSem { site, osq }, first))
    }

    /// A pass without a task number, which has seen as many entries.
    pub fn split(&self, pass: &mut RwPass<O>) -> RwPass<O>
        requires own { SitsAt self.now pass.old }
        ensures on { StepsOn self.now pass.old pass.new }
        ensures queue { SpunGoesOn pass.old pass.new }
        ensures its_own { SitsAt self.now result }
        ensures kept { Looks (shown_of pass.old) (shown_of pass.new) }
        ensures given { shown_of result ≡ shown_split (shown_of pass.old) }
        ensures its_queue { spun_of result ≡ spun_of pass.old }
        ensures still { KeepsWakes pass.old pass.new }
        ensures fresh { (wakes_in result ≡ 0) × (dozes_in result ≡ 0) }
    {
        let other = self.site.split(&mut pass.pass);
        let queue = self.osq.split(&mut pass.queue);
        RwPass {
            pass: other,
            queue,
            tally: Tally::new(),
            counts: NO_WAKES,
        }
    }

    /// Waits until nobody has the task's number, and takes it with the task's records. What the
    /// pass saw of the lock is forgotten, and it has seen as many entries as the task.
    pub fn begin<W: Wait>(&self, rt: &W, pass: &mut RwPass<O>, task: u32)
        requires own { SitsAt self.now pass.old }
        requires numberless { (hand_in pass.old).task ≡ None }
        requires there { task < length (plan_of self.now) }
        ensures on { StepsOn self.now pass.old pass.new }
        ensures queue { SpunGoesOn pass.old pass.new }
        ensures became { Numbered O.object (unavailable semaphore) (plan_of self.now)
            (hand_in pass.old) task (hand_in pass.new) }
        ensures beside { AllButHand (shown_of pass.old) (shown_of pass.new) }
        ensures still { KeepsWakes pass.old pass.new }
    {
        self.site.begin(rt, &mut pass.pass, task);
        self.osq.begin(rt, &mut pass.queue, task);
    }

    /// Gives the pass's number back.
    pub fn end(&self, pass: &mut RwPass<O>)
        requires own { SitsAt self.now pass.old }
        requires numbered { IsSome (hand_in pass.old).task }
        requires out { (hand_in pass.old).held ≡ No }
        requires sent { (hand_in pass.old).sent ≡ None }
        requires consumed { (hand_in pass.old).consumed ≡ 0 }
        ensures on { StepsOn self.now pass.old pass.new }
        ensures queue { SpunGoesOn pass.old pass.new }
        ensures kept { Has (gave_up (hand_in pass.old)) (shown_of pass.old) (shown_of pass.new) }
        ensures still { KeepsWakes pass.old pass.new }
    {
        self.osq.end(&mut pass.queue);
        self.site.end(&mut pass.pass);
    }

    /// Takes in another pass, which is spent: `into` then knows the records that `other` knew, and
    /// has seen as many entries as either. It goes back to all that either did. What it has counted
    /// stays its own.
    pub fn gather(&self, into: &mut RwPass<O>, other: RwPass<O>)
        requires own { SitsAt self.now into.old }
        requires others_own { SitsAt self.now other }
        requires out { (hand_in into.old).held ≡ No }
        requires numberless { (hand_in other).task ≡ None }
        ensures on { StepsOn self.now into.old into.new }
        ensures kept { Has (gathered (hand_in into.old) (hand_in other))
            (shown_of into.old) (shown_of into.new) }
        ensures queue { SpunGoesOn into.old into.new }
        ensures others_queue { SpunGoesOn other into.new }
        ensures others_past { GoesOn (shown_of other).past (shown_of into.new).past }
        ensures still { KeepsWakes into.old into.new }
    {
        let RwPass { pass, queue, .. } = other;
        self.site.gather(&mut into.pass, pass);
        // One load, behind which the past goes back to all that the other pass did.
        self.site.recall(&mut into.pass);
        self.osq.gather(&mut into.queue, queue);
    }

    /// A load, after which the pass knows what was so of the table at each moment so far, from the
    /// new table on, and what each step did.
    ///
    /// - At each moment the facts of every site hold, and which tasks wait and as what is known. The
    ///   count states whether a task writes, which then is alone. It states how many tasks read,
    ///   whose bias is in it, and whether tasks wait. The words of the wait lock say who has it.
    /// - At each step the list changes by one append or one removal, if at all. A removal is the
    ///   waiter's own, or that of a waker whose batch goes on with it.
    /// - While the first waiter is marked and HANDOFF is set, it alone may come to write. A task then
    ///   comes to read only by a bias whose addition saw no HANDOFF, or by a downgrade.
    /// - A bias keeps the count that its addition found.
    /// - A task comes to read by a step of its own pass, or in a waker's whole batch. It reads until
    ///   its own pass ends its shared hold. A batch is granted in the order in which it was picked.
    /// - HANDOFF and marks are set under the wait lock, by a waker or by a writer of the list, which
    ///   is then to mark. A mark is the first waiter's. It is cleared by its own waiter, or by a
    ///   waker whose batch has it next.
    /// - On the wait lock each step is one of a spin lock's.
    ///
    /// Nobody is forgotten. If tasks wait and nobody writes or reads, a pass owes a wake, or a bias
    /// keeps writers out, or the first waiter is a writer that needs no further wake. A reader that
    /// is granted while it waits needs no further wake. A task needs none if a pass has chosen it
    /// and is to set its wake word, or that word is set. Nor does it if it tries or loads its grant
    /// word before it sleeps. Each step says how these come and go.
    ///
    /// Each call took effect at the step that stored its record.
    ///
    /// The pass itself waits for nothing, owes no wake, and has set the wake word of each task that
    /// it chose. It has set so many wake words and fallen asleep so often as it says.
    pub fn recall(&self, pass: &mut RwPass<O>)
        requires own { SitsAt self.now pass.old }
        ensures on { StepsOn self.now pass.old pass.new }
        ensures queue { SpunGoesOn pass.old pass.new }
        ensures kept { Looks (shown_of pass.old) (shown_of pass.new) }
        ensures last { IsLatestStep (shown_of pass.new) }
        ensures begins { Tail (newest (plan_of self.now) ∷ []) (shown_of pass.new).past }
        ensures always { EachMoment (IsRwSemThen O.object O.WORDS (plan_of self.now))
            (shown_of pass.new).past }
        ensures states { EachMoment
            (IsLockedThen O.object semaphore O.WORDS (plan_of self.now) count_at waits_on)
            (shown_of pass.new).past }
        ensures out { IsOutOfLine (shown_of pass.new) }
        ensures moves { Paced (IsSiteStep (plan_of self.now) count_at) (shown_of pass.new).past }
        ensures linear { IsLinearizable O.object O.WORDS (plan_of self.now)
            (shown_of pass.new).past }
        ensures lists { (q : List Waiters) × (ps : List SemPart) ×
            HasBecome (plan_of self.now) (shown_of pass.new).past q ps }
        ensures wait_lock { EachMoment (IsSpinLockThen wait_lock_at) (shown_of pass.new).past }
        ensures wait_moves { Ran standing (newest (plan_of self.now)) (IsSpinMove wait_lock_at)
            (shown_of pass.new).past }
        ensures counts { MarksCounts (wakes_in pass.new) (dozes_in pass.new) (shown_of pass.new) }
        ensures still { KeepsWakes pass.old pass.new }
    {
        self.site.recall(&mut pass.pass);
    }
}
