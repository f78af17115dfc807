//! Mutexes, their passes, and their calls.
ghost use Rattle.std.specs.Prelude.{◌≡◌, ◌≢◌, ◌<◌, ◌≤◌, ◌+◌, Bool, true, false, List, [], ◌∷◌, length, Some, None, IsSome, Ok, IfOk, IfErr};
ghost use Rattle.lock_core.specs.Kinds.{mutex, unavailable, wakes_alone};
ghost use Rattle.lock_core.specs.Holding.{missed};
ghost use Rattle.lock_core.specs.Pasts.{EachMoment, FoundAt, GoesOn, Paced, Ran, Tail};
ghost use Rattle.lock_core.specs.Locking.{Looks, Has, HasSince, Interrupts, OnlyTried, Releases, Got, KeepsPlace, TalliesLock, TalliesSpin};
ghost use Rattle.lock_core.specs.SitePasses.{Numbered};
ghost use Rattle.lock_core.specs.Records.{IsPlan};
ghost use Rattle.lock_core.specs.Shown.{AllButHand, IsLatestStep, shown_new, shown_split};
ghost use Rattle.lock_core.specs.SpinStated.{IsSpinLockThen, IsSpinMove};
ghost use Rattle.lock_core.specs.SiteStated.{IsNew};
ghost use Rattle.lock_core.specs.Views.{gathered, gave_up};
ghost use Rattle.osq_nodes.specs.OsqHandles.{tasks_of};
ghost use Rattle.osq_nodes.specs.OsqRuled.{newest as newest_queue};
ghost use Rattle.lock_core.specs.SiteHandles as inner;
ghost use Rattle.mutex_slow.specs.Mutexes.{owner_at, standing, wait_lock_at};
ghost use Rattle.cpu_task.specs.CpuCounting.{Dozes, Rises};
ghost use Rattle.sleep_lock.specs.Leaving.{LeavesForCpu};
ghost use Rattle.mutex_slow.specs.MutexPlaces.{CountsBy, CountsInLine, EndsHold, TakesOpen, WakesFirst};
ghost use Rattle.mutex_slow.specs.MutexStated.{HasBecome, IsMutexThen, IsOutOfList, MarksCounts, waits_on};
ghost use Rattle.mutex_slow.specs.Types.{Fast, No, Alone};
ghost use Rattle.lock_core.specs.Locked.{IsLockedThen, IsSiteStep};
ghost use Rattle.lock_core.specs.Linear.{IsLinearizable};
ghost use Rattle.wait_list.specs.declared.view.Waiter.{Waiter as Waiters};

use crate::rule::MutexRule;
use crate::{fast, queue, release, spin};
use cpu_task::{Cpu, Crew};
use lock_core::{How, Interrupted, Pass, Plan, Site, Tally};
use mutex_word::site_steps::take_free;
use osq_nodes::{Osq, OsqPass};
use std::alloc::{AllocError, Global};
use std::sync::Wait;
use word_bits::Object;

mod laws;
mod site;

/// A mutex that guards an object of the kind `O`, with the object's plan, records and log.
/// Contracts see its plan (`plan_of`).
#[derive(Drop)]
pub struct Mutex<O: Object> {
    site: Site<MutexRule<O>>,
    osq: Osq,
    ghost sized: { tasks_of osq ≡ length (inner.plan_of site) },
}

/// A pass of a mutex, with one of its spin queue, and with what it counts of its calls that wait.
/// Contracts see what callers of any lock see of a pass (`shown_of`).
#[derive(Drop)]
pub struct MutexPass<O: Object> {
    pass: Pass<MutexRule<O>>,
    queue: OsqPass,
    tally: Tally,
    wakes: u64,
    dozes: u64,
}

impl<O: Object> MutexPass<O> {
    ghost use Rattle.mutex_slow.specs.MutexHandles.{dozes_in, shown_of, wakes_in};

    /// What it has counted of its calls that waited.
    pub fn tally(&self) -> Tally
        ensures { result ≡ (shown_of self.now).tally }
    {
        self.tally
    }

    /// How many wake words it has set: one in each unlock that chose a first waiter. It stays at
    /// the last value of a u64.
    pub fn wakes(&self) -> u64
        ensures { result ≡ wakes_in self.now }
    {
        self.wakes
    }

    /// How often its task fell asleep in the list: it swapped its own wake word for 0, and that
    /// was 0. It stays at the last value of a u64.
    pub fn dozes(&self) -> u64
        ensures { result ≡ dozes_in self.now }
    {
        self.dozes
    }
}

impl<O: Object> Mutex<O> {
    ghost use Rattle.mutex_slow.specs.MutexHandles.{newest, plan_of, shown_of, spun_of, hand_in, SitsAt, SpunGoesOn, TakesAlone, KeepsFronts, KeepsMisses, KeepsWakes, EntersOnce, MissesAt, MissesIfShut, dozes_in, wakes_in, StepsOn};

    /// A new mutex: nobody holds, the state is empty, no call is logged or recorded. The pass has
    /// no task number.
    pub fn open(alloc: Global, plan: Plan) -> Result<(Mutex<O>, MutexPass<O>), AllocError>
        requires { IsPlan O.object plan }
        ensures own { IfOk result (λ t. SitsAt t.0 t.1) }
        ensures plan { IfOk result (λ t. plan_of t.0 ≡ plan) }
        ensures new { IfOk result (λ _. IsNew O.object O.WORDS plan (newest plan)) }
        ensures view { IfOk result (λ t.
            shown_of t.1 ≡ shown_new (Some plan) [] (newest plan ∷ [])) }
        ensures unspun { IfOk result (λ t. spun_of t.1 ≡ newest_queue (length plan) ∷ []) }
        ensures fresh { IfOk result (λ t. (wakes_in t.1 ≡ 0) × (dozes_in t.1 ≡ 0)) }
    {
        let (site, pass) = Site::open(alloc, plan)?;
        let (osq, queue) = Osq::open(alloc, site.tasks())?;
        let tally = Tally::new();
        let first = MutexPass {
            pass,
            queue,
            tally,
            wakes: 0,
            dozes: 0,
        };
        Ok((Mutex { site, osq }, first))
    }

    /// A pass without a task number, which has seen as many entries.
    pub fn split(&self, pass: &mut MutexPass<O>) -> MutexPass<O>
        requires own { SitsAt self.now pass.old }
        ensures on { StepsOn self.now pass.old pass.new }
        ensures queue { SpunGoesOn pass.old pass.new }
        ensures its_own { SitsAt self.now result }
        ensures kept { Looks (shown_of pass.old) (shown_of pass.new) }
        ensures given { shown_of result ≡ shown_split (shown_of pass.old) }
        ensures its_queue { spun_of result ≡ spun_of pass.old }
        ensures still { KeepsWakes pass.old pass.new }
        ensures fresh { (wakes_in result ≡ 0) × (dozes_in result ≡ 0) }
    {
        let other = self.site.split(&mut pass.pass);
        let queue = self.osq.split(&mut pass.queue);
        MutexPass {
            pass: other,
            queue,
            tally: Tally::new(),
            wakes: 0,
            dozes: 0,
        }
    }

    /// Waits until nobody has the task's number, and takes it with the task's records. What the
    /// pass saw of the lock is forgotten, and it has seen as many entries as the task.
    pub fn begin<W: Wait>(&self, rt: &W, pass: &mut MutexPass<O>, task: u32)
        requires own { SitsAt self.now pass.old }
        requires numberless { (hand_in pass.old).task ≡ None }
        requires there { task < length (plan_of self.now) }
        ensures on { StepsOn self.now pass.old pass.new }
        ensures queue { SpunGoesOn pass.old pass.new }
        ensures became { Numbered O.object (unavailable mutex) (plan_of self.now)
            (hand_in pass.old) task (hand_in pass.new) }
        ensures beside { AllButHand (shown_of pass.old) (shown_of pass.new) }
        ensures still { KeepsWakes pass.old pass.new }
    {
        self.site.begin(rt, &mut pass.pass, task);
        self.osq.begin(rt, &mut pass.queue, task);
    }

    /// Gives the pass's number back.
    pub fn end(&self, pass: &mut MutexPass<O>)
        requires own { SitsAt self.now pass.old }
        requires numbered { IsSome (hand_in pass.old).task }
        requires out { (hand_in pass.old).held ≡ No }
        requires sent { (hand_in pass.old).sent ≡ None }
        requires consumed { (hand_in pass.old).consumed ≡ 0 }
        ensures on { StepsOn self.now pass.old pass.new }
        ensures queue { SpunGoesOn pass.old pass.new }
        ensures kept { Has (gave_up (hand_in pass.old)) (shown_of pass.old) (shown_of pass.new) }
        ensures still { KeepsWakes pass.old pass.new }
    {
        self.osq.end(&mut pass.queue);
        self.site.end(&mut pass.pass);
    }

    /// Takes in another pass, which is spent: `into` then knows the records that `other` knew, and
    /// has seen as many entries as either. It goes back to all that either did. What it has counted
    /// stays its own.
    pub fn gather(&self, into: &mut MutexPass<O>, other: MutexPass<O>)
        requires own { SitsAt self.now into.old }
        requires others_own { SitsAt self.now other }
        requires out { (hand_in into.old).held ≡ No }
        requires numberless { (hand_in other).task ≡ None }
        ensures on { StepsOn self.now into.old into.new }
        ensures kept { Has (gathered (hand_in into.old) (hand_in other))
            (shown_of into.old) (shown_of into.new) }
        ensures queue { SpunGoesOn into.old into.new }
        ensures others_queue { SpunGoesOn other into.new }
        ensures others_past { GoesOn (shown_of other).past (shown_of into.new).past }
        ensures still { KeepsWakes into.old into.new }
    {
        let MutexPass { pass, queue, .. } = other;
        self.site.gather(&mut into.pass, pass);
        // One load, behind which the past goes back to all that the other pass did.
        self.site.recall(&mut into.pass);
        self.osq.gather(&mut into.queue, queue);
    }

    /// Spins in the queue of those that do, and as its head until a try takes or the CPU needs
    /// rescheduling. The kernel's `mutex_optimistic_spin`.
    fn spin<W: Wait, C: Cpu>(&self, rt: &W, pass: &mut MutexPass<O>, cpu: &mut C) -> bool
        requires own { SitsAt self.now pass.old }
        requires numbered { IsSome (hand_in pass.old).task }
        requires out { (hand_in pass.old).held ≡ No }
        ensures on { StepsOn self.now pass.old pass.new }
        ensures dozed { Dozes (C.sleeps cpu.old) (C.sleeps cpu.new)
            (dozes_in pass.old) (dozes_in pass.new) }
        ensures set { wakes_in pass.new ≡ wakes_in pass.old }
        ensures queue { SpunGoesOn pass.old pass.new }
        ensures numbered { (hand_in pass.new).task ≡ (hand_in pass.old).task }
        ensures line { (shown_of pass.new).line ≡ (shown_of pass.old).line }
        ensures took { result ≡ true → TakesAlone O.object self.now pass.old pass.new }
        ensures opened { result ≡ true → TakesOpen (shown_of pass.old) (shown_of pass.new) }
        ensures front { result ≡ true →
            ((shown_of pass.new).fronts ≡ (shown_of pass.old).fronts + 1) }
        ensures missed { result ≡ false → OnlyTried (shown_of pass.old) (shown_of pass.new) }
        ensures out { result ≡ false → (hand_in pass.new).held ≡ No }
        ensures stood { result ≡ false → KeepsFronts pass.old pass.new →
            KeepsMisses pass.old pass.new }
        ensures entries { (shown_of pass.new).spin.entries ≡ (shown_of pass.old).spin.entries }
        ensures sleeps { C.sleeps cpu.new ≡ C.sleeps cpu.old }
        ensures rescheds { C.rescheds cpu.old ≤ C.rescheds cpu.new }
        ensures stops { result ≡ false → Rises (C.rescheds cpu.old) (C.rescheds cpu.new) }
        ensures tallied { TalliesSpin (shown_of pass.old) (shown_of pass.new) }
        ensures left { LeavesForCpu (C.rescheds cpu.old) (C.rescheds cpu.new)
            (shown_of pass.old) (shown_of pass.new) }
        ensures still { KeepsWakes pass.old pass.new }
    {
        if cpu.need_resched() {
            return false;
        }
        // One spinner at a time tries: the others spin on words of their own.
        if !osq_unqueue::lock(&self.osq, rt, &mut pass.queue, cpu) {
            pass.tally.leave();
            return false;
        }
        let took = spin::spin_outside(&self.site, rt, &mut pass.pass, &pass.queue, cpu);
        self.osq.unlock(rt, &mut pass.queue);
        took
    }

    /// Waits until the pass holds alone, or, where it is interruptible, until a signal interrupts
    /// it. The kernel's `__mutex_lock`.
    fn lock_common<W: Wait, C: Cpu>(
        &self,
        rt: &W,
        pass: &mut MutexPass<O>,
        cpu: &mut C,
        interruptible: bool,
    ) -> Result<How, Interrupted>
        requires own { SitsAt self.now pass.old }
        requires numbered { IsSome (hand_in pass.old).task }
        requires out { (hand_in pass.old).held ≡ No }
        ensures on { StepsOn self.now pass.old pass.new }
        ensures dozed { Dozes (C.sleeps cpu.old) (C.sleeps cpu.new)
            (dozes_in pass.old) (dozes_in pass.new) }
        ensures set { wakes_in pass.new ≡ wakes_in pass.old }
        ensures queue { SpunGoesOn pass.old pass.new }
        ensures took { IfOk result (λ _. TakesAlone O.object self.now pass.old pass.new) }
        ensures opened { IfOk result (λ _. TakesOpen (shown_of pass.old) (shown_of pass.new)) }
        ensures how { IfOk result (λ how. Got how (shown_of pass.old) (shown_of pass.new)) }
        ensures interrupted { IfErr result (λ why. (reads : Bool) →
            Interrupts mutex reads owner_at why (shown_of pass.old) (shown_of pass.new)) }
        ensures asked { IfErr result (λ _. interruptible ≡ true) }
        ensures line { (shared : Bool) → KeepsPlace mutex shared owner_at
            (shown_of pass.old) (shown_of pass.new) }
        ensures counts { IfOk result (λ how. CountsBy how (C.sleeps cpu.old) (C.sleeps cpu.new)
            (C.rescheds cpu.old) (C.rescheds cpu.new) (shown_of pass.old) (shown_of pass.new)) }
        ensures slept { IfErr result (λ _. CountsInLine (C.sleeps cpu.old) (C.sleeps cpu.new)
            (C.rescheds cpu.old) (C.rescheds cpu.new) (shown_of pass.old) (shown_of pass.new)) }
        ensures tallied { TalliesLock result (shown_of pass.old) (shown_of pass.new) }
        ensures left { LeavesForCpu (C.rescheds cpu.old) (C.rescheds cpu.new)
            (shown_of pass.old) (shown_of pass.new) }
    {
        let Err(_) = fast::try_outside(&self.site, rt, &mut pass.pass) else {
            return Ok(How::Fast);
        };
        if self.spin(rt, pass, cpu) {
            return Ok(How::Spun);
        }
        let got = queue::lock_in_line(
            &self.site,
            rt,
            &mut pass.pass,
            cpu,
            &mut pass.dozes,
            interruptible,
        );
        pass.tally.answer(got);
        got
    }

    /// Waits until the pass holds alone. The kernel's `mutex_lock`.
    pub fn lock<W: Wait, C: Crew>(
        &self,
        rt: &W,
        pass: &mut MutexPass<O>,
        cpu: &mut C::C,
        _crew: &C,
    ) -> How
        requires own { SitsAt self.now pass.old }
        requires numbered { IsSome (hand_in pass.old).task }
        requires out { (hand_in pass.old).held ≡ No }
        ensures on { StepsOn self.now pass.old pass.new }
        ensures dozed { Dozes (C.C.sleeps cpu.old) (C.C.sleeps cpu.new)
            (dozes_in pass.old) (dozes_in pass.new) }
        ensures set { wakes_in pass.new ≡ wakes_in pass.old }
        ensures queue { SpunGoesOn pass.old pass.new }
        ensures took { TakesAlone O.object self.now pass.old pass.new }
        ensures opened { TakesOpen (shown_of pass.old) (shown_of pass.new) }
        ensures how { Got result (shown_of pass.old) (shown_of pass.new) }
        ensures line { (shared : Bool) → KeepsPlace mutex shared owner_at
            (shown_of pass.old) (shown_of pass.new) }
        ensures counts { CountsBy result (C.C.sleeps cpu.old) (C.C.sleeps cpu.new)
            (C.C.rescheds cpu.old) (C.C.rescheds cpu.new) (shown_of pass.old) (shown_of pass.new) }
        ensures tallied { TalliesLock (Ok result) (shown_of pass.old) (shown_of pass.new) }
        ensures left { LeavesForCpu (C.C.rescheds cpu.old) (C.C.rescheds cpu.new)
            (shown_of pass.old) (shown_of pass.new) }
    {
        match self.lock_common(rt, pass, cpu, false) {
            Ok(how) => how,
            Err(_) => unreachable!(),
        }
    }

    /// As `lock`, until a signal interrupts it. The kernel's `mutex_lock_interruptible`.
    pub fn lock_interruptible<W: Wait, C: Crew>(
        &self,
        rt: &W,
        pass: &mut MutexPass<O>,
        cpu: &mut C::C,
        _crew: &C,
    ) -> Result<How, Interrupted>
        requires own { SitsAt self.now pass.old }
        requires numbered { IsSome (hand_in pass.old).task }
        requires out { (hand_in pass.old).held ≡ No }
        ensures on { StepsOn self.now pass.old pass.new }
        ensures dozed { Dozes (C.C.sleeps cpu.old) (C.C.sleeps cpu.new)
            (dozes_in pass.old) (dozes_in pass.new) }
        ensures set { wakes_in pass.new ≡ wakes_in pass.old }
        ensures queue { SpunGoesOn pass.old pass.new }
        ensures took { IfOk result (λ _. TakesAlone O.object self.now pass.old pass.new) }
        ensures opened { IfOk result (λ _. TakesOpen (shown_of pass.old) (shown_of pass.new)) }
        ensures how { IfOk result (λ how. Got how (shown_of pass.old) (shown_of pass.new)) }
        ensures interrupted { IfErr result (λ why. (reads : Bool) →
            Interrupts mutex reads owner_at why (shown_of pass.old) (shown_of pass.new)) }
        ensures line { (shared : Bool) → KeepsPlace mutex shared owner_at
            (shown_of pass.old) (shown_of pass.new) }
        ensures counts { IfOk result (λ how. CountsBy how (C.C.sleeps cpu.old) (C.C.sleeps cpu.new)
            (C.C.rescheds cpu.old) (C.C.rescheds cpu.new) (shown_of pass.old) (shown_of pass.new)) }
        ensures slept { IfErr result (λ _. CountsInLine (C.C.sleeps cpu.old) (C.C.sleeps cpu.new)
            (C.C.rescheds cpu.old) (C.C.rescheds cpu.new) (shown_of pass.old) (shown_of pass.new)) }
        ensures tallied { TalliesLock result (shown_of pass.old) (shown_of pass.new) }
        ensures left { LeavesForCpu (C.C.rescheds cpu.old) (C.C.rescheds cpu.new)
            (shown_of pass.old) (shown_of pass.new) }
    {
        self.lock_common(rt, pass, cpu, true)
    }

    /// Holds alone where that is possible at once. `Err` has the word, which names a task, that
    /// says why not. It tries again where only flags changed. The kernel's `mutex_trylock`.
    pub fn trylock<W: Wait>(&self, rt: &W, pass: &mut MutexPass<O>) -> Result<(), u64>
        requires own { SitsAt self.now pass.old }
        requires numbered { IsSome (hand_in pass.old).task }
        requires out { (hand_in pass.old).held ≡ No }
        ensures on { StepsOn self.now pass.old pass.new }
        ensures queue { SpunGoesOn pass.old pass.new }
        ensures took { IfOk result (λ _. TakesAlone O.object self.now pass.old pass.new) }
        ensures opened { IfOk result (λ _. TakesOpen (shown_of pass.old) (shown_of pass.new)) }
        ensures at_once { IfOk result (λ _. Got Fast (shown_of pass.old) (shown_of pass.new)) }
        ensures numbered { (hand_in pass.new).task ≡ (hand_in pass.old).task }
        ensures still_out { IfErr result (λ _. (hand_in pass.new).held ≡ No) }
        ensures missed { IfErr result (λ word. MissesAt pass.old word pass.new) }
        ensures still { KeepsWakes pass.old pass.new }
    {
        match fast::try_outside(&self.site, rt, &mut pass.pass) {
            Ok(()) => Ok(()),
            Err(word) => Err(word),
        }
    }

    /// Takes the mutex where its word is 0, by one compare-exchange. `Err` has the word, not 0,
    /// that the exchange saw. At flags without a task it fails, where `trylock` takes.
    pub fn trylock_once(&self, pass: &mut MutexPass<O>) -> Result<(), u64>
        requires own { SitsAt self.now pass.old }
        requires numbered { IsSome (hand_in pass.old).task }
        requires out { (hand_in pass.old).held ≡ No }
        ensures on { StepsOn self.now pass.old pass.new }
        ensures queue { SpunGoesOn pass.old pass.new }
        ensures took { IfOk result (λ _. TakesAlone O.object self.now pass.old pass.new) }
        ensures opened { IfOk result (λ _. TakesOpen (shown_of pass.old) (shown_of pass.new)) }
        ensures at_once { IfOk result (λ _. Got Fast (shown_of pass.old) (shown_of pass.new)) }
        ensures step { (shown_of pass.new).steps ≡ (shown_of pass.old).steps + 1 }
        ensures free { IfOk result (λ _. FoundAt owner_at 0 (shown_of pass.new).past) }
        ensures numbered { (hand_in pass.new).task ≡ (hand_in pass.old).task }
        ensures still_out { IfErr result (λ _. (hand_in pass.new).held ≡ No) }
        ensures some { IfErr result (λ word. word ≢ 0) }
        ensures saw { IfErr result (λ word. HasSince (λ step. missed (hand_in pass.old) word step)
            (shown_of pass.old) (shown_of pass.new)) }
        ensures found { IfErr result (λ word. FoundAt owner_at word (shown_of pass.new).past) }
        ensures missed { IfErr result (λ word. MissesIfShut pass.old word pass.new) }
        ensures still { KeepsWakes pass.old pass.new }
    {
        match take_free(&self.site, &mut pass.pass) {
            Ok(()) => Ok(()),
            Err(word) => Err(word),
        }
    }

    /// Ends the pass's hold. Where a handoff is asked for and tasks wait, the word then picks the
    /// first of them. Where the word that is left says that tasks wait, it chooses the first one
    /// under the wait lock, sets its wake word and wakes it. The kernel's `mutex_unlock`.
    pub fn unlock<W: Wait, C: Crew>(&self, rt: &W, pass: &mut MutexPass<O>, crew: &C)
        requires own { SitsAt self.now pass.old }
        requires held { (hand_in pass.old).held ≡ Alone }
        requires quiet { (hand_in pass.old).writes ≡ false }
        ensures on { StepsOn self.now pass.old pass.new }
        ensures queue { SpunGoesOn pass.old pass.new }
        ensures released { Releases (wakes_alone mutex) (shown_of pass.old) (shown_of pass.new) }
        ensures wakes { WakesFirst (wakes_in pass.old) (wakes_in pass.new)
            (shown_of pass.old) (shown_of pass.new) }
        ensures dozes { dozes_in pass.new ≡ dozes_in pass.old }
        ensures ended { EndsHold (shown_of pass.old) (shown_of pass.new) }
        ensures line { (shown_of pass.new).line ≡ (shown_of pass.old).line }
        ensures entries { EntersOnce pass.old pass.new }
    {
        if release::unlock(&self.site, rt, &mut pass.pass, crew) {
            pass.wakes = pass.wakes.saturating_add(1);
        }
    }

    /// A load, after which the pass knows what was so of the table at each moment so far, from the
    /// new table on, and what each step did.
    ///
    /// - At each moment the facts of every site hold, and the owner word states who holds, who is
    ///   picked, and whether tasks wait. If nobody holds and tasks wait, somebody has the duty to
    ///   wake the first of them, or its wake word is set, or it is awake and tries before it
    ///   sleeps. The words of the wait lock say who has it.
    /// - At each step the list changes by one append or one removal, if at all. The first waiter
    ///   alone asks for a handoff. That stays until the holder picks whoever is first then, or
    ///   nobody waits; a step that ends a hold meanwhile picks the first waiter. A word that picks
    ///   a waiter is changed by that waiter's pass alone, which takes. On the wait lock each step
    ///   is one of a spin lock's.
    /// - Each call took effect at the step that stored its record.
    /// - The pass itself isn't in the list, and has no wake to do.
    pub fn recall(&self, pass: &mut MutexPass<O>)
        requires own { SitsAt self.now pass.old }
        ensures on { StepsOn self.now pass.old pass.new }
        ensures queue { SpunGoesOn pass.old pass.new }
        ensures kept { Looks (shown_of pass.old) (shown_of pass.new) }
        ensures last { IsLatestStep (shown_of pass.new) }
        ensures begins { Tail (newest (plan_of self.now) ∷ []) (shown_of pass.new).past }
        ensures always { EachMoment (IsMutexThen O.object O.WORDS (plan_of self.now))
            (shown_of pass.new).past }
        ensures states { EachMoment
            (IsLockedThen O.object mutex O.WORDS (plan_of self.now) owner_at waits_on)
            (shown_of pass.new).past }
        ensures out { IsOutOfList (shown_of pass.new) }
        ensures counts { MarksCounts (wakes_in pass.new) (dozes_in pass.new) (shown_of pass.new) }
        ensures moves { Paced (IsSiteStep (plan_of self.now) owner_at) (shown_of pass.new).past }
        ensures linear { IsLinearizable O.object O.WORDS (plan_of self.now)
            (shown_of pass.new).past }
        ensures lists { (l : List Waiters) ×
            HasBecome (plan_of self.now) (shown_of pass.new).past l }
        ensures wait_lock { EachMoment (IsSpinLockThen wait_lock_at) (shown_of pass.new).past }
        ensures wait_moves { Ran standing (newest (plan_of self.now)) (IsSpinMove wait_lock_at)
            (shown_of pass.new).past }
        ensures still { KeepsWakes pass.old pass.new }
    {
        self.site.recall(&mut pass.pass);
    }
}
