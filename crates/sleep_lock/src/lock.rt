//! The trait of the locks that tasks sleep on.
ghost use Rattle.std.specs.Prelude.{◌≡◌, ℕ, ◌<◌, Bool, true, false, List, [], ◌∷◌, length, Some, None, IsSome, Ok, IfOk, IfErr};
ghost use Rattle.word_bits.specs.Histories.{Plan as Calls};
ghost use Rattle.lock_core.specs.declared.pass.Pass.{Pass as Seat};
ghost use Rattle.lock_core.specs.declared.view.Held.TheVariants.{No, Alone};
ghost use Rattle.lock_core.specs.declared.view.Moment.{Moment};
ghost use Rattle.lock_core.specs.declared.how.How.TheVariants.{Fast};
ghost use Rattle.lock_core.specs.Plans.{IsSmall};
ghost use Rattle.lock_core.specs.Records.{IsPlan};
ghost use Rattle.lock_core.specs.Views.{gave_up, gathered};
ghost use Rattle.lock_core.specs.SitePasses.{Numbered};
ghost use Rattle.lock_core.specs.Pasts.{EachMoment, GoesOn, Paced, Tail};
ghost use Rattle.lock_core.specs.SiteStated.{IsNew};
ghost use Rattle.lock_core.specs.Kinds.{Kind, mutex, semaphore, unavailable, shares, wakes_shared, wakes_alone};
ghost use Rattle.lock_core.specs.Shown.{Shown, Stands, AllButHand, IsLatestStep, StepsOn, shown_new, shown_split};
ghost use Rattle.lock_core.specs.Locking.{Looks, Has, Takes, Misses, Interrupts, Releases, Downgrades, Got, KeepsPlace, TalliesLock};
ghost use Rattle.lock_core.specs.Locked.{IsLockedThen, IsSiteStep};
ghost use Rattle.lock_core.specs.Linear.{IsLinearizable};
ghost use Rattle.cpu_task.specs.CpuCounting.{Dozes};
ghost use Rattle.sleep_lock.specs.Leaving.{LeavesForCpu};

use cpu_task::Crew;
use lock_core::{How, Interrupted, Plan, SiteLock, Tally};
use std::alloc::{AllocError, Global};
use std::sync::Wait;
use word_bits::Object;

/// A lock over a site, on which tasks sleep until they can have it.
///
/// What a clause says of a pass it says of what the pass shows (`view`): its hand, its counts, and
/// the moments of the table up to its last step. `recall` says what was so at each of these
/// moments, whatever the lock is. A pass shows what its pass of the site knows (`SiteLock`'s law
/// `faces`); how it has stood in line and what it counted is the lock's own to say.
pub trait SleepLock<O: Object>: SiteLock<O> {
    // What the lock's words tell.
    ghost kind: { Kind };

    // The place of the lock's word in the table.
    ghost word_at: { ℕ };

    // A new table with this plan.
    ghost opened: { Calls → Moment };

    // The moments of the spin queue of a new lock with this plan: one, or none where the lock has
    // no such queue.
    ghost opened_queue: { Calls → List Moment };

    // The tasks that wait for the lock, first to last.
    ghost waits: { Calls → Moment → List ℕ → Type 0 };

    // What this lock tells of its own, beside what every lock does, to a pass that looks back.
    ghost tells: { Calls → Shown → Type 0 };

    // What this lock tells of its spin queue, if it has one, to a pass that looks back at that.
    ghost tells_queue: { Calls → Shown → List Moment → Type 0 };

    // What a try to hold alone does to this lock, the end of a shared hold, that of an exclusive
    // one, and a downgrade, beside what they do to every lock.
    ghost tries_alone: { Shown → Shown → Type 0 };

    ghost ends_shared: { Shown → Shown → Type 0 };

    ghost ends_alone: { Shown → Shown → Type 0 };

    ghost turns_shared: { Shown → Shown → Type 0 };

    // The moments of the lock's spin queue up to the pass's last step on that queue, the last one
    // first, and none where the lock has no such queue.
    ghost spun: { Self.Pass → List Moment };

    // How often the pass has fallen asleep in calls on this lock, under whatever number.
    ghost dozes: { Self.Pass → ℕ };

    // Of a past whose last moment marks the pass as having fallen asleep so often. What that means
    // is the lock's own: of a mutex and of a semaphore it is `MarksDozes`.
    ghost marks_dozes: { ℕ → Shown → Type 0 };

    /// A new lock: nobody holds, the state is empty, no call is logged or recorded. The pass has no
    /// task number.
    fn open(alloc: Global, plan: Plan) -> Result<(Self, Self::Pass), AllocError>
        requires { IsPlan O.object plan }
        ensures own { IfOk result (λ t. Self.sits t.0 t.1) }
        ensures plan { IfOk result (λ t. Self.calls_on t.0 ≡ plan) }
        ensures new { IfOk result (λ _. IsNew O.object O.WORDS plan (opened plan)) }
        ensures view { IfOk result (λ t.
            Self.view t.1 ≡ shown_new (Some plan) [] (opened plan ∷ [])) }
        ensures unspun { IfOk result (λ t. spun t.1 ≡ opened_queue plan) }
        ensures fresh { IfOk result (λ t. dozes t.1 ≡ 0) };

    /// A pass without a task number, which has seen as many entries.
    fn split(&self, pass: &mut Self::Pass) -> Self::Pass
        requires own { Self.sits self.now pass.old }
        ensures on { StepsOn Self.sits Self.view self.now pass.old pass.new }
        ensures queue { GoesOn (spun pass.old) (spun pass.new) }
        ensures its_own { Self.sits self.now result }
        ensures kept { Looks (Self.view pass.old) (Self.view pass.new) }
        ensures given { Self.view result ≡ shown_split (Self.view pass.old) }
        ensures its_queue { spun result ≡ spun pass.old }
        ensures still { dozes pass.new ≡ dozes pass.old }
        ensures fresh { dozes result ≡ 0 };

    /// Waits until nobody has the task's number, and takes it with the task's records. What the
    /// pass saw of the lock is forgotten, and it has seen as many entries as the task.
    fn begin<W: Wait>(&self, rt: &W, pass: &mut Self::Pass, task: u32)
        requires own { Self.sits self.now pass.old }
        requires numberless { (Self.view pass.old).hand.task ≡ None }
        requires there { task < length (Self.calls_on self.now) }
        ensures on { StepsOn Self.sits Self.view self.now pass.old pass.new }
        ensures queue { GoesOn (spun pass.old) (spun pass.new) }
        ensures became { Numbered O.object (unavailable kind) (Self.calls_on self.now)
            (Self.view pass.old).hand task (Self.view pass.new).hand }
        ensures beside { AllButHand (Self.view pass.old) (Self.view pass.new) }
        ensures still { dozes pass.new ≡ dozes pass.old };

    /// Gives the pass's number back.
    fn end(&self, pass: &mut Self::Pass)
        requires own { Self.sits self.now pass.old }
        requires numbered { IsSome (Self.view pass.old).hand.task }
        requires out { (Self.view pass.old).hand.held ≡ No }
        requires sent { (Self.view pass.old).hand.sent ≡ None }
        requires consumed { (Self.view pass.old).hand.consumed ≡ 0 }
        ensures on { StepsOn Self.sits Self.view self.now pass.old pass.new }
        ensures queue { GoesOn (spun pass.old) (spun pass.new) }
        ensures kept { Has (gave_up (Self.view pass.old).hand)
            (Self.view pass.old) (Self.view pass.new) }
        ensures still { dozes pass.new ≡ dozes pass.old };

    /// Takes in another pass, which is spent: `into` then knows the records that `other` knew, and
    /// has seen as many entries as either. Of the object's table and of the lock's spin queue it goes
    /// back to all that either did.
    fn gather(&self, into: &mut Self::Pass, other: Self::Pass)
        requires own { Self.sits self.now into.old × Self.sits self.now other }
        requires out { (Self.view into.old).hand.held ≡ No }
        requires numberless { (Self.view other).hand.task ≡ None }
        ensures on { StepsOn Self.sits Self.view self.now into.old into.new }
        ensures kept { Has (gathered (Self.view into.old).hand (Self.view other).hand)
            (Self.view into.old) (Self.view into.new) }
        ensures queue { GoesOn (spun into.old) (spun into.new) }
        ensures others_queue { GoesOn (spun other) (spun into.new) }
        ensures others_past { GoesOn (Self.view other).past (Self.view into.new).past }
        ensures still { dozes into.new ≡ dozes into.old };

    /// Loads. Then the pass knows of each moment of the table so far, from the new one on, the
    /// facts of every site. It knows that the lock's word stated who held and whether tasks waited.
    /// It knows what each step did to the site's words, that each call took effect at the step that
    /// stored its record, and what this lock tells of its own (`tells`). The last moment marks how
    /// often the pass has fallen asleep, as the pass says (`marks_dozes`).
    fn recall(&self, pass: &mut Self::Pass)
        requires own { Self.sits self.now pass.old }
        ensures on { StepsOn Self.sits Self.view self.now pass.old pass.new }
        ensures queue { GoesOn (spun pass.old) (spun pass.new) }
        ensures kept { Looks (Self.view pass.old) (Self.view pass.new) }
        ensures last { IsLatestStep (Self.view pass.new) }
        ensures new { IsNew O.object O.WORDS (Self.calls_on self.now)
            (opened (Self.calls_on self.now)) }
        ensures begins { Tail (opened (Self.calls_on self.now) ∷ []) (Self.view pass.new).past }
        ensures always { EachMoment
            (IsLockedThen O.object kind O.WORDS (Self.calls_on self.now) word_at waits)
            (Self.view pass.new).past }
        ensures moves { Paced (IsSiteStep (Self.calls_on self.now) word_at)
            (Self.view pass.new).past }
        ensures linear { IsLinearizable O.object O.WORDS (Self.calls_on self.now)
            (Self.view pass.new).past }
        ensures told { tells (Self.calls_on self.now) (Self.view pass.new) }
        ensures marked { marks_dozes (dozes pass.new) (Self.view pass.new) }
        ensures still { dozes pass.new ≡ dozes pass.old };

    /// Loads a word of the lock's spin queue, if it has one, after which the pass knows of each
    /// moment of the queue so far, from the empty one on, what this lock tells of it
    /// (`tells_queue`).
    fn recall_queue(&self, pass: &mut Self::Pass)
        requires own { Self.sits self.now pass.old }
        ensures own { Self.sits self.now pass.new }
        ensures queue { GoesOn (spun pass.old) (spun pass.new) }
        ensures kept { Self.view pass.new ≡ Self.view pass.old }
        ensures told { tells_queue (Self.calls_on self.now) (Self.view pass.new) (spun pass.new) }
        ensures still { dozes pass.new ≡ dozes pass.old };

    /// What the pass has counted of its calls that wait.
    fn tally(pass: &Self::Pass) -> Tally
        ensures { result ≡ (Self.view pass.now).tally };

    /// Waits until the pass holds beside others that hold shared.
    fn shared<W: Wait, C: Crew>(
        &self,
        rt: &W,
        pass: &mut Self::Pass,
        cpu: &mut C::C,
        crew: &C,
    ) -> How
        requires own { Self.sits self.now pass.old }
        requires numbered { IsSome (Self.view pass.old).hand.task }
        requires out { (Self.view pass.old).hand.held ≡ No }
        ensures on { StepsOn Self.sits Self.view self.now pass.old pass.new }
        ensures dozed { Dozes (C.C.sleeps cpu.old) (C.C.sleeps cpu.new)
            (dozes pass.old) (dozes pass.new) }
        ensures queue { GoesOn (spun pass.old) (spun pass.new) }
        ensures took { Takes O.object (Self.calls_on self.now) (shares kind)
            (Self.view pass.old) (Self.view pass.new) }
        ensures how { Got result (Self.view pass.old) (Self.view pass.new) }
        ensures tallied { TalliesLock (Ok result) (Self.view pass.old) (Self.view pass.new) }
        ensures left { LeavesForCpu (C.C.rescheds cpu.old) (C.C.rescheds cpu.new)
            (Self.view pass.old) (Self.view pass.new) }
        ensures line { KeepsPlace kind true word_at (Self.view pass.old) (Self.view pass.new) };

    /// Waits until the pass holds alone.
    fn alone<W: Wait, C: Crew>(
        &self,
        rt: &W,
        pass: &mut Self::Pass,
        cpu: &mut C::C,
        crew: &C,
    ) -> How
        requires own { Self.sits self.now pass.old }
        requires numbered { IsSome (Self.view pass.old).hand.task }
        requires out { (Self.view pass.old).hand.held ≡ No }
        ensures on { StepsOn Self.sits Self.view self.now pass.old pass.new }
        ensures dozed { Dozes (C.C.sleeps cpu.old) (C.C.sleeps cpu.new)
            (dozes pass.old) (dozes pass.new) }
        ensures queue { GoesOn (spun pass.old) (spun pass.new) }
        ensures took { Takes O.object (Self.calls_on self.now) Alone
            (Self.view pass.old) (Self.view pass.new) }
        ensures how { Got result (Self.view pass.old) (Self.view pass.new) }
        ensures tallied { TalliesLock (Ok result) (Self.view pass.old) (Self.view pass.new) }
        ensures left { LeavesForCpu (C.C.rescheds cpu.old) (C.C.rescheds cpu.new)
            (Self.view pass.old) (Self.view pass.new) }
        ensures line { KeepsPlace kind false word_at (Self.view pass.old) (Self.view pass.new) };

    /// As `shared`, until a signal interrupts it.
    fn shared_int<W: Wait, C: Crew>(
        &self,
        rt: &W,
        pass: &mut Self::Pass,
        cpu: &mut C::C,
        crew: &C,
    ) -> Result<How, Interrupted>
        requires own { Self.sits self.now pass.old }
        requires numbered { IsSome (Self.view pass.old).hand.task }
        requires out { (Self.view pass.old).hand.held ≡ No }
        ensures on { StepsOn Self.sits Self.view self.now pass.old pass.new }
        ensures dozed { Dozes (C.C.sleeps cpu.old) (C.C.sleeps cpu.new)
            (dozes pass.old) (dozes pass.new) }
        ensures queue { GoesOn (spun pass.old) (spun pass.new) }
        ensures took { IfOk result (λ _. Takes O.object (Self.calls_on self.now) (shares kind)
            (Self.view pass.old) (Self.view pass.new)) }
        ensures how { IfOk result (λ how. Got how (Self.view pass.old) (Self.view pass.new)) }
        ensures line { IfOk result (λ _.
            KeepsPlace kind true word_at (Self.view pass.old) (Self.view pass.new)) }
        ensures tallied { TalliesLock result (Self.view pass.old) (Self.view pass.new) }
        ensures left { LeavesForCpu (C.C.rescheds cpu.old) (C.C.rescheds cpu.new)
            (Self.view pass.old) (Self.view pass.new) }
        ensures interrupted { IfErr result (λ why.
            Interrupts kind true word_at why (Self.view pass.old) (Self.view pass.new)) }
        ensures stood { IfErr result (λ _.
            KeepsPlace kind false word_at (Self.view pass.old) (Self.view pass.new)) };

    /// As `alone`, until a signal interrupts it.
    fn alone_int<W: Wait, C: Crew>(
        &self,
        rt: &W,
        pass: &mut Self::Pass,
        cpu: &mut C::C,
        crew: &C,
    ) -> Result<How, Interrupted>
        requires own { Self.sits self.now pass.old }
        requires numbered { IsSome (Self.view pass.old).hand.task }
        requires out { (Self.view pass.old).hand.held ≡ No }
        ensures on { StepsOn Self.sits Self.view self.now pass.old pass.new }
        ensures dozed { Dozes (C.C.sleeps cpu.old) (C.C.sleeps cpu.new)
            (dozes pass.old) (dozes pass.new) }
        ensures queue { GoesOn (spun pass.old) (spun pass.new) }
        ensures took { IfOk result (λ _. Takes O.object (Self.calls_on self.now) Alone
            (Self.view pass.old) (Self.view pass.new)) }
        ensures how { IfOk result (λ how. Got how (Self.view pass.old) (Self.view pass.new)) }
        ensures line { IfOk result (λ _.
            KeepsPlace kind false word_at (Self.view pass.old) (Self.view pass.new)) }
        ensures tallied { TalliesLock result (Self.view pass.old) (Self.view pass.new) }
        ensures left { LeavesForCpu (C.C.rescheds cpu.old) (C.C.rescheds cpu.new)
            (Self.view pass.old) (Self.view pass.new) }
        ensures interrupted { IfErr result (λ why.
            Interrupts kind false word_at why (Self.view pass.old) (Self.view pass.new)) }
        ensures stood { IfErr result (λ _.
            KeepsPlace kind false word_at (Self.view pass.old) (Self.view pass.new)) };

    /// Holds beside others where that is possible at once. `Err` has the word that says why not.
    fn try_shared<W: Wait>(&self, rt: &W, pass: &mut Self::Pass) -> Result<(), u64>
        requires own { Self.sits self.now pass.old }
        requires numbered { IsSome (Self.view pass.old).hand.task }
        requires out { (Self.view pass.old).hand.held ≡ No }
        ensures on { StepsOn Self.sits Self.view self.now pass.old pass.new }
        ensures queue { GoesOn (spun pass.old) (spun pass.new) }
        ensures took { IfOk result (λ _. Takes O.object (Self.calls_on self.now) (shares kind)
            (Self.view pass.old) (Self.view pass.new)) }
        ensures at_once { IfOk result (λ _. Got Fast (Self.view pass.old) (Self.view pass.new)) }
        ensures missed { IfErr result (λ word.
            Misses kind true word_at word (Self.view pass.old) (Self.view pass.new)) }
        ensures still { dozes pass.new ≡ dozes pass.old };

    /// Holds alone where that is possible at once. `Err` has the word that says why not.
    fn try_alone<W: Wait>(&self, rt: &W, pass: &mut Self::Pass) -> Result<(), u64>
        requires own { Self.sits self.now pass.old }
        requires numbered { IsSome (Self.view pass.old).hand.task }
        requires out { (Self.view pass.old).hand.held ≡ No }
        ensures on { StepsOn Self.sits Self.view self.now pass.old pass.new }
        ensures queue { GoesOn (spun pass.old) (spun pass.new) }
        ensures took { IfOk result (λ _. Takes O.object (Self.calls_on self.now) Alone
            (Self.view pass.old) (Self.view pass.new)) }
        ensures at_once { IfOk result (λ _. Got Fast (Self.view pass.old) (Self.view pass.new)) }
        ensures missed { IfErr result (λ word.
            Misses kind false word_at word (Self.view pass.old) (Self.view pass.new)) }
        ensures tried { tries_alone (Self.view pass.old) (Self.view pass.new) }
        ensures still { dozes pass.new ≡ dozes pass.old };

    /// Ends a hold that a shared call or a downgrade left.
    fn release_shared<W: Wait, C: Crew>(&self, rt: &W, pass: &mut Self::Pass, crew: &C)
        requires own { Self.sits self.now pass.old }
        requires held { (Self.view pass.old).hand.held ≡ shares kind }
        requires quiet { (Self.view pass.old).hand.writes ≡ false }
        ensures on { StepsOn Self.sits Self.view self.now pass.old pass.new }
        ensures queue { GoesOn (spun pass.old) (spun pass.new) }
        ensures released { Releases (wakes_shared kind) (Self.view pass.old) (Self.view pass.new) }
        ensures left { ends_shared (Self.view pass.old) (Self.view pass.new) }
        ensures still { dozes pass.new ≡ dozes pass.old };

    /// Ends an exclusive hold.
    fn release_alone<W: Wait, C: Crew>(&self, rt: &W, pass: &mut Self::Pass, crew: &C)
        requires own { Self.sits self.now pass.old }
        requires held { (Self.view pass.old).hand.held ≡ Alone }
        requires quiet { (Self.view pass.old).hand.writes ≡ false }
        ensures on { StepsOn Self.sits Self.view self.now pass.old pass.new }
        ensures queue { GoesOn (spun pass.old) (spun pass.new) }
        ensures released { Releases (wakes_alone kind) (Self.view pass.old) (Self.view pass.new) }
        ensures left { ends_alone (Self.view pass.old) (Self.view pass.new) }
        ensures still { dozes pass.new ≡ dozes pass.old };

    /// Makes of an exclusive hold what a shared call leaves, without a moment between.
    fn downgrade<W: Wait, C: Crew>(&self, rt: &W, pass: &mut Self::Pass, crew: &C)
        requires own { Self.sits self.now pass.old }
        requires held { (Self.view pass.old).hand.held ≡ Alone }
        requires quiet { (Self.view pass.old).hand.writes ≡ false }
        ensures on { StepsOn Self.sits Self.view self.now pass.old pass.new }
        ensures queue { GoesOn (spun pass.old) (spun pass.new) }
        ensures downgraded { Downgrades kind (Self.view pass.old) (Self.view pass.new) }
        ensures left { turns_shared (Self.view pass.old) (Self.view pass.new) }
        ensures still { dozes pass.new ≡ dozes pass.old };

    // Laws: which words are unavailable follows from the lock's kind.
    ghost shuts: { (reads : Bool) (word : ℕ) → unavailable kind reads word →
        Self.Rule.unavailable reads word };

    ghost opens: { (reads : Bool) (word : ℕ) → Self.Rule.unavailable reads word →
        unavailable kind reads word };

    // A call of the site leaves the spin queue.
    ghost leaves: { (p : Self.Pass) (w : Seat Self.Rule O Self.Rule.Ext O.Call) →
        spun (Self.with_seat p w) ≡ spun p };

    // It leaves how often the task fell asleep.
    ghost keeps_dozes: { (p : Self.Pass) (w : Seat Self.Rule O Self.Rule.Ext O.Call) →
        dozes (Self.with_seat p w) ≡ dozes p };

    // The plan is one of the object, and entries and records of its calls fit into words.
    ghost planned: { (l : Self) (p : Self.Pass) → Self.sits l p →
        IsPlan O.object (Self.calls_on l) };

    ghost small: { (l : Self) → IsSmall (Self.calls_on l) };

    // What a pass of the lock is.
    ghost stands: { (l : Self) (p : Self.Pass) → Self.sits l p →
        Stands (Self.calls_on l) (Self.view p) };
}

/// A lock whose word is a count, as a semaphore's.
pub trait CountLock<O: Object>: SleepLock<O> {
    ghost counts: { Self.SleepLock.kind ≡ semaphore };
}

/// A lock whose word names the owner, as a mutex's.
pub trait OwnerLock<O: Object>: SleepLock<O> {
    ghost owned: { Self.SleepLock.kind ≡ mutex };
}
