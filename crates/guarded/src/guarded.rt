//! An object under its lock.
ghost use Rattle.std.specs.Prelude.{◌≡◌, ◌<◌, [], ◌∷◌, length, None, Some, IsSome, IfOk};
ghost use Rattle.guarded.specs.Types.{No};
ghost use Rattle.lock_core.specs.Records.{row, IsPlan};
ghost use Rattle.lock_core.specs.Views.{gave_up, gathered};
ghost use Rattle.lock_core.specs.SitePasses.{Numbered};
ghost use Rattle.lock_core.specs.Pasts.{EachMoment, GoesOn, Paced, Tail};
ghost use Rattle.lock_core.specs.SiteStated.{IsNew};
ghost use Rattle.lock_core.specs.Kinds.{unavailable};
ghost use Rattle.lock_core.specs.Shown.{AllButHand, IsLatestStep, shown_new, shown_split, StepsOn};
ghost use Rattle.lock_core.specs.Locking.{Looks, Has};
ghost use Rattle.lock_core.specs.Locked.{IsLockedThen, IsSiteStep};
ghost use Rattle.lock_core.specs.Linear.{IsLinearizable};

use crate::served::Served;
use lock_core::Plan;
use sleep_lock::SleepLock;
use std::alloc::{AllocError, Global};
use std::marker::PhantomData;
use std::sync::Wait;
use word_bits::Object;

/// One object under its lock. Contracts see the lock (`lock_of`).
#[derive(Drop)]
pub struct Guarded<L: SleepLock<O>, O: Served> {
    pub(crate) lock: L,
    /// The number by which gates know the object.
    pub(crate) object: u32,
    kind: PhantomData<O>,
}

impl<L: SleepLock<O>, O: Served + Drop> Guarded<L, O> {
    ghost use Rattle.guarded.specs.GuardedHandles.{lock_of};
    ghost use Rattle.guarded.specs.Gathering.{KeepsDone};

    /// A new object under a lock that nobody holds: its state is empty, and no call is logged or
    /// recorded. The pass has no task number. Gates know the object by the number given.
    pub fn open(
        alloc: Global,
        object: u32,
        plan: Plan,
    ) -> Result<(Guarded<L, O>, L::Pass), AllocError>
        requires { IsPlan O.object plan }
        ensures own { IfOk result (λ t. L.sits (lock_of t.0) t.1) }
        ensures plan { IfOk result (λ t. L.calls_on (lock_of t.0) ≡ plan) }
        ensures new { IfOk result (λ _. IsNew O.object O.WORDS plan (L.opened plan)) }
        ensures view { IfOk result (λ t.
            L.view t.1 ≡ shown_new (Some plan) [] (L.opened plan ∷ [])) }
        ensures unspun { IfOk result (λ t. L.spun t.1 ≡ L.opened_queue plan) }
    {
        let (lock, pass) = L::open(alloc, plan)?;
        let guarded = Guarded {
            lock,
            object,
            kind: PhantomData,
        };
        Ok((guarded, pass))
    }

    /// A pass without a task number, which has seen as many entries.
    pub fn split(&self, pass: &mut L::Pass) -> L::Pass
        requires own { L.sits (lock_of self.now) pass.old }
        ensures on { StepsOn L.sits L.view (lock_of self.now) pass.old pass.new }
        ensures queue { GoesOn (L.spun pass.old) (L.spun pass.new) }
        ensures its_own { L.sits (lock_of self.now) result }
        ensures kept { Looks (L.view pass.old) (L.view pass.new) }
        ensures given { L.view result ≡ shown_split (L.view pass.old) }
        ensures its_queue { L.spun result ≡ L.spun pass.old }
    {
        self.lock.split(pass)
    }

    /// Waits until nobody has the task's number, and takes it with the task's records. What the
    /// pass saw of the lock is forgotten, and it has seen as many entries as the task.
    pub fn begin<W: Wait>(&self, rt: &W, pass: &mut L::Pass, task: u32)
        requires own { L.sits (lock_of self.now) pass.old }
        requires numberless { (L.view pass.old).hand.task ≡ None }
        requires there { task < length (L.calls_on (lock_of self.now)) }
        ensures on { StepsOn L.sits L.view (lock_of self.now) pass.old pass.new }
        ensures queue { GoesOn (L.spun pass.old) (L.spun pass.new) }
        ensures became { Numbered O.object (unavailable L.kind) (L.calls_on (lock_of self.now))
            (L.view pass.old).hand task (L.view pass.new).hand }
        ensures beside { AllButHand (L.view pass.old) (L.view pass.new) }
        ensures done { KeepsDone O.object (unavailable L.kind) (L.calls_on (lock_of self.now))
            (L.view pass.old).hand (L.view pass.new).hand }
        ensures fresh { (L.view pass.old).hand.seen ≡ [] → (L.view pass.new).hand.done ≡ 0 →
            length (L.view pass.new).hand.seen ≡ 0 }
    {
        self.lock.begin(rt, pass, task);
    }

    /// Gives the pass's number back.
    pub fn end(&self, pass: &mut L::Pass)
        requires own { L.sits (lock_of self.now) pass.old }
        requires numbered { IsSome (L.view pass.old).hand.task }
        requires out { (L.view pass.old).hand.held ≡ No }
        requires sent { (L.view pass.old).hand.sent ≡ None }
        requires consumed { (L.view pass.old).hand.consumed ≡ 0 }
        ensures on { StepsOn L.sits L.view (lock_of self.now) pass.old pass.new }
        ensures queue { GoesOn (L.spun pass.old) (L.spun pass.new) }
        ensures kept { Has (gave_up (L.view pass.old).hand) (L.view pass.old) (L.view pass.new) }
        ensures done { KeepsDone O.object (unavailable L.kind) (L.calls_on (lock_of self.now))
            (L.view pass.old).hand (L.view pass.new).hand }
    {
        self.lock.end(pass);
    }

    /// Takes in another pass, which is spent: `into` then knows the records that `other` knew, and
    /// has seen as many entries as either. Of the object's table and of the lock's spin queue it goes
    /// back to all that either did.
    pub fn gather(&self, into: &mut L::Pass, other: L::Pass)
        requires own { L.sits (lock_of self.now) into.old × L.sits (lock_of self.now) other }
        requires out { (L.view into.old).hand.held ≡ No }
        requires numberless { (L.view other).hand.task ≡ None }
        ensures on { StepsOn L.sits L.view (lock_of self.now) into.old into.new }
        ensures kept { Has (gathered (L.view into.old).hand (L.view other).hand)
            (L.view into.old) (L.view into.new) }
        ensures done { KeepsDone O.object (unavailable L.kind) (L.calls_on (lock_of self.now))
            (L.view into.old).hand (L.view into.new).hand }
        ensures done_by_other { KeepsDone O.object (unavailable L.kind)
            (L.calls_on (lock_of self.now)) (L.view other).hand (L.view into.new).hand }
        ensures queue { GoesOn (L.spun into.old) (L.spun into.new) }
        ensures others_queue { GoesOn (L.spun other) (L.spun into.new) }
        ensures others_past { GoesOn (L.view other).past (L.view into.new).past }
    {
        self.lock.gather(into, other);
    }

    /// Loads, after which the pass knows what was so of the object's table at each moment so far,
    /// from the new table on: the facts of every site, that the lock's word stated who held and
    /// whether tasks waited, that each step did to the site's words what every step does, and that
    /// each call took effect at the step that stored its record; and what the lock tells of its own.
    pub fn recall(&self, pass: &mut L::Pass)
        requires own { L.sits (lock_of self.now) pass.old }
        ensures on { StepsOn L.sits L.view (lock_of self.now) pass.old pass.new }
        ensures queue { GoesOn (L.spun pass.old) (L.spun pass.new) }
        ensures kept { Looks (L.view pass.old) (L.view pass.new) }
        ensures last { IsLatestStep (L.view pass.new) }
        ensures new { IsNew O.object O.WORDS (L.calls_on (lock_of self.now))
            (L.opened (L.calls_on (lock_of self.now))) }
        ensures begins { Tail (L.opened (L.calls_on (lock_of self.now)) ∷ [])
            (L.view pass.new).past }
        ensures always { EachMoment (IsLockedThen O.object L.kind O.WORDS
            (L.calls_on (lock_of self.now)) L.word_at L.waits) (L.view pass.new).past }
        ensures moves { Paced (IsSiteStep (L.calls_on (lock_of self.now)) L.word_at)
            (L.view pass.new).past }
        ensures linear { IsLinearizable O.object O.WORDS (L.calls_on (lock_of self.now))
            (L.view pass.new).past }
        ensures told { L.tells (L.calls_on (lock_of self.now)) (L.view pass.new) }
    {
        self.lock.recall(pass);
    }

    /// Loads a word of the lock's spin queue, if it has one, after which the pass knows of each
    /// moment of the queue so far, from the empty one on, what the lock tells of it.
    pub fn recall_queue(&self, pass: &mut L::Pass)
        requires own { L.sits (lock_of self.now) pass.old }
        ensures own { L.sits (lock_of self.now) pass.new }
        ensures queue { GoesOn (L.spun pass.old) (L.spun pass.new) }
        ensures kept { L.view pass.new ≡ L.view pass.old }
        ensures told { L.tells_queue (L.calls_on (lock_of self.now)) (L.view pass.new)
            (L.spun pass.new) }
    {
        self.lock.recall_queue(pass);
    }

    /// How many tasks the plan has.
    pub fn tasks(&self) -> u32
        ensures { result ≡ length (L.calls_on (lock_of self.now)) }
    {
        self.lock.tasks()
    }

    /// How many calls a task has.
    pub fn calls(&self, task: u32) -> u32
        requires { task < length (L.calls_on (lock_of self.now)) }
        ensures { result ≡ length (row (L.calls_on (lock_of self.now)) task) }
    {
        self.lock.calls(task)
    }

    /// How many of its task's calls are recorded.
    pub fn done(&self, pass: &L::Pass) -> u32
        requires { L.sits (lock_of self.now) pass.now }
        ensures { result ≡ (L.view pass.now).hand.done }
    {
        self.lock.done(pass)
    }
}
