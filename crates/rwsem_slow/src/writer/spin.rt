//! Tries of a writer that stands in no list, and spins.
ghost use Rattle.std.specs.Prelude.{◌≡◌, ◌≢◌, ◌↔◌, ◌+◌, ◌≤◌, true, false, IsSome, IsTrue, IfOk, IfErr};
ghost use Rattle.word_bits.specs.LockWords.{IsLawfulCount};
ghost use Rattle.lock_core.specs.SiteHandles.{plan_of, view_of, past_of, task_in, held_in, SitsAt, StepsAt, SaysSame, MovesOn};
ghost use Rattle.lock_core.specs.Kinds.{semaphore, unavailable};
ghost use Rattle.lock_core.specs.Locking.{OnlyTried, Takes};
ghost use Rattle.lock_core.specs.Pasts.{FoundAt};
ghost use Rattle.osq_nodes.specs.OsqHandles as spinners;
ghost use Rattle.rwsem_count.specs.CountTries.{MissesSince, TakesCount, TakesSince};
ghost use Rattle.rwsem_wake.specs.SemParts.{apart_hand};
ghost use Rattle.rwsem_slow.specs.RwSemOpening.{FindsUnlocked, TakesOpen};
ghost use Rattle.rwsem_wake.specs.RwSemPlaces.{IsOutside, seen_of};
ghost use Rattle.rwsem_wake.specs.RwSemViews.{count_at};
ghost use Rattle.rwsem_slow.specs.RwSems.{biased};
ghost use Rattle.rwsem_slow.specs.Spinning.{IsUnlocked, LookedUnqueued, SawUnqueued, SeesShut, StandsSame, TakenUnqueued};
ghost use Rattle.rwsem_slow.specs.Types.{Spun, No, Alone, Head};

use crate::SemRule;
use atomic_table::Play;
use cpu_task::Cpu;
use crossbeam_utils::Backoff;
use lock_core::view::View;
use lock_core::{Held, Op, Pass, SPIN_ROOM, Site};
use osq_nodes::OsqPass;
use rwsem_count::{WRITER, has_handoff, is_locked};
use rwsem_wake::RwSemHand;
use rwsem_wake::hint::{is_reader_owned, note_writer};
use std::marker::PhantomData;
use std::sync::Wait;
use word_bits::Object;

/// The place of the count among the words of the locks.
const COUNT: usize = SPIN_ROOM;

struct Looks;

impl Play<(), View<RwSemHand>> for Looks {
    ghost then = { LookedUnqueued };
}

struct Exchanges<O> {
    object: PhantomData<O>,
}

impl<O: Object> Play<(), View<RwSemHand>> for Exchanges<O> {
    ghost then = { TakenUnqueued O.object };
}

/// Whether the count has neither a lock bit nor HANDOFF.
fn is_unlocked(count: u64) -> bool
    ensures { IsTrue result ↔ IsUnlocked count }
{
    !is_locked(count) && !has_handoff(count)
}

/// The load of a try. Where the count can't be had, the pass knows so.
fn look<O: Object>(site: &Site<SemRule<O>>, pass: &mut Pass<SemRule<O>>) -> u64
    requires own { SitsAt site.now pass.old }
    requires numbered { IsSome (task_in pass.old) }
    requires out { held_in pass.old ≡ No }
    requires apart { (view_of pass.old).ext.sem ≡ apart_hand }
    ensures on { StepsAt site.now pass.old pass.new }
    ensures face { SaysSame pass.old pass.new }
    ensures saw { SawUnqueued (view_of pass.old) result (view_of pass.new) }
    ensures found { FoundAt count_at result (past_of pass.new) }
{
    site.step::<Looks>(pass, COUNT, Op::Load)
}

/// The exchange of a try. It answers what it found.
fn take<O: Object>(site: &Site<SemRule<O>>, pass: &mut Pass<SemRule<O>>, word: u64) -> u64
    requires own { SitsAt site.now pass.old }
    requires numbered { IsSome (task_in pass.old) }
    requires out { held_in pass.old ≡ No }
    requires apart { (view_of pass.old).ext.sem ≡ apart_hand }
    requires clear { (view_of pass.old).ext.wake.owing ≡ false }
    requires free { IsUnlocked word }
    requires lawful { IsLawfulCount word }
    ensures on { StepsAt site.now pass.old pass.new }
    ensures took { result ≡ word →
        TakesCount biased O.object (plan_of site.now) Alone
        (view_of pass.old) (view_of pass.new) }
    ensures face { result ≢ word → SaysSame pass.old pass.new }
    ensures saw { result ≢ word →
        SawUnqueued (view_of pass.old) result (view_of pass.new) }
    ensures found { FoundAt count_at result (past_of pass.new) }
{
    let found = site.step::<Exchanges<O>>(pass, COUNT, Op::Exchange(word, word + WRITER));
    if found == word {
        pass.set_held(Held::Alone);
    }
    found
}

/// Takes the semaphore alone where its count has neither a lock bit nor HANDOFF: a load, and
/// exchanges of what was seen for a count with a writer, until one is done. `Err` has a count that
/// a step of this call saw, which can't be had. The kernel's `rwsem_try_write_lock_unqueued`.
fn try_unqueued<O: Object, W: Wait>(
    site: &Site<SemRule<O>>,
    rt: &W,
    pass: &mut Pass<SemRule<O>>,
) -> Result<(), u64>
    requires own { SitsAt site.now pass.old }
    requires numbered { IsSome (task_in pass.old) }
    requires out { held_in pass.old ≡ No }
    requires apart { (view_of pass.old).ext.sem ≡ apart_hand }
    requires clear { (view_of pass.old).ext.wake.owing ≡ false }
    ensures on { StepsAt site.now pass.old pass.new }
    ensures took { IfOk result (λ _. TakesSince biased O.object (plan_of site.now) Alone
        (view_of pass.old) (view_of pass.new)) }
    ensures face { IfErr result (λ _. SaysSame pass.old pass.new) }
    ensures missed { IfErr result (λ word.
        MissesSince (view_of pass.old) word (view_of pass.new)) }
    ensures shut { IfErr result (λ word. unavailable semaphore false word) }
    ensures found { IfErr result (λ word. FoundAt count_at word (past_of pass.new)) }
    ensures opened { IfOk result (λ _. FindsUnlocked (past_of pass.new)) }
{
    let mut word = look(site, pass);
    for _ in rt.forever() {
        if !is_unlocked(word) {
            return Err(word);
        }
        // Tasks may wait, and a waker may have woken the first: it finds the count taken then, and
        // sleeps again. Where it has asked for the handoff, HANDOFF keeps this writer out.
        let found = take(site, pass, word);
        if found == word {
            return Ok(());
        }
        word = found;
    }
    unreachable!()
}

/// Such a try, as callers of any lock see it.
fn try_outside<O: Object, W: Wait>(
    site: &Site<SemRule<O>>,
    rt: &W,
    pass: &mut Pass<SemRule<O>>,
) -> bool
    requires own { SitsAt site.now pass.old }
    requires numbered { IsSome (task_in pass.old) }
    requires out { held_in pass.old ≡ No }
    requires outside { IsOutside (view_of pass.old) }
    ensures on { MovesOn site.now pass.old pass.new }
    ensures outside { IsOutside (view_of pass.new) }
    ensures same { StandsSame (view_of pass.old) (view_of pass.new) }
    ensures took { result ≡ true →
        Takes O.object (plan_of site.now) Alone (seen_of pass.old) (seen_of pass.new) }
    ensures opened { result ≡ true → TakesOpen Spun (seen_of pass.old) (seen_of pass.new) }
    ensures missed { result ≡ false → OnlyTried (seen_of pass.old) (seen_of pass.new) }
    ensures saw { result ≡ false → SeesShut (seen_of pass.old) (seen_of pass.new) }
    ensures out { result ≡ false → held_in pass.new ≡ No }
{
    match try_unqueued(site, rt, pass) {
        Ok(()) => true,
        Err(_) => false,
    }
}

/// Tries until one takes, readers hold by the owner hint, or the CPU needs rescheduling. The pass
/// is to be the head of the spin queue until it returns: one spinner at a time tries. The kernel's
/// `rwsem_optimistic_spin`.
pub fn spin<O: Object, W: Wait, C: Cpu>(
    site: &Site<SemRule<O>>,
    rt: &W,
    pass: &mut Pass<SemRule<O>>,
    queue: &OsqPass,
    cpu: &mut C,
) -> bool
    requires own { SitsAt site.now pass.old }
    requires front { spinners.place_in queue.now ≡ Head }
    requires its_own { spinners.task_in queue.now ≡ task_in pass.old }
    requires numbered { IsSome (task_in pass.old) }
    requires out { held_in pass.old ≡ No }
    requires outside { IsOutside (view_of pass.old) }
    ensures on { MovesOn site.now pass.old pass.new }
    ensures outside { IsOutside (view_of pass.new) }
    ensures same { StandsSame (view_of pass.old) (view_of pass.new) }
    ensures took { result ≡ true →
        Takes O.object (plan_of site.now) Alone (seen_of pass.old) (seen_of pass.new) }
    ensures opened { result ≡ true → TakesOpen Spun (seen_of pass.old) (seen_of pass.new) }
    ensures missed { result ≡ false → OnlyTried (seen_of pass.old) (seen_of pass.new) }
    ensures saw { result ≡ false → SeesShut (seen_of pass.old) (seen_of pass.new) }
    ensures out { result ≡ false → held_in pass.new ≡ No }
    ensures sleeps { C.sleeps cpu.new ≡ C.sleeps cpu.old }
    ensures rescheds { C.rescheds cpu.old ≤ C.rescheds cpu.new }
{
    let backoff = Backoff::new();
    for _ in rt.forever() {
        if try_outside(site, rt, pass) {
            // Before it leaves the spin queue: a writer that becomes the head then sees that one
            // holds, and spins on.
            note_writer(site, pass);
            return true;
        }
        // Nobody can say how long readers hold: the writer waits for them in the list, where the
        // last of them wakes it.
        if is_reader_owned(site, pass) {
            return false;
        }
        if cpu.need_resched() {
            return false;
        }
        backoff.snooze();
    }
    unreachable!()
}
