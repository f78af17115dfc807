//! The tries of a queued writer, under the wait lock.
ghost use Rattle.std.specs.Prelude.{◌≡◌, ◌≢◌, ◌↔◌, ◌<◌, ◌≤◌, ◌+◌, ℕ, true, false, IsSome, IsTrue, Some, length};
ghost use Rattle.word_bits.specs.LockWords.{IsLawfulCount};
ghost use Rattle.lock_core.specs.SiteHandles.{plan_of, view_of, task_in, held_in, SitsAt, KeepsPast, SaysSame, MovesOn};
ghost use Rattle.lock_core.specs.Views.{SpinHolds};
ghost use Rattle.wait_list.specs.Lists.{first_code, first_of};
ghost use Rattle.rwsem_count.specs.CountWordSteps.{HasHandoff, IsLocked};
ghost use Rattle.rwsem_wake.specs.GrantQueues.{MayTake};
ghost use Rattle.rwsem_wake.specs.RwSemViews.{list_of, sem_of};
ghost use Rattle.rwsem_slow.specs.RwSems.{wait_state_of};
ghost use Rattle.rwsem_wake.specs.Removals.{KnowsList};
ghost use Rattle.rwsem_slow.specs.RwSemOpening.{TakesOpen};
ghost use Rattle.rwsem_wake.specs.RwSemPlaces.{seen_of};
ghost use Rattle.wake_duty.specs.WakeSteps.{HasTried};
ghost use Rattle.rwsem_slow.specs.Queued.{Becomes, HasTaken, HasTriedAt, IsInLine, IsListed, IsTrying, KeepsWaiting, KnowsMark, Rests, Stays, TookInLine, Tries, waiting};
ghost use Rattle.rwsem_slow.specs.Types.{Slept, No, Writes, Took};

use crate::SemRule;
use cpu_task::Cpu;
use lock_core::{Pass, Site};
use rwsem_count::{Write, has_handoff, is_locked, write_step};
use rwsem_wake::queueing;
use std::sync::Wait;
use wait_list::{Waiter, list};
use word_bits::Object;

/// Whether a writer that isn't the first waiter could take this count, but for a mark of the first:
/// nobody holds, and a handoff is asked for.
fn depends_on_mark(count: u64) -> bool
    ensures { IsTrue result ↔ ((IsLocked count → ⊥) × HasHandoff count) }
{
    !is_locked(count) && has_handoff(count)
}

/// What an exchange of a queued writer came to.
#[derive(Clone, Copy, Debug, PartialEq, Eq)]
enum Attempt {
    /// The writer holds.
    Took,
    /// The count can't be had.
    Failed,
    /// Others changed the count, to this one, since the look.
    Again(u64),
}

/// Asks for a handoff, and marks the first waiter.
fn ask<O: Object>(
    site: &Site<SemRule<O>>,
    pass: &mut Pass<SemRule<O>>,
    first: u32,
    old: u64,
    new: u64,
) -> Attempt
    requires own { SitsAt site.now pass.old }
    requires numbered { IsSome (task_in pass.old) }
    requires locked { SpinHolds (view_of pass.old).spin }
    requires queued { (view_of pass.old).ext.sem ≡ waiting Writes }
    requires list { KnowsList (view_of pass.old) }
    requires first { first_code (view_of pass.old).ext.list.list ≡ first + 1 }
    requires task { first < length (plan_of site.now) }
    requires unasked { HasHandoff old → ⊥ }
    requires asks { new ≡ old + 4 }
    requires listed { IsListed (view_of pass.old).ext.wake }
    requires tried { HasTried wait_state_of (view_of pass.old) }
    ensures on { MovesOn site.now pass.old pass.new }
    ensures face { SaysSame pass.old pass.new }
    ensures missed { Tries (view_of pass.old) (view_of pass.new) }
    ensures untaken { result ≢ Attempt.Took }
    ensures tried { HasTried wait_state_of (view_of pass.new) }
    ensures again { (word : ℕ) → result ≡ Attempt.Again word → IsLawfulCount word }
{
    let found = queueing::ask(site, pass, old, new);
    if found != old {
        return Attempt::Again(found);
    }
    // The mark follows HANDOFF under the same hold of the wait lock: with the flag and no mark, any
    // writer of the list would take.
    queueing::mark_asked(site, pass, first);
    Attempt::Failed
}

/// Takes the semaphore.
fn take<O: Object>(
    site: &Site<SemRule<O>>,
    pass: &mut Pass<SemRule<O>>,
    me: u32,
    alone: bool,
    old: u64,
    new: u64,
) -> Attempt
    requires own { SitsAt site.now pass.old }
    requires mine { task_in pass.old ≡ Some me }
    requires out { held_in pass.old ≡ No }
    requires locked { SpinHolds (view_of pass.old).spin }
    requires list { KnowsList (view_of pass.old) }
    requires queued { IsTrying (view_of pass.old).ext.sem }
    requires listed { IsListed (view_of pass.old).ext.wake }
    requires may { MayTake list_of sem_of (view_of pass.old) me alone old new }
    ensures on { MovesOn site.now pass.old pass.new }
    ensures took { result ≡ Attempt.Took →
        HasTaken O.object (plan_of site.now) (view_of pass.old) (view_of pass.new) }
    ensures opened { result ≡ Attempt.Took →
        TakesOpen Slept (seen_of pass.old) (seen_of pass.new) }
    ensures face { result ≢ Attempt.Took → SaysSame pass.old pass.new }
    ensures missed { result ≢ Attempt.Took → Rests (view_of pass.old) (view_of pass.new) }
    ensures again { (word : ℕ) → result ≡ Attempt.Again word →
        (IsLawfulCount word × HasTriedAt word (view_of pass.new)) }
    ensures untired { result ≢ Attempt.Failed }
{
    let found = queueing::take(site, pass, me, alone, old, new);
    if found == old {
        Attempt::Took
    } else {
        Attempt::Again(found)
    }
}

/// Where a queued writer stands while it has the wait lock, and the count that it saw.
#[derive(Clone, Copy, Debug, PartialEq, Eq)]
struct Standing {
    me: u32,
    first: u32,
    alone: bool,
    count: u64,
}

/// Whether the first waiter, which this is, is alone in the list.
fn is_alone<O: Object>(site: &Site<SemRule<O>>, pass: &mut Pass<SemRule<O>>, first: Waiter) -> bool
    requires own { SitsAt site.now pass.old }
    requires locked { SpinHolds (view_of pass.old).spin }
    requires list { KnowsList (view_of pass.old) }
    requires first { Some first ≡ first_of (view_of pass.old).ext.list.list }
    requires task { first.task < length (plan_of site.now) }
    ensures on { MovesOn site.now pass.old pass.new }
    ensures face { SaysSame pass.old pass.new }
    ensures kept { Stays (view_of pass.old) (view_of pass.new) }
    ensures only { (result ≡ true) ↔ (length (view_of pass.old).ext.list.list ≡ 1) }
{
    match list::next(site, pass, first.task) {
        None => true,
        Some(_) => false,
    }
}

/// Looks who is first in the list, whether it is alone there, and at the count.
fn stand<O: Object>(site: &Site<SemRule<O>>, pass: &mut Pass<SemRule<O>>) -> Standing
    requires own { SitsAt site.now pass.old }
    requires numbered { IsSome (task_in pass.old) }
    requires locked { SpinHolds (view_of pass.old).spin }
    requires listed { IsInLine Writes (view_of pass.old) }
    ensures own { SitsAt site.now pass.new }
    ensures goes_on { KeepsPast pass.old pass.new }
    ensures face { SaysSame pass.old pass.new }
    ensures kept { Becomes (view_of pass.old) 0 (waiting Writes)
        (view_of pass.new).ext.wake (view_of pass.new) }
    ensures waits { KeepsWaiting (view_of pass.old).ext.wake (view_of pass.new).ext.wake }
    ensures mine { task_in pass.old ≡ Some result.me }
    ensures task { result.first < length (plan_of site.now) }
    ensures first { first_code (view_of pass.new).ext.list.list ≡ result.first + 1 }
    ensures only { (result.alone ≡ true) ↔ (length (view_of pass.new).ext.list.list ≡ 1) }
    ensures lawful { IsLawfulCount result.count }
    ensures tried { HasTriedAt result.count (view_of pass.new) }
{
    let Some(me) = pass.task() else {
        unreachable!()
    };
    let first = list::first(site, pass);
    let count = queueing::look_listed(site, pass);
    // It stands in the list itself.
    let Some(first) = first else { unreachable!() };
    let alone = is_alone(site, pass, first);
    Standing {
        me,
        first: first.task,
        alone,
        count,
    }
}

/// Whether the first waiter is marked, where the answer to this count depends on that.
fn sees_mark<O: Object>(
    site: &Site<SemRule<O>>,
    pass: &mut Pass<SemRule<O>>,
    standing: Standing,
    count: u64,
) -> bool
    requires own { SitsAt site.now pass.old }
    requires mine { task_in pass.old ≡ Some standing.me }
    requires locked { SpinHolds (view_of pass.old).spin }
    requires queued { (view_of pass.old).ext.sem ≡ waiting Writes }
    requires list { KnowsList (view_of pass.old) }
    requires first { first_code (view_of pass.old).ext.list.list ≡ standing.first + 1 }
    requires task { standing.first < length (plan_of site.now) }
    requires listed { IsListed (view_of pass.old).ext.wake }
    ensures on { MovesOn site.now pass.old pass.new }
    ensures face { SaysSame pass.old pass.new }
    ensures knows { KnowsMark standing.me standing.first count result
        (view_of pass.old) (view_of pass.new) }
{
    if standing.me == standing.first || !depends_on_mark(count) {
        return false;
    }
    queueing::look_first(site, pass, standing.first) != 0
}

/// Answers a count that was seen by the exchange that it admits.
fn exchange<O: Object>(
    site: &Site<SemRule<O>>,
    pass: &mut Pass<SemRule<O>>,
    standing: Standing,
    overdue: bool,
    count: u64,
) -> Attempt
    requires own { SitsAt site.now pass.old }
    requires mine { task_in pass.old ≡ Some standing.me }
    requires out { held_in pass.old ≡ No }
    requires locked { SpinHolds (view_of pass.old).spin }
    requires queued { (view_of pass.old).ext.sem ≡ waiting Writes }
    requires list { KnowsList (view_of pass.old) }
    requires first { first_code (view_of pass.old).ext.list.list ≡ standing.first + 1 }
    requires task { standing.first < length (plan_of site.now) }
    requires only { (standing.alone ≡ true) ↔ (length (view_of pass.old).ext.list.list ≡ 1) }
    requires lawful { IsLawfulCount count }
    requires listed { IsListed (view_of pass.old).ext.wake }
    requires tried { HasTriedAt count (view_of pass.old) }
    ensures on { MovesOn site.now pass.old pass.new }
    ensures took { result ≡ Attempt.Took →
        HasTaken O.object (plan_of site.now) (view_of pass.old) (view_of pass.new) }
    ensures opened { result ≡ Attempt.Took →
        TakesOpen Slept (seen_of pass.old) (seen_of pass.new) }
    ensures face { result ≢ Attempt.Took → SaysSame pass.old pass.new }
    ensures missed { result ≢ Attempt.Took → Tries (view_of pass.old) (view_of pass.new) }
    ensures tried { result ≡ Attempt.Failed → HasTried wait_state_of (view_of pass.new) }
    ensures again { (word : ℕ) → result ≡ Attempt.Again word →
        (IsLawfulCount word × HasTriedAt word (view_of pass.new)) }
{
    let me_first = standing.me == standing.first;
    let marked = sees_mark(site, pass, standing, count);
    match write_step(count, me_first, marked, standing.alone, overdue) {
        Write::Fail => Attempt::Failed,
        Write::Mark(new) => ask(site, pass, standing.first, count, new),
        Write::Take(new) => take(site, pass, standing.me, standing.alone, count, new),
    }
}

/// Answers the count that was seen by exchanges, until one is done or the count can't be had.
fn try_standing<O: Object, W: Wait>(
    site: &Site<SemRule<O>>,
    rt: &W,
    pass: &mut Pass<SemRule<O>>,
    standing: Standing,
    overdue: bool,
) -> bool
    requires own { SitsAt site.now pass.old }
    requires mine { task_in pass.old ≡ Some standing.me }
    requires out { held_in pass.old ≡ No }
    requires locked { SpinHolds (view_of pass.old).spin }
    requires queued { (view_of pass.old).ext.sem ≡ waiting Writes }
    requires list { KnowsList (view_of pass.old) }
    requires first { first_code (view_of pass.old).ext.list.list ≡ standing.first + 1 }
    requires task { standing.first < length (plan_of site.now) }
    requires only { (standing.alone ≡ true) ↔ (length (view_of pass.old).ext.list.list ≡ 1) }
    requires lawful { IsLawfulCount standing.count }
    requires listed { IsListed (view_of pass.old).ext.wake }
    requires tried { HasTriedAt standing.count (view_of pass.old) }
    ensures on { MovesOn site.now pass.old pass.new }
    ensures took { result ≡ true →
        HasTaken O.object (plan_of site.now) (view_of pass.old) (view_of pass.new) }
    ensures opened { result ≡ true → TakesOpen Slept (seen_of pass.old) (seen_of pass.new) }
    ensures face { result ≡ false → SaysSame pass.old pass.new }
    ensures missed { result ≡ false → Tries (view_of pass.old) (view_of pass.new) }
    ensures tried { result ≡ false → HasTried wait_state_of (view_of pass.new) }
{
    let mut count = standing.count;
    for _ in rt.forever() {
        match exchange(site, pass, standing, overdue, count) {
            Attempt::Took => return true,
            Attempt::Failed => return false,
            Attempt::Again(found) => count = found,
        }
    }
    unreachable!()
}

/// A try of a queued writer, under the wait lock. The kernel's `rwsem_try_write_lock`.
pub fn try_queued<O: Object, W: Wait, C: Cpu>(
    site: &Site<SemRule<O>>,
    rt: &W,
    pass: &mut Pass<SemRule<O>>,
    cpu: &mut C,
) -> bool
    requires own { SitsAt site.now pass.old }
    requires numbered { IsSome (task_in pass.old) }
    requires out { held_in pass.old ≡ No }
    requires locked { SpinHolds (view_of pass.old).spin }
    requires listed { IsInLine Writes (view_of pass.old) }
    ensures own { SitsAt site.now pass.new }
    ensures goes_on { KeepsPast pass.old pass.new }
    ensures task { task_in pass.new ≡ task_in pass.old }
    ensures took { result ≡ true →
        TookInLine O.object (plan_of site.now) (view_of pass.old) (view_of pass.new) }
    ensures opened { result ≡ true → TakesOpen Slept (seen_of pass.old) (seen_of pass.new) }
    ensures face { result ≡ false → SaysSame pass.old pass.new }
    ensures locked { SpinHolds (view_of pass.new).spin }
    ensures missed { result ≡ false → Becomes (view_of pass.old) 0 (waiting Writes)
        (view_of pass.new).ext.wake (view_of pass.new) }
    ensures waits { KeepsWaiting (view_of pass.old).ext.wake (view_of pass.new).ext.wake }
    ensures tried { result ≡ false → HasTried wait_state_of (view_of pass.new) }
    ensures entries { (view_of pass.new).spin.entries ≡ (view_of pass.old).spin.entries }
    ensures sleeps { C.sleeps cpu.new ≡ C.sleeps cpu.old }
    ensures rescheds { C.rescheds cpu.new ≡ C.rescheds cpu.old }
{
    let standing = stand(site, pass);
    let overdue = cpu.overdue();
    try_standing(site, rt, pass, standing, overdue)
}
