//! How a queued reader sleeps, and hears that it is granted.
ghost use Rattle.std.specs.Prelude.{◌≡◌, ◌≤◌, ◌+◌, true, false, IsSome, IfErr, IfOk};
ghost use Rattle.lock_core.specs.SiteHandles.{plan_of, view_of, task_in, held_in, SitsAt, KeepsPast, SaysSame, hand_in, MovesOn};
ghost use Rattle.lock_core.specs.Views.{SpinHolds, SpinRests};
ghost use Rattle.wake_duty.specs.WakeSteps.{HasTried};
ghost use Rattle.rwsem_slow.specs.RwSems.{wait_state_of};
ghost use Rattle.rwsem_slow.specs.Queued.{IsInLine, Shares, Tries, KeepsLine};
ghost use Rattle.rwsem_slow.specs.Leaving.{SeesUngranted};
ghost use Rattle.lock_core.specs.Locking.{SawPending, Takes};
ghost use Rattle.lock_core.specs.Signals.{HasHeard, OnlyConsumed};
ghost use Rattle.cpu_task.specs.CpuCounting.{Dozes};
ghost use Rattle.rwsem_slow.specs.SleepCounting.{SleepsBetween};
ghost use Rattle.rwsem_slow.specs.Types.{No, Shared, Reads};
ghost use Rattle.rwsem_wake.specs.RwSemPlaces.{AreCounts, IsOutside, dozes_of, seen_of};

use crate::SemRule;
use crate::leave::interrupt;
use crate::sleep::{doze, pending};
use cpu_task::{Cpu, Crew};
use lock_core::{Interrupted, Pass, Site};
use rwsem_wake::{WakeCounts, queueing};
use std::sync::Wait;
use word_bits::Object;

/// Loads the own grant word. Answers whether the reader holds.
fn hear<O: Object>(site: &Site<SemRule<O>>, pass: &mut Pass<SemRule<O>>) -> bool
    requires own { SitsAt site.now pass.old }
    requires numbered { IsSome (task_in pass.old) }
    requires out { held_in pass.old ≡ No }
    requires listed { IsInLine Reads (view_of pass.old) }
    ensures own { SitsAt site.now pass.new }
    ensures goes_on { KeepsPast pass.old pass.new }
    ensures task { task_in pass.new ≡ task_in pass.old }
    ensures took { result ≡ true →
        Shares O.object (plan_of site.now) (view_of pass.old) (view_of pass.new) }
    ensures spin { (view_of pass.new).spin ≡ (view_of pass.old).spin }
    ensures face { result ≡ false → SaysSame pass.old pass.new }
    ensures later { (view_of pass.new).steps ≡ (view_of pass.old).steps + 1 }
    ensures missed { result ≡ false → Tries (view_of pass.old) (view_of pass.new) }
    ensures tried { result ≡ false → HasTried wait_state_of (view_of pass.new) }
{
    let Some(task) = pass.task() else {
        unreachable!()
    };
    queueing::hear(site, pass, task) == 0
}

/// The same under the wait lock, which keeps wakers away: where the reader doesn't hold, it isn't
/// granted until it releases that.
fn hear_locked<O: Object>(site: &Site<SemRule<O>>, pass: &mut Pass<SemRule<O>>) -> bool
    requires own { SitsAt site.now pass.old }
    requires numbered { IsSome (task_in pass.old) }
    requires out { held_in pass.old ≡ No }
    requires locked { SpinHolds (view_of pass.old).spin }
    requires listed { IsInLine Reads (view_of pass.old) }
    ensures on { MovesOn site.now pass.old pass.new }
    ensures took { result ≡ true →
        Shares O.object (plan_of site.now) (view_of pass.old) (view_of pass.new) }
    ensures spin { (view_of pass.new).spin ≡ (view_of pass.old).spin }
    ensures face { result ≡ false → SaysSame pass.old pass.new }
    ensures missed { result ≡ false → SeesUngranted (view_of pass.old) (view_of pass.new) }
{
    let Some(task) = pass.task() else {
        unreachable!()
    };
    queueing::hear_locked(site, pass, task) == 0
}

/// Leaves the list for a signal that is pending, unless the reader is granted meanwhile: then it
/// holds, and the signal stays. Answers whether it left.
fn quit<O: Object, W: Wait, C: Cpu, K: Crew>(
    site: &Site<SemRule<O>>,
    rt: &W,
    pass: &mut Pass<SemRule<O>>,
    cpu: &mut C,
    crew: &K,
    counts: &mut WakeCounts,
    why: Interrupted,
) -> bool
    requires own { SitsAt site.now pass.old }
    requires numbered { IsSome (task_in pass.old) }
    requires out { held_in pass.old ≡ No }
    requires unspun { SpinRests (view_of pass.old).spin }
    requires listed { IsInLine Reads (view_of pass.old) }
    requires heard { HasHeard why (hand_in pass.old) }
    requires counted { AreCounts counts.old (view_of pass.old) }
    ensures on { MovesOn site.now pass.old pass.new }
    ensures unspun { SpinRests (view_of pass.new).spin }
    ensures outside { IsOutside (view_of pass.new) }
    ensures line { KeepsLine (view_of pass.old) (view_of pass.new) }
    ensures took { result ≡ false →
        Shares O.object (plan_of site.now) (view_of pass.old) (view_of pass.new) }
    ensures consumed { result ≡ true → OnlyConsumed (view_of pass.old) (view_of pass.new) }
    ensures sleeps { C.sleeps cpu.new ≡ C.sleeps cpu.old }
    ensures rescheds { C.rescheds cpu.new ≡ C.rescheds cpu.old }
    ensures counted { AreCounts counts.new (view_of pass.new) }
    ensures dozes { dozes_of (view_of pass.new) ≡ dozes_of (view_of pass.old) }
{
    qspin_queue::lock(site, rt, pass);
    // The batch of a waker that came first has the reader's bias in the count: who left then would
    // leave the bias there for ever.
    if hear_locked(site, pass) {
        qspin_word::unlock(site, pass);
        return false;
    }
    interrupt(site, pass, cpu, crew, counts, why);
    true
}

/// Sleeps until a waker has granted the reader, or, where it is interruptible, until a signal is
/// pending.
pub fn wait<O: Object, W: Wait, C: Cpu, K: Crew>(
    site: &Site<SemRule<O>>,
    rt: &W,
    pass: &mut Pass<SemRule<O>>,
    cpu: &mut C,
    crew: &K,
    counts: &mut WakeCounts,
    interruptible: bool,
) -> Result<(), Interrupted>
    requires own { SitsAt site.now pass.old }
    requires numbered { IsSome (task_in pass.old) }
    requires out { held_in pass.old ≡ No }
    requires unspun { SpinRests (view_of pass.old).spin }
    requires listed { IsInLine Reads (view_of pass.old) }
    requires counted { AreCounts counts.old (view_of pass.old) }
    ensures on { MovesOn site.now pass.old pass.new }
    ensures unspun { SpinRests (view_of pass.new).spin }
    ensures outside { IsOutside (view_of pass.new) }
    ensures line { KeepsLine (view_of pass.old) (view_of pass.new) }
    ensures misses { (hand_in pass.new).misses ≡ (hand_in pass.old).misses }
    ensures took { IfOk result (λ _. Takes O.object (plan_of site.now) Shared
        (seen_of pass.old) (seen_of pass.new)) }
    ensures consumed { IfErr result (λ _.
        OnlyConsumed (view_of pass.old) (view_of pass.new)) }
    ensures pending { IfErr result (λ why.
        SawPending why (seen_of pass.old) (seen_of pass.new)) }
    ensures asked { IfErr result (λ _. interruptible ≡ true) }
    ensures counted { AreCounts counts.new (view_of pass.new) }
    ensures dozed { Dozes (C.sleeps cpu.old) (C.sleeps cpu.new)
        (dozes_of (view_of pass.old)) (dozes_of (view_of pass.new)) }
    ensures sleeps { SleepsBetween (view_of pass.old).steps (view_of pass.new).steps
        (C.sleeps cpu.old) (C.sleeps cpu.new) }
    ensures rescheds { C.rescheds cpu.new ≡ C.rescheds cpu.old }
{
    for _ in rt.forever() {
        // A wake comes once: the load before each sleep sees a grant that came before it.
        if hear(site, pass) {
            return Ok(());
        }
        if let Some(why) = pending(site, pass, interruptible) {
            if quit(site, rt, pass, cpu, crew, counts, why) {
                return Err(why);
            }
            return Ok(());
        }
        doze(site, rt, pass, cpu, counts);
    }
    unreachable!()
}
