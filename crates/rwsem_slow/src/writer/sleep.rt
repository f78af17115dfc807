//! How a queued writer sleeps between its tries.
ghost use Rattle.std.specs.Prelude.{◌≡◌, ◌+◌, true, IfErr, IfOk, IfSome, IsSome};
ghost use Rattle.lock_core.specs.SiteHandles.{plan_of, view_of, hand_in, task_in, held_in, SitsAt, MovesOn};
ghost use Rattle.lock_core.specs.Locking.{SawPending, Takes};
ghost use Rattle.lock_core.specs.Signals.{HasHeard};
ghost use Rattle.lock_core.specs.Views.{SpinHolds};
ghost use Rattle.cpu_task.specs.CpuCounting.{Dozes, DozesOnce, SleepsInTurns};
ghost use Rattle.wake_duty.specs.WakeSteps.{HasTried};
ghost use Rattle.rwsem_slow.specs.RwSems.{wait_state_of};
ghost use Rattle.rwsem_slow.specs.RwSemOpening.{TakesOpen};
ghost use Rattle.rwsem_wake.specs.RwSemPlaces.{AreCounts, dozes_of, seen_of};
ghost use Rattle.rwsem_slow.specs.Queued.{IsInLine, IsToQuit, KeepsLine, WaitsOn};
ghost use Rattle.rwsem_slow.specs.Types.{Slept, No, Alone, Writes};

use super::attempt;
use crate::SemRule;
use crate::sleep::{doze, pending};
use cpu_task::Cpu;
use lock_core::{Interrupted, Pass, Site};
use rwsem_wake::WakeCounts;
use std::sync::Wait;
use word_bits::Object;

/// Releases the wait lock, sleeps unless it was woken before, and takes the wait lock again. It
/// doesn't sleep where a signal is to interrupt the call, which it answers.
fn sleep<O: Object, W: Wait, C: Cpu>(
    site: &Site<SemRule<O>>,
    rt: &W,
    pass: &mut Pass<SemRule<O>>,
    cpu: &mut C,
    counts: &mut WakeCounts,
    interruptible: bool,
) -> Option<Interrupted>
    requires own { SitsAt site.now pass.old }
    requires numbered { IsSome (task_in pass.old) }
    requires out { held_in pass.old ≡ No }
    requires locked { SpinHolds (view_of pass.old).spin }
    requires listed { IsInLine Writes (view_of pass.old) }
    requires tried { HasTried wait_state_of (view_of pass.old) }
    requires counted { AreCounts counts.old (view_of pass.old) }
    ensures on { MovesOn site.now pass.old pass.new }
    ensures locked { SpinHolds (view_of pass.new).spin }
    ensures waits { WaitsOn Writes (view_of pass.old) (view_of pass.new) }
    ensures heard { IfSome result (λ why. HasHeard why (hand_in pass.new)) }
    ensures pending { IfSome result (λ why.
        SawPending why (seen_of pass.old) (seen_of pass.new)) }
    ensures asked { IfSome result (λ _. interruptible ≡ true) }
    ensures entries { (view_of pass.new).spin.entries ≡ (view_of pass.old).spin.entries + 1 }
    ensures counted { AreCounts counts.new (view_of pass.new) }
    ensures dozed { DozesOnce (C.sleeps cpu.old) (C.sleeps cpu.new)
        (dozes_of (view_of pass.old)) (dozes_of (view_of pass.new)) }
    ensures awake { IfSome result (λ _. C.sleeps cpu.new ≡ C.sleeps cpu.old) }
    ensures rescheds { C.rescheds cpu.new ≡ C.rescheds cpu.old }
{
    qspin_word::unlock(site, pass);
    if let Some(why) = pending(site, pass, interruptible) {
        qspin_queue::lock(site, rt, pass);
        return Some(why);
    }
    doze(site, rt, pass, cpu, counts);
    qspin_queue::lock(site, rt, pass);
    None
}

/// Tries and sleeps in turn, until the writer holds, or, where it is interruptible, until a signal
/// is pending.
pub fn wait<O: Object, W: Wait, C: Cpu>(
    site: &Site<SemRule<O>>,
    rt: &W,
    pass: &mut Pass<SemRule<O>>,
    cpu: &mut C,
    counts: &mut WakeCounts,
    interruptible: bool,
) -> Result<(), Interrupted>
    requires own { SitsAt site.now pass.old }
    requires numbered { IsSome (task_in pass.old) }
    requires out { held_in pass.old ≡ No }
    requires locked { SpinHolds (view_of pass.old).spin }
    requires listed { IsInLine Writes (view_of pass.old) }
    requires counted { AreCounts counts.old (view_of pass.old) }
    ensures on { MovesOn site.now pass.old pass.new }
    ensures locked { SpinHolds (view_of pass.new).spin }
    ensures line { KeepsLine (view_of pass.old) (view_of pass.new) }
    ensures misses { (hand_in pass.new).misses ≡ (hand_in pass.old).misses }
    ensures took { IfOk result (λ _. Takes O.object (plan_of site.now) Alone
        (seen_of pass.old) (seen_of pass.new)) }
    ensures opened { IfOk result (λ _. TakesOpen Slept (seen_of pass.old) (seen_of pass.new)) }
    ensures quits { IfOk result (λ _. IsToQuit (view_of pass.new)) }
    ensures waits { IfErr result (λ _. WaitsOn Writes (view_of pass.old) (view_of pass.new)) }
    ensures heard { IfErr result (λ why. HasHeard why (hand_in pass.new)) }
    ensures pending { IfErr result (λ why.
        SawPending why (seen_of pass.old) (seen_of pass.new)) }
    ensures asked { IfErr result (λ _. interruptible ≡ true) }
    ensures counted { AreCounts counts.new (view_of pass.new) }
    ensures dozed { Dozes (C.sleeps cpu.old) (C.sleeps cpu.new)
        (dozes_of (view_of pass.old)) (dozes_of (view_of pass.new)) }
    ensures slept { IfOk result (λ _. SleepsInTurns (view_of pass.old).spin.entries
        (view_of pass.new).spin.entries (C.sleeps cpu.old) (C.sleeps cpu.new)) }
    ensures awake { IfErr result (λ _. SleepsInTurns ((view_of pass.old).spin.entries + 1)
        (view_of pass.new).spin.entries (C.sleeps cpu.old) (C.sleeps cpu.new)) }
    ensures rescheds { C.rescheds cpu.new ≡ C.rescheds cpu.old }
{
    for _ in rt.forever() {
        // A release that came before WAITERS was set wakes nobody, and one behind it wakes once: so
        // a try comes between that and each sleep.
        if attempt::try_queued(site, rt, pass, cpu) {
            return Ok(());
        }
        if let Some(why) = sleep(site, rt, pass, cpu, counts, interruptible) {
            return Err(why);
        }
    }
    unreachable!()
}
