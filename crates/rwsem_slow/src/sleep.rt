//! How a waiter hears of signals, and falls asleep.
ghost use Rattle.std.specs.Prelude.{◌≡◌, ◌<◌, true, IfSome, IsSome};
ghost use Rattle.lock_core.specs.SiteHandles.{view_of, hand_in, task_in, held_in, SitsAt, KeepsPast, SaysSame, MovesOn};
ghost use Rattle.lock_core.specs.Locking.{SawPending};
ghost use Rattle.lock_core.specs.Signals.{HasHeard};
ghost use Rattle.lock_core.specs.Views.{SpinRests};
ghost use Rattle.rwsem_wake.specs.RwSemPlaces.{AreCounts, dozes_of, seen_of};
ghost use Rattle.rwsem_slow.specs.Queued.{Listens, Drowses};
ghost use Rattle.cpu_task.specs.CpuCounting.{DozesOnce};
ghost use Rattle.wake_duty.specs.WakeSteps.{HasTried};
ghost use Rattle.rwsem_slow.specs.RwSems.{sleep_wait_state};
ghost use Rattle.rwsem_slow.specs.Types.{No};

use crate::SemRule;
use cpu_task::Cpu;
use lock_core::{Interrupted, Pass, Site};
use rwsem_wake::WakeCounts;
use std::sync::Wait;
use word_bits::Object;

/// Whether a signal to the pass's task is pending, where the call is interruptible. It consumes
/// none.
pub fn pending<O: Object>(
    site: &Site<SemRule<O>>,
    pass: &mut Pass<SemRule<O>>,
    interruptible: bool,
) -> Option<Interrupted>
    requires own { SitsAt site.now pass.old }
    requires numbered { IsSome (task_in pass.old) }
    ensures on { MovesOn site.now pass.old pass.new }
    ensures face { SaysSame pass.old pass.new }
    ensures listens { Listens (view_of pass.old) (view_of pass.new) }
    ensures heard { IfSome result (λ why. HasHeard why (hand_in pass.new)) }
    ensures pending { IfSome result (λ why.
        SawPending why (seen_of pass.old) (seen_of pass.new)) }
    ensures asked { IfSome result (λ _. interruptible ≡ true) }
{
    if !interruptible {
        return None;
    }
    site.pending(pass)
}

/// Swaps the wake word of the pass's task for 0, and sleeps where that was 0. Then it counts one
/// more in its `dozes`.
pub fn doze<O: Object, W: Wait, C: Cpu>(
    site: &Site<SemRule<O>>,
    rt: &W,
    pass: &mut Pass<SemRule<O>>,
    cpu: &mut C,
    counts: &mut WakeCounts,
)
    requires own { SitsAt site.now pass.old }
    requires numbered { IsSome (task_in pass.old) }
    requires out { held_in pass.old ≡ No }
    requires unspun { SpinRests (view_of pass.old).spin }
    requires tried { HasTried sleep_wait_state (view_of pass.old) }
    requires counted { AreCounts counts.old (view_of pass.old) }
    ensures own { SitsAt site.now pass.new }
    ensures goes_on { KeepsPast pass.old pass.new }
    ensures face { SaysSame pass.old pass.new }
    ensures tries { Drowses (view_of pass.old) (view_of pass.new) }
    ensures counted { AreCounts counts.new (view_of pass.new) }
    ensures dozed { DozesOnce (C.sleeps cpu.old) (C.sleeps cpu.new)
        (dozes_of (view_of pass.old)) (dozes_of (view_of pass.new)) }
    ensures rescheds { C.rescheds cpu.new ≡ C.rescheds cpu.old }
{
    // Whoever woke the task behind its last try has set the word already, and wakes it no second
    // time.
    if wake_duty::drowse(site, pass) {
        counts.dozes = counts.dozes.saturating_add(1);
        cpu.sleep(rt);
    }
}
