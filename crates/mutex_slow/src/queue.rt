//! The slow path behind the spinning: a task appends itself to the list, and waits in it.
ghost use Rattle.std.specs.Prelude.{◌≡◌, ◌+◌, Bool, true, IsSome, IfOk, IfErr, ◌≤◌};
ghost use Rattle.lock_core.specs.Views.{SpinHolds, SpinRests};
ghost use Rattle.lock_core.specs.Kinds.{mutex};
ghost use Rattle.lock_core.specs.Locking.{Interrupts};
ghost use Rattle.lock_core.specs.SiteHandles.{view_of, task_in, held_in, SitsAt, MovesOn};
ghost use Rattle.mutex_slow.specs.Mutexes.{OwesNoWake, owner_at};
ghost use Rattle.mutex_slow.specs.MutexPlaces.{seen_of, TakesAlone, TakesOpen, KeepsHand, KeepsFronts, IsOutside, IsInLine, KeepsWakes, SetsNoWord, dozes_of, GotInLine, WentInLine};
ghost use Rattle.mutex_slow.specs.Types.{No, Spun};
ghost use Rattle.cpu_task.specs.CpuCounting.{Dozes, SleepsInTurns};

use crate::fast::try_outside;
use crate::leave::quit;
use crate::rule::MutexRule;
use crate::sleep::wait;
use crate::wait_lock;
use cpu_task::Cpu;
use lock_core::{How, Interrupted, Pass, Site};
use mutex_word::site_steps::set_waiters;
use std::sync::Wait;
use wait_list::{Waiter, list};
use word_bits::Object;

/// Appends the pass's own task to the list, and sets the flag of the waiters where it is the first.
fn join<O: Object>(site: &Site<MutexRule<O>>, pass: &mut Pass<MutexRule<O>>)
    requires own { SitsAt site.now pass.old }
    requires numbered { IsSome (task_in pass.old) }
    requires out { held_in pass.old ≡ No }
    requires locked { SpinHolds (view_of pass.old).spin }
    requires outside { IsOutside (view_of pass.old) }
    requires clear { OwesNoWake (view_of pass.old) }
    ensures on { MovesOn site.now pass.old pass.new }
    ensures listed { IsInLine (view_of pass.new) }
    ensures hand { KeepsHand pass.old pass.new }
    ensures spin { (view_of pass.new).spin ≡ (view_of pass.old).spin }
    ensures fronts { KeepsFronts pass.old pass.new }
    ensures counts { KeepsWakes (view_of pass.old) (view_of pass.new) }
    ensures appended { (view_of pass.new).ext.appends ≡ (view_of pass.old).ext.appends + 1 }
{
    let Some(task) = pass.task() else {
        unreachable!()
    };
    list::append(site, pass, Waiter { task, writer: true });
    let Some(first) = list::first(site, pass) else {
        unreachable!()
    };
    if first.task == task {
        // The flag is set before the waiter tries again: a holder that releases behind this step
        // sees it and wakes the waiter, and one that released before has left what the try takes.
        set_waiters(site, pass);
    }
}

/// Takes the mutex by way of the wait lock and the list, until a signal interrupts it where it is
/// interruptible. The kernel's `__mutex_lock_common` behind its optimistic spinning, in the state
/// `TASK_INTERRUPTIBLE` or `TASK_UNINTERRUPTIBLE`.
pub fn lock_in_line<O: Object, W: Wait, C: Cpu>(
    site: &Site<MutexRule<O>>,
    rt: &W,
    pass: &mut Pass<MutexRule<O>>,
    cpu: &mut C,
    dozes: &mut u64,
    interruptible: bool,
) -> Result<How, Interrupted>
    requires own { SitsAt site.now pass.old }
    requires numbered { IsSome (task_in pass.old) }
    requires out { held_in pass.old ≡ No }
    requires unspun { SpinRests (view_of pass.old).spin }
    requires outside { IsOutside (view_of pass.old) }
    requires clear { OwesNoWake (view_of pass.old) }
    requires counted { dozes.old ≡ dozes_of (view_of pass.old) }
    ensures on { MovesOn site.now pass.old pass.new }
    ensures unspun { SpinRests (view_of pass.new).spin }
    ensures outside { IsOutside (view_of pass.new) }
    ensures clear { OwesNoWake (view_of pass.new) }
    ensures took { IfOk result (λ _. TakesAlone O.object site.now pass.old pass.new) }
    ensures opened { IfOk result (λ _. TakesOpen (seen_of pass.old) (seen_of pass.new)) }
    ensures how { IfOk result (λ how. GotInLine how (seen_of pass.old) (seen_of pass.new)) }
    ensures interrupted { IfErr result (λ why. (reads : Bool) →
        Interrupts mutex reads owner_at why (seen_of pass.old) (seen_of pass.new)) }
    ensures asked { IfErr result (λ _. interruptible ≡ true) }
    ensures line { WentInLine (seen_of pass.old) (seen_of pass.new) }
    ensures set { SetsNoWord (view_of pass.old) (view_of pass.new) }
    ensures counted { dozes.new ≡ dozes_of (view_of pass.new) }
    ensures dozed { Dozes (C.sleeps cpu.old) (C.sleeps cpu.new)
        (dozes_of (view_of pass.old)) (dozes_of (view_of pass.new)) }
    ensures sleeps { SleepsInTurns ((view_of pass.old).spin.entries + 1)
        (view_of pass.new).spin.entries (C.sleeps cpu.old) (C.sleeps cpu.new) }
    ensures awake { IfOk result (λ how. how ≡ Spun → C.sleeps cpu.new ≡ C.sleeps cpu.old) }
    ensures rescheds { C.rescheds cpu.old ≤ C.rescheds cpu.new }
{
    wait_lock::lock(site, rt, pass);
    // A release before this may have seen no waiter, and wakes nobody.
    let Err(_) = try_outside(site, rt, pass) else {
        wait_lock::unlock(site, pass);
        return Ok(How::Spun);
    };
    join(site, pass);
    let Err(why) = wait(site, rt, pass, cpu, dozes, interruptible) else {
        quit(site, pass);
        wait_lock::unlock(site, pass);
        return Ok(How::Slept);
    };
    quit(site, pass);
    wait_lock::unlock(site, pass);
    Err(why)
}
