//! The course of a reader whose addition didn't let it in at once: it steals, or queues and sleeps.
ghost use Rattle.std.specs.Prelude.{◌≡◌, ◌+◌, true, IfErr, IfOk, IsSome};
ghost use Rattle.lock_core.specs.SiteHandles.{plan_of, view_of, task_in, held_in, SitsAt, MovesOn};
ghost use Rattle.lock_core.specs.Locking.{SawPending, Takes};
ghost use Rattle.lock_core.specs.Signals.{OnlyConsumed};
ghost use Rattle.lock_core.specs.Views.{SpinRests};
ghost use Rattle.cpu_task.specs.CpuCounting.{Dozes};
ghost use Rattle.rwsem_slow.specs.SleepCounting.{SleepsBetween};
ghost use Rattle.rwsem_wake.specs.RwSemPlaces.{AreCounts, IsOutside, dozes_of, seen_of};
ghost use Rattle.rwsem_slow.specs.Queued.{AppendedBy, EntersLock, IsInTransit};
ghost use Rattle.rwsem_slow.specs.Stealing.{WentOn, left_by};
ghost use Rattle.rwsem_slow.specs.Types.{Spun, No, Shared};

use crate::SemRule;
use cpu_task::{Cpu, Crew};
use lock_core::{How, Interrupted, Pass, Site};
use rwsem_wake::hint::note_reader;
use rwsem_wake::wake::wake_tasks;
use rwsem_wake::{WakeCounts, Woken};
use std::sync::Wait;
use word_bits::Object;

mod queue;
mod sleep;
mod steal;

/// Takes the semaphore shared by way of the wait lock, for a reader whose bias is in the count,
/// until a signal interrupts it where it is interruptible. The kernel's
/// `rwsem_down_read_slowpath`, in the state `TASK_INTERRUPTIBLE` or `TASK_UNINTERRUPTIBLE`.
fn read_in_line<O: Object, W: Wait, C: Cpu, K: Crew>(
    site: &Site<SemRule<O>>,
    rt: &W,
    pass: &mut Pass<SemRule<O>>,
    cpu: &mut C,
    crew: &K,
    counts: &mut WakeCounts,
    interruptible: bool,
) -> Result<How, Interrupted>
    requires own { SitsAt site.now pass.old }
    requires numbered { IsSome (task_in pass.old) }
    requires out { held_in pass.old ≡ No }
    requires unspun { SpinRests (view_of pass.old).spin }
    requires transit { IsInTransit (view_of pass.old) }
    requires counted { AreCounts counts.old (view_of pass.old) }
    ensures on { MovesOn site.now pass.old pass.new }
    ensures unspun { SpinRests (view_of pass.new).spin }
    ensures outside { IsOutside (view_of pass.new) }
    ensures lock { EntersLock (view_of pass.old) (view_of pass.new) }
    ensures took { IfOk result (λ _. Takes O.object (plan_of site.now) Shared
        (seen_of pass.old) (seen_of pass.new)) }
    ensures how { IfOk result (λ how. AppendedBy how (view_of pass.old) (view_of pass.new)) }
    ensures waited { IfErr result (λ _.
        (view_of pass.new).ext.appends ≡ (view_of pass.old).ext.appends + 1) }
    ensures consumed { IfErr result (λ _.
        OnlyConsumed (view_of pass.old) (view_of pass.new)) }
    ensures pending { IfErr result (λ why.
        SawPending why (seen_of pass.old) (seen_of pass.new)) }
    ensures asked { IfErr result (λ _. interruptible ≡ true) }
    ensures counted { AreCounts counts.new (view_of pass.new) }
    ensures dozed { Dozes (C.sleeps cpu.old) (C.sleeps cpu.new)
        (dozes_of (view_of pass.old)) (dozes_of (view_of pass.new)) }
    ensures sleeps { SleepsBetween (view_of pass.old).steps (view_of pass.new).steps
        (C.sleeps cpu.old) (C.sleeps cpu.new) }
    ensures rescheds { C.rescheds cpu.new ≡ C.rescheds cpu.old }
    ensures awake { IfOk result (λ how. how ≡ Spun → C.sleeps cpu.new ≡ C.sleeps cpu.old) }
{
    qspin_queue::lock(site, rt, pass);
    let Some(empty) = queue::settle(site, pass) else {
        qspin_word::unlock(site, pass);
        note_reader(site, pass);
        return Ok(How::Spun);
    };
    let mut woken = Woken::Nobody;
    queue::queue(site, pass, cpu, empty, &mut woken);
    qspin_word::unlock(site, pass);
    // Behind the release, so that nobody who queues or tries waits for the wait lock while the crew
    // wakes. Before the reader's own sleep, or those that it has chosen would sleep on: nobody else
    // wakes them.
    wake_tasks(site, pass, crew, counts, woken.tasks());
    let Err(why) = sleep::wait(site, rt, pass, cpu, crew, counts, interruptible) else {
        return Ok(How::Slept);
    };
    Err(why)
}

/// Takes the semaphore shared, for a reader whose addition left this count, which didn't let it in
/// at once, until a signal interrupts it where it is interruptible. The kernel's
/// `rwsem_down_read_slowpath`.
pub fn read_slowly<O: Object, W: Wait, C: Cpu, K: Crew>(
    site: &Site<SemRule<O>>,
    rt: &W,
    pass: &mut Pass<SemRule<O>>,
    cpu: &mut C,
    crew: &K,
    left: u64,
    counts: &mut WakeCounts,
    interruptible: bool,
) -> Result<How, Interrupted>
    requires own { SitsAt site.now pass.old }
    requires numbered { IsSome (task_in pass.old) }
    requires out { held_in pass.old ≡ No }
    requires unspun { SpinRests (view_of pass.old).spin }
    requires transit { IsInTransit (view_of pass.old) }
    requires counted { AreCounts counts.old (view_of pass.old) }
    requires left { left ≡ left_by (view_of pass.old).ext.sem.bias }
    ensures on { MovesOn site.now pass.old pass.new }
    ensures unspun { SpinRests (view_of pass.new).spin }
    ensures outside { IsOutside (view_of pass.new) }
    ensures took { IfOk result (λ _. Takes O.object (plan_of site.now) Shared
        (seen_of pass.old) (seen_of pass.new)) }
    ensures line { IfOk result (λ how. WentOn left how (seen_of pass.old) (seen_of pass.new)) }
    ensures lock { IfErr result (λ _. EntersLock (view_of pass.old) (view_of pass.new)) }
    ensures waited { IfErr result (λ _.
        (view_of pass.new).ext.appends ≡ (view_of pass.old).ext.appends + 1) }
    ensures consumed { IfErr result (λ _.
        OnlyConsumed (view_of pass.old) (view_of pass.new)) }
    ensures pending { IfErr result (λ why.
        SawPending why (seen_of pass.old) (seen_of pass.new)) }
    ensures asked { IfErr result (λ _. interruptible ≡ true) }
    ensures counted { AreCounts counts.new (view_of pass.new) }
    ensures dozed { Dozes (C.sleeps cpu.old) (C.sleeps cpu.new)
        (dozes_of (view_of pass.old)) (dozes_of (view_of pass.new)) }
    ensures sleeps { SleepsBetween (view_of pass.old).steps (view_of pass.new).steps
        (C.sleeps cpu.old) (C.sleeps cpu.new) }
    ensures rescheds { C.rescheds cpu.new ≡ C.rescheds cpu.old }
    ensures awake { IfOk result (λ how. how ≡ Spun → C.sleeps cpu.new ≡ C.sleeps cpu.old) }
{
    if steal::steal(site, pass, left) {
        // Spinning writers see early that readers have the lock: not only once the readers that
        // wait are let in too.
        note_reader(site, pass);
        steal::wake_beside(site, rt, pass, crew, counts, left);
        return Ok(How::Spun);
    }
    read_in_line(site, rt, pass, cpu, crew, counts, interruptible)
}
