//! The course of a writer by way of the list: it queues, tries and sleeps.
ghost use Rattle.std.specs.Prelude.{◌≡◌, ◌+◌, true, IfErr, IfOk, IsSome};
ghost use Rattle.lock_core.specs.SiteHandles.{plan_of, view_of, task_in, held_in, SitsAt, MovesOn};
ghost use Rattle.lock_core.specs.Locking.{SawPending, Takes};
ghost use Rattle.lock_core.specs.Signals.{OnlyConsumed};
ghost use Rattle.lock_core.specs.Views.{SpinRests};
ghost use Rattle.cpu_task.specs.CpuCounting.{Dozes, SleepsInTurns};
ghost use Rattle.rwsem_slow.specs.RwSemOpening.{TakesOpen};
ghost use Rattle.rwsem_wake.specs.RwSemPlaces.{AreCounts, IsOutside, dozes_of, seen_of};
ghost use Rattle.rwsem_slow.specs.Queued.{AppendedBy, EntersLock};
ghost use Rattle.rwsem_slow.specs.Types.{Slept, No, Alone};

use crate::SemRule;
use crate::leave::interrupt;
use cpu_task::{Cpu, Crew};
use lock_core::{How, Interrupted, Pass, Site};
use rwsem_wake::WakeCounts;
use rwsem_wake::hint::note_writer;
use std::sync::Wait;
use word_bits::Object;

mod attempt;
mod queue;
mod sleep;
pub mod spin;

/// Takes the semaphore alone by way of the wait lock and the list, until a signal interrupts it
/// where it is interruptible. The kernel's `rwsem_down_write_slowpath`, in the state
/// `TASK_INTERRUPTIBLE` or `TASK_UNINTERRUPTIBLE`.
pub fn write_in_line<O: Object, W: Wait, C: Cpu, K: Crew>(
    site: &Site<SemRule<O>>,
    rt: &W,
    pass: &mut Pass<SemRule<O>>,
    cpu: &mut C,
    crew: &K,
    counts: &mut WakeCounts,
    interruptible: bool,
) -> Result<How, Interrupted>
    requires own { SitsAt site.now pass.old }
    requires numbered { IsSome (task_in pass.old) }
    requires out { held_in pass.old ≡ No }
    requires unspun { SpinRests (view_of pass.old).spin }
    requires outside { IsOutside (view_of pass.old) }
    requires counted { AreCounts counts.old (view_of pass.old) }
    ensures on { MovesOn site.now pass.old pass.new }
    ensures unspun { SpinRests (view_of pass.new).spin }
    ensures outside { IsOutside (view_of pass.new) }
    ensures lock { EntersLock (view_of pass.old) (view_of pass.new) }
    ensures took { IfOk result (λ _. Takes O.object (plan_of site.now) Alone
        (seen_of pass.old) (seen_of pass.new)) }
    ensures opened { IfOk result (λ _. TakesOpen Slept (seen_of pass.old) (seen_of pass.new)) }
    ensures how { IfOk result (λ how. AppendedBy how (view_of pass.old) (view_of pass.new)) }
    ensures waited { IfErr result (λ _.
        (view_of pass.new).ext.appends ≡ (view_of pass.old).ext.appends + 1) }
    ensures consumed { IfErr result (λ _.
        OnlyConsumed (view_of pass.old) (view_of pass.new)) }
    ensures pending { IfErr result (λ why.
        SawPending why (seen_of pass.old) (seen_of pass.new)) }
    ensures asked { IfErr result (λ _. interruptible ≡ true) }
    ensures slept { IfOk result (λ how. how ≡ Slept) }
    ensures counted { AreCounts counts.new (view_of pass.new) }
    ensures dozed { Dozes (C.sleeps cpu.old) (C.sleeps cpu.new)
        (dozes_of (view_of pass.old)) (dozes_of (view_of pass.new)) }
    ensures turns { IfOk result (λ _. SleepsInTurns ((view_of pass.old).spin.entries + 1)
        (view_of pass.new).spin.entries (C.sleeps cpu.old) (C.sleeps cpu.new)) }
    ensures awake { IfErr result (λ _. SleepsInTurns ((view_of pass.old).spin.entries + 2)
        (view_of pass.new).spin.entries (C.sleeps cpu.old) (C.sleeps cpu.new)) }
    ensures rescheds { C.rescheds cpu.new ≡ C.rescheds cpu.old }
{
    qspin_queue::lock(site, rt, pass);
    queue::queue(site, pass, cpu, crew, counts);
    let Err(why) = sleep::wait(site, rt, pass, cpu, counts, interruptible) else {
        queue::quit_taken(site, pass);
        // Before the release of the wait lock, and so before the next that waits for that tries.
        note_writer(site, pass);
        qspin_word::unlock(site, pass);
        return Ok(How::Slept);
    };
    interrupt(site, pass, cpu, crew, counts, why);
    Err(why)
}
