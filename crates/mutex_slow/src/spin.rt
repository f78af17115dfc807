//! Optimistic spinning: the tries of the task at the head of the spin queue.
ghost use Rattle.std.specs.Prelude.{◌≡◌, true, false, IsSome, ◌≤◌};
ghost use Rattle.lock_core.specs.Locking.{OnlyTried};
ghost use Rattle.lock_core.specs.SiteHandles.{view_of, task_in, held_in, SitsAt, MovesOn};
ghost use Rattle.mutex_slow.specs.Mutexes.{OwesNoWake};
ghost use Rattle.mutex_slow.specs.MutexPlaces.{seen_of, TakesAlone, TakesOpen, StandsSame, IsOutside, KeepsWakes};
ghost use Rattle.mutex_slow.specs.Types.{No, Head};
ghost use Rattle.cpu_task.specs.CpuCounting.{Rises};
ghost use Rattle.osq_nodes.specs.OsqHandles as spinners;

use crate::fast::try_outside;
use crate::rule::MutexRule;
use cpu_task::Cpu;
use crossbeam_utils::Backoff;
use lock_core::{Pass, Site};
use osq_nodes::OsqPass;
use std::sync::Wait;
use word_bits::Object;

/// Tries of a pass that is in no list, until one takes or the CPU needs rescheduling. It is to be
/// the head of the spin queue until it returns: one spinner at a time tries.
pub fn spin_outside<O: Object, W: Wait, C: Cpu>(
    site: &Site<MutexRule<O>>,
    rt: &W,
    pass: &mut Pass<MutexRule<O>>,
    queue: &OsqPass,
    cpu: &mut C,
) -> bool
    requires own { SitsAt site.now pass.old }
    requires front { spinners.place_in queue.now ≡ Head }
    requires its_own { spinners.task_in queue.now ≡ task_in pass.old }
    requires numbered { IsSome (task_in pass.old) }
    requires out { held_in pass.old ≡ No }
    requires outside { IsOutside (view_of pass.old) }
    requires clear { OwesNoWake (view_of pass.old) }
    ensures on { MovesOn site.now pass.old pass.new }
    ensures outside { IsOutside (view_of pass.new) }
    ensures clear { OwesNoWake (view_of pass.new) }
    ensures same { StandsSame (view_of pass.old) (view_of pass.new) }
    ensures counts { KeepsWakes (view_of pass.old) (view_of pass.new) }
    ensures took { result ≡ true → TakesAlone O.object site.now pass.old pass.new }
    ensures opened { result ≡ true → TakesOpen (seen_of pass.old) (seen_of pass.new) }
    ensures missed { result ≡ false → OnlyTried (seen_of pass.old) (seen_of pass.new) }
    ensures out { result ≡ false → held_in pass.new ≡ No }
    ensures sleeps { C.sleeps cpu.new ≡ C.sleeps cpu.old }
    ensures spins { result ≡ true → C.rescheds cpu.new ≡ C.rescheds cpu.old }
    ensures rescheds { C.rescheds cpu.old ≤ C.rescheds cpu.new }
    ensures stops { result ≡ false → Rises (C.rescheds cpu.old) (C.rescheds cpu.new) }
{
    let backoff = Backoff::new();
    for _ in rt.forever() {
        let Err(_) = try_outside(site, rt, pass) else {
            return true;
        };
        if cpu.need_resched() {
            return false;
        }
        backoff.snooze();
    }
    unreachable!()
}
