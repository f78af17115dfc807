//! How a writer queues, and leaves the list once it has taken.
ghost use Rattle.std.specs.Prelude.{◌≡◌, ◌<◌, ◌+◌, true, false, IsSome, Some};
ghost use Rattle.lock_core.specs.SiteHandles.{view_of, task_in, held_in, SitsAt, KeepsPast, SaysSame, MovesOn};
ghost use Rattle.lock_core.specs.Views.{SpinHolds};
ghost use Rattle.rwsem_wake.specs.SemParts.{apart_hand};
ghost use Rattle.rwsem_wake.specs.RwSemViews.{leaves_wake};
ghost use Rattle.rwsem_wake.specs.RwSemPlaces.{IsOutside, AreCounts, dozes_of, seen_of};
ghost use Rattle.rwsem_slow.specs.Queued.{Becomes, IsInLine, comes, waiting};
ghost use Rattle.rwsem_slow.specs.Types.{No, Writes, Took};
ghost use Rattle.rwsem_slow.specs.Waking.{FindsItselfFirst, WakesOthers};

use crate::SemRule;
use cpu_task::{Cpu, Crew};
use lock_core::{Pass, Site};
use rwsem_wake::wake::{choose_others, wake_tasks};
use rwsem_wake::{WakeCounts, Woken, queueing};
use wait_list::{Waiter, list};
use word_bits::Object;

/// Appends the pass's own task to the list as a writer, and sets WAITERS where it stands alone
/// there. Answers whether it does.
fn join<O: Object>(site: &Site<SemRule<O>>, pass: &mut Pass<SemRule<O>>) -> bool
    requires own { SitsAt site.now pass.old }
    requires numbered { IsSome (task_in pass.old) }
    requires out { held_in pass.old ≡ No }
    requires locked { SpinHolds (view_of pass.old).spin }
    requires outside { IsOutside (view_of pass.old) }
    ensures own { SitsAt site.now pass.new }
    ensures goes_on { KeepsPast pass.old pass.new }
    ensures face { SaysSame pass.old pass.new }
    ensures came { Becomes (view_of pass.old) 1 (waiting Writes)
        (comes (view_of pass.old).ext.wake) (view_of pass.new) }
    ensures first { result ≡ true → FindsItselfFirst (seen_of pass.old) (seen_of pass.new) }
{
    let Some(task) = pass.task() else {
        unreachable!()
    };
    // A release between the append and WAITERS wakes nobody: the writer's try comes behind both.
    list::append(site, pass, Waiter { task, writer: true });
    let Some(first) = list::first(site, pass) else {
        return false;
    };
    let alone = first.task == task;
    if alone {
        queueing::set_waiters(site, pass);
    }
    alone
}

/// Appends the writer, and wakes others where it isn't the first and no writer holds.
pub fn queue<O: Object, C: Cpu, K: Crew>(
    site: &Site<SemRule<O>>,
    pass: &mut Pass<SemRule<O>>,
    cpu: &mut C,
    crew: &K,
    counts: &mut WakeCounts,
)
    requires own { SitsAt site.now pass.old }
    requires numbered { IsSome (task_in pass.old) }
    requires out { held_in pass.old ≡ No }
    requires locked { SpinHolds (view_of pass.old).spin }
    requires outside { IsOutside (view_of pass.old) }
    requires counted { AreCounts counts.old (view_of pass.old) }
    ensures on { MovesOn site.now pass.old pass.new }
    ensures listed { IsInLine Writes (view_of pass.new) }
    ensures hand { (view_of pass.new).hand ≡ (view_of pass.old).hand }
    ensures spin { (view_of pass.new).spin ≡ (view_of pass.old).spin }
    ensures fronts { (view_of pass.new).fronts ≡ (view_of pass.old).fronts }
    ensures appended { (view_of pass.new).ext.appends ≡ (view_of pass.old).ext.appends + 1 }
    ensures sleeps { C.sleeps cpu.new ≡ C.sleeps cpu.old }
    ensures rescheds { C.rescheds cpu.new ≡ C.rescheds cpu.old }
    ensures counted { AreCounts counts.new (view_of pass.new) }
    ensures woken { WakesOthers counts.old.wakes counts.new.wakes
        (seen_of pass.old) (seen_of pass.new) }
    ensures dozes { dozes_of (view_of pass.new) ≡ dozes_of (view_of pass.old) }
{
    if join(site, pass) {
        return;
    }
    // The writer behind whom those in front queued may be gone: readers among them may share the
    // hold of readers, and where nobody holds the first of them may take.
    let count = queueing::look_listed(site, pass);
    let mut woken = Woken::Nobody;
    choose_others(site, pass, cpu, count, &mut woken);
    // Before the first try, until which the writer keeps the wait lock: a failed try is followed by
    // its sleep, and nobody else wakes those that it has chosen.
    wake_tasks(site, pass, crew, counts, woken.tasks());
}

/// Removes the pass's own task, which has taken, from the list, and clears its mark.
pub fn quit_taken<O: Object>(site: &Site<SemRule<O>>, pass: &mut Pass<SemRule<O>>)
    requires own { SitsAt site.now pass.old }
    requires numbered { IsSome (task_in pass.old) }
    requires locked { SpinHolds (view_of pass.old).spin }
    requires still { (view_of pass.old).ext.list.changes ≡ false }
    requires took { (view_of pass.old).ext.sem ≡ record (waiting Writes) { stage = Took } }
    ensures own { SitsAt site.now pass.new }
    ensures goes_on { KeepsPast pass.old pass.new }
    ensures face { SaysSame pass.old pass.new }
    ensures gone { Becomes (view_of pass.old) 0 apart_hand
        (leaves_wake (view_of pass.old).ext.wake.owing (view_of pass.old).ext.wake)
        (view_of pass.new) }
{
    let Some(task) = pass.task() else {
        unreachable!()
    };
    // Under the hold of the wait lock by which it took: whoever has that next finds it out of the
    // list.
    list::remove(site, pass, task);
    if queueing::look_own(site, pass, task) != 0 {
        queueing::clear_own(site, pass, task);
    }
}
