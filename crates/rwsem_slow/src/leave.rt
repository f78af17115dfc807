//! How a waiter that a signal interrupts leaves the list.
ghost use Rattle.std.specs.Prelude.{◌≡◌, ◌≢◌, ◌+◌, ◌<◌, ◌≤◌, [], true, false, IsSome, Some, length};
ghost use Rattle.lock_core.specs.SiteHandles.{plan_of, view_of, hand_in, task_in, held_in, SitsAt, KeepsPast, SaysSame, MovesOn};
ghost use Rattle.lock_core.specs.Records.{bit};
ghost use Rattle.lock_core.specs.Shown.{FindsSince};
ghost use Rattle.lock_core.specs.Signals.{HasHeard, OnlyConsumed};
ghost use Rattle.lock_core.specs.Views.{SpinHolds, SpinRests};
ghost use Rattle.wait_list.specs.Lists.{first_code, without};
ghost use Rattle.rwsem_wake.specs.SemParts.{apart_hand, some_of};
ghost use Rattle.rwsem_wake.specs.Grants.{OnlySem, summing, AreTaskNumbers};
ghost use Rattle.rwsem_wake.specs.RwSemViews.{leaves_wake, list_at, with_sem};
ghost use Rattle.rwsem_wake.specs.Removals.{KnowsList};
ghost use Rattle.rwsem_wake.specs.RwSemPlaces.{AreCounts, IsOutside, dozes_of, seen_of};
ghost use Rattle.rwsem_slow.specs.Queued.{Becomes, KeepsLine, LooksAt};
ghost use Rattle.rwsem_wake.specs.RwSemWakes.{woken_tasks};
ghost use Rattle.rwsem_slow.specs.Leaving.{HasLeft, IsUnmarked, MayLeave, WakesOn, gone_first};
ghost use Rattle.rwsem_slow.specs.Types.{No};
ghost use Rattle.rwsem_slow.specs.Waking.{WakesAsItLeft, WakesLeft};

use crate::SemRule;
use cpu_task::{Cpu, Crew};
use lock_core::{Interrupted, Pass, Site};
use rwsem_wake::wake::{WakeType, wake, wake_tasks};
use rwsem_wake::{Waited, WakeCounts, Woken, queueing};
use wait_list::list;
use word_bits::Object;

/// Looks whether the pass's own task is the first waiter.
fn is_first<O: Object>(site: &Site<SemRule<O>>, pass: &mut Pass<SemRule<O>>, task: u32) -> bool
    requires own { SitsAt site.now pass.old }
    requires locked { SpinHolds (view_of pass.old).spin }
    requires still { (view_of pass.old).ext.list.changes ≡ false }
    ensures own { SitsAt site.now pass.new }
    ensures goes_on { KeepsPast pass.old pass.new }
    ensures face { SaysSame pass.old pass.new }
    ensures looked { LooksAt (view_of pass.old) (view_of pass.new) }
    ensures found { FindsSince list_at (first_code (view_of pass.new).ext.list.list)
        (seen_of pass.old) (seen_of pass.new) }
    ensures first { result ≡ true → first_code (view_of pass.new).ext.list.list ≡ task + 1 }
    ensures behind { result ≡ false → first_code (view_of pass.new).ext.list.list ≢ task + 1 }
{
    match list::first(site, pass) {
        Some(first) => first.task == task,
        None => false,
    }
}

/// Clears the mark of the pass's own task, which is the first waiter.
fn unmark<O: Object>(site: &Site<SemRule<O>>, pass: &mut Pass<SemRule<O>>, task: u32)
    requires own { SitsAt site.now pass.old }
    requires mine { task_in pass.old ≡ Some task }
    requires locked { SpinHolds (view_of pass.old).spin }
    requires may { MayLeave (view_of pass.old) }
    requires list { KnowsList (view_of pass.old) }
    requires first { first_code (view_of pass.old).ext.list.list ≡ task + 1 }
    requires task { task < length (plan_of site.now) }
    ensures on { MovesOn site.now pass.old pass.new }
    ensures face { SaysSame pass.old pass.new }
    ensures kept { OnlySem with_sem (view_of pass.old)
        (summing (view_of pass.old).ext.sem) (view_of pass.new) }
{
    if queueing::look_first(site, pass, task) != 0 {
        queueing::clear_first(site, pass, task);
    }
}

/// Removes the pass's own task from the list, where it is the first and isn't marked. Answers
/// whether nobody waits then.
fn remove_first<O: Object>(site: &Site<SemRule<O>>, pass: &mut Pass<SemRule<O>>, task: u32) -> bool
    requires own { SitsAt site.now pass.old }
    requires mine { task_in pass.old ≡ Some task }
    requires locked { SpinHolds (view_of pass.old).spin }
    requires unmarked { IsUnmarked (view_of pass.old) }
    requires list { KnowsList (view_of pass.old) }
    requires first { first_code (view_of pass.old).ext.list.list ≡ task + 1 }
    requires task { task < length (plan_of site.now) }
    ensures own { SitsAt site.now pass.new }
    ensures goes_on { KeepsPast pass.old pass.new }
    ensures face { SaysSame pass.old pass.new }
    ensures gone { Becomes (view_of pass.old) 0 (gone_first result)
        (leaves_wake true (view_of pass.old).ext.wake) (view_of pass.new) }
    ensures left { (view_of pass.new).ext.list.list ≡
        without task (view_of pass.old).ext.list.list }
    ensures found { FindsSince list_at
        (first_code (without task (view_of pass.old).ext.list.list))
        (seen_of pass.old) (seen_of pass.new) }
    ensures none_left { bit result + some_of (view_of pass.new).ext.list.list ≡ 1 }
{
    list::remove(site, pass, task);
    match list::first(site, pass) {
        None => true,
        Some(_) => false,
    }
}

/// Removes the pass's own task from the list, where it isn't the first. A mark is the first one's,
/// and stays.
fn remove_behind<O: Object>(site: &Site<SemRule<O>>, pass: &mut Pass<SemRule<O>>, task: u32)
    requires own { SitsAt site.now pass.old }
    requires mine { task_in pass.old ≡ Some task }
    requires locked { SpinHolds (view_of pass.old).spin }
    requires may { MayLeave (view_of pass.old) }
    requires list { KnowsList (view_of pass.old) }
    requires behind { first_code (view_of pass.old).ext.list.list ≢ task + 1 }
    requires task { task < length (plan_of site.now) }
    ensures own { SitsAt site.now pass.new }
    ensures goes_on { KeepsPast pass.old pass.new }
    ensures face { SaysSame pass.old pass.new }
    ensures gone { Becomes (view_of pass.old) 0 apart_hand
        (leaves_wake (view_of pass.old).ext.wake.owing (view_of pass.old).ext.wake)
        (view_of pass.new) }
{
    list::remove(site, pass, task);
}

/// Leaves the list as the first waiter. `woken`, which was empty, has the tasks that the caller is
/// to wake.
fn leave_first<O: Object, C: Cpu>(
    site: &Site<SemRule<O>>,
    pass: &mut Pass<SemRule<O>>,
    task: u32,
    cpu: &mut C,
    woken: &mut Woken,
)
    requires own { SitsAt site.now pass.old }
    requires mine { task_in pass.old ≡ Some task }
    requires out { held_in pass.old ≡ No }
    requires locked { SpinHolds (view_of pass.old).spin }
    requires may { MayLeave (view_of pass.old) }
    requires list { KnowsList (view_of pass.old) }
    requires first { first_code (view_of pass.old).ext.list.list ≡ task + 1 }
    requires task { task < length (plan_of site.now) }
    requires empty { woken_tasks woken.old ≡ [] }
    ensures on { MovesOn site.now pass.old pass.new }
    ensures left { HasLeft (woken_tasks woken.new) (view_of pass.old) (view_of pass.new) }
    ensures tasks { AreTaskNumbers (plan_of site.now) (woken_tasks woken.new) }
    ensures found { FindsSince list_at
        (first_code (without task (view_of pass.old).ext.list.list))
        (seen_of pass.old) (seen_of pass.new) }
    ensures woken { WakesOn (without task (view_of pass.old).ext.list.list) (woken_tasks woken.new)
        (seen_of pass.old) (seen_of pass.new) }
    ensures sleeps { C.sleeps cpu.new ≡ C.sleeps cpu.old }
    ensures rescheds { C.rescheds cpu.new ≡ C.rescheds cpu.old }
{
    unmark(site, pass, task);
    if remove_first(site, pass, task) {
        // Nobody waits: both flags go under the wait lock, before another can queue. HANDOFF would
        // keep spinning writers and stealing readers out, for nobody.
        queueing::clear_flags(site, pass);
    } else {
        // A release may have woken it alone, and nobody wakes a second time: it wakes those behind
        // it instead.
        wake(
            site,
            pass,
            WakeType::Any,
            &mut Waited { cpu, over: false },
            woken,
        );
    }
}

/// Leaves the list, under the wait lock. `woken`, which was empty, has the tasks that the caller is
/// to wake.
fn leave<O: Object, C: Cpu>(
    site: &Site<SemRule<O>>,
    pass: &mut Pass<SemRule<O>>,
    cpu: &mut C,
    woken: &mut Woken,
)
    requires own { SitsAt site.now pass.old }
    requires numbered { IsSome (task_in pass.old) }
    requires out { held_in pass.old ≡ No }
    requires locked { SpinHolds (view_of pass.old).spin }
    requires may { MayLeave (view_of pass.old) }
    requires empty { woken_tasks woken.old ≡ [] }
    ensures on { MovesOn site.now pass.old pass.new }
    ensures left { HasLeft (woken_tasks woken.new) (view_of pass.old) (view_of pass.new) }
    ensures tasks { AreTaskNumbers (plan_of site.now) (woken_tasks woken.new) }
    ensures woken { WakesLeft (woken_tasks woken.new) (seen_of pass.old) (seen_of pass.new) }
    ensures sleeps { C.sleeps cpu.new ≡ C.sleeps cpu.old }
    ensures rescheds { C.rescheds cpu.new ≡ C.rescheds cpu.old }
{
    let Some(task) = pass.task() else {
        unreachable!()
    };
    if is_first(site, pass, task) {
        leave_first(site, pass, task, cpu, woken);
    } else {
        remove_behind(site, pass, task);
    }
}

/// Ends the wait of a task that has the wait lock: it consumes the signal of which it heard, leaves
/// the list, releases the wait lock, and wakes those that may go on. The kernel's
/// `rwsem_del_wake_waiter`.
pub fn interrupt<O: Object, C: Cpu, K: Crew>(
    site: &Site<SemRule<O>>,
    pass: &mut Pass<SemRule<O>>,
    cpu: &mut C,
    crew: &K,
    counts: &mut WakeCounts,
    why: Interrupted,
)
    requires own { SitsAt site.now pass.old }
    requires numbered { IsSome (task_in pass.old) }
    requires out { held_in pass.old ≡ No }
    requires locked { SpinHolds (view_of pass.old).spin }
    requires may { MayLeave (view_of pass.old) }
    requires heard { HasHeard why (hand_in pass.old) }
    requires counted { AreCounts counts.old (view_of pass.old) }
    ensures on { MovesOn site.now pass.old pass.new }
    ensures unspun { SpinRests (view_of pass.new).spin }
    ensures outside { IsOutside (view_of pass.new) }
    ensures line { KeepsLine (view_of pass.old) (view_of pass.new) }
    ensures consumed { OnlyConsumed (view_of pass.old) (view_of pass.new) }
    ensures entries { (view_of pass.new).spin.entries ≡ (view_of pass.old).spin.entries }
    ensures sleeps { C.sleeps cpu.new ≡ C.sleeps cpu.old }
    ensures rescheds { C.rescheds cpu.new ≡ C.rescheds cpu.old }
    ensures counted { AreCounts counts.new (view_of pass.new) }
    ensures woken { WakesAsItLeft counts.old.wakes counts.new.wakes
        (seen_of pass.old) (seen_of pass.new) }
    ensures dozes { dozes_of (view_of pass.new) ≡ dozes_of (view_of pass.old) }
{
    let mut woken = Woken::Nobody;
    // Under the wait lock: a reader that is granted before has its hold, and its signal stays.
    site.consume_pending(pass, why);
    leave(site, pass, cpu, &mut woken);
    qspin_word::unlock(site, pass);
    wake_tasks(site, pass, crew, counts, woken.tasks());
}
