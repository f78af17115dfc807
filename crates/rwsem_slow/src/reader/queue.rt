//! How a reader queues.
ghost use Rattle.std.specs.Prelude.{◌≡◌, ◌+◌, [], true, false, IfSome, IfNone, IsSome};
ghost use Rattle.lock_core.specs.SiteHandles.{plan_of, view_of, task_in, held_in, SitsAt, KeepsPast, SaysSame, MovesOn};
ghost use Rattle.lock_core.specs.Records.{bit};
ghost use Rattle.lock_core.specs.Views.{SpinHolds};
ghost use Rattle.rwsem_wake.specs.SemParts.{some_of};
ghost use Rattle.rwsem_wake.specs.Duties.{left_by};
ghost use Rattle.rwsem_wake.specs.Grants.{AreTaskNumbers};
ghost use Rattle.rwsem_slow.specs.Queued.{Becomes, IsInTransit, IsInLineToWake, LooksAt, Shares, comes, waiting};
ghost use Rattle.rwsem_slow.specs.Types.{No, Reads};
ghost use Rattle.rwsem_wake.specs.Removals.{KnowsList};
ghost use Rattle.rwsem_wake.specs.RwSemPlaces.{dozes_of, seen_of};
ghost use Rattle.rwsem_wake.specs.RwSemWakes.{woken_tasks};
ghost use Rattle.rwsem_slow.specs.Waking.{FindsOneBiasMore, WakesQueued};

use crate::SemRule;
use cpu_task::Cpu;
use lock_core::{Pass, Site};
use rwsem_wake::steps::arm;
use rwsem_wake::wake::choose_others;
use rwsem_wake::{Woken, queueing};
use wait_list::{Waiter, list};
use word_bits::Object;

/// Looks at the list, and where nobody waits at the count: without a writer the reader holds by its
/// bias, and `None` says so. Else, whether nobody waits.
pub fn settle<O: Object>(site: &Site<SemRule<O>>, pass: &mut Pass<SemRule<O>>) -> Option<bool>
    requires own { SitsAt site.now pass.old }
    requires numbered { IsSome (task_in pass.old) }
    requires out { held_in pass.old ≡ No }
    requires locked { SpinHolds (view_of pass.old).spin }
    requires transit { IsInTransit (view_of pass.old) }
    ensures own { SitsAt site.now pass.new }
    ensures goes_on { KeepsPast pass.old pass.new }
    ensures task { task_in pass.new ≡ task_in pass.old }
    ensures took { IfNone result
        (Shares O.object (plan_of site.now) (view_of pass.old) (view_of pass.new)) }
    ensures spin { (view_of pass.new).spin ≡ (view_of pass.old).spin }
    ensures face { IfSome result (λ empty. SaysSame pass.old pass.new) }
    ensures looked { IfSome result (λ empty. LooksAt (view_of pass.old) (view_of pass.new)) }
    ensures empty { IfSome result (λ empty.
        bit empty + some_of (view_of pass.new).ext.list.list ≡ 1) }
{
    let None = list::first(site, pass) else {
        return Some(false);
    };
    if queueing::settle(site, pass) {
        return None;
    }
    Some(true)
}

/// Appends the pass's own task to the list as a reader, whose bias is in the count, and takes the
/// bias back. `empty` says whether nobody waits yet. Answers the count that this leaves.
fn join<O: Object>(site: &Site<SemRule<O>>, pass: &mut Pass<SemRule<O>>, empty: bool) -> u64
    requires own { SitsAt site.now pass.old }
    requires numbered { IsSome (task_in pass.old) }
    requires out { held_in pass.old ≡ No }
    requires locked { SpinHolds (view_of pass.old).spin }
    requires transit { IsInTransit (view_of pass.old) }
    requires list { KnowsList (view_of pass.old) }
    requires empty { bit empty + some_of (view_of pass.old).ext.list.list ≡ 1 }
    ensures own { SitsAt site.now pass.new }
    ensures goes_on { KeepsPast pass.old pass.new }
    ensures face { SaysSame pass.old pass.new }
    ensures came { Becomes (view_of pass.old) 1 (waiting Reads)
        (left_by result (comes (view_of pass.old).ext.wake)) (view_of pass.new) }
    ensures back { FindsOneBiasMore empty (view_of pass.new).steps result
        (seen_of pass.old) (seen_of pass.new) }
{
    let Some(task) = pass.task() else {
        unreachable!()
    };
    // The grant word comes before the append: a waker that finds the reader in the list clears it.
    arm(site, pass, task);
    list::append(
        site,
        pass,
        Waiter {
            task,
            writer: false,
        },
    );
    queueing::take_back(site, pass, empty)
}

/// Appends the reader, and looks which others may go on where no writer holds. `woken`, which was
/// empty, has the tasks that the caller is to wake.
pub fn queue<O: Object, C: Cpu>(
    site: &Site<SemRule<O>>,
    pass: &mut Pass<SemRule<O>>,
    cpu: &mut C,
    empty: bool,
    woken: &mut Woken,
)
    requires own { SitsAt site.now pass.old }
    requires numbered { IsSome (task_in pass.old) }
    requires out { held_in pass.old ≡ No }
    requires locked { SpinHolds (view_of pass.old).spin }
    requires transit { IsInTransit (view_of pass.old) }
    requires list { KnowsList (view_of pass.old) }
    requires empty { bit empty + some_of (view_of pass.old).ext.list.list ≡ 1 }
    requires nobody { woken_tasks woken.old ≡ [] }
    ensures on { MovesOn site.now pass.old pass.new }
    ensures listed { IsInLineToWake Reads (woken_tasks woken.new) (view_of pass.new) }
    ensures tasks { AreTaskNumbers (plan_of site.now) (woken_tasks woken.new) }
    ensures hand { (view_of pass.new).hand ≡ (view_of pass.old).hand }
    ensures spin { (view_of pass.new).spin ≡ (view_of pass.old).spin }
    ensures fronts { (view_of pass.new).fronts ≡ (view_of pass.old).fronts }
    ensures appended { (view_of pass.new).ext.appends ≡ (view_of pass.old).ext.appends + 1 }
    ensures sleeps { C.sleeps cpu.new ≡ C.sleeps cpu.old }
    ensures rescheds { C.rescheds cpu.new ≡ C.rescheds cpu.old }
    ensures woken { WakesQueued empty (woken_tasks woken.new)
        (seen_of pass.old) (seen_of pass.new) }
    ensures wakes { (view_of pass.new).ext.wake.wakes ≡ (view_of pass.old).ext.wake.wakes }
    ensures dozes { dozes_of (view_of pass.new) ≡ dozes_of (view_of pass.old) }
{
    // The count that its own bias leaves says who is to be woken: the writer that the bias kept out
    // may be waiting for nobody else.
    let count = join(site, pass, empty);
    choose_others(site, pass, cpu, count, woken);
}
