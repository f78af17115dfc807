//! The walk along the list of waiters, and the removal of a batch from it.
ghost use Rattle.std.specs.Prelude.{◌≡◌, ◌≤◌, [], IsSome, Some, length, ◌<◌};
ghost use Rattle.lock_core.specs.SiteHandles.{IsLatest, plan_of, view_of, task_in, SitsAt, StepsAt, SaysSame};
ghost use Rattle.lock_core.specs.Views.{SpinHolds};
ghost use Rattle.wait_list.specs.Lists.{AreAmong, first_of, only_steps};
ghost use Rattle.rwsem_wake.specs.declared.batches.TheConstants.{MAX_READERS_WAKEUP};
ghost use Rattle.rwsem_wake.specs.RwSemViews.{MayPick, sem_of};
ghost use Rattle.rwsem_wake.specs.Removals.{AreHeads, BeginsWith, KnowsList, RemovesAll};
ghost use Rattle.rwsem_wake.specs.Grants.{AreTaskNumbers, KeepsOut};

use crate::host::WakeHost;
use arrayvec::ArrayVec;
use lock_core::{Pass, Site};
use wait_list::{Waiter, list};
use word_bits::MAX_TASKS;

/// How many waiters a list has at most: one for each task.
pub const MAX_WAITERS: usize = MAX_TASKS as usize;

/// Reads the whole list, which begins with this waiter.
pub fn read_list<H: WakeHost>(
    site: &Site<H>,
    pass: &mut Pass<H>,
    first: Waiter,
    waiters: &mut ArrayVec<Waiter, MAX_WAITERS>,
)
    requires own { SitsAt site.now pass.old }
    requires last { IsLatest pass.old }
    requires held { SpinHolds (view_of pass.old).spin }
    requires list { KnowsList (view_of pass.old) }
    requires first { Some first ≡ first_of (view_of pass.old).ext.list.list }
    requires task { first.task < length (plan_of site.now) }
    requires empty { waiters.old.items ≡ [] }
    ensures on { StepsAt site.now pass.old pass.new }
    ensures face { SaysSame pass.old pass.new }
    ensures later { (view_of pass.old).steps ≤ (view_of pass.new).steps }
    ensures kept { only_steps (view_of pass.old) (view_of pass.new) }
    ensures read { waiters.new.items ≡ (view_of pass.old).ext.list.list }
    ensures tasks { AreAmong (length (plan_of site.now)) (view_of pass.old).ext.list.list }
{
    waiters.push(first);
    let mut last = first;
    'walk: while waiters.len() < MAX_WAITERS {
        match list::next(site, pass, last.task) {
            None => return,
            Some(next) => {
                waiters.push(next);
                last = next;
            }
        }
    }
}

/// Removes the list's first readers, which are these, in order. Writers among them keep their
/// places.
pub fn remove_all<H: WakeHost>(site: &Site<H>, pass: &mut Pass<H>, batch: &[u32])
    requires own { SitsAt site.now pass.old }
    requires last { IsLatest pass.old }
    requires numbered { IsSome (task_in pass.old) }
    requires held { SpinHolds (view_of pass.old).spin }
    requires list { KnowsList (view_of pass.old) }
    requires may { MayPick (view_of pass.old).ext.sem }
    requires none { (view_of pass.old).ext.sem.rest ≡ [] }
    requires keeps { KeepsOut sem_of (view_of pass.old) }
    requires few { length batch.now ≤ MAX_READERS_WAKEUP }
    requires tasks { AreTaskNumbers (plan_of site.now) batch.now }
    requires heads { AreHeads batch.now (view_of pass.old).ext.list.list }
    requires begins { BeginsWith batch.now (view_of pass.old).ext.list.list }
    ensures on { StepsAt site.now pass.old pass.new }
    ensures face { SaysSame pass.old pass.new }
    ensures removed { RemovesAll (view_of pass.old) batch.now (view_of pass.new) }
{
    for task in batch {
        list::remove(site, pass, *task);
    }
}
