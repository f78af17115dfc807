//! The parts of a wake that are steps on the count, the marks and the grant words.
ghost use Rattle.std.specs.Prelude.{◌≡◌, ◌<◌, ◌≤◌, ◌+◌, ◌%◌, IsSome, length};
ghost use Rattle.lock_core.specs.SiteHandles.{IsLatest, plan_of, view_of, task_in, SitsAt, StepsAt, SaysSame};
ghost use Rattle.lock_core.specs.Records.{bit};
ghost use Rattle.lock_core.specs.Views.{SpinHolds};
ghost use Rattle.wait_list.specs.Lists.{Knows, hand_at, list_part};
ghost use Rattle.rwsem_count.specs.Counts.{early_weight};
ghost use Rattle.rwsem_wake.specs.SemParts.{some_of};
ghost use Rattle.rwsem_wake.specs.Grants.{AreTaskNumbers, HasWholeBatch, IsGranting, IsNext, IsRemoved, IsReserved, KeepsOut, KnowsFirst, OnlySem, all_granted, counted, sem_at, summing, unreserved};
ghost use Rattle.rwsem_wake.specs.Types.{Removing, Summing};

use crate::host::GrantHost;
use crate::steps;
use lock_core::{Pass, Site};
use rwsem_count::{BIAS, HANDOFF, WAITERS, has_handoff};
use word_bits::MAX_TASKS;

/// Takes a waker's bias back that was added while there was a writer. `seen` is the count that its
/// addition found. Where the time of the first waiter is over, it is marked and HANDOFF is set.
pub fn back_out<H: GrantHost>(
    site: &Site<H>,
    pass: &mut Pass<H>,
    first: u32,
    seen: u64,
    overdue: bool,
)
    requires own { SitsAt site.now pass.old }
    requires numbered { IsSome (task_in pass.old) }
    requires held { SpinHolds (view_of pass.old).spin }
    requires reserved { IsReserved (sem_at H.sem (view_of pass.old)) seen }
    requires written { seen % 2 ≡ 1 }
    requires first { KnowsFirst H.list (view_of pass.old) first }
    requires task { first < length (plan_of site.now) }
    ensures on { StepsAt site.now pass.old pass.new }
    ensures face { SaysSame pass.old pass.new }
    ensures later { (view_of pass.old).steps ≤ (view_of pass.new).steps }
    ensures steps { (view_of pass.new).steps ≡ (view_of pass.old).steps + 1 + bit overdue }
    ensures kept { OnlySem H.with_sem (view_of pass.old)
        (unreserved (sem_at H.sem (view_of pass.old))) (view_of pass.new) }
{
    if overdue {
        steps::mark_first(site, pass, first);
        steps::ask_handoff(site, pass, has_handoff(seen));
    } else {
        steps::unreserve(site, pass);
    }
}

/// Clears the mark of the first task of a batch, which is removed from the list, where it is set.
pub fn clear_first<H: GrantHost>(site: &Site<H>, pass: &mut Pass<H>, task: u32)
    requires own { SitsAt site.now pass.old }
    requires numbered { IsSome (task_in pass.old) }
    requires held { SpinHolds (view_of pass.old).spin }
    requires next { IsNext (sem_at H.sem (view_of pass.old)) Removing task }
    requires task { task < length (plan_of site.now) }
    ensures on { StepsAt site.now pass.old pass.new }
    ensures face { SaysSame pass.old pass.new }
    ensures later { (view_of pass.old).steps ≤ (view_of pass.new).steps }
    ensures kept { OnlySem H.with_sem (view_of pass.old)
        (summing (sem_at H.sem (view_of pass.old))) (view_of pass.new) }
{
    if steps::look_mark(site, pass, task) != 0 {
        steps::clear_mark(site, pass, task);
    }
}

/// Puts a removed batch of so many readers, one at least, into the count. `reserved` says whether
/// the waker has a bias of its own there, which goes. `empty` says whether the list is empty, so
/// that WAITERS goes.
pub fn count_batch<H: GrantHost>(
    site: &Site<H>,
    pass: &mut Pass<H>,
    readers: u64,
    reserved: bool,
    empty: bool,
)
    requires own { SitsAt site.now pass.old }
    requires numbered { IsSome (task_in pass.old) }
    requires held { SpinHolds (view_of pass.old).spin }
    requires summing { (sem_at H.sem (view_of pass.old)).stage ≡ Summing }
    requires keeps { KeepsOut H.sem (view_of pass.old) }
    requires knows { Knows (list_part H.list (view_of pass.old)) }
    requires whole { HasWholeBatch H.list H.sem (view_of pass.old) }
    requires readers { readers ≡ length (sem_at H.sem (view_of pass.old)).rest }
    requires some { 0 < readers }
    requires few { readers ≤ MAX_TASKS }
    requires reserved { bit reserved ≡ early_weight (sem_at H.sem (view_of pass.old)).bias }
    requires empty { bit empty + some_of (hand_at H.list (view_of pass.old)).list ≡ 1 }
    ensures on { StepsAt site.now pass.old pass.new }
    ensures face { SaysSame pass.old pass.new }
    ensures later { (view_of pass.old).steps ≤ (view_of pass.new).steps }
    ensures kept { OnlySem H.with_sem (view_of pass.old)
        (counted (sem_at H.sem (view_of pass.old))) (view_of pass.new) }
{
    // HANDOFF is loaded and answered under the wait lock, under which alone it changes.
    let handoff = has_handoff(steps::look_count(site, pass));
    let gain = BIAS * readers;
    let loss = BIAS * u64::from(reserved)
        + HANDOFF * u64::from(handoff)
        + WAITERS * u64::from(empty);
    if gain != loss {
        steps::add_sum(site, pass, gain, loss);
    }
}

/// Clears the grant words of a batch, in order. Its readers are to be woken afterwards.
pub fn grant_all<H: GrantHost>(site: &Site<H>, pass: &mut Pass<H>, batch: &[u32])
    requires own { SitsAt site.now pass.old }
    requires last { IsLatest pass.old }
    requires numbered { IsSome (task_in pass.old) }
    requires held { SpinHolds (view_of pass.old).spin }
    requires granting { IsGranting (sem_at H.sem (view_of pass.old)) batch.now }
    requires tasks { AreTaskNumbers (plan_of site.now) batch.now }
    ensures on { StepsAt site.now pass.old pass.new }
    ensures face { SaysSame pass.old pass.new }
    ensures later { (view_of pass.old).steps ≤ (view_of pass.new).steps }
    ensures kept { OnlySem H.with_sem (view_of pass.old)
        (all_granted (sem_at H.sem (view_of pass.old))) (view_of pass.new) }
{
    for task in batch {
        steps::clear_grant(site, pass, *task);
    }
}

/// Grants a batch that is removed from the list, and not empty: its first waiter loses its mark,
/// the count gets its biases, and only then its grant words are cleared.
pub fn grant_removed<H: GrantHost>(
    site: &Site<H>,
    pass: &mut Pass<H>,
    batch: &[u32],
    reserved: bool,
    empty: bool,
)
    requires own { SitsAt site.now pass.old }
    requires numbered { IsSome (task_in pass.old) }
    requires held { SpinHolds (view_of pass.old).spin }
    requires removed { IsRemoved (sem_at H.sem (view_of pass.old)) batch.now }
    requires tasks { AreTaskNumbers (plan_of site.now) batch.now }
    requires keeps { KeepsOut H.sem (view_of pass.old) }
    requires knows { Knows (list_part H.list (view_of pass.old)) }
    requires whole { HasWholeBatch H.list H.sem (view_of pass.old) }
    requires reserved { bit reserved ≡ early_weight (sem_at H.sem (view_of pass.old)).bias }
    requires empty { bit empty + some_of (hand_at H.list (view_of pass.old)).list ≡ 1 }
    ensures on { StepsAt site.now pass.old pass.new }
    ensures face { SaysSame pass.old pass.new }
    ensures later { (view_of pass.old).steps ≤ (view_of pass.new).steps }
    ensures kept { OnlySem H.with_sem (view_of pass.old)
        (all_granted (sem_at H.sem (view_of pass.old))) (view_of pass.new) }
{
    clear_first(site, pass, batch[0]);
    count_batch(site, pass, batch.len() as u64, reserved, empty);
    grant_all(site, pass, batch);
}
