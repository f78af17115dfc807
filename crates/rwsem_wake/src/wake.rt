//! Wakes of a semaphore's waiters. Whom they are for is chosen under the wait lock.
ghost use Rattle.std.specs.Prelude.{◌≡◌, ◌<◌, ◌≤◌, ◌+◌, ◌%◌, [], true, false, IsSome, Some, length, ◌≢◌};
ghost use Rattle.lock_core.specs.SiteHandles.{IsLatest, plan_of, view_of, task_in, SitsAt, StepsAt, KeepsPast, SaysSame, MovesOn};
ghost use Rattle.lock_core.specs.Records.{bit};
ghost use Rattle.lock_core.specs.Views.{SpinHolds};
ghost use Rattle.rwsem_count.specs.Counts.{early_weight, shared_weight};
ghost use Rattle.rwsem_wake.specs.Grants.{AreTaskNumbers, KeepsOut};
ghost use Rattle.rwsem_wake.specs.SemParts.{some_of};
ghost use Rattle.wait_list.specs.Lists.{first_of};
ghost use Rattle.rwsem_wake.specs.RwSemViews.{MayPick, sem_of};
ghost use Rattle.rwsem_wake.specs.RwSemPlaces.{AreCounts, seen_of};
ghost use Rattle.rwsem_wake.specs.Removals.{KnowsList, RemovesAll, StaysBeside};
ghost use Rattle.rwsem_wake.specs.RwSemWakes.{Grants, kind_at, IsAtRest, Looks, MayWake, SawWriter, SetsAll, Wakes, batch_in, readers_woken, woken_tasks, HasChosenAll};
ghost use Rattle.rwsem_wake.specs.Duties.{is_left};

use crate::batches::{MAX_READERS_WAKEUP, batch};
use crate::grants::{back_out, grant_removed};
use crate::hint::{reader_hint, set_hint};
use crate::host::WakeHost;
use crate::patience::{Patience, Waited};
use crate::removal::{MAX_WAITERS, read_list, remove_all};
use crate::steps::reserve;
use crate::woken::{WakeCounts, Woken};
use arrayvec::ArrayVec;
use cpu_task::{Cpu, Crew};
use lock_core::{Pass, Site};
use rwsem_count::{has_writer, readers};
use wait_list::{Waiter, list};

/// Whom a wake wakes. The kernel's `rwsem_wake_type`.
#[derive(Clone, Copy, Debug, PartialEq, Eq)]
pub enum WakeType {
    /// The first waiter, whatever it is, and the batch where it reads.
    Any,
    /// The batch, where the first waiter reads.
    Readers,
    /// The same, by a waker that holds shared, and so keeps writers out.
    ReadOwned,
}

/// Removes the batch of the list, which begins with this waiter, a reader. Answers whether nobody
/// waits then.
fn remove_batch<H: WakeHost>(
    site: &Site<H>,
    pass: &mut Pass<H>,
    first: Waiter,
    readers: &mut ArrayVec<u32, MAX_READERS_WAKEUP>,
) -> bool
    requires own { SitsAt site.now pass.old }
    requires last { IsLatest pass.old }
    requires numbered { IsSome (task_in pass.old) }
    requires held { SpinHolds (view_of pass.old).spin }
    requires list { KnowsList (view_of pass.old) }
    requires first { Some first ≡ first_of (view_of pass.old).ext.list.list }
    requires task { first.task < length (plan_of site.now) }
    requires reader { first.writer ≡ false }
    requires may { MayPick (view_of pass.old).ext.sem }
    requires none { (view_of pass.old).ext.sem.rest ≡ [] }
    requires keeps { KeepsOut sem_of (view_of pass.old) }
    requires empty { readers.old.items ≡ [] }
    ensures on { StepsAt site.now pass.old pass.new }
    ensures face { SaysSame pass.old pass.new }
    ensures batch { readers.new.items ≡ batch_in (view_of pass.old).ext.list.list }
    ensures removed { RemovesAll (view_of pass.old)
        (batch_in (view_of pass.old).ext.list.list) (view_of pass.new) }
    ensures none_left { bit result + some_of (view_of pass.new).ext.list.list ≡ 1 }
    ensures some { 0 < length readers.new.items }
    ensures few { length readers.new.items ≤ MAX_WAITERS }
    ensures tasks { AreTaskNumbers (plan_of site.now) readers.new.items }
{
    let mut waiters: ArrayVec<Waiter, MAX_WAITERS> = ArrayVec::new();
    read_list(site, pass, first, &mut waiters);
    let known = waiters.as_slice();
    batch(known, MAX_READERS_WAKEUP, readers);
    let picked = readers.as_slice();
    remove_all(site, pass, picked);
    picked.len() == known.len()
}

/// Grants the batch of the list, which begins with this waiter, a reader. `reserved` says whether
/// the waker has a bias of its own in the count.
fn grant<H: WakeHost>(
    site: &Site<H>,
    pass: &mut Pass<H>,
    first: Waiter,
    reserved: bool,
    woken: &mut Woken,
)
    requires own { SitsAt site.now pass.old }
    requires last { IsLatest pass.old }
    requires numbered { IsSome (task_in pass.old) }
    requires held { SpinHolds (view_of pass.old).spin }
    requires list { KnowsList (view_of pass.old) }
    requires first { Some first ≡ first_of (view_of pass.old).ext.list.list }
    requires task { first.task < length (plan_of site.now) }
    requires reader { first.writer ≡ false }
    requires may { MayPick (view_of pass.old).ext.sem }
    requires none { (view_of pass.old).ext.sem.rest ≡ [] }
    requires keeps { KeepsOut sem_of (view_of pass.old) }
    requires reserved { bit reserved ≡ early_weight (view_of pass.old).ext.sem.bias }
    ensures on { StepsAt site.now pass.old pass.new }
    ensures face { SaysSame pass.old pass.new }
    ensures granted { Grants false (view_of pass.old) (view_of pass.new) }
    ensures woken { woken_tasks woken.new ≡ batch_in (view_of pass.old).ext.list.list }
    ensures tasks { AreTaskNumbers (plan_of site.now) (woken_tasks woken.new) }
{
    let mut readers: ArrayVec<u32, MAX_READERS_WAKEUP> = ArrayVec::new();
    let empty = remove_batch(site, pass, first, &mut readers);
    grant_removed(site, pass, readers.as_slice(), reserved, empty);
    *woken = Woken::Batch(readers);
}

/// Grants the batch of the list, which begins with this waiter, a reader, unless there is a writer.
/// Answers whether there is one.
fn grant_unless_written<H: WakeHost, P: Patience>(
    site: &Site<H>,
    pass: &mut Pass<H>,
    first: Waiter,
    patience: &mut P,
    woken: &mut Woken,
) -> bool
    requires own { SitsAt site.now pass.old }
    requires numbered { IsSome (task_in pass.old) }
    requires held { SpinHolds (view_of pass.old).spin }
    requires rests { IsAtRest (view_of pass.old) }
    requires list { KnowsList (view_of pass.old) }
    requires first { Some first ≡ first_of (view_of pass.old).ext.list.list }
    requires task { first.task < length (plan_of site.now) }
    requires reader { first.writer ≡ false }
    requires may { shared_weight (view_of pass.old).hand.held ≡ 0 }
    requires empty { woken_tasks woken.old ≡ [] }
    ensures on { StepsAt site.now pass.old pass.new }
    ensures face { SaysSame pass.old pass.new }
    ensures granted { Grants result (view_of pass.old) (view_of pass.new) }
    ensures woken { woken_tasks woken.new ≡
        readers_woken result (view_of pass.old).ext.list.list }
    ensures tasks { AreTaskNumbers (plan_of site.now) (woken_tasks woken.new) }
    ensures saw { SawWriter result (seen_of pass.old) (seen_of pass.new) }
    ensures steps { result ≡ true → P.said patience.old ≡ false →
        (view_of pass.new).steps ≡ (view_of pass.old).steps + 2 + bit (P.said patience.new) }
    ensures unasked { result ≡ false → P.said patience.new ≡ P.said patience.old }
    ensures asked { P.asked patience.new ≡ P.asked patience.old }
    ensures sleeps { P.sleeps patience.new ≡ P.sleeps patience.old }
    ensures rescheds { P.rescheds patience.new ≡ P.rescheds patience.old }
{
    // A writer that comes after the reserved bias finds the count taken; one that was there before
    // is seen here, and its release wakes the readers.
    let seen = reserve(site, pass);
    if has_writer(seen) {
        let overdue = patience.is_over();
        back_out(site, pass, first.task, seen, overdue);
        return true;
    }
    // Spinning writers see early that readers have the lock.
    set_hint(site, pass, reader_hint(first.task));
    grant(site, pass, first, true, woken);
    false
}

/// Ends the sleeps of these tasks, once the pass has set the wake word of each that it had chosen.
fn end_sleep<H: WakeHost, C: Crew>(pass: &Pass<H>, crew: &C, tasks: &[u32])
    requires set { (view_of pass.now).ext.wake.chosen ≡ [] }
{
    for task in tasks {
        crew.wake(*task);
    }
}

/// Wakes these tasks, which are those that the pass has chosen. The kernel's `wake_up_q`.
pub fn wake_tasks<H: WakeHost, C: Crew>(
    site: &Site<H>,
    pass: &mut Pass<H>,
    crew: &C,
    counts: &mut WakeCounts,
    tasks: &[u32],
)
    requires own { SitsAt site.now pass.old }
    requires chosen { (view_of pass.old).ext.wake.chosen ≡ tasks.now }
    requires granted { (view_of pass.old).ext.sem.rest ≡ [] }
    requires tasks { AreTaskNumbers (plan_of site.now) tasks.now }
    requires counted { AreCounts counts.old (view_of pass.old) }
    ensures own { SitsAt site.now pass.new }
    ensures goes_on { KeepsPast pass.old pass.new }
    ensures face { SaysSame pass.old pass.new }
    ensures set { SetsAll (length tasks.now) (view_of pass.old) (view_of pass.new) }
    ensures counted { AreCounts counts.new (view_of pass.new) }
{
    for task in tasks {
        wake_duty::set(site, pass, *task);
        counts.wakes = counts.wakes.saturating_add(1);
    }
    // The words are set before the sleeps are ended: a task that swaps its word between the two
    // finds it set and doesn't sleep. The sleep of one that swapped it before is ended by the wake.
    end_sleep(pass, crew, tasks);
}

/// Looks once more at the head of the list, which the pass knows. By this look it chooses the first
/// waiter where that is a writer, unless it holds shared. The second load closes no race: by it
/// alone the rule lets a pass choose a writer, or see that nobody is to be woken.
fn choose<H: WakeHost>(site: &Site<H>, pass: &mut Pass<H>)
    requires own { SitsAt site.now pass.old }
    requires numbered { IsSome (task_in pass.old) }
    requires held { SpinHolds (view_of pass.old).spin }
    requires rests { IsAtRest (view_of pass.old) }
    requires list { KnowsList (view_of pass.old) }
    ensures own { SitsAt site.now pass.new }
    ensures goes_on { KeepsPast pass.old pass.new }
    ensures face { SaysSame pass.old pass.new }
    ensures looks { Looks (view_of pass.old) (view_of pass.new) }
{
    list::first_task(site, pass);
}

/// Looks under the wait lock whom to wake, and grants readers: `woken`, which was empty, has the
/// tasks that the caller is to wake. Nobody is woken where nobody waits. The kernel's
/// `rwsem_mark_wake`.
pub fn wake<H: WakeHost, P: Patience>(
    site: &Site<H>,
    pass: &mut Pass<H>,
    kind: WakeType,
    patience: &mut P,
    woken: &mut Woken,
)
    requires own { SitsAt site.now pass.old }
    requires numbered { IsSome (task_in pass.old) }
    requires held { SpinHolds (view_of pass.old).spin }
    requires rests { IsAtRest (view_of pass.old) }
    requires may { MayWake kind (view_of pass.old) }
    requires empty { woken_tasks woken.old ≡ [] }
    ensures on { MovesOn site.now pass.old pass.new }
    ensures wakes { Wakes kind (woken_tasks woken.new) pass.old pass.new }
    ensures tasks { AreTaskNumbers (plan_of site.now) (woken_tasks woken.new) }
    ensures asked { P.asked patience.new ≡ P.asked patience.old }
    ensures sleeps { P.sleeps patience.new ≡ P.sleeps patience.old }
    ensures rescheds { P.rescheds patience.new ≡ P.rescheds patience.old }
{
    let Some(first) = list::first(site, pass) else {
        choose(site, pass);
        return;
    };
    if first.writer {
        match kind {
            WakeType::Any => {
                choose(site, pass);
                *woken = Woken::First(first.task);
            }
            // Who wakes readers alone, and doesn't hold, has seen others who hold: they look.
            WakeType::Readers => {}
            WakeType::ReadOwned => choose(site, pass),
        }
        return;
    }
    match kind {
        WakeType::Any | WakeType::Readers => {
            grant_unless_written(site, pass, first, patience, woken);
        }
        WakeType::ReadOwned => grant(site, pass, first, false, woken),
    }
}

/// Whom a waiter wakes that found this count, without a writer: where readers hold, only readers
/// may go on.
fn kind_for(count: u64) -> WakeType
    ensures other { result ≢ WakeType.ReadOwned }
    ensures left { is_left count ≡ true → result ≡ WakeType.Any }
    ensures kind { result ≡ kind_at count }
{
    if readers(count) == 0 {
        WakeType::Any
    } else {
        WakeType::Readers
    }
}

/// Looks under the wait lock which others may go on at this count: nobody where there is a writer,
/// whose release looks. `woken`, which was empty, has the tasks that the caller is to wake.
pub fn choose_others<H: WakeHost, C: Cpu>(
    site: &Site<H>,
    pass: &mut Pass<H>,
    cpu: &mut C,
    count: u64,
    woken: &mut Woken,
)
    requires own { SitsAt site.now pass.old }
    requires numbered { IsSome (task_in pass.old) }
    requires locked { SpinHolds (view_of pass.old).spin }
    requires rests { IsAtRest (view_of pass.old) }
    requires out { shared_weight (view_of pass.old).hand.held ≡ 0 }
    requires owes { is_left count ≡ false → (view_of pass.old).ext.wake.owing ≡ false }
    requires empty { woken_tasks woken.old ≡ [] }
    ensures on { MovesOn site.now pass.old pass.new }
    ensures beside { StaysBeside (view_of pass.old) (view_of pass.new) }
    ensures rests { IsAtRest (view_of pass.new) }
    ensures chosen { HasChosenAll (woken_tasks woken.new) (view_of pass.old) (view_of pass.new) }
    ensures wakes { count % 2 ≡ 0 →
        Wakes (kind_at count) (woken_tasks woken.new) pass.old pass.new }
    ensures none { count % 2 ≡ 1 → woken_tasks woken.new ≡ [] }
    ensures tasks { AreTaskNumbers (plan_of site.now) (woken_tasks woken.new) }
    ensures sleeps { C.sleeps cpu.new ≡ C.sleeps cpu.old }
    ensures rescheds { C.rescheds cpu.new ≡ C.rescheds cpu.old }
{
    if has_writer(count) {
        return;
    }
    let kind = kind_for(count);
    wake(site, pass, kind, &mut Waited { cpu, over: false }, woken);
}
