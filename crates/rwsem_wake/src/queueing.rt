//! The single steps of tasks that queue, on the count, the marks and the grant words of any host.
ghost use Rattle.std.specs.Prelude.{◌≡◌, ◌≢◌, ℕ, ◌<◌, ◌≤◌, ◌+◌, ◌-◌, ◌*◌, ◌%◌, ◌==◌, ◌⊎◌, true, false, IsSome, Some, length};
ghost use Rattle.word_bits.specs.LockWords.{IsLawfulCount};
ghost use Rattle.lock_core.specs.SiteHandles.{plan_of, view_of, past_of, task_in, held_in, SitsAt, StepsAt, SaysSame};
ghost use Rattle.lock_core.specs.Pasts.{FoundAt};
ghost use Rattle.lock_core.specs.Records.{bit};
ghost use Rattle.lock_core.specs.Views.{SpinHolds};
ghost use Rattle.rwsem_wake.specs.Grants.{Did, KnowsFirst, StepChanges, ChangesTo, TurnsTo, anything, sem_at, summing, unmarked, unreserved, wake_at};
ghost use Rattle.rwsem_wake.specs.Duties.{exchanged, heard_at, heard_locked_at, left_by, paid, saw_count, saw_mark, sees_itself};
ghost use Rattle.rwsem_wake.specs.GrantQueues.{HoldsBy, HoldsWhere, KnowsSome, MayAsk, MayHear, MayLook, MaySettle, MayTake, asked, heard, heard_locked, own_unmarked, rested, settled, taken};
ghost use Rattle.rwsem_wake.specs.Types.{No, Shared, Alone, Clear, Transit, Rest, First, Joining, Marking, Removed, Emptied, Writes};

use crate::host::GrantHost;
use crate::steps::{LINE, MARKED};
use atomic_table::Play;
use lock_core::view::View;
use lock_core::{Held, Op, Pass, Site};
use rwsem_count::{BIAS, HANDOFF, WAITERS, has_writer};
use std::marker::PhantomData;

/// What is to be taken from a count so that a bias goes and, where the task is alone in the list,
/// WAITERS comes.
fn bias_but_waiters(alone: bool) -> u64
    ensures { result + 2 * bit alone ≡ BIAS }
{
    if alone { BIAS - WAITERS } else { BIAS }
}

struct SetWaiters<H> {
    host: PhantomData<H>,
}

impl<H: GrantHost> Play<(), View<H::Ext>> for SetWaiters<H> {
    ghost then = { Did H.with_sem (λ v n. rested (H.sem v.ext)) IsLawfulCount };
}

/// Sets WAITERS. The writer stands alone in the list.
pub fn set_waiters<H: GrantHost>(site: &Site<H>, pass: &mut Pass<H>)
    requires own { SitsAt site.now pass.old }
    requires numbered { IsSome (task_in pass.old) }
    requires held { SpinHolds (view_of pass.old).spin }
    requires first { (sem_at H.sem (view_of pass.old)).stage ≡ First }
    requires clear { (sem_at H.sem (view_of pass.old)).bias ≡ Clear }
    ensures on { StepsAt site.now pass.old pass.new }
    ensures face { SaysSame pass.old pass.new }
    ensures kept { TurnsTo H.with_sem (view_of pass.old)
        (rested (sem_at H.sem (view_of pass.old))) (view_of pass.new) }
{
    site.step::<SetWaiters<H>>(pass, H::COUNT, Op::Or(WAITERS));
}

struct TakeBack<H> {
    host: PhantomData<H>,
}

impl<H: GrantHost> Play<(), View<H::Ext>> for TakeBack<H> {
    ghost then = { λ st. StepChanges H.with_sem H.with_wake (λ v n. unreserved (H.sem v.ext)) (λ v n. left_by (n - st.first) (H.wake v.ext)) (λ n. IsLawfulCount n × (256 ≤ n)) st };
}

/// Takes back the bias of a reader that has joined the list, and sets WAITERS where it stands alone
/// there, in one step. Answers the count that this leaves.
pub fn take_back<H: GrantHost>(site: &Site<H>, pass: &mut Pass<H>, alone: bool) -> u64
    requires own { SitsAt site.now pass.old }
    requires numbered { IsSome (task_in pass.old) }
    requires held { SpinHolds (view_of pass.old).spin }
    requires joined { (sem_at H.sem (view_of pass.old)).stage ≡ Joining alone }
    requires transit { (word : ℕ) × ((sem_at H.sem (view_of pass.old)).bias ≡ Transit word) }
    requires clear { (wake_at H.wake (view_of pass.old)).owing ≡ false }
    ensures on { StepsAt site.now pass.old pass.new }
    ensures face { SaysSame pass.old pass.new }
    ensures kept { ChangesTo H.with_sem H.with_wake (view_of pass.old)
        (unreserved (sem_at H.sem (view_of pass.old)))
        (left_by result (wake_at H.wake (view_of pass.old))) (view_of pass.new) }
    ensures left { (word : ℕ) × FoundAt H.COUNT word (past_of pass.new) × IsLawfulCount word
        × (result + 256 ≡ word + 2 * bit alone) }
{
    // The bias goes once the reader stands in the list. Until then the last reader that releases
    // takes it for one that holds, and leaves the wake to it; the count that it leaves tells of
    // such a release, and of that of a writer that found nobody waiting.
    let less = bias_but_waiters(alone);
    site.step::<TakeBack<H>>(pass, H::COUNT, Op::Sub(less)) - less
}

struct LookListed<H> {
    host: PhantomData<H>,
}

impl<H: GrantHost> Play<(), View<H::Ext>> for LookListed<H> {
    ghost then = { λ st m. StepChanges H.with_sem H.with_wake (λ v n. H.sem v.ext) (λ v n. saw_count n (H.wake v.ext)) (λ n. KnowsSome H.list m.0 × IsLawfulCount n) st m };
}

/// A queued writer loads the count, under the wait lock. Where that isn't free, the writer may
/// sleep once it has released the lock. The list isn't empty, since the writer stands in it.
pub fn look_listed<H: GrantHost>(site: &Site<H>, pass: &mut Pass<H>) -> u64
    requires own { SitsAt site.now pass.old }
    requires numbered { IsSome (task_in pass.old) }
    requires held { SpinHolds (view_of pass.old).spin }
    requires rests { (sem_at H.sem (view_of pass.old)).stage ≡ Rest }
    requires writes { (sem_at H.sem (view_of pass.old)).wait ≡ Writes }
    requires clear { (sem_at H.sem (view_of pass.old)).bias ≡ Clear }
    ensures on { StepsAt site.now pass.old pass.new }
    ensures face { SaysSame pass.old pass.new }
    ensures kept { ChangesTo H.with_sem H.with_wake (view_of pass.old)
        (sem_at H.sem (view_of pass.old))
        (saw_count result (wake_at H.wake (view_of pass.old))) (view_of pass.new) }
    ensures there { KnowsSome H.list (view_of pass.old) }
    ensures lawful { IsLawfulCount result }
    ensures found { FoundAt H.COUNT result (past_of pass.new) }
{
    site.step::<LookListed<H>>(pass, H::COUNT, Op::Load)
}

struct AskHandoff<H> {
    host: PhantomData<H>,
}

impl<H: GrantHost> Play<(), View<H::Ext>> for AskHandoff<H> {
    ghost then = { λ st. Did H.with_sem (λ v n. asked (H.sem v.ext) st.first n) IsLawfulCount st };
}

/// An overdue writer's exchange of a count for one with HANDOFF. Answers the count that it found;
/// where that is the expected one the first waiter is to be marked.
pub fn ask<H: GrantHost>(site: &Site<H>, pass: &mut Pass<H>, old: u64, new: u64) -> u64
    requires own { SitsAt site.now pass.old }
    requires numbered { IsSome (task_in pass.old) }
    requires held { SpinHolds (view_of pass.old).spin }
    requires may { MayAsk H.list H.sem (view_of pass.old) old new }
    ensures on { StepsAt site.now pass.old pass.new }
    ensures face { SaysSame pass.old pass.new }
    ensures kept { TurnsTo H.with_sem (view_of pass.old)
        (asked (sem_at H.sem (view_of pass.old)) old result) (view_of pass.new) }
    ensures lawful { IsLawfulCount result }
    ensures found { FoundAt H.COUNT result (past_of pass.new) }
{
    // An exchange: where the holders have left since the look, the writer takes and asks for
    // nothing.
    site.step::<AskHandoff<H>>(pass, H::COUNT, Op::Exchange(old, new))
}

struct MarkAsked<H> {
    host: PhantomData<H>,
}

impl<H: GrantHost> Play<(), View<H::Ext>> for MarkAsked<H> {
    ghost then = { Did H.with_sem (λ v n. rested (H.sem v.ext)) anything };
}

/// Marks the first waiter, for which HANDOFF was set. The kernel sets its `handoff_set`.
pub fn mark_asked<H: GrantHost>(site: &Site<H>, pass: &mut Pass<H>, task: u32)
    requires own { SitsAt site.now pass.old }
    requires numbered { IsSome (task_in pass.old) }
    requires held { SpinHolds (view_of pass.old).spin }
    requires asked { (sem_at H.sem (view_of pass.old)).stage ≡ Marking }
    requires writes { (sem_at H.sem (view_of pass.old)).wait ≡ Writes }
    requires clear { (sem_at H.sem (view_of pass.old)).bias ≡ Clear }
    requires first { KnowsFirst H.list (view_of pass.old) task }
    requires task { task < length (plan_of site.now) }
    ensures on { StepsAt site.now pass.old pass.new }
    ensures face { SaysSame pass.old pass.new }
    ensures kept { TurnsTo H.with_sem (view_of pass.old)
        (rested (sem_at H.sem (view_of pass.old))) (view_of pass.new) }
{
    site.step::<MarkAsked<H>>(pass, H::MARKS + LINE * task as usize, Op::Store(MARKED));
}

struct LookFirst<H> {
    host: PhantomData<H>,
}

impl<H: GrantHost> Play<(), View<H::Ext>> for LookFirst<H> {
    ghost then = { StepChanges H.with_sem H.with_wake (λ v n. unmarked (H.sem v.ext) n) (λ v n. saw_mark (sees_itself H.list v) n (H.wake v.ext)) anything };
}

/// Loads the mark of the first waiter. Where it is 0, nobody is marked. A writer behind a marked
/// one may sleep once it has released the wait lock.
pub fn look_first<H: GrantHost>(site: &Site<H>, pass: &mut Pass<H>, task: u32) -> u64
    requires own { SitsAt site.now pass.old }
    requires numbered { IsSome (task_in pass.old) }
    requires held { SpinHolds (view_of pass.old).spin }
    requires may { MayLook H.list H.sem (view_of pass.old) task }
    requires waits { (sees_itself H.list (view_of pass.old) ≡ true)
        ⊎ ((sem_at H.sem (view_of pass.old)).wait ≡ Writes) }
    requires task { task < length (plan_of site.now) }
    ensures on { StepsAt site.now pass.old pass.new }
    ensures face { SaysSame pass.old pass.new }
    ensures kept { ChangesTo H.with_sem H.with_wake (view_of pass.old)
        (unmarked (sem_at H.sem (view_of pass.old)) result)
        (saw_mark (sees_itself H.list (view_of pass.old)) result
        (wake_at H.wake (view_of pass.old))) (view_of pass.new) }
    ensures found { FoundAt (H.MARKS + 8 * task) result (past_of pass.new) }
{
    site.step::<LookFirst<H>>(pass, H::MARKS + LINE * task as usize, Op::Load)
}

struct ClearFirst<H> {
    host: PhantomData<H>,
}

impl<H: GrantHost> Play<(), View<H::Ext>> for ClearFirst<H> {
    ghost then = { Did H.with_sem (λ v n. summing (H.sem v.ext)) anything };
}

/// Clears the mark of the pass's own task, which is the first waiter and is to leave. Nobody is
/// marked then.
pub fn clear_first<H: GrantHost>(site: &Site<H>, pass: &mut Pass<H>, task: u32)
    requires own { SitsAt site.now pass.old }
    requires held { SpinHolds (view_of pass.old).spin }
    requires mine { task_in pass.old ≡ Some task }
    requires may { MayLook H.list H.sem (view_of pass.old) task }
    requires task { task < length (plan_of site.now) }
    ensures on { StepsAt site.now pass.old pass.new }
    ensures face { SaysSame pass.old pass.new }
    ensures kept { TurnsTo H.with_sem (view_of pass.old)
        (summing (sem_at H.sem (view_of pass.old))) (view_of pass.new) }
{
    // A mark that stayed would be there at the task's next wait, for which nobody asked for a
    // handoff.
    site.step::<ClearFirst<H>>(pass, H::MARKS + LINE * task as usize, Op::Store(0));
}

struct LookOwn<H> {
    host: PhantomData<H>,
}

impl<H: GrantHost> Play<(), View<H::Ext>> for LookOwn<H> {
    ghost then = { Did H.with_sem (λ v n. own_unmarked (H.sem v.ext) n) anything };
}

/// Loads the own mark of a writer that took and has left the list.
pub fn look_own<H: GrantHost>(site: &Site<H>, pass: &mut Pass<H>, task: u32) -> u64
    requires own { SitsAt site.now pass.old }
    requires held { SpinHolds (view_of pass.old).spin }
    requires mine { task_in pass.old ≡ Some task }
    requires removed { (sem_at H.sem (view_of pass.old)).stage ≡ Removed }
    requires clear { (sem_at H.sem (view_of pass.old)).bias ≡ Clear }
    requires task { task < length (plan_of site.now) }
    ensures on { StepsAt site.now pass.old pass.new }
    ensures face { SaysSame pass.old pass.new }
    ensures kept { TurnsTo H.with_sem (view_of pass.old)
        (own_unmarked (sem_at H.sem (view_of pass.old)) result) (view_of pass.new) }
    ensures found { FoundAt (H.MARKS + 8 * task) result (past_of pass.new) }
{
    site.step::<LookOwn<H>>(pass, H::MARKS + LINE * task as usize, Op::Load)
}

struct ClearOwn<H> {
    host: PhantomData<H>,
}

impl<H: GrantHost> Play<(), View<H::Ext>> for ClearOwn<H> {
    ghost then = { Did H.with_sem (λ v n. rested (H.sem v.ext)) anything };
}

/// Clears that mark.
pub fn clear_own<H: GrantHost>(site: &Site<H>, pass: &mut Pass<H>, task: u32)
    requires own { SitsAt site.now pass.old }
    requires held { SpinHolds (view_of pass.old).spin }
    requires mine { task_in pass.old ≡ Some task }
    requires removed { (sem_at H.sem (view_of pass.old)).stage ≡ Removed }
    requires clear { (sem_at H.sem (view_of pass.old)).bias ≡ Clear }
    requires task { task < length (plan_of site.now) }
    ensures on { StepsAt site.now pass.old pass.new }
    ensures face { SaysSame pass.old pass.new }
    ensures kept { TurnsTo H.with_sem (view_of pass.old)
        (rested (sem_at H.sem (view_of pass.old))) (view_of pass.new) }
{
    site.step::<ClearOwn<H>>(pass, H::MARKS + LINE * task as usize, Op::Store(0));
}

struct ClearFlags<H> {
    host: PhantomData<H>,
}

impl<H: GrantHost> Play<(), View<H::Ext>> for ClearFlags<H> {
    ghost then = { StepChanges H.with_sem H.with_wake (λ v n. rested (H.sem v.ext)) (λ v n. paid (H.wake v.ext)) IsLawfulCount };
}

/// Clears WAITERS and HANDOFF. The list is empty.
pub fn clear_flags<H: GrantHost>(site: &Site<H>, pass: &mut Pass<H>)
    requires own { SitsAt site.now pass.old }
    requires numbered { IsSome (task_in pass.old) }
    requires held { SpinHolds (view_of pass.old).spin }
    requires emptied { (sem_at H.sem (view_of pass.old)).stage ≡ Emptied }
    requires clear { (sem_at H.sem (view_of pass.old)).bias ≡ Clear }
    ensures on { StepsAt site.now pass.old pass.new }
    ensures face { SaysSame pass.old pass.new }
    ensures kept { ChangesTo H.with_sem H.with_wake (view_of pass.old)
        (rested (sem_at H.sem (view_of pass.old))) (paid (wake_at H.wake (view_of pass.old)))
        (view_of pass.new) }
{
    site.step::<ClearFlags<H>>(pass, H::COUNT, Op::And(!(WAITERS + HANDOFF)));
}

struct TakeFree<H> {
    host: PhantomData<H>,
}

impl<H: GrantHost> Play<(), View<H::Ext>> for TakeFree<H> {
    ghost then = { λ st m. HoldsWhere H.with_sem H.with_wake H.O.object Alone (λ n. n == st.first) (λ n. taken (H.sem m.0.ext) st.first n) (λ n. exchanged st.first n (H.wake m.0.ext)) IsLawfulCount m };
}

/// A queued writer's exchange of a free count for one with a writer. Answers the count that it
/// found; where that is the expected one the writer holds.
pub fn take<H: GrantHost>(
    site: &Site<H>,
    pass: &mut Pass<H>,
    task: u32,
    alone: bool,
    old: u64,
    new: u64,
) -> u64
    requires own { SitsAt site.now pass.old }
    requires mine { task_in pass.old ≡ Some task }
    requires out { held_in pass.old ≡ No }
    requires held { SpinHolds (view_of pass.old).spin }
    requires may { MayTake H.list H.sem (view_of pass.old) task alone old new }
    ensures on { StepsAt site.now pass.old pass.new }
    ensures took { result ≡ old → HoldsBy H.with_sem H.with_wake H.O.object (plan_of site.now) Alone
        (taken (sem_at H.sem (view_of pass.old)) old result)
        (exchanged old result (wake_at H.wake (view_of pass.old)))
        (view_of pass.old) (view_of pass.new) }
    ensures face { result ≢ old → SaysSame pass.old pass.new }
    ensures missed { result ≢ old → ChangesTo H.with_sem H.with_wake (view_of pass.old)
        (taken (sem_at H.sem (view_of pass.old)) old result)
        (exchanged old result (wake_at H.wake (view_of pass.old))) (view_of pass.new) }
    ensures lawful { IsLawfulCount result }
    ensures found { FoundAt H.COUNT result (past_of pass.new) }
{
    // One step looks and takes: between a load and a store a reader could add its bias.
    let found = site.step::<TakeFree<H>>(pass, H::COUNT, Op::Exchange(old, new));
    if found == old {
        pass.set_held(Held::Alone);
    }
    found
}

struct LookSettled<H> {
    host: PhantomData<H>,
}

impl<H: GrantHost> Play<(), View<H::Ext>> for LookSettled<H> {
    ghost then = { λ st m. HoldsWhere H.with_sem H.with_wake H.O.object Shared (λ n. n % 2 == 0) (λ n. settled (H.sem m.0.ext) n) (λ n. H.wake m.0.ext) IsLawfulCount m };
}

/// A reader whose bias is in the count loads it, while nobody waits. Where it has no writer the
/// reader holds.
pub fn settle<H: GrantHost>(site: &Site<H>, pass: &mut Pass<H>) -> bool
    requires own { SitsAt site.now pass.old }
    requires numbered { IsSome (task_in pass.old) }
    requires out { held_in pass.old ≡ No }
    requires held { SpinHolds (view_of pass.old).spin }
    requires may { MaySettle H.list H.sem (view_of pass.old) }
    ensures on { StepsAt site.now pass.old pass.new }
    ensures took { result ≡ true → (word : ℕ) × FoundAt H.COUNT word (past_of pass.new)
        × (word % 2 ≡ 0) × HoldsBy H.with_sem H.with_wake H.O.object (plan_of site.now) Shared
        (settled (sem_at H.sem (view_of pass.old)) word) (wake_at H.wake (view_of pass.old))
        (view_of pass.old) (view_of pass.new) }
    ensures face { result ≢ true → SaysSame pass.old pass.new }
    ensures missed { result ≢ true → ChangesTo H.with_sem H.with_wake (view_of pass.old)
        (sem_at H.sem (view_of pass.old)) (wake_at H.wake (view_of pass.old)) (view_of pass.new) }
{
    // The writer that the addition saw may have left, and found nobody to wake: the reader must not
    // queue then.
    let free = !has_writer(site.step::<LookSettled<H>>(pass, H::COUNT, Op::Load));
    if free {
        pass.set_held(Held::Shared);
    }
    free
}

struct LookGrant<H> {
    host: PhantomData<H>,
}

impl<H: GrantHost> Play<(), View<H::Ext>> for LookGrant<H> {
    ghost then = { λ st m. HoldsWhere H.with_sem H.with_wake H.O.object Shared (λ n. n == 0) (λ n. heard (H.sem m.0.ext) n) (λ n. heard_at n (H.wake m.0.ext)) anything m };
}

/// A queued reader loads its own grant word. Where it is 0 the reader holds.
pub fn hear<H: GrantHost>(site: &Site<H>, pass: &mut Pass<H>, task: u32) -> u64
    requires own { SitsAt site.now pass.old }
    requires mine { task_in pass.old ≡ Some task }
    requires task { task < length (plan_of site.now) }
    requires out { held_in pass.old ≡ No }
    requires may { MayHear (sem_at H.sem (view_of pass.old)) }
    requires owes { (wake_at H.wake (view_of pass.old)).owing ≡ false }
    ensures on { StepsAt site.now pass.old pass.new }
    ensures took { result ≡ 0 → HoldsBy H.with_sem H.with_wake H.O.object (plan_of site.now) Shared
        (heard (sem_at H.sem (view_of pass.old)) result)
        (heard_at result (wake_at H.wake (view_of pass.old)))
        (view_of pass.old) (view_of pass.new) }
    ensures face { result ≢ 0 → SaysSame pass.old pass.new }
    ensures missed { result ≢ 0 → ChangesTo H.with_sem H.with_wake (view_of pass.old)
        (heard (sem_at H.sem (view_of pass.old)) result)
        (heard_at result (wake_at H.wake (view_of pass.old))) (view_of pass.new) }
    ensures found { FoundAt (H.GRANTS + 8 * task) result (past_of pass.new) }
{
    let word = site.step::<LookGrant<H>>(pass, H::GRANTS + LINE * task as usize, Op::Load);
    if word == 0 {
        pass.set_held(Held::Shared);
    }
    word
}

struct LookGrantLocked<H> {
    host: PhantomData<H>,
}

impl<H: GrantHost> Play<(), View<H::Ext>> for LookGrantLocked<H> {
    ghost then = { λ st m. HoldsWhere H.with_sem H.with_wake H.O.object Shared (λ n. n == 0) (λ n. heard_locked (H.sem m.0.ext) n) (λ n. heard_locked_at n (H.wake m.0.ext)) anything m };
}

/// The same under the wait lock. Where the word isn't 0, it stays so until that is released.
pub fn hear_locked<H: GrantHost>(site: &Site<H>, pass: &mut Pass<H>, task: u32) -> u64
    requires own { SitsAt site.now pass.old }
    requires mine { task_in pass.old ≡ Some task }
    requires task { task < length (plan_of site.now) }
    requires out { held_in pass.old ≡ No }
    requires held { SpinHolds (view_of pass.old).spin }
    requires may { MayHear (sem_at H.sem (view_of pass.old)) }
    requires owes { (wake_at H.wake (view_of pass.old)).owing ≡ false }
    ensures on { StepsAt site.now pass.old pass.new }
    ensures took { result ≡ 0 → HoldsBy H.with_sem H.with_wake H.O.object (plan_of site.now) Shared
        (heard_locked (sem_at H.sem (view_of pass.old)) result)
        (heard_locked_at result (wake_at H.wake (view_of pass.old)))
        (view_of pass.old) (view_of pass.new) }
    ensures face { result ≢ 0 → SaysSame pass.old pass.new }
    ensures missed { result ≢ 0 → ChangesTo H.with_sem H.with_wake (view_of pass.old)
        (heard_locked (sem_at H.sem (view_of pass.old)) result)
        (heard_locked_at result (wake_at H.wake (view_of pass.old))) (view_of pass.new) }
    ensures found { FoundAt (H.GRANTS + 8 * task) result (past_of pass.new) }
{
    let word = site.step::<LookGrantLocked<H>>(pass, H::GRANTS + LINE * task as usize, Op::Load);
    if word == 0 {
        pass.set_held(Held::Shared);
    }
    word
}
