//! The single steps of queues and wakes on the count, the marks and the grant words of any host,
//! under the wait lock.
ghost use Rattle.std.specs.Prelude.{◌≡◌, ℕ, ◌<◌, ◌≤◌, ◌+◌, ◌*◌, ◌^◌, IsSome, Some, true, length};
ghost use Rattle.word_bits.specs.LockWords.{IsLawfulCount};
ghost use Rattle.lock_core.specs.SiteHandles.{plan_of, view_of, past_of, task_in, SitsAt, StepsAt, SaysSame};
ghost use Rattle.lock_core.specs.Ops.{word_after};
ghost use Rattle.lock_core.specs.Pasts.{FoundAt};
ghost use Rattle.lock_core.specs.Records.{bit};
ghost use Rattle.lock_core.specs.Views.{SpinHolds};
ghost use Rattle.wait_list.specs.Lists.{Knows, hand_at, list_part};
ghost use Rattle.rwsem_wake.specs.Grants.{Did, HasFoundWriter, HasMarked, HasWholeBatch, IsNext, KeepsOut, KnowsFirst, MayArm, MayReserve, MaySum, StepChanges, ChangesTo, TurnsTo, anything, armed, counted, granted, looked, marked, reserved, sem_at, summing, unmarked, unreserved, wake_at};
ghost use Rattle.rwsem_wake.specs.Duties.{paid};
ghost use Rattle.rwsem_wake.specs.Types.{Clear, Granting, Removing, Summing};

use crate::host::GrantHost;
use atomic_table::Play;
use lock_core::view::View;
use lock_core::{Op, Pass, Site};
use rwsem_count::{BIAS, HANDOFF};
use std::marker::PhantomData;

/// How far the word of a task stands from that of the task before.
pub(crate) const LINE: usize = 8;

/// The grant word of a reader that waits.
const WAITING: u64 = 1;

/// The mark of a waiter whose time is over.
pub(crate) const MARKED: u64 = 1;

/// What is to be taken from a count so that a bias goes and HANDOFF, set or not, is set.
fn bias_but_handoff(handoff: bool) -> u64
    ensures { result + HANDOFF ≡ BIAS + HANDOFF * bit handoff }
{
    if handoff { BIAS } else { BIAS - HANDOFF }
}

struct StoreWaiting<H> {
    host: PhantomData<H>,
}

impl<H: GrantHost> Play<(), View<H::Ext>> for StoreWaiting<H> {
    ghost then = { Did H.with_sem (λ v n. armed (H.sem v.ext)) anything };
}

/// A reader that is to queue stores 1 in its own grant word. Only then may it enter the list: a
/// waker clears the word, and the reader waits until it is 0.
pub fn arm<H: GrantHost>(site: &Site<H>, pass: &mut Pass<H>, task: u32)
    requires own { SitsAt site.now pass.old }
    requires held { SpinHolds (view_of pass.old).spin }
    requires mine { task_in pass.old ≡ Some task }
    requires task { task < length (plan_of site.now) }
    requires rests { MayArm (sem_at H.sem (view_of pass.old)) }
    ensures on { StepsAt site.now pass.old pass.new }
    ensures face { SaysSame pass.old pass.new }
    ensures kept { TurnsTo H.with_sem (view_of pass.old)
        (armed (sem_at H.sem (view_of pass.old))) (view_of pass.new) }
{
    site.step::<StoreWaiting<H>>(pass, H::GRANTS + LINE * task as usize, Op::Store(WAITING));
}

struct AddReserved<H> {
    host: PhantomData<H>,
}

impl<H: GrantHost> Play<(), View<H::Ext>> for AddReserved<H> {
    ghost then = { StepChanges H.with_sem H.with_wake (λ v n. reserved (H.sem v.ext) n) (λ v n. paid (H.wake v.ext)) IsLawfulCount };
}

/// Adds a waker's own bias. Answers the count that it found. The kernel's first addition in
/// `rwsem_mark_wake`.
pub fn reserve<H: GrantHost>(site: &Site<H>, pass: &mut Pass<H>) -> u64
    requires own { SitsAt site.now pass.old }
    requires numbered { IsSome (task_in pass.old) }
    requires held { SpinHolds (view_of pass.old).spin }
    requires may { MayReserve H.list H.sem (view_of pass.old) }
    ensures on { StepsAt site.now pass.old pass.new }
    ensures face { SaysSame pass.old pass.new }
    ensures kept { ChangesTo H.with_sem H.with_wake (view_of pass.old)
        (reserved (sem_at H.sem (view_of pass.old)) result) (paid (wake_at H.wake (view_of pass.old)))
        (view_of pass.new) }
    ensures lawful { IsLawfulCount result }
    ensures found { FoundAt H.COUNT result (past_of pass.new) }
{
    // The bias comes before the look at the writer bit: no writer takes a count in which it stands,
    // so none comes between the look and the batch's own biases.
    site.step::<AddReserved<H>>(pass, H::COUNT, Op::Add(BIAS))
}

struct SubReserved<H> {
    host: PhantomData<H>,
}

impl<H: GrantHost> Play<(), View<H::Ext>> for SubReserved<H> {
    ghost then = { Did H.with_sem (λ v n. unreserved (H.sem v.ext)) IsLawfulCount };
}

/// Takes that bias back, whose addition saw a writer.
pub fn unreserve<H: GrantHost>(site: &Site<H>, pass: &mut Pass<H>)
    requires own { SitsAt site.now pass.old }
    requires numbered { IsSome (task_in pass.old) }
    requires held { SpinHolds (view_of pass.old).spin }
    requires written { HasFoundWriter (sem_at H.sem (view_of pass.old)) }
    ensures on { StepsAt site.now pass.old pass.new }
    ensures face { SaysSame pass.old pass.new }
    ensures kept { TurnsTo H.with_sem (view_of pass.old)
        (unreserved (sem_at H.sem (view_of pass.old))) (view_of pass.new) }
{
    site.step::<SubReserved<H>>(pass, H::COUNT, Op::Sub(BIAS));
}

struct MarkFirst<H> {
    host: PhantomData<H>,
}

impl<H: GrantHost> Play<(), View<H::Ext>> for MarkFirst<H> {
    ghost then = { Did H.with_sem (λ v n. marked (H.sem v.ext)) anything };
}

/// Marks the first waiter, whose time is over. The kernel sets its `handoff_set`.
pub fn mark_first<H: GrantHost>(site: &Site<H>, pass: &mut Pass<H>, task: u32)
    requires own { SitsAt site.now pass.old }
    requires numbered { IsSome (task_in pass.old) }
    requires held { SpinHolds (view_of pass.old).spin }
    requires written { HasFoundWriter (sem_at H.sem (view_of pass.old)) }
    requires first { KnowsFirst H.list (view_of pass.old) task }
    requires task { task < length (plan_of site.now) }
    ensures on { StepsAt site.now pass.old pass.new }
    ensures face { SaysSame pass.old pass.new }
    ensures kept { TurnsTo H.with_sem (view_of pass.old)
        (marked (sem_at H.sem (view_of pass.old))) (view_of pass.new) }
{
    // The mark comes before HANDOFF: with the flag and no mark, any writer of the list would take.
    site.step::<MarkFirst<H>>(pass, H::MARKS + LINE * task as usize, Op::Store(MARKED));
}

struct AskHandoff<H> {
    host: PhantomData<H>,
}

impl<H: GrantHost> Play<(), View<H::Ext>> for AskHandoff<H> {
    ghost then = { Did H.with_sem (λ v n. unreserved (H.sem v.ext)) IsLawfulCount };
}

/// Takes the bias back and leaves HANDOFF set, in one step. `handoff` says whether it was set
/// before.
pub fn ask_handoff<H: GrantHost>(site: &Site<H>, pass: &mut Pass<H>, handoff: bool)
    requires own { SitsAt site.now pass.old }
    requires numbered { IsSome (task_in pass.old) }
    requires held { SpinHolds (view_of pass.old).spin }
    requires marked { HasMarked (sem_at H.sem (view_of pass.old)) handoff }
    ensures on { StepsAt site.now pass.old pass.new }
    ensures face { SaysSame pass.old pass.new }
    ensures kept { TurnsTo H.with_sem (view_of pass.old)
        (unreserved (sem_at H.sem (view_of pass.old))) (view_of pass.new) }
{
    site.step::<AskHandoff<H>>(pass, H::COUNT, Op::Sub(bias_but_handoff(handoff)));
}

struct LookMark<H> {
    host: PhantomData<H>,
}

impl<H: GrantHost> Play<(), View<H::Ext>> for LookMark<H> {
    ghost then = { Did H.with_sem (λ v n. unmarked (H.sem v.ext) n) anything };
}

/// Loads the mark of the first task of a batch, which is removed from the list.
pub fn look_mark<H: GrantHost>(site: &Site<H>, pass: &mut Pass<H>, task: u32) -> u64
    requires own { SitsAt site.now pass.old }
    requires numbered { IsSome (task_in pass.old) }
    requires held { SpinHolds (view_of pass.old).spin }
    requires next { IsNext (sem_at H.sem (view_of pass.old)) Removing task }
    requires task { task < length (plan_of site.now) }
    ensures on { StepsAt site.now pass.old pass.new }
    ensures face { SaysSame pass.old pass.new }
    ensures kept { TurnsTo H.with_sem (view_of pass.old)
        (unmarked (sem_at H.sem (view_of pass.old)) result) (view_of pass.new) }
    ensures found { FoundAt (H.MARKS + 8 * task) result (past_of pass.new) }
{
    site.step::<LookMark<H>>(pass, H::MARKS + LINE * task as usize, Op::Load)
}

struct ClearMark<H> {
    host: PhantomData<H>,
}

impl<H: GrantHost> Play<(), View<H::Ext>> for ClearMark<H> {
    ghost then = { Did H.with_sem (λ v n. summing (H.sem v.ext)) anything };
}

/// Clears that mark.
pub fn clear_mark<H: GrantHost>(site: &Site<H>, pass: &mut Pass<H>, task: u32)
    requires own { SitsAt site.now pass.old }
    requires numbered { IsSome (task_in pass.old) }
    requires held { SpinHolds (view_of pass.old).spin }
    requires next { IsNext (sem_at H.sem (view_of pass.old)) Removing task }
    requires task { task < length (plan_of site.now) }
    ensures on { StepsAt site.now pass.old pass.new }
    ensures face { SaysSame pass.old pass.new }
    ensures kept { TurnsTo H.with_sem (view_of pass.old)
        (summing (sem_at H.sem (view_of pass.old))) (view_of pass.new) }
{
    site.step::<ClearMark<H>>(pass, H::MARKS + LINE * task as usize, Op::Store(0));
}

struct LookCount<H> {
    host: PhantomData<H>,
}

impl<H: GrantHost> Play<(), View<H::Ext>> for LookCount<H> {
    ghost then = { Did H.with_sem (λ v n. looked (H.sem v.ext) (H.list v.ext).list n) IsLawfulCount };
}

/// Loads the count, for what the batch is to make of it.
pub fn look_count<H: GrantHost>(site: &Site<H>, pass: &mut Pass<H>) -> u64
    requires own { SitsAt site.now pass.old }
    requires numbered { IsSome (task_in pass.old) }
    requires held { SpinHolds (view_of pass.old).spin }
    requires summing { (sem_at H.sem (view_of pass.old)).stage ≡ Summing }
    requires keeps { KeepsOut H.sem (view_of pass.old) }
    requires knows { Knows (list_part H.list (view_of pass.old)) }
    requires whole { HasWholeBatch H.list H.sem (view_of pass.old) }
    ensures on { StepsAt site.now pass.old pass.new }
    ensures face { SaysSame pass.old pass.new }
    ensures kept { TurnsTo H.with_sem (view_of pass.old)
        (looked (sem_at H.sem (view_of pass.old)) (hand_at H.list (view_of pass.old)).list result)
        (view_of pass.new) }
    ensures lawful { IsLawfulCount result }
    ensures found { FoundAt H.COUNT result (past_of pass.new) }
{
    site.step::<LookCount<H>>(pass, H::COUNT, Op::Load)
}

/// The operation by which a word gains one number and loses another, in one step.
fn gain_and_lose(gain: u64, loss: u64) -> Op
    ensures { (n : ℕ) → loss ≤ n + gain → n + gain < 2 ^ 64 + loss
        → word_after result n + loss ≡ n + gain }
{
    if gain < loss {
        Op::Sub(loss - gain)
    } else {
        Op::Add(gain - loss)
    }
}

struct AddSum<H> {
    host: PhantomData<H>,
}

impl<H: GrantHost> Play<(), View<H::Ext>> for AddSum<H> {
    ghost then = { Did H.with_sem (λ v n. counted (H.sem v.ext)) anything };
}

/// Adds to the count, in one step, what the batch makes of it: the biases of its readers come and
/// the reserved one goes, HANDOFF is answered, and WAITERS goes with the last waiter.
pub fn add_sum<H: GrantHost>(site: &Site<H>, pass: &mut Pass<H>, gain: u64, loss: u64)
    requires own { SitsAt site.now pass.old }
    requires numbered { IsSome (task_in pass.old) }
    requires held { SpinHolds (view_of pass.old).spin }
    requires sum { MaySum H.list H.sem (view_of pass.old) gain loss }
    requires keeps { KeepsOut H.sem (view_of pass.old) }
    requires knows { Knows (list_part H.list (view_of pass.old)) }
    ensures on { StepsAt site.now pass.old pass.new }
    ensures face { SaysSame pass.old pass.new }
    ensures kept { TurnsTo H.with_sem (view_of pass.old)
        (counted (sem_at H.sem (view_of pass.old))) (view_of pass.new) }
{
    site.step::<AddSum<H>>(pass, H::COUNT, gain_and_lose(gain, loss));
}

struct ClearGrant<H> {
    host: PhantomData<H>,
}

impl<H: GrantHost> Play<(), View<H::Ext>> for ClearGrant<H> {
    ghost then = { Did H.with_sem (λ v n. granted (H.sem v.ext)) anything };
}

/// Clears the grant word of the next task of a batch, whose reader holds from then on.
pub fn clear_grant<H: GrantHost>(site: &Site<H>, pass: &mut Pass<H>, task: u32)
    requires own { SitsAt site.now pass.old }
    requires numbered { IsSome (task_in pass.old) }
    requires held { SpinHolds (view_of pass.old).spin }
    requires next { IsNext (sem_at H.sem (view_of pass.old)) Granting task }
    requires clear { (sem_at H.sem (view_of pass.old)).bias ≡ Clear }
    requires task { task < length (plan_of site.now) }
    ensures on { StepsAt site.now pass.old pass.new }
    ensures face { SaysSame pass.old pass.new }
    ensures kept { TurnsTo H.with_sem (view_of pass.old)
        (granted (sem_at H.sem (view_of pass.old))) (view_of pass.new) }
{
    // The batch's biases are in the count by now: else a writer would take beside this reader.
    site.step::<ClearGrant<H>>(pass, H::GRANTS + LINE * task as usize, Op::Store(0));
}
