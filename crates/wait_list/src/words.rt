//! The words of a list, and the single steps on them. The list is doubly linked: a head and a tail,
//! which are the codes of the first and the last waiter, and for each task a line with its `next`
//! and its `prev`.
//!
//! `next` is the code of the waiter behind, or 0. `prev` is twice the code of the waiter before, or 0
//! for the first, and 1 more where the task waits as a writer. Head and tail stand where the `next`
//! and the `prev` of code 0 would, so a code gives the place of a link, from the list or from a
//! waiter. The tail is a code. The kernel's `struct list_head` is such a ring.
ghost use Rattle.std.specs.Prelude.{◌≡◌, ◌<◌, ◌≤◌, ◌+◌, ◌*◌, length};
ghost use Rattle.lock_core.specs.SiteHandles.{plan_of, view_of, past_of, SitsAt, StepsAt, SaysSame};
ghost use Rattle.lock_core.specs.Pasts.{FoundAt};
ghost use Rattle.lock_core.specs.Views.{SpinHolds};
ghost use Rattle.wait_list.specs.Lists.{AllowsKnown, HasWords, IsPrepared, IsStill, Knows, LearntWord, MayStore, list_part, listed, sighted, no_list, next_place, prev_place, entering, leaving, going_on, ending};
ghost use Rattle.wait_list.specs.ListPlays.{Got, Laid, Sighted, FoundHead};
ghost use Rattle.wait_list.specs.Types.{ListHand, Change, Stay, Enter, Leave};

use crate::host::ListHost;
use crate::view::{Change, Waiter};
use atomic_table::Play;
use lock_core::view::View;
use lock_core::{Op, Pass, Site};
use std::marker::{Brand, PhantomData};
use word_bits::MAX_TASKS;

/// The place of the head: the code of the first waiter, or 0.
pub(crate) const HEAD_AT: usize = 0;

/// The place of the tail: the code of the last waiter, or 0.
pub(crate) const TAIL_AT: usize = 1;

/// How many places the words of a list have: a line for head and tail, and one for each of
/// `MAX_TASKS` tasks. The table need not have those of tasks that aren't its plan's.
pub const LIST_WORDS: usize = 8 + 8 * MAX_TASKS as usize;

/// The place of the `next` of the waiter of this code. That of the head for code 0.
pub(crate) fn next_at(code: u64) -> usize
    requires { code ≤ MAX_TASKS }
    ensures { result ≡ next_place code }
{
    8 * code as usize
}

/// The place of the `prev` of the waiter of this code. That of the tail for code 0.
pub(crate) fn prev_at(code: u64) -> usize
    requires { code ≤ MAX_TASKS }
    ensures { result ≡ prev_place code }
{
    8 * code as usize + 1
}

struct Get<H> {
    host: PhantomData<H>,
}

impl<H: ListHost> Play<(), View<H::Ext>> for Get<H> {
    ghost then = { Got H.LIST H.list H.with_list H.may_change };
}

/// What a store does to the list, and what its pass knows then. It is chosen in proofs alone.
trait StoreKind {
    ghost change: { Change };

    ghost hand: { ListHand };
}

impl StoreKind for Brand {
    ghost change = { Stay };

    ghost hand = { no_list };
}

struct Lay<H, L> {
    host: PhantomData<H>,
    kind: PhantomData<L>,
}

impl<H: ListHost, L: StoreKind> Play<(), View<H::Ext>> for Lay<H, L> {
    ghost then = { Laid H.list H.with_list L.change L.hand };
}

struct Sight<H> {
    host: PhantomData<H>,
}

impl<H: ListHost> Play<(), View<H::Ext>> for Sight<H> {
    ghost then = { Sighted H.saw_first };
}

struct FindHead<H> {
    host: PhantomData<H>,
}

impl<H: ListHost> Play<(), View<H::Ext>> for FindHead<H> {
    ghost then = { FoundHead H.saw_first };
}

/// A load of a word of the list under the spin lock.
pub(crate) fn word<H: ListHost>(site: &Site<H>, pass: &mut Pass<H>, at: usize) -> u64
    requires own { SitsAt site.now pass.old }
    requires held { SpinHolds (view_of pass.old).spin }
    requires inside { at < 8 + 8 * length (plan_of site.now) }
    ensures on { StepsAt site.now pass.old pass.new }
    ensures face { SaysSame pass.old pass.new }
    ensures told { LearntWord H.list H.with_list H.may_change
        (view_of pass.old) at result (view_of pass.new) }
    ensures found { FoundAt (H.LIST + at) result (past_of pass.new) }
{
    site.step::<Get<H>>(pass, H::LIST + at, Op::Load)
}

/// A store of a word of the list. What it does to the list is read in proofs alone.
fn store<H: ListHost, L: StoreKind>(
    site: &Site<H>,
    pass: &mut Pass<H>,
    _change: Change,
    at: usize,
    new: u64,
)
    requires own { SitsAt site.now pass.old }
    requires held { SpinHolds (view_of pass.old).spin }
    requires inside { at < 8 + 8 * length (plan_of site.now) }
    requires host { AllowsKnown H.list H.may_change L.change (view_of pass.old) }
    requires may { MayStore (list_part H.list (view_of pass.old)) at new L.change L.hand }
    ensures on { StepsAt site.now pass.old pass.new }
    ensures face { SaysSame pass.old pass.new }
    ensures kept { view_of pass.new ≡ listed H.with_list L.change (view_of pass.old) L.hand }
{
    site.step::<Lay<H, L>>(pass, H::LIST + at, Op::Store(new));
}

/// Stores a word that no walk of the list comes by, while the words stay those of the list.
pub(crate) fn prepare<H: ListHost>(site: &Site<H>, pass: &mut Pass<H>, at: usize, new: u64)
    requires own { SitsAt site.now pass.old }
    requires held { SpinHolds (view_of pass.old).spin }
    requires inside { at < 8 + 8 * length (plan_of site.now) }
    requires still { IsStill H.list (view_of pass.old) }
    requires may { MayStore (list_part H.list (view_of pass.old)) at new Stay
        (going_on (H.list (view_of pass.old).ext) at new) }
    ensures on { StepsAt site.now pass.old pass.new }
    ensures face { SaysSame pass.old pass.new }
    ensures kept { view_of pass.new ≡ listed H.with_list Stay
        (view_of pass.old) (going_on (H.list (view_of pass.old).ext) at new) }
{
    store::<H, Brand>(site, pass, Change::Stay, at, new);
}

/// Stores the tail, by which a waiter enters the list. Its own words are those of the last already.
pub(crate) fn enter<H: ListHost>(site: &Site<H>, pass: &mut Pass<H>, waiter: Waiter)
    requires own { SitsAt site.now pass.old }
    requires held { SpinHolds (view_of pass.old).spin }
    requires task { waiter.task < length (plan_of site.now) }
    requires knows { Knows (list_part H.list (view_of pass.old)) }
    requires lists { HasWords (H.list (view_of pass.old).ext) }
    requires prepared { IsPrepared (H.list (view_of pass.old).ext).words waiter }
    requires host { AllowsKnown H.list H.may_change (Enter waiter) (view_of pass.old) }
    ensures on { StepsAt site.now pass.old pass.new }
    ensures face { SaysSame pass.old pass.new }
    ensures kept { view_of pass.new ≡ listed H.with_list (Enter waiter) (view_of pass.old)
        (entering (H.list (view_of pass.old).ext) waiter TAIL_AT (waiter.task + 1)) }
{
    let code = u64::from(waiter.task) + 1;
    store::<H, Brand>(site, pass, Change::Enter(waiter), TAIL_AT, code);
}

/// Stores the tail, or the `prev` of a waiter, by which the task leaves the list.
pub(crate) fn leave<H: ListHost>(site: &Site<H>, pass: &mut Pass<H>, task: u32, at: usize, new: u64)
    requires own { SitsAt site.now pass.old }
    requires held { SpinHolds (view_of pass.old).spin }
    requires inside { (HEAD_AT < at) × (at < 8 + 8 * length (plan_of site.now)) }
    requires knows { Knows (list_part H.list (view_of pass.old)) }
    requires lists { HasWords (H.list (view_of pass.old).ext) }
    requires host { AllowsKnown H.list H.may_change (Leave task) (view_of pass.old) }
    ensures on { StepsAt site.now pass.old pass.new }
    ensures face { SaysSame pass.old pass.new }
    ensures kept { view_of pass.new ≡ listed H.with_list (Leave task)
        (view_of pass.old) (leaving (H.list (view_of pass.old).ext) task at new) }
{
    store::<H, Brand>(site, pass, Change::Leave(task), at, new);
}

/// Stores the last word of a change: the words are those of the list again.
pub(crate) fn close<H: ListHost>(site: &Site<H>, pass: &mut Pass<H>, at: usize, new: u64)
    requires own { SitsAt site.now pass.old }
    requires held { SpinHolds (view_of pass.old).spin }
    requires inside { at < 8 + 8 * length (plan_of site.now) }
    requires may { MayStore (list_part H.list (view_of pass.old)) at new Stay
        (ending (H.list (view_of pass.old).ext) at new) }
    ensures on { StepsAt site.now pass.old pass.new }
    ensures face { SaysSame pass.old pass.new }
    ensures kept { view_of pass.new ≡ listed H.with_list Stay
        (view_of pass.old) (ending (H.list (view_of pass.old).ext) at new) }
{
    store::<H, Brand>(site, pass, Change::Stay, at, new);
}

/// A load of the head, with or without the spin lock.
pub(crate) fn head<H: ListHost>(site: &Site<H>, pass: &mut Pass<H>) -> u64
    requires own { SitsAt site.now pass.old }
    ensures on { StepsAt site.now pass.old pass.new }
    ensures face { SaysSame pass.old pass.new }
    ensures kept { view_of pass.new ≡ sighted H.saw_first (view_of pass.old) result }
    ensures found { FoundAt H.LIST result (past_of pass.new) }
{
    site.step::<Sight<H>>(pass, H::LIST, Op::Load)
}

/// The head, under the spin lock and between no two stores of a change: then it is the code of the
/// first waiter, or 0.
pub(crate) fn head_code<H: ListHost>(site: &Site<H>, pass: &mut Pass<H>) -> u64
    requires own { SitsAt site.now pass.old }
    requires held { SpinHolds (view_of pass.old).spin }
    requires still { IsStill H.list (view_of pass.old) }
    ensures on { StepsAt site.now pass.old pass.new }
    ensures face { SaysSame pass.old pass.new }
    ensures small { result ≤ length (plan_of site.now) }
    ensures kept { view_of pass.new ≡ sighted H.saw_first (view_of pass.old) result }
    ensures found { FoundAt H.LIST result (past_of pass.new) }
{
    site.step::<FindHead<H>>(pass, H::LIST, Op::Load)
}
