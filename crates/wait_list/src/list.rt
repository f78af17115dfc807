//! The list of a site, on which passes work that hold its spin lock.
ghost use Rattle.std.specs.Prelude.{◌≡◌, ◌<◌, ◌≤◌, Option, IsSome, IfSome, Some, ◌+◌, length};
ghost use Rattle.lock_core.specs.SiteHandles.{Finds, IsLatest, plan_of, view_of, past_of, task_in, SitsAt, StepsAt, SaysSame};
ghost use Rattle.lock_core.specs.Views.{SpinHolds};
ghost use Rattle.wait_list.specs.Lists.{AllowsChange, AllowsStill, Appends, FindsBehind, FindsFirst, FindsNext, IsStill, Knows, KnowsCode, KnowsWaiter, Removes, TellsFirst, hand_at, list_part, next_place, only_steps, prev_with, sighted, waiter_code};
ghost use Rattle.wait_list.specs.Types.{Enter, Leave};
ghost use Rattle.word_bits.specs.OwnerWord.{task_code};
ghost use Rattle.lock_core.specs.Pasts.{FoundAt};

use crate::host::ListHost;
use crate::view::Waiter;
use crate::words;
use crate::words::{TAIL_AT, next_at, prev_at, word};
use lock_core::{Pass, Site};

/// Appends the pass's own task, which isn't in the list: it is the last waiter from then on. The
/// kernel's `__mutex_add_waiter` and `rwsem_add_waiter`.
pub fn append<H: ListHost>(site: &Site<H>, pass: &mut Pass<H>, waiter: Waiter)
    requires own { SitsAt site.now pass.old }
    requires held { SpinHolds (view_of pass.old).spin }
    requires still { IsStill H.list (view_of pass.old) }
    requires task { waiter.task < length (plan_of site.now) }
    requires host { AllowsChange H.list H.may_change (Enter waiter) (view_of pass.old) }
    ensures on { StepsAt site.now pass.old pass.new }
    ensures face { SaysSame pass.old pass.new }
    ensures later { (view_of pass.old).steps ≤ (view_of pass.new).steps }
    ensures steps { (view_of pass.new).steps ≤ (view_of pass.old).steps + 5 }
    ensures kept { Appends H.list H.with_list (view_of pass.old) waiter (view_of pass.new) }
{
    let code = u64::from(waiter.task) + 1;
    let tail = word(site, pass, TAIL_AT);
    let prev = 2 * tail + u64::from(waiter.writer);
    // Whoever walks the list must find the task's own words right: they are stored while no walk of
    // the list comes by them.
    words::prepare(site, pass, next_at(code), 0);
    words::prepare(site, pass, prev_at(code), prev);
    words::enter(site, pass, waiter);
    // A waiter that looks without the spin lock must not see itself first before it is in the list:
    // the link to it, which is the head of a list that was empty, is stored last.
    words::close(site, pass, next_at(tail), code);
}

/// What the `prev` of the waiter of code `next` must be once the one of code `prev` stands before
/// it. Where nobody is behind (0) it is what the tail must be.
fn prev_after<H: ListHost>(site: &Site<H>, pass: &mut Pass<H>, next: u64, prev: u64) -> u64
    requires own { SitsAt site.now pass.old }
    requires held { SpinHolds (view_of pass.old).spin }
    requires last { IsLatest pass.old }
    requires codes { (next ≤ length (plan_of site.now)) × (prev ≤ length (plan_of site.now)) }
    requires knows { Knows (list_part H.list (view_of pass.old)) }
    ensures on { StepsAt site.now pass.old pass.new }
    ensures face { SaysSame pass.old pass.new }
    ensures later { (view_of pass.old).steps ≤ (view_of pass.new).steps }
    ensures steps { (view_of pass.new).steps ≤ (view_of pass.old).steps + 1 }
    ensures word { result ≡ prev_with (hand_at H.list (view_of pass.old)).words next prev }
    ensures host { AllowsStill H.may_change (view_of pass.old) (view_of pass.new) }
    ensures kept { only_steps (view_of pass.old) (view_of pass.new) }
{
    if next == 0 {
        return prev;
    }
    2 * prev + word(site, pass, prev_at(next)) % 2
}

/// Removes the task, which is in the list. All others stand in their order. It takes five
/// steps at most, whatever the list's length. The kernel's `__mutex_remove_waiter` and `rwsem_del_waiter`.
pub fn remove<H: ListHost>(site: &Site<H>, pass: &mut Pass<H>, task: u32)
    requires own { SitsAt site.now pass.old }
    requires held { SpinHolds (view_of pass.old).spin }
    requires still { IsStill H.list (view_of pass.old) }
    requires task { task < length (plan_of site.now) }
    requires host { AllowsChange H.list H.may_change (Leave task) (view_of pass.old) }
    ensures on { StepsAt site.now pass.old pass.new }
    ensures face { SaysSame pass.old pass.new }
    ensures later { (view_of pass.old).steps ≤ (view_of pass.new).steps }
    ensures steps { (view_of pass.new).steps ≤ (view_of pass.old).steps + 5 }
    ensures kept { Removes H.list H.with_list (view_of pass.old) task (view_of pass.new) }
{
    let code = u64::from(task) + 1;
    let next = word(site, pass, next_at(code));
    let prev = word(site, pass, prev_at(code)) / 2;
    let back = prev_after(site, pass, next, prev);
    words::leave(site, pass, task, prev_at(next), back);
    // Until here the head may name the one that leaves, and nobody else that isn't first.
    words::close(site, pass, next_at(prev), next);
}

/// The waiter behind the one of this code, which the pass knows to be in the list, and the first
/// one for code 0.
fn behind<H: ListHost>(site: &Site<H>, pass: &mut Pass<H>, code: u64) -> Option<Waiter>
    requires own { SitsAt site.now pass.old }
    requires held { SpinHolds (view_of pass.old).spin }
    requires still { IsStill H.list (view_of pass.old) }
    requires code { code ≤ length (plan_of site.now) }
    requires there { KnowsCode H.list code (view_of pass.old) }
    ensures on { StepsAt site.now pass.old pass.new }
    ensures face { SaysSame pass.old pass.new }
    ensures later { (view_of pass.old).steps ≤ (view_of pass.new).steps }
    ensures steps { (view_of pass.new).steps ≤ (view_of pass.old).steps + 2 }
    ensures told { FindsBehind H.list H.with_list
        (view_of pass.old) code result (view_of pass.new) }
    ensures small { IfSome result (λ w. w.task < length (plan_of site.now)) }
    ensures found { Finds (H.LIST + next_place code) (waiter_code result) pass.old pass.new }
{
    let next = word(site, pass, next_at(code));
    if next == 0 {
        return None;
    }
    let task = (next - 1) as u32;
    let prev = word(site, pass, prev_at(next));
    let writer = prev % 2 == 1;
    Some(Waiter { task, writer })
}

/// The first waiter. `None` exactly where the list is empty.
pub fn first<H: ListHost>(site: &Site<H>, pass: &mut Pass<H>) -> Option<Waiter>
    requires own { SitsAt site.now pass.old }
    requires held { SpinHolds (view_of pass.old).spin }
    requires still { IsStill H.list (view_of pass.old) }
    ensures on { StepsAt site.now pass.old pass.new }
    ensures face { SaysSame pass.old pass.new }
    ensures later { (view_of pass.old).steps ≤ (view_of pass.new).steps }
    ensures steps { (view_of pass.new).steps ≤ (view_of pass.old).steps + 2 }
    ensures told { FindsFirst H.list H.with_list (view_of pass.old) result (view_of pass.new) }
    ensures small { IfSome result (λ w. w.task < length (plan_of site.now)) }
    ensures found { Finds H.LIST (waiter_code result) pass.old pass.new }
{
    behind(site, pass, 0)
}

/// The task of the first waiter, by one load of the head. `None` exactly where the list is empty.
pub fn first_task<H: ListHost>(site: &Site<H>, pass: &mut Pass<H>) -> Option<u32>
    requires own { SitsAt site.now pass.old }
    requires held { SpinHolds (view_of pass.old).spin }
    requires still { IsStill H.list (view_of pass.old) }
    ensures on { StepsAt site.now pass.old pass.new }
    ensures face { SaysSame pass.old pass.new }
    ensures kept { view_of pass.new ≡ sighted H.saw_first (view_of pass.old) (task_code result) }
    ensures found { FoundAt H.LIST (task_code result) (past_of pass.new) }
    ensures small { IfSome result (λ t. t < length (plan_of site.now)) }
{
    let code = words::head_code(site, pass);
    if code == 0 {
        return None;
    }
    Some((code - 1) as u32)
}

/// The waiter behind this task, which the pass knows to be in the list. `None` exactly where it is
/// the last.
pub fn next<H: ListHost>(site: &Site<H>, pass: &mut Pass<H>, task: u32) -> Option<Waiter>
    requires own { SitsAt site.now pass.old }
    requires held { SpinHolds (view_of pass.old).spin }
    requires still { IsStill H.list (view_of pass.old) }
    requires task { task < length (plan_of site.now) }
    requires there { KnowsWaiter H.list task (view_of pass.old) }
    ensures on { StepsAt site.now pass.old pass.new }
    ensures face { SaysSame pass.old pass.new }
    ensures later { (view_of pass.old).steps ≤ (view_of pass.new).steps }
    ensures steps { (view_of pass.new).steps ≤ (view_of pass.old).steps + 2 }
    ensures told { FindsNext H.list H.with_list (view_of pass.old) task result (view_of pass.new) }
    ensures small { IfSome result (λ w. w.task < length (plan_of site.now)) }
{
    behind(site, pass, u64::from(task) + 1)
}

/// Whether the pass's task is the first waiter, by one load. The spin lock need not be held: then
/// the answer is of the moment of the load alone.
pub fn is_first<H: ListHost>(site: &Site<H>, pass: &mut Pass<H>) -> bool
    requires own { SitsAt site.now pass.old }
    requires numbered { IsSome (task_in pass.old) }
    ensures on { StepsAt site.now pass.old pass.new }
    ensures face { SaysSame pass.old pass.new }
    ensures told { TellsFirst H.saw_first H.LIST (view_of pass.old) (task_in pass.old) result
        (view_of pass.new) (past_of pass.new) }
{
    let code = words::head(site, pass);
    pass.task().is_some_and(|task| code == u64::from(task) + 1)
}
