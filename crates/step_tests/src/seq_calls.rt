//! Calls of tasks on an address space with a sequence word.
ghost use Rattle.std.specs.Prelude.{◌≡◌, ◌<◌, ◌≤◌, ◌+◌, length, Some, IfSome, IfOk, slice_get};
ghost use Rattle.lock_core.specs.Records.{row, IsPlan};
ghost use Rattle.lock_core.specs.Plans.{calls_in};
ghost use Rattle.lock_core.specs.Views.{next_entry};
ghost use Rattle.vma_map.specs.Spaces.{space};
ghost use Rattle.seq_fault.specs.SeqHandles.{hand_in, plan_of};
ghost use Rattle.step_tests.specs.SeqStanding.{IsReady};

use lock_core::{Plan, SiteLock};
use seq_fault::{Raced, SeqSpace, SpacePass};
use std::sync::Wait;
use std::test::Fail;
use vma_map::{Areas, SpaceCall};
use word_bits::{CallWords, Mode, Object, Reply};

/// The call `map START LEN rw-`.
pub fn map(start: u32, len: u32) -> CallWords {
    CallWords::new(1, start, len, 3, 0, Mode::Plain)
}

/// The call `unmap START LEN`.
pub fn unmap(start: u32, len: u32) -> CallWords {
    CallWords::new(4, start, len, 0, 0, Mode::Plain)
}

/// A fault on a page.
pub fn touch(page: u32, access: u8) -> CallWords {
    CallWords::new(7, page, 0, 0, access, Mode::Plain)
}

/// Appends a call to a task's list.
fn push(plan: &mut Plan, task: u32, words: CallWords) -> Result<(), Fail>
    requires there { task < length plan.old }
    requires room { calls_in plan.old < 131072 }
    requires calls { IsPlan space plan.old }
    ensures tasks { IfOk result (λ _. length plan.new ≡ length plan.old) }
    ensures count { IfOk result (λ _. calls_in plan.new ≡ calls_in plan.old + 1) }
    ensures calls { IfOk result (λ _. IsPlan space plan.new) }
{
    let Some(_call) = SpaceCall::call_of(words) else {
        return Err("no call".into());
    };
    plan.push(task, words)?;
    Ok(())
}

/// Appends calls to a task's list.
pub fn push_all(plan: &mut Plan, task: u32, calls: &[CallWords]) -> Result<(), Fail>
    requires there { task < length plan.old }
    requires room { calls_in plan.old + length calls.now ≤ 131072 }
    requires calls { IsPlan space plan.old }
    ensures tasks { IfOk result (λ _. length plan.new ≡ length plan.old) }
    ensures count { IfOk result (λ _. calls_in plan.new ≡ calls_in plan.old + length calls.now) }
    ensures calls { IfOk result (λ _. IsPlan space plan.new) }
{
    for words in calls {
        push(plan, task, *words)?;
    }
    Ok(())
}

/// The words of the next call of the pass's task, where it has one.
fn next_words(site: &SeqSpace, pass: &mut SpacePass) -> Option<CallWords>
    requires ready { IsReady site.now pass.old }
    ensures ready { IsReady site.now pass.new }
    ensures words { IfSome result (λ words. slice_get (row (plan_of site.now)
        (next_entry (hand_in pass.new)).task) (next_entry (hand_in pass.new)).call ≡ Some words) }
{
    let task = site.task(pass)?;
    let call = site.done(pass);
    if task >= site.tasks() || call >= site.calls(task) {
        return None;
    }
    Some(site.call(pass, task, call))
}

/// Does the next call of the pass's task, where it is a changing one.
pub fn write<W: Wait>(site: &SeqSpace, rt: &W, pass: &mut SpacePass) -> Option<Reply>
    requires ready { IsReady site.now pass.old }
    ensures ready { IsReady site.now pass.new }
{
    let words = next_words(site, pass)?;
    let known = SpaceCall::call_of(words)?;
    if Areas::reads(known) {
        return None;
    }
    let call = site.done(pass);
    Some(site.write(rt, pass, call))
}

/// Does the next call of the pass's task, where it is a fault.
pub fn fault(site: &SeqSpace, pass: &mut SpacePass) -> Option<Result<Reply, Raced>>
    requires ready { IsReady site.now pass.old }
    ensures ready { IsReady site.now pass.new }
{
    let words = next_words(site, pass)?;
    if let Some(SpaceCall::Fault { .. }) = SpaceCall::call_of(words) {
        let call = site.done(pass);
        return Some(site.fault(pass, call));
    }
    None
}

/// The same, as often as a writer comes between its loads.
pub fn fault_wait<W: Wait>(site: &SeqSpace, rt: &W, pass: &mut SpacePass) -> Option<Reply>
    requires ready { IsReady site.now pass.old }
    ensures ready { IsReady site.now pass.new }
{
    let words = next_words(site, pass)?;
    if let Some(SpaceCall::Fault { .. }) = SpaceCall::call_of(words) {
        let call = site.done(pass);
        return Some(site.fault_wait(rt, pass, call));
    }
    None
}
