//! Faults beside a writer, on threads.
ghost use Rattle.std.specs.Prelude.{◌≡◌, ◌≢◌, ◌<◌, ◌≤◌, length, IfOk, OnOk};
ghost use Rattle.lock_core.specs.declared.view.Held.TheVariants.{No};
ghost use Rattle.lock_core.specs.Records.{IsPlan};
ghost use Rattle.seq_fault.specs.SeqHandles.{SitsAt, held_in, plan_of};
ghost use Rattle.step_tests.specs.SeqStanding.{IsIdle, IsReady};
ghost use Rattle.vma_map.specs.Spaces.{space};

use crate::seq_calls::{fault_wait, map, push_all, touch, unmap, write};
use lock_core::{Plan, SiteLock};
use seq_fault::{SeqSpace, SpacePass};
use std::alloc::{AllocError, Global};
use std::sync::Wait;
use std::sync::atomic::{AtomicBool, Ordering};
use std::test::Fail;
use std::thread::{self, Threads};
use word_bits::{Entry, Reply};

/// In each round the writer maps pages 0 to 3 and unmaps them again.
const ROUNDS: u32 = 5_000;

/// Behind two calls that map pages 16 to 17 and 20 to 23.
const WRITES: u32 = 10_002;

/// Each of two tasks faults as often, on page 20 and on page 1 in turn.
const FAULTS: u32 = 10_000;

/// A writer's task, two that fault, and one that has no calls.
fn planned(alloc: Global) -> Result<Plan, Fail>
    ensures tasks { IfOk result (λ plan. length plan ≡ 4) }
    ensures calls { IfOk result (λ plan. IsPlan space plan) }
{
    let mut plan = Plan::new(alloc, 4)?;
    push_all(&mut plan, 0, &[map(16, 2), map(20, 4)])?;
    for _ in 0..ROUNDS {
        push_all(&mut plan, 0, &[map(0, 4), unmap(0, 4)])?;
        push_all(&mut plan, 1, &[touch(20, 1), touch(1, 1)])?;
        push_all(&mut plan, 2, &[touch(20, 1), touch(1, 1)])?;
    }
    Ok(plan)
}

/// What the writer's call of this number replies.
fn write_reply(call: u32) -> Reply {
    match call {
        0 => Reply::Num(16),
        1 => Reply::Num(20),
        _ if call % 2 == 0 => Reply::Num(0),
        _ => Reply::Good,
    }
}

/// What a fault replies where so many of the writer's calls are logged. Page 20 is mapped from the
/// second on. Page 1 is mapped by each second call behind that, and unmapped by the next one.
fn fault_reply(call: u32, logged: u32) -> Reply {
    let mapped = if call % 2 == 0 {
        logged >= 2
    } else {
        logged >= 2 && logged % 2 == 1
    };
    if mapped { Reply::Good } else { Reply::MapErr }
}

/// Does the task's next call, and says whether it replied what it should: a fault what the state at
/// its place gives.
fn replies_right<W: Wait>(
    rt: &W,
    site: &SeqSpace,
    pass: &mut SpacePass,
    writes: bool,
    call: u32,
) -> bool
    requires ready { IsReady site.now pass.old }
    ensures ready { IsReady site.now pass.new }
{
    if writes {
        return write(site, rt, pass) == Some(write_reply(call));
    }
    let reply = fault_wait(site, rt, pass);
    reply == Some(fault_reply(call, site.front(pass)))
}

/// Does all calls of the task, and says whether each replied what it should. Task 0 writes, and the
/// others fault.
fn all_calls<W: Wait>(rt: &W, site: &SeqSpace, pass: &mut SpacePass, task: u32) -> bool
    requires idle { IsIdle site.now pass.old }
    requires there { task < length (plan_of site.now) }
{
    site.begin(rt, pass, task);
    let mut right = true;
    let count = if task == 0 { WRITES } else { FAULTS };
    for call in 0..count {
        right &= replies_right(rt, site, pass, task == 0, call);
    }
    site.end(pass);
    right
}

/// Another pass without a number.
fn another(site: &SeqSpace, first: &mut SpacePass) -> SpacePass
    requires idle { IsIdle site.now first.old }
    ensures first { IsIdle site.now first.new }
    ensures other { IsIdle site.now result }
{
    site.split(first)
}

/// Tasks 0 to 2 do their calls at once, by passes split off the first one. Says whether each call
/// replied what it should.
fn three_at_once<R: Threads + Wait + Sync>(
    rt: &R,
    alloc: Global,
    site: &SeqSpace,
    first: &mut SpacePass,
) -> Result<bool, AllocError>
    requires idle { IsIdle site.now first.old }
    requires there { 3 ≤ length (plan_of site.now) }
    ensures { OnOk result (IsIdle site.now first.new) }
{
    let right = AtomicBool::new(true);
    let mut passes = Vec::new(alloc);
    for _ in 0..3u32 {
        passes.push(another(site, first))?;
    }
    thread::for_each_mut(
        rt,
        passes.as_mut_slice(),
        3,
        &|task, pass: &mut SpacePass|
            requires idle { IsIdle site.now pass.old }
            requires few { task < 3 }
            requires there { 3 ≤ length (plan_of site.now) }
        {
            if !all_calls(rt, site, pass, task as u32) {
                right.store(false, Ordering::SeqCst);
            }
        },
    );
    Ok(right.load(Ordering::SeqCst))
}

/// Whether the log has the writer's calls, each once and in their order.
fn logs_writes(site: &SeqSpace, pass: &mut SpacePass) -> bool
    requires own { SitsAt site.now pass.old }
    requires held { (held_in pass.old) ≢ No }
{
    let len = site.log_len(pass);
    for call in 0..len {
        let entry = Entry::unpack(site.log_word(pass, call));
        if entry != Some(Entry { task: 0, call }) {
            return false;
        }
    }
    len == WRITES
}

#[test]
fn each_fault_beside_a_writer_replies_what_the_log_at_its_place_gives(
    rt: HostRuntime,
) -> Result<(), Fail> {
    let plan = planned(rt.alloc())?;
    let (site, mut pass) = SeqSpace::open(rt.alloc(), plan)?;
    assert!(rt; three_at_once(&rt, rt.alloc(), &site, &mut pass)?);
    site.begin(&rt, &mut pass, 3);
    site.enter(&rt, &mut pass);
    assert!(rt; logs_writes(&site, &mut pass));
    Ok(())
}
