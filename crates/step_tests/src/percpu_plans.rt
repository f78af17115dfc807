//! Plans of calls on a space, in which each task makes one call again and again.
ghost use Rattle.std.specs.Prelude.{◌≡◌, ◌≢◌, ℕ, ◌+◌, ◌<◌, ◌≤◌, [], IfOk, length};
ghost use Rattle.lock_core.specs.Plans.{calls_in};
ghost use Rattle.lock_core.specs.Records.{row, IsPlan, IsCallOrSignal};
ghost use Rattle.vma_map.specs.Spaces.{space};
ghost use Rattle.step_tests.specs.TestPercpuPasses.{Repeats};

use lock_core::Plan;
use std::alloc::{AllocError, Global};
use word_bits::CallWords;

/// The call `map 16 4 rw-`.
pub fn map_pages() -> CallWords
    ensures { IsCallOrSignal space result }
{
    CallWords {
        a: 16 + (4 << 32),
        b: 1 + (3 << 8),
    }
}

/// The call `map any 1 rw-`, which maps the lowest page that isn't mapped.
pub fn map_next() -> CallWords
    ensures { IsCallOrSignal space result }
{
    CallWords {
        a: 1,
        b: 2 + (3 << 8),
    }
}

/// The call `fault 0 r`.
pub fn touch_first() -> CallWords
    ensures { IsCallOrSignal space result }
{
    CallWords {
        a: 0,
        b: 7 + (1 << 16),
    }
}

/// Appends so many calls to the list of a task that has none.
fn push_calls(plan: &mut Plan, task: u32, count: u32, words: CallWords) -> Result<(), AllocError>
    requires there { task < length plan.old }
    requires room { calls_in plan.old + count ≤ 131072 }
    requires calls { IsPlan space plan.old }
    requires words { IsCallOrSignal space words }
    requires empty { row plan.old task ≡ [] }
    ensures tasks { IfOk result (λ _. length plan.new ≡ length plan.old) }
    ensures count { IfOk result (λ _. calls_in plan.new ≡ calls_in plan.old + count) }
    ensures calls { IfOk result (λ _. IsPlan space plan.new) }
    ensures its_own { IfOk result (λ _. Repeats plan.new task count words) }
    ensures others { IfOk result (λ _.
        (t : ℕ) → t ≢ task → row plan.new t ≡ row plan.old t) }
{
    for _ in 0..count {
        plan.push(task, words)?;
    }
    Ok(())
}

/// A plan of three tasks, of which task 1 has one call.
pub fn one_call(alloc: Global, words: CallWords) -> Result<Plan, AllocError>
    requires words { IsCallOrSignal space words }
    ensures tasks { IfOk result (λ plan. length plan ≡ 3) }
    ensures calls { IfOk result (λ plan. IsPlan space plan) }
    ensures its_own { IfOk result (λ plan. Repeats plan 1 1 words) }
{
    let mut plan = Plan::new(alloc, 3)?;
    push_calls(&mut plan, 1, 1, words)?;
    Ok(plan)
}

/// A plan in which tasks 0 to 2 make the one call so often, and task 3 the other.
pub fn planned(
    alloc: Global,
    count: u32,
    words: CallWords,
    last: CallWords,
) -> Result<Plan, AllocError>
    requires room { count ≤ 10000 }
    requires words { IsCallOrSignal space words }
    requires last { IsCallOrSignal space last }
    ensures tasks { IfOk result (λ plan. length plan ≡ 4) }
    ensures calls { IfOk result (λ plan. IsPlan space plan) }
    ensures first { IfOk result (λ plan. (t : ℕ) → t < 3 → Repeats plan t count words) }
    ensures last { IfOk result (λ plan. Repeats plan 3 count last) }
{
    let mut plan = Plan::new(alloc, 4)?;
    for task in 0..3 {
        push_calls(&mut plan, task, count, words)?;
    }
    push_calls(&mut plan, 3, count, last)?;
    Ok(plan)
}
