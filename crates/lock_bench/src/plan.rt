//! Plans without calls, and plans of faults.
ghost use Rattle.std.specs.Prelude.{◌≡◌, ◌≢◌, ◌+◌, ◌*◌, ◌<◌, ◌≤◌, ◌++◌, ℕ, length, replicate, IfOk, OnOk};
ghost use Rattle.vma_map.specs.Spaces.{space};
ghost use Rattle.lock_core.specs.Nothings.{nothing};
ghost use Rattle.lock_core.specs.Plans.{calls_in};
ghost use Rattle.lock_core.specs.Records.{row, IsPlan};
ghost use Rattle.lock_bench.specs.FaultPlans.{HasFaults, MapsArea, fault_words};

use lock_core::Plan;
use std::alloc::{AllocError, Global};
use word_bits::{CallWords, MAX_TASKS, Mode};

/// A plan of so many tasks, on the object without words, since its tasks only take and release.
pub fn without_calls(alloc: Global, tasks: u32) -> Result<Plan, AllocError>
    requires { tasks ≤ MAX_TASKS }
    ensures plan { IfOk result (λ plan. IsPlan nothing plan) }
    ensures tasks { IfOk result (λ plan. length plan ≡ tasks) }
{
    let plan = Plan::new(alloc, tasks)?;
    Ok(plan)
}

/// Appends so many faults to a task's list.
fn push_faults(plan: &mut Plan, task: u32, count: u32) -> Result<(), AllocError>
    requires there { task < length plan.old }
    requires room { calls_in plan.old + count ≤ 131072 }
    ensures tasks { OnOk result (length plan.new ≡ length plan.old) }
    ensures total { OnOk result (calls_in plan.new ≡ calls_in plan.old + count) }
    ensures mine { OnOk result (row plan.new task ≡
        row plan.old task ++ replicate count fault_words) }
    ensures others { OnOk result ((t : ℕ) → t ≢ task → row plan.new t ≡ row plan.old t) }
{
    let fault = CallWords::new(7, 17, 0, 0, 2, Mode::Plain);
    for _ in 0..count {
        plan.push(task, fault)?;
    }
    Ok(())
}

/// A plan of so many tasks, each with so many faults, and of one task more, which maps the area that
/// they touch.
pub fn with_faults(alloc: Global, tasks: u32, count: u32) -> Result<Plan, AllocError>
    requires tasks { tasks < MAX_TASKS }
    requires room { tasks * count ≤ 131071 }
    ensures plan { IfOk result (λ plan. IsPlan space plan) }
    ensures maps { IfOk result (λ plan. MapsArea plan tasks) }
    ensures faults { IfOk result (λ plan. (task : ℕ) → task < tasks → HasFaults plan task count) }
{
    let map = CallWords::new(1, 16, 4, 3, 0, Mode::Plain);
    let mut plan = Plan::new(alloc, tasks + 1)?;
    plan.push(tasks, map)?;
    for task in 0..tasks {
        push_faults(&mut plan, task, count)?;
    }
    Ok(plan)
}
