//! The plans of a script's objects.
ghost use Rattle.std.specs.Prelude.{◌≡◌, ◌<◌, [], All, OnOk, IfOk, length, max, replicate};
ghost use Rattle.mm_serve.specs.ObjectsOpening.{AddsLines, ArePlansOf, HaveRoom, HaveTask};

use lock_core::Plan;
use std::alloc::{AllocError, Global};
use task_script::{Line, Script};
use word_bits::MAX_CALLS;

/// Puts a task's calls into the plans of their objects. `room` is how many calls each plan still
/// has room for.
fn plan_task(
    plans: &mut Vec<Plan>,
    room: &mut u32,
    task: u32,
    lines: &[Line],
) -> Result<(), AllocError>
    requires task { HaveTask task plans.old.items }
    requires room { HaveRoom room.old plans.old.items }
    requires objects { All (λ line. line.object < length plans.old.items) lines.now }
    ensures planned { OnOk result (AddsLines task lines.now plans.old.items plans.new.items) }
    ensures left { OnOk result (HaveRoom room.new plans.new.items) }
{
    for line in lines {
        let left = room.checked_sub(1).ok_or(AllocError)?;
        plans[line.object as usize].push(task, line.call())?;
        *room = left;
    }
    Ok(())
}

/// Plans without calls, of at least one task each.
fn empty_plans(alloc: Global, script: &Script) -> Result<Vec<Plan>, AllocError>
    ensures many { IfOk result (λ plans. length plans.items ≡ length script.now.objects) }
    ensures empty { IfOk result (λ plans.
        All (λ plan. plan ≡ replicate (max (length script.now.tasks) 1) []) plans.items) }
{
    let tasks = script.tasks().max(1) as u32;
    let mut plans = Vec::new(alloc);
    for _ in 0..script.objects() {
        plans.push(Plan::new(alloc, tasks)?)?;
    }
    Ok(plans)
}

/// The calls on each object, task by task. A text of at most 1,048,576 bytes has no more than a plan
/// has room for. More are refused as memory is.
pub(crate) fn plans_of(alloc: Global, script: &Script) -> Result<Vec<Plan>, AllocError>
    ensures { IfOk result (λ plans. ArePlansOf script.now plans.items) }
{
    let mut plans = empty_plans(alloc, script)?;
    let mut room = MAX_CALLS;
    for task in 0..script.tasks() {
        plan_task(&mut plans, &mut room, task as u32, script.calls(task))?;
    }
    Ok(plans)
}
