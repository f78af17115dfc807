//! The spin queue with unqueueing: a waiter whose CPU needs rescheduling leaves it before its turn.
#![tactic(auto)]

ghost use Rattle.std.specs.Prelude.{◌≡◌, ◌≢◌, ◌<◌, ◌≤◌, ◌+◌, true, false, Some, None, IsSome, MatchBool, MatchOption};
ghost use Rattle.osq_nodes.specs.declared.node.Place.TheVariants.{Out, Waiting, Unlinked, Head};
ghost use Rattle.osq_nodes.specs.OsqHandles.{tasks_of, task_in, place_in, fronts_in, swaps_in, found_in, steps_in, SawTail, SitsAt, StepsAt};
ghost use Rattle.cpu_task.specs.CpuCounting.{Rises};

mod steps;

use cpu_task::Cpu;
use crossbeam_utils::Backoff;
use osq_nodes::steps::is_granted;
use osq_nodes::{Osq, OsqPass};
use std::sync::Wait;

/// Waits until the pass is the head, where the answer is true, or the CPU needs rescheduling.
#[tactic(auto, using(crate::proofs::Rising::rises))]
fn spin<C: Cpu, W: Wait>(osq: &Osq, rt: &W, pass: &mut OsqPass, cpu: &mut C, task: u32) -> bool
    requires own { SitsAt osq.now pass.old }
    requires mine { task_in pass.old ≡ Some task }
    requires waits { place_in pass.old ≡ Waiting }
    ensures on { StepsAt osq.now pass.old pass.new }
    ensures swaps { swaps_in pass.new ≡ swaps_in pass.old }
    ensures found { found_in pass.new ≡ found_in pass.old }
    ensures place { MatchBool result (place_in pass.new ≡ Head) (place_in pass.new ≡ Waiting) }
    ensures fronts { MatchBool result (fronts_in pass.new ≡ fronts_in pass.old + 1)
        (fronts_in pass.new ≡ fronts_in pass.old) }
    ensures stops { result ≡ false → Rises (C.rescheds cpu.old) (C.rescheds cpu.new) }
    ensures rescheds { C.rescheds cpu.old ≤ C.rescheds cpu.new }
    ensures sleeps { C.sleeps cpu.new ≡ C.sleeps cpu.old }
{
    let backoff = Backoff::new();
    for _ in rt.forever() {
        if is_granted(osq, pass, task) {
            return true;
        }
        if cpu.need_resched() {
            return false;
        }
        backoff.snooze();
    }
    unreachable!()
}

/// Takes the own code out of the `next` of the predecessor, which is the answer, or becomes the
/// head, where the answer is None. `prev` was the predecessor at the tail swap.
fn unlink<W: Wait>(osq: &Osq, rt: &W, pass: &mut OsqPass, task: u32, mut prev: u32) -> Option<u32>
    requires own { SitsAt osq.now pass.old }
    requires mine { task_in pass.old ≡ Some task }
    requires waits { place_in pass.old ≡ Waiting }
    requires there { prev < tasks_of osq.now }
    ensures on { StepsAt osq.now pass.old pass.new }
    ensures swaps { swaps_in pass.new ≡ swaps_in pass.old }
    ensures found { found_in pass.new ≡ found_in pass.old }
    ensures place { MatchOption result (place_in pass.new ≡ Head)
        (λ p. (p < tasks_of osq.now) × (place_in pass.new ≡ Unlinked p)) }
    ensures fronts { MatchOption result (fronts_in pass.new ≡ fronts_in pass.old + 1)
        (λ p. fronts_in pass.new ≡ fronts_in pass.old) }
{
    let backoff = Backoff::new();
    for _ in rt.forever() {
        // The predecessor's link comes first, before the own successor is looked for: while the
        // predecessor has it, it may leave or grant, and the successor would be tied to one that is
        // gone.
        if steps::take_back(osq, pass, task, prev) {
            return Some(prev);
        }
        if is_granted(osq, pass, task) {
            return None;
        }
        backoff.snooze();
        // Nobody has this code in that `next`: the predecessor took it, to grant or to leave, or it
        // has left, and this task has another.
        prev = steps::reread(osq, pass, task);
    }
    unreachable!()
}

/// Enters the queue, and returns true as its head. It answers false only where the queue wasn't
/// empty and the CPU needed rescheduling before the turn came: then the task has left, and all
/// others stand in the order that they had. The kernel's `osq_lock`.
pub fn lock<C: Cpu, W: Wait>(osq: &Osq, rt: &W, pass: &mut OsqPass, cpu: &mut C) -> bool
    requires own { SitsAt osq.now pass.old }
    requires numbered { IsSome (task_in pass.old) }
    requires out { place_in pass.old ≡ Out }
    ensures on { StepsAt osq.now pass.old pass.new }
    ensures swapped { swaps_in pass.new ≡ swaps_in pass.old + 1 }
    ensures found { SawTail pass.old pass.new }
    ensures place { MatchBool result (place_in pass.new ≡ Head) (place_in pass.new ≡ Out) }
    ensures fronts { MatchBool result (fronts_in pass.new ≡ fronts_in pass.old + 1)
        (fronts_in pass.new ≡ fronts_in pass.old) }
    ensures queued { result ≡ false → found_in pass.new ≢ 0 }
    ensures stops { result ≡ false → Rises (C.rescheds cpu.old) (C.rescheds cpu.new) }
    ensures rescheds { C.rescheds cpu.old ≤ C.rescheds cpu.new }
    ensures sleeps { C.sleeps cpu.new ≡ C.sleeps cpu.old }
    ensures quick { found_in pass.new ≡ 0 → steps_in pass.new ≡ steps_in pass.old + 3 }
{
    let Some(task) = pass.task() else {
        unreachable!()
    };
    let Some(last) = osq.enter(pass, task) else {
        return true;
    };
    if spin(osq, rt, pass, cpu, task) {
        return true;
    }
    let Some(prev) = unlink(osq, rt, pass, task, last) else {
        return true;
    };
    if let Some(next) = osq.wait_next(rt, pass, task, Some(prev)) {
        steps::splice(osq, pass, task, prev, next);
        steps::relink(osq, pass, task, prev, next);
    }
    false
}
