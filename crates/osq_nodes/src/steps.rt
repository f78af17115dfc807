//! The steps of a spin queue, each one atomic operation.
ghost use Rattle.std.specs.Prelude.{◌≡◌, ◌≢◌, ◌-◌, ◌<◌, ◌≤◌, Some, MatchOption, MatchBool};
ghost use Rattle.lock_core.specs.Pasts.{FoundAt};
ghost use Rattle.lock_core.specs.Views.{ticked};
ghost use Rattle.osq_nodes.specs.OsqHandles.{tasks_of, view_of, task_in, place_in, past_of, FoundNext, FoundOwn, FoundThere, SitsAt, StepsAt};
ghost use Rattle.osq_nodes.specs.OsqPlaces.{waits_at, takes_at};
ghost use Rattle.osq_nodes.specs.OsqSteps.{placed, fronted, swapped, IsCodeOrNone};
ghost use Rattle.osq_nodes.specs.Types.{Out, Cleared, Swapped, Linking, Waiting, Granting};
ghost use Rattle.osq_nodes.specs.Words.{code_in, next_at, tail_at, locked_at};

use crate::layout::{TAIL, code, code_of, locked_of, next_of, prev_of};
use crate::pass::OsqPass;
use crate::queue::Osq;
use crate::words::step;
use lock_core::Op;
use std::marker::Brand;

/// Clears the own `locked`.
pub fn clear_locked(osq: &Osq, pass: &mut OsqPass, task: u32)
    requires own { SitsAt osq.now pass.old }
    requires mine { task_in pass.old ≡ Some task }
    requires here { place_in pass.old ≡ Out }
    ensures on { StepsAt osq.now pass.old pass.new }
    ensures kept { view_of pass.new ≡ placed (view_of pass.old) Cleared }
{
    // Before the tail swap: behind it a predecessor may grant at any time, and that 1 must stay.
    step::<Brand>(osq, pass, locked_of(task), Op::Store(0));
}

/// Clears the own `next`.
pub fn clear_next(osq: &Osq, pass: &mut OsqPass, task: u32)
    requires own { SitsAt osq.now pass.old }
    requires mine { task_in pass.old ≡ Some task }
    requires here { place_in pass.old ≡ Cleared }
    ensures on { StepsAt osq.now pass.old pass.new }
    ensures kept { view_of pass.new ≡ placed (view_of pass.old) Cleared }
{
    // Before the tail swap: behind it a successor may store its code there at any time.
    step::<Brand>(osq, pass, next_of(task), Op::Store(0));
}

/// Swaps the tail for the own code. The answer is the code of the predecessor, or 0 where the queue
/// was empty: then the pass is the head.
pub fn swap_tail(osq: &Osq, pass: &mut OsqPass, task: u32) -> u64
    requires own { SitsAt osq.now pass.old }
    requires mine { task_in pass.old ≡ Some task }
    requires here { place_in pass.old ≡ Cleared }
    ensures on { StepsAt osq.now pass.old pass.new }
    ensures kept { view_of pass.new ≡ swapped (view_of pass.old) result }
    ensures code { IsCodeOrNone (tasks_of osq.now) result }
    ensures found { FoundAt tail_at result (past_of pass.new) }
{
    // One step finds the predecessor and becomes the last: of two tasks that enter at once, one
    // finds the other.
    step::<Brand>(osq, pass, TAIL, Op::Swap(code(task)))
}

/// Stores the code of the predecessor in the own `prev`.
pub fn store_prev(osq: &Osq, pass: &mut OsqPass, task: u32, prev: u32)
    requires own { SitsAt osq.now pass.old }
    requires mine { task_in pass.old ≡ Some task }
    requires here { place_in pass.old ≡ Swapped prev }
    ensures on { StepsAt osq.now pass.old pass.new }
    ensures kept { view_of pass.new ≡ placed (view_of pass.old) (Linking prev) }
{
    // Before the link: once the predecessor finds it, it may leave and store its own predecessor
    // here, and this store must not undo that.
    step::<Brand>(osq, pass, prev_of(task), Op::Store(code(prev)));
}

/// Stores the own code in the `next` of the predecessor.
pub fn link(osq: &Osq, pass: &mut OsqPass, task: u32, prev: u32)
    requires own { SitsAt osq.now pass.old }
    requires mine { task_in pass.old ≡ Some task }
    requires here { place_in pass.old ≡ Linking prev }
    requires there { prev < tasks_of osq.now }
    ensures on { StepsAt osq.now pass.old pass.new }
    ensures kept { view_of pass.new ≡ placed (view_of pass.old) Waiting }
{
    // The predecessor is still in the queue, as none leaves before it has this link.
    step::<Brand>(osq, pass, next_of(prev), Op::Store(code(task)));
}

/// Loads the own `locked`, and says whether the pass is the head.
pub fn is_granted(osq: &Osq, pass: &mut OsqPass, task: u32) -> bool
    requires own { SitsAt osq.now pass.old }
    requires mine { task_in pass.old ≡ Some task }
    requires here { place_in pass.old ≡ Waiting }
    ensures on { StepsAt osq.now pass.old pass.new }
    ensures kept { MatchBool result (view_of pass.new ≡ fronted (view_of pass.old))
        (view_of pass.new ≡ ticked (view_of pass.old)) }
    ensures found { FoundThere result (locked_at task) 1 pass.new }
{
    step::<Brand>(osq, pass, locked_of(task), Op::Load) == 1
}

/// Exchanges the tail from the own code to that of the predecessor `prev`, or to 0 where there is
/// none, and says whether it did: then the task has left.
pub fn leave_tail(osq: &Osq, pass: &mut OsqPass, task: u32, prev: Option<u32>) -> bool
    requires own { SitsAt osq.now pass.old }
    requires mine { task_in pass.old ≡ Some task }
    requires here { place_in pass.old ≡ waits_at prev }
    ensures on { StepsAt osq.now pass.old pass.new }
    ensures kept { MatchBool result (view_of pass.new ≡ placed (view_of pass.old) Out)
        (view_of pass.new ≡ ticked (view_of pass.old)) }
    ensures found { FoundOwn result task pass.new }
{
    // An exchange, as another may have swapped the tail since it was looked at. It goes back to the
    // predecessor: whoever enters next must stand behind the task that is the last then.
    let own = code(task);
    step::<Brand>(osq, pass, TAIL, Op::Exchange(own, code_of(prev))) == own
}

/// Loads the own `next`, and says whether it has a code.
pub fn has_next(osq: &Osq, pass: &mut OsqPass, task: u32, prev: Option<u32>) -> bool
    requires own { SitsAt osq.now pass.old }
    requires mine { task_in pass.old ≡ Some task }
    requires here { place_in pass.old ≡ waits_at prev }
    ensures on { StepsAt osq.now pass.old pass.new }
    ensures kept { view_of pass.new ≡ ticked (view_of pass.old) }
    ensures found { FoundNext result task pass.new }
{
    step::<Brand>(osq, pass, next_of(task), Op::Load) != 0
}

/// Loads the tail, and says whether it is the own code.
pub fn is_last(osq: &Osq, pass: &mut OsqPass, task: u32, prev: Option<u32>) -> bool
    requires own { SitsAt osq.now pass.old }
    requires mine { task_in pass.old ≡ Some task }
    requires here { place_in pass.old ≡ waits_at prev }
    ensures on { StepsAt osq.now pass.old pass.new }
    ensures kept { view_of pass.new ≡ ticked (view_of pass.old) }
    ensures found { FoundOwn result task pass.new }
{
    step::<Brand>(osq, pass, TAIL, Op::Load) == code(task)
}

/// Swaps the own `next` for 0. The answer is the code of the successor, or 0.
fn swap_next(osq: &Osq, pass: &mut OsqPass, task: u32, prev: Option<u32>) -> u64
    requires own { SitsAt osq.now pass.old }
    requires mine { task_in pass.old ≡ Some task }
    requires here { place_in pass.old ≡ waits_at prev }
    ensures on { StepsAt osq.now pass.old pass.new }
    ensures code { result ≤ tasks_of osq.now }
    ensures none { result ≡ 0 → view_of pass.new ≡ ticked (view_of pass.old) }
    ensures some { result ≢ 0
        → view_of pass.new ≡ placed (view_of pass.old) (takes_at prev (result - 1)) }
    ensures found { FoundAt (next_at task) result (past_of pass.new) }
{
    // A swap, and no load: the successor may be taking its code back in order to leave, and one of
    // the two has the code, not both.
    step::<Brand>(osq, pass, next_of(task), Op::Swap(0))
}

/// Swaps the own `next` for 0, and answers the successor where it had a code.
pub fn take_next(osq: &Osq, pass: &mut OsqPass, task: u32, prev: Option<u32>) -> Option<u32>
    requires own { SitsAt osq.now pass.old }
    requires mine { task_in pass.old ≡ Some task }
    requires here { place_in pass.old ≡ waits_at prev }
    ensures on { StepsAt osq.now pass.old pass.new }
    ensures kept { MatchOption result (view_of pass.new ≡ ticked (view_of pass.old)) (λ n.
        (n < tasks_of osq.now) × (view_of pass.new ≡ placed (view_of pass.old) (takes_at prev n))) }
    ensures found { FoundAt (next_at task) (code_in result) (past_of pass.new) }
{
    let found = swap_next(osq, pass, task, prev);
    if found == 0 {
        None
    } else {
        Some((found - 1) as u32)
    }
}

/// Stores 1 in the `locked` of the successor, which is then the head: the task has left.
pub fn grant(osq: &Osq, pass: &mut OsqPass, task: u32, next: u32)
    requires own { SitsAt osq.now pass.old }
    requires mine { task_in pass.old ≡ Some task }
    requires here { place_in pass.old ≡ Granting next }
    requires there { next < tasks_of osq.now }
    ensures on { StepsAt osq.now pass.old pass.new }
    ensures kept { view_of pass.new ≡ placed (view_of pass.old) Out }
{
    // The successor can't leave meanwhile: its code isn't in this task's `next` any more.
    step::<Brand>(osq, pass, locked_of(next), Op::Store(1));
}
