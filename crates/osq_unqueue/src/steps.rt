//! The steps by which a task leaves the queue before its turn, each one atomic operation.
ghost use Rattle.std.specs.Prelude.{◌≡◌, ◌+◌, ◌<◌, Some, MatchBool};
ghost use Rattle.lock_core.specs.Pasts.{FoundAt};
ghost use Rattle.lock_core.specs.Views.{ticked};
ghost use Rattle.osq_nodes.specs.declared.node.Place.TheVariants.{Out, Waiting, Unlinked, Splicing, Relinking};
ghost use Rattle.osq_nodes.specs.OsqHandles.{tasks_of, view_of, task_in, place_in, past_of, FoundThere, SitsAt, StepsAt};
ghost use Rattle.osq_nodes.specs.OsqSteps.{placed};
ghost use Rattle.osq_nodes.specs.Words.{next_at, prev_at};

use lock_core::Op;
use osq_nodes::layout::{code, next_of, prev_of};
use osq_nodes::words::step;
use osq_nodes::{Osq, OsqPass};
use std::marker::Brand;

/// Takes the own code out of the `next` of the predecessor, and says whether it was there.
pub fn take_back(osq: &Osq, pass: &mut OsqPass, task: u32, prev: u32) -> bool
    requires own { SitsAt osq.now pass.old }
    requires mine { task_in pass.old ≡ Some task }
    requires here { place_in pass.old ≡ Waiting }
    requires there { prev < tasks_of osq.now }
    ensures on { StepsAt osq.now pass.old pass.new }
    ensures kept { MatchBool result (view_of pass.new ≡ placed (view_of pass.old) (Unlinked prev))
        (view_of pass.new ≡ ticked (view_of pass.old)) }
    ensures found { FoundThere result (next_at prev) (task + 1) pass.new }
{
    // An exchange: the predecessor may be taking the code too, and one of the two has it then.
    let own = code(task);
    step::<Brand>(osq, pass, next_of(prev), Op::Exchange(own, 0)) == own
}

/// Loads the own `prev`: the predecessor, which may be another than before.
pub fn reread(osq: &Osq, pass: &mut OsqPass, task: u32) -> u32
    requires own { SitsAt osq.now pass.old }
    requires mine { task_in pass.old ≡ Some task }
    requires here { place_in pass.old ≡ Waiting }
    ensures on { StepsAt osq.now pass.old pass.new }
    ensures kept { view_of pass.new ≡ ticked (view_of pass.old) }
    ensures there { result < tasks_of osq.now }
    ensures found { FoundAt (prev_at task) (result + 1) (past_of pass.new) }
{
    (step::<Brand>(osq, pass, prev_of(task), Op::Load) - 1) as u32
}

/// Stores the code of the predecessor in the `prev` of the successor: the task has left.
pub fn splice(osq: &Osq, pass: &mut OsqPass, task: u32, prev: u32, next: u32)
    requires own { SitsAt osq.now pass.old }
    requires mine { task_in pass.old ≡ Some task }
    requires here { place_in pass.old ≡ Splicing prev next }
    requires there { next < tasks_of osq.now }
    ensures on { StepsAt osq.now pass.old pass.new }
    ensures kept { view_of pass.new ≡ placed (view_of pass.old) (Relinking prev next) }
{
    // Before the predecessor's link: whoever finds that link may leave, and store its own
    // predecessor here, which this store must not undo.
    step::<Brand>(osq, pass, prev_of(next), Op::Store(code(prev)));
}

/// Stores the code of the successor in the `next` of the predecessor: the two are linked.
pub fn relink(osq: &Osq, pass: &mut OsqPass, task: u32, prev: u32, next: u32)
    requires own { SitsAt osq.now pass.old }
    requires mine { task_in pass.old ≡ Some task }
    requires here { place_in pass.old ≡ Relinking prev next }
    requires there { prev < tasks_of osq.now }
    ensures on { StepsAt osq.now pass.old pass.new }
    ensures kept { view_of pass.new ≡ placed (view_of pass.old) Out }
{
    // The successor can't have left, as this link is in no word yet that it could take it out of.
    step::<Brand>(osq, pass, next_of(prev), Op::Store(code(next)));
}
