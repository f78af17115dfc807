//! Where the words of a spin queue stand among the words of the locks.
ghost use Rattle.std.specs.Prelude.{◌≡◌, ◌+◌, ◌<◌};
ghost use Rattle.osq_nodes.specs.Words.{next_at, prev_at, locked_at, code_in};

use word_bits::MAX_TASKS;

/// The code of the last task in the queue, or 0.
pub const TAIL: usize = 0;

// A task's node is in its lines: `next` and `prev` on the first one. It spins on `locked`, which
// has the second one for itself.
const NODES: usize = 64;

const NODE_WORDS: usize = 32;

/// The place of a node's `next`: the code of its successor, or 0.
pub fn next_of(task: u32) -> usize
    requires { task < MAX_TASKS }
    ensures { result ≡ next_at task }
{
    NODES + NODE_WORDS * task as usize
}

/// The place of a node's `prev`: the code of its predecessor.
pub fn prev_of(task: u32) -> usize
    requires { task < MAX_TASKS }
    ensures { result ≡ prev_at task }
{
    NODES + 1 + NODE_WORDS * task as usize
}

/// The place of a node's `locked`: 1 once it is granted, else 0.
pub fn locked_of(task: u32) -> usize
    requires { task < MAX_TASKS }
    ensures { result ≡ locked_at task }
{
    NODES + 8 + NODE_WORDS * task as usize
}

/// The code of a task.
pub fn code(task: u32) -> u64
    ensures { result ≡ task + 1 }
{
    u64::from(task) + 1
}

/// The code of a task, or 0.
pub fn code_of(task: Option<u32>) -> u64
    ensures { result ≡ code_in task }
{
    match task {
        None => 0,
        Some(task) => code(task),
    }
}
