//! Lists of tasks.
ghost use Rattle.std.specs.Prelude.{◌≡◌, ◌↔◌, ◌<◌, IsTrue, Some, MatchOption, Contains, length, slice_get};

/// How many tasks a list of a course has at most.
pub const MOST: usize = 40;

/// Whether it is this task.
pub(crate) fn is_task(found: Option<u32>, task: u32) -> bool
    ensures { IsTrue result ↔ (found ≡ Some task) }
{
    found == Some(task)
}

/// Where the task stands in the list.
pub(crate) fn place_of(tasks: &[u32], task: u32) -> Option<usize>
    ensures { MatchOption result (¬ Contains tasks.now task)
        (λ k. (k < length tasks.now) × (slice_get tasks.now k ≡ Some task)) }
{
    for (k, other) in tasks.iter().enumerate() {
        if *other == task {
            return Some(k);
        }
    }
    None
}
