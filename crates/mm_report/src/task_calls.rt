//! The calls of a task, and the way from each to the next one on the same object.
ghost use Rattle.std.specs.Prelude.{◌≡◌, ◌<◌, count_by, length, slice_get, Some};
ghost use Rattle.task_script.specs.Links.{HasLinks};
ghost use Rattle.task_script.specs.Scripts.{is_on};

use task_script::{Line, Script};

/// A task's calls, and for each where the task's next one on the same object stands.
#[derive(Drop)]
pub(crate) struct TaskCalls<'a> {
    pub(crate) lines: &'a [Line],
    pub(crate) links: &'a [usize],
}

impl TaskCalls<'_> {
    /// How many of the calls are on the object.
    pub(crate) fn count_on(&self, object: u32) -> usize
        requires linked { HasLinks self.now.lines.now self.now.links.now }
        ensures { result ≡ count_by (is_on object) self.now.lines.now }
    {
        let mut count = 0;
        let mut number = 0;
        while number < self.lines.len() {
            if self.lines[number].object == object {
                count += 1;
                number = self.links[number];
            } else {
                number += 1;
            }
        }
        count
    }
}

/// The calls of a task of the script.
pub(crate) fn calls_of(script: &Script, task: usize) -> TaskCalls<'_>
    requires { task < length script.now.tasks }
    ensures calls { slice_get script.now.tasks task ≡ Some result.lines.now }
    ensures linked { HasLinks result.lines.now result.links.now }
{
    TaskCalls {
        lines: script.calls(task),
        links: script.links(task),
    }
}
