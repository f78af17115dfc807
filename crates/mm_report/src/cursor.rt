//! How far each task's calls on an object are told.
ghost use Rattle.std.specs.Prelude.{◌≡◌, ◌≤◌, ◌<◌, ◌+◌, ◌⊎◌, length};
ghost use Rattle.mm_report.specs.Results.{calls_on};
ghost use Rattle.mm_report.specs.Cursors.{earliest, IsOneBelow, StandFirst};

use crate::task_calls::calls_of;
use task_script::Script;
use word_bits::MAX_TASKS;

/// How far a task's calls on one object are told.
#[derive(Clone, Copy)]
pub(crate) struct Cursor {
    /// The line of the task's next call on the object, or one before it.
    pub(crate) line: usize,
    /// The place of that call's record.
    pub(crate) rec: usize,
    /// No call that is left stands below this position. `None` where no call is left.
    pub(crate) position: Option<u64>,
}

impl Cursor {
    /// Where the next call stands at the earliest, which is past all positions where none is left.
    pub(crate) fn earliest(&self) -> u64
        ensures { result ≡ earliest self.now.position }
    {
        self.position.unwrap_or(u64::MAX)
    }
}

const START: Cursor = Cursor {
    line: 0,
    rec: 0,
    position: Some(0),
};

/// The cursors of all tasks, each before its task's first line.
pub(crate) fn first_cursors(
    script: &Script,
    object: u32,
    recs: &[u64],
) -> [Cursor; MAX_TASKS as usize]
    requires complete { length recs.now ≡ calls_on script.now object }
    ensures all { length result ≡ 400 }
    ensures room { length script.now.tasks ≤ 400 }
    ensures starts { StandFirst script.now object result }
{
    let mut cursors = [START; MAX_TASKS as usize];
    let mut rec = 0;
    for task in 0..script.tasks() {
        cursors[task].rec = rec;
        rec += calls_of(script, task).count_on(object);
    }
    cursors
}

/// The position of the second task that has a call left. Below it stand the calls of one task.
fn second_position(cursors: &[Cursor]) -> u64
    ensures { IsOneBelow result cursors.now }
{
    let mut least = u64::MAX;
    let mut second = u64::MAX;
    for cursor in cursors {
        let earliest = cursor.earliest();
        second = second.min(earliest.max(least));
        least = least.min(earliest);
    }
    second
}

/// A position up to which the tasks' calls can be told task by task: the next one, or one below
/// which only one task has calls left.
pub(crate) fn next_bound(cursors: &[Cursor], position: u64, end: u64) -> u64
    requires { position < end }
    ensures further { position < result }
    ensures within { result ≤ end }
    ensures alone { (result ≡ position + 1) ⊎ IsOneBelow result cursors.now }
{
    second_position(cursors).min(end).max(position + 1)
}
