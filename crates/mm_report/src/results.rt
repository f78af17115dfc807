//! What each object of a script leaves.
ghost use Rattle.std.specs.Prelude.{◌≡◌, ◌<◌, ◌≤◌, length, slice_get, Some, IfOk, ℕ, List, OnOk, get_or};
ghost use Rattle.mm_report.specs.Results.{AddsCalls, empty_results, calls_on, words_of_kind};
ghost use Rattle.std.specs.Borrow.{sem};
ghost use Rattle.mm_report.specs.ResultsLending.{LendsSnapshot};
ghost use Rattle.mm_report.specs.Types.{Line};

use fd_table::Fds;
use std::alloc::{AllocError, Global};
use std::marker::Model;
use task_script::{MAX_OBJECTS, Script};
use vma_map::Areas;
use word_bits::{Object, Snapshot};

/// A snapshot of each object of a script, in the order of declaration.
#[derive(Drop)]
pub struct Results {
    snapshots: Vec<Snapshot>,
}

impl Model for Results {
    ghost use Rattle.std.specs.Prelude.{List};
    ghost use Rattle.word_bits.specs.Snapshots.{Words};

    ghost Value = { List Words };

    ghost view = { λ r. r.snapshots.items };
}

pub(crate) fn state_words(is_space: bool) -> usize
    ensures { result ≡ words_of_kind is_space }
{
    if is_space { Areas::WORDS } else { Fds::WORDS }
}

/// Counts a task's calls on each object. More than a `usize` counts can't be reserved.
fn count_task(
    script: &Script,
    task: usize,
    counts: &mut [usize; MAX_OBJECTS],
) -> Result<(), AllocError>
    requires task { task < length script.now.tasks }
    requires few { length script.now.objects ≤ 32 }
    ensures counted { (lines : List Line) → slice_get script.now.tasks task ≡ Some lines →
        OnOk result (AddsCalls lines counts.old counts.new) }
{
    for line in script.calls(task) {
        let object = line.object as usize;
        counts[object] = counts[object].checked_add(1).ok_or(AllocError)?;
    }
    Ok(())
}

/// How many calls of the script are on each object.
pub(crate) fn count_calls(script: &Script) -> Result<[usize; MAX_OBJECTS], AllocError>
    requires { length script.now.objects ≤ 32 }
    ensures { IfOk result (λ counts. (object : ℕ) → object < 32 →
        get_or counts object 0 ≡ calls_on script.now object) }
{
    let mut counts = [0; MAX_OBJECTS];
    for task in 0..script.tasks() {
        count_task(script, task, &mut counts)?;
    }
    Ok(counts)
}

impl Results {
    /// Empty results of a script, with room for a record and an entry of each call and for each
    /// state.
    pub fn new(alloc: Global, script: &Script) -> Result<Results, AllocError>
        ensures { IfOk result (λ r. r ≡ empty_results script.now) }
    {
        let objects = script.objects();
        let counts = count_calls(script)?;
        let mut snapshots = Vec::new(alloc);
        for object in 0..objects {
            let calls = counts[object];
            let state = state_words(script.is_space(object));
            snapshots.push(Snapshot::new(alloc, calls, calls, state)?)?;
        }
        Ok(Results { snapshots })
    }

    /// What an object leaves.
    pub fn snapshot(&self, object: usize) -> &Snapshot
        requires { object < length self.now }
        ensures { slice_get self.now object ≡ Some result.now }
    {
        &self.snapshots[object]
    }

    /// The same, to be filled.
    pub fn snapshot_mut(&mut self, object: usize) -> &mut Snapshot
        requires { object < length self.old }
        ensures* writes_back { sem 𝓛 (LendsSnapshot self.entry object result) }
        ensures value { slice_get self.old object ≡ Some result.now }
    {
        &mut self.snapshots[object]
    }
}
