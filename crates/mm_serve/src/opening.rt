//! The objects and the tasks of a script, before any task has begun.
ghost use Rattle.std.specs.Prelude.{◌≡◌, ◌<◌, [], All, IfOk, OnOk, length, map, max, slice_index_or};
ghost use Rattle.mm_serve.specs.Machines.{AreSitesOf};
ghost use Rattle.mm_serve.specs.ObjectsOpening.{ArePlansOf};
ghost use Rattle.mm_serve.specs.Workers.{AreNumbered, HaveSeenNothing, IsReady};

use crate::shared_object::SharedObject;
use crate::worker::Worker;
use cpu_task::{Crew, Turns};
use lock_core::Plan;
use std::alloc::{AllocError, Global};
use task_script::{Line, Script};

/// Each object of a script, with a pass.
pub(crate) fn open_sites<S: SharedObject + Drop>(
    alloc: Global,
    script: &Script,
    plans: Vec<Plan>,
) -> Result<(Vec<S>, Vec<S::Pass>), AllocError>
    requires { ArePlansOf script.now plans.items }
    ensures sites { IfOk result (λ opened.
        AreSitesOf S.is_space S.calls_on script.now opened.0.items) }
    ensures passes { IfOk result (λ opened.
        HaveSeenNothing S.idle S.hand opened.0.items opened.1.items) }
{
    let mut sites = Vec::with_capacity(alloc, script.objects())?;
    let mut passes = Vec::with_capacity(alloc, script.objects())?;
    for plan in plans {
        let object = sites.len();
        let (site, pass) = S::open(alloc, object as u32, script.is_space(object), plan)?;
        sites.push(site)?;
        passes.push(pass)?;
    }
    Ok((sites, passes))
}

/// A pass more of each object.
fn split_all<S: SharedObject>(
    alloc: Global,
    sites: &[S],
    gathered: &mut Vec<S::Pass>,
) -> Result<Vec<S::Pass>, AllocError>
    requires { HaveSeenNothing S.idle S.hand sites.now gathered.old.items }
    ensures kept { OnOk result (HaveSeenNothing S.idle S.hand sites.now gathered.new.items) }
    ensures passes { IfOk result (λ passes.
        HaveSeenNothing S.idle S.hand sites.now passes.items) }
{
    let mut passes = Vec::new(alloc);
    for object in 0..sites.len() {
        passes.push(sites[object].split(&mut gathered[object]))?;
    }
    Ok(passes)
}

/// The numbers of the objects that the lines are on.
fn objects_of(alloc: Global, lines: &[Line]) -> Result<Vec<u32>, AllocError>
    ensures { IfOk result (λ objects. objects.items ≡ map (λ line. line.object) lines.now) }
{
    lines.iter().map(|line| line.object).collect(alloc)
}

/// The lines of a task. A task that the script doesn't have has none.
fn lines_of(script: &Script, task: usize) -> &[Line]
    ensures lines { result.now ≡ slice_index_or script.now.tasks task [] }
    ensures on_objects { All (λ line. line.object < length script.now.objects) result.now }
{
    if task < script.tasks() {
        script.calls(task)
    } else {
        &[]
    }
}

/// Each task of a script, and one without calls where the script has none: the histories are
/// copied as one of them.
pub(crate) fn open_workers<S: SharedObject, C: Crew>(
    alloc: Global,
    script: &Script,
    crew: &mut C,
    turns: Turns,
    sites: &[S],
    gathered: &mut Vec<S::Pass>,
) -> Result<Vec<Worker<C::C, S::Pass>>, AllocError>
    requires sites { AreSitesOf S.is_space S.calls_on script.now sites.now }
    requires passes { HaveSeenNothing S.idle S.hand sites.now gathered.old.items }
    ensures kept { OnOk result (HaveSeenNothing S.idle S.hand sites.now gathered.new.items) }
    ensures ready { IfOk result (λ workers.
        All (IsReady S.idle S.hand S.calls_on sites.now) workers.items) }
    ensures numbered { IfOk result (λ workers. AreNumbered workers.items) }
    ensures many { IfOk result (λ workers.
        length workers.items ≡ max (length script.now.tasks) 1) }
{
    let mut workers = Vec::new(alloc);
    for task in 0..script.tasks().max(1) {
        let cpu = crew.cpu(alloc, task as u32, turns)?;
        let passes = split_all(alloc, sites, gathered)?;
        let objects = objects_of(alloc, lines_of(script, task))?;
        workers.push(Worker {
            cpu,
            passes,
            objects,
            task: task as u32,
        })?;
    }
    Ok(workers)
}
