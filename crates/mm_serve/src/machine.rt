//! The machine: the objects of a script, and its tasks.
ghost use Rattle.std.specs.Prelude.{◌≡◌, ◌<◌, IfOk, length};
ghost use Rattle.task_script.specs.Scripts.{Listing};

use crate::copying::recall;
use crate::opening::{open_sites, open_workers};
use crate::planning::plans_of;
use crate::running::run;
use crate::shared_object::SharedObject;
use crate::worker::Worker;
use cpu_task::{Context, Crew, Gate, Turns};
use mm_report::Results;
use std::alloc::{AllocError, Global};
use std::mem;
use std::sync::Wait;
use std::thread::Threads;
use task_script::Script;

/// The objects of a script, its tasks, and what they leave. Contracts see its objects, of each the
/// pass that takes in those of all tasks, and its results (`sites_of`, `gathered_of`,
/// `results_of`).
pub struct Machine<S: SharedObject, C: Crew> {
    pub(crate) sites: Vec<S>,
    /// A pass of each object, which takes in those of all tasks.
    pub(crate) gathered: Vec<S::Pass>,
    /// The tasks that are still to run.
    pub(crate) workers: Vec<Worker<C::C, S::Pass>>,
    /// On it the histories are copied.
    pub(crate) cpu: C::C,
    pub(crate) results: Results,
}

impl<S: SharedObject, C: Crew> Machine<S, C> {
    ghost use Rattle.std.specs.Borrow.{sem};
    ghost use Rattle.mm_serve.specs.MachineLending.{LendsResults};
    ghost use Rattle.mm_serve.specs.Machines.{HasRecalled, IsAtRest, results_of, sites_of};

    /// Looks at an object's table, after which the object's gathered pass knows its past: what was
    /// so of the table at each moment, from the one on that its lock names as opened.
    pub fn recall(&mut self, object: usize)
        requires rest { IsAtRest S.idle self.old }
        requires there { object < length (sites_of self.old) }
        ensures rest { IsAtRest S.idle self.new }
        ensures recalled { HasRecalled S.hand S.past S.spun S.knows_past object
            self.old self.new }
    {
        recall(self.sites.as_slice(), &mut self.gathered, object);
    }

    /// What each object leaves. What a borrower leaves there are the results from then on.
    pub fn results(&mut self) -> &mut Results
        ensures* writes_back { sem 𝓛
            (LendsResults S.row C.row S.Pass.row C.C.row self.entry result) }
        ensures value { result.now ≡ results_of self.old }
    {
        &mut self.results
    }
}

impl<S: SharedObject + Drop, C: Crew> Machine<S, C> {
    ghost use Rattle.mm_serve.specs.Machines.{IsFresh, IsMachineOf};

    /// All objects, passes, CPUs and buffers of a script. No pass has a task's number, and the run
    /// takes no memory.
    ///
    /// A script with more calls than one plan has room for, 131,072, is refused as memory is. No
    /// text of at most 1,048,576 bytes has more.
    pub fn open(
        alloc: Global,
        script: &Script,
        crew: &mut C,
        turns: Turns,
    ) -> Result<Machine<S, C>, AllocError>
        ensures fresh { IfOk result (λ machine.
            IsFresh S.idle S.hand S.is_space S.calls_on machine) }
        ensures script { IfOk result (λ machine.
            IsMachineOf S.is_space S.calls_on script.now machine) }
    {
        // Made before the CPUs of the tasks: the crew wakes the last one of each number, which is
        // the task's. The copies are made when nobody holds, so that this one never sleeps.
        let cpu = crew.cpu(alloc, 0, turns)?;
        let results = Results::new(alloc, script)?;
        let plans = plans_of(alloc, script)?;
        let (sites, mut gathered) = open_sites::<S>(alloc, script, plans)?;
        let workers = open_workers(alloc, script, crew, turns, sites.as_slice(), &mut gathered)?;
        Ok(Machine {
            sites,
            gathered,
            workers,
            cpu,
            results,
        })
    }
}

impl<S: SharedObject + Sync, C: Crew + Sync> Machine<S, C>
where
    S::Pass: Send,
    C::C: Send,
{
    ghost use Rattle.mm_serve.specs.Machines.{IsFresh, HasRun, HasLegalResults, GoBackToTasks, IsAtRest, IsMachineOf, KnowsPasts};

    /// Does all tasks at once, each on a thread of its own, and takes a snapshot of each object
    /// when all are done. The results are legal histories of the machine's script. Then looks back
    /// at each object's table, after which each gathered pass knows what was so at every step. It
    /// goes back to a pass with each task's number. On the table it goes back to a step of that pass
    /// by which all the task's calls were recorded. On the lock's spin queue it goes back to a moment
    /// at which that number was outside the queue.
    ///
    /// Where a thread can't be made, its task is done by another task's thread after that one's
    /// own, so tasks that wait for each other can then wait for good.
    pub fn run<R: Threads + Wait + Sync, G: Gate + Sync>(&mut self, rt: &R, crew: &C, gate: &G)
        requires { IsFresh S.idle S.hand S.is_space S.calls_on self.old }
        ensures ran { HasRun S.idle S.hand S.past S.is_space S.calls_on self.old self.new }
        ensures legal { (script : Listing) → IsMachineOf S.is_space S.calls_on script self.old →
            HasLegalResults S.hand script self.new }
        ensures rest { IsAtRest S.idle self.new }
        ensures past { KnowsPasts S.knows_past self.new }
        ensures tasks { GoBackToTasks S.looked_back S.past S.spun S.calls_on self.new }
    {
        let none = Vec::new(*self.workers.allocator());
        let workers = mem::replace(&mut self.workers, none);
        run(
            Context { rt, crew, gate },
            self.sites.as_slice(),
            &mut self.gathered,
            workers,
            &mut self.cpu,
            &mut self.results,
        );
    }
}

impl<S: SharedObject + Drop, C: Crew> Drop for Machine<S, C> {
    fn drop(self) {
        let Machine {
            sites: _,
            gathered: _,
            workers: _,
            cpu: _,
            results: _,
        } = self;
    }
}
