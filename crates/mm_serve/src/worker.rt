//! Tasks at work, each with a CPU and a pass of each object of its own.
ghost use Rattle.std.specs.Prelude.{◌≡◌, ℕ, ◌<◌, All, length, slice_get, Some};
ghost use Rattle.lock_core.specs.Records.{row};
ghost use Rattle.mm_serve.specs.MachineHistories.{HasDoneOn};
ghost use Rattle.mm_serve.specs.MachineQueues.{GoesBackToTask};
ghost use Rattle.mm_serve.specs.Workers.{EachOf, HaveDoneTheirTasks, HaveSeenNothing, HasDoneItsTask, IsReady, calls_to};

use crate::shared_object::SharedObject;
use cpu_task::{Context, Crew, Gate};
use std::sync::Wait;
use std::thread;
use std::thread::Threads;

/// A task with its CPU.
#[derive(Drop)]
pub struct Worker<P, Q> {
    pub(crate) cpu: P,
    /// A pass of each object, in the order of declaration.
    pub(crate) passes: Vec<Q>,
    /// For each call of the task, in order, the number of the object that it is on.
    pub(crate) objects: Vec<u32>,
    pub(crate) task: u32,
}

/// Takes the task's number at each object.
fn begin_all<S: SharedObject, W: Wait>(rt: &W, sites: &[S], passes: &mut Vec<S::Pass>, task: u32)
    requires passes { HaveSeenNothing S.idle S.hand sites.now passes.old.items }
    requires there { (k : ℕ) (s : S) → slice_get sites.now k ≡ Some s →
        task < length (S.calls_on s) }
    ensures { EachOf (λ k s p. S.serving s p task × ((S.hand p).done ≡ 0))
        sites.now passes.new.items }
{
    for object in 0..sites.len() {
        sites[object].begin(rt, &mut passes[object], task);
    }
}

/// Does the task's calls in order.
fn perform_all<S: SharedObject, W: Wait, C: Crew, G: Gate>(
    context: Context<'_, W, C, G>,
    sites: &[S],
    objects: &[u32],
    cpu: &mut C::C,
    passes: &mut Vec<S::Pass>,
    task: u32,
)
    requires passes { EachOf (λ k s p. S.serving s p task × ((S.hand p).done ≡ 0))
        sites.now passes.old.items }
    requires calls { (k : ℕ) (s : S) → slice_get sites.now k ≡ Some s →
        length (row (S.calls_on s) task) ≡ calls_to k objects.now }
    requires objects { All (λ object. object < length sites.now) objects.now }
    ensures { EachOf (λ k s p. S.serving s p task × ((S.hand p).done ≡ calls_to k objects.now))
        sites.now passes.new.items }
{
    for number in objects {
        let object = *number as usize;
        sites[object].perform(context, &mut passes[object], cpu, task);
    }
}

/// Looks back at the tables and at the spin queues, and gives the task's numbers back.
fn end_all<S: SharedObject>(sites: &[S], passes: &mut Vec<S::Pass>, task: u32)
    requires passes { EachOf (λ k s p. S.serving s p task ×
        ((S.hand p).done ≡ length (row (S.calls_on s) task))) sites.now passes.old.items }
    ensures { EachOf (λ k s p. S.idle s p ×
        HasDoneOn (S.is_space s) (S.calls_on s) (S.hand p) task ×
        GoesBackToTask S.looked_back S.past S.spun s task p) sites.now passes.new.items }
{
    for object in 0..sites.len() {
        sites[object].end(&mut passes[object], task);
    }
}

/// Does all of a task.
pub(crate) fn serve<S: SharedObject, W: Wait, C: Crew, G: Gate>(
    context: Context<'_, W, C, G>,
    sites: &[S],
    worker: &mut Worker<C::C, S::Pass>,
)
    requires ready { IsReady S.idle S.hand S.calls_on sites.now worker.old }
    ensures { HasDoneItsTask S.idle S.hand S.looked_back S.past S.spun S.is_space S.calls_on
        sites.now worker.old worker.new }
{
    begin_all(context.rt, sites, &mut worker.passes, worker.task);
    perform_all(
        context,
        sites,
        worker.objects.as_slice(),
        &mut worker.cpu,
        &mut worker.passes,
        worker.task,
    );
    end_all(sites, &mut worker.passes, worker.task);
}

/// Does all tasks at once, each on a thread of its own where one can be made, and else after
/// another task on that one's thread.
pub(crate) fn serve_all<
    S: SharedObject + Sync,
    R: Threads + Wait + Sync,
    C: Crew + Sync,
    G: Gate + Sync,
>(context: Context<'_, R, C, G>, sites: &[S], workers: &mut [Worker<C::C, S::Pass>])
where
    S::Pass: Send,
    C::C: Send,
    requires { All (IsReady S.idle S.hand S.calls_on sites.now) workers.old }
    ensures { HaveDoneTheirTasks S.idle S.hand S.looked_back S.past S.spun S.is_space S.calls_on
        sites.now workers.old workers.new }
{
    // With fewer threads than tasks, two that wait for each other could share one.
    let threads = workers.len().max(1);
    thread::for_each_mut(
        context.rt,
        workers,
        threads,
        &|_, worker: &mut Worker<C::C, S::Pass>|
            requires { IsReady S.idle S.hand S.calls_on sites.now worker.old }
            ensures { HasDoneItsTask S.idle S.hand S.looked_back S.past S.spun S.is_space S.calls_on
                sites.entry.now worker.old worker.new }
        { serve(context, sites, worker) },
    );
}
