//! All tasks at once, and what is known then.
ghost use Rattle.std.specs.Prelude.{◌≡◌, ℕ, ◌<◌, All, length, slice_get, Some};
ghost use Rattle.mm_serve.specs.MachineCopying.{AreBlank, IsCopied, KnowPasts};
ghost use Rattle.mm_serve.specs.MachineQueues.{GoesBackToTasks};
ghost use Rattle.mm_serve.specs.Workers.{AreNumbered, EachOf, IsReady, KnowsAllDone};

use crate::copying::{recall_all, snapshot_all};
use crate::gathering::gather_all;
use crate::shared_object::SharedObject;
use crate::worker::{Worker, serve_all};
use cpu_task::{Context, Crew, Gate};
use mm_report::Results;
use std::sync::Wait;
use std::thread::Threads;

/// Does all tasks at once, and gathers what they know.
fn serve_and_gather<
    S: SharedObject + Sync,
    R: Threads + Wait + Sync,
    C: Crew + Sync,
    G: Gate + Sync,
>(
    context: Context<'_, R, C, G>,
    sites: &[S],
    gathered: &mut Vec<S::Pass>,
    mut workers: Vec<Worker<C::C, S::Pass>>,
)
where
    S::Pass: Send,
    C::C: Send,
    requires gathered { EachOf (λ k s p. S.idle s p) sites.now gathered.old.items }
    requires ready { All (IsReady S.idle S.hand S.calls_on sites.now) workers.items }
    requires numbered { AreNumbered workers.items }
    requires tasks { (k : ℕ) (s : S) → slice_get sites.now k ≡ Some s →
        length (S.calls_on s) ≡ length workers.items }
    ensures done { EachOf (λ k s p. S.idle s p × KnowsAllDone S.hand S.is_space S.calls_on s p)
        sites.now gathered.new.items }
    ensures tasks { EachOf (λ k s p. GoesBackToTasks S.looked_back S.past S.spun S.calls_on s p)
        sites.now gathered.new.items }
{
    serve_all(context, sites, workers.as_mut_slice());
    gather_all(sites, gathered, workers);
}

/// Does all tasks at once, copies the history of each object then, and looks back at its table.
pub(crate) fn run<S: SharedObject + Sync, R: Threads + Wait + Sync, C: Crew + Sync, G: Gate + Sync>(
    context: Context<'_, R, C, G>,
    sites: &[S],
    gathered: &mut Vec<S::Pass>,
    workers: Vec<Worker<C::C, S::Pass>>,
    cpu: &mut C::C,
    results: &mut Results,
)
where
    S::Pass: Send,
    C::C: Send,
    requires gathered { EachOf (λ k s p. S.idle s p) sites.now gathered.old.items }
    requires ready { All (IsReady S.idle S.hand S.calls_on sites.now) workers.items }
    requires numbered { AreNumbered workers.items }
    requires some { 0 < length workers.items }
    requires tasks { (k : ℕ) (s : S) → slice_get sites.now k ≡ Some s →
        length (S.calls_on s) ≡ length workers.items }
    requires blank { AreBlank S.is_space S.calls_on sites.now results.old }
    ensures copied { EachOf (IsCopied S.idle S.hand S.past S.is_space S.calls_on results.new)
        sites.now gathered.new.items }
    ensures long { length results.new ≡ length sites.now }
    ensures past { KnowPasts S.knows_past sites.now gathered.new.items }
    ensures tasks { EachOf (λ k s p. GoesBackToTasks S.looked_back S.past S.spun S.calls_on s p)
        sites.now gathered.new.items }
{
    serve_and_gather(context, sites, gathered, workers);
    snapshot_all(context.rt, cpu, context.crew, sites, gathered, results);
    recall_all(sites, gathered);
}
