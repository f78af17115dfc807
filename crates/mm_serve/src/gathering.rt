//! What all tasks' passes know, in one pass of each object.
ghost use Rattle.mm_serve.specs.Workers.{AllIdle, EachOf, HaveGathered, KnowsFrom, TakesUp};

use crate::shared_object::SharedObject;
use crate::worker::Worker;

/// Takes in the passes of one worker.
fn gather_passes<S: SharedObject>(
    sites: &[S],
    gathered: &mut Vec<S::Pass>,
    mut passes: Vec<S::Pass>,
)
    requires gathered { EachOf (λ k s p. S.idle s p) sites.now gathered.old.items }
    requires passes { EachOf (λ k s p. S.idle s p) sites.now passes.items }
    ensures { HaveGathered S.idle (TakesUp S.hand S.past S.spun) 0 sites.now gathered.old.items
        passes.items gathered.new.items }
{
    while let Some(pass) = passes.pop() {
        let object = passes.len();
        sites[object].gather(&mut gathered[object], pass);
    }
}

/// Takes in the passes of all workers.
pub(crate) fn gather_all<S: SharedObject, P: Drop>(
    sites: &[S],
    gathered: &mut Vec<S::Pass>,
    mut workers: Vec<Worker<P, S::Pass>>,
)
    requires gathered { EachOf (λ k s p. S.idle s p) sites.now gathered.old.items }
    requires workers { AllIdle S.idle sites.now workers.items }
    ensures { EachOf (λ k s p. S.idle s p ×
        KnowsFrom (TakesUp S.hand S.past S.spun) 0 workers.items k p) sites.now gathered.new.items }
{
    while let Some(worker) = workers.pop() {
        let Worker {
            cpu: _,
            passes,
            objects: _,
            task: _,
        } = worker;
        gather_passes(sites, gathered, passes);
    }
}
