//! The copies of all objects' histories.
ghost use Rattle.std.specs.Prelude.{◌≡◌, ◌≢◌, ℕ, ◌<◌, length, slice_get, slice_index_or, Some};
ghost use Rattle.lock_core.specs.Pasts.{GoesOn};
ghost use Rattle.mm_serve.specs.MachineCopying.{IsCopied, IsToCopy, KnowPasts};
ghost use Rattle.mm_serve.specs.Workers.{EachOf};

use crate::shared_object::SharedObject;
use cpu_task::Crew;
use mm_report::Results;
use std::sync::Wait;

/// Copies the history of each object.
pub(crate) fn snapshot_all<S: SharedObject, W: Wait, C: Crew>(
    rt: &W,
    cpu: &mut C::C,
    crew: &C,
    sites: &[S],
    gathered: &mut Vec<S::Pass>,
    results: &mut Results,
)
    requires gathered { EachOf (IsToCopy S.idle S.hand S.is_space S.calls_on results.old)
        sites.now gathered.old.items }
    requires long { length results.old ≡ length sites.now }
    requires some { (k : ℕ) (s : S) → slice_get sites.now k ≡ Some s →
        0 < length (S.calls_on s) }
    ensures copied { EachOf (IsCopied S.idle S.hand S.past S.is_space S.calls_on results.new)
        sites.now gathered.new.items }
    ensures long { length results.new ≡ length sites.now }
    ensures goes_on { (k : ℕ) (p : S.Pass) →
        GoesOn (S.past (slice_index_or gathered.old.items k p))
        (S.past (slice_index_or gathered.new.items k p)) }
    ensures queues { (k : ℕ) (p : S.Pass) →
        GoesOn (S.spun (slice_index_or gathered.old.items k p))
        (S.spun (slice_index_or gathered.new.items k p)) }
{
    for object in 0..sites.len() {
        sites[object].snapshot(
            rt,
            &mut gathered[object],
            cpu,
            crew,
            results.snapshot_mut(object),
        );
    }
}

/// Looks at an object's table by the object's gathered pass.
pub(crate) fn recall<S: SharedObject>(sites: &[S], gathered: &mut Vec<S::Pass>, object: usize)
    requires rest { EachOf (λ k s p. S.idle s p) sites.now gathered.old.items }
    requires there { object < length sites.now }
    ensures rest { EachOf (λ k s p. S.idle s p) sites.now gathered.new.items }
    ensures others { (k : ℕ) → k ≢ object →
        slice_get gathered.new.items k ≡ slice_get gathered.old.items k }
    ensures hands { (k : ℕ) (p : S.Pass) → S.hand (slice_index_or gathered.new.items k p) ≡
        S.hand (slice_index_or gathered.old.items k p) }
    ensures goes_on { (k : ℕ) (p : S.Pass) →
        GoesOn (S.past (slice_index_or gathered.old.items k p))
        (S.past (slice_index_or gathered.new.items k p)) }
    ensures queues { (k : ℕ) (p : S.Pass) →
        GoesOn (S.spun (slice_index_or gathered.old.items k p))
        (S.spun (slice_index_or gathered.new.items k p)) }
    ensures past { (s : S) (p : S.Pass) → slice_get sites.now object ≡ Some s →
        slice_get gathered.new.items object ≡ Some p → S.knows_past s p }
{
    sites[object].recall(&mut gathered[object]);
}

/// Looks at the table of each object by the object's gathered pass.
pub(crate) fn recall_all<S: SharedObject>(sites: &[S], gathered: &mut Vec<S::Pass>)
    requires { EachOf (λ k s p. S.idle s p) sites.now gathered.old.items }
    ensures rest { EachOf (λ k s p. S.idle s p) sites.now gathered.new.items }
    ensures hands { (k : ℕ) (p : S.Pass) → S.hand (slice_index_or gathered.new.items k p) ≡
        S.hand (slice_index_or gathered.old.items k p) }
    ensures goes_on { (k : ℕ) (p : S.Pass) →
        GoesOn (S.past (slice_index_or gathered.old.items k p))
        (S.past (slice_index_or gathered.new.items k p)) }
    ensures queues { (k : ℕ) (p : S.Pass) →
        GoesOn (S.spun (slice_index_or gathered.old.items k p))
        (S.spun (slice_index_or gathered.new.items k p)) }
    ensures past { KnowPasts S.knows_past sites.now gathered.new.items }
{
    for object in 0..sites.len() {
        recall(sites, gathered, object);
    }
}
