//! What is so of every spin lock at each moment, and of each step of its table. A law of it is the
//! contract of a function that does nothing.
ghost use Rattle.std.specs.Prelude.{◌≡◌, [], ◌∷◌};
ghost use Rattle.lock_core.specs.Views.{ticked};
ghost use Rattle.lock_core.specs.SpinStated.{AreSpinLocksThen, IsSpinLocksMove};
ghost use Rattle.lock_core.specs.Pasts.{EachMoment, Ran, Tail, opening};
ghost use Rattle.lock_core.specs.SiteHandles.{plan_of, view_of, past_of, SitsAt, StepsAt, KeepsNest};
ghost use Rattle.qspin_queue.specs.QueueLaws.{MissingLinksAreOwedOnce, QueueHasHead};

use lock_core::{Pass, Site, SpinHost};

/// A load, after which the pass knows that at each moment of the table so far, from the new table
/// on, the words of each spin lock stated who held it, who owned the pending bit and who stood in
/// its queue, which nodes each pass used, and what each step did to them.
pub fn recall_spin_lock<H: SpinHost>(site: &Site<H>, pass: &mut Pass<H>)
    requires own { SitsAt site.now pass.old }
    ensures on { StepsAt site.now pass.old pass.new }
    ensures nest { KeepsNest pass.old pass.new }
    ensures kept { view_of pass.new ≡ ticked (view_of pass.old) }
    ensures begins { Tail (opening H.marks (plan_of site.now) H.idle ∷ []) (past_of pass.new) }
    ensures always { EachMoment (AreSpinLocksThen H.LOCKS H.FIRST) (past_of pass.new) }
    ensures moves { Ran H.marks (opening H.marks (plan_of site.now) H.idle)
        (IsSpinLocksMove H.LOCKS H.FIRST) (past_of pass.new) }
{
    site.recall(pass);
}

/// At each moment that `recall_spin_lock` tells of, a link that is missing between two neighbours
/// of a queue is owed by exactly one pass: the one that has exchanged the tail, found the first of
/// the two, and not told it its code yet.
pub fn missing_links_are_owed_once()
    ensures { MissingLinksAreOwedOnce }
{}

/// At each of these moments a queue that isn't empty has a head: its first node found no tail, or
/// was told.
pub fn queue_has_head()
    ensures { QueueHasHead }
{}
