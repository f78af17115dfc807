//! Laws of what a waker picks, and that no wake-up is lost. Each is the contract of a function that
//! does nothing.
ghost use Rattle.std.specs.Prelude.{List};
ghost use Rattle.rwsem_wake.specs.SemParts.{SemPart};
ghost use Rattle.rwsem_slow.specs.LostWakes.{LosesNoWake};
ghost use Rattle.rwsem_slow.specs.RwSemStated.{IsQueued};
ghost use Rattle.rwsem_slow.specs.Picking.{PicksBatchInTurn, PicksFirstReaders, PicksWholeBatch};
ghost use Rattle.rwsem_slow.specs.Types.{Moment, Waiter};

/// A waker that removes the first reader of the list again and again has removed the first readers
/// of the list that it began with, in order.
#[tactic(auto, using(crate::proofs::Picking::picks_first_readers))]
pub fn picks_first_readers()
    ensures { PicksFirstReaders }
{}

/// Once these are a whole batch, they are the batch of that list.
#[tactic(auto, using(crate::proofs::Picking::picks_whole_batch))]
pub fn picks_whole_batch()
    ensures { PicksWholeBatch }
{}

/// A waker that has picked one task after another, as each of its steps may, has the batch of the
/// list at its first pick, once it has a whole batch.
#[tactic(auto, using(crate::proofs::Picking::picks_batch_in_turn))]
pub fn picks_batch_in_turn()
    ensures { PicksBatchInTurn }
{}

/// No wake-up is lost: where nobody writes or reads and tasks wait, a task owes a wake, or a bias
/// keeps writers out, or the first waiter is a writer that needs no further wake. A reader that is
/// granted while it waits needs none either. Of each moment that a pass goes back to, its look back
/// says that the list is so (`IsQueued`).
pub fn loses_no_wake()
    ensures { (m : Moment) (q : List Waiter) (ps : List SemPart) →
        IsQueued m q ps → LosesNoWake m q ps }
{}
