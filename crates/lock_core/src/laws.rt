//! Laws of histories. Each is the contract of a function that does nothing.
ghost use Rattle.std.specs.Prelude.{ℕ};
ghost use Rattle.lock_core.specs.Causes.{CallsHaveCauses};
ghost use Rattle.lock_core.specs.Kinds.{Kind, unavailable};
ghost use Rattle.lock_core.specs.Linear.{StateIsThatAfterLog};
ghost use Rattle.lock_core.specs.Orders.{PlacesFollowLinearizationPoints};

use word_bits::Object;

/// Where each call took effect at the step that stored its record, the places of records say in
/// what order they were stored: of two calls that held, the one that was recorded first stands no
/// later, and before the other if it changes the object.
pub fn places_keep_step_order<O: Object>()
    ensures { PlacesFollowLinearizationPoints O.object O.WORDS }
{}

/// In a linearizable history, wherever no pass owes a record, the abstract state is that after the
/// log, and the number that goes with it is the log's length.
pub fn abstract_state_is_that_after_the_log<O: Object>()
    ensures { StateIsThatAfterLog O.object O.WORDS }
{}

/// A call that replied busy, interrupted or sent has its cause: a step of a pass with its task's
/// number that tried in vain and saw the word, consumed a signal, or sent one. It lies behind the
/// task's record before the call on the object, and not behind the call's own. The law speaks of a
/// past that goes back to the opening, of a lock of either kind whose word stands at `word_at`.
pub fn calls_have_their_causes<O: Object>()
    ensures { (kind : Kind) (word_at : ℕ)
        → CallsHaveCauses O.object (unavailable kind) O.WORDS word_at }
{}
