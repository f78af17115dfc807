//! A law of the mutex. It is the contract of a function that does nothing.
ghost use Rattle.std.specs.Prelude.{List};
ghost use Rattle.mutex_slow.specs.LostWakes.{LosesNoWake};
ghost use Rattle.mutex_slow.specs.MutexStated.{IsListed};
ghost use Rattle.mutex_slow.specs.Types.{Moment, Waiter};

/// No wake-up is lost: where nobody holds and tasks wait, some task that doesn't wait is to wake the
/// first waiter. Or that waiter's wake word is set, or it is awake and tries before it sleeps. Of
/// each moment that a pass goes back to, its look back says that the list is so (`IsListed`).
pub fn loses_no_wake()
    ensures { (m : Moment) (l : List Waiter) → IsListed m l → LosesNoWake m l }
{}
