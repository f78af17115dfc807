//! What a pass counts of its calls that wait.
ghost use Rattle.std.specs.Prelude.{◌≡◌};
ghost use Rattle.lock_core.specs.Tallies.{answered, left, no_tally};

use crate::how::{How, Interrupted};

/// What a pass counts of its calls that wait. A count that stands at the last value of a u64 stays
/// there.
#[derive(Clone, Copy, Debug, PartialEq, Eq)]
pub struct Tally {
    /// Calls that stood in the list of waiters. They answer Slept, or were interrupted.
    pub queued: u64,
    /// How often the pass left the lock's spin queue before its turn came.
    pub left: u64,
    /// Calls that a signal interrupted.
    pub interrupted: u64,
}

impl Tally {
    /// That of a new pass.
    pub fn new() -> Tally
        ensures { result ≡ no_tally }
    {
        Tally {
            queued: 0,
            left: 0,
            interrupted: 0,
        }
    }

    /// Counts a turn in the spin queue that didn't come.
    pub fn leave(&mut self)
        ensures { self.new ≡ left self.old }
    {
        self.left = self.left.saturating_add(1);
    }

    /// Counts a call that waited, by its answer.
    pub fn answer(&mut self, answer: Result<How, Interrupted>)
        ensures { self.new ≡ answered answer self.old }
    {
        match answer {
            Ok(How::Fast | How::Spun) => {}
            Ok(How::Slept) => self.queued = self.queued.saturating_add(1),
            Err(_) => {
                self.queued = self.queued.saturating_add(1);
                self.interrupted = self.interrupted.saturating_add(1);
            }
        }
    }
}
