//! Passes of spin queues.
ghost use Rattle.std.specs.Prelude.{◌≡◌};
ghost use Rattle.osq_nodes.specs.OsqHandles.{task_in};

use crate::rule::QueueRule;
use lock_core::Pass;

/// A pass of a spin queue. Contracts see its task's number (`task_in`), where its task is in the
/// queue (`place_in`), how often it has come to be the head (`fronts_in`), how often it swapped
/// the tail and what the last swap found (`swaps_in`, `found_in`), how many steps it has made
/// (`steps_in`), and the moments of the table up to its last step (`past_of`).
#[derive(Drop)]
pub struct OsqPass {
    pub(crate) pass: Pass<QueueRule>,
}

impl OsqPass {
    /// The task whose number it has.
    pub fn task(&self) -> Option<u32>
        ensures { result ≡ task_in self.now }
    {
        self.pass.task()
    }
}
