//! The queue of the queued spin lock, and the lock as a whole.
#![tactic(auto)]

mod laws;
mod queue;
pub mod steps;

pub use laws::{missing_links_are_owed_once, queue_has_head, recall_spin_lock};
pub use queue::{Way, lock, lock_with};
