//! The wakes of a reader-writer semaphore: whom they choose, and how batches of readers are granted.
//! Also the steps of tasks that queue, and the owner hint.
#![tactic(auto)]

pub mod batches;
mod duty;
pub mod grants;
pub mod hint;
mod host;
mod patience;
pub mod queueing;
mod removal;
pub mod steps;
mod view;
pub mod wake;
mod woken;

pub use duty::SemWake;
pub use host::{GrantHost, WakeHost};
pub use patience::{Endless, Patience, Waited};
pub use view::{RwSemHand, SemHand, Stage, Wait};
pub use woken::{NO_WAKES, WakeCounts, Woken};
