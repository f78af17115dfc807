//! The duty to wake the first of those who wait for a lock, in words of the lock's table.
#![tactic(auto)]

mod host;
mod steps;
mod view;

pub use host::SleepHost;
pub use steps::{drowse, set};
pub use view::{Duty, WaitState, WakeHand};
