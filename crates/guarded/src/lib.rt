//! Objects under locks.
#![tactic(auto)]

mod copying;
mod guarded;
mod next;
mod perform;
mod searching;
mod served;
mod slots;
mod splicing;

pub use guarded::Guarded;
pub use served::Served;
pub use sleep_lock::SleepLock;
