//! The locks that tasks sleep on: the trait that such a lock keeps, and what kind of word it has.
#![tactic(auto)]

mod lock;

pub use lock::{CountLock, OwnerLock, SleepLock};
