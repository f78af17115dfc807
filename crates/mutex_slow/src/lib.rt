//! The mutex: its rule, and its calls.
#![tactic(auto)]

mod calls;
mod fast;
pub mod laws;
mod leave;
mod mutex_lock;
mod queue;
mod release;
mod rule;
mod sleep;
mod spin;
mod view;
mod wait_lock;
mod wake;

pub use calls::{Mutex, MutexPass};
pub use rule::MutexRule;
pub use view::{MutexHand, Point};
