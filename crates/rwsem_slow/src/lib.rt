//! The reader-writer semaphore: its calls.
#![tactic(auto)]

mod calls;
pub mod laws;
mod leave;
mod reader;
mod release;
mod rule;
mod rwsem_lock;
mod sleep;
mod writer;

pub use calls::{RwPass, RwSem};
pub use rule::SemRule;
