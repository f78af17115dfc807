//! The optimistic spin queue: one head, the rest linked behind it in order.
#![tactic(auto)]

mod laws;
pub mod layout;
pub mod node;
mod pass;
mod queue;
mod rule;
pub mod steps;
pub mod words;

pub use laws::{missing_links_are_owed_once, queue_has_head};
pub use pass::OsqPass;
pub use queue::Osq;
