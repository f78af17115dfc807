//! The list of those who wait for a lock, in words of the lock's table.
#![tactic(auto)]

mod host;
pub mod list;
mod view;
mod words;

pub use host::ListHost;
pub use view::{Change, ListHand, Waiter};
pub use words::LIST_WORDS;
