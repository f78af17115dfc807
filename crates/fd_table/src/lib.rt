//! Tables of descriptors.
#![tactic(auto)]

mod call;
mod fds;
mod words;

pub use call::TableCall;
pub use fds::Fds;

/// How many descriptors a table has. They are numbered from 0.
pub const DESCRIPTORS: usize = 64;
