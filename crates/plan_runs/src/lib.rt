//! For tests of calls: plans, and tasks that do a plan's calls on an object under any lock.
#![tactic(auto)]

pub mod at_once;
pub mod plans;
pub mod serve;
pub mod signs;
