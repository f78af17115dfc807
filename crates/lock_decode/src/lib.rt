//! What a word of a lock says, or why no lock can have it: the words of the locks here, and those
//! of Linux 6.6 on 64 bits.
#![tactic(auto)]

mod flags;
pub mod here;
pub mod linux;
mod why;

pub use linux::LinuxOwner;
pub use why::Why;
