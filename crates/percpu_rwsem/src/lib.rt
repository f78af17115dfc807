//! The per-CPU reader-writer semaphore, after the slow path of the kernel's `percpu-rwsem.c`: each
//! reader counts in a word of its own task, so that readers don't write one cache line. A writer
//! blocks new readers, and then waits until it has seen each count zero.
#![tactic(auto)]

mod pass;
mod reading;
mod rule;
mod site;
mod steps;
mod view;
mod writing;

pub use pass::PercpuPass;
pub use rule::PercpuRule;
pub use site::PercpuRwSem;
pub use view::Phase;
