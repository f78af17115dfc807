//! Courses of a lock, step by step: its word, and beside it who holds and who waits.
#![tactic(auto)]

mod laws;
pub mod mutex;
mod refusal;
pub mod semaphore;
pub mod spin;
mod tasks;

pub use laws::{counts_are_told, owners_are_told};
pub use mutex::MutexCourse;
pub use refusal::{Made, Refusal};
pub use semaphore::SemaphoreCourse;
pub use spin::SpinCourse;
pub use tasks::MOST;
