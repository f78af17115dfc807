//! Tests of locks without an object, one pass after the other and on threads: spin locks, nested
//! spin locks and spin queues, a mutex and a semaphore.
#![tactic(auto)]

#[cfg(test)]
mod leave_tests;
#[cfg(test)]
mod mutex;
#[cfg(test)]
mod nest_tests;
#[cfg(test)]
mod queue_tests;
#[cfg(test)]
mod semaphore;
#[cfg(test)]
mod spin_lock_tests;
#[cfg(test)]
mod watched;
