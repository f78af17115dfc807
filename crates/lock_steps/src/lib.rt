//! What single steps make of the words of a mutex, a semaphore and a queued spin lock. The steps
//! of a try, a release and a handoff of a mutex stand in mutex_word, those of a reader that looks
//! and of a queued writer in rwsem_count, and a wake's batch in rwsem_wake.
#![tactic(auto)]

pub mod count;
pub mod owner;
pub mod spin;
