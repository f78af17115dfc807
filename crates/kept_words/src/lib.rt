//! Data under a lock: words of which an invariant of the user's own is so while nobody writes them.
//! Who holds the lock reads and writes them by single loads and stores.
#![tactic(auto)]

mod invariant;
mod kept;
mod mutex;
mod opening;
mod past;
mod rwsem;
mod task;

pub use invariant::{AnyWords, Invariant, Words};
pub use kept::{Kept, KeptPast, KeptShared};
pub use mutex::{KeptMutex, MutexTask};
pub use rwsem::{KeptRwSem, RwTask};
pub use task::Task;
