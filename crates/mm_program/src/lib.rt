//! The program over any source and sink: reads a script of tasks, does them at once, each on a
//! thread of its own, and writes for each object one history with every reply and the state that it
//! leaves.
#![tactic(auto)]

mod host;
mod input;
mod laws;
mod locks;
mod objects;
mod options;
mod program;
mod run;
mod status;
mod threads;

pub use laws::{told_calls_have_their_causes, told_history_keeps_real_time_order};
pub use locks::{SpaceLock, TableLock};
pub use objects::ScriptMachine;
pub use program::top;
pub use run::run_to_end;
pub use status::Status;
