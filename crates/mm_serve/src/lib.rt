//! The machine: all tasks of a script on threads of their own, over objects under locks, and the
//! histories that they leave.
//!
//! The machine meets an object through one trait (`SharedObject`), which a space and a table under
//! any lock keep (`SpaceOrTable`). So the loops over objects, tasks and passes see neither kinds
//! nor locks.
#![tactic(auto)]

mod copying;
mod gathering;
mod laws;
mod machine;
mod one_lock;
mod opening;
mod planning;
mod running;
mod shared_object;
mod space_or_table;
mod worker;

pub use laws::{
    history_keeps_real_time_order, recalled_calls_have_their_causes,
    recalled_history_keeps_real_time_order,
};
pub use machine::Machine;
pub use shared_object::SharedObject;
pub use space_or_table::{SpaceOrTable, SpaceOrTablePass};
pub use worker::Worker;
