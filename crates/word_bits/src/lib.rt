//! The words that every other crate shares: packed values, replies, calls, snapshots and the trait
//! of an object that a table can guard.
#![tactic(auto)]

mod area;
mod bits;
mod call;
mod count;
mod entry;
mod kind;
mod laws;
mod logged;
mod object;
mod owner;
mod rec;
mod reply;
mod snapshot;
mod spin;

pub use area::Area;
pub use call::{CallWords, Mode};
pub use count::Count;
pub use entry::Entry;
pub use kind::CallKind;
pub use laws::{counted_is_closed, owned_names_task};
pub use logged::is_logged;
pub use object::{Object, ValueObject};
pub use owner::Owner;
pub use rec::Rec;
pub use reply::{Errno, Reply};
pub use snapshot::Snapshot;
pub use spin::{Spin, Tail};

/// The largest number of tasks of a script. Task numbers are below it.
pub const MAX_TASKS: u32 = 400;

/// The largest number of calls of a plan.
pub const MAX_CALLS: u32 = 131_072;
