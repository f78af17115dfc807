//! The machines that the program runs.
use fd_table::Fds;
use guarded::Guarded;
use mm_serve::{Machine, SpaceOrTable};
use vma_map::Areas;

/// A space or a table, under locks of these kinds.
pub type ScriptObject<A, T> = SpaceOrTable<Guarded<A, Areas>, Guarded<T, Fds>>;

/// A machine over such objects.
pub type ScriptMachine<A, T, C> = Machine<ScriptObject<A, T>, C>;
