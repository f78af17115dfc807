//! How a call of a lock ended.

/// How a call that waits got its lock.
#[derive(Clone, Copy, Debug, PartialEq, Eq)]
pub enum How {
    /// By its first try.
    Fast,
    /// By a later one, while it stood in no list of waiters.
    Spun,
    /// After it had appended itself to the list of waiters.
    Slept,
}

/// Why a call that waits ended without its lock: more signals were sent to its task than the task
/// had consumed.
#[derive(Clone, Copy, Debug, PartialEq, Eq)]
pub struct Interrupted {
    /// How many were sent, as a load of the call saw.
    pub sent: u64,
    /// How many the task had consumed, before this call consumed one.
    pub taken: u64,
}
