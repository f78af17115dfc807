//! What a pass knows of a mutex. No value of these types is ever made: they exist in proofs alone.

use wait_list::ListHand;
use wake_duty::WakeHand;

/// While a pass stands at one of these points under the wait lock, the flags don't fit the list.
pub enum Point {
    Rest,
    /// It entered an empty list, and is to set the flag of the waiters.
    Joins,
    /// It left the list empty, and is to clear the flags.
    Empties,
}

/// What concerns the owner word, the list and the places of tasks in it.
pub struct MutexHand {
    pub list: ListHand,
    /// Its task is in the list.
    pub queued: bool,
    pub point: Point,
    /// It has seen itself as the first waiter.
    pub first: bool,
    /// A try failed since it took the wait lock for the `failed`th time.
    pub failed: u64,
    /// How often it has appended itself.
    pub appends: u64,
    /// What it owes, and how its task waits.
    pub wake: WakeHand,
}
