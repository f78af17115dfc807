//! Waiters, changes of their list, and what a pass knows of it. No value of `ListHand` is ever made:
//! it exists in proofs alone.

/// One who waits for a lock.
#[derive(Clone, Copy, Debug, Default, PartialEq, Eq)]
pub struct Waiter {
    /// Its task, below `MAX_TASKS`.
    pub task: u32,
    /// It is to hold alone.
    pub writer: bool,
}

/// What a step does to the list.
#[derive(Clone, Copy)]
pub enum Change {
    Stay,
    /// The waiter is the last from then on.
    Enter(Waiter),
    /// The task no longer waits, and all others stand in their order.
    Leave(u32),
}

/// What concerns the words of the list. A clause reads an array of length 0 as a list of any
/// length.
pub struct ListHand {
    /// While it holds the spin lock that it took for the `since`th time: the list, and its words.
    pub list: [Waiter; 0],
    pub words: [u64; 0],
    pub since: u64,
    /// It is between the store at which the list changes and the last one: the words aren't yet the
    /// list's.
    pub changes: bool,
    /// The code of the waiter that it removes meanwhile, which the head may still have.
    pub leaver: u64,
}
