//! Why no lock can have a word.

/// Why no lock can have a word. Where several reasons hold, one of them is told.
#[derive(Clone, Copy, Debug, PartialEq, Eq)]
pub enum Why {
    /// A bit is set that belongs to no field.
    UnusedBit,
    /// It names a task or a CPU that can't be.
    NoSuchTask,
    /// HANDOFF or PICKUP is set, and no task is named.
    FlagOfNobody,
    /// HANDOFF or PICKUP is set without WAITERS.
    FlagWithoutWaiters,
    /// HANDOFF and PICKUP are both set.
    AskedAndPicked,
    /// The highest bit of a count is set, which says that there are too many readers.
    ReadFail,
    /// More readers are counted than there can be.
    TooManyReaders,
    /// The tail has the number of a node, and no CPU.
    NodeOfNoCpu,
    /// The locked byte is neither 0 nor 1.
    LockedByte,
    /// The pending byte is neither 0 nor 1.
    PendingByte,
}
