//! What a count word says.
ghost use Rattle.std.specs.Prelude.{◌≡◌, ◌/◌, ◌%◌, ◌^◌, ◌↔◌, IsTrue};
ghost use Rattle.rwsem_count.specs.CountWordSteps.{HasHandoff, IsLocked};

/// A writer holds.
pub const WRITER: u64 = 1;

/// There are waiters in the list.
pub const WAITERS: u64 = 2;

/// The semaphore is to be handed to the first waiter.
pub const HANDOFF: u64 = 4;

/// What one reader adds to the count.
pub const BIAS: u64 = 256;

/// There are so many readers that no further one may come in.
pub const READ_FAIL: u64 = 1 << 63;

/// Whether a writer holds.
pub fn has_writer(count: u64) -> bool
    ensures { IsTrue result ↔ (count % 2 ≡ 1) }
{
    count % 2 == WRITER
}

/// Whether tasks wait in the list.
pub fn has_waiters(count: u64) -> bool
    ensures { IsTrue result ↔ (count / 2 % 2 ≡ 1) }
{
    count / WAITERS % 2 == 1
}

/// Whether the semaphore is to be handed to the first waiter.
pub fn has_handoff(count: u64) -> bool
    ensures { IsTrue result ↔ HasHandoff count }
{
    count / HANDOFF % 2 == 1
}

/// How many biases the count has: one for each reader that holds, one for each that asks whether it
/// may, and one that a waker may have added for the first waiter.
pub fn readers(count: u64) -> u64
    ensures { result ≡ count % 2 ^ 63 / 256 }
{
    count % READ_FAIL / BIAS
}

/// Whether a writer holds, or some reader is counted.
pub fn is_locked(count: u64) -> bool
    ensures { IsTrue result ↔ IsLocked count }
{
    has_writer(count) || readers(count) != 0
}
