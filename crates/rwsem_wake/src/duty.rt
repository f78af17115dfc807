//! What a pass of a semaphore knows of wakes. No value of this type is ever made: it exists in
//! proofs alone.

use wake_duty::WaitState;

/// What concerns wakes.
pub struct SemWake {
    /// It owes a wake: it ended a hold, or gave up a bias or the first place of the
    /// list, and nobody else would look.
    pub owing: bool,
    /// The tasks that it has chosen, and whose wake words it hasn't set, in order.
    pub chosen: [u32; 0],
    pub wait_state: WaitState,
    /// How many wake words it has set. It stays at the last value of a u64.
    pub wakes: u64,
    /// How often it has fallen asleep. It stays at the last value of a u64.
    pub dozes: u64,
}
