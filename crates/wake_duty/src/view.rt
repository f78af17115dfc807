//! What a pass knows of wakes. No value of these types is ever made: they exist in proofs alone.

/// What a pass owes that ended a hold.
pub enum Duty {
    NoDuty,
    /// It ended its hold by a release, and has not looked for a first waiter since.
    Owing,
    /// It has chosen this task, and has not set its wake word.
    Chosen(u32),
}

/// How a pass's task waits.
pub enum WaitState {
    /// It isn't in the list.
    Absent,
    /// It is in the list, and tries under the wait lock before it sleeps.
    Awake,
    /// It is in the list, and a try of it failed under the wait lock. The number says how often it
    /// had taken that lock then. It may sleep or leave.
    Tried(u64),
}

/// What concerns wakes.
pub struct WakeHand {
    pub duty: Duty,
    pub wait_state: WaitState,
    /// How many wake words it has set. It stays at the last value of a u64.
    pub wakes: u64,
    /// How often it has fallen asleep. It stays at the last value of a u64.
    pub dozes: u64,
}
