//! What comes of a step.

/// What came of a step that the task may make.
#[derive(Clone, Copy, Debug, PartialEq, Eq)]
pub enum Made {
    /// The step is made.
    Done,
    /// The word lets it not have what it tries for, and stays as it is.
    Fails,
}

/// Why no task may make the step then. All stays as it is.
#[derive(Clone, Copy, Debug, PartialEq, Eq)]
pub enum Refusal {
    /// The task holds.
    Holds,
    /// The task doesn't hold.
    HoldsNot,
    /// The task waits already.
    Waits,
    /// The task doesn't wait.
    WaitsNot,
    /// The task isn't the first that waits.
    NotFirst,
    /// A task is picked, which takes before the list changes so.
    Picked,
    /// The holder has seen no HANDOFF.
    NoHandoff,
    /// The task has no bias in transit.
    NoBias,
    /// The task doesn't own the pending bit, or is to go another way with it.
    NoPending,
    /// The task has reserved no bias, or not where there was no writer.
    NoReserve,
    /// Others wait, or a writer holds.
    Others,
    /// The word doesn't allow the step.
    Word,
    /// There are too many tasks for a course.
    Full,
}
