//! Why a line of a course is refused.
ghost use Rattle.std.specs.Prelude.{◌≤◌, length};

use lock_courses::Refusal;

/// Why a line is refused.
#[derive(Clone, Copy, Debug, PartialEq, Eq)]
pub(crate) enum Reason {
    /// The first line with words isn't the name of a lock.
    Kind,
    /// A line isn't a task and a step.
    Words,
    /// The task isn't a number below 400.
    Task,
    /// The lock has no such step.
    Step,
    /// No task may make the step then.
    Not(Refusal),
}

fn refusal_name(refusal: Refusal) -> &'static [u8]
    ensures { length result.now ≤ 16 }
{
    match refusal {
        Refusal::Holds => b"Holds",
        Refusal::HoldsNot => b"HoldsNot",
        Refusal::Waits => b"Waits",
        Refusal::WaitsNot => b"WaitsNot",
        Refusal::NotFirst => b"NotFirst",
        Refusal::Picked => b"Picked",
        Refusal::NoHandoff => b"NoHandoff",
        Refusal::NoBias => b"NoBias",
        Refusal::NoPending => b"NoPending",
        Refusal::NoReserve => b"NoReserve",
        Refusal::Others => b"Others",
        Refusal::Word => b"Word",
        Refusal::Full => b"Full",
    }
}

/// The reason's name.
pub(crate) fn reason_name(reason: Reason) -> &'static [u8]
    ensures { length result.now ≤ 16 }
{
    match reason {
        Reason::Kind => b"Kind",
        Reason::Words => b"Words",
        Reason::Task => b"Task",
        Reason::Step => b"Step",
        Reason::Not(refusal) => refusal_name(refusal),
    }
}
