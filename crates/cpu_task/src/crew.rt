//! Who gives tasks their CPUs, and wakes them.
ghost use Rattle.std.specs.Prelude.{◌≡◌, IfOk};

use crate::cpu::Cpu;
use std::alloc::{AllocError, Global};

/// How patient CPUs are. A crew may make nothing of it.
#[derive(Clone, Copy, Debug, PartialEq, Eq)]
pub struct Turns {
    /// How many turns a task spins before its CPU needs to reschedule.
    pub spin: u32,
    /// How many rounds a waiter waits before it is overdue.
    pub overdue: u32,
}

/// The CPUs of all tasks that run together. Task t runs on the CPU of number t.
pub trait Crew {
    /// The CPU of one task. Who makes the tasks' threads asks that it can go to one (`Send`).
    type C: Cpu + Drop;

    /// A CPU for the task, whose counts are 0.
    fn cpu(&mut self, alloc: Global, task: u32, turns: Turns) -> Result<Self::C, AllocError>
        ensures rescheds { IfOk result (λ c. Self.C.rescheds c ≡ 0) }
        ensures sleeps { IfOk result (λ c. Self.C.sleeps c ≡ 0) };

    /// Ends the sleep of the task, or its next one where it doesn't sleep. The kernel's
    /// `wake_up_process`. It may do nothing.
    fn wake(&self, task: u32);
}
