//! What a lock asks of the CPU that its caller runs on.
ghost use Rattle.std.specs.Prelude.{◌≡◌, ℕ};
ghost use Rattle.cpu_task.specs.CpuCounting.{one_more, rescheds_after};

use std::sync::Wait;

/// The CPU of one task. Contracts see two counts of it, which never fall, and nothing of what it
/// answers.
pub trait Cpu {
    /// How often `need_resched` has answered true.
    ghost rescheds: { Self → ℕ };

    /// How often `sleep` was called.
    ghost sleeps: { Self → ℕ };

    /// Whether the task should give its CPU to another, so that it stops spinning. The kernel's
    /// `need_resched`.
    fn need_resched(&mut self) -> bool
        ensures rescheds { rescheds self.new ≡ rescheds_after result (rescheds self.old) }
        ensures sleeps { sleeps self.new ≡ sleeps self.old };

    /// Whether a waiter has waited for so long that the lock should be handed to it. It takes the
    /// place of the time that the kernel compares with a timeout.
    fn overdue(&mut self) -> bool
        ensures rescheds { rescheds self.new ≡ rescheds self.old }
        ensures sleeps { sleeps self.new ≡ sleeps self.old };

    /// Gives up the CPU until the task is woken. The kernel's `schedule`. It may return at any
    /// time, so that a caller tests what it waits for once more.
    fn sleep<R: Wait>(&mut self, rt: &R)
        ensures rescheds { rescheds self.new ≡ rescheds self.old }
        ensures sleeps { sleeps self.new ≡ one_more (sleeps self.old) };
}
