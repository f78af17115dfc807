//! Who says that a waiter's time is over.
ghost use Rattle.std.specs.Prelude.{◌≡◌, ◌<◌, ◌||◌, ℕ, Bool, true, false};

use cpu_task::Cpu;

/// Who says whether the time of the first waiter is over: a waiter's CPU, or nobody.
pub trait Patience {
    /// Whether it has said so.
    ghost said: { Self → Bool };

    /// By which reference it asks a CPU.
    ghost asked: { Self → ℕ };

    /// How often that CPU slept, and how often it answered that it needs rescheduling.
    ghost sleeps: { Self → ℕ };

    ghost rescheds: { Self → ℕ };

    /// Is asked by a wake that finds a writer: where it is over, the lock is to be handed to the
    /// first waiter.
    fn is_over(&mut self) -> bool
        ensures said { said self.new ≡ (result || said self.old) }
        ensures asked { asked self.new ≡ asked self.old }
        ensures sleeps { sleeps self.new ≡ sleeps self.old }
        ensures rescheds { rescheds self.new ≡ rescheds self.old };
}

/// That of a release, which has no CPU of its own: a wake of it never asks for a handoff.
#[derive(Drop)]
pub struct Endless;

impl Patience for Endless {
    ghost said = { λ e. false };

    ghost asked = { λ e. 0 };

    ghost sleeps = { λ e. 0 };

    ghost rescheds = { λ e. 0 };

    fn is_over(&mut self) -> bool {
        false
    }
}

/// That of a waiter, which its CPU counts.
#[derive(Drop)]
pub struct Waited<'a, C> {
    pub cpu: &'a mut C,
    /// Whether the CPU has said that its task is overdue.
    pub over: bool,
}

impl<'a, C: Cpu> Patience for Waited<'a, C> {
    ghost said = { λ w. w.over };

    ghost asked = { λ w. w.cpu.ghost_name };

    ghost sleeps = { λ w. C.sleeps w.cpu.now };

    ghost rescheds = { λ w. C.rescheds w.cpu.now };

    fn is_over(&mut self) -> bool {
        if !self.cpu.overdue() {
            return false;
        }
        self.over = true;
        true
    }
}
