//! The two counts that contracts see of a CPU.
ghost use Rattle.std.specs.Prelude.{◌≡◌};
ghost use Rattle.cpu_task.specs.CpuCounting.{one_more, rescheds_after};

/// How often a CPU answered that it needs to reschedule, and how often it slept.
#[derive(Clone, Copy, Debug, PartialEq, Eq)]
pub struct Counts {
    pub rescheds: u64,
    pub sleeps: u64,
}

impl Counts {
    /// The counts of a CPU that did nothing yet.
    pub const ZERO: Counts = Counts {
        rescheds: 0,
        sleeps: 0,
    };

    /// Counts an answer of `need_resched`.
    pub fn count_answer(&mut self, answer: bool)
        ensures { self.new ≡ record self.old {
          rescheds = rescheds_after answer self.old.rescheds;
        } }
    {
        if answer {
            self.rescheds = self.rescheds.saturating_add(1);
        }
    }

    /// Counts a sleep.
    pub fn count_sleep(&mut self)
        ensures { self.new ≡ record self.old { sleeps = one_more self.old.sleeps } }
    {
        self.sleeps = self.sleeps.saturating_add(1);
    }
}
