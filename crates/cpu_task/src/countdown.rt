//! A question that is answered true after so many false answers, and then anew.
ghost use Rattle.std.specs.Prelude.{◌≡◌};
ghost use Rattle.cpu_task.specs.Countdowns.{Answers, full};

/// Counts false answers down to the next true one.
#[derive(Clone, Copy, Debug, PartialEq, Eq)]
pub struct Countdown {
    /// How many false answers come before each true one.
    pub from: u32,
    /// How many false answers come before the next true one.
    pub left: u32,
}

impl Countdown {
    /// A countdown before any answer.
    pub fn new(from: u32) -> Countdown
        ensures { result ≡ full from }
    {
        Countdown { from, left: from }
    }

    /// The next answer.
    pub fn answer(&mut self) -> bool
        ensures { Answers self.old result self.new }
    {
        if self.left == 0 {
            self.left = self.from;
            return true;
        }
        self.left -= 1;
        false
    }
}
