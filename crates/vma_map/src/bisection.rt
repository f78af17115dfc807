//! A search by halves.
ghost use Rattle.std.specs.Prelude.{◌≤◌};

/// A binary search for how many places in order pass a test, where those that do come first. Who
/// searches tests only the place in the middle of those that are left.
#[derive(Clone, Copy)]
pub struct Bisection {
    /// How many places pass, at least and at most.
    low: usize,
    high: usize,
    ghost order: { low ≤ high },
}

impl Bisection {
    ghost use Rattle.std.specs.Prelude.{◌≡◌, ◌+◌, ◌<◌, IfNone, IfSome};
    ghost use Rattle.vma_map.specs.Bisections.{least, most, middle_of};

    /// A search among so many places of which nothing is known.
    pub fn new(count: usize) -> Bisection
        ensures least { least result ≡ 0 }
        ensures most { most result ≡ count }
    {
        Bisection {
            low: 0,
            high: count,
        }
    }

    /// How many places are known to pass.
    pub fn least(&self) -> usize
        ensures { result ≡ least self.now }
    {
        self.low
    }

    /// The place to test next. `None` where none is left.
    pub fn middle(&self) -> Option<usize>
        ensures some { IfSome result (λ at. at ≡ middle_of self.now) }
        ensures left { IfSome result (λ at. least self.now < most self.now) }
        ensures none { IfNone result (least self.now ≡ most self.now) }
    {
        if self.low < self.high {
            Some(self.low + (self.high - self.low) / 2)
        } else {
            None
        }
    }

    /// Tells that the place in the middle passes.
    pub fn passes(&mut self)
        requires left { least self.old < most self.old }
        ensures least { least self.new ≡ middle_of self.old + 1 }
        ensures most { most self.new ≡ most self.old }
    {
        self.low += (self.high - self.low) / 2 + 1;
    }

    /// Tells that the place in the middle fails.
    pub fn fails(&mut self)
        requires left { least self.old < most self.old }
        ensures least { least self.new ≡ least self.old }
        ensures most { most self.new ≡ middle_of self.old }
    {
        self.high = self.low + (self.high - self.low) / 2;
    }
}
