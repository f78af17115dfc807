//! Passes of sites with a count.
ghost use Rattle.std.specs.Prelude.{◌≡◌};

use crate::rule::CountRule;
use lock_core::Pass;
use word_bits::Object;

/// A pass of a site with a count. Contracts see what it knows (`view_of`), the moments of the table
/// up to its last step (`past_of`), and what it says of itself (`task_in`, `held_in`, `front_in`,
/// `transit_in`).
#[derive(Drop)]
pub struct CountPass<O: Object> {
    pub(crate) pass: Pass<CountRule<O>>,
    /// Its try has added a bias, and neither holds by it nor has taken it back.
    pub(crate) transit: bool,
}

impl<O: Object> CountPass<O> {
    ghost use Rattle.rwsem_count.specs.CountHandles.{transit_in};

    /// Whether it is in transit: its try has added a bias to the count, and neither holds by it nor
    /// has taken it back.
    pub fn in_transit(&self) -> bool
        ensures { result ≡ transit_in self.now }
    {
        self.transit
    }
}
