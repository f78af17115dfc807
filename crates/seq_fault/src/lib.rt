//! A site whose lock is a sequence word: even where no pass holds, odd where one does. A fault on an
//! address space reads without the lock, and learns from the sequence word whether what it read
//! belongs together.
#![tactic(auto)]

mod faults;
mod reading;
mod rule;
mod site;
mod steps;
mod view;
mod writes;
mod writing;

pub use faults::{SeqSpace, SpacePass};
pub use rule::SeqRule;
pub use site::{SeqPass, SeqSite};
pub use steps::Raced;
pub use view::{Glance, Watch};
