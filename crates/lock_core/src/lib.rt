//! The base of every lock: a table of words under one rule, its passes, plans, records and log.
#![tactic(auto)]

mod how;
mod is;
mod laws;
mod layout;
mod lock;
mod nothing;
mod op;
mod pass;
mod plan;
mod rule;
mod shadow;
mod site;
mod spin;
mod tables;
mod tally;
pub mod view;

pub use how::{How, Interrupted};
pub use is::Is;
pub use laws::{
    abstract_state_is_that_after_the_log, calls_have_their_causes, places_keep_step_order,
};
pub use layout::{LENGTH_AT, LOCK_WORDS, ROW_WORDS, SPIN_LOCKS, SPIN_ROOM, SPIN_WORDS};
pub use lock::SiteLock;
pub use nothing::Nothing;
pub use op::Op;
pub use pass::Pass;
pub use plan::Plan;
pub use rule::SiteRule;
pub use shadow::Shadow;
pub use site::Site;
pub use spin::SpinHost;
pub use tables::{Bare, Nest};
pub use tally::Tally;
pub use view::Held;
