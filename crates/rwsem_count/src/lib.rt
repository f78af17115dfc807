//! The count word of a reader-writer semaphore: what it states, and what each step makes of it.
#![tactic(auto)]

mod host;
mod pass;
mod rule;
mod site;
pub mod steps;
pub mod tries;
mod view;
mod word;
mod word_steps;

pub use host::CountHost;
pub use pass::CountPass;
pub use rule::CountRule;
pub use site::CountSite;
pub use view::Bias;
pub use word::{
    BIAS, HANDOFF, READ_FAIL, WAITERS, WRITER, has_handoff, has_waiters, has_writer, is_locked,
    readers,
};
pub use word_steps::{Write, read_free, write_step};
