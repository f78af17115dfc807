//! Address spaces, kept as runs of pages.
#![tactic(auto)]

mod areas;
mod bisection;
mod call;
mod calls;
mod query;
mod range;
mod remapping;
mod search;
mod store;
mod words;

pub use areas::Areas;
pub use bisection::Bisection;
pub use call::SpaceCall;
pub use calls::{apply, meet};
pub use remapping::remap;
pub use search::Search;
pub use store::AreaStore;
pub use words::find;

/// How many pages an address space has. They are numbered from 0.
pub const PAGES: u32 = 1_048_576;

/// The most areas of an address space.
pub const MAX_AREAS: usize = 256;
