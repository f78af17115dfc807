//! The word of the queued spin lock: the try, the release, and the way by the pending bit.
#![tactic(auto)]

mod interrupt;
mod moves;
pub mod steps;
mod word;

/// The word of a lock that is held, with nobody waiting. (`_Q_LOCKED_VAL`)
pub const LOCKED: u64 = 1;

/// The pending bit. The words below it have neither the bit nor a tail. (`_Q_PENDING_VAL`)
pub const PENDING: u64 = 256;

/// The words below it have no tail; what is left of a word by it has none.
/// (`_Q_LOCKED_PENDING_MASK`)
pub const TAILLESS: u64 = 512;

/// What the code of a node counts for in the word. (`_Q_TAIL_OFFSET`)
pub const TAIL: u64 = 512;

pub use interrupt::{Interrupt, Quiet, SpinSite};
pub use moves::{SpinAfter, spin_step, word_step};
pub use word::{note, take_by_pending, trylock, trylock_at, unlock, unlock_at};
