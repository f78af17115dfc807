//! What a script leaves, and the text of its histories.
#![tactic(auto)]

mod cursor;
mod history;
mod laws;
mod line;
mod results;
mod state;
mod summary;
mod task_calls;
mod text;

pub use laws::{
    calls_are_named, history_keeps_order, history_keeps_positions, line_tells_call,
    text_determines_histories,
};
pub use results::Results;
pub use text::report;
