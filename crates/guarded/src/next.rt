//! The next call of a task.
use word_bits::CallWords;

/// The next call of a pass's task: its number among the task's calls, its words, and what call of
/// the object they are.
#[derive(Clone, Copy)]
pub(crate) struct Next<C> {
    pub(crate) number: u32,
    pub(crate) words: CallWords,
    pub(crate) call: C,
}
