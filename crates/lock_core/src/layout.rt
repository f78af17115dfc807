//! Where each word of a table stands.

use word_bits::MAX_TASKS;

// The places of the words are those of a table for `MAX_TASKS` tasks. Among the words of its locks a
// table for fewer tasks stores those of its own tasks alone, so that what stands behind moves up:
//
//     places   [spin words.......][row....][row....][row....][row....][site]
//     memory   [spin words][row][row][row][row][site]

/// How many words a table has for its locks. They stand first, and a rule says what each of them
/// is: the words of spin locks, and four rows. A node of a spin lock, and a word on which a task
/// spins or by which it sleeps in another way, has a line of 8 words for itself.
pub const LOCK_WORDS: usize = SPIN_WORDS + 4 * ROW_WORDS;

/// How many of them are those of spin locks: a line for the word of each of eight, and for each
/// task one for each of its four nodes. A rule's other words stand behind them, in the rows.
pub const SPIN_WORDS: usize = 64 + 32 * MAX_TASKS as usize;

/// How many words a row has: 8 lines for words of the whole lock, and a line for each task. The
/// line of a task stands at most 8 lines behind where it would in a row of tasks alone.
pub const ROW_WORDS: usize = 64 + 8 * MAX_TASKS as usize;

/// The same as `SPIN_WORDS`, for the rules of which the spin lock is one part.
pub const SPIN_ROOM: usize = SPIN_WORDS;

/// How many spin locks a table may have.
pub const SPIN_LOCKS: usize = 8;

// Behind the locks' words, and counted from there: the guarded words, the lines of the tasks, the
// length of the log, the log's entries, the records of all calls, the words of all calls.
pub(crate) const LINES_AT: usize = 264;

/// How far behind the locks' words the word stands that has the length of the log.
pub const LENGTH_AT: usize = LINES_AT + 8 * MAX_TASKS as usize;

pub(crate) const ENTRIES_AT: usize = LENGTH_AT + 8;
