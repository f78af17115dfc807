//! What one step makes of a count word.
ghost use Rattle.std.specs.Prelude.{◌≡◌, ◌++◌, ◌/◌, ◌%◌, ◌↔◌, ℕ, IsTrue, List, if◌then◌else◌};
ghost use Rattle.rwsem_count.specs.CountSemaphores.{Semaphore, States};
ghost use Rattle.rwsem_count.specs.CountWordSteps.{HasFlags, IsReadFree, IsTold, LetsReadersIn, Writes, WritesLawfully};

use crate::word::{HANDOFF, READ_FAIL, WAITERS, WRITER, has_handoff, has_waiters, is_locked};

/// What a queued writer's try makes of the count.
#[derive(Clone, Copy, Debug, PartialEq, Eq)]
pub enum Write {
    /// This word takes the semaphore.
    Take(u64),
    /// This word asks that the semaphore be handed over, and the first waiter is to be marked.
    Mark(u64),
    /// The semaphore can't be had.
    Fail,
}

/// Whether a reader may come in by a bias that it adds to this count. The kernel's
/// `RWSEM_READ_FAILED_MASK`.
pub fn read_free(word: u64) -> bool
    ensures free { IsTrue result ↔ IsReadFree word }
    ensures lawful { IsTrue result → LetsReadersIn word }
{
    word % 8 == 0 && word < READ_FAIL
}

/// The answer of a try by a queued writer that saw the count: whether it is the first waiter,
/// whether the first waiter is marked, whether it is alone in the list, and whether it is overdue.
/// The kernel's `rwsem_try_write_lock`.
pub fn write_step(
    word: u64,
    me_first: bool,
    first_marked: bool,
    alone: bool,
    overdue: bool,
) -> Write
    ensures table { Writes word me_first first_marked alone overdue result }
    ensures lawful { (s : Semaphore) (me : ℕ) (before after : List ℕ) → States word s →
        IsTold s me before after me_first first_marked alone →
        WritesLawfully s me (before ++ after) result }
{
    let handoff = has_handoff(word);
    // A writer that isn't the marked waiter stands back, or the handoff would go to whoever tries
    // first.
    if handoff && first_marked && !me_first {
        return Write::Fail;
    }
    match (is_locked(word), handoff) {
        (true, false) if overdue => Write::Mark(word + HANDOFF),
        (true, _) => Write::Fail,
        (false, _) => Write::Take(taken(word, alone)),
    }
}

/// The word by which a queued writer takes it: no handoff is asked for, and others wait where it
/// isn't alone in the list.
fn taken(word: u64, alone: bool) -> u64
    ensures { HasFlags word result 1 (if alone then 0 else word / 2 % 2) 0 }
{
    let free = word - word % 8 + WRITER;
    let waiters = has_waiters(word);
    if waiters && !alone {
        free + WAITERS
    } else {
        free
    }
}
