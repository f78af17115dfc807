//! What a pass knows of a semaphore. No value of these types is ever made: they exist in proofs
//! alone.

use crate::SemWake;
use rwsem_count::Bias;
use wait_list::ListHand;

/// How a task waits.
pub enum Wait {
    Apart,
    /// As a reader: from its append until it holds or has left, also where it is granted already.
    Reads,
    /// As a writer: while it stands in the list.
    Writes,
}

/// What a holder of the wait lock is about. At each stage but `Rest` some fact on flags, marks or
/// grant words is suspended, or what it loaded has to last.
pub enum Stage {
    Rest,
    /// A reader whose own grant word is not 0: it is to queue, or has found that it isn't granted.
    Armed,
    /// The reader stands in the list, and its bias is still in the count. Whether it stands alone.
    Joining(bool),
    /// A writer stands alone in the list, and WAITERS isn't set yet.
    First,
    /// A writer set HANDOFF, and the first waiter isn't marked yet.
    Marking,
    /// A writer took, and still stands in the list.
    Took,
    /// It took and has left the list. Its own mark may be set.
    Removed,
    /// A waiter was interrupted and has left the list empty. WAITERS is still set.
    Emptied,
    /// A waker has reserved its bias. Whether the addition saw HANDOFF.
    Overdue(bool),
    /// It found a writer, and has marked the first waiter. Whether HANDOFF was set before.
    Marked(bool),
    /// A waker removes its batch from the list.
    Removing,
    /// The batch is removed, and nobody is marked.
    Summing,
    /// The same, and whether HANDOFF is set.
    Counted(bool),
    /// The batch is in the count.
    Granting,
}

/// What concerns the count, the list, the marks and the grant words.
pub struct SemHand {
    pub wait: Wait,
    pub bias: Bias,
    pub stage: Stage,
    /// The tasks of its batch that aren't granted yet, in order.
    pub rest: [u32; 0],
}

/// What concerns the words of the list, the count, the marks, the grant words and the wake words.
pub struct RwSemHand {
    pub list: ListHand,
    pub sem: SemHand,
    /// How often it has appended itself.
    pub appends: u64,
    /// What it owes, whom it has chosen, and how its task waits.
    pub wake: SemWake,
}
