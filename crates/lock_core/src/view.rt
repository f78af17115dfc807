//! What a pass knows of its table. No value of these types but `Held` is ever made: they exist in
//! proofs alone. A clause reads an array of length 0 as a list of any length.

use word_bits::{CallWords, Entry, Rec};

/// How a pass holds what its table guards.
#[derive(Clone, Copy, Debug, PartialEq, Eq)]
pub enum Held {
    No,
    /// Beside other passes that hold shared.
    Shared,
    /// With no other pass.
    Alone,
}

/// How far a commit is.
pub enum Stage {
    Rest,
    /// This entry stands behind the log's last one.
    Entered(Entry),
    /// This entry is the log's last one, and its record isn't written.
    Logged(Entry),
}

/// A record of a call.
pub struct Told {
    pub entry: Entry,
    pub rec: Rec,
}

/// A lock's word that a failed try saw, and the number of the step at which it did.
pub struct Saw {
    pub word: u64,
    pub step: u64,
}

/// What a pass heard of the signals to its task, since it last took its number or consumed one.
pub struct Heard {
    /// How many were sent.
    pub sent: u64,
    /// How many the task has consumed.
    pub taken: u64,
}

/// What concerns the site's own words.
pub struct Hand {
    /// The calls of each task. None once the view is spent.
    pub plan: Option<[[CallWords; 0]; 0]>,
    pub task: Option<u32>,
    pub held: Held,
    /// While it holds: the guarded words, and the log.
    pub known: [u64; 0],
    pub log: [Entry; 0],
    /// The first entries of the log, as many as `front` says.
    pub seen: [Entry; 0],
    /// How many calls of its task are recorded.
    pub done: u64,
    /// The records that it made or gathered.
    pub records: [Told; 0],
    pub writes: bool,
    pub stage: Stage,
    /// A task that it sent a signal to, which isn't recorded.
    pub sent: Option<u32>,
    /// How many signals it consumed that aren't recorded.
    pub consumed: u64,
    pub heard: Option<Heard>,
    /// The number of the step at which it last recorded a call.
    pub last: u64,
    /// Of the owner word or the count.
    pub saw: Option<Saw>,
    /// How often a failed try of the owner word or the count has set `saw`.
    pub misses: u64,
    /// How often it has come to hold, in any way, when it held nothing.
    pub takes: u64,
    /// The lock word as the last step left it that ended or downgraded a hold.
    pub freed: u64,
}

/// How far a pass is with a spin lock.
pub enum Point {
    /// It has nothing to do with the lock, or was refused so far.
    Out,
    /// It set the pending bit while others stood in the queue, and is to clear it.
    Undoing,
    /// It owns the pending bit, and waits until the locked byte is 0.
    Pending,
    /// It owns the pending bit, has seen the locked byte 0, and is to take the lock.
    Taking,
    /// It tries again and again, since all nodes of its task are in use.
    Trying,
    /// It has cleared `locked` of its node.
    Clearing,
    /// It has cleared its node.
    Cleared,
    /// It stands in the queue, and is to tell its predecessor.
    Linking,
    /// It waits to be the head of the queue.
    Waiting,
    /// It is the head of the queue.
    Head,
    /// It is the head, has seen the locked byte and the pending bit 0, and is to take the lock.
    Ready,
    /// It holds the lock, and is to make its successor the head.
    Passing,
    Holding,
}

/// A pass at a spin lock.
pub struct Frame {
    pub point: Point,
    /// The code of its node.
    pub code: u64,
    /// The tail that it found when it entered the queue: the code of its predecessor, or 0.
    pub found: u64,
    /// The code of its successor, or 0 while it hasn't seen one.
    pub next: u64,
}

/// What a pass has to do with one of the spin locks.
pub struct LockHand {
    pub frame: Frame,
    /// The number of the step at which it last took the lock, and where it stood before.
    pub took: u64,
    pub from: Point,
}

/// What concerns the words of the spin locks.
pub struct SpinHand {
    /// With the first of the locks.
    pub frame: Frame,
    /// Of the word of whichever lock it last was refused by.
    pub saw: Option<Saw>,
    /// How often the pass has taken a spin lock of the table.
    pub entries: u64,
    /// The number of the step at which it last took the first lock, and where it stood before.
    pub took: u64,
    pub from: Point,
    /// With the other locks, in their order.
    pub nest: [LockHand; 0],
}

pub struct View<E> {
    pub hand: Hand,
    pub spin: SpinHand,
    /// How many steps the pass has made.
    pub steps: u64,
    /// How often it has been the head of the lock's spin queue.
    pub fronts: u64,
    /// What the crates above know.
    pub ext: E,
}

/// How a pass has stood in line for its lock, beside what its hand says.
pub struct Line {
    /// How often it has appended itself to the list of waiters.
    pub appends: u64,
}

/// What a rule tells of the part of a view that it adds.
pub struct Marks {
    pub numbers: [u64; 0],
}

/// A table at one moment: its words, and of each view in turn what has no type of the rule's own.
pub struct Moment {
    pub words: [u64; 0],
    pub hands: [Hand; 0],
    pub spins: [SpinHand; 0],
    pub steps: [u64; 0],
    pub fronts: [u64; 0],
    pub marks: [Marks; 0],
}

/// Moments of a table, the last one first.
pub struct Past {
    pub moments: [Moment; 0],
}

/// A view, and the moments of the table up to the pass's last step, the last one first.
pub struct Seen<E> {
    pub view: View<E>,
    pub past: [Moment; 0],
    /// What the passes had seen that it took in since its last step.
    pub joined: [Past; 0],
}
