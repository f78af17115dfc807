//! What a pass of a spin queue knows. No value of these types is ever made: they exist in proofs
//! alone.

/// Where a task is in the queue's protocol: the tasks are those that it knows for its next step.
pub enum Place {
    /// Its node isn't in the queue, and it is in no call, or about to clear its own words.
    Out,
    /// It cleared its own words, and swaps the tail next.
    Cleared,
    /// Its tail swap found the code of this predecessor: it stores its own `prev` next.
    Swapped(u32),
    /// It stores its own code in the `next` of this predecessor next.
    Linking(u32),
    /// It waits for the grant.
    Waiting,
    /// It took its own code out of the `next` of this predecessor, and is leaving.
    Unlinked(u32),
    /// Beside that it took the code of its successor, the second one, out of its own `next`: it
    /// stores the successor's `prev` next.
    Splicing(u32, u32),
    /// It has left from between these two: it stores the code of the second in the `next` of the
    /// first.
    Relinking(u32, u32),
    /// It is the head.
    Head,
    /// It took the code of its successor out of its own `next`, and grants it next.
    Granting(u32),
}

/// What a pass knows of its task's node.
pub struct Node {
    pub place: Place,
    /// How often it has swapped the tail.
    pub swaps: u64,
    /// What its last tail swap found.
    pub found: u64,
}
