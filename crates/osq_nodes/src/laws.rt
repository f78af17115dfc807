//! Laws of a spin queue, over what `recall_queue` tells of each moment. Each is the contract of a
//! function that does nothing.
ghost use Rattle.osq_nodes.specs.QueueLaws.{MissingLinksAreOwedOnce, QueueHasHead};

/// A link that is missing between two neighbours of the queue is owed by exactly one task.
pub fn missing_links_are_owed_once()
    ensures { MissingLinksAreOwedOnce }
{}

/// A queue that isn't empty has a head: its first found no tail, or was told.
pub fn queue_has_head()
    ensures { QueueHasHead }
{}
