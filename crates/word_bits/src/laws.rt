//! Laws of the words that show a lock unavailable. Each is the contract of a function that does
//! nothing.
ghost use Rattle.word_bits.specs.Unavailables.{CountedIsClosed, OwnedNamesTask};

/// An owner word is unavailable exactly where its owner names a task.
pub fn owned_names_task()
    ensures { OwnedNamesTask }
{}

/// A count word is unavailable exactly where its count is lawful and closed to the call.
#[tactic(auto, using(crate::proofs::Unavailables::counted_is_closed))]
pub fn counted_is_closed()
    ensures { CountedIsClosed }
{}
