//! Laws of words. Each is the contract of a function that does nothing.
ghost use Rattle.lock_courses.specs.Laws.{CountsAreTold, OwnersAreTold};

/// A mutex can have a word exactly where decoding tells an owner of it.
pub fn owners_are_told()
    ensures { OwnersAreTold }
{}

/// A semaphore can have a word exactly where decoding tells a count of it.
pub fn counts_are_told()
    ensures { CountsAreTold }
{}
