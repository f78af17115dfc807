//! What a task may do with words that a lock keeps.
ghost use Rattle.std.specs.Prelude.{◌≡◌, ◌≢◌, ◌<◌, true, false, List, length, slice_index, slice_set};
ghost use Rattle.lock_core.specs.Pasts.{EachMoment, GoesOn};
ghost use Rattle.kept_words.specs.Keeping.{Hold};
ghost use Rattle.kept_words.specs.Left.{FoundAsLeft, HeldApart, IsHeldAtLast};
ghost use Rattle.kept_words.specs.Types.{No, Shared, Alone, Moment};

use crate::invariant::Invariant;
use std::sync::Wait;

/// Words under a lock, as one task has them. It takes the lock and releases it, and reads and
/// writes the words while it holds them. Contracts see how it holds them, and the words (`Hold`),
/// and the moments of the lock's table up to its last step, which go on with each call.
pub trait Kept: Sized {
    /// What is so of the words while nobody writes them.
    type I: Invariant;

    ghost hold: { Self → Hold };

    ghost past: { Self → List Moment };

    /// Waits until the task holds the words alone. The invariant is so of them.
    fn lock<W: Wait>(&mut self, rt: &W)
        requires { (hold self.old).how ≡ No }
        ensures held { (hold self.new).how ≡ Alone }
        ensures keeps { Self.I.keeps (hold self.new).words }
        ensures wide { length (hold self.new).words ≡ Self.I.WORDS }
        ensures on { GoesOn (past self.old) (past self.new) };

    /// Holds the words alone, if that is possible at once, and says whether it does.
    fn try_lock<W: Wait>(&mut self, rt: &W) -> bool
        requires { (hold self.old).how ≡ No }
        ensures held { result ≡ true → (hold self.new).how ≡ Alone }
        ensures keeps { result ≡ true → Self.I.keeps (hold self.new).words }
        ensures wide { result ≡ true → length (hold self.new).words ≡ Self.I.WORDS }
        ensures out { result ≡ false → (hold self.new).how ≡ No }
        ensures on { GoesOn (past self.old) (past self.new) };

    /// The word of this place, by one load.
    fn get(&mut self, at: usize) -> u64
        requires held { (hold self.old).how ≢ No }
        requires inside { at < Self.I.WORDS }
        ensures same { hold self.new ≡ hold self.old }
        ensures value { result ≡ slice_index (hold self.old).words at }
        ensures wide { length (hold self.new).words ≡ Self.I.WORDS }
        ensures on { GoesOn (past self.old) (past self.new) };

    /// Writes the word of this place, by one store.
    fn set(&mut self, at: usize, value: u64)
        requires held { (hold self.old).how ≡ Alone }
        requires inside { at < Self.I.WORDS }
        ensures held { (hold self.new).how ≡ Alone }
        ensures words { (hold self.new).words ≡ slice_set (hold self.old).words at value }
        ensures wide { length (hold self.new).words ≡ Self.I.WORDS }
        ensures on { GoesOn (past self.old) (past self.new) };

    /// Ends a hold that is alone. The invariant must be so of the words as they are now.
    fn unlock<W: Wait>(&mut self, rt: &W)
        requires held { (hold self.old).how ≡ Alone }
        requires keeps { Self.I.keeps (hold self.old).words }
        ensures out { (hold self.new).how ≡ No }
        ensures on { GoesOn (past self.old) (past self.new) };
}

/// Words that several tasks may read at once.
pub trait KeptShared: Kept {
    /// Waits until the task holds the words, beside others that read them. The invariant is so of
    /// them.
    fn lock_shared<W: Wait>(&mut self, rt: &W)
        requires { (Self.hold self.old).how ≡ No }
        ensures held { (Self.hold self.new).how ≡ Shared }
        ensures keeps { Self.I.keeps (Self.hold self.new).words }
        ensures wide { length (Self.hold self.new).words ≡ Self.I.WORDS }
        ensures on { GoesOn (Self.past self.old) (Self.past self.new) };

    /// Holds the words beside others, if that is possible at once, and says whether it does.
    fn try_lock_shared<W: Wait>(&mut self, rt: &W) -> bool
        requires { (Self.hold self.old).how ≡ No }
        ensures held { result ≡ true → (Self.hold self.new).how ≡ Shared }
        ensures keeps { result ≡ true → Self.I.keeps (Self.hold self.new).words }
        ensures wide { result ≡ true → length (Self.hold self.new).words ≡ Self.I.WORDS }
        ensures out { result ≡ false → (Self.hold self.new).how ≡ No }
        ensures on { GoesOn (Self.past self.old) (Self.past self.new) };

    /// Ends a shared hold.
    fn unlock_shared<W: Wait>(&mut self, rt: &W)
        requires { (Self.hold self.old).how ≡ Shared }
        ensures out { (Self.hold self.new).how ≡ No }
        ensures on { GoesOn (Self.past self.old) (Self.past self.new) };

    /// Makes a shared hold of one that is alone, with no other writer between. The invariant must
    /// be so of the words as they are now.
    fn downgrade<W: Wait>(&mut self, rt: &W)
        requires held { (Self.hold self.old).how ≡ Alone }
        requires keeps { Self.I.keeps (Self.hold self.old).words }
        ensures held { (Self.hold self.new).how ≡ Shared }
        ensures words { (Self.hold self.new).words ≡ (Self.hold self.old).words }
        ensures on { GoesOn (Self.past self.old) (Self.past self.new) };
}

/// Words of which a task can know what was so of them before.
pub trait KeptPast: Kept {
    /// Loads once. Then this is so of each moment of the lock's table so far, from its opening on:
    /// who holds the words alone holds them with no other, and whoever comes to hold them finds
    /// them as the last task left them that held them alone.
    fn recall(&mut self)
        ensures same { Self.hold self.new ≡ Self.hold self.old }
        ensures on { GoesOn (Self.past self.old) (Self.past self.new) }
        ensures now { IsHeldAtLast (Self.hold self.new) (Self.past self.new) }
        ensures apart { EachMoment HeldApart (Self.past self.new) }
        ensures left { FoundAsLeft (Self.past self.new) };
}
