//! Tasks that hold words for the time of one call alone.
ghost use Rattle.std.specs.Prelude.{◌≡◌, IfSome};
ghost use Rattle.kept_words.specs.Keeping.{HoldsAlone, HoldsShared};
ghost use Rattle.kept_words.specs.Types.{No, Shared, Alone};

use crate::kept::{Kept, KeptShared};
use std::sync::Wait;

/// A task of words under a lock, which holds nothing between its calls. Each thread has one, and
/// reads and writes the words in the closures of its calls.
#[derive(Drop)]
pub struct Task<K: Kept> {
    kept: K,
    ghost out: { (K.hold kept).how ≡ No },
}

impl<K: Kept + Drop> Task<K> {
    /// The task of words that it doesn't hold.
    pub fn new(kept: K) -> Task<K>
        requires { (K.hold kept).how ≡ No }
    {
        Task { kept }
    }

    /// The words, for calls outside of closures.
    pub fn into_kept(self) -> K
        ensures { (K.hold result).how ≡ No }
    {
        self.kept
    }

    /// Waits until the task holds the words alone, does the work, and ends the hold. The invariant
    /// is so of the words when the work begins, and must be so of them when it ends.
    pub fn with<W: Wait, R, F: FnOnce(&mut K) -> R>(&mut self, rt: &W, work: F) -> R
        requires may_begin { (k : _) → HoldsAlone K.I.keeps (K.hold k.now) → F.pre work k }
        requires keeps { (k : _) (r : R) (l : _) → HoldsAlone K.I.keeps (K.hold k.now) →
            F.post work k r l → HoldsAlone K.I.keeps (K.hold l.now) }
        ensures { (k : _) × (l : _) × HoldsAlone K.I.keeps (K.hold k.now) ×
            F.post work k result l }
    {
        self.kept.lock(rt);
        let found = work(&mut self.kept);
        self.kept.unlock(rt);
        found
    }
}

impl<K: KeptShared + Drop> Task<K> {
    /// Waits until the task holds the words beside others that read them, does the work, and ends
    /// the hold. The invariant is so of the words.
    pub fn with_shared<W: Wait, R, F: FnOnce(&mut K) -> R>(&mut self, rt: &W, work: F) -> R
        requires may_begin { (k : _) → HoldsShared K.I.keeps (K.hold k.now) → F.pre work k }
        requires keeps { (k : _) (r : R) (l : _) → HoldsShared K.I.keeps (K.hold k.now) →
            F.post work k r l → (K.hold l.now).how ≡ Shared }
        ensures { (k : _) × (l : _) × HoldsShared K.I.keeps (K.hold k.now) ×
            F.post work k result l }
    {
        self.kept.lock_shared(rt);
        let found = work(&mut self.kept);
        self.kept.unlock_shared(rt);
        found
    }
}
