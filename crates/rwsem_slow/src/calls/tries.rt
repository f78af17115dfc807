//! The tries of a semaphore.
ghost use Rattle.std.specs.Prelude.{◌≡◌, ◌+◌, true, false, IsSome, IfOk, IfErr};
ghost use Rattle.lock_core.specs.Kinds.{semaphore};
ghost use Rattle.lock_core.specs.Locking.{Got, Misses};
ghost use Rattle.lock_core.specs.Pasts.{FoundAt};
ghost use Rattle.rwsem_count.specs.CountTries.{FindsFree};
ghost use Rattle.rwsem_count.specs.CountWordSteps.{IsReadFree};
ghost use Rattle.rwsem_wake.specs.RwSemViews.{count_at};
ghost use Rattle.rwsem_slow.specs.RwSemHandles.{shown_of, hand_in, KeepsWakes, SitsAt, SpunGoesOn, TakesAlone, TakesShared, StepsOn};
ghost use Rattle.rwsem_slow.specs.Types.{Fast, No};

use super::{RwPass, RwSem};
use rwsem_count::{steps, tries};
use std::sync::Wait;
use word_bits::Object;

impl<O: Object> RwSem<O> {
    /// Holds shared where the count lets a reader in. It tries again where others changed the count
    /// meanwhile. `Err` has a count that a step of this call saw, which lets no reader in. The
    /// kernel's `down_read_trylock`.
    pub fn down_read_trylock<W: Wait>(&self, rt: &W, pass: &mut RwPass<O>) -> Result<(), u64>
        requires own { SitsAt self.now pass.old }
        requires numbered { IsSome (hand_in pass.old).task }
        requires out { (hand_in pass.old).held ≡ No }
        ensures on { StepsOn self.now pass.old pass.new }
        ensures queue { SpunGoesOn pass.old pass.new }
        ensures still { KeepsWakes pass.old pass.new }
        ensures took { IfOk result (λ _. TakesShared O.object self.now pass.old pass.new) }
        ensures at_once { IfOk result (λ _. Got Fast (shown_of pass.old) (shown_of pass.new)) }
        ensures free { IfOk result (λ _. FindsFree count_at 0 (shown_of pass.new).past) }
        ensures missed { IfErr result (λ word. Misses semaphore true count_at word
            (shown_of pass.old) (shown_of pass.new)) }
        ensures shut { IfErr result (λ word. IsReadFree word → ⊥) }
        ensures found { IfErr result (λ word. FoundAt count_at word (shown_of pass.new).past) }
    {
        tries::read_try(&self.site, rt, &mut pass.pass)
    }

    /// Holds alone where the count is 0, by one compare-exchange. `Err` has the count, not 0, that
    /// the exchange saw. The kernel's `down_write_trylock`.
    pub fn down_write_trylock(&self, pass: &mut RwPass<O>) -> Result<(), u64>
        requires own { SitsAt self.now pass.old }
        requires numbered { IsSome (hand_in pass.old).task }
        requires out { (hand_in pass.old).held ≡ No }
        ensures on { StepsOn self.now pass.old pass.new }
        ensures queue { SpunGoesOn pass.old pass.new }
        ensures still { KeepsWakes pass.old pass.new }
        ensures took { IfOk result (λ _. TakesAlone O.object self.now pass.old pass.new) }
        ensures at_once { IfOk result (λ _. Got Fast (shown_of pass.old) (shown_of pass.new)) }
        ensures step { (shown_of pass.new).steps ≡ (shown_of pass.old).steps + 1 }
        ensures free { IfOk result (λ _. FoundAt count_at 0 (shown_of pass.new).past) }
        ensures missed { IfErr result (λ word. Misses semaphore false count_at word
            (shown_of pass.old) (shown_of pass.new)) }
        ensures found { IfErr result (λ word. FoundAt count_at word (shown_of pass.new).past) }
    {
        steps::write_try(&self.site, &mut pass.pass)
    }
}
