//! The try and the release of a spin lock, and its way by the pending bit.
ghost use Rattle.std.specs.Prelude.{◌≡◌, ◌+◌, ◌<◌, ◌≤◌, true, false, IfErr, IfOk, IsSome};
ghost use Rattle.lock_core.specs.Views.{SpinRests, SpinHolds};
ghost use Rattle.lock_core.specs.LockHands.{RestsAt, HoldsAt};
ghost use Rattle.lock_core.specs.Spins.{spun, word_at};
ghost use Rattle.lock_core.specs.Pasts.{FoundAt};
ghost use Rattle.lock_core.specs.SiteHandles.{view_of, past_of, task_in, SitsAt, StepsAt, SaysSame, IsNestTold, NotesLock};
ghost use Rattle.qspin_word.specs.SpinWordHands.{freed};
ghost use Rattle.qspin_word.specs.SpinWordHandles.{spin_in, lock_hand_of, FindsRival, FirstFoundFree, IsSameBut, KeepsFlagsBeside, OwnsPendingAt, TriesOnlyFree, KeepsNodes};
ghost use Rattle.qspin_word.specs.Types.{Taking};
ghost use Rattle.qspin_word.specs.Ways.{LockTaken, LockGained, LockRefused, SpinTaken, SpinMissed};

use crate::PENDING;
use crate::interrupt::Interrupt;
use crate::steps::{
    clear_pending, clear_pending_set_locked, exchange_free, fetch_set_pending, look, release,
    wait_unlocked,
};
use lock_core::{Pass, Site, SpinHost};
use std::sync::Wait;

/// Notes how the pass stands with a spin lock, if its table has others. With one lock nothing asks
/// for it but an interrupt, and a call that waits notes it anew.
pub fn note<H: SpinHost>(pass: &mut Pass<H>, lock: usize, holds: bool, waits: bool)
    requires there { lock < 8 }
    ensures same { IsSameBut pass.old pass.new }
    ensures noted { 1 < H.LOCKS → NotesLock lock holds waits pass.old pass.new }
{
    if H::LOCKS > 1 {
        pass.note_lock(lock, holds, waits);
    }
}

/// Takes the spin lock of this number where its word is 0, by one load and, if that saw 0, one
/// compare-exchange from 0 to 1. `Err` has the word, not 0, that the load or the exchange saw.
/// (`queued_spin_trylock`)
pub fn trylock_at<H: SpinHost>(site: &Site<H>, pass: &mut Pass<H>, lock: usize) -> Result<(), u64>
    requires own { SitsAt site.now pass.old }
    requires numbered { IsSome (task_in pass.old) }
    requires there { lock < H.LOCKS }
    requires out { RestsAt lock (spin_in pass.old) }
    ensures on { StepsAt site.now pass.old pass.new }
    ensures face { SaysSame pass.old pass.new }
    ensures told { 1 < H.LOCKS → IsNestTold pass.old → IsNestTold pass.new }
    ensures took { IfOk result (λ _. LockTaken lock (view_of pass.old) (view_of pass.new)) }
    ensures missed { IfErr result (λ word. SpinMissed (view_of pass.old) word (view_of pass.new)) }
    ensures free { IfOk result (λ _. FoundAt (H.FIRST + word_at lock) 0 (past_of pass.new)) }
    ensures found { IfErr result
        (λ word. FoundAt (H.FIRST + word_at lock) word (past_of pass.new)) }

    // It exchanges only where the load saw 0.
    ensures loaded { IfOk result
        (λ _. FirstFoundFree (H.FIRST + word_at lock) pass.old pass.new) }
    ensures exchanged { IfErr result
        (λ _. TriesOnlyFree (H.FIRST + word_at lock) pass.old pass.new) }
{
    // While the lock is taken contenders only load, and leave its line with the one who has it.
    let seen = look(site, pass, lock);
    if seen != 0 {
        return Err(seen);
    }
    // Another may have taken it since: the exchange decides.
    let found = exchange_free(site, pass, lock);
    if found != 0 {
        return Err(found);
    }
    note(pass, lock, true, false);
    Ok(())
}

/// Takes the first spin lock where its word is 0, as `trylock_at` does. (`queued_spin_trylock`)
pub fn trylock<H: SpinHost>(site: &Site<H>, pass: &mut Pass<H>) -> Result<(), u64>
    requires own { SitsAt site.now pass.old }
    requires numbered { IsSome (task_in pass.old) }
    requires out { SpinRests (spin_in pass.old) }
    ensures on { StepsAt site.now pass.old pass.new }
    ensures face { SaysSame pass.old pass.new }
    ensures told { 1 < H.LOCKS → IsNestTold pass.old → IsNestTold pass.new }
    ensures took { IfOk result (λ _. SpinTaken (view_of pass.old) (view_of pass.new)) }
    ensures missed { IfErr result (λ word. SpinMissed (view_of pass.old) word (view_of pass.new)) }
    ensures free { IfOk result (λ _. FoundAt H.FIRST 0 (past_of pass.new)) }
    ensures found { IfErr result (λ word. FoundAt H.FIRST word (past_of pass.new)) }

    // It exchanges only where the load saw 0.
    ensures loaded { IfOk result (λ _. FirstFoundFree H.FIRST pass.old pass.new) }
    ensures exchanged { IfErr result (λ _. TriesOnlyFree H.FIRST pass.old pass.new) }
{
    trylock_at(site, pass, 0)
}

/// Releases the spin lock of this number, in one step. (`queued_spin_unlock`)
pub fn unlock_at<H: SpinHost>(site: &Site<H>, pass: &mut Pass<H>, lock: usize)
    requires own { SitsAt site.now pass.old }
    requires numbered { IsSome (task_in pass.old) }
    requires there { lock < H.LOCKS }
    requires held { HoldsAt lock (spin_in pass.old) }
    requires free { H.may_free (view_of pass.old) }
    ensures on { StepsAt site.now pass.old pass.new }
    ensures face { SaysSame pass.old pass.new }
    ensures told { 1 < H.LOCKS → IsNestTold pass.old → IsNestTold pass.new }
    ensures kept { view_of pass.new ≡ spun (view_of pass.old) (freed lock (view_of pass.old)) }
{
    // A subtraction, and no store: a contender may set the pending bit or the tail meanwhile.
    release(site, pass, lock);
    note(pass, lock, false, false);
}

/// Releases the first spin lock, in one step. (`queued_spin_unlock`)
pub fn unlock<H: SpinHost>(site: &Site<H>, pass: &mut Pass<H>)
    requires own { SitsAt site.now pass.old }
    requires numbered { IsSome (task_in pass.old) }
    requires held { SpinHolds (spin_in pass.old) }
    requires free { H.may_free (view_of pass.old) }
    ensures on { StepsAt site.now pass.old pass.new }
    ensures face { SaysSame pass.old pass.new }
    ensures told { 1 < H.LOCKS → IsNestTold pass.old → IsNestTold pass.new }
    ensures kept { view_of pass.new ≡ spun (view_of pass.old) (freed 0 (view_of pass.old)) }
{
    unlock_at(site, pass, 0);
}

/// Tries the way by the pending bit, which the first contender of a holder takes: it needs no node.
/// True where the pass then holds; false where a tail or another's pending bit stood before it.
pub fn take_by_pending<H: SpinHost, W: Wait, I: Interrupt<Site<H>>>(
    site: &Site<H>,
    rt: &W,
    pass: &mut Pass<H>,
    lock: usize,
    irq: &mut I,
) -> bool
    requires own { SitsAt site.now pass.old }
    requires numbered { IsSome (task_in pass.old) }
    requires there { lock < H.LOCKS }
    requires told { IsNestTold pass.old }
    requires out { RestsAt lock (spin_in pass.old) }
    ensures on { StepsAt site.now pass.old pass.new }
    ensures face { SaysSame pass.old pass.new }
    ensures nodes { KeepsNodes pass.old pass.new }
    ensures flags { KeepsFlagsBeside lock pass.old pass.new }
    ensures told { result ≡ false → IsNestTold pass.new }
    ensures gained { result ≡ true →
        LockGained lock I.silent (view_of pass.old) (view_of pass.new) }
    ensures from { result ≡ true → (lock_hand_of lock pass.new).from ≡ Taking }
    ensures asked { result ≡ true →
        OwnsPendingAt lock 1 (H.FIRST + word_at lock) pass.old pass.new }
    ensures later { result ≡ true →
        (view_of pass.old).steps + 1 < (lock_hand_of lock pass.new).took }
    ensures refused { result ≡ false →
        LockRefused lock (view_of pass.old) (view_of pass.new) }
    ensures found { result ≡ false →
        FindsRival lock (H.FIRST + word_at lock) pass.old pass.new }
    ensures quick { result ≡ false → (view_of pass.new).steps ≤ (view_of pass.old).steps + 2 }
{
    // Of several contenders one finds neither tail nor pending, and owns the bit that it set.
    let seen = fetch_set_pending(site, pass, lock);
    if seen < PENDING {
        pass.note_lock(lock, false, true);
        wait_unlocked(site, rt, pass, lock, irq);
        // While the bit is set nobody else takes the lock: who comes queues, and the head waits.
        clear_pending_set_locked(site, pass, lock);
        return true;
    }
    // The bit was clear, so this pass set it, beside a tail. Whoever finds it set leaves it.
    if seen / PENDING % 2 == 0 {
        clear_pending(site, pass, lock);
    }
    false
}
