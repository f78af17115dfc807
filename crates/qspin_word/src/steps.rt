//! The single steps on the spin word, each at the point of the lock at which a pass may make it.
ghost use Rattle.std.specs.Prelude.{◌≡◌, ◌<◌, ◌+◌, ◌⊎◌, ◌%◌, IsSome};
ghost use Rattle.lock_core.specs.LockHands.{RestsAt, HoldsAt};
ghost use Rattle.lock_core.specs.Spins.{word_at};
ghost use Rattle.lock_core.specs.Pasts.{FoundAt};
ghost use Rattle.lock_core.specs.SiteHandles.{view_of, past_of, task_in, SitsAt, IsNestTold};
ghost use Rattle.qspin_word.specs.SpinWordHands.{tried, looked, sought, grabbed, freed, pended, undone, awaited, turned};
ghost use Rattle.qspin_word.specs.Ways.{lock_hand_to};
ghost use Rattle.qspin_word.specs.SpinWordHandles.{spin_in, point_in, lock_hand_of, IsAtNone, SpinSteps, SpinWaits, KeepsNodes};
ghost use Rattle.qspin_word.specs.Types.{Out, Undoing, Pending, Taking, Trying};

use crate::interrupt::Interrupt;
use crate::moves::word_step;
use crate::{LOCKED, PENDING};
use cpu_task::Pauses;
use lock_core::{Op, Pass, Site, SpinHost};
use std::marker::Brand;
use std::sync::Wait;

/// A compare-exchange of the word from 0 to 1, by a pass that is at no point of the lock.
pub fn exchange_free<H: SpinHost>(site: &Site<H>, pass: &mut Pass<H>, lock: usize) -> u64
    requires own { SitsAt site.now pass.old }
    requires there { lock < H.LOCKS }
    requires out { RestsAt lock (spin_in pass.old) }
    ensures steps { SpinSteps site.now pass.old pass.new (tried lock result (view_of pass.old)) }
    ensures alone { IsAtNone H.LOCKS pass.old }
    ensures found { FoundAt (H.FIRST + word_at lock) result (past_of pass.new) }
{
    word_step::<H, Brand>(site, pass, lock, Op::Exchange(0, LOCKED))
}

/// A load of the word by a pass that is at no point of the lock, so that it sees no tail or bit of
/// its own. A word that isn't 0 is kept as seen.
pub fn look<H: SpinHost>(site: &Site<H>, pass: &mut Pass<H>, lock: usize) -> u64
    requires own { SitsAt site.now pass.old }
    requires there { lock < H.LOCKS }
    requires out { RestsAt lock (spin_in pass.old) }
    ensures steps { SpinSteps site.now pass.old pass.new (looked lock result (view_of pass.old)) }
    ensures found { FoundAt (H.FIRST + word_at lock) result (past_of pass.new) }
{
    word_step::<H, Brand>(site, pass, lock, Op::Load)
}

/// A load of the word by a pass that waits without a node, or begins to.
pub fn seek<H: SpinHost>(site: &Site<H>, pass: &mut Pass<H>, lock: usize) -> u64
    requires own { SitsAt site.now pass.old }
    requires there { lock < H.LOCKS }
    requires point { (point_in lock pass.old ≡ Out) ⊎ (point_in lock pass.old ≡ Trying) }
    ensures steps { SpinSteps site.now pass.old pass.new (sought lock (view_of pass.old)) }
    ensures found { FoundAt (H.FIRST + word_at lock) result (past_of pass.new) }
{
    word_step::<H, Brand>(site, pass, lock, Op::Load)
}

/// A compare-exchange of the word from 0 to 1 by a pass that waits without a node.
pub fn grab<H: SpinHost>(site: &Site<H>, pass: &mut Pass<H>, lock: usize) -> u64
    requires own { SitsAt site.now pass.old }
    requires there { lock < H.LOCKS }
    requires point { point_in lock pass.old ≡ Trying }
    ensures steps { SpinSteps site.now pass.old pass.new (grabbed lock result (view_of pass.old)) }
    ensures found { FoundAt (H.FIRST + word_at lock) result (past_of pass.new) }
{
    word_step::<H, Brand>(site, pass, lock, Op::Exchange(0, LOCKED))
}

/// A load of the word of which nothing is kept.
pub fn peek<H: SpinHost>(site: &Site<H>, pass: &mut Pass<H>, lock: usize) -> u64
    requires own { SitsAt site.now pass.old }
    requires there { lock < H.LOCKS }
    ensures steps { SpinSteps site.now pass.old pass.new (spin_in pass.old) }
    ensures found { FoundAt (H.FIRST + word_at lock) result (past_of pass.new) }
{
    word_step::<H, Brand>(site, pass, lock, Op::Load)
}

/// Clears the locked byte, as the holder.
pub fn release<H: SpinHost>(site: &Site<H>, pass: &mut Pass<H>, lock: usize)
    requires own { SitsAt site.now pass.old }
    requires there { lock < H.LOCKS }
    requires held { HoldsAt lock (spin_in pass.old) }
    requires free { H.may_free (view_of pass.old) }
    ensures steps { SpinSteps site.now pass.old pass.new (freed lock (view_of pass.old)) }
{
    word_step::<H, Brand>(site, pass, lock, Op::Sub(LOCKED));
}

/// Sets the pending bit.
pub fn fetch_set_pending<H: SpinHost>(site: &Site<H>, pass: &mut Pass<H>, lock: usize) -> u64
    requires own { SitsAt site.now pass.old }
    requires there { lock < H.LOCKS }
    requires out { RestsAt lock (spin_in pass.old) }
    ensures steps { SpinSteps site.now pass.old pass.new (pended lock result (view_of pass.old)) }
    ensures found { FoundAt (H.FIRST + word_at lock) result (past_of pass.new) }
{
    word_step::<H, Brand>(site, pass, lock, Op::Or(PENDING))
}

/// Clears the pending bit, as the pass that set it beside a tail.
pub fn clear_pending<H: SpinHost>(site: &Site<H>, pass: &mut Pass<H>, lock: usize)
    requires own { SitsAt site.now pass.old }
    requires there { lock < H.LOCKS }
    requires point { point_in lock pass.old ≡ Undoing }
    ensures steps { SpinSteps site.now pass.old pass.new (undone lock (view_of pass.old)) }
{
    word_step::<H, Brand>(site, pass, lock, Op::And(!PENDING));
}

/// A load of the word by the owner of the pending bit.
pub fn load_pending<H: SpinHost>(site: &Site<H>, pass: &mut Pass<H>, lock: usize) -> u64
    requires own { SitsAt site.now pass.old }
    requires there { lock < H.LOCKS }
    requires point { point_in lock pass.old ≡ Pending }
    ensures steps { SpinSteps site.now pass.old pass.new (awaited lock result (view_of pass.old)) }
    ensures found { FoundAt (H.FIRST + word_at lock) result (past_of pass.new) }
{
    word_step::<H, Brand>(site, pass, lock, Op::Load)
}

/// Waits until the locked byte is 0, as the owner of the pending bit.
pub fn wait_unlocked<H: SpinHost, W: Wait, I: Interrupt<Site<H>>>(
    site: &Site<H>,
    rt: &W,
    pass: &mut Pass<H>,
    lock: usize,
    irq: &mut I,
)
    requires own { SitsAt site.now pass.old }
    requires there { lock < H.LOCKS }
    requires numbered { IsSome (task_in pass.old) }
    requires told { IsNestTold pass.old }
    requires point { point_in lock pass.old ≡ Pending }
    ensures waits { SpinWaits lock I.silent site.now pass.old pass.new
        (lock_hand_to Taking (lock_hand_of lock pass.old)) }
    ensures nodes { KeepsNodes pass.old pass.new }
{
    let pauses = Pauses::new();
    for _ in rt.forever() {
        if load_pending(site, pass, lock) % PENDING == 0 {
            return;
        }
        irq.hit(rt, site, pass);
        pauses.pause();
    }
    unreachable!()
}

/// The owner of the pending bit takes the lock: the sum clears the bit and sets the locked byte.
pub fn clear_pending_set_locked<H: SpinHost>(site: &Site<H>, pass: &mut Pass<H>, lock: usize)
    requires own { SitsAt site.now pass.old }
    requires there { lock < H.LOCKS }
    requires point { point_in lock pass.old ≡ Taking }
    ensures steps { SpinSteps site.now pass.old pass.new (turned lock (view_of pass.old)) }
{
    word_step::<H, Brand>(site, pass, lock, Op::Add(LOCKED.wrapping_sub(PENDING)));
}
