//! The single steps of the slow path, each at the point of the lock at which a pass may make it.
//! `code` is the code of the pass's node: four times its task's number plus 1, and the node's number.
ghost use Rattle.std.specs.Prelude.{◌≡◌, ◌≢◌, ◌+◌, ◌*◌, ◌/◌, ◌<◌};
ghost use Rattle.word_bits.specs.declared.TheConstants.{MAX_TASKS};
ghost use Rattle.lock_core.specs.LockHands.{RestsAt};
ghost use Rattle.lock_core.specs.Spins.{tail_in, word_at, next_at, locked_at};
ghost use Rattle.lock_core.specs.SiteHandles.{view_of, past_of, SitsAt};
ghost use Rattle.lock_core.specs.Pasts.{FoundAt};
ghost use Rattle.qspin_word.specs.SpinWordHandles.{spin_in, point_in, SpinSteps};
ghost use Rattle.qspin_queue.specs.SpinQueueHands.{retried, cleared_locked, cleared_next, queued, linked, heard, learnt, readied, took_last, took_head, passed};
ghost use Rattle.qspin_queue.specs.SpinQueueHandles.{codes, codes_of, code_in, found_in, successor_in, IsNextNode, HasTop};
ghost use Rattle.qspin_queue.specs.Types.{Clearing, Cleared, Linking, Waiting, Head, Ready, Passing};

use lock_core::{Op, Pass, Site, SpinHost};
use qspin_word::{LOCKED, TAIL, TAILLESS, spin_step, word_step};
use std::marker::Brand;

/// The place of `next` of a node among the spin words.
fn next_place(code: u64) -> usize
    requires { code < codes_of MAX_TASKS }
    ensures { result ≡ next_at code }
{
    8 * code as usize + 33
}

/// The place of `locked` of a node, on the same line.
fn locked_place(code: u64) -> usize
    requires { code < codes_of MAX_TASKS }
    ensures { result ≡ locked_at code }
{
    8 * code as usize + 34
}

/// A compare-exchange of the word from 0 to 1, by a pass that has cleared its node.
pub fn retry<H: SpinHost>(site: &Site<H>, pass: &mut Pass<H>, lock: usize) -> u64
    requires own { SitsAt site.now pass.old }
    requires there { lock < H.LOCKS }
    requires point { point_in lock pass.old ≡ Cleared }
    requires top { HasTop lock pass.old }
    ensures steps { SpinSteps site.now pass.old pass.new (retried lock result (view_of pass.old)) }
    ensures found { FoundAt (H.FIRST + word_at lock) result (past_of pass.new) }
{
    word_step::<H, Brand>(site, pass, lock, Op::Exchange(0, LOCKED))
}

/// Clears `locked` of the pass's node.
pub fn clear_locked<H: SpinHost>(site: &Site<H>, pass: &mut Pass<H>, lock: usize, code: u64)
    requires own { SitsAt site.now pass.old }
    requires there { lock < H.LOCKS }
    requires out { RestsAt lock (spin_in pass.old) }
    requires node { IsNextNode site.now pass.old code }
    ensures steps { SpinSteps site.now pass.old pass.new (cleared_locked lock (view_of pass.old)) }
{
    spin_step::<H, Brand>(site, pass, lock, locked_place(code), Op::Store(0));
}

/// Clears `next` of the pass's node.
pub fn clear_next<H: SpinHost>(site: &Site<H>, pass: &mut Pass<H>, lock: usize, code: u64)
    requires own { SitsAt site.now pass.old }
    requires there { lock < H.LOCKS }
    requires point { point_in lock pass.old ≡ Clearing }
    requires node { code_in lock pass.old ≡ code }
    requires small { code < codes site.now }
    ensures steps { SpinSteps site.now pass.old pass.new (cleared_next lock (view_of pass.old)) }
{
    spin_step::<H, Brand>(site, pass, lock, next_place(code), Op::Store(0));
}

/// A compare-exchange of the word for itself with the pass's node as its tail.
pub fn exchange_tail<H: SpinHost>(
    site: &Site<H>,
    pass: &mut Pass<H>,
    lock: usize,
    from: u64,
    code: u64,
) -> u64
    requires own { SitsAt site.now pass.old }
    requires there { lock < H.LOCKS }
    requires point { point_in lock pass.old ≡ Cleared }
    requires node { code_in lock pass.old ≡ code }
    requires small { code < codes site.now }
    ensures steps { SpinSteps site.now pass.old pass.new
        (queued lock from result (view_of pass.old)) }
    ensures tail { tail_in result < codes site.now }
    ensures found { FoundAt (H.FIRST + word_at lock) result (past_of pass.new) }
{
    word_step::<H, Brand>(
        site,
        pass,
        lock,
        Op::Exchange(from, from % TAILLESS + TAIL * code),
    )
}

/// Stores the pass's code in `next` of its predecessor.
pub fn link<H: SpinHost>(
    site: &Site<H>,
    pass: &mut Pass<H>,
    lock: usize,
    predecessor: u64,
    code: u64,
)
    requires own { SitsAt site.now pass.old }
    requires there { lock < H.LOCKS }
    requires point { point_in lock pass.old ≡ Linking }
    requires found { found_in lock pass.old ≡ predecessor }
    requires node { code_in lock pass.old ≡ code }
    requires small { predecessor < codes site.now }
    ensures steps { SpinSteps site.now pass.old pass.new (linked lock (view_of pass.old)) }
{
    spin_step::<H, Brand>(site, pass, lock, next_place(predecessor), Op::Store(code));
}

/// A load of `locked` of the pass's node: 1 once the pass is the head.
pub fn load_locked<H: SpinHost>(site: &Site<H>, pass: &mut Pass<H>, lock: usize, code: u64) -> u64
    requires own { SitsAt site.now pass.old }
    requires there { lock < H.LOCKS }
    requires point { point_in lock pass.old ≡ Waiting }
    requires node { code_in lock pass.old ≡ code }
    requires small { code < codes site.now }
    ensures steps { SpinSteps site.now pass.old pass.new (heard lock result (view_of pass.old)) }
    ensures found { FoundAt (H.FIRST + locked_at code) result (past_of pass.new) }
{
    spin_step::<H, Brand>(site, pass, lock, locked_place(code), Op::Load)
}

/// A load of `next` of the pass's node, by the head.
pub fn load_next<H: SpinHost>(site: &Site<H>, pass: &mut Pass<H>, lock: usize, code: u64) -> u64
    requires own { SitsAt site.now pass.old }
    requires there { lock < H.LOCKS }
    requires point { point_in lock pass.old ≡ Head }
    requires node { code_in lock pass.old ≡ code }
    requires small { code < codes site.now }
    ensures steps { SpinSteps site.now pass.old pass.new
        (learnt lock Head result (view_of pass.old)) }
    ensures found { FoundAt (H.FIRST + next_at code) result (past_of pass.new) }
    ensures next { result < codes site.now }
{
    spin_step::<H, Brand>(site, pass, lock, next_place(code), Op::Load)
}

/// A load of the word by the head: ready where the locked byte and the pending bit are 0.
pub fn load_head<H: SpinHost>(site: &Site<H>, pass: &mut Pass<H>, lock: usize) -> u64
    requires own { SitsAt site.now pass.old }
    requires there { lock < H.LOCKS }
    requires point { point_in lock pass.old ≡ Head }
    ensures steps { SpinSteps site.now pass.old pass.new (readied lock result (view_of pass.old)) }
    ensures found { FoundAt (H.FIRST + word_at lock) result (past_of pass.new) }
{
    word_step::<H, Brand>(site, pass, lock, Op::Load)
}

/// A compare-exchange of the word with the pass's own tail alone for 1.
pub fn exchange_last<H: SpinHost>(site: &Site<H>, pass: &mut Pass<H>, lock: usize, from: u64) -> u64
    requires own { SitsAt site.now pass.old }
    requires there { lock < H.LOCKS }
    requires point { point_in lock pass.old ≡ Ready }
    requires top { HasTop lock pass.old }
    requires alone { from ≡ 512 * code_in lock pass.old }
    ensures steps { SpinSteps site.now pass.old pass.new
        (took_last lock from result (view_of pass.old)) }
    ensures found { FoundAt (H.FIRST + word_at lock) result (past_of pass.new) }
{
    word_step::<H, Brand>(site, pass, lock, Op::Exchange(from, LOCKED))
}

/// Sets the locked byte, as a ready head.
pub fn set_locked<H: SpinHost>(site: &Site<H>, pass: &mut Pass<H>, lock: usize)
    requires own { SitsAt site.now pass.old }
    requires there { lock < H.LOCKS }
    requires point { point_in lock pass.old ≡ Ready }
    ensures steps { SpinSteps site.now pass.old pass.new (took_head lock (view_of pass.old)) }
{
    word_step::<H, Brand>(site, pass, lock, Op::Or(LOCKED));
}

/// A load of `next` of the pass's node, by the holder that came from the queue.
pub fn load_successor<H: SpinHost>(
    site: &Site<H>,
    pass: &mut Pass<H>,
    lock: usize,
    code: u64,
) -> u64
    requires own { SitsAt site.now pass.old }
    requires there { lock < H.LOCKS }
    requires point { point_in lock pass.old ≡ Passing }
    requires node { code_in lock pass.old ≡ code }
    requires small { code < codes site.now }
    ensures steps { SpinSteps site.now pass.old pass.new
        (learnt lock Passing result (view_of pass.old)) }
    ensures found { FoundAt (H.FIRST + next_at code) result (past_of pass.new) }
    ensures next { result < codes site.now }
{
    spin_step::<H, Brand>(site, pass, lock, next_place(code), Op::Load)
}

/// Stores 1 in `locked` of the successor, which is then the head.
pub fn pass_head<H: SpinHost>(site: &Site<H>, pass: &mut Pass<H>, lock: usize, successor: u64)
    requires own { SitsAt site.now pass.old }
    requires there { lock < H.LOCKS }
    requires point { point_in lock pass.old ≡ Passing }
    requires top { HasTop lock pass.old }
    requires next { successor_in lock pass.old ≡ successor }
    requires some { successor ≢ 0 }
    requires small { successor < codes site.now }
    ensures steps { SpinSteps site.now pass.old pass.new (passed lock (view_of pass.old)) }
{
    spin_step::<H, Brand>(site, pass, lock, locked_place(successor), Op::Store(1));
}
