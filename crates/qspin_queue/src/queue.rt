//! The slow path of the queued spin lock.
ghost use Rattle.std.specs.Prelude.{◌≡◌, ◌≢◌, ◌+◌, ◌%◌, ◌<◌, ◌≤◌, ◌⊎◌, ◌↔◌, true, false, IsSome};
ghost use Rattle.lock_core.specs.LockHands.{RestsAt, frame_at, depth_of};
ghost use Rattle.lock_core.specs.Views.{SpinRests};
ghost use Rattle.lock_core.specs.Spins.{tail_in, word_at};
ghost use Rattle.lock_core.specs.SiteHandles.{view_of, task_in, SitsAt, StepsAt, SaysSame, KeepsNest, IsNestTold};
ghost use Rattle.qspin_word.specs.Ways.{lock_hand_to, LockGained, SpinGained};
ghost use Rattle.qspin_word.specs.SpinWordHandles.{spin_in, point_in, lock_hand_of, IsAtNone, IsSameBut, KeepsFlagsBeside, KeepsNodes, OwnsPendingAt, SpinIdles, SpinWaits};
ghost use Rattle.qspin_queue.specs.SpinQueueHands.{lock_hand_with, node_at, as_head, learning, entered};
ghost use Rattle.qspin_queue.specs.SpinQueueHandles.{codes, code_in, found_in, successor_in, IsNextNode, HasTop, SpinTakes, TakesInTurn, QueuesBehind, LeavesNode, EntersNode};
ghost use Rattle.qspin_queue.specs.Types.{Out, Taking, Trying, Cleared, Linking, Waiting, Head, Ready, Passing};

use crate::steps::{
    clear_locked, clear_next, exchange_last, exchange_tail, link, load_head, load_locked,
    load_next, load_successor, pass_head, retry, set_locked,
};
use cpu_task::Pauses;
use lock_core::{Pass, Site, SpinHost};
use qspin_word::steps::{exchange_free, grab, peek, seek};
use qspin_word::{Interrupt, PENDING, Quiet, TAIL, TAILLESS, note, take_by_pending};
use std::sync::Wait;

/// How many nodes a task has.
const NODES: u64 = 4;

/// Enters the queue. The answer is the word that the exchange of the tail found.
fn enter_queue<H: SpinHost, W: Wait>(
    site: &Site<H>,
    rt: &W,
    pass: &mut Pass<H>,
    lock: usize,
    code: u64,
) -> u64
    requires own { SitsAt site.now pass.old }
    requires there { lock < H.LOCKS }
    requires told { IsNestTold pass.old }
    requires point { point_in lock pass.old ≡ Cleared }
    requires node { code_in lock pass.old ≡ code }
    requires small { code < codes site.now }
    ensures waits { SpinWaits lock (Unit {0}) site.now pass.old pass.new
        (lock_hand_with (entered result (frame_at lock (spin_in pass.old)))
        (lock_hand_of lock pass.old)) }
    ensures told { IsNestTold pass.new }
    ensures nodes { KeepsNodes pass.old pass.new }
    ensures tail { tail_in result < codes site.now }
{
    for _ in rt.forever() {
        let seen = peek(site, pass, lock);
        // The holder or the owner of the pending bit may have changed the rest of the word: an
        // exchange that drops their byte or bit would let two in.
        if exchange_tail(site, pass, lock, seen, code) == seen {
            return seen;
        }
    }
    unreachable!()
}

/// Waits until the pass is the head.
fn wait_head<H: SpinHost, W: Wait, I: Interrupt<Site<H>>>(
    site: &Site<H>,
    rt: &W,
    pass: &mut Pass<H>,
    lock: usize,
    code: u64,
    irq: &mut I,
)
    requires own { SitsAt site.now pass.old }
    requires there { lock < H.LOCKS }
    requires numbered { IsSome (task_in pass.old) }
    requires told { IsNestTold pass.old }
    requires point { point_in lock pass.old ≡ Waiting }
    requires node { code_in lock pass.old ≡ code }
    requires small { code < codes site.now }
    ensures waits { SpinWaits lock I.silent site.now pass.old pass.new
        (lock_hand_with (as_head (frame_at lock (spin_in pass.old)))
        (lock_hand_of lock pass.old)) }
    ensures told { IsNestTold pass.new }
    ensures nodes { KeepsNodes pass.old pass.new }
{
    let pauses = Pauses::new();
    for _ in rt.forever() {
        if load_locked(site, pass, lock, code) == 1 {
            return;
        }
        irq.hit(rt, site, pass);
        pauses.pause();
    }
    unreachable!()
}

/// Waits until the locked byte and the pending bit are 0, as the head. The answer is the word.
fn wait_ready<H: SpinHost, W: Wait, I: Interrupt<Site<H>>>(
    site: &Site<H>,
    rt: &W,
    pass: &mut Pass<H>,
    lock: usize,
    irq: &mut I,
) -> u64
    requires own { SitsAt site.now pass.old }
    requires there { lock < H.LOCKS }
    requires numbered { IsSome (task_in pass.old) }
    requires told { IsNestTold pass.old }
    requires point { point_in lock pass.old ≡ Head }
    ensures waits { SpinWaits lock I.silent site.now pass.old pass.new
        (lock_hand_to Ready (lock_hand_of lock pass.old)) }
    ensures told { IsNestTold pass.new }
    ensures nodes { KeepsNodes pass.old pass.new }
    ensures free { result % 512 ≡ 0 }
{
    let pauses = Pauses::new();
    for _ in rt.forever() {
        let seen = load_head(site, pass, lock);
        // The owner of the pending bit came first, and takes once the byte is 0: so the head waits
        // for both.
        if seen % TAILLESS == 0 {
            return seen;
        }
        irq.hit(rt, site, pass);
        pauses.pause();
    }
    unreachable!()
}

/// Tells the predecessor, waits to be the head, and looks for a successor: the answer is its code,
/// or 0.
fn become_head<H: SpinHost, W: Wait, I: Interrupt<Site<H>>>(
    site: &Site<H>,
    rt: &W,
    pass: &mut Pass<H>,
    lock: usize,
    predecessor: u64,
    code: u64,
    irq: &mut I,
) -> u64
    requires own { SitsAt site.now pass.old }
    requires there { lock < H.LOCKS }
    requires numbered { IsSome (task_in pass.old) }
    requires told { IsNestTold pass.old }
    requires point { point_in lock pass.old ≡ Linking }
    requires found { found_in lock pass.old ≡ predecessor }
    requires node { code_in lock pass.old ≡ code }
    requires tail { predecessor < codes site.now }
    requires small { code < codes site.now }
    ensures waits { SpinWaits lock I.silent site.now pass.old pass.new
        (lock_hand_with (learning Head result (frame_at lock (spin_in pass.old)))
        (lock_hand_of lock pass.old)) }
    ensures told { IsNestTold pass.new }
    ensures nodes { KeepsNodes pass.old pass.new }
    ensures next { result < codes site.now }
{
    // Until it reads this, the predecessor can't leave: it waits for a successor that it knows.
    link(site, pass, lock, predecessor, code);
    wait_head(site, rt, pass, lock, code, irq);
    load_next(site, pass, lock, code)
}

/// Waits until the successor has told its code.
fn wait_successor<H: SpinHost, W: Wait, I: Interrupt<Site<H>>>(
    site: &Site<H>,
    rt: &W,
    pass: &mut Pass<H>,
    lock: usize,
    code: u64,
    irq: &mut I,
) -> u64
    requires own { SitsAt site.now pass.old }
    requires there { lock < H.LOCKS }
    requires numbered { IsSome (task_in pass.old) }
    requires told { IsNestTold pass.old }
    requires point { point_in lock pass.old ≡ Passing }
    requires none { successor_in lock pass.old ≡ 0 }
    requires node { code_in lock pass.old ≡ code }
    requires small { code < codes site.now }
    ensures waits { SpinWaits lock I.silent site.now pass.old pass.new
        (lock_hand_with (learning Passing result (frame_at lock (spin_in pass.old)))
        (lock_hand_of lock pass.old)) }
    ensures told { IsNestTold pass.new }
    ensures nodes { KeepsNodes pass.old pass.new }
    ensures some { result ≢ 0 }
    ensures next { result < codes site.now }
{
    let pauses = Pauses::new();
    for _ in rt.forever() {
        let next = load_successor(site, pass, lock, code);
        if next != 0 {
            return next;
        }
        irq.hit(rt, site, pass);
        pauses.pause();
    }
    unreachable!()
}

/// Takes the lock as the head where nobody stands behind it, as the word says that it saw.
fn take_last<H: SpinHost>(
    site: &Site<H>,
    pass: &mut Pass<H>,
    lock: usize,
    seen: u64,
    code: u64,
) -> bool
    requires own { SitsAt site.now pass.old }
    requires there { lock < H.LOCKS }
    requires told { IsNestTold pass.old }
    requires point { point_in lock pass.old ≡ Ready }
    requires node { code_in lock pass.old ≡ code }
    requires small { code < codes site.now }
    requires top { HasTop lock pass.old }
    ensures takes { result ≡ true → SpinTakes lock (Unit {0}) site.now pass.old pass.new }
    ensures left { result ≡ true → LeavesNode pass.old pass.new }
    ensures ready { result ≡ true → (lock_hand_of lock pass.new).from ≡ Ready }
    ensures missed { result ≡ false → SpinIdles (Unit {0}) site.now pass.old pass.new }
{
    // Nobody stands behind it, so it may clear the tail with the same exchange: one that another
    // tail or an undoer's pending bit makes fail.
    if seen != TAIL * code {
        return false;
    }
    exchange_last(site, pass, lock, seen) == seen
}

/// Takes the lock as the head, and makes the successor the head.
fn hand_on<H: SpinHost, W: Wait, I: Interrupt<Site<H>>>(
    site: &Site<H>,
    rt: &W,
    pass: &mut Pass<H>,
    lock: usize,
    next: u64,
    code: u64,
    irq: &mut I,
)
    requires own { SitsAt site.now pass.old }
    requires there { lock < H.LOCKS }
    requires numbered { IsSome (task_in pass.old) }
    requires told { IsNestTold pass.old }
    requires point { point_in lock pass.old ≡ Ready }
    requires next { successor_in lock pass.old ≡ next }
    requires fits { next < codes site.now }
    requires node { code_in lock pass.old ≡ code }
    requires small { code < codes site.now }
    requires top { HasTop lock pass.old }
    ensures takes { SpinTakes lock I.silent site.now pass.old pass.new }
    ensures left { LeavesNode pass.old pass.new }
    ensures ready { (lock_hand_of lock pass.new).from ≡ Ready }
{
    // Nobody else takes while a head is ready, so a plain or is enough.
    set_locked(site, pass, lock);
    if next != 0 {
        pass_head(site, pass, lock, next);
    } else {
        // Another exchanged the tail since this pass looked, and may not have told its code yet. Or
        // the exchange met a pending bit that its owner undoes. That one queues up and tells its
        // code, unless all nodes of its task are in use: then this pass waits until somebody else
        // queues up.
        pass.note_lock(lock, true, true);
        let late = wait_successor(site, rt, pass, lock, code, irq);
        pass_head(site, pass, lock, late);
    }
}

/// Takes the lock as the head, once it is free.
fn take_head<H: SpinHost, W: Wait, I: Interrupt<Site<H>>>(
    site: &Site<H>,
    rt: &W,
    pass: &mut Pass<H>,
    lock: usize,
    next: u64,
    code: u64,
    irq: &mut I,
)
    requires own { SitsAt site.now pass.old }
    requires there { lock < H.LOCKS }
    requires numbered { IsSome (task_in pass.old) }
    requires told { IsNestTold pass.old }
    requires point { point_in lock pass.old ≡ Head }
    requires next { successor_in lock pass.old ≡ next }
    requires fits { next < codes site.now }
    requires node { code_in lock pass.old ≡ code }
    requires small { code < codes site.now }
    requires top { HasTop lock pass.old }
    ensures takes { SpinTakes lock I.silent site.now pass.old pass.new }
    ensures left { LeavesNode pass.old pass.new }
    ensures ready { (lock_hand_of lock pass.new).from ≡ Ready }
{
    let seen = wait_ready(site, rt, pass, lock, irq);
    if take_last(site, pass, lock, seen, code) {
        return;
    }
    hand_on(site, rt, pass, lock, next, code, irq);
}

/// Tries once more, as a pass that has cleared its node: the lock may have come free meanwhile.
fn try_cleared<H: SpinHost>(site: &Site<H>, pass: &mut Pass<H>, lock: usize) -> bool
    requires own { SitsAt site.now pass.old }
    requires there { lock < H.LOCKS }
    requires told { IsNestTold pass.old }
    requires point { point_in lock pass.old ≡ Cleared }
    requires top { HasTop lock pass.old }
    ensures takes { result ≡ true → SpinTakes lock (Unit {0}) site.now pass.old pass.new }
    ensures left { result ≡ true → LeavesNode pass.old pass.new }
    ensures cleared { result ≡ true → ((lock_hand_of lock pass.new).from ≡ Cleared)
        × ((lock_hand_of lock pass.new).took ≤ (view_of pass.old).steps + 2) }
    ensures missed { result ≡ false → SpinIdles (Unit {0}) site.now pass.old pass.new }
{
    if peek(site, pass, lock) != 0 {
        return false;
    }
    retry(site, pass, lock) == 0
}

/// Makes the pass's next node ready for the queue, and notes it.
fn clear_node<H: SpinHost>(site: &Site<H>, pass: &mut Pass<H>, lock: usize, code: u64)
    requires own { SitsAt site.now pass.old }
    requires there { lock < H.LOCKS }
    requires told { IsNestTold pass.old }
    requires out { RestsAt lock (spin_in pass.old) }
    requires node { IsNextNode site.now pass.old code }
    ensures waits { SpinWaits lock (Unit {0}) site.now pass.old pass.new
        (lock_hand_with (node_at Cleared code) (lock_hand_of lock pass.old)) }
    ensures told { IsNestTold pass.new }
    ensures enters { EntersNode pass.old pass.new }
    ensures top { HasTop lock pass.new }
    ensures quick { (view_of pass.new).steps ≡ (view_of pass.old).steps + 2 }
{
    let depth = pass.depth();
    clear_locked(site, pass, lock, code);
    clear_next(site, pass, lock, code);
    pass.note_depth(depth + 1);
    pass.note_lock(lock, false, true);
}

/// Takes the lock by the queue, as a pass that has cleared its node.
fn queue_up<H: SpinHost, W: Wait, I: Interrupt<Site<H>>>(
    site: &Site<H>,
    rt: &W,
    pass: &mut Pass<H>,
    lock: usize,
    code: u64,
    irq: &mut I,
)
    requires own { SitsAt site.now pass.old }
    requires there { lock < H.LOCKS }
    requires numbered { IsSome (task_in pass.old) }
    requires told { IsNestTold pass.old }
    requires point { point_in lock pass.old ≡ Cleared }
    requires node { code_in lock pass.old ≡ code }
    requires small { code < codes site.now }
    requires top { HasTop lock pass.old }
    ensures takes { SpinTakes lock I.silent site.now pass.old pass.new }
    ensures left { LeavesNode pass.old pass.new }
    ensures ready { (lock_hand_of lock pass.new).from ≡ Ready }
{
    let seen = enter_queue(site, rt, pass, lock, code);
    if seen < TAILLESS {
        take_head(site, rt, pass, lock, 0, code, irq);
    } else {
        let next = become_head(site, rt, pass, lock, seen / TAIL, code, irq);
        take_head(site, rt, pass, lock, next, code, irq);
    }
}

/// Takes the lock with the node of this code.
fn take_with<H: SpinHost, W: Wait, I: Interrupt<Site<H>>>(
    site: &Site<H>,
    rt: &W,
    pass: &mut Pass<H>,
    lock: usize,
    code: u64,
    irq: &mut I,
)
    requires own { SitsAt site.now pass.old }
    requires there { lock < H.LOCKS }
    requires numbered { IsSome (task_in pass.old) }
    requires told { IsNestTold pass.old }
    requires out { RestsAt lock (spin_in pass.old) }
    requires node { IsNextNode site.now pass.old code }
    ensures takes { SpinTakes lock I.silent site.now pass.old pass.new }
    ensures nodes { KeepsNodes pass.old pass.new }
    ensures in_turn { TakesInTurn lock 4 pass.old pass.new }
{
    let depth = pass.depth();
    // A stale `next` would name a node that stands elsewhere now, a stale `locked` a head.
    clear_node(site, pass, lock, code);
    if try_cleared(site, pass, lock) {
        pass.note_depth(depth);
        return;
    }
    queue_up(site, rt, pass, lock, code, irq);
    pass.note_depth(depth);
}

/// Tries once as a pass that waits without a node, or begins to.
fn grab_free<H: SpinHost>(site: &Site<H>, pass: &mut Pass<H>, lock: usize) -> bool
    requires own { SitsAt site.now pass.old }
    requires there { lock < H.LOCKS }
    requires told { IsNestTold pass.old }
    requires point { (point_in lock pass.old ≡ Out) ⊎ (point_in lock pass.old ≡ Trying) }
    ensures takes { result ≡ true → SpinTakes lock (Unit {0}) site.now pass.old pass.new }
    ensures missed { result ≡ false → SpinWaits lock (Unit {0}) site.now pass.old pass.new
        (lock_hand_to Trying (lock_hand_of lock pass.old)) }
    ensures nodes { KeepsNodes pass.old pass.new }
    ensures nest { KeepsNest pass.old pass.new }
    ensures from { result ≡ true → (lock_hand_of lock pass.new).from ≡ Trying }
{
    if seek(site, pass, lock) != 0 {
        return false;
    }
    grab(site, pass, lock) == 0
}

/// Repeats the try until it takes the lock.
fn wait_free<H: SpinHost, W: Wait, I: Interrupt<Site<H>>>(
    site: &Site<H>,
    rt: &W,
    pass: &mut Pass<H>,
    lock: usize,
    irq: &mut I,
)
    requires own { SitsAt site.now pass.old }
    requires there { lock < H.LOCKS }
    requires numbered { IsSome (task_in pass.old) }
    requires told { IsNestTold pass.old }
    requires point { point_in lock pass.old ≡ Trying }
    ensures takes { SpinTakes lock I.silent site.now pass.old pass.new }
    ensures nodes { KeepsNodes pass.old pass.new }
    ensures from { (lock_hand_of lock pass.new).from ≡ Trying }
{
    let pauses = Pauses::new();
    for _ in rt.forever() {
        irq.hit(rt, site, pass);
        if grab_free(site, pass, lock) {
            return;
        }
        pauses.pause();
    }
    unreachable!()
}

/// Takes the lock without a node, since all nodes of its task are in use.
fn take_without<H: SpinHost, W: Wait, I: Interrupt<Site<H>>>(
    site: &Site<H>,
    rt: &W,
    pass: &mut Pass<H>,
    lock: usize,
    irq: &mut I,
)
    requires own { SitsAt site.now pass.old }
    requires there { lock < H.LOCKS }
    requires numbered { IsSome (task_in pass.old) }
    requires told { IsNestTold pass.old }
    requires out { RestsAt lock (spin_in pass.old) }
    ensures takes { SpinTakes lock I.silent site.now pass.old pass.new }
    ensures nodes { KeepsNodes pass.old pass.new }
    ensures from { (lock_hand_of lock pass.new).from ≡ Trying }
{
    if grab_free(site, pass, lock) {
        return;
    }
    pass.note_lock(lock, false, true);
    wait_free(site, rt, pass, lock, irq);
}

/// The code of the pass's next node.
fn node_code<H: SpinHost>(site: &Site<H>, pass: &Pass<H>) -> u64
    requires own { SitsAt site.now pass.now }
    requires numbered { IsSome (task_in pass.now) }
    requires told { IsNestTold pass.now }
    requires room { depth_of (spin_in pass.now) < 4 }
    ensures { IsNextNode site.now pass.now result }
{
    let Some(task) = pass.task() else {
        unreachable!()
    };
    NODES * (u64::from(task) + 1) + u64::from(pass.depth())
}

/// Takes the lock by the queue, or without a node where all of its task's are in use.
fn take_by_queue<H: SpinHost, W: Wait, I: Interrupt<Site<H>>>(
    site: &Site<H>,
    rt: &W,
    pass: &mut Pass<H>,
    lock: usize,
    irq: &mut I,
)
    requires own { SitsAt site.now pass.old }
    requires there { lock < H.LOCKS }
    requires numbered { IsSome (task_in pass.old) }
    requires told { IsNestTold pass.old }
    requires out { RestsAt lock (spin_in pass.old) }
    ensures takes { SpinTakes lock I.silent site.now pass.old pass.new }
    ensures nodes { KeepsNodes pass.old pass.new }
    ensures in_turn { TakesInTurn lock 4 pass.old pass.new }
{
    if u64::from(pass.depth()) < NODES {
        let code = node_code(site, pass);
        take_with(site, rt, pass, lock, code, irq);
    } else {
        take_without(site, rt, pass, lock, irq);
    }
}

/// How a call got the lock.
#[derive(Clone, Copy, Debug, PartialEq, Eq)]
pub enum Way {
    /// By its first step.
    Fast,
    /// As the owner of the pending bit.
    Pending,
    /// In any other way.
    Queued,
}

/// In a table with one lock a pass outside it is at no lock, and needn't have noted it.
fn begin_notes<H: SpinHost>(site: &Site<H>, pass: &mut Pass<H>)
    requires told { (H.LOCKS ≡ 1) ⊎ IsNestTold pass.old }
    requires alone { IsAtNone H.LOCKS pass.old }
    ensures same { IsSameBut pass.old pass.new }
    ensures told { IsNestTold pass.new }
{
    if H::LOCKS == 1 {
        pass.note_none();
    }
}

/// Takes the lock after its first step, which found this word.
fn contend<H: SpinHost, W: Wait, I: Interrupt<Site<H>>>(
    site: &Site<H>,
    rt: &W,
    pass: &mut Pass<H>,
    lock: usize,
    seen: u64,
    irq: &mut I,
) -> Way
    requires own { SitsAt site.now pass.old }
    requires there { lock < H.LOCKS }
    requires numbered { IsSome (task_in pass.old) }
    requires told { IsNestTold pass.old }
    requires out { RestsAt lock (spin_in pass.old) }
    ensures on { StepsAt site.now pass.old pass.new }
    ensures face { SaysSame pass.old pass.new }
    ensures gained { LockGained lock I.silent (view_of pass.old) (view_of pass.new) }
    ensures flags { KeepsFlagsBeside lock pass.old pass.new }
    ensures nodes { KeepsNodes pass.old pass.new }
    ensures slow { result ≢ Way.Fast }
    ensures pending { (result ≡ Way.Pending) ↔ ((lock_hand_of lock pass.new).from ≡ Taking) }
    ensures asked { (result ≡ Way.Pending) →
        OwnsPendingAt lock 1 (H.FIRST + word_at lock) pass.old pass.new }
    ensures in_turn { (result ≡ Way.Queued) → TakesInTurn lock 6 pass.old pass.new }
    ensures at_once { (result ≡ Way.Queued) → 256 ≤ seen → TakesInTurn lock 4 pass.old pass.new }
    ensures rival { (result ≡ Way.Queued) → seen < 256 →
        QueuesBehind lock I.silent (H.FIRST + word_at lock) pass.old pass.new }
    ensures saw { (result ≡ Way.Queued) → 256 ≤ seen → I.silent →
        (spin_in pass.new).saw ≡ (spin_in pass.old).saw }
{
    if seen < PENDING {
        // Only a holder stands before it: the first contender needs no node.
        if take_by_pending(site, rt, pass, lock, irq) {
            return Way::Pending;
        }
        take_by_queue(site, rt, pass, lock, irq);
        return Way::Queued;
    }
    take_by_queue(site, rt, pass, lock, irq);
    Way::Queued
}

/// Waits until the pass has the spin lock of this number, and answers how it got it. In each turn
/// in which it waits `irq` is hit.
pub fn lock_with<H: SpinHost, W: Wait, I: Interrupt<Site<H>>>(
    site: &Site<H>,
    rt: &W,
    pass: &mut Pass<H>,
    lock: usize,
    irq: &mut I,
) -> Way
    requires own { SitsAt site.now pass.old }
    requires there { lock < H.LOCKS }
    requires numbered { IsSome (task_in pass.old) }
    requires told { (H.LOCKS ≡ 1) ⊎ IsNestTold pass.old }
    requires out { RestsAt lock (spin_in pass.old) }
    ensures on { StepsAt site.now pass.old pass.new }
    ensures face { SaysSame pass.old pass.new }
    ensures told { 1 < H.LOCKS → IsNestTold pass.old → IsNestTold pass.new }
    ensures gained { LockGained lock I.silent (view_of pass.old) (view_of pass.new) }
    ensures nodes { depth_of (spin_in pass.new) ≡ depth_of (spin_in pass.old) }

    // The step at which it took the lock, and the point from which it did: its first one, that of
    // the owner of the pending bit, or the queue's head. Seven steps lead to the one try that a
    // call makes with its node cleared, and five from the step that found a rival.
    ensures fast { (result ≡ Way.Fast) ↔
        ((lock_hand_of lock pass.new).took ≡ (view_of pass.old).steps + 1) }
    ensures pending { (result ≡ Way.Pending) ↔ ((lock_hand_of lock pass.new).from ≡ Taking) }
    ensures asked { (result ≡ Way.Pending) →
        OwnsPendingAt lock 2 (H.FIRST + word_at lock) pass.old pass.new }
    ensures in_turn { (result ≡ Way.Queued) → TakesInTurn lock 7 pass.old pass.new }
    ensures queued { (result ≡ Way.Queued) →
        QueuesBehind lock I.silent (H.FIRST + word_at lock) pass.old pass.new }
{
    let seen = exchange_free(site, pass, lock);
    if seen == 0 {
        note(pass, lock, true, false);
        return Way::Fast;
    }
    begin_notes(site, pass);
    let way = contend(site, rt, pass, lock, seen, irq);
    pass.note_lock(lock, true, false);
    way
}

/// Waits until the pass has the first spin lock, and answers how it got it. Nothing interrupts it.
/// (`queued_spin_lock`)
pub fn lock<H: SpinHost, W: Wait>(site: &Site<H>, rt: &W, pass: &mut Pass<H>) -> Way
    requires own { SitsAt site.now pass.old }
    requires numbered { IsSome (task_in pass.old) }
    requires told { (H.LOCKS ≡ 1) ⊎ IsNestTold pass.old }
    requires out { SpinRests (spin_in pass.old) }
    ensures on { StepsAt site.now pass.old pass.new }
    ensures face { SaysSame pass.old pass.new }
    ensures told { 1 < H.LOCKS → IsNestTold pass.old → IsNestTold pass.new }
    ensures gained { SpinGained (view_of pass.old) (view_of pass.new) }
    ensures fast { (result ≡ Way.Fast) ↔
        ((spin_in pass.new).took ≡ (view_of pass.old).steps + 1) }
    ensures pending { (result ≡ Way.Pending) ↔ ((spin_in pass.new).from ≡ Taking) }
    ensures asked { (result ≡ Way.Pending) → OwnsPendingAt 0 2 H.FIRST pass.old pass.new }
    ensures in_turn { (result ≡ Way.Queued) → TakesInTurn 0 7 pass.old pass.new }
    ensures queued { (result ≡ Way.Queued) →
        QueuesBehind 0 (Unit {0}) H.FIRST pass.old pass.new }
{
    lock_with(site, rt, pass, 0, &mut Quiet)
}
