//! What no clause says: the words of a call that is interrupted and takes another lock meanwhile,
//! and such interrupts on threads.
ghost use Rattle.std.specs.Prelude.{◌<◌, ◌≤◌, length, IsSome, IfOk};
ghost use Rattle.lock_core.specs.SiteHandles.{plan_of, task_in, SitsAt, SaysSame, IsNestTold};
ghost use Rattle.lock_core.specs.LockHands.{RestsAt, HoldsAt, RestsEverywhere};
ghost use Rattle.qspin_word.specs.SpinWordHandles.{spin_in, NotesItself, SpinIdles};
ghost use Rattle.qspin_queue.specs.SpinQueueHandles.{IsApart, IsApartIdle};
ghost use Rattle.lock_tests.specs.Nests.{HoldsThree};

use lock_core::{Nest, Pass, Plan, Site};
use qspin_queue::{Way, lock_with};
use qspin_word::steps::peek;
use qspin_word::{Interrupt, Quiet, trylock_at, unlock_at};
use std::alloc::{AllocError, Global};
use std::sync::Wait;
use std::sync::atomic::{AtomicU64, Ordering};
use std::test::Fail;
use std::thread::{self, Threads, join};

/// The lock for which a call waits that is interrupted.
const OUTER: usize = 0;

/// The lock that its interrupt takes.
const INNER: usize = 1;

/// The lock for which that one's own interrupt waits, until the words have been seen.
const GATE: usize = 2;

/// Many rounds for each of four threads.
const ROUNDS: u32 = 10_000;

/// As often a pass looks before it gives up.
const LOOKS: u32 = 100_000_000;

/// A number for each lock, raised under it by a load and a store.
type Counts = [AtomicU64; 3];

/// In each turn of a pass that waits it takes a lock, by a call that may itself be interrupted,
/// raises the lock's number and releases the lock.
#[derive(Drop)]
struct Takes<'a, I> {
    counts: &'a Counts,
    lock: usize,
    irq: I,
    /// How many nodes the pass used as it was hit last.
    depth: u32,
    /// How often it took the lock.
    taken: u64,
    ghost there: { lock < 3 },
}

impl<I: Interrupt<Site<Nest>>> Interrupt<Site<Nest>> for Takes<'_, I> {
    ghost silent = { ⊥ };

    fn hit<W: Wait>(&mut self, rt: &W, site: &Site<Nest>, pass: &mut Pass<Nest>) {
        self.depth = pass.depth();
        // A lock that its pass waits for or holds would never come free.
        if !pass.is_outside(self.lock) {
            return;
        }
        raise(rt, site, pass, self.counts, self.lock, &mut self.irq);
        self.taken = self.taken.wrapping_add(1);
    }
}

/// Takes the lock, raises its number and releases it.
fn raise<W: Wait, I: Interrupt<Site<Nest>>>(
    rt: &W,
    site: &Site<Nest>,
    pass: &mut Pass<Nest>,
    counts: &Counts,
    lock: usize,
    irq: &mut I,
) -> Way
    requires ready { NotesItself site.now pass.old }
    requires there { lock < 3 }
    requires out { RestsAt lock (spin_in pass.old) }
    ensures idles { SpinIdles ⊥ site.now pass.old pass.new }
    ensures out { RestsEverywhere (spin_in pass.old) → RestsEverywhere (spin_in pass.new) }
{
    let way = lock_with(site, rt, pass, lock, irq);
    let raised = counts[lock].load(Ordering::SeqCst).wrapping_add(1);
    counts[lock].store(raised, Ordering::SeqCst);
    unlock_at(site, pass, lock);
    way
}

/// Numbers that were never raised.
fn no_counts() -> Counts {
    [AtomicU64::new(0), AtomicU64::new(0), AtomicU64::new(0)]
}

/// A pass that is at no lock takes a task's number.
fn start<W: Wait>(rt: &W, site: &Site<Nest>, pass: &mut Pass<Nest>, task: u32)
    requires idle { IsApartIdle site.now pass.old }
    requires there { task < length (plan_of site.now) }
    ensures own { SitsAt site.now pass.new }
    ensures numbered { IsSome (task_in pass.new) }
    ensures told { IsNestTold pass.new }
    ensures out { RestsEverywhere (spin_in pass.new) }
{
    site.begin(rt, pass, task);
}

/// Another pass without a number.
fn another(site: &Site<Nest>, first: &mut Pass<Nest>) -> Pass<Nest>
    requires idle { IsApartIdle site.now first.old }
    ensures first { IsApartIdle site.now first.new }
    ensures other { IsApartIdle site.now result }
{
    site.split(first)
}

/// Looks at the lock's word once.
fn look(site: &Site<Nest>, pass: &mut Pass<Nest>, lock: usize) -> u64
    requires own { SitsAt site.now pass.old }
    requires there { lock < 3 }
    ensures own { SitsAt site.now pass.new }
    ensures face { SaysSame pass.old pass.new }
    ensures told { IsNestTold pass.old → IsNestTold pass.new }
    ensures out { RestsEverywhere (spin_in pass.old) → RestsEverywhere (spin_in pass.new) }
{
    peek(site, pass, lock)
}

/// Looks at the lock's word until it is this one, and says whether it was.
fn sees(site: &Site<Nest>, pass: &mut Pass<Nest>, lock: usize, word: u64) -> bool
    requires apart { IsApart site.now pass.old }
    requires there { lock < 3 }
    ensures { IsApart site.now pass.new }
{
    for _ in 0..LOOKS {
        if look(site, pass, lock) == word {
            return true;
        }
    }
    false
}

/// CPU 0 holds the three locks.
#[derive(Drop)]
struct Held {
    site: Site<Nest>,
    counts: Counts,
    zero: Pass<Nest>,
    one: Pass<Nest>,
    two: Pass<Nest>,
    three: Pass<Nest>,
    four: Pass<Nest>,
}

/// Takes the three locks.
fn take_all<W: Wait>(rt: &W, site: &Site<Nest>, pass: &mut Pass<Nest>)
    requires apart { IsApart site.now pass.old }
    ensures own { SitsAt site.now pass.new }
    ensures numbered { IsSome (task_in pass.new) }
    ensures told { IsNestTold pass.new }
    ensures outer { HoldsAt 0 (spin_in pass.new) }
    ensures inner { HoldsAt 1 (spin_in pass.new) }
    ensures gate { HoldsAt 2 (spin_in pass.new) }
{
    lock_with(site, rt, pass, OUTER, &mut Quiet);
    lock_with(site, rt, pass, INNER, &mut Quiet);
    lock_with(site, rt, pass, GATE, &mut Quiet);
}

/// Releases the three locks, the gate first.
fn release_all(site: &Site<Nest>, pass: &mut Pass<Nest>)
    requires holds { HoldsThree site.now pass.old }
{
    unlock_at(site, pass, GATE);
    unlock_at(site, pass, OUTER);
    unlock_at(site, pass, INNER);
}

/// A new table of locks, which CPU 0 has taken.
fn open_held<W: Wait>(rt: &W, alloc: Global) -> Result<Held, AllocError>
    ensures zero { IfOk result (λ o. HoldsThree o.site o.zero) }
    ensures one { IfOk result (λ o. IsApart o.site o.one) }
    ensures two { IfOk result (λ o. IsApart o.site o.two) }
    ensures three { IfOk result (λ o. IsApart o.site o.three) }
    ensures four { IfOk result (λ o. IsApart o.site o.four) }
{
    let plan = Plan::new(alloc, 5)?;
    let (site, mut zero) = Site::<Nest>::open(alloc, plan)?;
    let mut one = another(&site, &mut zero);
    let mut two = another(&site, &mut zero);
    let mut three = another(&site, &mut zero);
    let mut four = another(&site, &mut zero);
    start(rt, &site, &mut zero, 0);
    start(rt, &site, &mut one, 1);
    start(rt, &site, &mut two, 2);
    start(rt, &site, &mut three, 3);
    start(rt, &site, &mut four, 4);
    take_all(rt, &site, &mut zero);
    Ok(Held {
        site,
        counts: no_counts(),
        zero,
        one,
        two,
        three,
        four,
    })
}

/// Takes the lock once, and nothing interrupts it.
fn once<W: Wait>(
    rt: &W,
    site: &Site<Nest>,
    counts: &Counts,
    mut pass: Pass<Nest>,
    lock: usize,
) -> Way
    requires apart { IsApart site.now pass }
    requires there { lock < 3 }
{
    raise(rt, site, &mut pass, counts, lock, &mut Quiet)
}

/// Takes the outer lock once. Its interrupt takes the inner one, and that one's the gate. The
/// answer has how many nodes were in use as each of the two was hit last.
fn nested_once<W: Wait>(
    rt: &W,
    site: &Site<Nest>,
    counts: &Counts,
    mut pass: Pass<Nest>,
) -> (Way, u32, u32)
    requires { IsApart site.now pass }
{
    let mut irq = Takes {
        counts,
        lock: INNER,
        irq: Takes {
            counts,
            lock: GATE,
            irq: Quiet,
            depth: 0,
            taken: 0,
        },
        depth: 0,
        taken: 0,
    };
    let way = raise(rt, site, &mut pass, counts, OUTER, &mut irq);
    (way, irq.depth, irq.irq.depth)
}

/// Waits until CPU 2 waits for the gate, in the interrupt of its nested call. The answer is what
/// CPU 4 then finds at the inner lock. CPU 0 releases its locks behind that.
fn release_behind_gate(
    site: &Site<Nest>,
    mut holder: Pass<Nest>,
    mut watcher: Pass<Nest>,
) -> (bool, Result<(), u64>)
    requires holder { HoldsThree site.now holder }
    requires watcher { IsApart site.now watcher }
{
    let outer = sees(site, &mut watcher, OUTER, 6401);
    let gate = sees(site, &mut watcher, GATE, 257);
    let found = trylock_at(site, &mut watcher, INNER);
    release_all(site, &mut holder);
    (outer && gate, found)
}

/// What CPU 4 saw, what it found at the inner lock, and how CPU 2 got the outer one.
type Nested = ((bool, Result<(), u64>), (Way, u32, u32));

/// Waits until CPU 3 owns the pending bit of the inner lock; then CPU 2 queues for the outer one.
fn queue_with_interrupt<R: Threads + Wait + Sync>(
    rt: &R,
    site: &Site<Nest>,
    counts: &Counts,
    holder: Pass<Nest>,
    mut watcher: Pass<Nest>,
    last: Pass<Nest>,
) -> (bool, Nested)
    requires holder { HoldsThree site.now holder }
    requires watcher { IsApart site.now watcher }
    requires last { IsApart site.now last }
{
    let pending = sees(site, &mut watcher, INNER, 257);
    let nested = join(
        rt,
        || -> (bool, Result<(), u64>)
            requires holder { HoldsThree site.now holder }
            requires watcher { IsApart site.now watcher }
        { release_behind_gate(site, holder, watcher) },
        || -> (Way, u32, u32)
            requires last { IsApart site.now last }
        { nested_once(rt, site, counts, last) },
    );
    (pending, nested)
}

/// Waits until CPU 1 owns the pending bit of the outer lock; then CPU 3 contends for the inner one.
/// The answer says whether both were seen, and how CPU 3 got its lock.
fn contend_for_inner<R: Threads + Wait + Sync>(
    rt: &R,
    site: &Site<Nest>,
    counts: &Counts,
    holder: Pass<Nest>,
    mut watcher: Pass<Nest>,
    queued: Pass<Nest>,
    inner: Pass<Nest>,
) -> (bool, Nested, Way)
    requires holder { HoldsThree site.now holder }
    requires watcher { IsApart site.now watcher }
    requires queued { IsApart site.now queued }
    requires inner { IsApart site.now inner }
{
    let pending = sees(site, &mut watcher, OUTER, 257);
    let ((also, nested), way) = join(
        rt,
        || -> (bool, Nested)
            requires holder { HoldsThree site.now holder }
            requires watcher { IsApart site.now watcher }
            requires queued { IsApart site.now queued }
        { queue_with_interrupt(rt, site, counts, holder, watcher, queued) },
        || -> Way
            requires inner { IsApart site.now inner }
        { once(rt, site, counts, inner, INNER) },
    );
    (pending && also, nested, way)
}

#[test]
fn a_nested_call_queues_with_its_cpus_next_node(rt: HostRuntime) -> Result<(), Fail> {
    let Held {
        site,
        counts,
        zero,
        one,
        two,
        three,
        four,
    } = open_held(&rt, rt.alloc())?;
    let ((seen, nested, inner), outer) = join(
        &rt,
        || -> (bool, Nested, Way)
            requires holder { HoldsThree site zero }
            requires watcher { IsApart site four }
            requires queued { IsApart site two }
            requires inner { IsApart site three }
        { contend_for_inner(&rt, &site, &counts, zero, four, two, three) },
        || -> Way
            requires outer { IsApart site one }
        { once(&rt, &site, &counts, one, OUTER) },
    );
    assert!(rt; seen);
    assert!(rt; outer == Way::Pending);
    assert!(rt; inner == Way::Pending);
    let ((words, found), (way, depth, nested_depth)) = nested;
    assert!(rt; words);
    // CPU 2 stands at the inner lock with its second node, beside the pending bit.
    assert!(rt; found == Err(6913));
    assert!(rt; (way, depth, nested_depth) == (Way::Queued, 1, 2));
    Ok(())
}

/// Takes the outer lock as often, in the name of a task. Each turn in which it waits takes the inner
/// one: the answer has how often that was.
fn rounds<W: Wait>(
    rt: &W,
    site: &Site<Nest>,
    counts: &Counts,
    pass: &mut Pass<Nest>,
    task: u32,
) -> u64
    requires idle { IsApartIdle site.now pass.old }
    requires there { task < length (plan_of site.now) }
{
    start(rt, site, pass, task);
    let mut irq = Takes {
        counts,
        lock: INNER,
        irq: Quiet,
        depth: 0,
        taken: 0,
    };
    for _ in 0..ROUNDS {
        raise(rt, site, pass, counts, OUTER, &mut irq);
    }
    irq.taken
}

/// Four passes do so at once, in the names of tasks 0 to 3. They are split off the first one. The
/// answer has how often the inner lock was taken.
fn four_at_once<R: Threads + Wait + Sync>(
    rt: &R,
    alloc: Global,
    site: &Site<Nest>,
    counts: &Counts,
    first: &mut Pass<Nest>,
) -> Result<u64, AllocError>
    requires idle { IsApartIdle site.now first.old }
    requires there { 4 ≤ length (plan_of site.now) }
{
    let taken = AtomicU64::new(0);
    let mut passes = Vec::new(alloc);
    for _ in 0..4u32 {
        passes.push(another(site, first))?;
    }
    thread::for_each_mut(
        rt,
        passes.as_mut_slice(),
        4,
        &|task, pass: &mut Pass<Nest>|
            requires idle { IsApartIdle site.now pass.old }
            requires few { task < 4 }
            requires there { 4 ≤ length (plan_of site.now) }
        {
            taken.fetch_add(
                rounds(rt, site, counts, pass, task as u32),
                Ordering::SeqCst,
            );
        },
    );
    Ok(taken.load(Ordering::SeqCst))
}

#[test]
fn interrupts_lose_nothing_of_either_lock_on_four_threads(rt: HostRuntime) -> Result<(), Fail> {
    let plan = Plan::new(rt.alloc(), 4)?;
    let (site, mut first) = Site::<Nest>::open(rt.alloc(), plan)?;
    let counts = no_counts();
    let taken = four_at_once(&rt, rt.alloc(), &site, &counts, &mut first)?;
    assert!(rt; counts[OUTER].load(Ordering::SeqCst) == 4 * u64::from(ROUNDS));
    assert!(rt; counts[INNER].load(Ordering::SeqCst) == taken);
    Ok(())
}
