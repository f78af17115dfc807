//! What no clause says: how the calls of a lock go that several contend for, and on threads.
ghost use Rattle.std.specs.Prelude.{◌<◌, ◌≤◌, length, IfOk, OnOk};
ghost use Rattle.lock_core.specs.SiteHandles.{plan_of};
ghost use Rattle.qspin_queue.specs.SpinQueueHandles.{IsReady, IsHolder, IsIdle};

use lock_core::{Bare, Pass, Plan, Site};
use qspin_queue::{Way, lock, recall_spin_lock};
use qspin_word::{trylock, unlock};
use std::alloc::{AllocError, Global};
use std::sync::Wait;
use std::test::Fail;
use std::thread::{self, Threads, join};

/// Many rounds for each of four threads.
const ROUNDS: u32 = 10_000;

/// As often a pass tries before it gives up.
const TRIES: u32 = 100_000_000;

/// A lock, and the passes of its four CPUs.
#[derive(Drop)]
struct Opened {
    site: Site<Bare>,
    zero: Pass<Bare>,
    one: Pass<Bare>,
    two: Pass<Bare>,
    three: Pass<Bare>,
}

/// A new lock, on which the tasks of four CPUs have begun.
fn open_four(rt: &impl Wait, alloc: Global) -> Result<Opened, AllocError>
    ensures zero { IfOk result (λ o. IsReady o.site o.zero) }
    ensures one { IfOk result (λ o. IsReady o.site o.one) }
    ensures two { IfOk result (λ o. IsReady o.site o.two) }
    ensures three { IfOk result (λ o. IsReady o.site o.three) }
{
    let plan = Plan::new(alloc, 4)?;
    let (site, mut zero) = Site::<Bare>::open(alloc, plan)?;
    let mut one = site.split(&mut zero);
    let mut two = site.split(&mut zero);
    let mut three = site.split(&mut zero);
    site.begin(rt, &mut zero, 0);
    site.begin(rt, &mut one, 1);
    site.begin(rt, &mut two, 2);
    site.begin(rt, &mut three, 3);
    Ok(Opened {
        site,
        zero,
        one,
        two,
        three,
    })
}

#[test]
fn the_first_comer_is_fast_and_the_second_is_told_the_word(rt: HostRuntime) -> Result<(), Fail> {
    let Opened {
        site,
        mut zero,
        mut one,
        two: _,
        three: _,
    } = open_four(&rt, rt.alloc())?;
    assert!(rt; lock(&site, &rt, &mut zero) == Way::Fast);
    assert!(rt; trylock(&site, &mut one) == Err(1));
    unlock(&site, &mut zero);
    assert!(rt; trylock(&site, &mut one).is_ok());
    recall_spin_lock(&site, &mut zero);
    Ok(())
}

/// Takes and releases the lock as often, in the name of a task.
fn rounds<W: Wait>(rt: &W, site: &Site<Bare>, pass: &mut Pass<Bare>, task: u32)
    requires idle { IsIdle site.now pass.old }
    requires there { task < length (plan_of site.now) }
{
    site.begin(rt, pass, task);
    for _ in 0..ROUNDS {
        lock(site, rt, pass);
        unlock(site, pass);
    }
    site.end(pass);
}

/// Four passes do so at once, in the names of tasks 0 to 3. They are split off the first one.
fn four_at_once<R: Threads + Wait + Sync>(
    rt: &R,
    alloc: Global,
    site: &Site<Bare>,
    first: &mut Pass<Bare>,
) -> Result<(), AllocError>
    requires idle { IsIdle site.now first.old }
    requires there { 4 ≤ length (plan_of site.now) }
    ensures { OnOk result (IsIdle site.now first.new) }
{
    let mut passes = Vec::new(alloc);
    for _ in 0..4u32 {
        passes.push(site.split(first))?;
    }
    thread::for_each_mut(
        rt,
        passes.as_mut_slice(),
        4,
        &|task, pass: &mut Pass<Bare>|
            requires idle { IsIdle site.now pass.old }
            requires few { task < 4 }
            requires there { 4 ≤ length (plan_of site.now) }
        { rounds(rt, site, pass, task as u32) },
    );
    Ok(())
}

#[test]
fn four_threads_take_and_release_it_10_000_times_each(rt: HostRuntime) -> Result<(), Fail> {
    let plan = Plan::new(rt.alloc(), 4)?;
    let (site, mut pass) = Site::<Bare>::open(rt.alloc(), plan)?;
    assert!(rt; site.tasks() == 4);
    four_at_once(&rt, rt.alloc(), &site, &mut pass)?;
    site.begin(&rt, &mut pass, 0);
    assert!(rt; trylock(&site, &mut pass).is_ok());
    Ok(())
}

/// Takes the lock and releases it.
fn once<W: Wait>(rt: &W, site: &Site<Bare>, mut pass: Pass<Bare>) -> (Way, Pass<Bare>)
    requires { IsReady site.now pass }
    ensures { IsReady site.now result.1 }
{
    let way = lock(site, rt, &mut pass);
    unlock(site, &mut pass);
    (way, pass)
}

/// Tries until the word is seen, and says whether it was.
fn sees(site: &Site<Bare>, pass: &mut Pass<Bare>, word: u64) -> bool
    requires { IsReady site.now pass.old }
    ensures { IsReady site.now pass.new }
{
    for _ in 0..TRIES {
        match trylock(site, pass) {
            Ok(()) => unlock(site, pass),
            Err(seen) => if seen == word {
                return true;
            },
        }
    }
    false
}

/// Waits until CPU 3 stands in the queue, and releases the lock of CPU 0.
fn release_before_queue(
    site: &Site<Bare>,
    mut holder: Pass<Bare>,
    mut watcher: Pass<Bare>,
) -> (bool, Pass<Bare>, Pass<Bare>)
    requires holder { IsHolder site.now holder }
    requires watcher { IsReady site.now watcher }
    ensures holder { IsReady site.now result.1 }
    ensures watcher { IsReady site.now result.2 }
{
    let queued = sees(site, &mut watcher, 8449);
    unlock(site, &mut holder);
    (queued, holder, watcher)
}

/// Waits until CPU 1 owns the pending bit, and then for CPU 3 beside CPU 2.
fn pending_then_queued<R: Threads + Wait + Sync>(
    rt: &R,
    site: &Site<Bare>,
    holder: Pass<Bare>,
    mut watcher: Pass<Bare>,
    last: Pass<Bare>,
) -> (bool, bool, Way)
    requires holder { IsHolder site.now holder }
    requires watcher { IsReady site.now watcher }
    requires last { IsReady site.now last }
{
    let pending = sees(site, &mut watcher, 257);
    let ((queued, _holder, _watcher), (way, _last)) = join(
        rt,
        || -> (bool, Pass<Bare>, Pass<Bare>)
            requires holder { IsHolder site.now holder }
            requires watcher { IsReady site.now watcher }
        { release_before_queue(site, holder, watcher) },
        || -> (Way, Pass<Bare>)
            requires last { IsReady site.now last }
        { once(rt, site, last) },
    );
    (pending, queued, way)
}

/// CPU 0 holds, CPU 1 contends beside the others: what they saw, and how CPUs 1 and 3 got the lock.
fn contend<R: Threads + Wait + Sync>(
    rt: &R,
    site: &Site<Bare>,
    holder: Pass<Bare>,
    second: Pass<Bare>,
    watcher: Pass<Bare>,
    last: Pass<Bare>,
) -> ((bool, bool, Way), Way)
    requires holder { IsHolder site.now holder }
    requires second { IsReady site.now second }
    requires watcher { IsReady site.now watcher }
    requires last { IsReady site.now last }
{
    let (rest, (way, _second)) = join(
        rt,
        || -> (bool, bool, Way)
            requires holder { IsHolder site.now holder }
            requires watcher { IsReady site.now watcher }
            requires last { IsReady site.now last }
        { pending_then_queued(rt, site, holder, watcher, last) },
        || -> (Way, Pass<Bare>)
            requires second { IsReady site.now second }
        { once(rt, site, second) },
    );
    (rest, way)
}

#[test]
fn contenders_go_by_the_pending_bit_and_then_by_the_queue(rt: HostRuntime) -> Result<(), Fail> {
    let Opened {
        site,
        mut zero,
        one,
        two,
        three,
    } = open_four(&rt, rt.alloc())?;
    assert!(rt; lock(&site, &rt, &mut zero) == Way::Fast);
    let seen = contend(&rt, &site, zero, one, two, three);
    assert!(rt; seen == ((true, true, Way::Queued), Way::Pending));
    Ok(())
}
