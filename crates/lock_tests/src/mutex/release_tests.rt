//! By which way a call that waits gets the mutex, whom a release wakes that nobody asked to hand
//! over, and what the passes count of it.
ghost use Rattle.mutex_slow.specs.MutexStanding.{IsHolder, IsReady};

use super::lockers::{Three, lock_and_count, open_free, open_held};
use crate::watched::{NO_TURNS, Watch, WatchedCrew, await_count};
use cpu_task::{Crew, Turns};
use lock_core::{How, Nothing};
use mutex_slow::{Mutex, MutexPass};
use std::alloc::{AllocError, Global};
use std::process::Abort;
use std::sync::Wait;
use std::sync::atomic::{AtomicU64, Ordering};
use std::test::Fail;
use std::thread::{Threads, join};

/// A task spins for so many turns.
const MANY_TURNS: Turns = Turns {
    spin: 100_000_000,
    overdue: 0,
};

/// Releases the mutex once the counter has come so far, lets the waiter wake, and answers how many
/// wake words the pass has set.
fn unlock_behind<'a, W: Wait>(
    rt: &W,
    mutex: &Mutex<Nothing>,
    crew: &WatchedCrew<'a>,
    mut holder: MutexPass<Nothing>,
    counter: &AtomicU64,
    least: u64,
) -> u64
    requires { IsHolder mutex.now holder }
{
    await_count(counter, least);
    mutex.unlock(rt, &mut holder, crew);
    crew.watch.ends.store(1, Ordering::SeqCst);
    holder.wakes()
}

/// How task 1 gets a mutex that task 0 holds until the counter has come so far, how often it has
/// fallen asleep then, and how many wake words the release has set.
fn behind_a_holder<R: Threads + Wait + Sync + Abort>(
    rt: &R,
    alloc: Global,
    watch: &Watch,
    turns: Turns,
    counter: &AtomicU64,
    least: u64,
) -> Result<((How, u64), u64), AllocError> {
    let Three {
        mutex,
        holder,
        waiter,
        ..
    } = open_held(rt, alloc)?;
    let mut crew = WatchedCrew { watch };
    let cpu = crew.cpu(alloc, 1, turns)?;
    Ok(join(
        rt,
        || -> (How, u64)
            requires { IsReady mutex waiter }
        { lock_and_count(rt, &mutex, &crew, cpu, waiter) },
        || -> u64
            requires { IsHolder mutex holder }
        { unlock_behind(rt, &mutex, &crew, holder, counter, least) },
    ))
}

#[test]
fn a_task_that_spins_gets_the_mutex_outside_the_list(rt: HostRuntime) -> Result<(), Fail> {
    let watch = Watch::default();
    let ((how, _dozes), _wakes) = behind_a_holder(
        &rt,
        rt.alloc(),
        &watch,
        MANY_TURNS,
        &watch.asked,
        2,
    )?;
    assert!(rt; how == How::Spun);
    Ok(())
}

#[test]
fn a_release_sets_one_wake_word_and_wakes_the_first_waiter_once(
    rt: HostRuntime,
) -> Result<(), Fail> {
    let watch = Watch::default();
    let ((how, dozes), wakes) = behind_a_holder(
        &rt,
        rt.alloc(),
        &watch,
        NO_TURNS,
        &watch.sleeps,
        1,
    )?;
    assert!(rt; how == How::Slept);
    assert!(rt; dozes >= 1);
    assert!(rt; wakes == 1);
    assert!(rt; watch.wakes.load(Ordering::SeqCst) == 1);
    assert!(rt; watch.woken.load(Ordering::SeqCst) == 2);
    Ok(())
}

// The word has 8 times the task's number plus 1, and no flag.
#[test]
fn a_free_mutex_is_got_by_the_first_try_and_its_release_sets_no_wake_word(
    rt: HostRuntime,
) -> Result<(), Fail> {
    let Three {
        mutex,
        holder: mut one,
        waiter: mut two,
        ..
    } = open_free(&rt, rt.alloc())?;
    let watch = Watch::default();
    let mut crew = WatchedCrew { watch: &watch };
    let mut cpu = crew.cpu(rt.alloc(), 0, NO_TURNS)?;
    assert!(rt; mutex.lock(&rt, &mut one, &mut cpu, &crew) == How::Fast);
    assert!(rt; mutex.trylock(&rt, &mut two) == Err(8));
    assert!(rt; mutex.trylock_once(&mut two) == Err(8));
    mutex.unlock(&rt, &mut one, &crew);
    assert!(rt; one.wakes() == 0);
    assert!(rt; one.dozes() == 0);
    assert!(rt; watch.wakes.load(Ordering::SeqCst) == 0);
    assert!(rt; mutex.trylock_once(&mut two).is_ok());
    mutex.recall(&mut one);
    Ok(())
}
