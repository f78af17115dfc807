//! What a third task is told while a mutex is handed over on threads.
ghost use Rattle.mutex_slow.specs.MutexStanding.{IsHolder, IsReady};

use super::lockers::{Three, lock_and_count, open_held};
use crate::watched::{NO_TURNS, Watch, WatchedCrew, await_count};
use cpu_task::Crew;
use lock_core::{How, Nothing};
use mutex_slow::{Mutex, MutexPass};
use std::sync::Wait;
use std::sync::atomic::Ordering;
use std::test::Fail;
use std::thread::{Threads, join};

/// What a try is told. Where it takes, the mutex is released again.
fn told<W: Wait, C: Crew>(
    rt: &W,
    mutex: &Mutex<Nothing>,
    crew: &C,
    pass: &mut MutexPass<Nothing>,
) -> Result<(), u64>
    requires { IsReady mutex.now pass.old }
    ensures { IsReady mutex.now pass.new }
{
    let answer = mutex.trylock(rt, pass);
    if answer.is_ok() {
        mutex.unlock(rt, pass, crew);
    }
    answer
}

/// What another task is told while the waiter sleeps for the first time, while it sleeps for the
/// second time, and once the holder has released. The waiter takes only after that.
fn hand_over<W: Wait, C: Crew>(
    rt: &W,
    mutex: &Mutex<Nothing>,
    crew: &C,
    watch: &Watch,
    mut holder: MutexPass<Nothing>,
    mut other: MutexPass<Nothing>,
) -> (MutexPass<Nothing>, [Result<(), u64>; 3])
    requires holder { IsHolder mutex.now holder }
    requires other { IsReady mutex.now other }
    ensures { IsReady mutex.now result.0 }
{
    await_count(&watch.sleeps, 1);
    let waits = told(rt, mutex, crew, &mut other);
    // The waiter asks for the handoff, tries once more in vain, and sleeps.
    watch.ends.store(1, Ordering::SeqCst);
    await_count(&watch.sleeps, 2);
    let asks = told(rt, mutex, crew, &mut other);
    mutex.unlock(rt, &mut holder, crew);
    let picked = told(rt, mutex, crew, &mut other);
    watch.ends.store(2, Ordering::SeqCst);
    (other, [waits, asks, picked])
}

/// One task waits, and is handed the mutex. Gives how it got it, the pass of another task, and what
/// that task was told meanwhile.
fn wait_and_hand_over<R: Threads + Wait + Sync, C: Crew<C: Send> + Sync>(
    rt: &R,
    mutex: &Mutex<Nothing>,
    crew: &C,
    cpu: C::C,
    watch: &Watch,
    passes: (MutexPass<Nothing>, MutexPass<Nothing>, MutexPass<Nothing>),
) -> (How, MutexPass<Nothing>, [Result<(), u64>; 3])
    requires holder { IsHolder mutex.now passes.0 }
    requires waiter { IsReady mutex.now passes.1 }
    requires other { IsReady mutex.now passes.2 }
    ensures { IsReady mutex.now result.1 }
{
    let (holder, waiter, other) = passes;
    let (locked, seen) = join(
        rt,
        || -> (How, u64)
            requires { IsReady mutex.now waiter }
        { lock_and_count(rt, mutex, crew, cpu, waiter) },
        || -> (MutexPass<Nothing>, [Result<(), u64>; 3])
            requires holder { IsHolder mutex.now holder }
            requires other { IsReady mutex.now other }
            ensures { IsReady mutex.entry.now result.0 }
        { hand_over(rt, mutex, crew, watch, holder, other) },
    );
    let (how, _dozes) = locked;
    let (pass, words) = seen;
    (how, pass, words)
}

// A word has the flags waiters 1, handoff 2 and pickup 4, and 8 times the task's number plus 1.
#[test]
fn a_third_task_is_told_of_the_handoff(rt: HostRuntime) -> Result<(), Fail> {
    let Three {
        mutex,
        holder,
        waiter,
        other,
    } = open_held(&rt, rt.alloc())?;
    let watch = Watch::default();
    let mut crew = WatchedCrew { watch: &watch };
    let cpu = crew.cpu(rt.alloc(), 1, NO_TURNS)?;
    let (how, mut other, words) = wait_and_hand_over(
        &rt,
        &mutex,
        &crew,
        cpu,
        &watch,
        (holder, waiter, other),
    );
    assert!(rt; how == How::Slept);
    assert!(rt; words == [Err(9), Err(11), Err(21)]);
    // The waiter has taken, and left the list empty.
    assert!(rt; mutex.trylock_once(&mut other) == Err(16));
    assert!(rt; watch.wakes.load(Ordering::SeqCst) == 1);
    assert!(rt; watch.woken.load(Ordering::SeqCst) == 2);
    Ok(())
}
