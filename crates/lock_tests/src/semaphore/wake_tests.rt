//! Whom a release of a semaphore wakes, and what the passes count of it.
ghost use Rattle.std.specs.Prelude.{◌≡◌, false};
ghost use Rattle.lock_core.specs.Nothings.{nothing};
ghost use Rattle.lock_core.specs.Records.{IsPlan};
ghost use Rattle.rwsem_slow.specs.RwSemHandles.{hand_in, plan_of, SitsAt};
ghost use Rattle.rwsem_slow.specs.RwSemStanding.{IsReady};

use super::pairs::{Pair, Way, open_pair};
use crate::watched::{NO_TURNS, Watch, WatchedCrew, await_count};
use cpu_task::Crew;
use lock_core::{Held, How, Nothing, SiteLock};
use rwsem_slow::{RwPass, RwSem};
use std::alloc::{AllocError, Global};
use std::process::Abort;
use std::sync::Wait;
use std::sync::atomic::Ordering;
use std::test::Fail;
use std::thread::{Threads, join};

/// How a task holds a semaphore until another one sleeps, and then releases it.
#[derive(Clone, Copy, Debug, PartialEq, Eq)]
enum Hold {
    Reader,
    Writer,
    /// A writer that becomes a reader before it releases.
    Downgrader,
}

/// Takes a free semaphore for such a hold.
fn take_free<R: Wait + Abort>(
    rt: &R,
    sem: &RwSem<Nothing>,
    mut pass: RwPass<Nothing>,
    hold: Hold,
) -> RwPass<Nothing>
    requires { IsReady sem.now pass }
    ensures own { SitsAt sem.now result }
    ensures quiet { (hand_in result).writes ≡ false }
{
    if hold == Hold::Reader {
        assert!(rt; sem.down_read_trylock(rt, &mut pass).is_ok());
        return pass;
    }
    assert!(rt; sem.down_write_trylock(&mut pass).is_ok());
    pass
}

/// Releases the semaphore once a task sleeps for the first time, and lets that task wake. Answers
/// how many wake words the pass has set in front of its last call, and behind it.
fn release_behind_sleeper<'a, W: Wait>(
    rt: &W,
    sem: &RwSem<Nothing>,
    crew: &WatchedCrew<'a>,
    mut pass: RwPass<Nothing>,
    hold: Hold,
) -> [u64; 2]
    requires own { SitsAt sem.now pass }
    requires planned { IsPlan nothing (plan_of sem.now) }
    requires quiet { (hand_in pass).writes ≡ false }
{
    await_count(&crew.watch.sleeps, 1);
    let mut before = pass.wakes();
    match sem.held(&pass) {
        Held::Shared => sem.up_read(rt, &mut pass, crew),
        Held::Alone => {
            if hold == Hold::Downgrader {
                sem.downgrade_write(rt, &mut pass, crew);
                before = pass.wakes();
                sem.up_read(rt, &mut pass, crew);
            } else {
                sem.up_write(rt, &mut pass, crew);
            }
        }
        Held::No => {}
    }
    crew.watch.ends.store(1, Ordering::SeqCst);
    [before, pass.wakes()]
}

/// How the pass's task gets the semaphore in this way, and how often it has fallen asleep then.
fn take_and_count<W: Wait, C: Crew>(
    rt: &W,
    sem: &RwSem<Nothing>,
    crew: &C,
    mut cpu: C::C,
    mut pass: RwPass<Nothing>,
    way: Way,
) -> (How, u64)
    requires { IsReady sem.now pass }
{
    let how = match way {
        Way::Shared => sem.down_read(rt, &mut pass, &mut cpu, crew),
        Way::Alone => sem.down_write(rt, &mut pass, &mut cpu, crew),
    };
    (how, pass.dozes())
}

/// How task 1 gets a semaphore in this way that task 0 holds until it sleeps, how often it has
/// fallen asleep then, and how many wake words task 0 has set before its last call and after it.
fn behind_a_hold<R: Threads + Wait + Sync + Abort>(
    rt: &R,
    alloc: Global,
    watch: &Watch,
    held: Hold,
    way: Way,
) -> Result<((How, u64), [u64; 2]), AllocError> {
    let Pair {
        sem,
        holder,
        waiter,
    } = open_pair(rt, alloc)?;
    let mut crew = WatchedCrew { watch };
    let cpu = crew.cpu(alloc, 1, NO_TURNS)?;
    let holder = take_free(rt, &sem, holder, held);
    Ok(join(
        rt,
        || -> (How, u64)
            requires { IsReady sem waiter }
        { take_and_count(rt, &sem, &crew, cpu, waiter, way) },
        || -> [u64; 2]
            requires own { SitsAt sem holder }
            requires planned { IsPlan nothing (plan_of sem) }
            requires quiet { (hand_in holder).writes ≡ false }
        { release_behind_sleeper(rt, &sem, &crew, holder, held) },
    ))
}

// A downgrade wakes a reader, and leaves a writer to the last reader's release.
#[test]
fn each_hold_sets_one_wake_word_and_wakes_the_task_that_sleeps(
    rt: HostRuntime,
) -> Result<(), Fail> {
    for (hold, way, set) in [
        (Hold::Writer, Way::Shared, [0, 1]),
        (Hold::Writer, Way::Alone, [0, 1]),
        (Hold::Reader, Way::Alone, [0, 1]),
        (Hold::Downgrader, Way::Shared, [1, 1]),
        (Hold::Downgrader, Way::Alone, [0, 1]),
    ] {
        let watch = Watch::default();
        let ((how, dozes), wakes) = behind_a_hold(&rt, rt.alloc(), &watch, hold, way)?;
        assert!(rt; how == How::Slept, "{hold:?} {way:?}");
        assert!(rt; dozes >= 1, "{hold:?} {way:?}");
        assert!(rt; wakes == set, "{hold:?} {way:?}");
        assert!(rt; watch.wakes.load(Ordering::SeqCst) == 1, "{hold:?} {way:?}");
        assert!(rt; watch.woken.load(Ordering::SeqCst) == 2, "{hold:?} {way:?}");
    }
    Ok(())
}

#[test]
fn releases_that_nobody_waits_for_set_no_wake_word(rt: HostRuntime) -> Result<(), Fail> {
    let Pair {
        sem,
        mut holder,
        ..
    } = open_pair(&rt, rt.alloc())?;
    let watch = Watch::default();
    let mut crew = WatchedCrew { watch: &watch };
    let mut cpu = crew.cpu(rt.alloc(), 0, NO_TURNS)?;
    assert!(rt; sem.down_write(&rt, &mut holder, &mut cpu, &crew) == How::Fast);
    sem.up_write(&rt, &mut holder, &crew);
    assert!(rt; sem.down_read(&rt, &mut holder, &mut cpu, &crew) == How::Fast);
    sem.up_read(&rt, &mut holder, &crew);
    assert!(rt; holder.wakes() == 0);
    assert!(rt; holder.dozes() == 0);
    assert!(rt; watch.wakes.load(Ordering::SeqCst) == 0);
    Ok(())
}
