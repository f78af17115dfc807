//! What no clause says: a signal that came before ends a wait for a mutex before the task sleeps,
//! and the task leaves the list. Who releases then sets no wake word.
ghost use Rattle.std.specs.Prelude.{◌≡◌, None};
ghost use Rattle.lock_core.specs.Nothings.{nothing};
ghost use Rattle.lock_core.specs.Records.{IsPlan};
ghost use Rattle.mutex_slow.specs.MutexHandles.{hand_in, plan_of};
ghost use Rattle.mutex_slow.specs.MutexStanding.{IsReady};

use super::lockers::{Three, open_free};
use crate::watched::{NO_TURNS, Watch, WatchedCrew};
use cpu_task::Crew;
use lock_core::{Interrupted, Nothing, SiteLock};
use mutex_slow::{Mutex, MutexPass};
use std::sync::atomic::Ordering;
use std::test::Fail;
use word_bits::MAX_TASKS;

/// Sends the signal that the next call of the pass's task is, and answers its target. `None` where
/// that call is no signal to a task.
fn send(mutex: &Mutex<Nothing>, pass: &mut MutexPass<Nothing>) -> Option<u32>
    requires ready { IsReady mutex.now pass.old }
    requires planned { IsPlan nothing (plan_of mutex.now) }
    requires unsent { (hand_in pass.old).sent ≡ None }
    ensures { IsReady mutex.now pass.new }
{
    let task = mutex.task(pass)?;
    let call = mutex.done(pass);
    if task >= mutex.tasks() || call >= mutex.calls(task) {
        return None;
    }
    let target = mutex.call(pass, task, call).signal()?;
    if target >= MAX_TASKS {
        return None;
    }
    mutex.signal(pass, target);
    Some(target)
}

#[test]
fn a_signal_that_came_before_ends_the_wait_without_a_sleep_and_nobody_waits_then(
    rt: HostRuntime,
) -> Result<(), Fail> {
    let Three {
        mutex,
        mut holder,
        mut waiter,
        mut other,
    } = open_free(&rt, rt.alloc())?;
    let watch = Watch::default();
    let mut crew = WatchedCrew { watch: &watch };
    let mut cpu = crew.cpu(rt.alloc(), 1, NO_TURNS)?;
    assert!(rt; send(&mutex, &mut holder) == Some(1));
    assert!(rt; mutex.trylock_once(&mut holder).is_ok());
    assert!(rt;
        mutex.lock_interruptible(&rt, &mut waiter, &mut cpu, &crew)
            == Err(Interrupted { sent: 1, taken: 0 })
    );
    assert!(rt; watch.sleeps.load(Ordering::SeqCst) == 0);
    assert!(rt; mutex.trylock_once(&mut other) == Err(8));
    mutex.unlock(&rt, &mut holder, &crew);
    assert!(rt; holder.wakes() == 0);
    assert!(rt; waiter.dozes() == 0);
    Ok(())
}
