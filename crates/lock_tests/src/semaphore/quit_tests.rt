//! What no clause says: a signal that came before ends a wait for a semaphore before the task
//! sleeps, and the task leaves the list. Who releases then sets no wake word.
ghost use Rattle.std.specs.Prelude.{◌≡◌, None};
ghost use Rattle.lock_core.specs.Nothings.{nothing};
ghost use Rattle.lock_core.specs.Records.{IsPlan};
ghost use Rattle.rwsem_slow.specs.RwSemHandles.{hand_in, plan_of};
ghost use Rattle.rwsem_slow.specs.RwSemStanding.{IsReady};

use super::pairs::{Pair, Way, open_pair};
use crate::watched::{NO_TURNS, Watch, WatchedCrew};
use cpu_task::Crew;
use lock_core::{Interrupted, Nothing, SiteLock};
use rwsem_slow::{RwPass, RwSem};
use std::sync::atomic::Ordering;
use std::test::Fail;
use word_bits::MAX_TASKS;

/// Sends the signal that the next call of the pass's task is, and answers its target. `None` where
/// that call is no signal to a task.
pub fn send(sem: &RwSem<Nothing>, pass: &mut RwPass<Nothing>) -> Option<u32>
    requires ready { IsReady sem.now pass.old }
    requires planned { IsPlan nothing (plan_of sem.now) }
    requires unsent { (hand_in pass.old).sent ≡ None }
    ensures { IsReady sem.now pass.new }
{
    let task = sem.task(pass)?;
    let call = sem.done(pass);
    if task >= sem.tasks() || call >= sem.calls(task) {
        return None;
    }
    let target = sem.call(pass, task, call).signal()?;
    if target >= MAX_TASKS {
        return None;
    }
    sem.signal(pass, target);
    Some(target)
}

#[test]
fn a_task_that_a_signal_ended_is_woken_by_nobody(rt: HostRuntime) -> Result<(), Fail> {
    for way in [Way::Shared, Way::Alone] {
        let Pair {
            sem,
            mut holder,
            mut waiter,
        } = open_pair(&rt, rt.alloc())?;
        let watch = Watch::default();
        let mut crew = WatchedCrew { watch: &watch };
        let mut cpu = crew.cpu(rt.alloc(), 1, NO_TURNS)?;
        assert!(rt; send(&sem, &mut holder) == Some(1), "{way:?}");
        assert!(rt; sem.down_write_trylock(&mut holder).is_ok(), "{way:?}");
        let ended = match way {
            Way::Shared => sem.down_read_interruptible(&rt, &mut waiter, &mut cpu, &crew),
            Way::Alone => sem.down_write_interruptible(&rt, &mut waiter, &mut cpu, &crew),
        };
        assert!(rt; ended == Err(Interrupted { sent: 1, taken: 0 }), "{way:?}");
        assert!(rt; watch.sleeps.load(Ordering::SeqCst) == 0, "{way:?}");
        sem.up_write(&rt, &mut holder, &crew);
        assert!(rt; holder.wakes() == 0, "{way:?}");
        assert!(rt; waiter.dozes() == 0, "{way:?}");
    }
    Ok(())
}
