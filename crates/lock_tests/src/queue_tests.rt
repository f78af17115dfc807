//! What no clause says: passes that hand the head of a spin queue on.
ghost use Rattle.std.specs.Prelude.{◌≡◌, Some};
ghost use Rattle.osq_nodes.specs.declared.node.Place.TheVariants.{Waiting, Head};
ghost use Rattle.osq_nodes.specs.OsqHandles.{place_in, task_in, SitsAt};

use osq_nodes::{Osq, OsqPass, steps};
use std::sync::Wait;
use std::test::Fail;
use std::thread::{Threads, join};

/// Waits until the pass is granted, and unlocks.
fn pass_on<W: Wait>(rt: &W, osq: &Osq, mut pass: OsqPass, task: u32) -> u32
    requires own { SitsAt osq.now pass }
    requires mine { task_in pass ≡ Some task }
    requires waits { place_in pass ≡ Waiting }
{
    for _ in rt.forever() {
        if steps::is_granted(osq, &mut pass, task) {
            osq.unlock(rt, &mut pass);
            return task;
        }
    }
    unreachable!()
}

fn unlock_beside<R: Threads + Wait + Sync>(
    rt: &R,
    osq: &Osq,
    front: OsqPass,
    next: OsqPass,
) -> (u32, u32)
    requires front { SitsAt osq.now front }
    requires zero { task_in front ≡ Some 0 }
    requires first { place_in front ≡ Head }
    requires next { SitsAt osq.now next }
    requires one { task_in next ≡ Some 1 }
    requires waits { place_in next ≡ Waiting }
{
    join(
        rt,
        || -> u32
            requires own { SitsAt osq.now front }
            requires zero { task_in front ≡ Some 0 }
            requires first { place_in front ≡ Head }
        {
            let mut front = front;
            osq.unlock(rt, &mut front);
            0
        },
        || -> u32
            requires own { SitsAt osq.now next }
            requires one { task_in next ≡ Some 1 }
            requires waits { place_in next ≡ Waiting }
        { pass_on(rt, osq, next, 1) },
    )
}

#[test]
fn passes_on_threads_are_granted_in_the_order_of_entering(rt: HostRuntime) -> Result<(), Fail> {
    let (osq, mut zero) = Osq::open(rt.alloc(), 4)?;
    let mut one = osq.split(&mut zero);
    let mut two = osq.split(&mut zero);
    let mut three = osq.split(&mut zero);
    osq.begin(&rt, &mut zero, 0);
    osq.begin(&rt, &mut one, 1);
    osq.begin(&rt, &mut two, 2);
    osq.begin(&rt, &mut three, 3);
    osq.wait(&rt, &mut zero);
    assert!(rt; osq.enter(&mut one, 1) == Some(0));
    assert!(rt; osq.enter(&mut two, 2) == Some(1));
    assert!(rt; !steps::is_granted(&osq, &mut two, 2));
    assert!(rt; unlock_beside(&rt, &osq, zero, one) == (0, 1));
    assert!(rt; steps::is_granted(&osq, &mut two, 2));
    osq.unlock(&rt, &mut two);
    assert!(rt; two.task() == Some(2));
    osq.recall_queue(&mut two);
    osq.end(&mut two);
    assert!(rt; osq.enter(&mut three, 3).is_none());
    osq.unlock(&rt, &mut three);
    osq.gather(&mut three, two);
    Ok(())
}

#[test]
fn a_queue_may_be_for_no_task(rt: HostRuntime) -> Result<(), Fail> {
    let (osq, mut pass) = Osq::open(rt.alloc(), 0)?;
    osq.recall_queue(&mut pass);
    assert!(rt; pass.task().is_none());
    Ok(())
}
