//! Wakes on threads, and a gate that a task alone misses.
use cpu_task::{Cpu, Crew, Gate, HoldGate, ParkCrew, Turns};
use std::sync::Wait;
use std::sync::atomic::{AtomicBool, Ordering};
use std::test::Fail;
use std::thread::{Threads, join};

const TURNS: Turns = Turns {
    spin: 100,
    overdue: 4,
};

/// One thread sleeps, and another raises a flag before it wakes the task. Answers whether the flag
/// was up after the sleep.
fn sleeps_until_woken<R: Threads + Wait + Sync, C: Crew<C: Send> + Sync>(
    rt: &R,
    crew: &C,
    cpu: &mut C::C,
    task: u32,
) -> bool {
    let raised = AtomicBool::new(false);
    let (seen, ()) = join(
        rt,
        || {
            cpu.sleep(rt);
            raised.load(Ordering::SeqCst)
        },
        || {
            raised.store(true, Ordering::SeqCst);
            crew.wake(task);
        },
    );
    seen
}

#[test]
fn a_wake_ends_the_sleep_of_the_last_cpu(rt: HostRuntime) -> Result<(), Fail> {
    let mut crew = ParkCrew::new(rt.alloc(), 2)?;
    let _replaced = crew.cpu(rt.alloc(), 1, TURNS)?;
    let mut cpu = crew.cpu(rt.alloc(), 1, TURNS)?;
    let _without_place = crew.cpu(rt.alloc(), 2, TURNS)?;
    for task in [0, 2] {
        crew.wake(task);
    }
    for round in 0..3 {
        assert!(rt;
            sleeps_until_woken(&rt, &crew, &mut cpu, 1),
            "round {round}"
        );
    }
    Ok(())
}

#[test]
fn a_gate_is_missed_for_good_by_a_task_alone(rt: HostRuntime) {
    let gate = HoldGate::new(3, 2, 5);
    gate.inside(&rt, 3, 0, false);
    gate.inside(&rt, 4, 0, true);
    assert!(rt; (gate.count(), gate.met()) == (0, false));
    gate.inside(&rt, 3, 0, true);
    assert!(rt; (gate.count(), gate.met()) == (1, false));
    gate.inside(&rt, 3, 1, true);
    assert!(rt; (gate.count(), gate.met()) == (2, false));
    // Who comes last doesn't turn.
    let last = HoldGate::new(3, 1, 0);
    last.inside(&rt, 3, 0, true);
    assert!(rt; (last.count(), last.met()) == (1, true));
}
