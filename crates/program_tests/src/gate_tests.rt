//! Who is inside an object with whom, and in which order, by gates.
use crate::runs::run;
use cpu_task::{Gate, HoldGate};
use mm_program::Status;
use std::sync::Wait;
use std::sync::atomic::{AtomicU32, Ordering};
use std::test::Fail;

/// Keeps the tasks 0 and 1 inside the objects of their numbers until both are there.
#[derive(Default, Drop)]
struct BothInside {
    came: AtomicU32,
    met: AtomicU32,
}

impl Gate for BothInside {
    fn inside<R: Wait>(&self, _rt: &R, object: u32, task: u32, _shared: bool) {
        if object > 1 || object != task {
            return;
        }
        let _ = self.came.fetch_or(1 << object, Ordering::SeqCst);
        for _ in 0..100_000_000 {
            if self.came.load(Ordering::SeqCst) == 3 {
                let _ = self.met.fetch_or(1 << object, Ordering::SeqCst);
                return;
            }
        }
    }
}

/// Notes the objects that a single task is inside of, one decimal digit each, the last one last.
#[derive(Default, Drop)]
struct Route {
    taken: AtomicU32,
}

impl Gate for Route {
    fn inside<R: Wait>(&self, _rt: &R, object: u32, _task: u32, _shared: bool) {
        let taken = self.taken.load(Ordering::SeqCst) % 1_000_000;
        self.taken.store(taken * 10 + object % 10, Ordering::SeqCst);
    }
}

#[test]
fn two_tasks_are_inside_a_space_at_once(rt: HostRuntime) -> Result<(), Fail> {
    let gate = HoldGate::new(0, 2, 100_000_000);
    let script = "space a\ntask\na fault 5 r\ntask\na fault 6 r\n";
    let (status, _, text) = run(&rt, rt.alloc(), &[], script, &[], 1000, &gate)?;
    assert!(rt; (status, gate.met()) == (Status::Done, true));
    let expected = "space a\n0.0 fault 5 r = maperr\n1.0 fault 6 r = maperr\nleft 0\n";
    assert!(rt; text.as_slice() == expected.as_bytes());
    Ok(())
}

#[test]
fn two_tasks_are_inside_two_tables_at_once(rt: HostRuntime) -> Result<(), Fail> {
    let gate = BothInside::default();
    let script = "table f\ntable g\ntask\nf open 7\ntask\ng open 8\n";
    let (status, _, text) = run(&rt, rt.alloc(), &[], script, &[], 1000, &gate)?;
    assert!(rt; status == Status::Done);
    assert!(rt; gate.met.load(Ordering::SeqCst) == 3);
    let expected = "table f\n0.0 open 7 = 0\nleft 1\n0 7\ntable g\n1.0 open 8 = 0\nleft 1\n0 8\n";
    assert!(rt; text.as_slice() == expected.as_bytes());
    Ok(())
}

// The copies of the histories follow the calls, and no gate is asked at them.
#[test]
fn one_task_goes_from_table_to_table_in_its_order(rt: HostRuntime) -> Result<(), Fail> {
    let gate = Route::default();
    let script =
        "table f\ntable g\ntable h\ntask\ng open 7\nh open 8\nh get 0\nf open 9\ng get 0\n";
    let (status, _, _) = run(&rt, rt.alloc(), &["--summary"], script, &[], 1000, &gate)?;
    assert!(rt; status == Status::Done);
    assert!(rt; gate.taken.load(Ordering::SeqCst) == 12_201);
    Ok(())
}
