//! A task that tries for a semaphore which a writer holds while a reader sleeps, on threads.

use cpu_task::{Gate, ParkCrew};
use lock_core::Tally;
use plan_runs::at_once::{SOON_OWED, Start, history_of_all};
use plan_runs::plans::{fault_page, map_page, plan_with, try_fault_page};
use plan_runs::signs::{CountedCrew, KIND, VALUE, await_count, await_flag};
use rwsem_slow::RwSem;
use std::sync::Wait;
use std::sync::atomic::{AtomicBool, AtomicU32, Ordering};
use std::test::Fail;
use vma_map::Areas;

/// Keeps task 0 inside until task 2 has done its calls. Task 1 begins once task 0 is inside, and
/// task 2 once a task sleeps.
#[derive(Default, Drop)]
struct BehindSleeper {
    inside: AtomicBool,
    slept: AtomicU32,
    tried: AtomicBool,
}

impl Gate for BehindSleeper {
    fn inside<R: Wait>(&self, _rt: &R, _object: u32, task: u32, _shared: bool) {
        if task == 0 {
            self.inside.store(true, Ordering::SeqCst);
            await_flag(&self.tried);
        }
    }
}

impl Start for BehindSleeper {
    fn begins(&self, task: u32) {
        match task {
            1 => await_flag(&self.inside),
            2 => await_count(&self.slept, 1),
            _ => {}
        }
    }

    fn ended(&self, task: u32, _tally: Tally) {
        if task == 2 {
            self.tried.store(true, Ordering::SeqCst);
        }
    }
}

// The count that the try finds has the writer's bit, and the flag of the reader that has left its
// bias and stands in the list. The reader goes on once the writer lets go.
#[test]
fn a_try_behind_a_writer_is_told_of_a_reader_that_sleeps(rt: HostRuntime) -> Result<(), Fail> {
    let plan = plan_with::<Areas>(
        rt.alloc(),
        4,
        [
            (0, 1, map_page(5)),
            (1, 1, fault_page(5)),
            (2, 1, try_fault_page(5)),
        ]
        .as_slice(),
    )?;
    let gate = BehindSleeper::default();
    let crew = CountedCrew {
        crew: ParkCrew::new(rt.alloc(), 4)?,
        slept: &gate.slept,
    };
    let copy = history_of_all::<_, _, _, RwSem<Areas>, Areas>(
        &rt,
        rt.alloc(),
        plan,
        crew,
        SOON_OWED,
        &gate,
    )?;
    let recs = [2 * KIND + 5 * VALUE, KIND + 1, 6 * KIND + 3 * VALUE];
    assert!(rt; copy.recs() == recs.as_slice());
    assert!(rt; copy.log() == [0].as_slice());
    Ok(())
}
