//! More readers than a batch has behind a writer, on threads.
ghost use Rattle.std.specs.Prelude.{◌≡◌, length, IfOk};
ghost use Rattle.lock_core.specs.Records.{IsPlan};
ghost use Rattle.vma_map.specs.Spaces.{space};

use cpu_task::{Gate, ParkCrew};
use lock_core::{Plan, Tally};
use plan_runs::at_once::{NEVER_OWED, Start, history_of_all};
use plan_runs::plans::{fault_page, map_page, plan_with, try_map_page};
use plan_runs::signs::{CountedCrew, KIND, VALUE, await_count, await_flag, count};
use rwsem_slow::RwSem;
use std::alloc::{AllocError, Global};
use std::sync::Wait;
use std::sync::atomic::{AtomicBool, AtomicU32, Ordering};
use std::test::Fail;
use vma_map::Areas;

/// The tasks that fault: 1 and up. Task 0 maps in front of them, and the last task tries to map.
const READERS: u32 = 300;

const TASKS: u32 = READERS + 2;

/// The most readers that one wake lets in.
const BATCH: u32 = 256;

/// Keeps task 0 inside until all readers have slept, and these inside until the last task has
/// tried. The readers begin once task 0 is inside, and the last task once a batch is.
#[derive(Default, Drop)]
struct WholeBatch {
    mapping: AtomicBool,
    slept: AtomicU32,
    reading: AtomicU32,
    tried: AtomicBool,
}

impl Gate for WholeBatch {
    fn inside<R: Wait>(&self, _rt: &R, _object: u32, task: u32, _shared: bool) {
        if task == 0 {
            self.mapping.store(true, Ordering::SeqCst);
            await_count(&self.slept, READERS);
        } else {
            count(&self.reading);
            await_flag(&self.tried);
        }
    }
}

impl Start for WholeBatch {
    fn begins(&self, task: u32) {
        if task > READERS {
            await_count(&self.reading, BATCH);
        } else if task > 0 {
            await_flag(&self.mapping);
        }
    }

    fn ended(&self, task: u32, _tally: Tally) {
        if task > READERS {
            self.tried.store(true, Ordering::SeqCst);
        }
    }
}

/// A plan in which task 0 maps a page, the readers fault at it, and the last task tries to map.
fn plan_of_readers(alloc: Global) -> Result<Plan, AllocError>
    ensures tasks { IfOk result (λ plan. length plan ≡ TASKS) }
    ensures calls { IfOk result (λ plan. IsPlan space plan) }
{
    let mut rows = Vec::new(alloc);
    rows.push((0, 1, map_page(5)))?;
    for reader in 1..READERS + 1 {
        rows.push((reader, 1, fault_page(5)))?;
    }
    rows.push((READERS + 1, 1, try_map_page(1)))?;
    plan_with::<Areas>(alloc, TASKS, rows.as_slice())
}

// The release lets 256 readers in and leaves 44 in the list: the count that the try finds has a
// bias for each of the 256, and the flag of the waiters. They go on once the batch lets go.
#[test]
fn a_wake_lets_256_readers_in_and_leaves_the_others(rt: HostRuntime) -> Result<(), Fail> {
    let plan = plan_of_readers(rt.alloc())?;
    let gate = WholeBatch::default();
    let crew = CountedCrew {
        crew: ParkCrew::new(rt.alloc(), TASKS)?,
        slept: &gate.slept,
    };
    let copy = history_of_all::<_, _, _, RwSem<Areas>, Areas>(
        &rt,
        rt.alloc(),
        plan,
        crew,
        NEVER_OWED,
        &gate,
    )?;
    let recs = copy.recs();
    assert!(rt; recs.first() == Some(&(2 * KIND + 5 * VALUE)));
    assert!(rt; recs.last() == Some(&(6 * KIND + 65_538 * VALUE)));
    let faults = recs.iter().filter(|record| **record == KIND + 1).count();
    assert!(rt; faults == READERS as usize);
    assert!(rt; gate.reading.load(Ordering::SeqCst) == READERS);
    Ok(())
}
