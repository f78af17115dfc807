//! Tasks that are inside an address space together, under a semaphore, on threads.

use cpu_task::{Gate, HoldGate, ParkCrew};
use plan_runs::at_once::{SOON_OWED, Start, history_of_all};
use plan_runs::plans::{
    Row, fault_page, int_map_page, plan_with, populate_pages, signal_task, try_map_page,
};
use plan_runs::signs::{KIND, VALUE};
use rwsem_slow::RwSem;
use std::alloc::{AllocError, Global};
use std::sync::Wait;
use std::test::Fail;
use std::thread::Threads;
use vma_map::Areas;
use word_bits::Snapshot;

/// How long a task stays inside for the others to come, and looks for those before it.
const TURNS: u32 = 100_000_000;

/// Keeps each of so many tasks that share the space inside until all have come, and lets each
/// begin once those before it have come.
#[derive(Drop)]
struct InTurn {
    tasks: u32,
    gate: HoldGate,
}

impl InTurn {
    fn new(tasks: u32) -> InTurn {
        InTurn {
            tasks,
            gate: HoldGate::new(0, tasks, TURNS),
        }
    }
}

impl Gate for InTurn {
    fn inside<R: Wait>(&self, rt: &R, object: u32, task: u32, shared: bool) {
        self.gate.inside(rt, object, task, shared);
    }
}

impl Start for InTurn {
    fn begins(&self, task: u32) {
        for _ in 0..TURNS {
            if task >= self.tasks || self.gate.count() >= task {
                return;
            }
        }
    }
}

/// What four tasks with these calls leave on a space. `None` where the first of them, so many,
/// weren't all inside together.
fn history_in_turn<R: Threads + Wait + Sync>(
    rt: &R,
    alloc: Global,
    tasks: u32,
    calls: &[Row],
) -> Result<Option<Snapshot>, AllocError> {
    let plan = plan_with::<Areas>(alloc, 4, calls)?;
    let gate = InTurn::new(tasks);
    let crew = ParkCrew::new(alloc, 4)?;
    let copy = history_of_all::<_, _, _, RwSem<Areas>, Areas>(
        rt, alloc, plan, crew, SOON_OWED, &gate,
    )?;
    if gate.gate.met() {
        Ok(Some(copy))
    } else {
        Ok(None)
    }
}

/// Whether these are the words of the records and of the log.
fn has(copy: &Option<Snapshot>, recs: &[u64], log: &[u64]) -> bool {
    match copy {
        Some(copy) => copy.recs() == recs && copy.log() == log,
        None => false,
    }
}

// A reader that comes while a populate counts the pages that it has mapped stands behind it.
#[test]
fn a_fault_is_inside_while_a_populate_counts_its_pages(rt: HostRuntime) -> Result<(), Fail> {
    let calls = [(0, 1, populate_pages(5, 1, 1)), (1, 1, fault_page(6))];
    let copy = history_in_turn(&rt, rt.alloc(), 2, calls.as_slice())?;
    let recs = [2 * KIND + VALUE, 4 * KIND + 1];
    assert!(rt; has(&copy, recs.as_slice(), [0].as_slice()));
    Ok(())
}

// The third task comes while the others are inside: it is told of two readers, and then is the
// third.
#[test]
fn two_readers_keep_a_writer_out_together(rt: HostRuntime) -> Result<(), Fail> {
    let calls = [
        (0, 1, fault_page(5)),
        (1, 1, fault_page(6)),
        (2, 1, try_map_page(1)),
        (2, 1, fault_page(7)),
    ];
    let copy = history_in_turn(&rt, rt.alloc(), 3, calls.as_slice())?;
    let recs = [4 * KIND, 4 * KIND, 6 * KIND + 512 * VALUE, 4 * KIND];
    assert!(rt; has(&copy, recs.as_slice(), [].as_slice()));
    Ok(())
}

// Task 0 is inside until the last call of task 1 is. That task is interrupted by its own signal,
// then finds one reader in the count and no flag, and then shares the space.
#[test]
fn a_writer_beside_a_reader_is_interrupted_then_busy_then_reads(
    rt: HostRuntime,
) -> Result<(), Fail> {
    let calls = [
        (0, 1, fault_page(5)),
        (1, 1, signal_task(1)),
        (1, 1, int_map_page(1)),
        (1, 1, try_map_page(1)),
        (1, 1, fault_page(6)),
    ];
    let copy = history_in_turn(&rt, rt.alloc(), 2, calls.as_slice())?;
    let recs = [
        4 * KIND,
        8 * KIND,
        7 * KIND,
        6 * KIND + 256 * VALUE,
        4 * KIND,
    ];
    assert!(rt; has(&copy, recs.as_slice(), [].as_slice()));
    Ok(())
}
