//! What passes count of their calls that signals interrupt, on threads.

use cpu_task::{Gate, ScriptedCrew};
use lock_core::Tally;
use plan_runs::at_once::{SOON_OWED, Start, history_of_all};
use plan_runs::plans::{fault_page, int_map_readable, plan_with, signal_task};
use plan_runs::signs::{KIND, await_flag, count};
use rwsem_slow::RwSem;
use std::alloc::{AllocError, Global};
use std::sync::Wait;
use std::sync::atomic::{AtomicBool, AtomicU32, AtomicU64, Ordering};
use std::test::Fail;
use std::thread::Threads;
use vma_map::Areas;
use word_bits::Snapshot;

/// How many tasks map pages.
const MAPPERS: u32 = 3;

/// How long task 0 waits for those tasks, and stays inside once they have begun.
const TURNS: u32 = 100_000_000;

const TURNS_INSIDE: u32 = 1_000_000;

/// Keeps task 0 inside until the others have begun, and for some turns more, in which their calls
/// wait. Each of them begins once task 0 is inside.
#[derive(Default, Drop)]
struct Crowd {
    inside: AtomicBool,
    begun: AtomicU32,
    /// How often each task counted that it was interrupted.
    interrupted: [AtomicU64; 4],
}

impl Crowd {
    /// Waits for so many turns, or until so many tasks have begun.
    fn await_tasks(&self, count: u32, turns: u32) {
        for _ in 0..turns {
            if self.begun.load(Ordering::SeqCst) >= count {
                return;
            }
        }
    }
}

impl Gate for Crowd {
    fn inside<R: Wait>(&self, _rt: &R, _object: u32, task: u32, _shared: bool) {
        if task == 0 {
            self.inside.store(true, Ordering::SeqCst);
            self.await_tasks(MAPPERS, TURNS);
            self.await_tasks(u32::MAX, TURNS_INSIDE);
        }
    }
}

impl Start for Crowd {
    fn begins(&self, task: u32) {
        if task != 0 {
            await_flag(&self.inside);
            count(&self.begun);
        }
    }

    fn ended(&self, task: u32, tally: Tally) {
        if let Some(counter) = self.interrupted.get(task as usize) {
            counter.store(tally.interrupted, Ordering::SeqCst);
        }
    }
}

/// What four tasks leave. Task 0 sends each of the others a signal and then stays inside a fault,
/// and each of those maps pages meanwhile.
fn history_of_mappers<R: Threads + Wait + Sync>(
    rt: &R,
    alloc: Global,
    gate: &Crowd,
) -> Result<Snapshot, AllocError> {
    let mut rows = Vec::new(alloc);
    for mapper in 1..MAPPERS + 1 {
        rows.push((0, 1, signal_task(mapper)))?;
        for page in 0..3 {
            rows.push((mapper, 1, int_map_readable(10 * mapper + page)))?;
        }
    }
    rows.push((0, 1, fault_page(5)))?;
    let plan = plan_with::<Areas>(alloc, 4, rows.as_slice())?;
    let crew = ScriptedCrew::new(alloc, Vec::new(alloc), Vec::new(alloc))?;
    history_of_all::<_, _, _, RwSem<Areas>, Areas>(rt, alloc, plan, crew, SOON_OWED, gate)
}

/// The page behind an area's last.
fn end_of(area: u64) -> u64 {
    (area >> 3) % (1 << 21)
}

/// Whether an area of the space's words has the page.
fn is_mapped(state: &[u64], page: u64) -> bool {
    let mut areas = state.iter().skip(1);
    areas.any(|area| *area >> 24 <= page && page < end_of(*area))
}

/// How many pages the areas have.
fn pages_in(state: &[u64]) -> u64 {
    let mut pages = 0u64;
    for area in state.iter().skip(1) {
        pages = pages.saturating_add(end_of(*area).saturating_sub(*area >> 24));
    }
    pages
}

/// Whether a task mapped exactly the pages, from the first on, of its calls that weren't
/// interrupted, and counted the one that was.
fn has_counted(recs: &[u64], state: &[u64], first: u64, counted: u64) -> bool {
    let mut interrupted = 0u64;
    let mut page = first;
    for word in recs {
        let kind = *word / KIND % 16;
        if (kind != 2 && kind != 7) || is_mapped(state, page) != (kind == 2) {
            return false;
        }
        interrupted = interrupted.saturating_add(u64::from(kind == 7));
        page = page.saturating_add(1);
    }
    interrupted <= 1 && interrupted == counted
}

// A call that was interrupted never held the space, so it mapped nothing; and the signal that it
// consumed interrupts no later call.
#[test]
fn each_task_counts_its_interrupted_calls(rt: HostRuntime) -> Result<(), Fail> {
    let gate = Crowd::default();
    let copy = history_of_mappers(&rt, rt.alloc(), &gate)?;
    let (recs, state) = (copy.recs(), copy.state());
    assert!(rt; recs.len() == 13);
    let mut calls = pages_in(state);
    for task in 1..4 {
        let interrupted = gate.interrupted[task].load(Ordering::SeqCst);
        let own = &recs[3 * task + 1..3 * task + 4];
        let first = 10 * task as u64;
        assert!(rt; has_counted(own, state, first, interrupted), "{task}");
        calls = calls.wrapping_add(interrupted);
    }
    assert!(rt; calls == 9);
    Ok(())
}
