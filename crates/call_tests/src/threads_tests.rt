//! Calls on a descriptor table and on a space under a lock, by four tasks on threads of their own.
ghost use Rattle.std.specs.Prelude.{◌<◌};

use cpu_task::{Gate, ParkCrew};
use fd_table::Fds;
use mutex_slow::Mutex;
use plan_runs::at_once::{SOON_OWED, Start, history_of_all};
use plan_runs::plans::{
    Row, close_file, fault_page, get_file, int_close_file, int_get_file, int_open_file, map_page,
    open_file, plan_with, populate_pages, signal_task,
};
use plan_runs::signs::KIND;
use rwsem_slow::RwSem;
use sleep_lock::SleepLock;
use std::alloc::{AllocError, Global};
use std::sync::Wait;
use std::sync::atomic::{AtomicBool, AtomicU64, Ordering};
use std::test::Fail;
use std::thread::Threads;
use vma_map::Areas;
use word_bits::Snapshot;

/// How many rounds each task makes.
const ROUNDS: u32 = 2_500;

/// All calls on the table. A round has a signal to another task, an open, a close and a get in plain
/// mode, and the same three again by calls that a signal interrupts.
const CALLS: usize = 70_000;

/// How many rounds each task makes on a space.
const SPACE_ROUNDS: u32 = 1_000;

/// Sees whether a task that holds alone is alone.
#[derive(Default, Drop)]
struct Exclusion {
    /// Two more for each task that held alone, and odd while one does.
    count: AtomicU64,
    broken: AtomicBool,
}

impl Exclusion {
    /// How often a task held alone. `None` where another one was inside with it.
    fn holds(&self) -> Option<u64> {
        if self.broken.load(Ordering::SeqCst) {
            return None;
        }
        Some(self.count.load(Ordering::SeqCst) / 2)
    }
}

impl Gate for Exclusion {
    fn inside<R: Wait>(&self, _rt: &R, _object: u32, _task: u32, shared: bool) {
        let count = self.count.load(Ordering::SeqCst);
        if !shared {
            self.count.store(count.wrapping_add(1), Ordering::SeqCst);
        }
        let odd = self.count.load(Ordering::SeqCst);
        if count % 2 != 0 || odd != count.wrapping_add(u64::from(!shared)) {
            self.broken.store(true, Ordering::SeqCst);
        }
        if !shared {
            self.count.store(count.wrapping_add(2), Ordering::SeqCst);
        }
    }
}

impl Start for Exclusion {}

/// A task's rounds on the table. It sends its signals to the other one.
fn push_table_rounds(rows: &mut Vec<Row>, task: u32, other: u32) -> Result<(), AllocError>
    requires { task < 4 }
{
    for _ in 0..ROUNDS {
        rows.push((task, 1, signal_task(other)))?;
        rows.push((task, 1, open_file(7)))?;
        rows.push((task, 1, int_get_file(0)))?;
        rows.push((task, 1, int_open_file(7)))?;
        rows.push((task, 1, close_file(task)))?;
        rows.push((task, 1, get_file(0)))?;
        rows.push((task, 1, int_close_file(task + 4)))?;
    }
    Ok(())
}

/// What four tasks leave that make their rounds on a table under such a lock at once, and how often
/// one of them held alone.
fn table_rounds<
    R: Threads + Wait + Sync,
    L: SleepLock<Fds, Pass: Send, Site: Sync, Rule: Sync> + Sync + Drop,
>(rt: &R, alloc: Global) -> Result<(Snapshot, Option<u64>), AllocError> {
    let gate = Exclusion::default();
    let mut rows = Vec::new(alloc);
    for task in 0..4 {
        push_table_rounds(&mut rows, task, (task + 1) % 4)?;
    }
    let plan = plan_with::<Fds>(alloc, 4, rows.as_slice())?;
    let crew = ParkCrew::new(alloc, 4)?;
    let copy = history_of_all::<_, _, _, L, Fds>(rt, alloc, plan, crew, SOON_OWED, &gate)?;
    Ok((copy, gate.holds()))
}

/// How many of these are words of records of interrupted calls.
fn interrupted(recs: &[u64]) -> u64 {
    recs.iter().filter(|word| **word / KIND % 16 == 7).count() as u64
}

// That each copy is a legal history is proved. Which calls are interrupted depends on the schedule.
// Under a mutex each call that had it held alone, under a semaphore only those did that change the
// table.
#[test]
fn four_threads_hold_alone_as_often_as_their_calls_say(rt: HostRuntime) -> Result<(), Fail> {
    let (copy, holds) = table_rounds::<_, Mutex<Fds>>(&rt, rt.alloc())?;
    assert!(rt; copy.recs().len() == CALLS);
    let ended = interrupted(copy.recs());
    assert!(rt; holds.map(|holds| holds.saturating_add(ended)) == Some(24 * u64::from(ROUNDS)));
    let (copy, holds) = table_rounds::<_, RwSem<Fds>>(&rt, rt.alloc())?;
    assert!(rt; copy.recs().len() == CALLS);
    assert!(rt; holds == Some(copy.log().len() as u64));
    Ok(())
}

/// A task's rounds on a space: it populates two pages of its own, which it then shares, maps
/// another one, and looks at one.
fn push_space_rounds(rows: &mut Vec<Row>, task: u32) -> Result<(), AllocError>
    requires { task < 4 }
{
    for _ in 0..SPACE_ROUNDS {
        rows.push((task, 1, populate_pages(2 * task, 2, 1)))?;
        rows.push((task, 1, map_page(8 + task)))?;
        rows.push((task, 1, fault_page(2 * task)))?;
    }
    Ok(())
}

// A task that populates holds alone while it maps, and shares while it counts.
#[test]
fn four_threads_that_populate_a_space_share_it_with_readers_alone(
    rt: HostRuntime,
) -> Result<(), Fail> {
    let mut rows = Vec::new(rt.alloc());
    for task in 0..4 {
        push_space_rounds(&mut rows, task)?;
    }
    let plan = plan_with::<Areas>(rt.alloc(), 4, rows.as_slice())?;
    let gate = Exclusion::default();
    let crew = ParkCrew::new(rt.alloc(), 4)?;
    let copy = history_of_all::<_, _, _, RwSem<Areas>, Areas>(
        &rt,
        rt.alloc(),
        plan,
        crew,
        SOON_OWED,
        &gate,
    )?;
    assert!(rt; copy.log().len() == 8 * SPACE_ROUNDS as usize);
    assert!(rt; gate.holds() == Some(4 * u64::from(SPACE_ROUNDS)));
    Ok(())
}
