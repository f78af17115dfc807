//! A task that waits for a lock which another one holds, until signals interrupt it, on threads.

use cpu_task::{Gate, ScriptedCrew};
use lock_core::Tally;
use mutex_slow::Mutex;
use plan_runs::at_once::{SOON_OWED, Start, history_of_all};
use plan_runs::plans::{
    fault_page, int_fault_page, int_map_page, map_page, plan_with, signal_task, try_fault_page,
    try_map_page,
};
use plan_runs::signs::{KIND, VALUE, await_flag};
use rwsem_slow::RwSem;
use sleep_lock::SleepLock;
use std::alloc::{AllocError, Global};
use std::sync::Wait;
use std::sync::atomic::{AtomicBool, Ordering};
use std::test::Fail;
use std::thread::Threads;
use vma_map::Areas;
use word_bits::{CallWords, Snapshot};

/// How many calls of task 1 wait while task 0 is inside, and how many signals task 2 sends to it.
const SIGNALS: u32 = 10_000;

/// Keeps task 0 inside until task 1, which begins then, has done its calls.
#[derive(Default, Drop)]
struct KeepOut {
    came: AtomicBool,
    done: AtomicBool,
}

impl Gate for KeepOut {
    fn inside<R: Wait>(&self, _rt: &R, _object: u32, task: u32, _shared: bool) {
        if task == 0 {
            self.came.store(true, Ordering::SeqCst);
            await_flag(&self.done);
        }
    }
}

impl Start for KeepOut {
    fn begins(&self, task: u32) {
        if task == 1 {
            await_flag(&self.came);
        }
    }

    fn ended(&self, task: u32, _tally: Tally) {
        if task == 1 {
            self.done.store(true, Ordering::SeqCst);
        }
    }
}

/// The calls of a test: the one that holds the space meanwhile, one that tries for it in front of
/// those that wait and behind them, and the one that waits again and again.
#[derive(Clone, Copy)]
struct Calls {
    holds: CallWords,
    tries: CallWords,
    waits: CallWords,
}

/// A copy of what the tasks leave that do these calls on a space under such a lock.
fn history_of<
    R: Threads + Wait + Sync,
    L: SleepLock<Areas, Pass: Send, Site: Sync, Rule: Sync> + Sync + Drop,
>(rt: &R, alloc: Global, calls: Calls) -> Result<Snapshot, AllocError> {
    let plan = plan_with::<Areas>(
        alloc,
        4,
        [
            (0, 1, calls.holds),
            (1, 1, calls.tries),
            (1, SIGNALS, calls.waits),
            (1, 1, calls.tries),
            (2, SIGNALS, signal_task(1)),
        ]
        .as_slice(),
    )?;
    let crew = ScriptedCrew::new(alloc, Vec::new(alloc), Vec::new(alloc))?;
    let gate = KeepOut::default();
    history_of_all::<_, _, _, L, Areas>(rt, alloc, plan, crew, SOON_OWED, &gate)
}

/// Whether these are the words of the records of the call that held, of those that were busy, of
/// interrupted calls between them, and of the signals.
fn are_records(recs: &[u64], held: u64, busy: u32) -> bool {
    let mut at = 0u32;
    for word in recs {
        let wanted = if at == 0 {
            held
        } else if at == 1 || at == SIGNALS + 2 {
            6 * KIND + u64::from(busy) * VALUE
        } else if at < SIGNALS + 2 {
            7 * KIND
        } else {
            8 * KIND
        };
        if *word != wanted {
            return false;
        }
        at = at.saturating_add(1);
    }
    at == 2 * SIGNALS + 3
}

// Each call waits for a lock that it can't have meanwhile: it ends where a signal interrupts it,
// and each signal ends one of them. What a try sees behind them is what one saw in front of them:
// whoever was interrupted left no flag. No call but that of task 0 held the space.
#[test]
fn each_signal_interrupts_one_call_that_waits_for_a_mutex(rt: HostRuntime) -> Result<(), Fail> {
    let calls = Calls {
        holds: map_page(5),
        tries: try_map_page(5),
        waits: int_fault_page(5),
    };
    let copy = history_of::<_, Mutex<Areas>>(&rt, rt.alloc(), calls)?;
    assert!(rt; are_records(copy.recs(), 2 * KIND + 5 * VALUE, 8));
    assert!(rt; copy.log() == [0].as_slice());
    Ok(())
}

#[test]
fn each_signal_interrupts_one_call_that_waits_for_a_semaphore(rt: HostRuntime) -> Result<(), Fail> {
    let readers = Calls {
        holds: map_page(5),
        tries: try_fault_page(5),
        waits: int_fault_page(5),
    };
    let writers = Calls {
        holds: fault_page(5),
        tries: try_map_page(5),
        waits: int_map_page(5),
    };
    for (calls, held, busy, log) in [
        (readers, 2 * KIND + 5 * VALUE, 1, [0].as_slice()),
        (writers, 4 * KIND, 256, [].as_slice()),
    ] {
        let copy = history_of::<_, RwSem<Areas>>(&rt, rt.alloc(), calls)?;
        assert!(rt; are_records(copy.recs(), held, busy), "{busy}");
        assert!(rt; copy.log() == log, "{busy}");
    }
    Ok(())
}
