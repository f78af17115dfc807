//! Plans of calls on address spaces and descriptor tables.
ghost use Rattle.std.specs.Prelude.{◌≡◌, ◌≤◌, ◌<◌, ◌+◌, true, IfOk, length};
ghost use Rattle.lock_core.specs.Plans.{calls_in};
ghost use Rattle.lock_core.specs.Records.{IsPlan, IsCallOrSignal};

use lock_core::Plan;
use std::alloc::{AllocError, Global};
use word_bits::{CallWords, MAX_CALLS, MAX_TASKS, Mode, Object};

/// A task, how often it makes a call, and that call.
pub type Row = (u32, u32, CallWords);

/// The call `map START 1 rw-` in plain mode.
pub fn map_page(start: u32) -> CallWords {
    CallWords {
        a: u64::from(start) + (1 << 32),
        b: 1 + (3 << 8),
    }
}

/// The call `map START 1 rw-`, which doesn't wait.
pub fn try_map_page(start: u32) -> CallWords {
    CallWords {
        a: u64::from(start) + (1 << 32),
        b: 1 + (3 << 8) + (2 << 24),
    }
}

/// The call `map START 1 rw-`, which waits until a signal interrupts it.
pub fn int_map_page(start: u32) -> CallWords {
    CallWords {
        a: u64::from(start) + (1 << 32),
        b: 1 + (3 << 8) + (1 << 24),
    }
}

/// The call `map START 1 r--`, which waits until a signal interrupts it.
pub fn int_map_readable(start: u32) -> CallWords {
    CallWords {
        a: u64::from(start) + (1 << 32),
        b: 1 + (1 << 8) + (1 << 24),
    }
}

/// The call `fault PAGE r` in plain mode.
pub fn fault_page(page: u32) -> CallWords {
    CallWords {
        a: u64::from(page),
        b: 7 + (1 << 16),
    }
}

/// The call `fault PAGE r`, which waits until a signal interrupts it.
pub fn int_fault_page(page: u32) -> CallWords {
    CallWords {
        a: u64::from(page),
        b: 7 + (1 << 16) + (1 << 24),
    }
}

/// The call `fault PAGE r`, which doesn't wait.
pub fn try_fault_page(page: u32) -> CallWords {
    CallWords {
        a: u64::from(page),
        b: 7 + (1 << 16) + (2 << 24),
    }
}

/// The call `signal TASK`.
pub fn signal_task(task: u32) -> CallWords {
    CallWords {
        a: u64::from(task),
        b: 15,
    }
}

/// The call `populate START LEN PROT` in plain mode.
pub fn populate_pages(start: u32, len: u32, prot: u8) -> CallWords {
    CallWords {
        a: u64::from(start) + (u64::from(len) << 32),
        b: 6 + (u64::from(prot) << 8),
    }
}

/// The call `open FILE` in plain mode.
pub fn open_file(file: u16) -> CallWords {
    CallWords {
        a: u64::from(file),
        b: 8,
    }
}

/// The call `close FD` in plain mode.
pub fn close_file(fd: u32) -> CallWords {
    CallWords {
        a: u64::from(fd),
        b: 9,
    }
}

/// The call `open FILE`, which waits until a signal interrupts it.
pub fn int_open_file(file: u16) -> CallWords {
    CallWords {
        a: u64::from(file),
        b: 8 + (1 << 24),
    }
}

/// The call `close FD`, which waits until a signal interrupts it.
pub fn int_close_file(fd: u32) -> CallWords {
    CallWords {
        a: u64::from(fd),
        b: 9 + (1 << 24),
    }
}

/// The call `get FD` in plain mode.
pub fn get_file(fd: u32) -> CallWords {
    CallWords {
        a: u64::from(fd),
        b: 12,
    }
}

/// The call `get FD`, which waits until a signal interrupts it.
pub fn int_get_file(fd: u32) -> CallWords {
    CallWords {
        a: u64::from(fd),
        b: 12 + (1 << 24),
    }
}

/// Whether this is a call of the object, or a signal to a task.
fn is_call<O: Object>(call: CallWords) -> bool
    ensures { result ≡ true → IsCallOrSignal O.object call }
{
    if O::call_of(call).is_some() {
        return true;
    }
    match call.signal() {
        Some(target) => call.mode() == Mode::Plain && target < MAX_TASKS,
        None => false,
    }
}

/// Appends so many calls to a task's list.
fn push_calls<O: Object>(
    plan: &mut Plan,
    task: u32,
    count: u32,
    call: CallWords,
) -> Result<(), AllocError>
    requires there { task < length plan.old }
    requires room { calls_in plan.old + count ≤ 131072 }
    requires calls { IsPlan O.object plan.old }
    requires call { IsCallOrSignal O.object call }
    ensures tasks { IfOk result (λ _. length plan.new ≡ length plan.old) }
    ensures count { IfOk result (λ _. calls_in plan.new ≡ calls_in plan.old + count) }
    ensures calls { IfOk result (λ _. IsPlan O.object plan.new) }
{
    for _ in 0..count {
        plan.push(task, call)?;
    }
    Ok(())
}

/// A plan of so many tasks with the calls of these rows, one row after the other. A row of no task
/// of them, one of no call of the object, and one that has no room are left out.
pub fn plan_with<O: Object>(alloc: Global, tasks: u32, rows: &[Row]) -> Result<Plan, AllocError>
    requires { tasks ≤ MAX_TASKS }
    ensures tasks { IfOk result (λ p. length p ≡ tasks) }
    ensures calls { IfOk result (λ p. IsPlan O.object p) }
{
    let mut plan = Plan::new(alloc, tasks)?;
    let mut room = MAX_CALLS;
    for row in rows {
        let (task, count, call) = *row;
        if task >= tasks || count > room || !is_call::<O>(call) {
            continue;
        }
        push_calls::<O>(&mut plan, task, count, call)?;
        room -= count;
    }
    Ok(plan)
}
