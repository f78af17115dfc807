//! Calls on a space under each lock: what they reply, and how the gate sees them.
use cpu_task::Gate;
use guarded::Guarded;
use mutex_slow::Mutex;
use plan_runs::plans::{
    fault_page, map_page, plan_with, populate_pages, signal_task, try_map_page,
};
use plan_runs::serve::replies_of;
use plan_runs::signs::count;
use rwsem_slow::RwSem;
use sleep_lock::SleepLock;
use std::alloc::{AllocError, Global};
use std::sync::Wait;
use std::sync::atomic::{AtomicU32, Ordering};
use std::test::Fail;
use vma_map::Areas;
use word_bits::{Errno, Reply};

/// Counts the tasks that hold the object of number 3 alone, and those that share it.
#[derive(Default, Drop)]
struct Seen {
    alone: AtomicU32,
    shared: AtomicU32,
}

impl Seen {
    /// How often one held alone, and how often one shared.
    fn counts(&self) -> (u32, u32) {
        (
            self.alone.load(Ordering::SeqCst),
            self.shared.load(Ordering::SeqCst),
        )
    }
}

impl Gate for Seen {
    fn inside<R: Wait>(&self, _rt: &R, object: u32, task: u32, shared: bool) {
        if object != 3 || task >= 2 {
            return;
        }
        count(if shared { &self.shared } else { &self.alone });
    }
}

/// What one task replies that makes these calls on a space under such a lock, and how often the gate
/// saw it alone and sharing.
fn serve_a_space<W: Wait, L: SleepLock<Areas> + Drop>(
    rt: &W,
    alloc: Global,
) -> Result<(Vec<Reply>, (u32, u32)), AllocError> {
    let gate = Seen::default();
    let plan = plan_with::<Areas>(
        alloc,
        1,
        [
            (0, 1, map_page(2)),
            (0, 1, fault_page(2)),
            (0, 1, signal_task(0)),
            (0, 1, try_map_page(3)),
            (0, 1, populate_pages(0, 4, 1)),
            (0, 1, populate_pages(1, 2, 2)),
            (0, 1, populate_pages(0, 0, 1)),
        ]
        .as_slice(),
    )?;
    let (space, mut pass) = Guarded::<L, Areas>::open(alloc, 3, plan)?;
    let replies = replies_of(rt, alloc, &space, &mut pass, &gate, 0)?;
    Ok((replies, gate.counts()))
}

/// The replies to these calls under any lock.
const REPLIES: [Reply; 7] = [
    Reply::Num(2),
    Reply::Good,
    Reply::Sent,
    Reply::Num(3),
    Reply::Num(4),
    Reply::Num(0),
    Reply::Refused(Errno::Inval),
];

// The gate sees each call but the signal once, with the number that the space was opened with. Under
// a semaphore a fault shares, and so does a populate while it counts its pages, also a refused one.
#[test]
fn the_gate_sees_each_call_once_as_it_holds(rt: HostRuntime) -> Result<(), Fail> {
    let (replies, seen) = serve_a_space::<_, Mutex<Areas>>(&rt, rt.alloc())?;
    assert!(rt; replies.as_slice() == REPLIES.as_slice());
    assert!(rt; seen == (6, 0));
    let (replies, seen) = serve_a_space::<_, RwSem<Areas>>(&rt, rt.alloc())?;
    assert!(rt; replies.as_slice() == REPLIES.as_slice());
    assert!(rt; seen == (2, 4));
    Ok(())
}
