//! What no clause says: passes that give up in a spin queue, one after the other and on threads.
ghost use Rattle.std.specs.Prelude.{◌≡◌, ◌<◌, ◌≤◌, length, All, IfOk};
ghost use Rattle.osq_nodes.specs.OsqHandles.{tasks_of};
ghost use Rattle.lock_tests.specs.OsqStanding.{IsIdle};

use cpu_task::{Cpu, Crew, ParkCrew, ScriptedCrew, Turns};
use osq_nodes::{Osq, OsqPass};
use osq_unqueue::lock;
use std::alloc::{AllocError, Global};
use std::sync::Wait;
use std::sync::atomic::AtomicU64;
use std::sync::atomic::Ordering::SeqCst;
use std::test::Fail;
use std::thread::{self, Threads};

#[test]
fn a_cpu_that_needs_rescheduling_leaves_behind_a_head_that_stays(
    rt: HostRuntime,
) -> Result<(), Fail> {
    let (osq, mut one) = Osq::open(rt.alloc(), 3)?;
    let mut two = osq.split(&mut one);
    let mut three = osq.split(&mut one);
    osq.begin(&rt, &mut one, 0);
    osq.begin(&rt, &mut two, 1);
    osq.begin(&rt, &mut three, 2);
    let mut crew = ScriptedCrew::new(rt.alloc(), Vec::new(rt.alloc()), Vec::new(rt.alloc()))?;
    let turns = Turns {
        spin: 0,
        overdue: 0,
    };
    let mut second = crew.cpu(rt.alloc(), 1, turns)?;
    let mut third = crew.cpu(rt.alloc(), 2, turns)?;
    osq.wait(&rt, &mut one);
    assert!(rt; !lock(&osq, &rt, &mut two, &mut second));
    assert!(rt; !lock(&osq, &rt, &mut three, &mut third));
    osq.unlock(&rt, &mut one);
    assert!(rt; lock(&osq, &rt, &mut two, &mut second));
    Ok(())
}

const ROUNDS: u32 = 20_000;

/// What the tasks count together.
#[derive(Drop)]
struct Tally {
    /// How often one was the head. Only the front adds to it, by a load and a store.
    fronts: AtomicU64,
    /// How often one gave up.
    given_up: AtomicU64,
}

/// Waits until a task has given up.
fn wait_for_one<W: Wait>(rt: &W, tally: &Tally) {
    for _ in rt.forever() {
        if tally.given_up.load(SeqCst) != 0 {
            return;
        }
    }
    unreachable!()
}

/// Tries many times to be the queue's head, in the name of a task. The first front of all stays
/// until another task has given up.
fn rounds<C: Cpu, W: Wait>(
    rt: &W,
    osq: &Osq,
    pass: &mut OsqPass,
    cpu: &mut C,
    task: u32,
    tally: &Tally,
)
    requires idle { IsIdle osq.now pass.old }
    requires there { task < tasks_of osq.now }
{
    osq.begin(rt, pass, task);
    for _ in 0..ROUNDS {
        if lock(osq, rt, pass, cpu) {
            wait_for_one(rt, tally);
            let seen = tally.fronts.load(SeqCst);
            tally.fronts.store(seen.wrapping_add(1), SeqCst);
            osq.unlock(rt, pass);
        } else {
            tally.given_up.fetch_add(1, SeqCst);
        }
    }
    osq.recall_queue(pass);
    osq.end(pass);
}

/// Each pass does so in the name of the task of its place, all of them at once. Each has its own
/// thread, since the first front waits for another task.
fn all_at_once<R: Threads + Wait + Sync, C: Cpu + Send>(
    rt: &R,
    osq: &Osq,
    members: &mut [(OsqPass, C)],
    tally: &Tally,
)
    requires idle { All (λ m. IsIdle osq.now m.0) members.old }
    requires there { length members.old ≤ tasks_of osq.now }
    requires few { length members.old ≤ 4 }
{
    let threads = members.len().max(1);
    thread::for_each_mut(
        rt,
        members,
        threads,
        &|task, member: &mut (OsqPass, C)|
            requires idle { IsIdle osq.now member.old.0 }
            requires there { task < tasks_of osq.now }
            requires few { task < 4 }
        {
            rounds(rt, osq, &mut member.0, &mut member.1, task as u32, tally);
        },
    );
}

/// Another pass without a number.
fn another(osq: &Osq, first: &mut OsqPass) -> OsqPass
    requires idle { IsIdle osq.now first.old }
    ensures first { IsIdle osq.now first.new }
    ensures other { IsIdle osq.now result }
{
    osq.split(first)
}

/// For how many turns each of four tasks waits to be the head.
const SPINS: [u32; 4] = [3, 30, 0, 300];

/// A pass without a number and a CPU for each of four tasks.
fn members_of<C: Crew>(
    alloc: Global,
    osq: &Osq,
    first: &mut OsqPass,
    crew: &mut C,
) -> Result<Vec<(OsqPass, C::C)>, AllocError>
    requires { IsIdle osq.now first.old }
    ensures idle { IfOk result (λ members. All (λ m. IsIdle osq.now m.0) members.items) }
    ensures four { IfOk result (λ members. length members.items ≡ 4) }
{
    let mut members = Vec::new(alloc);
    for task in 0..4u32 {
        let turns = Turns {
            spin: SPINS[task as usize],
            overdue: 0,
        };
        let cpu = crew.cpu(alloc, task, turns)?;
        let pass = another(osq, first);
        members.push((pass, cpu))?;
    }
    Ok(members)
}

#[test]
fn only_the_head_counts_while_others_give_up(rt: HostRuntime) -> Result<(), Fail> {
    let (osq, mut first) = Osq::open(rt.alloc(), 4)?;
    let tally = Tally {
        fronts: AtomicU64::new(0),
        given_up: AtomicU64::new(0),
    };
    let mut crew = ParkCrew::new(rt.alloc(), 4)?;
    let mut members = members_of(rt.alloc(), &osq, &mut first, &mut crew)?;
    all_at_once(&rt, &osq, members.as_mut_slice(), &tally);
    let (fronts, given_up) = (tally.fronts.load(SeqCst), tally.given_up.load(SeqCst));
    assert!(rt; given_up != 0);
    assert!(rt; fronts.wrapping_add(given_up) == u64::from(4 * ROUNDS));
    Ok(())
}
