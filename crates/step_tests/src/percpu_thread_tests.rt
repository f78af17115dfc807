//! What no clause says: readers and a writer of a per-CPU semaphore on threads.
ghost use Rattle.std.specs.Prelude.{◌≡◌, ◌<◌, ℕ, false, length, All, IfOk, OnOk};
ghost use Rattle.lock_core.specs.declared.view.Held.TheVariants.{No};
ghost use Rattle.percpu_rwsem.specs.PercpuHandles.{blocks_in, plan_of};
ghost use Rattle.step_tests.specs.TestPercpuPasses.{IsAt, IsIdle, MayMake, Repeats};

use crate::percpu_calls::{
    Job, hold_alone, hold_shared, let_go_alone, let_go_shared, read, start, word, write,
};
use crate::percpu_plans::{map_next, planned, touch_first};
use cpu_task::{Crew, ParkCpu, ParkCrew, Turns};
use lock_core::SiteLock;
use percpu_rwsem::{PercpuPass, PercpuRwSem};
use std::alloc::{AllocError, Global};
use std::sync::Wait;
use std::sync::atomic::{AtomicU32, Ordering};
use std::test::Fail;
use std::thread::{self, Threads};
use vma_map::Areas;
use word_bits::{Area, CallWords, Reply};

/// Many rounds for each of four threads.
const ROUNDS: u32 = 10_000;

/// A semaphore over a space, and the crew of its tasks.
#[derive(Drop)]
struct Crewed {
    lock: PercpuRwSem<Areas>,
    crew: ParkCrew,
}

/// Where the area of this word ends. It is 0 if the word is that of none.
fn end_of(word: u64) -> u32 {
    Area::unpack(word).map_or(0, |area| area.end)
}

/// Reads once. Answers whether the state is the one after the calls that the log had, each of which
/// mapped a page.
fn read_next<W: Wait>(
    rt: &W,
    crewed: &Crewed,
    pass: &mut PercpuPass<Areas>,
    cpu: &mut ParkCpu,
    job: Job,
) -> bool
    requires at { IsAt job.task No crewed.now.lock pass.old }
    requires apart { blocks_in pass.old ≡ false }
    requires calls { Repeats (plan_of crewed.now.lock) job.task job.rounds job.words }
    ensures at { IsAt job.task No crewed.now.lock pass.new }
    ensures apart { blocks_in pass.new ≡ false }
{
    hold_shared(rt, &crewed.lock, pass, cpu, &crewed.crew, job);
    // The first area is the only one, and begins at page 0.
    let pages = end_of(word(&crewed.lock, pass, 1, job));
    let reply = read(&crewed.lock, pass, job);
    let log = crewed.lock.front(pass);
    let_go_shared(&crewed.lock, pass, &crewed.crew, job);
    match reply {
        Some(Reply::MapErr) => pages == 0 && log == 0,
        Some(Reply::Good) => pages != 0 && log == pages,
        _ => false,
    }
}

/// Writes once. Answers whether the call mapped the page behind those that the calls before it had
/// mapped.
fn write_next<W: Wait>(
    rt: &W,
    crewed: &Crewed,
    pass: &mut PercpuPass<Areas>,
    cpu: &mut ParkCpu,
    job: Job,
) -> bool
    requires at { IsAt job.task No crewed.now.lock pass.old }
    requires apart { blocks_in pass.old ≡ false }
    requires calls { Repeats (plan_of crewed.now.lock) job.task job.rounds job.words }
    ensures at { IsAt job.task No crewed.now.lock pass.new }
    ensures apart { blocks_in pass.new ≡ false }
{
    let done = crewed.lock.done(pass);
    hold_alone(rt, &crewed.lock, pass, cpu, &crewed.crew, job);
    let reply = write(&crewed.lock, pass, job);
    let_go_alone(&crewed.lock, pass, &crewed.crew, job);
    match reply {
        Some(Reply::Num(page)) => page == done,
        _ => false,
    }
}

/// Makes the calls of a task, and answers how many were right.
fn all_calls<W: Wait>(
    rt: &W,
    crewed: &Crewed,
    pass: &mut PercpuPass<Areas>,
    cpu: &mut ParkCpu,
    job: Job,
    writes: bool,
) -> u32
    requires { MayMake job.task job.rounds job.words crewed.now.lock pass.old }
{
    start(rt, &crewed.lock, pass, job.task);
    let mut right: u32 = 0;
    for _ in 0..job.rounds {
        let is_right = if writes {
            write_next(rt, crewed, pass, cpu, job)
        } else {
            read_next(rt, crewed, pass, cpu, job)
        };
        right = right.wrapping_add(u32::from(is_right));
    }
    crewed.lock.end(pass);
    right
}

/// Tasks 0 to 2 read while task 3 writes. Answers how many of all calls were right.
fn four_at_once<R: Threads + Wait + Sync>(
    rt: &R,
    crewed: &Crewed,
    members: &mut [(PercpuPass<Areas>, ParkCpu)],
    touch: CallWords,
    map: CallWords,
) -> u32
    requires idle { All (λ m. IsIdle crewed.now.lock m.0) members.old }
    requires four { length members.old ≡ 4 }
    requires there { length (plan_of crewed.now.lock) ≡ 4 }
    requires first { (t : ℕ) → t < 3 → Repeats (plan_of crewed.now.lock) t ROUNDS touch }
    requires last { Repeats (plan_of crewed.now.lock) 3 ROUNDS map }
{
    let right = AtomicU32::new(0);
    thread::for_each_mut(
        rt,
        members,
        4,
        &|task, member: &mut (PercpuPass<Areas>, ParkCpu)|
            requires idle { IsIdle crewed.now.lock member.old.0 }
            requires few { task < 4 }
            requires there { length (plan_of crewed.now.lock) ≡ 4 }
            requires first { (t : ℕ) → t < 3 → Repeats (plan_of crewed.now.lock) t ROUNDS touch }
            requires last { Repeats (plan_of crewed.now.lock) 3 ROUNDS map }
        {
            let (pass, cpu) = (&mut member.0, &mut member.1);
            let right_calls = if task < 3 {
                let job = Job::new(task as u32, ROUNDS, touch);
                all_calls(rt, crewed, pass, cpu, job, false)
            } else {
                all_calls(rt, crewed, pass, cpu, Job::new(3, ROUNDS, map), true)
            };
            right.fetch_add(right_calls, Ordering::SeqCst);
        },
    );
    right.load(Ordering::SeqCst)
}

/// Another pass without a number.
fn another(lock: &PercpuRwSem<Areas>, first: &mut PercpuPass<Areas>) -> PercpuPass<Areas>
    requires idle { IsIdle lock.now first.old }
    ensures first { IsIdle lock.now first.new }
    ensures other { IsIdle lock.now result }
{
    lock.split(first)
}

/// A pass without a number and a CPU for each of four tasks.
fn members_of(
    alloc: Global,
    lock: &PercpuRwSem<Areas>,
    first: &mut PercpuPass<Areas>,
    crew: &mut ParkCrew,
) -> Result<Vec<(PercpuPass<Areas>, ParkCpu)>, AllocError>
    requires { IsIdle lock.now first.old }
    ensures first { OnOk result (IsIdle lock.now first.new) }
    ensures idle { IfOk result (λ members. All (λ m. IsIdle lock.now m.0) members.items) }
    ensures four { IfOk result (λ members. length members.items ≡ 4) }
{
    let turns = Turns {
        spin: 0,
        overdue: 0,
    };
    let mut members = Vec::new(alloc);
    for task in 0..4u32 {
        let cpu = crew.cpu(alloc, task, turns)?;
        let pass = another(lock, first);
        members.push((pass, cpu))?;
    }
    Ok(members)
}

#[test]
fn three_readers_see_states_of_the_log_beside_a_writer(rt: HostRuntime) -> Result<(), Fail> {
    let (touch, map) = (touch_first(), map_next());
    let plan = planned(rt.alloc(), ROUNDS, touch, map)?;
    let (lock, mut pass) = PercpuRwSem::<Areas>::open(rt.alloc(), plan)?;
    let mut crew = ParkCrew::new(rt.alloc(), 4)?;
    let mut members = members_of(rt.alloc(), &lock, &mut pass, &mut crew)?;
    let crewed = Crewed { lock, crew };
    let right = four_at_once(&rt, &crewed, members.as_mut_slice(), touch, map);
    assert!(rt; right == 4 * ROUNDS);
    start(&rt, &crewed.lock, &mut pass, 3);
    assert!(rt; (crewed.lock.done(&pass), crewed.lock.front(&pass)) == (ROUNDS, ROUNDS));
    assert!(rt; crewed.lock.read_try(&mut pass).is_ok());
    assert!(rt; crewed.lock.word(&mut pass, 0) == 1);
    Ok(())
}
