//! That a semaphore asks for a handoff: an overdue writer for itself, and who leaves the list as
//! the first for the reader behind it.
ghost use Rattle.std.specs.Prelude.{◌≡◌, IfOk, None, false};
ghost use Rattle.lock_core.specs.Nothings.{nothing};
ghost use Rattle.lock_core.specs.Records.{IsPlan};
ghost use Rattle.rwsem_slow.specs.RwSemHandles.{hand_in, plan_of, SitsAt};
ghost use Rattle.rwsem_slow.specs.RwSemStanding.{IsReady};

use super::quit_tests::send;
use crate::watched::{NO_TURNS, Watch, WatchedCrew, await_count};
use cpu_task::Crew;
use lock_core::{Held, Nothing, Plan, SiteLock};
use rwsem_slow::{RwPass, RwSem};
use std::alloc::{AllocError, Global};
use std::process::Abort;
use std::sync::Wait;
use std::sync::atomic::{AtomicU64, Ordering};
use std::test::Fail;
use std::thread::{Threads, join};
use word_bits::CallWords;

/// A semaphore, and the passes of four tasks that hold nothing.
#[derive(Drop)]
struct Four {
    sem: RwSem<Nothing>,
    /// The pass of task 0, whose only call is a signal to task 1.
    looker: RwPass<Nothing>,
    /// The passes of tasks 1 to 3.
    first: RwPass<Nothing>,
    second: RwPass<Nothing>,
    holder: RwPass<Nothing>,
}

/// A new semaphore, on which four tasks have begun.
fn open_four(rt: &impl Wait, alloc: Global) -> Result<Four, AllocError>
    ensures planned { IfOk result (λ p. IsPlan nothing (plan_of p.sem)) }
    ensures looker { IfOk result (λ p. IsReady p.sem p.looker) }
    ensures unsent { IfOk result (λ p. (hand_in p.looker).sent ≡ None) }
    ensures first { IfOk result (λ p. IsReady p.sem p.first) }
    ensures second { IfOk result (λ p. IsReady p.sem p.second) }
    ensures holder { IfOk result (λ p. IsReady p.sem p.holder) }
{
    let mut plan = Plan::new(alloc, 4)?;
    plan.push(0, CallWords { a: 1, b: 15 })?;
    let (sem, mut looker) = RwSem::<Nothing>::open(alloc, plan)?;
    let mut first = sem.split(&mut looker);
    let mut second = sem.split(&mut looker);
    let mut holder = sem.split(&mut looker);
    sem.begin(rt, &mut looker, 0);
    sem.begin(rt, &mut first, 1);
    sem.begin(rt, &mut second, 2);
    sem.begin(rt, &mut holder, 3);
    Ok(Four {
        sem,
        looker,
        first,
        second,
        holder,
    })
}

/// Ends the pass's hold, whatever it is.
fn release<W: Wait, C: Crew>(rt: &W, sem: &RwSem<Nothing>, crew: &C, mut pass: RwPass<Nothing>)
    requires own { SitsAt sem.now pass }
    requires planned { IsPlan nothing (plan_of sem.now) }
    requires quiet { (hand_in pass).writes ≡ false }
{
    match sem.held(&pass) {
        Held::Shared => sem.up_read(rt, &mut pass, crew),
        Held::Alone => sem.up_write(rt, &mut pass, crew),
        Held::No => {}
    }
}

/// Tries to read once a task sleeps, and then ends the hold that the task waits for. Answers what
/// the try answered.
fn look_behind_sleeper<'a, W: Wait>(
    rt: &W,
    sem: &RwSem<Nothing>,
    crew: &WatchedCrew<'a>,
    mut looker: RwPass<Nothing>,
    holder: RwPass<Nothing>,
) -> Result<(), u64>
    requires ready { IsReady sem.now looker }
    requires own { SitsAt sem.now holder }
    requires planned { IsPlan nothing (plan_of sem.now) }
    requires quiet { (hand_in holder).writes ≡ false }
{
    await_count(&crew.watch.sleeps, 1);
    let answer = sem.down_read_trylock(rt, &mut looker);
    if answer.is_ok() {
        sem.up_read(rt, &mut looker, crew);
    }
    release(rt, sem, crew, holder);
    crew.watch.ends.store(1, Ordering::SeqCst);
    answer
}

/// Takes the semaphore alone, and releases it.
fn write_once<W: Wait, C: Crew>(
    rt: &W,
    sem: &RwSem<Nothing>,
    crew: &C,
    mut cpu: C::C,
    mut pass: RwPass<Nothing>,
)
    requires { IsReady sem.now pass }
{
    sem.down_write(rt, &mut pass, &mut cpu, crew);
    sem.up_write(rt, &mut pass, crew);
}

/// What a try to read answers beside a reader and a writer that sleeps.
fn tried_before_a_writer<R: Threads + Wait + Sync + Abort>(
    rt: &R,
    alloc: Global,
    watch: &Watch,
) -> Result<Result<(), u64>, AllocError> {
    let Four {
        sem,
        looker,
        first,
        mut holder,
        ..
    } = open_four(rt, alloc)?;
    let mut crew = WatchedCrew { watch };
    let cpu = crew.cpu(alloc, 1, NO_TURNS)?;
    assert!(rt; sem.down_read_trylock(rt, &mut holder).is_ok());
    let (answer, _) = join(
        rt,
        || -> Result<(), u64>
            requires ready { IsReady sem looker }
            requires own { SitsAt sem holder }
            requires planned { IsPlan nothing (plan_of sem) }
            requires quiet { (hand_in holder).writes ≡ false }
        { look_behind_sleeper(rt, &sem, &crew, looker, holder) },
        ||
            requires { IsReady sem first }
        { write_once(rt, &sem, &crew, cpu, first) },
    );
    Ok(answer)
}

/// Reads until the signal comes, and says that it left the list. Answers whether it did.
fn leave_by_signal<W: Wait, C: Crew>(
    rt: &W,
    sem: &RwSem<Nothing>,
    crew: &C,
    left: &AtomicU64,
    mut cpu: C::C,
    mut pass: RwPass<Nothing>,
) -> bool
    requires { IsReady sem.now pass }
{
    let ended = sem.down_read_interruptible(rt, &mut pass, &mut cpu, crew);
    if ended.is_ok() {
        sem.up_read(rt, &mut pass, crew);
    }
    left.store(1, Ordering::SeqCst);
    ended.is_err()
}

/// Reads behind a task that sleeps, and releases.
fn read_behind<W: Wait, C: Crew>(
    rt: &W,
    sem: &RwSem<Nothing>,
    before: &Watch,
    crew: &C,
    mut cpu: C::C,
    mut pass: RwPass<Nothing>,
)
    requires { IsReady sem.now pass }
{
    await_count(&before.sleeps, 1);
    sem.down_read(rt, &mut pass, &mut cpu, crew);
    sem.up_read(rt, &mut pass, crew);
}

/// Sends the signal to the first of two tasks that sleep, tries to read once that has left the
/// list, and then ends the hold. Answers what the try answered.
fn look_behind_leaver<'a, W: Wait>(
    rt: &W,
    sem: &RwSem<Nothing>,
    leaver: &Watch,
    left: &AtomicU64,
    crew: &WatchedCrew<'a>,
    mut looker: RwPass<Nothing>,
    holder: RwPass<Nothing>,
) -> Result<(), u64>
    requires ready { IsReady sem.now looker }
    requires unsent { (hand_in looker).sent ≡ None }
    requires own { SitsAt sem.now holder }
    requires planned { IsPlan nothing (plan_of sem.now) }
    requires quiet { (hand_in holder).writes ≡ false }
{
    await_count(&leaver.sleeps, 1);
    await_count(&crew.watch.sleeps, 1);
    send(sem, &mut looker);
    leaver.ends.store(1, Ordering::SeqCst);
    await_count(left, 1);
    let answer = sem.down_read_trylock(rt, &mut looker);
    if answer.is_ok() {
        sem.up_read(rt, &mut looker, crew);
    }
    release(rt, sem, crew, holder);
    crew.watch.ends.store(1, Ordering::SeqCst);
    answer
}

/// What a try to read answers beside a writer, once the first of two readers that wait for it has
/// left the list.
fn tried_before_a_reader<R: Threads + Wait + Sync + Abort>(
    rt: &R,
    alloc: Global,
    leaver: &Watch,
    reader: &Watch,
) -> Result<(Result<(), u64>, bool), AllocError> {
    let Four {
        sem,
        looker,
        first,
        second,
        mut holder,
    } = open_four(rt, alloc)?;
    let mut leavers = WatchedCrew { watch: leaver };
    let mut readers = WatchedCrew { watch: reader };
    let left_cpu = leavers.cpu(alloc, 1, NO_TURNS)?;
    let read_cpu = readers.cpu(alloc, 2, NO_TURNS)?;
    let left = AtomicU64::new(0);
    assert!(rt; sem.down_write_trylock(&mut holder).is_ok());
    let (answer, (is_gone, _)) = join(
        rt,
        || -> Result<(), u64>
            requires ready { IsReady sem looker }
            requires unsent { (hand_in looker).sent ≡ None }
            requires own { SitsAt sem holder }
            requires planned { IsPlan nothing (plan_of sem) }
            requires quiet { (hand_in holder).writes ≡ false }
        { look_behind_leaver(rt, &sem, leaver, &left, &readers, looker, holder) },
        || -> (bool, ())
            requires first { IsReady sem first }
            requires second { IsReady sem second }
        {
            join(
                rt,
                || -> bool
                    requires { IsReady sem first }
                { leave_by_signal(rt, &sem, &leavers, &left, left_cpu, first) },
                ||
                    requires { IsReady sem second }
                { read_behind(rt, &sem, leaver, &readers, read_cpu, second) },
            )
        },
    );
    Ok((answer, is_gone))
}

// 256 for the reader, 2 for WAITERS and 4 for HANDOFF: without that the try would read.
#[test]
fn a_writer_whose_time_is_over_keeps_readers_out(rt: HostRuntime) -> Result<(), Fail> {
    let watch = Watch::default();
    assert!(rt; tried_before_a_writer(&rt, rt.alloc(), &watch)? == Err(262));
    Ok(())
}

// 1 for the writer, 2 for WAITERS and 4 for HANDOFF, which the leaver sets for the reader behind it.
#[test]
fn who_leaves_asks_for_a_handoff_to_the_reader_behind_it(rt: HostRuntime) -> Result<(), Fail> {
    let leaver = Watch::default();
    let reader = Watch::default();
    let answer = tried_before_a_reader(&rt, rt.alloc(), &leaver, &reader)?;
    assert!(rt; answer == (Err(7), true));
    Ok(())
}
