//! Rows of a per-CPU semaphore. The code of task t is t + 1.
use crate::percpu_calls::{Job, hold_alone, let_go_alone, start, write};
use crate::percpu_plans::{map_pages, one_call};
use cpu_task::{Crew, ScriptedCrew, Turns};
use lock_core::{Held, Nothing, Plan, SiteLock};
use percpu_rwsem::PercpuRwSem;
use std::test::Fail;
use vma_map::Areas;
use word_bits::Reply;

const NO_TURNS: Turns = Turns {
    spin: 0,
    overdue: 0,
};

#[test]
fn a_writer_waits_for_a_reader_inside(rt: HostRuntime) -> Result<(), Fail> {
    let plan = Plan::new(rt.alloc(), 2)?;
    let (lock, mut zero) = PercpuRwSem::<Nothing>::open(rt.alloc(), plan)?;
    let mut one = lock.split(&mut zero);
    lock.begin(&rt, &mut zero, 0);
    lock.begin(&rt, &mut one, 1);
    let crew = ScriptedCrew::new(rt.alloc(), Vec::new(rt.alloc()), Vec::new(rt.alloc()))?;
    assert!(rt; lock.read_try(&mut zero).is_ok());
    assert!(rt; lock.block(&mut one).is_ok());
    assert!(rt; lock.drain(&mut one) == Err(0));
    assert!(rt; one.blocks());
    lock.up_read(&mut zero, &crew);
    assert!(rt; lock.drain(&mut one).is_ok());
    assert!(rt; lock.held(&one) == Held::Alone);
    Ok(())
}

#[test]
fn a_task_that_blocks_turns_readers_and_writers_away(rt: HostRuntime) -> Result<(), Fail> {
    let plan = Plan::new(rt.alloc(), 3)?;
    let (lock, mut zero) = PercpuRwSem::<Nothing>::open(rt.alloc(), plan)?;
    let mut one = lock.split(&mut zero);
    let mut two = lock.split(&mut zero);
    lock.begin(&rt, &mut zero, 0);
    lock.begin(&rt, &mut one, 1);
    lock.begin(&rt, &mut two, 2);
    let crew = ScriptedCrew::new(rt.alloc(), Vec::new(rt.alloc()), Vec::new(rt.alloc()))?;
    assert!(rt; lock.read_try(&mut zero).is_ok());
    assert!(rt; lock.block(&mut one).is_ok());
    assert!(rt; lock.read_try(&mut two) == Err(2));
    assert!(rt; lock.block(&mut two) == Err(2));
    lock.unblock(&mut one, &crew);
    assert!(rt; lock.read_try(&mut two).is_ok());
    Ok(())
}

#[test]
fn a_reader_sees_what_a_writer_wrote(rt: HostRuntime) -> Result<(), Fail> {
    let words = map_pages();
    let plan = one_call(rt.alloc(), words)?;
    let (lock, mut one) = PercpuRwSem::<Areas>::open(rt.alloc(), plan)?;
    let mut two = lock.split(&mut one);
    start(&rt, &lock, &mut one, 1);
    start(&rt, &lock, &mut two, 2);
    let job = Job::new(1, 1, words);
    let mut crew = ScriptedCrew::new(rt.alloc(), Vec::new(rt.alloc()), Vec::new(rt.alloc()))?;
    let mut cpu = crew.cpu(rt.alloc(), 1, NO_TURNS)?;
    hold_alone(&rt, &lock, &mut one, &mut cpu, &crew, job);
    assert!(rt; write(&lock, &mut one, job) == Some(Reply::Num(16)));
    let_go_alone(&lock, &mut one, &crew, job);
    assert!(rt; lock.read_try(&mut two).is_ok());
    assert!(rt; lock.word(&mut two, 0) == 1);
    Ok(())
}

#[test]
fn a_plan_without_tasks_opens(rt: HostRuntime) -> Result<(), Fail> {
    let plan = Plan::new(rt.alloc(), 0)?;
    let (lock, mut pass) = PercpuRwSem::<Nothing>::open(rt.alloc(), plan)?;
    let other = lock.split(&mut pass);
    lock.gather(&mut pass, other);
    lock.recall(&mut pass);
    Ok(())
}
