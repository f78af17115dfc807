//! A mutex with three tasks, and how a task takes it, for tests.
ghost use Rattle.std.specs.Prelude.{◌≡◌, IfOk, None};
ghost use Rattle.lock_core.specs.Nothings.{nothing};
ghost use Rattle.lock_core.specs.Records.{IsPlan};
ghost use Rattle.mutex_slow.specs.MutexHandles.{hand_in, plan_of};
ghost use Rattle.mutex_slow.specs.MutexStanding.{IsHolder, IsReady};

use cpu_task::Crew;
use lock_core::{How, Nothing, Plan};
use mutex_slow::{Mutex, MutexPass};
use std::alloc::{AllocError, Global};
use std::process::Abort;
use std::sync::Wait;
use word_bits::CallWords;

/// A mutex, and the passes of three tasks.
#[derive(Drop)]
pub struct Three {
    pub mutex: Mutex<Nothing>,
    /// The pass of task 0, whose only call is a signal to task 1.
    pub holder: MutexPass<Nothing>,
    /// The pass of task 1, which is to wait.
    pub waiter: MutexPass<Nothing>,
    /// The pass of task 2.
    pub other: MutexPass<Nothing>,
}

/// A new mutex, on which three tasks have begun.
pub fn open_free(rt: &impl Wait, alloc: Global) -> Result<Three, AllocError>
    ensures planned { IfOk result (λ t. IsPlan nothing (plan_of t.mutex)) }
    ensures holder { IfOk result (λ t. IsReady t.mutex t.holder) }
    ensures unsent { IfOk result (λ t. (hand_in t.holder).sent ≡ None) }
    ensures waiter { IfOk result (λ t. IsReady t.mutex t.waiter) }
    ensures other { IfOk result (λ t. IsReady t.mutex t.other) }
{
    let mut plan = Plan::new(alloc, 3)?;
    plan.push(0, CallWords { a: 1, b: 15 })?;
    let (mutex, mut holder) = Mutex::<Nothing>::open(alloc, plan)?;
    let mut waiter = mutex.split(&mut holder);
    let mut other = mutex.split(&mut holder);
    mutex.begin(rt, &mut holder, 0);
    mutex.begin(rt, &mut waiter, 1);
    mutex.begin(rt, &mut other, 2);
    Ok(Three {
        mutex,
        holder,
        waiter,
        other,
    })
}

/// A new mutex that task 0 holds.
pub fn open_held(rt: &(impl Wait + Abort), alloc: Global) -> Result<Three, AllocError>
    ensures holder { IfOk result (λ t. IsHolder t.mutex t.holder) }
    ensures waiter { IfOk result (λ t. IsReady t.mutex t.waiter) }
    ensures other { IfOk result (λ t. IsReady t.mutex t.other) }
{
    let Three {
        mutex,
        mut holder,
        waiter,
        other,
    } = open_free(rt, alloc)?;
    assert!(rt; mutex.trylock_once(&mut holder).is_ok());
    Ok(Three {
        mutex,
        holder,
        waiter,
        other,
    })
}

/// How the pass's task gets the mutex, and how often it has fallen asleep then.
pub fn lock_and_count<W: Wait, C: Crew>(
    rt: &W,
    mutex: &Mutex<Nothing>,
    crew: &C,
    mut cpu: C::C,
    mut pass: MutexPass<Nothing>,
) -> (How, u64)
    requires { IsReady mutex.now pass }
{
    let how = mutex.lock(rt, &mut pass, &mut cpu, crew);
    (how, pass.dozes())
}
