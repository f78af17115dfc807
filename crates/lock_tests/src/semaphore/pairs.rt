//! A semaphore with two tasks, for tests.
ghost use Rattle.std.specs.Prelude.{◌≡◌, IfOk, None};
ghost use Rattle.lock_core.specs.Nothings.{nothing};
ghost use Rattle.lock_core.specs.Records.{IsPlan};
ghost use Rattle.rwsem_slow.specs.RwSemHandles.{hand_in, plan_of};
ghost use Rattle.rwsem_slow.specs.RwSemStanding.{IsReady};

use lock_core::{Nothing, Plan};
use rwsem_slow::{RwPass, RwSem};
use std::alloc::{AllocError, Global};
use std::sync::Wait;
use word_bits::CallWords;

/// How a task takes a semaphore.
#[derive(Clone, Copy, Debug, PartialEq, Eq)]
pub enum Way {
    Shared,
    Alone,
}

/// A semaphore, and the passes of two tasks that hold nothing.
#[derive(Drop)]
pub struct Pair {
    pub sem: RwSem<Nothing>,
    /// The pass of task 0, whose only call is a signal to task 1.
    pub holder: RwPass<Nothing>,
    /// The pass of task 1.
    pub waiter: RwPass<Nothing>,
}

/// A new semaphore, on which two tasks have begun.
pub fn open_pair(rt: &impl Wait, alloc: Global) -> Result<Pair, AllocError>
    ensures planned { IfOk result (λ p. IsPlan nothing (plan_of p.sem)) }
    ensures holder { IfOk result (λ p. IsReady p.sem p.holder) }
    ensures unsent { IfOk result (λ p. (hand_in p.holder).sent ≡ None) }
    ensures waiter { IfOk result (λ p. IsReady p.sem p.waiter) }
{
    let mut plan = Plan::new(alloc, 2)?;
    plan.push(0, CallWords { a: 1, b: 15 })?;
    let (sem, mut holder) = RwSem::<Nothing>::open(alloc, plan)?;
    let mut waiter = sem.split(&mut holder);
    sem.begin(rt, &mut holder, 0);
    sem.begin(rt, &mut waiter, 1);
    Ok(Pair {
        sem,
        holder,
        waiter,
    })
}
