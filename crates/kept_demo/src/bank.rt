//! The accounts under a mutex.
ghost use Rattle.std.specs.Prelude.{◌≡◌, ◌+◌, IfOk};

use crate::sum::{OPENING, Sum, read, transfer};
use crate::{ROUNDS, TURNS};
use cpu_task::ParkCrew;
use kept_words::{KeptMutex, MutexTask};
use std::alloc::{AllocError, Global};
use std::sync::Wait;
use std::thread::{Threads, join};

/// One thread's work: it moves amounts.
fn work<W: Wait>(rt: &W, mut task: MutexTask<Sum>, back: bool) {
    for round in 0..ROUNDS {
        task.with(rt, |bank| transfer(bank, back, u64::from(round)));
    }
}

/// What is in the accounts once two threads have moved amounts between them, and their total.
pub fn moved<R: Threads + Wait + Sync>(rt: &R, alloc: Global) -> Result<(u64, u64, u64), AllocError>
    ensures { IfOk result (λ r. r.0 + r.1 ≡ r.2) }
{
    let crew = ParkCrew::new(alloc, 3)?;
    let mut tasks = KeptMutex::<Sum, ParkCrew>::open(rt, alloc, crew, TURNS, 3, &OPENING)?;
    let (Some(mut auditor), Some(one), Some(two)) = (tasks.pop(), tasks.pop(), tasks.pop()) else {
        unreachable!()
    };
    join(rt, || work(rt, one, false), || work(rt, two, true));
    Ok(auditor.with(rt, |bank| read(bank)))
}
