//! The accounts under a semaphore, beside readers.
ghost use Rattle.std.specs.Prelude.{◌≡◌, ◌+◌, IfOk};

use crate::sum::{OPENING, Sum, read, transfer};
use crate::{ROUNDS, TURNS};
use cpu_task::ParkCrew;
use kept_words::{Kept, KeptRwSem, KeptShared, RwTask};
use std::alloc::{AllocError, Global};
use std::sync::Wait;
use std::thread::{Threads, join};

/// Moves amounts, and goes on as a reader after the last. Answers what it then finds.
fn write<W: Wait>(rt: &W, mut task: RwTask<Sum>) -> (u64, u64, u64)
    ensures { result.0 + result.1 ≡ result.2 }
{
    for round in 0..ROUNDS {
        task.with(rt, |bank| transfer(bank, false, u64::from(round)));
    }
    let mut bank = task.into_kept();
    bank.lock(rt);
    transfer(&mut bank, false, 1);
    bank.downgrade(rt);
    let found = read(&mut bank);
    bank.unlock_shared(rt);
    found
}

/// Reads the accounts. Answers how often they didn't add up.
fn watch<W: Wait>(rt: &W, mut task: RwTask<Sum>) -> u32
    ensures { result ≡ 0 }
{
    let mut apart = 0;
    for _ in 0..ROUNDS {
        let (first, second, total) = task.with_shared(rt, |bank| read(bank));
        if first + second != total {
            apart += 1;
        }
    }
    apart
}

/// Two readers at once. Answers how often they found that the accounts don't add up.
fn watch_twice<R: Threads + Wait + Sync>(rt: &R, one: RwTask<Sum>, two: RwTask<Sum>) -> u32
    ensures { result ≡ 0 }
{
    let (apart, more) = join(rt, || watch(rt, one), || watch(rt, two));
    apart + more
}

/// What is in the accounts once a writer has moved amounts beside two readers, and how often these
/// found that they don't add up.
pub fn moved<R: Threads + Wait + Sync>(
    rt: &R,
    alloc: Global,
) -> Result<((u64, u64, u64), u32), AllocError>
    ensures sum { IfOk result (λ r. r.0.0 + r.0.1 ≡ r.0.2) }
    ensures apart { IfOk result (λ r. r.1 ≡ 0) }
{
    let crew = ParkCrew::new(alloc, 3)?;
    let mut tasks = KeptRwSem::<Sum, ParkCrew>::open(rt, alloc, crew, TURNS, 3, &OPENING)?;
    let (Some(writer), Some(one), Some(two)) = (tasks.pop(), tasks.pop(), tasks.pop()) else {
        unreachable!()
    };
    let found = join(rt, || write(rt, writer), || watch_twice(rt, one, two));
    Ok(found)
}
