//! Data under locks, with an invariant of the user's own. Amounts are moved between two accounts,
//! whose sum is kept under a mutex, and under a semaphore beside readers. Then a queue passes items
//! from one thread to another.
#![tactic(auto)]

mod bank;
mod queue;
mod shared_bank;
mod sum;

use cpu_task::Turns;
use std::alloc::{AllocError, Global};
use std::io;
use std::process::ExitCode;
use std::sync::Wait;
use std::thread::Threads;

/// A task looks 100 times before it sleeps, and a waiter that tried 4 times in vain asks for the
/// lock.
const TURNS: Turns = Turns {
    spin: 100,
    overdue: 4,
};

/// How often each thread moves an amount, or reads.
const ROUNDS: u32 = 1000;

/// How many items go through the queue.
const ITEMS: u32 = 1000;

/// What the threads found.
#[derive(Drop)]
struct Found {
    /// The two accounts' sum under the mutex, and what they should add up to.
    bank: (u64, u64),
    /// The same under the semaphore.
    shared: (u64, u64),
    /// How often a reader found that the accounts don't add up.
    apart: u32,
    /// The items that came out of the queue.
    taken: Vec<u64>,
}

/// The squares of the numbers below this one.
fn squares(alloc: Global, count: u32) -> Result<Vec<u64>, AllocError> {
    let mut squares = Vec::new(alloc);
    for number in 0..count {
        squares.push(u64::from(number) * u64::from(number))?;
    }
    Ok(squares)
}

fn find<R: Threads + Wait + Sync>(rt: &R, alloc: Global) -> Result<Found, AllocError> {
    let (first, second, total) = bank::moved(rt, alloc)?;
    let (shared, apart) = shared_bank::moved(rt, alloc)?;
    let squares = squares(alloc, ITEMS)?;
    let taken = queue::relay(rt, alloc, squares.as_slice())?;
    Ok(Found {
        bank: (first + second, total),
        shared: (shared.0 + shared.1, shared.2),
        apart,
        taken,
    })
}

fn print(rt: &HostRuntime, found: Result<Found, AllocError>) -> io::Result<()> {
    let found = found?;
    let (sum, total) = found.bank;
    println!(rt; "mutex: {sum} of {total}")?;
    let (sum, total) = found.shared;
    println!(rt;
        "semaphore: {sum} of {total}, {} readings apart",
        found.apart
    )?;
    let last = found.taken.last().copied().unwrap_or(0);
    println!(rt; "queue: {} items, the last {last}", found.taken.len())
}

fn main(rt: HostRuntime) -> ExitCode {
    let found = find(&rt, rt.alloc());
    match print(&rt, found) {
        Ok(()) => ExitCode::SUCCESS,
        Err(_) => ExitCode::FAILURE,
    }
}
