//! Times locks: rounds of taking and releasing, and faults with and without the lock, on threads.
//! The words are CASE THREADS ROUNDS. Without words each case runs a little, and no time is told.
#![tactic(auto)]

ghost use Rattle.std.specs.Prelude.{◌<◌};

mod crewed;
mod exchange;
mod front;
mod kept;
mod locked_faults;
mod nested;
mod percpu;
mod plan;
mod seq_faults;
mod spin;
mod timed;
mod work;

use crewed::{Mixed, Read, Write, crewed_rounds};
use exchange::Exchanges;
use kept::Raising;
use lock_core::{Bare, Nest, Nothing, Site};
use locked_faults::locked_fault_rounds;
use mutex_slow::Mutex;
use osq_nodes::Osq;
use percpu::PercpuReaders;
use rwsem_slow::RwSem;
use seq_fault::SeqSpace;
use std::alloc::Global;
use std::process::ExitCode;
use std::sync::Wait;
use std::thread::Threads;
use std::time::{Clock, Duration};
use std::{env, io};
use timed::rounds;
use vma_map::Areas;
use word_bits::MAX_TASKS;
use work::working_rounds;

/// What is done in a round.
#[derive(Clone, Copy, Debug, PartialEq, Eq)]
enum Case {
    /// The queued spin lock.
    Spin,
    /// Two queued spin locks of one table, one taken within the other.
    Nested,
    /// The front of the optimistic spin queue.
    Head,
    /// The mutex, whose waiters sleep on parkers.
    Mutex,
    /// The mutex, with four words raised inside and twenty dependent steps outside.
    Work,
    /// The same, with the four words under the mutex, whose invariant is that they are equal.
    Kept,
    /// The semaphore, held by readers.
    Read,
    /// The semaphore, held by writers.
    Write,
    /// The semaphore, held by a writer in one round of ten.
    Mixed,
    /// The per-CPU semaphore, held by readers.
    Percpu,
    /// A fault on an address space under its semaphore.
    Fault,
    /// The same fault without the lock.
    SeqFault,
    /// No lock: two exchanges of a word, to compare with.
    Exchange,
}

/// The cases, each behind its word.
const CASES: [(&str, Case); 13] = [
    ("spin", Case::Spin),
    ("nested", Case::Nested),
    ("front", Case::Head),
    ("mutex", Case::Mutex),
    ("work", Case::Work),
    ("kept", Case::Kept),
    ("read", Case::Read),
    ("write", Case::Write),
    ("mixed", Case::Mixed),
    ("percpu", Case::Percpu),
    ("fault", Case::Fault),
    ("seq_fault", Case::SeqFault),
    ("exchange", Case::Exchange),
];

// A struct that is generic over its lock takes long to prove where it is named over a concrete one.
// So it is named by functions that are generic too.
/// Each of so many threads makes so many rounds. How long the threads took.
fn measure<R: Threads + Wait + Sync + Clock>(
    rt: &R,
    alloc: Global,
    case: Case,
    threads: u32,
    count: u32,
) -> io::Result<Duration>
    requires { threads < MAX_TASKS }
{
    match case {
        Case::Spin => rounds::<Site<Bare>, R>(rt, alloc, threads, count),
        Case::Nested => rounds::<Site<Nest>, R>(rt, alloc, threads, count),
        Case::Head => rounds::<Osq, R>(rt, alloc, threads, count),
        Case::Mutex => crewed_rounds::<Mutex<Nothing>, Write, R>(rt, alloc, threads, count),
        Case::Work => working_rounds::<Mutex<Nothing>, R>(rt, alloc, threads, count),
        Case::Kept => rounds::<Raising, R>(rt, alloc, threads, count),
        Case::Read => crewed_rounds::<RwSem<Nothing>, Read, R>(rt, alloc, threads, count),
        Case::Write => crewed_rounds::<RwSem<Nothing>, Write, R>(rt, alloc, threads, count),
        Case::Mixed => crewed_rounds::<RwSem<Nothing>, Mixed, R>(rt, alloc, threads, count),
        Case::Percpu => rounds::<PercpuReaders, R>(rt, alloc, threads, count),
        Case::Fault => locked_fault_rounds::<RwSem<Areas>, R>(rt, alloc, threads, count),
        Case::SeqFault => rounds::<SeqSpace, R>(rt, alloc, threads, count),
        Case::Exchange => rounds::<Exchanges, R>(rt, alloc, threads, count),
    }
}

/// What the words ask for: a case behind its word, threads and rounds.
fn asked(words: &[String]) -> Option<((&'static str, Case), u32, u32)> {
    let [case, threads, rounds] = words else {
        return None;
    };
    let threads = threads.parse().ok()?;
    let rounds = rounds.parse().ok()?;
    let case = CASES.into_iter().find(|(name, _)| *name == case.as_str())?;
    Some((case, threads, rounds))
}

/// What main does, over the runtime twice: as what prints, and as what starts threads.
fn run<R: Threads + Wait + Sync + Clock>(rt: &HostRuntime, crew: &R) -> io::Result<ExitCode> {
    let mut words = Vec::new(rt.alloc());
    for word in env::args(rt)?.skip(1) {
        words.push(word)?;
    }
    if words.is_empty() {
        for (name, case) in CASES {
            measure(crew, rt.alloc(), case, 2, 100)?;
            println!(rt; "{name} 2 100")?;
        }
        return Ok(ExitCode::SUCCESS);
    }
    let Some(((name, case), threads, rounds)) = asked(words.as_slice()) else {
        println!(rt;
            "usage: lock_bench [CASE THREADS ROUNDS], the case one of spin, nested, front, mutex, \
             work, kept, read, write, mixed, percpu, fault, seq_fault, exchange"
        )?;
        return Ok(ExitCode::from(2));
    };
    if threads >= MAX_TASKS {
        println!(rt; "fewer than {MAX_TASKS} threads")?;
        return Ok(ExitCode::from(2));
    }
    let spent = measure(crew, rt.alloc(), case, threads, rounds)?.as_nanos();
    let made = u128::from(threads) * u128::from(rounds);
    println!(rt;
        "{name} {threads} {rounds}: {} ns a round, {} ns on its thread",
        spent / made.max(1),
        spent / u128::from(rounds.max(1))
    )?;
    Ok(ExitCode::SUCCESS)
}

fn main(rt: HostRuntime) -> ExitCode {
    match run(&rt, &rt) {
        Ok(code) => code,
        Err(_) => ExitCode::FAILURE,
    }
}
