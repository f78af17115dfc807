//! A bounded queue under a mutex: a producer puts items, a consumer takes them.
ghost use Rattle.std.specs.Prelude.{◌≡◌, ◌≤◌, ◌<◌, ℕ, length, slice_index, vec_len, vec_capacity, IfOk, IfSome};
ghost use Rattle.kept_words.specs.Keeping.{HoldsAlone};
ghost use Rattle.kept_demo.specs.Queues.{IsQueue};

use crate::TURNS;
use cpu_task::ParkCrew;
use kept_words::{Invariant, Kept, KeptMutex, MutexTask};
use std::alloc::{AllocError, Global};
use std::marker::{Brand, PhantomData};
use std::sync::Wait;
use std::thread;
use std::thread::{Threads, join};

/// How many items were taken, how many were put, and where the items stand.
const TAKEN: usize = 0;

const PUT: usize = 1;

const SLOTS: usize = 2;

/// How many items the queue has room for.
const ROOM: u64 = 8;

/// The items that go through a queue, in order. The call that makes a queue picks them.
pub trait Items {
    ghost item: { ℕ → ℕ };
}

impl Items for Brand {
    ghost item = { λ _. 0 };
}

/// The words of a queue through which these items go.
#[derive(Drop)]
struct Queue<T> {
    items: PhantomData<T>,
}

impl<T: Items> Invariant for Queue<T> {
    ghost use Rattle.std.proofs.Common.{lit≤};

    const WORDS: usize = 10;

    ghost WORDS = { 10 };

    ghost keeps = { IsQueue T.item };

    ghost few = { lit≤ tt };
}

/// Puts the item of this number, if those before it were put and there is room. Says whether it
/// did.
fn put<T: Items>(queue: &mut KeptMutex<Queue<T>, ParkCrew>, number: u64, item: u64) -> bool
    requires queue { HoldsAlone (IsQueue T.item) queue.old.hold }
    requires item { item ≡ T.item number }
    ensures { HoldsAlone (IsQueue T.item) queue.new.hold }
{
    let taken = queue.get(TAKEN);
    let next = queue.get(PUT);
    if next != number || next - taken >= ROOM || next == u64::MAX {
        return false;
    }
    queue.set(SLOTS + (next % ROOM) as usize, item);
    queue.set(PUT, next + 1);
    true
}

/// Takes the item of this number, if those before it were taken and it was put.
fn take<T: Items>(queue: &mut KeptMutex<Queue<T>, ParkCrew>, number: u64) -> Option<u64>
    requires { HoldsAlone (IsQueue T.item) queue.old.hold }
    ensures queue { HoldsAlone (IsQueue T.item) queue.new.hold }
    ensures item { IfSome result (λ item. item ≡ T.item number) }
{
    let next = queue.get(TAKEN);
    let put = queue.get(PUT);
    if next != number || next >= put {
        return None;
    }
    let item = queue.get(SLOTS + (next % ROOM) as usize);
    queue.set(TAKEN, next + 1);
    Some(item)
}

/// The same, in a hold of its own.
fn take_alone<T: Items + Drop, W: Wait>(
    rt: &W,
    task: &mut MutexTask<Queue<T>>,
    number: u64,
) -> Option<u64>
    ensures { IfSome result (λ item. item ≡ T.item number) }
{
    task.with(rt, |queue| take::<T>(queue, number))
}

/// Puts all items.
fn put_all<T: Items + Drop, W: Wait>(rt: &W, mut task: MutexTask<Queue<T>>, items: &[u64])
    requires { (i : ℕ) → i < length items.now → slice_index items.now i ≡ T.item i }
{
    let mut next = 0;
    for _ in rt.forever() {
        if next >= items.len() {
            break;
        }
        let item = items[next];
        if task.with(rt, |queue| put::<T>(queue, next as u64, item)) {
            next += 1;
        } else {
            thread::yield_now();
        }
    }
}

/// Takes so many items, for which the row has room.
fn take_all<T: Items + Drop, W: Wait>(
    rt: &W,
    mut task: MutexTask<Queue<T>>,
    mut taken: Vec<u64>,
    count: usize,
) -> Vec<u64>
    requires empty { vec_len taken ≡ 0 }
    requires room { count ≤ vec_capacity taken }
    ensures all { vec_len result ≡ count }
    ensures items { (i : ℕ) → i < count → slice_index result.items i ≡ T.item i }
{
    for _ in rt.forever() {
        let number = taken.len();
        if number >= count {
            break;
        }
        match take_alone::<T, W>(rt, &mut task, number as u64) {
            Some(item) => taken.push_reserved(item),
            None => thread::yield_now(),
        }
    }
    taken
}

/// What comes out of a queue through which one thread passes these items to another.
fn relay_as<T: Items + Drop + Send + Sync, R: Threads + Wait + Sync>(
    rt: &R,
    alloc: Global,
    items: &[u64],
) -> Result<Vec<u64>, AllocError>
    requires { (i : ℕ) → i < length items.now → slice_index items.now i ≡ T.item i }
    ensures { IfOk result (λ v. v.items ≡ items.now) }
{
    let taken = Vec::with_capacity(alloc, items.len())?;
    let crew = ParkCrew::new(alloc, 2)?;
    let mut tasks = KeptMutex::<Queue<T>, ParkCrew>::open(rt, alloc, crew, TURNS, 2, &[0; 10])?;
    let (Some(producer), Some(consumer)) = (tasks.pop(), tasks.pop()) else {
        unreachable!()
    };
    let count = items.len();
    let ((), taken) = join(
        rt,
        ||
            requires { (i : ℕ) → i < length items.now → slice_index items.now i ≡ T.item i }
        { put_all::<T, R>(rt, producer, items) },
        || -> Vec<u64>
            requires empty { vec_len taken ≡ 0 }
            requires room { count ≤ vec_capacity taken }
            ensures all { vec_len result ≡ count }
            ensures items { (i : ℕ) → i < count → slice_index result.items i ≡ T.item i }
        { take_all::<T, R>(rt, consumer, taken, count) },
    );
    Ok(taken)
}

/// The same items, in the same order.
pub fn relay<R: Threads + Wait + Sync>(
    rt: &R,
    alloc: Global,
    items: &[u64],
) -> Result<Vec<u64>, AllocError>
    ensures { IfOk result (λ v. v.items ≡ items.now) }
{
    relay_as::<Brand, R>(rt, alloc, items)
}
