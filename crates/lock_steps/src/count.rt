//! The steps on a semaphore's count, but for a reader's look and a queued writer's try.
ghost use Rattle.std.specs.Prelude.{◌≡◌, ◌+◌, ◌-◌, ◌<◌, ◌≤◌, ◌||◌, IfSome, ℕ, true, false};
ghost use Rattle.std.specs.Option.{SomeIff};
ghost use Rattle.lock_decode.specs.Here.{IsSemaphoreCount};
ghost use Rattle.lock_steps.specs.CountSteps.{CanBatch, IsOpen, IsUnlocked, asked_by, batched, biased, downgraded, flagless, queued_back, unbiased, with_waiters, with_writer, without_writer};

use word_bits::{Count, MAX_TASKS};

const MOST: u64 = MAX_TASKS as u64 + 1;

/// A bias more: a reader that asks whether it may come in, or a waker that reserves one. `None`
/// where the count has one for each task and one for a waker.
pub fn add_bias(count: Count) -> Option<Count>
    requires { IsSemaphoreCount count }
    ensures word { SomeIff result (count.readers < MAX_TASKS + 1) (biased count) }
    ensures lawful { IfSome result IsSemaphoreCount }
{
    if count.readers >= MOST {
        return None;
    }
    let readers = count.readers + 1;
    Some(Count { readers, ..count })
}

/// A bias less: a reader in transit takes its own back, or one that holds releases. `None` where
/// none is counted.
pub fn take_bias(count: Count) -> Option<Count>
    requires { IsSemaphoreCount count }
    ensures word { SomeIff result (0 < count.readers) (unbiased count) }
    ensures lawful { IfSome result IsSemaphoreCount }
{
    if count.readers == 0 {
        return None;
    }
    let readers = count.readers - 1;
    Some(Count { readers, ..count })
}

/// A reader queues: a bias less, and WAITERS in the same step where it is alone in the list.
/// `None` where none is counted, or where it is alone and WAITERS is set.
pub fn read_back(count: Count, alone: bool) -> Option<Count>
    requires { IsSemaphoreCount count }
    ensures word { SomeIff result
        ((0 < count.readers) × (alone ≡ true → count.waiters ≡ false)) (queued_back count alone) }
    ensures lawful { IfSome result IsSemaphoreCount }
{
    if count.readers == 0 || (alone && count.waiters) {
        return None;
    }
    let readers = count.readers - 1;
    let waiters = count.waiters || alone;
    Some(Count {
        readers,
        waiters,
        ..count
    })
}

/// A writer takes a free semaphore. `None` where the word isn't 0. The kernel's
/// `__down_write_trylock`.
pub fn write_try(count: Count) -> Option<Count>
    requires { IsSemaphoreCount count }
    ensures word { SomeIff result (IsOpen count) (with_writer count) }
    ensures lawful { IfSome result IsSemaphoreCount }
{
    if count.writer || count.waiters || count.handoff || count.readers != 0 {
        return None;
    }
    let writer = true;
    Some(Count { writer, ..count })
}

/// A writer that spins takes. `None` where a lock bit or HANDOFF is set. The kernel's
/// `rwsem_try_write_lock_unqueued`.
pub fn write_spin(count: Count) -> Option<Count>
    requires { IsSemaphoreCount count }
    ensures word { SomeIff result (IsUnlocked count × (count.handoff ≡ false))
        (with_writer count) }
    ensures lawful { IfSome result IsSemaphoreCount }
{
    if count.writer || count.handoff || count.readers != 0 {
        return None;
    }
    let writer = true;
    Some(Count { writer, ..count })
}

/// A writer queues as the first: the count with WAITERS. `None` where it is set.
pub fn set_waiters(count: Count) -> Option<Count>
    requires { IsSemaphoreCount count }
    ensures word { SomeIff result (count.waiters ≡ false) (with_waiters count) }
    ensures lawful { IfSome result IsSemaphoreCount }
{
    if count.waiters {
        return None;
    }
    let waiters = true;
    Some(Count { waiters, ..count })
}

/// The last waiter leaves: the count without WAITERS and HANDOFF. `None` where WAITERS is clear.
pub fn clear_flags(count: Count) -> Option<Count>
    requires { IsSemaphoreCount count }
    ensures word { SomeIff result (count.waiters ≡ true) (flagless count) }
    ensures lawful { IfSome result IsSemaphoreCount }
{
    if !count.waiters {
        return None;
    }
    let waiters = false;
    let handoff = false;
    Some(Count {
        waiters,
        handoff,
        ..count
    })
}

/// A waker that found a writer takes its bias back, and sets HANDOFF in the same step where it
/// marks the first waiter. `None` where no bias is counted, or nobody waits.
pub fn unreserve(count: Count, marks: bool) -> Option<Count>
    requires { IsSemaphoreCount count }
    ensures word { SomeIff result ((0 < count.readers) × (count.waiters ≡ true))
        (asked_by (unbiased count) marks) }
    ensures lawful { IfSome result IsSemaphoreCount }
{
    if count.readers == 0 || !count.waiters {
        return None;
    }
    let readers = count.readers - 1;
    let handoff = count.handoff || marks;
    Some(Count {
        readers,
        handoff,
        ..count
    })
}

/// A wake's one sum: a bias for each reader of its batch, less its own where it reserved one, less
/// HANDOFF, and less WAITERS where the list is empty now. `None` where nobody waits, the batch is
/// empty, its own bias isn't counted, or there would be too many.
pub fn count_batch(count: Count, readers: u64, reserved: bool, empty: bool) -> Option<Count>
    requires { IsSemaphoreCount count }
    ensures word { SomeIff result (CanBatch count readers reserved)
        (batched count readers reserved empty) }
    ensures lawful { IfSome result IsSemaphoreCount }
{
    let own = u64::from(reserved);
    if !count.waiters || readers == 0 || readers > MOST || count.readers < own {
        return None;
    }
    let sum = count.readers - own + readers;
    if sum > MOST {
        return None;
    }
    Some(Count {
        writer: count.writer,
        waiters: !empty,
        handoff: false,
        readers: sum,
        read_fail: count.read_fail,
    })
}

/// A reader releases. `None` where no reader can hold: none is counted, or a writer holds.
pub fn up_read(count: Count) -> Option<Count>
    requires { IsSemaphoreCount count }
    ensures word { SomeIff result ((0 < count.readers) × (count.writer ≡ false))
        (unbiased count) }
    ensures lawful { IfSome result IsSemaphoreCount }
{
    if count.readers == 0 || count.writer {
        return None;
    }
    let readers = count.readers - 1;
    Some(Count { readers, ..count })
}

/// A writer releases. `None` where none holds.
pub fn up_write(count: Count) -> Option<Count>
    requires { IsSemaphoreCount count }
    ensures word { SomeIff result (count.writer ≡ true) (without_writer count) }
    ensures lawful { IfSome result IsSemaphoreCount }
{
    if !count.writer {
        return None;
    }
    let writer = false;
    Some(Count { writer, ..count })
}

/// A writer holds as a reader from now on, in one step. `None` where none holds, or there would be
/// too many readers.
pub fn downgrade(count: Count) -> Option<Count>
    requires { IsSemaphoreCount count }
    ensures word { SomeIff result ((count.writer ≡ true) × (count.readers < MAX_TASKS + 1))
        (downgraded count) }
    ensures lawful { IfSome result IsSemaphoreCount }
{
    if !count.writer || count.readers >= MOST {
        return None;
    }
    let writer = false;
    let readers = count.readers + 1;
    Some(Count {
        writer,
        readers,
        ..count
    })
}
