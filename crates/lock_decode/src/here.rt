//! The words of the locks here, as docs/LOCK_WORDS.md has them.
ghost use Rattle.std.specs.Prelude.{◌≡◌, ◌<◌, ◌≤◌, ◌^◌, ◌↔◌, IfSome, IsTrue};
ghost use Rattle.word_bits.specs.OwnerWord.{owner_word, task_code};
ghost use Rattle.word_bits.specs.CountWord.{count_word};
ghost use Rattle.word_bits.specs.SpinWord.{spin_word};
ghost use Rattle.lock_decode.specs.Decodes.{Decodes};
ghost use Rattle.lock_decode.specs.Here.{CodeFault, CountFault, IsLockSpin, IsMutexOwner, IsSemaphoreCount, IsTask, OwnerFault, SpinFault};

use crate::flags::fault_of;
use crate::why::Why;
use word_bits::{Count, MAX_TASKS, Owner, Spin};

/// What the owner word of a mutex says.
pub fn mutex_owner(word: u64) -> Result<Owner, Why>
    ensures { Decodes IsMutexOwner owner_word OwnerFault word result }
{
    let Some(owner) = Owner::unpack(word) else {
        return Err(Why::NoSuchTask);
    };
    match fault_of(
        owner.task.is_some(),
        owner.waiters,
        owner.handoff,
        owner.pickup,
    ) {
        None => Ok(owner),
        Some(why) => Err(why),
    }
}

/// What the count of a semaphore says.
pub fn semaphore_count(word: u64) -> Result<Count, Why>
    ensures { Decodes IsSemaphoreCount count_word CountFault word result }
{
    let Some(count) = Count::unpack(word) else {
        return Err(Why::UnusedBit);
    };
    if count.read_fail {
        return Err(Why::ReadFail);
    }
    if count.readers > u64::from(MAX_TASKS) + 1 {
        return Err(Why::TooManyReaders);
    }
    if count.handoff && !count.waiters {
        return Err(Why::FlagWithoutWaiters);
    }
    Ok(count)
}

/// Whether a tail's code has the number of a node without a CPU.
fn has_node_alone(tail: u64) -> bool
    ensures { IsTrue result ↔ ((0 < tail) × (tail < 4)) }
{
    tail != 0 && tail < 4
}

/// What the word of a queued spin lock says.
pub fn spin_lock(word: u64) -> Result<Spin, Why>
    ensures { Decodes IsLockSpin spin_word SpinFault word result }
{
    if has_node_alone(word / 512) {
        return Err(Why::NodeOfNoCpu);
    }
    let Some(spin) = Spin::unpack(word) else {
        return Err(Why::UnusedBit);
    };
    match spin.tail {
        Some(tail) if tail.cpu >= MAX_TASKS => Err(Why::NoSuchTask),
        _ => Ok(spin),
    }
}

/// The task or the CPU of a code, its number plus 1, or `None` of 0. Numbers are below the limit.
pub(crate) fn number_of(word: u64, limit: u32) -> Result<Option<u32>, Why>
    ensures { Decodes (λ number. IfSome number (λ n. n < limit)) task_code (CodeFault limit)
        word result }
{
    if word > u64::from(limit) {
        return Err(Why::NoSuchTask);
    }
    match word {
        0 => Ok(None),
        _ => Ok(Some((word - 1) as u32)),
    }
}

/// The CPU whose node is the last of a spin queue, by the queue's tail.
pub fn queue_tail(word: u64) -> Result<Option<u32>, Why>
    ensures { Decodes IsTask task_code (CodeFault MAX_TASKS) word result }
{
    number_of(word, MAX_TASKS)
}

/// The task that blocks a per-CPU semaphore, by its block word.
pub fn blocker(word: u64) -> Result<Option<u32>, Why>
    ensures { Decodes IsTask task_code (CodeFault MAX_TASKS) word result }
{
    number_of(word, MAX_TASKS)
}
