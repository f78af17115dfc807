//! The words of Linux 6.6's locks on 64 bits, as one finds them in a crash dump.
ghost use Rattle.std.specs.Prelude.{◌≡◌, ◌<◌, ◌≤◌, ◌^◌, ◌-◌, ◌%◌, ◌⊎◌, IfSome, Some};
ghost use Rattle.word_bits.specs.Packed.{Unpacks};
ghost use Rattle.word_bits.specs.OwnerWord.{bit, task_code};
ghost use Rattle.word_bits.specs.CountWord.{count_word};
ghost use Rattle.word_bits.specs.SpinWord.{IsSpin, spin_word, tail_code};
ghost use Rattle.lock_decode.specs.Decodes.{Decodes};
ghost use Rattle.lock_decode.specs.Here.{CodeFault};
ghost use Rattle.lock_decode.specs.Linux.{Anything, BlockFault, HasAddress, IsAddress, IsLinuxCount, IsLinuxOwner, IsNarrowSpin, IsNarrowTail, LinuxCountFault, LinuxOwnerFault, NarrowSpinFault, WideSpinFault, address_word, linux_owner_word, narrow_spin_word};

use crate::flags::fault_of;
use crate::here::number_of;
use crate::why::Why;
use word_bits::{Count, Spin, Tail};

/// What the owner word of a `struct mutex` says.
#[derive(Clone, Copy, Debug, PartialEq, Eq)]
pub struct LinuxOwner {
    /// The address of the task's `task_struct`, a multiple of 8, or `None` where nobody holds the
    /// mutex and nobody is picked.
    pub task: Option<u64>,
    /// There are waiters in the list. (`MUTEX_FLAG_WAITERS`)
    pub waiters: bool,
    /// The first waiter asks that the mutex be handed to it. (`MUTEX_FLAG_HANDOFF`)
    pub handoff: bool,
    /// The mutex was handed to the task, which hasn't taken it yet. (`MUTEX_FLAG_PICKUP`)
    pub pickup: bool,
}

fn address_of(word: u64) -> Option<u64>
    ensures ranged { IfSome result IsAddress }
    ensures word { address_word result ≡ word - word % 8 }
{
    match word - word % 8 {
        0 => None,
        address => Some(address),
    }
}

impl LinuxOwner {
    /// The fields of the word, whatever it is.
    fn unpack(word: u64) -> LinuxOwner
        ensures { Unpacks HasAddress linux_owner_word word (Some result) }
    {
        LinuxOwner {
            task: address_of(word),
            waiters: word % 2 == 1,
            handoff: word / 2 % 2 == 1,
            pickup: word / 4 % 2 == 1,
        }
    }
}

/// What the owner word of a `struct mutex` says.
pub fn mutex_owner(word: u64) -> Result<LinuxOwner, Why>
    ensures { Decodes IsLinuxOwner linux_owner_word LinuxOwnerFault word result }
{
    let owner = LinuxOwner::unpack(word);
    match fault_of(
        owner.task.is_some(),
        owner.waiters,
        owner.handoff,
        owner.pickup,
    ) {
        None => Ok(owner),
        Some(why) => Err(why),
    }
}

/// What the count of a `struct rw_semaphore` says.
pub fn semaphore_count(word: u64) -> Result<Count, Why>
    ensures { Decodes IsLinuxCount count_word LinuxCountFault word result }
{
    let Some(count) = Count::unpack(word) else {
        return Err(Why::UnusedBit);
    };
    if count.handoff && !count.waiters {
        return Err(Why::FlagWithoutWaiters);
    }
    Ok(count)
}

fn narrow_tail(code: u64) -> Option<Tail>
    requires small { code < 2 ^ 16 }
    requires whole { (code ≡ 0) ⊎ (4 ≤ code) }
    ensures code { tail_code result ≡ code }
    ensures ranges { IfSome result IsNarrowTail }
{
    match code {
        0 => None,
        _ => Some(Tail {
            cpu: (code / 4 - 1) as u32,
            index: (code % 4) as u32,
        }),
    }
}

/// What the word of a queued spin lock says in a kernel for fewer than 16,384 CPUs.
pub fn narrow_spin(word: u64) -> Result<Spin, Why>
    ensures { Decodes IsNarrowSpin narrow_spin_word NarrowSpinFault word result }
{
    if word > u64::from(u32::MAX) {
        return Err(Why::UnusedBit);
    }
    if word % 256 > 1 {
        return Err(Why::LockedByte);
    }
    if word / 256 % 256 > 1 {
        return Err(Why::PendingByte);
    }
    let tail = word / 65_536;
    if tail != 0 && tail < 4 {
        return Err(Why::NodeOfNoCpu);
    }
    Ok(Spin {
        locked: word % 256 == 1,
        pending: word / 256 % 256 == 1,
        tail: narrow_tail(tail),
    })
}

/// What the word of a queued spin lock says in a kernel for 16,384 CPUs and more.
pub fn wide_spin(word: u64) -> Result<Spin, Why>
    ensures { Decodes IsSpin spin_word WideSpinFault word result }
{
    if word > u64::from(u32::MAX) {
        return Err(Why::UnusedBit);
    }
    if word % 256 > 1 {
        return Err(Why::LockedByte);
    }
    match Spin::unpack(word) {
        Some(spin) => Ok(spin),
        None => Err(Why::NodeOfNoCpu),
    }
}

/// The CPU whose node is the last of a `struct optimistic_spin_queue`, by its tail.
pub fn queue_tail(word: u64) -> Result<Option<u32>, Why>
    ensures { Decodes (λ cpu. IfSome cpu (λ n. n < 2 ^ 31 - 1)) task_code (CodeFault (2 ^ 31 - 1))
        word result }
{
    number_of(word, 0x7fff_ffff)
}

/// Whether a writer blocks a `struct percpu_rw_semaphore`, by its block word.
pub fn is_blocked(word: u64) -> Result<bool, Why>
    ensures { Decodes Anything bit BlockFault word result }
{
    match word {
        0 => Ok(false),
        1 => Ok(true),
        _ => Err(Why::UnusedBit),
    }
}
