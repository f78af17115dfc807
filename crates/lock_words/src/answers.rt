//! What single steps make of words: questions of a line each, and their answers.
ghost use Rattle.std.specs.Prelude.{◌<◌, IfSome};
ghost use Rattle.lock_decode.specs.Here.{IsLockSpin, IsMutexOwner, IsSemaphoreCount, IsTaskNode};

use lock_decode::here;
use lock_steps::count::{
    add_bias, clear_flags, count_batch, downgrade, read_back, set_waiters, unreserve, up_read,
    up_write, write_spin, write_try,
};
use lock_steps::{owner, spin};
use mutex_word::{Try, handoff_word, release_step, try_step};
use rwsem_count::{Write, read_free, write_step};
use word_bits::{Count, MAX_TASKS, Owner, Spin, Tail};

/// An answer: a name and a word.
#[derive(Clone, Copy, Debug, PartialEq, Eq)]
pub(crate) struct Answer {
    pub name: &'static [u8],
    pub word: u64,
}

/// The count of a free semaphore.
const FREE_COUNT: Count = Count {
    writer: false,
    waiters: false,
    handoff: false,
    readers: 0,
    read_fail: false,
};

/// What the word of a free spin lock says.
const FREE_SPIN: Spin = Spin {
    locked: false,
    pending: false,
    tail: None,
};

fn named(name: &'static [u8], word: u64) -> Answer {
    Answer { name, word }
}

fn refused(word: u64) -> Answer {
    named(b"refused", word)
}

fn flag_of(number: u64) -> Option<bool> {
    match number {
        0 => Some(false),
        1 => Some(true),
        _ => None,
    }
}

fn task_of(code: u64) -> Option<u32>
    ensures { IfSome result (λ t. t < MAX_TASKS) }
{
    here::blocker(code).ok()?
}

fn owner_to(word: u64, next: Option<Owner>) -> Answer
    requires { IfSome next IsMutexOwner }
{
    match next {
        Some(owner) => named(b"to", owner.pack()),
        None => refused(word),
    }
}

fn owner_try(word: u64, code: u64, ask: bool) -> Answer {
    let Ok(_owner) = here::mutex_owner(word) else {
        return refused(word);
    };
    let Some(task) = task_of(code) else {
        return refused(word);
    };
    match try_step(word, task, ask) {
        Try::Take(next) => named(b"take", next),
        Try::Ask(next) => named(b"ask", next),
        Try::Fail => named(b"fail", word),
    }
}

fn is_held(owner: &Owner) -> bool {
    owner.task.is_some() && !owner.pickup
}

fn owner_release(word: u64) -> Answer {
    let Ok(owner) = here::mutex_owner(word) else {
        return refused(word);
    };
    if !is_held(&owner) {
        return refused(word);
    }
    match release_step(word) {
        Some(next) => named(b"to", next),
        None => named(b"none", word),
    }
}

fn owner_handoff(word: u64, code: u64) -> Answer {
    let Ok(owner) = here::mutex_owner(word) else {
        return refused(word);
    };
    let Ok(first) = here::blocker(code) else {
        return refused(word);
    };
    if !is_held(&owner) || (first.is_some() && !owner.waiters) {
        return refused(word);
    }
    named(b"to", handoff_word(word, first))
}

/// The answer to a question on an owner word, if it is one.
pub(crate) fn owner_answer(name: &[u8], numbers: &[u64]) -> Option<Answer> {
    match (name, numbers) {
        (b"owner_try", [word, code, ask]) => Some(owner_try(*word, *code, flag_of(*ask)?)),
        (b"owner_release", [word]) => Some(owner_release(*word)),
        (b"owner_handoff", [word, code]) => Some(owner_handoff(*word, *code)),
        (b"owner_set_waiters", [word]) => Some(match here::mutex_owner(*word) {
            Ok(it) => owner_to(*word, owner::set_waiters(it)),
            Err(_) => refused(*word),
        }),
        (b"owner_clear_flags", [word]) => Some(match here::mutex_owner(*word) {
            Ok(it) => owner_to(*word, owner::clear_flags(it)),
            Err(_) => refused(*word),
        }),
        _ => None,
    }
}

fn count_to(name: &'static [u8], word: u64, next: Option<Count>) -> Answer
    requires { IfSome next IsSemaphoreCount }
{
    match next {
        Some(count) => named(name, count.pack()),
        None => refused(word),
    }
}

/// A bias more: a reader's, which holds by it where the count lets readers in.
fn count_read_add(word: u64, count: Count) -> Answer
    requires { IsSemaphoreCount count }
{
    let name: &'static [u8] = if read_free(word) { b"hold" } else { b"transit" };
    count_to(name, word, add_bias(count))
}

fn count_read_try(word: u64, count: Count) -> Answer
    requires { IsSemaphoreCount count }
{
    if read_free(word) {
        count_to(b"take", word, add_bias(count))
    } else {
        named(b"fail", word)
    }
}

/// A try of a writer, which fails where there is no next count.
fn count_write(word: u64, next: Option<Count>) -> Answer
    requires { IfSome next IsSemaphoreCount }
{
    match next {
        Some(count) => named(b"take", count.pack()),
        None => named(b"fail", word),
    }
}

fn count_reserve(word: u64, count: Count) -> Answer
    requires { IsSemaphoreCount count }
{
    let name: &'static [u8] = if count.writer { b"late" } else { b"reserved" };
    count_to(name, word, add_bias(count))
}

/// A release, which wakes where tasks wait and no lock bit is set, or whatever is set.
fn count_release(word: u64, next: Option<Count>, unlocked: bool) -> Answer
    requires { IfSome next IsSemaphoreCount }
{
    let Some(count) = next else {
        return refused(word);
    };
    let locked = count.writer || count.readers != 0;
    let wakes = count.waiters && !(unlocked && locked);
    named(if wakes { b"wake" } else { b"to" }, count.pack())
}

fn count_queued(word: u64, flags: [bool; 4]) -> Answer {
    let [me_first, first_marked, alone, overdue] = flags;
    match write_step(word, me_first, first_marked, alone, overdue) {
        Write::Take(next) => named(b"take", next),
        Write::Mark(next) => named(b"mark", next),
        Write::Fail => named(b"fail", word),
    }
}

/// A wake's sum, which is no step where it is 0.
fn count_sum(word: u64, next: Option<Count>) -> Answer
    requires { IfSome next IsSemaphoreCount }
{
    match next {
        Some(count) if count.pack() == word => named(b"none", word),
        _ => count_to(b"to", word, next),
    }
}

/// The answer to a question on a count of one number, if it is one.
fn count_plain(name: &[u8], word: u64, count: Count) -> Option<Answer>
    requires { IsSemaphoreCount count }
{
    Some(match name {
        b"count_read_add" => count_read_add(word, count),
        b"count_read_try" => count_read_try(word, count),
        b"count_write_try" => count_write(word, write_try(count)),
        b"count_write_spin" => count_write(word, write_spin(count)),
        b"count_set_waiters" => count_to(b"to", word, set_waiters(count)),
        b"count_clear_flags" => count_to(b"to", word, clear_flags(count)),
        b"count_reserve" => count_reserve(word, count),
        b"count_up_read" => count_release(word, up_read(count), true),
        b"count_up_write" => count_release(word, up_write(count), false),
        b"count_downgrade" => count_release(word, downgrade(count), false),
        _ => return None,
    })
}

/// The answer to a question on a count, if it is one.
fn count_told(name: &[u8], word: u64, count: Count, others: &[u64]) -> Option<Answer>
    requires { IsSemaphoreCount count }
{
    match (name, others) {
        (_, []) => count_plain(name, word, count),
        (b"count_read_back", [alone]) => {
            Some(count_to(b"to", word, read_back(count, flag_of(*alone)?)))
        }
        (b"count_unreserve", [marked]) => {
            Some(count_to(b"to", word, unreserve(count, flag_of(*marked)?)))
        }
        (b"count_batch", [readers, reserved, empty]) => {
            let next = count_batch(count, *readers, flag_of(*reserved)?, flag_of(*empty)?);
            Some(count_sum(word, next))
        }
        (b"count_write_queued", [first, marked, alone, overdue]) => {
            let flags = [
                flag_of(*first)?,
                flag_of(*marked)?,
                flag_of(*alone)?,
                flag_of(*overdue)?,
            ];
            Some(count_queued(word, flags))
        }
        _ => None,
    }
}

/// The answer to a question on a count, if it is one.
pub(crate) fn count_answer(name: &[u8], numbers: &[u64]) -> Option<Answer> {
    let (word, others) = numbers.split_first()?;
    match here::semaphore_count(*word) {
        Ok(count) => count_told(name, *word, count, others),
        Err(_) => count_told(name, *word, FREE_COUNT, others).map(|_| refused(*word)),
    }
}

fn node_of(code: u64) -> Option<Tail>
    ensures { IfSome result IsTaskNode }
{
    let cpu = code / 4;
    if cpu == 0 || cpu > u64::from(MAX_TASKS) {
        return None;
    }
    Some(Tail {
        cpu: (cpu - 1) as u32,
        index: (code % 4) as u32,
    })
}

fn spin_to(word: u64, next: Option<Spin>) -> Answer
    requires { IfSome next IsLockSpin }
{
    match next {
        Some(spin) => named(b"to", spin::word_of(spin)),
        None => refused(word),
    }
}

fn spin_try(word: u64, next: Option<Spin>) -> Answer
    requires { IfSome next IsLockSpin }
{
    match next {
        Some(spin) => named(b"take", spin::word_of(spin)),
        None => named(b"fail", word),
    }
}

fn spin_set_pending(it: Spin) -> Answer
    requires { IsLockSpin it }
{
    let (seen, next) = spin::set_pending(it);
    let name: &'static [u8] = match seen {
        spin::Pending::Owns => b"owns",
        spin::Pending::Undoes => b"undo",
        spin::Pending::Queues => b"queue",
    };
    named(name, spin::word_of(next))
}

fn spin_told(name: &[u8], word: u64, it: Spin, others: &[u64]) -> Option<Answer>
    requires { IsLockSpin it }
{
    Some(match (name, others) {
        (b"spin_try", []) => spin_try(word, spin::take_free(it)),
        (b"spin_set_pending", []) => spin_set_pending(it),
        (b"spin_clear_pending", []) => spin_to(word, spin::clear_pending(it)),
        (b"spin_take_pending", []) => spin_to(word, spin::take_pending(it)),
        (b"spin_exchange_tail", [code]) => match node_of(*code) {
            Some(node) => named(b"to", spin::word_of(spin::exchange_tail(it, node))),
            None => refused(word),
        },
        (b"spin_take_alone", [code]) => match node_of(*code) {
            Some(node) => spin_try(word, spin::take_alone(it, node)),
            None => refused(word),
        },
        (b"spin_set_locked", []) => spin_to(word, spin::set_locked(it)),
        (b"spin_unlock", []) => spin_to(word, spin::unlock(it)),
        _ => return None,
    })
}

/// The answer to a question on a spin word, if it is one.
pub(crate) fn spin_answer(name: &[u8], numbers: &[u64]) -> Option<Answer> {
    let (word, others) = numbers.split_first()?;
    match here::spin_lock(*word) {
        Ok(it) => spin_told(name, *word, it, others),
        Err(_) => spin_told(name, *word, FREE_SPIN, others).map(|_| refused(*word)),
    }
}
