//! Lines of questions, and the answers to them.
ghost use Rattle.std.specs.Prelude.{◌+◌, ◌≤◌, length};

use crate::answers::{Answer, count_answer, owner_answer, spin_answer};
use crate::number::word_of;
use arrayvec::ArrayVec;
use byte_streams::{Failed, Outbox, Sink};
use rwsem_wake::batches::{MAX_READERS_WAKEUP, batch};
use wait_list::Waiter;
use word_bits::MAX_TASKS;

/// How many numbers a question has at most.
const MOST: usize = 512;

/// Why there is no answer.
#[derive(Clone, Copy, Debug, PartialEq, Eq)]
pub(crate) enum NoAnswer {
    /// A line isn't a question.
    Misused,
    Failed,
}

fn numbers_of(words: &str) -> Option<ArrayVec<u64, MOST>> {
    let mut numbers = ArrayVec::new();
    for word in words.split_whitespace() {
        if numbers.len() >= MOST {
            return None;
        }
        numbers.push(word_of(word)?);
    }
    Some(numbers)
}

fn add_answer(out: &mut Outbox, answer: &Answer)
    requires { length out.old + 64 ≤ 4096 }
{
    if answer.name.len() <= 16 {
        out.add(answer.name);
    }
    out.add(b" ");
    out.add_number(answer.word);
    out.add(b"\n");
}

/// The waiter of a number: twice its task's code, and 1 more where it is to write.
fn waiter_of(number: u64) -> Option<Waiter> {
    let code = number / 2;
    if code == 0 || code > u64::from(MAX_TASKS) {
        return None;
    }
    Some(Waiter {
        task: (code - 1) as u32,
        writer: number % 2 == 1,
    })
}

fn waiters_of(numbers: &[u64]) -> Option<ArrayVec<Waiter, MOST>> {
    let mut waiters = ArrayVec::new();
    for number in numbers {
        if waiters.len() >= MOST {
            return None;
        }
        waiters.push(waiter_of(*number)?);
    }
    Some(waiters)
}

/// Writes the codes of a batch of at most so many readers.
fn write_batch<K: Sink>(
    limit: usize,
    waiters: &[Waiter],
    out: &mut Outbox,
    sink: &mut K,
) -> Result<(), Failed>
    requires { limit ≤ MAX_READERS_WAKEUP }
{
    let mut granted: ArrayVec<u32, MAX_READERS_WAKEUP> = ArrayVec::new();
    batch(waiters, limit, &mut granted);
    out.make_room(sink)?;
    out.add(b"to");
    for task in granted.as_slice() {
        out.make_room(sink)?;
        out.add(b" ");
        out.add_number(u64::from(*task) + 1);
    }
    out.make_room(sink)?;
    out.add(b"\n");
    Ok(())
}

fn answer_batch<K: Sink>(numbers: &[u64], out: &mut Outbox, sink: &mut K) -> Result<(), NoAnswer> {
    let Some((limit, others)) = numbers.split_first() else {
        return Err(NoAnswer::Misused);
    };
    let Some(waiters) = waiters_of(others) else {
        return Err(NoAnswer::Misused);
    };
    if *limit > MAX_READERS_WAKEUP as u64 {
        return Err(NoAnswer::Misused);
    }
    match write_batch(*limit as usize, waiters.as_slice(), out, sink) {
        Ok(()) => Ok(()),
        Err(Failed) => Err(NoAnswer::Failed),
    }
}

fn answer_of(name: &[u8], numbers: &[u64]) -> Option<Answer> {
    if let Some(answer) = owner_answer(name, numbers) {
        return Some(answer);
    }
    if let Some(answer) = count_answer(name, numbers) {
        return Some(answer);
    }
    spin_answer(name, numbers)
}

fn answer_line<K: Sink>(line: &str, out: &mut Outbox, sink: &mut K) -> Result<(), NoAnswer> {
    let (name, words) = line.split_once(' ').unwrap_or((line, ""));
    let Some(numbers) = numbers_of(words) else {
        return Err(NoAnswer::Misused);
    };
    if name == "batch" {
        return answer_batch(numbers.as_slice(), out, sink);
    }
    let Some(answer) = answer_of(name.as_bytes(), numbers.as_slice()) else {
        return Err(NoAnswer::Misused);
    };
    if out.make_room(sink).is_err() {
        return Err(NoAnswer::Failed);
    }
    add_answer(out, &answer);
    Ok(())
}

/// Answers each line of a text, in order.
pub(crate) fn answer_lines<K: Sink>(text: &str, sink: &mut K) -> Result<(), NoAnswer> {
    let mut out = Outbox::new();
    for line in text.lines() {
        answer_line(line, &mut out, sink)?;
    }
    match out.flush(sink) {
        Ok(()) => Ok(()),
        Err(Failed) => Err(NoAnswer::Failed),
    }
}
