//! A script that a number generates.
ghost use Rattle.std.specs.Prelude.{◌≡◌, ◌<◌, ◌∷◌, [], map, IfOk};
ghost use Rattle.task_script.specs.Generated.{generated, next_random, random_access, random_call, random_line, random_lines, the_space};
ghost use Rattle.task_script.specs.Inside.{declared_of};
ghost use Rattle.task_script.specs.Scripts.{count_of_calls};
ghost use Rattle.task_script.specs.Sound.{IsSound};

use crate::draft::{Draft, LineError};
use crate::script::{Kind, Line, Script};
use crate::token::Name;
use crate::verb::{Values, call_words};
use crate::version::Version;
use indexmap::IndexMap;
use std::alloc::{AllocError, Global};
use word_bits::{CallKind, CallWords, Mode};

/// How many tasks a generated script has.
const TASKS: u32 = 8;

/// How many calls each of them has.
const CALLS: usize = 2_000;

pub(crate) fn next_random(x: u32) -> u32
    ensures { result ≡ next_random x }
{
    x.wrapping_mul(1_664_525).wrapping_add(1_013_904_223)
}

fn random_access(number: u8) -> u8
    ensures { result ≡ random_access number }
{
    match number {
        0 => 1,
        1 => 2,
        _ => 4,
    }
}

fn random_call(kind: u32, start: u32, len: u32, prot: u8) -> CallWords
    ensures { result ≡ random_call kind start len prot }
{
    let range = Values {
        first: start,
        second: len,
        third: 0,
        prot: 0,
        access: 0,
    };
    let access = random_access(prot % 3);
    match kind {
        0 | 1 => call_words(CallKind::Map, Mode::Plain, Values { prot, ..range }),
        2 => call_words(CallKind::Unmap, Mode::Plain, range),
        3 => call_words(CallKind::Protect, Mode::Plain, Values { prot, ..range }),
        _ => call_words(
            CallKind::Fault,
            Mode::Plain,
            Values {
                second: 0,
                access,
                ..range
            },
        ),
    }
}

fn random_line(task: u32, x: u32) -> Line
    requires { task < 8 }
    ensures { result ≡ random_line task x }
{
    let kind = x >> 28 & 7;
    let start = task * 4_096 + (x >> 8) % 24;
    let len = 1 + (x >> 16 & 7);
    let prot = (x >> 20 & 7) as u8;
    Line::new(0, random_call(kind, start, len, prot))
}

fn random_lines(alloc: Global, task: u32, seed: u32, count: usize) -> Result<Vec<Line>, AllocError>
    requires { task < 8 }
    ensures { IfOk result (λ v. v.items ≡ random_lines task seed count) }
{
    let mut lines = Vec::with_capacity(alloc, count)?;
    let mut x = seed;
    for _ in 0..count {
        x = next_random(x);
        lines.push(random_line(task, x))?;
    }
    Ok(lines)
}

// The declaration of the space.
fn one_space(alloc: Global) -> Result<IndexMap<Name, Kind>, AllocError>
    ensures { IfOk result (λ m. map declared_of m.entries ≡ the_space ∷ []) }
{
    let mut draft = Draft::new(alloc);
    match draft.line(alloc, b"space m", true) {
        Ok(()) => Ok(draft.objects),
        Err(LineError::Memory) => Err(AllocError),
        Err(LineError::Refused(_)) => unreachable!(),
    }
}

/// The script of a number, of version 1: eight tasks of 2,000 calls on one space. Each task has 31
/// pages of its own, so no reply depends on another task.
pub fn generate(alloc: Global, number: u32) -> Result<Script, AllocError>
    ensures script { IfOk result (λ s. s ≡ generated number) }
    ensures few { IfOk result (λ s. count_of_calls s ≡ 16000) }
    ensures sound { IfOk result IsSound }
{
    let objects = one_space(alloc)?;
    let mut tasks = Vec::with_capacity(alloc, TASKS as usize)?;
    for task in 0..TASKS {
        let seed = number.wrapping_add(task);
        tasks.push(random_lines(alloc, task, seed, CALLS)?)?;
    }
    Script::new(alloc, Version::One, objects, tasks)
}
