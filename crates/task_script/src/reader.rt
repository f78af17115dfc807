//! Reads a script line by line, after one look over its whole text.
ghost use Rattle.std.specs.Prelude.{◌≡◌, ◌+◌, ◌*◌, ◌≤◌, length, IfOk};
ghost use Rattle.task_script.specs.Cuts.{lines};
ghost use Rattle.task_script.specs.Grammar.{lines_after, script_of};
ghost use Rattle.task_script.specs.Scripts.{count_of_calls, nothing};
ghost use Rattle.task_script.specs.Sound.{IsSound};
ghost use Rattle.task_script.specs.Readings.{Reads, ReadsLines};

use crate::cut::{first_line, is_clean_text};
use crate::draft::{Draft, LineError};
use crate::reason::Reason;
use crate::script::Script;
use std::alloc::Global;

/// Why there is no script.
#[derive(Clone, Copy, Debug, PartialEq, Eq)]
pub enum ScriptError {
    /// The first line that is refused, counted from 1. Line 0 stands for the whole text.
    Refused { line: u32, reason: Reason },
    /// There is no memory for the script.
    Memory,
}

const LONGEST_TEXT: usize = 1_048_576;

fn refused(line: u32, reason: Reason) -> ScriptError
    ensures { result ≡ ScriptError.Refused line reason }
{
    ScriptError::Refused { line, reason }
}

#[tactic(auto, using(crate::proofs::Splitting::clean_lines))]
fn read_lines(alloc: Global, bytes: &[u8]) -> Result<Draft, ScriptError>
    requires { length bytes.now ≤ 1048576 }
    ensures { ReadsLines result (lines_after 1 nothing (lines bytes.now)) }
{
    let clean = is_clean_text(bytes);
    let mut draft = Draft::new(alloc);
    let mut rest = Some(bytes);
    let mut number = 1;
    while let Some(text) = rest {
        let (line, behind) = first_line(text);
        match draft.line(alloc, line, clean) {
            Ok(()) => {}
            Err(LineError::Refused(reason)) => return Err(refused(number, reason)),
            Err(LineError::Memory) => return Err(ScriptError::Memory),
        }
        rest = behind;
        number += 1;
    }
    Ok(draft)
}

/// Reads a script. Lines end at a line feed or at a carriage return and a line feed, and `#` begins
/// a comment. Words are separated by spaces and tabs.
///
/// `version 2` in the first line with words makes it a script of version 2, which may have more
/// objects and tasks, and move pages. `space NAME` and `table NAME` declare an object, `task`
/// begins a task, and its calls follow, each as `[int or try] NAME CALL ARGUMENTS`. A number is
/// decimal, without leading zeros, and below 2^32. An access is `r`, `w` or `x`, and a protection
/// is three bytes: `r` or `-`, `w` or `-`, `x` or `-`.
///
/// # Errors
///
/// The first line that isn't such a line in its place, with the first reason that holds, or that
/// there is no memory.
pub fn read(alloc: Global, bytes: &[u8]) -> Result<Script, ScriptError>
    ensures reads { Reads result (script_of bytes.now) }
    ensures few { IfOk result (λ s. 8 * count_of_calls s ≤ length bytes.now + 1) }
    ensures sound { IfOk result IsSound }
{
    if bytes.len() > LONGEST_TEXT {
        return Err(refused(0, Reason::TooLong));
    }
    let Draft {
        version,
        objects,
        tasks,
    } = read_lines(alloc, bytes)?;
    Script::new(alloc, version, objects, tasks).map_err(|_| ScriptError::Memory)
}
