//! The program over a command line and two streams, with tasks whose threads park.
ghost use Rattle.std.specs.Prelude.{◌≡◌, ◌≤◌, ◌+◌, IfOk, None, Option, drop, false, true};
ghost use Rattle.std.specs.Io.KnownBytes.{IsAtEnd};
ghost use Rattle.std.specs.Process.{exit_status};
ghost use Rattle.std.specs.Vec.Iter.{into_iter_items};
ghost use Rattle.mm_program.specs.Answers.{AnswersTo, CompletesTo, TakesAtMost, status_number, read_faults, write_faults};
ghost use Rattle.mm_program.specs.CommandLine.{asks_help, line_asks_help, said_by, said_by_line};
ghost use Rattle.vma_map.specs.Spaces.{space};
ghost use Rattle.fd_table.specs.Tables.{table};
ghost use Rattle.mutex_slow.specs.MutexLocks.{KnowsMutex};
ghost use Rattle.rwsem_slow.specs.RwSemLocks.{KnowsRwSem};
ghost use Rattle.osq_unqueue.specs.LockSpinQueues.{KnowsSpinQueue};
ghost use Rattle.sleep_lock.specs.LockMembers.{members};
ghost use Rattle.mm_program.specs.ProgramKept.{HasServedUnder, LockedMachine};
ghost use Rattle.mm_program.specs.Requests.{reads_input, request};
ghost use Rattle.mm_program.specs.Types.{Areas, SpaceCall, Fds, TableCall, ParkCrew, ParkCpu};

use crate::locks::{SpaceLock, TableLock};
use crate::objects::ScriptMachine;
use crate::program::top;
use crate::status::Status;
use byte_streams::{Sink, Source};
use cpu_task::{OpenGate, ParkCrew};
use sleep_lock::SleepLock;
use std::alloc::{AllocError, Global};
use std::process::ExitCode;
use std::sync::Wait;
use std::thread::Threads;
use std::{env, io};
use word_bits::MAX_TASKS;

/// The words after the program's name.
fn words_behind(alloc: Global, line: env::Args) -> Result<Vec<String>, AllocError>
    ensures { IfOk result (λ words. words.items ≡ drop 1 (into_iter_items line)) }
{
    line.skip(1).collect(alloc)
}

/// The words after the program's name. Where one of them or the name isn't text, all are one empty
/// word, which is no option.
#[tactic(auto, using(crate::proofs::CommandLines::empty_word_says_nothing))]
fn words(alloc: Global, line: io::Result<env::Args>) -> io::Result<Vec<String>>
    ensures says { IfOk result (λ words. said_by words.items ≡ said_by_line line) }
    ensures asks { IfOk result (λ words. asks_help words.items ≡ line_asks_help line) }
{
    match line {
        Ok(line) => Ok(words_behind(alloc, line)?),
        Err(error) if error.kind() == io::ErrorKind::OutOfMemory => Err(error),
        Err(_) => {
            let mut words = Vec::new(alloc);
            words.push(String::new(alloc))?;
            Ok(words)
        }
    }
}

/// The program over its streams, with spaces under locks of one kind, tables under locks of
/// another, and scripts of at most `MAX_TASKS` tasks, whose threads park. Answers how it ended, and
/// the exit code that says so.
fn run<
    A: SpaceLock + Drop + Sync,
    T: TableLock + Drop + Sync,
    R: Threads + Wait + Sync,
    S: Source,
    K: Sink,
>(
    rt: &R,
    alloc: Global,
    line: io::Result<env::Args>,
    source: &mut S,
    sink: &mut K,
    kept: &mut Option<ScriptMachine<A, T, ParkCrew>>,
) -> (Status, ExitCode)
where
    A::Pass: Send,
    T::Pass: Send,
    A::Site: Sync,
    T::Site: Sync,
    A::Rule: Sync,
    T::Rule: Sync,
    requires { kept.old ≡ None }
    ensures answer { AnswersTo S.left S.faults K.faults K.written source.old source.new
        sink.old sink.new
        (HasServedUnder
        (members A.calls_on A.view A.sits A.spun A.kind A.word_at A.opened A.waits
        (KnowsRwSem space 257) KnowsSpinQueue)
        (members T.calls_on T.view T.sits T.spun T.kind T.word_at T.opened T.waits
        (KnowsMutex table 64) KnowsSpinQueue))
        kept.new
        (request (line_asks_help line) (said_by_line line)) result.0 }
    ensures complete { CompletesTo S.left S.faults K.faults K.written source.old source.new
        sink.old sink.new
        (HasServedUnder
        (members A.calls_on A.view A.sits A.spun A.kind A.word_at A.opened A.waits
        (KnowsRwSem space 257) KnowsSpinQueue)
        (members T.calls_on T.view T.sits T.spun T.kind T.word_at T.opened T.waits
        (KnowsMutex table 64) KnowsSpinQueue))
        kept.new
        (said_by_line line) result.0 }
    ensures read_faults { S.faults source.new ≡ read_faults result.0 (S.faults source.old) }
    ensures write_faults { K.faults sink.new ≡ write_faults result.0 (K.faults sink.old) }
    ensures taken { TakesAtMost 1048577 (S.left source.old) (S.left source.new) }
    ensures unread { reads_input (said_by_line line) ≡ false → source.new ≡ source.old }
    ensures few_reads { S.gave source.new ≤ S.gave source.old + 1048577 }
    ensures one_end { S.ended source.new ≤ S.ended source.old + 1 }
    ensures whole { result.0 ≡ Status.Done → reads_input (said_by_line line) ≡ true →
        IsAtEnd (S.left source.new) }
    ensures code { exit_status result.1 ≡ status_number result.0 }
{
    let Ok(words) = words(alloc, line) else {
        return (Status::NoMemory, exit_code(Status::NoMemory));
    };
    let Ok(mut crew) = ParkCrew::new(alloc, MAX_TASKS) else {
        return (Status::NoMemory, exit_code(Status::NoMemory));
    };
    let words = words.as_slice();
    let status = top(rt, alloc, words, source, sink, &mut crew, &OpenGate, kept);
    (status, exit_code(status))
}

/// The exit status of the program's status.
fn exit_code(status: Status) -> ExitCode
    ensures { exit_status result ≡ status_number status }
{
    ExitCode::from(status.number())
}

/// Runs the program over its streams: spaces are under locks of one kind, tables under locks of
/// another, scripts have at most `MAX_TASKS` tasks, and their threads park. Answers how it ended,
/// and the exit code that says so.
///
/// `line` is the whole command line, its first word the program's name. A line with a word that
/// isn't text, or that couldn't be read, is misuse (`Status::Usage`), but for one that there was no
/// memory for (`Status::NoMemory`). The machine that ran the script is let go at the end.
pub fn run_to_end<
    A: SpaceLock + Drop + Sync,
    T: TableLock + Drop + Sync,
    R: Threads + Wait + Sync,
    S: Source,
    K: Sink,
>(
    rt: &R,
    alloc: Global,
    line: io::Result<env::Args>,
    source: &mut S,
    sink: &mut K,
) -> (Status, ExitCode)
where
    A::Pass: Send,
    T::Pass: Send,
    A::Site: Sync,
    T::Site: Sync,
    A::Rule: Sync,
    T::Rule: Sync,
    ensures serves { (kept : Option (LockedMachine A Areas A.Rule A.Site A.Pass A.Rule.Ext SpaceCall
        T Fds T.Rule T.Site T.Pass T.Rule.Ext TableCall ParkCrew ParkCpu))
        × AnswersTo S.left S.faults K.faults K.written source.old source.new sink.old sink.new
        (HasServedUnder
        (members A.calls_on A.view A.sits A.spun A.kind A.word_at A.opened A.waits
        (KnowsRwSem space 257) KnowsSpinQueue)
        (members T.calls_on T.view T.sits T.spun T.kind T.word_at T.opened T.waits
        (KnowsMutex table 64) KnowsSpinQueue))
        kept (request (line_asks_help line) (said_by_line line)) result.0
        × CompletesTo S.left S.faults K.faults K.written source.old source.new sink.old sink.new
        (HasServedUnder
        (members A.calls_on A.view A.sits A.spun A.kind A.word_at A.opened A.waits
        (KnowsRwSem space 257) KnowsSpinQueue)
        (members T.calls_on T.view T.sits T.spun T.kind T.word_at T.opened T.waits
        (KnowsMutex table 64) KnowsSpinQueue))
        kept (said_by_line line) result.0 }
    ensures read_faults { S.faults source.new ≡ read_faults result.0 (S.faults source.old) }
    ensures write_faults { K.faults sink.new ≡ write_faults result.0 (K.faults sink.old) }
    ensures taken { TakesAtMost 1048577 (S.left source.old) (S.left source.new) }
    ensures unread { reads_input (said_by_line line) ≡ false → source.new ≡ source.old }
    ensures few_reads { S.gave source.new ≤ S.gave source.old + 1048577 }
    ensures one_end { S.ended source.new ≤ S.ended source.old + 1 }
    ensures whole { result.0 ≡ Status.Done → reads_input (said_by_line line) ≡ true →
        IsAtEnd (S.left source.new) }
    ensures code { exit_status result.1 ≡ status_number result.0 }
{
    let mut kept: Option<ScriptMachine<A, T, ParkCrew>> = None;
    run(rt, alloc, line, source, sink, &mut kept)
}
