//! The program over any source and sink.
ghost use Rattle.std.specs.Prelude.{◌≡◌, ◌≢◌, ◌≤◌, ◌+◌, None, false, length, true};
ghost use Rattle.std.specs.Io.KnownBytes.{IsAtEnd};
ghost use Rattle.task_script.specs.Generated.{generated};
ghost use Rattle.task_script.specs.Grammar.{script_of};
ghost use Rattle.mm_program.specs.CommandLine.{asks_help, said_by};
ghost use Rattle.mm_program.specs.Requests.{helped, misused, refused, accepted, reads_input, reason_text, request, request_of};
ghost use Rattle.mm_program.specs.Answers.{AnswersTo, CompletesTo, NoService, SaysTo, TakesAtMost, read_faults, write_faults};
ghost use Rattle.vma_map.specs.Spaces.{space};
ghost use Rattle.fd_table.specs.Tables.{table};
ghost use Rattle.mutex_slow.specs.MutexLocks.{KnowsMutex};
ghost use Rattle.rwsem_slow.specs.RwSemLocks.{KnowsRwSem};
ghost use Rattle.osq_unqueue.specs.LockSpinQueues.{KnowsSpinQueue};
ghost use Rattle.sleep_lock.specs.LockMembers.{members};
ghost use Rattle.mm_program.specs.ProgramKept.{HasServed, HasServedUnder};

use crate::host::Host;
use crate::input::{InputError, read_all};
use crate::locks::{SpaceLock, TableLock};
use crate::objects::ScriptMachine;
use crate::options::{Options, OptionsError, asks_help};
use crate::status::Status;
use crate::threads::run_on_threads;
use byte_streams::{Outbox, Sink, Source, put};
use cpu_task::{Crew, Gate};
use mm_serve::{Machine, SharedObject};
use std::alloc::{AllocError, Global};
use std::sync::Wait;
use std::thread::Threads;
use task_script::{Reason, ScriptError, generate, read};

const USAGE: &[u8] = b"usage: mm_main [--spin N] [--overdue N] [--generate N] [--summary]\n";

const HELP: &[u8] = b"usage: mm_main [--spin N] [--overdue N] [--generate N] [--summary] < SCRIPT\n\
    Does the tasks of a script at once, each on a thread, and prints for each\n\
    object one history: every call with its reply, and the state that is left.\n\
    \x20 --summary     one line for each object in place of its history\n\
    \x20 --generate N  a script that is made from N, up to 4294967295; none is read\n\
    \x20 --spin N      how often a CPU is asked before a spin ends: 100, or N up to 1000000\n\
    \x20 --overdue N   how often before a wait is too long: 4, or N up to 1000000\n\
    A script has up to 1048576 bytes, 16 objects and 64 tasks, for example\n\
    \x20   space a\n\
    \x20   table t\n\
    \x20   task\n\
    \x20   a map 16 4 rw-\n\
    \x20   a fault 17 w\n\
    \x20   task\n\
    \x20   t open 7\n\
    \x20   try a unmap 16 2\n\
    Behind a first line 'version 2' it has up to 32 objects and 400 tasks, and the\n\
    call remap. docs/PROGRAM.md has all calls, and says what each refusal means.\n\
    Status: 0 done, 2 misuse, 3 a line is refused, 4 the input can't be read,\n\
    5 the output can't be written, 6 no memory\n";

fn help<K: Sink>(sink: &mut K) -> Status
    ensures says { SaysTo K.faults K.written sink.old sink.new NoService None helped result }
    ensures served { result ≢ Status.NoMemory }
    ensures faults { K.faults sink.new ≡ write_faults result (K.faults sink.old) }
{
    match put(sink, HELP) {
        Ok(()) => Status::Done,
        Err(_) => Status::WriteFault,
    }
}

fn usage<K: Sink>(sink: &mut K) -> Status
    ensures says { SaysTo K.faults K.written sink.old sink.new NoService None misused result }
    ensures faults { K.faults sink.new ≡ write_faults result (K.faults sink.old) }
{
    match put(sink, USAGE) {
        Ok(()) => Status::Usage,
        Err(_) => Status::WriteFault,
    }
}

fn reason_name(reason: Reason) -> &'static [u8]
    ensures text { result.now ≡ reason_text reason }
    ensures short { length result.now ≤ 7 }
{
    match reason {
        Reason::TooLong => b"TooLong",
        Reason::Byte => b"Byte",
        Reason::Version => b"Version",
        Reason::Words => b"Words",
        Reason::Place => b"Place",
        Reason::Name => b"Name",
        Reason::Twice => b"Twice",
        Reason::Limit => b"Limit",
        Reason::Unknown => b"Unknown",
        Reason::Call => b"Call",
        Reason::Mode => b"Mode",
        Reason::Number => b"Number",
        Reason::Prot => b"Prot",
        Reason::Access => b"Access",
    }
}

fn refuse<K: Sink>(line: u32, reason: Reason, sink: &mut K) -> Status
    ensures says { SaysTo K.faults K.written sink.old sink.new NoService None
        (refused record { line = line; reason = reason }) result }
    ensures faults { K.faults sink.new ≡ write_faults result (K.faults sink.old) }
{
    let mut out = Outbox::new();
    out.add(b"refused ");
    out.add_number(u64::from(line));
    out.add(b" ");
    out.add(reason_name(reason));
    out.add(b"\n");
    match out.flush(sink) {
        Ok(()) => Status::Refused,
        Err(_) => Status::WriteFault,
    }
}

fn answer<
    O: SharedObject + Drop + Sync,
    K: Sink,
    R: Threads + Wait + Sync,
    C: Crew + Sync,
    G: Gate + Sync,
>(
    host: Host<'_, R, G>,
    input: &[u8],
    options: &Options,
    sink: &mut K,
    crew: &mut C,
    kept: &mut Option<Machine<O, C>>,
) -> Status
where
    O::Pass: Send,
    C::C: Send,
    requires { kept.old ≡ None }
    ensures says { SaysTo K.faults K.written sink.old sink.new
        (HasServed O.is_space O.calls_on O.hand O.past O.spun O.idle O.looked_back O.knows_past)
        kept.new
        (request_of options.now.summary (script_of input.now)) result }
    ensures faults { K.faults sink.new ≡ write_faults result (K.faults sink.old) }
{
    match read(host.alloc, input) {
        Ok(script) => run_on_threads(host, &script, options, sink, crew, kept),
        Err(ScriptError::Refused { line, reason }) => refuse(line, reason, sink),
        Err(ScriptError::Memory) => Status::NoMemory,
    }
}

// Answers the script of a number.
fn answer_generated<
    O: SharedObject + Drop + Sync,
    K: Sink,
    R: Threads + Wait + Sync,
    C: Crew + Sync,
    G: Gate + Sync,
>(
    host: Host<'_, R, G>,
    number: u32,
    options: &Options,
    sink: &mut K,
    crew: &mut C,
    kept: &mut Option<Machine<O, C>>,
) -> Status
where
    O::Pass: Send,
    C::C: Send,
    requires { kept.old ≡ None }
    ensures says { SaysTo K.faults K.written sink.old sink.new
        (HasServed O.is_space O.calls_on O.hand O.past O.spun O.idle O.looked_back O.knows_past)
        kept.new
        (accepted options.now.summary (generated number)) result }
    ensures faults { K.faults sink.new ≡ write_faults result (K.faults sink.old) }
{
    match generate(host.alloc, number) {
        Ok(script) => run_on_threads(host, &script, options, sink, crew, kept),
        Err(AllocError) => Status::NoMemory,
    }
}

// Answers the script that the source gives.
fn answer_input<
    O: SharedObject + Drop + Sync,
    S: Source,
    K: Sink,
    R: Threads + Wait + Sync,
    C: Crew + Sync,
    G: Gate + Sync,
>(
    host: Host<'_, R, G>,
    options: &Options,
    source: &mut S,
    sink: &mut K,
    crew: &mut C,
    kept: &mut Option<Machine<O, C>>,
) -> Status
where
    O::Pass: Send,
    C::C: Send,
    requires { kept.old ≡ None }
    ensures answer { AnswersTo S.left S.faults K.faults K.written source.old source.new
        sink.old sink.new
        (HasServed O.is_space O.calls_on O.hand O.past O.spun O.idle O.looked_back O.knows_past)
        kept.new
        (λ input. request_of options.now.summary (script_of input)) result }
    ensures read_faults { S.faults source.new ≡ read_faults result (S.faults source.old) }
    ensures write_faults { K.faults sink.new ≡ write_faults result (K.faults sink.old) }
    ensures taken { TakesAtMost 1048577 (S.left source.old) (S.left source.new) }
    ensures few_reads { S.gave source.new ≤ S.gave source.old + 1048577 }
    ensures one_end { S.ended source.new ≤ S.ended source.old + 1 }
    ensures whole { result ≡ Status.Done → IsAtEnd (S.left source.new) }
{
    match read_all(host.alloc, source) {
        Ok(input) => answer(host, input.as_slice(), options, sink, crew, kept),
        Err(InputError::Memory) => Status::NoMemory,
        Err(InputError::Failed) => Status::ReadFault,
    }
}

// `top` over objects of any kind.
fn serve_words<
    O: SharedObject + Drop + Sync,
    S: Source,
    K: Sink,
    R: Threads + Wait + Sync,
    C: Crew + Sync,
    G: Gate + Sync,
>(
    host: Host<'_, R, G>,
    words: &[String],
    source: &mut S,
    sink: &mut K,
    crew: &mut C,
    kept: &mut Option<Machine<O, C>>,
) -> Status
where
    O::Pass: Send,
    C::C: Send,
    requires { kept.old ≡ None }
    ensures answer { AnswersTo S.left S.faults K.faults K.written source.old source.new
        sink.old sink.new
        (HasServed O.is_space O.calls_on O.hand O.past O.spun O.idle O.looked_back O.knows_past)
        kept.new
        (request (asks_help words.now) (said_by words.now)) result }
    ensures helps { asks_help words.now ≡ true → result ≢ Status.NoMemory }
    ensures complete { CompletesTo S.left S.faults K.faults K.written source.old source.new
        sink.old sink.new
        (HasServed O.is_space O.calls_on O.hand O.past O.spun O.idle O.looked_back O.knows_past)
        kept.new
        (said_by words.now) result }
    ensures read_faults { S.faults source.new ≡ read_faults result (S.faults source.old) }
    ensures write_faults { K.faults sink.new ≡ write_faults result (K.faults sink.old) }
    ensures taken { TakesAtMost 1048577 (S.left source.old) (S.left source.new) }
    ensures unread { reads_input (said_by words.now) ≡ false → source.new ≡ source.old }
    ensures few_reads { S.gave source.new ≤ S.gave source.old + 1048577 }
    ensures one_end { S.ended source.new ≤ S.ended source.old + 1 }
    ensures whole { result ≡ Status.Done → reads_input (said_by words.now) ≡ true →
        IsAtEnd (S.left source.new) }
{
    if asks_help(words) {
        return help(sink);
    }
    let options = match Options::read(host.alloc, words) {
        Ok(options) => options,
        Err(OptionsError::Misused) => return usage(sink),
        Err(OptionsError::Memory) => return Status::NoMemory,
    };
    match options.generate {
        Some(number) => answer_generated(host, number, &options, sink, crew, kept),
        None => answer_input(host, &options, source, sink, crew, kept),
    }
}

/// Reads a script from the source, or generates one, does its tasks at once, each on a thread of
/// its own, and writes their histories to the sink, or the summary. `kept` has the machine that
/// did them then. Where no machine ran nothing is kept.
///
/// `words` are the words of the command line after the program's name. Where they ask how to use
/// the program, that is written, and nothing is read or done. But for the start of
/// threads, no memory is taken once the first task has begun. Where a thread can't be made its task
/// is done after another's, on that one's thread, so tasks that wait for each other can then wait
/// for good.
pub fn top<
    A: SpaceLock + Drop + Sync,
    T: TableLock + Drop + Sync,
    S: Source,
    K: Sink,
    R: Threads + Wait + Sync,
    C: Crew + Sync,
    G: Gate + Sync,
>(
    rt: &R,
    alloc: Global,
    words: &[String],
    source: &mut S,
    sink: &mut K,
    crew: &mut C,
    gate: &G,
    kept: &mut Option<ScriptMachine<A, T, C>>,
) -> Status
where
    A::Pass: Send,
    T::Pass: Send,
    A::Site: Sync,
    T::Site: Sync,
    A::Rule: Sync,
    T::Rule: Sync,
    C::C: Send,
    requires { kept.old ≡ None }
    ensures answer { AnswersTo S.left S.faults K.faults K.written source.old source.new
        sink.old sink.new
        (HasServedUnder
        (members A.calls_on A.view A.sits A.spun A.kind A.word_at A.opened A.waits
        (KnowsRwSem space 257) KnowsSpinQueue)
        (members T.calls_on T.view T.sits T.spun T.kind T.word_at T.opened T.waits
        (KnowsMutex table 64) KnowsSpinQueue))
        kept.new
        (request (asks_help words.now) (said_by words.now)) result }
    ensures helps { asks_help words.now ≡ true → result ≢ Status.NoMemory }
    ensures complete { CompletesTo S.left S.faults K.faults K.written source.old source.new
        sink.old sink.new
        (HasServedUnder
        (members A.calls_on A.view A.sits A.spun A.kind A.word_at A.opened A.waits
        (KnowsRwSem space 257) KnowsSpinQueue)
        (members T.calls_on T.view T.sits T.spun T.kind T.word_at T.opened T.waits
        (KnowsMutex table 64) KnowsSpinQueue))
        kept.new
        (said_by words.now) result }
    ensures read_faults { S.faults source.new ≡ read_faults result (S.faults source.old) }
    ensures write_faults { K.faults sink.new ≡ write_faults result (K.faults sink.old) }
    ensures taken { TakesAtMost 1048577 (S.left source.old) (S.left source.new) }
    ensures unread { reads_input (said_by words.now) ≡ false → source.new ≡ source.old }
    ensures few_reads { S.gave source.new ≤ S.gave source.old + 1048577 }
    ensures one_end { S.ended source.new ≤ S.ended source.old + 1 }
    ensures whole { result ≡ Status.Done → reads_input (said_by words.now) ≡ true →
        IsAtEnd (S.left source.new) }
{
    serve_words(Host { rt, alloc, gate }, words, source, sink, crew, kept)
}
