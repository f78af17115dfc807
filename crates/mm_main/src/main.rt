//! Reads a script of tasks from standard input, does them at once, each on a thread of its own, and
//! prints for each object one history with every reply and the state that it leaves.
#![tactic(auto)]

ghost use Rattle.std.specs.Prelude.{◌≡◌, Option};
ghost use Rattle.std.specs.Process.{exit_status};
ghost use Rattle.mm_main.specs.ProgramLocks.{ProgramMachine, space_locks, table_locks};
ghost use Rattle.mm_program.specs.Answers.{AnswersTo, CompletesTo, status_number};
ghost use Rattle.mm_program.specs.CommandLine.{line_asks_help, said_by_line};
ghost use Rattle.mm_program.specs.ProgramKept.{HasServedUnder};
ghost use Rattle.mm_program.specs.Requests.{request};

use byte_streams::{ReadSource, Sink, Source, WriteSink};
use fd_table::Fds;
use mm_program::{Status, run_to_end};
use mutex_slow::Mutex;
use rwsem_slow::RwSem;
use std::alloc::Global;
use std::process::ExitCode;
use std::sync::Wait;
use std::thread::Threads;
use std::{env, io};
use vma_map::Areas;

/// The program over its streams: spaces are under semaphores and tables under mutexes.
fn serve<R: Threads + Wait + Sync, S: Source, K: Sink>(
    rt: &R,
    alloc: Global,
    line: io::Result<env::Args>,
    source: &mut S,
    sink: &mut K,
) -> (Status, ExitCode)
    ensures serves { (kept : Option ProgramMachine)
        × AnswersTo S.left S.faults K.faults K.written source.old source.new sink.old sink.new
        (HasServedUnder space_locks table_locks)
        kept (request (line_asks_help line) (said_by_line line)) result.0
        × CompletesTo S.left S.faults K.faults K.written source.old source.new sink.old sink.new
        (HasServedUnder space_locks table_locks)
        kept (said_by_line line) result.0 }
    ensures code { exit_status result.1 ≡ status_number result.0 }
{
    run_to_end::<RwSem<Areas>, Mutex<Fds>, _, _, _>(rt, alloc, line, source, sink)
}

fn main(rt: HostRuntime) -> ExitCode {
    let mut source = ReadSource::new(rt.reader());
    let mut sink = WriteSink::new(io::writer(&rt));
    let (status, code) = serve(&rt, rt.alloc(), env::args(&rt), &mut source, &mut sink);
    if let Some(line) = status.complaint() {
        // Where standard error fails too, the exit code still tells.
        let _ = eprintln!(rt; "mm_main: {line}");
    }
    code
}
