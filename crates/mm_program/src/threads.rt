//! Does the tasks of a script at once, each on a thread of its own, over objects under locks.
ghost use Rattle.std.specs.Prelude.{◌≡◌, None};
ghost use Rattle.mm_program.specs.Answers.{SaysTo, write_faults};
ghost use Rattle.mm_program.specs.ProgramKept.{HasServed};
ghost use Rattle.mm_program.specs.Requests.{accepted};

use crate::host::Host;
use crate::options::Options;
use crate::status::Status;
use byte_streams::Sink;
use cpu_task::{Crew, Gate, Turns};
use mm_report::report;
use mm_serve::{Machine, SharedObject};
use std::sync::Wait;
use std::thread::Threads;
use task_script::Script;

/// How patient the options make the CPUs.
pub(crate) fn turns_of(options: &Options) -> Turns
    ensures { result ≡ record { spin = options.now.spin; overdue = options.now.overdue } }
{
    Turns {
        spin: options.spin,
        overdue: options.overdue,
    }
}

/// Opens a machine for the script, does all tasks at once, and writes the text of what they leave,
/// or the summary. `kept` has the machine then, unless there was no memory for it.
///
/// But for the start of threads, no memory is taken once the first task has begun.
pub(crate) fn run_on_threads<
    O: SharedObject + Drop + Sync,
    K: Sink,
    R: Threads + Wait + Sync,
    C: Crew + Sync,
    G: Gate + Sync,
>(
    host: Host<'_, R, G>,
    script: &Script,
    options: &Options,
    sink: &mut K,
    crew: &mut C,
    kept: &mut Option<Machine<O, C>>,
) -> Status
where
    O::Pass: Send,
    C::C: Send,
    requires { kept.old ≡ None }
    ensures says { SaysTo K.faults K.written sink.old sink.new
        (HasServed O.is_space O.calls_on O.hand O.past O.spun O.idle O.looked_back O.knows_past)
        kept.new
        (accepted options.now.summary script.now) result }
    ensures faults { K.faults sink.new ≡ write_faults result (K.faults sink.old) }
{
    let Host { rt, alloc, gate } = host;
    let Ok(mut machine) = Machine::open(alloc, script, crew, turns_of(options)) else {
        return Status::NoMemory;
    };
    machine.run(rt, crew, gate);
    let written = report(script, machine.results(), options.summary, sink);
    *kept = Some(machine);
    match written {
        Ok(()) => Status::Done,
        Err(_) => Status::WriteFault,
    }
}
