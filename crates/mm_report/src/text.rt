//! The report of a script's objects: of each its calls and what it is left in, or its numbers.
ghost use Rattle.std.specs.Prelude.{◌≡◌, ◌<◌, length};
ghost use Rattle.byte_streams.specs.Causes.{CountsFailure};
ghost use Rattle.mm_report.specs.Results.{AreComplete, calls_on};
ghost use Rattle.mm_report.specs.Reports.{object_report};
ghost use Rattle.mm_report.specs.Text.{told_text};
ghost use Rattle.mm_report.specs.ReportWriting.{PutsReport, WritesObject, WritesReport};

use crate::history::write_history;
use crate::results::Results;
use crate::state::{write_space, write_table};
use crate::summary::write_summary;
use byte_streams::{Failed, Outbox, Sink};
use fd_table::Fds;
use task_script::{Script, write_declaration};
use vma_map::Areas;
use word_bits::Snapshot;

// The history of an object and the state that it is left in.
fn write_told<K: Sink>(
    script: &Script,
    object: u32,
    snapshot: &Snapshot,
    out: &mut Outbox,
    sink: &mut K,
) -> Result<(), Failed>
    requires object { object < length script.now.objects }
    requires complete { length snapshot.now.recs ≡ calls_on script.now object }
    ensures text { WritesObject (λ s o d. told_text s o d.is_space) script.now object snapshot.now
        (K.written sink.old) (K.written sink.new) out.old out.new result }
    ensures cause { CountsFailure (K.faults sink.old) (K.faults sink.new) result }
{
    if script.is_space(object as usize) {
        write_history::<Areas, K>(script, object, snapshot, out, sink)?;
        write_space(snapshot.state(), out, sink)
    } else {
        write_history::<Fds, K>(script, object, snapshot, out, sink)?;
        write_table(snapshot.state(), out, sink)
    }
}

// What is reported of an object: its summary, or its name, its history and the state that it
// leaves.
fn write_one<K: Sink>(
    script: &Script,
    object: u32,
    snapshot: &Snapshot,
    summary: bool,
    out: &mut Outbox,
    sink: &mut K,
) -> Result<(), Failed>
    requires object { object < length script.now.objects }
    requires complete { length snapshot.now.recs ≡ calls_on script.now object }
    ensures text { WritesObject (object_report summary) script.now object snapshot.now
        (K.written sink.old) (K.written sink.new) out.old out.new result }
    ensures cause { CountsFailure (K.faults sink.old) (K.faults sink.new) result }
{
    if summary {
        return write_summary(script, object, snapshot, out, sink);
    }
    write_declaration(script, object as usize, out, sink)?;
    write_told(script, object, snapshot, out, sink)
}

fn write_objects<K: Sink>(
    script: &Script,
    results: &Results,
    summary: bool,
    out: &mut Outbox,
    sink: &mut K,
) -> Result<(), Failed>
    requires { AreComplete script.now results.now }
    ensures text { WritesReport summary script.now results.now
        (K.written sink.old) (K.written sink.new) out.old out.new result }
    ensures cause { CountsFailure (K.faults sink.old) (K.faults sink.new) result }
{
    for object in 0..script.objects() {
        write_one(
            script,
            object as u32,
            results.snapshot(object),
            summary,
            out,
            sink,
        )?;
    }
    Ok(())
}

/// Writes the histories of a script's objects and the states that they leave, or the summaries of
/// both.
///
/// Where the sink fails a front of the text is written. The results stay as they were.
pub fn report<K: Sink>(
    script: &Script,
    results: &mut Results,
    summary: bool,
    sink: &mut K,
) -> Result<(), Failed>
    requires { AreComplete script.now results.old }
    ensures text { PutsReport summary script.now results.old
        (K.written sink.old) (K.written sink.new) result }
    ensures cause { CountsFailure (K.faults sink.old) (K.faults sink.new) result }
    ensures kept { results.new ≡ results.old }
{
    let mut out = Outbox::new();
    write_objects(script, results, summary, &mut out, sink)?;
    out.flush(sink)
}
