//! Writes a script, line by line.
ghost use Rattle.std.specs.Prelude.{◌≡◌, ◌<◌, ◌≤◌, length, flat_map, slice_get, All, List, Ok, OnErr, Some};
ghost use Rattle.byte_streams.specs.Causes.{CountsFailure, Adds, Puts};
ghost use Rattle.task_script.specs.Grammar.{script_of};
ghost use Rattle.task_script.specs.Scripts.{Declared};
ghost use Rattle.task_script.specs.Sound.{IsSound};
ghost use Rattle.task_script.specs.Texts.{body_text, canonical_text, declaration_text, line_text, task_text};
ghost use Rattle.task_script.specs.Versions.{version_text};

use crate::script::{Line, Script};
use crate::text::{add_declaration, add_line, add_version};
use byte_streams::{Failed, Outbox, Sink};

/// Adds the line that declares an object to the outbox, for which room is made.
///
/// # Errors
///
/// The sink's first failure. It has then taken a front of what waited, all of which stays in the
/// outbox.
pub fn write_declaration<K: Sink>(
    script: &Script,
    object: usize,
    out: &mut Outbox,
    sink: &mut K,
) -> Result<(), Failed>
    requires { object < length script.now.objects }
    ensures text { (d : Declared) → slice_get script.now.objects object ≡ Some d →
        Adds (K.written sink.old) (K.written sink.new) out.old out.new (declaration_text d) result }
    ensures kept { OnErr result (out.new ≡ out.old) }
    ensures cause { CountsFailure (K.faults sink.old) (K.faults sink.new) result }
{
    out.make_room(sink)?;
    add_declaration(out, script.is_space(object), script.name(object));
    Ok(())
}

fn write_declarations<K: Sink>(
    script: &Script,
    out: &mut Outbox,
    sink: &mut K,
) -> Result<(), Failed>
    ensures text { Adds (K.written sink.old) (K.written sink.new) out.old out.new
        (flat_map declaration_text script.now.objects) result }
    ensures cause { CountsFailure (K.faults sink.old) (K.faults sink.new) result }
    ensures sound { IsSound script.now }
{
    for object in 0..script.objects() {
        write_declaration(script, object, out, sink)?;
    }
    Ok(())
}

fn write_line<K: Sink>(
    script: &Script,
    line: Line,
    out: &mut Outbox,
    sink: &mut K,
) -> Result<(), Failed>
    requires { line.object < length script.now.objects }
    ensures text { Adds (K.written sink.old) (K.written sink.new) out.old out.new
        (line_text script.now.objects line) result }
    ensures cause { CountsFailure (K.faults sink.old) (K.faults sink.new) result }
{
    out.make_room(sink)?;
    add_line(out, script.name(line.object as usize), line.call());
    Ok(())
}

fn write_calls<K: Sink>(
    script: &Script,
    lines: &[Line],
    out: &mut Outbox,
    sink: &mut K,
) -> Result<(), Failed>
    requires { All (λ l. l.object < length script.now.objects) lines.now }
    ensures text { Adds (K.written sink.old) (K.written sink.new) out.old out.new
        (flat_map (line_text script.now.objects) lines.now) result }
    ensures cause { CountsFailure (K.faults sink.old) (K.faults sink.new) result }
{
    for line in lines {
        write_line(script, *line, out, sink)?;
    }
    Ok(())
}

fn write_task<K: Sink>(
    script: &Script,
    task: usize,
    out: &mut Outbox,
    sink: &mut K,
) -> Result<(), Failed>
    requires { task < length script.now.tasks }
    ensures text { (ls : List Line) → slice_get script.now.tasks task ≡ Some ls →
        Adds (K.written sink.old) (K.written sink.new) out.old out.new
        (task_text script.now.objects ls) result }
    ensures cause { CountsFailure (K.faults sink.old) (K.faults sink.new) result }
{
    out.make_room(sink)?;
    out.add(b"task\n");
    write_calls(script, script.calls(task), out, sink)
}

fn write_tasks<K: Sink>(script: &Script, out: &mut Outbox, sink: &mut K) -> Result<(), Failed>
    ensures text { Adds (K.written sink.old) (K.written sink.new) out.old out.new
        (flat_map (task_text script.now.objects) script.now.tasks) result }
    ensures cause { CountsFailure (K.faults sink.old) (K.faults sink.new) result }
{
    for task in 0..script.tasks() {
        write_task(script, task, out, sink)?;
    }
    Ok(())
}

fn write_version<K: Sink>(script: &Script, out: &mut Outbox, sink: &mut K) -> Result<(), Failed>
    ensures text { Adds (K.written sink.old) (K.written sink.new) out.old out.new
        (version_text script.now.version) result }
    ensures cause { CountsFailure (K.faults sink.old) (K.faults sink.new) result }
    ensures sound { IsSound script.now }
{
    let version = script.language();
    out.make_room(sink)?;
    add_version(out, version);
    Ok(())
}

fn write_body<K: Sink>(script: &Script, out: &mut Outbox, sink: &mut K) -> Result<(), Failed>
    ensures text { Adds (K.written sink.old) (K.written sink.new) out.old out.new
        (body_text script.now) result }
    ensures cause { CountsFailure (K.faults sink.old) (K.faults sink.new) result }
    ensures sound { IsSound script.now }
{
    write_declarations(script, out, sink)?;
    write_tasks(script, out, sink)
}

fn write_lines<K: Sink>(script: &Script, out: &mut Outbox, sink: &mut K) -> Result<(), Failed>
    ensures text { Adds (K.written sink.old) (K.written sink.new) out.old out.new
        (canonical_text script.now) result }
    ensures cause { CountsFailure (K.faults sink.old) (K.faults sink.new) result }
    ensures sound { IsSound script.now }
{
    write_version(script, out, sink)?;
    write_body(script, out, sink)
}

/// Writes the canonical text of a script: its version if that is 2, the declarations in order, then
/// for each task the line `task` and its calls, with single spaces between the words and no
/// comments. `read` of it gives the script back.
///
/// # Errors
///
/// The sink's first failure. It has then taken a front of the text.
#[tactic(auto, using(crate::proofs::ReadingBack::read_back))]
pub fn write<K: Sink>(script: &Script, sink: &mut K) -> Result<(), Failed>
    ensures text { Puts (K.written sink.old) (K.written sink.new)
        (canonical_text script.now) result }
    ensures cause { CountsFailure (K.faults sink.old) (K.faults sink.new) result }
    ensures read_back { length (canonical_text script.now) ≤ 1048576 →
        script_of (canonical_text script.now) ≡ Ok script.now }
{
    let mut out = Outbox::new();
    write_lines(script, &mut out, sink)?;
    out.flush(sink)
}
