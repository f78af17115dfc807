//! The history of an object, from the records of its calls.
//!
//! A logged call's record says at what place of the log its entry is, and each other call's record
//! how many entries stand before it. So the records of all tasks are merged by where they stand,
//! and of the log only the length is wanted.
ghost use Rattle.std.specs.Prelude.{◌≡◌, ◌<◌, ◌≤◌, length, slice_get, Some, IsSome};
ghost use Rattle.word_bits.specs.RecWord.{IsRec, rec_word};
ghost use Rattle.byte_streams.specs.Causes.{CountsFailure, Adds};
ghost use Rattle.task_script.specs.Links.{HasLinks};
ghost use Rattle.mm_report.specs.Results.{calls_on};
ghost use Rattle.mm_report.specs.Text.{event_line};
ghost use Rattle.mm_report.specs.Merged.{position as where_it_stands};
ghost use Rattle.mm_report.specs.ReportWriting.{WritesCalls, WritesTask, WritesTasks, WritesHistory, PassesCalls, PassesTask, PassesTasks};
ghost use Rattle.mm_report.specs.Types.{Rec};

use crate::cursor::{Cursor, first_cursors, next_bound};
use crate::line::add_event;
use crate::task_calls::{TaskCalls, calls_of};
use byte_streams::{Failed, Outbox, Sink};
use task_script::Script;
use word_bits::{CallWords, Object, Rec, Reply, Snapshot, is_logged};

// Where a call stands: in front of an entry of the log, or as that entry.
fn position<O: Object>(words: CallWords, rec: Rec) -> u64
    ensures { result ≡ where_it_stands O.object words rec }
{
    let front = u64::from(rec.k) * 2;
    if is_logged::<O>(words, rec.reply) {
        front + 1
    } else {
        front
    }
}

// The record whose word stands at a place.
fn rec_at(recs: &[u64], place: usize) -> Option<Rec>
    ensures within { IsSome result → place < length recs.now }
    ensures found { (r : Rec) → IsRec r →
        slice_get recs.now place ≡ Some (rec_word r) → result ≡ Some r }
{
    Rec::unpack(*recs.get(place)?)
}

fn write_event<K: Sink>(
    task: u32,
    number: usize,
    words: CallWords,
    reply: Reply,
    out: &mut Outbox,
    sink: &mut K,
) -> Result<(), Failed>
    ensures text { Adds (K.written sink.old) (K.written sink.new) out.old out.new
        (event_line task number words reply) result }
    ensures cause { CountsFailure (K.faults sink.old) (K.faults sink.new) result }
{
    out.make_room(sink)?;
    add_event(out, task, number, words, reply);
    Ok(())
}

/// An object's calls in a script, and the words of their records.
#[derive(Clone, Copy)]
struct History<'a> {
    script: &'a Script,
    object: u32,
    recs: &'a [u64],
}

impl History<'_> {
    /// The next calls of a task, as long as they stand below a position.
    fn write_calls<O: Object, K: Sink>(
        &self,
        calls: &TaskCalls,
        task: u32,
        bound: u64,
        cursor: &mut Cursor,
        out: &mut Outbox,
        sink: &mut K,
    ) -> Result<(), Failed>
        requires linked { HasLinks calls.now.lines.now calls.now.links.now }
        ensures text { WritesCalls O.object self.now.object self.now.recs.now bound task
            calls.now.lines.now cursor.old (K.written sink.old) (K.written sink.new)
            out.old out.new result }
        ensures reached { PassesCalls O.object self.now.object self.now.recs.now bound
            task calls.now.lines.now cursor.old cursor.new result }
        ensures cause { CountsFailure (K.faults sink.old) (K.faults sink.new) result }
    {
        let mut number = cursor.line;
        while number < calls.lines.len() {
            let line = calls.lines[number];
            if line.object != self.object {
                number += 1;
                continue;
            }
            let words = line.call();
            cursor.line = number;
            let Some(rec) = rec_at(self.recs, cursor.rec) else {
                return Ok(());
            };
            let position = position::<O>(words, rec);
            cursor.position = Some(position);
            if position >= bound {
                return Ok(());
            }
            write_event(task, number, words, rec.reply, out, sink)?;
            cursor.rec += 1;
            number = calls.links[number];
        }
        cursor.line = calls.lines.len();
        cursor.position = None;
        Ok(())
    }

    /// The same, where the task may have none.
    fn write_task<O: Object, K: Sink>(
        &self,
        task: u32,
        bound: u64,
        cursor: &mut Cursor,
        out: &mut Outbox,
        sink: &mut K,
    ) -> Result<(), Failed>
        requires { task < length self.now.script.now.tasks }
        ensures text { WritesTask O.object self.now.script.now self.now.object self.now.recs.now
            bound task cursor.old (K.written sink.old) (K.written sink.new) out.old out.new result }
        ensures reached { PassesTask O.object self.now.script.now self.now.object
            self.now.recs.now bound task cursor.old cursor.new result }
        ensures cause { CountsFailure (K.faults sink.old) (K.faults sink.new) result }
    {
        if cursor.earliest() >= bound {
            return Ok(());
        }
        let calls = calls_of(self.script, task as usize);
        self.write_calls::<O, K>(&calls, task, bound, cursor, out, sink)
    }

    /// The next calls of all tasks, as long as they stand below a position, task by task.
    fn write_position<O: Object, K: Sink>(
        &self,
        bound: u64,
        cursors: &mut [Cursor],
        out: &mut Outbox,
        sink: &mut K,
    ) -> Result<(), Failed>
        requires { length self.now.script.now.tasks ≤ length cursors.old }
        ensures text { WritesTasks O.object self.now.script.now self.now.object self.now.recs.now
            bound cursors.old (K.written sink.old) (K.written sink.new) out.old out.new result }
        ensures reached { PassesTasks O.object self.now.script.now self.now.object
            self.now.recs.now bound cursors.old cursors.new result }
        ensures kept { length cursors.new ≡ length cursors.old }
        ensures cause { CountsFailure (K.faults sink.old) (K.faults sink.new) result }
    {
        for task in 0..self.script.tasks() {
            let mut cursor = cursors[task];
            self.write_task::<O, K>(task as u32, bound, &mut cursor, out, sink)?;
            cursors[task] = cursor;
        }
        Ok(())
    }
}

/// Writes the calls on an object in the order of its history, each with its reply.
pub(crate) fn write_history<O: Object, K: Sink>(
    script: &Script,
    object: u32,
    snapshot: &Snapshot,
    out: &mut Outbox,
    sink: &mut K,
) -> Result<(), Failed>
    requires complete { length snapshot.now.recs ≡ calls_on script.now object }
    ensures text { WritesHistory O.object script.now object snapshot.now
        (K.written sink.old) (K.written sink.new) out.old out.new result }
    ensures cause { CountsFailure (K.faults sink.old) (K.faults sink.new) result }
{
    let recs = snapshot.recs();
    let mut cursors = first_cursors(script, object, recs);
    let history = History {
        script,
        object,
        recs,
    };
    let tasks = script.tasks();
    let end = snapshot.log().len() as u64 * 2 + 1;
    let mut position = 0;
    while position < end {
        let bound = next_bound(&cursors[..tasks], position, end);
        history.write_position::<O, K>(bound, &mut cursors, out, sink)?;
        position = bound;
    }
    Ok(())
}
