//! Texts and summaries of results that no run needs to have left: busy, interrupted and sent calls
//! of several tasks among others. Texts of whole runs stand in examples/.
//!
//! Words are packed by hand. A record has its reply's kind from bit 18 on and its value from bit 22
//! on, an entry its task from bit 18 on. An area has its end from bit 3 on and its start from bit
//! 24 on. A descriptor has the word 0 where it is free, and else its file's number plus 1.
ghost use Rattle.std.specs.Prelude.{◌≡◌, ◌+◌, ◌<◌, ◌≤◌, ◌++◌, [], length, slice_get, Bool, Some, IfOk, count_by};
ghost use Rattle.task_script.specs.Scripts.{is_on, kinds_of};
ghost use Rattle.mm_report.specs.Results.{AreComplete, calls_on, empty_snapshot, words_of_kind};

use byte_streams::MemSink;
use fd_table::Fds;
use mm_report::{Results, report};
use std::alloc::{AllocError, Global};
use std::process::Abort;
use std::test::Fail;
use task_script::{Line, Script, read};
use vma_map::Areas;
use word_bits::{Object, Snapshot};

/// What one object leaves: the words of its records and of its log, and the front of its state's.
#[derive(Clone, Copy)]
struct Left<'a> {
    recs: &'a [u64],
    log: &'a [u64],
    state: &'a [u64],
}

fn push_recs(snapshot: &mut Snapshot, recs: &[u64])
    requires { length snapshot.old.recs + length recs.now ≤ snapshot.old.recs_room }
    ensures { snapshot.new ≡ record snapshot.old { recs = snapshot.old.recs ++ recs.now } }
{
    for word in recs {
        snapshot.push_rec(*word);
    }
}

fn push_log(snapshot: &mut Snapshot, log: &[u64])
    requires { length snapshot.old.log + length log.now ≤ snapshot.old.log_room }
    ensures { snapshot.new ≡ record snapshot.old { log = snapshot.old.log ++ log.now } }
{
    for word in log {
        snapshot.push_log(*word);
    }
}

/// So many words of the state, which begins with these. The others are 0.
fn push_state(snapshot: &mut Snapshot, front: &[u64], words: usize)
    requires room { words ≤ snapshot.old.state_room }
    requires empty { snapshot.old.state ≡ [] }
    ensures { snapshot.new.recs ≡ snapshot.old.recs }
{
    for place in 0..words {
        snapshot.push_state(front.get(place).copied().unwrap_or(0));
    }
}

/// How many calls of the script are on the object.
fn count_calls(rt: &impl Abort, script: &Script, object: u32) -> usize
    ensures { result ≡ calls_on script.now object }
{
    let mut count = 0usize;
    for task in 0..script.tasks() {
        let calls = count_on(script.calls(task), object);
        assert!(rt; calls <= usize::MAX - count);
        count += calls;
    }
    count
}

/// How many of the lines are calls on the object.
fn count_on(lines: &[Line], object: u32) -> usize
    ensures { result ≡ count_by (is_on object) lines.now }
{
    lines.iter().filter(|line| line.object == object).count()
}

/// How many words the state of an object has.
fn state_words(is_space: bool) -> usize
    ensures { result ≡ words_of_kind is_space }
{
    if is_space { Areas::WORDS } else { Fds::WORDS }
}

fn fill(rt: &impl Abort, script: &Script, object: u32, left: &Left<'_>, snapshot: &mut Snapshot)
    requires object { object < length script.now.objects }
    requires fresh { (is_space : Bool) → slice_get (kinds_of script.now) object ≡ Some is_space
        → snapshot.old ≡ empty_snapshot script.now object is_space }
    ensures { length snapshot.new.recs ≡ calls_on script.now object }
{
    let state = state_words(script.is_space(object as usize));
    let calls = count_calls(rt, script, object);
    assert!(rt; left.recs.len() == calls);
    assert!(rt; left.log.len() <= calls);
    push_recs(snapshot, left.recs);
    push_log(snapshot, left.log);
    push_state(snapshot, left.state, state);
}

/// The results of a script whose objects leave this.
fn filled(
    rt: &impl Abort,
    alloc: Global,
    script: &Script,
    left: &[Left<'_>],
) -> Result<Results, AllocError>
    ensures { IfOk result (λ r. AreComplete script.now r) }
{
    assert!(rt; script.objects() == left.len());
    let mut results = Results::new(alloc, script)?;
    for object in 0..script.objects() {
        let snapshot = results.snapshot_mut(object);
        fill(rt, script, object as u32, &left[object], snapshot);
    }
    Ok(results)
}

/// The text and the summary of the results of a script whose objects leave this.
fn reported(
    rt: &impl Abort,
    alloc: Global,
    text: &[u8],
    left: &[Left<'_>],
) -> Result<(MemSink, MemSink), Fail> {
    let script = read(alloc, text)?;
    let mut results = filled(rt, alloc, &script, left)?;
    let mut whole = MemSink::new(alloc, 1000, 7, &[])?;
    assert!(rt; report(&script, &mut results, false, &mut whole).is_ok());
    let mut summary = MemSink::new(alloc, 1000, 7, &[])?;
    assert!(rt; report(&script, &mut results, true, &mut summary).is_ok());
    Ok((whole, summary))
}

// Three tasks, of which two map: calls that read, a try that found the lock held, a signal and a
// call that it interrupted, before and behind the logged ones.
#[test]
fn reports_calls_between_those_of_the_log(rt: HostRuntime) -> Result<(), Fail> {
    let text = b"space a\n\
        task\na map 0 2 rw-\na fault 0 r\na unmap 0 1\nint a fault 1 r\n\
        task\na fault 0 w\na map 4 1 r--\na fault 0 r\n\
        task\na fault 4 r\ntry a fault 0 r\na fault 1 w\na signal 0\n";
    let left = [Left {
        recs: &[
            2 << 18,
            1 | 1 << 18,
            2 | 1 << 18,
            3 | 7 << 18,
            4 << 18,
            1 | 2 << 18 | 4 << 22,
            3 | 4 << 18,
            4 << 18,
            6 << 18 | 9 << 22,
            1 | 1 << 18,
            1 | 8 << 18,
        ],
        log: &[0, 1 | 1 << 18, 2],
        state: &[2, 3 | 2 << 3 | 1 << 24, 1 | 5 << 3 | 4 << 24],
    }];
    let (whole, summary) = reported(&rt, rt.alloc(), text, &left)?;
    let expected = "space a\n\
        1.0 fault 0 w = maperr\n\
        2.0 fault 4 r = maperr\n\
        2.1 try fault 0 r = busy 9\n\
        0.0 map 0 2 rw- = 0\n\
        0.1 fault 0 r = ok\n\
        2.2 fault 1 w = ok\n\
        2.3 signal 0 = sent\n\
        1.1 map 4 1 r-- = 4\n\
        0.2 unmap 0 1 = ok\n\
        0.3 int fault 1 r = EINTR\n\
        1.2 fault 0 r = maperr\n\
        left 2\n\
        1-2 rw-\n\
        4-5 r--\n";
    assert!(rt; whole.written() == expected.as_bytes());
    let expected = "a: 11 calls, 3 logged, 3 refused, 2 left\n";
    assert!(rt; summary.written() == expected.as_bytes());
    Ok(())
}

// Two tasks on a table: a call that reads between logged ones, a logged one that was refused, and a
// try that found the lock held.
#[test]
fn reports_refused_calls_of_the_log(rt: HostRuntime) -> Result<(), Fail> {
    let text = b"space a\ntable f\n\
        task\nf open 7\na fault 3 x\nf get 0\n\
        task\nf dup 0\nf close 0\nint f close 9\ntry f get 1\n";
    let left = [
        Left {
            recs: &[4 << 18],
            log: &[],
            state: &[0],
        },
        Left {
            recs: &[
                2 << 18,
                3 | 3 << 18 | 9 << 22,
                1 | 2 << 18 | 1 << 22,
                2 | 1 << 18,
                3 | 3 << 18 | 9 << 22,
                4 | 6 << 18 | 8 << 22,
            ],
            log: &[0, 1 << 18, 1 | 1 << 18, 2 | 1 << 18],
            state: &[0, 8],
        },
    ];
    let (whole, summary) = reported(&rt, rt.alloc(), text, &left)?;
    let expected = "space a\n\
        0.1 fault 3 x = maperr\n\
        left 0\n\
        table f\n\
        0.0 open 7 = 0\n\
        1.0 dup 0 = 1\n\
        1.1 close 0 = ok\n\
        0.2 get 0 = EBADF\n\
        1.2 int close 9 = EBADF\n\
        1.3 try get 1 = busy 8\n\
        left 1\n\
        1 7\n";
    assert!(rt; whole.written() == expected.as_bytes());
    let expected = "a: 1 calls, 0 logged, 1 refused, 0 left\n\
        f: 6 calls, 4 logged, 2 refused, 1 left\n";
    assert!(rt; summary.written() == expected.as_bytes());
    Ok(())
}
