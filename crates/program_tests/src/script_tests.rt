//! Scripts as values, sources and sinks in memory and over streams that fail, and a generated
//! script. What the program reads and writes stands in examples/.
use byte_streams::{Failed, MemSink, MemSource, Outbox, ReadSource, Sink, Source, WriteSink, put};
use std::alloc::Global;
use std::io::{self, ErrorKind, Read, Write};
use std::process::Abort;
use std::test::Fail;
use task_script::{Line, generate, read, write};

#[test]
fn keeps_what_it_reads(rt: HostRuntime) -> Result<(), Fail> {
    let text = b"space a\ntable f_2\ntask\ntask\na map any 4 rw-\ntry f_2 dup2 9 1\na signal 63\n";
    let script = read(rt.alloc(), text)?;
    assert!(rt; (script.objects(), script.tasks()) == (2, 2));
    assert!(rt; (script.name(0), script.name(1)) == ("a", "f_2"));
    assert!(rt; (script.is_space(0), script.is_space(1)) == (true, false));
    assert!(rt; script.calls(0).is_empty());
    // A second number stands from bit 32 of a call's first word on; its second word has the kind,
    // the protection from bit 8 on and the mode from bit 24 on.
    let lines = [
        (0, 4, 2 | 3 << 8),
        (1, 9 | 1 << 32, 11 | 2 << 24),
        (0, 63, 15),
    ]
    .map(|(object, a, b)| Line {
        object,
        words: [a, b],
    });
    assert!(rt; script.calls(1) == lines.as_slice());
    Ok(())
}

/// Each call in a mode, out of its canonical form.
const LENIENT: &[u8] = b"\tspace a # pages\r\n\
    table f_2\n\
    task\n\n\
    a  map 16 4 rw-\n\
    int a map any 4294967295 --x\n\
    a mapnew 0 1 r--\n\
    try a unmap 0 0\n\
    a protect 1 2 rwx\n\
    a populate 1048575 1 ---\n\
    a fault 5 r # read\n\
    try a fault 5 w\n\
    int a fault 5 x\n\
    task\n\
    task\n\
    f_2 open 65535\n\
    int f_2 close 9\n\
    f_2 dup 0\n\
    try f_2 dup2 10 4294967295\n\
    f_2 get 63\n\
    f_2 signal 63\n\
    a signal 0";

/// The same script in its canonical form.
const CANONICAL: &[u8] = b"space a\n\
    table f_2\n\
    task\n\
    a map 16 4 rw-\n\
    int a map any 4294967295 --x\n\
    a mapnew 0 1 r--\n\
    try a unmap 0 0\n\
    a protect 1 2 rwx\n\
    a populate 1048575 1 ---\n\
    a fault 5 r\n\
    try a fault 5 w\n\
    int a fault 5 x\n\
    task\n\
    task\n\
    f_2 open 65535\n\
    int f_2 close 9\n\
    f_2 dup 0\n\
    try f_2 dup2 10 4294967295\n\
    f_2 get 63\n\
    f_2 signal 63\n\
    a signal 0\n";

/// What the script of this text is written as.
pub(crate) fn rewritten(rt: &impl Abort, alloc: Global, text: &[u8]) -> Result<MemSink, Fail> {
    let script = read(alloc, text)?;
    let mut sink = MemSink::new(alloc, 1000, 7, &[])?;
    assert!(rt; write(&script, &mut sink).is_ok());
    Ok(sink)
}

#[test]
fn writes_in_canonical_form(rt: HostRuntime) -> Result<(), Fail> {
    for text in [LENIENT, CANONICAL] {
        let sink = rewritten(&rt, rt.alloc(), text)?;
        assert!(rt; sink.written() == CANONICAL, "{text:?}");
    }
    Ok(())
}

#[test]
fn writes_as_far_as_there_is_room(rt: HostRuntime) -> Result<(), Fail> {
    let script = read(rt.alloc(), b"space a\ntable f_2\ntask\n")?;
    let mut narrow = MemSink::new(rt.alloc(), 13, 7, &[])?;
    assert!(rt; write(&script, &mut narrow) == Err(Failed));
    assert!(rt; narrow.written() == b"space a\ntable".as_slice());
    Ok(())
}

#[test]
fn memory_gives_by_steps(rt: HostRuntime) -> Result<(), Fail> {
    let mut source = MemSource::new(rt.alloc(), b"abcde", 3, &[1])?;
    let mut buffer = [0; 4];
    for (answer, bytes) in [
        (Ok(3), b"abc\0"),
        (Err(Failed), b"abc\0"),
        (Ok(2), b"dec\0"),
        (Ok(0), b"dec\0"),
    ] {
        assert!(rt; source.read(&mut buffer) == answer, "{answer:?}");
        assert!(rt; buffer.as_slice() == bytes.as_slice(), "{answer:?}");
    }
    Ok(())
}

#[test]
fn memory_takes_by_steps(rt: HostRuntime) -> Result<(), Fail> {
    let mut sink = MemSink::new(rt.alloc(), 6, 2, &[1])?;
    assert!(rt; put(&mut sink, b"abc") == Err(Failed));
    assert!(rt; sink.written() == b"ab".as_slice());
    assert!(rt; put(&mut sink, b"cde").is_ok());
    assert!(rt; put(&mut sink, b"fg") == Err(Failed));
    assert!(rt; sink.written() == b"abcdef".as_slice());
    Ok(())
}

#[test]
fn outbox_gathers(rt: HostRuntime) -> Result<(), Fail> {
    let mut sink = MemSink::new(rt.alloc(), 20_000, 10_000, &[2])?;
    let mut outbox = Outbox::new();
    for _ in 0..400 {
        outbox.make_room(&mut sink)?;
        outbox.add(b"calls ");
        outbox.add_number(u64::MAX);
    }
    // 148 lines of 26 bytes leave less than 256 bytes of 4096.
    assert!(rt; sink.written().len() == 2 * 148 * 26);
    assert!(rt; outbox.flush(&mut sink) == Err(Failed));
    assert!(rt; outbox.flush(&mut sink).is_ok());
    assert!(rt; sink.written().len() == 400 * 26);
    assert!(rt; sink.written().ends_with(b"calls 18446744073709551615"));
    Ok(())
}

/// A stream whose first call fails with an error of a kind. Each later one gives or takes a byte.
#[derive(Drop)]
struct FailsFirst {
    kind: ErrorKind,
    calls: u32,
}

impl FailsFirst {
    fn call(&mut self) -> io::Result<()> {
        self.calls = self.calls.saturating_add(1);
        if self.calls > 1 {
            return Ok(());
        }
        Err(io::Error::from(self.kind))
    }
}

impl Read for FailsFirst {
    fn read(&mut self, buf: &mut [u8]) -> io::Result<usize> {
        self.call()?;
        let Some(first) = buf.first_mut() else {
            return Ok(0);
        };
        *first = b'r';
        Ok(1)
    }
}

impl Write for FailsFirst {
    fn write(&mut self, buf: &[u8]) -> io::Result<usize> {
        self.call()?;
        Ok(buf.len().min(1))
    }

    fn flush(&mut self) -> io::Result<()> {
        Ok(())
    }
}

/// Reads through a source. Answers that and how often the stream was called until then.
fn read_through(stream: &mut FailsFirst) -> (Result<usize, Failed>, u32) {
    let answer = ReadSource::new(&mut *stream).read(&mut [0; 2]);
    (answer, stream.calls)
}

/// Puts two bytes through a sink, and answers the same.
fn put_through(stream: &mut FailsFirst) -> (Result<(), Failed>, u32) {
    let answer = put(&mut WriteSink::new(&mut *stream), b"ab");
    (answer, stream.calls)
}

#[test]
fn streams_answer_a_failure_of_each_kind_at_once_and_go_on(rt: HostRuntime) {
    for kind in [
        ErrorKind::Interrupted,
        ErrorKind::WouldBlock,
        ErrorKind::TimedOut,
        ErrorKind::UnexpectedEof,
        ErrorKind::BrokenPipe,
        ErrorKind::WriteZero,
        ErrorKind::OutOfMemory,
        ErrorKind::Other,
    ] {
        let mut reader = FailsFirst { kind, calls: 0 };
        assert!(rt; read_through(&mut reader) == (Err(Failed), 1), "{kind:?}");
        assert!(rt; read_through(&mut reader) == (Ok(1), 2), "{kind:?}");

        let mut writer = FailsFirst { kind, calls: 0 };
        assert!(rt; put_through(&mut writer) == (Err(Failed), 1), "{kind:?}");
        assert!(rt; put_through(&mut writer) == (Ok(()), 3), "{kind:?}");
    }
}

#[test]
fn generates_by_numbers(rt: HostRuntime) -> Result<(), Fail> {
    let script = generate(rt.alloc(), 7)?;
    let mut sink = MemSink::new(rt.alloc(), 399_999, 4_096, &[])?;
    write(&script, &mut sink)?;
    let front = "space m\ntask\nm protect 21 1 -w-\nm fault 1 x\nm map 16 5 --x\n";
    assert!(rt; sink.written().starts_with(front.as_bytes()));
    Ok(())
}
