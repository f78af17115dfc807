//! Streams that fail, and the machine that is kept then.
use crate::runs::{ORDINARY, run, run_with};
use byte_streams::{MemSink, MemSource};
use cpu_task::{OpenGate, ParkCrew};
use mm_program::Status;
use std::test::Fail;
use word_bits::MAX_TASKS;

#[test]
fn a_machine_is_kept_where_a_script_was_run(rt: HostRuntime) -> Result<(), Fail> {
    for (words, script, fails, room, status, kept, text) in [
        (
            ["--summary"].as_slice(),
            ORDINARY,
            [].as_slice(),
            1000,
            Status::Done,
            true,
            "a: 3 calls, 1 logged, 1 refused, 1 left\n",
        ),
        (&[], "", &[], 0, Status::Done, true, ""),
        // A sink that is full ends the run with what it took.
        (
            &[],
            ORDINARY,
            &[],
            10,
            Status::WriteFault,
            true,
            "space a\n0.",
        ),
        (&[], "space a\n", &[], 0, Status::WriteFault, true, ""),
        (&[], "space A\n", &[], 4, Status::WriteFault, false, "refu"),
        (&["x"], ORDINARY, &[], 4, Status::WriteFault, false, "usag"),
        // A read that fails ends it with nothing.
        (&[], ORDINARY, &[0], 1000, Status::ReadFault, false, ""),
        (&[], ORDINARY, &[1], 1000, Status::ReadFault, false, ""),
        (&[], ORDINARY, &[7], 1000, Status::ReadFault, false, ""),
        (
            &[],
            "space A\n",
            &[],
            1000,
            Status::Refused,
            false,
            "refused 1 Name\n",
        ),
    ] {
        let outcome = run(&rt, rt.alloc(), words, script, fails, room, &OpenGate)?;
        assert!(rt;
            (outcome.0, outcome.1) == (status, kept),
            "{words:?} {script}"
        );
        assert!(rt;
            outcome.2.as_slice() == text.as_bytes(),
            "{words:?} {script}"
        );
    }
    Ok(())
}

#[test]
fn a_sink_that_fails_at_its_fourth_byte_has_three(rt: HostRuntime) -> Result<(), Fail> {
    let mut source = MemSource::new(rt.alloc(), b"space a\n", 8, &[])?;
    let mut sink = MemSink::new(rt.alloc(), 1000, 1, &[3])?;
    let mut crew = ParkCrew::new(rt.alloc(), MAX_TASKS)?;
    let ended = run_with(
        &rt,
        rt.alloc(),
        &[],
        &mut source,
        &mut sink,
        &mut crew,
        &OpenGate,
    )?;
    assert!(rt; ended == (Status::WriteFault, true));
    assert!(rt; sink.written() == b"spa".as_slice());
    Ok(())
}
