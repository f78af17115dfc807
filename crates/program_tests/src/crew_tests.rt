//! The CPUs that the program makes.
use crate::runs::{ORDINARY, run_on};
use cpu_task::{Crew, ParkCpu, ParkCrew, ScriptedCrew, Turns};
use mm_program::Status;
use std::alloc::{AllocError, Global};
use std::sync::Wait;
use std::test::Fail;
use std::thread::Threads;
use word_bits::MAX_TASKS;

/// Notes for which task each CPU is made, and with which turns.
#[derive(Drop)]
struct NotingCrew {
    crew: ParkCrew,
    made: Vec<(u32, Turns)>,
}

impl Crew for NotingCrew {
    type C = ParkCpu;

    fn cpu(&mut self, alloc: Global, task: u32, turns: Turns) -> Result<ParkCpu, AllocError> {
        self.made.push((task, turns))?;
        self.crew.cpu(alloc, task, turns)
    }

    fn wake(&self, task: u32) {
        self.crew.wake(task);
    }
}

// The histories are copied as task 0, on a CPU of its own, which is made first.
#[test]
fn each_task_has_a_cpu_that_is_as_patient_as_the_words_say(rt: HostRuntime) -> Result<(), Fail> {
    let alloc = rt.alloc();
    for (words, spin, overdue) in [
        ([].as_slice(), 100, 4),
        (&["--spin=7", "--overdue=2"], 7, 2),
        (&["--overdue=0"], 100, 0),
    ] {
        let mut crew = NotingCrew {
            crew: ParkCrew::new(alloc, MAX_TASKS)?,
            made: Vec::new(alloc),
        };
        let script = format!(in alloc; "{ORDINARY}task\ntask\n")?;
        let (status, _) = run_on(&rt, alloc, words, script.as_str(), &mut crew)?;
        assert!(rt; status == Status::Done);
        let turns = Turns { spin, overdue };
        let want = [(0, turns), (0, turns), (1, turns), (2, turns)];
        assert!(rt; crew.made.as_slice() == want.as_slice());
    }
    Ok(())
}

/// The summary of the script that is generated from 7, counted apart from the program.
const SUMMARY: &str = "m: 16000 calls, 8018 logged, 6387 refused, 61 left\n";

/// What a CPU answers first. Where its answers end it answers yes.
const ANSWERS: [&[bool]; 4] = [
    &[],
    &[false],
    &[false, false, true, false],
    &[true, false, false],
];

/// Whether the generated script leaves its summary on CPUs that never sleep, with these answers
/// whether to reschedule, and with each list of answers whether a wait is too long.
fn leaves_its_summary<R: Threads + Wait + Sync>(
    rt: &R,
    alloc: Global,
    resched: &[bool],
) -> Result<bool, AllocError> {
    let words = ["--generate=7", "--summary"].as_slice();
    for overdue in ANSWERS {
        let resched = Vec::from_slice(alloc, resched)?;
        let mut crew = ScriptedCrew::new(alloc, resched, Vec::from_slice(alloc, overdue)?)?;
        let (status, text) = run_on(rt, alloc, words, "", &mut crew)?;
        if status != Status::Done || text.as_slice() != SUMMARY.as_bytes() {
            return Ok(false);
        }
    }
    Ok(true)
}

#[test]
fn tasks_that_never_spin_leave_the_same_summary(rt: HostRuntime) -> Result<(), Fail> {
    assert!(rt; leaves_its_summary(&rt, rt.alloc(), ANSWERS[0])?);
    Ok(())
}

#[test]
fn tasks_that_spin_for_one_turn_leave_the_same_summary(rt: HostRuntime) -> Result<(), Fail> {
    assert!(rt; leaves_its_summary(&rt, rt.alloc(), ANSWERS[1])?);
    Ok(())
}

#[test]
fn tasks_that_spin_twice_leave_the_same_summary(rt: HostRuntime) -> Result<(), Fail> {
    assert!(rt; leaves_its_summary(&rt, rt.alloc(), ANSWERS[2])?);
    Ok(())
}

#[test]
fn tasks_that_spin_at_their_second_wait_leave_the_same_summary(
    rt: HostRuntime,
) -> Result<(), Fail> {
    assert!(rt; leaves_its_summary(&rt, rt.alloc(), ANSWERS[3])?);
    Ok(())
}
