//! Runs of the program over streams in memory.
use byte_streams::{MemSink, MemSource};
use cpu_task::{Crew, Gate, OpenGate, ParkCrew};
use fd_table::Fds;
use mm_program::{ScriptMachine, SpaceLock, Status, TableLock, top};
use mutex_slow::Mutex;
use rwsem_slow::RwSem;
use std::alloc::{AllocError, Global};
use std::sync::Wait;
use std::thread::Threads;
use vma_map::Areas;
use word_bits::MAX_TASKS;

pub(crate) const ORDINARY: &str = "space a\ntask\na map 16 4 rw-\na fault 17 w\na fault 20 r\n";

/// Runs the program over locks of any two kinds. Answers how it ended, and whether a machine is kept.
fn run_over<
    A: SpaceLock + Drop + Sync,
    T: TableLock + Drop + Sync,
    R: Threads + Wait + Sync,
    C: Crew + Sync,
    G: Gate + Sync,
>(
    rt: &R,
    alloc: Global,
    words: &[String],
    source: &mut MemSource,
    sink: &mut MemSink,
    crew: &mut C,
    gate: &G,
) -> (Status, bool)
where
    A::Pass: Send,
    T::Pass: Send,
    A::Site: Sync,
    T::Site: Sync,
    A::Rule: Sync,
    T::Rule: Sync,
    C::C: Send,
{
    let mut kept: Option<ScriptMachine<A, T, C>> = None;
    let status = top(rt, alloc, words, source, sink, crew, gate, &mut kept);
    (status, kept.is_some())
}

/// Runs it over the locks that it has.
pub(crate) fn run_with<R: Threads + Wait + Sync, C: Crew + Sync, G: Gate + Sync>(
    rt: &R,
    alloc: Global,
    words: &[&str],
    source: &mut MemSource,
    sink: &mut MemSink,
    crew: &mut C,
    gate: &G,
) -> Result<(Status, bool), AllocError>
where
    C::C: Send,
{
    let mut owned = Vec::new(alloc);
    for word in words {
        owned.push(String::from_str(alloc, word)?)?;
    }
    let words = owned.as_slice();
    Ok(run_over::<RwSem<Areas>, Mutex<Fds>, _, _, _>(rt, alloc, words, source, sink, crew, gate))
}

/// How a run ended, whether a machine is kept, and what was written.
pub(crate) type Outcome = (Status, bool, Vec<u8>);

/// Runs a script on CPUs that park. The source gives so many bytes a read and fails at these reads,
/// and the sink has room for so many bytes.
pub(crate) fn run<R: Threads + Wait + Sync, G: Gate + Sync>(
    rt: &R,
    alloc: Global,
    words: &[&str],
    script: &str,
    fails: &[u64],
    room: usize,
    gate: &G,
) -> Result<Outcome, AllocError> {
    let mut source = MemSource::new(alloc, script.as_bytes(), 8, fails)?;
    let mut sink = MemSink::new(alloc, room, 3, &[])?;
    let mut crew = ParkCrew::new(alloc, MAX_TASKS)?;
    let (status, kept) = run_with(rt, alloc, words, &mut source, &mut sink, &mut crew, gate)?;
    Ok((status, kept, Vec::from_slice(alloc, sink.written())?))
}

/// Runs a script on the CPUs of a crew, with streams that never fail and no gate. Answers how the run
/// ended, and what was written.
pub(crate) fn run_on<R: Threads + Wait + Sync, C: Crew + Sync>(
    rt: &R,
    alloc: Global,
    words: &[&str],
    script: &str,
    crew: &mut C,
) -> Result<(Status, Vec<u8>), AllocError>
where
    C::C: Send,
{
    let mut source = MemSource::new(alloc, script.as_bytes(), 1000, &[])?;
    let mut sink = MemSink::new(alloc, 1000, 1000, &[])?;
    let (status, _) = run_with(rt, alloc, words, &mut source, &mut sink, crew, &OpenGate)?;
    Ok((status, Vec::from_slice(alloc, sink.written())?))
}
