//! A command line that couldn't be read for want of memory.
use byte_streams::{MemSink, MemSource};
use fd_table::Fds;
use mm_program::{Status, run_to_end};
use mutex_slow::Mutex;
use rwsem_slow::RwSem;
use std::io;
use std::test::Fail;
use vma_map::Areas;

#[test]
fn ends_with_no_memory_where_the_line_had_none(rt: HostRuntime) -> Result<(), Fail> {
    let mut source = MemSource::new(rt.alloc(), b"space a\n", 8, &[])?;
    let mut sink = MemSink::new(rt.alloc(), 1000, 1000, &[])?;
    let (status, _) = run_to_end::<RwSem<Areas>, Mutex<Fds>, _, _, _>(
        &rt,
        rt.alloc(),
        Err(io::Error::from(io::ErrorKind::OutOfMemory)),
        &mut source,
        &mut sink,
    );
    assert!(rt; status == Status::NoMemory);
    assert!(rt; sink.written() == b"".as_slice());
    Ok(())
}
