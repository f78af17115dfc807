//! The words and the text of a remap, in a script of version 2. What each version refuses stands in
//! examples/version.cases.
use crate::script_tests::rewritten;
use std::test::Fail;
use task_script::{Line, read};

/// Two remaps and a signal, out of their canonical form.
const REMAPS: &[u8] =
    b"# pages move\n\n version 2 # from here on\nspace a\ntask\na  remap 16 4 100\n\
    try a remap 0 1 4294967295\na signal 399\n";

#[test]
fn moves_pages_in_version_2(rt: HostRuntime) -> Result<(), Fail> {
    let script = read(rt.alloc(), REMAPS)?;
    assert!(rt; script.version() == 2);
    assert!(rt; script.tasks() == 1);
    let lines = [
        (17_179_869_200, 429_496_729_613),
        (1 << 32, 13 | 2 << 24 | 4_294_967_295 << 32),
        (399, 15),
    ]
    .map(|(a, b)| Line {
        object: 0,
        words: [a, b],
    });
    assert!(rt; script.calls(0) == lines.as_slice());
    Ok(())
}

#[test]
fn writes_remaps_in_canonical_form(rt: HostRuntime) -> Result<(), Fail> {
    let sink = rewritten(&rt, rt.alloc(), REMAPS)?;
    let canonical = "version 2\nspace a\ntask\na remap 16 4 100\ntry a remap 0 1 4294967295\n\
        a signal 399\n";
    assert!(rt; sink.written() == canonical.as_bytes());
    Ok(())
}
