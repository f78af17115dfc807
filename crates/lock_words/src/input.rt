//! The whole input.

use byte_streams::Source;
use std::alloc::Global;

/// Why there is no input.
#[derive(Clone, Copy, Debug, PartialEq, Eq)]
pub(crate) enum InputError {
    Memory,
    Failed,
}

/// The most bytes that are read.
const MOST: usize = 1 << 28;

/// How many bytes one read asks for.
const PIECE: usize = 65_536;

/// Reads to the end, or as many bytes as are read at most.
pub(crate) fn read_all<S: Source>(alloc: Global, source: &mut S) -> Result<Vec<u8>, InputError> {
    let mut all = Vec::new(alloc);
    let mut piece = [0u8; PIECE];
    while all.len() < MOST {
        let Ok(count) = source.read(&mut piece) else {
            return Err(InputError::Failed);
        };
        if count == 0 {
            break;
        }
        all.extend_from_slice(&piece[..count])
            .map_err(|_| InputError::Memory)?;
    }
    Ok(all)
}
