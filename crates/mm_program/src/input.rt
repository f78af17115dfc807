//! The whole input.
ghost use Rattle.std.specs.Prelude.{◌≡◌, ◌<◌, ◌≤◌, ◌+◌, length, IfOk};
ghost use Rattle.std.specs.Io.KnownBytes.{Consumes, IsAtEnd};
ghost use Rattle.mm_program.specs.Answers.{TakesAtMost};
ghost use Rattle.mm_program.specs.Inputs.{faults_after};

use byte_streams::Source;
use std::alloc::Global;

/// Why there is no input.
#[derive(Clone, Copy, Debug, PartialEq, Eq)]
pub(crate) enum InputError {
    Memory,
    Failed,
}

/// The most bytes that are read: one more than a script may have.
const MOST: usize = 1_048_577;

/// How many bytes one read asks for.
const PIECE: usize = 65_536;

/// Reads to the end, or one byte more than a script may have.
pub(crate) fn read_all<S: Source>(alloc: Global, source: &mut S) -> Result<Vec<u8>, InputError>
    ensures bytes { IfOk result (λ v. Consumes (S.left source.old) (S.left source.new) v.items) }
    ensures most { IfOk result (λ v. length v.items ≤ 1048577) }
    ensures enough { IfOk result (λ v. length v.items < 1048577 → IsAtEnd (S.left source.new)) }
    ensures few_reads { S.gave source.new ≤ S.gave source.old + 1048577 }
    ensures one_end { S.ended source.new ≤ S.ended source.old + 1 }
    ensures taken { TakesAtMost 1048577 (S.left source.old) (S.left source.new) }
    ensures faults { S.faults source.new ≡ faults_after result (S.faults source.old) }
{
    let mut all = Vec::new(alloc);
    let mut piece = [0u8; PIECE];
    while all.len() < MOST {
        let room = (MOST - all.len()).min(PIECE);
        let Ok(count) = source.read(&mut piece[..room]) else {
            return Err(InputError::Failed);
        };
        if count == 0 {
            break;
        }
        all.extend_from_slice(&piece[..count])
            .map_err(|_| InputError::Memory)?;
    }
    Ok(all)
}
