//! What texts are written to.
//!
//! A sink tells in its ghost members which bytes it has taken, if it knows them, and how often it
//! has failed. Code that writes is proved against these clauses; for a sink over the outside world,
//! that what it takes arrives there is trusted.
ghost use Rattle.std.specs.Prelude.{◌<◌, ◌≤◌, ℕ, List, Option, length, IfOk};
ghost use Rattle.std.specs.Io.KnownBytes.{WriteAppends};
ghost use Rattle.byte_streams.specs.Causes.{CountsFailure, Puts};

use crate::source::Failed;

/// Takes bytes in order.
pub trait Sink {
    /// The bytes that it has taken, if the sink tells them.
    ghost written: { Self → Option (List ℕ) };

    /// How often a write has failed.
    ghost faults: { Self → ℕ };

    /// Takes the front of a piece, and answers how many bytes it has, at least 1. At an error it
    /// took none, and a later write may go on.
    fn write(&mut self, piece: &[u8]) -> Result<usize, Failed>
        requires { 0 < length piece.now }
        ensures count { IfOk result (λ n. (0 < n) × (n ≤ length piece.now)) }
        ensures bytes { WriteAppends (written self.old) (written self.new) result piece.now }
        ensures cause { CountsFailure (faults self.old) (faults self.new) result };
}

/// Writes a whole piece.
///
/// # Errors
///
/// The sink's first failure. It has then taken a front of the piece.
pub fn put<K: Sink>(sink: &mut K, piece: &[u8]) -> Result<(), Failed>
    ensures bytes { Puts (K.written sink.old) (K.written sink.new) piece.now result }
    ensures cause { CountsFailure (K.faults sink.old) (K.faults sink.new) result }
{
    let mut rest = piece;
    while !rest.is_empty() {
        let count = sink.write(rest)?;
        rest = &rest[count..];
    }
    Ok(())
}
