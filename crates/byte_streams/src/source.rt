//! What texts are read from.
//!
//! A source tells in its ghost members which bytes it has left, if it knows them, how often it has
//! failed, how many of its reads gave bytes, and how many found none left. Code that reads is
//! proved against these clauses; for a source over the outside world, that it gives what the
//! outside holds is trusted.
ghost use Rattle.std.specs.Prelude.{◌<◌, ℕ, List, Option, length};
ghost use Rattle.std.specs.Io.{ReadsAtMost};
ghost use Rattle.std.specs.Io.KnownBytes.{ReadConsumes};
ghost use Rattle.byte_streams.specs.Causes.{CountsEnd, CountsFailure, Counts};

/// A call of a source or a sink that failed.
#[derive(Clone, Copy, Debug, PartialEq, Eq)]
pub struct Failed;

/// Gives bytes in order.
pub trait Source {
    /// The bytes that are left, if the source tells them.
    ghost left: { Self → Option (List ℕ) };

    /// How often a read has failed.
    ghost faults: { Self → ℕ };

    /// How many reads gave bytes.
    ghost gave: { Self → ℕ };

    /// How many reads found no bytes left.
    ghost ended: { Self → ℕ };

    /// Fills the front of the buffer, and answers how many bytes it has. The answer 0 says that
    /// none are left. After an error a later read may go on.
    fn read(&mut self, into: &mut [u8]) -> Result<usize, Failed>
        requires { 0 < length into.old }
        ensures within { ReadsAtMost result into.new }
        ensures bytes { ReadConsumes (left self.old) (left self.new) result into.new }
        ensures cause { CountsFailure (faults self.old) (faults self.new) result }
        ensures counted { Counts (gave self.old) (gave self.new) result }
        ensures ends { CountsEnd (ended self.old) (ended self.new) result };
}
