//! A source over a reader, and a sink over a writer.
//!
//! They tell the bytes that the reader or the writer tells, and it is proved that they count each
//! failure that they answer, each read that gave bytes, and each that
//! gave none. No clause says of a reader or a writer
//! when it fails: that its failure is answered at once, and that its bytes are handed on where it
//! tells none, is tested. What a reader of the outside world gives, and where a writer puts it, is
//! trusted.
ghost use Rattle.std.specs.Prelude.{◌≡◌};

use crate::sink::Sink;
use crate::source::{Failed, Source};
use std::io::{Read, Write};

/// A source over a reader.
#[derive(Drop)]
pub struct ReadSource<R> {
    reader: R,
    faults: u64,
    gave: u64,
    ended: u64,
}

impl<R: Read> ReadSource<R> {
    /// A source that reads from this reader.
    pub fn new(reader: R) -> ReadSource<R>
        ensures left { ⟦<ReadSource<R> as Source>⟧.left result ≡ R.remaining reader }
        ensures faults { ⟦<ReadSource<R> as Source>⟧.faults result ≡ 0 }
        ensures gave { ⟦<ReadSource<R> as Source>⟧.gave result ≡ 0 }
        ensures ended { ⟦<ReadSource<R> as Source>⟧.ended result ≡ 0 }
    {
        ReadSource {
            reader,
            faults: 0,
            gave: 0,
            ended: 0,
        }
    }
}

impl<R: Read> Source for ReadSource<R> {
    ghost left = { λ s. R.remaining s.reader };

    ghost faults = { λ s. s.faults };

    ghost gave = { λ s. s.gave };

    ghost ended = { λ s. s.ended };

    fn read(&mut self, into: &mut [u8]) -> Result<usize, Failed> {
        match self.reader.read(into) {
            Ok(count) => {
                if count > 0 {
                    self.gave = self.gave.saturating_add(1);
                } else {
                    self.ended = self.ended.saturating_add(1);
                }
                Ok(count)
            }
            Err(_) => {
                self.faults = self.faults.saturating_add(1);
                Err(Failed)
            }
        }
    }
}

/// A sink over a writer.
#[derive(Drop)]
pub struct WriteSink<W> {
    writer: W,
    faults: u64,
}

impl<W: Write> WriteSink<W> {
    /// A sink that writes to this writer.
    pub fn new(writer: W) -> WriteSink<W>
        ensures written { ⟦<WriteSink<W> as Sink>⟧.written result ≡ W.contents writer }
        ensures faults { ⟦<WriteSink<W> as Sink>⟧.faults result ≡ 0 }
    {
        WriteSink { writer, faults: 0 }
    }
}

impl<W: Write> Sink for WriteSink<W> {
    ghost written = { λ s. W.contents s.writer };

    ghost faults = { λ s. s.faults };

    /// A write that took nothing is a failure.
    #[tactic(auto, using(crate::proofs::Ways::kept_by_nothing))]
    fn write(&mut self, piece: &[u8]) -> Result<usize, Failed> {
        match self.writer.write(piece) {
            Ok(count) if count > 0 => Ok(count),
            _ => {
                self.faults = self.faults.saturating_add(1);
                Err(Failed)
            }
        }
    }
}
