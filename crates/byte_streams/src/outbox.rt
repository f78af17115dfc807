//! Text on its way to a sink, gathered into large pieces, so that a line costs no call of the sink.
ghost use Rattle.std.specs.Prelude.{◌≡◌, ◌+◌, ◌%◌, ◌≤◌, ◌++◌, [], length, decimal, OnOk, OnErr};
ghost use Rattle.byte_streams.specs.Causes.{CountsFailure, Flushes};
ghost use Rattle.byte_streams.specs.Rooms.{MakesRoom};

use crate::sink::{Sink, put};
use crate::source::Failed;
use itoa::Buffer;
use std::marker::Model;

/// How many bytes are free after room was made.
const ROOM: usize = 256;

/// The last decimal digit of a number.
fn digit(number: u64) -> u8
    ensures { result ≡ 48 + number % 10 }
{
    b'0' + (number % 10) as u8
}

/// Up to 4096 bytes that wait to be written. Contracts see the list of them.
#[derive(Drop)]
pub struct Outbox {
    bytes: [u8; 4096],
    /// How many of them wait.
    count: usize,
}

impl Model for Outbox {
    ghost use Rattle.std.specs.Prelude.{List, ℕ, ◌≤◌, ◌≡◌, length, take};

    ghost Value = { List ℕ };

    ghost view = { λ o. take o.count o.bytes };

    ghost invariant = { λ o. (o.count ≤ 4096) × (length o.bytes ≡ 4096) };
}

impl Outbox {
    /// An outbox in which nothing waits.
    pub fn new() -> Outbox
        ensures { result ≡ [] }
    {
        Outbox {
            bytes: [0; 4096],
            count: 0,
        }
    }

    /// Adds a piece behind the bytes that wait.
    pub fn add(&mut self, piece: &[u8])
        requires { length self.old + length piece.now ≤ 4096 }
        ensures { self.new ≡ self.old ++ piece.now }
    {
        let end = self.count + piece.len();
        self.bytes[self.count..end].copy_from_slice(piece);
        self.count = end;
    }

    /// Adds a number in decimal digits, of which there are at most 20.
    pub fn add_number(&mut self, number: u64)
        requires { length self.old + 20 ≤ 4096 }
        ensures text { self.new ≡ self.old ++ decimal number }
        ensures short { length self.new ≤ length self.old + 20 }
    {
        // Most numbers have one to three digits, which need no buffer.
        if number < 10 {
            return self.add(&[digit(number)]);
        }
        if number < 100 {
            return self.add(&[digit(number / 10), digit(number)]);
        }
        if number < 1000 {
            return self.add(&[digit(number / 100), digit(number / 10), digit(number)]);
        }
        let mut digits = Buffer::new();
        self.add(digits.format(number).as_bytes());
    }

    /// Makes room for 256 bytes: where there is less, all that waits is written.
    ///
    /// # Errors
    ///
    /// The sink's first failure. It has then taken a front of what waits, all of which stays here.
    pub fn make_room<K: Sink>(&mut self, sink: &mut K) -> Result<(), Failed>
        ensures bytes { MakesRoom (K.written sink.old) (K.written sink.new)
            self.old self.new result }
        ensures kept { OnErr result (self.new ≡ self.old) }
        ensures room { OnOk result (length self.new + 256 ≤ 4096) }
        ensures cause { CountsFailure (K.faults sink.old) (K.faults sink.new) result }
    {
        if self.bytes.len() - self.count >= ROOM {
            return Ok(());
        }
        self.flush(sink)
    }

    /// Writes all that waits.
    ///
    /// # Errors
    ///
    /// The sink's first failure. It has then taken a front of what waits, all of which stays here.
    pub fn flush<K: Sink>(&mut self, sink: &mut K) -> Result<(), Failed>
        ensures bytes { Flushes (K.written sink.old) (K.written sink.new) self.old self.new result }
        ensures kept { OnErr result (self.new ≡ self.old) }
        ensures cause { CountsFailure (K.faults sink.old) (K.faults sink.new) result }
    {
        put(sink, &self.bytes[..self.count])?;
        self.count = 0;
        Ok(())
    }
}
