//! A source and a sink over memory. They tell all of their bytes, give or take few of them a call,
//! and fail at the calls that they are told. What they do is proved in full; nothing is trusted.
ghost use Rattle.std.specs.Prelude.{◌≡◌, ◌<◌, ◌≤◌, [], Some, length, IfOk};
ghost use Rattle.std.specs.Io.{ReadsAtMost};
ghost use Rattle.std.specs.Io.KnownBytes.{ReadConsumes, WriteAppends};
ghost use Rattle.byte_streams.specs.Causes.{CountsEnd, CountsFailure, Counts};
ghost use Rattle.byte_streams.specs.Memories.{Supplies, Stores};

use crate::sink::Sink;
use crate::source::{Failed, Source};
use std::alloc::{AllocError, Global};
use std::marker::Model;

/// Gives bytes of memory. Contracts see what is left, how it gives it, and the counts of its calls.
#[derive(Drop)]
pub struct MemSource {
    bytes: Vec<u8>,
    at: usize,
    step: usize,
    fails: Vec<u64>,
    calls: u64,
    faults: u64,
    gave: u64,
    ended: u64,
}

impl Model for MemSource {
    ghost use Rattle.std.specs.Prelude.{drop, length, ◌≤◌, ◌<◌};
    ghost use Rattle.byte_streams.specs.Memories.{Supply};

    ghost Value = { Supply };

    ghost view = { λ s. record {
      left = drop s.at s.bytes.items;
      step = s.step;
      fails = s.fails.items;
      calls = s.calls;
      faults = s.faults;
      gave = s.gave;
      ended = s.ended;
    } };

    ghost invariant = { λ s. (s.at ≤ length s.bytes.items) × (0 < s.step) };
}

impl MemSource {
    /// A source of the bytes, that gives at most `step` of them a call and fails at the calls whose
    /// numbers, from 0, are in `fails`.
    pub fn new(
        alloc: Global,
        bytes: &[u8],
        step: usize,
        fails: &[u64],
    ) -> Result<MemSource, AllocError>
        requires { 0 < step }
        ensures { IfOk result (λ s. s ≡ record {
          left = bytes.now;
          step = step;
          fails = fails.now;
          calls = 0;
          faults = 0;
          gave = 0;
          ended = 0;
        }) }
    {
        Ok(MemSource {
            bytes: Vec::from_slice(alloc, bytes)?,
            at: 0,
            step,
            fails: Vec::from_slice(alloc, fails)?,
            calls: 0,
            faults: 0,
            gave: 0,
            ended: 0,
        })
    }
}

impl Source for MemSource {
    ghost left = { λ s. Some s.left };

    ghost faults = { λ s. s.faults };

    ghost gave = { λ s. s.gave };

    ghost ended = { λ s. s.ended };

    fn read(&mut self, into: &mut [u8]) -> Result<usize, Failed>
        requires { 0 < length into.old }
        ensures within { ReadsAtMost result into.new }
        ensures bytes { ReadConsumes (Some self.old.left) (Some self.new.left) result into.new }
        ensures cause { CountsFailure self.old.faults self.new.faults result }
        ensures counted { Counts self.old.gave self.new.gave result }
        ensures ends { CountsEnd self.old.ended self.new.ended result }
        ensures supplies { Supplies self.old self.new (length into.new) result }
    {
        let call = self.calls;
        self.calls = call.saturating_add(1);
        if self.fails.contains(&call) {
            self.faults = self.faults.saturating_add(1);
            return Err(Failed);
        }
        let (_, left) = self.bytes.as_slice().split_at(self.at);
        let count = self.step.min(into.len()).min(left.len());
        let (given, _) = left.split_at(count);
        into[..count].copy_from_slice(given);
        self.at += count;
        if count > 0 {
            self.gave = self.gave.saturating_add(1);
        } else {
            self.ended = self.ended.saturating_add(1);
        }
        Ok(count)
    }
}

/// Takes bytes into memory. Contracts see what it has taken, how it takes it, and the counts of its
/// calls.
#[derive(Drop)]
pub struct MemSink {
    bytes: Vec<u8>,
    room: usize,
    step: usize,
    fails: Vec<u64>,
    calls: u64,
    faults: u64,
}

impl Model for MemSink {
    ghost use Rattle.std.specs.Prelude.{length, ◌≤◌, ◌<◌, vec_capacity};
    ghost use Rattle.byte_streams.specs.Memories.{Store};

    ghost Value = { Store };

    ghost view = { λ s. record {
      written = s.bytes.items;
      room = s.room;
      step = s.step;
      fails = s.fails.items;
      calls = s.calls;
      faults = s.faults;
    } };

    ghost invariant = { λ s.
        (length s.bytes.items ≤ s.room) × (s.room ≤ vec_capacity s.bytes) × (0 < s.step) };
}

impl MemSink {
    /// A sink that has room for so many bytes, takes at most `step` of them a call and fails at the
    /// calls whose numbers, from 0, are in `fails`, and where no room is left. It takes no memory
    /// later.
    pub fn new(
        alloc: Global,
        room: usize,
        step: usize,
        fails: &[u64],
    ) -> Result<MemSink, AllocError>
        requires { 0 < step }
        ensures { IfOk result (λ s. s ≡ record {
          written = [];
          room = room;
          step = step;
          fails = fails.now;
          calls = 0;
          faults = 0;
        }) }
    {
        Ok(MemSink {
            bytes: Vec::with_capacity(alloc, room)?,
            room,
            step,
            fails: Vec::from_slice(alloc, fails)?,
            calls: 0,
            faults: 0,
        })
    }

    /// The bytes that it has taken.
    pub fn written(&self) -> &[u8]
        ensures { result.now ≡ self.now.written }
    {
        self.bytes.as_slice()
    }
}

impl Sink for MemSink {
    ghost written = { λ s. Some s.written };

    ghost faults = { λ s. s.faults };

    fn write(&mut self, piece: &[u8]) -> Result<usize, Failed>
        requires { 0 < length piece.now }
        ensures count { IfOk result (λ n. (0 < n) × (n ≤ length piece.now)) }
        ensures bytes { WriteAppends (Some self.old.written) (Some self.new.written)
            result piece.now }
        ensures cause { CountsFailure self.old.faults self.new.faults result }
        ensures stores { Stores self.old self.new piece.now result }
    {
        let call = self.calls;
        self.calls = call.saturating_add(1);
        let room = self.room - self.bytes.len();
        let count = self.step.min(piece.len()).min(room);
        let (taken, _) = piece.split_at(count);
        if count == 0 || self.fails.contains(&call) {
            self.faults = self.faults.saturating_add(1);
            return Err(Failed);
        }
        let stored = self.bytes.extend_from_slice(taken);
        prove!(stored.is_ok());
        Ok(count)
    }
}
