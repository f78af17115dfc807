//! What an object leaves, in words.
ghost use Rattle.std.specs.Prelude.{◌≡◌, ◌<◌, ◌++◌, ◌∷◌, [], length, IfOk};
ghost use Rattle.word_bits.specs.Snapshots.{Words, no_words};

use std::alloc::{AllocError, Global};
use std::marker::Model;

/// The records, the log and the state of one object, as words. Contracts see the three lists, and
/// for each the room that it was made with.
#[derive(Drop)]
pub struct Snapshot {
    recs: Vec<u64>,
    log: Vec<u64>,
    state: Vec<u64>,
}

impl Model for Snapshot {
    ghost use Rattle.std.specs.Prelude.{vec_capacity};
    ghost use Rattle.word_bits.specs.Snapshots.{Words};

    ghost Value = { Words };

    ghost view = { λ s. record {
      recs = s.recs.items;
      log = s.log.items;
      state = s.state.items;
      recs_room = vec_capacity s.recs;
      log_room = vec_capacity s.log;
      state_room = vec_capacity s.state;
    } };
}

impl Snapshot {
    /// An empty snapshot with room for so many words in each list.
    pub fn new(alloc: Global, recs: usize, log: usize, state: usize) -> Result<Snapshot, AllocError>
        ensures { IfOk result (λ s. s ≡ no_words recs log state) }
    {
        Ok(Snapshot {
            recs: Vec::with_capacity(alloc, recs)?,
            log: Vec::with_capacity(alloc, log)?,
            state: Vec::with_capacity(alloc, state)?,
        })
    }

    /// The records: those of task 0 first, each task's in the order of its calls.
    pub fn recs(&self) -> &[u64]
        ensures { result.now ≡ self.now.recs }
    {
        self.recs.as_slice()
    }

    /// The entries of the log, in its order.
    pub fn log(&self) -> &[u64]
        ensures { result.now ≡ self.now.log }
    {
        self.log.as_slice()
    }

    /// The state that the log leaves.
    pub fn state(&self) -> &[u64]
        ensures { result.now ≡ self.now.state }
    {
        self.state.as_slice()
    }

    /// Appends the word of a record. Takes no memory.
    pub fn push_rec(&mut self, word: u64)
        requires { length self.old.recs < self.old.recs_room }
        ensures { self.new ≡ record self.old { recs = self.old.recs ++ word ∷ [] } }
    {
        self.recs.push_reserved(word);
    }

    /// Appends the word of an entry of the log. Takes no memory.
    pub fn push_log(&mut self, word: u64)
        requires { length self.old.log < self.old.log_room }
        ensures { self.new ≡ record self.old { log = self.old.log ++ word ∷ [] } }
    {
        self.log.push_reserved(word);
    }

    /// Appends a word of the state. Takes no memory.
    pub fn push_state(&mut self, word: u64)
        requires { length self.old.state < self.old.state_room }
        ensures { self.new ≡ record self.old { state = self.old.state ++ word ∷ [] } }
    {
        self.state.push_reserved(word);
    }
}
