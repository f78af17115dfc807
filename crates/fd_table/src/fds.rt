//! A table of descriptors.
ghost use Rattle.std.specs.Prelude.{◌≡◌, ◌<◌, IsSome, MatchOption};
ghost use Rattle.fd_table.specs.Tables.{IsFull, IsLowestFree, fd_map, used_from, lowest_free, with_file, meaning};

use crate::call::TableCall;
use crate::{DESCRIPTORS, words};
use std::marker::Model;
use word_bits::{CallWords, Errno, Object, Reply, ValueObject};

/// A table of descriptors. Contracts see a slot for each; `fd_map` is what the slots say of one.
#[derive(Drop)]
pub struct Fds {
    files: [Option<u16>; DESCRIPTORS],
}

impl Model for Fds {
    ghost use Rattle.std.specs.Prelude.{ℕ, List, Option};
    ghost use Rattle.fd_table.specs.Tables.{IsTable};

    ghost Value = { List (Option ℕ) };

    ghost view = { λ s. s.files };

    ghost invariant = { λ s. IsTable s.files };
}

impl Fds {
    /// How many descriptors are open.
    pub fn used(&self) -> u32
        ensures { result ≡ used_from (fd_map self.now) 0 64 }
    {
        (0..DESCRIPTORS as u32)
            .filter(|fd| self.file(*fd).is_some())
            .count() as u32
    }

    /// The file that a descriptor is open to. `None` where it isn't open.
    pub fn file(&self, fd: u32) -> Option<u16>
        ensures value { result ≡ fd_map self.now fd }
        ensures within { IsSome result → fd < 64 }
    {
        *self.files.get(fd as usize)?
    }

    /// The lowest descriptor that isn't open. `None` where all are open.
    fn lowest_free(&self) -> Option<u32>
        ensures value { result ≡ lowest_free (fd_map self.now) }
        ensures lowest { MatchOption result
            (IsFull (fd_map self.now))
            (IsLowestFree (fd_map self.now)) }
    {
        (0..DESCRIPTORS as u32).find(|fd| self.file(*fd).is_none())
    }

    /// Opens the descriptor to a file, or frees it.
    fn set(&mut self, fd: u32, file: Option<u16>)
        requires { fd < 64 }
        ensures { fd_map self.new ≡ with_file (fd_map self.old) fd file }
    {
        self.files[fd as usize] = file;
    }

    fn open(&mut self, file: u16) -> Reply
        ensures next { fd_map self.new ≡ (meaning (fd_map self.old) (TableCall.Open file)).0 }
        ensures reply { result ≡ (meaning (fd_map self.old) (TableCall.Open file)).1 }
    {
        match self.lowest_free() {
            None => Reply::Refused(Errno::MFile),
            Some(fd) => {
                self.set(fd, Some(file));
                Reply::Num(fd)
            }
        }
    }

    fn close(&mut self, fd: u32) -> Reply
        ensures next { fd_map self.new ≡ (meaning (fd_map self.old) (TableCall.Close fd)).0 }
        ensures reply { result ≡ (meaning (fd_map self.old) (TableCall.Close fd)).1 }
    {
        if self.file(fd).is_none() {
            return Reply::Refused(Errno::BadF);
        }
        self.set(fd, None);
        Reply::Good
    }

    fn dup(&mut self, fd: u32) -> Reply
        ensures next { fd_map self.new ≡ (meaning (fd_map self.old) (TableCall.Dup fd)).0 }
        ensures reply { result ≡ (meaning (fd_map self.old) (TableCall.Dup fd)).1 }
    {
        match self.file(fd) {
            None => Reply::Refused(Errno::BadF),
            Some(file) => self.open(file),
        }
    }

    fn dup2(&mut self, fd: u32, to: u32) -> Reply
        ensures next { fd_map self.new ≡ (meaning (fd_map self.old) (TableCall.Dup2 fd to)).0 }
        ensures reply { result ≡ (meaning (fd_map self.old) (TableCall.Dup2 fd to)).1 }
    {
        match self.file(fd) {
            Some(file) if to < DESCRIPTORS as u32 => {
                self.set(to, Some(file));
                Reply::Num(to)
            }
            _ => Reply::Refused(Errno::BadF),
        }
    }

    fn get(&self, fd: u32) -> Reply
        ensures { result ≡ (meaning (fd_map self.now) (TableCall.Get fd)).1 }
    {
        match self.file(fd) {
            None => Reply::Refused(Errno::BadF),
            Some(file) => Reply::Num(u32::from(file)),
        }
    }
}

impl Object for Fds {
    ghost use Rattle.fd_table.specs.Tables.{fd_map, table};
    ghost use Rattle.fd_table.specs.Laws.Table.{few_words, starts, zeros, called, signals, goes_on, replies, reading, refused};

    type Call = TableCall;

    const WORDS: usize = DESCRIPTORS;

    ghost WORDS = { 64 };

    ghost object = { table };

    ghost state = { fd_map };

    fn call_of(words: CallWords) -> Option<TableCall> {
        TableCall::call_of(words)
    }

    fn reads(call: TableCall) -> bool {
        matches!(call, TableCall::Get { .. })
    }

    ghost few_words = { few_words };

    ghost starts = { starts };

    ghost zeros = { zeros };

    ghost called = { called };

    ghost signals = { signals };

    ghost goes_on = { goes_on };

    ghost replies = { replies };

    ghost reading = { reading };

    ghost refused = { refused };
}

impl ValueObject for Fds {
    ghost use Rattle.fd_table.specs.Laws.Table.{sized, apart};

    fn empty() -> Self {
        Fds {
            files: [None; DESCRIPTORS],
        }
    }

    fn apply(&mut self, call: TableCall) -> Reply {
        let reply = match call {
            TableCall::Open { file } => self.open(file),
            TableCall::Close { fd } => self.close(fd),
            TableCall::Dup { fd } => self.dup(fd),
            TableCall::Dup2 { fd, to } => self.dup2(fd, to),
            TableCall::Get { fd } => self.get(fd),
        };
        // Read, since the proof knows that the slots are valid only where they are used.
        let _ = &self.files;
        reply
    }

    fn load(words: &[u64]) -> Option<Self> {
        Some(Fds {
            files: words::load(words)?,
        })
    }

    fn store(&self, out: &mut [u64]) {
        words::store(&self.files, out);
    }

    ghost sized = { sized };

    ghost apart = { apart };

    ghost exact = { λ s words is. is };

    ghost represents = { λ s words is. is };
}
