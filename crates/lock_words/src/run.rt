//! The program over a command line and its streams.

use crate::course::{Played, play};
use crate::decode::add_decoded;
use crate::input::{InputError, read_all};
use crate::kinds::{Kind, kind_named};
use crate::number::word_of;
use crate::options::{OptionsError, asks_help, options_before, read};
use crate::questions::{NoAnswer, answer_lines};
use crate::status::Status;
use byte_streams::{Outbox, ReadSource, Sink, Source, put};
use std::alloc::Global;
use std::fs;
use std::rt::Files;

const USAGE: &[u8] = b"usage: lock_words [--linux] KIND WORD...\n\
    \x20      lock_words --play=FILE\n\
    \x20      lock_words --steps < QUESTIONS\n";

const HELP: &[u8] = b"usage: lock_words [--linux] KIND WORD...\n\
    \x20      lock_words --play=FILE\n\
    \x20      lock_words --steps < QUESTIONS\n\
    Says what words of locks say, or plays the steps that change them.\n\
    \x20 KIND        mutex, rwsem, spin, osq or percpu; with --linux spin-16k too\n\
    \x20 WORD        decimal, or hexadecimal with 0x\n\
    \x20 --linux     the word is one of Linux 6.6 on 64 bits\n\
    \x20 --play=FILE plays a course of a mutex, rwsem or spin; - is standard input\n\
    \x20 --steps     answers what single steps make of words, a line each\n\
    Try: lock_words mutex 21    lock_words --linux rwsem 0x102\n\
    A course: mutex; 0 try; 1 queue; 0 release; a line end for each ;\n\
    Status: 0 done, 2 misuse, 3 refused line, 4 no input, 5 no output, 6 no memory\n";

fn tell<K: Sink>(text: &'static [u8], status: Status, sink: &mut K) -> Status {
    match put(sink, text) {
        Ok(()) => status,
        Err(_) => Status::WriteFault,
    }
}

fn usage<K: Sink>(sink: &mut K) -> Status {
    tell(USAGE, Status::Usage, sink)
}

/// Decodes the words one after the other, once each is a number.
fn decode<K: Sink>(linux: bool, kind: Kind, words: &[String], sink: &mut K) -> Status {
    for word in words {
        if word_of(word.as_str()).is_none() {
            return usage(sink);
        }
    }
    for word in words {
        let Some(number) = word_of(word.as_str()) else {
            return usage(sink);
        };
        let mut out = Outbox::new();
        add_decoded(&mut out, linux, kind, number);
        if out.flush(sink).is_err() {
            return Status::WriteFault;
        }
    }
    Status::Done
}

fn decode_words<K: Sink>(linux: bool, words: &[String], sink: &mut K) -> Status {
    let Some((name, words)) = words.split_first() else {
        return usage(sink);
    };
    match kind_named(name.as_str().as_bytes()) {
        Some(Kind::WideSpin) if !linux => usage(sink),
        Some(kind) if !words.is_empty() => decode(linux, kind, words, sink),
        _ => usage(sink),
    }
}

fn play_text<K: Sink>(text: &[u8], sink: &mut K) -> Status {
    let Ok(text) = str::from_utf8(text) else {
        return usage(sink);
    };
    match play(text, sink) {
        Ok(Played::Whole) => Status::Done,
        Ok(Played::Refused) => Status::Refused,
        Err(_) => Status::WriteFault,
    }
}

fn answer_text<K: Sink>(text: &[u8], sink: &mut K) -> Status {
    let Ok(text) = str::from_utf8(text) else {
        return Status::Usage;
    };
    match answer_lines(text, sink) {
        Ok(()) => Status::Done,
        Err(NoAnswer::Misused) => Status::Usage,
        Err(NoAnswer::Failed) => Status::WriteFault,
    }
}

fn play_source<S: Source, K: Sink>(alloc: Global, source: &mut S, sink: &mut K) -> Status {
    match read_all(alloc, source) {
        Ok(text) => play_text(text.as_slice(), sink),
        Err(InputError::Memory) => Status::NoMemory,
        Err(InputError::Failed) => Status::ReadFault,
    }
}

fn play_file<R: Files, K: Sink>(rt: &R, alloc: Global, path: &str, sink: &mut K) -> Status {
    match fs::open(rt, path) {
        Ok(file) => play_source(alloc, &mut ReadSource::new(file), sink),
        Err(_) => Status::ReadFault,
    }
}

fn answer_source<S: Source, K: Sink>(alloc: Global, source: &mut S, sink: &mut K) -> Status {
    match read_all(alloc, source) {
        Ok(text) => answer_text(text.as_slice(), sink),
        Err(InputError::Memory) => Status::NoMemory,
        Err(InputError::Failed) => Status::ReadFault,
    }
}

/// Does what the words behind the program's name say.
pub(crate) fn run<R: Files, S: Source, K: Sink>(
    rt: &R,
    alloc: Global,
    words: &[String],
    source: &mut S,
    sink: &mut K,
) -> Status {
    if asks_help(words) {
        return tell(HELP, Status::Done, sink);
    }
    let (front, behind) = words.split_at(options_before(words));
    let options = match read(alloc, front) {
        Ok(options) => options,
        Err(OptionsError::Misused) => return usage(sink),
        Err(OptionsError::Memory) => return Status::NoMemory,
    };
    match (options.play, options.steps) {
        (Some("-"), false) if behind.is_empty() => play_source(alloc, source, sink),
        (Some(path), false) if behind.is_empty() => play_file(rt, alloc, path, sink),
        (None, true) if behind.is_empty() => answer_source(alloc, source, sink),
        (None, false) => decode_words(options.linux, behind, sink),
        _ => usage(sink),
    }
}
