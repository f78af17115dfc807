//! Decodes words of locks, plays courses of their steps, and answers what single steps make of
//! words.
#![tactic(auto)]

mod answers;
mod course;
mod decode;
mod hex;
mod input;
mod kinds;
mod number;
mod options;
mod questions;
mod reason;
mod run;
mod states;
mod status;
mod texts;
mod why_text;

use byte_streams::{ReadSource, WriteSink};
use run::run;
use status::Status;
use std::alloc::Global;
use std::process::ExitCode;
use std::{env, io};

/// The words behind the program's name, if all are text.
fn words(alloc: Global, line: io::Result<env::Args>) -> Result<Vec<String>, Status> {
    match line {
        Ok(line) => match line.skip(1).collect(alloc) {
            Ok(words) => Ok(words),
            Err(_) => Err(Status::NoMemory),
        },
        Err(error) if error.kind() == io::ErrorKind::OutOfMemory => Err(Status::NoMemory),
        Err(_) => Err(Status::Usage),
    }
}

fn main(rt: HostRuntime) -> ExitCode {
    let mut source = ReadSource::new(rt.reader());
    let mut sink = WriteSink::new(io::writer(&rt));
    let status = match words(rt.alloc(), env::args(&rt)) {
        Ok(words) => run(&rt, rt.alloc(), words.as_slice(), &mut source, &mut sink),
        Err(status) => status,
    };
    if let Some(line) = status.complaint() {
        // Where standard error fails too, the exit code still tells.
        let _ = eprintln!(rt; "lock_words: {line}");
    }
    ExitCode::from(status.number())
}
