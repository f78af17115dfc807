//! The command line.
ghost use Rattle.std.specs.Prelude.{◌≤◌, length};

use clap::error::ErrorKind;
use clap::parser::ValueSource;
use clap::{Arg, ArgAction, ArgMatches, Command};
use std::alloc::{AllocError, Global};

/// What the words of the command line say.
#[derive(Clone, Copy, Debug, PartialEq, Eq)]
pub(crate) struct Options<'a> {
    /// Words are those of Linux.
    pub linux: bool,
    /// Lines of questions are answered.
    pub steps: bool,
    /// The file whose course is played.
    pub play: Option<&'a str>,
}

/// Why there are no options.
#[derive(Clone, Copy, Debug, PartialEq, Eq)]
pub(crate) enum OptionsError {
    /// The words are no command line.
    Misused,
    Memory,
}

/// Whether the words ask how to use the program.
pub(crate) fn asks_help(words: &[String]) -> bool {
    match words {
        [word] => word.as_str() == "--help" || word.as_str() == "-h",
        _ => false,
    }
}

fn flag<'a>(alloc: Global, name: &'a str) -> Arg<'a> {
    Arg::new(alloc, name).long(name).action(ArgAction::SetTrue)
}

fn command<'a>(alloc: Global) -> Result<Command<'a>, AllocError> {
    let play = Arg::new(alloc, "play").long("play").action(ArgAction::Set);
    Command::new(alloc, "lock_words")
        .no_binary_name(true)
        .disable_help_flag(true)
        .arg(flag(alloc, "linux"))?
        .arg(flag(alloc, "steps"))?
        .arg(play)
}

fn is_used(matches: &ArgMatches<'_>, name: &str) -> bool {
    matches!(matches.value_source(name), Some(ValueSource::CommandLine))
}

/// How many of the words stand before the kind: the options.
pub(crate) fn options_before(words: &[String]) -> usize
    ensures { result ≤ length words.now }
{
    for (k, word) in words.iter().enumerate() {
        if !word.as_str().starts_with("--") {
            return k;
        }
    }
    words.len()
}

/// Reads the options.
pub(crate) fn read<'a>(alloc: Global, words: &'a [String]) -> Result<Options<'a>, OptionsError> {
    let Ok(command) = command(alloc) else {
        return Err(OptionsError::Memory);
    };
    match command.try_get_matches_from(words) {
        Ok(matches) => Ok(Options {
            linux: is_used(&matches, "linux"),
            steps: is_used(&matches, "steps"),
            play: matches.get_str("play"),
        }),
        Err(error) if error.kind() == ErrorKind::OutOfMemory => Err(OptionsError::Memory),
        Err(_) => Err(OptionsError::Misused),
    }
}
