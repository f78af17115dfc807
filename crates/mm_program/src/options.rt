//! The options of the command line.
ghost use Rattle.std.specs.Prelude.{◌≡◌, [], IfOk, Some, false, option_map};
ghost use Rattle.clap.specs.Matches.{found_of};
ghost use Rattle.clap.specs.Simple.{app_of};
ghost use Rattle.clap.specs.Walk.{rows_of, rule_of};
ghost use Rattle.mm_program.specs.CommandLine.{QuestionsSayNothing, asks_help, flag_rule, is_from_words, number_if_used, number_or, number_up_to, options_from, options_of, said_by, the_command, JoinedOptionsSay, LoneOptionsSay, RepeatedOptionsSayNothing, SplitOptionsSay, value_rule};
ghost use Rattle.mm_program.specs.Parsed.{Gives, error_of};

use clap::error::ErrorKind;
use clap::parser::ValueSource;
use clap::{Arg, ArgAction, ArgMatches, Command};
use std::alloc::{AllocError, Global};
use task_script::number_of;

/// What the words of the command line say.
#[derive(Clone, Copy, Debug, PartialEq, Eq)]
pub struct Options {
    /// How many turns a task spins before its CPU needs to reschedule.
    pub spin: u32,
    /// How many rounds a waiter waits before it is overdue.
    pub overdue: u32,
    /// The number whose script is generated, where none is read.
    pub generate: Option<u32>,
    /// Whether the summary is written, in place of the text.
    pub summary: bool,
}

/// Why there are no options.
#[derive(Clone, Copy, Debug, PartialEq, Eq)]
pub(crate) enum OptionsError {
    /// The words are no command line.
    Misused,
    Memory,
}

/// Whether the words ask how to use the program.
pub(crate) fn asks_help(words: &[String]) -> bool
    ensures { result ≡ asks_help words.now }
{
    match words {
        [word] => word.as_str() == "--help" || word.as_str() == "-h",
        _ => false,
    }
}

fn option<'a>(alloc: Global, name: &'a str) -> Arg<'a>
    ensures rule { rule_of result ≡ value_rule name.entry.now }
    ensures local { result.global ≡ false }
{
    Arg::new(alloc, name).long(name).action(ArgAction::Set)
}

fn flag<'a>(alloc: Global, name: &'a str) -> Arg<'a>
    ensures rule { rule_of result ≡ flag_rule name.entry.now }
    ensures local { result.global ≡ false }
{
    Arg::new(alloc, name).long(name).action(ArgAction::SetTrue)
}

fn command<'a>(alloc: Global) -> Result<Command<'a>, AllocError>
    ensures { IfOk result (λ c. app_of c ≡ the_command) }
{
    Command::new(alloc, "mm_main")
        .no_binary_name(true)
        .disable_help_flag(true)
        .arg(option(alloc, "spin"))?
        .arg(option(alloc, "overdue"))?
        .arg(option(alloc, "generate"))?
        .arg(flag(alloc, "summary"))
}

fn number_up_to(limit: u32, text: &str) -> Option<u32>
    ensures { result ≡ number_up_to limit text.now }
{
    number_of(text.as_bytes()).filter(|number| *number <= limit)
}

fn number_or(default: u32, limit: u32, text: Option<&str>) -> Option<u32>
    ensures { result ≡ number_or default limit (option_map (λ s. s.now) text.entry) }
{
    match text {
        Some(text) => number_up_to(limit, text),
        None => Some(default),
    }
}

fn number_if_used(text: Option<&str>) -> Option<Option<u32>>
    ensures { result ≡ number_if_used (option_map (λ s. s.now) text.entry) }
{
    match text {
        Some(text) => Some(Some(number_up_to(u32::MAX, text)?)),
        None => Some(None),
    }
}

fn is_from_words(source: Option<ValueSource>) -> bool
    ensures { result ≡ is_from_words source }
{
    matches!(source, Some(ValueSource::CommandLine))
}

impl OptionsError {
    fn of_kind(kind: ErrorKind) -> OptionsError
        ensures { result ≡ error_of kind }
    {
        match kind {
            ErrorKind::OutOfMemory => OptionsError::Memory,
            _ => OptionsError::Misused,
        }
    }
}

impl Options {
    fn from_matches(matches: &ArgMatches<'_>) -> Option<Options>
        ensures { result ≡ options_from (rows_of (found_of matches.now)) }
    {
        Some(Options {
            spin: number_or(100, 1_000_000, matches.get_str("spin"))?,
            overdue: number_or(4, 1_000_000, matches.get_str("overdue"))?,
            generate: number_if_used(matches.get_str("generate"))?,
            summary: is_from_words(matches.value_source("summary")),
        })
    }

    /// What no words say.
    pub(crate) fn of_no_words() -> Options
        ensures { options_of [] ≡ Some result }
    {
        Options {
            spin: 100,
            overdue: 4,
            generate: None,
            summary: false,
        }
    }

    /// Each option, joined to its value, says it.
    #[tactic(auto, using(crate::proofs::CommandLines::joined_options_say))]
    pub(crate) fn joined_options_say()
        ensures { JoinedOptionsSay }
    {}

    /// An option that stands alone says its value also where that is a word of its own, which a
    /// digit begins.
    pub(crate) fn split_options_say()
        ensures { SplitOptionsSay }
    {}

    /// Each option alone says it.
    pub(crate) fn lone_options_say()
        ensures { LoneOptionsSay }
    {}

    /// Words that ask how to use the program say nothing.
    pub(crate) fn questions_say_nothing()
        ensures { QuestionsSayNothing }
    {}

    /// An option that is used twice makes the words no command line.
    pub(crate) fn repeated_options_say_nothing()
        ensures { RepeatedOptionsSayNothing }
    {}

    /// Reads the words behind the program's name.
    ///
    /// # Errors
    ///
    /// That the words are no command line, or that there is no memory.
    pub(crate) fn read(alloc: Global, words: &[String]) -> Result<Options, OptionsError>
        ensures { Gives (said_by words.now) result }
    {
        let Ok(command) = command(alloc) else {
            return Err(OptionsError::Memory);
        };
        match command.try_get_matches_from(words) {
            Ok(matches) => Options::from_matches(&matches).ok_or(OptionsError::Misused),
            Err(error) => Err(OptionsError::of_kind(error.kind())),
        }
    }
}
