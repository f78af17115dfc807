//! The calls that a script can name, and their arguments.
ghost use Rattle.std.specs.Prelude.{◌≡◌, ◌<◌, ◌≤◌, length, ok_or};
ghost use Rattle.task_script.specs.Tokens.{access, number, prot};
ghost use Rattle.task_script.specs.Texts.{values_of};
ghost use Rattle.task_script.specs.Verbs.{arguments_of, call_on, call_with, call_words_of, counted_arguments, number_below, space_verb, table_verb, takes_mode, verb_of, with_any, with_argument};

use crate::cut::Words;
use crate::reason::Reason;
use crate::token::{access_of, number_of, prot_of};
use crate::version::Version;
use word_bits::{CallKind, CallWords, Mode};

/// What an argument is.
#[derive(Clone, Copy, Debug, PartialEq, Eq)]
pub(crate) enum Argument {
    /// The call's first number.
    First,
    /// Its second number.
    Second,
    /// Its third number.
    Third,
    /// The number of a file, as the first number.
    File,
    /// The number of a task, as the first number.
    Target,
    Protection,
    AccessBit,
}

/// What the arguments say; 0 for what isn't there.
#[derive(Clone, Copy, Debug, PartialEq, Eq)]
pub(crate) struct Values {
    pub(crate) first: u32,
    pub(crate) second: u32,
    pub(crate) third: u32,
    pub(crate) prot: u8,
    pub(crate) access: u8,
}

impl Values {
    const NONE: Values = Values {
        first: 0,
        second: 0,
        third: 0,
        prot: 0,
        access: 0,
    };

    /// What the words of a call say.
    pub(crate) fn of_words(words: CallWords) -> Values
        ensures { result ≡ values_of words }
    {
        Values {
            first: words.first(),
            second: words.second(),
            third: words.third(),
            prot: words.prot(),
            access: words.access(),
        }
    }
}

fn number_in(word: &[u8]) -> Result<u32, Reason>
    ensures { result ≡ ok_or (number word.now) Reason.Number }
{
    number_of(word).ok_or(Reason::Number)
}

fn number_below(word: &[u8], limit: u32, reason: Reason) -> Result<u32, Reason>
    ensures { result ≡ number_below limit reason word.now }
{
    let number = number_in(word)?;
    if number < limit {
        Ok(number)
    } else {
        Err(reason)
    }
}

impl Argument {
    /// What the arguments in front say, and this one, which is the word.
    fn read(self, version: Version, word: &[u8], values: Values) -> Result<Values, Reason>
        ensures { result ≡ with_argument version self word.now values }
    {
        let mut values = values;
        match self {
            Argument::First => values.first = number_in(word)?,
            Argument::Second => values.second = number_in(word)?,
            Argument::Third => values.third = number_in(word)?,
            Argument::File => values.first = number_below(word, 65_536, Reason::Number)?,
            Argument::Target => {
                values.first = number_below(word, version.most_tasks(), Reason::Limit)?;
            }
            Argument::Protection => values.prot = prot_of(word).ok_or(Reason::Prot)?,
            Argument::AccessBit => values.access = access_of(word).ok_or(Reason::Access)?,
        }
        Ok(values)
    }
}

/// What the words say, which are to be as many as the arguments.
fn read_arguments(
    version: Version,
    arguments: &[Argument],
    mut words: Words,
) -> Result<Values, Reason>
    ensures { result ≡ counted_arguments version arguments.now words.entry }
{
    let mut values = Values::NONE;
    let mut left = arguments.len();
    for argument in arguments {
        left -= 1;
        let Some(word) = words.next() else {
            return Err(Reason::Words);
        };
        values = match argument.read(version, word, values) {
            Ok(values) => values,
            Err(reason) if words.count_is(left) => return Err(reason),
            Err(_) => return Err(Reason::Words),
        };
    }
    if words.next().is_some() {
        return Err(Reason::Words);
    }
    Ok(values)
}

/// The kind of a call on a space that the word names. `map any` is found by its second word.
fn space_verb(version: Version, word: &[u8]) -> Option<CallKind>
    ensures { result ≡ space_verb version word.now }
{
    match word {
        b"map" => Some(CallKind::Map),
        b"mapnew" => Some(CallKind::MapNew),
        b"unmap" => Some(CallKind::Unmap),
        b"protect" => Some(CallKind::Protect),
        b"populate" => Some(CallKind::Populate),
        b"fault" => Some(CallKind::Fault),
        b"remap" if version.has_remap() => Some(CallKind::Remap),
        b"signal" => Some(CallKind::Signal),
        _ => None,
    }
}

/// The same of a table.
fn table_verb(word: &[u8]) -> Option<CallKind>
    ensures { result ≡ table_verb word.now }
{
    match word {
        b"open" => Some(CallKind::Open),
        b"close" => Some(CallKind::Close),
        b"dup" => Some(CallKind::Dup),
        b"dup2" => Some(CallKind::Dup2),
        b"get" => Some(CallKind::Get),
        b"signal" => Some(CallKind::Signal),
        _ => None,
    }
}

fn verb_of(version: Version, is_space: bool, word: &[u8]) -> Option<CallKind>
    ensures { result ≡ verb_of version is_space word.now }
{
    if is_space {
        space_verb(version, word)
    } else {
        table_verb(word)
    }
}

fn takes_mode(verb: CallKind, mode: Mode) -> bool
    ensures { result ≡ takes_mode verb mode }
{
    verb != CallKind::Signal || mode == Mode::Plain
}

/// The arguments behind the verb, at most three.
pub(crate) fn arguments_of(verb: CallKind) -> &'static [Argument]
    ensures list { result.now ≡ arguments_of verb }
    ensures few { length result.now ≤ 3 }
{
    match verb {
        CallKind::Map | CallKind::MapNew | CallKind::Protect | CallKind::Populate => &[
            Argument::First,
            Argument::Second,
            Argument::Protection,
        ],
        CallKind::MapAny => &[Argument::First, Argument::Protection],
        CallKind::Unmap | CallKind::Dup2 => &[Argument::First, Argument::Second],
        CallKind::Fault => &[Argument::First, Argument::AccessBit],
        CallKind::Open => &[Argument::File],
        CallKind::Close | CallKind::Dup | CallKind::Get => &[Argument::First],
        CallKind::Remap => &[Argument::First, Argument::Second, Argument::Third],
        CallKind::Signal => &[Argument::Target],
    }
}

/// The words of a call.
pub(crate) fn call_words(verb: CallKind, mode: Mode, values: Values) -> CallWords
    ensures { result ≡ call_words_of verb mode values }
{
    CallWords::new(
        verb.number(),
        values.first,
        values.second,
        values.prot,
        values.access,
        mode,
    )
    .with_third(values.third)
}

/// This verb, or `map any` where `any` is the next word, which is then taken.
fn with_any(verb: CallKind, words: &mut Words) -> CallKind
    ensures verb { result ≡ (with_any verb words.old).verb }
    ensures behind { words.new ≡ (with_any verb words.old).behind }
{
    if verb == CallKind::Map && words.skip(b"any") {
        CallKind::MapAny
    } else {
        verb
    }
}

/// The call of this verb with these arguments.
fn call_with(
    version: Version,
    verb: CallKind,
    mode: Mode,
    words: Words,
) -> Result<CallWords, Reason>
    ensures { result ≡ call_with version mode record { verb = verb; behind = words.entry } }
{
    if !takes_mode(verb, mode) {
        return Err(Reason::Mode);
    }
    let values = read_arguments(version, arguments_of(verb), words)?;
    Ok(call_words(verb, mode, values))
}

/// The call on this kind of object that a word and those behind it stand for.
pub(crate) fn read_call(
    version: Version,
    is_space: bool,
    mode: Mode,
    word: &[u8],
    mut words: Words,
) -> Result<CallWords, Reason>
    ensures { result ≡ call_on version is_space mode word.now words.entry }
{
    let verb = verb_of(version, is_space, word).ok_or(Reason::Call)?;
    let verb = with_any(verb, &mut words);
    call_with(version, verb, mode, words)
}
