//! What a single word is.
ghost use Rattle.std.specs.Prelude.{◌≡◌, ◌<◌, ◌^◌, ◌≤◌, IfSome};
ghost use Rattle.std.specs.List.{list_all};
ghost use Rattle.task_script.specs.Inside.{NameIs};
ghost use Rattle.task_script.specs.Tokens.{is_name_byte, has_name_bytes, is_name, keyword_of, leads_zero, number, access, flag, prot};

use arrayvec::ArrayString;

fn name_byte(byte: u8) -> bool
    ensures { result ≡ is_name_byte byte }
{
    byte.is_ascii_lowercase() || byte.is_ascii_digit() || byte == b'_'
}

fn name_bytes(bytes: &[u8]) -> bool
    ensures { result ≡ list_all is_name_byte bytes.now }
{
    bytes.iter().all(|byte| name_byte(*byte))
}

fn has_form_of_name(word: &[u8]) -> bool
    ensures { result ≡ has_name_bytes word.now }
{
    match word.split_first() {
        Some((first, rest)) => first.is_ascii_lowercase() && rest.len() <= 15 && name_bytes(rest),
        None => false,
    }
}

/// A word that begins a line and isn't a name.
#[derive(Clone, Copy, Debug, PartialEq, Eq)]
pub(crate) enum Keyword {
    Version,
    Space,
    Table,
    Task,
    Int,
    Try,
}

/// The keyword that a word is, if it is one.
pub(crate) fn keyword_of(word: &[u8]) -> Option<Keyword>
    ensures { result ≡ keyword_of word.now }
{
    match word {
        b"version" => Some(Keyword::Version),
        b"space" => Some(Keyword::Space),
        b"table" => Some(Keyword::Table),
        b"task" => Some(Keyword::Task),
        b"int" => Some(Keyword::Int),
        b"try" => Some(Keyword::Try),
        _ => None,
    }
}

/// Whether the word may be the name of an object.
pub(crate) fn names_object(word: &[u8]) -> bool
    ensures { result ≡ is_name word.now }
{
    has_form_of_name(word) && keyword_of(word).is_none()
}

/// The name of an object: a lower-case letter and up to 15 lower-case letters, digits or `_`.
pub(crate) type Name = ArrayString<16>;

/// The word as the name of an object, if it may be one.
#[tactic(auto, using(crate::proofs::Names::name_is_text, crate::proofs::Names::name_is_short))]
pub(crate) fn name_of(word: &[u8]) -> Option<Name>
    ensures { NameIs word.now result }
{
    if !names_object(word) {
        return None;
    }
    let text = str::from_utf8(word).ok()?;
    Name::from(text).ok()
}

fn has_leading_zero(word: &[u8]) -> bool
    ensures { result ≡ leads_zero word.now }
{
    match word {
        [] => true,
        [_] => false,
        [first, ..] => *first == b'0',
    }
}

/// The most digits of a number below 2^32.
const MOST_DIGITS: usize = 10;

/// The number that a word is: `0`, or decimal digits that begin with 1 to 9, below 2^32.
pub fn number_of(word: &[u8]) -> Option<u32>
    ensures { result ≡ number word.now }
{
    if has_leading_zero(word) {
        return None;
    }
    if word.len() > MOST_DIGITS {
        return None;
    }
    let mut value: u64 = 0;
    for digit in word {
        if !digit.is_ascii_digit() {
            return None;
        }
        value = value * 10 + u64::from(*digit - b'0');
    }
    u32::try_from(value).ok()
}

/// The access that the word stands for, as the bits of its protection.
pub(crate) fn access_of(word: &[u8]) -> Option<u8>
    ensures { result ≡ access word.now }
{
    match word {
        b"r" => Some(1),
        b"w" => Some(2),
        b"x" => Some(4),
        _ => None,
    }
}

fn flag_of(byte: u8, letter: u8, bit: u8) -> Option<u8>
    ensures value { result ≡ flag letter bit byte }
    ensures most { IfSome result (λ value. value ≤ bit) }
{
    match byte {
        b'-' => Some(0),
        _ if byte == letter => Some(bit),
        _ => None,
    }
}

/// The bits of the protection that the word stands for.
pub(crate) fn prot_of(word: &[u8]) -> Option<u8>
    ensures { result ≡ prot word.now }
{
    let [read, write, execute] = word else {
        return None;
    };
    let read = flag_of(*read, b'r', 1)?;
    let write = flag_of(*write, b'w', 2)?;
    let execute = flag_of(*execute, b'x', 4)?;
    Some(read + write + execute)
}
