//! Cutting a text into lines, and a line into words.
ghost use Rattle.std.specs.Prelude.{◌≡◌, ◌==◌, ◌∷◌, ◌<◌, ℕ, Bool, true, false, [], length, position, MatchBool, MatchOption, IfSome};
ghost use Rattle.std.specs.List.{list_all, slice_split};
ghost use Rattle.task_script.specs.Cuts.{is_blank, is_clean, is_clean_or_feed, is_plain, lines, uncommented, without_return};
ghost use Rattle.task_script.specs.Grammar.{said};
ghost use Rattle.task_script.specs.LineParts.{IsBegunOtherwise, parts_of};

use memchr::memchr;
use std::marker::Model;

fn place_of(bytes: &[u8], at: u8) -> Option<usize>
    ensures place { result ≡ position (λ b. b == at) bytes.now }
    ensures within { IfSome result (λ place. place < length bytes.now) }
{
    memchr(at, bytes)
}

/// Where the first blank stands. Among plain bytes each up to the space is one.
fn first_blank(bytes: &[u8]) -> Option<usize>
    requires { list_all is_plain bytes.now ≡ true }
    ensures place { result ≡ position is_blank bytes.now }
    ensures within { IfSome result (λ place. place < length bytes.now) }
{
    for (place, byte) in bytes.iter().enumerate() {
        if *byte <= b' ' {
            return Some(place);
        }
    }
    None
}

/// What stands before a place, and what stands behind it. Without a place all stands before.
#[tactic(auto, using(crate::proofs::Cutting::cut_at, crate::proofs::Cutting::uncut, crate::proofs::Cutting::kept_behind))]
fn cut(bytes: &[u8], place: Option<usize>) -> (&[u8], Option<&[u8]>)
    requires { IfSome place (λ place. place < length bytes.now) }
    ensures parts { (cuts : ℕ → Bool) → position cuts bytes.now ≡ place →
        slice_split cuts bytes.now ≡ result.0.now ∷ parts_of cuts result.1 }
    ensures shorter { IfSome result.1 (λ rest. length rest.now < length bytes.now) }
    ensures kept { (passes : ℕ → Bool) → list_all passes bytes.now ≡ true →
        IfSome result.1 (λ rest. list_all passes rest.now ≡ true) }
{
    match place {
        Some(place) => (&bytes[..place], Some(&bytes[place + 1..])),
        None => (bytes, None),
    }
}

/// The first line of a text, and what stands behind its line feed, if there is one.
pub(crate) fn first_line(text: &[u8]) -> (&[u8], Option<&[u8]>)
    ensures parts { lines text.now ≡ result.0.now ∷ parts_of (λ b. b == 10) result.1 }
    ensures shorter { IfSome result.1 (λ rest. length rest.now < length text.now) }
{
    cut(text, place_of(text, b'\n'))
}

fn without_return(line: &[u8]) -> &[u8]
    ensures { result.now ≡ without_return line.now }
{
    let Some((last, front)) = line.split_last() else {
        return line;
    };
    if *last == b'\r' { front } else { line }
}

/// What stands in front of a comment, where each byte of it is a blank or a visible character.
fn plain_front(line: &[u8]) -> Option<&[u8]>
    ensures { MatchOption result
        (list_all is_plain (uncommented line.now) ≡ false)
        (λ front. (front.now ≡ uncommented line.now) × (list_all is_plain front.now ≡ true)) }
{
    for (place, byte) in line.iter().enumerate() {
        match *byte {
            b'#' => return Some(&line[..place]),
            b' '..=b'~' | b'\t' => {}
            _ => return None,
        }
    }
    Some(line)
}

/// Whether a clean text may have the byte: a line feed, a blank, or a visible character but `#`.
fn clean_or_feed(byte: u8) -> bool
    ensures { result ≡ is_clean_or_feed byte }
{
    byte == b'\n' || byte == b'\t' || (b' ' <= byte && byte <= b'~' && byte != b'#')
}

/// What a line says: without a carriage return at its end, and without a comment. `None` where a
/// byte of it is neither a blank nor a visible character. A clean line says all of itself.
pub(crate) fn said(line: &[u8], clean: bool) -> Option<&[u8]>
    requires { clean ≡ true → list_all is_clean line.now ≡ true }
    ensures { MatchOption result
        (list_all is_plain (said line.now) ≡ false)
        (λ front. (front.now ≡ said line.now) × (list_all is_plain front.now ≡ true)) }
{
    if clean {
        return Some(line);
    }
    plain_front(without_return(line))
}

/// Whether a text is clean: it has line feeds, blanks and visible characters alone, and no comment.
/// This one look at all of it spares each line a look of its own.
pub(crate) fn is_clean_text(text: &[u8]) -> bool
    ensures { result ≡ list_all is_clean_or_feed text.now }
{
    let mut clean = true;
    for byte in text {
        clean &= clean_or_feed(*byte);
    }
    clean
}

/// The words of a plain line that weren't taken yet. Contracts see their list.
#[derive(Drop)]
pub(crate) struct Words<'a> {
    rest: Option<&'a [u8]>,
}

impl<'a> Model for Words<'a> {
    ghost use Rattle.std.specs.Prelude.{ℕ, List, not, filter};
    ghost use Rattle.task_script.specs.Cuts.{is_blank, is_empty};
    ghost use Rattle.task_script.specs.LineParts.{IsBegunOtherwise, IsPlainLeft, parts_of};

    ghost Value = { List (List ℕ) };

    ghost view = { λ w. filter (λ v. not (is_empty v)) (parts_of is_blank w.rest) };

    ghost invariant = { λ w. IsPlainLeft w.rest };
}

impl<'a> Words<'a> {
    ghost use Rattle.task_script.specs.Cuts.{words};

    pub(crate) fn new(line: &'a [u8]) -> Words<'a>
        requires { list_all is_plain line.now ≡ true }
        ensures { result ≡ words line.now }
    {
        Words { rest: Some(line) }
    }

    pub(crate) fn next(&mut self) -> Option<&'a [u8]>
        ensures { MatchOption result
            ((self.old ≡ []) × (self.new ≡ []))
            (λ word. self.old ≡ word.now ∷ self.new) }
    {
        while let Some(rest) = self.rest {
            let (word, behind) = cut(rest, first_blank(rest));
            self.rest = behind;
            if !word.is_empty() {
                return Some(word);
            }
        }
        None
    }

    /// Takes the next word if it is this one, and answers whether it was.
    pub(crate) fn skip(&mut self, word: &[u8]) -> bool
        ensures { MatchBool result
            (self.old ≡ word.now ∷ self.new)
            (IsBegunOtherwise word.now self.old × (self.new ≡ self.old)) }
    {
        let rest = self.rest;
        if self.next().is_some_and(|next| next == word) {
            return true;
        }
        self.rest = rest;
        false
    }

    /// Whether so many words are left.
    pub(crate) fn count_is(&self, count: usize) -> bool
        ensures { result ≡ (length self.now == count) }
    {
        let mut left = Words { rest: self.rest };
        for taken in 0..count {
            prove!(taken < count);
            if left.next().is_none() {
                return false;
            }
        }
        left.next().is_none()
    }
}
