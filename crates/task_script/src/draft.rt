//! A script while its lines are read.
ghost use Rattle.std.specs.Prelude.{◌≡◌, ◌<◌, ◌++◌, ◌∷◌, [], length, map, position, IfSome, None, Ok, if◌then◌else◌, true};
ghost use Rattle.std.specs.List.{list_all};
ghost use Rattle.std.specs.Str.{bytes_eq};
ghost use Rattle.task_script.specs.Cuts.{is_clean, words};
ghost use Rattle.task_script.specs.Grammar.{call_line, declare_line, line_after, line_of, object_line, is_begun, is_space_at, place_of, task_line, text_after, version_line, with_call};
ghost use Rattle.task_script.specs.Inside.{declared_of, is_space_kind};
ghost use Rattle.task_script.specs.LineParts.{all_words};
ghost use Rattle.task_script.specs.Scripts.{nothing};
ghost use Rattle.task_script.specs.Readings.{Becomes};
ghost use Rattle.task_script.specs.Tokens.{is_name};

use crate::cut::{Words, said};
use crate::reason::Reason;
use crate::script::{Kind, Line};
use crate::token::{Keyword, Name, keyword_of, name_of, names_object};
use crate::verb::read_call;
use crate::version::Version;
use indexmap::IndexMap;
use std::alloc::Global;
use std::marker::Model;
use word_bits::{CallWords, Mode};

/// Why a line doesn't become part of the script.
pub(crate) enum LineError {
    Refused(Reason),
    Memory,
}

impl From<Reason> for LineError {
    ghost use Rattle.task_script.specs.declared.draft.LineError.TheVariants.{Refused};

    ghost from_gives = { λ reason error. error ≡ Refused reason };

    fn from(reason: Reason) -> LineError {
        LineError::Refused(reason)
    }
}

/// What was read so far. Contracts see it as a script.
#[derive(Drop)]
pub(crate) struct Draft {
    pub(crate) version: Version,
    pub(crate) objects: IndexMap<Name, Kind>,
    pub(crate) tasks: Vec<Vec<Line>>,
}

impl Model for Draft {
    ghost use Rattle.std.specs.Prelude.{◌≡◌, ◌≤◌, length, map, true};
    ghost use Rattle.task_script.specs.Inside.{are_named, declared_of, listing};
    ghost use Rattle.task_script.specs.Scripts.{Listing};

    ghost Value = { Listing };

    ghost view = { λ d. listing d.version d.objects.entries d.tasks.items };

    ghost invariant = { λ d. (length d.objects.entries ≤ 32)
        × (are_named (map declared_of d.objects.entries) ≡ true) };
}

/// Whether two texts of one length are the same. Names that differ mostly do so in their last byte,
/// so this one goes first.
fn is_same(text: &[u8], name: &[u8]) -> bool
    requires { length text.now ≡ length name.now }
    ensures { result ≡ bytes_eq name.now text.now }
{
    let mut left = name.len();
    while left > 0 {
        left -= 1;
        if text[left] != name[left] {
            return false;
        }
    }
    true
}

/// Whether a key is the name.
fn is_key(key: &Name, name: &[u8]) -> bool
    ensures { result ≡ bytes_eq name.now key.now.bytes }
{
    let key = key.as_str().as_bytes();
    key.len() == name.len() && is_same(key, name)
}

/// The place of a name among those of the objects.
fn place_of(objects: &IndexMap<Name, Kind>, name: &[u8]) -> Option<usize>
    ensures { result ≡ position (λ key. bytes_eq name.now key.bytes)
        (map (λ entry. entry.0) objects.now.entries) }
{
    objects.keys().position(|key| is_key(key, name))
}

/// Why no object has the name.
fn unknown(name: &[u8]) -> Reason
    ensures { result ≡ if is_name name.now then Reason.Unknown else Reason.Name }
{
    if names_object(name) {
        Reason::Unknown
    } else {
        Reason::Name
    }
}

impl Draft {
    pub(crate) fn new(alloc: Global) -> Draft
        ensures { result ≡ nothing }
    {
        Draft {
            version: Version::One,
            objects: IndexMap::new(alloc),
            tasks: Vec::new(alloc),
        }
    }

    /// Whether a line with words was read.
    fn is_begun(&self) -> bool
        ensures { result ≡ is_begun self.now }
    {
        self.version.is_second() || !self.objects.is_empty() || !self.tasks.is_empty()
    }

    fn version_line(&mut self, mut words: Words) -> Result<(), LineError>
        ensures { Becomes result self.new (version_line self.old words.entry) }
    {
        if !words.skip(b"2") || words.next().is_some() {
            return Err(Reason::Version.into());
        }
        if self.is_begun() {
            return Err(Reason::Place.into());
        }
        self.version = Version::Two;
        Ok(())
    }

    fn place(&self, name: &[u8]) -> Option<u32>
        ensures place { result ≡ place_of name.now self.now.objects }
        ensures declared { IfSome result (λ place. place < length self.now.objects) }
        ensures named { IfSome result (λ place. is_name name.now ≡ true) }
    {
        let place = place_of(&self.objects, name)?;
        Some(place as u32)
    }

    fn is_space(&self, object: u32) -> bool
        requires { object < length self.now.objects }
        ensures { result ≡ is_space_at self.now.objects object }
    {
        matches!(self.objects[object as usize], Kind::Space)
    }

    fn push_object(&mut self, name: Name, kind: Kind) -> Result<(), LineError>
        requires new { place_of name.bytes self.old.objects ≡ None }
        requires few { length self.old.objects < 32 }
        requires named { is_name name.bytes ≡ true }
        ensures { Becomes result self.new
            (Ok record {
              version = self.old.version;
              objects = self.old.objects ++ declared_of (name, kind) ∷ [];
              tasks = self.old.tasks;
            }) }
    {
        if self.objects.insert(name, kind).is_err() {
            return Err(LineError::Memory);
        }
        Ok(())
    }

    fn declare(&mut self, kind: Kind, mut words: Words) -> Result<(), LineError>
        ensures { Becomes result self.new (declare_line (is_space_kind kind) self.old words.entry) }
    {
        let (Some(word), None) = (words.next(), words.next()) else {
            return Err(Reason::Words.into());
        };
        if !self.tasks.is_empty() {
            return Err(Reason::Place.into());
        }
        let name = name_of(word).ok_or(Reason::Name)?;
        if self.place(word).is_some() {
            return Err(Reason::Twice.into());
        }
        if self.objects.len() >= self.version.most_objects() {
            return Err(Reason::Limit.into());
        }
        self.push_object(name, kind)
    }

    fn task(&mut self, alloc: Global, mut words: Words) -> Result<(), LineError>
        ensures { Becomes result self.new (task_line self.old words.entry) }
    {
        if words.next().is_some() {
            return Err(Reason::Words.into());
        }
        if self.tasks.len() >= self.version.most_tasks() as usize {
            return Err(Reason::Limit.into());
        }
        self.tasks
            .push(Vec::new(alloc))
            .map_err(|_| LineError::Memory)
    }

    fn push_call(&mut self, object: u32, call: CallWords) -> Result<(), LineError>
        requires { 0 < length self.old.tasks }
        ensures { Becomes result self.new
            (Ok record {
              version = self.old.version;
              objects = self.old.objects;
              tasks = with_call self.old.tasks (line_of object call);
            }) }
    {
        let calls = self.tasks.last_mut().unwrap();
        if calls.push(Line::new(object, call)).is_err() {
            return Err(LineError::Memory);
        }
        Ok(())
    }

    fn call_on(&mut self, mode: Mode, object: u32, mut words: Words) -> Result<(), LineError>
        requires declared { object < length self.old.objects }
        requires some { 0 < length self.old.tasks }
        ensures { Becomes result self.new (object_line mode self.old object words.entry) }
    {
        let verb = words.next().ok_or(Reason::Words)?;
        let call = read_call(self.version, self.is_space(object), mode, verb, words)?;
        self.push_call(object, call)
    }

    fn call(&mut self, mode: Mode, name: Option<&[u8]>, words: Words) -> Result<(), LineError>
        ensures { Becomes result self.new
            (call_line mode self.old (all_words name.entry words.entry)) }
    {
        let name = name.ok_or(Reason::Words)?;
        if self.tasks.is_empty() {
            return Err(Reason::Place.into());
        }
        let Some(object) = self.place(name) else {
            return Err(unknown(name).into());
        };
        self.call_on(mode, object, words)
    }

    fn line_of(&mut self, alloc: Global, mut words: Words) -> Result<(), LineError>
        ensures { Becomes result self.new (line_after self.old words.entry) }
    {
        let Some(first) = words.next() else {
            return Ok(());
        };
        let (mode, name) = match keyword_of(first) {
            Some(Keyword::Version) => return self.version_line(words),
            Some(Keyword::Space) => return self.declare(Kind::Space, words),
            Some(Keyword::Table) => return self.declare(Kind::Table, words),
            Some(Keyword::Task) => return self.task(alloc, words),
            Some(Keyword::Int) => (Mode::Int, words.next()),
            Some(Keyword::Try) => (Mode::Try, words.next()),
            None => (Mode::Plain, Some(first)),
        };
        self.call(mode, name, words)
    }

    /// Reads one more line, which may be known to be clean.
    pub(crate) fn line(&mut self, alloc: Global, line: &[u8], clean: bool) -> Result<(), LineError>
        requires { clean ≡ true → list_all is_clean line.now ≡ true }
        ensures { Becomes result self.new (text_after self.old line.now) }
    {
        let line = said(line, clean).ok_or(Reason::Byte)?;
        self.line_of(alloc, Words::new(line))
    }
}
