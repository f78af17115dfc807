//! A script: its objects, and the calls of its tasks.
ghost use Rattle.std.specs.Prelude.{◌≡◌, ◌<◌, ◌≤◌, length, slice_get, Some, All, IfOk, List};

use crate::links::link_calls;
use crate::token::Name;
use crate::version::Version;
use indexmap::IndexMap;
use std::alloc::{AllocError, Global};
use std::marker::Model;
use word_bits::CallWords;

/// A call of a task on an object.
#[derive(Clone, Copy, Debug, PartialEq, Eq)]
pub struct Line {
    /// The number of the object, in the order of declaration.
    pub object: u32,
    /// The call's two words.
    pub words: [u64; 2],
}

impl Line {
    ghost use Rattle.task_script.specs.Grammar.{line_of};
    ghost use Rattle.task_script.specs.Scripts.{call_words};

    /// A call on an object.
    pub(crate) fn new(object: u32, call: CallWords) -> Line
        ensures { result ≡ line_of object call }
    {
        Line {
            object,
            words: [call.a, call.b],
        }
    }

    /// The call, in its words.
    pub fn call(self) -> CallWords
        ensures { result ≡ call_words self }
    {
        let [a, b] = self.words;
        CallWords { a, b }
    }
}

/// What kind of object a name stands for.
#[derive(Clone, Copy, Debug, PartialEq, Eq)]
pub(crate) enum Kind {
    Space,
    Table,
}

/// A script that was read. Contracts see its version, its objects, each with its name and whether
/// it is a space, and for each task the list of its calls.
#[derive(Drop)]
pub struct Script {
    version: Version,
    objects: IndexMap<Name, Kind>,
    tasks: Vec<Vec<Line>>,
    /// For each call of a task the place of the task's next one on the same object.
    links: Vec<Vec<usize>>,
}

impl Model for Script {
    ghost use Rattle.task_script.specs.Inside.{listing};
    ghost use Rattle.task_script.specs.Scripts.{Listing};
    ghost use Rattle.task_script.specs.Links.{IsSoundAndLinked};

    ghost Value = { Listing };

    ghost view = { λ s. listing s.version s.objects.entries s.tasks.items };

    ghost invariant = { λ s. IsSoundAndLinked (listing s.version s.objects.entries s.tasks.items)
        s.tasks.items s.links.items };
}

impl Script {
    ghost use Rattle.task_script.specs.Scripts.{names_of, kinds_of};
    ghost use Rattle.task_script.specs.Sound.{IsSound};
    ghost use Rattle.task_script.specs.Versions.{version_number};
    ghost use Rattle.task_script.specs.Inside.{listing};
    ghost use Rattle.task_script.specs.Links.{HasLinks};

    /// A script of these parts.
    pub(crate) fn new(
        alloc: Global,
        version: Version,
        objects: IndexMap<Name, Kind>,
        tasks: Vec<Vec<Line>>,
    ) -> Result<Script, AllocError>
        requires sound { IsSound (listing version objects.entries tasks.items) }
        ensures parts { IfOk result (λ s. s ≡ listing version objects.entries tasks.items) }
    {
        let links = link_calls(alloc, &tasks)?;
        Ok(Script {
            version,
            objects,
            tasks,
            links,
        })
    }

    /// The number of the script's version: 1 or 2.
    pub fn version(&self) -> u32
        ensures { result ≡ version_number self.now.version }
    {
        self.version.number()
    }

    pub(crate) fn language(&self) -> Version
        ensures version { result ≡ self.now.version }
        ensures sound { IsSound self.now }
    {
        self.version
    }

    /// How many objects there are: at most 16 in version 1, or 32 in version 2.
    pub fn objects(&self) -> usize
        ensures count { result ≡ length self.now.objects }
        ensures few { result ≤ 32 }
        ensures sound { IsSound self.now }
    {
        self.objects.len()
    }

    /// How many tasks there are: at most 64 in version 1, or 400 in version 2.
    pub fn tasks(&self) -> usize
        ensures count { result ≡ length self.now.tasks }
        ensures few { result ≤ 400 }
    {
        self.tasks.len()
    }

    /// The name of an object.
    pub fn name(&self, object: usize) -> &str
        requires { object < length self.now.objects }
        ensures name { slice_get (names_of self.now) object ≡ Some result.now }
        ensures some { 0 < length result.now }
        ensures short { length result.now ≤ 16 }
    {
        let (name, _) = self.objects.get_index(object).unwrap();
        name.as_str()
    }

    /// Whether an object is a space.
    pub fn is_space(&self, object: usize) -> bool
        requires { object < length self.now.objects }
        ensures { slice_get (kinds_of self.now) object ≡ Some result }
    {
        matches!(self.objects[object], Kind::Space)
    }

    /// The calls of a task, in order.
    pub fn calls(&self, task: usize) -> &[Line]
        requires { task < length self.now.tasks }
        ensures calls { slice_get self.now.tasks task ≡ Some result.now }
        ensures on_objects { All (λ l. l.object < length self.now.objects) result.now }
    {
        self.tasks[task].as_slice()
    }

    /// For each of `calls(task)` the place there of the task's next call on the same object, or
    /// `calls(task).len()` if there is none.
    pub fn links(&self, task: usize) -> &[usize]
        requires { task < length self.now.tasks }
        ensures { (lines : List Line) → slice_get self.now.tasks task ≡ Some lines →
            HasLinks lines result.now }
    {
        self.links[task].as_slice()
    }
}
