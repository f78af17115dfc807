//! The versions of the language of scripts.
ghost use Rattle.std.specs.Prelude.{◌≡◌, ◌≤◌};
ghost use Rattle.task_script.specs.Versions.{has_remap, is_second, most_objects, most_tasks, version_number};

use word_bits::MAX_TASKS;

/// The largest number of objects of a script.
pub const MAX_OBJECTS: usize = 32;

/// A version of the language. A script is of the first unless it says otherwise.
#[derive(Clone, Copy, Debug, PartialEq, Eq)]
pub(crate) enum Version {
    One,
    Two,
}

impl Version {
    pub(crate) fn number(self) -> u32
        ensures { result ≡ version_number self }
    {
        match self {
            Version::One => 1,
            Version::Two => 2,
        }
    }

    pub(crate) fn is_second(self) -> bool
        ensures { result ≡ is_second self }
    {
        self == Version::Two
    }

    pub(crate) fn most_objects(self) -> usize
        ensures most { result ≡ most_objects self }
        ensures few { result ≤ 32 }
    {
        match self {
            Version::One => 16,
            Version::Two => MAX_OBJECTS,
        }
    }

    pub(crate) fn most_tasks(self) -> u32
        ensures { result ≡ most_tasks self }
    {
        match self {
            Version::One => 64,
            Version::Two => MAX_TASKS,
        }
    }

    /// Whether calls may move pages.
    pub(crate) fn has_remap(self) -> bool
        ensures { result ≡ has_remap self }
    {
        self.is_second()
    }
}
