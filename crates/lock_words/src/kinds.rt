//! The kinds of words.
ghost use Rattle.std.specs.Prelude.{◌≡◌, ◌≤◌, length};
ghost use Rattle.lock_words.specs.Kinds.{kind_named, kind_text};

/// The kind of a word.
#[derive(Clone, Copy, Debug, PartialEq, Eq)]
pub(crate) enum Kind {
    /// A mutex's owner word.
    Mutex,
    /// A semaphore's count.
    Semaphore,
    /// A queued spin lock's word. Of Linux with fewer than 16,384 CPUs.
    Spin,
    /// The same, of Linux with 16,384 CPUs and more.
    WideSpin,
    /// A spin queue's tail.
    Queue,
    /// A per-CPU semaphore's block word.
    Percpu,
}

/// The kind of this name.
pub(crate) fn kind_named(name: &[u8]) -> Option<Kind>
    ensures { result ≡ kind_named name.now }
{
    match name {
        b"mutex" => Some(Kind::Mutex),
        b"rwsem" => Some(Kind::Semaphore),
        b"spin" => Some(Kind::Spin),
        b"spin-16k" => Some(Kind::WideSpin),
        b"osq" => Some(Kind::Queue),
        b"percpu" => Some(Kind::Percpu),
        _ => None,
    }
}

/// The kind's name.
pub(crate) fn name_of(kind: Kind) -> &'static [u8]
    ensures text { result.now ≡ kind_text kind }
    ensures short { length result.now ≤ 8 }
{
    match kind {
        Kind::Mutex => b"mutex",
        Kind::Semaphore => b"rwsem",
        Kind::Spin => b"spin",
        Kind::WideSpin => b"spin-16k",
        Kind::Queue => b"osq",
        Kind::Percpu => b"percpu",
    }
}
