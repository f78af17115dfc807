//! Passes: what a task makes the steps of one table with.
ghost use Rattle.std.specs.Prelude.{◌≡◌, ◌≢◌, ◌<◌, true, false, slice_index_or, None, length};
ghost use Rattle.lock_core.specs.LockHands.{point_at, depth_of, RestsAt};
ghost use Rattle.lock_core.specs.Records.{bit};
ghost use Rattle.lock_core.specs.Nestings.{is_held, waits_at, mask_of, no_nesting};
ghost use Rattle.lock_core.specs.SiteHandles.{view_of, hand_in, past_of, task_in, held_in, done_in, front_in, NotesFront, NotesHold, NotesDepth, NotesLock, NotesNone, IsDepthTold, IsNestTold};
ghost use Rattle.lock_core.specs.Types.{No, Out};

use crate::layout::SPIN_LOCKS;
use crate::rule::SiteRule;
use crate::view::{Held, Seen};
use atomic_table::Seat;

/// What a pass says of itself.
#[derive(Clone, Copy, Debug, PartialEq, Eq)]
pub(crate) struct Face {
    pub(crate) task: Option<u32>,
    pub(crate) held: Held,
    pub(crate) done: u32,
    pub(crate) front: u32,
}

impl Face {
    /// That of a pass without a number.
    pub(crate) fn stranger(front: u32) -> Face
        ensures { result ≡ record { task = None; held = No; done = 0; front = front } }
    {
        Face {
            task: None,
            held: Held::No,
            done: 0,
            front,
        }
    }
}

/// What a pass notes of itself at the spin locks of its table: no word tells it.
#[derive(Clone, Copy, Debug, PartialEq, Eq)]
pub(crate) struct Nesting {
    /// Of each lock, whether it holds it.
    pub(crate) holds: [bool; SPIN_LOCKS],
    /// Of each lock, whether a call of it waits for it.
    pub(crate) waits: [bool; SPIN_LOCKS],
    /// How many nodes it uses.
    pub(crate) depth: u32,
}

impl Nesting {
    /// That of a pass which is at no lock.
    pub(crate) fn none() -> Nesting
        ensures { result ≡ no_nesting }
    {
        Nesting {
            holds: [false; SPIN_LOCKS],
            waits: [false; SPIN_LOCKS],
            depth: 0,
        }
    }
}

/// A seat of a site's table. Contracts see what it knows (`view_of`), the moments of the table up
/// to its last step (`past_of`), and what it says of itself (`task_in`, `held_in`, `done_in`,
/// `front_in`).
#[derive(Drop)]
pub struct Pass<R: SiteRule> {
    pub(crate) seat: Seat<(), Seen<R::Ext>>,
    pub(crate) face: Face,
    pub(crate) nest: Nesting,
}

impl<R: SiteRule> Pass<R> {
    /// The task whose number it has.
    pub fn task(&self) -> Option<u32>
        ensures { result ≡ (task_in self.now) }
    {
        self.face.task
    }

    /// How it holds what the site guards.
    pub fn held(&self) -> Held
        ensures { result ≡ (held_in self.now) }
    {
        self.face.held
    }

    /// How many of its task's calls are recorded.
    pub fn done(&self) -> u32
        ensures { result ≡ (done_in self.now) }
    {
        self.face.done
    }

    /// How many entries of the log it has seen. It never falls.
    pub fn front(&self) -> u32
        ensures { result ≡ (front_in self.now) }
    {
        self.face.front
    }

    /// Notes how the pass holds, after a step of a lock that changed it. Clauses that a pass sits
    /// at a site speak of what it notes, so a pass that notes something else is of no use
    /// afterwards.
    pub fn set_held(&mut self, held: Held)
        requires { (hand_in self.old).held ≡ held }
        ensures { NotesHold held self.old self.new }
    {
        self.face.held = held;
    }

    /// Notes how many entries of the log the pass has seen, after a step of a lock that changed it.
    pub fn set_front(&mut self, front: u32)
        requires { length (hand_in self.old).seen ≡ front }
        ensures { NotesFront front self.old self.new }
    {
        self.face.front = front;
    }

    /// How many of its task's nodes it uses at spin locks.
    pub fn depth(&self) -> u32
        requires told { IsDepthTold self.now }
        ensures { result ≡ depth_of (view_of self.now).spin }
    {
        self.nest.depth
    }

    /// The spin locks that it holds: a bit for each, that of the first the lowest.
    pub fn spins(&self) -> u8
        requires told { IsNestTold self.now }
        ensures { result ≡ mask_of (λ l. is_held (point_at l (view_of self.now).spin)) }
    {
        mask(&self.nest.holds)
    }

    /// The spin locks that it waits for, as `spins` has those that it holds. It still waits for one
    /// that it has while it waits for its successor.
    pub fn waits(&self) -> u8
        requires told { IsNestTold self.now }
        ensures { result ≡ mask_of (λ l. waits_at (point_at l (view_of self.now).spin)) }
    {
        mask(&self.nest.waits)
    }

    /// Whether it has nothing to do with a spin lock: it neither holds it nor waits for it. Only
    /// such a lock may an interrupt of the pass take.
    pub fn is_outside(&self, lock: usize) -> bool
        requires there { lock < 8 }
        requires told { IsNestTold self.now }
        ensures out { result ≡ true → RestsAt lock (view_of self.now).spin }
        ensures inside { result ≡ false → point_at lock (view_of self.now).spin ≢ Out }
    {
        !self.nest.holds[lock] && !self.nest.waits[lock]
    }

    /// Notes how many nodes it uses, after a step that changed it.
    pub fn note_depth(&mut self, depth: u32)
        ensures { NotesDepth depth self.old self.new }
    {
        self.nest.depth = depth;
    }

    /// Notes how it stands with a spin lock, after a step that changed it.
    pub fn note_lock(&mut self, lock: usize, holds: bool, waits: bool)
        requires { lock < 8 }
        ensures { NotesLock lock holds waits self.old self.new }
    {
        self.nest.holds[lock] = holds;
        self.nest.waits[lock] = waits;
    }

    /// Notes that it is at no spin lock.
    pub fn note_none(&mut self)
        ensures { NotesNone self.old self.new }
    {
        self.nest = Nesting::none();
    }
}

/// A bit for each flag that is set, that of the first the lowest.
fn mask(flags: &[bool; 8]) -> u8
    ensures { result ≡ mask_of (λ l. slice_index_or flags.now l false) }
{
    u8::from(flags[0])
        + 2 * u8::from(flags[1])
        + 4 * u8::from(flags[2])
        + 8 * u8::from(flags[3])
        + 16 * u8::from(flags[4])
        + 32 * u8::from(flags[5])
        + 64 * u8::from(flags[6])
        + 128 * u8::from(flags[7])
}
