//! Whom a wake has chosen, how many wake words a pass has set, and how often it fell asleep.
ghost use Rattle.std.specs.Prelude.{◌≡◌};

use crate::batches::MAX_READERS_WAKEUP;
use arrayvec::ArrayVec;
use std::slice;

/// The tasks that a wake has chosen, and that its caller is to wake. The room of a batch takes time
/// to clear, so it is made where readers are granted, and nowhere else.
#[derive(Drop)]
pub enum Woken {
    Nobody,
    First(u32),
    Batch(ArrayVec<u32, MAX_READERS_WAKEUP>),
}

impl Woken {
    ghost use Rattle.rwsem_wake.specs.RwSemWakes.{woken_tasks};

    /// The tasks, in the order of the list.
    pub fn tasks(&self) -> &[u32]
        ensures { result.now ≡ woken_tasks self.now }
    {
        match self {
            Woken::Nobody => &[],
            Woken::First(task) => slice::from_ref(task),
            Woken::Batch(tasks) => tasks.as_slice(),
        }
    }
}

/// How many wake words a pass has set, and how often its task has fallen asleep. Each count stops
/// at the last value of a u64.
#[derive(Clone, Copy, Debug, PartialEq, Eq)]
pub struct WakeCounts {
    pub wakes: u64,
    pub dozes: u64,
}

/// Those of a pass that has done neither.
pub const NO_WAKES: WakeCounts = WakeCounts { wakes: 0, dozes: 0 };
