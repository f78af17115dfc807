//! How a waiting loop pauses between its looks.

use std::cell::Cell;
use std::{hint, thread};

const SHORT_PAUSES: u32 = 128;

/// The pauses of one loop that waits for a step of another task, in place of the kernel's
/// `cpu_relax`.
///
/// The first 128 are the processor's own short pause, so that the loop sees the step soon after it.
/// Each one after them yields the processor, because the other task may not be running.
#[derive(Drop)]
pub struct Pauses {
    made: Cell<u32>,
}

impl Pauses {
    /// The pauses of a loop that hasn't paused yet.
    pub fn new() -> Pauses {
        Pauses { made: Cell::new(0) }
    }

    /// Pauses until the next look.
    pub fn pause(&self) {
        let made = self.made.get();
        if made < SHORT_PAUSES {
            self.made.set(made + 1);
            hint::spin_loop();
        } else {
            thread::yield_now();
        }
    }
}
