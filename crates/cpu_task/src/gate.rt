//! The gates that tasks pass while they hold an object.
use std::hint::spin_loop;
use std::marker::Model;
use std::sync::Wait;
use std::sync::atomic::{AtomicBool, AtomicU32, Ordering};

/// Sees each task that holds an object.
pub trait Gate {
    /// Is called while the task holds the object's lock, once for each call that takes it. Where
    /// `shared` is true, other tasks may be inside with it. Contracts learn nothing of a gate.
    fn inside<R: Wait>(&self, rt: &R, object: u32, task: u32, shared: bool);
}

/// A gate that holds nobody up.
#[derive(Clone, Copy, Debug, Default)]
pub struct OpenGate;

impl Gate for OpenGate {
    fn inside<R: Wait>(&self, _rt: &R, _object: u32, _task: u32, _shared: bool) {}
}

/// A gate for tests, which shows that several tasks are inside one object together. Contracts see
/// what it was made with, and nothing of what it counts.
#[derive(Drop)]
pub struct HoldGate {
    object: u32,
    want: u32,
    turns: u32,
    count: AtomicU32,
    missed: AtomicBool,
}

impl Model for HoldGate {
    ghost use Rattle.cpu_task.specs.Gates.{HoldSetup};

    ghost Value = { HoldSetup };

    ghost view = { λ g. record { object = g.object; want = g.want; turns = g.turns } };
}

impl HoldGate {
    ghost use Rattle.std.specs.Prelude.{◌≡◌};

    /// A gate that nobody has come to. It keeps each shared holder of `object` inside until `want`
    /// of them have come, for `turns` turns of a loop at most.
    pub fn new(object: u32, want: u32, turns: u32) -> HoldGate
        ensures { result ≡ record { object = object; want = want; turns = turns } }
    {
        HoldGate {
            object,
            want,
            turns,
            count: AtomicU32::new(0),
            missed: AtomicBool::new(false),
        }
    }

    /// How many shared holders of the object have come. The count stands still at its type's end.
    pub fn count(&self) -> u32 {
        self.count.load(Ordering::SeqCst)
    }

    /// Whether as many have come as are wanted, and none of them stopped waiting before.
    pub fn met(&self) -> bool {
        self.is_full() && !self.missed.load(Ordering::SeqCst)
    }

    fn is_full(&self) -> bool {
        self.count() >= self.want
    }

    fn arrive(&self) {
        let _ = self
            .count
            .fetch_update(Ordering::SeqCst, Ordering::SeqCst, |n| n.checked_add(1));
    }

    /// Turns until all have come. Where that takes too long the gate is missed, for good.
    fn await_others(&self) {
        for _ in 0..self.turns {
            if self.is_full() {
                return;
            }
            spin_loop();
        }
        if !self.is_full() {
            self.missed.store(true, Ordering::SeqCst);
        }
    }
}

impl Gate for HoldGate {
    fn inside<R: Wait>(&self, _rt: &R, object: u32, _task: u32, shared: bool) {
        if shared && object == self.object {
            self.arrive();
            self.await_others();
        }
    }
}
