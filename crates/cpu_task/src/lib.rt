//! The CPUs that tasks run on: how long a task spins, how it pauses and sleeps, and who wakes it. And
//! the gates that tasks pass while they hold an object.
//!
//! Locks are written over the traits `Cpu`, `Crew` and `Gate`, whose contracts tell almost nothing,
//! so that what is proved of a lock holds whatever they answer.
#![tactic(auto)]

mod context;
mod countdown;
mod counts;
mod cpu;
mod crew;
mod gate;
mod park;
mod pauses;
mod scripted;

pub use context::Context;
pub use cpu::Cpu;
pub use crew::{Crew, Turns};
pub use gate::{Gate, HoldGate, OpenGate};
pub use park::{ParkCpu, ParkCrew};
pub use pauses::Pauses;
pub use scripted::{ScriptedCpu, ScriptedCrew};
