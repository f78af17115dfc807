//! The crew of a real run: a task sleeps on a parker, and the crew wakes it by the unparker.
ghost use Rattle.std.specs.Prelude.{◌≡◌, None, IfOk, OnErr, replicate};
ghost use Rattle.cpu_task.specs.CpuCounting.{one_more, rescheds_after};
ghost use Rattle.cpu_task.specs.Countdowns.{Answers, full};
ghost use Rattle.cpu_task.specs.Parking.{Keeps, parker_of};

use crate::countdown::Countdown;
use crate::counts::Counts;
use crate::cpu::Cpu;
use crate::crew::{Crew, Turns};
use crossbeam_utils::sync::{Parker, Unparker};
use std::alloc::{AllocError, Global};
use std::marker::Model;
use std::sync::Wait;

/// A CPU that sleeps on a parker. Contracts see its counts, what is left of its two countdowns, and
/// which parker it has.
#[derive(Drop)]
pub struct ParkCpu {
    counts: Counts,
    resched: Countdown,
    overdue: Countdown,
    parker: Parker,
}

impl Model for ParkCpu {
    ghost use Rattle.cpu_task.specs.Parking.{ParkCpuState, parker_of};

    ghost Value = { ParkCpuState };

    ghost view = { λ c. record {
      rescheds = c.counts.rescheds;
      sleeps = c.counts.sleeps;
      resched = c.resched;
      overdue = c.overdue;
      parker = parker_of c.parker.unparker;
    } };
}

impl Cpu for ParkCpu {
    ghost rescheds = { λ c. c.rescheds };

    ghost sleeps = { λ c. c.sleeps };

    /// True after `spin` false answers, and then anew.
    fn need_resched(&mut self) -> bool
        ensures rescheds { self.new.rescheds ≡ rescheds_after result self.old.rescheds }
        ensures sleeps { self.new.sleeps ≡ self.old.sleeps }
        ensures answer { Answers self.old.resched result self.new.resched }
        ensures others { self.new ≡ record self.old {
          rescheds = self.new.rescheds;
          resched = self.new.resched;
        } }
    {
        let answer = self.resched.answer();
        self.counts.count_answer(answer);
        answer
    }

    /// True after `overdue` false answers, and then anew.
    fn overdue(&mut self) -> bool
        ensures rescheds { self.new.rescheds ≡ self.old.rescheds }
        ensures sleeps { self.new.sleeps ≡ self.old.sleeps }
        ensures answer { Answers self.old.overdue result self.new.overdue }
        ensures others { self.new ≡ record self.old { overdue = self.new.overdue } }
    {
        self.overdue.answer()
    }

    /// Parks until the crew wakes the task. A wake that came before is enough.
    fn sleep<R: Wait>(&mut self, rt: &R)
        ensures rescheds { self.new.rescheds ≡ self.old.rescheds }
        ensures sleeps { self.new.sleeps ≡ one_more self.old.sleeps }
        ensures others { self.new ≡ record self.old { sleeps = self.new.sleeps } }
    {
        self.parker.park(rt);
        self.counts.count_sleep();
    }
}

/// Wakes tasks by their unparkers. Contracts see a list: for each task the parker that its unparker
/// wakes, or `None` where none is kept.
#[derive(Drop)]
pub struct ParkCrew {
    places: Vec<Option<Unparker>>,
}

impl Model for ParkCrew {
    ghost use Rattle.std.specs.Prelude.{ℕ, List, Option, map};
    ghost use Rattle.cpu_task.specs.Parking.{kept_parker};

    ghost Value = { List (Option ℕ) };

    ghost view = { λ c. map kept_parker c.places.items };
}

impl ParkCrew {
    /// A crew with a place for each task below `tasks`, all of them empty.
    pub fn new(alloc: Global, tasks: u32) -> Result<ParkCrew, AllocError>
        ensures { IfOk result (λ c. c ≡ replicate tasks None) }
    {
        let mut places = Vec::with_capacity(alloc, tasks as usize)?;
        for _ in 0..tasks {
            places.push_reserved(None);
        }
        Ok(ParkCrew { places })
    }

    fn keep(&mut self, task: u32, unparker: Unparker)
        ensures { Keeps self.old task (parker_of unparker) self.new }
    {
        if let Some(place) = self.places.get_mut(task as usize) {
            *place = Some(unparker);
        }
    }
}

impl Crew for ParkCrew {
    type C = ParkCpu;

    /// A CPU with a parker of its own. The crew keeps the unparker in the task's place instead of
    /// an earlier one, so that it no longer wakes an earlier CPU of the task.
    fn cpu(&mut self, alloc: Global, task: u32, turns: Turns) -> Result<ParkCpu, AllocError>
        ensures rescheds { IfOk result (λ c. c.rescheds ≡ 0) }
        ensures sleeps { IfOk result (λ c. c.sleeps ≡ 0) }
        ensures resched { IfOk result (λ c. c.resched ≡ full turns.spin) }
        ensures overdue { IfOk result (λ c. c.overdue ≡ full turns.overdue) }
        ensures kept { IfOk result (λ c. Keeps self.old task c.parker self.new) }
        ensures refused { OnErr result (self.new ≡ self.old) }
    {
        let parker = Parker::new(alloc)?;
        let unparker = parker.unparker().clone()?;
        self.keep(task, unparker);
        Ok(ParkCpu {
            counts: Counts::ZERO,
            resched: Countdown::new(turns.spin),
            overdue: Countdown::new(turns.overdue),
            parker,
        })
    }

    /// Unparks the task's last CPU. Does nothing for a task whose place is empty, or that has none.
    fn wake(&self, task: u32) {
        if let Some(Some(unparker)) = self.places.get(task as usize) {
            unparker.unpark();
        }
    }
}
