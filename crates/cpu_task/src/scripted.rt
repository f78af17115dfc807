//! A crew for tests, whose CPUs answer from lists.
ghost use Rattle.std.specs.Prelude.{◌≡◌, drop, IfOk};
ghost use Rattle.std.specs.Vec.Iter.{into_iter_items};
ghost use Rattle.cpu_task.specs.CpuCounting.{one_more, rescheds_after};
ghost use Rattle.cpu_task.specs.AnswerScripts.{next_answer};

use crate::counts::Counts;
use crate::cpu::Cpu;
use crate::crew::{Crew, Turns};
use std::alloc::{AllocError, Global};
use std::marker::Model;
use std::sync::Wait;
use std::vec::IntoIter;

/// Answers that are left.
type Script = IntoIter<bool, Global>;

fn answer_from(script: &mut Script) -> bool
    ensures answer { result ≡ next_answer (into_iter_items script.old) }
    ensures rest { into_iter_items script.new ≡ drop 1 (into_iter_items script.old) }
{
    script.next().unwrap_or(true)
}

/// A CPU that answers from its copies of two lists. Contracts see its counts, and the answers that
/// it has left.
#[derive(Drop)]
pub struct ScriptedCpu {
    counts: Counts,
    resched: Script,
    overdue: Script,
}

impl Model for ScriptedCpu {
    ghost use Rattle.std.specs.Vec.Iter.{into_iter_items};
    ghost use Rattle.cpu_task.specs.AnswerScripts.{ScriptedCpuState};

    ghost Value = { ScriptedCpuState };

    ghost view = { λ c. record {
      rescheds = c.counts.rescheds;
      sleeps = c.counts.sleeps;
      resched = into_iter_items c.resched;
      overdue = into_iter_items c.overdue;
    } };
}

impl Cpu for ScriptedCpu {
    ghost rescheds = { λ c. c.rescheds };

    ghost sleeps = { λ c. c.sleeps };

    fn need_resched(&mut self) -> bool
        ensures rescheds { self.new.rescheds ≡ rescheds_after result self.old.rescheds }
        ensures sleeps { self.new.sleeps ≡ self.old.sleeps }
        ensures answer { result ≡ next_answer self.old.resched }
        ensures others { self.new ≡ record self.old {
          rescheds = self.new.rescheds;
          resched = drop 1 self.old.resched;
        } }
    {
        let answer = answer_from(&mut self.resched);
        self.counts.count_answer(answer);
        answer
    }

    fn overdue(&mut self) -> bool
        ensures rescheds { self.new.rescheds ≡ self.old.rescheds }
        ensures sleeps { self.new.sleeps ≡ self.old.sleeps }
        ensures answer { result ≡ next_answer self.old.overdue }
        ensures others { self.new ≡ record self.old { overdue = drop 1 self.old.overdue } }
    {
        answer_from(&mut self.overdue)
    }

    /// Returns at once.
    fn sleep<R: Wait>(&mut self, _rt: &R)
        ensures rescheds { self.new.rescheds ≡ self.old.rescheds }
        ensures sleeps { self.new.sleeps ≡ one_more self.old.sleeps }
        ensures others { self.new ≡ record self.old { sleeps = self.new.sleeps } }
    {
        self.counts.count_sleep();
    }
}

/// Gives each CPU a copy of the same two lists, and wakes nobody. Contracts see the lists.
#[derive(Drop)]
pub struct ScriptedCrew {
    resched: Vec<bool>,
    overdue: Vec<bool>,
}

impl Model for ScriptedCrew {
    ghost use Rattle.cpu_task.specs.AnswerScripts.{Scripts};

    ghost Value = { Scripts };

    ghost view = { λ c. record { resched = c.resched.items; overdue = c.overdue.items } };
}

impl ScriptedCrew {
    /// A crew whose CPUs answer `need_resched` and `overdue` by these lists, and with true after
    /// their ends. It keeps the lists themselves and takes no memory.
    pub fn new(
        _alloc: Global,
        resched: Vec<bool>,
        overdue: Vec<bool>,
    ) -> Result<ScriptedCrew, AllocError>
        ensures { IfOk result (λ c. c ≡ record {
          resched = resched.items;
          overdue = overdue.items;
        }) }
    {
        Ok(ScriptedCrew { resched, overdue })
    }
}

impl Crew for ScriptedCrew {
    type C = ScriptedCpu;

    fn cpu(&mut self, alloc: Global, _task: u32, _turns: Turns) -> Result<ScriptedCpu, AllocError>
        ensures rescheds { IfOk result (λ c. c.rescheds ≡ 0) }
        ensures sleeps { IfOk result (λ c. c.sleeps ≡ 0) }
        ensures resched { IfOk result (λ c. c.resched ≡ self.old.resched) }
        ensures overdue { IfOk result (λ c. c.overdue ≡ self.old.overdue) }
        ensures kept { self.new ≡ self.old }
    {
        Ok(ScriptedCpu {
            counts: Counts::ZERO,
            resched: Vec::from_slice(alloc, self.resched.as_slice())?.into_iter(),
            overdue: Vec::from_slice(alloc, self.overdue.as_slice())?.into_iter(),
        })
    }

    fn wake(&self, _task: u32) {}
}
