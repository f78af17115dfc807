//! A course of a queued spin lock.
ghost use Rattle.std.specs.Prelude.{◌≡◌, ◌<◌, ◌++◌, [], ◌∷◌, IfOk, OnOk, OnErr, Some, None, true, false, take, drop};
ghost use Rattle.lock_decode.specs.Here.{IsTaskNode};
ghost use Rattle.lock_steps.specs.SpinSteps.{locked_by, taken_by_pending, with_pending, with_tail, without_lock, without_pending};
ghost use Rattle.lock_courses.specs.SpinCourses.{HeadsTo, IsStated, PendsTo, TakesByPending, TakesTo, node_of};

use crate::refusal::{Made, Refusal};
use crate::tasks::{MOST, is_task, place_of};
use arrayvec::ArrayVec;
use lock_steps::spin::{
    Pending, clear_pending, exchange_tail, set_locked, set_pending, take_alone, take_free,
    take_pending, unlock,
};
use word_bits::{MAX_TASKS, Spin, Tail};

/// A queued spin lock at some moment of a course. A task runs on the CPU of its number, and uses
/// its first node.
#[derive(Drop)]
pub struct SpinCourse {
    /// What the word says.
    pub spin: Spin,
    /// The task that holds.
    pub holder: Option<u32>,
    /// The task that owns the pending bit.
    pub owner: Option<u32>,
    /// It saw a tail, and is to clear the bit.
    pub undoes: bool,
    /// The tasks in the queue, in order.
    pub queue: ArrayVec<u32, MOST>,
}

fn node_of(task: u32) -> Tail
    requires { task < MAX_TASKS }
    ensures node { result ≡ node_of task }
    ensures can { IsTaskNode result }
{
    Tail {
        cpu: task,
        index: 0,
    }
}

impl SpinCourse {
    /// A free lock.
    pub fn new() -> SpinCourse
        ensures { IsStated result }
    {
        SpinCourse {
            spin: Spin {
                locked: false,
                pending: false,
                tail: None,
            },
            holder: None,
            owner: None,
            undoes: false,
            queue: ArrayVec::new(),
        }
    }

    /// The task neither holds nor waits.
    fn outside(&self, task: u32) -> Result<(), Refusal> {
        if is_task(self.holder, task) {
            return Err(Refusal::Holds);
        }
        if is_task(self.owner, task) || place_of(self.queue.as_slice(), task).is_some() {
            return Err(Refusal::Waits);
        }
        Ok(())
    }

    /// The task tries to take a free lock.
    pub fn take(&mut self, task: u32) -> Result<Made, Refusal>
        requires { IsStated self.old }
        ensures stated { IsStated self.new }
        ensures takes { IfOk result (λ made. TakesTo self.old task made self.new) }
        ensures kept { OnErr result (self.new ≡ self.old) }
    {
        self.outside(task)?;
        let Some(next) = take_free(self.spin) else {
            return Ok(Made::Fails);
        };
        self.spin = next;
        self.holder = Some(task);
        Ok(Made::Done)
    }

    /// The task sets the pending bit. It fails where the bit was set: the bit is another's.
    pub fn pending(&mut self, task: u32) -> Result<Made, Refusal>
        requires { IsStated self.old }
        ensures stated { IsStated self.new }
        ensures pends { IfOk result (λ made. PendsTo self.old task made self.new) }
        ensures kept { OnErr result (self.new ≡ self.old) }
    {
        self.outside(task)?;
        let (seen, next) = set_pending(self.spin);
        if seen == Pending::Queues {
            return Ok(Made::Fails);
        }
        self.spin = next;
        self.owner = Some(task);
        self.undoes = seen == Pending::Undoes;
        Ok(Made::Done)
    }

    /// The owner of the pending bit, which saw a tail, clears it.
    pub fn undo(&mut self, task: u32) -> Result<Made, Refusal>
        requires { IsStated self.old }
        ensures stated { IsStated self.new }
        ensures undoes { OnOk result (self.new ≡
            record self.old { spin = without_pending self.old.spin; owner = None; undoes = false }) }
        ensures kept { OnErr result (self.new ≡ self.old) }
    {
        if !is_task(self.owner, task) || !self.undoes {
            return Err(Refusal::NoPending);
        }
        let Some(next) = clear_pending(self.spin) else {
            return Err(Refusal::Word);
        };
        self.spin = next;
        self.owner = None;
        self.undoes = false;
        Ok(Made::Done)
    }

    /// The owner of the pending bit, which saw no tail, takes.
    pub fn take_pending(&mut self, task: u32) -> Result<Made, Refusal>
        requires { IsStated self.old }
        ensures stated { IsStated self.new }
        ensures takes { IfOk result (λ made. TakesByPending self.old task made self.new) }
        ensures kept { OnErr result (self.new ≡ self.old) }
    {
        if !is_task(self.owner, task) || self.undoes {
            return Err(Refusal::NoPending);
        }
        let Some(next) = take_pending(self.spin) else {
            return Ok(Made::Fails);
        };
        self.spin = next;
        self.owner = None;
        self.holder = Some(task);
        Ok(Made::Done)
    }

    #[tactic(auto, using(crate::proofs::SpinLists::last_more))]
    /// The task's node becomes the last of the queue.
    pub fn queue(&mut self, task: u32) -> Result<Made, Refusal>
        requires stated { IsStated self.old }
        requires task { task < MAX_TASKS }
        ensures stated { IsStated self.new }
        ensures list { OnOk result (self.new.queue.items ≡ self.old.queue.items ++ task ∷ []) }
        ensures queues { OnOk result (self.new ≡ record self.old {
          spin = with_tail self.old.spin (node_of task);
          queue = self.new.queue;
        }) }
        ensures kept { OnErr result (self.new ≡ self.old) }
    {
        self.outside(task)?;
        if self.queue.len() >= MOST {
            return Err(Refusal::Full);
        }
        self.spin = exchange_tail(self.spin, node_of(task));
        self.queue.push(task);
        Ok(Made::Done)
    }

    /// The head of the queue takes, where byte and pending bit are clear.
    pub fn head(&mut self, task: u32) -> Result<Made, Refusal>
        requires stated { IsStated self.old }
        requires task { task < MAX_TASKS }
        ensures stated { IsStated self.new }
        ensures heads { IfOk result (λ made. HeadsTo self.old task made self.new) }
        ensures kept { OnErr result (self.new ≡ self.old) }
    {
        match self.queue.as_slice() {
            [first, ..] if *first == task => {}
            _ => return Err(Refusal::NotFirst),
        }
        if self.spin.locked || self.spin.pending {
            return Ok(Made::Fails);
        }
        let next = if self.queue.len() == 1 {
            take_alone(self.spin, node_of(task))
        } else {
            set_locked(self.spin)
        };
        let Some(next) = next else {
            return Err(Refusal::Word);
        };
        self.spin = next;
        self.queue.remove(0);
        self.holder = Some(task);
        Ok(Made::Done)
    }

    /// The holder releases.
    pub fn release(&mut self, task: u32) -> Result<Made, Refusal>
        requires { IsStated self.old }
        ensures stated { IsStated self.new }
        ensures releases { OnOk result (self.new ≡
            record self.old { spin = without_lock self.old.spin; holder = None }) }
        ensures kept { OnErr result (self.new ≡ self.old) }
    {
        if !is_task(self.holder, task) {
            return Err(Refusal::HoldsNot);
        }
        let Some(next) = unlock(self.spin) else {
            return Err(Refusal::Word);
        };
        self.spin = next;
        self.holder = None;
        Ok(Made::Done)
    }
}
