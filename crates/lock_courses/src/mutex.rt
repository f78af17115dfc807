//! A course of a mutex.
ghost use Rattle.std.specs.Prelude.{◌≡◌, ◌<◌, IfOk, IfErr, OnOk, OnErr, [], false, true, Contains};
ghost use Rattle.mutex_word.specs.Owners.{ForOwner};
ghost use Rattle.mutex_word.specs.OwnerWordSteps.{release_of, try_of, first_of};
ghost use Rattle.lock_courses.specs.MutexCourses.{BarsMutex, HandsTo, IsStated, LeavesTo, QueuesTo, ReleasesTo, SaysOwner, TriesTo};

use crate::refusal::{Made, Refusal};
use crate::tasks::{MOST, is_task, place_of};
use arrayvec::ArrayVec;
use lock_steps::owner::{clear_flags, set_waiters};
use mutex_word::{Try, handoff_word, release_step, try_step};
use word_bits::{MAX_TASKS, Owner};

/// A mutex at some moment of a course.
#[derive(Drop)]
pub struct MutexCourse {
    /// The owner word.
    pub word: u64,
    /// The task that holds.
    pub holder: Option<u32>,
    /// The task that is picked to take it.
    pub picked: Option<u32>,
    /// The tasks that wait, in the order of the list.
    pub waiting: ArrayVec<u32, MOST>,
    /// The holder has seen HANDOFF when it was to release.
    pub saw: bool,
}

impl MutexCourse {
    /// A free mutex.
    pub fn new() -> MutexCourse
        ensures stated { IsStated result }
        ensures free { result.word ≡ 0 }
        ensures alone { result.waiting.items ≡ [] }
    {
        MutexCourse {
            word: 0,
            holder: None,
            picked: None,
            waiting: ArrayVec::new(),
            saw: false,
        }
    }

    /// The owner that the word states.
    fn owner(&self) -> Owner
        requires { IsStated self.now }
        ensures says { SaysOwner self.now result }
    {
        match Owner::unpack(self.word) {
            Some(owner) => owner,
            None => unreachable!(),
        }
    }

    fn try_word(&mut self, task: u32, ask: bool) -> Made
        requires stated { IsStated self.old }
        requires task { task < MAX_TASKS }
        requires waits { ask ≡ true → Contains self.old.waiting.items task }
        ensures stated { IsStated self.new }
        ensures tries { ForOwner self.old.word (λ o.
            TriesTo self.old task result self.new (try_of o task ask)) }
    {
        match try_step(self.word, task, ask) {
            Try::Take(word) => {
                self.word = word;
                self.holder = Some(task);
                self.picked = None;
                self.saw = false;
                Made::Done
            }
            Try::Ask(word) => {
                self.word = word;
                Made::Done
            }
            Try::Fail => Made::Fails,
        }
    }

    /// The task tries, without asking.
    pub fn take(&mut self, task: u32) -> Result<Made, Refusal>
        requires stated { IsStated self.old }
        requires task { task < MAX_TASKS }
        ensures stated { IsStated self.new }
        ensures tries { IfOk result (λ made. ForOwner self.old.word (λ o.
            TriesTo self.old task made self.new (try_of o task false))) }
        ensures kept { OnErr result (self.new ≡ self.old) }
        ensures why { IfErr result (λ why. BarsMutex why self.old task) }
    {
        if is_task(self.holder, task) {
            return Err(Refusal::Holds);
        }
        Ok(self.try_word(task, false))
    }

    /// The first waiter tries, and asks for a handoff.
    pub fn ask(&mut self, task: u32) -> Result<Made, Refusal>
        requires stated { IsStated self.old }
        requires task { task < MAX_TASKS }
        ensures stated { IsStated self.new }
        ensures tries { IfOk result (λ made. ForOwner self.old.word (λ o.
            TriesTo self.old task made self.new (try_of o task true))) }
        ensures kept { OnErr result (self.new ≡ self.old) }
        ensures why { IfErr result (λ why. BarsMutex why self.old task) }
    {
        if !is_task(self.first(), task) {
            return Err(Refusal::NotFirst);
        }
        if is_task(self.holder, task) {
            return Err(Refusal::Holds);
        }
        Ok(self.try_word(task, true))
    }

    /// The first that waits.
    fn first(&self) -> Option<u32>
        ensures { result ≡ first_of self.now.waiting.items }
    {
        match self.waiting.as_slice() {
            [first, ..] => Some(*first),
            [] => None,
        }
    }

    /// The holder releases, unless it sees HANDOFF.
    pub fn release(&mut self, task: u32) -> Result<Made, Refusal>
        requires stated { IsStated self.old }
        ensures stated { IsStated self.new }
        ensures releases { IfOk result (λ made. ForOwner self.old.word (λ o.
            ReleasesTo self.old made self.new (release_of o))) }
        ensures kept { OnErr result (self.new ≡ self.old) }
        ensures why { IfErr result (λ why. BarsMutex why self.old task) }
    {
        if !is_task(self.holder, task) {
            return Err(Refusal::HoldsNot);
        }
        let Some(word) = release_step(self.word) else {
            self.saw = true;
            return Ok(Made::Fails);
        };
        self.word = word;
        self.holder = None;
        self.saw = false;
        Ok(Made::Done)
    }

    /// The holder, which sees HANDOFF or has seen it, hands over.
    pub fn hand_over(&mut self, task: u32) -> Result<Made, Refusal>
        requires stated { IsStated self.old }
        ensures stated { IsStated self.new }
        ensures hands { OnOk result (ForOwner self.old.word (λ o. HandsTo self.old self.new o)) }
        ensures kept { OnErr result (self.new ≡ self.old) }
        ensures why { IfErr result (λ why. BarsMutex why self.old task) }
    {
        if !is_task(self.holder, task) {
            return Err(Refusal::HoldsNot);
        }
        if !self.saw && !self.owner().handoff {
            return Err(Refusal::NoHandoff);
        }
        let first = self.first();
        self.word = handoff_word(self.word, first);
        self.holder = None;
        self.picked = first;
        self.saw = false;
        Ok(Made::Done)
    }

    /// The task becomes the last that waits. The first one sets WAITERS.
    pub fn queue(&mut self, task: u32) -> Result<Made, Refusal>
        requires stated { IsStated self.old }
        requires task { task < MAX_TASKS }
        ensures stated { IsStated self.new }
        ensures queues { OnOk result (ForOwner self.old.word (λ o.
            QueuesTo self.old task self.new o)) }
        ensures kept { OnErr result (self.new ≡ self.old) }
        ensures why { IfErr result (λ why. BarsMutex why self.old task) }
    {
        if is_task(self.holder, task) {
            return Err(Refusal::Holds);
        }
        if place_of(self.waiting.as_slice(), task).is_some() {
            return Err(Refusal::Waits);
        }
        if self.waiting.len() >= MOST {
            return Err(Refusal::Full);
        }
        if let Some(owner) = set_waiters(self.owner()) {
            self.word = owner.pack();
        }
        self.waiting.push(task);
        Ok(Made::Done)
    }

    /// The task leaves the list. The last one clears the flags.
    pub fn leave(&mut self, task: u32) -> Result<Made, Refusal>
        requires stated { IsStated self.old }
        ensures stated { IsStated self.new }
        ensures leaves { OnOk result (ForOwner self.old.word (λ o.
            LeavesTo self.old task self.new o)) }
        ensures kept { OnErr result (self.new ≡ self.old) }
        ensures why { IfErr result (λ why. BarsMutex why self.old task) }
    {
        let Some(place) = place_of(self.waiting.as_slice(), task) else {
            return Err(Refusal::WaitsNot);
        };
        if self.waiting.len() > 1 {
            if is_task(self.picked, task) {
                return Err(Refusal::Picked);
            }
            self.waiting.remove(place);
            return Ok(Made::Done);
        }
        let Some(owner) = clear_flags(self.owner()) else {
            return Err(Refusal::Picked);
        };
        self.waiting.remove(place);
        self.word = owner.pack();
        Ok(Made::Done)
    }
}
