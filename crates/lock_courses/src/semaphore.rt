//! A course of a semaphore.
ghost use Rattle.std.specs.Prelude.{◌≡◌, ◌+◌, ◌==◌, ◌≤◌, ◌⊎◌, ◌<◌, if◌then◌else◌, None, length, IfOk, OnOk, OnErr, Some, IfSome, slice_get, option_map};
ghost use Rattle.lock_steps.specs.CountSteps.{asked_by, biased, downgraded, queued_back, unbiased, with_waiters, without_writer};
ghost use Rattle.lock_courses.specs.SemaphoreCourses.{AddsTo, BacksTo, DowngradesTo, HoldsTo, IsStated, QueuesReader, QueuesWriter, ReleasesReader, ReleasesWriter, ReservesTo, SaysCount, TakesTo, UnreservesTo, WordGoes, waiter_task};

use crate::refusal::{Made, Refusal};
use crate::tasks::{MOST, is_task, place_of};
use arrayvec::ArrayVec;
use lock_steps::count::{
    add_bias, clear_flags, count_batch, downgrade, read_back, set_waiters, take_bias, unreserve,
    up_read, up_write, write_spin, write_try,
};
use rwsem_count::{Write, read_free, write_step};
use rwsem_wake::batches::{MAX_READERS_WAKEUP, batch};
use wait_list::Waiter;
use word_bits::Count;

/// A semaphore at some moment of a course.
#[derive(Drop)]
pub struct SemaphoreCourse {
    /// The count.
    pub word: u64,
    /// The task that holds alone.
    pub writer: Option<u32>,
    /// The tasks that hold shared.
    pub readers: ArrayVec<u32, MOST>,
    /// The readers whose bias is in the count, and that don't hold yet.
    pub transit: ArrayVec<u32, MOST>,
    /// The waker that has reserved a bias.
    pub waker: Option<u32>,
    /// It found a writer then.
    pub late: bool,
    /// Who waits, in the order of the list.
    pub waiting: ArrayVec<Waiter, MOST>,
    /// The first of them is marked.
    pub marked: bool,
}

fn task_place(waiting: &[Waiter], task: u32) -> Option<usize>
    ensures { IfSome result (λ k.
        option_map waiter_task (slice_get waiting.now k) ≡ Some task) }
{
    for (k, waiter) in waiting.iter().enumerate() {
        if waiter.task == task {
            return Some(k);
        }
    }
    None
}

/// The writers that wait, in their order.
fn writers_of(waiting: &[Waiter]) -> ArrayVec<Waiter, MOST>
    requires { length waiting.now ≤ MOST }
{
    let mut rest = ArrayVec::new();
    for waiter in waiting {
        if waiter.writer {
            rest.push(*waiter);
        }
    }
    rest
}

fn add_readers(readers: &mut ArrayVec<u32, MOST>, granted: &[u32])
    requires { length readers.old.items + length granted.now ≤ MOST }
    ensures { length readers.new.items ≡ length readers.old.items + length granted.now }
{
    for reader in granted {
        readers.push(*reader);
    }
}

/// Whose bias is reserved once the batch is counted.
fn waker_left(waker: Option<u32>, reserved: bool) -> Option<u32>
    ensures { result ≡ (if reserved then None else waker) }
{
    if reserved { None } else { waker }
}

impl SemaphoreCourse {
    /// A free semaphore.
    pub fn new() -> SemaphoreCourse
        ensures { IsStated result }
    {
        SemaphoreCourse {
            word: 0,
            writer: None,
            readers: ArrayVec::new(),
            transit: ArrayVec::new(),
            waker: None,
            late: false,
            waiting: ArrayVec::new(),
            marked: false,
        }
    }

    fn count(&self) -> Count
        requires { IsStated self.now }
        ensures { SaysCount self.now result }
    {
        match Count::unpack(self.word) {
            Some(count) => count,
            None => unreachable!(),
        }
    }

    fn holds(&self, task: u32) -> bool {
        is_task(self.writer, task) || place_of(self.readers.as_slice(), task).is_some()
    }

    fn waits(&self, task: u32) -> bool {
        task_place(self.waiting.as_slice(), task).is_some()
    }

    fn is_first(&self, task: u32) -> bool {
        match self.waiting.as_slice() {
            [first, ..] => first.task == task,
            [] => false,
        }
    }

    /// The task holds nothing, and neither waits nor has a bias in transit.
    fn outside(&self, task: u32) -> Result<(), Refusal> {
        if self.holds(task) {
            return Err(Refusal::Holds);
        }
        if self.waits(task) || place_of(self.transit.as_slice(), task).is_some() {
            return Err(Refusal::Waits);
        }
        Ok(())
    }

    /// A reader adds its bias, and holds where the count lets readers in.
    pub fn add(&mut self, task: u32) -> Result<Made, Refusal>
        requires { IsStated self.old }
        ensures stated { IsStated self.new }
        ensures adds { OnOk result (AddsTo self.old task self.new) }
        ensures kept { OnErr result (self.new ≡ self.old) }
    {
        self.outside(task)?;
        let Some(next) = add_bias(self.count()) else {
            return Err(Refusal::Word);
        };
        if self.readers.len() >= MOST || self.transit.len() >= MOST {
            return Err(Refusal::Full);
        }
        if read_free(self.word) {
            self.readers.push(task);
        } else {
            self.transit.push(task);
        }
        self.word = next.pack();
        Ok(Made::Done)
    }

    /// A reader in transit that finds the list empty and no writer holds by its bias.
    pub fn hold(&mut self, task: u32) -> Result<Made, Refusal>
        requires { IsStated self.old }
        ensures stated { IsStated self.new }
        ensures holds { OnOk result (HoldsTo self.old task self.new) }
        ensures kept { OnErr result (self.new ≡ self.old) }
    {
        let Some(place) = place_of(self.transit.as_slice(), task) else {
            return Err(Refusal::NoBias);
        };
        if self.waiting.len() > 0 || self.writer.is_some() {
            return Err(Refusal::Others);
        }
        if self.readers.len() >= MOST {
            return Err(Refusal::Full);
        }
        self.transit.remove(place);
        self.readers.push(task);
        Ok(Made::Done)
    }

    /// A reader in transit takes its bias back.
    pub fn back(&mut self, task: u32) -> Result<Made, Refusal>
        requires { IsStated self.old }
        ensures stated { IsStated self.new }
        ensures word { OnOk result (WordGoes unbiased self.old self.new) }
        ensures backs { OnOk result (BacksTo self.old task self.new) }
        ensures kept { OnErr result (self.new ≡ self.old) }
    {
        let Some(place) = place_of(self.transit.as_slice(), task) else {
            return Err(Refusal::NoBias);
        };
        let Some(next) = take_bias(self.count()) else {
            return Err(Refusal::Word);
        };
        self.transit.remove(place);
        self.word = next.pack();
        Ok(Made::Done)
    }

    /// A reader in transit becomes the last that waits, and takes its bias back.
    pub fn queue_reader(&mut self, task: u32) -> Result<Made, Refusal>
        requires { IsStated self.old }
        ensures stated { IsStated self.new }
        ensures word { OnOk result (WordGoes
            (λ n. queued_back n (length self.old.waiting.items == 0)) self.old self.new) }
        ensures queues { OnOk result (QueuesReader self.old task self.new) }
        ensures kept { OnErr result (self.new ≡ self.old) }
    {
        let Some(place) = place_of(self.transit.as_slice(), task) else {
            return Err(Refusal::NoBias);
        };
        if self.waiting.len() >= MOST {
            return Err(Refusal::Full);
        }
        let alone = self.waiting.len() == 0;
        let Some(next) = read_back(self.count(), alone) else {
            return Err(Refusal::Word);
        };
        self.transit.remove(place);
        self.waiting.push(Waiter {
            task,
            writer: false,
        });
        self.word = next.pack();
        Ok(Made::Done)
    }

    /// A writer becomes the last that waits. The first one sets WAITERS.
    pub fn queue_writer(&mut self, task: u32) -> Result<Made, Refusal>
        requires { IsStated self.old }
        ensures stated { IsStated self.new }
        ensures word { OnOk result (WordGoes with_waiters self.old self.new) }
        ensures queues { OnOk result (QueuesWriter self.old task self.new) }
        ensures kept { OnErr result (self.new ≡ self.old) }
    {
        self.outside(task)?;
        if self.waiting.len() >= MOST {
            return Err(Refusal::Full);
        }
        if let Some(next) = set_waiters(self.count()) {
            self.word = next.pack();
        }
        self.waiting.push(Waiter { task, writer: true });
        Ok(Made::Done)
    }

    /// A writer tries to take a free semaphore.
    pub fn take(&mut self, task: u32) -> Result<Made, Refusal>
        requires { IsStated self.old }
        ensures stated { IsStated self.new }
        ensures takes { IfOk result (λ made. TakesTo self.old task made self.new) }
        ensures kept { OnErr result (self.new ≡ self.old) }
    {
        self.outside(task)?;
        let Some(next) = write_try(self.count()) else {
            return Ok(Made::Fails);
        };
        self.word = next.pack();
        self.writer = Some(task);
        Ok(Made::Done)
    }

    /// A writer that spins tries.
    pub fn spin(&mut self, task: u32) -> Result<Made, Refusal>
        requires { IsStated self.old }
        ensures stated { IsStated self.new }
        ensures takes { IfOk result (λ made. TakesTo self.old task made self.new) }
        ensures kept { OnErr result (self.new ≡ self.old) }
    {
        self.outside(task)?;
        let Some(next) = write_spin(self.count()) else {
            return Ok(Made::Fails);
        };
        self.word = next.pack();
        self.writer = Some(task);
        Ok(Made::Done)
    }

    /// A queued writer tries, with the wait lock. It asks where its time is over.
    pub fn write(&mut self, task: u32, overdue: bool) -> Result<Made, Refusal>
        requires { IsStated self.old }
        ensures stated { IsStated self.new }
        ensures kept { OnErr result (self.new ≡ self.old) }
    {
        let waiting = self.waiting.as_slice();
        let place = match task_place(waiting, task) {
            Some(place) if waiting[place].writer => place,
            _ => return Err(Refusal::WaitsNot),
        };
        let first = place == 0;
        let alone = waiting.len() == 1;
        match write_step(self.word, first, self.marked, alone, overdue) {
            Write::Take(word) => {
                self.word = word;
                self.writer = Some(task);
                self.waiting.remove(place);
                self.marked = false;
                Ok(Made::Done)
            }
            Write::Mark(word) => {
                self.word = word;
                self.marked = true;
                Ok(Made::Done)
            }
            Write::Fail => Ok(Made::Fails),
        }
    }

    /// A holder releases.
    pub fn release(&mut self, task: u32) -> Result<Made, Refusal>
        requires { IsStated self.old }
        ensures stated { IsStated self.new }
        ensures releases { OnOk result
            (ReleasesReader self.old task self.new ⊎ ReleasesWriter self.old task self.new) }
        ensures kept { OnErr result (self.new ≡ self.old) }
    {
        if is_task(self.writer, task) {
            return self.release_writer();
        }
        let Some(place) = place_of(self.readers.as_slice(), task) else {
            return Err(Refusal::HoldsNot);
        };
        let Some(next) = up_read(self.count()) else {
            return Err(Refusal::Word);
        };
        self.readers.remove(place);
        self.word = next.pack();
        Ok(Made::Done)
    }

    fn release_writer(&mut self) -> Result<Made, Refusal>
        requires { IsStated self.old }
        ensures stated { IsStated self.new }
        ensures word { OnOk result (WordGoes without_writer self.old self.new) }
        ensures rest { OnOk result
            (self.new ≡ record self.old { word = self.new.word; writer = None }) }
        ensures kept { OnErr result (self.new ≡ self.old) }
    {
        let Some(next) = up_write(self.count()) else {
            return Err(Refusal::Word);
        };
        self.writer = None;
        self.word = next.pack();
        Ok(Made::Done)
    }

    /// A writer goes on as a reader.
    pub fn downgrade(&mut self, task: u32) -> Result<Made, Refusal>
        requires { IsStated self.old }
        ensures stated { IsStated self.new }
        ensures word { OnOk result (WordGoes downgraded self.old self.new) }
        ensures goes { OnOk result (DowngradesTo self.old task self.new) }
        ensures kept { OnErr result (self.new ≡ self.old) }
    {
        if !is_task(self.writer, task) {
            return Err(Refusal::HoldsNot);
        }
        let Some(next) = downgrade(self.count()) else {
            return Err(Refusal::Word);
        };
        if self.readers.len() >= MOST {
            return Err(Refusal::Full);
        }
        self.writer = None;
        self.readers.push(task);
        self.word = next.pack();
        Ok(Made::Done)
    }

    /// A waker reserves a bias, where the first that waits is to read.
    pub fn reserve(&mut self, task: u32) -> Result<Made, Refusal>
        requires { IsStated self.old }
        ensures stated { IsStated self.new }
        ensures word { OnOk result (WordGoes biased self.old self.new) }
        ensures reserves { OnOk result (ReservesTo self.old task self.new) }
        ensures kept { OnErr result (self.new ≡ self.old) }
    {
        match self.waiting.as_slice() {
            [first, ..] if !first.writer => {}
            _ => return Err(Refusal::NotFirst),
        }
        if self.waker.is_some() {
            return Err(Refusal::Others);
        }
        let count = self.count();
        let Some(next) = add_bias(count) else {
            return Err(Refusal::Word);
        };
        self.waker = Some(task);
        self.late = count.writer;
        self.word = next.pack();
        Ok(Made::Done)
    }

    /// A waker that found a writer takes its bias back. It marks the first waiter whose time is
    /// over.
    pub fn unreserve(&mut self, task: u32, marks: bool) -> Result<Made, Refusal>
        requires { IsStated self.old }
        ensures stated { IsStated self.new }
        ensures word { OnOk result (WordGoes (λ n. asked_by (unbiased n) marks) self.old self.new) }
        ensures gives { OnOk result (UnreservesTo self.old task self.new) }
        ensures kept { OnErr result (self.new ≡ self.old) }
    {
        if !is_task(self.waker, task) || !self.late {
            return Err(Refusal::NoReserve);
        }
        let Some(next) = unreserve(self.count(), marks) else {
            return Err(Refusal::Word);
        };
        self.waker = None;
        self.marked = self.marked || marks;
        self.word = next.pack();
        Ok(Made::Done)
    }

    /// A waker that reserved a bias where there was no writer, or that holds shared, grants a
    /// batch.
    pub fn grant(&mut self, task: u32) -> Result<Made, Refusal>
        requires { IsStated self.old }
        ensures stated { IsStated self.new }
        ensures kept { OnErr result (self.new ≡ self.old) }
    {
        if self.writer.is_some() {
            return Err(Refusal::Others);
        }
        let reserved = is_task(self.waker, task) && !self.late;
        if !reserved && place_of(self.readers.as_slice(), task).is_none() {
            return Err(Refusal::NoReserve);
        }
        let mut granted: ArrayVec<u32, MAX_READERS_WAKEUP> = ArrayVec::new();
        batch(self.waiting.as_slice(), MAX_READERS_WAKEUP, &mut granted);
        let rest = writers_of(self.waiting.as_slice());
        if granted.len() > MOST - self.readers.len() {
            return Err(Refusal::Full);
        }
        let empty = rest.len() == 0;
        let Some(next) = count_batch(self.count(), granted.len() as u64, reserved, empty) else {
            return Err(Refusal::Word);
        };
        add_readers(&mut self.readers, granted.as_slice());
        self.waker = waker_left(self.waker, reserved);
        self.waiting = rest;
        self.marked = false;
        self.word = next.pack();
        Ok(Made::Done)
    }

    /// A waiter leaves the list, as one that is interrupted does. The last one clears the flags.
    pub fn leave(&mut self, task: u32) -> Result<Made, Refusal>
        requires { IsStated self.old }
        ensures stated { IsStated self.new }
        ensures kept { OnErr result (self.new ≡ self.old) }
    {
        let Some(place) = task_place(self.waiting.as_slice(), task) else {
            return Err(Refusal::WaitsNot);
        };
        if self.waiting.len() == 1 {
            let Some(next) = clear_flags(self.count()) else {
                return Err(Refusal::Word);
            };
            self.word = next.pack();
        }
        if place == 0 {
            self.marked = false;
        }
        self.waiting.remove(place);
        Ok(Made::Done)
    }
}
