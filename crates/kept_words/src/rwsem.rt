//! Words under a reader-writer semaphore.
ghost use Rattle.std.specs.Prelude.{◌≡◌, ◌<◌, ◌≤◌, length, vec_len, None, IfOk};
ghost use Rattle.std.specs.Arc.{arc_value};
ghost use Rattle.word_bits.specs.declared.TheConstants.{MAX_TASKS};
ghost use Rattle.kept_words.specs.Keeping.{IsTask};
ghost use Rattle.kept_words.specs.Types.{No};
ghost use Rattle.rwsem_slow.specs.RwSemHandles.{hand_in, plan_of, shown_of, SitsAt};

use crate::invariant::{Invariant, Words};
use crate::kept::{Kept, KeptPast, KeptShared};
use crate::opening::{cpus, open_words, plan};
use crate::past::look_back;
use crate::task::Task;
use cpu_task::{Crew, ParkCrew, Turns};
use lock_core::SiteLock;
use rwsem_slow::{RwPass, RwSem};
use std::alloc::{AllocError, Global};
use std::marker::Model;
use std::sync::{Arc, Wait};
use word_bits::MAX_TASKS;

/// What all tasks of a semaphore share: the semaphore, and the crew that wakes those who wait for it.
#[derive(Drop)]
pub(crate) struct SharedSem<I: Invariant, C> {
    semaphore: RwSem<Words<I>>,
    crew: C,
}

/// Words under a reader-writer semaphore, as one task has them, which wakes and sleeps by this crew. Contracts see
/// how the task holds them, the words, and the moments of the lock's table (`TaskView`).
#[derive(Drop)]
pub struct KeptRwSem<I: Invariant, C: Crew = ParkCrew> {
    shared: Arc<SharedSem<I, C>, Global>,
    pass: RwPass<Words<I>>,
    cpu: C::C,
}

/// A task of such words.
pub type RwTask<I> = Task<KeptRwSem<I, ParkCrew>>;

impl<I: Invariant, C: Crew> Model for KeptRwSem<I, C> {
    ghost use Rattle.std.specs.Arc.{arc_value};
    ghost use Rattle.rwsem_slow.specs.RwSemHandles.{plan_of, shown_of, SitsAt};
    ghost use Rattle.kept_words.specs.Keeping.{IsTask, TaskView, task_view};

    ghost Value = { TaskView };

    ghost view = { λ k. task_view (shown_of k.pass) };

    ghost invariant = { λ k.
        IsTask SitsAt plan_of shown_of I.WORDS (arc_value k.shared).semaphore k.pass };
}

impl<I: Invariant + Drop, C: Crew + Drop> KeptRwSem<I, C> {
    /// A task for each number below `tasks`, with these words, of which the invariant must be so.
    /// The crew gives each its CPU.
    pub fn open<W: Wait>(
        rt: &W,
        alloc: Global,
        crew: C,
        turns: Turns,
        tasks: u32,
        words: &[u64],
    ) -> Result<Vec<Task<KeptRwSem<I, C>>>, AllocError>
        requires some { 0 < tasks }
        requires few { tasks ≤ MAX_TASKS }
        requires wide { length words.now ≡ I.WORDS }
        requires keeps { I.keeps words.now }
        ensures { IfOk result (λ all. vec_len all ≡ tasks) }
    {
        let mut crew = crew;
        let mut cpu = crew.cpu(alloc, 0, turns)?;
        let others = cpus(alloc, &mut crew, turns, tasks)?;
        let plan = plan(alloc, tasks)?;
        let (semaphore, mut pass) = RwSem::<Words<I>>::open(alloc, plan)?;
        open_words::<Words<I>, RwSem<Words<I>>, W, C>(
            &semaphore, rt, &mut pass, words, &mut cpu, &crew,
        );
        let shared = Arc::new(alloc, SharedSem { semaphore, crew })?;
        let mut all = split_all(rt, alloc, &shared, &mut pass, others)?;
        let first = KeptRwSem { shared, pass, cpu };
        all.push(Task::new(first))?;
        Ok(all)
    }
}

/// A task for each of these CPUs. The first has the number 1.
fn split_all<I: Invariant + Drop, C: Crew + Drop, W: Wait>(
    rt: &W,
    alloc: Global,
    shared: &Arc<SharedSem<I, C>, Global>,
    pass: &mut RwPass<Words<I>>,
    cpus: Vec<C::C>,
) -> Result<Vec<Task<KeptRwSem<I, C>>>, AllocError>
    requires first { IsTask SitsAt plan_of shown_of I.WORDS
        (arc_value shared.now).semaphore pass.old }
    requires out { (hand_in pass.old).held ≡ No }
    requires few { vec_len cpus < length (plan_of (arc_value shared.now).semaphore) }
    requires most { vec_len cpus < MAX_TASKS }
    ensures first { IfOk result (λ _. IsTask SitsAt plan_of shown_of I.WORDS
        (arc_value shared.now).semaphore pass.new) }
    ensures out { IfOk result (λ _. (hand_in pass.new).held ≡ No) }
    ensures all { IfOk result (λ all. vec_len all ≡ vec_len cpus) }
{
    let mut cpus = cpus;
    let mut all = Vec::new(alloc);
    while let Some(cpu) = cpus.pop() {
        let number = cpus.len() as u32 + 1;
        let task = split_one(rt, shared, pass, cpu, number)?;
        all.push(task)?;
    }
    Ok(all)
}

/// The task of this number, on this CPU.
fn split_one<I: Invariant + Drop, C: Crew + Drop, W: Wait>(
    rt: &W,
    shared: &Arc<SharedSem<I, C>, Global>,
    pass: &mut RwPass<Words<I>>,
    cpu: C::C,
    number: u32,
) -> Result<Task<KeptRwSem<I, C>>, AllocError>
    requires first { IsTask SitsAt plan_of shown_of I.WORDS
        (arc_value shared.now).semaphore pass.old }
    requires out { (hand_in pass.old).held ≡ No }
    requires there { number < length (plan_of (arc_value shared.now).semaphore) }
    ensures first { IsTask SitsAt plan_of shown_of I.WORDS
        (arc_value shared.now).semaphore pass.new }
    ensures out { (hand_in pass.new).held ≡ No }
{
    let mut pass = shared.semaphore.split(pass);
    shared.semaphore.begin(rt, &mut pass, number);
    let shared = Arc::try_clone(shared)?;
    Ok(Task::new(KeptRwSem { shared, pass, cpu }))
}

impl<I: Invariant + Drop, C: Crew + Drop> Kept for KeptRwSem<I, C> {
    type I = I;

    ghost hold = { λ k. k.hold };

    ghost past = { λ k. k.past };

    fn lock<W: Wait>(&mut self, rt: &W) {
        let shared = &*self.shared;
        shared
            .semaphore
            .down_write(rt, &mut self.pass, &mut self.cpu, &shared.crew);
    }

    fn try_lock<W: Wait>(&mut self, _rt: &W) -> bool {
        match self.shared.semaphore.down_write_trylock(&mut self.pass) {
            Ok(()) => true,
            Err(_) => false,
        }
    }

    fn get(&mut self, at: usize) -> u64 {
        self.shared.semaphore.word(&mut self.pass, at)
    }

    fn set(&mut self, at: usize, value: u64) {
        self.shared.semaphore.set_word(&mut self.pass, at, value);
    }

    fn unlock<W: Wait>(&mut self, rt: &W) {
        self.shared.semaphore.end_writing(&mut self.pass);
        self.shared
            .semaphore
            .up_write(rt, &mut self.pass, &self.shared.crew);
    }
}

impl<I: Invariant + Drop, C: Crew + Drop> KeptShared for KeptRwSem<I, C> {
    fn lock_shared<W: Wait>(&mut self, rt: &W) {
        let shared = &*self.shared;
        shared
            .semaphore
            .down_read(rt, &mut self.pass, &mut self.cpu, &shared.crew);
    }

    fn try_lock_shared<W: Wait>(&mut self, rt: &W) -> bool {
        match self.shared.semaphore.down_read_trylock(rt, &mut self.pass) {
            Ok(()) => true,
            Err(_) => false,
        }
    }

    fn unlock_shared<W: Wait>(&mut self, rt: &W) {
        self.shared
            .semaphore
            .up_read(rt, &mut self.pass, &self.shared.crew);
    }

    fn downgrade<W: Wait>(&mut self, rt: &W) {
        self.shared.semaphore.end_writing(&mut self.pass);
        self.shared
            .semaphore
            .downgrade_write(rt, &mut self.pass, &self.shared.crew);
    }
}

impl<I: Invariant + Drop, C: Crew + Drop> KeptPast for KeptRwSem<I, C> {
    fn recall(&mut self) {
        look_back::<Words<I>, RwSem<Words<I>>>(&self.shared.semaphore, &mut self.pass);
    }
}
