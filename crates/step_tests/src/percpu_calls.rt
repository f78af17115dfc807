//! What a task does with its next call, under a per-CPU semaphore.
ghost use Rattle.std.specs.Prelude.{◌≡◌, ◌≢◌, ◌<◌, false, true, length, IfSome};
ghost use Rattle.lock_core.specs.declared.view.Held.TheVariants.{No, Shared, Alone};
ghost use Rattle.percpu_rwsem.specs.PercpuHandles.{blocks_in, hand_in, held_in, plan_of, seen_in, view_of, SitsAt};
ghost use Rattle.step_tests.specs.TestPercpuPasses.{IsAt, IsIdle, KnowsState, Repeats};

use cpu_task::Crew;
use lock_core::SiteLock;
use percpu_rwsem::{PercpuPass, PercpuRwSem};
use std::sync::Wait;
use word_bits::{CallWords, Object, Reply, ValueObject};

/// A call that a task makes so often.
#[derive(Clone, Copy)]
pub struct Job {
    pub task: u32,
    pub rounds: u32,
    pub words: CallWords,
}

impl Job {
    /// That call of a task, so often.
    pub fn new(task: u32, rounds: u32, words: CallWords) -> Job
        ensures { result ≡ record { task = task; rounds = rounds; words = words } }
    {
        Job {
            task,
            rounds,
            words,
        }
    }
}

/// Takes the task's number.
pub fn start<O: Object, W: Wait>(rt: &W, lock: &PercpuRwSem<O>, pass: &mut PercpuPass<O>, task: u32)
    requires idle { IsIdle lock.now pass.old }
    requires there { task < length (plan_of lock.now) }
    ensures at { IsAt task No lock.now pass.new }
    ensures apart { blocks_in pass.new ≡ false }
{
    lock.begin(rt, pass, task);
}

/// Reads, and waits for it.
pub fn hold_shared<O: Object, W: Wait, C: Crew>(
    rt: &W,
    lock: &PercpuRwSem<O>,
    pass: &mut PercpuPass<O>,
    cpu: &mut C::C,
    crew: &C,
    job: Job,
)
    requires at { IsAt job.task No lock.now pass.old }
    requires apart { blocks_in pass.old ≡ false }
    ensures at { IsAt job.task Shared lock.now pass.new }
    ensures knows { KnowsState O.object lock.now pass.new }
{
    lock.down_read(rt, pass, cpu, crew);
}

/// Writes, and waits for it.
pub fn hold_alone<O: Object, W: Wait, C: Crew>(
    rt: &W,
    lock: &PercpuRwSem<O>,
    pass: &mut PercpuPass<O>,
    cpu: &mut C::C,
    crew: &C,
    job: Job,
)
    requires at { IsAt job.task No lock.now pass.old }
    requires apart { blocks_in pass.old ≡ false }
    ensures at { IsAt job.task Alone lock.now pass.new }
    ensures blocks { blocks_in pass.new ≡ true }
    ensures knows { KnowsState O.object lock.now pass.new }
{
    lock.down_write(rt, pass, cpu, crew);
}

/// A guarded word, for a reader.
pub fn word<O: Object>(lock: &PercpuRwSem<O>, pass: &mut PercpuPass<O>, at: usize, job: Job) -> u64
    requires at { IsAt job.task Shared lock.now pass.old }
    requires knows { KnowsState O.object lock.now pass.old }
    requires inside { at < O.WORDS }
    ensures at { IsAt job.task Shared lock.now pass.new }
    ensures knows { KnowsState O.object lock.now pass.new }
{
    lock.word(pass, at)
}

/// Ends the shared hold.
pub fn let_go_shared<O: Object, C: Crew>(
    lock: &PercpuRwSem<O>,
    pass: &mut PercpuPass<O>,
    crew: &C,
    job: Job,
)
    requires at { IsAt job.task Shared lock.now pass.old }
    ensures at { IsAt job.task No lock.now pass.new }
    ensures apart { blocks_in pass.new ≡ false }
{
    lock.up_read(pass, crew);
}

/// Lets readers in again, and ends the exclusive hold.
pub fn let_go_alone<O: Object, C: Crew>(
    lock: &PercpuRwSem<O>,
    pass: &mut PercpuPass<O>,
    crew: &C,
    job: Job,
)
    requires at { IsAt job.task Alone lock.now pass.old }
    requires blocks { blocks_in pass.old ≡ true }
    ensures at { IsAt job.task No lock.now pass.new }
    ensures apart { blocks_in pass.new ≡ false }
{
    lock.unblock(pass, crew);
}

/// Does the task's next call and records it, if the task has one left that changes the object.
pub fn write<O: ValueObject + Drop>(
    lock: &PercpuRwSem<O>,
    pass: &mut PercpuPass<O>,
    job: Job,
) -> Option<Reply>
    requires at { IsAt job.task Alone lock.now pass.old }
    requires knows { KnowsState O.object lock.now pass.old }
    requires calls { Repeats (plan_of lock.now) job.task job.rounds job.words }
    ensures at { IsAt job.task Alone lock.now pass.new }
    ensures blocks { blocks_in pass.new ≡ blocks_in pass.old }
{
    let call = lock.done(pass);
    if call >= job.rounds {
        return None;
    }
    let known = O::call_of(job.words)?;
    if O::reads(known) {
        return None;
    }
    let mut value = load(lock, pass)?;
    let reply = value.apply(known);
    store(lock, pass, &value);
    lock.commit(pass, call, reply);
    Some(reply)
}

/// Does the task's next call and records it, if the task has one left that reads.
pub fn read<O: ValueObject + Drop>(
    lock: &PercpuRwSem<O>,
    pass: &mut PercpuPass<O>,
    job: Job,
) -> Option<Reply>
    requires at { IsAt job.task Shared lock.now pass.old }
    requires knows { KnowsState O.object lock.now pass.old }
    requires calls { Repeats (plan_of lock.now) job.task job.rounds job.words }
    ensures at { IsAt job.task Shared lock.now pass.new }
{
    let call = lock.done(pass);
    if call >= job.rounds {
        return None;
    }
    let known = O::call_of(job.words)?;
    if !O::reads(known) {
        return None;
    }
    let mut value = load(lock, pass)?;
    let reply = value.apply(known);
    lock.note(pass, call, reply);
    Some(reply)
}

/// The value that the guarded words store.
fn load<O: ValueObject>(lock: &PercpuRwSem<O>, pass: &mut PercpuPass<O>) -> Option<O>
    requires own { SitsAt lock.now pass.old }
    requires held { held_in pass.old ≢ No }
    requires sized { length (hand_in pass.old).known ≡ O.WORDS }
    ensures own { SitsAt lock.now pass.new }
    ensures hand { hand_in pass.new ≡ hand_in pass.old }
    ensures seen { seen_in pass.new ≡ seen_in pass.old }
    ensures spin { (view_of pass.new).spin ≡ (view_of pass.old).spin }
    ensures state { IfSome result (λ v. O.object.IsState (O.state v)) }
    ensures found { IfSome result (λ v. O.object.stores (O.state v) ≡ (hand_in pass.old).known) }
{
    let mut words = [0; 257];
    for at in 0..O::WORDS {
        words[at] = lock.word(pass, at);
    }
    O::load(&words[..O::WORDS])
}

/// Writes the words that store the value.
fn store<O: ValueObject>(lock: &PercpuRwSem<O>, pass: &mut PercpuPass<O>, value: &O)
    requires own { SitsAt lock.now pass.old }
    requires held { held_in pass.old ≡ Alone }
    requires sized { length (hand_in pass.old).known ≡ O.WORDS }
    ensures own { SitsAt lock.now pass.new }
    ensures held { held_in pass.new ≡ Alone }
    ensures task { (hand_in pass.new).task ≡ (hand_in pass.old).task }
    ensures done { (hand_in pass.new).done ≡ (hand_in pass.old).done }
    ensures log { (hand_in pass.new).log ≡ (hand_in pass.old).log }
    ensures sent { (hand_in pass.new).sent ≡ (hand_in pass.old).sent }
    ensures consumed { (hand_in pass.new).consumed ≡ (hand_in pass.old).consumed }
    ensures seen { seen_in pass.new ≡ seen_in pass.old }
    ensures spin { (view_of pass.new).spin ≡ (view_of pass.old).spin }
    ensures known { (hand_in pass.new).known ≡ O.object.stores (O.state value.now) }
{
    let mut words = [0; 257];
    let stored = &mut words[..O::WORDS];
    value.store(stored);
    for at in 0..O::WORDS {
        lock.set_word(pass, at, stored[at]);
    }
}
