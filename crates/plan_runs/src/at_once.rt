//! Tasks that do their calls on an object under a lock at once, on threads.
ghost use Rattle.std.specs.Prelude.{◌≡◌, ℕ, ◌<◌, ◌≤◌, length, None, IfOk, OnOk};
ghost use Rattle.word_bits.specs.declared.TheConstants.{MAX_TASKS};
ghost use Rattle.lock_core.specs.Records.{IsPlan};
ghost use Rattle.lock_core.specs.Kinds.{unavailable};
ghost use Rattle.guarded.specs.GuardedHandles.{lock_of};
ghost use Rattle.guarded.specs.ObjectCopying.{IsHistory};
ghost use Rattle.guarded.specs.Gathering.{IsGathered};
ghost use Rattle.plan_runs.specs.CallsBetween.{AreFresh, AreReady, EachHasDone, HasDoneItsCalls, IsFresh, MembersHaveDone, PassHasDone};

use crate::serve::copy_of;
use cpu_task::{Crew, Gate, OpenGate, Turns};
use guarded::{Guarded, Served};
use lock_core::{Plan, Tally};
use sleep_lock::SleepLock;
use std::alloc::{AllocError, Global};
use std::sync::Wait;
use std::thread;
use std::thread::Threads;
use word_bits::Snapshot;

/// A task spins before it sleeps, and is soon owed the lock.
pub const SOON_OWED: Turns = Turns {
    spin: 100,
    overdue: 4,
};

/// A task doesn't spin, and is never owed the lock, so that nobody asks for it to be handed over.
pub const NEVER_OWED: Turns = Turns {
    spin: 0,
    overdue: u32::MAX,
};

/// When the tasks begin that pass a gate.
pub trait Start: Gate {
    /// Returns once the task may begin, which is at once if nothing else is said.
    fn begins(&self, _task: u32) {}

    /// Is told that the task has done its calls, and what its pass counted of them.
    fn ended(&self, _task: u32, _tally: Tally) {}
}

/// All tasks begin at once.
impl Start for OpenGate {}

/// Does all calls of the task, by a pass that has seen nothing, and gives the number back. Waits
/// for good where a call of the task is done already.
pub fn serve_all<W: Wait, C: Crew, G: Start, L: SleepLock<O>, O: Served + Drop>(
    rt: &W,
    guarded: &Guarded<L, O>,
    pass: &mut L::Pass,
    cpu: &mut C::C,
    crew: &C,
    gate: &G,
    task: u32,
)
    requires own { L.sits (lock_of guarded.now) pass.old }
    requires fresh { IsFresh (L.view pass.old) }
    requires there { task < length (L.calls_on (lock_of guarded.now)) }
    ensures own { L.sits (lock_of guarded.now) pass.new }
    ensures served { HasDoneItsCalls O.object (unavailable L.kind)
        (L.calls_on (lock_of guarded.now)) task (L.view pass.new) }
{
    gate.begins(task);
    guarded.begin(rt, pass, task);
    if guarded.done(pass) != 0 {
        for _ in rt.forever() {}
        unreachable!()
    }
    guarded.perform_all(rt, pass, cpu, crew, gate, task);
    guarded.end(pass);
    gate.ended(task, L::tally(pass));
}

/// An object on which tasks do all their calls, each by a pass of its own.
pub trait Runs {
    type Pass: Drop;

    // The pass is one of this object's, has no number and has seen nothing.
    ghost ready: { Self → Self.Pass → Type 0 };

    // How many tasks the plan has.
    ghost tasks: { Self → ℕ };

    // The pass is one of this object's, and has done all calls of the task.
    ghost has_done: { Self → (task : ℕ) → Self.Pass → Type 0 };

    /// Does all calls of the task.
    fn run<W: Wait, C: Crew, G: Start>(
        &self,
        rt: &W,
        pass: &mut Self::Pass,
        cpu: &mut C::C,
        crew: &C,
        gate: &G,
        task: u32,
    )
        requires ready { ready self.now pass.old }
        requires there { task < tasks self.now }
        ensures done { has_done self.now task pass.new };
}

impl<L: SleepLock<O>, O: Served + Drop> Runs for Guarded<L, O> {
    type Pass = L::Pass;

    ghost ready = { λ s p. L.sits (lock_of s) p × IsFresh (L.view p) };

    ghost tasks = { λ s. length (L.calls_on (lock_of s)) };

    ghost has_done = { λ s. PassHasDone O.object (unavailable L.kind) (L.calls_on (lock_of s))
        (L.sits (lock_of s)) L.view };

    fn run<W: Wait, C: Crew, G: Start>(
        &self,
        rt: &W,
        pass: &mut L::Pass,
        cpu: &mut C::C,
        crew: &C,
        gate: &G,
        task: u32,
    ) {
        serve_all(rt, self, pass, cpu, crew, gate, task);
    }
}

/// Each pass does all calls of the task of its place. The passes do this at once.
fn serve_each<
    R: Threads + Wait + Sync,
    C: Crew<C: Send> + Sync,
    G: Start + Sync,
    S: Runs<Pass: Send> + Sync,
>(rt: &R, object: &S, members: &mut [(S::Pass, C::C)], crew: &C, gate: &G)
    requires ready { AreReady (S.ready object.now) members.old }
    requires few { length members.old ≤ S.tasks object.now }
    requires small { length members.old ≤ MAX_TASKS }
    ensures { EachHasDone (S.has_done object.now) (length members.old) members.new }
{
    let threads = members.len().max(1);
    thread::for_each_mut(
        rt,
        members,
        threads,
        &|task, member: &mut (S::Pass, C::C)|
            requires ready { S.ready object.now member.old.0 }
            requires there { task < S.tasks object.now }
            requires small { task < MAX_TASKS }
            ensures { S.has_done object.entry.now task member.new.0 }
        {
            object.run(rt, &mut member.0, &mut member.1, crew, gate, task as u32);
        },
    );
}

/// A fresh pass and a CPU for each task.
fn members_of<C: Crew, L: SleepLock<O>, O: Served + Drop>(
    alloc: Global,
    guarded: &Guarded<L, O>,
    first: &mut L::Pass,
    crew: &mut C,
    turns: Turns,
) -> Result<Vec<(L::Pass, C::C)>, AllocError>
    requires own { L.sits (lock_of guarded.now) first.old }
    requires fresh { IsFresh (L.view first.old) }
    ensures own { OnOk result (L.sits (lock_of guarded.now) first.new) }
    ensures kept { OnOk result (IsFresh (L.view first.new)) }
    ensures fresh { IfOk result (λ members.
        AreFresh (L.sits (lock_of guarded.now)) L.view members.items) }
    ensures all { IfOk result (λ members.
        length members.items ≡ length (L.calls_on (lock_of guarded.now))) }
{
    let mut members = Vec::new(alloc);
    for task in 0..guarded.tasks() {
        let cpu = crew.cpu(alloc, task, turns)?;
        let pass = guarded.split(first);
        members.push((pass, cpu))?;
    }
    Ok(members)
}

/// Takes in the passes of all tasks, which have done their calls.
fn gather_all<L: SleepLock<O>, O: Served + Drop, P: Drop>(
    guarded: &Guarded<L, O>,
    into: &mut L::Pass,
    mut members: Vec<(L::Pass, P)>,
)
    requires own { L.sits (lock_of guarded.now) into.old }
    requires numberless { (L.view into.old).hand.task ≡ None }
    requires done { MembersHaveDone O.object (unavailable L.kind)
        (L.calls_on (lock_of guarded.now)) (L.sits (lock_of guarded.now)) L.view
        (length (L.calls_on (lock_of guarded.now))) members.items }
    ensures own { L.sits (lock_of guarded.now) into.new }
    ensures numberless { (L.view into.new).hand.task ≡ None }
    ensures gathered { IsGathered O.object (unavailable L.kind)
        (L.calls_on (lock_of guarded.now)) (L.view into.new).hand }
{
    while let Some((pass, _)) = members.pop() {
        guarded.gather(into, pass);
    }
}

/// A copy of what the tasks of the plan leave that do all their calls on a new object of number 0
/// at once: it is a legal history, one thread's, with each call once. The plan has one task at
/// least, and `MAX_TASKS` at most.
pub fn history_of_all<
    R: Threads + Wait + Sync,
    C: Crew<C: Send> + Sync + Drop,
    G: Start + Sync,
    L: SleepLock<O, Pass: Send, Site: Sync, Rule: Sync> + Sync + Drop,
    O: Served<Call: Sync> + Drop + Sync,
>(
    rt: &R,
    alloc: Global,
    plan: Plan,
    mut crew: C,
    turns: Turns,
    gate: &G,
) -> Result<Snapshot, AllocError>
    requires plan { IsPlan O.object plan }
    requires some { 0 < length plan }
    requires few { length plan ≤ MAX_TASKS }
    ensures { IfOk result (λ copy. IsHistory O.object (unavailable L.kind) plan copy) }
{
    let (guarded, mut pass) = Guarded::<L, O>::open(alloc, 0, plan)?;
    let mut members = members_of(alloc, &guarded, &mut pass, &mut crew, turns)?;
    serve_each(rt, &guarded, members.as_mut_slice(), &crew, gate);
    gather_all(&guarded, &mut pass, members);
    copy_of(rt, alloc, &guarded, &mut pass)
}
