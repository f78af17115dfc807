//! Tasks that do their calls on an object under a lock.
ghost use Rattle.std.specs.Prelude.{◌≡◌, ◌<◌, length, None, Some, IfOk};
ghost use Rattle.lock_core.specs.declared.view.Held.TheVariants.{No};
ghost use Rattle.lock_core.specs.Records.{row};
ghost use Rattle.lock_core.specs.Kinds.{unavailable};
ghost use Rattle.guarded.specs.GuardedHandles.{lock_of};
ghost use Rattle.guarded.specs.ObjectCopying.{IsHistory};
ghost use Rattle.guarded.specs.Gathering.{IsGathered};

use cpu_task::{Crew, Gate, ScriptedCrew, Turns};
use guarded::{Guarded, Served};
use sleep_lock::SleepLock;
use std::alloc::{AllocError, Global};
use std::sync::Wait;
use word_bits::{MAX_CALLS, Reply, Snapshot};

/// An object has at most so many words.
const MOST_WORDS: usize = 257;

/// A scripted CPU takes its turns from its lists.
const NO_TURNS: Turns = Turns {
    spin: 0,
    overdue: 0,
};

/// Does all calls of the task that aren't done, and gives their replies.
pub fn replies_of<W: Wait, G: Gate, L: SleepLock<O>, O: Served + Drop>(
    rt: &W,
    alloc: Global,
    guarded: &Guarded<L, O>,
    pass: &mut L::Pass,
    gate: &G,
    task: u32,
) -> Result<Vec<Reply>, AllocError>
    requires own { L.sits (lock_of guarded.now) pass.old }
    requires numberless { (L.view pass.old).hand.task ≡ None }
    requires there { task < length (L.calls_on (lock_of guarded.now)) }
    ensures { L.sits (lock_of guarded.now) pass.new }
{
    let mut crew = ScriptedCrew::new(alloc, Vec::new(alloc), Vec::new(alloc))?;
    let mut cpu = crew.cpu(alloc, task, NO_TURNS)?;
    let mut replies = Vec::new(alloc);
    guarded.begin(rt, pass, task);
    for call in 0..guarded.calls(task) {
        if let Some(reply) = reply_of(rt, guarded, pass, &mut cpu, &crew, gate, task, call) {
            replies.push(reply)?;
        }
    }
    guarded.end(pass);
    Ok(replies)
}

/// Does the call of the pass's task, if it is the next one.
fn reply_of<W: Wait, C: Crew, G: Gate, L: SleepLock<O>, O: Served + Drop>(
    rt: &W,
    guarded: &Guarded<L, O>,
    pass: &mut L::Pass,
    cpu: &mut C::C,
    crew: &C,
    gate: &G,
    task: u32,
    call: u32,
) -> Option<Reply>
    requires own { L.sits (lock_of guarded.now) pass.old }
    requires numbered { (L.view pass.old).hand.task ≡ Some task }
    requires out { (L.view pass.old).hand.held ≡ No }
    requires sent { (L.view pass.old).hand.sent ≡ None }
    requires consumed { (L.view pass.old).hand.consumed ≡ 0 }
    requires there { call < length (row (L.calls_on (lock_of guarded.now)) task) }
    ensures own { L.sits (lock_of guarded.now) pass.new }
    ensures numbered { (L.view pass.new).hand.task ≡ Some task }
    ensures out { (L.view pass.new).hand.held ≡ No }
    ensures sent { (L.view pass.new).hand.sent ≡ None }
    ensures consumed { (L.view pass.new).hand.consumed ≡ 0 }
{
    let _ = task;
    if guarded.done(pass) != call {
        return None;
    }
    Some(guarded.perform(rt, pass, cpu, crew, gate, call))
}

/// A copy of what the object's table has.
pub fn copy_of<W: Wait, L: SleepLock<O>, O: Served + Drop>(
    rt: &W,
    alloc: Global,
    guarded: &Guarded<L, O>,
    pass: &mut L::Pass,
) -> Result<Snapshot, AllocError>
    requires own { L.sits (lock_of guarded.now) pass.old }
    requires numberless { (L.view pass.old).hand.task ≡ None }
    requires there { 0 < length (L.calls_on (lock_of guarded.now)) }
    ensures own { L.sits (lock_of guarded.now) pass.new }
    ensures numberless { IfOk result (λ _. (L.view pass.new).hand.task ≡ None) }
    ensures legal { IsGathered O.object (unavailable L.kind) (L.calls_on (lock_of guarded.now))
        (L.view pass.old).hand → IfOk result (λ copy.
        IsHistory O.object (unavailable L.kind) (L.calls_on (lock_of guarded.now)) copy) }
{
    let mut crew = ScriptedCrew::new(alloc, Vec::new(alloc), Vec::new(alloc))?;
    let mut cpu = crew.cpu(alloc, 0, NO_TURNS)?;
    let calls = MAX_CALLS as usize;
    let mut out = Snapshot::new(alloc, calls, calls, MOST_WORDS)?;
    guarded.begin(rt, pass, 0);
    guarded.snapshot(rt, pass, &mut cpu, &crew, &mut out);
    guarded.end(pass);
    Ok(out)
}
