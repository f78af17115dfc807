//! What a machine does with one object, under one lock.
ghost use Rattle.std.specs.Prelude.{◌≡◌, ◌+◌, ◌<◌, [], length};
ghost use Rattle.word_bits.specs.Snapshots.{no_words};
ghost use Rattle.lock_core.specs.Kinds.{unavailable};
ghost use Rattle.lock_core.specs.Pasts.{GoesOn};
ghost use Rattle.lock_core.specs.Plans.{calls_in};
ghost use Rattle.lock_core.specs.Records.{row};
ghost use Rattle.guarded.specs.ObjectCopying.{IsKnownHistory};
ghost use Rattle.guarded.specs.Gathering.{HasDoneAll};
ghost use Rattle.guarded.specs.GuardedHandles.{lock_of};
ghost use Rattle.mm_serve.specs.MachineCopying.{WasHeldWith};
ghost use Rattle.mm_serve.specs.MachineQueues.{GoesBackToTask, HasLookedBack};
ghost use Rattle.mm_serve.specs.TaskServing.{AllTasksDone, IsIdle, IsServing};

use cpu_task::{Context, Crew, Gate};
use guarded::{Guarded, Served};
use sleep_lock::SleepLock;
use std::sync::Wait;
use std::thread;
use word_bits::{Object, Snapshot};

/// Waits for good, unless the number is 0.
fn await_none<W: Wait>(rt: &W, done: u32)
    ensures { done ≡ 0 }
{
    for _ in rt.forever() {
        if done == 0 {
            break;
        }
        thread::yield_now();
    }
}

/// Takes the number of a task that has done no call.
pub(crate) fn begin<O: Served + Drop, L: SleepLock<O>, W: Wait>(
    guarded: &Guarded<L, O>,
    rt: &W,
    pass: &mut L::Pass,
    task: u32,
)
    requires own { L.sits (lock_of guarded.now) pass.old }
    requires idle { IsIdle (L.view pass.old).hand }
    requires unseen { (L.view pass.old).hand.seen ≡ [] }
    requires there { task < length (L.calls_on (lock_of guarded.now)) }
    ensures own { L.sits (lock_of guarded.now) pass.new }
    ensures serving { IsServing O.object (unavailable L.kind) (L.calls_on (lock_of guarded.now))
        (L.view pass.new).hand task }
    ensures none { (L.view pass.new).hand.done ≡ 0 }
{
    guarded.begin(rt, pass, task);
    // Only a task without records shows that its pass made all of them: a record of a call that
    // never held says no more than where its own pass had seen the log end.
    await_none(rt, guarded.done(pass));
}

/// Does the task's next call.
pub(crate) fn perform<O: Served + Drop, L: SleepLock<O>, W: Wait, C: Crew, G: Gate>(
    guarded: &Guarded<L, O>,
    context: Context<'_, W, C, G>,
    pass: &mut L::Pass,
    cpu: &mut C::C,
    task: u32,
)
    requires own { L.sits (lock_of guarded.now) pass.old }
    requires serving { IsServing O.object (unavailable L.kind) (L.calls_on (lock_of guarded.now))
        (L.view pass.old).hand task }
    requires more { (L.view pass.old).hand.done <
        length (row (L.calls_on (lock_of guarded.now)) task) }
    ensures own { L.sits (lock_of guarded.now) pass.new }
    ensures serving { IsServing O.object (unavailable L.kind) (L.calls_on (lock_of guarded.now))
        (L.view pass.new).hand task }
    ensures done { (L.view pass.new).hand.done ≡ (L.view pass.old).hand.done + 1 }
{
    let _ = task;
    let call = guarded.done(pass);
    let Context { rt, crew, gate } = context;
    guarded.perform(rt, pass, cpu, crew, gate, call);
}

/// Looks back at the table and at the spin queue, and gives the task's number back.
pub(crate) fn end<O: Served + Drop, L: SleepLock<O>>(
    guarded: &Guarded<L, O>,
    pass: &mut L::Pass,
    task: u32,
)
    requires own { L.sits (lock_of guarded.now) pass.old }
    requires serving { IsServing O.object (unavailable L.kind) (L.calls_on (lock_of guarded.now))
        (L.view pass.old).hand task }
    requires all { (L.view pass.old).hand.done ≡
        length (row (L.calls_on (lock_of guarded.now)) task) }
    ensures own { L.sits (lock_of guarded.now) pass.new }
    ensures idle { IsIdle (L.view pass.new).hand }
    ensures done { HasDoneAll O.object (unavailable L.kind) (L.calls_on (lock_of guarded.now))
        (L.view pass.new).hand task }
    ensures looks { GoesBackToTask
        (λ at its t. HasLookedBack O.object L.kind (L.sits (lock_of at) its) L.tells_queue
        (L.calls_on (lock_of at)) (L.view its) (L.spun its) t)
        (λ its. (L.view its).past) L.spun guarded.now task pass.new }
{
    let _ = task;
    // Its own looks tie its calls to the table and to the queue: whoever gathers the pass goes back
    // to these moments.
    guarded.recall(pass);
    guarded.recall_queue(pass);
    guarded.end(pass);
}

/// Copies one thread's history.
pub(crate) fn snapshot<O: Served + Drop, L: SleepLock<O>, W: Wait, C: Crew>(
    guarded: &Guarded<L, O>,
    rt: &W,
    pass: &mut L::Pass,
    cpu: &mut C::C,
    crew: &C,
    out: &mut Snapshot,
)
    requires own { L.sits (lock_of guarded.now) pass.old }
    requires idle { IsIdle (L.view pass.old).hand }
    requires done { AllTasksDone O.object (unavailable L.kind) (L.calls_on (lock_of guarded.now))
        (L.view pass.old).hand }
    requires some { 0 < length (L.calls_on (lock_of guarded.now)) }
    requires blank { out.old ≡ no_words (calls_in (L.calls_on (lock_of guarded.now)))
        (calls_in (L.calls_on (lock_of guarded.now))) O.WORDS }
    ensures own { L.sits (lock_of guarded.now) pass.new }
    ensures idle { IsIdle (L.view pass.new).hand }
    ensures copied { IsKnownHistory O.object (unavailable L.kind)
        (L.calls_on (lock_of guarded.now)) (L.view pass.new).hand out.new }
    ensures held { WasHeldWith out.new (L.view pass.new).hand.records (L.view pass.new).past }
    ensures goes_on { GoesOn (L.view pass.old).past (L.view pass.new).past }
    ensures queue { GoesOn (L.spun pass.old) (L.spun pass.new) }
{
    guarded.begin(rt, pass, 0);
    guarded.snapshot(rt, pass, cpu, crew, out);
    guarded.end(pass);
}
