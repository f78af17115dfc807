//! Copies of what an object's table has, and what a copy is that was made when all calls were done.
ghost use Rattle.std.specs.Prelude.{◌≡◌, ◌≢◌, ◌+◌, ◌<◌, ◌≤◌, [], length, map, None, Some, IsSome};
ghost use Rattle.word_bits.specs.EntryWord.{entry_word};
ghost use Rattle.lock_core.specs.Pasts.{GoesOn};
ghost use Rattle.lock_core.specs.Plans.{calls_in};
ghost use Rattle.lock_core.specs.Records.{row};
ghost use Rattle.lock_core.specs.Kinds.{unavailable};
ghost use Rattle.lock_core.specs.Shown.{StepsOn};
ghost use Rattle.lock_core.specs.Locking.{Looks, Keeps};
ghost use Rattle.guarded.specs.GuardedHandles.{lock_of};
ghost use Rattle.guarded.specs.ObjectCopying.{Copies, GatheredIsHistory, KnowsChronicle, AddsTaskWords, AddsRecWords};
ghost use Rattle.guarded.specs.Gathering.{HasDoneAll};
ghost use Rattle.guarded.specs.Types.{No};

use crate::guarded::Guarded;
use crate::served::Served;
use cpu_task::{Crew, Gate};
use sleep_lock::SleepLock;
use std::sync::Wait;
use word_bits::{Object, Snapshot};

impl<L: SleepLock<O>, O: Served + Drop> Guarded<L, O> {
    /// Copies the records, the log and the state after it, with the lock held alone. The log begins
    /// with what the pass had seen, and each record that the pass knows is there. Each record's
    /// word stood in the table at a step between two at which the pass held.
    ///
    /// If the pass knows the records that all tasks made, the copy is a legal history: one
    /// thread's, with each call once.
    pub fn snapshot<W: Wait, C: Crew>(
        &self,
        rt: &W,
        pass: &mut L::Pass,
        cpu: &mut C::C,
        crew: &C,
        out: &mut Snapshot,
    )
        requires own { L.sits (lock_of self.now) pass.old }
        requires numbered { IsSome (L.view pass.old).hand.task }
        requires out { (L.view pass.old).hand.held ≡ No }
        requires empty { (out.old.recs ≡ []) × (out.old.log ≡ []) × (out.old.state ≡ []) }
        requires recs_room { calls_in (L.calls_on (lock_of self.now)) ≤ out.old.recs_room }
        requires log_room { calls_in (L.calls_on (lock_of self.now)) ≤ out.old.log_room }
        requires state_room { O.WORDS ≤ out.old.state_room }
        ensures on { StepsOn L.sits L.view (lock_of self.now) pass.old pass.new }
        ensures queue { GoesOn (L.spun pass.old) (L.spun pass.new) }
        ensures kept { Keeps (L.view pass.old) (L.view pass.new) }
        ensures signals { (L.view pass.new).hand.consumed ≡ (L.view pass.old).hand.consumed }
        ensures out { (L.view pass.new).hand.held ≡ No }
        ensures copied { Copies O.object (unavailable L.kind) (L.calls_on (lock_of self.now))
            (L.view pass.old) (L.view pass.new) out.new }
        ensures legal { GatheredIsHistory O.object (unavailable L.kind)
            (L.calls_on (lock_of self.now)) (L.view pass.old).hand out.new }
    {
        self.lock.alone(rt, pass, cpu, crew);
        // Between the two looks nobody else holds: the log, the words and the records of all calls
        // that held are those of one moment. Calls that never hold are recorded meanwhile too.
        self.lock.recall(pass);
        self.copy_log(pass, out);
        self.copy_records(pass, out);
        self.copy_state(pass, out);
        self.lock.recall(pass);
        self.lock.release_alone(rt, pass, crew);
    }

    /// Copies the log, which the pass knows.
    fn copy_log(&self, pass: &mut L::Pass, out: &mut Snapshot)
        requires own { L.sits (lock_of self.now) pass.old }
        requires held { (L.view pass.old).hand.held ≢ No }
        requires empty { out.old.log ≡ [] }
        requires room { length (L.view pass.old).hand.log ≤ out.old.log_room }
        ensures on { StepsOn L.sits L.view (lock_of self.now) pass.old pass.new }
        ensures queue { GoesOn (L.spun pass.old) (L.spun pass.new) }
        ensures kept { Looks (L.view pass.old) (L.view pass.new) }
        ensures copied { out.new ≡
            record out.old { log = map entry_word (L.view pass.old).hand.log } }
        ensures history { KnowsChronicle O.object (unavailable L.kind)
            (L.calls_on (lock_of self.now)) (L.view pass.old).hand }
    {
        let len = self.lock.log_len(pass);
        for at in 0..len {
            out.push_log(self.lock.log_word(pass, at));
        }
    }

    /// Copies the words of all records, task by task.
    fn copy_records(&self, pass: &mut L::Pass, out: &mut Snapshot)
        requires own { L.sits (lock_of self.now) pass.old }
        requires empty { out.old.recs ≡ [] }
        requires room { calls_in (L.calls_on (lock_of self.now)) ≤ out.old.recs_room }
        ensures on { StepsOn L.sits L.view (lock_of self.now) pass.old pass.new }
        ensures queue { GoesOn (L.spun pass.old) (L.spun pass.new) }
        ensures kept { Looks (L.view pass.old) (L.view pass.new) }
        ensures copied { AddsRecWords (L.calls_on (lock_of self.now)) (L.view pass.old)
            (L.view pass.new) out.old out.new }
    {
        for task in 0..self.lock.tasks() {
            self.copy_task(pass, task, out);
        }
    }

    /// Appends the word of each record of a task's calls, and 0 for a call without one.
    fn copy_task(&self, pass: &mut L::Pass, task: u32, out: &mut Snapshot)
        requires own { L.sits (lock_of self.now) pass.old }
        requires there { task < length (L.calls_on (lock_of self.now)) }
        requires room { length out.old.recs +
            length (row (L.calls_on (lock_of self.now)) task) ≤ out.old.recs_room }
        ensures on { StepsOn L.sits L.view (lock_of self.now) pass.old pass.new }
        ensures queue { GoesOn (L.spun pass.old) (L.spun pass.new) }
        ensures kept { Looks (L.view pass.old) (L.view pass.new) }
        ensures copied { AddsTaskWords (L.calls_on (lock_of self.now)) (L.view pass.old)
            (L.view pass.new) task out.old out.new }
    {
        for call in 0..self.lock.calls(task) {
            out.push_rec(self.lock.rec_word(pass, task, call));
        }
    }

    /// Copies the guarded words.
    fn copy_state(&self, pass: &mut L::Pass, out: &mut Snapshot)
        requires own { L.sits (lock_of self.now) pass.old }
        requires held { (L.view pass.old).hand.held ≢ No }
        requires sized { length (L.view pass.old).hand.known ≡ O.WORDS }
        requires empty { out.old.state ≡ [] }
        requires room { O.WORDS ≤ out.old.state_room }
        ensures on { StepsOn L.sits L.view (lock_of self.now) pass.old pass.new }
        ensures queue { GoesOn (L.spun pass.old) (L.spun pass.new) }
        ensures kept { Looks (L.view pass.old) (L.view pass.new) }
        ensures copied { out.new ≡ record out.old { state = (L.view pass.old).hand.known } }
    {
        for at in 0..O::WORDS {
            out.push_state(self.lock.word(pass, at));
        }
    }

    /// Does all calls of a task, of which none is done.
    pub fn perform_all<W: Wait, C: Crew, G: Gate>(
        &self,
        rt: &W,
        pass: &mut L::Pass,
        cpu: &mut C::C,
        crew: &C,
        gate: &G,
        task: u32,
    )
        requires own { L.sits (lock_of self.now) pass.old }
        requires there { task < length (L.calls_on (lock_of self.now)) }
        requires numbered { (L.view pass.old).hand.task ≡ Some task }
        requires none_done { (L.view pass.old).hand.done ≡ 0 }
        requires none_seen { length (L.view pass.old).hand.seen ≡ 0 }
        requires out { (L.view pass.old).hand.held ≡ No }
        requires sent { (L.view pass.old).hand.sent ≡ None }
        requires consumed { (L.view pass.old).hand.consumed ≡ 0 }
        ensures on { StepsOn L.sits L.view (lock_of self.now) pass.old pass.new }
        ensures queue { GoesOn (L.spun pass.old) (L.spun pass.new) }
        ensures numbered { (L.view pass.new).hand.task ≡ Some task }
        ensures out { (L.view pass.new).hand.held ≡ No }
        ensures sent { (L.view pass.new).hand.sent ≡ None }
        ensures consumed { (L.view pass.new).hand.consumed ≡ 0 }
        ensures done { HasDoneAll O.object (unavailable L.kind) (L.calls_on (lock_of self.now))
            (L.view pass.new).hand task }
    {
        for call in 0..self.lock.calls(task) {
            self.perform(rt, pass, cpu, crew, gate, call);
        }
    }
}
