//! Calls on an object, under its lock.
ghost use Rattle.std.specs.Prelude.{◌≡◌, ◌≢◌, ◌<◌, true, false, length, None, Some, IsSome, IfOk, IfErr};
ghost use Rattle.word_bits.specs.Calls.{signal_of};
ghost use Rattle.lock_core.specs.Pasts.{GoesOn};
ghost use Rattle.lock_core.specs.Records.{row};
ghost use Rattle.lock_core.specs.Views.{OwesNoSignal, next_entry};
ghost use Rattle.lock_core.specs.Kinds.{shares, unavailable};
ghost use Rattle.lock_core.specs.Shown.{StepsOn};
ghost use Rattle.lock_core.specs.Locking.{Looks, Takes, KeepsPlace, Releases, IsStored, held_by};
ghost use Rattle.guarded.specs.GuardedHandles.{lock_of};
ghost use Rattle.guarded.specs.Performing.{IsNext, SendsNext, Refuses, TalliesCall, TriesOnce, Serves, Performs, Changes, no_word};
ghost use Rattle.guarded.specs.Gathering.{DoesOneMore};
ghost use Rattle.guarded.specs.States.{WasDone, reply_in};
ghost use Rattle.guarded.specs.Types.{Int, Try, No, Alone};

use crate::guarded::Guarded;
use crate::next::Next;
use crate::served::Served;
use cpu_task::{Context, Crew, Gate};
use lock_core::Held;
use sleep_lock::SleepLock;
use std::sync::Wait;
use word_bits::{MAX_TASKS, Mode, Reply};

impl<L: SleepLock<O>, O: Served + Drop> Guarded<L, O> {
    /// Does the next call of the pass's task on the object, and records it: under a shared hold
    /// where it reads, alone where it changes the object. A call that downgrades is recorded while
    /// the pass holds alone, and looks at the object again beside others.
    ///
    /// `Busy` is the reply of a call that doesn't wait, `Intr` of one that a signal interrupted,
    /// and `Sent` of a signal. The pass holds nothing afterwards. The gate is shown a task that
    /// holds; how often, and whether as sharing, no clause says, and tests do.
    pub fn perform<W: Wait, C: Crew, G: Gate>(
        &self,
        rt: &W,
        pass: &mut L::Pass,
        cpu: &mut C::C,
        crew: &C,
        gate: &G,
        call: u32,
    ) -> Reply
        requires own { L.sits (lock_of self.now) pass.old }
        requires numbered { IsSome (L.view pass.old).hand.task }
        requires next { call ≡ (L.view pass.old).hand.done }
        requires there { call <
            length (row (L.calls_on (lock_of self.now)) (next_entry (L.view pass.old).hand).task) }
        requires out { (L.view pass.old).hand.held ≡ No }
        requires sent { (L.view pass.old).hand.sent ≡ None }
        requires consumed { (L.view pass.old).hand.consumed ≡ 0 }
        ensures on { StepsOn L.sits L.view (lock_of self.now) pass.old pass.new }
        ensures queue { GoesOn (L.spun pass.old) (L.spun pass.new) }
        ensures performs { Performs O.object L.kind L.word_at (L.calls_on (lock_of self.now))
            result (L.view pass.old) (L.view pass.new) }
        ensures one_more { DoesOneMore O.object (unavailable L.kind) (L.calls_on (lock_of self.now))
            (L.view pass.old).hand (L.view pass.new).hand }
    {
        let task = match self.lock.task(pass) {
            Some(task) => task,
            None => unreachable!(),
        };
        let words = self.lock.call(pass, task, call);
        match (words.signal(), O::call_of(words)) {
            (Some(target), _) => self.send(pass, call, target),
            (None, Some(known)) => {
                let next = Next {
                    number: call,
                    words,
                    call: known,
                };
                let context = Context { rt, crew, gate };
                self.perform_known(context, pass, cpu, next)
            }
            (None, None) => unreachable!(),
        }
    }

    /// Sends a signal to the target, and records it.
    fn send(&self, pass: &mut L::Pass, call: u32, target: u32) -> Reply
        requires own { L.sits (lock_of self.now) pass.old }
        requires next { SendsNext (L.calls_on (lock_of self.now)) (L.view pass.old).hand target }
        requires call { call ≡ (L.view pass.old).hand.done }
        requires out { (L.view pass.old).hand.held ≡ No }
        requires sent { (L.view pass.old).hand.sent ≡ None }
        requires consumed { (L.view pass.old).hand.consumed ≡ 0 }
        requires there { target < MAX_TASKS }
        ensures on { StepsOn L.sits L.view (lock_of self.now) pass.old pass.new }
        ensures queue { GoesOn (L.spun pass.old) (L.spun pass.new) }
        ensures performs { Performs O.object L.kind L.word_at (L.calls_on (lock_of self.now))
            result (L.view pass.old) (L.view pass.new) }
    {
        self.lock.signal(pass, target);
        // Until its record is there the signal counts as sent by this pass, so none is lost or
        // counted twice whoever consumes it first.
        self.lock.note(pass, call, Reply::Sent);
        Reply::Sent
    }

    /// Does a call of the object, and records it.
    fn perform_known<W: Wait, C: Crew, G: Gate>(
        &self,
        context: Context<'_, W, C, G>,
        pass: &mut L::Pass,
        cpu: &mut C::C,
        next: Next<O::Call>,
    ) -> Reply
        requires own { L.sits (lock_of self.now) pass.old }
        requires next { IsNext O.object (L.calls_on (lock_of self.now))
            (L.view pass.old).hand next }
        requires out { (L.view pass.old).hand.held ≡ No }
        requires sent { (L.view pass.old).hand.sent ≡ None }
        requires consumed { (L.view pass.old).hand.consumed ≡ 0 }
        requires no_signal { signal_of next.words ≡ None }
        ensures on { StepsOn L.sits L.view (lock_of self.now) pass.old pass.new }
        ensures queue { GoesOn (L.spun pass.old) (L.spun pass.new) }
        ensures performs { Performs O.object L.kind L.word_at (L.calls_on (lock_of self.now))
            result (L.view pass.old) (L.view pass.new) }
    {
        let reads = O::reads(next.call);
        match self.enter(context, pass, cpu, next.words.mode(), reads) {
            Err(reply) => {
                self.lock.note(pass, next.number, reply);
                reply
            }
            Ok(()) => {
                if reads {
                    self.serve_reading(context, pass, next)
                } else {
                    self.serve_change(context, pass, next)
                }
            }
        }
    }

    /// Takes the lock as a call of this mode does. `Err` has the reply of one that couldn't have
    /// it.
    fn enter<W: Wait, C: Crew, G>(
        &self,
        context: Context<'_, W, C, G>,
        pass: &mut L::Pass,
        cpu: &mut C::C,
        mode: Mode,
        reads: bool,
    ) -> Result<(), Reply>
        requires own { L.sits (lock_of self.now) pass.old }
        requires numbered { IsSome (L.view pass.old).hand.task }
        requires out { (L.view pass.old).hand.held ≡ No }
        ensures on { StepsOn L.sits L.view (lock_of self.now) pass.old pass.new }
        ensures queue { GoesOn (L.spun pass.old) (L.spun pass.new) }
        ensures took { IfOk result (λ _. Takes O.object (L.calls_on (lock_of self.now))
            (held_by L.kind reads) (L.view pass.old) (L.view pass.new)) }
        ensures counted { IfOk result (λ _.
            TalliesCall false (L.view pass.old) (L.view pass.new)) }
        ensures line { IfOk result (λ _. mode ≢ Try →
            KeepsPlace L.kind reads L.word_at (L.view pass.old) (L.view pass.new)) }
        ensures at_once { mode ≡ Try → TriesOnce (L.view pass.old) (L.view pass.new) }
        ensures refused { IfErr result (λ reply. Refuses L.kind L.word_at mode reads reply
            (L.view pass.old) (L.view pass.new)) }
        ensures stood { IfErr result (λ _. mode ≢ Try →
            KeepsPlace L.kind false L.word_at (L.view pass.old) (L.view pass.new)) }
    {
        match mode {
            Mode::Plain => {
                self.wait(context.rt, pass, cpu, context.crew, reads);
                Ok(())
            }
            Mode::Int => self.wait_int(context.rt, pass, cpu, context.crew, reads),
            Mode::Try => self.try_once(context.rt, pass, reads),
        }
    }

    /// Waits for the lock.
    fn wait<W: Wait, C: Crew>(
        &self,
        rt: &W,
        pass: &mut L::Pass,
        cpu: &mut C::C,
        crew: &C,
        reads: bool,
    )
        requires own { L.sits (lock_of self.now) pass.old }
        requires numbered { IsSome (L.view pass.old).hand.task }
        requires out { (L.view pass.old).hand.held ≡ No }
        ensures on { StepsOn L.sits L.view (lock_of self.now) pass.old pass.new }
        ensures queue { GoesOn (L.spun pass.old) (L.spun pass.new) }
        ensures took { Takes O.object (L.calls_on (lock_of self.now))
            (held_by L.kind reads) (L.view pass.old) (L.view pass.new) }
        ensures counted { TalliesCall false (L.view pass.old) (L.view pass.new) }
        ensures line { KeepsPlace L.kind reads L.word_at (L.view pass.old) (L.view pass.new) }
    {
        if reads {
            self.lock.shared(rt, pass, cpu, crew);
        } else {
            self.lock.alone(rt, pass, cpu, crew);
        }
    }

    /// Waits for the lock until a signal interrupts it.
    fn wait_int<W: Wait, C: Crew>(
        &self,
        rt: &W,
        pass: &mut L::Pass,
        cpu: &mut C::C,
        crew: &C,
        reads: bool,
    ) -> Result<(), Reply>
        requires own { L.sits (lock_of self.now) pass.old }
        requires numbered { IsSome (L.view pass.old).hand.task }
        requires out { (L.view pass.old).hand.held ≡ No }
        ensures on { StepsOn L.sits L.view (lock_of self.now) pass.old pass.new }
        ensures queue { GoesOn (L.spun pass.old) (L.spun pass.new) }
        ensures took { IfOk result (λ _. Takes O.object (L.calls_on (lock_of self.now))
            (held_by L.kind reads) (L.view pass.old) (L.view pass.new)) }
        ensures counted { IfOk result (λ _.
            TalliesCall false (L.view pass.old) (L.view pass.new)) }
        ensures line { IfOk result (λ _.
            KeepsPlace L.kind reads L.word_at (L.view pass.old) (L.view pass.new)) }
        ensures refused { IfErr result (λ reply. Refuses L.kind L.word_at Int reads reply
            (L.view pass.old) (L.view pass.new)) }
        ensures stood { IfErr result (λ _.
            KeepsPlace L.kind false L.word_at (L.view pass.old) (L.view pass.new)) }
    {
        let got = if reads {
            self.lock.shared_int(rt, pass, cpu, crew)
        } else {
            self.lock.alone_int(rt, pass, cpu, crew)
        };
        match got {
            Ok(_) => Ok(()),
            Err(_) => Err(Reply::Intr),
        }
    }

    /// Takes the lock if that is possible at once.
    fn try_once<W: Wait>(&self, rt: &W, pass: &mut L::Pass, reads: bool) -> Result<(), Reply>
        requires own { L.sits (lock_of self.now) pass.old }
        requires numbered { IsSome (L.view pass.old).hand.task }
        requires out { (L.view pass.old).hand.held ≡ No }
        ensures on { StepsOn L.sits L.view (lock_of self.now) pass.old pass.new }
        ensures queue { GoesOn (L.spun pass.old) (L.spun pass.new) }
        ensures took { IfOk result (λ _. Takes O.object (L.calls_on (lock_of self.now))
            (held_by L.kind reads) (L.view pass.old) (L.view pass.new)) }
        ensures counted { IfOk result (λ _.
            TalliesCall false (L.view pass.old) (L.view pass.new)) }
        ensures refused { IfErr result (λ reply. Refuses L.kind L.word_at Try reads reply
            (L.view pass.old) (L.view pass.new)) }
        ensures at_once { TriesOnce (L.view pass.old) (L.view pass.new) }
    {
        let got = if reads {
            self.lock.try_shared(rt, pass)
        } else {
            self.lock.try_alone(rt, pass)
        };
        match got {
            Ok(()) => Ok(()),
            Err(word) => Err(Reply::Busy(word)),
        }
    }

    /// Does a call that reads, with the lock held, and lets go.
    fn serve_reading<W: Wait, C: Crew, G: Gate>(
        &self,
        context: Context<'_, W, C, G>,
        pass: &mut L::Pass,
        next: Next<O::Call>,
    ) -> Reply
        requires own { L.sits (lock_of self.now) pass.old }
        requires held { (L.view pass.old).hand.held ≡ shares L.kind }
        requires quiet { (L.view pass.old).hand.writes ≡ false }
        requires stored { IsStored O.object (L.calls_on (lock_of self.now))
            (L.view pass.old).hand }
        requires recorded { OwesNoSignal (L.view pass.old).hand }
        requires next { IsNext O.object (L.calls_on (lock_of self.now))
            (L.view pass.old).hand next }
        requires reads { O.object.reads next.call ≡ true }
        ensures on { StepsOn L.sits L.view (lock_of self.now) pass.old pass.new }
        ensures queue { GoesOn (L.spun pass.old) (L.spun pass.new) }
        ensures served { Serves O.object L.kind (L.calls_on (lock_of self.now)) next.words result
            (L.view pass.old) (L.view pass.new) }
    {
        let Context { rt, crew, .. } = context;
        self.show(context, pass, self.lock.held(pass));
        let reply = O::look(&self.lock, pass, next.call);
        // Recorded before the hold ends: no change can come between the call and its place in the
        // log.
        self.lock.note(pass, next.number, reply);
        self.lock.release_shared(rt, pass, crew);
        reply
    }

    /// Does a call that changes the object, with the lock held alone, and lets go.
    fn serve_change<W: Wait, C: Crew, G: Gate>(
        &self,
        context: Context<'_, W, C, G>,
        pass: &mut L::Pass,
        next: Next<O::Call>,
    ) -> Reply
        requires own { L.sits (lock_of self.now) pass.old }
        requires held { (L.view pass.old).hand.held ≡ Alone }
        requires quiet { (L.view pass.old).hand.writes ≡ false }
        requires stored { IsStored O.object (L.calls_on (lock_of self.now))
            (L.view pass.old).hand }
        requires recorded { OwesNoSignal (L.view pass.old).hand }
        requires next { IsNext O.object (L.calls_on (lock_of self.now))
            (L.view pass.old).hand next }
        requires changes { O.object.reads next.call ≡ false }
        ensures on { StepsOn L.sits L.view (lock_of self.now) pass.old pass.new }
        ensures queue { GoesOn (L.spun pass.old) (L.spun pass.new) }
        ensures served { Serves O.object L.kind (L.calls_on (lock_of self.now)) next.words result
            (L.view pass.old) (L.view pass.new) }
    {
        let reply = self.change(pass, next);
        if O::downgrades(next.call) {
            self.look_again(context, pass, next.call, reply)
        } else {
            self.show(context, pass, Held::Alone);
            self.lock.release_alone(context.rt, pass, context.crew);
            reply
        }
    }

    /// Looks at what a call has just changed, beside others that look, and lets go. The reply is
    /// the one that the call had.
    fn look_again<W: Wait, C: Crew, G: Gate>(
        &self,
        context: Context<'_, W, C, G>,
        pass: &mut L::Pass,
        known: O::Call,
        reply: Reply,
    ) -> Reply
        requires own { L.sits (lock_of self.now) pass.old }
        requires held { (L.view pass.old).hand.held ≡ Alone }
        requires quiet { (L.view pass.old).hand.writes ≡ false }
        requires stored { IsStored O.object (L.calls_on (lock_of self.now))
            (L.view pass.old).hand }
        requires valid { O.object.IsCall known }
        requires downgrades { O.downgrades known ≡ true }
        requires done { WasDone O.object (L.calls_on (lock_of self.now))
            (L.view pass.old).hand known reply }
        ensures on { StepsOn L.sits L.view (lock_of self.now) pass.old pass.new }
        ensures queue { GoesOn (L.spun pass.old) (L.spun pass.new) }
        ensures reply { result ≡ reply }
        ensures released { Releases no_word (L.view pass.old) (L.view pass.new) }
    {
        let Context { rt, crew, .. } = context;
        // No moment without the lock: another change could come in between, and the pages that are
        // counted would not be those that the call left.
        self.lock.downgrade(rt, pass, crew);
        self.show(context, pass, self.lock.held(pass));
        let found = self.found(pass, known, reply);
        self.lock.release_shared(rt, pass, crew);
        found
    }

    /// What a call finds that has just replied so. A refused one doesn't look.
    fn found(&self, pass: &mut L::Pass, known: O::Call, reply: Reply) -> Reply
        requires own { L.sits (lock_of self.now) pass.old }
        requires held { (L.view pass.old).hand.held ≢ No }
        requires stored { IsStored O.object (L.calls_on (lock_of self.now))
            (L.view pass.old).hand }
        requires valid { O.object.IsCall known }
        requires downgrades { O.downgrades known ≡ true }
        requires done { WasDone O.object (L.calls_on (lock_of self.now))
            (L.view pass.old).hand known reply }
        ensures on { StepsOn L.sits L.view (lock_of self.now) pass.old pass.new }
        ensures queue { GoesOn (L.spun pass.old) (L.spun pass.new) }
        ensures kept { Looks (L.view pass.old) (L.view pass.new) }
        ensures reply { result ≡ reply }
    {
        match reply {
            Reply::Refused(_) => reply,
            _ => O::look(&self.lock, pass, known),
        }
    }

    /// Does a call that changes the object, and records it.
    fn change(&self, pass: &mut L::Pass, next: Next<O::Call>) -> Reply
        requires own { L.sits (lock_of self.now) pass.old }
        requires held { (L.view pass.old).hand.held ≡ Alone }
        requires stored { IsStored O.object (L.calls_on (lock_of self.now))
            (L.view pass.old).hand }
        requires recorded { OwesNoSignal (L.view pass.old).hand }
        requires next { IsNext O.object (L.calls_on (lock_of self.now))
            (L.view pass.old).hand next }
        requires changes { O.object.reads next.call ≡ false }
        ensures on { StepsOn L.sits L.view (lock_of self.now) pass.old pass.new }
        ensures queue { GoesOn (L.spun pass.old) (L.spun pass.new) }
        ensures reply { result ≡ reply_in O.object (L.calls_on (lock_of self.now))
            (L.view pass.old).hand next.call }
        ensures kept { Changes O.object (L.calls_on (lock_of self.now)) next.call result
            (L.view pass.old) (L.view pass.new) }
    {
        let reply = O::change(&self.lock, pass, next.call);
        // The words and the log change under one hold, so whoever holds next finds that they agree.
        self.lock.commit(pass, next.number, reply);
        reply
    }

    /// Lets the gate see the task, which holds in this way.
    fn show<W: Wait, C, G: Gate>(&self, context: Context<'_, W, C, G>, pass: &L::Pass, how: Held)
        requires own { L.sits (lock_of self.now) pass.now }
        requires held { (L.view pass.now).hand.held ≡ how }
        requires inside { how ≢ No }
    {
        if let Some(task) = self.lock.task(pass) {
            let Context { rt, gate, .. } = context;
            gate.inside(rt, self.object, task, how == Held::Shared);
        }
    }
}
