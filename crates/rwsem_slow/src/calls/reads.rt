//! The calls that take a semaphore shared.
ghost use Rattle.std.specs.Prelude.{◌≡◌, true, false, Ok, IfErr, IfOk, IsSome};
ghost use Rattle.lock_core.specs.Kinds.{semaphore};
ghost use Rattle.lock_core.specs.Locking.{Got, Interrupts, KeepsPlace, TalliesLock};
ghost use Rattle.sleep_lock.specs.Leaving.{LeavesForCpu};
ghost use Rattle.rwsem_wake.specs.RwSemViews.{count_at};
ghost use Rattle.rwsem_slow.specs.RwSemHandles.{shown_of, dozes_in, hand_in, SitsAt, SpunGoesOn, TakesShared, StepsOn};
ghost use Rattle.cpu_task.specs.CpuCounting.{Dozes};
ghost use Rattle.rwsem_slow.specs.SleepCounting.{CountsReading, SleepsBetween};
ghost use Rattle.rwsem_slow.specs.RwSemOpening.{EntersOpen};
ghost use Rattle.rwsem_slow.specs.Types.{Fast, No};

use super::{RwPass, RwSem};
use crate::reader::read_slowly;
use cpu_task::Crew;
use lock_core::{How, Interrupted};
use rwsem_count::steps;
use rwsem_wake::hint::note_reader;
use std::sync::Wait;
use word_bits::Object;

impl<O: Object> RwSem<O> {
    /// Waits until the pass holds shared. The kernel's `down_read`.
    pub fn down_read<W: Wait, C: Crew>(
        &self,
        rt: &W,
        pass: &mut RwPass<O>,
        cpu: &mut C::C,
        crew: &C,
    ) -> How
        requires own { SitsAt self.now pass.old }
        requires numbered { IsSome (hand_in pass.old).task }
        requires out { (hand_in pass.old).held ≡ No }
        ensures on { StepsOn self.now pass.old pass.new }
        ensures queue { SpunGoesOn pass.old pass.new }
        ensures dozed { Dozes (C.C.sleeps cpu.old) (C.C.sleeps cpu.new)
            (dozes_in pass.old) (dozes_in pass.new) }
        ensures took { TakesShared O.object self.now pass.old pass.new }
        ensures opened { result ≡ Fast → EntersOpen (shown_of pass.old) (shown_of pass.new) }
        ensures how { Got result (shown_of pass.old) (shown_of pass.new) }
        ensures line { KeepsPlace semaphore true count_at (shown_of pass.old) (shown_of pass.new) }
        ensures counts { CountsReading result (C.C.sleeps cpu.old) (C.C.sleeps cpu.new)
            (C.C.rescheds cpu.old) (C.C.rescheds cpu.new) (shown_of pass.old) (shown_of pass.new) }
        ensures tallied { TalliesLock (Ok result) (shown_of pass.old) (shown_of pass.new) }
        ensures left { LeavesForCpu (C.C.rescheds cpu.old) (C.C.rescheds cpu.new)
            (shown_of pass.old) (shown_of pass.new) }
    {
        match self.read_common(rt, pass, cpu, crew, false) {
            Ok(how) => how,
            Err(_) => unreachable!(),
        }
    }

    /// As `down_read`, until a signal interrupts it: the pass then holds nothing, waits in no list,
    /// and has consumed one signal. A reader that is granted first holds, and its signal stays. The
    /// kernel's `down_read_interruptible`.
    pub fn down_read_interruptible<W: Wait, C: Crew>(
        &self,
        rt: &W,
        pass: &mut RwPass<O>,
        cpu: &mut C::C,
        crew: &C,
    ) -> Result<How, Interrupted>
        requires own { SitsAt self.now pass.old }
        requires numbered { IsSome (hand_in pass.old).task }
        requires out { (hand_in pass.old).held ≡ No }
        ensures on { StepsOn self.now pass.old pass.new }
        ensures queue { SpunGoesOn pass.old pass.new }
        ensures dozed { Dozes (C.C.sleeps cpu.old) (C.C.sleeps cpu.new)
            (dozes_in pass.old) (dozes_in pass.new) }
        ensures took { IfOk result (λ _. TakesShared O.object self.now pass.old pass.new) }
        ensures opened { IfOk result (λ how. how ≡ Fast →
            EntersOpen (shown_of pass.old) (shown_of pass.new)) }
        ensures how { IfOk result (λ how. Got how (shown_of pass.old) (shown_of pass.new)) }
        ensures line { IfOk result (λ _. KeepsPlace semaphore true count_at
            (shown_of pass.old) (shown_of pass.new)) }
        ensures interrupted { IfErr result (λ why. Interrupts semaphore true count_at why
            (shown_of pass.old) (shown_of pass.new)) }
        ensures stood { IfErr result (λ _. KeepsPlace semaphore false count_at
            (shown_of pass.old) (shown_of pass.new)) }
        ensures counts { IfOk result (λ how. CountsReading how
            (C.C.sleeps cpu.old) (C.C.sleeps cpu.new)
            (C.C.rescheds cpu.old) (C.C.rescheds cpu.new)
            (shown_of pass.old) (shown_of pass.new)) }
        ensures slept { IfErr result (λ _.
            SleepsBetween (shown_of pass.old).steps (shown_of pass.new).steps
            (C.C.sleeps cpu.old) (C.C.sleeps cpu.new)) }
        ensures unasked { IfErr result (λ _. C.C.rescheds cpu.new ≡ C.C.rescheds cpu.old) }
        ensures tallied { TalliesLock result (shown_of pass.old) (shown_of pass.new) }
        ensures left { LeavesForCpu (C.C.rescheds cpu.old) (C.C.rescheds cpu.new)
            (shown_of pass.old) (shown_of pass.new) }
    {
        self.read_common(rt, pass, cpu, crew, true)
    }

    /// Waits until the pass holds shared, or, where it is interruptible, until a signal interrupts
    /// it. It takes it by one addition, at once or beside waiters, or by way of the wait lock. The
    /// kernel's `__down_read_common`.
    fn read_common<W: Wait, C: Crew>(
        &self,
        rt: &W,
        pass: &mut RwPass<O>,
        cpu: &mut C::C,
        crew: &C,
        interruptible: bool,
    ) -> Result<How, Interrupted>
        requires own { SitsAt self.now pass.old }
        requires numbered { IsSome (hand_in pass.old).task }
        requires out { (hand_in pass.old).held ≡ No }
        ensures on { StepsOn self.now pass.old pass.new }
        ensures queue { SpunGoesOn pass.old pass.new }
        ensures dozed { Dozes (C.C.sleeps cpu.old) (C.C.sleeps cpu.new)
            (dozes_in pass.old) (dozes_in pass.new) }
        ensures took { IfOk result (λ _. TakesShared O.object self.now pass.old pass.new) }
        ensures opened { IfOk result (λ how. how ≡ Fast →
            EntersOpen (shown_of pass.old) (shown_of pass.new)) }
        ensures how { IfOk result (λ how. Got how (shown_of pass.old) (shown_of pass.new)) }
        ensures line { IfOk result (λ _. KeepsPlace semaphore true count_at
            (shown_of pass.old) (shown_of pass.new)) }
        ensures interrupted { IfErr result (λ why. Interrupts semaphore true count_at why
            (shown_of pass.old) (shown_of pass.new)) }
        ensures stood { IfErr result (λ _. KeepsPlace semaphore false count_at
            (shown_of pass.old) (shown_of pass.new)) }
        ensures asked { IfErr result (λ _. interruptible ≡ true) }
        ensures counts { IfOk result (λ how. CountsReading how
            (C.C.sleeps cpu.old) (C.C.sleeps cpu.new)
            (C.C.rescheds cpu.old) (C.C.rescheds cpu.new)
            (shown_of pass.old) (shown_of pass.new)) }
        ensures slept { IfErr result (λ _.
            SleepsBetween (shown_of pass.old).steps (shown_of pass.new).steps
            (C.C.sleeps cpu.old) (C.C.sleeps cpu.new)) }
        ensures unasked { IfErr result (λ _. C.C.rescheds cpu.new ≡ C.C.rescheds cpu.old) }
        ensures tallied { TalliesLock result (shown_of pass.old) (shown_of pass.new) }
        ensures left { LeavesForCpu (C.C.rescheds cpu.old) (C.C.rescheds cpu.new)
            (shown_of pass.old) (shown_of pass.new) }
    {
        match steps::read_add(&self.site, &mut pass.pass) {
            Ok(()) => {
                note_reader(&self.site, &mut pass.pass);
                Ok(How::Fast)
            }
            Err(left) => {
                let got = read_slowly(
                    &self.site,
                    rt,
                    &mut pass.pass,
                    cpu,
                    crew,
                    left,
                    &mut pass.counts,
                    interruptible,
                );
                pass.tally.answer(got);
                got
            }
        }
    }
}
