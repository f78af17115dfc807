//! The calls that take a semaphore alone.
ghost use Rattle.std.specs.Prelude.{◌≡◌, ◌≤◌, ◌+◌, Bool, true, false, Ok, IfErr, IfOk, IsSome};
ghost use Rattle.lock_core.specs.Kinds.{semaphore};
ghost use Rattle.lock_core.specs.Locking.{Got, Interrupts, KeepsPlace, OnlyTried, TalliesLock, TalliesSpin};
ghost use Rattle.sleep_lock.specs.Leaving.{LeavesForCpu};
ghost use Rattle.rwsem_wake.specs.RwSemViews.{count_at};
ghost use Rattle.rwsem_slow.specs.RwSemHandles.{shown_of, dozes_in, hand_in, KeepsFronts, KeepsMisses, KeepsWakes, SitsAt, SpunGoesOn, TakesAlone, StepsOn};
ghost use Rattle.cpu_task.specs.CpuCounting.{Dozes};
ghost use Rattle.rwsem_slow.specs.SleepCounting.{CountsLeaving, CountsWriting};
ghost use Rattle.rwsem_slow.specs.RwSemOpening.{TakesOpen};
ghost use Rattle.rwsem_slow.specs.Spinning.{SawIfTried};
ghost use Rattle.rwsem_slow.specs.Types.{Spun, No};

use super::{RwPass, RwSem};
use crate::writer::{spin, write_in_line};
use cpu_task::{Cpu, Crew};
use lock_core::{How, Interrupted};
use rwsem_count::steps;
use rwsem_wake::hint::{is_reader_owned, note_writer};
use std::sync::Wait;
use word_bits::Object;

impl<O: Object> RwSem<O> {
    /// Waits until the pass holds alone. The kernel's `down_write`.
    pub fn down_write<W: Wait, C: Crew>(
        &self,
        rt: &W,
        pass: &mut RwPass<O>,
        cpu: &mut C::C,
        crew: &C,
    ) -> How
        requires own { SitsAt self.now pass.old }
        requires numbered { IsSome (hand_in pass.old).task }
        requires out { (hand_in pass.old).held ≡ No }
        ensures on { StepsOn self.now pass.old pass.new }
        ensures dozed { Dozes (C.C.sleeps cpu.old) (C.C.sleeps cpu.new)
            (dozes_in pass.old) (dozes_in pass.new) }
        ensures queue { SpunGoesOn pass.old pass.new }
        ensures took { TakesAlone O.object self.now pass.old pass.new }
        ensures opened { TakesOpen result (shown_of pass.old) (shown_of pass.new) }
        ensures how { Got result (shown_of pass.old) (shown_of pass.new) }
        ensures line { (shared : Bool) → KeepsPlace semaphore shared count_at
            (shown_of pass.old) (shown_of pass.new) }
        ensures counts { CountsWriting result (C.C.sleeps cpu.old) (C.C.sleeps cpu.new)
            (C.C.rescheds cpu.old) (C.C.rescheds cpu.new) (shown_of pass.old) (shown_of pass.new) }
        ensures tallied { TalliesLock (Ok result) (shown_of pass.old) (shown_of pass.new) }
        ensures left { LeavesForCpu (C.C.rescheds cpu.old) (C.C.rescheds cpu.new)
            (shown_of pass.old) (shown_of pass.new) }
    {
        match self.write_common(rt, pass, cpu, crew, false) {
            Ok(how) => how,
            Err(_) => unreachable!(),
        }
    }

    /// As `down_write`, until a signal interrupts it: the pass then holds nothing, waits in no
    /// list, and has consumed one signal. As the kernel's `down_write_killable`, for any signal.
    pub fn down_write_interruptible<W: Wait, C: Crew>(
        &self,
        rt: &W,
        pass: &mut RwPass<O>,
        cpu: &mut C::C,
        crew: &C,
    ) -> Result<How, Interrupted>
        requires own { SitsAt self.now pass.old }
        requires numbered { IsSome (hand_in pass.old).task }
        requires out { (hand_in pass.old).held ≡ No }
        ensures on { StepsOn self.now pass.old pass.new }
        ensures dozed { Dozes (C.C.sleeps cpu.old) (C.C.sleeps cpu.new)
            (dozes_in pass.old) (dozes_in pass.new) }
        ensures queue { SpunGoesOn pass.old pass.new }
        ensures took { IfOk result (λ _. TakesAlone O.object self.now pass.old pass.new) }
        ensures opened { IfOk result (λ how.
            TakesOpen how (shown_of pass.old) (shown_of pass.new)) }
        ensures how { IfOk result (λ how. Got how (shown_of pass.old) (shown_of pass.new)) }
        ensures interrupted { IfErr result (λ why. Interrupts semaphore false count_at why
            (shown_of pass.old) (shown_of pass.new)) }
        ensures line { (shared : Bool) → KeepsPlace semaphore shared count_at
            (shown_of pass.old) (shown_of pass.new) }
        ensures counts { IfOk result (λ how. CountsWriting how
            (C.C.sleeps cpu.old) (C.C.sleeps cpu.new)
            (C.C.rescheds cpu.old) (C.C.rescheds cpu.new)
            (shown_of pass.old) (shown_of pass.new)) }
        ensures slept { IfErr result (λ _. CountsLeaving (C.C.sleeps cpu.old) (C.C.sleeps cpu.new)
            (C.C.rescheds cpu.old) (C.C.rescheds cpu.new)
            (shown_of pass.old) (shown_of pass.new)) }
        ensures tallied { TalliesLock result (shown_of pass.old) (shown_of pass.new) }
        ensures left { LeavesForCpu (C.C.rescheds cpu.old) (C.C.rescheds cpu.new)
            (shown_of pass.old) (shown_of pass.new) }
    {
        self.write_common(rt, pass, cpu, crew, true)
    }

    /// Spins in the queue of those that do, and as its head until a try takes, readers hold by the
    /// owner hint, or the CPU needs rescheduling. The kernel's `rwsem_can_spin_on_owner` and
    /// `rwsem_optimistic_spin`.
    fn spin<W: Wait, C: Cpu>(&self, rt: &W, pass: &mut RwPass<O>, cpu: &mut C) -> bool
        requires own { SitsAt self.now pass.old }
        requires numbered { IsSome (hand_in pass.old).task }
        requires out { (hand_in pass.old).held ≡ No }
        ensures on { StepsOn self.now pass.old pass.new }
        ensures still { KeepsWakes pass.old pass.new }
        ensures queue { SpunGoesOn pass.old pass.new }
        ensures numbered { (hand_in pass.new).task ≡ (hand_in pass.old).task }
        ensures line { (shown_of pass.new).line ≡ (shown_of pass.old).line }
        ensures took { result ≡ true → TakesAlone O.object self.now pass.old pass.new }
        ensures opened { result ≡ true → TakesOpen Spun (shown_of pass.old) (shown_of pass.new) }
        ensures front { result ≡ true →
            ((shown_of pass.new).fronts ≡ (shown_of pass.old).fronts + 1) }
        ensures missed { result ≡ false → OnlyTried (shown_of pass.old) (shown_of pass.new) }
        ensures saw { result ≡ false → SawIfTried (shown_of pass.old) (shown_of pass.new) }
        ensures out { result ≡ false → (hand_in pass.new).held ≡ No }
        ensures stood { result ≡ false → KeepsFronts pass.old pass.new →
            KeepsMisses pass.old pass.new }
        ensures entries { (shown_of pass.new).spin.entries ≡ (shown_of pass.old).spin.entries }
        ensures sleeps { C.sleeps cpu.new ≡ C.sleeps cpu.old }
        ensures rescheds { C.rescheds cpu.old ≤ C.rescheds cpu.new }
        ensures tallied { TalliesSpin (shown_of pass.old) (shown_of pass.new) }
        ensures left { LeavesForCpu (C.rescheds cpu.old) (C.rescheds cpu.new)
            (shown_of pass.old) (shown_of pass.new) }
    {
        if cpu.need_resched() {
            return false;
        }
        if is_reader_owned(&self.site, &mut pass.pass) {
            return false;
        }
        // One spinner at a time tries: the others spin on words of their own.
        if !osq_unqueue::lock(&self.osq, rt, &mut pass.queue, cpu) {
            pass.tally.leave();
            return false;
        }
        let took = spin::spin(&self.site, rt, &mut pass.pass, &pass.queue, cpu);
        self.osq.unlock(rt, &mut pass.queue);
        took
    }

    /// Waits until the pass holds alone, or, where it is interruptible, until a signal interrupts
    /// it. It takes it by one exchange, as a spinner, or by way of the list. The kernel's
    /// `__down_write_common`.
    fn write_common<W: Wait, C: Crew>(
        &self,
        rt: &W,
        pass: &mut RwPass<O>,
        cpu: &mut C::C,
        crew: &C,
        interruptible: bool,
    ) -> Result<How, Interrupted>
        requires own { SitsAt self.now pass.old }
        requires numbered { IsSome (hand_in pass.old).task }
        requires out { (hand_in pass.old).held ≡ No }
        ensures on { StepsOn self.now pass.old pass.new }
        ensures dozed { Dozes (C.C.sleeps cpu.old) (C.C.sleeps cpu.new)
            (dozes_in pass.old) (dozes_in pass.new) }
        ensures queue { SpunGoesOn pass.old pass.new }
        ensures took { IfOk result (λ _. TakesAlone O.object self.now pass.old pass.new) }
        ensures opened { IfOk result (λ how.
            TakesOpen how (shown_of pass.old) (shown_of pass.new)) }
        ensures how { IfOk result (λ how. Got how (shown_of pass.old) (shown_of pass.new)) }
        ensures interrupted { IfErr result (λ why. Interrupts semaphore false count_at why
            (shown_of pass.old) (shown_of pass.new)) }
        ensures asked { IfErr result (λ _. interruptible ≡ true) }
        ensures line { (shared : Bool) → KeepsPlace semaphore shared count_at
            (shown_of pass.old) (shown_of pass.new) }
        ensures counts { IfOk result (λ how. CountsWriting how
            (C.C.sleeps cpu.old) (C.C.sleeps cpu.new)
            (C.C.rescheds cpu.old) (C.C.rescheds cpu.new)
            (shown_of pass.old) (shown_of pass.new)) }
        ensures slept { IfErr result (λ _. CountsLeaving (C.C.sleeps cpu.old) (C.C.sleeps cpu.new)
            (C.C.rescheds cpu.old) (C.C.rescheds cpu.new)
            (shown_of pass.old) (shown_of pass.new)) }
        ensures tallied { TalliesLock result (shown_of pass.old) (shown_of pass.new) }
        ensures left { LeavesForCpu (C.C.rescheds cpu.old) (C.C.rescheds cpu.new)
            (shown_of pass.old) (shown_of pass.new) }
    {
        let Err(_) = steps::write_try(&self.site, &mut pass.pass) else {
            note_writer(&self.site, &mut pass.pass);
            return Ok(How::Fast);
        };
        if self.spin(rt, pass, cpu) {
            return Ok(How::Spun);
        }
        let got = write_in_line(
            &self.site,
            rt,
            &mut pass.pass,
            cpu,
            crew,
            &mut pass.counts,
            interruptible,
        );
        pass.tally.answer(got);
        got
    }
}
