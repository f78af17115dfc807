//! The releases of a semaphore, and downgrades.
ghost use Rattle.std.specs.Prelude.{◌≡◌, false};
ghost use Rattle.lock_core.specs.Kinds.{semaphore, wakes_alone, wakes_down, wakes_shared};
ghost use Rattle.lock_core.specs.Locking.{Downgrades, Releases};
ghost use Rattle.rwsem_slow.specs.RwSemHandles.{shown_of, dozes_in, hand_in, wakes_in, SitsAt, SpunGoesOn, StepsOn};
ghost use Rattle.rwsem_slow.specs.Releasing.{LeavesCount};
ghost use Rattle.rwsem_slow.specs.Types.{No, Shared, Alone};
ghost use Rattle.rwsem_slow.specs.Waking.{WakesIf};

use super::{RwPass, RwSem};
use crate::release;
use cpu_task::Crew;
use rwsem_wake::wake::WakeType;
use std::sync::Wait;
use word_bits::Object;

impl<O: Object> RwSem<O> {
    /// Ends the pass's shared hold. If it leaves nobody who holds, and tasks wait, it looks for the
    /// first of them and wakes that one, with a reader the batch: at most 256 readers. If its look at
    /// the count finds a writer, it wakes no reader. The kernel's `up_read`.
    pub fn up_read<W: Wait, C: Crew>(&self, rt: &W, pass: &mut RwPass<O>, crew: &C)
        requires own { SitsAt self.now pass.old }
        requires held { (hand_in pass.old).held ≡ Shared }
        ensures on { StepsOn self.now pass.old pass.new }
        ensures queue { SpunGoesOn pass.old pass.new }
        ensures dozes { dozes_in pass.new ≡ dozes_in pass.old }
        ensures released { Releases (wakes_shared semaphore)
            (shown_of pass.old) (shown_of pass.new) }
        ensures left { LeavesCount (wakes_shared semaphore) No 256 0
            (shown_of pass.old) (shown_of pass.new) }
        ensures woken { WakesIf (wakes_shared semaphore) No WakeType.Any
            (wakes_in pass.old) (wakes_in pass.new) (shown_of pass.old) (shown_of pass.new) }
    {
        release::up_read(&self.site, rt, &mut pass.pass, crew, &mut pass.counts);
    }

    /// Ends the pass's exclusive hold. If tasks wait, it looks for the first of them and wakes that
    /// one, with a reader the batch: at most 256 readers. If its look at the count finds a writer, it
    /// wakes no reader. The kernel's `up_write`.
    pub fn up_write<W: Wait, C: Crew>(&self, rt: &W, pass: &mut RwPass<O>, crew: &C)
        requires own { SitsAt self.now pass.old }
        requires held { (hand_in pass.old).held ≡ Alone }
        requires quiet { (hand_in pass.old).writes ≡ false }
        ensures on { StepsOn self.now pass.old pass.new }
        ensures dozes { dozes_in pass.new ≡ dozes_in pass.old }
        ensures queue { SpunGoesOn pass.old pass.new }
        ensures released { Releases (wakes_alone semaphore)
            (shown_of pass.old) (shown_of pass.new) }
        ensures left { LeavesCount (wakes_alone semaphore) No 1 0
            (shown_of pass.old) (shown_of pass.new) }
        ensures woken { WakesIf (wakes_alone semaphore) No WakeType.Any
            (wakes_in pass.old) (wakes_in pass.new) (shown_of pass.old) (shown_of pass.new) }
    {
        release::up_write(&self.site, rt, &mut pass.pass, crew, &mut pass.counts);
    }

    /// Turns the pass's exclusive hold into a shared one. If a reader waits first, it lets the
    /// batch in: at most 256 readers. The kernel's `downgrade_write`.
    pub fn downgrade_write<W: Wait, C: Crew>(&self, rt: &W, pass: &mut RwPass<O>, crew: &C)
        requires own { SitsAt self.now pass.old }
        requires held { (hand_in pass.old).held ≡ Alone }
        requires quiet { (hand_in pass.old).writes ≡ false }
        ensures on { StepsOn self.now pass.old pass.new }
        ensures queue { SpunGoesOn pass.old pass.new }
        ensures dozes { dozes_in pass.new ≡ dozes_in pass.old }
        ensures downgraded { Downgrades semaphore (shown_of pass.old) (shown_of pass.new) }
        ensures left { LeavesCount (wakes_down semaphore) Shared 0 255
            (shown_of pass.old) (shown_of pass.new) }
        ensures woken { WakesIf (wakes_down semaphore) Shared WakeType.ReadOwned
            (wakes_in pass.old) (wakes_in pass.new) (shown_of pass.old) (shown_of pass.new) }
    {
        release::downgrade_write(&self.site, rt, &mut pass.pass, crew, &mut pass.counts);
    }
}
