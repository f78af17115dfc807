//! The ends of holds of a semaphore, and downgrades.
ghost use Rattle.std.specs.Prelude.{◌≡◌, ◌↔◌, IsTrue, false, IsSome};
ghost use Rattle.lock_core.specs.SiteHandles.{view_of, hand_in, task_in, held_in, SitsAt, MovesOn};
ghost use Rattle.lock_core.specs.Kinds.{semaphore, wakes_alone, wakes_down, wakes_shared};
ghost use Rattle.lock_core.specs.Locking.{Downgrades, Releases};
ghost use Rattle.lock_core.specs.Views.{SpinRests};
ghost use Rattle.rwsem_wake.specs.RwSemPlaces.{AreCounts, IsOutside, MayOwe, dozes_of, seen_of};
ghost use Rattle.rwsem_slow.specs.Releasing.{LeavesCount, WentThrough};
ghost use Rattle.rwsem_slow.specs.Types.{No, Shared, Alone};
ghost use Rattle.rwsem_slow.specs.Waking.{WakesIf, WakesWaiting};
ghost use Rattle.rwsem_wake.specs.RwSemWakes.{MayWake};

use crate::SemRule;
use cpu_task::Crew;
use lock_core::{Pass, Site};
use rwsem_count::{has_waiters, is_locked, steps};
use rwsem_wake::hint::{NOBODY, reader_hint, set_hint};
use rwsem_wake::wake::{WakeType, wake, wake_tasks};
use rwsem_wake::{Endless, WakeCounts, Woken};
use std::sync::Wait;
use word_bits::Object;

/// Whether the count says that tasks wait, and that nobody holds who would wake them later.
fn is_left_to_waiters(count: u64) -> bool
    ensures { IsTrue result ↔ wakes_shared semaphore count }
{
    has_waiters(count) && !is_locked(count)
}

/// Takes the wait lock, and wakes waiters. The kernel's `rwsem_wake` and `rwsem_downgrade_wake`.
pub(crate) fn wake_waiters<O: Object, W: Wait, C: Crew>(
    site: &Site<SemRule<O>>,
    rt: &W,
    pass: &mut Pass<SemRule<O>>,
    crew: &C,
    counts: &mut WakeCounts,
    kind: WakeType,
)
    requires own { SitsAt site.now pass.old }
    requires numbered { IsSome (task_in pass.old) }
    requires unspun { SpinRests (view_of pass.old).spin }
    requires outside { MayOwe (view_of pass.old) }
    requires may { MayWake kind (view_of pass.old) }
    requires counted { AreCounts counts.old (view_of pass.old) }
    ensures on { MovesOn site.now pass.old pass.new }
    ensures unspun { SpinRests (view_of pass.new).spin }
    ensures outside { IsOutside (view_of pass.new) }
    ensures went { WentThrough (view_of pass.old) (view_of pass.new) }
    ensures woken { WakesWaiting kind counts.old.wakes counts.new.wakes
        (seen_of pass.old) (seen_of pass.new) }
    ensures counted { AreCounts counts.new (view_of pass.new) }
    ensures dozes { dozes_of (view_of pass.new) ≡ dozes_of (view_of pass.old) }
{
    let mut woken = Woken::Nobody;
    qspin_queue::lock(site, rt, pass);
    wake(site, pass, kind, &mut Endless, &mut woken);
    qspin_word::unlock(site, pass);
    wake_tasks(site, pass, crew, counts, woken.tasks());
}

/// Ends the pass's shared hold. The kernel's `__up_read`.
pub fn up_read<O: Object, W: Wait, C: Crew>(
    site: &Site<SemRule<O>>,
    rt: &W,
    pass: &mut Pass<SemRule<O>>,
    crew: &C,
    counts: &mut WakeCounts,
)
    requires own { SitsAt site.now pass.old }
    requires numbered { IsSome (task_in pass.old) }
    requires holds { held_in pass.old ≡ Shared }
    requires quiet { (hand_in pass.old).writes ≡ false }
    requires unspun { SpinRests (view_of pass.old).spin }
    requires outside { IsOutside (view_of pass.old) }
    requires counted { AreCounts counts.old (view_of pass.old) }
    ensures on { MovesOn site.now pass.old pass.new }
    ensures unspun { SpinRests (view_of pass.new).spin }
    ensures outside { IsOutside (view_of pass.new) }
    ensures released { Releases (wakes_shared semaphore) (seen_of pass.old) (seen_of pass.new) }
    ensures left { LeavesCount (wakes_shared semaphore) No 256 0
        (seen_of pass.old) (seen_of pass.new) }
    ensures woken { WakesIf (wakes_shared semaphore) No WakeType.Any
        counts.old.wakes counts.new.wakes (seen_of pass.old) (seen_of pass.new) }
    ensures counted { AreCounts counts.new (view_of pass.new) }
    ensures dozes { dozes_of (view_of pass.new) ≡ dozes_of (view_of pass.old) }
{
    let left = steps::up_read(site, pass);
    // The last reader alone wakes, which it learns from the count that its own step left: two that
    // looked afterwards could both find nobody, or a reader that came since.
    if is_left_to_waiters(left) {
        wake_waiters(site, rt, pass, crew, counts, WakeType::Any);
    }
}

/// Ends the pass's exclusive hold. The kernel's `__up_write`.
pub fn up_write<O: Object, W: Wait, C: Crew>(
    site: &Site<SemRule<O>>,
    rt: &W,
    pass: &mut Pass<SemRule<O>>,
    crew: &C,
    counts: &mut WakeCounts,
)
    requires own { SitsAt site.now pass.old }
    requires numbered { IsSome (task_in pass.old) }
    requires holds { held_in pass.old ≡ Alone }
    requires quiet { (hand_in pass.old).writes ≡ false }
    requires unspun { SpinRests (view_of pass.old).spin }
    requires outside { IsOutside (view_of pass.old) }
    requires counted { AreCounts counts.old (view_of pass.old) }
    ensures on { MovesOn site.now pass.old pass.new }
    ensures unspun { SpinRests (view_of pass.new).spin }
    ensures outside { IsOutside (view_of pass.new) }
    ensures released { Releases (wakes_alone semaphore) (seen_of pass.old) (seen_of pass.new) }
    ensures left { LeavesCount (wakes_alone semaphore) No 1 0
        (seen_of pass.old) (seen_of pass.new) }
    ensures woken { WakesIf (wakes_alone semaphore) No WakeType.Any
        counts.old.wakes counts.new.wakes (seen_of pass.old) (seen_of pass.new) }
    ensures counted { AreCounts counts.new (view_of pass.new) }
    ensures dozes { dozes_of (view_of pass.new) ≡ dozes_of (view_of pass.old) }
{
    // While it still holds: behind the release the store could undo that of the next holder.
    set_hint(site, pass, NOBODY);
    let left = steps::up_write(site, pass);
    if has_waiters(left) {
        wake_waiters(site, rt, pass, crew, counts, WakeType::Any);
    }
}

/// Turns the pass's exclusive hold into a shared one. The kernel's `__downgrade_write`.
pub fn downgrade_write<O: Object, W: Wait, C: Crew>(
    site: &Site<SemRule<O>>,
    rt: &W,
    pass: &mut Pass<SemRule<O>>,
    crew: &C,
    counts: &mut WakeCounts,
)
    requires own { SitsAt site.now pass.old }
    requires numbered { IsSome (task_in pass.old) }
    requires holds { held_in pass.old ≡ Alone }
    requires quiet { (hand_in pass.old).writes ≡ false }
    requires unspun { SpinRests (view_of pass.old).spin }
    requires outside { IsOutside (view_of pass.old) }
    requires counted { AreCounts counts.old (view_of pass.old) }
    ensures on { MovesOn site.now pass.old pass.new }
    ensures unspun { SpinRests (view_of pass.new).spin }
    ensures outside { IsOutside (view_of pass.new) }
    ensures downgraded { Downgrades semaphore (seen_of pass.old) (seen_of pass.new) }
    ensures left { LeavesCount (wakes_down semaphore) Shared 0 255
        (seen_of pass.old) (seen_of pass.new) }
    ensures woken { WakesIf (wakes_down semaphore) Shared WakeType.ReadOwned
        counts.old.wakes counts.new.wakes (seen_of pass.old) (seen_of pass.new) }
    ensures counted { AreCounts counts.new (view_of pass.new) }
    ensures dozes { dozes_of (view_of pass.new) ≡ dozes_of (view_of pass.old) }
{
    let Some(me) = pass.task() else {
        unreachable!()
    };
    let left = steps::downgrade(site, pass);
    set_hint(site, pass, reader_hint(me));
    // Readers that queued while it wrote may share the hold now, and nobody else looks at them
    // before it ends.
    if has_waiters(left) {
        wake_waiters(site, rt, pass, crew, counts, WakeType::ReadOwned);
    }
}
