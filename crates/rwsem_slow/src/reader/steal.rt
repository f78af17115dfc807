//! A reader that comes to hold by the bias that its first addition left in the count, though tasks
//! wait.
ghost use Rattle.std.specs.Prelude.{◌≡◌, ◌↔◌, ◌+◌, true, false, IsSome, IsTrue};
ghost use Rattle.lock_core.specs.SiteHandles.{plan_of, view_of, task_in, held_in, SitsAt, KeepsPast, SaysSame, MovesOn};
ghost use Rattle.lock_core.specs.Kinds.{lets_in, semaphore};
ghost use Rattle.lock_core.specs.Shown.{LeavesHold};
ghost use Rattle.lock_core.specs.Views.{SpinRests, ticked};
ghost use Rattle.rwsem_wake.specs.RwSemPlaces.{AreCounts, IsOutside, dozes_of, seen_of};
ghost use Rattle.rwsem_slow.specs.Queued.{IsInTransit, KeepsLine, Shares};
ghost use Rattle.rwsem_slow.specs.Stealing.{IsShared, MaySteal, StealsBy, left_by};
ghost use Rattle.rwsem_slow.specs.Types.{No, Shared};
ghost use Rattle.rwsem_slow.specs.Waking.{IsFirstBias, WakesWaiting};
ghost use Rattle.rwsem_wake.specs.RwSemWakes.{MayWake};

use crate::SemRule;
use crate::release::wake_waiters;
use atomic_table::Play;
use cpu_task::Crew;
use lock_core::view::View;
use lock_core::{Held, Op, Pass, Site};
use rwsem_count::{has_handoff, has_waiters, has_writer, readers};
use rwsem_wake::hint::{HINT, is_reader_hint};
use rwsem_wake::wake::WakeType;
use rwsem_wake::{RwSemHand, WakeCounts};
use std::marker::PhantomData;
use std::sync::Wait;
use word_bits::Object;

struct LookOwner<O> {
    object: PhantomData<O>,
}

impl<O: Object> Play<(), View<RwSemHand>> for LookOwner<O> {
    ghost then = { λ st m. StealsBy O.object m };
}

/// Whether the count has neither a writer nor HANDOFF.
fn is_open(left: u64) -> bool
    ensures { IsTrue result ↔ lets_in semaphore left }
{
    !has_writer(left) && !has_handoff(left)
}

/// Whether readers are said to hold, beside which this count has one more.
fn is_shared(left: u64, hint: u64) -> bool
    ensures { IsTrue result ↔ IsShared left hint }
{
    is_reader_hint(hint) && readers(left) > 1
}

/// Whether a reader whose addition left this count may hold by its bias where the hint is so.
fn may_steal(left: u64, hint: u64) -> bool
    ensures { IsTrue result ↔ MaySteal left hint }
{
    // Readers that come one after another beside those that hold would keep a waiting writer out
    // for good.
    if is_shared(left, hint) {
        return false;
    }
    is_open(left)
}

/// Loads the owner hint. Where it and the count that the reader's own addition left let it, the
/// reader holds. The kernel's `rwsem_down_read_slowpath`, where it steals.
pub fn steal<O: Object>(site: &Site<SemRule<O>>, pass: &mut Pass<SemRule<O>>, left: u64) -> bool
    requires own { SitsAt site.now pass.old }
    requires numbered { IsSome (task_in pass.old) }
    requires out { held_in pass.old ≡ No }
    requires transit { IsInTransit (view_of pass.old) }
    requires left { left ≡ left_by (view_of pass.old).ext.sem.bias }
    ensures own { SitsAt site.now pass.new }
    ensures goes_on { KeepsPast pass.old pass.new }
    ensures task { task_in pass.new ≡ task_in pass.old }
    ensures took { result ≡ true →
        Shares O.object (plan_of site.now) (view_of pass.old) (view_of pass.new) }
    ensures let_in { result ≡ true → lets_in semaphore left }
    ensures held { result ≡ true → LeavesHold ((view_of pass.old).steps + 1) Shared
        (seen_of pass.old) (seen_of pass.new) }
    ensures spin { (view_of pass.new).spin ≡ (view_of pass.old).spin }
    ensures face { result ≡ false → SaysSame pass.old pass.new }
    ensures missed { result ≡ false → view_of pass.new ≡ ticked (view_of pass.old) }
{
    // The bias came where there was neither a writer nor HANDOFF, and has kept writers out since:
    // the reader takes nothing that the first waiter was to have.
    let hint = site.step::<LookOwner<O>>(pass, HINT, Op::Load);
    if may_steal(left, hint) {
        pass.set_held(Held::Shared);
        return true;
    }
    false
}

/// Wakes the readers that wait, where the pass's own is the only bias of this count.
pub fn wake_beside<O: Object, W: Wait, K: Crew>(
    site: &Site<SemRule<O>>,
    rt: &W,
    pass: &mut Pass<SemRule<O>>,
    crew: &K,
    counts: &mut WakeCounts,
    left: u64,
)
    requires own { SitsAt site.now pass.old }
    requires numbered { IsSome (task_in pass.old) }
    requires unspun { SpinRests (view_of pass.old).spin }
    requires outside { IsOutside (view_of pass.old) }
    requires may { MayWake WakeType.ReadOwned (view_of pass.old) }
    requires counted { AreCounts counts.old (view_of pass.old) }
    ensures on { MovesOn site.now pass.old pass.new }
    ensures unspun { SpinRests (view_of pass.new).spin }
    ensures outside { IsOutside (view_of pass.new) }
    ensures hand { (view_of pass.new).hand ≡ (view_of pass.old).hand }
    ensures keeps { KeepsLine (view_of pass.old) (view_of pass.new) }
    ensures woken { IsFirstBias left → WakesWaiting WakeType.ReadOwned
        counts.old.wakes counts.new.wakes (seen_of pass.old) (seen_of pass.new) }
    ensures spared { (IsFirstBias left → ⊥) → counts.new.wakes ≡ counts.old.wakes }
    ensures counted { AreCounts counts.new (view_of pass.new) }
    ensures dozes { dozes_of (view_of pass.new) ≡ dozes_of (view_of pass.old) }
{
    // Readers that wait may share the hold. A later reader finds another's bias in the count:
    // whoever has that lets them in, by this wake, or as it queues and takes its bias back.
    if readers(left) == 1 && has_waiters(left) {
        wake_waiters(site, rt, pass, crew, counts, WakeType::ReadOwned);
    }
}
