//! The two steps on wake words: the waiter that was chosen is woken, and a waiter drowses.
ghost use Rattle.std.specs.Prelude.{◌≡◌, ◌<◌, ◌+◌, ◌*◌, IsSome, length};
ghost use Rattle.wake_duty.specs.Types.{No};
ghost use Rattle.lock_core.specs.SiteHandles.{plan_of, view_of, past_of, task_in, held_in, SitsAt, StepsAt, SaysSame};
ghost use Rattle.lock_core.specs.Views.{SpinRests};
ghost use Rattle.wake_duty.specs.WakeSteps.{HasTried, Woke, Drowsed, FallsAsleep, knowing};

use crate::host::SleepHost;
use atomic_table::Play;
use lock_core::view::View;
use lock_core::{Op, Pass, Site};
use std::marker::PhantomData;

/// How far the wake word of a task stands from that of the task before.
const LINE: usize = 8;

/// A wake word that is set.
const WOKEN: u64 = 1;

/// One that isn't.
const ASLEEP: u64 = 0;

struct SetWord<H> {
    host: PhantomData<H>,
}

impl<H: SleepHost> Play<(), View<H::Ext>> for SetWord<H> {
    ghost then = { Woke H.WAKE H.after_set };
}

struct SwapWord<H> {
    host: PhantomData<H>,
}

impl<H: SleepHost> Play<(), View<H::Ext>> for SwapWord<H> {
    ghost then = { Drowsed H.after_swap };
}

/// Sets the wake word of the waiter that the pass has chosen, which ends its duty. Only then is the
/// task to be woken: until it swaps the word for 0 it doesn't fall asleep again.
pub fn set<H: SleepHost>(site: &Site<H>, pass: &mut Pass<H>, target: u32)
    requires own { SitsAt site.now pass.old }
    requires task { target < length (plan_of site.now) }
    requires chosen { H.has_chosen (view_of pass.old).ext target }
    ensures on { StepsAt site.now pass.old pass.new }
    ensures face { SaysSame pass.old pass.new }
    ensures kept { view_of pass.new ≡ knowing (view_of pass.old)
        (H.after_set (view_of pass.old).ext target) }
{
    site.step::<SetWord<H>>(pass, H::WAKE + LINE * target as usize, Op::Store(WOKEN));
}

/// Swaps the wake word of the pass's own task for 0. True exactly where that was 0: only then may
/// it sleep. Otherwise it was woken, and tries again first.
pub fn drowse<H: SleepHost>(site: &Site<H>, pass: &mut Pass<H>) -> bool
    requires own { SitsAt site.now pass.old }
    requires numbered { IsSome (task_in pass.old) }
    requires unspun { SpinRests (view_of pass.old).spin }
    requires out { held_in pass.old ≡ No }
    requires tried { HasTried H.wait_state (view_of pass.old) }
    ensures on { StepsAt site.now pass.old pass.new }
    ensures face { SaysSame pass.old pass.new }
    ensures asleep { FallsAsleep H.after_swap H.WAKE (view_of pass.old) (task_in pass.old) result
        (view_of pass.new) (past_of pass.new) }
{
    let Some(me) = pass.task() else {
        unreachable!()
    };
    site.step::<SwapWord<H>>(pass, H::WAKE + LINE * me as usize, Op::Swap(ASLEEP)) == ASLEEP
}
