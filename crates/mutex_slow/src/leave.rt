//! How a waiter leaves the list: it holds, or a signal interrupts it.
ghost use Rattle.std.specs.Prelude.{◌≡◌, ◌⊎◌, true, IsSome, IfSome, IfNone};
ghost use Rattle.lock_core.specs.Views.{SpinHolds};
ghost use Rattle.lock_core.specs.Locking.{SawPending};
ghost use Rattle.lock_core.specs.Signals.{OnlyConsumed, OnlyHeard};
ghost use Rattle.lock_core.specs.SiteHandles.{view_of, task_in, held_in, SitsAt, MovesOn};
ghost use Rattle.mutex_slow.specs.Mutexes.{OwesNoWake};
ghost use Rattle.mutex_slow.specs.MutexPlaces.{seen_of, KeepsHand, StandsSame, IsOutside, IsInLine, HasFailed, KeepsWakes};
ghost use Rattle.mutex_slow.specs.Types.{Alone};

use crate::rule::MutexRule;
use lock_core::{Interrupted, Pass, Site};
use mutex_word::site_steps::clear_flags;
use wait_list::list;
use word_bits::Object;

/// Consumes a signal to the pass's task, where one is pending and the call is interruptible.
pub fn interrupted<O: Object>(
    site: &Site<MutexRule<O>>,
    pass: &mut Pass<MutexRule<O>>,
    interruptible: bool,
) -> Option<Interrupted>
    requires own { SitsAt site.now pass.old }
    requires numbered { IsSome (task_in pass.old) }
    requires listed { IsInLine (view_of pass.old) }
    ensures on { MovesOn site.now pass.old pass.new }
    ensures ext { (view_of pass.new).ext ≡ (view_of pass.old).ext }
    ensures same { StandsSame (view_of pass.old) (view_of pass.new) }
    ensures heard { IfNone result (OnlyHeard (view_of pass.old) (view_of pass.new)) }
    ensures consumed { IfSome result (λ why. OnlyConsumed (view_of pass.old) (view_of pass.new)) }
    ensures pending { IfSome result (λ why.
        SawPending why (seen_of pass.old) (seen_of pass.new)) }
    ensures asked { IfSome result (λ _. interruptible ≡ true) }
{
    if !interruptible {
        return None;
    }
    site.consume(pass)
}

/// Removes the pass's own task from the list, and clears the flags where the list is then empty.
pub fn quit<O: Object>(site: &Site<MutexRule<O>>, pass: &mut Pass<MutexRule<O>>)
    requires own { SitsAt site.now pass.old }
    requires numbered { IsSome (task_in pass.old) }
    requires locked { SpinHolds (view_of pass.old).spin }
    requires listed { IsInLine (view_of pass.old) }
    requires may { (held_in pass.old ≡ Alone) ⊎ HasFailed (view_of pass.old) }
    ensures on { MovesOn site.now pass.old pass.new }
    ensures outside { IsOutside (view_of pass.new) }
    ensures clear { OwesNoWake (view_of pass.new) }
    ensures hand { KeepsHand pass.old pass.new }
    ensures same { StandsSame (view_of pass.old) (view_of pass.new) }
    ensures counts { KeepsWakes (view_of pass.old) (view_of pass.new) }
{
    let Some(task) = pass.task() else {
        unreachable!()
    };
    list::remove(site, pass, task);
    if list::first(site, pass).is_none() {
        // The wait lock is held: a task that joined between the look and this step would sleep
        // without its flag. One step clears all three, so that no handoff is asked for by nobody.
        clear_flags(site, pass);
    }
}
