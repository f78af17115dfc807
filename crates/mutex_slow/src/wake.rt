//! How the first waiter is chosen, and woken.
ghost use Rattle.std.specs.Prelude.{◌≡◌, ◌<◌, Some, IsSome, IfSome, length};
ghost use Rattle.lock_core.specs.Views.{SpinHolds};
ghost use Rattle.lock_core.specs.SiteHandles.{plan_of, view_of, task_in, SitsAt, MovesOn};
ghost use Rattle.lock_core.specs.Tallies.{raised};
ghost use Rattle.lock_core.specs.Shown.{FindsSince};
ghost use Rattle.word_bits.specs.OwnerWord.{task_code};
ghost use Rattle.mutex_slow.specs.Mutexes.{HasChosen, OwesNoWake, list_at};
ghost use Rattle.mutex_slow.specs.MutexPlaces.{seen_of, KeepsHand, StandsSame, IsOutside, OwesWake, IsToWake, KeepsWakes, Wakes};

use crate::rule::MutexRule;
use cpu_task::Crew;
use lock_core::{Pass, Site};
use wait_list::list;
use word_bits::Object;

/// Chooses the first waiter, by a look under the wait lock: it is to be woken.
pub fn choose<O: Object>(site: &Site<MutexRule<O>>, pass: &mut Pass<MutexRule<O>>) -> Option<u32>
    requires own { SitsAt site.now pass.old }
    requires numbered { IsSome (task_in pass.old) }
    requires locked { SpinHolds (view_of pass.old).spin }
    requires outside { IsOutside (view_of pass.old) }
    requires owes { OwesWake (view_of pass.old) }
    ensures on { MovesOn site.now pass.old pass.new }
    ensures outside { IsOutside (view_of pass.new) }
    ensures chosen { IsToWake (view_of pass.new) result }
    ensures task { IfSome result (λ t. t < length (plan_of site.now)) }
    ensures hand { KeepsHand pass.old pass.new }
    ensures same { StandsSame (view_of pass.old) (view_of pass.new) }
    ensures counts { KeepsWakes (view_of pass.old) (view_of pass.new) }
    ensures found { FindsSince list_at (task_code result) (seen_of pass.old) (seen_of pass.new) }
{
    list::first_task(site, pass)
}

/// Sets the wake word of the task that is to be woken.
fn set<O: Object>(site: &Site<MutexRule<O>>, pass: &mut Pass<MutexRule<O>>, target: u32)
    requires own { SitsAt site.now pass.old }
    requires task { target < length (plan_of site.now) }
    requires outside { IsOutside (view_of pass.old) }
    requires chosen { HasChosen (view_of pass.old).ext target }
    ensures on { MovesOn site.now pass.old pass.new }
    ensures outside { IsOutside (view_of pass.new) }
    ensures clear { OwesNoWake (view_of pass.new) }
    ensures hand { KeepsHand pass.old pass.new }
    ensures wakes { Wakes (Some target) (view_of pass.old) (view_of pass.new) }
    ensures same { StandsSame (view_of pass.old) (view_of pass.new) }
{
    wake_duty::set(site, pass, target);
}

/// Ends the sleep of a task whose wake word the pass has set.
fn end_sleep<O: Object, C: Crew>(pass: &Pass<MutexRule<O>>, crew: &C, target: u32)
    requires set { OwesNoWake (view_of pass.now) }
{
    crew.wake(target);
}

/// Does the wake that the pass has chosen, where there is one, and says whether there was.
pub fn wake<O: Object, C: Crew>(
    site: &Site<MutexRule<O>>,
    pass: &mut Pass<MutexRule<O>>,
    crew: &C,
    target: Option<u32>,
) -> bool
    requires own { SitsAt site.now pass.old }
    requires outside { IsOutside (view_of pass.old) }
    requires chosen { IsToWake (view_of pass.old) target }
    requires task { IfSome target (λ t. t < length (plan_of site.now)) }
    ensures on { MovesOn site.now pass.old pass.new }
    ensures outside { IsOutside (view_of pass.new) }
    ensures clear { OwesNoWake (view_of pass.new) }
    ensures wakes { Wakes target (view_of pass.old) (view_of pass.new) }
    ensures told { (view_of pass.new).ext.wake.wakes
        ≡ raised result (view_of pass.old).ext.wake.wakes }
    ensures hand { KeepsHand pass.old pass.new }
    ensures same { StandsSame (view_of pass.old) (view_of pass.new) }
{
    let Some(target) = target else {
        return false;
    };
    // The word is set before the sleep is ended: a task that swaps its word between the two finds
    // it set and doesn't sleep. The sleep of one that swapped it before is ended by the wake.
    set(site, pass, target);
    end_sleep(pass, crew, target);
    true
}
