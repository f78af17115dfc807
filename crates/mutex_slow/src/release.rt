//! The release of a mutex, and the handoff to the first waiter.
ghost use Rattle.std.specs.Prelude.{◌≡◌, ◌≢◌, ◌<◌, ◌+◌, ◌%◌, false, IsSome, IfSome, length, ◌≤◌};
ghost use Rattle.lock_core.specs.Views.{SpinHolds, SpinRests};
ghost use Rattle.lock_core.specs.Kinds.{mutex, wakes_alone};
ghost use Rattle.lock_core.specs.Locking.{Releases};
ghost use Rattle.lock_core.specs.SiteHandles.{plan_of, view_of, hand_in, task_in, held_in, SitsAt, MovesOn};
ghost use Rattle.lock_core.specs.Tallies.{raised};
ghost use Rattle.mutex_slow.specs.Mutexes.{OwesNoWake};
ghost use Rattle.mutex_slow.specs.MutexPlaces.{seen_of, KeepsHand, StandsSame, IsOutside, OwesWake, IsToWake, KeepsWakes, dozes_of, task_of, IsFreed, EndsUnasked, FindsAsked, NamesFirst, KeepsAppends, WakesFirst, EndsHold};
ghost use Rattle.mutex_slow.specs.Types.{Alone};

use crate::rule::MutexRule;
use crate::wait_lock;
use crate::wake::{choose, wake};
use cpu_task::Crew;
use lock_core::{Pass, Site};
use mutex_word::site_steps::release_plain;
use mutex_word::tries;
use std::sync::Wait;
use wait_list::{Waiter, list};
use word_bits::Object;

/// What the releasing part of an unlock came to.
#[derive(Clone, Copy, Debug, PartialEq, Eq)]
enum Released {
    /// Nobody waits.
    Done,
    /// The word has the flag of the waiters.
    Waiters,
    /// A handoff is asked for, and the pass still holds.
    Asked,
}

/// Exchanges the own code for 0, or the word for its flags alone, unless a handoff is asked for.
/// The wait lock isn't needed: the word that is left names nobody.
fn release<O: Object, W: Wait>(
    site: &Site<MutexRule<O>>,
    rt: &W,
    pass: &mut Pass<MutexRule<O>>,
) -> Released
    requires own { SitsAt site.now pass.old }
    requires numbered { IsSome (task_in pass.old) }
    requires held { held_in pass.old ≡ Alone }
    requires quiet { (hand_in pass.old).writes ≡ false }
    requires unspun { SpinRests (view_of pass.old).spin }
    requires outside { IsOutside (view_of pass.old) }
    requires clear { OwesNoWake (view_of pass.old) }
    ensures on { MovesOn site.now pass.old pass.new }
    ensures outside { IsOutside (view_of pass.new) }
    ensures same { StandsSame (view_of pass.old) (view_of pass.new) }
    ensures counts { KeepsWakes (view_of pass.old) (view_of pass.new) }
    ensures done { result ≡ Released.Done → (IsFreed (view_of pass.old) (view_of pass.new)
        × ((hand_in pass.new).freed % 2 ≡ 0) × OwesNoWake (view_of pass.new)) }
    ensures waiters { result ≡ Released.Waiters →
        IsFreed (view_of pass.old) (view_of pass.new) }
    ensures owes { result ≡ Released.Waiters → OwesWake (view_of pass.new) }
    ensures some { result ≡ Released.Waiters → (hand_in pass.new).freed ≢ 0 }
    ensures ends { result ≢ Released.Asked → EndsUnasked (seen_of pass.old) (seen_of pass.new) }
    ensures asked { result ≡ Released.Asked → KeepsHand pass.old pass.new }
    ensures clear { result ≡ Released.Asked → OwesNoWake (view_of pass.new) }
    ensures found { result ≡ Released.Asked →
        FindsAsked (view_of pass.new).steps (seen_of pass.old) (seen_of pass.new) }
{
    // One exchange is enough where nobody waits.
    let Err(_) = release_plain(site, pass) else {
        return Released::Done;
    };
    match tries::release(site, rt, pass) {
        Ok(0) => Released::Done,
        Ok(_) => Released::Waiters,
        Err(_) => Released::Asked,
    }
}

/// Hands over to the first waiter, under the wait lock, and answers it.
fn hand_over<O: Object, W: Wait>(
    site: &Site<MutexRule<O>>,
    rt: &W,
    pass: &mut Pass<MutexRule<O>>,
) -> Option<Waiter>
    requires own { SitsAt site.now pass.old }
    requires numbered { IsSome (task_in pass.old) }
    requires held { held_in pass.old ≡ Alone }
    requires quiet { (hand_in pass.old).writes ≡ false }
    requires locked { SpinHolds (view_of pass.old).spin }
    requires outside { IsOutside (view_of pass.old) }
    requires clear { OwesNoWake (view_of pass.old) }
    ensures on { MovesOn site.now pass.old pass.new }
    ensures outside { IsOutside (view_of pass.new) }
    ensures same { StandsSame (view_of pass.old) (view_of pass.new) }
    ensures counts { KeepsWakes (view_of pass.old) (view_of pass.new) }
    ensures chosen { IsToWake (view_of pass.new) (task_of result) }
    ensures task { IfSome result (λ w. w.task < length (plan_of site.now)) }
    ensures freed { IsFreed (view_of pass.old) (view_of pass.new) }
    ensures named { NamesFirst (view_of pass.old).steps result
        (seen_of pass.old) (seen_of pass.new) }
{
    let Some(first) = list::first(site, pass) else {
        tries::hand_over(site, rt, pass, None);
        return None;
    };
    // The wait lock is held: nobody comes before this waiter, nor leaves, until the word names it.
    tries::hand_over(site, rt, pass, Some(first.task));
    Some(first)
}

/// The task of a waiter.
fn named(waiter: Option<Waiter>) -> Option<u32>
    ensures { result ≡ task_of waiter }
{
    match waiter {
        Some(waiter) => Some(waiter.task),
        None => None,
    }
}

/// Ends the pass's hold, wakes the first waiter where there is one, and answers whether there was.
/// The kernel's `__mutex_unlock_slowpath`.
pub fn unlock<O: Object, W: Wait, C: Crew>(
    site: &Site<MutexRule<O>>,
    rt: &W,
    pass: &mut Pass<MutexRule<O>>,
    crew: &C,
) -> bool
    requires own { SitsAt site.now pass.old }
    requires numbered { IsSome (task_in pass.old) }
    requires held { held_in pass.old ≡ Alone }
    requires quiet { (hand_in pass.old).writes ≡ false }
    requires unspun { SpinRests (view_of pass.old).spin }
    requires outside { IsOutside (view_of pass.old) }
    requires clear { OwesNoWake (view_of pass.old) }
    ensures on { MovesOn site.now pass.old pass.new }
    ensures unspun { SpinRests (view_of pass.new).spin }
    ensures outside { IsOutside (view_of pass.new) }
    ensures clear { OwesNoWake (view_of pass.new) }
    ensures released { Releases (wakes_alone mutex) (seen_of pass.old) (seen_of pass.new) }
    ensures wakes { WakesFirst (view_of pass.old).ext.wake.wakes (view_of pass.new).ext.wake.wakes
        (seen_of pass.old) (seen_of pass.new) }
    ensures ended { EndsHold (seen_of pass.old) (seen_of pass.new) }
    ensures told { (view_of pass.new).ext.wake.wakes
        ≡ raised result (view_of pass.old).ext.wake.wakes }
    ensures dozes { dozes_of (view_of pass.new) ≡ dozes_of (view_of pass.old) }
    ensures entries { (view_of pass.new).spin.entries ≤ (view_of pass.old).spin.entries + 1 }
    ensures appends { KeepsAppends pass.old pass.new }
{
    match release(site, rt, pass) {
        Released::Waiters => {
            wait_lock::lock(site, rt, pass);
            let first = choose(site, pass);
            wait_lock::unlock(site, pass);
            wake(site, pass, crew, first)
        }
        Released::Asked => {
            wait_lock::lock(site, rt, pass);
            let first = hand_over(site, rt, pass);
            wait_lock::unlock(site, pass);
            wake(site, pass, crew, named(first))
        }
        Released::Done => false,
    }
}
