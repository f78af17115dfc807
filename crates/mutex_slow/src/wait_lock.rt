//! The wait lock of a mutex, under which its list changes.
ghost use Rattle.std.specs.Prelude.{◌≡◌, ◌⊎◌, IsSome};
ghost use Rattle.lock_core.specs.Views.{SpinHolds, SpinRests};
ghost use Rattle.lock_core.specs.SiteHandles.{view_of, task_in, SitsAt, MovesOn};
ghost use Rattle.qspin_word.specs.Ways.{SpinGained};
ghost use Rattle.mutex_slow.specs.MutexPlaces.{KeepsHand, KeepsFronts, IsOutside, IsInLine};

use crate::rule::MutexRule;
use lock_core::{Pass, Site};
use std::sync::Wait;
use word_bits::Object;

/// Takes the wait lock.
pub fn lock<O: Object, W: Wait>(site: &Site<MutexRule<O>>, rt: &W, pass: &mut Pass<MutexRule<O>>)
    requires own { SitsAt site.now pass.old }
    requires numbered { IsSome (task_in pass.old) }
    requires unspun { SpinRests (view_of pass.old).spin }
    ensures on { MovesOn site.now pass.old pass.new }
    ensures gained { SpinGained (view_of pass.old) (view_of pass.new) }
{
    qspin_queue::lock(site, rt, pass);
}

/// Releases the wait lock.
pub fn unlock<O: Object>(site: &Site<MutexRule<O>>, pass: &mut Pass<MutexRule<O>>)
    requires own { SitsAt site.now pass.old }
    requires numbered { IsSome (task_in pass.old) }
    requires locked { SpinHolds (view_of pass.old).spin }
    requires still { IsOutside (view_of pass.old) ⊎ IsInLine (view_of pass.old) }
    ensures on { MovesOn site.now pass.old pass.new }
    ensures unspun { SpinRests (view_of pass.new).spin }
    ensures entries { (view_of pass.new).spin.entries ≡ (view_of pass.old).spin.entries }
    ensures since { (view_of pass.new).spin.took ≡ (view_of pass.old).spin.took }
    ensures fronts { KeepsFronts pass.old pass.new }
    ensures hand { KeepsHand pass.old pass.new }
    ensures ext { (view_of pass.new).ext ≡ (view_of pass.old).ext }
{
    qspin_word::unlock(site, pass);
}
