//! The try of a pass that isn't in the list, with which each call that takes begins.
ghost use Rattle.std.specs.Prelude.{◌≡◌, ◌+◌, Bool, IsSome, IfOk, IfErr};
ghost use Rattle.lock_core.specs.Kinds.{mutex};
ghost use Rattle.lock_core.specs.Locking.{Misses, OnlyTried};
ghost use Rattle.lock_core.specs.SiteHandles.{view_of, hand_in, task_in, held_in, SitsAt, MovesOn};
ghost use Rattle.mutex_slow.specs.Mutexes.{OwesNoWake, owner_at};
ghost use Rattle.mutex_slow.specs.MutexPlaces.{seen_of, TakesAlone, TakesOpen, KeepsMisses, StandsSame, IsOutside, KeepsWakes};
ghost use Rattle.mutex_slow.specs.Types.{No};

use crate::rule::MutexRule;
use lock_core::{Pass, Site};
use mutex_word::tries::{Tried, attempt};
use std::marker::Brand;
use std::sync::Wait;
use word_bits::Object;

/// A try of a pass that isn't in the list. It counts a failure, and keeps the word that it saw.
pub fn try_outside<O: Object, W: Wait>(
    site: &Site<MutexRule<O>>,
    rt: &W,
    pass: &mut Pass<MutexRule<O>>,
) -> Result<(), u64>
    requires own { SitsAt site.now pass.old }
    requires numbered { IsSome (task_in pass.old) }
    requires out { held_in pass.old ≡ No }
    requires outside { IsOutside (view_of pass.old) }
    requires clear { OwesNoWake (view_of pass.old) }
    ensures on { MovesOn site.now pass.old pass.new }
    ensures outside { IsOutside (view_of pass.new) }
    ensures clear { OwesNoWake (view_of pass.new) }
    ensures same { StandsSame (view_of pass.old) (view_of pass.new) }
    ensures counts { KeepsWakes (view_of pass.old) (view_of pass.new) }
    ensures took { IfOk result (λ _. TakesAlone O.object site.now pass.old pass.new) }
    ensures opened { IfOk result (λ _. TakesOpen (seen_of pass.old) (seen_of pass.new)) }
    ensures at_once { IfOk result (λ _. KeepsMisses pass.old pass.new) }
    ensures missed { IfErr result (λ word. (reads : Bool) → Misses mutex reads owner_at word
        (seen_of pass.old) (seen_of pass.new)) }
    ensures still_out { IfErr result (λ _. held_in pass.new ≡ No) }
    ensures tried { IfErr result (λ _. OnlyTried (seen_of pass.old) (seen_of pass.new)) }
    ensures once { IfErr result (λ _.
        (hand_in pass.new).misses ≡ (hand_in pass.old).misses + 1) }
{
    let Some(me) = pass.task() else {
        unreachable!()
    };
    match attempt::<MutexRule<O>, Brand, W>(site, rt, pass, me, false) {
        Tried::Took => Ok(()),
        Tried::Asked => unreachable!(),
        Tried::Failed(word) => Err(word),
    }
}
