//! Passes that do all calls of their tasks, on threads.
ghost use Rattle.std.specs.Prelude.{◌≡◌, ◌<◌, ◌≤◌, false, length, IsSome, OnOk};
ghost use Rattle.lock_core.specs.declared.view.Held.TheVariants.{No};
ghost use Rattle.mutex_word.specs.OwnerHandles.{plan_of, hand_in, held_in, task_in, SitsAt};
ghost use Rattle.call_tests.specs.OwnerStanding.{Idles, OwesNothing, SameSpin};

use crate::owner_calls::{perform, take};
use lock_core::SiteLock;
use mutex_word::{OwnerPass, OwnerSite};
use std::alloc::{AllocError, Global};
use std::sync::Wait;
use std::thread::{self, Threads};
use vma_map::Areas;

/// Takes the lock, does the task's next call, and releases the lock.
fn do_next(site: &OwnerSite<Areas>, pass: &mut OwnerPass<Areas>)
    requires own { SitsAt site.now pass.old }
    requires numbered { IsSome (task_in pass.old) }
    requires out { held_in pass.old ≡ No }
    requires quiet { (hand_in pass.old).writes ≡ false }
    requires owes { OwesNothing pass.old }
    ensures own { SitsAt site.now pass.new }
    ensures task { task_in pass.new ≡ task_in pass.old }
    ensures out { held_in pass.new ≡ No }
    ensures quiet { (hand_in pass.new).writes ≡ false }
    ensures owes { OwesNothing pass.new }
    ensures spin { SameSpin pass.old pass.new }
{
    if take(site, pass) {
        perform(site, pass);
        site.unlock_once(pass);
    }
}

/// Does all calls of the task, and gives the number back.
fn all_calls<W: Wait>(rt: &W, site: &OwnerSite<Areas>, pass: &mut OwnerPass<Areas>, task: u32)
    requires idles { Idles site.now pass.old }
    requires there { task < length (plan_of site.now) }
{
    site.begin(rt, pass, task);
    for _ in 0..site.calls(task) {
        do_next(site, pass);
    }
    site.end(pass);
}

/// Four passes do the calls of tasks 0 to 3 at once. They are split off the first one.
pub fn four_at_once<R: Threads + Wait + Sync>(
    rt: &R,
    alloc: Global,
    site: &OwnerSite<Areas>,
    first: &mut OwnerPass<Areas>,
) -> Result<(), AllocError>
    requires first { Idles site.now first.old }
    requires there { 4 ≤ length (plan_of site.now) }
    ensures { OnOk result (Idles site.now first.new) }
{
    let mut passes = Vec::new(alloc);
    for _ in 0..4u32 {
        passes.push(site.split(first))?;
    }
    thread::for_each_mut(
        rt,
        passes.as_mut_slice(),
        4,
        &|task, pass: &mut OwnerPass<Areas>|
            requires idles { Idles site.now pass.old }
            requires few { task < 4 }
            requires there { 4 ≤ length (plan_of site.now) }
        { all_calls(rt, site, pass, task as u32) },
    );
    Ok(())
}
