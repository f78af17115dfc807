//! Rounds on two spin locks of one table, one taken within the other.
ghost use Rattle.std.specs.Prelude.{◌≡◌, ◌+◌, ◌*◌, ◌<◌, length, IsSome};
ghost use Rattle.lock_core.specs.LockHands.{RestsAt, RestsEverywhere};
ghost use Rattle.lock_core.specs.Views.{HoldsNothing, OwesNoSignal};
ghost use Rattle.lock_core.specs.SiteHandles.{plan_of, view_of, hand_in, task_in, SitsAt, SaysSame, IsNestTold};
ghost use Rattle.qspin_word.specs.SpinWordHandles.{spin_in, NotesItself, SpinIdles};
ghost use Rattle.qspin_queue.specs.SpinQueueHandles.{IsApart, IsApartIdle};
ghost use Rattle.lock_bench.specs.BenchRooms.{unbounded};

use crate::plan::without_calls;
use crate::timed::Timed;
use lock_core::{Nest, Pass, Site};
use qspin_queue::lock_with;
use qspin_word::{Quiet, unlock_at};
use std::alloc::{AllocError, Global};
use std::sync::Wait;

/// The lock that is taken first.
const OUTER: usize = 0;

/// The lock that is taken while that one is held.
const INNER: usize = 1;

/// Takes the inner lock and releases it, at whatever other locks the pass is.
fn inner_pair<W: Wait>(rt: &W, site: &Site<Nest>, pass: &mut Pass<Nest>)
    requires ready { NotesItself site.now pass.old }
    requires out { RestsAt 1 (spin_in pass.old) }
    ensures idles { SpinIdles ⊥ site.now pass.old pass.new }
    ensures once { (spin_in pass.new).entries ≡ (spin_in pass.old).entries + 1 }
{
    lock_with(site, rt, pass, INNER, &mut Quiet);
    unlock_at(site, pass, INNER);
}

/// Takes both locks, the inner one within the outer, and releases them.
fn nested_pair<W: Wait>(rt: &W, site: &Site<Nest>, pass: &mut Pass<Nest>)
    requires apart { IsApart site.now pass.old }
    ensures own { SitsAt site.now pass.new }
    ensures face { SaysSame pass.old pass.new }
    ensures told { IsNestTold pass.new }
    ensures out { RestsEverywhere (spin_in pass.new) }
    ensures hand { hand_in pass.new ≡ hand_in pass.old }
    ensures twice { (spin_in pass.new).entries ≡ (spin_in pass.old).entries + 2 }
{
    lock_with(site, rt, pass, OUTER, &mut Quiet);
    inner_pair(rt, site, pass);
    unlock_at(site, pass, OUTER);
}

/// A pass that is at no lock takes a task's number.
fn start<W: Wait>(rt: &W, site: &Site<Nest>, pass: &mut Pass<Nest>, task: u32)
    requires idle { IsApartIdle site.now pass.old }
    requires there { task < length (plan_of site.now) }
    ensures own { SitsAt site.now pass.new }
    ensures numbered { IsSome (task_in pass.new) }
    ensures told { IsNestTold pass.new }
    ensures out { RestsEverywhere (spin_in pass.new) }
    ensures rests { HoldsNothing (view_of pass.new) }
    ensures recorded { OwesNoSignal (hand_in pass.new) }
    ensures taken { (spin_in pass.new).entries ≡ (spin_in pass.old).entries }
{
    site.begin(rt, pass, task);
}

impl Timed for Site<Nest> {
    type Worker = Pass<Nest>;

    const ROOM: u32 = u32::MAX;

    ghost ROOM = { 4294967295 };

    ghost idle = { IsApartIdle };

    ghost made = { λ n v u. (spin_in u).entries ≡ (spin_in v).entries + 2 * n };

    ghost serves = { λ site task _. task < length (plan_of site) };

    ghost enough = { unbounded };

    fn start<W: Wait>(
        _rt: &W,
        alloc: Global,
        threads: u32,
        _count: u32,
    ) -> Result<(Site<Nest>, Pass<Nest>), AllocError> {
        let plan = without_calls(alloc, threads)?;
        Site::<Nest>::open(alloc, plan)
    }

    fn another(
        &mut self,
        _alloc: Global,
        first: &mut Pass<Nest>,
        _task: u32,
    ) -> Result<Pass<Nest>, AllocError> {
        Ok(self.split(first))
    }

    fn rounds<W: Wait>(&self, rt: &W, worker: &mut Pass<Nest>, task: u32, count: u32) {
        start(rt, self, worker, task);
        for _ in 0..count {
            nested_pair(rt, self, worker);
        }
        self.end(worker);
    }
}
