//! The owner hint: who holds, where a task that has come to hold stored it. No fact rests on it.
ghost use Rattle.std.specs.Prelude.{◌≡◌, ◌↔◌, ◌+◌, ◌*◌, ◌%◌, ◌<◌, IsSome, IsTrue};
ghost use Rattle.lock_core.specs.SiteHandles.{view_of, task_in, SitsAt, StepsAt, SaysSame};
ghost use Rattle.lock_core.specs.Views.{ticked};
ghost use Rattle.rwsem_wake.specs.HintPlays.{Ticks};

use crate::host::WakeHost;
use crate::view::RwSemHand;
use atomic_table::Play;
use lock_core::view::View;
use lock_core::{Op, Pass, SPIN_ROOM, Site};
use word_bits::MAX_TASKS;

/// The place of the hint among the words of the locks.
pub const HINT: usize = SPIN_ROOM + 8;

/// The hint that nobody holds.
pub const NOBODY: u64 = 0;

/// The hint that this task writes.
pub fn writer_hint(task: u32) -> u64
    requires { task < MAX_TASKS }
    ensures { result ≡ 8 * (task + 1) }
{
    8 * (u64::from(task) + 1)
}

/// The hint that tasks read, of which this is one. The kernel's `RWSEM_READER_OWNED`.
pub fn reader_hint(task: u32) -> u64
    requires { task < MAX_TASKS }
    ensures { result ≡ 8 * (task + 1) + 1 }
{
    writer_hint(task) + 1
}

/// Whether the hint says that readers hold. The kernel's `is_rwsem_reader_owned`.
pub fn is_reader_hint(hint: u64) -> bool
    ensures { IsTrue result ↔ (hint % 8 ≡ 1) }
{
    hint % 8 == 1
}

struct OnHint;

impl Play<(), View<RwSemHand>> for OnHint {
    ghost then = { Ticks };
}

/// Stores the hint.
pub fn set_hint<H: WakeHost>(site: &Site<H>, pass: &mut Pass<H>, hint: u64)
    requires own { SitsAt site.now pass.old }
    ensures on { StepsAt site.now pass.old pass.new }
    ensures face { SaysSame pass.old pass.new }
    ensures kept { view_of pass.new ≡ ticked (view_of pass.old) }
{
    site.step::<OnHint>(pass, HINT, Op::Store(hint));
}

/// Stores the hint that readers have it, of which the pass's task is one. The kernel's
/// `rwsem_set_reader_owned`.
pub fn note_reader<H: WakeHost>(site: &Site<H>, pass: &mut Pass<H>)
    requires own { SitsAt site.now pass.old }
    requires numbered { IsSome (task_in pass.old) }
    ensures on { StepsAt site.now pass.old pass.new }
    ensures face { SaysSame pass.old pass.new }
    ensures kept { view_of pass.new ≡ ticked (view_of pass.old) }
{
    let Some(me) = pass.task() else {
        unreachable!()
    };
    set_hint(site, pass, reader_hint(me));
}

/// Stores the hint that the pass's task writes. The kernel's `rwsem_set_owner`.
pub fn note_writer<H: WakeHost>(site: &Site<H>, pass: &mut Pass<H>)
    requires own { SitsAt site.now pass.old }
    requires numbered { IsSome (task_in pass.old) }
    ensures on { StepsAt site.now pass.old pass.new }
    ensures face { SaysSame pass.old pass.new }
    ensures kept { view_of pass.new ≡ ticked (view_of pass.old) }
{
    let Some(me) = pass.task() else {
        unreachable!()
    };
    set_hint(site, pass, writer_hint(me));
}

/// Loads the hint. Answers whether it says that readers hold.
pub fn is_reader_owned<H: WakeHost>(site: &Site<H>, pass: &mut Pass<H>) -> bool
    requires own { SitsAt site.now pass.old }
    ensures on { StepsAt site.now pass.old pass.new }
    ensures face { SaysSame pass.old pass.new }
    ensures kept { view_of pass.new ≡ ticked (view_of pass.old) }
{
    is_reader_hint(site.step::<OnHint>(pass, HINT, Op::Load))
}
