//! The readers that one wake grants.
ghost use Rattle.std.specs.Prelude.{◌≡◌, ◌≤◌, []};
ghost use Rattle.rwsem_wake.specs.Batches.{batch_of};

use arrayvec::ArrayVec;
use wait_list::Waiter;

/// How many readers one wake grants at most. The kernel's name and number.
pub const MAX_READERS_WAKEUP: usize = 256;

/// The tasks of the list's first readers in order, as many as the limit says or all of them if they
/// are fewer. Writers among them keep their places, so a batch goes on behind them. `out` stays
/// empty where no reader is first. The kernel's `rwsem_mark_wake`.
pub fn batch(list: &[Waiter], limit: usize, out: &mut ArrayVec<u32, MAX_READERS_WAKEUP>)
    requires small { limit ≤ MAX_READERS_WAKEUP }
    requires empty { out.old.items ≡ [] }
    ensures { out.new.items ≡ batch_of limit list.now }
{
    match list.first() {
        Some(first) if !first.writer => {}
        _ => return,
    }
    for waiter in list {
        if out.len() == limit {
            break;
        }
        if !waiter.writer {
            out.push(waiter.task);
        }
    }
}
