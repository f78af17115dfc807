//! The flags of a mutex's owner word.
ghost use Rattle.std.specs.Prelude.{◌≡◌, ◌↔◌, IfSome, None};
ghost use Rattle.lock_decode.specs.Flags.{AreFlags, BreaksFlags};

use crate::why::Why;

/// What is wrong with the flags of an owner word, of which it is told whether it names a task.
pub(crate) fn fault_of(named: bool, waiters: bool, handoff: bool, pickup: bool) -> Option<Why>
    ensures none { (result ≡ None) ↔ AreFlags named waiters handoff pickup }
    ensures why { IfSome result (λ why. BreaksFlags why named waiters handoff pickup) }
{
    match (named, waiters, handoff, pickup) {
        (_, _, false, false) => None,
        (_, _, true, true) => Some(Why::AskedAndPicked),
        (false, _, _, _) => Some(Why::FlagOfNobody),
        (true, false, _, _) => Some(Why::FlagWithoutWaiters),
        (true, true, _, _) => None,
    }
}
