//! The objects that tasks are served.
ghost use Rattle.std.specs.Prelude.{◌≡◌, ◌≢◌, ◌⊎◌, Bool, true, false};
ghost use Rattle.word_bits.specs.PageMaps.{PageMap, IsPageMap};
ghost use Rattle.lock_core.specs.Pasts.{GoesOn};
ghost use Rattle.lock_core.specs.Shown.{StepsOn};
ghost use Rattle.lock_core.specs.Locking.{Looks, IsStored};
ghost use Rattle.vma_map.specs.Spaces.{IsAccess, access_reply, stores};
ghost use Rattle.guarded.specs.States.{Confirms, reply_in, words_after};
ghost use Rattle.guarded.specs.Performing.{HasStored};
ghost use Rattle.guarded.specs.Types.{No, Alone};

use crate::searching::{count_readable, find_page};
use crate::slots;
use crate::splicing::LockedAreas;
use fd_table::{Fds, TableCall};
use sleep_lock::SleepLock;
use vma_map::{Areas, SpaceCall, apply, meet};
use word_bits::{Reply, ValueObject};

/// An object that a task looks at while others may do so too.
pub trait Served: ValueObject {
    ghost downgrades: { Self.Call → Bool };

    /// Whether the call changes the object and then looks at it, for which a shared hold is enough.
    fn downgrades(call: Self::Call) -> bool
        ensures { result ≡ downgrades call };

    /// What the call finds, by the guarded words: what a reading call replies, and what a call that
    /// downgrades has replied if it has just been done and wasn't refused.
    fn look<L: SleepLock<Self>>(lock: &L, pass: &mut L::Pass, call: Self::Call) -> Reply
        requires own { L.sits lock.now pass.old }
        requires held { (L.view pass.old).hand.held ≢ No }
        requires stored { IsStored Self.object (L.calls_on lock.now) (L.view pass.old).hand }
        requires valid { Self.object.IsCall call }
        requires looks { (Self.object.reads call ≡ true) ⊎ (downgrades call ≡ true) }
        ensures on { StepsOn L.sits L.view lock.now pass.old pass.new }
        ensures queue { GoesOn (L.spun pass.old) (L.spun pass.new) }
        ensures kept { Looks (L.view pass.old) (L.view pass.new) }
        ensures read { Self.object.reads call ≡ true →
            result ≡ reply_in Self.object (L.calls_on lock.now) (L.view pass.old).hand call }
        ensures done { downgrades call ≡ true →
            Confirms Self.object (L.calls_on lock.now) (L.view pass.old).hand call result };

    /// Does a call that changes the object, on the guarded words. The reply is its meaning's on
    /// the state after the log.
    fn change<L: SleepLock<Self>>(lock: &L, pass: &mut L::Pass, call: Self::Call) -> Reply
        requires own { L.sits lock.now pass.old }
        requires held { (L.view pass.old).hand.held ≡ Alone }
        requires stored { IsStored Self.object (L.calls_on lock.now) (L.view pass.old).hand }
        requires valid { Self.object.IsCall call }
        requires changes { Self.object.reads call ≡ false }
        ensures on { StepsOn L.sits L.view lock.now pass.old pass.new }
        ensures queue { GoesOn (L.spun pass.old) (L.spun pass.new) }
        ensures stored { HasStored (words_after Self.object (L.calls_on lock.now)
            (L.view pass.old).hand call) (L.view pass.old) (L.view pass.new) }
        ensures reply { result
            ≡ reply_in Self.object (L.calls_on lock.now) (L.view pass.old).hand call };

    // A call that downgrades doesn't read.
    ghost changes: { (call : Self.Call) →
        downgrades call ≡ true → Self.object.reads call ≡ false };
}

impl Served for Fds {
    ghost use Rattle.guarded.specs.CallServing.{no_call, nothing_downgrades};

    ghost downgrades = { no_call };

    fn downgrades(_call: TableCall) -> bool {
        false
    }

    fn look<L: SleepLock<Fds>>(lock: &L, pass: &mut L::Pass, call: TableCall) -> Reply {
        match call {
            TableCall::Get { fd } => slots::get(lock, pass, fd),
            _ => unreachable!(),
        }
    }

    fn change<L: SleepLock<Fds>>(lock: &L, pass: &mut L::Pass, call: TableCall) -> Reply {
        match call {
            TableCall::Open { file } => slots::open(lock, pass, file),
            TableCall::Close { fd } => slots::close(lock, pass, fd),
            TableCall::Dup { fd } => slots::dup(lock, pass, fd),
            TableCall::Dup2 { fd, to } => slots::dup2(lock, pass, fd, to),
            TableCall::Get { .. } => unreachable!(),
        }
    }

    ghost changes = { nothing_downgrades };
}

/// What a fault finds of a space under its lock.
fn fault<L: SleepLock<Areas>>(lock: &L, pass: &mut L::Pass, page: u32, access: u8) -> Reply
    requires own { L.sits lock.now pass.old }
    requires held { (L.view pass.old).hand.held ≢ No }
    requires access { IsAccess access }
    ensures on { StepsOn L.sits L.view lock.now pass.old pass.new }
    ensures queue { GoesOn (L.spun pass.old) (L.spun pass.new) }
    ensures kept { Looks (L.view pass.old) (L.view pass.new) }
    ensures reply { (m : PageMap) → IsPageMap m → stores m ≡ (L.view pass.old).hand.known →
        result ≡ access_reply (m page) access }
{
    meet(find_page(lock, pass, page).map(|area| area.prot), access)
}

impl Served for Areas {
    ghost use Rattle.guarded.specs.CallServing.{is_populate, populates_change};

    ghost downgrades = { is_populate };

    fn downgrades(call: SpaceCall) -> bool {
        matches!(call, SpaceCall::Populate { .. })
    }

    fn look<L: SleepLock<Areas>>(lock: &L, pass: &mut L::Pass, call: SpaceCall) -> Reply {
        match call {
            SpaceCall::Fault { page, access } => fault(lock, pass, page, access),
            SpaceCall::Populate { start, len, .. } => {
                Reply::Num(count_readable(lock, pass, start, len))
            }
            _ => unreachable!(),
        }
    }

    fn change<L: SleepLock<Areas>>(lock: &L, pass: &mut L::Pass, call: SpaceCall) -> Reply {
        apply::<LockedAreas<L>>(lock, pass, call)
    }

    ghost changes = { populates_change };
}
