//! The steps by which a task queues at a mutex and leaves its list.
ghost use Rattle.std.specs.Prelude.{◌≡◌, IfSome, true, false};
ghost use Rattle.std.specs.Option.{SomeIff};
ghost use Rattle.lock_decode.specs.Here.{IsMutexOwner};
ghost use Rattle.lock_steps.specs.OwnerSteps.{flagless, with_waiters};

use word_bits::Owner;

/// The first waiter queues: the word with WAITERS. `None` where it is set. The kernel's
/// `__mutex_add_waiter`.
pub fn set_waiters(owner: Owner) -> Option<Owner>
    requires { IsMutexOwner owner }
    ensures word { SomeIff result (owner.waiters ≡ false) (with_waiters owner) }
    ensures lawful { IfSome result IsMutexOwner }
{
    if owner.waiters {
        return None;
    }
    let waiters = true;
    Some(Owner { waiters, ..owner })
}

/// The last waiter leaves: the word without flags. `None` where no WAITERS is set, or a task is
/// picked: that one takes before it leaves. The kernel's `__mutex_remove_waiter`.
pub fn clear_flags(owner: Owner) -> Option<Owner>
    requires { IsMutexOwner owner }
    ensures word { SomeIff result ((owner.waiters ≡ true) × (owner.pickup ≡ false))
        (flagless owner) }
    ensures lawful { IfSome result IsMutexOwner }
{
    if !owner.waiters || owner.pickup {
        return None;
    }
    Some(Owner {
        task: owner.task,
        waiters: false,
        handoff: false,
        pickup: false,
    })
}
