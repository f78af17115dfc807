//! The steps on the word of a queued spin lock.
ghost use Rattle.std.specs.Prelude.{◌≡◌, ◌⊎◌, IfSome, IsSome, Some, None, true, false};
ghost use Rattle.std.specs.Option.{SomeIff};
ghost use Rattle.word_bits.specs.SpinWord.{spin_word};
ghost use Rattle.lock_decode.specs.Here.{IsLockSpin, IsTaskNode};
ghost use Rattle.lock_steps.specs.SpinSteps.{IsClear, SeesPending, locked_by, taken_by_pending, taken_alone, with_pending, with_tail, without_lock, without_pending};

use word_bits::{Spin, Tail};

/// What a contender that set the pending bit had seen.
#[derive(Clone, Copy, Debug, PartialEq, Eq)]
pub enum Pending {
    /// Neither the bit nor a tail: it owns the bit, and is the next to hold.
    Owns,
    /// A tail and no bit: it set the bit, and is to clear it.
    Undoes,
    /// The bit was set: it is another's.
    Queues,
}

/// The word of a spin lock.
#[tactic(auto, using(lock_decode::proofs::Exist::any_node))]
pub fn word_of(spin: Spin) -> u64
    requires { IsLockSpin spin }
    ensures { result ≡ spin_word spin }
{
    spin.pack()
}

/// Takes a free lock. `None` where the word isn't 0. (`queued_spin_trylock`)
pub fn take_free(spin: Spin) -> Option<Spin>
    requires { IsLockSpin spin }
    ensures word { SomeIff result (IsClear spin × (spin.tail ≡ None)) (locked_by spin) }
    ensures lawful { IfSome result IsLockSpin }
{
    if spin.locked || spin.pending || spin.tail.is_some() {
        return None;
    }
    let locked = true;
    Some(Spin { locked, ..spin })
}

/// Sets the pending bit, and tells what was seen. (`queued_fetch_set_pending_acquire`)
pub fn set_pending(spin: Spin) -> (Pending, Spin)
    requires { IsLockSpin spin }
    ensures word { result.1 ≡ with_pending spin }
    ensures sees { SeesPending spin result.0 }
    ensures lawful { IsLockSpin result.1 }
{
    let seen = match (spin.pending, spin.tail) {
        (true, _) => Pending::Queues,
        (false, Some(_)) => Pending::Undoes,
        (false, None) => Pending::Owns,
    };
    let pending = true;
    (seen, Spin { pending, ..spin })
}

/// Clears the pending bit that the task set beside a tail. `None` where it is clear.
pub fn clear_pending(spin: Spin) -> Option<Spin>
    requires { IsLockSpin spin }
    ensures word { SomeIff result (spin.pending ≡ true) (without_pending spin) }
    ensures lawful { IfSome result IsLockSpin }
{
    if !spin.pending {
        return None;
    }
    let pending = false;
    Some(Spin { pending, ..spin })
}

/// The owner of the pending bit takes. `None` where the bit is clear, or somebody holds.
/// (`clear_pending_set_locked`)
pub fn take_pending(spin: Spin) -> Option<Spin>
    requires { IsLockSpin spin }
    ensures word { SomeIff result ((spin.pending ≡ true) × (spin.locked ≡ false))
        (taken_by_pending spin) }
    ensures lawful { IfSome result IsLockSpin }
{
    if !spin.pending || spin.locked {
        return None;
    }
    let locked = true;
    let pending = false;
    Some(Spin {
        locked,
        pending,
        ..spin
    })
}

/// A node becomes the last of the queue. (`xchg_tail`)
pub fn exchange_tail(spin: Spin, node: Tail) -> Spin
    requires spin { IsLockSpin spin }
    requires node { IsTaskNode node }
    ensures word { result ≡ with_tail spin node }
    ensures lawful { IsLockSpin result }
{
    let tail = Some(node);
    Spin { tail, ..spin }
}

/// The head takes, whose node is the last too. `None` where the word is any but its tail alone.
pub fn take_alone(spin: Spin, node: Tail) -> Option<Spin>
    requires spin { IsLockSpin spin }
    ensures word { SomeIff result (IsClear spin × (spin.tail ≡ Some node)) taken_alone }
    ensures lawful { IfSome result IsLockSpin }
{
    if spin.locked || spin.pending || spin.tail != Some(node) {
        return None;
    }
    Some(Spin {
        locked: true,
        pending: false,
        tail: None,
    })
}

/// The head takes, with others behind it: the word with the locked byte. `None` where somebody
/// holds, or nobody is queued. (`set_locked`)
pub fn set_locked(spin: Spin) -> Option<Spin>
    requires { IsLockSpin spin }
    ensures word { SomeIff result ((spin.locked ≡ false) × IsSome spin.tail) (locked_by spin) }
    ensures lawful { IfSome result IsLockSpin }
{
    if spin.locked || spin.tail.is_none() {
        return None;
    }
    let locked = true;
    Some(Spin { locked, ..spin })
}

/// Releases. `None` where nobody holds. (`queued_spin_unlock`)
pub fn unlock(spin: Spin) -> Option<Spin>
    requires { IsLockSpin spin }
    ensures word { SomeIff result (spin.locked ≡ true) (without_lock spin) }
    ensures lawful { IfSome result IsLockSpin }
{
    if !spin.locked {
        return None;
    }
    let locked = false;
    Some(Spin { locked, ..spin })
}
