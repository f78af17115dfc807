//! What one step makes of an owner word.
ghost use Rattle.std.specs.Prelude.{◌≡◌, ◌<◌, ℕ, IfSome, None, Some};
ghost use Rattle.mutex_word.specs.Owners.{ForOwner, IsOwnerWord, Mutex, States};
ghost use Rattle.mutex_word.specs.OwnerWordSteps.{first_of, handoff_of, release_of, try_of, HandsOverLawfully, ReleasesLawfully, TriesLawfully};

use word_bits::{MAX_TASKS, Owner};

/// What a try of the mutex makes of its owner word.
#[derive(Clone, Copy, Debug, PartialEq, Eq)]
pub enum Try {
    /// This word takes the mutex.
    Take(u64),
    /// This word asks that the mutex be handed over.
    Ask(u64),
    /// The mutex can't be had.
    Fail,
}

/// The answer of a try by the task `me` that saw the word. It asks for a handoff where `ask` says
/// so and nobody did. The kernel's `__mutex_trylock_common`.
pub fn try_step(word: u64, me: u32, ask: bool) -> Try
    requires word { IsOwnerWord word }
    requires me { me < MAX_TASKS }
    ensures table { ForOwner word (λ o. result ≡ try_of o me ask) }
    ensures lawful { (m : Mutex) → States word m → TriesLawfully m me result }
{
    let Some(owner) = Owner::unpack(word) else {
        unreachable!()
    };
    let Some(task) = owner.task else {
        let task = Some(me);
        return Try::Take(Owner { task, ..owner }.pack());
    };
    match (owner.pickup, owner.handoff) {
        (true, _) if task == me => {
            let pickup = false;
            Try::Take(Owner { pickup, ..owner }.pack())
        }
        (false, false) if ask => {
            let handoff = true;
            Try::Ask(Owner { handoff, ..owner }.pack())
        }
        _ => Try::Fail,
    }
}

/// The word that a release leaves: the flags alone. `None` exactly where a handoff is asked for.
/// The first part of the kernel's `__mutex_unlock_slowpath`.
pub fn release_step(word: u64) -> Option<u64>
    requires { IsOwnerWord word }
    ensures flags { ForOwner word (λ o. result ≡ release_of o) }
    ensures lawful { (m : Mutex) (me : ℕ) → States word m → m.holder ≡ Some me →
        ReleasesLawfully m result }
{
    let Some(owner) = Owner::unpack(word) else {
        unreachable!()
    };
    if owner.handoff {
        return None;
    }
    let task = None;
    Some(Owner { task, ..owner }.pack())
}

/// The word that hands the mutex to the first waiter, or to nobody where there is none. The
/// kernel's `__mutex_handoff`.
pub fn handoff_word(word: u64, first: Option<u32>) -> u64
    requires word { IsOwnerWord word }
    requires first { IfSome first (λ task. task < MAX_TASKS) }
    ensures picks { ForOwner word (λ o. result ≡ handoff_of o first) }
    ensures lawful { (m : Mutex) (me : ℕ) → States word m → m.holder ≡ Some me →
        first ≡ first_of m.waiting → HandsOverLawfully m first result }
{
    let Some(owner) = Owner::unpack(word) else {
        unreachable!()
    };
    let picking = Owner {
        task: first,
        waiters: owner.waiters,
        handoff: false,
        pickup: first.is_some(),
    };
    picking.pack()
}
