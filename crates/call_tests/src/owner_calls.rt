//! What a task does with its next call, on a site with an owner word.
ghost use Rattle.std.specs.Prelude.{◌≡◌, ◌≢◌, length, true, false, IfSome, IsSome, Some, None};
ghost use Rattle.lock_core.specs.declared.view.Held.TheVariants.{No, Alone};
ghost use Rattle.lock_core.specs.Shown.{IsNextCall};
ghost use Rattle.lock_core.specs.Locking.{IsStored};
ghost use Rattle.mutex_word.specs.OwnerHandles.{plan_of, hand_in, task_in, held_in, SitsAt};
ghost use Rattle.call_tests.specs.OwnerStanding.{OwesNothing, OwesSame, SameSpin, SaysSame};

use lock_core::SiteLock;
use mutex_word::{OwnerPass, OwnerSite};
use std::thread;
use word_bits::{CallWords, Object, Reply, ValueObject};

/// How often a pass tries for the lock.
const TRIES: u32 = 100_000_000;

/// A call of a task: its number among the task's calls, and its words.
#[derive(Clone, Copy)]
struct NextCall {
    call: u32,
    words: CallWords,
}

/// The next call of the pass's task. `None` where the pass has no number, or its task no call left.
fn next_call<O: Object>(site: &OwnerSite<O>, pass: &mut OwnerPass<O>) -> Option<NextCall>
    requires own { SitsAt site.now pass.old }
    ensures own { SitsAt site.now pass.new }
    ensures face { SaysSame pass.old pass.new }
    ensures hand { hand_in pass.new ≡ hand_in pass.old }
    ensures spin { SameSpin pass.old pass.new }
    ensures number { IfSome result (λ next. next.call ≡ (hand_in pass.old).done) }
    ensures words { IfSome result (λ next.
        IsNextCall (plan_of site.now) (hand_in pass.old) next.words) }
{
    let task = site.task(pass)?;
    let call = site.done(pass);
    if task >= site.tasks() || call >= site.calls(task) {
        return None;
    }
    let words = site.call(pass, task, call);
    Some(NextCall { call, words })
}

/// Tries for the lock again and again, and says whether it got it.
pub fn take<O: Object>(site: &OwnerSite<O>, pass: &mut OwnerPass<O>) -> bool
    requires own { SitsAt site.now pass.old }
    requires numbered { IsSome (task_in pass.old) }
    requires out { held_in pass.old ≡ No }
    ensures own { SitsAt site.now pass.new }
    ensures taken { result ≡ true → held_in pass.new ≡ Alone }
    ensures stored { result ≡ true → IsStored O.object (plan_of site.now) (hand_in pass.new) }
    ensures missed { result ≡ false → held_in pass.new ≡ No }
    ensures task { task_in pass.new ≡ task_in pass.old }
    ensures quiet { (hand_in pass.new).writes ≡ (hand_in pass.old).writes }
    ensures spin { SameSpin pass.old pass.new }
    ensures signals { OwesSame pass.old pass.new }
{
    for _ in 0..TRIES {
        if site.trylock_once(pass).is_ok() {
            return true;
        }
        thread::yield_now();
    }
    false
}

/// Does the next call of the pass's task, and records it. `None` where the task has no call left
/// that the object has.
pub fn perform<O: ValueObject + Drop>(site: &OwnerSite<O>, pass: &mut OwnerPass<O>) -> Option<Reply>
    requires own { SitsAt site.now pass.old }
    requires held { held_in pass.old ≡ Alone }
    requires quiet { (hand_in pass.old).writes ≡ false }
    requires stored { IsStored O.object (plan_of site.now) (hand_in pass.old) }
    requires owes { OwesNothing pass.old }
    ensures own { SitsAt site.now pass.new }
    ensures held { held_in pass.new ≡ Alone }
    ensures quiet { (hand_in pass.new).writes ≡ false }
    ensures stored { IsStored O.object (plan_of site.now) (hand_in pass.new) }
    ensures task { task_in pass.new ≡ task_in pass.old }
    ensures spin { SameSpin pass.old pass.new }
    ensures owes { OwesNothing pass.new }
{
    let next = next_call(site, pass)?;
    let known = O::call_of(next.words)?;
    let mut value = load(site, pass)?;
    let reply = value.apply(known);
    if O::reads(known) {
        site.note(pass, next.call, reply);
    } else {
        store(site, pass, &value);
        site.commit(pass, next.call, reply);
    }
    Some(reply)
}

/// The value that the guarded words store.
fn load<O: ValueObject>(site: &OwnerSite<O>, pass: &mut OwnerPass<O>) -> Option<O>
    requires own { SitsAt site.now pass.old }
    requires held { held_in pass.old ≡ Alone }
    requires sized { length (hand_in pass.old).known ≡ O.WORDS }
    ensures own { SitsAt site.now pass.new }
    ensures face { SaysSame pass.old pass.new }
    ensures hand { hand_in pass.new ≡ hand_in pass.old }
    ensures spin { SameSpin pass.old pass.new }
    ensures state { IfSome result (λ v. O.object.IsState (O.state v)) }
    ensures found { IfSome result (λ v. O.object.stores (O.state v) ≡ (hand_in pass.old).known) }
{
    let mut words = [0; 257];
    for at in 0..O::WORDS {
        words[at] = site.word(pass, at);
    }
    O::load(&words[..O::WORDS])
}

/// Writes the words that store the value.
fn store<O: ValueObject>(site: &OwnerSite<O>, pass: &mut OwnerPass<O>, value: &O)
    requires own { SitsAt site.now pass.old }
    requires held { held_in pass.old ≡ Alone }
    requires sized { length (hand_in pass.old).known ≡ O.WORDS }
    ensures own { SitsAt site.now pass.new }
    ensures face { SaysSame pass.old pass.new }
    ensures log { (hand_in pass.new).log ≡ (hand_in pass.old).log }
    ensures signals { OwesSame pass.old pass.new }
    ensures spin { SameSpin pass.old pass.new }
    ensures known { (hand_in pass.new).known ≡ O.object.stores (O.state value.now) }
{
    let mut words = [0; 257];
    let stored = &mut words[..O::WORDS];
    value.store(stored);
    for at in 0..O::WORDS {
        site.set_word(pass, at, stored[at]);
    }
}
