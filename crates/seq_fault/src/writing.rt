//! A changing call on the guarded words of a site whose pass holds alone.
ghost use Rattle.std.specs.Prelude.{◌≡◌, ◌≢◌, length, false, IfNone, IfSome, IsSome};
ghost use Rattle.lock_core.specs.Locking.{IsStored};
ghost use Rattle.lock_core.specs.Views.{Beside, OwesNoSignal};
ghost use Rattle.lock_core.specs.SiteHandles.{plan_of, view_of, hand_in, task_in, held_in, done_in, SitsAt, KeepsPast, SaysSame};
ghost use Rattle.seq_fault.specs.SeqWriting.{Changes, HasNextChange, SameCall};
ghost use Rattle.seq_fault.specs.Types.{Alone};

use crate::rule::SeqRule;
use lock_core::{Pass, Site};
use word_bits::{Object, Reply, ValueObject};

/// The value that the guarded words store.
fn load<O: ValueObject>(site: &Site<SeqRule<O>>, pass: &mut Pass<SeqRule<O>>) -> Option<O>
    requires own { SitsAt site.now pass.old }
    requires held { held_in pass.old ≡ Alone }
    requires sized { length (hand_in pass.old).known ≡ O.WORDS }
    ensures own { SitsAt site.now pass.new }
    ensures goes_on { KeepsPast pass.old pass.new }
    ensures face { SaysSame pass.old pass.new }
    ensures hand { hand_in pass.new ≡ hand_in pass.old }
    ensures beside { Beside (view_of pass.old) (view_of pass.new) }
    ensures state { IfSome result (λ v. O.object.IsState (O.state v)) }
    ensures found { IfSome result (λ v. O.object.stores (O.state v) ≡ (hand_in pass.old).known) }
    ensures none { IfNone result ((s : O.object.State) →
        O.object.IsState s → O.object.stores s ≢ (hand_in pass.old).known) }
{
    let mut words = [0; 257];
    for at in 0..O::WORDS {
        words[at] = site.word(pass, at);
    }
    O::load(&words[..O::WORDS])
}

/// Writes the words that store the value.
fn store<O: ValueObject>(site: &Site<SeqRule<O>>, pass: &mut Pass<SeqRule<O>>, value: &O)
    requires own { SitsAt site.now pass.old }
    requires held { held_in pass.old ≡ Alone }
    requires sized { length (hand_in pass.old).known ≡ O.WORDS }
    ensures own { SitsAt site.now pass.new }
    ensures goes_on { KeepsPast pass.old pass.new }
    ensures face { SaysSame pass.old pass.new }
    ensures kept { SameCall (hand_in pass.old) (hand_in pass.new) }
    ensures beside { Beside (view_of pass.old) (view_of pass.new) }
    ensures known { (hand_in pass.new).known ≡ O.object.stores (O.state value.now) }
{
    let mut words = [0; 257];
    let stored = &mut words[..O::WORDS];
    value.store(stored);
    for at in 0..O::WORDS {
        site.set_word(pass, at, stored[at]);
    }
}

/// Does a changing call on the guarded words, and records it.
pub(crate) fn change<O: ValueObject + Drop>(
    site: &Site<SeqRule<O>>,
    pass: &mut Pass<SeqRule<O>>,
    call: u32,
) -> Reply
    requires own { SitsAt site.now pass.old }
    requires numbered { IsSome (task_in pass.old) }
    requires held { held_in pass.old ≡ Alone }
    requires call { call ≡ done_in pass.old }
    requires recorded { OwesNoSignal (hand_in pass.old) }
    requires stored { IsStored O.object (plan_of site.now) (hand_in pass.old) }
    requires next { HasNextChange O.object (plan_of site.now) (hand_in pass.old) }
    ensures own { SitsAt site.now pass.new }
    ensures goes_on { KeepsPast pass.old pass.new }
    ensures held { held_in pass.new ≡ Alone }
    ensures quiet { (hand_in pass.new).writes ≡ false }
    ensures changed { Changes O.object (plan_of site.now)
        (hand_in pass.old) result (hand_in pass.new) }
    ensures takes { (hand_in pass.new).takes ≡ (hand_in pass.old).takes }
    ensures beside { Beside (view_of pass.old) (view_of pass.new) }
{
    let Some(task) = pass.task() else {
        unreachable!()
    };
    let words = site.call(pass, task, call);
    let Some(known) = O::call_of(words) else {
        unreachable!()
    };
    let Some(mut value) = load(site, pass) else {
        unreachable!()
    };
    let reply = value.apply(known);
    store(site, pass, &value);
    site.commit(pass, call, reply);
    reply
}
