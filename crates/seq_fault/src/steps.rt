//! The single steps on a table with a sequence word.
ghost use Rattle.std.specs.Prelude.{◌≡◌, ◌≢◌, ◌+◌, ◌%◌, ◌<◌, ◌≤◌, false, true, length, slice_index, IsSome, IfOk, IfErr};
ghost use Rattle.lock_core.specs.declared.layout.TheConstants.{LOCK_WORDS};
ghost use Rattle.lock_core.specs.Holding.{released};
ghost use Rattle.lock_core.specs.Layout.{length_place};
ghost use Rattle.lock_core.specs.Plans.{calls_in};
ghost use Rattle.lock_core.specs.Pasts.{FoundAt};
ghost use Rattle.lock_core.specs.Views.{handed, ticked};
ghost use Rattle.lock_core.specs.SiteHandles.{plan_of, view_of, hand_in, past_of, task_in, held_in, done_in, SitsAt, StepsAt, SaysSame};
ghost use Rattle.seq_fault.specs.declared.view.Glance.{Glance as Moment};
ghost use Rattle.seq_fault.specs.SeqPlays.{turned, saw_log, Looked, Entered, Left, Watched, Peeked, Measured, Confirmed};
ghost use Rattle.seq_fault.specs.SeqSteps.{Begins, EntersHold, IsWatching, TellsSince, IsMeasured};
ghost use Rattle.seq_fault.specs.SeqRuled.{seq_at};
ghost use Rattle.seq_fault.specs.Types.{No, Alone, Off, On};

use crate::rule::{SEQUENCE, SeqRule};
use crate::view::Watch;
use atomic_table::Play;
use lock_core::view::View;
use lock_core::{Held, LENGTH_AT, LOCK_WORDS, Op, Pass, Site};
use std::marker::PhantomData;
use word_bits::Object;

/// The words that two loads of the sequence word saw.
#[derive(Clone, Copy, Debug, PartialEq, Eq)]
pub struct Raced {
    pub before: u64,
    pub after: u64,
}

struct Looking;

impl Play<(), View<Watch>> for Looking {
    ghost then = { Looked };
}

struct Entering<O> {
    object: PhantomData<O>,
}

impl<O: Object> Play<(), View<Watch>> for Entering<O> {
    ghost then = { Entered O.object };
}

struct Leaving;

impl Play<(), View<Watch>> for Leaving {
    ghost then = { Left };
}

struct Watching<O> {
    object: PhantomData<O>,
}

impl<O: Object> Play<(), View<Watch>> for Watching<O> {
    ghost then = { Watched O.object };
}

struct Peeking;

impl Play<(), View<Watch>> for Peeking {
    ghost then = { Peeked };
}

struct Measuring;

impl Play<(), View<Watch>> for Measuring {
    ghost then = { Measured };
}

struct Confirming;

impl Play<(), View<Watch>> for Confirming {
    ghost then = { Confirmed };
}

/// Loads the sequence word.
pub(crate) fn look<O: Object>(site: &Site<SeqRule<O>>, pass: &mut Pass<SeqRule<O>>) -> u64
    requires own { SitsAt site.now pass.old }
    ensures on { StepsAt site.now pass.old pass.new }
    ensures face { SaysSame pass.old pass.new }
    ensures kept { view_of pass.new ≡ ticked (view_of pass.old) }
    ensures found { FoundAt seq_at result (past_of pass.new) }
{
    site.step::<Looking>(pass, SEQUENCE, Op::Load)
}

/// Takes the lock where the sequence word is this even one, which becomes the next odd one.
pub(crate) fn enter<O: Object>(
    site: &Site<SeqRule<O>>,
    pass: &mut Pass<SeqRule<O>>,
    word: u64,
) -> bool
    requires own { SitsAt site.now pass.old }
    requires numbered { IsSome (task_in pass.old) }
    requires out { held_in pass.old ≡ No }
    requires even { word % 2 ≡ 0 }
    requires small { word < 18446744073709551614 }
    ensures on { StepsAt site.now pass.old pass.new }
    ensures took { result ≡ true → EntersHold O.object (plan_of site.now)
        (view_of pass.old) (view_of pass.new) }
    ensures holds { result ≡ true → held_in pass.new ≡ Alone }
    ensures missed { result ≡ false → view_of pass.new ≡ ticked (view_of pass.old) }
    ensures face { result ≡ false → SaysSame pass.old pass.new }
{
    let found = site.step::<Entering<O>>(pass, SEQUENCE, Op::Exchange(word, word + 1));
    if found != word {
        return false;
    }
    pass.set_held(Held::Alone);
    true
}

/// Ends the hold: the sequence word becomes even.
pub(crate) fn leave<O: Object>(site: &Site<SeqRule<O>>, pass: &mut Pass<SeqRule<O>>)
    requires own { SitsAt site.now pass.old }
    requires held { held_in pass.old ≡ Alone }
    requires quiet { (hand_in pass.old).writes ≡ false }
    ensures on { StepsAt site.now pass.old pass.new }
    ensures kept { view_of pass.new ≡ handed (view_of pass.old) (released (hand_in pass.old) 0) }
{
    site.step::<Leaving>(pass, SEQUENCE, Op::Add(1));
    pass.set_held(Held::No);
}

/// Loads the sequence word, and watches from then on where it is even.
pub(crate) fn watch<O: Object>(site: &Site<SeqRule<O>>, pass: &mut Pass<SeqRule<O>>) -> u64
    requires own { SitsAt site.now pass.old }
    ensures on { StepsAt site.now pass.old pass.new }
    ensures face { SaysSame pass.old pass.new }
    ensures even { result % 2 ≡ 0 → Begins O.object (plan_of site.now) result
        (view_of pass.old) (view_of pass.new) }
    ensures odd { result % 2 ≢ 0 → view_of pass.new ≡ ticked (view_of pass.old) }
    ensures found { FoundAt seq_at result (past_of pass.new) }
{
    site.step::<Watching<O>>(pass, SEQUENCE, Op::Load)
}

/// Loads a guarded word without the lock.
pub(crate) fn peek<O: Object>(
    site: &Site<SeqRule<O>>,
    pass: &mut Pass<SeqRule<O>>,
    at: usize,
) -> u64
    requires own { SitsAt site.now pass.old }
    requires inside { at < O.WORDS }
    requires watching { IsWatching (view_of pass.old) }
    ensures on { StepsAt site.now pass.old pass.new }
    ensures face { SaysSame pass.old pass.new }
    ensures told { TellsSince (λ g. result ≡ slice_index g.known at)
        (view_of pass.old) (view_of pass.new) }
{
    site.step::<Peeking>(pass, LOCK_WORDS + at, Op::Load)
}

/// Loads the length of the log without the lock.
pub(crate) fn measure<O: Object>(site: &Site<SeqRule<O>>, pass: &mut Pass<SeqRule<O>>) -> u64
    requires own { SitsAt site.now pass.old }
    requires watching { IsWatching (view_of pass.old) }
    ensures on { StepsAt site.now pass.old pass.new }
    ensures face { SaysSame pass.old pass.new }
    ensures small { result ≤ calls_in (plan_of site.now) }
    ensures found { FoundAt length_place result (past_of pass.new) }
    ensures told { TellsSince (λ g. result ≡ length g.log)
        (view_of pass.old) (view_of pass.new) }
{
    site.step::<Measuring>(pass, LOCK_WORDS + LENGTH_AT, Op::Load)
}

/// Loads the sequence word once more. Where it is the same, no load came when it was another, and
/// the pass has seen the log of that moment, which has so many entries.
pub(crate) fn confirm<O: Object>(
    site: &Site<SeqRule<O>>,
    pass: &mut Pass<SeqRule<O>>,
    before: u64,
    front: u32,
) -> Result<(), Raced>
    requires own { SitsAt site.now pass.old }
    requires watching { IsWatching (view_of pass.old) }
    requires measured { IsMeasured before front (view_of pass.old) }
    requires out { held_in pass.old ≡ No }
    ensures on { StepsAt site.now pass.old pass.new }
    ensures task { task_in pass.new ≡ task_in pass.old }
    ensures done { done_in pass.new ≡ done_in pass.old }
    ensures same { IfOk result
        (λ _. (g : Moment) → (view_of pass.old).ext ≡ On g → (g.stale ≡ false)
        × (view_of pass.new ≡ turned (view_of pass.old) (saw_log (hand_in pass.old) g) Off)) }
    ensures again { IfOk result (λ _. FoundAt seq_at before (past_of pass.new)) }
    ensures kept { IfErr result (λ _.
        view_of pass.new ≡ turned (view_of pass.old) (hand_in pass.old) Off) }
    ensures face { IfErr result (λ _. SaysSame pass.old pass.new) }
    ensures raced { IfErr result (λ why. (why.before ≡ before) × (why.after ≢ before)
        × FoundAt seq_at why.after (past_of pass.new)) }
{
    let after = site.step::<Confirming>(pass, SEQUENCE, Op::Load);
    if after != before {
        return Err(Raced { before, after });
    }
    pass.set_front(front);
    Ok(())
}
