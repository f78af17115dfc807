//! What each step tells its pass. A call picks the facts and hands that it needs by `Brand`.
ghost use Rattle.std.specs.Prelude.{◌≡◌, ℕ, None, Some, [], ◌∷◌, slice_index};
ghost use Rattle.lock_core.specs.SitePasses.{IsLength, IsEntryAt, IsCallWord, IsRecWord, IsTaken};
ghost use Rattle.lock_core.specs.Chronicles.{Chronicles};
ghost use Rattle.lock_core.specs.Views.{stranger, ticked, split_off, merged, spent};
ghost use Rattle.lock_core.specs.SitePlays.{Found, PutBy, Begun};
ghost use Rattle.lock_core.specs.Pasts.{KeepsJoined, unseen, FoundAt, IsMarked, IsOwnStep, Moves, Ran, GoesOn, opening};
ghost use Rattle.lock_core.specs.Types.{Hand};
ghost use Rattle.word_bits.specs.Histories.{Plan as Calls};

use crate::rule::SiteRule;
use crate::view::{Seen, View};
use atomic_table::{Join, Play, Split};
use std::marker::{Brand, PhantomData};

/// What a load of the site's word of some number tells a pass with some hand.
pub trait Tells {
    ghost tells: { Hand → ℕ → ℕ → Type 0 };
}

/// A guarded word, for a pass that holds.
pub(super) struct Guarded;

impl Tells for Guarded {
    ghost tells = { λ h at n. n ≡ slice_index h.known at };
}

/// The length of the log, for a pass that holds.
pub(super) struct Length;

impl Tells for Length {
    ghost tells = { IsLength };
}

/// The length of the log and what it says of all calls, for a pass that holds.
pub(super) struct Chronicle<R> {
    rule: PhantomData<R>,
}

impl<R: SiteRule> Tells for Chronicle<R> {
    ghost tells = { λ h at n. IsLength h at n × ((k : Calls) → h.plan ≡ Some k → Chronicles R.O.object R.unavailable k h.records h.log) };
}

/// The word of an entry of the log, for a pass that holds.
pub(super) struct LogEntry;

impl Tells for LogEntry {
    ghost tells = { IsEntryAt };
}

/// A word of a call of the plan.
pub(super) struct CallWord;

impl Tells for CallWord {
    ghost tells = { IsCallWord };
}

/// The word of a call's record.
pub(super) struct RecWord;

impl Tells for RecWord {
    ghost tells = { IsRecWord };
}

/// How many signals the pass's task has consumed.
pub(super) struct Taken;

impl Tells for Taken {
    ghost tells = { IsTaken };
}

/// The hand that a store leaves.
pub trait Puts {
    ghost hand: { Hand };
}

impl Puts for Brand {
    ghost hand = { stranger None [] };
}

/// What hand a compare-exchange may leave where it finds what it expects.
pub trait Becomes {
    ghost becomes: { Hand → Type 0 };
}

impl Becomes for Brand {
    ghost becomes = { λ _. Unit {0} };
}

pub(super) struct Find<T> {
    told: PhantomData<T>,
}

impl<E, T: Tells> Play<(), View<E>> for Find<T> {
    ghost then = { Found T.tells };
}

pub(super) struct Put<P> {
    hand: PhantomData<P>,
}

impl<E, P: Puts> Play<(), View<E>> for Put<P> {
    ghost then = { PutBy P.hand };
}

pub(super) struct Begin<B> {
    hand: PhantomData<B>,
}

impl<E, B: Becomes> Play<(), View<E>> for Begin<B> {
    ghost then = { Begun B.becomes };
}

/// The place of the word on which a step is made.
pub(super) trait Placed {
    ghost place: { ℕ };
}

impl Placed for Brand {
    ghost place = { 0 };
}

/// The same, said of a view beside the run, and of the word's place.
pub(super) struct Lift<M, P> {
    play: PhantomData<M>,
    place: PhantomData<P>,
}

impl<E, M: Play<(), View<E>>, P: Placed> Play<(), Seen<E>> for Lift<M, P> {
    ghost then = { λ st m n m'. M.then (record st { word = P.place }) (unseen m) n (unseen m') × GoesOn m.0.past m'.0.past × IsOwnStep m'.0.view m'.0.past };
}

/// The same, beside what the step found in its word.
pub(super) struct LiftFound<M, P> {
    play: PhantomData<M>,
    place: PhantomData<P>,
}

impl<E, M: Play<(), View<E>>, P: Placed> Play<(), Seen<E>> for LiftFound<M, P> {
    ghost then = { λ st m n m'. M.then (record st { word = P.place }) (unseen m) n (unseen m') × FoundAt P.place n m'.0.past × GoesOn m.0.past m'.0.past × IsOwnStep m'.0.view m'.0.past };
}

pub(super) struct Recall<R> {
    rule: PhantomData<R>,
}

impl<R: SiteRule> Play<(), Seen<R::Ext>> for Recall<R> {
    ghost then = { λ st m n m'. (m'.0.view ≡ ticked m.0.view) × (m'.1 ≡ m.1) × GoesOn m.0.past m'.0.past × IsOwnStep m'.0.view m'.0.past × IsMarked R.marks m'.0.view m'.0.past × ((k : Calls) → m.0.view.hand.plan ≡ Some k → Ran R.marks (opening R.marks k R.idle) (Moves (R.holds k) (R.moves k)) m'.0.past) × KeepsJoined m.0.joined m'.0.past };
}

pub(super) struct Cut<R> {
    rule: PhantomData<R>,
}

impl<R: SiteRule> Split<Seen<R::Ext>> for Cut<R> {
    ghost left = { λ v. record v { view = ticked v.view } };

    ghost right = { λ v. record { view = split_off R.idle v.view; past = v.past; joined = [] } };
}

pub(super) struct Glue<R> {
    rule: PhantomData<R>,
}

impl<R: SiteRule> Join<Seen<R::Ext>> for Glue<R> {
    ghost both = { λ v w. record v { view = merged v.view w.view; joined = record { moments = w.past } ∷ v.joined } };

    ghost spent = { record { view = spent R.idle; past = []; joined = [] } };
}
