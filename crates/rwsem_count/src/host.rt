//! The rules whose tables have a count.
ghost use Rattle.std.specs.Prelude.{◌≡◌, ℕ, ◌<◌, List, map, slice_index, slice_set};
ghost use mathlib.Core.Option.{some};
ghost use lib.ListN.{get_elem?};
ghost use Rattle.word_bits.specs.LockWords.{IsLawfulCount};
ghost use Rattle.word_bits.specs.Histories.{Plan as Calls};
ghost use Rattle.lock_core.specs.declared.layout.TheConstants.{LOCK_WORDS};
ghost use Rattle.lock_core.specs.Layout.{site};
ghost use Rattle.lock_core.specs.Stores.{HasWord};
ghost use Rattle.lock_core.specs.Views.{hand_of, handed};
ghost use Rattle.lock_core.specs.Sites.{SiteKept};
ghost use Rattle.lock_core.specs.Moves.{Goes, TriesWhere};
ghost use Rattle.rwsem_count.specs.declared.view.Bias.{Bias as ABias};
ghost use Rattle.rwsem_count.specs.Counts.{CountKept, CountMove, CountPart, HandStep, based, count_part, part};
ghost use Rattle.rwsem_count.specs.Types.{View, Hand};

use crate::view::Bias;
use lock_core::SiteRule;

/// A rule whose table has a count.
///
/// The count, how each pass holds and which bias it has added have their own facts, `CountKept`,
/// which the rule implies. Each kind of step on the count is proved once, against those facts; the
/// law `counts` carries it to the rule. It carries steps that leave WAITERS and HANDOFF as they
/// are: those that set or clear them belong to the crate that has the list.
pub trait CountHost: SiteRule {
    /// The place of the count among the words of the locks.
    const COUNT: usize;

    ghost COUNT: { ℕ };

    // Which words may stand there.
    ghost may_be: { ℕ → Type 0 };

    // The bias in what a pass knows beyond the site and the spin lock.
    ghost bias: { Self.Ext → ABias };

    // What a step that gives a pass this hand and this bias makes of what it knows beyond the site
    // and the spin lock.
    ghost counted: { View Self.Ext → Hand → ABias → Self.Ext };

    // How many readers the count has of which other words and views tell.
    ghost more: { Calls → List ℕ → List (View Self.Ext) → ℕ };

    // Where a pass with this view may come to hold so and to have such a bias.
    ghost may_count: { View Self.Ext → CountPart → Type 0 };

    // Where a try of a pass with this view may fail.
    ghost may_miss: { View Self.Ext → Type 0 };

    ghost count_inside: { COUNT < LOCK_WORDS };

    // A table has the word, however few tasks its plan has.
    ghost count_there: { (tasks : ℕ) → HasWord tasks COUNT };

    ghost bias_back: { (v : View Self.Ext) (h : Hand) (b : ABias) → bias (counted v h b) ≡ b };

    ghost count_kept: { (k : Calls) (ws : List ℕ) (vs : List (View Self.Ext)) → Self.holds k ws vs → CountKept (slice_index ws COUNT) (more k ws vs) (map (count_part bias) vs) × IsLawfulCount (slice_index ws COUNT) × may_be (slice_index ws COUNT) };

    // A step on the count that keeps its own facts, its flags and the site's facts keeps every
    // other fact of the rule. A step on another word, by which a pass comes to hold or not by a
    // bias that it has, is one that leaves the count.
    ghost counts: { (k : Calls) (ws : List ℕ) (vs : List (View Self.Ext)) (id n : ℕ) (v : View Self.Ext) (h : Hand) (b : ABias) → Self.holds k ws vs → get_elem? vs id ≡ some v → HandStep v.hand h n → TriesWhere may_miss (slice_index ws COUNT) v h → may_count v (part h b) → CountMove (slice_index ws COUNT) n (count_part bias v) (part h b) → CountKept n (more k ws vs) (slice_set (map (count_part bias) vs) id (part h b)) → SiteKept Self.O.object Self.unavailable Self.O.WORDS k (site k ws) (slice_set (map hand_of vs) id h) → Goes (Self.holds k) (Self.moves k) id ws vs (slice_set ws COUNT n) (slice_set vs id (based counted v h b)) };

    // So does a step that leaves the count, how the pass holds, its bias and what it knows beyond.
    ghost count_looks: { (k : Calls) (ws : List ℕ) (vs : List (View Self.Ext)) (id n : ℕ) (v : View Self.Ext) (h : Hand) → Self.holds k ws vs → get_elem? vs id ≡ some v → HandStep v.hand h n → TriesWhere may_miss (slice_index ws COUNT) v h → h.held ≡ v.hand.held → SiteKept Self.O.object Self.unavailable Self.O.WORDS k (site k ws) (slice_set (map hand_of vs) id h) → Goes (Self.holds k) (Self.moves k) id ws vs ws (slice_set vs id (handed v h)) };
}
