//! Tables that have the words of spin locks.
ghost use Rattle.std.specs.Prelude.{◌≡◌, ℕ, ◌+◌, ◌<◌, ◌≤◌, List, map, slice_set};
ghost use mathlib.Core.Option.{some};
ghost use lib.ListN.{get_elem?};
ghost use Rattle.word_bits.specs.Histories.{Plan as Calls};
ghost use Rattle.lock_core.specs.declared.layout.TheConstants.{LOCK_WORDS, SPIN_WORDS};
ghost use Rattle.lock_core.specs.Layout.{part};
ghost use Rattle.lock_core.specs.Views.{spin_part, part_with};
ghost use Rattle.lock_core.specs.Spins.{SpinsKept, SpinGoes, SpinsMove, SpinFrees, spun};
ghost use Rattle.lock_core.specs.Moves.{Goes};
ghost use Rattle.lock_core.specs.Types.{View, SpinHand};

use crate::rule::SiteRule;
use crate::view::View;

/// A rule whose table has the words of spin locks, of which no other fact of the rule speaks.
pub trait SpinHost: SiteRule {
    /// The place of the first of them, which is the word of the first lock. It is 0.
    const FIRST: usize;

    /// How many locks there are.
    const LOCKS: usize;

    ghost FIRST: { ℕ };

    ghost LOCKS: { ℕ };

    // Where a pass may release a spin lock.
    ghost may_free: { View Self.Ext → Type 0 };

    // A table stores spin words from its first place on.
    ghost spin_first: { FIRST ≡ 0 };

    ghost spin_inside: { FIRST + SPIN_WORDS ≤ LOCK_WORDS };

    ghost spin_some: { 1 ≤ LOCKS };

    ghost spin_eight: { LOCKS ≤ 8 };

    ghost spin_kept: { (k : Calls) (ws : List ℕ) (vs : List (View Self.Ext)) → Self.holds k ws vs → SpinsKept LOCKS (part FIRST SPIN_WORDS ws) (map spin_part vs) };

    // Each move of the rule is one of the spin locks.
    ghost spin_moves: { (k : Calls) (id : ℕ) (ws us : List ℕ) (vs vs' : List (View Self.Ext)) → Self.moves k id ws vs us vs' → SpinsMove LOCKS id (part FIRST SPIN_WORDS ws) (map spin_part vs) (part FIRST SPIN_WORDS us) (map spin_part vs') };

    // A step at one of the locks, on the spin words, that keeps the locks' own facts and is one of
    // their moves keeps every other fact of the rule.
    ghost spins: { (k : Calls) (ws : List ℕ) (vs : List (View Self.Ext)) (id l i n : ℕ) (v : View Self.Ext) (s : SpinHand) → Self.holds k ws vs → get_elem? vs id ≡ some v → l < LOCKS → i < SPIN_WORDS → SpinGoes (v.steps + 1) l v.spin s → (SpinFrees l v.spin s → may_free v) → SpinsMove LOCKS id (part FIRST SPIN_WORDS ws) (map spin_part vs) (slice_set (part FIRST SPIN_WORDS ws) i n) (slice_set (map spin_part vs) id (part_with v s)) → Goes (Self.holds k) (Self.moves k) id ws vs (slice_set ws (FIRST + i) n) (slice_set vs id (spun v s)) };
}
