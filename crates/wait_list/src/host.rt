//! The rules whose tables have a list of waiters.
ghost use Rattle.std.specs.Prelude.{◌≡◌, ℕ, ◌+◌, ◌<◌, ◌≤◌, List, map, length, slice_set, slice_index};
ghost use mathlib.Core.Option.{some};
ghost use lib.ListN.{get_elem?};
ghost use Rattle.word_bits.specs.Histories.{Plan as Calls};
ghost use Rattle.lock_core.specs.declared.layout.TheConstants.{LOCK_WORDS, SPIN_WORDS};
ghost use Rattle.lock_core.specs.Layout.{part};
ghost use Rattle.lock_core.specs.Moves.{Goes};
ghost use Rattle.lock_core.specs.Views.{SpinHolds};
ghost use Rattle.wait_list.specs.declared.words.TheConstants.{LIST_WORDS};
ghost use Rattle.wait_list.specs.Lists.{ListKept, ListMoves, LeaverGoes, Allowed, changed, counted, list_part, listed, sighted};
ghost use Rattle.wait_list.specs.Types.{View, Waiter, Change, Stay, ListHand};

use lock_core::SpinHost;

/// A rule whose table has the words of a list of waiters, which change under its spin lock.
///
/// The list's words, the list and what each pass knows of it have their own facts, `ListKept`,
/// which the rule implies. Each kind of step on the words is proved once, against those facts; the
/// law `lists` carries it to the rule. When a waiter may enter or leave is the host's condition.
pub trait ListHost: SpinHost {
    /// The place of the first of them among the words of the locks.
    const LIST: usize;

    ghost LIST: { ℕ };

    // The part of what a pass knows that concerns the list.
    ghost list: { Self.Ext → ListHand };

    // What a step on the list makes of what the pass knows.
    ghost with_list: { Change → View Self.Ext → ListHand → Self.Ext };

    // What a pass knows that has seen this head, with or without the spin lock.
    ghost saw_first: { View Self.Ext → ℕ → Self.Ext };

    // Where a pass with the spin lock may change this list so.
    ghost may_change: { Change → View Self.Ext → List Waiter → Type 0 };

    // The rule holds, and this is the list.
    ghost queue: { Calls → List ℕ → List (View Self.Ext) → List Waiter → Type 0 };

    ghost list_inside: { LIST + LIST_WORDS ≤ LOCK_WORDS };

    // Head and tail stand in the first 64 words of row 0, and the lines of the tasks behind.
    ghost list_room: { (SPIN_WORDS ≤ LIST) × (LIST + 8 ≤ SPIN_WORDS + 64) };

    ghost list_back: { (c : Change) (v : View Self.Ext) (b : ListHand) → list (with_list c v b) ≡ b };

    ghost list_same: { (v : View Self.Ext) → with_list Stay v (list v.ext) ≡ v.ext };

    ghost list_over: { (c : Change) (v : View Self.Ext) (n : ℕ) (b d : ListHand) → with_list c (record v { steps = n; ext = with_list Stay v b }) d ≡ with_list c v d };

    ghost list_again: { (c : Change) (v : View Self.Ext) (n : ℕ) (b d : ListHand) → d.list ≡ b.list → with_list Stay (record v { steps = n; ext = with_list c v b }) d ≡ with_list c v d };

    ghost may_stay: { (v : View Self.Ext) (l : List Waiter) → may_change Stay v l };

    ghost may_on: { (c : Change) (v : View Self.Ext) (b : ListHand) (l : List Waiter) → may_change c v l → may_change c (listed with_list Stay v b) l };

    ghost queued: { (k : Calls) (ws : List ℕ) (vs : List (View Self.Ext)) → Self.holds k ws vs → (l : List Waiter) × queue k ws vs l };

    ghost list_kept: { (k : Calls) (ws : List ℕ) (vs : List (View Self.Ext)) (l : List Waiter) → queue k ws vs l → ListKept (part LIST LIST_WORDS ws) l (map (list_part list) vs) };

    // Whoever waits is a task of the plan.
    ghost listed_few: { (k : Calls) (ws : List ℕ) (vs : List (View Self.Ext)) (l : List Waiter) (t : ℕ) → queue k ws vs l → 0 < counted t l → t < length k };

    // Each move of the rule leaves the list, appends one waiter, or removes one.
    ghost list_moves: { (k : Calls) (id : ℕ) (ws us : List ℕ) (vs vs' : List (View Self.Ext)) → Self.moves k id ws vs us vs' → ListMoves id (part LIST LIST_WORDS ws) (map (list_part list) vs) (part LIST LIST_WORDS us) (map (list_part list) vs') };

    ghost list_may: { (k : Calls) (ws : List ℕ) (vs : List (View Self.Ext)) (l : List Waiter) (id : ℕ) (v : View Self.Ext) (c : Change) → queue k ws vs l → get_elem? vs id ≡ some v → SpinHolds v.spin → may_change c v l → Allowed c l };

    // A step on a word of the list by a pass with the spin lock that keeps the list's own facts
    // keeps every other fact of the rule.
    ghost lists: { (k : Calls) (ws : List ℕ) (vs : List (View Self.Ext)) (l : List Waiter) (id i n : ℕ) (v : View Self.Ext) (c : Change) (b : ListHand) → queue k ws vs l → get_elem? vs id ≡ some v → i < LIST_WORDS → SpinHolds v.spin → may_change c v l → b.list ≡ changed c l → LeaverGoes c (list v.ext).leaver b.leaver → ListKept (slice_set (part LIST LIST_WORDS ws) i n) (changed c l) (slice_set (map (list_part list) vs) id (v.spin, b)) → Goes (Self.holds k) (Self.moves k) id ws vs (slice_set ws (LIST + i) n) (slice_set vs id (listed with_list c v b)) };

    // So does a load of the head by any pass.
    ghost firsts: { (k : Calls) (ws : List ℕ) (vs : List (View Self.Ext)) (l : List Waiter) (id : ℕ) (v : View Self.Ext) → queue k ws vs l → get_elem? vs id ≡ some v → Goes (Self.holds k) (Self.moves k) id ws vs ws (slice_set vs id (sighted saw_first v (slice_index (part LIST LIST_WORDS ws) 0))) };
}
