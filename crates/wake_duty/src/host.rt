//! The rules whose tables have a list of waiters and wake words.
ghost use Rattle.std.specs.Prelude.{◌≡◌, ℕ, ◌+◌, ◌*◌, ◌<◌, ◌≤◌, List, Some, slice_index, slice_set};
ghost use mathlib.Core.Option.{some};
ghost use lib.ListN.{get_elem?};
ghost use Rattle.word_bits.specs.declared.TheConstants.{MAX_TASKS};
ghost use Rattle.word_bits.specs.Histories.{Plan as Calls};
ghost use Rattle.lock_core.specs.declared.layout.TheConstants.{LOCK_WORDS};
ghost use Rattle.lock_core.specs.Moves.{Goes};
ghost use Rattle.lock_core.specs.Stores.{row_at};
ghost use Rattle.lock_core.specs.Views.{SpinRests};
ghost use Rattle.wake_duty.specs.declared.view.WaitState.{WaitState as AWaitState};
ghost use Rattle.wake_duty.specs.DutyWakes.{WAKE_WORDS};
ghost use Rattle.wake_duty.specs.Types.{No, View, Waiter};
ghost use Rattle.wake_duty.specs.WakeSteps.{HasTried, knowing};

use crate::view::WaitState;
use wait_list::ListHost;

/// A rule whose table has a list of waiters, and for each task a wake word, by which it sleeps.
///
/// What a pass owes and whom it has chosen is the host's own, as is what its rule makes of it. The
/// two kinds of step on a wake word are told to the host, which proves that they keep its rule.
pub trait SleepHost: ListHost {
    /// The place of the wake word of task 0 among the words of the locks. That of each further task
    /// stands 8 words behind.
    const WAKE: usize;

    ghost WAKE: { ℕ };

    // How the pass's task waits, in what the pass knows.
    ghost wait_state: { Self.Ext → AWaitState };

    // The pass has chosen this task, and hasn't set its wake word.
    ghost has_chosen: { Self.Ext → ℕ → Type 0 };

    // What it knows once it has set the wake word of this task.
    ghost after_set: { Self.Ext → ℕ → Self.Ext };

    // What it knows once it has swapped its own wake word, which had this number, for 0.
    ghost after_swap: { Self.Ext → ℕ → Self.Ext };

    ghost wake_inside: { WAKE + WAKE_WORDS ≤ LOCK_WORDS };

    // The wake words are the lines of the tasks in row 3.
    ghost wake_room: { WAKE ≡ row_at 3 + 64 };

    ghost chosen_few: { (e : Self.Ext) (t : ℕ) → has_chosen e t → t < MAX_TASKS };

    ghost wake_bits: { (k : Calls) (ws : List ℕ) (vs : List (View Self.Ext)) (l : List Waiter) (t : ℕ) → Self.queue k ws vs l → t < MAX_TASKS → slice_index ws (WAKE + 8 * t) ≤ 1 };

    // The task that a pass has chosen may be woken.
    ghost sets_word: { (k : Calls) (ws : List ℕ) (vs : List (View Self.Ext)) (l : List Waiter) (id t : ℕ) (v : View Self.Ext) → Self.queue k ws vs l → get_elem? vs id ≡ some v → has_chosen v.ext t → Goes (Self.holds k) (Self.moves k) id ws vs (slice_set ws (WAKE + 8 * t) 1) (slice_set vs id (knowing v (after_set v.ext t))) };

    // A waiter that holds nothing, and whose try failed under the wait lock, which it has released since, may drowse.
    ghost swaps_word: { (k : Calls) (ws : List ℕ) (vs : List (View Self.Ext)) (l : List Waiter) (id t : ℕ) (v : View Self.Ext) → Self.queue k ws vs l → get_elem? vs id ≡ some v → v.hand.task ≡ Some t → t < MAX_TASKS → SpinRests v.spin → v.hand.held ≡ No → HasTried wait_state v → Goes (Self.holds k) (Self.moves k) id ws vs (slice_set ws (WAKE + 8 * t) 0) (slice_set vs id (knowing v (after_swap v.ext (slice_index ws (WAKE + 8 * t))))) };
}
