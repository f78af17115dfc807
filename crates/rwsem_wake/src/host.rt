//! The rules over which the steps and the wakes of a semaphore are written.
ghost use Rattle.std.specs.Prelude.{◌≡◌, ℕ, ◌+◌, ◌*◌, ◌<◌, ◌≤◌, List, map, length, slice_index, slice_set};
ghost use mathlib.Core.Option.{some};
ghost use lib.ListN.{get_elem?};
ghost use Rattle.word_bits.specs.declared.TheConstants.{MAX_TASKS};
ghost use Rattle.word_bits.specs.LockWords.{IsLawfulCount};
ghost use Rattle.word_bits.specs.Histories.{Plan as Calls};
ghost use Rattle.lock_core.specs.declared.layout.TheConstants.{LOCK_WORDS};
ghost use Rattle.lock_core.specs.Layout.{site};
ghost use Rattle.lock_core.specs.Stores.{row_at};
ghost use Rattle.lock_core.specs.Views.{SpinHolds, hand_of, ticked};
ghost use Rattle.lock_core.specs.Spins.{holds_in};
ghost use Rattle.lock_core.specs.Sites.{KeepsSaw, SiteKept};
ghost use Rattle.lock_core.specs.Totals.{total};
ghost use Rattle.lock_core.specs.Moves.{Goes};
ghost use Rattle.rwsem_count.specs.Counts.{HandStep};
ghost use Rattle.rwsem_wake.specs.declared.view.SemHand.{SemHand as ASemHand};
ghost use Rattle.rwsem_wake.specs.SemParts.{busy_weight, busy_of};
ghost use Rattle.rwsem_wake.specs.GrantSemaphores.{SemKept};
ghost use Rattle.rwsem_wake.specs.Handoffs.{KeepsHandoff};
ghost use Rattle.rwsem_wake.specs.Lines.{lines_in};
ghost use Rattle.rwsem_wake.specs.Grants.{sem_part, with_changes};
ghost use Rattle.rwsem_wake.specs.Duties.{WakeGoes};
ghost use Rattle.rwsem_wake.specs.declared.view.RwSemHand.{RwSemHand as ARwSemHand};
ghost use Rattle.rwsem_wake.specs.RwSemViews.{V, HasChosen, LeavesPicked, after_set as after_set_of, count_at, hint_at, list_at, list_of, saw_first as saw_first_of, sem_of, wake_of, with_list as with_list_of, with_sem as with_sem_of, with_wake as with_wake_of};
ghost use Rattle.rwsem_wake.specs.Types.{View, Hand, Waiter, Leave};
ghost use Rattle.rwsem_wake.specs.declared.duty.SemWake.{SemWake as ASemWake};

use crate::SemWake;
use crate::view::{RwSemHand, SemHand};
use lock_core::SiteRule;
use rwsem_count::CountHost;
use wait_list::ListHost;
use wake_duty::SleepHost;

/// A rule whose table has a count, a list of waiters, and for each task a mark and a grant word.
///
/// What these words say, and what each pass is about meanwhile, has its own facts, `SemKept`, which
/// the rule implies. Each kind of step on the count, a mark or a grant word under the wait lock is
/// proved once, against those facts; the law `sems` carries it to the rule. It asks of each step
/// that it keeps to a handoff.
pub trait GrantHost: ListHost + CountHost {
    /// The place of the mark of task 0 among the words of the locks. That of each further task
    /// stands 8 words behind. The law `sems` speaks of every word from here to the last grant word,
    /// also of those between marks and grant words: no other word may stand there.
    const MARKS: usize;

    /// The place of the grant word of task 0. That of each further task stands 8 words behind.
    const GRANTS: usize;

    ghost MARKS: { ℕ };

    ghost GRANTS: { ℕ };

    // The marks stand in a row, the grant words in the next: a table has those of its plan's tasks.
    ghost marks_row: { MARKS ≡ row_at 1 };

    ghost grants_row: { GRANTS ≡ row_at 2 };

    // The part of what a pass knows that concerns the semaphore.
    ghost sem: { Self.Ext → ASemHand };

    // What it knows where this is that part.
    ghost with_sem: { Self.Ext → ASemHand → Self.Ext };

    ghost sem_back: { (e : Self.Ext) (s : ASemHand) → sem (with_sem e s) ≡ s };

    ghost sem_same: { (e : Self.Ext) → with_sem e (sem e) ≡ e };

    ghost sem_over: { (e : Self.Ext) (s r : ASemHand) → with_sem (with_sem e s) r ≡ with_sem e r };

    // The list is no part of it.
    ghost sem_list: { (e : Self.Ext) (s : ASemHand) → Self.list (with_sem e s) ≡ Self.list e };

    // What the pass knows of wakes, and what it knows where this is that part.
    ghost wake: { Self.Ext → ASemWake };

    ghost with_wake: { Self.Ext → ASemWake → Self.Ext };

    ghost wake_same: { (e : Self.Ext) (s : ASemHand) → with_wake (with_sem e s) (wake e) ≡ with_sem e s };

    ghost sem_places: { (Self.COUNT < MARKS) × (MARKS + 8 * MAX_TASKS ≤ GRANTS) × (GRANTS + 8 * MAX_TASKS ≤ LOCK_WORDS) };

    ghost sem_kept: { (k : Calls) (ws : List ℕ) (vs : List (View Self.Ext)) (q : List Waiter) → Self.queue k ws vs q → SemKept (slice_index ws Self.COUNT) q (lines_in MARKS ws) (lines_in GRANTS ws) (map (sem_part sem) vs) × IsLawfulCount (slice_index ws Self.COUNT) × (LOCK_WORDS ≤ length ws) };

    // The holder of the wait lock alone may be at a stage.
    ghost sem_only: { (k : Calls) (ws : List ℕ) (vs : List (View Self.Ext)) (q : List Waiter) (id : ℕ) (v : View Self.Ext) → Self.queue k ws vs q → get_elem? vs id ≡ some v → SpinHolds v.spin → total busy_of (map (sem_part sem) vs) ≡ busy_weight (sem v.ext).stage };

    // A step on one of these words that keeps their own facts and the site's, and to a handoff, is
    // of a kind that keeps wakes, and counts no failed try, keeps every other fact of the rule.
    ghost sems: { (k : Calls) (ws : List ℕ) (vs : List (View Self.Ext)) (q : List Waiter) (id i n : ℕ) (v : View Self.Ext) (h : Hand) (s : ASemHand) (b : ASemWake) → Self.queue k ws vs q → get_elem? vs id ≡ some v → Self.COUNT ≤ i → i < GRANTS + 8 * MAX_TASKS → (Self.COUNT < i → MARKS ≤ i) → busy_weight s.stage ≤ holds_in v.spin → HandStep v.hand h (slice_index (slice_set ws i n) Self.COUNT) → KeepsSaw v.hand h → SemKept (slice_index (slice_set ws i n) Self.COUNT) q (lines_in MARKS (slice_set ws i n)) (lines_in GRANTS (slice_set ws i n)) (slice_set (map (sem_part sem) vs) id (record { task = h.task; held = h.held; sem = s })) → KeepsHandoff id (slice_index ws Self.COUNT) q (lines_in MARKS ws) (lines_in GRANTS ws) (map (sem_part sem) vs) (slice_index (slice_set ws i n) Self.COUNT) (lines_in MARKS (slice_set ws i n)) (lines_in GRANTS (slice_set ws i n)) (slice_set (map (sem_part sem) vs) id (record { task = h.task; held = h.held; sem = s })) → WakeGoes (slice_index ws Self.COUNT) q (lines_in GRANTS ws) (map (sem_part sem) vs) (slice_index (slice_set ws i n) Self.COUNT) (lines_in GRANTS (slice_set ws i n)) (sem_part sem v) (record { task = h.task; held = h.held; sem = s }) (wake v.ext) b → SiteKept Self.O.object Self.unavailable Self.O.WORDS k (site k ws) (slice_set (map hand_of vs) id h) → Goes (Self.holds k) (Self.moves k) id ws vs (slice_set ws i n) (slice_set vs id (with_changes with_sem with_wake v h s b)) };
}

/// A rule whose table has all that a wake needs: wake words, and the owner hint beside the count.
/// Its passes know `RwSemHand`. Whatever else it says, wakes are proved once for all such rules.
pub trait WakeHost: SiteRule<Ext = RwSemHand> + GrantHost + SleepHost {
    // The owner hint stands between the count and the words of the list.
    ghost places: { (Self.COUNT ≡ count_at) × (Self.LIST ≡ list_at) };

    // The list, the part of the semaphore and the wakes are fields of what a pass knows. RwSemViews
    // says what a change of the list, a look at its head and a set wake word make of them.
    ghost list_parts: { (Self.list ≡ list_of) × (Self.with_list ≡ with_list_of) × (Self.saw_first ≡ saw_first_of) };

    ghost sem_parts: { (Self.sem ≡ sem_of) × (Self.with_sem ≡ with_sem_of) };

    ghost wake_parts: { (Self.wake ≡ wake_of) × (Self.with_wake ≡ with_wake_of) × (Self.after_set ≡ after_set_of) };

    // A waker may remove the next of its batch. Once the batch is granted, it may set the wake word
    // of each task that it has chosen.
    ghost may_pick: { (v : V) (q : List Waiter) (t : ℕ) → LeavesPicked v q t → Self.may_change (Leave t) v q };

    ghost may_set: { (e : ARwSemHand) (t : ℕ) → HasChosen e t → Self.has_chosen e t };

    // A step on the owner hint keeps the rule, which says nothing of it.
    ghost hints: { (k : Calls) (ws : List ℕ) (vs : List V) (id n : ℕ) (v : V) → Self.holds k ws vs → get_elem? vs id ≡ some v → Goes (Self.holds k) (Self.moves k) id ws vs (slice_set ws hint_at n) (slice_set vs id (ticked v)) };
}
