//! The single step on a word. Nothing but `step_stored` changes a word of a table. Crates above
//! reach the words of their locks by `step`, and a site's own calls use `step_stored` itself. Both
//! ask that the step keeps the rule and is one of its moves.
ghost use Rattle.std.specs.Prelude.{◌<◌, length};
ghost use Rattle.lock_core.specs.Layout.{width};
ghost use Rattle.lock_core.specs.Stores.{HasWord, IsStoredAt};
ghost use Rattle.lock_core.specs.Ops.{told_by};
ghost use Rattle.lock_core.specs.Pasts.{FindsAt};
ghost use Rattle.lock_core.specs.SiteHandles.{plan_of, past_of, seat_in, step_at, IsOneOf, IsSameSeat, KeepsPast, SaysSame, KeepsNest, MayStep, IsLatest};

use super::Site;
use super::plays::{Lift, LiftFound, Placed};
use crate::Op;
use crate::layout::{LOCK_WORDS, ROW_WORDS, SPIN_WORDS};
use crate::pass::Pass;
use crate::rule::SiteRule;
use crate::view::View;
use atomic_table::Play;
use std::marker::Brand;

impl<R: SiteRule> Site<R> {
    /// Does one atomic operation on a word, and answers what the word was before. A store doesn't
    /// learn that, and answers what it stored. The table must have the word: it need not have those
    /// of tasks that aren't the plan's.
    ///
    /// `M` says what the step tells the pass, and what the pass knows after it.
    #[inline(always)]
    pub fn step<M: Play<(), View<R::Ext>>>(&self, pass: &mut Pass<R>, word: usize, op: Op) -> u64
        requires own { IsOneOf self.now pass.old }
        requires inside { word < width (plan_of self.now) }
        requires there { HasWord (length (plan_of self.now)) word }
        requires lets { MayStep R.holds R.moves self.now pass.old word op
            (λ n. M.then (step_at self.now word op) (seat_in pass.old) (told_by op n)) }
        ensures own { IsSameSeat pass.old pass.new }
        ensures face { SaysSame pass.old pass.new }
        ensures nest { KeepsNest pass.old pass.new }
        ensures goes_on { KeepsPast pass.old pass.new }
        ensures last { IsLatest pass.new }
        ensures told { M.then
            (step_at self.now word op) (seat_in pass.old) result (seat_in pass.new) }
        ensures found { FindsAt op word result (past_of pass.new) }
    {
        let at = self.stored(word);
        self.step_stored::<M, Brand>(pass, word, at, op)
    }

    /// Where the table stores the word of this place. Of each task that the plan doesn't have, four
    /// lines are left out behind the spin words, and one behind each row.
    #[inline(always)]
    fn stored(&self, place: usize) -> usize
        requires inside { place < width (plan_of self.now) }
        requires there { HasWord (length (plan_of self.now)) place }
        ensures at { IsStoredAt (length (plan_of self.now)) place result }
    {
        if place < SPIN_WORDS {
            place
        } else if place < LOCK_WORDS {
            let row = (place - SPIN_WORDS) / ROW_WORDS;
            place - (4 + row) * self.left_out
        } else {
            place - 8 * self.left_out
        }
    }

    /// The same step, where it is known where the table stores the word. The word's place is read
    /// in proofs alone.
    #[inline(always)]
    pub(super) fn step_stored<M: Play<(), View<R::Ext>>, P: Placed>(
        &self,
        pass: &mut Pass<R>,
        _word: usize,
        at: usize,
        op: Op,
    ) -> u64
        requires own { IsOneOf self.now pass.old }
        requires inside { P.place < width (plan_of self.now) }
        requires there { IsStoredAt (length (plan_of self.now)) P.place at }
        requires lets { MayStep R.holds R.moves self.now pass.old P.place op
            (λ n. M.then (step_at self.now P.place op) (seat_in pass.old) (told_by op n)) }
        ensures own { IsSameSeat pass.old pass.new }
        ensures face { SaysSame pass.old pass.new }
        ensures nest { KeepsNest pass.old pass.new }
        ensures goes_on { KeepsPast pass.old pass.new }
        ensures last { IsLatest pass.new }
        ensures told { M.then
            (step_at self.now P.place op) (seat_in pass.old) result (seat_in pass.new) }
        ensures found { FindsAt op P.place result (past_of pass.new) }
    {
        let table = &self.table.shared;
        let seat = &mut pass.seat;
        match op {
            Op::Load => table.load::<LiftFound<M, P>>(seat, at),
            Op::Store(new) => {
                table.store::<Lift<M, P>>(seat, at, new);
                new
            }
            Op::Swap(new) => table.swap::<LiftFound<M, P>>(seat, at, new),
            Op::Add(by) => table.fetch_add::<LiftFound<M, P>>(seat, at, by),
            Op::Sub(by) => table.fetch_sub::<LiftFound<M, P>>(seat, at, by),
            Op::Or(bits) => table.fetch_or::<LiftFound<M, P>>(seat, at, bits),
            Op::And(bits) => table.fetch_and::<LiftFound<M, P>>(seat, at, bits),
            Op::Exchange(old, new) => {
                table.compare_exchange::<LiftFound<M, P>>(seat, at, old, new)
            }
        }
    }
}
