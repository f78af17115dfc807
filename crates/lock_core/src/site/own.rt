//! The steps on the site's own words, which keep the site's own facts and so the rule.
ghost use Rattle.std.specs.Prelude.{◌≡◌, ◌<◌, ◌+◌, ◌*◌, true, false};
ghost use Rattle.lock_core.specs.Layout.{site_width};
ghost use Rattle.lock_core.specs.Views.{ticked, handed, with_number};
ghost use Rattle.lock_core.specs.Moves.{KeepsHold};
ghost use Rattle.lock_core.specs.Pasts.{FoundAt};
ghost use Rattle.lock_core.specs.SiteHandles.{plan_of, view_of, hand_in, past_of, IsOneOf, KeepsSeat, SaysSame, MayFind, MayPut, MayAdd, MayTake};
ghost use Rattle.lock_core.specs.Types.{Hand};

use super::Site;
use super::plays::{Becomes, Begin, Find, Put, Puts, Tells};
use crate::Op;
use crate::layout::{LINES_AT, LOCK_WORDS};
use crate::pass::Pass;
use crate::rule::SiteRule;
use std::marker::Brand;
use word_bits::MAX_TASKS;

impl<R: SiteRule> Site<R> {
    /// Loads a word, of which the site's facts tell something.
    #[inline]
    pub(crate) fn find<T: Tells>(&self, pass: &mut Pass<R>, at: usize) -> u64
        requires own { IsOneOf self.now pass.old }
        requires inside { at < site_width (plan_of self.now) }
        requires told { MayFind R.O.object R.unavailable R.reads_unheld R.O.WORDS self.now pass.old
            at T.tells }
        ensures own { KeepsSeat pass.old pass.new }
        ensures face { SaysSame pass.old pass.new }
        ensures kept { view_of pass.new ≡ ticked (view_of pass.old) }
        ensures told { T.tells (hand_in pass.old) at result }
        ensures found { FoundAt (LOCK_WORDS + at) result (past_of pass.new) }
    {
        self.step_stored::<Find<T>, Brand>(pass, LOCK_WORDS + at, self.site_at + at, Op::Load)
    }

    /// Stores a word, after which the pass has another hand.
    #[inline]
    pub(crate) fn put<P: Puts>(&self, pass: &mut Pass<R>, at: usize, new: u64)
        requires own { IsOneOf self.now pass.old }
        requires inside { at < site_width (plan_of self.now) }
        requires holds { KeepsHold R.rests (view_of pass.old) P.hand }
        requires keeps { MayPut R.O.object R.unavailable R.reads_unheld R.O.WORDS self.now pass.old
            at new P.hand }
        ensures own { KeepsSeat pass.old pass.new }
        ensures face { SaysSame pass.old pass.new }
        ensures kept { view_of pass.new ≡ handed (view_of pass.old) P.hand }
    {
        self.step_stored::<Put<P>, Brand>(pass, LOCK_WORDS + at, self.site_at + at, Op::Store(new));
    }

    /// Adds to a word, after which the pass has another hand.
    #[inline]
    pub(crate) fn add<P: Puts>(&self, pass: &mut Pass<R>, at: usize, by: u64)
        requires own { IsOneOf self.now pass.old }
        requires inside { at < site_width (plan_of self.now) }
        requires holds { KeepsHold R.rests (view_of pass.old) P.hand }
        requires keeps { MayAdd R.O.object R.unavailable R.reads_unheld R.O.WORDS self.now pass.old
            at by P.hand }
        ensures own { KeepsSeat pass.old pass.new }
        ensures face { SaysSame pass.old pass.new }
        ensures kept { view_of pass.new ≡ handed (view_of pass.old) P.hand }
    {
        self.step_stored::<Put<P>, Brand>(pass, LOCK_WORDS + at, self.site_at + at, Op::Add(by));
    }

    /// Takes a task's number where nobody has it, and says whether it did. The pass then has such a
    /// hand, and what it saw of the spin word is forgotten.
    #[inline]
    pub(crate) fn take<B: Becomes>(&self, pass: &mut Pass<R>, task: u32) -> bool
        requires own { IsOneOf self.now pass.old }
        requires inside { task < MAX_TASKS }
        requires keeps { MayTake R.O.object R.unavailable R.reads_unheld R.O.WORDS self.now pass.old
            (LINES_AT + 8 * task) B.becomes R.rests }
        ensures own { KeepsSeat pass.old pass.new }
        ensures face { SaysSame pass.old pass.new }
        ensures taken { result ≡ true →
            (g : Hand) × B.becomes g × (view_of pass.new ≡ with_number (view_of pass.old) g) }
        ensures missed { result ≡ false → view_of pass.new ≡ ticked (view_of pass.old) }
    {
        let at = LINES_AT + 8 * task as usize;
        let found = self.step_stored::<Begin<B>, Brand>(
            pass,
            LOCK_WORDS + at,
            self.site_at + at,
            Op::Exchange(0, 1),
        );
        found == 0
    }
}
