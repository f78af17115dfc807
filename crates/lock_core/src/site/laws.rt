//! What is so of every site at each moment, and of each step of its table.
ghost use Rattle.std.specs.Prelude.{◌≡◌, false};
ghost use Rattle.lock_core.specs.Layout.{site};
ghost use Rattle.lock_core.specs.Views.{ticked};
ghost use Rattle.lock_core.specs.SiteStated.{IsSiteThen, IsSiteMoveWhere};
ghost use Rattle.lock_core.specs.Linear.{IsLinearizable};
ghost use Rattle.lock_core.specs.Pasts.{BeganWith, EachMoment, IsMarked, KeepsJoined, Ran, RanByRule, opening};
ghost use Rattle.lock_core.specs.SiteHandles.{plan_of, view_of, past_of, joined_by, SitsAt, StepsAt, KeepsNest};

use super::Site;
use super::plays::Recall;
use crate::pass::Pass;
use crate::rule::SiteRule;

impl<R: SiteRule> Site<R> {
    /// A load, after which the pass knows the whole run of the table, from the new table to this
    /// step: at each moment the rule held, and each step was one of its moves. The run goes back to
    /// all that the passes did that it had taken in. Where every call that looks at the object holds,
    /// each call took effect at one step, the one that stored its record.
    pub fn recall(&self, pass: &mut Pass<R>)
        requires own { SitsAt self.now pass.old }
        ensures on { StepsAt self.now pass.old pass.new }
        ensures nest { KeepsNest pass.old pass.new }
        ensures kept { view_of pass.new ≡ ticked (view_of pass.old) }
        ensures marked { IsMarked R.marks (view_of pass.new) (past_of pass.new) }
        ensures run { RanByRule R.marks R.idle R.holds R.moves
            (plan_of self.now) (past_of pass.new) }
        ensures joined { KeepsJoined (joined_by pass.old) (past_of pass.new) }
        ensures linear { R.reads_unheld ≡ false →
            IsLinearizable R.O.object R.O.WORDS (plan_of self.now) (past_of pass.new) }
    {
        self.table.shared.load::<Recall<R>>(&mut pass.seat, 0);
    }

    /// A load, after which the pass knows that the facts of every site were so at each moment of
    /// the table so far, from the new table on.
    pub fn stated(&self, pass: &mut Pass<R>)
        requires own { SitsAt self.now pass.old }
        ensures on { StepsAt self.now pass.old pass.new }
        ensures nest { KeepsNest pass.old pass.new }
        ensures kept { view_of pass.new ≡ ticked (view_of pass.old) }
        ensures begins { BeganWith (opening R.marks (plan_of self.now) R.idle) (past_of pass.new) }
        ensures always { EachMoment
            (IsSiteThen R.O.object R.unavailable R.O.WORDS (plan_of self.now)) (past_of pass.new) }
    {
        self.recall(pass);
    }

    /// A load, after which the pass knows what each step of the table so far did to the site's
    /// words and to what the passes count: no entry of the log was lost, and no count fell.
    pub fn grown(&self, pass: &mut Pass<R>)
        requires own { SitsAt self.now pass.old }
        ensures on { StepsAt self.now pass.old pass.new }
        ensures nest { KeepsNest pass.old pass.new }
        ensures kept { view_of pass.new ≡ ticked (view_of pass.old) }
        ensures moves { Ran R.marks (opening R.marks (plan_of self.now) R.idle)
            (IsSiteMoveWhere R.reads_unheld (plan_of self.now) R.word_at) (past_of pass.new) }
    {
        self.recall(pass);
    }
}
