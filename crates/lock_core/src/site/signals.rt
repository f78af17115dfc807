//! Signals: a pass sends one, hears of those to its task, and consumes them.
ghost use Rattle.std.specs.Prelude.{◌≡◌, ◌+◌, ◌<◌, None, Some, IsSome, IfSome, IfNone};
ghost use Rattle.lock_core.specs.Sites.{sent_place};
ghost use Rattle.lock_core.specs.Pasts.{FoundAt};
ghost use Rattle.lock_core.specs.SitePlays.{Heeded};
ghost use Rattle.lock_core.specs.Views.{consuming, handed, sending};
ghost use Rattle.lock_core.specs.SitePasses.{Hears, HearsOf, Consumes};
ghost use Rattle.lock_core.specs.Signals.{HearsOfSome, HasHeard};
ghost use Rattle.lock_core.specs.SiteHandles.{view_of, hand_in, past_of, task_in, SitsAt, StepsAt, IsOneOf, KeepsSeat, KeepsNest, SaysSame, IsNextSignal, SawOwnSignals, SawNonePending};

use super::Site;
use super::plays::Taken;
use crate::layout::{LINES_AT, LOCK_WORDS};
use crate::pass::Pass;
use crate::rule::SiteRule;
use crate::view::View;
use crate::{Interrupted, Op};
use atomic_table::Play;
use std::marker::Brand;
use word_bits::MAX_TASKS;

/// A load, after which the pass knows how many signals were sent to its task.
pub(super) struct Hear;

impl<E> Play<(), View<E>> for Hear {
    ghost then = { Heeded Hears };
}

impl<R: SiteRule> Site<R> {
    /// Sends the signal that the next call of the pass's task is.
    pub fn signal(&self, pass: &mut Pass<R>, target: u32)
        requires own { SitsAt self.now pass.old }
        requires numbered { IsSome (task_in pass.old) }
        requires there { target < MAX_TASKS }
        requires unsent { (hand_in pass.old).sent ≡ None }
        requires next { IsNextSignal self.now pass.old target }
        ensures on { StepsAt self.now pass.old pass.new }
        ensures nest { KeepsNest pass.old pass.new }
        ensures kept { view_of pass.new ≡
            handed (view_of pass.old) (sending (hand_in pass.old) target) }
    {
        // Two tasks may send at once: each addition counts.
        self.add::<Brand>(pass, LINES_AT + 8 * target as usize + 1, 1);
    }

    /// Consumes a signal where more were sent to the pass's task than it has consumed, and tells
    /// both numbers. `None` where no more were sent. The kernel's `signal_pending_state`, and what
    /// its caller does on return.
    pub fn consume(&self, pass: &mut Pass<R>) -> Option<Interrupted>
        requires own { SitsAt self.now pass.old }
        requires numbered { IsSome (task_in pass.old) }
        ensures on { StepsAt self.now pass.old pass.new }
        ensures nest { KeepsNest pass.old pass.new }
        ensures consumed { IfSome result (λ why.
            Consumes why (view_of pass.old) (view_of pass.new)) }
        ensures saw { IfSome result (λ why. SawOwnSignals why pass.old pass.new) }
        ensures none { IfNone result (SawNonePending pass.old pass.new) }
    {
        let why = self.pending(pass)?;
        self.consume_pending(pass, why);
        Some(why)
    }

    /// Whether more signals were sent to the pass's task than it has consumed: both numbers, and
    /// `None` where no more were sent. It consumes none. The kernel's `signal_pending_state`.
    pub fn pending(&self, pass: &mut Pass<R>) -> Option<Interrupted>
        requires own { SitsAt self.now pass.old }
        requires numbered { IsSome (task_in pass.old) }
        ensures on { StepsAt self.now pass.old pass.new }
        ensures nest { KeepsNest pass.old pass.new }
        ensures face { SaysSame pass.old pass.new }
        ensures heard { IfSome result (λ why.
            HearsOfSome why (view_of pass.old) (view_of pass.new)) }
        ensures saw { IfSome result (λ why. SawOwnSignals why pass.old pass.new) }
        ensures none { IfNone result (SawNonePending pass.old pass.new) }
    {
        let Some(task) = pass.face.task else {
            return None;
        };
        let sent = self.load_sent(pass, task);
        let taken = self.find::<Taken>(pass, LINES_AT + (8 * task as usize + 2));
        if sent <= taken {
            return None;
        }
        Some(Interrupted { sent, taken })
    }

    /// Consumes a signal that the pass has heard of, and not consumed since.
    pub fn consume_pending(&self, pass: &mut Pass<R>, why: Interrupted)
        requires own { SitsAt self.now pass.old }
        requires numbered { IsSome (task_in pass.old) }
        requires heard { HasHeard why (hand_in pass.old) }
        ensures on { StepsAt self.now pass.old pass.new }
        ensures nest { KeepsNest pass.old pass.new }
        ensures face { SaysSame pass.old pass.new }
        ensures kept { view_of pass.new ≡
            handed (view_of pass.old) (consuming (hand_in pass.old)) }
    {
        let Some(task) = pass.face.task else {
            unreachable!()
        };
        // The number of signals that were sent only rises, and no other pass consumes for this
        // task: what was pending as the pass looked still is at this store.
        self.put::<Brand>(pass, LINES_AT + (8 * task as usize + 2), why.taken + 1);
    }

    /// Loads how many signals were sent to the pass's task.
    fn load_sent(&self, pass: &mut Pass<R>, task: u32) -> u64
        requires own { IsOneOf self.now pass.old }
        requires there { task < MAX_TASKS }
        requires mine { (hand_in pass.old).task ≡ Some task }
        ensures own { KeepsSeat pass.old pass.new }
        ensures face { SaysSame pass.old pass.new }
        ensures heard { HearsOf result (view_of pass.old) (view_of pass.new) }
        ensures found { FoundAt (sent_place task) result (past_of pass.new) }
    {
        let at = LINES_AT + (8 * task as usize + 1);
        self.step_stored::<Hear, Brand>(pass, LOCK_WORDS + at, self.site_at + at, Op::Load)
    }
}
