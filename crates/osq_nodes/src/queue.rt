//! Spin queues.
ghost use Rattle.std.specs.Prelude.{◌≡◌, ◌+◌, ◌<◌, ◌≤◌, ◌⊎◌, List, [], ◌∷◌, IfOk, IsSome, MatchOption, None, Some, length, ℕ};
ghost use Rattle.word_bits.specs.declared.TheConstants.{MAX_TASKS};
ghost use Rattle.lock_core.specs.SiteHandles.{plan_of};
ghost use Rattle.lock_core.specs.Pasts.{BeganWith, EachMoment, Ran};
ghost use Rattle.lock_core.specs.Views.{merged, ticked};
ghost use Rattle.osq_nodes.specs.OsqPlaces.{node_marks, waits_at, takes_at};
ghost use Rattle.osq_nodes.specs.OsqRuled.{IsOsqMove, newest, no_calls};
ghost use Rattle.osq_nodes.specs.OsqStated.{HasBecome, IsSpinQueue};
ghost use Rattle.osq_nodes.specs.Types.{Out, Waiting, Head};

use crate::pass::OsqPass;
use crate::rule::QueueRule;
use crate::steps;
use cpu_task::Pauses;
use lock_core::{Plan, Site};
use std::alloc::{AllocError, Global};
use std::sync::Wait;

/// A spin queue. Contracts see for how many tasks it is (`tasks_of`).
#[derive(Drop)]
pub struct Osq {
    pub(crate) site: Site<QueueRule>,
    ghost plain: { plan_of site ≡ no_calls (length (plan_of site)) },
}

impl Osq {
    ghost use Rattle.osq_nodes.specs.OsqHandles.{tasks_of, view_of, task_in, place_in, fronts_in, swaps_in, found_in, steps_in, past_of, SawOther, SawTail, SitsAt, StepsAt, KeepsNode, KeepsNumber, KeepsPast, IsLatest, StatesOwn};

    /// An empty queue for so many tasks. The pass has no task number.
    pub fn open(alloc: Global, tasks: u32) -> Result<(Osq, OsqPass), AllocError>
        requires { tasks ≤ MAX_TASKS }
        ensures own { IfOk result (λ t. SitsAt t.0 t.1) }
        ensures tasks { IfOk result (λ t. tasks_of t.0 ≡ tasks) }
        ensures numberless { IfOk result (λ t. task_in t.1 ≡ None) }
        ensures out { IfOk result (λ t. place_in t.1 ≡ Out) }
        ensures counts { IfOk result (λ t. (fronts_in t.1 ≡ 0) × (swaps_in t.1 ≡ 0)) }
        ensures past { IfOk result (λ t. past_of t.1 ≡ newest tasks ∷ []) }
        ensures empty { IfOk result (λ t. HasBecome (past_of t.1) []) }
    {
        let plan = Plan::new(alloc, tasks)?;
        let (site, pass) = Site::open(alloc, plan)?;
        Ok((Osq { site }, OsqPass { pass }))
    }

    /// A pass without a task number.
    pub fn split(&self, pass: &mut OsqPass) -> OsqPass
        requires own { SitsAt self.now pass.old }
        ensures own { SitsAt self.now pass.new }
        ensures goes_on { KeepsPast pass.old pass.new }
        ensures number { KeepsNumber pass.old pass.new }
        ensures node { KeepsNode pass.old pass.new }
        ensures step { steps_in pass.new ≡ steps_in pass.old + 1 }
        ensures its_own { SitsAt self.now result }
        ensures numberless { task_in result ≡ None }
        ensures out { place_in result ≡ Out }
        ensures counts { (fronts_in result ≡ 0) × (swaps_in result ≡ 0) }
        ensures past { past_of result ≡ past_of pass.old }
    {
        OsqPass {
            pass: self.site.split(&mut pass.pass),
        }
    }

    /// Waits until nobody has the task's number, and takes it.
    pub fn begin<W: Wait>(&self, rt: &W, pass: &mut OsqPass, task: u32)
        requires own { SitsAt self.now pass.old }
        requires numberless { task_in pass.old ≡ None }
        requires there { task < tasks_of self.now }
        ensures own { SitsAt self.now pass.new }
        ensures goes_on { KeepsPast pass.old pass.new }
        ensures last { IsLatest pass.new }
        ensures mine { task_in pass.new ≡ Some task }
        ensures node { KeepsNode pass.old pass.new }
    {
        self.site.begin(rt, &mut pass.pass, task);
    }

    /// Gives the pass's number back. Its node isn't in the queue.
    pub fn end(&self, pass: &mut OsqPass)
        requires own { SitsAt self.now pass.old }
        requires numbered { IsSome (task_in pass.old) }
        requires out { place_in pass.old ≡ Out }
        ensures own { SitsAt self.now pass.new }
        ensures goes_on { KeepsPast pass.old pass.new }
        ensures last { IsLatest pass.new }
        ensures numberless { task_in pass.new ≡ None }
        ensures node { KeepsNode pass.old pass.new }
        ensures step { steps_in pass.new ≡ steps_in pass.old + 1 }
    {
        self.site.end(&mut pass.pass);
    }

    /// Takes in another pass, which is spent. Neither has a node in the queue. The pass then goes
    /// back to all that the other one did.
    pub fn gather(&self, into: &mut OsqPass, other: OsqPass)
        requires own { SitsAt self.now into.old }
        requires others_own { SitsAt self.now other }
        requires out { place_in into.old ≡ Out }
        requires other_out { place_in other ≡ Out }
        requires numberless { task_in other ≡ None }
        ensures own { SitsAt self.now into.new }
        ensures goes_on { KeepsPast into.old into.new }
        ensures taken { KeepsPast other into.new }
        ensures last { IsLatest into.new }
        ensures kept { view_of into.new ≡ ticked (merged (view_of into.old) (view_of other)) }
        ensures same { task_in into.new ≡ task_in into.old }
        ensures node { KeepsNode into.old into.new }
        ensures steps { steps_in into.new ≡ steps_in into.old + 2 }
    {
        self.site.gather(&mut into.pass, other.pass);
        self.site.recall(&mut into.pass);
    }

    /// Enters the queue, and answers the predecessor, or None where the queue was empty: then the
    /// pass is its head.
    pub fn enter(&self, pass: &mut OsqPass, task: u32) -> Option<u32>
        requires own { SitsAt self.now pass.old }
        requires mine { task_in pass.old ≡ Some task }
        requires out { place_in pass.old ≡ Out }
        ensures on { StepsAt self.now pass.old pass.new }
        ensures swapped { swaps_in pass.new ≡ swaps_in pass.old + 1 }
        ensures found { SawTail pass.old pass.new }
        ensures first { MatchOption result (found_in pass.new ≡ 0)
            (λ prev. found_in pass.new ≡ prev + 1) }
        ensures place { MatchOption result (place_in pass.new ≡ Head)
            (λ prev. place_in pass.new ≡ Waiting) }
        ensures fronts { MatchOption result (fronts_in pass.new ≡ fronts_in pass.old + 1)
            (λ prev. fronts_in pass.new ≡ fronts_in pass.old) }
        ensures steps { MatchOption result (steps_in pass.new ≡ steps_in pass.old + 3)
            (λ prev. steps_in pass.new ≡ steps_in pass.old + 5) }
        ensures there { MatchOption result (Unit {0}) (λ prev. prev < tasks_of self.now) }
    {
        steps::clear_locked(self, pass, task);
        steps::clear_next(self, pass, task);
        let found = steps::swap_tail(self, pass, task);
        if found == 0 {
            return None;
        }
        let prev = (found - 1) as u32;
        steps::store_prev(self, pass, task, prev);
        steps::link(self, pass, task, prev);
        Some(prev)
    }

    /// Waits until the task is the last, and leaves, or until it has a successor, whose code it
    /// takes out of its own `next`. `prev` is its predecessor, and None where it is the head. The
    /// kernel's `osq_wait_next`.
    pub fn wait_next<W: Wait>(
        &self,
        rt: &W,
        pass: &mut OsqPass,
        task: u32,
        prev: Option<u32>,
    ) -> Option<u32>
        requires own { SitsAt self.now pass.old }
        requires mine { task_in pass.old ≡ Some task }
        requires here { place_in pass.old ≡ waits_at prev }
        ensures on { StepsAt self.now pass.old pass.new }
        ensures swaps { swaps_in pass.new ≡ swaps_in pass.old }
        ensures found { found_in pass.new ≡ found_in pass.old }
        ensures fronts { fronts_in pass.new ≡ fronts_in pass.old }
        ensures place { MatchOption result (place_in pass.new ≡ Out)
            (λ next. (next < tasks_of self.now) × (place_in pass.new ≡ takes_at prev next)) }
    {
        let pauses = Pauses::new();
        for _ in rt.forever() {
            if steps::is_last(self, pass, task, prev) && steps::leave_tail(self, pass, task, prev) {
                return None;
            }
            // Looked at before it is swapped, so that the line stays shared while nobody is behind.
            if steps::has_next(self, pass, task, prev) {
                if let Some(next) = steps::take_next(self, pass, task, prev) {
                    return Some(next);
                }
            }
            pauses.pause();
        }
        unreachable!()
    }

    /// Enters the queue, and returns as its head.
    pub fn wait<W: Wait>(&self, rt: &W, pass: &mut OsqPass)
        requires own { SitsAt self.now pass.old }
        requires numbered { IsSome (task_in pass.old) }
        requires out { place_in pass.old ≡ Out }
        ensures on { StepsAt self.now pass.old pass.new }
        ensures head { place_in pass.new ≡ Head }
        ensures fronts { fronts_in pass.new ≡ fronts_in pass.old + 1 }
        ensures swapped { swaps_in pass.new ≡ swaps_in pass.old + 1 }
        ensures found { SawTail pass.old pass.new }
        ensures quick { found_in pass.new ≡ 0 → steps_in pass.new ≡ steps_in pass.old + 3 }
    {
        let Some(task) = pass.task() else {
            unreachable!()
        };
        if self.enter(pass, task).is_none() {
            return;
        }
        let pauses = Pauses::new();
        for _ in rt.forever() {
            if steps::is_granted(self, pass, task) {
                return;
            }
            pauses.pause();
        }
        unreachable!()
    }

    /// Leaves the queue as its head, and grants the successor, where it has one. The kernel's
    /// `osq_unlock`.
    pub fn unlock<W: Wait>(&self, rt: &W, pass: &mut OsqPass)
        requires own { SitsAt self.now pass.old }
        requires numbered { IsSome (task_in pass.old) }
        requires head { place_in pass.old ≡ Head }
        ensures on { StepsAt self.now pass.old pass.new }
        ensures out { place_in pass.new ≡ Out }
        ensures fronts { fronts_in pass.new ≡ fronts_in pass.old }
        ensures swaps { swaps_in pass.new ≡ swaps_in pass.old }
        ensures found { found_in pass.new ≡ found_in pass.old }
        ensures quick { (steps_in pass.new ≡ steps_in pass.old + 1)
            ⊎ SawOther pass.old pass.new }
    {
        let Some(task) = pass.task() else {
            unreachable!()
        };
        if steps::leave_tail(self, pass, task, None) {
            return;
        }
        // Whoever swapped the tail may not have stored its link yet.
        let next = match steps::take_next(self, pass, task, None) {
            Some(next) => next,
            None => match self.wait_next(rt, pass, task, None) {
                Some(next) => next,
                None => return,
            },
        };
        steps::grant(self, pass, task, next);
    }

    /// A load, after which the pass knows the whole run of the queue, from the new table to this
    /// step: what was so at each moment, how each queue came of the one before, and what each step
    /// counted.
    pub fn recall_queue(&self, pass: &mut OsqPass)
        requires own { SitsAt self.now pass.old }
        ensures on { StepsAt self.now pass.old pass.new }
        ensures node { KeepsNode pass.old pass.new }
        ensures step { steps_in pass.new ≡ steps_in pass.old + 1 }
        ensures begins { BeganWith (newest (tasks_of self.now)) (past_of pass.new) }
        ensures always { EachMoment (IsSpinQueue (tasks_of self.now)) (past_of pass.new) }
        ensures queues { (queue : List ℕ) × HasBecome (past_of pass.new) queue }
        ensures mine { StatesOwn pass.new }
        ensures counts { Ran node_marks (newest (tasks_of self.now)) (IsOsqMove (tasks_of self.now))
            (past_of pass.new) }
    {
        self.site.recall(&mut pass.pass);
    }
}
