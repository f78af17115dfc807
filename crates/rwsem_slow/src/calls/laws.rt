//! What was so of a semaphore's wait lock and of its spin queue at each moment, and what each step
//! did to them.
ghost use Rattle.std.specs.Prelude.{◌≡◌, ℕ, List, [], ◌∷◌, length};
ghost use Rattle.lock_core.specs.Locking.{Looks};
ghost use Rattle.lock_core.specs.Pasts.{BeganWith, EachMoment, Ran, Tail};
ghost use Rattle.lock_core.specs.Shown.{IsLatestStep};
ghost use Rattle.lock_core.specs.SpinStated.{IsSpinLockThen, IsSpinMove};
ghost use Rattle.rwsem_slow.specs.RwSemHandles.{hand_in, newest, plan_of, shown_of, spun_of, KeepsWakes, SitsAt, SpunGoesOn, StepsOn};
ghost use Rattle.rwsem_slow.specs.RwSems.{standing, wait_lock_at};
ghost use Rattle.osq_nodes.specs.OsqPlaces.{node_marks};
ghost use Rattle.osq_nodes.specs.OsqRuled.{IsOsqMove, newest as newest_queue};
ghost use Rattle.osq_nodes.specs.OsqStated.{HasBecome, IsSpinQueue};
ghost use Rattle.osq_unqueue.specs.Fronts.{HasOneHead, IsOutOfQueue};

use super::{RwPass, RwSem};
use qspin_queue::recall_spin_lock;
use word_bits::Object;

impl<O: Object> RwSem<O> {
    /// A load, after which the pass knows of each moment of the table so far, from the new table
    /// on, who had the wait lock, who owned its pending bit and who stood in its queue. It knows
    /// what each step did to them.
    pub fn recall_wait_lock(&self, pass: &mut RwPass<O>)
        requires own { SitsAt self.now pass.old }
        ensures on { StepsOn self.now pass.old pass.new }
        ensures queue { SpunGoesOn pass.old pass.new }
        ensures still { KeepsWakes pass.old pass.new }
        ensures kept { Looks (shown_of pass.old) (shown_of pass.new) }
        ensures last { IsLatestStep (shown_of pass.new) }
        ensures begins { Tail (newest (plan_of self.now) ∷ []) (shown_of pass.new).past }
        ensures always { EachMoment (IsSpinLockThen wait_lock_at) (shown_of pass.new).past }
        ensures moves { Ran standing (newest (plan_of self.now)) (IsSpinMove wait_lock_at)
            (shown_of pass.new).past }
    {
        recall_spin_lock(&self.site, &mut pass.pass);
    }

    /// A load of the spin queue, after which the pass knows of each moment of that queue so far,
    /// from the empty one on, who stood in it, and that one task at most was its front. It knows
    /// how each queue came of the one before, and what each step counted. The pass itself isn't in
    /// the queue, and has entered it and been its front as often as it says.
    pub fn recall_spin_queue(&self, pass: &mut RwPass<O>)
        requires own { SitsAt self.now pass.old }
        ensures own { SitsAt self.now pass.new }
        ensures still { KeepsWakes pass.old pass.new }
        ensures queue { SpunGoesOn pass.old pass.new }
        ensures kept { shown_of pass.new ≡ shown_of pass.old }
        ensures begins { BeganWith (newest_queue (length (plan_of self.now))) (spun_of pass.new) }
        ensures always { EachMoment (IsSpinQueue (length (plan_of self.now))) (spun_of pass.new) }
        ensures fronts { EachMoment HasOneHead (spun_of pass.new) }
        ensures queues { (queue : List ℕ) × HasBecome (spun_of pass.new) queue }
        ensures counts { Ran node_marks (newest_queue (length (plan_of self.now)))
            (IsOsqMove (length (plan_of self.now))) (spun_of pass.new) }
        ensures out { IsOutOfQueue (hand_in pass.new).task (shown_of pass.new).fronts
            (shown_of pass.new).swaps (spun_of pass.new) }
    {
        self.osq.recall_queue(&mut pass.queue);
    }
}
