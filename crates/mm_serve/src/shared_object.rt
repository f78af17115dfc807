//! An object as a machine deals with it, whatever its kind and its lock.
ghost use Rattle.std.specs.Prelude.{◌≡◌, ℕ, ◌+◌, ◌<◌, Bool, List, [], length, IfOk};
ghost use Rattle.word_bits.specs.Histories.{Plan as Calls};
ghost use Rattle.lock_core.specs.Pasts.{GoesOn};
ghost use Rattle.lock_core.specs.Records.{row};
ghost use Rattle.mm_serve.specs.MachineCopying.{WasHeldWith, blank};
ghost use Rattle.mm_serve.specs.MachineHistories.{HasDoneOn, AllHaveDone, IsKnownHistoryOn, IsPlanOn};
ghost use Rattle.mm_serve.specs.MachineQueues.{GoesBackToTask};
ghost use Rattle.mm_serve.specs.Types.{Hand, Moment};
ghost use Rattle.mm_serve.specs.Workers.{KnowsMore};

use cpu_task::{Context, Crew, Gate};
use lock_core::Plan;
use std::alloc::{AllocError, Global};
use std::sync::Wait;
use word_bits::Snapshot;

/// An object under its lock, which a machine's tasks share.
pub trait SharedObject: Sized {
    /// What a task makes its calls with.
    type Pass: Drop;

    ghost is_space: { Self → Bool };

    // The calls that the tasks are to make on it.
    ghost calls_on: { Self → Calls };

    // What is known of a pass.
    ghost hand: { Self.Pass → Hand };

    // The moments of the object's table up to the pass's last step, the last one first.
    ghost past: { Self.Pass → List Moment };

    // The moments of the lock's spin queue up to the pass's last step there, the last one first.
    ghost spun: { Self.Pass → List Moment };

    // The pass is one of this object's. It has no task's number, and owes nothing.
    ghost idle: { Self → Self.Pass → Type 0 };

    // The pass is one of this object's. It has this task's number, owes nothing, and knows the
    // records of all calls that the task has done.
    ghost serving: { Self → Self.Pass → (task : ℕ) → Type 0 };

    // The pass is one of this object's. It has this task's number, and by its last step all the
    // task's calls were recorded. It knows what was so of the lock's spin queue at each moment up
    // to its last step there.
    ghost looked_back: { Self → Self.Pass → (task : ℕ) → Type 0 };

    // The pass knows what was so of the object's table at each moment so far.
    ghost knows_past: { Self → Self.Pass → Type 0 };

    /// A new object, in its empty state, with these calls to come. Gates know it by the number.
    fn open(
        alloc: Global,
        number: u32,
        space: bool,
        plan: Plan,
    ) -> Result<(Self, Self::Pass), AllocError>
        requires { IsPlanOn space plan }
        ensures own { IfOk result (λ t. idle t.0 t.1) }
        ensures unseen { IfOk result (λ t. (hand t.1).seen ≡ []) }
        ensures kind { IfOk result (λ t. is_space t.0 ≡ space) }
        ensures plan { IfOk result (λ t. calls_on t.0 ≡ plan) };

    /// A pass that has seen no entry.
    fn split(&self, pass: &mut Self::Pass) -> Self::Pass
        requires own { idle self.now pass.old }
        requires unseen { (hand pass.old).seen ≡ [] }
        ensures own { idle self.now pass.new }
        ensures kept { hand pass.new ≡ hand pass.old }
        ensures given { idle self.now result × ((hand result).seen ≡ []) };

    /// Takes the number of a task that has done no call. Waits for good where it has done one.
    fn begin<W: Wait>(&self, rt: &W, pass: &mut Self::Pass, task: u32)
        requires own { idle self.now pass.old }
        requires unseen { (hand pass.old).seen ≡ [] }
        requires there { task < length (calls_on self.now) }
        ensures own { serving self.now pass.new task }
        ensures none { (hand pass.new).done ≡ 0 };

    /// Does the task's next call.
    fn perform<W: Wait, C: Crew, G: Gate>(
        &self,
        context: Context<'_, W, C, G>,
        pass: &mut Self::Pass,
        cpu: &mut C::C,
        task: u32,
    )
        requires own { serving self.now pass.old task }
        requires more { (hand pass.old).done < length (row (calls_on self.now) task) }
        ensures own { serving self.now pass.new task }
        ensures done { (hand pass.new).done ≡ (hand pass.old).done + 1 };

    /// Looks back at the object's table and at the lock's spin queue, and gives the task's number
    /// back, when all its calls are done.
    fn end(&self, pass: &mut Self::Pass, task: u32)
        requires own { serving self.now pass.old task }
        requires all { (hand pass.old).done ≡ length (row (calls_on self.now) task) }
        ensures own { idle self.now pass.new }
        ensures done { HasDoneOn (is_space self.now) (calls_on self.now) (hand pass.new) task }
        ensures looks { GoesBackToTask looked_back past spun self.now task pass.new };

    /// Takes in what another pass knows, which is spent.
    fn gather(&self, into: &mut Self::Pass, other: Self::Pass)
        requires own { idle self.now into.old × idle self.now other }
        ensures own { idle self.now into.new }
        ensures kept { KnowsMore (hand into.old) (hand into.new) }
        ensures taken { KnowsMore (hand other) (hand into.new) }
        ensures goes_on { GoesOn (past into.old) (past into.new) }
        ensures others_past { GoesOn (past other) (past into.new) }
        ensures queue { GoesOn (spun into.old) (spun into.new) }
        ensures others_queue { GoesOn (spun other) (spun into.new) };

    /// Copies what there is when all tasks have done their calls: one thread's history.
    fn snapshot<W: Wait, C: Crew>(
        &self,
        rt: &W,
        pass: &mut Self::Pass,
        cpu: &mut C::C,
        crew: &C,
        out: &mut Snapshot,
    )
        requires own { idle self.now pass.old }
        requires done { AllHaveDone (is_space self.now) (calls_on self.now) (hand pass.old) }
        requires some { 0 < length (calls_on self.now) }
        requires blank { out.old ≡ blank (is_space self.now) (calls_on self.now) }
        ensures own { idle self.now pass.new }
        ensures copied { IsKnownHistoryOn (is_space self.now) (calls_on self.now)
            (hand pass.new) out.new }
        ensures held { WasHeldWith out.new (hand pass.new).records (past pass.new) }
        ensures goes_on { GoesOn (past pass.old) (past pass.new) }
        ensures queue { GoesOn (spun pass.old) (spun pass.new) };

    /// Looks at the object's table, after which the pass knows its past.
    fn recall(&self, pass: &mut Self::Pass)
        requires own { idle self.now pass.old }
        ensures own { idle self.now pass.new }
        ensures kept { hand pass.new ≡ hand pass.old }
        ensures goes_on { GoesOn (past pass.old) (past pass.new) }
        ensures queue { GoesOn (spun pass.old) (spun pass.new) }
        ensures past { knows_past self.now pass.new };
}
