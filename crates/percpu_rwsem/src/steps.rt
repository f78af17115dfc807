//! The single steps on the words of a per-CPU semaphore.
ghost use Rattle.std.specs.Prelude.{◌≡◌, ◌≢◌, ℕ, ◌+◌, ◌<◌, false, length, Some, IfOk, IfErr};
ghost use Rattle.lock_core.specs.Holding.{released};
ghost use Rattle.lock_core.specs.Pasts.{FoundAt};
ghost use Rattle.lock_core.specs.Views.{ticked};
ghost use Rattle.lock_core.specs.SiteHandles.{plan_of, view_of, hand_in, past_of, task_in, held_in, SitsAt, StepsAt, SaysSame};
ghost use Rattle.percpu_rwsem.specs.PercpuPlays.{NamesOther, NamesTask, TakesPhase, phased, unheld, Goes, Looked, Ended, Seen, Blocked, Drained, Unblocked};
ghost use Rattle.percpu_rwsem.specs.PercpuRuled.{block_at, count_at};
ghost use Rattle.percpu_rwsem.specs.Types.{No, Shared, Alone, Idle, Added, Back, Reads, Blocks};

use crate::rule::{BLOCK, COUNTS, PercpuRule};
use crate::view::Phase;
use atomic_table::Play;
use lock_core::view::View;
use lock_core::{Held, Op, Pass, Site};
use std::marker::PhantomData;
use word_bits::{MAX_TASKS, Object};

/// The place of a task's count.
fn count_place(task: u32) -> usize
    requires { task < MAX_TASKS }
    ensures { result ≡ count_at task }
{
    COUNTS + 8 * task as usize
}

struct Adding;

impl Play<(), View<Phase>> for Adding {
    ghost then = { Goes Added };
}

struct Looking<O> {
    object: PhantomData<O>,
}

impl<O: Object> Play<(), View<Phase>> for Looking<O> {
    ghost then = { Looked O.object };
}

struct GoingBack;

impl Play<(), View<Phase>> for GoingBack {
    ghost then = { Goes Idle };
}

struct Ending;

impl Play<(), View<Phase>> for Ending {
    ghost then = { Ended };
}

struct Seeing;

impl Play<(), View<Phase>> for Seeing {
    ghost then = { Seen };
}

struct Blocking;

impl Play<(), View<Phase>> for Blocking {
    ghost then = { Blocked };
}

struct Draining<O> {
    object: PhantomData<O>,
}

impl<O: Object> Play<(), View<Phase>> for Draining<O> {
    ghost then = { Drained O.object };
}

struct Unblocking;

impl Play<(), View<Phase>> for Unblocking {
    ghost then = { Unblocked };
}

/// Adds to the own count.
pub(crate) fn add<O: Object>(site: &Site<PercpuRule<O>>, pass: &mut Pass<PercpuRule<O>>, task: u32)
    requires own { SitsAt site.now pass.old }
    requires mine { task_in pass.old ≡ Some task }
    requires small { task < MAX_TASKS }
    requires out { held_in pass.old ≡ No }
    requires idle { (view_of pass.old).ext ≡ Idle }
    ensures on { StepsAt site.now pass.old pass.new }
    ensures face { SaysSame pass.old pass.new }
    ensures kept { view_of pass.new ≡ phased (view_of pass.old) (hand_in pass.old) Added }
{
    let place = count_place(task);
    site.step::<Adding>(pass, place, Op::Add(1));
}

/// Loads the block word after the addition. `Ok` where it is 0: the pass holds shared. `Err` has
/// the code of another task, which blocks; the addition is to be taken back.
pub(crate) fn look<O: Object>(
    site: &Site<PercpuRule<O>>,
    pass: &mut Pass<PercpuRule<O>>,
    task: u32,
) -> Result<(), u64>
    requires own { SitsAt site.now pass.old }
    requires mine { task_in pass.old ≡ Some task }
    requires out { held_in pass.old ≡ No }
    requires added { (view_of pass.old).ext ≡ Added }
    ensures on { StepsAt site.now pass.old pass.new }
    ensures took { IfOk result (λ _. TakesPhase O.object (plan_of site.now) Shared Reads
        (view_of pass.old) (view_of pass.new)) }
    ensures free { IfOk result (λ _. FoundAt block_at 0 (past_of pass.new)) }
    ensures back { IfErr result (λ word.
        view_of pass.new ≡ phased (view_of pass.old) (hand_in pass.old) Back) }
    ensures face { IfErr result (λ word. SaysSame pass.old pass.new) }
    ensures names { IfErr result (λ word. NamesOther (plan_of site.now) (task_in pass.old) word) }
    ensures found { IfErr result (λ word. FoundAt block_at word (past_of pass.new)) }
{
    // The load comes behind the addition: who blocks and then finds the count zero is seen.
    let found = site.step::<Looking<O>>(pass, BLOCK, Op::Load);
    if found != 0 {
        return Err(found);
    }
    pass.set_held(Held::Shared);
    Ok(())
}

/// Takes the addition back.
pub(crate) fn go_back<O: Object>(
    site: &Site<PercpuRule<O>>,
    pass: &mut Pass<PercpuRule<O>>,
    task: u32,
)
    requires own { SitsAt site.now pass.old }
    requires mine { task_in pass.old ≡ Some task }
    requires small { task < MAX_TASKS }
    requires out { held_in pass.old ≡ No }
    requires back { (view_of pass.old).ext ≡ Back }
    ensures on { StepsAt site.now pass.old pass.new }
    ensures face { SaysSame pass.old pass.new }
    ensures kept { view_of pass.new ≡ phased (view_of pass.old) (hand_in pass.old) Idle }
{
    let place = count_place(task);
    site.step::<GoingBack>(pass, place, Op::Sub(1));
}

/// Ends a shared hold.
pub(crate) fn end_read<O: Object>(
    site: &Site<PercpuRule<O>>,
    pass: &mut Pass<PercpuRule<O>>,
    task: u32,
)
    requires own { SitsAt site.now pass.old }
    requires mine { task_in pass.old ≡ Some task }
    requires small { task < MAX_TASKS }
    requires held { held_in pass.old ≡ Shared }
    requires reads { (view_of pass.old).ext ≡ Reads }
    requires quiet { (hand_in pass.old).writes ≡ false }
    ensures on { StepsAt site.now pass.old pass.new }
    ensures kept { view_of pass.new ≡
        phased (view_of pass.old) (released (hand_in pass.old) 0) Idle }
    ensures found { FoundAt (count_at task) 1 (past_of pass.new) }
{
    let place = count_place(task);
    site.step::<Ending>(pass, place, Op::Sub(1));
    pass.set_held(Held::No);
}

/// Loads the block word. It is 0 or the code of a task.
pub(crate) fn see<O: Object>(site: &Site<PercpuRule<O>>, pass: &mut Pass<PercpuRule<O>>) -> u64
    requires own { SitsAt site.now pass.old }
    ensures on { StepsAt site.now pass.old pass.new }
    ensures face { SaysSame pass.old pass.new }
    ensures kept { view_of pass.new ≡ ticked (view_of pass.old) }
    ensures names { result ≢ 0 → NamesTask (plan_of site.now) result }
    ensures found { FoundAt block_at result (past_of pass.new) }
{
    site.step::<Seeing>(pass, BLOCK, Op::Load)
}

/// Blocks new readers, where nobody does, by one compare-exchange of the block word from 0 to the
/// own code. `Err` has the code of another task that it saw instead.
pub(crate) fn block<O: Object>(
    site: &Site<PercpuRule<O>>,
    pass: &mut Pass<PercpuRule<O>>,
    task: u32,
) -> Result<(), u64>
    requires own { SitsAt site.now pass.old }
    requires mine { task_in pass.old ≡ Some task }
    requires small { task < MAX_TASKS }
    requires out { held_in pass.old ≡ No }
    requires idle { (view_of pass.old).ext ≡ Idle }
    ensures on { StepsAt site.now pass.old pass.new }
    ensures face { SaysSame pass.old pass.new }
    ensures blocks { IfOk result (λ _.
        view_of pass.new ≡ phased (view_of pass.old) (hand_in pass.old) (Blocks 0)) }
    ensures free { IfOk result (λ _. FoundAt block_at 0 (past_of pass.new)) }
    ensures looked { IfErr result (λ word. view_of pass.new ≡ ticked (view_of pass.old)) }
    ensures names { IfErr result (λ word. NamesOther (plan_of site.now) (task_in pass.old) word) }
    ensures found { IfErr result (λ word. FoundAt block_at word (past_of pass.new)) }
{
    let code = u64::from(task) + 1;
    let found = site.step::<Blocking>(pass, BLOCK, Op::Exchange(0, code));
    if found != 0 {
        return Err(found);
    }
    Ok(())
}

/// Loads the next count, by a pass that blocks and has seen so many zero. `Ok` where it is 0: the
/// pass has seen one more, and holds alone after the last. `Err` where it is 1, that of another
/// task.
pub(crate) fn drain<O: Object>(
    site: &Site<PercpuRule<O>>,
    pass: &mut Pass<PercpuRule<O>>,
    task: u32,
    seen: u32,
) -> Result<(), ()>
    requires own { SitsAt site.now pass.old }
    requires mine { task_in pass.old ≡ Some task }
    requires there { seen < length (plan_of site.now) }
    requires out { held_in pass.old ≡ No }
    requires blocks { (view_of pass.old).ext ≡ Blocks seen }
    ensures on { StepsAt site.now pass.old pass.new }
    ensures next { IfOk result (λ _. seen + 1 ≢ length (plan_of site.now) →
        (view_of pass.new ≡ phased (view_of pass.old) (hand_in pass.old) (Blocks (seen + 1)))) }
    ensures took { IfOk result (λ _. seen + 1 ≡ length (plan_of site.now) →
        TakesPhase O.object (plan_of site.now) Alone (Blocks (seen + 1))
        (view_of pass.old) (view_of pass.new)) }
    ensures free { IfOk result (λ _. FoundAt (count_at seen) 0 (past_of pass.new)) }
    ensures other { IfErr result (λ _. task ≢ seen) }
    ensures looked { IfErr result (λ _. view_of pass.new ≡ ticked (view_of pass.old)) }
    ensures face { IfErr result (λ _. SaysSame pass.old pass.new) }
    ensures found { IfErr result (λ _. FoundAt (count_at seen) 1 (past_of pass.new)) }
{
    let place = count_place(seen);
    let found = site.step::<Draining<O>>(pass, place, Op::Load);
    if found != 0 {
        return Err(());
    }
    if seen + 1 == site.tasks() {
        pass.set_held(Held::Alone);
    }
    Ok(())
}

/// Stores 0 in the block word, by the pass that blocks, whether it holds alone or nothing.
pub(crate) fn unblock<O: Object>(
    site: &Site<PercpuRule<O>>,
    pass: &mut Pass<PercpuRule<O>>,
    task: u32,
)
    requires own { SitsAt site.now pass.old }
    requires mine { task_in pass.old ≡ Some task }
    requires blocks { (n : ℕ) × ((view_of pass.old).ext ≡ Blocks n) }
    requires unshared { held_in pass.old ≢ Shared }
    requires quiet { (hand_in pass.old).writes ≡ false }
    ensures on { StepsAt site.now pass.old pass.new }
    ensures kept { view_of pass.new ≡
        phased (view_of pass.old) (unheld (hand_in pass.old)) Idle }
{
    site.step::<Unblocking>(pass, BLOCK, Op::Store(0));
    pass.set_held(Held::No);
}
