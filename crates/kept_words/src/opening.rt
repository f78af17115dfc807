//! How the first words come under a lock: its first task stores them, and records that it did.
ghost use Rattle.std.specs.Prelude.{◌≡◌, ◌<◌, ◌≤◌, ◌-◌, ◌⊎◌, ℕ, [], ◌∷◌, length, vec_len, None, Some, IfOk};
ghost use Rattle.word_bits.specs.declared.TheConstants.{MAX_TASKS};
ghost use Rattle.lock_core.specs.Kinds.{unavailable};
ghost use Rattle.kept_words.specs.Keeping.{opening_entry, opening_plan, IsTask, OnlyWrites, Opens};
ghost use Rattle.kept_words.specs.Types.{Good, No, Alone};

use cpu_task::{Crew, Turns};
use lock_core::{Plan, SiteLock};
use sleep_lock::SleepLock;
use std::alloc::{AllocError, Global};
use std::sync::Wait;
use word_bits::{CallWords, MAX_TASKS, Object, Reply};

/// The one call that a plan has: it stores the first words.
const OPENING: CallWords = CallWords { a: 0, b: 0 };

/// The plan of so many tasks, the first of which opens.
pub(crate) fn plan(alloc: Global, tasks: u32) -> Result<Plan, AllocError>
    requires some { 0 < tasks }
    requires few { tasks ≤ MAX_TASKS }
    ensures { IfOk result (λ p. p ≡ opening_plan (tasks - 1)) }
{
    let mut plan = Plan::new(alloc, tasks)?;
    plan.push(0, OPENING)?;
    Ok(plan)
}

/// Takes the first task's number with a new lock's first pass, and stores the first words.
pub(crate) fn open_words<O: Object, L: SleepLock<O>, W: Wait, C: Crew>(
    lock: &L,
    rt: &W,
    pass: &mut L::Pass,
    words: &[u64],
    cpu: &mut C::C,
    crew: &C,
)
    requires own { L.sits lock.now pass.old }
    requires planned { (others : ℕ) × (L.calls_on lock.now ≡ opening_plan others) }
    requires nameless { (L.view pass.old).hand.task ≡ None }
    requires new { (L.view pass.old).hand.seen ≡ [] }
    requires wide { length words.now ≡ O.WORDS }
    requires opens { Opens O.object (unavailable L.kind) (L.calls_on lock.now) words.now }
    ensures task { IsTask L.sits L.calls_on L.view O.WORDS lock.now pass.new }
    ensures out { (L.view pass.new).hand.held ≡ No }
{
    lock.begin(rt, pass, 0);
    store_first::<O, L, W, C>(lock, rt, pass, words, cpu, crew);
}

/// Stores the first words, unless that is done.
fn store_first<O: Object, L: SleepLock<O>, W: Wait, C: Crew>(
    lock: &L,
    rt: &W,
    pass: &mut L::Pass,
    words: &[u64],
    cpu: &mut C::C,
    crew: &C,
)
    requires own { L.sits lock.now pass.old }
    requires planned { (others : ℕ) × (L.calls_on lock.now ≡ opening_plan others) }
    requires task { (L.view pass.old).hand.task ≡ Some 0 }
    requires out { (L.view pass.old).hand.held ≡ No }
    requires sent { (L.view pass.old).hand.sent ≡ None }
    requires consumed { (L.view pass.old).hand.consumed ≡ 0 }
    requires begins { ((L.view pass.old).hand.done ≡ 0)
        ⊎ ((L.view pass.old).hand.seen ≡ opening_entry ∷ []) }
    requires wide { length words.now ≡ O.WORDS }
    requires opens { Opens O.object (unavailable L.kind) (L.calls_on lock.now) words.now }
    ensures task { IsTask L.sits L.calls_on L.view O.WORDS lock.now pass.new }
    ensures out { (L.view pass.new).hand.held ≡ No }
{
    // No other pass is there that could have done it.
    if lock.done(pass) != 0 {
        return;
    }
    lock.alone(rt, pass, cpu, crew);
    write_first::<O, L, W, C>(lock, rt, pass, words, crew);
}

/// Stores the first words, records it, and ends the hold.
fn write_first<O: Object, L: SleepLock<O>, W: Wait, C: Crew>(
    lock: &L,
    rt: &W,
    pass: &mut L::Pass,
    words: &[u64],
    crew: &C,
)
    requires own { L.sits lock.now pass.old }
    requires planned { (others : ℕ) × (L.calls_on lock.now ≡ opening_plan others) }
    requires task { (L.view pass.old).hand.task ≡ Some 0 }
    requires held { (L.view pass.old).hand.held ≡ Alone }
    requires sent { (L.view pass.old).hand.sent ≡ None }
    requires consumed { (L.view pass.old).hand.consumed ≡ 0 }
    requires undone { (L.view pass.old).hand.done ≡ 0 }
    requires sized { length (L.view pass.old).hand.known ≡ length words.now }
    requires wide { length words.now ≡ O.WORDS }
    requires opens { Opens O.object (unavailable L.kind) (L.calls_on lock.now) words.now }
    ensures task { IsTask L.sits L.calls_on L.view O.WORDS lock.now pass.new }
    ensures out { (L.view pass.new).hand.held ≡ No }
{
    store_all::<O, L>(lock, pass, words);
    lock.commit(pass, 0, Reply::Good);
    lock.release_alone(rt, pass, crew);
}

/// Stores all words.
fn store_all<O: Object, L: SiteLock<O>>(lock: &L, pass: &mut L::Pass, words: &[u64])
    requires own { L.sits lock.now pass.old }
    requires held { (L.view pass.old).hand.held ≡ Alone }
    requires sized { length (L.view pass.old).hand.known ≡ length words.now }
    requires wide { length words.now ≡ O.WORDS }
    ensures own { L.sits lock.now pass.new }
    ensures known { (L.view pass.new).hand.known ≡ words.now }
    ensures kept { OnlyWrites (L.view pass.old).hand (L.view pass.new).hand }
{
    for at in 0..O::WORDS {
        lock.set_word(pass, at, words[at]);
    }
}

/// A CPU for each task below `tasks` but the first.
pub(crate) fn cpus<C: Crew>(
    alloc: Global,
    crew: &mut C,
    turns: Turns,
    tasks: u32,
) -> Result<Vec<C::C>, AllocError>
    requires { 0 < tasks }
    ensures { IfOk result (λ all. vec_len all ≡ tasks - 1) }
{
    let mut all = Vec::new(alloc);
    for task in 1..tasks {
        all.push(crew.cpu(alloc, task, turns)?)?;
    }
    Ok(all)
}
