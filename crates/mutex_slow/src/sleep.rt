//! The tries and sleeps of a waiter.
ghost use Rattle.std.specs.Prelude.{◌≡◌, ◌+◌, true, false, IsSome, IfOk, IfErr, ◌≤◌};
ghost use Rattle.lock_core.specs.Views.{SpinHolds, SpinRests};
ghost use Rattle.lock_core.specs.Locking.{SawPending};
ghost use Rattle.lock_core.specs.Signals.{OnlyConsumed};
ghost use Rattle.lock_core.specs.SiteHandles.{view_of, task_in, held_in, SitsAt, MovesOn};
ghost use Rattle.lock_core.specs.Tallies.{raised};
ghost use Rattle.wake_duty.specs.WakeSteps.{HasTried};
ghost use Rattle.mutex_slow.specs.Mutexes.{wait_state_of};
ghost use Rattle.mutex_slow.specs.MutexPlaces.{seen_of, TakesAlone, TakesOpen, KeepsHand, KeepsMisses, KeepsFronts, StandsSame, IsInLine, HasFailed, KeepsWakes, SetsNoWord, dozes_of, KeepsAppends};
ghost use Rattle.mutex_slow.specs.Types.{No};
ghost use Rattle.cpu_task.specs.CpuCounting.{Dozes, DozesOnce, Rises, SleepsInTurns};

use crate::leave::interrupted;
use crate::rule::MutexRule;
use crate::wait_lock;
use cpu_task::Cpu;
use lock_core::{Interrupted, Pass, Site};
use mutex_word::tries::{Tried, attempt};
use std::marker::Brand;
use std::sync::Wait;
use wait_list::list;
use word_bits::Object;

/// A try of a pass that is in the list. Where it asks, the pass has seen that it is the first, and
/// the word has the flag of the handoff unless the try takes.
fn try_listed<O: Object, W: Wait>(
    site: &Site<MutexRule<O>>,
    rt: &W,
    pass: &mut Pass<MutexRule<O>>,
    asks: bool,
) -> bool
    requires own { SitsAt site.now pass.old }
    requires numbered { IsSome (task_in pass.old) }
    requires out { held_in pass.old ≡ No }
    requires listed { IsInLine (view_of pass.old) }
    requires first { asks ≡ true → (view_of pass.old).ext.first ≡ true }
    ensures on { MovesOn site.now pass.old pass.new }
    ensures listed { IsInLine (view_of pass.new) }
    ensures first { (view_of pass.new).ext.first ≡ (view_of pass.old).ext.first }
    ensures same { StandsSame (view_of pass.old) (view_of pass.new) }
    ensures counts { KeepsWakes (view_of pass.old) (view_of pass.new) }
    ensures took { result ≡ true → TakesAlone O.object site.now pass.old pass.new }
    ensures opened { result ≡ true → TakesOpen (seen_of pass.old) (seen_of pass.new) }
    ensures uncounted { result ≡ true → KeepsMisses pass.old pass.new }
    ensures missed { result ≡ false → KeepsHand pass.old pass.new }
    ensures failed { result ≡ false → asks ≡ false → SpinHolds (view_of pass.old).spin →
        HasFailed (view_of pass.new) }
{
    let Some(me) = pass.task() else {
        unreachable!()
    };
    match attempt::<MutexRule<O>, Brand, W>(site, rt, pass, me, asks) {
        Tried::Took => true,
        Tried::Asked => false,
        Tried::Failed(_) => false,
    }
}

/// Whether the pass's task is the first waiter, by one load.
fn sees_first<O: Object>(site: &Site<MutexRule<O>>, pass: &mut Pass<MutexRule<O>>) -> bool
    requires own { SitsAt site.now pass.old }
    requires numbered { IsSome (task_in pass.old) }
    requires unspun { SpinRests (view_of pass.old).spin }
    requires listed { IsInLine (view_of pass.old) }
    ensures on { MovesOn site.now pass.old pass.new }
    ensures listed { IsInLine (view_of pass.new) }
    ensures first { result ≡ true → (view_of pass.new).ext.first ≡ true }
    ensures hand { KeepsHand pass.old pass.new }
    ensures same { StandsSame (view_of pass.old) (view_of pass.new) }
    ensures counts { KeepsWakes (view_of pass.old) (view_of pass.new) }
{
    list::is_first(site, pass)
}

/// Tries of the first waiter, until one takes or the CPU needs rescheduling. A waiter behind the
/// first isn't to spin: it would take the mutex from those before it.
fn spin_listed<O: Object, W: Wait, C: Cpu>(
    site: &Site<MutexRule<O>>,
    rt: &W,
    pass: &mut Pass<MutexRule<O>>,
    cpu: &mut C,
) -> bool
    requires own { SitsAt site.now pass.old }
    requires numbered { IsSome (task_in pass.old) }
    requires out { held_in pass.old ≡ No }
    requires listed { IsInLine (view_of pass.old) }
    requires first { (view_of pass.old).ext.first ≡ true }
    ensures on { MovesOn site.now pass.old pass.new }
    ensures listed { IsInLine (view_of pass.new) }
    ensures same { StandsSame (view_of pass.old) (view_of pass.new) }
    ensures counts { KeepsWakes (view_of pass.old) (view_of pass.new) }
    ensures took { result ≡ true → TakesAlone O.object site.now pass.old pass.new }
    ensures opened { result ≡ true → TakesOpen (seen_of pass.old) (seen_of pass.new) }
    ensures uncounted { result ≡ true → KeepsMisses pass.old pass.new }
    ensures missed { result ≡ false → KeepsHand pass.old pass.new }
    ensures sleeps { C.sleeps cpu.new ≡ C.sleeps cpu.old }
    ensures spins { result ≡ true → C.rescheds cpu.new ≡ C.rescheds cpu.old }
    ensures rescheds { C.rescheds cpu.old ≤ C.rescheds cpu.new }
    ensures stops { result ≡ false → Rises (C.rescheds cpu.old) (C.rescheds cpu.new) }
{
    if cpu.need_resched() {
        return false;
    }
    for _ in rt.forever() {
        if try_listed(site, rt, pass, false) {
            return true;
        }
        if cpu.need_resched() {
            return false;
        }
    }
    unreachable!()
}

/// What a waiter tries that was woken: once, and again and again where it is the first.
fn try_awake<O: Object, W: Wait, C: Cpu>(
    site: &Site<MutexRule<O>>,
    rt: &W,
    pass: &mut Pass<MutexRule<O>>,
    cpu: &mut C,
) -> bool
    requires own { SitsAt site.now pass.old }
    requires numbered { IsSome (task_in pass.old) }
    requires out { held_in pass.old ≡ No }
    requires unspun { SpinRests (view_of pass.old).spin }
    requires listed { IsInLine (view_of pass.old) }
    ensures on { MovesOn site.now pass.old pass.new }
    ensures listed { IsInLine (view_of pass.new) }
    ensures same { StandsSame (view_of pass.old) (view_of pass.new) }
    ensures counts { KeepsWakes (view_of pass.old) (view_of pass.new) }
    ensures took { result ≡ true → TakesAlone O.object site.now pass.old pass.new }
    ensures opened { result ≡ true → TakesOpen (seen_of pass.old) (seen_of pass.new) }
    ensures uncounted { result ≡ true → KeepsMisses pass.old pass.new }
    ensures missed { result ≡ false → KeepsHand pass.old pass.new }
    ensures sleeps { C.sleeps cpu.new ≡ C.sleeps cpu.old }
    ensures rescheds { C.rescheds cpu.old ≤ C.rescheds cpu.new }
{
    let first = sees_first(site, pass);
    // Others take the mutex again and again before a woken waiter runs: the first one asks, and
    // then whoever releases names it.
    if try_listed(site, rt, pass, first) {
        return true;
    }
    if !first {
        return false;
    }
    spin_listed(site, rt, pass, cpu)
}

/// Swaps the wake word of the pass's own task for 0, whose try failed under the wait lock. True
/// exactly where it may sleep.
fn drowse<O: Object>(site: &Site<MutexRule<O>>, pass: &mut Pass<MutexRule<O>>) -> bool
    requires own { SitsAt site.now pass.old }
    requires numbered { IsSome (task_in pass.old) }
    requires out { held_in pass.old ≡ No }
    requires unspun { SpinRests (view_of pass.old).spin }
    requires listed { IsInLine (view_of pass.old) }
    requires tried { HasTried wait_state_of (view_of pass.old) }
    ensures on { MovesOn site.now pass.old pass.new }
    ensures listed { IsInLine (view_of pass.new) }
    ensures hand { KeepsHand pass.old pass.new }
    ensures set { SetsNoWord (view_of pass.old) (view_of pass.new) }
    ensures dozes { dozes_of (view_of pass.new) ≡ raised result (dozes_of (view_of pass.old)) }
    ensures same { StandsSame (view_of pass.old) (view_of pass.new) }
{
    wake_duty::drowse(site, pass)
}

/// Swaps the wake word of the pass's task for 0, and sleeps where that was 0. Then it counts one
/// more in `dozes`.
fn doze<O: Object, W: Wait, C: Cpu>(
    site: &Site<MutexRule<O>>,
    rt: &W,
    pass: &mut Pass<MutexRule<O>>,
    cpu: &mut C,
    dozes: &mut u64,
)
    requires own { SitsAt site.now pass.old }
    requires numbered { IsSome (task_in pass.old) }
    requires out { held_in pass.old ≡ No }
    requires unspun { SpinRests (view_of pass.old).spin }
    requires listed { IsInLine (view_of pass.old) }
    requires tried { HasTried wait_state_of (view_of pass.old) }
    requires counted { dozes.old ≡ dozes_of (view_of pass.old) }
    ensures on { MovesOn site.now pass.old pass.new }
    ensures listed { IsInLine (view_of pass.new) }
    ensures hand { KeepsHand pass.old pass.new }
    ensures same { StandsSame (view_of pass.old) (view_of pass.new) }
    ensures set { SetsNoWord (view_of pass.old) (view_of pass.new) }
    ensures counted { dozes.new ≡ dozes_of (view_of pass.new) }
    ensures dozed { DozesOnce (C.sleeps cpu.old) (C.sleeps cpu.new)
        (dozes_of (view_of pass.old)) (dozes_of (view_of pass.new)) }
    ensures rescheds { C.rescheds cpu.old ≤ C.rescheds cpu.new }
{
    // Whoever released behind the last try may have set the word already, and wakes nobody again.
    if drowse(site, pass) {
        *dozes = dozes.saturating_add(1);
        cpu.sleep(rt);
    }
}

/// Releases the wait lock, sleeps unless it was woken before, tries, and takes the wait lock again.
fn sleep_and_try<O: Object, W: Wait, C: Cpu>(
    site: &Site<MutexRule<O>>,
    rt: &W,
    pass: &mut Pass<MutexRule<O>>,
    cpu: &mut C,
    dozes: &mut u64,
) -> bool
    requires own { SitsAt site.now pass.old }
    requires numbered { IsSome (task_in pass.old) }
    requires out { held_in pass.old ≡ No }
    requires locked { SpinHolds (view_of pass.old).spin }
    requires listed { IsInLine (view_of pass.old) }
    requires tried { HasFailed (view_of pass.old) }
    requires counted { dozes.old ≡ dozes_of (view_of pass.old) }
    ensures on { MovesOn site.now pass.old pass.new }
    ensures locked { SpinHolds (view_of pass.new).spin }
    ensures listed { IsInLine (view_of pass.new) }
    ensures entries { (view_of pass.new).spin.entries ≡ (view_of pass.old).spin.entries + 1 }
    ensures set { SetsNoWord (view_of pass.old) (view_of pass.new) }
    ensures counted { dozes.new ≡ dozes_of (view_of pass.new) }
    ensures dozed { DozesOnce (C.sleeps cpu.old) (C.sleeps cpu.new)
        (dozes_of (view_of pass.old)) (dozes_of (view_of pass.new)) }
    ensures rescheds { C.rescheds cpu.old ≤ C.rescheds cpu.new }
    ensures fronts { KeepsFronts pass.old pass.new }
    ensures appends { KeepsAppends pass.old pass.new }
    ensures took { result ≡ true → TakesAlone O.object site.now pass.old pass.new }
    ensures opened { result ≡ true → TakesOpen (seen_of pass.old) (seen_of pass.new) }
    ensures uncounted { result ≡ true → KeepsMisses pass.old pass.new }
    ensures missed { result ≡ false → KeepsHand pass.old pass.new }
{
    wait_lock::unlock(site, pass);
    doze(site, rt, pass, cpu, dozes);
    let took = try_awake(site, rt, pass, cpu);
    wait_lock::lock(site, rt, pass);
    took
}

/// Waits in the list until the pass holds, or, where it is interruptible, has consumed a signal. It
/// then has the wait lock.
pub fn wait<O: Object, W: Wait, C: Cpu>(
    site: &Site<MutexRule<O>>,
    rt: &W,
    pass: &mut Pass<MutexRule<O>>,
    cpu: &mut C,
    dozes: &mut u64,
    interruptible: bool,
) -> Result<(), Interrupted>
    requires own { SitsAt site.now pass.old }
    requires numbered { IsSome (task_in pass.old) }
    requires out { held_in pass.old ≡ No }
    requires locked { SpinHolds (view_of pass.old).spin }
    requires listed { IsInLine (view_of pass.old) }
    requires counted { dozes.old ≡ dozes_of (view_of pass.old) }
    ensures on { MovesOn site.now pass.old pass.new }
    ensures locked { SpinHolds (view_of pass.new).spin }
    ensures listed { IsInLine (view_of pass.new) }
    ensures entries { (view_of pass.old).spin.entries ≤ (view_of pass.new).spin.entries }
    ensures set { SetsNoWord (view_of pass.old) (view_of pass.new) }
    ensures counted { dozes.new ≡ dozes_of (view_of pass.new) }
    ensures dozed { Dozes (C.sleeps cpu.old) (C.sleeps cpu.new)
        (dozes_of (view_of pass.old)) (dozes_of (view_of pass.new)) }
    ensures sleeps { SleepsInTurns (view_of pass.old).spin.entries
        (view_of pass.new).spin.entries (C.sleeps cpu.old) (C.sleeps cpu.new) }
    ensures rescheds { C.rescheds cpu.old ≤ C.rescheds cpu.new }
    ensures fronts { KeepsFronts pass.old pass.new }
    ensures appends { KeepsAppends pass.old pass.new }
    ensures misses { KeepsMisses pass.old pass.new }
    ensures took { IfOk result (λ _. TakesAlone O.object site.now pass.old pass.new) }
    ensures opened { IfOk result (λ _. TakesOpen (seen_of pass.old) (seen_of pass.new)) }
    ensures interrupted { IfErr result (λ _.
        OnlyConsumed (view_of pass.old) (view_of pass.new)) }
    ensures pending { IfErr result (λ why.
        SawPending why (seen_of pass.old) (seen_of pass.new)) }
    ensures failed { IfErr result (λ _. HasFailed (view_of pass.new)) }
    ensures asked { IfErr result (λ _. interruptible ≡ true) }
{
    for _ in rt.forever() {
        // A waiter that was picked, or finds the mutex free, takes it before it looks at its signals
        // or sleeps: it would leave what it was given to nobody, and nobody wakes it a second time.
        if try_listed(site, rt, pass, false) {
            return Ok(());
        }
        if let Some(why) = interrupted(site, pass, interruptible) {
            return Err(why);
        }
        if sleep_and_try(site, rt, pass, cpu, dozes) {
            return Ok(());
        }
    }
    unreachable!()
}
