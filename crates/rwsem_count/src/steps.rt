//! The single steps on the count of any host.
ghost use Rattle.std.specs.Prelude.{◌≡◌, ◌≢◌, ◌+◌, ◌-◌, ℕ, false, IsSome, IfOk, IfErr};
ghost use Rattle.word_bits.specs.LockWords.{IsLawfulCount};
ghost use Rattle.lock_core.specs.SiteHandles.{plan_of, view_of, hand_in, past_of, task_in, held_in, SitsAt, StepsAt, SaysSame};
ghost use Rattle.lock_core.specs.Holding.{downgraded, missed, released};
ghost use Rattle.lock_core.specs.Pasts.{FoundAt};
ghost use Rattle.rwsem_count.specs.Counts.{based};
ghost use Rattle.rwsem_count.specs.CountPlays.{Leaves, ReadAdded, WriteTaken};
ghost use Rattle.rwsem_count.specs.CountTries.{FindsFree, FindsShut, LeftBy, MissesCount, TakesCount, IsTransit};
ghost use Rattle.rwsem_count.specs.Types.{No, Shared, Alone, Clear, Transit};

use crate::host::CountHost;
use crate::word::{BIAS, WRITER};
use crate::word_steps::read_free;
use atomic_table::Play;
use lock_core::view::View;
use lock_core::{Held, Op, Pass, Site};
use std::marker::PhantomData;

struct Read<H> {
    host: PhantomData<H>,
}

impl<H: CountHost> Play<(), View<H::Ext>> for Read<H> {
    ghost then = { ReadAdded H.counted H.O.object };
}

struct WriteFree<H> {
    host: PhantomData<H>,
}

impl<H: CountHost> Play<(), View<H::Ext>> for WriteFree<H> {
    ghost then = { WriteTaken H.counted H.O.object };
}

struct TakeBack<H> {
    host: PhantomData<H>,
}

impl<H: CountHost> Play<(), View<H::Ext>> for TakeBack<H> {
    ghost then = { Leaves H.counted H.may_be 256 (λ n. n - 256) (λ h left. h) };
}

struct EndShared<H> {
    host: PhantomData<H>,
}

impl<H: CountHost> Play<(), View<H::Ext>> for EndShared<H> {
    ghost then = { Leaves H.counted H.may_be 256 (λ n. n - 256) released };
}

struct EndAlone<H> {
    host: PhantomData<H>,
}

impl<H: CountHost> Play<(), View<H::Ext>> for EndAlone<H> {
    ghost then = { Leaves H.counted H.may_be 1 (λ n. n - 1) released };
}

struct Lower<H> {
    host: PhantomData<H>,
}

impl<H: CountHost> Play<(), View<H::Ext>> for Lower<H> {
    ghost then = { Leaves H.counted H.may_be 1 (λ n. n + 255) downgraded };
}

/// Adds a reader's bias. `Err` has the count that the addition left, which doesn't let a reader in;
/// the bias stays there, and the pass is in transit. The kernel's `rwsem_read_trylock`.
pub fn read_add<H: CountHost>(site: &Site<H>, pass: &mut Pass<H>) -> Result<(), u64>
    requires own { SitsAt site.now pass.old }
    requires numbered { IsSome (task_in pass.old) }
    requires out { held_in pass.old ≡ No }
    requires clear { H.bias (view_of pass.old).ext ≡ Clear }
    requires reads { H.may_count (view_of pass.old) (record { held = Shared; bias = Clear }) }
    requires waits { (n : ℕ) →
        H.may_count (view_of pass.old) (record { held = No; bias = Transit n }) }
    requires misses { H.may_miss (view_of pass.old) }
    ensures on { StepsAt site.now pass.old pass.new }
    ensures took { IfOk result (λ _. TakesCount H.counted H.O.object (plan_of site.now) Shared
        (view_of pass.old) (view_of pass.new)) }
    ensures free { IfOk result (λ _. FindsFree H.COUNT 256 (past_of pass.new)) }
    ensures left { IfErr result (λ count. FindsShut H.COUNT count (past_of pass.new)) }
    ensures transit { IfErr result (λ count.
        IsTransit H.counted (view_of pass.old) count (view_of pass.new)) }
{
    // The bias comes before the look: a writer that comes after it finds the count taken, and one
    // that was there before is seen.
    let count = site.step::<Read<H>>(pass, H::COUNT, Op::Add(BIAS)) + BIAS;
    if !read_free(count) {
        return Err(count);
    }
    pass.set_held(Held::Shared);
    Ok(())
}

/// Takes the lock alone where it is free, by one compare-exchange of the count from 0. `Err` has
/// the word, not 0, that it saw instead. The kernel's `rwsem_write_trylock`.
pub fn write_try<H: CountHost>(site: &Site<H>, pass: &mut Pass<H>) -> Result<(), u64>
    requires own { SitsAt site.now pass.old }
    requires numbered { IsSome (task_in pass.old) }
    requires out { held_in pass.old ≡ No }
    requires clear { H.bias (view_of pass.old).ext ≡ Clear }
    requires writes { H.may_count (view_of pass.old) (record { held = Alone; bias = Clear }) }
    requires misses { H.may_miss (view_of pass.old) }
    ensures on { StepsAt site.now pass.old pass.new }
    ensures took { IfOk result (λ _. TakesCount H.counted H.O.object (plan_of site.now) Alone
        (view_of pass.old) (view_of pass.new)) }
    ensures free { IfOk result (λ _. FoundAt H.COUNT 0 (past_of pass.new)) }
    ensures missed { IfErr result (λ word.
        MissesCount (view_of pass.old) word (view_of pass.new)) }
    ensures shut { IfErr result (λ word. (word ≢ 0) × IsLawfulCount word) }
    ensures found { IfErr result (λ word. FoundAt H.COUNT word (past_of pass.new)) }
{
    // One step looks and takes: between a load and a store a reader could add its bias.
    let found = site.step::<WriteFree<H>>(pass, H::COUNT, Op::Exchange(0, WRITER));
    if found != 0 {
        return Err(found);
    }
    pass.set_held(Held::Alone);
    Ok(())
}

/// Takes back the bias of a pass in transit. Answers the count that this leaves.
pub fn read_back<H: CountHost>(site: &Site<H>, pass: &mut Pass<H>) -> u64
    requires own { SitsAt site.now pass.old }
    requires numbered { IsSome (task_in pass.old) }
    requires transit { (word : ℕ) × (H.bias (view_of pass.old).ext ≡ Transit word) }
    requires may { H.may_count (view_of pass.old)
        (record { held = (hand_in pass.old).held; bias = Clear }) }
    ensures on { StepsAt site.now pass.old pass.new }
    ensures face { SaysSame pass.old pass.new }
    ensures kept { view_of pass.new ≡
        based H.counted (view_of pass.old) (hand_in pass.old) Clear }
    ensures left { LeftBy H.COUNT H.may_be 256 0 result (past_of pass.new) }
{
    let found = site.step::<TakeBack<H>>(pass, H::COUNT, Op::Sub(BIAS));
    found - BIAS
}

/// Ends a shared hold. Answers the count that this leaves. The first step of the kernel's
/// `__up_read`.
pub fn up_read<H: CountHost>(site: &Site<H>, pass: &mut Pass<H>) -> u64
    requires own { SitsAt site.now pass.old }
    requires numbered { IsSome (task_in pass.old) }
    requires holds { held_in pass.old ≡ Shared }
    requires clear { H.bias (view_of pass.old).ext ≡ Clear }
    requires quiet { (hand_in pass.old).writes ≡ false }
    requires may { H.may_count (view_of pass.old) (record { held = No; bias = Clear }) }
    ensures on { StepsAt site.now pass.old pass.new }
    ensures kept { view_of pass.new ≡
        based H.counted (view_of pass.old) (released (hand_in pass.old) result) Clear }
    ensures left { LeftBy H.COUNT H.may_be 256 0 result (past_of pass.new) }
{
    let found = site.step::<EndShared<H>>(pass, H::COUNT, Op::Sub(BIAS));
    pass.set_held(Held::No);
    found - BIAS
}

/// Ends an exclusive hold. Answers the count that this leaves. The first step of the kernel's
/// `__up_write`.
pub fn up_write<H: CountHost>(site: &Site<H>, pass: &mut Pass<H>) -> u64
    requires own { SitsAt site.now pass.old }
    requires numbered { IsSome (task_in pass.old) }
    requires holds { held_in pass.old ≡ Alone }
    requires clear { H.bias (view_of pass.old).ext ≡ Clear }
    requires quiet { (hand_in pass.old).writes ≡ false }
    requires may { H.may_count (view_of pass.old) (record { held = No; bias = Clear }) }
    ensures on { StepsAt site.now pass.old pass.new }
    ensures kept { view_of pass.new ≡
        based H.counted (view_of pass.old) (released (hand_in pass.old) result) Clear }
    ensures left { LeftBy H.COUNT H.may_be 1 0 result (past_of pass.new) }
{
    // A subtraction, and no store: biases and flags that others have just added must not be lost.
    let found = site.step::<EndAlone<H>>(pass, H::COUNT, Op::Sub(WRITER));
    pass.set_held(Held::No);
    found - WRITER
}

/// Turns an exclusive hold into a shared one. Answers the count that this leaves. The first step of
/// the kernel's `__downgrade_write`.
pub fn downgrade<H: CountHost>(site: &Site<H>, pass: &mut Pass<H>) -> u64
    requires own { SitsAt site.now pass.old }
    requires numbered { IsSome (task_in pass.old) }
    requires holds { held_in pass.old ≡ Alone }
    requires clear { H.bias (view_of pass.old).ext ≡ Clear }
    requires quiet { (hand_in pass.old).writes ≡ false }
    requires may { H.may_count (view_of pass.old) (record { held = Shared; bias = Clear }) }
    ensures on { StepsAt site.now pass.old pass.new }
    ensures kept { view_of pass.new ≡
        based H.counted (view_of pass.old) (downgraded (hand_in pass.old) result) Clear }
    ensures left { LeftBy H.COUNT H.may_be 0 255 result (past_of pass.new) }
{
    // The bias comes and the writer goes in one step: a writer that found neither would take.
    let found = site.step::<Lower<H>>(pass, H::COUNT, Op::Add(BIAS - WRITER));
    pass.set_held(Held::Shared);
    found + (BIAS - WRITER)
}
