//! A reader's try: a loop over exchanges of the count of any host.
ghost use Rattle.std.specs.Prelude.{◌≡◌, ◌≢◌, ◌+◌, ℕ, IsSome, IfOk, IfErr};
ghost use Rattle.word_bits.specs.LockWords.{IsLawfulCount};
ghost use Rattle.lock_core.specs.SiteHandles.{plan_of, view_of, past_of, task_in, held_in, SitsAt, StepsAt, SaysSame};
ghost use Rattle.lock_core.specs.Pasts.{FoundAt};
ghost use Rattle.rwsem_count.specs.CountPlays.{Looked, ReadTaken};
ghost use Rattle.rwsem_count.specs.CountTries.{FindsFree, MayMissSince, MayReadSince, MissesSince, SawCount, TakesCount, TakesSince};
ghost use Rattle.rwsem_count.specs.CountWordSteps.{IsReadFree};
ghost use Rattle.rwsem_count.specs.Types.{No, Shared, Clear};

use crate::host::CountHost;
use crate::word::BIAS;
use crate::word_steps::read_free;
use atomic_table::Play;
use lock_core::view::View;
use lock_core::{Held, Op, Pass, Site};
use std::marker::PhantomData;
use std::sync::Wait;

struct Looks;

impl<E> Play<(), View<E>> for Looks {
    ghost then = { Looked };
}

struct Takes<H> {
    host: PhantomData<H>,
}

impl<H: CountHost> Play<(), View<H::Ext>> for Takes<H> {
    ghost then = { ReadTaken H.counted H.O.object };
}

/// The load of a reader's try. Where the count doesn't let a reader in, the pass knows so.
fn look<H: CountHost>(site: &Site<H>, pass: &mut Pass<H>) -> u64
    requires own { SitsAt site.now pass.old }
    requires numbered { IsSome (task_in pass.old) }
    requires out { held_in pass.old ≡ No }
    requires misses { H.may_miss (view_of pass.old) }
    ensures on { StepsAt site.now pass.old pass.new }
    ensures face { SaysSame pass.old pass.new }
    ensures saw { SawCount (view_of pass.old) result (view_of pass.new) }
    ensures found { FoundAt H.COUNT result (past_of pass.new) }
{
    site.step::<Looks>(pass, H::COUNT, Op::Load)
}

/// The exchange of a reader's try. It answers what it found.
fn take<H: CountHost>(site: &Site<H>, pass: &mut Pass<H>, word: u64) -> u64
    requires own { SitsAt site.now pass.old }
    requires numbered { IsSome (task_in pass.old) }
    requires out { held_in pass.old ≡ No }
    requires clear { H.bias (view_of pass.old).ext ≡ Clear }
    requires free { IsReadFree word }
    requires lawful { IsLawfulCount word }
    requires may { H.may_count (view_of pass.old) (record { held = Shared; bias = Clear }) }
    requires misses { H.may_miss (view_of pass.old) }
    ensures on { StepsAt site.now pass.old pass.new }
    ensures took { result ≡ word →
        TakesCount H.counted H.O.object (plan_of site.now) Shared
        (view_of pass.old) (view_of pass.new) }
    ensures face { result ≢ word → SaysSame pass.old pass.new }
    ensures saw { result ≢ word → SawCount (view_of pass.old) result (view_of pass.new) }
    ensures found { FoundAt H.COUNT result (past_of pass.new) }
{
    let found = site.step::<Takes<H>>(pass, H::COUNT, Op::Exchange(word, word + BIAS));
    if found == word {
        pass.set_held(Held::Shared);
    }
    found
}

/// Takes the lock shared where its count lets a reader in: a load, and exchanges of what was seen
/// for a count with one bias more, until one is done. `Err` has a count that a step of this call
/// saw, which lets no reader in. The kernel's `__down_read_trylock`.
pub fn read_try<H: CountHost, W: Wait>(
    site: &Site<H>,
    rt: &W,
    pass: &mut Pass<H>,
) -> Result<(), u64>
    requires own { SitsAt site.now pass.old }
    requires numbered { IsSome (task_in pass.old) }
    requires out { held_in pass.old ≡ No }
    requires clear { H.bias (view_of pass.old).ext ≡ Clear }
    requires may { MayReadSince H.may_count (view_of pass.old) }
    requires misses { MayMissSince H.may_miss (view_of pass.old) }
    ensures on { StepsAt site.now pass.old pass.new }
    ensures took { IfOk result (λ _. TakesSince H.counted H.O.object (plan_of site.now) Shared
        (view_of pass.old) (view_of pass.new)) }
    ensures free { IfOk result (λ _. FindsFree H.COUNT 0 (past_of pass.new)) }
    ensures missed { IfErr result (λ word.
        MissesSince (view_of pass.old) word (view_of pass.new)) }
    ensures shut { IfErr result (λ word. IsReadFree word → ⊥) }
    ensures lawful { IfErr result (λ word. IsLawfulCount word) }
    ensures found { IfErr result (λ word. FoundAt H.COUNT word (past_of pass.new)) }
{
    let mut word = look(site, pass);
    for _ in rt.forever() {
        if !read_free(word) {
            return Err(word);
        }
        // Others come and go between a look and an exchange: the exchange adds its bias to the very
        // count that let it in, or to none.
        let found = take(site, pass, word);
        if found == word {
            return Ok(());
        }
        word = found;
    }
    unreachable!()
}
