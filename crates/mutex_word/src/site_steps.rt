//! The single steps on the owner word of any host.
ghost use Rattle.std.specs.Prelude.{bit_or, ◌+◌, ◌*◌, ◌%◌, ◌≡◌, ℕ, ◌<◌, ◌/◌, false, IfSome, IsSome, IfOk, IfErr};
ghost use Rattle.mutex_word.specs.declared.host.Turn.TheVariants.{Take as TakeTurn, Free as FreeTurn};
ghost use Rattle.lock_core.specs.Views.{ticked};
ghost use Rattle.lock_core.specs.Pasts.{FoundAt};
ghost use Rattle.mutex_word.specs.Holders.{own_word, turns, TakesOwner, MissesOwner, ReleasesOwner, HasFlags};
ghost use Rattle.mutex_word.specs.OwnerPlays.{Tried, Freed, Flagged};
ghost use Rattle.mutex_word.specs.Types.{No, Alone, Flag, Clear};
ghost use Rattle.lock_core.specs.SiteHandles.{plan_of, view_of, hand_in, past_of, task_in, held_in, SitsAt, StepsAt, SaysSame};

use crate::host::OwnerHost;
use atomic_table::Play;
use lock_core::view::View;
use lock_core::{Held, Op, Pass, Site, SiteRule};
use std::marker::PhantomData;
use word_bits::{MAX_TASKS, Owner};

struct Take<H> {
    host: PhantomData<H>,
}

impl<H: OwnerHost> Play<(), View<H::Ext>> for Take<H> {
    ghost then = { Tried H.turned H.may_be H.O.object };
}

struct Free<H> {
    host: PhantomData<H>,
}

impl<H: OwnerHost> Play<(), View<H::Ext>> for Free<H> {
    ghost then = { Freed H.turned H.may_be };
}

/// The code of the pass's task, without flags.
fn own_code<R: SiteRule>(pass: &Pass<R>) -> u64
    requires { IfSome (task_in pass.now) (λ task. task < MAX_TASKS) }
    ensures { result ≡ own_word (task_in pass.now) }
{
    let owner = Owner {
        task: pass.task(),
        waiters: false,
        handoff: false,
        pickup: false,
    };
    owner.pack()
}

/// One compare-exchange of the owner word from 0 to the own code. `Err` has the word, not 0, that
/// it saw instead.
pub fn take_free<H: OwnerHost>(site: &Site<H>, pass: &mut Pass<H>) -> Result<(), u64>
    requires own { SitsAt site.now pass.old }
    requires numbered { IsSome (task_in pass.old) }
    requires out { held_in pass.old ≡ No }
    requires may { H.may_own TakeTurn (view_of pass.old) 0 (own_word (task_in pass.old)) }
    requires misses { H.may_miss (view_of pass.old) }
    ensures on { StepsAt site.now pass.old pass.new }
    ensures took { IfOk result (λ _.
        TakesOwner H.turned H.O.object (plan_of site.now) (view_of pass.old) (view_of pass.new)) }
    ensures missed { IfErr result (λ w. MissesOwner (view_of pass.old) w (view_of pass.new)) }
    ensures word { IfErr result (λ word. (word < 8 * MAX_TASKS + 8) × H.may_be word) }
    ensures free { IfOk result (λ _. FoundAt H.OWNER 0 (past_of pass.new)) }
    ensures found { IfErr result (λ word. FoundAt H.OWNER word (past_of pass.new)) }
{
    let code = own_code(pass);
    // One step looks and takes: between a load and a store another could take the mutex.
    let found = site.step::<Take<H>>(pass, H::OWNER, Op::Exchange(0, code));
    if found != 0 {
        return Err(found);
    }
    pass.set_held(Held::Alone);
    Ok(())
}

/// One compare-exchange of the owner word from the own code to 0. `Err` has the word that it saw
/// instead: the own code with flags.
pub fn release_plain<H: OwnerHost>(site: &Site<H>, pass: &mut Pass<H>) -> Result<(), u64>
    requires own { SitsAt site.now pass.old }
    requires held { held_in pass.old ≡ Alone }
    requires quiet { (hand_in pass.old).writes ≡ false }
    requires may { H.may_own FreeTurn (view_of pass.old) (own_word (task_in pass.old)) 0 }
    ensures on { StepsAt site.now pass.old pass.new }
    ensures released { IfOk result (λ _.
        ReleasesOwner H.turned (view_of pass.old) 0 (view_of pass.new)) }
    ensures flagged { IfErr result (λ word. HasFlags (task_in pass.old) word × H.may_be word) }
    ensures looked { IfErr result (λ _. view_of pass.new ≡ ticked (view_of pass.old)) }
    ensures own_code { IfOk result (λ _.
        FoundAt H.OWNER (own_word (task_in pass.old)) (past_of pass.new)) }
    ensures found { IfErr result (λ word. FoundAt H.OWNER word (past_of pass.new)) }
{
    let code = own_code(pass);
    // An exchange, and no store: a flag that a waiter has just set must not be lost.
    let found = site.step::<Free<H>>(pass, H::OWNER, Op::Exchange(code, 0));
    if found != code {
        return Err(found);
    }
    pass.set_held(Held::No);
    Ok(())
}

struct Mark<H> {
    host: PhantomData<H>,
}

impl<H: OwnerHost> Play<(), View<H::Ext>> for Mark<H> {
    ghost then = { Flagged H.turned Flag };
}

/// Sets the flag of the waiters.
pub fn set_waiters<H: OwnerHost>(site: &Site<H>, pass: &mut Pass<H>)
    requires own { SitsAt site.now pass.old }
    requires may { (n : ℕ) → H.may_own Flag (view_of pass.old) n (bit_or n 1) }
    ensures on { StepsAt site.now pass.old pass.new }
    ensures face { SaysSame pass.old pass.new }
    ensures kept { view_of pass.new ≡ turns H.turned Flag (view_of pass.old) (hand_in pass.old) }
{
    site.step::<Mark<H>>(pass, H::OWNER, Op::Or(1));
}

struct Wipe<H> {
    host: PhantomData<H>,
}

impl<H: OwnerHost> Play<(), View<H::Ext>> for Wipe<H> {
    ghost then = { Flagged H.turned Clear };
}

/// Clears the three flags.
pub fn clear_flags<H: OwnerHost>(site: &Site<H>, pass: &mut Pass<H>)
    requires own { SitsAt site.now pass.old }
    requires may { (n m : ℕ) → m + n % 8 ≡ n → H.may_own Clear (view_of pass.old) n m }
    ensures on { StepsAt site.now pass.old pass.new }
    ensures face { SaysSame pass.old pass.new }
    ensures kept { view_of pass.new ≡ turns H.turned Clear (view_of pass.old) (hand_in pass.old) }
{
    site.step::<Wipe<H>>(pass, H::OWNER, Op::And(!7));
}
