//! A step on one of the spin words of any table, which asks for the locks' own facts alone.
ghost use Rattle.std.specs.Prelude.{◌<◌, ◌+◌, ◌*◌, ℕ, length};
ghost use Rattle.lock_core.specs.Stores.{spin_room};
ghost use Rattle.lock_core.specs.Views.{no_spin};
ghost use Rattle.lock_core.specs.Spins.{SpinFrees, word_at};
ghost use Rattle.lock_core.specs.Pasts.{FindsAt};
ghost use Rattle.lock_core.specs.SiteHandles.{plan_of, view_of, past_of, SitsAt};
ghost use Rattle.qspin_word.specs.Allows.{SpunBy};
ghost use Rattle.qspin_word.specs.SpinWordHandles.{spin_in, MaySpin, SpinSteps};
ghost use Rattle.qspin_word.specs.Types.{SpinHand};

use atomic_table::Play;
use lock_core::view::View;
use lock_core::{Op, Pass, Site, SpinHost};
use std::marker::{Brand, PhantomData};

/// What a step on a spin word leaves the spin part of its pass's view as, by what the step tells,
/// and what is so of what it tells. A call picks both by `Brand`.
pub trait SpinAfter {
    ghost after: { ℕ → SpinHand };

    ghost tells: { ℕ → Type 0 };
}

impl SpinAfter for Brand {
    ghost after = { λ _. no_spin };

    ghost tells = { λ _. Unit {0} };
}

struct By<A> {
    after: PhantomData<A>,
}

impl<E, A: SpinAfter> Play<(), View<E>> for By<A> {
    ghost then = { SpunBy A.after A.tells };
}

/// Does one operation on a spin word, counted from the first of them, at the lock of this number,
/// and answers what the word was before; a store answers what it stored. The word must be a lock's
/// or one of a node of the plan's tasks: the table has no other spin word.
#[inline]
pub fn spin_step<H: SpinHost, A: SpinAfter>(
    site: &Site<H>,
    pass: &mut Pass<H>,
    lock: usize,
    at: usize,
    op: Op,
) -> u64
    requires own { SitsAt site.now pass.old }
    requires there { lock < H.LOCKS }
    requires inside { at < spin_room (length (plan_of site.now)) }
    requires may { (n : ℕ) →
        SpinFrees lock (spin_in pass.old) (A.after n) → H.may_free (view_of pass.old) }
    requires allows { MaySpin H.LOCKS lock site.now pass.old at op A.after A.tells }
    ensures steps { SpinSteps site.now pass.old pass.new (A.after result) }
    ensures tells { A.tells result }
    ensures found { FindsAt op (H.FIRST + at) result (past_of pass.new) }
{
    site.step::<By<A>>(pass, H::FIRST + at, op)
}

/// The same on the word of that lock.
#[inline]
pub fn word_step<H: SpinHost, A: SpinAfter>(
    site: &Site<H>,
    pass: &mut Pass<H>,
    lock: usize,
    op: Op,
) -> u64
    requires own { SitsAt site.now pass.old }
    requires there { lock < H.LOCKS }
    requires may { (n : ℕ) →
        SpinFrees lock (spin_in pass.old) (A.after n) → H.may_free (view_of pass.old) }
    requires allows { MaySpin H.LOCKS lock site.now pass.old (word_at lock) op A.after A.tells }
    ensures steps { SpinSteps site.now pass.old pass.new (A.after result) }
    ensures tells { A.tells result }
    ensures found { FindsAt op (H.FIRST + word_at lock) result (past_of pass.new) }
{
    spin_step::<H, A>(site, pass, lock, 8 * lock, op)
}
