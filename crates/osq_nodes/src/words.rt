//! The one operation on a word of a spin queue, whatever it is for.
ghost use Rattle.std.specs.Prelude.{◌≡◌, ◌<◌, ℕ, Some, IsSome};
ghost use Rattle.lock_core.specs.Stores.{spin_room};
ghost use Rattle.lock_core.specs.Pasts.{FindsAt};
ghost use Rattle.lock_core.specs.SitePlays.{Turns};
ghost use Rattle.osq_nodes.specs.declared.node.Place.{Place as At};
ghost use Rattle.osq_nodes.specs.OsqHandles.{tasks_of, view_of, task_in, place_in, past_of, SitsAt, StepsAt};
ghost use Rattle.osq_nodes.specs.OsqRuled.{stepped, Local};

use crate::node::Node;
use crate::pass::OsqPass;
use crate::queue::Osq;
use atomic_table::Play;
use lock_core::Op;
use lock_core::view::View;
use std::marker::{Brand, PhantomData};

/// Where an operation leads from a place, by what it answers, and what that tells.
pub trait Leads {
    ghost to: { At → ℕ → At };

    ghost tells: { ℕ → Type 0 };
}

impl Leads for Brand {
    ghost to = { λ p n. p };

    ghost tells = { λ _. Unit {0} };
}

struct Does<L> {
    leads: PhantomData<L>,
}

impl<L: Leads> Play<(), View<Node>> for Does<L> {
    ghost then = { λ st m n m'. Turns m (stepped m.0.ext.place m.0 (L.to m.0.ext.place n) n) m'
        × L.tells n };
}

/// Does one operation on a word, which keeps the queue's rule with one of the changes.
#[inline]
pub fn step<L: Leads>(osq: &Osq, pass: &mut OsqPass, word: usize, op: Op) -> u64
    requires own { SitsAt osq.now pass.old }
    requires numbered { IsSome (task_in pass.old) }
    requires inside { word < spin_room (tasks_of osq.now) }
    requires keeps { (t : ℕ) → task_in pass.old ≡ Some t → Local
        (tasks_of osq.now) t (place_in pass.old) word op (L.to (place_in pass.old)) L.tells }
    ensures on { StepsAt osq.now pass.old pass.new }
    ensures kept { view_of pass.new ≡
        stepped (place_in pass.old) (view_of pass.old) (L.to (place_in pass.old) result) result }
    ensures told { L.tells result }
    ensures found { FindsAt op word result (past_of pass.new) }
{
    osq.site.step::<Does<L>>(&mut pass.pass, word, op)
}
