//! Sites: tables under a rule, and the steps of their passes.
ghost use Rattle.std.specs.Prelude.{◌≡◌, ◌<◌, ◌≤◌, [], ◌∷◌, None, IfOk, length, max};
ghost use Rattle.lock_core.specs.Plans.{IsSmall, calls_in, starts_from};
ghost use Rattle.lock_core.specs.Stores.{memory_width, lock_room, left_out as left_out_of};
ghost use Rattle.lock_core.specs.Records.{IsPlan};
ghost use Rattle.lock_core.specs.Views.{first, ticked, split_off, merged, HoldsNothing};
ghost use Rattle.lock_core.specs.Pasts.{opening};
ghost use Rattle.lock_core.specs.SiteStated.{IsNew};

use crate::layout::LOCK_WORDS;
use crate::pass::{Face, Nesting, Pass};
use crate::plan::Plan;
use crate::rule::{SiteRule, Under};
use crate::view::{Seen, View};
use atomic_table::{Play, Table};
use plays::{Becomes, Begin, Cut, Find, Glue, Lift, Put, Puts, Tells};
use std::alloc::{AllocError, Global};

mod laws;
mod own;
mod plays;
mod reading;
mod seats;
mod signals;
mod steps;
mod words;

/// A table under the rule R. Its plan is `table.shared.key`.
#[derive(Drop)]
pub struct Site<R: SiteRule> {
    table: Table<(), Seen<R::Ext>, Plan, Under<R>, Global>,
    /// Where the calls of each task begin among all calls, and where the last task's end.
    starts: Vec<usize>,
    /// How many calls the plan has.
    count: usize,
    /// How many words of each row the table leaves out, since its plan has fewer than `MAX_TASKS`
    /// tasks.
    left_out: usize,
    /// Where in memory the site's words begin.
    site_at: usize,
    ghost started: { starts.items ≡ starts_from 0 table.shared.key },
    ghost wide: { table.shared.table_id.words ≡ memory_width table.shared.key },
    ghost lessened: { left_out ≡ left_out_of (length table.shared.key) },
    ghost behind: { site_at ≡ lock_room (length table.shared.key) },
    ghost counted: { count ≡ calls_in table.shared.key },
    ghost small: { IsSmall table.shared.key },
}

impl<R: SiteRule> Site<R> {
    ghost use Rattle.lock_core.specs.SiteHandles.{plan_of, view_of, past_of, joined_by, task_in, front_in, SitsAt, KeepsPast, KeepsNest, IsNestTold};

    /// A new site: all lock words are 0, the state is empty, no call is logged or recorded. The
    /// pass has no task number.
    pub fn open(alloc: Global, plan: Plan) -> Result<(Site<R>, Pass<R>), AllocError>
        requires { IsPlan R.O.object plan }
        ensures own { IfOk result (λ t. SitsAt t.0 t.1) }
        ensures plan { IfOk result (λ t. (plan_of t.0) ≡ plan) }
        ensures view { IfOk result (λ t. view_of t.1 ≡ first plan R.idle) }
        ensures told { IfOk result (λ t. IsNestTold t.1) }
        ensures past { IfOk result (λ t. past_of t.1 ≡ opening R.marks plan R.idle ∷ []) }
        ensures new { IfOk result (λ _.
            IsNew R.O.object R.O.WORDS plan (opening R.marks plan R.idle)) }
    {
        let starts = plan.starts(alloc)?;
        let count = plan.calls();
        let site_at = plan.lock_room();
        let left_out = (LOCK_WORDS - site_at) / 8;
        let memory = plan.memory(alloc)?;
        let (table, seat) = Table::of_words(alloc, memory.as_slice(), &plan)?;
        let face = Face::stranger(0);
        Ok((
            Site {
                table,
                starts,
                count,
                left_out,
                site_at,
            },
            Pass {
                seat,
                face,
                nest: Nesting::none(),
            },
        ))
    }

    /// A pass without a task number, which has seen as many entries.
    pub fn split(&self, pass: &mut Pass<R>) -> Pass<R>
        requires own { SitsAt self.now pass.old }
        ensures own { SitsAt self.now pass.new }
        ensures goes_on { KeepsPast pass.old pass.new }
        ensures kept { view_of pass.new ≡ ticked (view_of pass.old) }
        ensures nest { KeepsNest pass.old pass.new }
        ensures told { IsNestTold result }
        ensures its_own { SitsAt self.now result }
        ensures given { view_of result ≡ split_off R.idle (view_of pass.old) }
        ensures past { past_of result ≡ past_of pass.old }
    {
        let seat = self.table.shared.split_seat::<Cut<R>>(&mut pass.seat);
        let face = Face::stranger(pass.face.front);
        Pass {
            seat,
            face,
            nest: Nesting::none(),
        }
    }

    /// Takes in another pass, which is spent: `into` then knows the records that `other` knew, and
    /// has seen as many entries as either. Its past is as before, until a step of its own (`recall`)
    /// makes it go back to all that `other` did.
    pub fn gather(&self, into: &mut Pass<R>, other: Pass<R>)
        requires own { SitsAt self.now into.old }
        requires others_own { SitsAt self.now other }
        requires rests { HoldsNothing (view_of into.old) × R.rests (view_of into.old) }
        requires other_rests { HoldsNothing (view_of other) × R.rests (view_of other) }
        requires numberless { task_in other ≡ None }
        ensures own { SitsAt self.now into.new }
        ensures goes_on { KeepsPast into.old into.new }
        ensures kept { view_of into.new ≡ merged (view_of into.old) (view_of other) }
        ensures nest { KeepsNest into.old into.new }
        ensures rises { front_in into.old ≤ front_in into.new }
        ensures others { front_in other ≤ front_in into.new }
        ensures joined { joined_by into.new ≡
            record { moments = past_of other } ∷ joined_by into.old }
    {
        let Pass {
            seat,
            face,
            nest: _,
        } = other;
        self.table.shared.join_seat::<Glue<R>>(&mut into.seat, seat);
        into.face.front = into.face.front.max(face.front);
    }
}
