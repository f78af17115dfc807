//! A space or a table under its lock.

use crate::one_lock;
use crate::shared_object::SharedObject;
use cpu_task::{Context, Crew, Gate};
use fd_table::Fds;
use guarded::Guarded;
use lock_core::Plan;
use sleep_lock::{CountLock, OwnerLock};
use std::alloc::{AllocError, Global};
use std::sync::Wait;
use vma_map::Areas;
use word_bits::Snapshot;

/// An object of either kind.
#[derive(Drop)]
pub enum SpaceOrTable<A, T> {
    Space(A),
    Table(T),
}

/// A pass of it.
#[derive(Drop)]
pub enum SpaceOrTablePass<P, Q> {
    OfSpace(P),
    OfTable(Q),
}

impl<A: CountLock<Areas>, T: OwnerLock<Fds>> SharedObject
    for SpaceOrTable<Guarded<A, Areas>, Guarded<T, Fds>> {
    ghost use Rattle.lock_core.specs.Kinds.{unavailable};
    ghost use Rattle.vma_map.specs.Spaces.{space};
    ghost use Rattle.fd_table.specs.Tables.{table};
    ghost use Rattle.guarded.specs.GuardedHandles.{lock_of};
    ghost use Rattle.sleep_lock.specs.LockMembers.{members};
    ghost use Rattle.mm_serve.specs.TaskServing.{IsServing};
    ghost use Rattle.mm_serve.specs.MachineSites.{Matches, holds_space};
    ghost use Rattle.mm_serve.specs.UnderLocks.{HasLookedBackUnder, IsIdleUnder, KnowsPastUnder, calls_under, hand_under, past_under, spun_under};

    type Pass = SpaceOrTablePass<A::Pass, T::Pass>;

    ghost is_space = { holds_space };

    ghost calls_on = { calls_under
        (members A.calls_on A.view A.sits A.spun A.kind A.word_at A.opened A.waits A.tells A.tells_queue)
        (members T.calls_on T.view T.sits T.spun T.kind T.word_at T.opened T.waits T.tells T.tells_queue) };

    ghost hand = { hand_under
        (members A.calls_on A.view A.sits A.spun A.kind A.word_at A.opened A.waits A.tells A.tells_queue)
        (members T.calls_on T.view T.sits T.spun T.kind T.word_at T.opened T.waits T.tells T.tells_queue) };

    ghost past = { past_under
        (members A.calls_on A.view A.sits A.spun A.kind A.word_at A.opened A.waits A.tells A.tells_queue)
        (members T.calls_on T.view T.sits T.spun T.kind T.word_at T.opened T.waits T.tells T.tells_queue) };

    ghost spun = { spun_under
        (members A.calls_on A.view A.sits A.spun A.kind A.word_at A.opened A.waits A.tells A.tells_queue)
        (members T.calls_on T.view T.sits T.spun T.kind T.word_at T.opened T.waits T.tells T.tells_queue) };

    ghost idle = { IsIdleUnder
        (members A.calls_on A.view A.sits A.spun A.kind A.word_at A.opened A.waits A.tells A.tells_queue)
        (members T.calls_on T.view T.sits T.spun T.kind T.word_at T.opened T.waits T.tells T.tells_queue) };

    ghost serving = { λ site pass task. Matches
        (λ s p. A.sits (lock_of s) p ×
        IsServing space (unavailable A.kind) (A.calls_on (lock_of s)) (A.view p).hand task)
        (λ s p. T.sits (lock_of s) p ×
        IsServing table (unavailable T.kind) (T.calls_on (lock_of s)) (T.view p).hand task)
        site pass };

    ghost looked_back = { HasLookedBackUnder
        (members A.calls_on A.view A.sits A.spun A.kind A.word_at A.opened A.waits A.tells A.tells_queue)
        (members T.calls_on T.view T.sits T.spun T.kind T.word_at T.opened T.waits T.tells T.tells_queue) };

    ghost knows_past = { KnowsPastUnder
        (members A.calls_on A.view A.sits A.spun A.kind A.word_at A.opened A.waits A.tells A.tells_queue)
        (members T.calls_on T.view T.sits T.spun T.kind T.word_at T.opened T.waits T.tells T.tells_queue) };

    fn open(
        alloc: Global,
        number: u32,
        space: bool,
        plan: Plan,
    ) -> Result<(Self, SpaceOrTablePass<A::Pass, T::Pass>), AllocError> {
        if space {
            let (site, pass) = Guarded::open(alloc, number, plan)?;
            Ok((SpaceOrTable::Space(site), SpaceOrTablePass::OfSpace(pass)))
        } else {
            let (site, pass) = Guarded::open(alloc, number, plan)?;
            Ok((SpaceOrTable::Table(site), SpaceOrTablePass::OfTable(pass)))
        }
    }

    fn split(
        &self,
        pass: &mut SpaceOrTablePass<A::Pass, T::Pass>,
    ) -> SpaceOrTablePass<A::Pass, T::Pass> {
        match (self, pass) {
            (SpaceOrTable::Space(site), SpaceOrTablePass::OfSpace(pass)) =>
                SpaceOrTablePass::OfSpace(site.split(pass)),
            (SpaceOrTable::Table(site), SpaceOrTablePass::OfTable(pass)) =>
                SpaceOrTablePass::OfTable(site.split(pass)),
            _ => unreachable!(),
        }
    }

    fn begin<W: Wait>(&self, rt: &W, pass: &mut SpaceOrTablePass<A::Pass, T::Pass>, task: u32) {
        match (self, pass) {
            (SpaceOrTable::Space(site), SpaceOrTablePass::OfSpace(pass)) => one_lock::begin(
                site, rt, pass, task,
            ),
            (SpaceOrTable::Table(site), SpaceOrTablePass::OfTable(pass)) => one_lock::begin(
                site, rt, pass, task,
            ),
            _ => unreachable!(),
        }
    }

    fn perform<W: Wait, C: Crew, G: Gate>(
        &self,
        context: Context<'_, W, C, G>,
        pass: &mut SpaceOrTablePass<A::Pass, T::Pass>,
        cpu: &mut C::C,
        task: u32,
    ) {
        match (self, pass) {
            (SpaceOrTable::Space(site), SpaceOrTablePass::OfSpace(pass)) => {
                one_lock::perform(site, context, pass, cpu, task)
            }
            (SpaceOrTable::Table(site), SpaceOrTablePass::OfTable(pass)) => {
                one_lock::perform(site, context, pass, cpu, task)
            }
            _ => unreachable!(),
        }
    }

    fn end(&self, pass: &mut SpaceOrTablePass<A::Pass, T::Pass>, task: u32) {
        match (self, pass) {
            (SpaceOrTable::Space(site), SpaceOrTablePass::OfSpace(pass)) => one_lock::end(
                site, pass, task,
            ),
            (SpaceOrTable::Table(site), SpaceOrTablePass::OfTable(pass)) => one_lock::end(
                site, pass, task,
            ),
            _ => unreachable!(),
        }
    }

    fn gather(
        &self,
        into: &mut SpaceOrTablePass<A::Pass, T::Pass>,
        other: SpaceOrTablePass<A::Pass, T::Pass>,
    ) {
        match (self, into, other) {
            (
                SpaceOrTable::Space(site),
                SpaceOrTablePass::OfSpace(into),
                SpaceOrTablePass::OfSpace(other),
            ) => { site.gather(into, other) }
            (
                SpaceOrTable::Table(site),
                SpaceOrTablePass::OfTable(into),
                SpaceOrTablePass::OfTable(other),
            ) => { site.gather(into, other) }
            _ => unreachable!(),
        }
    }

    fn snapshot<W: Wait, C: Crew>(
        &self,
        rt: &W,
        pass: &mut SpaceOrTablePass<A::Pass, T::Pass>,
        cpu: &mut C::C,
        crew: &C,
        out: &mut Snapshot,
    ) {
        match (self, pass) {
            (SpaceOrTable::Space(site), SpaceOrTablePass::OfSpace(pass)) => {
                one_lock::snapshot(site, rt, pass, cpu, crew, out)
            }
            (SpaceOrTable::Table(site), SpaceOrTablePass::OfTable(pass)) => {
                one_lock::snapshot(site, rt, pass, cpu, crew, out)
            }
            _ => unreachable!(),
        }
    }

    fn recall(&self, pass: &mut SpaceOrTablePass<A::Pass, T::Pass>) {
        match (self, pass) {
            (SpaceOrTable::Space(site), SpaceOrTablePass::OfSpace(pass)) => {
                site.recall(pass);
                site.recall_queue(pass);
            }
            (SpaceOrTable::Table(site), SpaceOrTablePass::OfTable(pass)) => {
                site.recall(pass);
                site.recall_queue(pass);
            }
            _ => unreachable!(),
        }
    }
}
