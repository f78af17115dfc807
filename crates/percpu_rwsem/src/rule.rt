//! The rule of a table with a count for each task and a block word.
ghost use Rattle.percpu_rwsem.specs.PercpuRuled.{PercpuKept, PercpuMoves, block_at, kept_phase, never};
ghost use Rattle.percpu_rwsem.specs.Laws.PercpuRuled.{joins-moves, rule-site, rule-sites, rule-sites-moves, rule-opens, rule-splits, rule-joins, splits-moves};
ghost use Rattle.percpu_rwsem.specs.Types.{Idle};
ghost use Rattle.std.specs.Prelude.{◌≡◌, false};

use crate::view::Phase;
use lock_core::{SPIN_ROOM, SiteRule};
use std::marker::PhantomData;
use word_bits::Object;

/// The place of the block word, behind the room of the spin locks.
pub const BLOCK: usize = SPIN_ROOM;

/// The place of the first count. Each has a line of its own.
pub const COUNTS: usize = SPIN_ROOM + 8;

/// The rule of a table that guards an object of the kind `O` by counts of readers and a block word.
pub struct PercpuRule<O> {
    object: PhantomData<O>,
}

impl<O: Object> SiteRule for PercpuRule<O> {
    type O = O;

    type Ext = Phase;

    ghost unavailable = { never };

    ghost reads_unheld = { false };

    ghost holds = { PercpuKept O.object O.WORDS };

    ghost moves = { PercpuMoves };

    ghost marks = { kept_phase };

    ghost word_at = { block_at };

    ghost idle = { Idle };

    ghost rests = { λ v. v.ext ≡ Idle };

    ghost site_kept = { rule-site O.object O.WORDS };

    ghost site_moves = { λ k id ws us vs vs' there step. step.site };

    ghost sites = { λ k ws vs id i n v h s r at same stays there step. (rule-sites O.object O.WORDS k ws vs id i n v h s r at same there, rule-sites-moves O.object O.WORDS k ws vs id i n v h s r at same step) };

    ghost opens = { rule-opens O.object O.WORDS };

    ghost splits = { λ k ws vs id v r at there step. (rule-splits O.object O.WORDS k ws vs id v r at there, splits-moves k ws vs id v at step) };

    ghost joins = { λ k ws vs id other v w r at apart at' mine theirs there step. (rule-joins O.object O.WORDS k ws vs id other v w r at apart at' theirs there, joins-moves k ws vs id other v w at apart at' theirs.1 step) };
}
