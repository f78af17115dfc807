//! The rule of a table with a sequence word.
ghost use Rattle.std.specs.Prelude.{true};
ghost use Rattle.seq_fault.specs.SeqRuled.{SeqKept, SeqMoves, never, seq_at, unmarked};
ghost use Rattle.seq_fault.specs.Laws.SeqRuled.{rule-site, rule-sites, rule-opens, rule-splits, rule-joins};
ghost use Rattle.seq_fault.specs.Types.{Off};

use crate::view::Watch;
use lock_core::{SPIN_ROOM, SiteRule};
use std::marker::PhantomData;
use word_bits::Object;

/// The place of the sequence word, behind the room of the spin locks.
pub const SEQUENCE: usize = SPIN_ROOM;

/// The rule of a table that guards an object of the kind `O` by a sequence word.
pub struct SeqRule<O> {
    object: PhantomData<O>,
}

impl<O: Object> SiteRule for SeqRule<O> {
    type O = O;

    type Ext = Watch;

    ghost unavailable = { never };

    ghost reads_unheld = { true };

    ghost holds = { SeqKept O.object O.WORDS };

    ghost moves = { SeqMoves };

    ghost marks = { unmarked };

    ghost word_at = { seq_at };

    ghost idle = { Off };

    ghost rests = { λ v. Unit {0} };

    ghost site_kept = { rule-site O.object O.WORDS };

    ghost site_moves = { λ k id ws us vs vs' there step. step.0 };

    ghost sites = { λ k ws vs id i n v h s r at same stays there step. rule-sites O.object O.WORDS k ws vs id i n v h s r at same there step };

    ghost opens = { rule-opens O.object O.WORDS };

    ghost splits = { λ k ws vs id v r at there step. rule-splits O.object O.WORDS k ws vs id v r at there step };

    ghost joins = { λ k ws vs id other v w r at apart at' mine theirs there step. rule-joins O.object O.WORDS k ws vs id other v w r at apart at' theirs there step };
}
