//! The rule of a table with an owner word alone.
ghost use Rattle.std.specs.Prelude.{◌<◌, false};
ghost use Rattle.word_bits.specs.LockWords.{owned};
ghost use Rattle.mutex_word.specs.OwnerRuled.{OwnerKept, OwnerMoves, IsPlain, leaves_plain, owner_at, unmarked, unturned};
ghost use Rattle.mutex_word.specs.Laws.OwnerRuled.{own-inside, own-there, owner-site, owner-own, owner-sites, owner-opens, owner-splits, owner-joins, owner-owns, owner-looks};

use crate::host::OwnerHost;
use lock_core::{SPIN_ROOM, SiteRule};
use std::marker::PhantomData;
use word_bits::Object;

/// The rule of a table that guards an object of the kind `O` by an owner word, of which nothing
/// sets a flag.
pub struct OwnerRule<O> {
    object: PhantomData<O>,
}

impl<O: Object> SiteRule for OwnerRule<O> {
    type O = O;

    type Ext = ();

    ghost unavailable = { owned };

    ghost reads_unheld = { false };

    ghost holds = { OwnerKept O.object O.WORDS };

    ghost moves = { OwnerMoves };

    ghost marks = { unmarked };

    ghost word_at = { owner_at };

    ghost idle = { tt };

    ghost rests = { λ _. Unit {0} };

    ghost site_kept = { owner-site O.object O.WORDS };

    ghost site_moves = { λ k id ws us vs vs' there step. step };

    ghost sites = { λ k ws vs id i n v h s r at same stays there step. (owner-sites O.object O.WORDS k ws vs id i n v h s r at same there, step) };

    ghost opens = { owner-opens O.object O.WORDS };

    ghost splits = { λ k ws vs id v r at there step. (owner-splits O.object O.WORDS k ws vs id v r at there, step) };

    ghost joins = { λ k ws vs id other v w r at apart at' mine theirs there step. (owner-joins O.object O.WORDS k ws vs id other v w r at apart at' theirs.0.0 there, step) };
}

impl<O: Object> OwnerHost for OwnerRule<O> {
    const OWNER: usize = SPIN_ROOM;

    ghost OWNER = { owner_at };

    ghost may_be = { IsPlain };

    ghost may_own = { leaves_plain };

    ghost may_miss = { λ _. Unit {0} };

    ghost uncounted = { λ _. ⊥ };

    ghost turned = { unturned };

    ghost own_inside = { own-inside };

    ghost own_there = { own-there };

    ghost own_kept = { owner-own O.object O.WORDS };

    ghost owns = { λ k ws vs id n v h t r at same goes tries left may own there. owner-owns O.object O.WORDS k ws vs id n v h r at goes tries may.0 own there };

    ghost own_may = { λ k ws vs id n v t r at may. may.1 };

    ghost own_looks = { λ k ws vs id v h r at task held goes tries there. owner-looks O.object O.WORDS k ws vs id v h r at task held goes tries there };
}
