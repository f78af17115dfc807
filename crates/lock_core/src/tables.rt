//! The rules of tables with spin locks alone.
ghost use Rattle.std.specs.Prelude.{false, [], refl};
ghost use Rattle.lock_core.specs.Nothings.{never};
ghost use Rattle.lock_core.specs.LockHands.{RestsEverywhere};
ghost use Rattle.lock_core.specs.SpinTables.{SpinTableKept, SpinTableMoves, table-site, table-sites, table-opens, table-splits, table-joins, table-spins, table-spin, spins-inside, one-some, one-eight, eight-most, free-out, apart-out};

use crate::nothing::Nothing;
use crate::rule::SiteRule;
use crate::spin::SpinHost;

/// The rule of a table with a spin lock and the object `Nothing`.
pub struct Bare;

impl SiteRule for Bare {
    type O = Nothing;

    type Ext = ();

    ghost unavailable = { never };

    ghost reads_unheld = { false };

    ghost holds = { SpinTableKept 1 };

    ghost moves = { SpinTableMoves 1 };

    ghost marks = { λ _. [] };

    ghost word_at = { 0 };

    ghost idle = { tt };

    ghost rests = { λ _. Unit {0} };

    ghost site_kept = { table-site 1 };

    ghost site_moves = { λ k id ws us vs vs' there step. step.site };

    ghost sites = { table-sites 1 (λ _. Unit {0}) free-out };

    ghost opens = { table-opens 1 one-eight };

    ghost splits = { table-splits 1 };

    ghost joins = { λ k ws vs id other v w r at apart at' mine theirs there step. table-joins 1 (λ _. Unit {0}) free-out k ws vs id other v w r at apart at' (theirs.0, theirs.1) there step };
}

impl SpinHost for Bare {
    const FIRST: usize = 0;

    const LOCKS: usize = 1;

    ghost FIRST = { 0 };

    ghost LOCKS = { 1 };

    ghost may_free = { λ _. Unit {0} };

    ghost spin_first = { refl };

    ghost spin_inside = { spins-inside };

    ghost spin_some = { one-some };

    ghost spin_eight = { one-eight };

    ghost spin_kept = { table-spin 1 };

    ghost spin_moves = { λ k id ws us vs vs' step. step.spin };

    ghost spins = { λ k ws vs id l i n v s r at one within goes may spin. table-spins 1 k ws vs id l i n v s r at within goes spin };
}

/// The rule of a table with eight spin locks and the object `Nothing`.
pub struct Nest;

impl SiteRule for Nest {
    type O = Nothing;

    type Ext = ();

    ghost unavailable = { never };

    ghost reads_unheld = { false };

    ghost holds = { SpinTableKept 8 };

    ghost moves = { SpinTableMoves 8 };

    ghost marks = { λ _. [] };

    ghost word_at = { 0 };

    ghost idle = { tt };

    ghost rests = { λ v. RestsEverywhere v.spin };

    ghost site_kept = { table-site 8 };

    ghost site_moves = { λ k id ws us vs vs' there step. step.site };

    ghost sites = { table-sites 8 (λ v. RestsEverywhere v.spin) apart-out };

    ghost opens = { table-opens 8 eight-most };

    ghost splits = { table-splits 8 };

    ghost joins = { λ k ws vs id other v w r at apart at' mine theirs there step. table-joins 8 (λ v. RestsEverywhere v.spin) apart-out k ws vs id other v w r at apart at' (theirs.0, theirs.1) there step };
}

impl SpinHost for Nest {
    const FIRST: usize = 0;

    const LOCKS: usize = 8;

    ghost FIRST = { 0 };

    ghost LOCKS = { 8 };

    ghost may_free = { λ _. Unit {0} };

    ghost spin_first = { refl };

    ghost spin_inside = { spins-inside };

    ghost spin_some = { one-eight };

    ghost spin_eight = { eight-most };

    ghost spin_kept = { table-spin 8 };

    ghost spin_moves = { λ k id ws us vs vs' step. step.spin };

    ghost spins = { λ k ws vs id l i n v s r at one within goes may spin. table-spins 8 k ws vs id l i n v s r at within goes spin };
}
