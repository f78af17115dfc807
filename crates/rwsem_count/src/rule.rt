//! The rule of a table with a count alone.
ghost use Rattle.word_bits.specs.LockWords.{counted};
ghost use Rattle.rwsem_count.specs.CountRuled.{CountMoves, CountRuleKept, IsPlain, count_at, may_count, may_miss, new_bias, same_bias};
ghost use Rattle.rwsem_count.specs.Laws.CountRuled.{count-inside, count-there, rule-site, rule-count, rule-sites, rule-opens, rule-splits, rule-joins, rule-counts, rule-looks};
ghost use Rattle.rwsem_count.specs.CountStated.{kept_bias};
ghost use Rattle.rwsem_count.specs.Types.{Clear};
ghost use Rattle.std.specs.Prelude.{◌≡◌, ◌<◌, false, refl};

use crate::host::CountHost;
use crate::view::Bias;
use lock_core::{SPIN_ROOM, SiteRule};
use std::marker::PhantomData;
use word_bits::Object;

/// The rule of a table that guards an object of the kind `O` by a count, of which nothing sets a
/// flag but the writer's.
pub struct CountRule<O> {
    object: PhantomData<O>,
}

impl<O: Object> SiteRule for CountRule<O> {
    type O = O;

    type Ext = Bias;

    ghost unavailable = { counted };

    ghost reads_unheld = { false };

    ghost holds = { CountRuleKept O.object O.WORDS };

    ghost moves = { CountMoves };

    ghost marks = { kept_bias };

    ghost word_at = { count_at };

    ghost idle = { Clear };

    ghost rests = { λ v. v.ext ≡ Clear };

    ghost site_kept = { rule-site O.object O.WORDS };

    ghost site_moves = { λ k id ws us vs vs' there step. step };

    ghost sites = { λ k ws vs id i n v h s r at same stays there step. (rule-sites O.object O.WORDS k ws vs id i n v h s r at same there, step) };

    ghost opens = { rule-opens O.object O.WORDS };

    ghost splits = { λ k ws vs id v r at there step. (rule-splits O.object O.WORDS k ws vs id v r at there, step) };

    ghost joins = { λ k ws vs id other v w r at apart at' mine theirs there step. (rule-joins O.object O.WORDS k ws vs id other v w r at apart at' theirs there, step) };
}

impl<O: Object> CountHost for CountRule<O> {
    const COUNT: usize = SPIN_ROOM;

    ghost COUNT = { count_at };

    ghost may_be = { IsPlain };

    ghost bias = { same_bias };

    ghost counted = { new_bias };

    ghost more = { λ k ws vs. 0 };

    ghost may_count = { may_count };

    ghost may_miss = { may_miss };

    ghost count_inside = { count-inside };

    ghost count_there = { count-there };

    ghost bias_back = { λ v h b. refl };

    ghost count_kept = { rule-count O.object O.WORDS };

    ghost counts = { rule-counts O.object O.WORDS };

    ghost count_looks = { rule-looks O.object O.WORDS };
}
