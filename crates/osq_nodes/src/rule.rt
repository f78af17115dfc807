//! The rule of a table that is a spin queue.
ghost use Rattle.std.specs.Prelude.{◌≡◌, false};
ghost use Rattle.lock_core.specs.Nothings.{never};
ghost use Rattle.osq_nodes.specs.OsqPlaces.{node_marks};
ghost use Rattle.osq_nodes.specs.OsqRuled.{OsqKept, OsqMoves, idle};
ghost use Rattle.osq_nodes.specs.Laws.OsqRuled.{osq-site, osq-sites, osq-opens, osq-splits, osq-joins};
ghost use Rattle.osq_nodes.specs.Types.{Out};

use crate::node::Node;
use lock_core::{Nothing, SiteRule};

/// The rule of a spin queue. It guards nothing, and no task has a call.
pub struct QueueRule;

impl SiteRule for QueueRule {
    type O = Nothing;

    type Ext = Node;

    ghost unavailable = { never };

    ghost reads_unheld = { false };

    ghost holds = { OsqKept };

    ghost moves = { OsqMoves };

    ghost marks = { node_marks };

    ghost word_at = { 0 };

    ghost idle = { idle };

    ghost rests = { λ v. v.ext.place ≡ Out };

    ghost site_kept = { osq-site };

    ghost site_moves = { λ k id ws us vs vs' there step. step.site };

    ghost sites = { osq-sites };

    ghost opens = { osq-opens };

    ghost splits = { osq-splits };

    ghost joins = { λ k ws vs id other v w r at apart at' mine theirs there step. osq-joins k ws vs id other v w r at apart at' theirs.2 there step };
}
