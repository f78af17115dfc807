//! Laws of the text. Each is the contract of a function that does nothing.
ghost use Rattle.vma_map.specs.Spaces.{space};
ghost use Rattle.fd_table.specs.Tables.{table};
ghost use Rattle.word_bits.specs.LockWords.{counted, owned};
ghost use Rattle.mm_report.specs.Meanings.{SignalsAreNamed, SpaceCallsAreNamed, TableCallsAreNamed};
ghost use Rattle.mm_report.specs.Orders.{KeepsOrder, KeepsPositions};
ghost use Rattle.mm_report.specs.Telling.{LineTellsCall, TextDeterminesHistories};

/// The text determines the lines of the histories and the states that are told.
#[tactic(auto, using(crate::proofs::Telling::text_determines_histories))]
pub fn text_determines_histories()
    ensures { TextDeterminesHistories }
{}

/// The line of a call determines its task, its number and its reply.
#[tactic(auto, using(crate::proofs::Replies::line_tells_call))]
pub fn line_tells_call()
    ensures { LineTellsCall }
{}

/// The history of a space or of a table has each task's calls once and in the task's order.
#[tactic(auto, using(crate::proofs::Order::keeps_order))]
pub fn history_keeps_order()
    ensures space { KeepsOrder space counted }
    ensures table { KeepsOrder table owned }
{}

/// The history of a space or of a table has its calls in the order of their places in the log. At
/// one place the calls that aren't logged stand before the one that is.
#[tactic(auto, using(crate::proofs::Positions::keeps_positions))]
pub fn history_keeps_positions()
    ensures space { KeepsPositions space counted }
    ensures table { KeepsPositions table owned }
{}

/// The name and the arguments of a call in a script mean the call of that name, in each version
/// that has it, and are told again.
#[tactic(auto, using(crate::proofs::NamedCalls::space_calls_are_named, crate::proofs::NamedCalls::table_calls_are_named, crate::proofs::NamedCalls::signals_are_named))]
pub fn calls_are_named()
    ensures space { SpaceCallsAreNamed }
    ensures table { TableCallsAreNamed }
    ensures signal { SignalsAreNamed }
{}
