//! The summary of an object's history.
ghost use Rattle.std.specs.Prelude.{◌≡◌, ◌<◌, ◌∷◌, ℕ, List, count_by, length, map, true};
ghost use Rattle.std.specs.List.{AllByRecursion};
ghost use Rattle.word_bits.specs.Histories.{Plan};
ghost use Rattle.word_bits.specs.Legal.{Tells};
ghost use Rattle.word_bits.specs.RecWord.{IsRec, rec_word};
ghost use Rattle.fd_table.specs.Tables.{FdMap, IsFdMap, stores, used_from};
ghost use Rattle.byte_streams.specs.Causes.{CountsFailure};
ghost use Rattle.mm_report.specs.Results.{Told, IsLegalOn};
ghost use Rattle.mm_report.specs.Reports.{object_report};
ghost use Rattle.mm_report.specs.Summary.{counts_of, is_refused};
ghost use Rattle.mm_report.specs.ReportWriting.{WritesObject};
ghost use Rattle.mm_report.specs.Types.{Rec};

use crate::line::add_summary;
use byte_streams::{Failed, Outbox, Sink};
use fd_table::Fds;
use task_script::Script;
use word_bits::{Object, Rec, Reply, Snapshot, ValueObject};

/// The numbers of an object's history and of the state that it leaves.
#[derive(Clone, Copy, Debug, PartialEq, Eq)]
pub(crate) struct Counts {
    /// How many calls there were.
    pub(crate) calls: u64,
    /// How many of them are in the log.
    pub(crate) logged: u64,
    /// How many of them were refused.
    pub(crate) refused: u64,
    /// How many areas or open descriptors are left.
    pub(crate) left: u64,
}

// Whether the word is the record of a call that was refused.
fn is_refused(word: u64) -> bool
    ensures { (r : Rec) → IsRec r → rec_word r ≡ word → result ≡ is_refused r }
{
    let Some(rec) = Rec::unpack(word) else {
        return false;
    };
    matches!(rec.reply, Reply::Refused(_) | Reply::MapErr | Reply::AccErr)
}

fn count_refused(recs: &[u64]) -> u64
    ensures { (records : List Rec) → AllByRecursion IsRec records →
        recs.now ≡ map rec_word records → result ≡ count_by is_refused records }
{
    let mut refused = 0;
    for word in recs {
        if is_refused(*word) {
            refused += 1;
        }
    }
    refused
}

// How many areas the words of a space have.
fn count_areas(state: &[u64]) -> u64
    ensures { (areas : ℕ) (words : List ℕ) →
        state.now ≡ areas ∷ words → result ≡ areas }
{
    state.first().copied().unwrap_or(0)
}

// How many descriptors are open by the words of a table.
fn count_open(state: &[u64]) -> u64
    ensures { (m : FdMap) → IsFdMap m → stores m ≡ state.now → result ≡ used_from m 0 64 }
{
    if state.len() != Fds::WORDS {
        return 0;
    }
    match Fds::load(state) {
        Some(fds) => u64::from(fds.used()),
        None => 0,
    }
}

fn count_history(is_space: bool, snapshot: &Snapshot) -> Counts
    ensures { (plan : Plan) (t : Told) → Tells snapshot.now t.records t.log →
        IsLegalOn is_space plan t snapshot.now.state → result ≡ counts_of is_space plan t }
{
    let state = snapshot.state();
    let left = if is_space {
        count_areas(state)
    } else {
        count_open(state)
    };
    Counts {
        calls: snapshot.recs().len() as u64,
        logged: snapshot.log().len() as u64,
        refused: count_refused(snapshot.recs()),
        left,
    }
}

/// The summary of an object.
pub(crate) fn write_summary<K: Sink>(
    script: &Script,
    object: u32,
    snapshot: &Snapshot,
    out: &mut Outbox,
    sink: &mut K,
) -> Result<(), Failed>
    requires { object < length script.now.objects }
    ensures text { WritesObject (object_report true) script.now object snapshot.now
        (K.written sink.old) (K.written sink.new) out.old out.new result }
    ensures cause { CountsFailure (K.faults sink.old) (K.faults sink.new) result }
{
    let name = script.name(object as usize);
    let counts = count_history(script.is_space(object as usize), snapshot);
    out.make_room(sink)?;
    add_summary(out, name, counts);
    Ok(())
}
