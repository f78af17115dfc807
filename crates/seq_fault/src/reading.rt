//! What a fault reads without the lock.
ghost use Rattle.std.specs.Prelude.{◌≡◌, ◌≢◌, ◌≤◌, ℕ, ◌+◌, ◌%◌, List, None, IsSome, IfOk, IfErr};
ghost use Rattle.lock_core.specs.Layout.{length_place};
ghost use Rattle.lock_core.specs.SiteHandles.{IsLatest, plan_of, view_of, hand_in, past_of, task_in, held_in, done_in, front_in, SitsAt, StepsAt, SaysSame};
ghost use Rattle.lock_core.specs.Pasts.{FoundAt};
ghost use Rattle.lock_core.specs.Views.{OwesNoSignal, ticked};
ghost use Rattle.word_bits.specs.PageMaps.{PageMap, IsPageMap};
ghost use Rattle.vma_map.specs.Searches.{AgreesWith, asked, page_of, wanted};
ghost use Rattle.vma_map.specs.Spaces.{IsAccess, access_reply, stores};
ghost use Rattle.seq_fault.specs.declared.view.Glance.{Glance as Moment};
ghost use Rattle.seq_fault.specs.SeqPlays.{turned};
ghost use Rattle.seq_fault.specs.SeqRuled.{seq_at};
ghost use Rattle.seq_fault.specs.SeqSteps.{Faults, FindsAtStep, HasNextFault, HasSearched, IsNextFault, IsOptimisticRead, IsWatching, StepsAtMost};
ghost use Rattle.seq_fault.specs.Types.{No, Off, On};

use crate::rule::SeqRule;
use crate::steps::{self, Raced};
use lock_core::{Pass, Site};
use vma_map::{Areas, Search, SpaceCall, meet};
use word_bits::Reply;

/// Loads the words that a search wants.
fn search_words(site: &Site<SeqRule<Areas>>, pass: &mut Pass<SeqRule<Areas>>, search: &mut Search)
    requires own { SitsAt site.now pass.old }
    requires latest { IsLatest pass.old }
    requires watching { IsWatching (view_of pass.old) }
    requires begins { asked search.old ≡ 0 }
    requires agrees { (words : List ℕ) → AgreesWith words search.old }
    ensures on { StepsAt site.now pass.old pass.new }
    ensures face { SaysSame pass.old pass.new }
    ensures over { wanted search.new ≡ None }
    ensures page { page_of search.new ≡ page_of search.old }
    ensures searched { (g : Moment) → (view_of pass.old).ext ≡ On g →
        HasSearched g search.new (view_of pass.old) (view_of pass.new) }
{
    while let Some(at) = search.want() {
        let word = steps::peek(site, pass, at);
        search.give(word);
    }
}

/// What an access meets at the page of a search that is over.
fn met(search: &Search, access: u8) -> Reply
    requires over { wanted search.now ≡ None }
    requires access { IsAccess access }
    ensures { (m : PageMap) → IsPageMap m → AgreesWith (stores m) search.now →
        result ≡ access_reply (m (page_of search.now)) access }
{
    meet(search.answer().map(|area| area.prot), access)
}

/// What a fault loaded: the sequence word, the length of the log, and the words from which the
/// reply comes. They belong together only where the sequence word is still the same behind them.
#[derive(Clone, Copy)]
pub(crate) struct OptimisticRead {
    before: u64,
    front: u32,
    reply: Reply,
}

/// Loads what a fault reads, but for the second load of the sequence word.
pub(crate) fn read_optimistically(
    site: &Site<SeqRule<Areas>>,
    pass: &mut Pass<SeqRule<Areas>>,
    page: u32,
    access: u8,
) -> Result<OptimisticRead, Raced>
    requires own { SitsAt site.now pass.old }
    requires access { IsAccess access }
    requires next { IsNextFault (plan_of site.now) (hand_in pass.old) page access }
    ensures on { StepsAt site.now pass.old pass.new }
    ensures face { SaysSame pass.old pass.new }
    ensures few { StepsAtMost 12 (view_of pass.old) (view_of pass.new) }
    ensures two { IfOk result (λ _.
        (view_of pass.old).steps + 2 ≤ (view_of pass.new).steps) }
    ensures read { IfOk result (λ read.
        IsOptimisticRead (plan_of site.now) read.before read.front read.reply (view_of pass.new)) }
    ensures even { IfOk result (λ read. read.before % 2 ≡ 0) }
    ensures first { IfOk result (λ read. FindsAtStep 1 seq_at read.before pass.old pass.new) }
    ensures measured { IfOk result (λ read.
        FindsAtStep 2 length_place read.front pass.old pass.new) }
    ensures odd { IfErr result (λ why. (why.before % 2 ≡ 1) × (why.after ≡ why.before)) }
    ensures raced { IfErr result (λ why. FindsAtStep 1 seq_at why.before pass.old pass.new) }
    ensures found { IfErr result (λ why. FoundAt seq_at why.after (past_of pass.new)) }
{
    let before = steps::watch(site, pass);
    if before % 2 == 1 {
        let after = before;
        return Err(Raced { before, after });
    }
    let front = steps::measure(site, pass) as u32;
    let mut search = Search::new(page);
    search_words(site, pass, &mut search);
    let reply = met(&search, access);
    Ok(OptimisticRead {
        before,
        front,
        reply,
    })
}

/// Loads the sequence word once more, and records the reply where it is the same.
pub(crate) fn validate(
    site: &Site<SeqRule<Areas>>,
    pass: &mut Pass<SeqRule<Areas>>,
    call: u32,
    read: OptimisticRead,
) -> Result<Reply, Raced>
    requires own { SitsAt site.now pass.old }
    requires numbered { IsSome (task_in pass.old) }
    requires out { held_in pass.old ≡ No }
    requires call { call ≡ done_in pass.old }
    requires recorded { OwesNoSignal (hand_in pass.old) }
    requires read { IsOptimisticRead (plan_of site.now)
        read.before read.front read.reply (view_of pass.old) }
    ensures on { StepsAt site.now pass.old pass.new }
    ensures ok { IfOk result (λ reply.
        Faults (plan_of site.now) (view_of pass.old) reply (view_of pass.new)) }
    ensures front { IfOk result (λ _. front_in pass.new ≡ read.front) }
    ensures again { IfOk result (λ _. FindsAtStep 1 seq_at read.before pass.old pass.new) }
    ensures counted { IfOk result (λ _.
        (view_of pass.new).steps ≡ (view_of pass.old).steps + 2) }
    ensures raced { IfErr result (λ why.
        (why.before ≡ read.before) × (why.after ≢ read.before)) }
    ensures found { IfErr result (λ why. FoundAt seq_at why.after (past_of pass.new)) }
    ensures kept { IfErr result (λ _.
        view_of pass.new ≡ turned (view_of pass.old) (hand_in pass.old) Off) }
    ensures face { IfErr result (λ _. SaysSame pass.old pass.new) }
{
    // A writer may have come between two of the loads: they belong together only where the sequence
    // word is still the same.
    if let Err(raced) = steps::confirm(site, pass, read.before, read.front) {
        return Err(raced);
    }
    site.note_seen(pass, call, read.reply);
    Ok(read.reply)
}

/// Loads the words of a task's next call, a fault.
pub(crate) fn next_fault(
    site: &Site<SeqRule<Areas>>,
    pass: &mut Pass<SeqRule<Areas>>,
    call: u32,
) -> (u32, u8)
    requires own { SitsAt site.now pass.old }
    requires numbered { IsSome (task_in pass.old) }
    requires call { call ≡ done_in pass.old }
    requires next { HasNextFault (plan_of site.now) (hand_in pass.old) }
    ensures on { StepsAt site.now pass.old pass.new }
    ensures kept { view_of pass.new ≡ ticked (ticked (view_of pass.old)) }
    ensures face { SaysSame pass.old pass.new }
    ensures next { IsNextFault (plan_of site.now) (hand_in pass.old) result.0 result.1 }
    ensures access { IsAccess result.1 }
{
    let Some(task) = pass.task() else {
        unreachable!()
    };
    let words = site.call(pass, task, call);
    match SpaceCall::call_of(words) {
        Some(SpaceCall::Fault { page, access }) => (page, access),
        _ => unreachable!(),
    }
}
