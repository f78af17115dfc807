//! The trait of the locks that are built over a site.
ghost use Rattle.std.specs.Prelude.{◌≡◌, ◌≢◌, ◌+◌, ◌<◌, ◌≤◌, length, slice_get, slice_index, Some, None, IsSome, IfSome, IfNone};
ghost use Rattle.std.specs.Borrow.{sem};
ghost use Rattle.word_bits.specs.declared.rec.Rec.{Rec as Record};
ghost use Rattle.word_bits.specs.RecWord.{IsRec, rec_word};
ghost use Rattle.word_bits.specs.Histories.{Plan as Calls};
ghost use Rattle.lock_core.specs.declared.pass.Pass.{Pass as Seat};
ghost use Rattle.lock_core.specs.declared.site.Site.{Site as Table};
ghost use Rattle.lock_core.specs.declared.layout.TheConstants.{LOCK_WORDS};
ghost use Rattle.lock_core.specs.Chronicles.{Chronicles};
ghost use Rattle.lock_core.specs.SiteHandles.{plan_of, view_of, hand_in, front_in, IsLatest, SawNonePending, SawOwnSignals, SitsAt, UndoneIsZero};
ghost use Rattle.lock_core.specs.Layout.{entry_place, length_place, record_place};
ghost use Rattle.lock_core.specs.Locking.{Looks, Has, HasSince, IsStored};
ghost use Rattle.lock_core.specs.SitePasses.{Consumes, IsChange, IsSignal, MayNote, IsEntryWord, TellsKnown};
ghost use Rattle.lock_core.specs.Pasts.{FoundAt};
ghost use Rattle.lock_core.specs.Records.{row, IsPlan, IsCallOrSignal};
ghost use Rattle.lock_core.specs.Shown.{Shown, AllButHand, StepsOn};
ghost use Rattle.lock_core.specs.Views.{after_commit, after_note, committed, handed, next_entry, noted, quieted, sending, ticked, wrote, Beside, OwesNoSignal, Unsent};
ghost use Rattle.lock_core.specs.Faces.{IsFace, Follows, KeepsHold};
ghost use Rattle.lock_core.specs.SeatLending.{LendsSeat};
ghost use Rattle.lock_core.specs.Types.{No, Alone};

use crate::is::Is;
use crate::{Held, Interrupted, Pass, Site, SiteRule};
use word_bits::{CallWords, MAX_TASKS, Object, Reply};

/// A lock that is built over a site: its pass has a pass of the site. A lock gives the site, the
/// pass of the site and what a caller sees of a pass; it then has the calls below.
pub trait SiteLock<O: Object>: Sized {
    /// The rule of its table.
    type Rule: SiteRule<O = O>;

    /// The site of that rule.
    type Site: Is<Site<Self::Rule>>;

    /// What a task makes its steps with.
    type Pass: Drop;

    ghost site_of: { Self → Table Self.Rule O Self.Rule.Ext O.Call };

    ghost seat_of: { Self.Pass → Seat Self.Rule O Self.Rule.Ext O.Call };

    // The pass, with this pass of the site.
    ghost with_seat: { Self.Pass → Seat Self.Rule O Self.Rule.Ext O.Call → Self.Pass };

    ghost calls_on: { Self → Calls };

    // What callers see of a pass.
    ghost view: { Self.Pass → Shown };

    // The pass is one of this lock's, and no call on it is under way.
    ghost sits: { Self → Self.Pass → Type 0 };

    /// The site.
    fn site(&self) -> &Self::Site
        ensures { Self.Site.is result.now ≡ site_of self.now };

    /// The pass of the site.
    fn peek(pass: &Self::Pass) -> &Pass<Self::Rule>
        ensures { result.now ≡ seat_of pass.now };

    /// The same. What a borrower leaves there is the pass of the site from then on.
    fn seat(pass: &mut Self::Pass) -> &mut Pass<Self::Rule>
        ensures* writes_back { sem 𝓛 (LendsSeat Self.Pass.row Self.Rule.row O.row
            Self.Rule.Ext.row O.Call.row with_seat pass.entry result) }
        ensures value { result.now ≡ seat_of pass.old };

    /// A guarded word.
    final fn word(&self, pass: &mut Self::Pass, at: usize) -> u64
        requires own { sits self.now pass.old }
        requires held { (view pass.old).hand.held ≢ No }
        requires inside { at < O.WORDS }
        ensures on { StepsOn sits view self.now pass.old pass.new }
        ensures beside { pass.new ≡ with_seat pass.old (seat_of pass.new) }
        ensures last { IsLatest (seat_of pass.new) }
        ensures seat { view_of (seat_of pass.new) ≡ ticked (view_of (seat_of pass.old)) }
        ensures kept { Looks (view pass.old) (view pass.new) }
        ensures value { result ≡ slice_index (view pass.old).hand.known at }
        ensures found { FoundAt (LOCK_WORDS + at) result (view pass.new).past }
    {
        self.site().get().word(Self::seat(pass), at)
    }

    /// Writes a guarded word. Until its next commit, or the end of its writing, the pass writes.
    final fn set_word(&self, pass: &mut Self::Pass, at: usize, value: u64)
        requires own { sits self.now pass.old }
        requires held { (view pass.old).hand.held ≡ Alone }
        requires inside { at < O.WORDS }
        ensures on { StepsOn sits view self.now pass.old pass.new }
        ensures beside { pass.new ≡ with_seat pass.old (seat_of pass.new) }
        ensures last { IsLatest (seat_of pass.new) }
        ensures seat { view_of (seat_of pass.new) ≡
            handed (view_of (seat_of pass.old)) (wrote (hand_in (seat_of pass.old)) at value) }
        ensures kept { Has (wrote (view pass.old).hand at value)
            (view pass.old) (view pass.new) }
    {
        self.site().get().set_word(Self::seat(pass), at, value);
    }

    /// Ends the pass's writing without a record: the guarded words, as they are now, represent the
    /// state after the log. It loads one word.
    final fn end_writing(&self, pass: &mut Self::Pass)
        requires own { sits self.now pass.old }
        requires held { (view pass.old).hand.held ≡ Alone }
        requires stored { IsStored O.object (calls_on self.now) (view pass.old).hand }
        ensures on { StepsOn sits view self.now pass.old pass.new }
        ensures beside { pass.new ≡ with_seat pass.old (seat_of pass.new) }
        ensures last { IsLatest (seat_of pass.new) }
        ensures seat { view_of (seat_of pass.new) ≡
            handed (view_of (seat_of pass.old)) (quieted (hand_in (seat_of pass.old))) }
        ensures kept { Has (quieted (view pass.old).hand) (view pass.old) (view pass.new) }
    {
        self.site().get().end_writing(Self::seat(pass));
    }

    /// Records the next call of the pass's task, which changes the object: the guarded words
    /// represent what it leaves of the state after the log. The call is appended to the log.
    final fn commit(&self, pass: &mut Self::Pass, call: u32, reply: Reply)
        requires own { sits self.now pass.old }
        requires held { (view pass.old).hand.held ≡ Alone }
        requires numbered { IsSome (view pass.old).hand.task }
        requires next { call ≡ (view pass.old).hand.done }
        requires recorded { OwesNoSignal (view pass.old).hand }
        requires change { IsChange O.object (calls_on self.now)
            (view pass.old).hand (next_entry (view pass.old).hand) reply }
        ensures on { StepsOn sits view self.now pass.old pass.new }
        ensures beside { pass.new ≡ with_seat pass.old (seat_of pass.new) }
        ensures last { IsLatest (seat_of pass.new) }
        ensures seat { view_of (seat_of pass.new) ≡
            after_commit (view_of (seat_of pass.old)) reply }
        ensures kept { HasSince
            (λ step. committed (view pass.old).hand step (next_entry (view pass.old).hand) reply)
            (view pass.old) (view pass.new) }
        ensures rises { front_in (seat_of pass.old) ≤ front_in (seat_of pass.new) }
    {
        self.site().get().commit(Self::seat(pass), call, reply);
    }

    /// Records the next call of the pass's task, which changes nothing. Where the pass holds, the
    /// call reads, and stands where the log ends. Where it holds nothing, the reply says why: the
    /// call stands where the pass saw the log end.
    final fn note(&self, pass: &mut Self::Pass, call: u32, reply: Reply)
        requires own { sits self.now pass.old }
        requires numbered { IsSome (view pass.old).hand.task }
        requires next { call ≡ (view pass.old).hand.done }
        requires unsent { Unsent (view pass.old).hand reply }
        requires may { MayNote O.object Self.Rule.unavailable (calls_on self.now)
            (view pass.old).hand (next_entry (view pass.old).hand) reply }
        ensures on { StepsOn sits view self.now pass.old pass.new }
        ensures beside { pass.new ≡ with_seat pass.old (seat_of pass.new) }
        ensures last { IsLatest (seat_of pass.new) }
        ensures seat { view_of (seat_of pass.new) ≡ after_note (view_of (seat_of pass.old)) reply }
        ensures kept { HasSince
            (λ step. noted (view pass.old).hand step (next_entry (view pass.old).hand) reply)
            (view pass.old) (view pass.new) }
        ensures rises { front_in (seat_of pass.old) ≤ front_in (seat_of pass.new) }
    {
        self.site().get().note(Self::seat(pass), call, reply);
    }

    /// Sends the signal that the next call of the pass's task is.
    final fn signal(&self, pass: &mut Self::Pass, target: u32)
        requires own { sits self.now pass.old }
        requires numbered { IsSome (view pass.old).hand.task }
        requires there { target < MAX_TASKS }
        requires unsent { (view pass.old).hand.sent ≡ None }
        requires next { IsSignal (calls_on self.now) (next_entry (view pass.old).hand) target }
        ensures on { StepsOn sits view self.now pass.old pass.new }
        ensures beside { pass.new ≡ with_seat pass.old (seat_of pass.new) }
        ensures last { IsLatest (seat_of pass.new) }
        ensures seat { view_of (seat_of pass.new) ≡
            handed (view_of (seat_of pass.old)) (sending (hand_in (seat_of pass.old)) target) }
        ensures kept { Has (sending (view pass.old).hand target) (view pass.old) (view pass.new) }
    {
        self.site().get().signal(Self::seat(pass), target);
    }

    /// Consumes a signal if more were sent to the pass's task than it has consumed, and tells both
    /// numbers. `None` if no more were sent. The kernel's `signal_pending_state`, and what its
    /// caller does on return. The signal that it consumed before must be recorded: a record of an
    /// interrupted call records one signal and leaves none, so a pass that has consumed two can
    /// record nothing more.
    final fn consume(&self, pass: &mut Self::Pass) -> Option<Interrupted>
        requires own { sits self.now pass.old }
        requires numbered { IsSome (view pass.old).hand.task }
        requires recorded { (view pass.old).hand.consumed ≡ 0 }
        ensures on { StepsOn sits view self.now pass.old pass.new }
        ensures beside { pass.new ≡ with_seat pass.old (seat_of pass.new) }
        ensures last { IsLatest (seat_of pass.new) }
        ensures consumed { IfSome result (λ why.
            Consumes why (view_of (seat_of pass.old)) (view_of (seat_of pass.new))) }
        ensures saw { IfSome result (λ why.
            SawOwnSignals why (seat_of pass.old) (seat_of pass.new)) }
        ensures none { IfNone result (SawNonePending (seat_of pass.old) (seat_of pass.new)) }
        ensures kept { AllButHand (view pass.old) (view pass.new) }
    {
        self.site().get().consume(Self::seat(pass))
    }

    /// How many tasks the plan has.
    final fn tasks(&self) -> u32
        ensures { result ≡ length (calls_on self.now) }
    {
        self.site().get().tasks()
    }

    /// How many calls a task has.
    final fn calls(&self, task: u32) -> u32
        requires { task < length (calls_on self.now) }
        ensures { result ≡ length (row (calls_on self.now) task) }
    {
        self.site().get().calls(task)
    }

    /// The words of a call of the plan.
    final fn call(&self, pass: &mut Self::Pass, task: u32, call: u32) -> CallWords
        requires own { sits self.now pass.old }
        requires task { task < length (calls_on self.now) }
        requires call { call < length (row (calls_on self.now) task) }
        ensures on { StepsOn sits view self.now pass.old pass.new }
        ensures beside { pass.new ≡ with_seat pass.old (seat_of pass.new) }
        ensures last { IsLatest (seat_of pass.new) }
        ensures seat { view_of (seat_of pass.new) ≡ ticked (ticked (view_of (seat_of pass.old))) }
        ensures kept { Looks (view pass.old) (view pass.new) }
        ensures words { slice_get (row (calls_on self.now) task) call ≡ Some result }
        ensures planned { IsPlan O.object (calls_on self.now) → IsCallOrSignal O.object result }
    {
        self.site().get().call(Self::seat(pass), task, call)
    }

    /// The word of a call's record, and 0 where the call has none.
    final fn rec_word(&self, pass: &mut Self::Pass, task: u32, call: u32) -> u64
        requires own { sits self.now pass.old }
        requires task { task < length (calls_on self.now) }
        requires call { call < length (row (calls_on self.now) task) }
        ensures on { StepsOn sits view self.now pass.old pass.new }
        ensures beside { pass.new ≡ with_seat pass.old (seat_of pass.new) }
        ensures last { IsLatest (seat_of pass.new) }
        ensures seat { view_of (seat_of pass.new) ≡ ticked (view_of (seat_of pass.old)) }
        ensures kept { Looks (view pass.old) (view pass.new) }
        ensures known { TellsKnown (view pass.old).hand
            (record { task = task; call = call }) result }
        ensures made { result ≢ 0 → (r : Record) × IsRec r × (result ≡ rec_word r) }
        ensures found { FoundAt (record_place (calls_on self.now) task call) result
            (view pass.new).past }
        ensures mine { UndoneIsZero (seat_of pass.old) task call result }
    {
        self.site().get().rec_word(Self::seat(pass), task, call)
    }

    /// The length of the log. Its load tells what is so of all records: each says what its call
    /// replied at its place, each entry has its own, and no task was interrupted more often than
    /// signals go to it.
    final fn log_len(&self, pass: &mut Self::Pass) -> u32
        requires own { sits self.now pass.old }
        requires held { (view pass.old).hand.held ≢ No }
        ensures on { StepsOn sits view self.now pass.old pass.new }
        ensures beside { pass.new ≡ with_seat pass.old (seat_of pass.new) }
        ensures last { IsLatest (seat_of pass.new) }
        ensures seat { view_of (seat_of pass.new) ≡ ticked (view_of (seat_of pass.old)) }
        ensures kept { Looks (view pass.old) (view pass.new) }
        ensures value { result ≡ length (view pass.old).hand.log }
        ensures history { Chronicles O.object Self.Rule.unavailable (calls_on self.now)
            (view pass.old).hand.records (view pass.old).hand.log }
        ensures found { FoundAt length_place result (view pass.new).past }
    {
        self.site().get().log_len(Self::seat(pass))
    }

    /// The word of an entry of the log.
    final fn log_word(&self, pass: &mut Self::Pass, at: u32) -> u64
        requires own { sits self.now pass.old }
        requires held { (view pass.old).hand.held ≢ No }
        requires inside { at < length (view pass.old).hand.log }
        ensures on { StepsOn sits view self.now pass.old pass.new }
        ensures beside { pass.new ≡ with_seat pass.old (seat_of pass.new) }
        ensures last { IsLatest (seat_of pass.new) }
        ensures seat { view_of (seat_of pass.new) ≡ ticked (view_of (seat_of pass.old)) }
        ensures kept { Looks (view pass.old) (view pass.new) }
        ensures value { IsEntryWord (view pass.old).hand at result }
        ensures found { FoundAt (entry_place at) result (view pass.new).past }
    {
        self.site().get().log_word(Self::seat(pass), at)
    }

    /// The task whose number the pass has.
    final fn task(&self, pass: &Self::Pass) -> Option<u32>
        requires { sits self.now pass.now }
        ensures { result ≡ (view pass.now).hand.task }
    {
        Self::peek(pass).task()
    }

    /// How it holds what the lock guards.
    final fn held(&self, pass: &Self::Pass) -> Held
        requires { sits self.now pass.now }
        ensures { result ≡ (view pass.now).hand.held }
    {
        Self::peek(pass).held()
    }

    /// How many of its task's calls are recorded.
    final fn done(&self, pass: &Self::Pass) -> u32
        requires { sits self.now pass.now }
        ensures { result ≡ (view pass.now).hand.done }
    {
        Self::peek(pass).done()
    }

    /// How many entries of the log it has seen. It never falls.
    final fn front(&self, pass: &Self::Pass) -> u32
        requires { sits self.now pass.now }
        ensures { result ≡ length (view pass.now).hand.seen }
    {
        Self::peek(pass).front()
    }

    // Laws: the lock's calls are the site's.
    ghost plans: { (l : Self) → calls_on l ≡ plan_of (site_of l) };

    // A pass shows what its pass of the site knows.
    ghost faces: { (p : Self.Pass) → IsFace (seat_of p) (view p) };

    // It is one of the site's.
    ghost owns: { (l : Self) (p : Self.Pass) → sits l p → SitsAt (site_of l) (seat_of p) };

    ghost puts: { (p : Self.Pass) (w : Seat Self.Rule O Self.Rule.Ext O.Call) →
        seat_of (with_seat p w) ≡ w };

    // Put back as it was, the pass of the site leaves the lock's pass as it was.
    ghost whole: { (p : Self.Pass) (w : Seat Self.Rule O Self.Rule.Ext O.Call) →
        w ≡ seat_of p → with_seat p w ≡ p };

    // A call of the site that leaves its pass a number and a hold leaves the lock's pass as it was.
    ghost frame: { (l : Self) (p : Self.Pass) (w : Seat Self.Rule O Self.Rule.Ext O.Call) →
        sits l p → SitsAt (site_of l) w → Beside (view_of (seat_of p)) (view_of w) →
        KeepsHold (seat_of p) w →
        sits l (with_seat p w) × Follows w (view p) (view (with_seat p w)) };
}
