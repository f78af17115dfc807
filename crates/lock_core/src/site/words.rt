//! The words of the object, the log and the records: what a holder reads and writes, and how a call
//! is recorded.
ghost use Rattle.std.specs.Prelude.{◌≡◌, ◌≢◌, ◌+◌, ◌<◌, ◌≤◌, true, length, slice_index, Some, None, IsSome};
ghost use Rattle.word_bits.specs.EntryWord.{IsEntry};
ghost use Rattle.lock_core.specs.declared.layout.TheConstants.{LOCK_WORDS};
ghost use Rattle.lock_core.specs.Layout.{entry_place, length_place};
ghost use Rattle.lock_core.specs.Pasts.{FoundAt};
ghost use Rattle.lock_core.specs.Plans.{calls_in};
ghost use Rattle.lock_core.specs.Views.{ticked, handed, wrote, quieted, entered, logged, recorded, note_steps, settled, OwesNoSignal, Unsent, after_commit, after_note, after_read, after_seen, with_record};
ghost use Rattle.lock_core.specs.Chronicles.{Chronicles};
ghost use Rattle.lock_core.specs.Locking.{IsStored};
ghost use Rattle.lock_core.specs.SitePlays.{Heeded};
ghost use Rattle.lock_core.specs.SitePasses.{IsLength, IsChange, IsEntryWord, Quiets};
ghost use Rattle.lock_core.specs.SiteHandles.{plan_of, view_of, hand_in, past_of, task_in, held_in, done_in, front_in, SitsAt, StepsAt, IsOneOf, KeepsSeat, KeepsNest, SaysSame, IsNextChange, IsNextReading, IsNextSeenReading, MayNoteNext, MayStoreRecord};
ghost use Rattle.lock_core.specs.Types.{Busy, Intr, Sent, No, Alone, Rest, Entered};

use super::Site;
use super::plays::{Chronicle, Guarded, Length, LogEntry, Puts};
use crate::Op;
use crate::layout::{ENTRIES_AT, LENGTH_AT, LOCK_WORDS};
use crate::pass::Pass;
use crate::rule::SiteRule;
use crate::view::View;
use atomic_table::Play;
use std::marker::Brand;
use word_bits::{Entry, Rec, Reply};

/// A load, after which the pass writes no more.
pub(super) struct Quiet;

impl<E> Play<(), View<E>> for Quiet {
    ghost then = { Heeded Quiets };
}

impl<R: SiteRule> Site<R> {
    /// A guarded word.
    pub fn word(&self, pass: &mut Pass<R>, at: usize) -> u64
        requires own { SitsAt self.now pass.old }
        requires held { (held_in pass.old) ≢ No }
        requires inside { at < R.O.WORDS }
        ensures on { StepsAt self.now pass.old pass.new }
        ensures nest { KeepsNest pass.old pass.new }
        ensures kept { view_of pass.new ≡ ticked (view_of pass.old) }
        ensures value { result ≡ slice_index (hand_in pass.old).known at }
        ensures found { FoundAt (LOCK_WORDS + at) result (past_of pass.new) }
    {
        self.find::<Guarded>(pass, at)
    }

    /// The length of the log. With it the pass knows that each entry has its record, and that all
    /// records are legal.
    pub fn log_len(&self, pass: &mut Pass<R>) -> u32
        requires own { SitsAt self.now pass.old }
        requires held { (held_in pass.old) ≢ No }
        ensures on { StepsAt self.now pass.old pass.new }
        ensures nest { KeepsNest pass.old pass.new }
        ensures kept { view_of pass.new ≡ ticked (view_of pass.old) }
        ensures history { Chronicles R.O.object R.unavailable (plan_of self.now)
            (hand_in pass.old).records (hand_in pass.old).log }
        ensures value { result ≡ length (hand_in pass.old).log }
        ensures found { FoundAt length_place result (past_of pass.new) }
    {
        self.find::<Chronicle<R>>(pass, LENGTH_AT) as u32
    }

    /// The word of an entry of the log.
    pub fn log_word(&self, pass: &mut Pass<R>, at: u32) -> u64
        requires own { SitsAt self.now pass.old }
        requires held { (held_in pass.old) ≢ No }
        requires inside { at < length (hand_in pass.old).log }
        ensures on { StepsAt self.now pass.old pass.new }
        ensures nest { KeepsNest pass.old pass.new }
        ensures kept { view_of pass.new ≡ ticked (view_of pass.old) }
        ensures value { IsEntryWord (hand_in pass.old) at result }
        ensures found { FoundAt (entry_place at) result (past_of pass.new) }
    {
        self.find::<LogEntry>(pass, ENTRIES_AT + at as usize)
    }

    /// Writes a guarded word. Until its next commit, or the end of its writing, the pass writes.
    pub fn set_word(&self, pass: &mut Pass<R>, at: usize, value: u64)
        requires own { SitsAt self.now pass.old }
        requires held { held_in pass.old ≡ Alone }
        requires inside { at < R.O.WORDS }
        ensures on { StepsAt self.now pass.old pass.new }
        ensures nest { KeepsNest pass.old pass.new }
        ensures kept { view_of pass.new ≡
            handed (view_of pass.old) (wrote (hand_in pass.old) at value) }
    {
        self.put::<Brand>(pass, at, value);
    }

    /// Ends the pass's writing without a record: the guarded words, as they are now, represent the
    /// state after the log. It loads one word.
    pub fn end_writing(&self, pass: &mut Pass<R>)
        requires own { SitsAt self.now pass.old }
        requires held { held_in pass.old ≡ Alone }
        requires stored { IsStored R.O.object (plan_of self.now) (hand_in pass.old) }
        ensures on { StepsAt self.now pass.old pass.new }
        ensures nest { KeepsNest pass.old pass.new }
        ensures kept { view_of pass.new ≡
            handed (view_of pass.old) (quieted (hand_in pass.old)) }
    {
        self.step_stored::<Quiet, Brand>(pass, LOCK_WORDS, self.site_at, Op::Load);
    }

    /// Records the next call of the pass's task, which changes the object: the guarded words
    /// represent what it leaves of the state after the log. The call is appended to the log.
    pub fn commit(&self, pass: &mut Pass<R>, call: u32, reply: Reply)
        requires own { SitsAt self.now pass.old }
        requires held { held_in pass.old ≡ Alone }
        requires numbered { IsSome (task_in pass.old) }
        requires call { call ≡ (done_in pass.old) }
        requires recorded { OwesNoSignal (hand_in pass.old) }
        requires next { IsNextChange R.O.object self.now pass.old reply }
        ensures on { StepsAt self.now pass.old pass.new }
        ensures nest { KeepsNest pass.old pass.new }
        ensures kept { view_of pass.new ≡ after_commit (view_of pass.old) reply }
        ensures rises { (front_in pass.old) ≤ (front_in pass.new) }
    {
        if let Some(task) = pass.face.task {
            let k = self.length(pass);
            let entry = Entry { task, call };
            // The entry comes before the length that counts it: whoever reads as far as the length
            // says never finds a word that isn't there yet.
            self.enter(pass, k, entry);
            // The length comes before the record: whoever finds the record finds its entry in the
            // log. Until the record is stored the pass owes it.
            self.append(pass, k, entry);
            self.settle(pass, entry, Rec { k, reply });
            pass.face.done += 1;
            pass.face.front = k + 1;
        }
    }

    /// Records the next call of the pass's task, which changes nothing. Where the pass holds, the
    /// call reads, and stands where the log ends. Where it holds nothing, the reply says why: the
    /// call stands where the pass saw the log end.
    pub fn note(&self, pass: &mut Pass<R>, call: u32, reply: Reply)
        requires own { SitsAt self.now pass.old }
        requires numbered { IsSome (task_in pass.old) }
        requires call { call ≡ (done_in pass.old) }
        requires unsent { Unsent (hand_in pass.old) reply }
        requires next { MayNoteNext R.O.object R.unavailable self.now pass.old reply }
        ensures on { StepsAt self.now pass.old pass.new }
        ensures nest { KeepsNest pass.old pass.new }
        ensures kept { view_of pass.new ≡ after_note (view_of pass.old) reply }
        ensures rises { (front_in pass.old) ≤ (front_in pass.new) }
    {
        match reply {
            Reply::Good | Reply::Num(_) | Reply::Refused(_) | Reply::MapErr | Reply::AccErr => {
                self.note_read(pass, call, reply)
            }
            Reply::Busy(_) | Reply::Intr | Reply::Sent => self.note_unheld(pass, call, reply),
        }
    }

    /// Records the next call of the pass's task, which read without a hold: it stands where the pass
    /// has seen the log end.
    pub fn note_seen(&self, pass: &mut Pass<R>, call: u32, reply: Reply)
        requires own { SitsAt self.now pass.old }
        requires numbered { IsSome (task_in pass.old) }
        requires call { call ≡ (done_in pass.old) }
        requires recorded { OwesNoSignal (hand_in pass.old) }
        requires unheld { R.reads_unheld ≡ true }
        requires next { IsNextSeenReading R.O.object self.now pass.old reply }
        ensures on { StepsAt self.now pass.old pass.new }
        ensures nest { KeepsNest pass.old pass.new }
        ensures kept { view_of pass.new ≡ after_seen (view_of pass.old) reply }
        ensures rises { (front_in pass.old) ≤ (front_in pass.new) }
    {
        if let Some(task) = pass.face.task {
            let rec = Rec {
                k: pass.face.front,
                reply,
            };
            self.settle_unheld(pass, Entry { task, call }, rec);
            pass.face.done += 1;
        }
    }

    fn note_read(&self, pass: &mut Pass<R>, call: u32, reply: Reply)
        requires own { SitsAt self.now pass.old }
        requires numbered { IsSome (task_in pass.old) }
        requires call { call ≡ (done_in pass.old) }
        requires recorded { OwesNoSignal (hand_in pass.old) }
        requires next { IsNextReading R.O.object self.now pass.old reply }
        ensures on { StepsAt self.now pass.old pass.new }
        ensures nest { KeepsNest pass.old pass.new }
        ensures kept { view_of pass.new ≡ after_read (view_of pass.old) reply }
        ensures rises { (front_in pass.old) ≤ (front_in pass.new) }
    {
        if let Some(task) = pass.face.task {
            let k = self.length(pass);
            self.settle(pass, Entry { task, call }, Rec { k, reply });
            pass.face.done += 1;
            pass.face.front = k;
        }
    }

    /// Records a call that never held, where the pass last saw the log end.
    fn note_unheld(&self, pass: &mut Pass<R>, call: u32, reply: Reply)
        requires own { SitsAt self.now pass.old }
        requires numbered { IsSome (task_in pass.old) }
        requires call { call ≡ (done_in pass.old) }
        requires unsent { Unsent (hand_in pass.old) reply }
        requires unheld { note_steps reply ≡ 1 }
        requires next { MayNoteNext R.O.object R.unavailable self.now pass.old reply }
        ensures on { StepsAt self.now pass.old pass.new }
        ensures nest { KeepsNest pass.old pass.new }
        ensures kept { view_of pass.new ≡ after_note (view_of pass.old) reply }
        ensures rises { (front_in pass.old) ≤ (front_in pass.new) }
    {
        if let Some(task) = pass.face.task {
            // The log may be longer by now: without a hold the call stands where the pass last saw
            // it end.
            let rec = Rec {
                k: pass.face.front,
                reply,
            };
            self.settle_unheld(pass, Entry { task, call }, rec);
            pass.face.done += 1;
        }
    }

    /// Loads the length of the log.
    fn length(&self, pass: &mut Pass<R>) -> u32
        requires own { IsOneOf self.now pass.old }
        requires plan { (hand_in pass.old).plan ≡ Some (plan_of self.now) }
        requires held { (hand_in pass.old).held ≢ No }
        ensures own { KeepsSeat pass.old pass.new }
        ensures face { SaysSame pass.old pass.new }
        ensures kept { view_of pass.new ≡ ticked (view_of pass.old) }
        ensures length { IsLength (hand_in pass.old) LENGTH_AT result }
    {
        self.find::<Length>(pass, LENGTH_AT) as u32
    }

    /// Stores the next entry behind the log.
    fn enter(&self, pass: &mut Pass<R>, k: u32, entry: Entry)
        requires own { IsOneOf self.now pass.old }
        requires held { (hand_in pass.old).held ≡ Alone }
        requires rest { (hand_in pass.old).stage ≡ Rest }
        requires length { k ≡ length (hand_in pass.old).log }
        requires room { k < calls_in (plan_of self.now) }
        requires fits { IsEntry entry }
        ensures own { KeepsSeat pass.old pass.new }
        ensures face { SaysSame pass.old pass.new }
        ensures kept { view_of pass.new ≡
            handed (view_of pass.old) (entered (hand_in pass.old) entry) }
    {
        self.put::<Brand>(pass, ENTRIES_AT + k as usize, entry.pack());
    }

    /// Counts the entry behind the log among it.
    fn append(&self, pass: &mut Pass<R>, k: u32, entry: Entry)
        requires own { IsOneOf self.now pass.old }
        requires held { (hand_in pass.old).held ≡ Alone }
        requires entered { (hand_in pass.old).stage ≡ Entered entry }
        requires task { (hand_in pass.old).task ≡ Some entry.task }
        requires call { (hand_in pass.old).done ≡ entry.call }
        requires length { k ≡ length (hand_in pass.old).log }
        requires room { k < calls_in (plan_of self.now) }
        requires change { (reply : _)
            × IsChange R.O.object (plan_of self.now) (hand_in pass.old) entry reply }
        ensures own { KeepsSeat pass.old pass.new }
        ensures face { SaysSame pass.old pass.new }
        ensures kept { view_of pass.new ≡
            handed (view_of pass.old) (logged (hand_in pass.old) entry) }
    {
        self.put::<Brand>(pass, LENGTH_AT, u64::from(k) + 1);
    }

    /// Stores the record of a call that held: the pass has then seen the whole log.
    fn settle(&self, pass: &mut Pass<R>, entry: Entry, rec: Rec)
        requires own { IsOneOf self.now pass.old }
        requires plain { settled (hand_in pass.old) rec.reply ≡ hand_in pass.old }
        requires planned { (hand_in pass.old).plan ≡ Some (plan_of self.now) }
        requires may { MayStoreRecord R.O.object R.unavailable R.reads_unheld self.now pass.old
            entry rec (hand_in pass.old).log }
        ensures own { KeepsSeat pass.old pass.new }
        ensures face { SaysSame pass.old pass.new }
        ensures kept { view_of pass.new ≡ with_record (view_of pass.old) (hand_in pass.old)
            entry rec (hand_in pass.old).log }
    {
        self.store_record::<Brand>(pass, entry, rec);
    }

    /// Stores the record of a call that never held.
    fn settle_unheld(&self, pass: &mut Pass<R>, entry: Entry, rec: Rec)
        requires own { IsOneOf self.now pass.old }
        requires planned { (hand_in pass.old).plan ≡ Some (plan_of self.now) }
        requires may { MayStoreRecord R.O.object R.unavailable R.reads_unheld self.now pass.old
            entry rec (hand_in pass.old).seen }
        ensures own { KeepsSeat pass.old pass.new }
        ensures face { SaysSame pass.old pass.new }
        ensures kept { view_of pass.new ≡ with_record (view_of pass.old)
            (settled (hand_in pass.old) rec.reply) entry rec (hand_in pass.old).seen }
    {
        self.store_record::<Brand>(pass, entry, rec);
    }

    /// Stores a record, after which the pass has the hand `P.hand`.
    fn store_record<P: Puts>(&self, pass: &mut Pass<R>, entry: Entry, rec: Rec)
        requires own { IsOneOf self.now pass.old }
        requires hand { P.hand ≡ recorded (settled (hand_in pass.old) rec.reply)
            ((view_of pass.old).steps + 1) entry rec P.hand.seen }
        requires planned { (hand_in pass.old).plan ≡ Some (plan_of self.now) }
        requires may { MayStoreRecord R.O.object R.unavailable R.reads_unheld self.now pass.old
            entry rec P.hand.seen }
        ensures own { KeepsSeat pass.old pass.new }
        ensures face { SaysSame pass.old pass.new }
        ensures kept { view_of pass.new ≡ handed (view_of pass.old) P.hand }
    {
        let at = ENTRIES_AT + self.count + self.place(entry.task, entry.call);
        self.put::<P>(pass, at, rec.pack());
    }
}
