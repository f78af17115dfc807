//! Tries and releases: loops over exchanges of the owner word of any host.
ghost use Rattle.std.specs.Prelude.{◌≡◌, ◌≢◌, ℕ, ◌<◌, Bool, false, Option, Some, IsSome, IfSome, IfOk, IfErr};
ghost use Rattle.lock_core.specs.Views.{ticked};
ghost use Rattle.lock_core.specs.Pasts.{FoundAt};
ghost use Rattle.lock_core.specs.SiteHandles.{IsLatest, plan_of, view_of, hand_in, past_of, task_in, held_in, SitsAt, StepsAt, SaysSame};
ghost use Rattle.mutex_word.specs.declared.host.Turn.TheVariants.{Take as TakeTurn, Ask as AskTurn};
ghost use Rattle.mutex_word.specs.declared.tries.Tried.TheVariants.{Took, Failed};
ghost use Rattle.mutex_word.specs.Holders.{IsAsk, TakesOwner, turns};
ghost use Rattle.mutex_word.specs.OwnerTries.{Acted, CameTo, FindsAsked, FindsOpen, FindsUnasked, HandsOver, IsFail, IsLeft, IsMine, IsOpen, IsTake, LeavesFlags, LeavesHanded, Left, MayFail, MayHandOver, MayRelease, MayTry, ReleasedTo, Says, SawWord};
ghost use Rattle.mutex_word.specs.OwnerPlays.{AskedBy, LeftBy, Looked, Mine, TookBy};
ghost use Rattle.mutex_word.specs.Types.{No, Alone, Turn, Free};

use crate::host::OwnerHost;
use crate::word_steps::{Try, handoff_word, release_step, try_step};
use atomic_table::Play;
use lock_core::view::View;
use lock_core::{Held, Op, Pass, Site};
use std::marker::{Brand, PhantomData};
use std::sync::Wait;
use word_bits::MAX_TASKS;

/// What a try came to.
#[derive(Clone, Copy, Debug, PartialEq, Eq)]
pub enum Tried {
    /// The pass holds the mutex.
    Took,
    /// The word has the flag of the handoff now, which it hadn't.
    Asked,
    /// It failed at this word.
    Failed(u64),
}

/// Which sort of try a call makes. It is chosen in proofs alone.
pub trait TryKind {
    // Whether it asks for a handoff.
    ghost asks: { Bool };

    // Whether the pass counts a failure, and keeps the word that it saw. The host says where it
    // need not.
    ghost counts: { Bool };
}

impl TryKind for Brand {
    ghost asks = { false };

    ghost counts = { false };
}

/// By which kind of step a call ends a hold. It is chosen in proofs alone.
trait EndKind {
    ghost turn: { Turn };
}

impl EndKind for Brand {
    ghost turn = { Free };
}

struct Sees<H, A> {
    host: PhantomData<H>,
    kind: PhantomData<A>,
}

impl<H: OwnerHost, A: TryKind> Play<(), View<H::Ext>> for Sees<H, A> {
    ghost then = { Looked H.turned A.asks A.counts };
}

struct Gets<H, A> {
    host: PhantomData<H>,
    kind: PhantomData<A>,
}

impl<H: OwnerHost, A: TryKind> Play<(), View<H::Ext>> for Gets<H, A> {
    ghost then = { TookBy H.turned H.O.object A.asks A.counts };
}

struct Begs<H, A> {
    host: PhantomData<H>,
    kind: PhantomData<A>,
}

impl<H: OwnerHost, A: TryKind> Play<(), View<H::Ext>> for Begs<H, A> {
    ghost then = { AskedBy H.turned A.asks A.counts };
}

struct Owns;

impl<E> Play<(), View<E>> for Owns {
    ghost then = { Mine };
}

struct Ends<H, L> {
    host: PhantomData<H>,
    kind: PhantomData<L>,
}

impl<H: OwnerHost, L: EndKind> Play<(), View<H::Ext>> for Ends<H, L> {
    ghost then = { LeftBy H.turned L.turn };
}

/// The load of a try. Where the try fails at what it saw, the pass knows so.
fn look<H: OwnerHost, A: TryKind>(site: &Site<H>, pass: &mut Pass<H>) -> u64
    requires own { SitsAt site.now pass.old }
    requires fails { MayFail H.may_own H.may_miss A.asks A.counts (view_of pass.old) }
    ensures on { StepsAt site.now pass.old pass.new }
    ensures face { SaysSame pass.old pass.new }
    ensures saw { SawWord H.turned A.asks A.counts (view_of pass.old) result (view_of pass.new) }
    ensures found { FoundAt H.OWNER result (past_of pass.new) }
{
    site.step::<Sees<H, A>>(pass, H::OWNER, Op::Load)
}

/// The exchange of a try that takes. It answers what it found.
fn take<H: OwnerHost, A: TryKind>(site: &Site<H>, pass: &mut Pass<H>, word: u64, new: u64) -> u64
    requires own { SitsAt site.now pass.old }
    requires numbered { IsSome (task_in pass.old) }
    requires out { held_in pass.old ≡ No }
    requires takes { (t : ℕ) → task_in pass.old ≡ Some t → IsTake t word new }
    requires may { H.may_own TakeTurn (view_of pass.old) word new }
    requires fails { MayFail H.may_own H.may_miss A.asks A.counts (view_of pass.old) }
    ensures on { StepsAt site.now pass.old pass.new }
    ensures numbered { task_in pass.new ≡ task_in pass.old }
    ensures took { result ≡ word →
        TakesOwner H.turned H.O.object (plan_of site.now) (view_of pass.old) (view_of pass.new) }
    ensures face { result ≢ word → SaysSame pass.old pass.new }
    ensures saw { result ≢ word →
        SawWord H.turned A.asks A.counts (view_of pass.old) result (view_of pass.new) }
    ensures found { FoundAt H.OWNER result (past_of pass.new) }
{
    let found = site.step::<Gets<H, A>>(pass, H::OWNER, Op::Exchange(word, new));
    if found == word {
        pass.set_held(Held::Alone);
    }
    found
}

/// The exchange of a try that asks for a handoff. It answers what it found.
fn ask<H: OwnerHost, A: TryKind>(site: &Site<H>, pass: &mut Pass<H>, word: u64, new: u64) -> u64
    requires own { SitsAt site.now pass.old }
    requires asks { IsAsk word new }
    requires may { H.may_own AskTurn (view_of pass.old) word new }
    requires fails { MayFail H.may_own H.may_miss A.asks A.counts (view_of pass.old) }
    ensures on { StepsAt site.now pass.old pass.new }
    ensures face { SaysSame pass.old pass.new }
    ensures asked { result ≡ word →
        view_of pass.new ≡ turns H.turned AskTurn (view_of pass.old) (hand_in pass.old) }
    ensures saw { result ≢ word →
        SawWord H.turned A.asks A.counts (view_of pass.old) result (view_of pass.new) }
    ensures found { FoundAt H.OWNER result (past_of pass.new) }
{
    site.step::<Begs<H, A>>(pass, H::OWNER, Op::Exchange(word, new))
}

/// Does once what the table makes of the word. `Err` has what the exchange found instead.
fn act<H: OwnerHost, A: TryKind>(
    site: &Site<H>,
    pass: &mut Pass<H>,
    word: u64,
    step: Try,
) -> Result<Tried, u64>
    requires own { SitsAt site.now pass.old }
    requires numbered { IsSome (task_in pass.old) }
    requires out { held_in pass.old ≡ No }
    requires says { Says A.asks (task_in pass.old) word step }
    requires found { FoundAt H.OWNER word (past_of pass.old) }
    requires last { IsLatest pass.old }
    requires may { (IsFail A.asks (task_in pass.old) word → ⊥) →
        MayTry H.may_own H.may_miss A.asks A.counts (view_of pass.old) }
    ensures on { StepsAt site.now pass.old pass.new }
    ensures numbered { task_in pass.new ≡ task_in pass.old }
    ensures ended { IfOk result (λ t. Acted H.turned H.O.object (plan_of site.now) A.asks
        (view_of pass.old) (view_of pass.new) word t) }
    ensures face { IfErr result (λ _. SaysSame pass.old pass.new) }
    ensures fits { IfErr result (λ _. IsFail A.asks (task_in pass.old) word → ⊥) }
    ensures saw { IfErr result (λ n.
        SawWord H.turned A.asks A.counts (view_of pass.old) n (view_of pass.new)) }
    ensures found { IfErr result (λ n. FoundAt H.OWNER n (past_of pass.new)) }
    ensures ends { IfOk result (λ _. FoundAt H.OWNER word (past_of pass.new)) }
    ensures opened { IfOk result (λ t. t ≡ Took → IsOpen (task_in pass.old) word) }
{
    match step {
        Try::Take(new) => {
            let found = take::<H, A>(site, pass, word, new);
            if found == word {
                Ok(Tried::Took)
            } else {
                Err(found)
            }
        }
        Try::Ask(new) => {
            let found = ask::<H, A>(site, pass, word, new);
            if found == word {
                Ok(Tried::Asked)
            } else {
                Err(found)
            }
        }
        Try::Fail => Ok(Tried::Failed(word)),
    }
}

/// A try: a load, and exchanges for what the table of tries makes of the word, until one of them is
/// done or the word can't be had. The kernel's `__mutex_trylock_common`.
pub fn attempt<H: OwnerHost, A: TryKind, W: Wait>(
    site: &Site<H>,
    rt: &W,
    pass: &mut Pass<H>,
    me: u32,
    asks: bool,
) -> Tried
    requires own { SitsAt site.now pass.old }
    requires numbered { task_in pass.old ≡ Some me }
    requires out { held_in pass.old ≡ No }
    requires asks { asks ≡ A.asks }
    requires may { MayTry H.may_own H.may_miss A.asks A.counts (view_of pass.old) }
    requires counted { A.counts ≡ false → H.uncounted (view_of pass.old) }
    ensures on { StepsAt site.now pass.old pass.new }
    ensures numbered { task_in pass.new ≡ Some me }
    ensures came { CameTo H.turned H.O.object (plan_of site.now) A.asks A.counts
        (view_of pass.old) (view_of pass.new) result }
    ensures found { (n : ℕ) → result ≡ Failed n → FoundAt H.OWNER n (past_of pass.new) }
    ensures opened { result ≡ Took → FindsOpen H.OWNER (Some me) (past_of pass.new) }
{
    let mut word = look::<H, A>(site, pass);
    for _ in rt.forever() {
        // Others change flags and holder between a look and an exchange: the exchange acts on the
        // very word that the table was asked about, or not at all.
        match act::<H, A>(site, pass, word, try_step(word, me, asks)) {
            Ok(end) => return end,
            Err(found) => word = found,
        }
    }
    unreachable!()
}

/// The word, by a pass that holds.
fn load_own<H: OwnerHost>(site: &Site<H>, pass: &mut Pass<H>) -> u64
    requires own { SitsAt site.now pass.old }
    requires numbered { IsSome (task_in pass.old) }
    requires held { held_in pass.old ≡ Alone }
    ensures on { StepsAt site.now pass.old pass.new }
    ensures face { SaysSame pass.old pass.new }
    ensures mine { IsMine (task_in pass.old) result }
    ensures kept { view_of pass.new ≡ ticked (view_of pass.old) }
    ensures found { FoundAt H.OWNER result (past_of pass.new) }
{
    site.step::<Owns>(pass, H::OWNER, Op::Load)
}

/// The exchange that ends a hold. It answers what it found.
fn leave<H: OwnerHost, L: EndKind>(site: &Site<H>, pass: &mut Pass<H>, word: u64, new: u64) -> u64
    requires own { SitsAt site.now pass.old }
    requires numbered { IsSome (task_in pass.old) }
    requires held { held_in pass.old ≡ Alone }
    requires quiet { (hand_in pass.old).writes ≡ false }
    requires left { IsLeft new }
    requires may { H.may_own L.turn (view_of pass.old) word new }
    ensures on { StepsAt site.now pass.old pass.new }
    ensures numbered { task_in pass.new ≡ task_in pass.old }
    ensures left { result ≡ word →
        Left H.turned L.turn (view_of pass.old) new (view_of pass.new) }
    ensures face { result ≢ word → SaysSame pass.old pass.new }
    ensures mine { result ≢ word → IsMine (task_in pass.old) result }
    ensures kept { result ≢ word → view_of pass.new ≡ ticked (view_of pass.old) }
    ensures found { FoundAt H.OWNER result (past_of pass.new) }
{
    // An exchange, and no store: a flag that a waiter has just set must not be lost.
    let found = site.step::<Ends<H, L>>(pass, H::OWNER, Op::Exchange(word, new));
    if found == word {
        pass.set_held(Held::No);
    }
    found
}

/// Ends the hold by exchanges of the word for its flags alone, which `Ok` has. `Err` has a word
/// with the flag of the handoff, by which the pass still holds. The first part of the kernel's
/// `__mutex_unlock_slowpath`.
pub fn release<H: OwnerHost, W: Wait>(
    site: &Site<H>,
    rt: &W,
    pass: &mut Pass<H>,
) -> Result<u64, u64>
    requires own { SitsAt site.now pass.old }
    requires numbered { IsSome (task_in pass.old) }
    requires held { held_in pass.old ≡ Alone }
    requires quiet { (hand_in pass.old).writes ≡ false }
    requires may { MayRelease H.may_own (view_of pass.old) }
    ensures on { StepsAt site.now pass.old pass.new }
    ensures numbered { task_in pass.new ≡ task_in pass.old }
    ensures left { IfOk result (λ m. ReleasedTo H.turned (view_of pass.old) m (view_of pass.new)) }
    ensures flags { IfOk result (λ m.
        LeavesFlags H.OWNER (task_in pass.old) m (past_of pass.new)) }
    ensures face { IfErr result (λ _. SaysSame pass.old pass.new) }
    ensures asked { IfErr result (λ n. FindsAsked (view_of pass.old) n (view_of pass.new)) }
    ensures found { IfErr result (λ n. FoundAt H.OWNER n (past_of pass.new)) }
    ensures unasked { FindsUnasked (task_in pass.old) H.OWNER (view_of pass.old).steps
        (view_of pass.new).steps (past_of pass.old) (past_of pass.new) }
{
    let mut word = load_own(site, pass);
    for _ in rt.forever() {
        let Some(flags) = release_step(word) else {
            return Err(word);
        };
        let found = leave::<H, Brand>(site, pass, word, flags);
        if found == word {
            return Ok(flags);
        }
        word = found;
    }
    unreachable!()
}

/// Ends the hold by exchanges of the word for one that picks the first waiter, or names nobody
/// where none waits. The kernel's `__mutex_handoff`.
pub fn hand_over<H: OwnerHost, W: Wait>(
    site: &Site<H>,
    rt: &W,
    pass: &mut Pass<H>,
    first: Option<u32>,
)
    requires own { SitsAt site.now pass.old }
    requires numbered { IsSome (task_in pass.old) }
    requires held { held_in pass.old ≡ Alone }
    requires quiet { (hand_in pass.old).writes ≡ false }
    requires first { IfSome first (λ t. t < MAX_TASKS) }
    requires may { MayHandOver H.may_own first (view_of pass.old) }
    ensures on { StepsAt site.now pass.old pass.new }
    ensures numbered { task_in pass.new ≡ task_in pass.old }
    ensures left { HandsOver H.turned first (view_of pass.old) (view_of pass.new) }
    ensures found { LeavesHanded H.OWNER (task_in pass.old) first
        (hand_in pass.new).freed (past_of pass.new) }
{
    let mut word = load_own(site, pass);
    for _ in rt.forever() {
        let new = handoff_word(word, first);
        let found = leave::<H, Brand>(site, pass, word, new);
        if found == word {
            return;
        }
        word = found;
    }
    unreachable!()
}
