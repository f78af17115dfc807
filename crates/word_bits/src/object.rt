//! What a table guards.
ghost use Rattle.std.specs.Prelude.{◌≡◌, ◌≢◌, ◌≤◌, ◌<◌, ℕ, List, true, length, replicate, None, Some, IfSome, IfNone};
ghost use Rattle.word_bits.specs.Calls.{signal_of};
ghost use Rattle.word_bits.specs.Objects.{Obj, IsObjectReply};
ghost use Rattle.word_bits.specs.declared.call.CallWords.{CallWords};
ghost use Rattle.word_bits.specs.declared.reply.Errno.{Errno};
ghost use Rattle.word_bits.specs.declared.reply.Reply.TheVariants.{Refused};

use crate::call::CallWords;
use crate::reply::Reply;

/// What a table guards: so many words, and the calls on them that a plan may have.
pub trait Object: Sized {
    /// A call, read from its words.
    type Call: Copy;

    /// How many words there are, at most 257.
    const WORDS: usize;

    ghost WORDS: { ℕ };

    /// What the calls mean, over states of this kind, and which words represent a state.
    ghost object: { Obj Self.Call };

    /// The state that a value stands for.
    ghost state: { Self → object.State };

    /// The call of these words. `None` where they are the words of no call of this object.
    fn call_of(words: CallWords) -> Option<Self::Call>
        ensures { result ≡ object.call_of words };

    /// Whether the call only reads, so that it needs a shared hold and isn't logged.
    fn reads(call: Self::Call) -> bool
        ensures { result ≡ object.reads call };

    ghost few_words: { WORDS ≤ 257 };

    ghost starts: { object.IsState object.empty };

    // The words of a new table are 0.
    ghost zeros: { object.Represents object.empty (replicate WORDS 0) };

    ghost called: { (words : CallWords) (call : Self.Call) →
        object.call_of words ≡ Some call → object.IsCall call };

    ghost signals: { (words : CallWords) (task : ℕ) →
        signal_of words ≡ Some task → object.call_of words ≡ None };

    ghost goes_on: { (s : object.State) (call : Self.Call) →
        object.IsState s → object.IsCall call → object.IsState (object.meaning s call).0 };

    ghost replies: { (s : object.State) (call : Self.Call) →
        object.IsState s → object.IsCall call → IsObjectReply (object.meaning s call).1 };

    ghost reading: { (s : object.State) (call : Self.Call) →
        object.reads call ≡ true → (object.meaning s call).0 ≡ s };

    ghost refused: { (s : object.State) (call : Self.Call) (errno : Errno) →
        (object.meaning s call).1 ≡ Refused errno → (object.meaning s call).0 ≡ s };
}

/// An object that is a value in memory too. It changes by calls alone, and the guarded words are
/// those that store the state after them.
pub trait ValueObject: Object {
    /// The value before any call.
    fn empty() -> Self
        ensures { Self.state result ≡ Self.object.empty };

    /// Does the call.
    fn apply(&mut self, call: Self::Call) -> Reply
        requires { Self.object.IsCall call }
        ensures next { Self.state self.new ≡ (Self.object.meaning (Self.state self.old) call).0 }
        ensures reply { result ≡ (Self.object.meaning (Self.state self.old) call).1 }
        ensures sound { Self.object.IsState (Self.state self.new) };

    /// The value that the words store. `None` where they store no value.
    fn load(words: &[u64]) -> Option<Self>
        requires { length words.now ≡ Self.WORDS }
        ensures found { IfSome result (λ v.
            Self.object.IsState (Self.state v) × (Self.object.stores (Self.state v) ≡ words.now)) }
        ensures none { IfNone result ((s : Self.object.State) →
            Self.object.IsState s → Self.object.stores s ≢ words.now) };

    /// Writes the words that store the value.
    fn store(&self, out: &mut [u64])
        requires { length out.old ≡ Self.WORDS }
        ensures stored { out.new ≡ Self.object.stores (Self.state self.now) }
        ensures sound { Self.object.IsState (Self.state self.now) };

    ghost sized: { (s : Self.object.State) →
        Self.object.IsState s → length (Self.object.stores s) ≡ Self.WORDS };

    ghost apart: { (s t : Self.object.State) → Self.object.IsState s → Self.object.IsState t →
        Self.object.stores s ≡ Self.object.stores t → s ≡ t };

    // The guarded words represent a state if they store it, and only then.
    ghost exact: { (s : Self.object.State) (words : List ℕ) →
        Self.object.Represents s words → words ≡ Self.object.stores s };

    ghost represents: { (s : Self.object.State) (words : List ℕ) →
        words ≡ Self.object.stores s → Self.object.Represents s words };
}
