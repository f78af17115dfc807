//! What is so of the words that a lock keeps.
ghost use Rattle.std.specs.Prelude.{◌≡◌, ◌≤◌, ℕ, List};
ghost use Rattle.kept_words.specs.Keeping.{kept};
ghost use Rattle.kept_words.specs.Types.{CallWords};

use std::marker::PhantomData;
use word_bits::{CallWords, Object};

/// A fact of so many words. A type that gives it is a name alone: no value of it is made.
pub trait Invariant {
    /// How many words, at most 257.
    const WORDS: usize;

    ghost WORDS: { ℕ };

    // What is so of them while nobody writes.
    ghost keeps: { List ℕ → Type 0 };

    ghost few: { WORDS ≤ 257 };
}

/// Of the most words that a lock can guard nothing is so: for exclusion alone.
#[derive(Drop)]
pub struct AnyWords;

impl Invariant for AnyWords {
    ghost use Rattle.std.proofs.Common.{lit≤};

    const WORDS: usize = 257;

    ghost WORDS = { 257 };

    ghost keeps = { λ _. Unit {0} };

    ghost few = { lit≤ tt };
}

/// The words of which I is so, as what a lock guards. The only call that is planned opens them.
#[derive(Drop)]
pub struct Words<I> {
    kind: PhantomData<I>,
}

impl<I: Invariant> Object for Words<I> {
    ghost use Rattle.kept_words.specs.Laws.Keeping.{kept-zeros, never-reads, never-refused, no-signal};
    ghost use Rattle.std.specs.Prelude.{refl, true};

    type Call = ();

    const WORDS: usize = I::WORDS;

    ghost WORDS = { I.WORDS };

    ghost object = { kept I.WORDS I.keeps };

    ghost state = { λ _. true };

    fn call_of(words: CallWords) -> Option<()> {
        if words.b == 0 { Some(()) } else { None }
    }

    fn reads(_call: ()) -> bool {
        false
    }

    ghost few_words = { I.few };

    ghost starts = { tt };

    ghost zeros = { kept-zeros I.WORDS I.keeps };

    ghost called = { λ words call e. tt };

    ghost signals = { no-signal };

    ghost goes_on = { λ s call a b. tt };

    ghost replies = { λ s call a b. tt };

    ghost reading = { λ s call e. never-reads e };

    ghost refused = { λ s call errno e. never-refused errno e };
}
