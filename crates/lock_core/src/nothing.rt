//! The object that has no words.
ghost use Rattle.std.specs.Prelude.{refl};
ghost use Rattle.lock_core.specs.Nothings.{nothing, few, sized, apart};
ghost use Rattle.lock_core.specs.Types.{CallWords};

use word_bits::{CallWords, Object, Reply, ValueObject};

/// An object without words and calls.
#[derive(Drop)]
pub struct Nothing;

impl Object for Nothing {
    type Call = ();

    const WORDS: usize = 0;

    ghost WORDS = { 0 };

    ghost object = { nothing };

    ghost state = { λ _. tt };

    fn call_of(_words: CallWords) -> Option<()> {
        None
    }

    fn reads(_call: ()) -> bool {
        true
    }

    ghost few_words = { few };

    ghost starts = { tt };

    ghost zeros = { refl };

    ghost called = { λ words call e. tt };

    ghost signals = { λ words task is. refl };

    ghost goes_on = { λ s call a b. tt };

    ghost replies = { λ s call a b. tt };

    ghost reading = { λ s call e. refl };

    ghost refused = { λ s call errno e. refl };
}

impl ValueObject for Nothing {
    fn empty() -> Nothing {
        Nothing
    }

    fn apply(&mut self, _call: ()) -> Reply {
        Reply::Good
    }

    fn load(_words: &[u64]) -> Option<Nothing> {
        Some(Nothing)
    }

    fn store(&self, _out: &mut [u64]) {}

    ghost sized = { sized };

    ghost apart = { apart };

    ghost exact = { λ s words is. is };

    ghost represents = { λ s words is. is };
}
