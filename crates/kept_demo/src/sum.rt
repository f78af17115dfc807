//! Two accounts, and what they add up to.
ghost use Rattle.std.specs.Prelude.{◌≡◌, ◌+◌};
ghost use Rattle.kept_words.specs.Keeping.{Holds, HoldsAlone};
ghost use Rattle.kept_demo.specs.Accounts.{AddUp};

use kept_words::{Invariant, Kept};

/// The places of the accounts and of their total.
const FIRST: usize = 0;

const SECOND: usize = 1;

const TOTAL: usize = 2;

/// What is in the accounts at first, and what that adds up to.
pub const OPENING: [u64; 3] = [3000, 2000, 5000];

/// Of three words the first two add up to the third.
#[derive(Drop)]
pub struct Sum;

impl Invariant for Sum {
    ghost use Rattle.std.proofs.Common.{lit≤};

    const WORDS: usize = 3;

    ghost WORDS = { 3 };

    ghost keeps = { AddUp };

    ghost few = { lit≤ tt };
}

/// Moves an amount from one account to the other, unless there is less.
pub fn transfer<K: Kept<I = Sum>>(bank: &mut K, back: bool, amount: u64)
    requires { HoldsAlone AddUp (K.hold bank.old) }
    ensures { HoldsAlone AddUp (K.hold bank.new) }
{
    let _total = bank.get(TOTAL);
    let first = bank.get(FIRST);
    let second = bank.get(SECOND);
    if back {
        if amount <= second {
            bank.set(FIRST, first + amount);
            bank.set(SECOND, second - amount);
        }
    } else if amount <= first {
        bank.set(FIRST, first - amount);
        bank.set(SECOND, second + amount);
    }
}

/// The two accounts, and their total.
pub fn read<K: Kept<I = Sum>>(bank: &mut K) -> (u64, u64, u64)
    requires { Holds AddUp (K.hold bank.old) }
    ensures same { K.hold bank.new ≡ K.hold bank.old }
    ensures sum { result.0 + result.1 ≡ result.2 }
{
    (bank.get(FIRST), bank.get(SECOND), bank.get(TOTAL))
}
