//! What a task of words under any lock learns when it looks back.
ghost use Rattle.std.specs.Prelude.{◌<◌};
ghost use Rattle.lock_core.specs.declared.layout.TheConstants.{LOCK_WORDS};
ghost use Rattle.lock_core.specs.Locking.{Looks};
ghost use Rattle.lock_core.specs.Pasts.{EachMoment};
ghost use Rattle.lock_core.specs.Shown.{StepsOn};
ghost use Rattle.kept_words.specs.Keeping.{hold_of};
ghost use Rattle.kept_words.specs.Left.{FoundAsLeft, HeldApart, IsHeldAtLast};

use sleep_lock::SleepLock;
use word_bits::Object;

/// Loads once. Then the pass knows that nobody held beside who held alone, and that whoever came to
/// hold found the guarded words as the last one left them that held alone.
pub(crate) fn look_back<O: Object, L: SleepLock<O>>(lock: &L, pass: &mut L::Pass)
    requires own { L.sits lock.now pass.old }
    requires inside { L.word_at < LOCK_WORDS }
    ensures on { StepsOn L.sits L.view lock.now pass.old pass.new }
    ensures kept { Looks (L.view pass.old) (L.view pass.new) }
    ensures now { IsHeldAtLast (hold_of (L.view pass.new).hand) (L.view pass.new).past }
    ensures apart { EachMoment HeldApart (L.view pass.new).past }
    ensures left { FoundAsLeft (L.view pass.new).past }
{
    lock.recall(pass);
}
