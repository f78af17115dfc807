//! Which calls an object's log names.
ghost use Rattle.std.specs.Prelude.{◌≡◌};
ghost use Rattle.word_bits.specs.Histories.{logs};

use crate::call::CallWords;
use crate::object::Object;
use crate::reply::Reply;

/// Whether a call with this reply is logged: a changing call that held the lock.
pub fn is_logged<O: Object>(words: CallWords, reply: Reply) -> bool
    ensures { result ≡ logs O.object words reply }
{
    match (reply, O::call_of(words)) {
        (Reply::Busy(_) | Reply::Intr | Reply::Sent, _) | (_, None) => false,
        (_, Some(call)) => !O::reads(call),
    }
}
