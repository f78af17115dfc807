//! Why no lock can have a word, in text.
ghost use Rattle.std.specs.Prelude.{◌≡◌, ◌+◌, ◌≤◌, ◌++◌, length};
ghost use Rattle.lock_words.specs.WhyTexts.{why_text};

use byte_streams::Outbox;
use lock_decode::Why;

fn reason(why: Why) -> &'static [u8]
    ensures text { result.now ≡ why_text why }
    ensures short { length result.now ≤ 110 }
{
    match why {
        Why::UnusedBit => b"  no lock can have it: a bit is set that belongs to no field\n",
        Why::NoSuchTask => b"  no lock can have it: it names a task or CPU that can't be\n",
        Why::FlagOfNobody => b"  no lock can have it: HANDOFF and PICKUP need a task\n",
        Why::FlagWithoutWaiters => b"  no lock can have it: HANDOFF and PICKUP need WAITERS\n",
        Why::AskedAndPicked => b"  no lock can have it: HANDOFF and PICKUP are never both set\n",
        Why::ReadFail => b"  no lock can have it: the highest bit is never set here\n",
        Why::TooManyReaders =>
            b"  no lock can have it: it counts more readers than there are tasks\n",
        Why::NodeOfNoCpu =>
            b"  no lock can have it: the tail has the number of a node and no CPU\n",
        Why::LockedByte =>
            b"  no lock can have it: the locked byte is neither 0 nor 1 (3 is of a paravirtual lock)\n",
        Why::PendingByte => b"  no lock can have it: the pending byte is neither 0 nor 1\n",
    }
}

/// Adds why no lock can have a word.
pub(crate) fn add_why(out: &mut Outbox, why: Why)
    requires { length out.old + 110 ≤ 4096 }
    ensures text { out.new ≡ out.old ++ why_text why }
    ensures short { length out.new ≤ length out.old + 110 }
{
    out.add(reason(why));
}
