//! Laws of the histories that a machine leaves. Each is the contract of a function that does
//! nothing.
ghost use Rattle.vma_map.specs.Spaces.{space};
ghost use Rattle.fd_table.specs.Tables.{table};
ghost use Rattle.word_bits.specs.LockWords.{counted, owned};
ghost use Rattle.mm_serve.specs.CallCauses.{RecalledCauses};
ghost use Rattle.mm_serve.specs.RealTimeOrder.{KeepsRealTimeOrder, RecalledInRealTimeOrder};

use fd_table::Fds;
use sleep_lock::SleepLock;
use vma_map::Areas;

/// In the history of a space or of a table, of two calls that held the lock, the one that took
/// effect first stands first. Only two calls that read at one place of the log may stand the other
/// way round, even if one was over before the other began.
pub fn history_keeps_real_time_order()
    ensures space { KeepsRealTimeOrder space counted }
    ensures table { KeepsRealTimeOrder table owned }
{}

/// The same, under locks of any kind, from what a machine keeps of an object: a pass that knows
/// the past of the object's table and each record that is told. It takes nothing of what a lock
/// tells of its own.
pub fn recalled_history_keeps_real_time_order<A: SleepLock<Areas>, T: SleepLock<Fds>>()
    ensures space { RecalledInRealTimeOrder space counted A.kind 257 A.word_at A.waits A.opened }
    ensures table { RecalledInRealTimeOrder table owned T.kind 64 T.word_at T.waits T.opened }
{}

/// Under locks of any kind, a pass that knows the past of the object's table and each record that
/// is told goes back to the cause of each call that replied busy, interrupted or sent. The cause
/// lies behind the task's record before the call on the object, and not behind the call's own.
pub fn recalled_calls_have_their_causes<A: SleepLock<Areas>, T: SleepLock<Fds>>()
    ensures space { RecalledCauses space A.kind 257 A.word_at A.waits A.opened }
    ensures table { RecalledCauses table T.kind 64 T.word_at T.waits T.opened }
{}
