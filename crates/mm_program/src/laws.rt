//! Laws of the machine that the program keeps. Each is the contract of a function that does nothing.
ghost use Rattle.vma_map.specs.Spaces.{space};
ghost use Rattle.fd_table.specs.Tables.{table};
ghost use Rattle.mutex_slow.specs.MutexLocks.{KnowsMutex};
ghost use Rattle.rwsem_slow.specs.RwSemLocks.{KnowsRwSem};
ghost use Rattle.osq_unqueue.specs.LockSpinQueues.{KnowsSpinQueue};
ghost use Rattle.sleep_lock.specs.LockMembers.{members};
ghost use Rattle.mm_program.specs.ProgramKept.{LockedMachine};
ghost use Rattle.mm_program.specs.ToldCauses.{TellsCauses};
ghost use Rattle.mm_program.specs.ToldOrder.{TellsInRealTimeOrder};
ghost use Rattle.mm_program.specs.ToldWakes.{TellsNoLostWake};
ghost use Rattle.mm_program.specs.Types.{Areas, SpaceCall, Fds, TableCall};

use crate::locks::{SpaceLock, TableLock};
use cpu_task::Crew;

/// Of two calls that held the lock, the history that `top` writes of an object has the one first
/// that was recorded when the other wasn't yet. Only two calls that read at one place of the log
/// may stand the other way round, even if one was over before the other began.
pub fn told_history_keeps_real_time_order<A: SpaceLock, T: TableLock, C: Crew>()
    ensures { (kept : LockedMachine A Areas A.Rule A.Site A.Pass A.Rule.Ext SpaceCall
        T Fds T.Rule T.Site T.Pass T.Rule.Ext TableCall C C.C) →
        TellsInRealTimeOrder
        (members A.calls_on A.view A.sits A.spun A.kind A.word_at A.opened A.waits
        (KnowsRwSem space 257) KnowsSpinQueue)
        (members T.calls_on T.view T.sits T.spun T.kind T.word_at T.opened T.waits
        (KnowsMutex table 64) KnowsSpinQueue)
        kept }
{}

/// Each call that `top` writes as busy, interrupted or sent has its cause: a step of a pass with its
/// task's number that tried in vain and saw the word, consumed a signal, or sent one. It lies behind
/// the task's record before the call on that object, and not behind the call's own. Of calls on
/// other objects nothing is said: that the call had begun by then is a clause of
/// `Guarded::perform`.
pub fn told_calls_have_their_causes<A: SpaceLock, T: TableLock, C: Crew>()
    ensures { (kept : LockedMachine A Areas A.Rule A.Site A.Pass A.Rule.Ext SpaceCall
        T Fds T.Rule T.Site T.Pass T.Rule.Ext TableCall C C.C) →
        TellsCauses
        (members A.calls_on A.view A.sits A.spun A.kind A.word_at A.opened A.waits
        (KnowsRwSem space 257) KnowsSpinQueue)
        (members T.calls_on T.view T.sits T.spun T.kind T.word_at T.opened T.waits
        (KnowsMutex table 64) KnowsSpinQueue)
        kept }
{}

/// At no moment of an object's past was a wake-up lost. If nobody holds a table and tasks wait, a
/// task that doesn't wait is to wake the first of them; or that waiter's wake word is set, or it is
/// awake and tries before it sleeps. If nobody writes or reads a space and tasks wait, a task owes a
/// wake, or a bias keeps writers out, or the first waiter is a writer that needs no further wake. A
/// reader that is granted while it waits needs none either.
pub fn told_waiters_lose_no_wake<A: SpaceLock, T: TableLock, C: Crew>()
    ensures { (kept : LockedMachine A Areas A.Rule A.Site A.Pass A.Rule.Ext SpaceCall
        T Fds T.Rule T.Site T.Pass T.Rule.Ext TableCall C C.C) →
        TellsNoLostWake
        (members A.calls_on A.view A.sits A.spun A.kind A.word_at A.opened A.waits
        (KnowsRwSem space 257) KnowsSpinQueue)
        (members T.calls_on T.view T.sits T.spun T.kind T.word_at T.opened T.waits
        (KnowsMutex table 64) KnowsSpinQueue)
        kept }
{}
