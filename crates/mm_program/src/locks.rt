//! The locks that the program's objects stand under.
ghost use Rattle.std.specs.Prelude.{List};
ghost use Rattle.word_bits.specs.Histories.{Plan};
ghost use Rattle.vma_map.specs.Spaces.{space};
ghost use Rattle.fd_table.specs.Tables.{table};
ghost use Rattle.mm_program.specs.Types.{Moment};
ghost use Rattle.lock_core.specs.Shown.{Shown};
ghost use Rattle.mutex_slow.specs.MutexLocks.{KnowsMutex};
ghost use Rattle.rwsem_slow.specs.RwSemLocks.{KnowsRwSem};
ghost use Rattle.osq_unqueue.specs.LockSpinQueues.{KnowsSpinQueue};

use fd_table::Fds;
use mutex_slow::Mutex;
use rwsem_slow::RwSem;
use sleep_lock::{CountLock, OwnerLock};
use vma_map::Areas;

/// A lock of spaces. Its word is a count, and what it tells of its own is what a semaphore tells.
/// What it tells of a spin queue is what `KnowsSpinQueue` says.
pub trait SpaceLock: CountLock<Areas> {
    ghost is_semaphore: { (k : Plan) (u : Shown) → Self.SleepLock.tells k u →
        KnowsRwSem space 257 k u };

    ghost has_queue: { (k : Plan) (u : Shown) (spun : List Moment) →
        Self.SleepLock.tells_queue k u spun → KnowsSpinQueue k u spun };
}

/// A lock of tables. Its word names the owner, and what it tells of its own is what a mutex tells.
/// What it tells of a spin queue is what `KnowsSpinQueue` says.
pub trait TableLock: OwnerLock<Fds> {
    ghost is_mutex: { (k : Plan) (u : Shown) → Self.SleepLock.tells k u →
        KnowsMutex table 64 k u };

    ghost has_queue: { (k : Plan) (u : Shown) (spun : List Moment) →
        Self.SleepLock.tells_queue k u spun → KnowsSpinQueue k u spun };
}

impl SpaceLock for RwSem<Areas> {
    ghost is_semaphore = { λ k u told. told };

    ghost has_queue = { λ k u spun told. told };
}

impl TableLock for Mutex<Fds> {
    ghost is_mutex = { λ k u told. told };

    ghost has_queue = { λ k u spun told. told };
}
