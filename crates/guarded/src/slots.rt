//! Calls on a table of descriptors, on the words that its lock guards.
ghost use Rattle.std.specs.Prelude.{◌≡◌, ◌≢◌};
ghost use Rattle.lock_core.specs.Pasts.{GoesOn};
ghost use Rattle.lock_core.specs.Shown.{StepsOn};
ghost use Rattle.lock_core.specs.Locking.{Looks};
ghost use Rattle.fd_table.specs.Tables.{FdMap, IsFdMap, lowest_free, meaning, slot_word, stores};
ghost use Rattle.guarded.specs.Slots.{AreTableWords, DoesTo};
ghost use Rattle.guarded.specs.Types.{No, Alone, Open, Close, Dup, Dup2, Get};

use fd_table::{DESCRIPTORS, Fds};
use sleep_lock::SleepLock;
use word_bits::{Errno, Reply};

/// The word of a descriptor. It is 0 where the descriptor isn't open.
fn slot<L: SleepLock<Fds>>(lock: &L, pass: &mut L::Pass, fd: u32) -> u64
    requires own { L.sits lock.now pass.old }
    requires held { (L.view pass.old).hand.held ≢ No }
    requires table { AreTableWords (L.view pass.old).hand.known }
    ensures on { StepsOn L.sits L.view lock.now pass.old pass.new }
    ensures queue { GoesOn (L.spun pass.old) (L.spun pass.new) }
    ensures kept { Looks (L.view pass.old) (L.view pass.new) }
    ensures value { (m : FdMap) → IsFdMap m → stores m ≡ (L.view pass.old).hand.known →
        result ≡ slot_word (m fd) }
{
    if fd as usize >= DESCRIPTORS {
        return 0;
    }
    lock.word(pass, fd as usize)
}

/// The lowest descriptor that isn't open. `None` where all are open.
fn lowest_free<L: SleepLock<Fds>>(lock: &L, pass: &mut L::Pass) -> Option<u32>
    requires own { L.sits lock.now pass.old }
    requires held { (L.view pass.old).hand.held ≢ No }
    requires table { AreTableWords (L.view pass.old).hand.known }
    ensures on { StepsOn L.sits L.view lock.now pass.old pass.new }
    ensures queue { GoesOn (L.spun pass.old) (L.spun pass.new) }
    ensures kept { Looks (L.view pass.old) (L.view pass.new) }
    ensures value { (m : FdMap) → IsFdMap m → stores m ≡ (L.view pass.old).hand.known →
        result ≡ lowest_free m }
{
    for fd in 0..DESCRIPTORS as u32 {
        if lock.word(pass, fd as usize) == 0 {
            return Some(fd);
        }
    }
    None
}

/// To which file a descriptor is open.
pub(crate) fn get<L: SleepLock<Fds>>(lock: &L, pass: &mut L::Pass, fd: u32) -> Reply
    requires own { L.sits lock.now pass.old }
    requires held { (L.view pass.old).hand.held ≢ No }
    requires table { AreTableWords (L.view pass.old).hand.known }
    ensures on { StepsOn L.sits L.view lock.now pass.old pass.new }
    ensures queue { GoesOn (L.spun pass.old) (L.spun pass.new) }
    ensures kept { Looks (L.view pass.old) (L.view pass.new) }
    ensures reply { (m : FdMap) → IsFdMap m → stores m ≡ (L.view pass.old).hand.known →
        result ≡ (meaning m (Get fd)).1 }
{
    let word = slot(lock, pass, fd);
    if word == 0 {
        Reply::Refused(Errno::BadF)
    } else {
        Reply::Num((word - 1) as u32)
    }
}

/// Opens the lowest free descriptor to a file.
pub(crate) fn open<L: SleepLock<Fds>>(lock: &L, pass: &mut L::Pass, file: u16) -> Reply
    requires own { L.sits lock.now pass.old }
    requires held { (L.view pass.old).hand.held ≡ Alone }
    requires table { AreTableWords (L.view pass.old).hand.known }
    ensures on { StepsOn L.sits L.view lock.now pass.old pass.new }
    ensures queue { GoesOn (L.spun pass.old) (L.spun pass.new) }
    ensures done { (m : FdMap) → IsFdMap m → stores m ≡ (L.view pass.old).hand.known →
        DoesTo m (Open file) result (L.view pass.old) (L.view pass.new) }
{
    match lowest_free(lock, pass) {
        None => Reply::Refused(Errno::MFile),
        Some(fd) => {
            lock.set_word(pass, fd as usize, u64::from(file) + 1);
            Reply::Num(fd)
        }
    }
}

/// Frees a descriptor.
pub(crate) fn close<L: SleepLock<Fds>>(lock: &L, pass: &mut L::Pass, fd: u32) -> Reply
    requires own { L.sits lock.now pass.old }
    requires held { (L.view pass.old).hand.held ≡ Alone }
    requires table { AreTableWords (L.view pass.old).hand.known }
    ensures on { StepsOn L.sits L.view lock.now pass.old pass.new }
    ensures queue { GoesOn (L.spun pass.old) (L.spun pass.new) }
    ensures done { (m : FdMap) → IsFdMap m → stores m ≡ (L.view pass.old).hand.known →
        DoesTo m (Close fd) result (L.view pass.old) (L.view pass.new) }
{
    if slot(lock, pass, fd) == 0 {
        return Reply::Refused(Errno::BadF);
    }
    lock.set_word(pass, fd as usize, 0);
    Reply::Good
}

/// Opens the lowest free descriptor to the file of another.
pub(crate) fn dup<L: SleepLock<Fds>>(lock: &L, pass: &mut L::Pass, fd: u32) -> Reply
    requires own { L.sits lock.now pass.old }
    requires held { (L.view pass.old).hand.held ≡ Alone }
    requires table { AreTableWords (L.view pass.old).hand.known }
    ensures on { StepsOn L.sits L.view lock.now pass.old pass.new }
    ensures queue { GoesOn (L.spun pass.old) (L.spun pass.new) }
    ensures done { (m : FdMap) → IsFdMap m → stores m ≡ (L.view pass.old).hand.known →
        DoesTo m (Dup fd) result (L.view pass.old) (L.view pass.new) }
{
    let word = slot(lock, pass, fd);
    if word == 0 {
        return Reply::Refused(Errno::BadF);
    }
    open(lock, pass, (word - 1) as u16)
}

/// Opens a descriptor to the file of another, whatever it was before.
pub(crate) fn dup2<L: SleepLock<Fds>>(lock: &L, pass: &mut L::Pass, fd: u32, to: u32) -> Reply
    requires own { L.sits lock.now pass.old }
    requires held { (L.view pass.old).hand.held ≡ Alone }
    requires table { AreTableWords (L.view pass.old).hand.known }
    ensures on { StepsOn L.sits L.view lock.now pass.old pass.new }
    ensures queue { GoesOn (L.spun pass.old) (L.spun pass.new) }
    ensures done { (m : FdMap) → IsFdMap m → stores m ≡ (L.view pass.old).hand.known →
        DoesTo m (Dup2 fd to) result (L.view pass.old) (L.view pass.new) }
{
    let word = slot(lock, pass, fd);
    if word == 0 || to as usize >= DESCRIPTORS {
        return Reply::Refused(Errno::BadF);
    }
    lock.set_word(pass, to as usize, word);
    Reply::Num(to)
}
