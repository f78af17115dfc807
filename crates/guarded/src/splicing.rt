//! The areas of a space in the words that its lock guards.
ghost use Rattle.std.specs.Prelude.{◌≡◌, ◌+◌, ◌-◌, ◌≤◌, length, map};
ghost use Rattle.word_bits.specs.AreaWord.{area_word};
ghost use Rattle.lock_core.specs.Pasts.{GoesOn};
ghost use Rattle.vma_map.specs.Runs.{AreRuns};
ghost use Rattle.guarded.specs.CallServing.{AreZeroFrom};
ghost use Rattle.guarded.specs.Splicing.{ChangesWords, HaveAreas, IsCleared, IsWritten, MakeRoom, MovesDown, areas_in};
ghost use Rattle.guarded.specs.Types.{Alone};

use crate::searching::area_at;
use sleep_lock::SleepLock;
use std::marker::PhantomData;
use vma_map::{AreaStore, Areas};
use word_bits::Area;

/// The words of a space, under a lock that their holder holds alone.
pub(crate) struct LockedAreas<L>(PhantomData<L>);

impl<L: SleepLock<Areas>> AreaStore for LockedAreas<L> {
    ghost use Rattle.guarded.specs.Laws.Splicing.{changes-none, changes-more};

    type Place = L;

    type Hand = L::Pass;

    ghost areas = { λ _ pass. areas_in (L.view pass).hand.known };

    ghost has = { λ lock pass. L.sits lock pass
        × ((L.view pass).hand.held ≡ Alone) × HaveAreas (L.view pass).hand.known };

    ghost keeps = { λ _ pass after. ChangesWords (L.view pass) (L.view after)
        × GoesOn (L.spun pass) (L.spun after) };

    fn len(place: &L, hand: &mut L::Pass) -> usize {
        place.word(hand, 0) as usize
    }

    fn get(place: &L, hand: &mut L::Pass, at: usize) -> Area {
        area_at(place, hand, at)
    }

    fn splice(place: &L, hand: &mut L::Pass, at: usize, count: usize, pieces: &[Area]) {
        let len = place.word(hand, 0) as usize;
        // Nobody finds the words while they are those of no space: the pass holds alone, and writes
        // until its commit.
        fit(place, hand, at, count, pieces.len(), len);
        write_pieces(place, hand, at, pieces);
        place.set_word(hand, 0, (len - count + pieces.len()) as u64);
    }

    ghost in_order = { λ _ _ has. has.2.space };

    ghost keeps_itself = { λ _ pass. (changes-none (L.view pass), λ p t. t) };

    ghost keeps_on = { λ _ pass after later a b. (
      changes-more (L.view pass) (L.view after) (L.view later) a.0 b.0,
      λ p t. b.1 p (a.1 p t),
    ) };
}

/// Moves the areas behind so many, so that so many pieces fit in their place.
fn fit<L: SleepLock<Areas>>(
    lock: &L,
    pass: &mut L::Pass,
    at: usize,
    count: usize,
    pieces: usize,
    len: usize,
)
    requires own { L.sits lock.now pass.old }
    requires held { (L.view pass.old).hand.held ≡ Alone }
    requires long { length (L.view pass.old).hand.known ≡ 257 }
    requires within { at + count ≤ len }
    requires room { len + pieces ≤ 256 + count }
    requires few { len ≤ 256 }
    requires zeros { AreZeroFrom (len + 1) (L.view pass.old).hand.known }
    ensures own { L.sits lock.now pass.new }
    ensures queue { GoesOn (L.spun pass.old) (L.spun pass.new) }
    ensures kept { ChangesWords (L.view pass.old) (L.view pass.new) }
    ensures moved { MakeRoom at count pieces
        (L.view pass.old).hand.known (L.view pass.new).hand.known }
{
    if pieces < count {
        close_up(lock, pass, at + pieces, count - pieces, len);
    } else {
        make_room(lock, pass, at + count, pieces - count, len);
    }
}

/// Moves the areas behind so many down over these, and writes 0 behind them.
fn close_up<L: SleepLock<Areas>>(lock: &L, pass: &mut L::Pass, at: usize, fewer: usize, len: usize)
    requires own { L.sits lock.now pass.old }
    requires held { (L.view pass.old).hand.held ≡ Alone }
    requires long { length (L.view pass.old).hand.known ≡ 257 }
    requires within { at + fewer ≤ len }
    requires few { len ≤ 256 }
    requires zeros { AreZeroFrom (len + 1) (L.view pass.old).hand.known }
    ensures own { L.sits lock.now pass.new }
    ensures queue { GoesOn (L.spun pass.old) (L.spun pass.new) }
    ensures kept { ChangesWords (L.view pass.old) (L.view pass.new) }
    ensures moved { MakeRoom at fewer 0
        (L.view pass.old).hand.known (L.view pass.new).hand.known }
{
    move_down(lock, pass, at, fewer, len);
    write_zeros(lock, pass, len - fewer, len);
}

/// Moves the areas behind so many down over these. Of the places of the last ones none is written.
fn move_down<L: SleepLock<Areas>>(lock: &L, pass: &mut L::Pass, at: usize, fewer: usize, len: usize)
    requires own { L.sits lock.now pass.old }
    requires held { (L.view pass.old).hand.held ≡ Alone }
    requires long { length (L.view pass.old).hand.known ≡ 257 }
    requires within { at + fewer ≤ len }
    requires few { len ≤ 256 }
    ensures own { L.sits lock.now pass.new }
    ensures queue { GoesOn (L.spun pass.old) (L.spun pass.new) }
    ensures kept { ChangesWords (L.view pass.old) (L.view pass.new) }
    ensures moved { MovesDown at fewer (len - fewer)
        (L.view pass.old).hand.known (L.view pass.new).hand.known }
{
    for place in at + 1..len - fewer + 1 {
        let word = lock.word(pass, place + fewer);
        lock.set_word(pass, place, word);
    }
}

/// Writes 0 over the areas behind so many, up to the last of `len`.
fn write_zeros<L: SleepLock<Areas>>(lock: &L, pass: &mut L::Pass, at: usize, len: usize)
    requires own { L.sits lock.now pass.old }
    requires held { (L.view pass.old).hand.held ≡ Alone }
    requires long { length (L.view pass.old).hand.known ≡ 257 }
    requires within { at ≤ len }
    requires few { len ≤ 256 }
    ensures own { L.sits lock.now pass.new }
    ensures queue { GoesOn (L.spun pass.old) (L.spun pass.new) }
    ensures kept { ChangesWords (L.view pass.old) (L.view pass.new) }
    ensures zeros { IsCleared at len
        (L.view pass.old).hand.known (L.view pass.new).hand.known }
{
    for place in at + 1..len + 1 {
        lock.set_word(pass, place, 0);
    }
}

/// Moves the areas behind a place up, so that so many more find room there.
fn make_room<L: SleepLock<Areas>>(lock: &L, pass: &mut L::Pass, at: usize, more: usize, len: usize)
    requires own { L.sits lock.now pass.old }
    requires held { (L.view pass.old).hand.held ≡ Alone }
    requires long { length (L.view pass.old).hand.known ≡ 257 }
    requires within { at ≤ len }
    requires room { len + more ≤ 256 }
    requires zeros { AreZeroFrom (len + 1) (L.view pass.old).hand.known }
    ensures own { L.sits lock.now pass.new }
    ensures queue { GoesOn (L.spun pass.old) (L.spun pass.new) }
    ensures kept { ChangesWords (L.view pass.old) (L.view pass.new) }
    ensures moved { MakeRoom at 0 more
        (L.view pass.old).hand.known (L.view pass.new).hand.known }
{
    if more == 0 {
        return;
    }
    let mut place = len;
    // From the last one on, so that no word is written over before it is moved.
    while place > at {
        let word = lock.word(pass, place);
        lock.set_word(pass, place + more, word);
        place -= 1;
    }
}

/// Writes the words of pieces behind so many areas.
fn write_pieces<L: SleepLock<Areas>>(lock: &L, pass: &mut L::Pass, at: usize, pieces: &[Area])
    requires own { L.sits lock.now pass.old }
    requires held { (L.view pass.old).hand.held ≡ Alone }
    requires long { length (L.view pass.old).hand.known ≡ 257 }
    requires room { at + length pieces.now ≤ 256 }
    requires runs { AreRuns pieces.now }
    ensures own { L.sits lock.now pass.new }
    ensures queue { GoesOn (L.spun pass.old) (L.spun pass.new) }
    ensures kept { ChangesWords (L.view pass.old) (L.view pass.new) }
    ensures written { IsWritten at (map area_word pieces.now)
        (L.view pass.old).hand.known (L.view pass.new).hand.known }
{
    for (i, piece) in pieces.iter().enumerate() {
        lock.set_word(pass, at + i + 1, piece.pack());
    }
}
