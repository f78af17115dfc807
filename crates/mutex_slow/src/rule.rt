//! The rule of a mutex.
ghost use Rattle.std.specs.Prelude.{◌<◌, false, refl};
ghost use Rattle.word_bits.specs.LockWords.{owned};
ghost use Rattle.lock_core.specs.SpinTables.{one-some, one-eight};
ghost use Rattle.mutex_slow.specs.Mutexes.{Kept, MutexMoves, idle, list_at, list_of, may_change, may_free, may_miss, may_own, owner_at, rests, saw_first, turned, uncounted, standing, wait_state_of, wakes_at, with_list, HasChosen, after_set, after_swap, MutexKept};
ghost use Rattle.mutex_slow.specs.Laws.Mutex.{list-again, list-back, list-inside, list-over, list-same, may-on, may-stay, own-inside, spin-inside, own-there, list-room, mutex-few, mutex-firsts, mutex-joins, mutex-list, mutex-list-may, mutex-lists, mutex-opens, mutex-bits, mutex-sets, mutex-swaps, wake-inside, mutex-own, mutex-own-looks, mutex-own-may, mutex-owns, mutex-queued, mutex-site, mutex-sites, mutex-spin, mutex-spins, mutex-splits};

use crate::view::MutexHand;
use lock_core::{LOCK_WORDS, SPIN_ROOM, SiteRule, SpinHost};
use mutex_word::OwnerHost;
use std::marker::PhantomData;
use wait_list::ListHost;
use wake_duty::SleepHost;
use word_bits::{MAX_TASKS, Object};

/// The rule of the table of a mutex that guards an object of the kind `O`: a spin lock, an owner
/// word, a list of waiters, which change under the spin lock, and wake words.
pub struct MutexRule<O> {
    object: PhantomData<O>,
}

impl<O: Object> SiteRule for MutexRule<O> {
    type O = O;

    type Ext = MutexHand;

    ghost unavailable = { owned };

    ghost reads_unheld = { false };

    ghost holds = { Kept O.object O.WORDS };

    ghost moves = { MutexMoves };

    ghost marks = { standing };

    ghost word_at = { owner_at };

    ghost idle = { idle };

    ghost rests = { rests };

    ghost site_kept = { mutex-site O.object O.WORDS };

    ghost site_moves = { λ k id ws us vs vs' there step. step.site };

    ghost sites = { mutex-sites O.object O.WORDS };

    ghost opens = { mutex-opens O.object O.WORDS };

    ghost splits = { mutex-splits O.object O.WORDS };

    ghost joins = { λ k ws vs id other v w r at apart at' mine theirs there step. mutex-joins O.object O.WORDS k ws vs id other v w r at apart at' theirs there step };
}

impl<O: Object> SpinHost for MutexRule<O> {
    const FIRST: usize = 0;

    const LOCKS: usize = 1;

    ghost FIRST = { 0 };

    ghost LOCKS = { 1 };

    ghost may_free = { may_free };

    ghost spin_first = { refl };

    ghost spin_inside = { spin-inside };

    ghost spin_some = { one-some };

    ghost spin_eight = { one-eight };

    ghost spin_kept = { mutex-spin O.object O.WORDS };

    ghost spin_moves = { λ k id ws us vs vs' step. step.spin };

    ghost spins = { mutex-spins O.object O.WORDS };
}

impl<O: Object> OwnerHost for MutexRule<O> {
    const OWNER: usize = SPIN_ROOM;

    ghost OWNER = { owner_at };

    ghost may_be = { λ _. Unit {0} };

    ghost may_own = { may_own };

    ghost may_miss = { may_miss };

    ghost uncounted = { uncounted };

    ghost turned = { turned };

    ghost own_inside = { own-inside };

    ghost own_there = { own-there };

    ghost own_kept = { mutex-own O.object O.WORDS };

    ghost own_may = { mutex-own-may O.object O.WORDS };

    ghost owns = { mutex-owns O.object O.WORDS };

    ghost own_looks = { mutex-own-looks O.object O.WORDS };
}

impl<O: Object> ListHost for MutexRule<O> {
    const LIST: usize = SPIN_ROOM + 8;

    ghost LIST = { list_at };

    ghost list = { list_of };

    ghost with_list = { with_list };

    ghost saw_first = { saw_first };

    ghost may_change = { may_change };

    ghost queue = { MutexKept O.object O.WORDS };

    ghost list_inside = { list-inside };

    ghost list_room = { list-room };

    ghost list_back = { list-back };

    ghost list_same = { list-same };

    ghost list_over = { list-over };

    ghost list_again = { list-again };

    ghost may_stay = { may-stay };

    ghost may_on = { may-on };

    ghost queued = { mutex-queued O.object O.WORDS };

    ghost list_kept = { mutex-list O.object O.WORDS };

    ghost listed_few = { mutex-few O.object O.WORDS };

    ghost list_moves = { λ k id ws us vs vs' step. step.list };

    ghost list_may = { mutex-list-may O.object O.WORDS };

    ghost lists = { mutex-lists O.object O.WORDS };

    ghost firsts = { mutex-firsts O.object O.WORDS };
}

impl<O: Object> SleepHost for MutexRule<O> {
    const WAKE: usize = LOCK_WORDS - 8 * MAX_TASKS as usize;

    ghost WAKE = { wakes_at };

    ghost wait_state = { wait_state_of };

    ghost has_chosen = { HasChosen };

    ghost after_set = { after_set };

    ghost after_swap = { after_swap };

    ghost wake_inside = { wake-inside };

    ghost wake_room = { refl };

    ghost chosen_few = { λ e t chosen. chosen.1 };

    ghost wake_bits = { mutex-bits O.object O.WORDS };

    ghost sets_word = { mutex-sets O.object O.WORDS };

    ghost swaps_word = { mutex-swaps O.object O.WORDS };
}
