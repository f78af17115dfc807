//! The rule of a semaphore's table.
ghost use Rattle.std.specs.Prelude.{false, refl};
ghost use Rattle.word_bits.specs.LockWords.{counted};
ghost use Rattle.lock_core.specs.SpinTables.{one-some, one-eight};
ghost use Rattle.rwsem_wake.specs.RwSemViews.{count_at, list_at, list_of, saw_first, sem_of, wake_of, with_list, with_sem, with_wake, HasChosen, after_set};
ghost use Rattle.rwsem_slow.specs.RwSems.{Kept, MayMiss, RwSemKept, RwSemMoves, any_count, bias_of, biased, grants_at, idle, marks_at, may_change, may_count, may_free, more_in, rests, standing, sleep_wait_state, wakes_at, after_swap};
ghost use Rattle.rwsem_slow.specs.Laws.RwSem.{count-inside, count-there, list-inside, list-room, sem-hints, sem-joins-rule, sem-looks, sem-opens-rule, sem-places, sem-sems, sem-site, sem-sites, sem-spin, sem-spins, sem-splits, spin-inside};
ghost use Rattle.rwsem_slow.specs.Laws.Waiter.{few-waiters};
ghost use Rattle.rwsem_slow.specs.Laws.RwSemList.{list-again, list-back, list-over, list-same, may-on, may-pick, may-stay, sem-firsts, sem-list, sem-list-may, sem-lists, sem-queued};
ghost use Rattle.rwsem_slow.specs.Laws.CountHosting.{bias-back, sem-alone, sem-count, sem-counted, sem-words};
ghost use Rattle.rwsem_slow.specs.Laws.Sleep.{sem-bits, sem-sets, sem-swaps, wake-inside};

use lock_core::{LOCK_WORDS, ROW_WORDS, SPIN_ROOM, SiteRule, SpinHost};
use rwsem_count::CountHost;
use rwsem_wake::{GrantHost, RwSemHand, WakeHost};
use std::marker::PhantomData;
use wait_list::ListHost;
use wake_duty::SleepHost;
use word_bits::{MAX_TASKS, Object};

/// The rule of the table of a semaphore that guards an object of the kind `O`. The table has a spin
/// lock, a count, and a list of waiters, which changes under the spin lock. Each task has a mark, a
/// grant word and a wake word there.
pub struct SemRule<O> {
    object: PhantomData<O>,
}

impl<O: Object> SiteRule for SemRule<O> {
    type O = O;

    type Ext = RwSemHand;

    ghost unavailable = { counted };

    ghost reads_unheld = { false };

    ghost holds = { Kept O.object O.WORDS };

    ghost moves = { RwSemMoves };

    ghost marks = { standing };

    ghost word_at = { count_at };

    ghost idle = { idle };

    ghost rests = { rests };

    ghost site_kept = { sem-site O.object O.WORDS };

    ghost site_moves = { λ k id ws us vs vs' there step. step.site };

    ghost sites = { sem-sites O.object O.WORDS };

    ghost opens = { sem-opens-rule O.object O.WORDS };

    ghost splits = { sem-splits O.object O.WORDS };

    ghost joins = { λ k ws vs id other v w r at apart at' mine theirs there step. sem-joins-rule O.object O.WORDS k ws vs id other v w r at apart at' theirs there step };
}

impl<O: Object> SpinHost for SemRule<O> {
    const FIRST: usize = 0;

    const LOCKS: usize = 1;

    ghost FIRST = { 0 };

    ghost LOCKS = { 1 };

    ghost may_free = { may_free };

    ghost spin_first = { refl };

    ghost spin_inside = { spin-inside };

    ghost spin_some = { one-some };

    ghost spin_eight = { one-eight };

    ghost spin_kept = { sem-spin O.object O.WORDS };

    ghost spin_moves = { λ k id ws us vs vs' step. step.spin };

    ghost spins = { sem-spins O.object O.WORDS };
}

impl<O: Object> ListHost for SemRule<O> {
    const LIST: usize = SPIN_ROOM + 16;

    ghost LIST = { list_at };

    ghost list = { list_of };

    ghost with_list = { with_list };

    ghost saw_first = { saw_first };

    ghost may_change = { may_change };

    ghost queue = { RwSemKept O.object O.WORDS };

    ghost list_inside = { list-inside };

    ghost list_room = { list-room };

    ghost list_back = { list-back };

    ghost list_same = { list-same };

    ghost list_over = { list-over };

    ghost list_again = { list-again };

    ghost may_stay = { may-stay };

    ghost may_on = { may-on };

    ghost queued = { sem-queued O.object O.WORDS };

    ghost list_kept = { sem-list O.object O.WORDS };

    ghost listed_few = { λ k ws vs q t r. few-waiters O.object O.WORDS k ws vs q r t };

    ghost list_moves = { λ k id ws us vs vs' step. step.list };

    ghost list_may = { λ k ws vs q id v c r at has may. sem-list-may O.object O.WORDS k ws vs q id v r at c has may };

    ghost lists = { λ k ws vs q id i n v c b r at inside has may is leaver list. sem-lists O.object O.WORDS k ws vs q id v r at i n c b inside has may is leaver list };

    ghost firsts = { λ k ws vs q id v r at. sem-firsts O.object O.WORDS k ws vs q id v r at };
}

impl<O: Object> CountHost for SemRule<O> {
    const COUNT: usize = SPIN_ROOM;

    ghost COUNT = { count_at };

    ghost may_be = { any_count };

    ghost bias = { bias_of };

    ghost counted = { biased };

    ghost more = { more_in };

    ghost may_count = { may_count };

    ghost may_miss = { MayMiss };

    ghost count_inside = { count-inside };

    ghost count_there = { count-there };

    ghost bias_back = { bias-back };

    ghost count_kept = { sem-count O.object O.WORDS };

    ghost counts = { sem-counted O.object O.WORDS };

    ghost count_looks = { sem-looks O.object O.WORDS };
}

impl<O: Object> GrantHost for SemRule<O> {
    const MARKS: usize = SPIN_ROOM + ROW_WORDS;

    const GRANTS: usize = SPIN_ROOM + 2 * ROW_WORDS;

    ghost MARKS = { marks_at };

    ghost GRANTS = { grants_at };

    ghost sem = { sem_of };

    ghost with_sem = { with_sem };

    ghost sem_back = { λ e s. refl };

    ghost sem_same = { λ e. refl };

    ghost sem_over = { λ e s r. refl };

    ghost sem_list = { λ e s. refl };

    ghost wake = { wake_of };

    ghost with_wake = { with_wake };

    ghost wake_same = { λ e s. refl };

    ghost marks_row = { refl };

    ghost grants_row = { refl };

    ghost sem_places = { sem-places };

    ghost sem_kept = { sem-words O.object O.WORDS };

    ghost sem_only = { sem-alone O.object O.WORDS };

    ghost sems = { sem-sems O.object O.WORDS };
}

impl<O: Object> SleepHost for SemRule<O> {
    const WAKE: usize = LOCK_WORDS - 8 * MAX_TASKS as usize;

    ghost WAKE = { wakes_at };

    ghost wait_state = { sleep_wait_state };

    ghost has_chosen = { HasChosen };

    ghost after_set = { after_set };

    ghost after_swap = { after_swap };

    ghost wake_inside = { wake-inside };

    ghost wake_room = { refl };

    ghost chosen_few = { λ e t chosen. chosen.2 };

    ghost wake_bits = { sem-bits O.object O.WORDS };

    ghost sets_word = { sem-sets O.object O.WORDS };

    ghost swaps_word = { sem-swaps O.object O.WORDS };
}

impl<O: Object> WakeHost for SemRule<O> {
    ghost places = { (refl, refl) };

    ghost list_parts = { (refl, refl, refl) };

    ghost sem_parts = { (refl, refl) };

    ghost wake_parts = { (refl, refl, refl) };

    ghost may_pick = { may-pick };

    ghost may_set = { λ e t chosen. chosen };

    ghost hints = { sem-hints O.object O.WORDS };
}
