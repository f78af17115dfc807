//! Words decoded, in text.
ghost use Rattle.std.specs.Prelude.{◌≡◌, ◌+◌, ◌≤◌, ◌++◌, false, length, true};
ghost use Rattle.lock_words.specs.Decoded.{TellsHere, TellsLinux, count_text, heading, linux_view, owner_text, owner_view, spin_text, tail_told};

use crate::kinds::{Kind, name_of};
use crate::texts::{
    OwnerView, Who, add_blocker, add_count_fields, add_count_says, add_owner_fields,
    add_owner_says, add_queue, add_spin_fields, add_spin_says, add_word, block,
};
use crate::why_text::add_why;
use byte_streams::Outbox;
use lock_decode::{LinuxOwner, Why, here, linux};
use word_bits::{Count, Owner, Spin};

/// What the owner word of a mutex here says.
pub(crate) fn owner_view(owner: &Owner) -> OwnerView
    ensures { result ≡ owner_view owner.now }
{
    OwnerView {
        who: match owner.task {
            None => Who::Nobody,
            Some(task) => Who::Task(task),
        },
        waiters: owner.waiters,
        handoff: owner.handoff,
        pickup: owner.pickup,
    }
}

fn linux_view(owner: &LinuxOwner) -> OwnerView
    ensures { result ≡ linux_view owner.now }
{
    OwnerView {
        who: match owner.task {
            None => Who::Nobody,
            Some(address) => Who::Address(address),
        },
        waiters: owner.waiters,
        handoff: owner.handoff,
        pickup: owner.pickup,
    }
}

fn add_owner(out: &mut Outbox, told: Result<OwnerView, Why>)
    requires { length out.old + 260 ≤ 4096 }
    ensures text { out.new ≡ out.old ++ owner_text told }
    ensures short { length out.new ≤ length out.old + 260 }
{
    match told {
        Ok(owner) => {
            out.add(b"  ");
            add_owner_fields(out, &owner);
            out.add(b"\n");
            add_owner_says(out, &owner);
        }
        Err(why) => add_why(out, why),
    }
}

fn add_count(out: &mut Outbox, told: Result<Count, Why>)
    requires { length out.old + 410 ≤ 4096 }
    ensures text { out.new ≡ out.old ++ count_text told }
    ensures short { length out.new ≤ length out.old + 410 }
{
    match told {
        Ok(count) => {
            out.add(b"  ");
            add_count_fields(out, &count);
            out.add(b"\n");
            add_count_says(out, &count);
        }
        Err(why) => add_why(out, why),
    }
}

fn add_spin(out: &mut Outbox, told: Result<Spin, Why>)
    requires { length out.old + 270 ≤ 4096 }
    ensures text { out.new ≡ out.old ++ spin_text told }
    ensures short { length out.new ≤ length out.old + 270 }
{
    match told {
        Ok(spin) => {
            out.add(b"  ");
            add_spin_fields(out, &spin);
            out.add(b"\n");
            add_spin_says(out, &spin);
        }
        Err(why) => add_why(out, why),
    }
}

fn add_tail(out: &mut Outbox, told: Result<Option<u32>, Why>)
    requires { length out.old + 130 ≤ 4096 }
    ensures text { out.new ≡ out.old ++ tail_told told }
    ensures short { length out.new ≤ length out.old + 130 }
{
    match told {
        Ok(cpu) => add_queue(out, cpu),
        Err(why) => add_why(out, why),
    }
}

fn add_here(out: &mut Outbox, kind: Kind, word: u64)
    requires { length out.old + 420 ≤ 4096 }
    ensures text { TellsHere kind word out.old out.new }
    ensures short { length out.new ≤ length out.old + 420 }
{
    match kind {
        Kind::Mutex => match here::mutex_owner(word) {
            Ok(owner) => add_owner(out, Ok(owner_view(&owner))),
            Err(why) => add_owner(out, Err(why)),
        },
        Kind::Semaphore => add_count(out, here::semaphore_count(word)),
        Kind::Spin | Kind::WideSpin => add_spin(out, here::spin_lock(word)),
        Kind::Queue => add_tail(out, here::queue_tail(word)),
        Kind::Percpu => match here::blocker(word) {
            Ok(task) => add_blocker(out, task),
            Err(why) => add_why(out, why),
        },
    }
}

fn add_linux(out: &mut Outbox, kind: Kind, word: u64)
    requires { length out.old + 420 ≤ 4096 }
    ensures text { TellsLinux kind word out.old out.new }
    ensures short { length out.new ≤ length out.old + 420 }
{
    match kind {
        Kind::Mutex => match linux::mutex_owner(word) {
            Ok(owner) => add_owner(out, Ok(linux_view(&owner))),
            Err(why) => add_owner(out, Err(why)),
        },
        Kind::Semaphore => add_count(out, linux::semaphore_count(word)),
        Kind::Spin => add_spin(out, linux::narrow_spin(word)),
        Kind::WideSpin => add_spin(out, linux::wide_spin(word)),
        Kind::Queue => add_tail(out, linux::queue_tail(word)),
        Kind::Percpu => match linux::is_blocked(word) {
            Ok(blocked) => out.add(block(blocked)),
            Err(why) => add_why(out, why),
        },
    }
}

/// Adds what a word of this kind says, here or in Linux, or why no lock can have it.
pub(crate) fn add_decoded(out: &mut Outbox, linux: bool, kind: Kind, word: u64)
    requires { length out.old + 500 ≤ 4096 }
    ensures here { linux ≡ false → TellsHere kind word (out.old ++ heading kind word) out.new }
    ensures linux { linux ≡ true → TellsLinux kind word (out.old ++ heading kind word) out.new }
{
    out.add(name_of(kind));
    out.add(b" ");
    add_word(out, word);
    out.add(b"\n");
    if linux {
        add_linux(out, kind, word);
    } else {
        add_here(out, kind, word);
    }
}
