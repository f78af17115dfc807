//! The fields of words, and what they say, in text.
ghost use Rattle.std.specs.Prelude.{◌≡◌, ◌+◌, ◌≤◌, ◌++◌, length};
ghost use Rattle.lock_words.specs.Numbers.{word_text};
ghost use Rattle.lock_words.specs.Texts.{asks_text, biased_asks_text, biases_text, block_text, blocker_text, count_fields, count_says, counted_text, cpu_of, flag_text, holds_text, owner_fields, owner_says, pending_says, queue_says, queue_text, read_fail_text, spin_fields, spin_holds_text, spin_says, tail_text, waits_text, who_text, writes_text};

use crate::hex::add_hex;
use byte_streams::Outbox;
use word_bits::{Count, Spin, Tail};

/// Whom an owner word names.
#[derive(Clone, Copy, Debug, PartialEq, Eq)]
pub(crate) enum Who {
    Nobody,
    /// A task here, by its number.
    Task(u32),
    /// A task of Linux, by the address of its `task_struct`.
    Address(u64),
}

/// What an owner word says, here or in Linux.
#[derive(Clone, Copy, Debug, PartialEq, Eq)]
pub(crate) struct OwnerView {
    pub who: Who,
    pub waiters: bool,
    pub handoff: bool,
    pub pickup: bool,
}

/// Adds the word, decimal and hexadecimal.
pub(crate) fn add_word(out: &mut Outbox, word: u64)
    requires { length out.old + 39 ≤ 4096 }
    ensures text { out.new ≡ out.old ++ word_text word }
    ensures short { length out.new ≤ length out.old + 39 }
{
    out.add_number(word);
    out.add(b" ");
    add_hex(out, word);
}

fn flag(is: bool, name: &'static [u8]) -> &'static [u8]
    ensures text { result.now ≡ flag_text is name.entry.now }
    ensures short { length result.now ≤ length name.entry.now }
{
    if is { name } else { b"" }
}

fn add_who(out: &mut Outbox, who: Who)
    requires { length out.old + 30 ≤ 4096 }
    ensures text { out.new ≡ out.old ++ who_text who }
    ensures short { length out.new ≤ length out.old + 30 }
{
    match who {
        Who::Nobody => out.add(b"nobody"),
        Who::Task(task) => {
            out.add(b"task ");
            out.add_number(u64::from(task));
        }
        Who::Address(address) => {
            out.add(b"the task at ");
            add_hex(out, address);
        }
    }
}

/// Adds the fields of an owner word.
pub(crate) fn add_owner_fields(out: &mut Outbox, owner: &OwnerView)
    requires { length out.old + 60 ≤ 4096 }
    ensures text { out.new ≡ out.old ++ owner_fields owner.now }
    ensures short { length out.new ≤ length out.old + 60 }
{
    add_who(out, owner.who);
    out.add(flag(owner.waiters, b", WAITERS"));
    out.add(flag(owner.handoff, b", HANDOFF"));
    out.add(flag(owner.pickup, b", PICKUP"));
}

fn add_holds(out: &mut Outbox, who: Who, pickup: bool)
    requires { length out.old + 80 ≤ 4096 }
    ensures text { out.new ≡ out.old ++ holds_text who pickup }
    ensures short { length out.new ≤ length out.old + 80 }
{
    if pickup {
        out.add(b"  nobody holds; ");
        add_who(out, who);
        out.add(b" is picked: no other can take\n");
    } else {
        out.add(b"  ");
        add_who(out, who);
        out.add(b" holds\n");
    }
}

fn waits(waiters: bool) -> &'static [u8]
    ensures text { result.now ≡ waits_text waiters }
    ensures short { length result.now ≤ 30 }
{
    if waiters {
        b"  tasks wait in the list\n"
    } else {
        b"  nobody waits\n"
    }
}

fn asks(handoff: bool) -> &'static [u8]
    ensures text { result.now ≡ asks_text handoff }
    ensures short { length result.now ≤ 80 }
{
    if handoff {
        b"  the first waiter asks: the holder hands over and doesn't let go first\n"
    } else {
        b""
    }
}

/// Adds what an owner word says.
pub(crate) fn add_owner_says(out: &mut Outbox, owner: &OwnerView)
    requires { length out.old + 190 ≤ 4096 }
    ensures text { out.new ≡ out.old ++ owner_says owner.now }
    ensures short { length out.new ≤ length out.old + 190 }
{
    add_holds(out, owner.who, owner.pickup);
    out.add(waits(owner.waiters));
    out.add(asks(owner.handoff));
}

fn writes(writer: bool) -> &'static [u8]
    ensures text { result.now ≡ writes_text writer }
    ensures short { length result.now ≤ 30 }
{
    if writer {
        b"  a writer holds\n"
    } else {
        b"  no writer holds\n"
    }
}

fn add_biases(out: &mut Outbox, readers: u64)
    requires { length out.old + 30 ≤ 4096 }
    ensures text { out.new ≡ out.old ++ biases_text readers }
    ensures short { length out.new ≤ length out.old + 30 }
{
    out.add_number(readers);
    out.add(if readers == 1 { b" bias" } else { b" biases" });
}

/// Adds the fields of a count.
pub(crate) fn add_count_fields(out: &mut Outbox, count: &Count)
    requires { length out.old + 80 ≤ 4096 }
    ensures text { out.new ≡ out.old ++ count_fields count.now }
    ensures short { length out.new ≤ length out.old + 80 }
{
    out.add(flag(count.writer, b"writer, "));
    add_biases(out, count.readers);
    out.add(flag(count.waiters, b", WAITERS"));
    out.add(flag(count.handoff, b", HANDOFF"));
    out.add(flag(count.read_fail, b", READFAIL"));
}

fn counted(writer: bool, readers: u64) -> &'static [u8]
    ensures text { result.now ≡ counted_text writer readers }
    ensures short { length result.now ≤ 100 }
{
    match (readers, writer) {
        (0, _) => b"  no bias is counted\n",
        (_, true) => b"  each bias is of a reader that tries to get in, or of a waker that looks\n",
        (_, false) => {
            b"  each bias is of a reader that holds, tries or is let in, or of a waker that looks\n"
        }
    }
}

fn read_fails(read_fail: bool) -> &'static [u8]
    ensures text { result.now ≡ read_fail_text read_fail }
    ensures short { length result.now ≤ 60 }
{
    if read_fail {
        b"  so many readers are counted that no other may come in\n"
    } else {
        b""
    }
}

fn count_asks(handoff: bool) -> &'static [u8]
    ensures text { result.now ≡ biased_asks_text handoff }
    ensures short { length result.now ≤ 100 }
{
    if handoff {
        b"  the first waiter asks: no new reader holds, and no writer but it while it is marked\n"
    } else {
        b""
    }
}

/// Adds what a count says.
pub(crate) fn add_count_says(out: &mut Outbox, count: &Count)
    requires { length out.old + 320 ≤ 4096 }
    ensures text { out.new ≡ out.old ++ count_says count.now }
    ensures short { length out.new ≤ length out.old + 320 }
{
    out.add(writes(count.writer));
    out.add(counted(count.writer, count.readers));
    out.add(waits(count.waiters));
    out.add(count_asks(count.handoff));
    out.add(read_fails(count.read_fail));
}

fn add_tail(out: &mut Outbox, tail: Option<Tail>)
    requires { length out.old + 60 ≤ 4096 }
    ensures text { out.new ≡ out.old ++ tail_text tail }
    ensures short { length out.new ≤ length out.old + 60 }
{
    match tail {
        None => {}
        Some(tail) => {
            out.add(b", tail CPU ");
            out.add_number(u64::from(tail.cpu));
            out.add(b" node ");
            out.add_number(u64::from(tail.index));
        }
    }
}

/// Adds the fields of a spin lock's word.
pub(crate) fn add_spin_fields(out: &mut Outbox, spin: &Spin)
    requires { length out.old + 90 ≤ 4096 }
    ensures text { out.new ≡ out.old ++ spin_fields spin.now }
    ensures short { length out.new ≤ length out.old + 90 }
{
    out.add(if spin.locked {
        b"locked"
    } else {
        b"not locked"
    });
    out.add(flag(spin.pending, b", pending"));
    add_tail(out, spin.tail);
}

fn spin_holds(locked: bool) -> &'static [u8]
    ensures text { result.now ≡ spin_holds_text locked }
    ensures short { length result.now ≤ 30 }
{
    if locked {
        b"  a CPU holds\n"
    } else {
        b"  nobody holds\n"
    }
}

fn pending_says(pending: bool) -> &'static [u8]
    ensures text { result.now ≡ pending_says pending }
    ensures short { length result.now ≤ 80 }
{
    if pending {
        b"  a CPU has set the pending bit: it is next, or is to clear the bit\n"
    } else {
        b""
    }
}

fn add_last(out: &mut Outbox, cpu: Option<u32>)
    requires { length out.old + 60 ≤ 4096 }
    ensures text { out.new ≡ out.old ++ queue_says cpu }
    ensures short { length out.new ≤ length out.old + 60 }
{
    match cpu {
        None => out.add(b"  the queue is empty\n"),
        Some(cpu) => {
            out.add(b"  CPU ");
            out.add_number(u64::from(cpu));
            out.add(b" is the last of the queue\n");
        }
    }
}

fn cpu_of(tail: Option<Tail>) -> Option<u32>
    ensures { result ≡ cpu_of tail }
{
    match tail {
        None => None,
        Some(tail) => Some(tail.cpu),
    }
}

/// Adds what a spin lock's word says.
pub(crate) fn add_spin_says(out: &mut Outbox, spin: &Spin)
    requires { length out.old + 170 ≤ 4096 }
    ensures text { out.new ≡ out.old ++ spin_says spin.now }
    ensures short { length out.new ≤ length out.old + 170 }
{
    out.add(spin_holds(spin.locked));
    out.add(pending_says(spin.pending));
    add_last(out, cpu_of(spin.tail));
}

/// Adds the fields of a spin queue's tail, and what it says.
pub(crate) fn add_queue(out: &mut Outbox, cpu: Option<u32>)
    requires { length out.old + 110 ≤ 4096 }
    ensures text { out.new ≡ out.old ++ queue_text cpu }
    ensures short { length out.new ≤ length out.old + 110 }
{
    match cpu {
        None => out.add(b"  no tail\n"),
        Some(cpu) => {
            out.add(b"  tail CPU ");
            out.add_number(u64::from(cpu));
            out.add(b"\n");
        }
    }
    add_last(out, cpu);
}

/// Adds what a per-CPU semaphore's block word says, which names a task.
pub(crate) fn add_blocker(out: &mut Outbox, task: Option<u32>)
    requires { length out.old + 130 ≤ 4096 }
    ensures text { out.new ≡ out.old ++ blocker_text task }
    ensures short { length out.new ≤ length out.old + 130 }
{
    match task {
        None => out.add(b"  nobody blocks\n  readers come in\n"),
        Some(task) => {
            out.add(b"  task ");
            out.add_number(u64::from(task));
            out.add(b" blocks\n");
            out.add(b"  no new reader holds; it holds alone once it has seen each count 0\n");
        }
    }
}

/// Adds what Linux's block word says.
pub(crate) fn block(blocked: bool) -> &'static [u8]
    ensures text { result.now ≡ block_text blocked }
    ensures short { length result.now ≤ 90 }
{
    if blocked {
        b"  a writer blocks\n  no new reader holds; it holds once the counts add up to 0\n"
    } else {
        b"  nobody blocks\n  readers come in\n"
    }
}
