//! The pieces of the text's lines.
ghost use Rattle.std.specs.Prelude.{◌≡◌, ◌+◌, ◌≤◌, ◌++◌, length, Some};
ghost use Rattle.mm_report.specs.Text.{area_text, descriptor_text, errno_text, event_line, left_text, reply_text};
ghost use Rattle.mm_report.specs.Summary.{counts_text};

use crate::summary::Counts;
use byte_streams::Outbox;
use task_script::{add_call, add_prot};
use word_bits::{Area, CallWords, Errno, Reply};

fn errno_name(errno: Errno) -> &'static [u8]
    ensures text { result.now ≡ errno_text errno }
    ensures short { length result.now ≤ 6 }
{
    match errno {
        Errno::BadF => b"EBADF",
        Errno::NoMem => b"ENOMEM",
        Errno::Exist => b"EEXIST",
        Errno::Inval => b"EINVAL",
        Errno::MFile => b"EMFILE",
        Errno::Fault => b"EFAULT",
    }
}

fn add_reply(out: &mut Outbox, reply: Reply)
    requires { length out.old + 45 ≤ 4096 }
    ensures text { out.new ≡ out.old ++ reply_text reply }
    ensures short { length out.new ≤ length out.old + 45 }
{
    match reply {
        Reply::Good => out.add(b"ok"),
        Reply::Num(number) => out.add_number(u64::from(number)),
        Reply::Refused(errno) => out.add(errno_name(errno)),
        Reply::MapErr => out.add(b"maperr"),
        Reply::AccErr => out.add(b"accerr"),
        Reply::Busy(word) => {
            out.add(b"busy ");
            out.add_number(word);
        }
        Reply::Intr => out.add(b"EINTR"),
        Reply::Sent => out.add(b"sent"),
    }
}

/// The line of a call: its task, its number among the task's calls, the call and its reply.
pub(crate) fn add_event(out: &mut Outbox, task: u32, number: usize, words: CallWords, reply: Reply)
    requires { length out.old + 256 ≤ 4096 }
    ensures { out.new ≡ out.old ++ event_line task number words reply }
{
    out.add_number(u64::from(task));
    out.add(b".");
    out.add_number(number as u64);
    out.add(b" ");
    add_call(out, words);
    out.add(b" = ");
    add_reply(out, reply);
    out.add(b"\n");
}

/// The line of an area that is left.
pub(crate) fn add_area(out: &mut Outbox, area: Area)
    requires { length out.old + 256 ≤ 4096 }
    ensures { out.new ≡ out.old ++ area_text area }
{
    out.add_number(u64::from(area.start));
    out.add(b"-");
    out.add_number(u64::from(area.end));
    out.add(b" ");
    add_prot(out, area.prot);
    out.add(b"\n");
}

/// The line of how many areas or open descriptors are left.
pub(crate) fn add_left(out: &mut Outbox, count: u64)
    requires { length out.old + 256 ≤ 4096 }
    ensures { out.new ≡ out.old ++ left_text count }
{
    out.add(b"left ");
    out.add_number(count);
    out.add(b"\n");
}

/// The line of an open descriptor.
pub(crate) fn add_descriptor(out: &mut Outbox, fd: u32, file: u16)
    requires { length out.old + 256 ≤ 4096 }
    ensures { out.new ≡ out.old ++ descriptor_text fd (Some file) }
{
    out.add_number(u64::from(fd));
    out.add(b" ");
    out.add_number(u64::from(file));
    out.add(b"\n");
}

/// The summary of an object of this name.
pub(crate) fn add_summary(out: &mut Outbox, name: &str, counts: Counts)
    requires name { length name.now ≤ 16 }
    requires room { length out.old + 256 ≤ 4096 }
    ensures { out.new ≡ out.old ++ counts_text name.now counts }
{
    out.add(name.as_bytes());
    out.add(b": ");
    out.add_number(counts.calls);
    out.add(b" calls, ");
    out.add_number(counts.logged);
    out.add(b" logged, ");
    out.add_number(counts.refused);
    out.add(b" refused, ");
    out.add_number(counts.left);
    out.add(b" left\n");
}
