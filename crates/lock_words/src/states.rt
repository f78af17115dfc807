//! A lock at a moment of a course, in text.
ghost use Rattle.std.specs.Prelude.{◌≡◌, ◌+◌, ◌*◌, ◌≤◌, ◌++◌, length};
ghost use Rattle.word_bits.specs.declared.owner.Owner.{Owner};
ghost use Rattle.word_bits.specs.declared.count.Count.{Count};
ghost use Rattle.word_bits.specs.OwnerWord.{owner_word};
ghost use Rattle.word_bits.specs.CountWord.{count_word};
ghost use Rattle.lock_decode.specs.Here.{IsMutexOwner, IsSemaphoreCount};
ghost use Rattle.lock_courses.specs.SpinCourses.{IsStated};
ghost use Rattle.lock_words.specs.Decoded.{owner_view};
ghost use Rattle.lock_words.specs.Texts.{count_fields, owner_fields};
ghost use Rattle.lock_words.specs.States.{letter_text, tasks_text, waiters_text, who_holds};

use crate::decode::owner_view;
use crate::texts::{add_count_fields, add_owner_fields, add_spin_fields, add_word};
use byte_streams::Outbox;
use lock_courses::{MutexCourse, SemaphoreCourse, SpinCourse};
use lock_decode::here;
use lock_steps::spin::word_of;
use wait_list::Waiter;

#[tactic(auto, using(byte_streams::proofs::Pieces::flat_map_more))]
fn add_tasks(out: &mut Outbox, tasks: &[u32])
    requires { length out.old + 21 * length tasks.now ≤ 4096 }
    ensures text { out.new ≡ out.old ++ tasks_text tasks.now }
    ensures short { length out.new ≤ length out.old + 21 * length tasks.now }
{
    for task in tasks {
        out.add(b" ");
        out.add_number(u64::from(*task));
    }
}

fn kind_letter(writer: bool) -> &'static [u8]
    ensures text { result.now ≡ letter_text writer }
    ensures short { length result.now ≤ 1 }
{
    if writer { b"w" } else { b"r" }
}

#[tactic(auto, using(byte_streams::proofs::Pieces::flat_map_more))]
fn add_waiters(out: &mut Outbox, waiters: &[Waiter])
    requires { length out.old + 22 * length waiters.now ≤ 4096 }
    ensures text { out.new ≡ out.old ++ waiters_text waiters.now }
    ensures short { length out.new ≤ length out.old + 22 * length waiters.now }
{
    for waiter in waiters {
        out.add(b" ");
        out.add_number(u64::from(waiter.task));
        out.add(kind_letter(waiter.writer));
    }
}

fn add_one(out: &mut Outbox, name: &'static [u8], task: Option<u32>)
    requires name { length name.now ≤ 20 }
    requires room { length out.old + 40 ≤ 4096 }
    ensures text { out.new ≡ out.old ++ who_holds name.entry.now task }
    ensures short { length out.new ≤ length out.old + 40 }
{
    match task {
        Some(task) => {
            out.add(name);
            out.add_number(u64::from(task));
        }
        None => {}
    }
}

/// Adds the fields of an owner word, if a mutex can have it.
fn add_fields_of_owner(out: &mut Outbox, word: u64)
    requires { length out.old + 60 ≤ 4096 }
    ensures text { (o : Owner) → IsMutexOwner o → owner_word o ≡ word →
        out.new ≡ out.old ++ owner_fields (owner_view o) }
    ensures short { length out.new ≤ length out.old + 60 }
{
    match here::mutex_owner(word) {
        Ok(owner) => add_owner_fields(out, &owner_view(&owner)),
        Err(_) => {}
    }
}

/// Adds the fields of a count, if a semaphore can have it.
fn add_fields_of_count(out: &mut Outbox, word: u64)
    requires { length out.old + 80 ≤ 4096 }
    ensures text { (n : Count) → IsSemaphoreCount n → count_word n ≡ word →
        out.new ≡ out.old ++ count_fields n }
    ensures short { length out.new ≤ length out.old + 80 }
{
    match here::semaphore_count(word) {
        Ok(count) => add_count_fields(out, &count),
        Err(_) => {}
    }
}

/// Adds the word of a mutex, its fields, and who holds and waits.
pub(crate) fn add_mutex(out: &mut Outbox, course: &MutexCourse)
    requires { length out.old + 1200 ≤ 4096 }
    ensures { length out.new ≤ length out.old + 1200 }
{
    add_word(out, course.word);
    out.add(b": ");
    add_fields_of_owner(out, course.word);
    add_one(out, b"; holds ", course.holder);
    add_one(out, b"; picked ", course.picked);
    out.add(b"; waits");
    add_tasks(out, course.waiting.as_slice());
    out.add(b"\n");
}

/// Adds the count of a semaphore, its fields, and who holds and waits.
pub(crate) fn add_semaphore(out: &mut Outbox, course: &SemaphoreCourse)
    requires { length out.old + 3200 ≤ 4096 }
    ensures { length out.new ≤ length out.old + 3200 }
{
    add_word(out, course.word);
    out.add(b": ");
    add_fields_of_count(out, course.word);
    add_one(out, b"; writes ", course.writer);
    out.add(b"; reads");
    add_tasks(out, course.readers.as_slice());
    out.add(b"; in transit");
    add_tasks(out, course.transit.as_slice());
    add_one(out, b"; reserved by ", course.waker);
    out.add(b"; waits");
    add_waiters(out, course.waiting.as_slice());
    out.add(if course.marked {
        b"; the first is marked\n"
    } else {
        b"\n"
    });
}

/// Adds the word of a spin lock, its fields, and who holds and waits.
pub(crate) fn add_spin(out: &mut Outbox, course: &SpinCourse)
    requires room { length out.old + 1200 ≤ 4096 }
    requires stated { IsStated course.now }
    ensures { length out.new ≤ length out.old + 1200 }
{
    add_word(out, word_of(course.spin));
    out.add(b": ");
    add_spin_fields(out, &course.spin);
    add_one(out, b"; holds ", course.holder);
    add_one(out, b"; pending ", course.owner);
    out.add(b"; queue");
    add_tasks(out, course.queue.as_slice());
    out.add(b"\n");
}
