//! Courses of steps, read and played.
ghost use Rattle.std.specs.Prelude.{◌<◌, ◌≤◌, ◌+◌, length, IfOk};
ghost use Rattle.lock_courses.specs.MutexCourses.{IsStated as IsMutexStated};
ghost use Rattle.lock_courses.specs.SemaphoreCourses.{IsStated as IsSemaphoreStated};
ghost use Rattle.lock_courses.specs.SpinCourses.{IsStated as IsSpinStated};
ghost use Rattle.lock_words.specs.Courses.{IsStated};

use crate::number::task_of;
use crate::reason::{Reason, reason_name};
use crate::states::{add_mutex, add_semaphore, add_spin};
use byte_streams::{Failed, Outbox, Sink};
use lock_courses::{Made, MutexCourse, SemaphoreCourse, SpinCourse};
use word_bits::MAX_TASKS;

/// How a course ended that could be written.
#[derive(Clone, Copy, Debug, PartialEq, Eq)]
pub(crate) enum Played {
    /// Each step was made.
    Whole,
    /// A line was refused, which was told.
    Refused,
}

#[derive(Drop)]
enum Course {
    Mutex(MutexCourse),
    Semaphore(SemaphoreCourse),
    Spin(SpinCourse),
}

fn course_of(kind: &str) -> Result<Course, Reason>
    ensures { IfOk result IsStated }
{
    match kind.as_bytes() {
        b"mutex" => Ok(Course::Mutex(MutexCourse::new())),
        b"rwsem" => Ok(Course::Semaphore(SemaphoreCourse::new())),
        b"spin" => Ok(Course::Spin(SpinCourse::new())),
        _ => Err(Reason::Kind),
    }
}

fn mutex_step(course: &mut MutexCourse, task: u32, step: &[u8]) -> Result<Made, Reason>
    requires stated { IsMutexStated course.old }
    requires task { task < MAX_TASKS }
    ensures { IsMutexStated course.new }
{
    let made = match step {
        b"try" => course.take(task),
        b"ask" => course.ask(task),
        b"release" => course.release(task),
        b"hand" => course.hand_over(task),
        b"queue" => course.queue(task),
        b"leave" => course.leave(task),
        _ => return Err(Reason::Step),
    };
    made.map_err(Reason::Not)
}

fn semaphore_step(course: &mut SemaphoreCourse, task: u32, step: &[u8]) -> Result<Made, Reason>
    requires { IsSemaphoreStated course.old }
    ensures { IsSemaphoreStated course.new }
{
    let made = match step {
        b"add" => course.add(task),
        b"hold" => course.hold(task),
        b"back" => course.back(task),
        b"queue-read" => course.queue_reader(task),
        _ => return writer_step(course, task, step),
    };
    made.map_err(Reason::Not)
}

fn writer_step(course: &mut SemaphoreCourse, task: u32, step: &[u8]) -> Result<Made, Reason>
    requires { IsSemaphoreStated course.old }
    ensures { IsSemaphoreStated course.new }
{
    let made = match step {
        b"queue-write" => course.queue_writer(task),
        b"try" => course.take(task),
        b"spin" => course.spin(task),
        b"write" => course.write(task, false),
        b"overdue" => course.write(task, true),
        _ => return leaving_step(course, task, step),
    };
    made.map_err(Reason::Not)
}

fn leaving_step(course: &mut SemaphoreCourse, task: u32, step: &[u8]) -> Result<Made, Reason>
    requires { IsSemaphoreStated course.old }
    ensures { IsSemaphoreStated course.new }
{
    let made = match step {
        b"release" => course.release(task),
        b"downgrade" => course.downgrade(task),
        b"leave" => course.leave(task),
        _ => return wake_step(course, task, step),
    };
    made.map_err(Reason::Not)
}

fn wake_step(course: &mut SemaphoreCourse, task: u32, step: &[u8]) -> Result<Made, Reason>
    requires { IsSemaphoreStated course.old }
    ensures { IsSemaphoreStated course.new }
{
    let made = match step {
        b"reserve" => course.reserve(task),
        b"unreserve" => course.unreserve(task, false),
        b"mark" => course.unreserve(task, true),
        b"grant" => course.grant(task),
        _ => return Err(Reason::Step),
    };
    made.map_err(Reason::Not)
}

fn spin_step(course: &mut SpinCourse, task: u32, step: &[u8]) -> Result<Made, Reason>
    requires stated { IsSpinStated course.old }
    requires task { task < MAX_TASKS }
    ensures { IsSpinStated course.new }
{
    let made = match step {
        b"try" => course.take(task),
        b"pending" => course.pending(task),
        b"undo" => course.undo(task),
        b"take" => course.take_pending(task),
        b"queue" => course.queue(task),
        b"head" => course.head(task),
        b"release" => course.release(task),
        _ => return Err(Reason::Step),
    };
    made.map_err(Reason::Not)
}

fn make(course: &mut Course, task: u32, step: &[u8]) -> Result<Made, Reason>
    requires stated { IsStated course.old }
    requires task { task < MAX_TASKS }
    ensures { IsStated course.new }
{
    match course {
        Course::Mutex(course) => mutex_step(course, task, step),
        Course::Semaphore(course) => semaphore_step(course, task, step),
        Course::Spin(course) => spin_step(course, task, step),
    }
}

fn add_state(out: &mut Outbox, course: &Course)
    requires room { length out.old + 3200 ≤ 4096 }
    requires stated { IsStated course.now }
{
    match course {
        Course::Mutex(course) => add_mutex(out, course),
        Course::Semaphore(course) => add_semaphore(out, course),
        Course::Spin(course) => add_spin(out, course),
    }
}

/// The words of a line before a comment: a task and a step.
fn step_of(line: &str) -> Result<(u32, &str), Reason>
    ensures { IfOk result (λ it. it.0 < MAX_TASKS) }
{
    let mut words = line.split_whitespace();
    let (Some(task), Some(step), None) = (words.next(), words.next(), words.next()) else {
        return Err(Reason::Words);
    };
    match task_of(task) {
        Some(task) => Ok((task, step)),
        None => Err(Reason::Task),
    }
}

/// Makes the step of a line, and adds what it leaves.
fn play_line(course: &mut Course, line: &str, out: &mut Outbox) -> Result<(), Reason>
    requires stated { IsStated course.old }
    requires room { length out.old + 3300 ≤ 4096 }
    ensures { IsStated course.new }
{
    let (task, step) = step_of(line)?;
    if step.len() > 16 {
        return Err(Reason::Step);
    }
    let made = make(course, task, step.as_bytes())?;
    out.add_number(u64::from(task));
    out.add(b" ");
    out.add(step.as_bytes());
    out.add(match made {
        Made::Done => b": ",
        Made::Fails => b" fails: ",
    });
    add_state(out, course);
    Ok(())
}

fn refuse<K: Sink>(number: u64, reason: Reason, sink: &mut K) -> Result<Played, Failed> {
    let mut out = Outbox::new();
    out.add(b"refused ");
    out.add_number(number);
    out.add(b" ");
    out.add(reason_name(reason));
    out.add(b"\n");
    out.flush(sink)?;
    Ok(Played::Refused)
}

/// The line before a comment.
fn uncommented(line: &str) -> &str {
    match line.split_once('#') {
        Some((front, _)) => front,
        None => line,
    }
}

/// Plays a course: its first line with words names the lock, and each other one has a task and a
/// step. What each step leaves is written, and the first line that is refused ends it.
pub(crate) fn play<K: Sink>(text: &str, sink: &mut K) -> Result<Played, Failed> {
    let mut course: Option<Course> = None;
    let mut number = 0u64;
    for line in text.lines() {
        number = number.saturating_add(1);
        let line = uncommented(line);
        if line.trim().is_empty() {
            continue;
        }
        let mut out = Outbox::new();
        let made = match &mut course {
            Some(course) => play_line(course, line, &mut out),
            None => match course_of(line.trim()) {
                Ok(first) => {
                    course = Some(first);
                    Ok(())
                }
                Err(reason) => Err(reason),
            },
        };
        if let Err(reason) = made {
            return refuse(number, reason, sink);
        }
        out.flush(sink)?;
    }
    Ok(Played::Whole)
}
