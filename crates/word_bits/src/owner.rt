//! Who owns a mutex, and the owner word.
ghost use Rattle.std.specs.Prelude.{◌≡◌, ◌≤◌};
ghost use Rattle.word_bits.specs.Packed.{Unpacks};
ghost use Rattle.word_bits.specs.OwnerWord.{IsOwner, owner_word, task_code};

use crate::MAX_TASKS;

/// What an owner word says. With `pickup` the task is the waiter that is to take the mutex, and
/// without it the task holds the mutex.
#[derive(Clone, Copy, Debug, PartialEq, Eq)]
pub struct Owner {
    /// The task, below `MAX_TASKS`, or `None` where nobody holds the mutex and nobody is picked.
    pub task: Option<u32>,
    /// There are waiters in the list.
    pub waiters: bool,
    /// The first waiter asks that the mutex be handed to it.
    pub handoff: bool,
    /// The mutex was handed to the task, which hasn't taken it yet.
    pub pickup: bool,
}

fn code_of(task: Option<u32>) -> u64
    ensures { result ≡ task_code task }
{
    match task {
        Some(task) => u64::from(task) + 1,
        None => 0,
    }
}

fn task_of(code: u64) -> Option<u32>
    requires { code ≤ MAX_TASKS }
    ensures { task_code result ≡ code }
{
    match code {
        0 => None,
        _ => Some((code - 1) as u32),
    }
}

impl Owner {
    /// The word of an owner: the flags `waiters`, `handoff` and `pickup` in bits 0 to 2, and above
    /// them the task's number plus 1, or 0 without a task. It is below 3,208.
    pub fn pack(self) -> u64
        requires { IsOwner self }
        ensures { result ≡ owner_word self }
    {
        let flags = u64::from(self.waiters)
            + u64::from(self.handoff) * 2
            + u64::from(self.pickup) * 4;
        flags + code_of(self.task) * 8
    }

    /// The owner whose word it is. `None` where no owner packs to the word.
    pub fn unpack(word: u64) -> Option<Owner>
        ensures { Unpacks IsOwner owner_word word result }
    {
        if word / 8 > u64::from(MAX_TASKS) {
            return None;
        }
        Some(Owner {
            task: task_of(word / 8),
            waiters: word % 2 == 1,
            handoff: word / 2 % 2 == 1,
            pickup: word / 4 % 2 == 1,
        })
    }
}
