//! Numbers of the command line, of courses and of questions.
ghost use Rattle.std.specs.Prelude.{◌<◌, ◌≤◌, IfSome};

use word_bits::MAX_TASKS;

/// The number that a text is: decimal digits, or `0x` and hexadecimal digits.
pub(crate) fn word_of(text: &str) -> Option<u64> {
    match text.strip_prefix("0x") {
        Some(digits) => number_in(digits, 16),
        None => number_in(text, 10),
    }
}

/// The number that the digits are in this base, without a sign.
fn number_in(digits: &str, base: u32) -> Option<u64>
    requires low { 2 ≤ base }
    requires high { base ≤ 16 }
{
    if digits.starts_with('+') {
        return None;
    }
    u64::from_str_radix(digits, base).ok()
}

/// The task that a text names, below 400.
pub(crate) fn task_of(text: &str) -> Option<u32>
    ensures { IfSome result (λ t. t < MAX_TASKS) }
{
    let number = number_in(text, 10)?;
    if number < u64::from(MAX_TASKS) {
        Some(number as u32)
    } else {
        None
    }
}
