//! Worked courses of the words of a spin queue, step by step.
use lock_core::{Op, Shadow};
use std::process::Abort;

/// Fails at the first step that finds another number than stands behind it, or whose word isn't
/// there. Each has the place of its word; all words are 0 before.
fn check_found(rt: &impl Abort, course: &[(usize, Op, u64)]) {
    let mut shadow = Shadow::new();
    for at in 0..course.len() {
        let (word, op, found) = course[at];
        assert!(rt; word < 64 && shadow.step(word, op) == found, "step {at}");
    }
}

/// Three CPUs enter in order and hand the front on. The tail is word 0, and the node of a CPU has
/// the words `next`, `prev`, `locked` from 8, 16 and 24 on. Each line has a word, a step on it,
/// and what the step finds there.
#[test]
fn three_enter_and_hand_the_head_on(rt: HostRuntime) {
    let course = [
        // CPU 0 finds the queue empty.
        (10, Op::Store(0), 0),
        (8, Op::Store(0), 0),
        (0, Op::Swap(1), 0),
        // CPU 1 stands behind it, and CPU 2 behind CPU 1.
        (0, Op::Swap(2), 1),
        (17, Op::Store(1), 0),
        (8, Op::Store(2), 0),
        (0, Op::Swap(3), 2),
        (25, Op::Store(2), 0),
        (16, Op::Store(3), 0),
        // CPU 0 unlocks: the tail isn't its code, so it grants CPU 1.
        (18, Op::Load, 0),
        (0, Op::Exchange(1, 0), 3),
        (8, Op::Swap(0), 2),
        (18, Op::Store(1), 0),
        (18, Op::Load, 1),
        // So does CPU 1, and CPU 2 leaves the queue empty.
        (0, Op::Exchange(2, 0), 3),
        (16, Op::Swap(0), 3),
        (26, Op::Store(1), 0),
        (26, Op::Load, 1),
        (0, Op::Exchange(3, 0), 3),
        (0, Op::Load, 0),
    ];
    check_found(&rt, &course);
}

/// CPUs 0 to 3 are queued. 1, 2 and 3 leave while their neighbours leave, and 1 enters again
/// meanwhile. The tail is word 0, and the node of a CPU has the words `next`, `prev`, `locked` from
/// 8, 16, 24 and 32 on. Each line has a word, a step on it, and what the step finds there.
#[test]
fn neighbours_leave_at_once(rt: HostRuntime) {
    let course = [
        // All four enter.
        (0, Op::Swap(1), 0),
        (0, Op::Swap(2), 1),
        (17, Op::Store(1), 0),
        (8, Op::Store(2), 0),
        (0, Op::Swap(3), 2),
        (25, Op::Store(2), 0),
        (16, Op::Store(3), 0),
        (0, Op::Swap(4), 3),
        (33, Op::Store(3), 0),
        (24, Op::Store(4), 0),
        // CPU 1 takes its code back, and so does CPU 2, which leaves.
        (8, Op::Exchange(2, 0), 2),
        (16, Op::Exchange(3, 0), 3),
        (0, Op::Load, 4),
        (24, Op::Swap(0), 4),
        (33, Op::Store(2), 3),
        (16, Op::Store(4), 0),
        // CPU 3 reads its predecessor, which leaves then.
        (33, Op::Load, 2),
        (16, Op::Swap(0), 4),
        (33, Op::Store(1), 2),
        (8, Op::Store(4), 0),
        // CPU 1 enters again, behind CPU 3.
        (18, Op::Store(0), 0),
        (16, Op::Store(0), 0),
        (0, Op::Swap(2), 4),
        (17, Op::Store(4), 1),
        (32, Op::Store(2), 0),
        // CPU 3 doesn't find its code in the `next` of CPU 1, looks anew, and leaves.
        (16, Op::Exchange(4, 0), 0),
        (34, Op::Load, 0),
        (33, Op::Load, 1),
        (8, Op::Exchange(4, 0), 4),
        (0, Op::Load, 2),
        (32, Op::Swap(0), 2),
        (17, Op::Store(1), 4),
        (8, Op::Store(2), 0),
        // CPU 1 stands behind CPU 0, and nobody else.
        (0, Op::Load, 2),
        (8, Op::Load, 2),
        (17, Op::Load, 1),
        (16, Op::Load, 0),
    ];
    check_found(&rt, &course);
}
