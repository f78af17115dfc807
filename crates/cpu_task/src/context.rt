//! What a task's calls are made in.

/// What a task's calls are made in: `rt` lets them wait, the crew wakes those that sleep, and the
/// gate sees those that hold.
#[derive_where(Clone, Copy)]
pub struct Context<'a, R, C, G> {
    pub rt: &'a R,
    pub crew: &'a C,
    pub gate: &'a G,
}
