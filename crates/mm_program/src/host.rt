//! What a machine runs on.

use std::alloc::Global;

/// What a machine runs on beside its crew: `rt` starts its threads and lets them wait, `alloc`
/// gives memory, and the gate sees the tasks that hold an object.
#[derive_where(Clone, Copy)]
pub(crate) struct Host<'a, R, G> {
    pub(crate) rt: &'a R,
    pub(crate) alloc: Global,
    pub(crate) gate: &'a G,
}
