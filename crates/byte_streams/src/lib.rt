//! Sources and sinks of bytes, and the outbox in which a text waits on its way to a sink.
#![tactic(auto)]

mod memory;
mod outbox;
mod sink;
mod source;
mod stream;

pub use memory::{MemSink, MemSource};
pub use outbox::Outbox;
pub use sink::{Sink, put};
pub use source::{Failed, Source};
pub use stream::{ReadSource, WriteSink};
