//! A script of tasks and their calls: what one is, and how its text is read and written.
#![tactic(auto)]

mod cut;
mod draft;
mod generator;
mod laws;
mod links;
mod reader;
mod reason;
mod script;
mod text;
mod token;
mod verb;
mod version;
mod writer;

pub use byte_streams::{Failed, MemSink, MemSource, ReadSource, Sink, Source, WriteSink};
pub use generator::generate;
pub use laws::padding_is_passed_over;
pub use reader::{ScriptError, read};
pub use reason::Reason;
pub use script::{Line, Script};
pub use text::{add_call, add_declaration, add_prot};
pub use token::number_of;
pub use version::MAX_OBJECTS;
pub use writer::{write, write_declaration};
