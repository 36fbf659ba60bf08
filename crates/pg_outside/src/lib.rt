//! The program's outside: sources and sinks of bytes, which count their faults; tasks, and who runs them.
#![tactic(auto)]

mod in_turn;
mod memory_sink;
mod memory_source;
mod spawner;
mod streams;
mod tasks;
mod traits;

pub use in_turn::InTurn;
pub use memory_sink::MemSink;
pub use memory_source::MemSource;
pub use spawner::Spawner;
pub use streams::{StdSink, StdSource};
pub use tasks::Task;
pub use traits::{Failed, Sink, Source};
