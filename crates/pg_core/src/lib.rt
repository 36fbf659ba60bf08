//! The core that sessions share: the log, the bases that are kept and pinned, and the events that change them.
#![tactic(auto)]

mod base;
mod carry;
mod event;
mod events;
mod fault;
mod fits;
mod parts;
mod state;
mod versions;

pub use base::{Base, Run};
pub use event::{Build, Event, Reply};
pub use events::replay;
pub use fault::{CommitFault, Marked};
pub use parts::{Begin, Job, Parts, Pinned, Stale};
pub use state::State;
