//! A script from its bytes, and a run's transcript: their types, the transcript's text, and which transcripts are legal.
#![tactic(auto)]

mod after;
mod draft;
mod draws;
mod fault;
mod generated;
mod header;
mod items;
mod laws;
mod layout;
mod lines;
mod outcome;
mod parts;
mod printing;
mod script;
mod splitting;
mod statements;
mod totals;
mod transcript;
mod turns;

pub use fault::{ScriptFault, ScriptKind};
pub use generated::generate;
pub use laws::{one_answer, scripts_are_whole, waits_are_earlier};
pub use outcome::{ColumnFault, FaultKind, Outcome};
pub use printing::print;
pub use script::{Item, Script, Section};
pub use splitting::split;
pub use totals::summary;
pub use transcript::{SectionOut, Transcript};
