//! The answer of a checked query over a view.
#![tactic(auto)]

mod answering;
mod elements;
mod endless;
mod job;
mod joining;
mod lists;
mod rows;
mod searching;
mod selecting;
mod slots;
mod starts;

pub use answering::{answer, answer_in_turn};
pub use endless::walks_on;
