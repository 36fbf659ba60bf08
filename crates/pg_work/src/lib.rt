//! Work for each start of a search, in stretches that several threads may take.
#![tactic(auto)]

mod job;
mod starts;
mod stretch;

pub use job::StartJob;
pub use starts::{in_turn, per_start};
