//! What running sessions means: stepped runs over the core, and the laws of their transcripts.
#![tactic(auto)]

mod laws;

pub use laws::{
    Language, legal_logs_fit, noted_sections_are_legal, stepped_runs_are_legal,
    stepped_runs_are_one,
};
