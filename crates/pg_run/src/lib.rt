//! Runs: the writes of versions that follow one another, as one list, in which the last write of a key and the edges at a
//! vertex are found.
#![tactic(auto)]

mod cut;
mod ends;
mod find;
mod kept;
mod laws;
mod merge;
mod run;

pub use ends::row_ends;
pub use laws::merge_is_put_after_put;
pub use run::{Found, Run};
