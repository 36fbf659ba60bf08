//! What statements see of the store: a version of the log, as a pin hands it out, under a transaction's own writes, as a view and
//! as the tables that a change reads.
#![tactic(auto)]

mod tables;
mod view;

pub use tables::SnapshotRows;
pub use view::seen;
