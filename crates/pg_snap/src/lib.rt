//! Snapshots: a base under the runs of the versions behind it and under a transaction's own writes, read as one.
#![tactic(auto)]

mod base;
mod changes;
mod ends;
mod fold;
mod join;
mod kept;
mod laws;
mod newest;
mod reached;
mod scan;
mod sides;
mod snapshot;
mod vertex;
mod vertices;
mod view;

pub use base::Base;
pub use join::folded;
pub use kept::snapshot_of;
pub use laws::snapshots_are_versions;
pub use scan::{Held, Scan};
pub use snapshot::{SnapBuf, Snapshot};
pub use vertex::Side;
