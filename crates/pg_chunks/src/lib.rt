//! Lists of items in order of their keys, kept in chunks, and the count of steps that searches in them take.
#![tactic(auto)]

mod chunks;
mod keyed;
mod last;
mod part;
mod parts;
mod search;
mod steps;

pub use chunks::Chunks;
pub use keyed::{Keyed, Probe};
pub use parts::Parts;
pub use steps::Steps;
