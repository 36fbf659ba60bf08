//! Adjacency: the edges of each edge table by the vertices at their ends.
#![tactic(auto)]

mod adj;
mod ends;
mod group;
mod halving;
mod seen;

pub use adj::{Adj, BothEnds, Ends};
pub use ends::EdgeEnds;
pub use group::Group;
pub use halving::{Placed, find};
