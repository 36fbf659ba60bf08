//! What evaluation and searches read: the tables of a version, through three calls whose reads are counted.
#![tactic(auto)]

mod ends;
mod laws;
mod lists;
mod rows;
mod sides;
mod view;

pub use laws::lists_are_tables;
pub use lists::Lists;
pub use view::{Neighbour, View};
