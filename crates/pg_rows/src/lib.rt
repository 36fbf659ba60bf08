//! The rows of all tables of a version, in order of their keys, in chunks that versions share.
#![tactic(auto)]

mod arrays;
mod shared;

pub use arrays::RowArrays;
