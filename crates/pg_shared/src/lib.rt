//! Lists of items in order of their keys, kept in chunks that several lists share.
#![tactic(auto)]

mod change;
mod chunks;
mod finish;
mod item;
mod maker;
mod merge;
mod part;
mod search;

pub use change::Change;
pub use chunks::SharedChunks;
pub use item::Copied;
