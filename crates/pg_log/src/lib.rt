//! The log of commits, and whether a commit since a version wrote what is to be written now.
#![tactic(auto)]

mod changed;
mod log;

pub use log::Log;
