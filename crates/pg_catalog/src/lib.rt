//! The tables and property graphs that are defined: which definitions are refused, and where, and what names stand for.
#![tactic(auto)]

mod catalog;
mod graph;
mod name_set;
mod shapes;
mod table;

pub use catalog::Catalog;
pub use graph::keys::kind_at;
pub use graph::kinds_by_name::PropertyKinds;
pub use name_set::{NameSet, Named, repeated_name};
pub use table::entry::column_place;
