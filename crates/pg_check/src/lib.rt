//! Checks queries (ISO/IEC 9075-16:2023, GRAPH_TABLE): why one is refused before it reads the tables, or its checked tree.
#![tactic(auto)]

mod clashes;
mod column_places;
mod columns;
mod conditions;
mod gather;
mod gathered;
mod groups;
mod items;
mod judge;
mod labels;
mod limits;
mod mentions;
mod name_kinds;
mod places;
mod properties;
mod quantifiers;
mod query;
mod resolve;
mod types;
mod uses;
mod variables;
mod verdict;
mod widths;

pub use name_kinds::{ColumnKinds, NameKinds, NoNames};
pub use query::check;
pub use resolve::admitted;
pub use types::wrong_whole;
pub use widths::wide_whole;
