//! What a catalog holds, and the rules: which definitions, changes and queries are refused and where, the checked tree of
//! each that is not, and the effect of a change.
#![tactic(auto)]

mod entry;
mod fault;
mod laws;
mod places;
mod sound;

pub use entry::{
    ColumnEntry, EdgeEntry, ElementEntry, GraphEntry, LabelEntry, PlacedElement, PropertyEntry,
    TableEntry,
};
pub use fault::{DefineFault, QueryFault, ResolveFault, RowFault};
pub use laws::{
    accepted_changes_are_sound, accepted_queries, accepted_queries_are_sound,
    accepted_tables_are_full, checked_queries, inserts_as_changes, resolved_expressions,
    sound_shapes, table_sets, written_statements,
};
pub use places::{place_if, sooner};
pub use sound::sound_definitions;
