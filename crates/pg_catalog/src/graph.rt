//! CREATE PROPERTY GRAPH: where it is refused, kind by kind, and the entry that it makes; and the look-ups in that entry.
pub mod entry;
pub mod keys;
pub mod kinds_by_name;
pub mod label_agreement;
pub mod label_names;
pub mod limits;
pub mod look_up;
pub mod property_kinds;
pub mod property_names;
pub mod property_rows;
pub mod repeated_names;
pub mod unknown_names;
