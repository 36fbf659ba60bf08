//! CREATE TABLE: where it is refused, kind by kind, and the entry that it makes; and the look-ups in that entry.
pub mod entry;
pub mod faults;
pub mod look_up;
