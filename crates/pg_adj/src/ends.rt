//! Edges with their ends.
use pg_value::Key;

/// An edge by its key, with the keys of its source and of its destination.
#[derive(Drop)]
pub struct EdgeEnds {
    pub edge: Key,
    pub source: Key,
    pub dest: Key,
}
