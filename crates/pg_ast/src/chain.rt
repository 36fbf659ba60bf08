//! The inside of a group, as the rules of the grammar give it.
use crate::{Arrow, Filler};
use pg_value::List;

/// Nodes with edges between them, in their order of writing: one more node than there are arrows and edges.
#[derive(Drop)]
pub struct Chain {
    pub nodes: List<Filler>,
    pub arrows: List<Arrow>,
    pub edges: List<Filler>,
}
