//! The automaton, which borrows what its path pattern asks.
use pg_ast::Arrow;
use pg_meaning::{CExpr, CFiller};
use pg_value::{GraphShape, List};

/// A leg of a round: an edge, and the node behind it, which may ask nothing.
#[derive(Clone, Copy)]
pub struct Leg<'a> {
    pub arrow: Arrow,
    pub edge: &'a CFiller,
    pub node: Option<&'a CFiller>,
}

/// A part of a path pattern: a node, which may ask nothing, legs, and a condition over what one round of them names. It is
/// repeated at least `low` times, and at most `high` times where there is such a number. `grouped` says that its variables
/// are group variables.
#[derive(Drop)]
pub struct Stage<'a> {
    pub node: Option<&'a CFiller>,
    pub legs: List<Leg<'a>>,
    pub cond: Option<&'a CExpr>,
    pub low: u32,
    pub high: Option<u32>,
    pub grouped: bool,
}

/// A variable of a path pattern, by its number, and whether it is a group variable.
#[derive(Clone, Copy)]
pub struct Variable {
    pub number: u32,
    pub grouped: bool,
}

/// The automaton of a path pattern: the graph over which it is walked, one stage for each part, and its variables in order
/// of first mention.
#[derive(Drop)]
pub struct Auto<'a> {
    pub graph: &'a GraphShape,
    pub stages: List<Stage<'a>>,
    pub vars: List<Variable>,
}
