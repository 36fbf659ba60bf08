//! Expressions with a count, as the rules of the grammar give them.
use crate::{Agg, BinOp, Expr, LabelExpr, Whole};

/// A label expression, and how many more operators may stand behind it.
#[derive(Drop)]
pub struct CountedLabel {
    pub label: LabelExpr,
    pub left: u8,
}

/// Where an expression stands, which says what it may refer to.
#[derive(Clone, Copy)]
pub enum Scope {
    /// INSERT: to nothing, and no aggregate stands.
    Insert,
    /// UPDATE and DELETE: to columns, each by its name. No aggregate stands.
    Change,
    /// A query: to properties of variables. Aggregates stand.
    Query,
}

/// An operator between two operands, and its place.
#[derive(Clone, Copy)]
pub struct Operator {
    pub op: BinOp,
    pub at: u32,
}

/// An aggregate's word, and its place.
#[derive(Clone, Copy)]
pub struct AggWord {
    pub agg: Agg,
    pub at: u32,
}

/// An expression, and how many more operators may stand behind it. It is plain where it is a variable's property with
/// no parentheses around it: `name . name` and nothing else.
#[derive(Drop)]
pub struct CountedExpr {
    pub expr: Expr,
    pub left: u8,
    pub plain: bool,
}

/// An expression that stands in no other, and whether it is plain.
#[derive(Drop)]
pub struct CountedWhole {
    pub whole: Whole,
    pub plain: bool,
}
