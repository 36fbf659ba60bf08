//! Patterns and queries as they are written (ISO/IEC 9075-16:2023).
use crate::{Name, Whole};
use pg_value::List;
use sqlite_items::Boxed;

/// Which element tables a node or an edge admits: all (`%`), those with a label, and complement (`!`), intersection (`&`)
/// and union (`|`).
#[derive(Drop)]
pub enum LabelExpr {
    All,
    Is(Name),
    Not(Boxed<LabelExpr>),
    And(Boxed<LabelExpr>, Boxed<LabelExpr>),
    Or(Boxed<LabelExpr>, Boxed<LabelExpr>),
}

/// What stands in a node or an edge: its variable, its labels, its own condition, and the place of its first token.
#[derive(Drop)]
pub struct Filler {
    pub var: Option<Name>,
    pub label: Option<LabelExpr>,
    pub cond: Option<Whole>,
    pub at: u32,
}

/// Which way an edge points: `-[]->`, `<-[]-`, or `-[]-` for either.
#[derive(Clone, Copy)]
pub enum Arrow {
    Right,
    Left,
    Either,
}

/// How often a part is repeated, with the place of its first token. Without `high` there is no upper number. A written
/// number above 2^32 - 1 is kept as 2^32 - 1.
#[derive(Clone, Copy)]
pub struct Quant {
    pub low: u32,
    pub high: Option<u32>,
    pub at: u32,
}

/// A part of a path pattern. A group has one more node than it has arrows and edges, in their order of writing.
#[derive(Drop)]
pub enum Part {
    Node(Filler),
    Edge {
        arrow: Arrow,
        filler: Filler,
        quant: Option<Quant>,
    },
    Group {
        nodes: List<Filler>,
        arrows: List<Arrow>,
        edges: List<Filler>,
        cond: Option<Whole>,
        quant: Option<Quant>,
    },
}

/// Which walks a path pattern allows: every one, those that repeat no edge, those that repeat no vertex, those that
/// repeat no vertex but may end where they begin.
#[derive(Clone, Copy)]
pub enum Mode {
    Walk,
    Trail,
    Acyclic,
    Simple,
}

/// Which of the allowed bindings of a pair of first and last vertex are kept: all, any one, any one of least length, all
/// of least length.
#[derive(Clone, Copy)]
pub enum Selector {
    Every,
    Any,
    AnyShortest,
    AllShortest,
}

/// A path pattern, and the place of its first token.
#[derive(Drop)]
pub struct PathPattern {
    pub selector: Selector,
    pub mode: Mode,
    pub parts: List<Part>,
    pub at: u32,
}

/// An item of COLUMNS. Without AS its name is its property's.
#[derive(Drop)]
pub struct ColumnItem {
    pub expr: Whole,
    pub name: Name,
}

/// `SELECT * FROM GRAPH_TABLE (graph MATCH paths WHERE cond COLUMNS (columns))`.
#[derive(Drop)]
pub struct Query {
    pub graph: Name,
    pub paths: List<PathPattern>,
    pub cond: Option<Whole>,
    pub columns: List<ColumnItem>,
}
