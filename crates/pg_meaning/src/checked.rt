//! Checked trees: names stand resolved, variables are numbers, and every rule of kinds, widths and variables is met.
use pg_ast::{Agg, Arrow, BinOp, Mode, Quant, Selector, UnOp};
use pg_value::{ElemId, GraphShape, Kind, List, TableNo, TableSet, Text, Value};
use sqlite_items::Boxed;

/// An expression whose names are resolved.
#[derive(Drop)]
pub enum CExpr {
    Lit(Value),
    /// A column of the table that is changed, by its place.
    Column(u32),
    /// A property of the element that a variable stands for: for each table of the catalog the place of its column, where
    /// that table has the property.
    Property {
        var: u32,
        columns: List<Option<u32>>,
    },
    Unary {
        op: UnOp,
        arg: Boxed<CExpr>,
    },
    Binary {
        op: BinOp,
        left: Boxed<CExpr>,
        right: Boxed<CExpr>,
    },
    Agg {
        agg: Agg,
        arg: Boxed<CExpr>,
    },
    /// COUNT of a variable's elements.
    CountVar {
        var: u32,
    },
}

/// What a node or an edge asks: its variable, the tables that its labels admit, and its own condition.
#[derive(Drop)]
pub struct CFiller {
    pub var: Option<u32>,
    pub tables: TableSet,
    pub cond: Option<CExpr>,
}

/// A part of a path pattern. A group has one more node than it has arrows and edges, in their order of writing.
#[derive(Drop)]
pub enum CPart {
    Node(CFiller),
    Edge {
        arrow: Arrow,
        filler: CFiller,
        quant: Option<Quant>,
    },
    Group {
        nodes: List<CFiller>,
        arrows: List<Arrow>,
        edges: List<CFiller>,
        cond: Option<CExpr>,
        quant: Option<Quant>,
    },
}

/// A path pattern of a query. `vars` has the numbers of its variables in order of first mention in it.
#[derive(Drop)]
pub struct CheckedPath {
    pub graph: GraphShape,
    pub selector: Selector,
    pub mode: Mode,
    pub parts: List<CPart>,
    pub vars: List<u32>,
}

/// An item of COLUMNS. `kind` is None for a bare NULL. `width` bounds a number's size by `2^width`, and is 0 for other
/// kinds.
#[derive(Drop)]
pub struct CheckedColumn {
    pub expr: CExpr,
    pub name: Text,
    pub kind: Option<Kind>,
    pub width: u32,
}

/// A query. Its variables are numbered from 0 in order of first mention, and `vars` is how many there are.
#[derive(Drop)]
pub struct CheckedQuery {
    pub graph: GraphShape,
    pub paths: List<CheckedPath>,
    pub cond: Option<CExpr>,
    pub columns: List<CheckedColumn>,
    pub vars: u32,
}

/// The column of that place becomes the value.
#[derive(Drop)]
pub struct CheckedSet {
    pub column: u32,
    pub value: CExpr,
}

/// A change of a table. The columns of an INSERT are places, one for each value of a tuple.
#[derive(Drop)]
pub enum CheckedChange {
    Insert {
        table: TableNo,
        columns: List<u32>,
        tuples: List<List<CExpr>>,
    },
    Update {
        table: TableNo,
        sets: List<CheckedSet>,
        cond: Option<CExpr>,
    },
    Delete {
        table: TableNo,
        cond: Option<CExpr>,
    },
}

/// What a variable stands for: one element, or the elements of a group variable, one for each round of its part.
#[derive(Drop)]
pub enum Slot {
    One(ElemId),
    Many(List<ElemId>),
}

/// What the variables of a query stand for, by their numbers.
#[derive(Drop)]
pub struct Bound {
    pub vars: List<Slot>,
}

/// A path with what its pattern's variables stand for, in order of first mention. Edge i joins the vertices i and i + 1,
/// in one direction or the other.
#[derive(Drop)]
pub struct PathBinding {
    pub vertices: List<ElemId>,
    pub edges: List<ElemId>,
    pub vars: List<List<ElemId>>,
}
