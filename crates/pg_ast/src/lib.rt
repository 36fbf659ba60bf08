//! The trees of statements as they are written, and the grammar that says which tokens are which tree.
#![tactic(auto)]

mod chain;
mod counted;
mod define;
mod expr;
mod item;
mod pattern;
mod statement;

pub use chain::Chain;
pub use counted::{AggWord, CountedExpr, CountedLabel, CountedWhole, Operator, Scope};
pub use define::{
    ColumnDef, ColumnType, Define, EdgeDef, EndDef, GraphDef, LabelDef, Labels, PropDef, Props,
    TableDef, VertexDef,
};
pub use expr::{Agg, BinOp, Expr, Name, UnOp, Whole};
pub use item::{Item, Mark};
pub use pattern::{
    Arrow, ColumnItem, Filler, LabelExpr, Mode, Part, PathPattern, Quant, Query, Selector,
};
pub use statement::{Delete, Insert, InsertTuple, SetItem, Statement, Update};
