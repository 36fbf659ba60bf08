//! Shapes: the columns and the key of a table, the ends of an edge table, the tables of a graph.
use crate::{Key, Kind, List};

/// A table, by its place among the tables in order of definition, from 0.
#[derive(Clone, Copy)]
pub struct TableNo(pub u32);

/// A graph, by its place among the graphs in order of definition, from 0.
#[derive(Clone, Copy)]
pub struct GraphNo(pub u32);

/// An edge table of a graph, by its place among the edge tables of all graphs in order of definition, from 0.
#[derive(Clone, Copy)]
pub struct EdgeNo(pub u32);

/// A set of tables: bit t stands for table t, of at most 64.
#[derive(Clone, Copy, Debug, PartialEq, Eq)]
pub struct TableSet(pub u64);

/// An element of a graph, a vertex or an edge: the row of this table with this key.
#[derive(Drop)]
pub struct ElemId {
    pub table: TableNo,
    pub key: Key,
}

/// What a column may hold. `max_bytes` is the most bytes of a text, and is of no account for other kinds.
#[derive(Clone, Copy)]
pub struct ColumnShape {
    pub kind: Kind,
    pub not_null: bool,
    pub max_bytes: u32,
}

/// The columns of a table, 1 to 32, and the places among them of its primary key's columns, 1 to 4.
#[derive(Drop)]
pub struct TableShape {
    pub columns: List<ColumnShape>,
    pub key: List<u32>,
}

/// An edge table of a graph: the columns of `table` that name a row of `source` by its key, and those that name one of `dest`.
#[derive(Drop)]
pub struct EdgeShape {
    pub table: TableNo,
    pub source: TableNo,
    pub source_columns: List<u32>,
    pub dest: TableNo,
    pub dest_columns: List<u32>,
}

/// The shapes of all tables, by `TableNo`, and of all edge tables of all graphs, by `EdgeNo`.
#[derive(Drop)]
pub struct Shapes {
    pub tables: List<TableShape>,
    pub edges: List<EdgeShape>,
}

/// A graph: its vertex tables and its edge tables, each in order of definition.
#[derive(Drop)]
pub struct GraphShape {
    pub vertices: List<TableNo>,
    pub edges: List<EdgeNo>,
}
