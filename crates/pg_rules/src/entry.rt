//! What a catalog holds of a table and of a graph.
use pg_value::{ColumnShape, Kind, List, TableNo, Text};

/// A column, by its name.
#[derive(Drop)]
pub struct ColumnEntry {
    pub name: Text,
    pub shape: ColumnShape,
}

/// The columns of a table, and the places among them of its primary key's columns.
#[derive(Drop)]
pub struct TableEntry {
    pub columns: List<ColumnEntry>,
    pub key: List<u32>,
}

/// A property of a label: the place of its column in the table, and the column's kind.
#[derive(Drop)]
pub struct PropertyEntry {
    pub name: Text,
    pub column: u32,
    pub kind: Kind,
}

#[derive(Drop)]
pub struct LabelEntry {
    pub name: Text,
    pub properties: List<PropertyEntry>,
}

/// A table as the vertices or the edges of a graph.
#[derive(Drop)]
pub struct ElementEntry {
    pub table: TableNo,
    pub labels: List<LabelEntry>,
}

/// An edge table: the places of its columns that name a row of `source` by its key, and of those that name one of `dest`.
#[derive(Drop)]
pub struct EdgeEntry {
    pub element: ElementEntry,
    pub source: TableNo,
    pub source_columns: List<u32>,
    pub dest: TableNo,
    pub dest_columns: List<u32>,
}

/// The vertex tables and the edge tables of a graph, each in order of definition.
#[derive(Drop)]
pub struct GraphEntry {
    pub vertices: List<ElementEntry>,
    pub edges: List<EdgeEntry>,
}

/// An element table of a definition as it would be defined, and the place of its name.
#[derive(Drop)]
pub struct PlacedElement {
    pub at: u32,
    pub element: ElementEntry,
}
