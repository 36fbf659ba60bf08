//! Definitions of tables and of property graphs as they are written.
use crate::Name;
use pg_value::List;

/// A column's type. VARCHAR has the most bytes that it holds, with the place of that number, or 255 and the place of its
/// word; a written number above 2^32 - 1 is kept as 2^32 - 1.
#[derive(Clone, Copy)]
pub enum ColumnType {
    Integer,
    Boolean,
    Varchar { bytes: u32, at: u32 },
}

#[derive(Drop)]
pub struct ColumnDef {
    pub name: Name,
    pub kind: ColumnType,
    pub not_null: bool,
}

/// CREATE TABLE. `keys` has the columns of each PRIMARY KEY clause in text order; a clause at a column has that column's
/// name alone. `at` is the place of the statement's first token.
#[derive(Drop)]
pub struct TableDef {
    pub name: Name,
    pub columns: List<ColumnDef>,
    pub keys: List<List<Name>>,
    pub at: u32,
}

/// A property: its column, and its name, which is the column's where there is no AS.
#[derive(Drop)]
pub struct PropDef {
    pub column: Name,
    pub name: Name,
}

/// The properties of a label: all columns, also where no clause is written, or those that are listed. NO PROPERTIES is an
/// empty list.
#[derive(Drop)]
pub enum Props {
    All,
    Listed(List<PropDef>),
}

/// A label, and the place of its first token. DEFAULT LABEL has the table's name, at the place of its word DEFAULT.
#[derive(Drop)]
pub struct LabelDef {
    pub name: Name,
    pub props: Props,
    pub at: u32,
}

/// The labels of an element table: its own name alone, or those that are written.
#[derive(Drop)]
pub enum Labels {
    Own(Props),
    Given(List<LabelDef>),
}

#[derive(Drop)]
pub struct VertexDef {
    pub table: Name,
    pub key: Option<List<Name>>,
    pub labels: Labels,
}

/// SOURCE KEY or DESTINATION KEY: these columns of the edge table name a row of `table` by its columns `target`.
#[derive(Drop)]
pub struct EndDef {
    pub columns: List<Name>,
    pub table: Name,
    pub target: List<Name>,
}

#[derive(Drop)]
pub struct EdgeDef {
    pub table: Name,
    pub key: Option<List<Name>>,
    pub source: EndDef,
    pub dest: EndDef,
    pub labels: Labels,
}

/// CREATE PROPERTY GRAPH (ISO/IEC 9075-16:2023). `at` is the place of the statement's first token.
#[derive(Drop)]
pub struct GraphDef {
    pub name: Name,
    pub vertices: List<VertexDef>,
    pub edges: List<EdgeDef>,
    pub at: u32,
}

#[derive(Drop)]
pub enum Define {
    Table(TableDef),
    Graph(GraphDef),
}
