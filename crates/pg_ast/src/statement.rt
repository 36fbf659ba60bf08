//! Changes and statements as they are written.
use crate::{Define, Name, Query, Whole};
use pg_value::List;

/// A tuple of VALUES, and the place of its `(`.
#[derive(Drop)]
pub struct InsertTuple {
    pub values: List<Whole>,
    pub at: u32,
}

/// INSERT. Without a list of columns, all of the table's columns are meant, in their order.
#[derive(Drop)]
pub struct Insert {
    pub table: Name,
    pub columns: Option<List<Name>>,
    pub tuples: List<InsertTuple>,
}

#[derive(Drop)]
pub struct SetItem {
    pub column: Name,
    pub value: Whole,
}

#[derive(Drop)]
pub struct Update {
    pub table: Name,
    pub sets: List<SetItem>,
    pub cond: Option<Whole>,
}

#[derive(Drop)]
pub struct Delete {
    pub table: Name,
    pub cond: Option<Whole>,
}

#[derive(Drop)]
pub enum Statement {
    Define(Define),
    Insert(Insert),
    Update(Update),
    Delete(Delete),
    Begin,
    Commit,
    Rollback,
    Query(Query),
}
