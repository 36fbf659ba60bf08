//! Items of CREATE TABLE, as the rules of the grammar give them.
use crate::{ColumnType, Name};
use pg_value::List;

/// NOT NULL or PRIMARY KEY behind a column.
#[derive(Clone, Copy, PartialEq, Eq)]
pub enum Mark {
    NotNull,
    Primary,
}

/// A column with its marks in text order, or the names of a PRIMARY KEY clause.
#[derive(Drop)]
pub enum Item {
    Column {
        name: Name,
        kind: ColumnType,
        marks: List<Mark>,
    },
    Key {
        names: List<Name>,
    },
}
