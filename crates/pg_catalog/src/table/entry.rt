//! The entry of a table from its definition.
ghost use Rattle.std.specs.Prelude.{◌≡◌, IfOk, map};
ghost use Rattle.pg_rules.specs.Definitions.Tables as spec;
ghost use Rattle.pg_rules.specs.Catalog.{IsFew};
ghost use Rattle.pg_rules.specs.Catalog.LookUps as look;

use pg_ast::{ColumnDef, ColumnType, Name, TableDef};
use pg_rules::{ColumnEntry, TableEntry};
use pg_value::{ColumnShape, Kind, List, Text};
use std::alloc::{AllocError, Global};

/// The place of a column among the columns of a table; None exactly where none has the name.
pub fn column_place(columns: &[ColumnEntry], name: &Text) -> Option<u32>
    requires { IsFew columns.now }
    ensures { result ≡ look.column_place columns.now name.now }
{
    let mut at = 0u32;
    for column in columns {
        if *name == column.name {
            return Some(at);
        }
        at += 1;
    }
    None
}

/// The kind of a column's values.
fn kind_of(kind: ColumnType) -> Kind
    ensures { result ≡ spec.kind_of kind }
{
    match kind {
        ColumnType::Integer => Kind::Int,
        ColumnType::Boolean => Kind::Bool,
        ColumnType::Varchar { .. } => Kind::Text,
    }
}

/// The most bytes of a column's texts, 0 where it holds none.
fn bytes_of(kind: ColumnType) -> u32
    ensures { result ≡ spec.bytes_of kind }
{
    match kind {
        ColumnType::Integer | ColumnType::Boolean => 0,
        ColumnType::Varchar { bytes, .. } => bytes,
    }
}

/// Whether a text is one of some names.
fn is_named(names: &[Name], text: &Text) -> bool
    ensures { result ≡ spec.is_named names.now text.now }
{
    for name in names {
        if name.text == *text {
            return true;
        }
    }
    false
}

/// The entry of a column, which is NOT NULL where it is written so or stands in the key.
fn column_of(alloc: Global, key: &[Name], column: &ColumnDef) -> Result<ColumnEntry, AllocError>
    ensures { IfOk result (λ c. c ≡ spec.column_of key.now column.now) }
{
    let name = column.name.text.copy(alloc)?;
    let shape = ColumnShape {
        kind: kind_of(column.kind),
        not_null: column.not_null || is_named(key, &column.name.text),
        max_bytes: bytes_of(column.kind),
    };
    Ok(ColumnEntry { name, shape })
}

/// The entries of some columns.
fn columns_of(
    alloc: Global,
    key: &[Name],
    columns: &[ColumnDef],
) -> Result<List<ColumnEntry>, AllocError>
    ensures { IfOk result (λ cs. cs ≡ map (spec.column_of key.now) columns.now) }
{
    let mut out = List::new(alloc);
    for column in columns {
        out.push(column_of(alloc, key, column)?)?;
    }
    Ok(out)
}

/// The places of some names among the columns, 0 for one that is none.
pub fn places_of(
    alloc: Global,
    columns: &[ColumnEntry],
    key: &[Name],
) -> Result<List<u32>, AllocError>
    requires { IsFew columns.now }
    ensures { IfOk result (λ ps. ps ≡ map (spec.place_of columns.now) key.now) }
{
    let mut out = List::new(alloc);
    for name in key {
        out.push(column_place(columns, &name.text).unwrap_or(0))?;
    }
    Ok(out)
}

/// The columns of the first primary key clause.
fn key_of(keys: &[List<Name>]) -> &[Name]
    ensures { result.now ≡ spec.key_of keys.now }
{
    match keys {
        [] => &[],
        [key, ..] => key.as_slice(),
    }
}

/// The entry of a table.
pub fn entry_of(alloc: Global, table: &TableDef) -> Result<TableEntry, AllocError>
    requires { spec.IsFewColumns table.now }
    ensures { IfOk result (λ e. e ≡ spec.entry_of table.now) }
{
    let key = key_of(table.keys.as_slice());
    let columns = columns_of(alloc, key, table.columns.as_slice())?;
    let places = places_of(alloc, columns.as_slice(), key)?;
    Ok(TableEntry {
        columns,
        key: places,
    })
}
