//! Look-ups in the tables of a catalog by their names.
ghost use Rattle.std.specs.Prelude.{◌≡◌, slice_get, is_some};
ghost use Rattle.pg_rules.specs.Catalog.{IsFew, AreSmall};
ghost use Rattle.pg_rules.specs.Catalog.LookUps as spec;
ghost use Rattle.pg_rules.specs.Definitions.Entries.{number_of};

use indexmap::IndexMap;
use pg_rules::{ColumnEntry, TableEntry};
use pg_value::{List, TableNo, Text};

/// Whether a table has a name.
pub fn has_table(tables: &IndexMap<Text, TableEntry>, name: &Text) -> bool
    ensures { result ≡ is_some (spec.table_in tables.now.entries name.now) }
{
    tables.get_index_of(name).is_some()
}

/// The number of the table of a name, and 0 where there is none.
pub fn number_of(tables: &IndexMap<Text, TableEntry>, name: &Text) -> TableNo
    requires { AreSmall tables.now.entries }
    ensures { result ≡ number_of tables.now.entries name.now }
{
    match tables.get_index_of(name) {
        Some(at) => TableNo(at as u32),
        None => TableNo(0),
    }
}

/// The columns of the table at a place, none where there is no such table.
fn columns_at(tables: &IndexMap<Text, TableEntry>, at: usize) -> &[ColumnEntry]
    requires { AreSmall tables.now.entries }
    ensures columns { result.now ≡ spec.columns_in (slice_get tables.now.entries at) }
    ensures few { IsFew result.now }
{
    match tables.get_index(at) {
        Some((_, entry)) => entry.columns.as_slice(),
        None => &[],
    }
}

/// The columns of the table of a name, none where there is no such table.
pub fn columns_named<'a>(tables: &'a IndexMap<Text, TableEntry>, name: &Text) -> &'a [ColumnEntry]
    requires { AreSmall tables.now.entries }
    ensures columns { result.now ≡ spec.columns_named tables.now.entries name.now }
    ensures few { IsFew result.now }
{
    match tables.get_index_of(name) {
        Some(at) => columns_at(tables, at),
        None => &[],
    }
}

/// The places of the key's columns in the table at a place, none where there is no such table.
fn key_at(tables: &IndexMap<Text, TableEntry>, at: usize) -> &[u32]
    ensures { result.now ≡ spec.key_in (slice_get tables.now.entries at) }
{
    match tables.get_index(at) {
        Some((_, entry)) => entry.key.as_slice(),
        None => &[],
    }
}

/// The places of the primary key's columns in the table of a name, none where there is no such table.
pub fn key_named<'a>(tables: &'a IndexMap<Text, TableEntry>, name: &Text) -> &'a [u32]
    ensures { result.now ≡ spec.key_named tables.now.entries name.now }
{
    match tables.get_index_of(name) {
        Some(at) => key_at(tables, at),
        None => &[],
    }
}
