//! The first place of each kind of fault in the definition of a table.
ghost use Rattle.std.specs.Prelude.{◌≡◌, IfOk};
ghost use Rattle.std.specs.List.{flat_map};
ghost use Rattle.pg_rules.specs.Definitions.Tables as spec;
ghost use Rattle.pg_rules.specs.Places.{least};

use crate::name_set::{NameSet, names_of, repeated_in_lists, repeated_name};
use pg_ast::{ColumnDef, ColumnType, Name, TableDef};
use pg_rules::{place_if, sooner};
use pg_value::List;
use std::alloc::{AllocError, Global};

/// A name that is taken, where the table's own is or is not.
#[tactic(auto, using(pg_rules::specs::Places::least_append))]
pub fn name_taken(
    alloc: Global,
    is_defined: bool,
    table: &TableDef,
) -> Result<Option<u32>, AllocError>
    ensures { IfOk result (λ r. r ≡ least (spec.name_taken is_defined table.now)) }
{
    let own = place_if(is_defined, table.name.at);
    let columns = repeated_name(alloc, table.columns.as_slice())?;
    let keys = repeated_in_lists(alloc, table.keys.as_slice())?;
    Ok(sooner(own, sooner(columns, keys)))
}

/// The first of some names that is not known.
#[tactic(auto, using(pg_rules::specs::Places::least_found, pg_rules::specs::Places::sooner_none))]
fn unknown(known: &NameSet<'_>, names: &[Name]) -> Option<u32>
    ensures { result ≡ least (spec.unknown known.now names.now) }
{
    let mut found = None;
    for name in names {
        found = sooner(found, place_if(!known.has(&name.text), name.at));
    }
    found
}

/// The first name in some lists that is not known.
#[tactic(auto, using(pg_rules::specs::Places::least_found, pg_rules::specs::Places::sooner_none))]
fn unknown_in(known: &NameSet<'_>, keys: &[List<Name>]) -> Option<u32>
    ensures { result ≡ least (flat_map (spec.unknown known.now) keys.now) }
{
    let mut found = None;
    for key in keys {
        found = sooner(found, unknown(known, key.as_slice()));
    }
    found
}

/// The first name in a key that is no column.
#[tactic(auto, using(crate::proofs::NameSets::unknown_all))]
pub fn no_column(alloc: Global, table: &TableDef) -> Result<Option<u32>, AllocError>
    ensures { IfOk result (λ r. r ≡ least (spec.no_column table.now)) }
{
    let known = names_of(alloc, table.columns.as_slice())?;
    Ok(unknown_in(&known, table.keys.as_slice()))
}

/// A table that has not one primary key clause.
pub fn key_mismatch(table: &TableDef) -> Option<u32>
    ensures { result ≡ least (spec.key_mismatch table.now) }
{
    place_if(table.keys.len() != 1, table.name.at)
}

/// The fifth name of a key.
fn key_beyond(key: &[Name]) -> Option<u32>
    ensures { result ≡ least (spec.beyond 4 key.now) }
{
    match key.get(4) {
        Some(name) => Some(name.at),
        None => None,
    }
}

/// The 33rd column.
fn column_beyond(columns: &[ColumnDef]) -> Option<u32>
    ensures { result ≡ least (spec.beyond 32 (spec.names columns.now)) }
{
    match columns.get(32) {
        Some(column) => Some(column.name.at),
        None => None,
    }
}

/// A length of text outside 1 to 255.
fn too_long(kind: ColumnType) -> Option<u32>
    ensures { result ≡ least (spec.too_long kind) }
{
    match kind {
        ColumnType::Integer | ColumnType::Boolean => None,
        ColumnType::Varchar { bytes, at } => place_if(bytes == 0 || bytes > 255, at),
    }
}

/// The first length of text outside 1 to 255.
#[tactic(auto, using(pg_rules::specs::Places::least_found, pg_rules::specs::Places::sooner_none))]
fn too_long_columns(columns: &[ColumnDef]) -> Option<u32>
    ensures { result ≡ least (flat_map spec.too_long_column columns.now) }
{
    let mut found = None;
    for column in columns {
        found = sooner(found, too_long(column.kind));
    }
    found
}

/// The first fifth name of a key.
#[tactic(auto, using(pg_rules::specs::Places::least_found, pg_rules::specs::Places::sooner_none))]
fn keys_beyond(keys: &[List<Name>]) -> Option<u32>
    ensures { result ≡ least (flat_map (spec.beyond 4) keys.now) }
{
    let mut found = None;
    for key in keys {
        found = sooner(found, key_beyond(key.as_slice()));
    }
    found
}

/// The first thing beyond a limit, where there is room for a table or not.
#[tactic(auto, using(pg_rules::specs::Places::least_append))]
pub fn limit(is_full: bool, table: &TableDef) -> Option<u32>
    ensures { result ≡ least (spec.limit is_full table.now) }
{
    let own = place_if(is_full, table.at);
    let columns = column_beyond(table.columns.as_slice());
    let keys = keys_beyond(table.keys.as_slice());
    let lengths = too_long_columns(table.columns.as_slice());
    sooner(own, sooner(columns, sooner(keys, lengths)))
}
