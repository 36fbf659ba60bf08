//! The ends that the rows of an edge table name.
ghost use Rattle.std.specs.Prelude.{◌≡◌, [], ◌++◌, slice_index_or, IfOk, OnOk};
ghost use Rattle.std.specs.List.{cons_option};
ghost use Rattle.pg_value.specs.declared.value.Value.TheVariants.{Null};
ghost use Rattle.pg_value.specs.Compare as compare;
ghost use Rattle.pg_value.specs.Tables.{pick};
ghost use Rattle.pg_adj.specs.Groups.{AreGroups};
ghost use Rattle.pg_view.specs.Lists.{rows_in};
ghost use Rattle.pg_view.specs.RowEnds as spec;

use crate::rows::rows_in;
use pg_adj::{EdgeEnds, Ends};
use pg_chunks::Chunks;
use pg_value::{Dir, EdgeShape, Key, List, Stored, Value, copy_key, copy_value};
use std::alloc::{AllocError, Global};

/// Whether a column holds NULL; one that is missing does.
fn is_null_at(values: &[Value], column: u32) -> bool
    ensures { result ≡ compare.is_null (slice_index_or values.now column Null) }
{
    match values.get(column as usize) {
        Some(value) => matches!(value, Value::Null),
        None => true,
    }
}

/// Whether none of some columns holds NULL.
fn has_key(columns: &[u32], values: &[Value]) -> bool
    ensures { result ≡ spec.has_key columns.now values.now }
{
    for column in columns {
        if is_null_at(values, *column) {
            return false;
        }
    }
    true
}

/// A copy of the value in a column, NULL where it is missing.
fn copy_at(alloc: Global, values: &[Value], column: u32) -> Result<Value, AllocError>
    ensures { IfOk result (λ v. v ≡ slice_index_or values.now column Null) }
{
    match values.get(column as usize) {
        Some(value) => copy_value(alloc, value),
        None => Ok(Value::Null),
    }
}

/// Copies of the values in some columns.
fn picked(alloc: Global, columns: &[u32], values: &[Value]) -> Result<List<Value>, AllocError>
    ensures { IfOk result (λ picked. picked ≡ pick columns.now values.now) }
{
    let mut picked = List::new(alloc);
    for column in columns {
        picked.push(copy_at(alloc, values, *column)?)?;
    }
    Ok(picked)
}

/// The key that is the values in some columns; None where one of them is NULL.
fn key_in(alloc: Global, columns: &[u32], values: &[Value]) -> Result<Option<Key>, AllocError>
    ensures { IfOk result (λ key. key ≡ spec.key_in columns.now values.now) }
{
    if !has_key(columns, values) {
        return Ok(None);
    }
    Ok(Some(Key::new(picked(alloc, columns, values)?)))
}

/// A row of an edge table with the keys that it names; None where one of them has a NULL.
fn ends_in(
    alloc: Global,
    shape: &EdgeShape,
    stored: &Stored,
) -> Result<Option<EdgeEnds>, AllocError>
    ensures { IfOk result (λ ends. ends ≡ spec.ends_in shape.now stored.now) }
{
    let values = stored.row.values.as_slice();
    let Some(source) = key_in(alloc, shape.source_columns.as_slice(), values)? else {
        return Ok(None);
    };
    let Some(dest) = key_in(alloc, shape.dest_columns.as_slice(), values)? else {
        return Ok(None);
    };
    Ok(Some(EdgeEnds {
        edge: copy_key(alloc, &stored.key)?,
        source,
        dest,
    }))
}

/// Appends the ends of a row, where it names them.
fn push_some(all: &mut Vec<EdgeEnds>, ends: Option<EdgeEnds>) -> Result<(), AllocError>
    ensures { OnOk result (all.new.items ≡ all.old.items ++ cons_option ends []) }
{
    if let Some(ends) = ends {
        all.push(ends)?;
    }
    Ok(())
}

/// Appends the ends that some rows of an edge table name, in order. After want of memory some of them are appended.
fn push_ends(
    alloc: Global,
    shape: &EdgeShape,
    rows: &[Stored],
    all: &mut Vec<EdgeEnds>,
) -> Result<(), AllocError>
    ensures { OnOk result (all.new.items ≡ all.old.items ++ spec.all_ends shape.now rows.now) }
{
    for stored in rows {
        let ends = ends_in(alloc, shape, stored)?;
        push_some(all, ends)?;
    }
    Ok(())
}

/// The rows of an edge table that name both ends, in order. They are read chunk by chunk.
fn ends_among(
    alloc: Global,
    shape: &EdgeShape,
    rows: &Chunks<Stored>,
) -> Result<Vec<EdgeEnds>, AllocError>
    ensures { IfOk result (λ all. all.items ≡ spec.all_ends shape.now rows.now) }
{
    let mut all = Vec::new(alloc);
    let mut at = 0;
    'runs: while at < rows.len() {
        let run = rows.run(at);
        match push_ends(alloc, shape, run, &mut all) {
            Ok(()) => at += run.len(),
            Err(failed) => return Err(failed),
        }
    }
    Ok(all)
}

/// The same, of the rows in the list of the edge table.
fn all_ends(
    alloc: Global,
    shape: &EdgeShape,
    lists: &[Chunks<Stored>],
) -> Result<Vec<EdgeEnds>, AllocError>
    ensures { IfOk result (λ all. all.items ≡ spec.all_ends shape.now (rows_in lists.now shape.now.table)) }
{
    match rows_in(lists, shape.table) {
        Some(rows) => ends_among(alloc, shape, rows),
        None => Ok(Vec::new(alloc)),
    }
}

/// The rows of an edge table by the vertices that they name at that end, where there is one list of rows for each table.
pub fn ends_of(
    alloc: Global,
    shape: &EdgeShape,
    lists: &[Chunks<Stored>],
    dir: Dir,
) -> Result<Ends, AllocError>
    ensures { IfOk result (AreGroups dir (spec.all_ends shape.now (rows_in lists.now shape.now.table))) }
{
    let all = all_ends(alloc, shape, lists)?;
    Ends::build(alloc, all.as_slice(), dir)
}
