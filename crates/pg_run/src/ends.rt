//! The ends that the rows of edge tables name.
ghost use Rattle.std.specs.Prelude.{◌≡◌, [], ◌++◌, map, slice_index_or, IfOk, OnOk};
ghost use Rattle.std.specs.List.{cons_option, filter_map};
ghost use Rattle.pg_value.specs.declared.value.Value.TheVariants.{Null};
ghost use Rattle.pg_value.specs.Compare as compare;
ghost use Rattle.pg_value.specs.Tables.{pick};
ghost use Rattle.pg_view.specs.RowEnds as spec;
ghost use Rattle.pg_run.specs.Runs.{ends_given};
ghost use Rattle.pg_run.specs.Cuts as cuts;
ghost use Rattle.pg_run.specs.Cuts.{AreCut, AreEnds, joined};

use crate::cut::writes_of;
use pg_adj::{Adj, EdgeEnds};
use pg_value::{EdgeShape, Key, List, Row, Value, Write, copy_key, copy_value};
use std::alloc::{AllocError, Global};

/// Whether a column holds NULL; one that is missing does.
fn is_null_at(values: &[Value], column: u32) -> bool
    ensures { result ≡ compare.is_null (slice_index_or values.now column Null) }
{
    match values.get(column as usize) {
        Some(value) => matches!(value, Value::Null),
        None => true,
    }
}

/// Whether none of some columns holds NULL.
fn has_key(columns: &[u32], values: &[Value]) -> bool
    ensures { result ≡ spec.has_key columns.now values.now }
{
    for column in columns {
        if is_null_at(values, *column) {
            return false;
        }
    }
    true
}

/// A copy of the value in a column, NULL where it is missing.
fn copy_at(alloc: Global, values: &[Value], column: u32) -> Result<Value, AllocError>
    ensures { IfOk result (λ v. v ≡ slice_index_or values.now column Null) }
{
    match values.get(column as usize) {
        Some(value) => copy_value(alloc, value),
        None => Ok(Value::Null),
    }
}

/// Copies of the values in some columns.
fn picked(alloc: Global, columns: &[u32], values: &[Value]) -> Result<List<Value>, AllocError>
    ensures { IfOk result (λ picked. picked ≡ pick columns.now values.now) }
{
    let mut picked = List::new(alloc);
    for column in columns {
        picked.push(copy_at(alloc, values, *column)?)?;
    }
    Ok(picked)
}

/// The key that is the values in some columns; None where one of them is NULL.
fn key_in(alloc: Global, columns: &[u32], values: &[Value]) -> Result<Option<Key>, AllocError>
    ensures { IfOk result (λ key. key ≡ spec.key_in columns.now values.now) }
{
    if !has_key(columns, values) {
        return Ok(None);
    }
    Ok(Some(Key::new(picked(alloc, columns, values)?)))
}

/// The key of a row of an edge table with the keys that the row names as its ends; None where one of them has a NULL. Only
/// want of memory refuses it.
pub fn row_ends(
    alloc: Global,
    shape: &EdgeShape,
    key: &Key,
    row: &Row,
) -> Result<Option<EdgeEnds>, AllocError>
    ensures { IfOk result (λ ends. ends ≡ spec.ends_in shape.now (record { table = shape.now.table; key = key.now; row = row.now })) }
{
    let values = row.values.as_slice();
    let Some(source) = key_in(alloc, shape.source_columns.as_slice(), values)? else {
        return Ok(None);
    };
    let Some(dest) = key_in(alloc, shape.dest_columns.as_slice(), values)? else {
        return Ok(None);
    };
    Ok(Some(EdgeEnds {
        edge: copy_key(alloc, key)?,
        source,
        dest,
    }))
}

/// The same of the row that a write gives, if it gives one.
fn write_ends(
    alloc: Global,
    shape: &EdgeShape,
    write: &Write,
) -> Result<Option<EdgeEnds>, AllocError>
    ensures { IfOk result (λ ends. ends ≡ cuts.write_ends shape.now write.now) }
{
    match &write.row {
        Some(row) => row_ends(alloc, shape, &write.key, row),
        None => Ok(None),
    }
}

/// Appends the ends of a row, where it names them.
fn push_some(all: &mut List<EdgeEnds>, ends: Option<EdgeEnds>) -> Result<(), AllocError>
    ensures { OnOk result (all.new ≡ all.old ++ cons_option ends []) }
{
    if let Some(ends) = ends {
        all.push(ends)?;
    }
    Ok(())
}

/// The rows that writes to an edge table give and that name both ends, in order.
fn all_write_ends(
    alloc: Global,
    shape: &EdgeShape,
    writes: &[Write],
) -> Result<List<EdgeEnds>, AllocError>
    ensures { IfOk result (λ all. all ≡ filter_map (cuts.write_ends shape.now) writes.now) }
{
    let mut all = List::new(alloc);
    for write in writes {
        let ends = write_ends(alloc, shape, write)?;
        push_some(&mut all, ends)?;
    }
    Ok(all)
}

/// The same of one edge table, where there is one list of writes for each table.
fn table_ends(
    alloc: Global,
    shape: &EdgeShape,
    lists: &[List<Write>],
) -> Result<List<EdgeEnds>, AllocError>
    requires { AreCut 0 lists.now }
    ensures { IfOk result (λ all. all ≡ ends_given shape.now (joined lists.now)) }
{
    all_write_ends(alloc, shape, writes_of(lists, shape.table.0 as usize))
}

/// The same of all edge tables.
fn all_ends(
    alloc: Global,
    shapes: &[EdgeShape],
    lists: &[List<Write>],
) -> Result<List<List<EdgeEnds>>, AllocError>
    requires { AreCut 0 lists.now }
    ensures { IfOk result (λ all. all ≡ map (λ shape. ends_given shape (joined lists.now)) shapes.now) }
{
    let mut all = List::with_room(alloc, shapes.len())?;
    for shape in shapes {
        all.push(table_ends(alloc, shape, lists)?)?;
    }
    Ok(all)
}

/// The edges that writes give, by their ends, where there is one list of writes for each table.
pub fn ends_of(
    alloc: Global,
    shapes: &[EdgeShape],
    lists: &[List<Write>],
) -> Result<Adj, AllocError>
    requires { AreCut 0 lists.now }
    ensures { IfOk result (AreEnds shapes.now (joined lists.now)) }
{
    Adj::build(alloc, all_ends(alloc, shapes, lists)?)
}
