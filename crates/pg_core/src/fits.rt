//! Whether writes fit the shapes of their tables.
ghost use Rattle.std.specs.Prelude.{◌≡◌, ◌≤ℤ◌, pos, negsuc, length, slice_index_or};
ghost use Rattle.std.specs.List.{AllZip};
ghost use Rattle.pg_value.specs.declared.value.Value.TheVariants.{Null};
ghost use Rattle.pg_value.specs.Tables.{FitWrites, FitsBoth, FitsColumn, FitsKey, FitsKeyColumn, FitsRow, FitsWrite, IsOfKind, pick};
ghost use Rattle.pg_core.specs.State.{Tells};

use pg_value::{
    ColumnShape, Key, Kind, Row, Shapes, TableShape, Value, Write, Writes, order_values, same_kind,
};
use std::cmp::Ordering;

/// The least and the greatest INTEGER.
const LEAST: i128 = -2147483648;

const GREATEST: i128 = 2147483647;

/// Whether a number is an INTEGER.
fn is_integer(number: i128) -> bool
    ensures { Tells result ((negsuc 2147483647 ≤ℤ number) × (number ≤ℤ pos 2147483647)) }
{
    LEAST <= number && number <= GREATEST
}

/// Whether a value may stand in a column.
fn fits_column(column: &ColumnShape, value: &Value) -> bool
    ensures { Tells result (FitsColumn column.now value.now) }
{
    match value {
        Value::Null => !column.not_null,
        Value::Int(number) => same_kind(column.kind, Kind::Int) && is_integer(number.get()),
        Value::Text(text) => {
            same_kind(column.kind, Kind::Text) && text.len() <= column.max_bytes as usize
        }
        Value::Bool(_) => same_kind(column.kind, Kind::Bool),
    }
}

/// Whether there is one value for each column, each of which may stand there.
fn fit_columns(columns: &[ColumnShape], values: &[Value]) -> bool
    ensures { Tells result (AllZip FitsColumn columns.now values.now) }
{
    match columns {
        [] => values.is_empty(),
        [column, columns @ ..] => match values {
            [] => false,
            [value, values @ ..] => fits_column(column, value) && fit_columns(columns, values),
        },
    }
}

/// Whether a value is of a kind, and not NULL.
fn is_of_kind(kind: Kind, value: &Value) -> bool
    ensures { Tells result (IsOfKind kind value.now) }
{
    match value {
        Value::Null => false,
        Value::Int(_) => same_kind(kind, Kind::Int),
        Value::Text(_) => same_kind(kind, Kind::Text),
        Value::Bool(_) => same_kind(kind, Kind::Bool),
    }
}

/// Whether a value may stand in the key column at a place.
fn fits_key_column(columns: &[ColumnShape], place: u32, value: &Value) -> bool
    ensures { Tells result (FitsKeyColumn columns.now place value.now) }
{
    match columns.get(place as usize) {
        Some(column) => is_of_kind(column.kind, value),
        None => false,
    }
}

/// Whether there is one value for each key column, each of which may stand there.
fn fit_key(columns: &[ColumnShape], places: &[u32], values: &[Value]) -> bool
    ensures { Tells result (AllZip (FitsKeyColumn columns.now) places.now values.now) }
{
    match places {
        [] => values.is_empty(),
        [place, places @ ..] => match values {
            [] => false,
            [value, values @ ..] => {
                fits_key_column(columns, *place, value) && fit_key(columns, places, values)
            }
        },
    }
}

/// Whether a row has a value in the column at a place, where NULL stands in one that it lacks.
fn has_value(row: &[Value], place: u32, value: &Value) -> bool
    ensures { Tells result (slice_index_or row.now place Null ≡ value.now) }
{
    match row.get(place as usize) {
        Some(found) => order_values(found, value) == Ordering::Equal,
        None => matches!(value, Value::Null),
    }
}

/// Whether a row has these values in its key columns.
fn has_values(row: &[Value], places: &[u32], values: &[Value]) -> bool
    ensures { Tells result (pick places.now row.now ≡ values.now) }
{
    match places {
        [] => values.is_empty(),
        [place, places @ ..] => match values {
            [] => false,
            [value, values @ ..] => {
                has_value(row, *place, value) && has_values(row, places, values)
            }
        },
    }
}

/// Whether a row fits its table and has the key in its key columns.
fn fits_row(shape: &TableShape, key: &Key, row: &Row) -> bool
    ensures { Tells result (FitsBoth shape.now key.now row.now) }
{
    let values = row.values.as_slice();
    fit_columns(shape.columns.as_slice(), values)
        && has_values(values, shape.key.as_slice(), key.values.as_slice())
}

/// Whether a write is of a table that there is, and its key and its row, where there is one, fit that table.
fn fits_write(shapes: &Shapes, write: &Write) -> bool
    ensures { Tells result (FitsWrite shapes.now write.now) }
{
    let Some(shape) = shapes.tables.get(write.table.0 as usize) else {
        return false;
    };
    if !fit_key(
        shape.columns.as_slice(),
        shape.key.as_slice(),
        write.key.values.as_slice(),
    ) {
        return false;
    }
    match &write.row {
        Some(row) => fits_row(shape, &write.key, row),
        None => true,
    }
}

/// Whether all writes fit.
pub fn fit_writes(shapes: &Shapes, writes: &Writes) -> bool
    ensures { Tells result (FitWrites shapes.now writes.now.list) }
{
    for at in 0..writes.len() {
        if !fits_write(shapes, writes.at(at)) {
            return false;
        }
    }
    true
}
