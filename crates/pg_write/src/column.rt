//! What is wrong with the values of a row, column by column.
ghost use Rattle.std.specs.Prelude.{◌≡◌, ◌<◌, ◌^◌, length};
ghost use Rattle.pg_value.specs.declared.value.Value.TheVariants as values;
ghost use Rattle.pg_rules.specs.Changes.InsertEffect as spec;

use pg_rules::RowFault;
use pg_value::{ColumnShape, TableShape, Value};

/// The least and the greatest INTEGER.
const LEAST: i128 = -2147483648;

const GREATEST: i128 = 2147483647;

/// Whether a number is an INTEGER.
fn is_integer(number: i128) -> bool
    ensures { result ≡ spec.in_range (values.Int number) }
{
    LEAST <= number && number <= GREATEST
}

/// A number that is no INTEGER, or a text of more bytes than its column may hold.
fn size_fault(column: &ColumnShape, value: &Value, place: u32) -> Option<RowFault>
    ensures { result ≡ spec.size_fault column.now value.now place }
{
    match value {
        Value::Int(number) => {
            if is_integer(number.get()) {
                None
            } else {
                Some(RowFault::Range { column: place })
            }
        }
        Value::Text(text) => {
            if text.len() <= column.max_bytes as usize {
                None
            } else {
                Some(RowFault::TooLong { column: place })
            }
        }
        Value::Null | Value::Bool(_) => None,
    }
}

/// Whether a value is NULL.
fn is_null(value: &Value) -> bool
    ensures { result ≡ spec.is_null value.now }
{
    matches!(value, Value::Null)
}

/// NULL where it may not stand.
fn null_fault(is_key: bool, column: &ColumnShape, value: &Value, place: u32) -> Option<RowFault>
    ensures { result ≡ spec.null_fault is_key column.now value.now place }
{
    if is_key {
        if is_null(value) {
            return Some(RowFault::NullKey { column: place });
        }
        return None;
    }
    if is_null(value) && column.not_null {
        Some(RowFault::NullNotAllowed { column: place })
    } else {
        None
    }
}

/// Whether the column at a place is a key column.
fn is_key(shape: &TableShape, place: u32) -> bool
    ensures { result ≡ spec.is_key shape.now place }
{
    for column in shape.key.as_slice() {
        if *column == place {
            return true;
        }
    }
    false
}

/// What is wrong with a value in the column at a place.
fn value_fault(
    shape: &TableShape,
    column: &ColumnShape,
    value: &Value,
    place: u32,
) -> Option<RowFault>
    ensures { result ≡ spec.value_fault shape.now column.now value.now place }
{
    match null_fault(is_key(shape, place), column, value, place) {
        Some(fault) => Some(fault),
        None => size_fault(column, value, place),
    }
}

/// The first fault of a row's values, in order of the columns.
pub fn column_fault(shape: &TableShape, row: &[Value]) -> Option<RowFault>
    requires { length shape.now.columns < 2 ^ 32 }
    ensures { result ≡ spec.column_fault shape.now 0 shape.now.columns row.now }
{
    column_fault_in(shape, shape.columns.as_slice(), row)
}

/// The first fault of a row's values in some columns of a table, which are its first.
fn column_fault_in(shape: &TableShape, columns: &[ColumnShape], row: &[Value]) -> Option<RowFault>
    requires { length columns.now < 2 ^ 32 }
    ensures { result ≡ spec.column_fault shape.now 0 columns.now row.now }
{
    for (i, column) in columns.iter().enumerate() {
        let Some(value) = row.get(i) else {
            return None;
        };
        if let Some(fault) = value_fault(shape, column, value, i as u32) {
            return Some(fault);
        }
    }
    None
}
