//! Copies of values, and the key of a row.
ghost use Rattle.std.specs.Prelude.{◌≡◌, IfOk, slice_index_or};
ghost use Rattle.pg_value.specs.Tables.{pick};
ghost use Rattle.pg_value.specs.declared.value.Value.TheVariants.{Null};

use pg_value::{Key, List, Row, TableShape, Value, copy_value};
use std::alloc::{AllocError, Global};

/// A copy of the value at a place, NULL where there is none.
pub fn copy_at(alloc: Global, values: &[Value], place: usize) -> Result<Value, AllocError>
    ensures { IfOk result (λ v. v ≡ slice_index_or values.now place Null) }
{
    match values.get(place) {
        Some(value) => copy_value(alloc, value),
        None => Ok(Value::Null),
    }
}

/// Copies of the values in some columns.
fn pick(alloc: Global, columns: &[u32], values: &[Value]) -> Result<List<Value>, AllocError>
    ensures { IfOk result (λ picked. picked ≡ pick columns.now values.now) }
{
    let mut out = List::with_room(alloc, columns.len())?;
    for column in columns {
        out.push(copy_at(alloc, values, *column as usize)?)?;
    }
    Ok(out)
}

/// The key of a row.
pub fn key_of(alloc: Global, shape: &TableShape, row: &Row) -> Result<Key, AllocError>
    ensures { IfOk result (λ key. key.values ≡ pick shape.now.key row.now.values) }
{
    Ok(Key::new(pick(alloc, shape.key.as_slice(), row.values.as_slice())?))
}
