//! The rows that a change proposes: those of tuples, and what becomes of a row that it takes.
ghost use Rattle.std.specs.Prelude.{◌≡◌, ◌==◌, ◌<◌, ◌^◌, [], None, Some, find, length, slice_index_or, map, IfOk, IfSome};
ghost use Rattle.std.specs.List.{range_with_len};
ghost use Rattle.std.specs.Option.{option_copied};
ghost use Rattle.pg_keyed.specs.Lists.{Each};
ghost use Rattle.pg_value.specs.declared.value.Value.TheVariants.{Null};
ghost use Rattle.pg_expr.specs.Conditions.{IsCheckedForRow};
ghost use Rattle.pg_rules.specs.Changes.InsertEffect.{given, plain_value, row_of, write_of};
ghost use Rattle.pg_rules.specs.Changes.ChangeEffect.{takes, value_set, updated, update_of, delete_of};
ghost use Rattle.pg_write.specs.JudgedRows as spec;
ghost use Rattle.pg_write.specs.HeldRows.{stored_of};

use crate::tables::HeldRow;
use crate::values::{copy_at, key_of};
use pg_expr::{eval_row, truth_row};
use pg_meaning::{CExpr, CheckedChange, CheckedSet};
use pg_value::{List, Row, TableNo, TableShape, Truth, Value, Write, copy_key};
use std::alloc::{AllocError, Global};

/// The value that a tuple has for a column, if it has one.
fn expr_for<'a>(columns: &[u32], tuple: &'a [CExpr], column: u32) -> Option<&'a CExpr>
    ensures { option_copied result ≡ spec.expr_for columns.now tuple.now column }
{
    for (i, named) in columns.iter().enumerate() {
        if *named == column {
            return tuple.get(i);
        }
    }
    None
}

/// The value of a column of a new row: that of the tuple, NULL where it has none. It is evaluated over a row without values.
fn value_for(
    alloc: Global,
    columns: &[u32],
    tuple: &[CExpr],
    column: u32,
    nothing: &Row,
) -> Result<Value, AllocError>
    requires nothing { nothing.now ≡ spec.no_values }
    requires checked { Each (IsCheckedForRow spec.no_values) tuple.now }
    ensures { IfOk result (λ v. v ≡ given columns.now (map plain_value tuple.now) column) }
{
    match expr_for(columns, tuple, column) {
        Some(expr) => eval_row(alloc, expr, nothing),
        None => Ok(Value::Null),
    }
}

/// The values of a new row of so many columns.
fn values_for(
    alloc: Global,
    columns: &[u32],
    tuple: &[CExpr],
    count: usize,
    nothing: &Row,
) -> Result<List<Value>, AllocError>
    requires few { count < 2 ^ 32 }
    requires nothing { nothing.now ≡ spec.no_values }
    requires checked { Each (IsCheckedForRow spec.no_values) tuple.now }
    ensures { IfOk result (λ vs. vs ≡ map (given columns.now (map plain_value tuple.now)) (range_with_len 0 count)) }
{
    let mut out = List::with_room(alloc, count)?;
    for column in 0..count {
        out.push(value_for(alloc, columns, tuple, column as u32, nothing)?)?;
    }
    Ok(out)
}

/// The write of the row of a tuple.
pub fn tuple_write(
    alloc: Global,
    table: TableNo,
    shape: &TableShape,
    columns: &[u32],
    tuple: &[CExpr],
    nothing: &Row,
) -> Result<Write, AllocError>
    requires few { length shape.now.columns < 2 ^ 32 }
    requires nothing { nothing.now ≡ spec.no_values }
    requires checked { Each (IsCheckedForRow spec.no_values) tuple.now }
    ensures { IfOk result (λ w. w ≡ write_of table shape.now (row_of shape.now columns.now tuple.now)) }
{
    let row = Row::new(
        alloc,
        values_for(alloc, columns, tuple, shape.columns.len(), nothing)?,
    )?;
    let key = key_of(alloc, shape, &row)?;
    Ok(Write {
        table,
        key,
        row: Some(row),
    })
}

/// The item of SET for a column, if it has one.
fn set_for(sets: &[CheckedSet], column: usize) -> Option<&CheckedSet>
    ensures { option_copied result ≡ find (λ s. s.column == column) sets.now }
{
    for set in sets {
        if set.column as usize == column {
            return Some(set);
        }
    }
    None
}

/// The value of a column after SET, computed from the row as it was.
fn value_set(
    alloc: Global,
    sets: &[CheckedSet],
    row: &Row,
    column: usize,
) -> Result<Value, AllocError>
    requires checked { Each (λ s. IsCheckedForRow row.now s.value) sets.now }
    ensures { IfOk result (λ v. v ≡ value_set (find (λ s. s.column == column) sets.now) row.now (slice_index_or row.now.values column Null)) }
{
    match set_for(sets, column) {
        Some(set) => eval_row(alloc, &set.value, row),
        None => copy_at(alloc, row.values.as_slice(), column),
    }
}

/// A row with the columns of SET, each computed from the row as it was.
fn updated(alloc: Global, sets: &[CheckedSet], row: &Row) -> Result<Row, AllocError>
    requires checked { Each (λ s. IsCheckedForRow row.now s.value) sets.now }
    ensures { IfOk result (λ r. r ≡ updated sets.now row.now) }
{
    let count = row.values.len();
    let mut out = List::with_room(alloc, count)?;
    for column in 0..count {
        out.push(value_set(alloc, sets, row, column)?)?;
    }
    Row::new(alloc, out)
}

/// The write of a row that is updated.
fn update_write(alloc: Global, sets: &[CheckedSet], held: HeldRow<'_>) -> Result<Write, AllocError>
    requires checked { Each (λ s. IsCheckedForRow held.row.now s.value) sets.now }
    ensures { IfOk result (λ w. w ≡ update_of sets.now (stored_of held.entry)) }
{
    let row = updated(alloc, sets, held.row)?;
    Ok(Write {
        table: held.table,
        key: copy_key(alloc, held.key)?,
        row: Some(row),
    })
}

/// The write of a row that is deleted.
fn delete_write(alloc: Global, held: HeldRow<'_>) -> Result<Write, AllocError>
    ensures { IfOk result (λ w. w ≡ delete_of (stored_of held.entry)) }
{
    Ok(Write {
        table: held.table,
        key: copy_key(alloc, held.key)?,
        row: None,
    })
}

/// The write of a row that an UPDATE or a DELETE takes.
pub fn write_for(
    alloc: Global,
    change: &CheckedChange,
    held: HeldRow<'_>,
) -> Result<Write, AllocError>
    requires checked { spec.IsCheckedFor change.now held.row.now }
    ensures { IfOk result (λ w. w ≡ spec.write_for change.now (stored_of held.entry)) }
{
    match change {
        CheckedChange::Update {
            table: _,
            sets,
            cond: _,
        } => { update_write(alloc, sets.as_slice(), held) }
        CheckedChange::Insert {
            table: _,
            columns: _,
            tuples: _,
        }
        | CheckedChange::Delete { table: _, cond: _ } => delete_write(alloc, held),
    }
}

/// Whether a condition is true of a row, or there is none.
pub fn takes(cond: &Option<CExpr>, row: &Row) -> bool
    requires checked { IfSome cond.now (IsCheckedForRow row.now) }
    ensures { result ≡ takes cond.now row.now }
{
    match cond {
        Some(cond) => matches!(truth_row(cond, row), Truth::True),
        None => true,
    }
}
