//! An INSERT in a transaction that has written already.
ghost use Rattle.std.specs.Prelude.{◌≡◌, IfOk};
ghost use Rattle.pg_tests.specs.Changes as spec;

use pg_meaning::{CExpr, CheckedChange};
use pg_value::{
    ColumnShape, Key, Kind, List, Shapes, TableNo, TableShape, Text, Value, Write, Writes,
    print_value,
};
use pg_write::{EffectRefused, TableLists, effect, effects_fit};
use std::alloc::{AllocError, Global};
use std::test::Fail;

fn column(not_null: bool) -> ColumnShape
    ensures { result ≡ spec.column not_null }
{
    ColumnShape {
        kind: Kind::Bool,
        not_null,
        max_bytes: 0,
    }
}

/// A table of two truth values, of which the first is its key.
fn table(alloc: Global) -> Result<TableShape, AllocError>
    ensures { IfOk result (λ t. t ≡ spec.table) }
{
    let mut columns = List::new(alloc);
    columns.push(column(true))?;
    columns.push(column(false))?;
    let mut key = List::new(alloc);
    key.push(0)?;
    Ok(TableShape { columns, key })
}

fn shapes(alloc: Global) -> Result<Shapes, AllocError>
    ensures { IfOk result (λ s. s ≡ spec.shapes) }
{
    let mut tables = List::new(alloc);
    tables.push(table(alloc)?)?;
    Ok(Shapes {
        tables,
        edges: List::new(alloc),
    })
}

fn tuple(alloc: Global, key: bool) -> Result<List<CExpr>, AllocError>
    ensures { IfOk result (λ t. t ≡ spec.tuple key) }
{
    let mut out = List::new(alloc);
    out.push(CExpr::Lit(Value::Bool(key)))?;
    Ok(out)
}

/// INSERT INTO T (the first column) VALUES (TRUE), (FALSE).
fn insert(alloc: Global) -> Result<CheckedChange, AllocError>
    ensures { IfOk result (λ c. c ≡ spec.insert) }
{
    let mut columns = List::new(alloc);
    columns.push(0)?;
    let mut tuples = List::new(alloc);
    tuples.push(tuple(alloc, true)?)?;
    tuples.push(tuple(alloc, false)?)?;
    Ok(CheckedChange::Insert {
        table: TableNo(0),
        columns,
        tuples,
    })
}

/// The write of a row that the transaction deleted.
fn gone(alloc: Global) -> Result<Write, AllocError> {
    let mut key = List::new(alloc);
    key.push(Value::Bool(true))?;
    Ok(Write {
        table: TableNo(0),
        key: Key::new(key),
        row: None,
    })
}

/// The values of each write's row, or `-` where it is gone.
fn printed(alloc: Global, writes: &Writes) -> Result<Text, AllocError> {
    let mut out = Text::new(alloc);
    for at in 0..writes.len() {
        match &writes.at(at).row {
            Some(row) => {
                for value in row.values.as_slice() {
                    print_value(value, &mut out)?;
                    out.push_ascii(b' ')?;
                }
            }
            None => out.push_ascii(b'-')?,
        }
    }
    Ok(out)
}

/// The writes then and the number of rows, over a table without rows.
fn effect_of(alloc: Global, limit: u64, writes: Writes) -> Result<(Writes, u64), EffectRefused>
    requires limit { writes.limit ≡ limit }
{
    let Ok(shapes) = shapes(alloc) else {
        return Err(EffectRefused::Memory);
    };
    let Ok(insert) = insert(alloc) else {
        return Err(EffectRefused::Memory);
    };
    effect(
        alloc,
        limit,
        &shapes,
        &TableLists::new(&[]),
        writes,
        &insert,
    )
}

#[test]
fn rows_are_put_on_writes(rt: HostRuntime) -> Result<(), Fail> {
    effects_fit();
    let alloc = rt.alloc();
    let mut writes = Writes::new(alloc, 2);
    assert!(rt; writes.put(gone(alloc)?).is_ok());
    match effect_of(alloc, 2, writes) {
        Ok((writes, rows)) => {
            let out = printed(alloc, &writes)?;
            assert!(rt; out.as_str() == "FALSE NULL TRUE NULL ");
            assert!(rt; rows == 2);
        }
        Err(_) => return Err(Fail::from(AllocError)),
    }
    Ok(())
}
