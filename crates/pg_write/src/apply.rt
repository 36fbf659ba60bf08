//! The effect of a change: the writes then, or its first faulty row.
ghost use Rattle.std.specs.Prelude.{◌≡◌, ◌+◌, ◌∷◌, [], IfOk, IfErr};
ghost use Rattle.pg_value.specs.Tables.{FitTables};
ghost use Rattle.pg_value.specs.Writes.{merge, IsInOrder};
ghost use Rattle.pg_meaning.specs.Sound.Changes.{IsSoundChange, table_of};
ghost use Rattle.pg_meaning.specs.Sound.Graphs.{AreSoundShapes};
ghost use Rattle.pg_rules.specs.Changes.ChangeEffect.{is_insert};
ghost use Rattle.pg_write.specs.ChangeEffects as spec;
ghost use Rattle.pg_write.specs.JudgedRows.{Fine, so_far};

use crate::fault::EffectFault;
use crate::judged::{Given, RowsSoFar, one_more};
use crate::refused::EffectRefused;
use crate::tables::TableRows;
use pg_meaning::CheckedChange;
use pg_rules::RowFault;
use pg_value::{Row, Shapes, TableNo, Write, Writes, copy_key, copy_row};
use std::alloc::{AllocError, Global};

/// The table that is changed.
fn table_of(change: &CheckedChange) -> TableNo
    ensures { result ≡ table_of change.now }
{
    match change {
        CheckedChange::Insert { table, .. }
        | CheckedChange::Update { table, .. }
        | CheckedChange::Delete { table, .. } => *table,
    }
}

/// Whether a change is an INSERT.
fn is_insert(change: &CheckedChange) -> bool
    ensures { result ≡ is_insert change.now }
{
    matches!(change, CheckedChange::Insert { .. })
}

/// The answer that a row's fault is, behind so many rows.
fn faulty_row(before: u64, fault: RowFault) -> EffectFault
    ensures { spec.IsOfRow (before + 1) fault result }
{
    match one_more(before) {
        Ok(row) => EffectFault::Row { row, fault },
        Err(_) => EffectFault::Memory,
    }
}

/// Judges all rows of a change: what they write, or the first faulty one.
fn judge_change<T: TableRows>(
    alloc: Global,
    limit: u64,
    shapes: &Shapes,
    tables: &T,
    writes: &Writes,
    change: &CheckedChange,
) -> Result<RowsSoFar, EffectFault>
    requires shapes { AreSoundShapes shapes.now }
    requires change { IsSoundChange shapes.now change.now }
    requires fit { FitTables shapes.now (T.tables tables.now) }
    ensures judged { IfOk result (λ r. spec.IsJudged limit shapes.now (T.tables tables.now) writes.now.list change.now (Fine (so_far r))) }
    ensures limit { IfOk result (λ r. r.made.limit ≡ limit) }
    ensures in_order { IsInOrder writes.now.list }
    ensures fault { IfErr result (spec.IsJudgedFaulty limit shapes.now (T.tables tables.now) writes.now.list change.now) }
{
    let table = table_of(change);
    let given = Given {
        insert: is_insert(change),
        limit,
        table,
        shape: shapes.tables.at(table.0 as usize),
        tables,
        writes,
    };
    let mut so_far = RowsSoFar {
        made: Writes::new(alloc, limit),
        total: writes.len(),
        rows: 0,
    };
    match given.take_change(alloc, change, &mut so_far) {
        Ok(None) => Ok(so_far),
        Ok(Some(fault)) => Err(faulty_row(so_far.rows, fault)),
        Err(_) => Err(EffectFault::Memory),
    }
}

/// An equal row, where there is one.
fn copy_optional(row: &Option<Row>) -> Result<Option<Row>, AllocError>
    ensures { IfOk result (λ copy. copy ≡ row.now) }
{
    match row {
        Some(row) => Ok(Some(copy_row(row)?)),
        None => Ok(None),
    }
}

/// An equal write, which shares the row.
fn copy_write(alloc: Global, write: &Write) -> Result<Write, AllocError>
    ensures { IfOk result (λ copy. copy ≡ write.now) }
{
    Ok(Write {
        table: write.table,
        key: copy_key(alloc, &write.key)?,
        row: copy_optional(&write.row)?,
    })
}

/// Puts a write on others.
fn put(writes: &mut Writes, write: Write) -> Result<(), AllocError>
    ensures list { IfOk result (λ _. writes.new.list ≡ merge writes.old.list (write ∷ [])) }
    ensures limit { IfOk result (λ _. writes.new.limit ≡ writes.old.limit) }
{
    match writes.put(write) {
        Ok(()) => Ok(()),
        Err(_) => Err(AllocError),
    }
}

/// Puts writes on others, one after another.
fn put_all(alloc: Global, writes: Writes, made: &Writes) -> Result<Writes, AllocError>
    requires in_order { IsInOrder writes.list }
    ensures list { IfOk result (λ w. w.list ≡ merge writes.list made.now.list) }
    ensures limit { IfOk result (λ w. w.limit ≡ writes.limit) }
{
    let mut out = writes;
    for at in 0..made.len() {
        put(&mut out, copy_write(alloc, made.at(at))?)?;
    }
    Ok(out)
}

/// Puts what a statement writes on the writes of its transaction. Where these are none it is taken as it is.
fn put_made(alloc: Global, writes: Writes, made: Writes) -> Result<Writes, AllocError>
    requires limit { made.limit ≡ writes.limit }
    ensures list { IfOk result (λ w. w.list ≡ merge writes.list made.list) }
    ensures limit { IfOk result (λ w. w.limit ≡ writes.limit) }
{
    if writes.len() == 0 && made.len() > 0 {
        return Ok(made);
    }
    put_all(alloc, writes, &made)
}

/// The refusal for a fault, with the writes handed back.
fn refused(fault: EffectFault, writes: Writes) -> EffectRefused
    ensures { result ≡ spec.refused_by fault writes }
{
    match fault {
        EffectFault::Row { row, fault } => EffectRefused::Row { row, fault, writes },
        EffectFault::Memory => EffectRefused::Memory,
    }
}

/// The writes of a transaction with those of a change put on them, each replacing that of its table and key, and the number of
/// the change's rows; or its first faulty row. `tables` are what the transaction sees: they have its writes already. INSERT
/// takes its tuples in order, and a column that gets no value is NULL. UPDATE and DELETE take, in order of their keys, the rows
/// of which the condition is true; SET computes from the row as it was, and what is deleted is a write that is gone.
///
/// In a row the columns are tested first, in their order: NullKey comes exactly where a key column's value is NULL,
/// NullNotAllowed where that of another NOT NULL column is, Range where a number is no INTEGER, and TooLong where a text has
/// more bytes than its column may hold. Then, of an INSERT, Duplicate comes exactly where the tables or an earlier row of the
/// statement have the key, and then TooManyWrites where the transaction would have more writes than `limit`. The first row that
/// has a fault is answered, and the writes are handed back as they were given. No row behind it is looked at, and where the
/// condition gives each key column a literal, no other row than that one. Memory may come at any point; the writes are gone
/// then.
pub fn effect<T: TableRows>(
    alloc: Global,
    limit: u64,
    shapes: &Shapes,
    tables: &T,
    writes: Writes,
    change: &CheckedChange,
) -> Result<(Writes, u64), EffectRefused>
    requires limit { writes.limit ≡ limit }
    requires shapes { AreSoundShapes shapes.now }
    requires change { IsSoundChange shapes.now change.now }
    requires fit { FitTables shapes.now (T.tables tables.now) }
    ensures done { IfOk result (λ r. spec.Does shapes.now (T.tables tables.now) writes change.now r.0 r.1) }
    ensures refused { IfErr result (spec.Refuses shapes.now (T.tables tables.now) writes change.now) }
{
    match judge_change(alloc, limit, shapes, tables, &writes, change) {
        Ok(so_far) => {
            let rows = so_far.rows;
            match put_made(alloc, writes, so_far.made) {
                Ok(writes) => Ok((writes, rows)),
                Err(_) => Err(EffectRefused::Memory),
            }
        }
        Err(fault) => Err(refused(fault, writes)),
    }
}
