//! INSERT, UPDATE and DELETE, outside a transaction.
ghost use Rattle.std.specs.Prelude.{◌≡◌, true, is_some, length, Some, IfOk, IfErr, OnOk};
ghost use Rattle.pg_value.specs.Log.{after};
ghost use Rattle.pg_meaning.specs.Sound.Changes.{IsSoundChange, table_of};
ghost use Rattle.pg_rules.specs.Changes.{Change, change_of};
ghost use Rattle.pg_rules.specs.Written.{IsWritten};
ghost use Rattle.pg_script.specs.Judged.{Changes, refused};
ghost use Rattle.pgq.specs.Engine.{IsReady, AnswersTo};
ghost use Rattle.pg_language.specs.Language.{refusal_of, column_called};
ghost use Rattle.pgq.specs.Changes.{IsAccepted, IsMade, IsRefused};

use crate::commit::commit;
use crate::engine::Engine;
use crate::refusal::{resolve_refusal, told};
use pg_ast::Statement;
use pg_catalog::Catalog;
use pg_language::writes_stay_in_order;
use pg_meaning::CheckedChange;
use pg_rules::{RowFault, accepted_changes_are_sound};
use pg_script::{ColumnFault, Outcome};
use pg_value::{TableNo, Text, Writes};
use pg_view::lists_are_tables;
use pg_write::{EffectRefused, TableLists, effect, effects_fit, resolve_change};
use std::alloc::{AllocError, Global};

/// How many writes one transaction may have.
const MOST_TRANSACTION_WRITES: u64 = 1_048_576;

/// The table that is changed.
fn table_of(change: &CheckedChange) -> TableNo
    ensures { result ≡ table_of change.now }
{
    match change {
        CheckedChange::Insert { table, .. } => *table,
        CheckedChange::Update { table, .. } => *table,
        CheckedChange::Delete { table, .. } => *table,
    }
}

/// The name of a column.
fn column_called(
    alloc: Global,
    catalog: &Catalog,
    table: TableNo,
    column: u32,
) -> Result<Text, AllocError>
    ensures { IfOk result (λ name. name ≡ column_called catalog.now table column) }
{
    match catalog.column_name(table, column) {
        Some(name) => name.copy(alloc),
        None => Text::from_str(alloc, ""),
    }
}

/// The answer of a change whose first faulty row has this fault at a column, over the whole log.
fn column_refusal(
    alloc: Global,
    engine: &Engine,
    table: TableNo,
    row: u64,
    kind: ColumnFault,
    column: u32,
) -> Result<Outcome, AllocError>
    ensures { IfOk result (λ o. o ≡ Outcome.AtColumn kind row (column_called engine.now.catalog table column) (length engine.now.log)) }
{
    let column = column_called(alloc, &engine.catalog, table, column)?;
    Ok(Outcome::AtColumn {
        kind,
        row,
        column,
        at: engine.log.len() as u64,
    })
}

/// The answer of a change whose first faulty row is this one, over the whole log.
fn row_refusal(
    alloc: Global,
    engine: &Engine,
    table: TableNo,
    row: u64,
    fault: RowFault,
) -> Result<Outcome, AllocError>
    ensures { IfOk result (λ o. o ≡ refused (refusal_of engine.now.catalog table row fault) (length engine.now.log)) }
{
    let at = engine.log.len() as u64;
    match fault {
        RowFault::NullKey { column } => {
            column_refusal(alloc, engine, table, row, ColumnFault::NullKey, column)
        }
        RowFault::NullNotAllowed { column } => {
            column_refusal(
                alloc,
                engine,
                table,
                row,
                ColumnFault::NullNotAllowed,
                column,
            )
        }
        RowFault::Range { column } => {
            column_refusal(alloc, engine, table, row, ColumnFault::Range, column)
        }
        RowFault::TooLong { column } => {
            column_refusal(alloc, engine, table, row, ColumnFault::TooLong, column)
        }
        RowFault::Duplicate => Ok(Outcome::Duplicate { row, at }),
        RowFault::TooManyWrites => Ok(Outcome::TooManyWrites { row, at }),
    }
}

/// The writes of a change over the tables after the whole log, and how many rows it changes.
fn effect_of(
    alloc: Global,
    engine: &Engine,
    change: &CheckedChange,
) -> Result<(Writes, u64), EffectRefused>
    requires ready { IsReady engine.now }
    requires sound { IsSoundChange engine.now.shapes change.now }
    ensures made { IfOk result (λ r. IsMade engine.now change.now r.0 r.1) }
    ensures refused { IfErr result (IsRefused engine.now change.now) }
{
    lists_are_tables();
    let lists = engine.tables.as_slice();
    let tables = TableLists::new(lists);
    let writes = Writes::new(alloc, MOST_TRANSACTION_WRITES);
    effect(
        alloc,
        MOST_TRANSACTION_WRITES,
        &engine.shapes,
        &tables,
        writes,
        change,
    )
}

/// Carries out a change that is not refused before it reads the tables.
fn make(
    alloc: Global,
    engine: &mut Engine,
    section: u32,
    change: &CheckedChange,
) -> Result<Outcome, AllocError>
    requires ready { IsReady engine.old }
    requires sound { IsSoundChange engine.old.shapes change.now }
    ensures ready { OnOk result (IsReady engine.new) }
    ensures answers { (c : Change) → IsAccepted engine.old.catalog c change.now → IfOk result (λ o. AnswersTo (Changes c) section engine.old o engine.new) }
{
    effects_fit();
    writes_stay_in_order();
    let table = table_of(change);
    match effect_of(alloc, engine, change) {
        Ok((writes, rows)) => commit(alloc, engine, section, table, writes, rows),
        Err(EffectRefused::Row { row, fault, .. }) => row_refusal(alloc, engine, table, row, fault),
        Err(EffectRefused::Memory) => Err(AllocError),
    }
}

/// Carries out a statement that is an INSERT, UPDATE or DELETE: what it writes is one commit, or it is refused and the engine
/// is as before. It is refused at a place before it reads the tables, or at its first faulty row, or because the log has no
/// room for its writes; one that changes no row commits nothing. After want of memory the engine is of no use.
pub fn change(
    alloc: Global,
    engine: &mut Engine,
    section: u32,
    statement: &Statement,
) -> Result<Outcome, AllocError>
    requires change { is_some (change_of statement.now) ≡ true }
    requires written { IsWritten statement.now }
    requires ready { IsReady engine.old }
    ensures ready { OnOk result (IsReady engine.new) }
    ensures answers { (c : Change) → change_of statement.now ≡ Some c → IfOk result (λ o. AnswersTo (Changes c) section engine.old o engine.new) }
{
    accepted_changes_are_sound();
    match resolve_change(alloc, &engine.catalog, statement) {
        Ok(checked) => make(alloc, engine, section, &checked),
        Err(fault) => told(resolve_refusal(fault)),
    }
}
