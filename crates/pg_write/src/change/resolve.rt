//! The checked change of a statement, or why it is refused before it reads the tables.
ghost use Rattle.std.specs.Prelude.{◌≡◌, true, None, Some, is_some, IfOk, IfErr};
ghost use Rattle.pg_rules.specs.Changes.{Change, OfInsert, OfUpdate, OfDelete, change_of, change_fault, resolved_change};
ghost use Rattle.pg_rules.specs.Definitions.Entries.{number_of};
ghost use Rattle.pg_write.specs.ChangePasses as pass;

use crate::change::checked::{resolved_condition, resolved_sets, resolved_tuples};
use crate::change::insert::targets;
use crate::change::verdict::{delete_fault, insert_fault, update_fault};
use pg_ast::{Delete, Insert, Statement, Update};
use pg_catalog::Catalog;
use pg_meaning::CheckedChange;
use pg_rules::ResolveFault;
use pg_value::{TableNo, Text};
use std::alloc::{AllocError, Global};

/// The number of a table, 0 where there is none of the name.
fn number_of(catalog: &Catalog, name: &Text) -> TableNo
    ensures { result ≡ number_of catalog.now.0 name.now }
{
    match catalog.table(name) {
        Some(table) => table,
        None => TableNo(0),
    }
}

/// The checked tree of a DELETE.
fn checked_delete(
    alloc: Global,
    catalog: &Catalog,
    delete: &Delete,
) -> Result<CheckedChange, AllocError>
    ensures { IfOk result (λ r. r ≡ resolved_change catalog.now.0 (OfDelete delete.now)) }
{
    let columns = catalog.columns_of(&delete.table.text);
    let cond = resolved_condition(alloc, columns, &delete.cond)?;
    Ok(CheckedChange::Delete {
        table: number_of(catalog, &delete.table.text),
        cond,
    })
}

/// The checked tree of an UPDATE.
fn checked_update(
    alloc: Global,
    catalog: &Catalog,
    update: &Update,
) -> Result<CheckedChange, AllocError>
    ensures { IfOk result (λ r. r ≡ resolved_change catalog.now.0 (OfUpdate update.now)) }
{
    let columns = catalog.columns_of(&update.table.text);
    let sets = resolved_sets(alloc, columns, update.sets.as_slice())?;
    let cond = resolved_condition(alloc, columns, &update.cond)?;
    Ok(CheckedChange::Update {
        table: number_of(catalog, &update.table.text),
        sets,
        cond,
    })
}

/// The checked tree of an INSERT.
fn checked_insert(
    alloc: Global,
    catalog: &Catalog,
    insert: &Insert,
) -> Result<CheckedChange, AllocError>
    ensures { IfOk result (λ r. r ≡ resolved_change catalog.now.0 (OfInsert insert.now)) }
{
    let columns = catalog.columns_of(&insert.table.text);
    let targets = targets(alloc, columns, &insert.columns)?;
    let tuples = resolved_tuples(alloc, insert.tuples.as_slice())?;
    Ok(CheckedChange::Insert {
        table: number_of(catalog, &insert.table.text),
        columns: targets,
        tuples,
    })
}

/// The checked change of a DELETE, or why it is refused before it reads the tables: NoTable comes exactly where its table does
/// not exist, NoColumn where its condition names no column of the table, Types where the condition is no truth value or an
/// operator meets a wrong kind, and Wide where a literal or an operator is too wide. The first of these kinds that has a place
/// is answered, at its first place. Memory may come at any point.
pub fn resolve_delete(
    alloc: Global,
    catalog: &Catalog,
    delete: &Delete,
) -> Result<CheckedChange, ResolveFault>
    ensures right { IfOk result (λ _. change_fault catalog.now.0 (OfDelete delete.now) ≡ None) }
    ensures checked { IfOk result (λ r. r ≡ resolved_change catalog.now.0 (OfDelete delete.now)) }
    ensures fault { IfErr result (pass.IsFault (change_fault catalog.now.0 (OfDelete delete.now))) }
{
    if let Some(fault) = delete_fault(catalog, delete) {
        return Err(fault);
    }
    match checked_delete(alloc, catalog, delete) {
        Ok(change) => Ok(change),
        Err(_) => Err(ResolveFault::Memory),
    }
}

/// The checked change of an UPDATE, or why it is refused before it reads the tables: as for a DELETE, and behind NoColumn
/// come ColumnTwice exactly where SET names a column again, and KeyUpdate where it names a key column; Types also comes where
/// a value has another kind than its column. The first kind that has a place is answered, at its first place. Memory may come
/// at any point.
pub fn resolve_update(
    alloc: Global,
    catalog: &Catalog,
    update: &Update,
) -> Result<CheckedChange, ResolveFault>
    ensures right { IfOk result (λ _. change_fault catalog.now.0 (OfUpdate update.now) ≡ None) }
    ensures checked { IfOk result (λ r. r ≡ resolved_change catalog.now.0 (OfUpdate update.now)) }
    ensures fault { IfErr result (pass.IsFault (change_fault catalog.now.0 (OfUpdate update.now))) }
{
    let Ok(found) = update_fault(alloc, catalog, update) else {
        return Err(ResolveFault::Memory);
    };
    if let Some(fault) = found {
        return Err(fault);
    }
    match checked_update(alloc, catalog, update) {
        Ok(change) => Ok(change),
        Err(_) => Err(ResolveFault::Memory),
    }
}

/// The checked change of an INSERT, or why it is refused before it reads the tables: NoTable comes exactly where its table
/// does not exist, NoColumn where its list of columns names none of the table, ColumnTwice where it names a column again,
/// Count where a tuple has not one value for each column that is meant, Types where a value has another kind than its column
/// or an operator meets a wrong kind, and Wide where a literal or an operator is too wide. The first of these kinds that has a
/// place is answered, at its first place. Memory may come at any point.
pub fn resolve_values(
    alloc: Global,
    catalog: &Catalog,
    insert: &Insert,
) -> Result<CheckedChange, ResolveFault>
    ensures right { IfOk result (λ _. change_fault catalog.now.0 (OfInsert insert.now) ≡ None) }
    ensures checked { IfOk result (λ r. r ≡ resolved_change catalog.now.0 (OfInsert insert.now)) }
    ensures fault { IfErr result (pass.IsFault (change_fault catalog.now.0 (OfInsert insert.now))) }
{
    let Ok(found) = insert_fault(alloc, catalog, insert) else {
        return Err(ResolveFault::Memory);
    };
    if let Some(fault) = found {
        return Err(fault);
    }
    match checked_insert(alloc, catalog, insert) {
        Ok(change) => Ok(change),
        Err(_) => Err(ResolveFault::Memory),
    }
}

/// The checked change of a statement that is an INSERT, UPDATE or DELETE, or why it is refused before it reads the tables: the
/// first kind of fault that has a place, in the order of `ResolveFault`, at its first place. Memory may come at any point.
pub fn resolve_change(
    alloc: Global,
    catalog: &Catalog,
    statement: &Statement,
) -> Result<CheckedChange, ResolveFault>
    requires { is_some (change_of statement.now) ≡ true }
    ensures right { (c : Change) → change_of statement.now ≡ Some c → IfOk result (λ _. change_fault catalog.now.0 c ≡ None) }
    ensures checked { (c : Change) → change_of statement.now ≡ Some c → IfOk result (λ r. r ≡ resolved_change catalog.now.0 c) }
    ensures fault { (c : Change) → change_of statement.now ≡ Some c → IfErr result (pass.IsFault (change_fault catalog.now.0 c)) }
{
    match statement {
        Statement::Insert(insert) => resolve_values(alloc, catalog, insert),
        Statement::Update(update) => resolve_update(alloc, catalog, update),
        Statement::Delete(delete) => resolve_delete(alloc, catalog, delete),
        Statement::Define(_) => unreachable!(),
        Statement::Begin => unreachable!(),
        Statement::Commit => unreachable!(),
        Statement::Rollback => unreachable!(),
        Statement::Query(_) => unreachable!(),
    }
}
