//! Why an INSERT, UPDATE or DELETE is refused before it reads the tables.
ghost use Rattle.std.specs.Prelude.{◌≡◌, IfOk};
ghost use Rattle.pg_rules.specs.Catalog.{IsFew};
ghost use Rattle.pg_rules.specs.Changes.{OfInsert, OfUpdate, OfDelete, change_fault};
ghost use Rattle.pg_write.specs.ChangeVerdict as spec;

use crate::change::insert::{count, targets, types, wide};
use crate::change::names::{missing_in_condition, missing_in_sets, missing_names};
use crate::change::places::{key_update, wide_condition, wide_sets, wrong_condition, wrong_sets};
use pg_ast::{Delete, Insert, InsertTuple, Name, Update};
use pg_catalog::{Catalog, repeated_name};
use pg_rules::{ColumnEntry, ResolveFault, sooner};
use pg_value::List;
use std::alloc::{AllocError, Global};

/// Why a DELETE is refused over the columns of its table.
fn delete_fault_over(columns: &[ColumnEntry], delete: &Delete) -> Option<ResolveFault>
    requires { IsFew columns.now }
    ensures { result ≡ spec.delete_over columns.now delete.now }
{
    if let Some(at) = missing_in_condition(columns, &delete.cond) {
        return Some(ResolveFault::NoColumn { at });
    }
    if let Some(at) = wrong_condition(columns, &delete.cond) {
        return Some(ResolveFault::Types { at });
    }
    match wide_condition(columns, &delete.cond) {
        Some(at) => Some(ResolveFault::Wide { at }),
        None => None,
    }
}

/// Why a DELETE is refused.
pub fn delete_fault(catalog: &Catalog, delete: &Delete) -> Option<ResolveFault>
    ensures { result ≡ change_fault catalog.now.0 (OfDelete delete.now) }
{
    if catalog.table(&delete.table.text).is_none() {
        return Some(ResolveFault::NoTable {
            at: delete.table.at,
        });
    }
    delete_fault_over(catalog.columns_of(&delete.table.text), delete)
}

/// The first name in an UPDATE that is no column.
fn missing_in_update(columns: &[ColumnEntry], update: &Update) -> Option<u32>
    requires { IsFew columns.now }
    ensures { result ≡ spec.least_missing columns.now update.now }
{
    let in_sets = missing_in_sets(columns, update.sets.as_slice());
    sooner(in_sets, missing_in_condition(columns, &update.cond))
}

/// The first place of a wrong kind in an UPDATE.
fn wrong_in_update(columns: &[ColumnEntry], update: &Update) -> Option<u32>
    requires { IsFew columns.now }
    ensures { result ≡ spec.least_wrong columns.now update.now }
{
    let in_sets = wrong_sets(columns, update.sets.as_slice());
    sooner(in_sets, wrong_condition(columns, &update.cond))
}

/// The first place in an UPDATE that is too wide.
fn wide_in_update(columns: &[ColumnEntry], update: &Update) -> Option<u32>
    ensures { result ≡ spec.least_wide columns.now update.now }
{
    let in_sets = wide_sets(columns, update.sets.as_slice());
    sooner(in_sets, wide_condition(columns, &update.cond))
}

/// Why an UPDATE is refused whose names are columns that SET names once.
fn later_update_fault(columns: &[ColumnEntry], key: &[u32], update: &Update) -> Option<ResolveFault>
    requires { IsFew columns.now }
    ensures { result ≡ spec.later_update columns.now key.now update.now }
{
    if let Some(at) = key_update(columns, key, update.sets.as_slice()) {
        return Some(ResolveFault::KeyUpdate { at });
    }
    if let Some(at) = wrong_in_update(columns, update) {
        return Some(ResolveFault::Types { at });
    }
    match wide_in_update(columns, update) {
        Some(at) => Some(ResolveFault::Wide { at }),
        None => None,
    }
}

/// Why an UPDATE is refused over the columns and the key of its table.
fn update_fault_over(
    alloc: Global,
    columns: &[ColumnEntry],
    key: &[u32],
    update: &Update,
) -> Result<Option<ResolveFault>, AllocError>
    requires { IsFew columns.now }
    ensures { IfOk result (λ r. r ≡ spec.update_over columns.now key.now update.now) }
{
    if let Some(at) = missing_in_update(columns, update) {
        return Ok(Some(ResolveFault::NoColumn { at }));
    }
    match repeated_name(alloc, update.sets.as_slice())? {
        Some(at) => Ok(Some(ResolveFault::ColumnTwice { at })),
        None => Ok(later_update_fault(columns, key, update)),
    }
}

/// Why an UPDATE is refused.
pub fn update_fault(
    alloc: Global,
    catalog: &Catalog,
    update: &Update,
) -> Result<Option<ResolveFault>, AllocError>
    ensures { IfOk result (λ r. r ≡ change_fault catalog.now.0 (OfUpdate update.now)) }
{
    if catalog.table(&update.table.text).is_none() {
        return Ok(Some(ResolveFault::NoTable {
            at: update.table.at,
        }));
    }
    let columns = catalog.columns_of(&update.table.text);
    let key = catalog.key_of(&update.table.text);
    update_fault_over(alloc, columns, key, update)
}

/// The names in the list of columns of an INSERT.
fn listed(names: &Option<List<Name>>) -> &[Name]
    ensures { result.now ≡ spec.listed names.now }
{
    match names {
        Some(names) => names.as_slice(),
        None => &[],
    }
}

/// Why the tuples of an INSERT are refused, whose values are for these columns.
fn tuples_fault(
    columns: &[ColumnEntry],
    targets: &[u32],
    tuples: &[InsertTuple],
) -> Option<ResolveFault>
    ensures { result ≡ spec.tuples_fault columns.now targets.now tuples.now }
{
    if let Some(at) = count(targets.len(), tuples) {
        return Some(ResolveFault::Count { at });
    }
    if let Some(at) = types(columns, targets, tuples) {
        return Some(ResolveFault::Types { at });
    }
    match wide(tuples) {
        Some(at) => Some(ResolveFault::Wide { at }),
        None => None,
    }
}

/// Why the values of an INSERT are refused over the columns of its table.
fn values_fault(
    alloc: Global,
    columns: &[ColumnEntry],
    insert: &Insert,
) -> Result<Option<ResolveFault>, AllocError>
    requires { IsFew columns.now }
    ensures { IfOk result (λ r. r ≡ spec.values_fault columns.now insert.now) }
{
    let targets = targets(alloc, columns, &insert.columns)?;
    Ok(tuples_fault(columns, targets.as_slice(), insert.tuples.as_slice()))
}

/// Why an INSERT is refused over the columns of its table.
fn insert_fault_over(
    alloc: Global,
    columns: &[ColumnEntry],
    insert: &Insert,
) -> Result<Option<ResolveFault>, AllocError>
    requires { IsFew columns.now }
    ensures { IfOk result (λ r. r ≡ spec.insert_over columns.now insert.now) }
{
    let names = listed(&insert.columns);
    if let Some(at) = missing_names(columns, names) {
        return Ok(Some(ResolveFault::NoColumn { at }));
    }
    match repeated_name(alloc, names)? {
        Some(at) => Ok(Some(ResolveFault::ColumnTwice { at })),
        None => values_fault(alloc, columns, insert),
    }
}

/// Why an INSERT is refused.
pub fn insert_fault(
    alloc: Global,
    catalog: &Catalog,
    insert: &Insert,
) -> Result<Option<ResolveFault>, AllocError>
    ensures { IfOk result (λ r. r ≡ change_fault catalog.now.0 (OfInsert insert.now)) }
{
    if catalog.table(&insert.table.text).is_none() {
        return Ok(Some(ResolveFault::NoTable {
            at: insert.table.at,
        }));
    }
    insert_fault_over(alloc, catalog.columns_of(&insert.table.text), insert)
}
