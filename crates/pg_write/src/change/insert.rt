//! The first place of each kind of fault in the tuples of an INSERT.
ghost use Rattle.std.specs.Prelude.{◌≡◌, IfOk, length, map, slice_get};
ghost use Rattle.std.specs.List.{flat_map, range_with_len};
ghost use Rattle.pg_rules.specs.Catalog.{IsFew};
ghost use Rattle.pg_rules.specs.Definitions.Tables.{place_of};
ghost use Rattle.pg_rules.specs.Places.{least};
ghost use Rattle.pg_meaning.specs.Typing.{no_names};
ghost use Rattle.pg_rules.specs.Changes as changes;
ghost use Rattle.pg_rules.specs.Changes.InsertJudgement as spec;
ghost use Rattle.pg_write.specs.ChangePasses as pass;

use crate::change::places::place_of;
use pg_ast::{InsertTuple, Name, Whole};
use pg_catalog::kind_at;
use pg_check::{NoNames, wide_whole, wrong_whole};
use pg_rules::{ColumnEntry, place_if, sooner};
use pg_value::List;
use std::alloc::{AllocError, Global};

/// The places of all columns.
fn all_places(alloc: Global, columns: &[ColumnEntry]) -> Result<List<u32>, AllocError>
    requires { IsFew columns.now }
    ensures { IfOk result (λ r. r ≡ range_with_len 0 (length columns.now)) }
{
    let mut out = List::new(alloc);
    for i in 0..columns.len() {
        out.push(i as u32)?;
    }
    Ok(out)
}

/// The places of the columns of some names, 0 for a name that is no column.
fn named_places(
    alloc: Global,
    columns: &[ColumnEntry],
    names: &[Name],
) -> Result<List<u32>, AllocError>
    requires { IsFew columns.now }
    ensures { IfOk result (λ r. r ≡ map (place_of columns.now) names.now) }
{
    let mut out = List::new(alloc);
    for name in names {
        out.push(place_of(columns, name))?;
    }
    Ok(out)
}

/// The places of the columns that get values: those that are named, or all.
pub fn targets(
    alloc: Global,
    columns: &[ColumnEntry],
    names: &Option<List<Name>>,
) -> Result<List<u32>, AllocError>
    requires { IsFew columns.now }
    ensures { IfOk result (λ r. r ≡ spec.targets_in columns.now names.now) }
{
    match names {
        Some(names) => named_places(alloc, columns, names.as_slice()),
        None => all_places(alloc, columns),
    }
}

/// The first tuple that has not this number of values.
#[tactic(auto, using(pg_rules::specs::Places::least_found, pg_rules::specs::Places::sooner_none))]
pub fn count(number: usize, tuples: &[InsertTuple]) -> Option<u32>
    ensures { result ≡ least (flat_map (pass.miscounted number) tuples.now) }
{
    let mut found = None;
    for tuple in tuples {
        found = sooner(found, place_if(tuple.values.len() != number, tuple.at));
    }
    found
}

/// The first place of a wrong kind in the value for the column at a place, where there is a value for it.
fn wrong_at(columns: &[ColumnEntry], targets: &[u32], at: usize, value: &Whole) -> Option<u32>
    ensures { result ≡ least (pass.wrong_for columns.now (slice_get targets.now at) value.now) }
{
    match targets.get(at) {
        Some(place) => wrong_whole(&NoNames, kind_at(columns, *place), value),
        None => None,
    }
}

/// The first place of a wrong kind in a tuple's values, each of which is for the column at its place.
#[tactic(auto, using(pg_rules::specs::Places::least_found, pg_rules::specs::Places::sooner_none))]
fn wrong_values(columns: &[ColumnEntry], targets: &[u32], values: &[Whole]) -> Option<u32>
    ensures { result ≡ least (pass.wrong_from columns.now targets.now 0 values.now) }
{
    let mut found = None;
    for (i, value) in values.iter().enumerate() {
        found = sooner(found, wrong_at(columns, targets, i, value));
    }
    found
}

/// The first place of a wrong kind in a tuple.
fn wrong_tuple(columns: &[ColumnEntry], targets: &[u32], tuple: &InsertTuple) -> Option<u32>
    ensures { result ≡ least (spec.wrong_values columns.now targets.now tuple.now.values) }
{
    wrong_values(columns, targets, tuple.values.as_slice())
}

/// The first place of a wrong kind in the tuples.
#[tactic(auto, using(pg_rules::specs::Places::least_found, pg_rules::specs::Places::sooner_none))]
pub fn types(columns: &[ColumnEntry], targets: &[u32], tuples: &[InsertTuple]) -> Option<u32>
    ensures { result ≡ least (flat_map (λ t. spec.wrong_values columns.now targets.now t.values) tuples.now) }
{
    let mut found = None;
    for tuple in tuples {
        found = sooner(found, wrong_tuple(columns, targets, tuple));
    }
    found
}

/// The first place in some values that is too wide.
#[tactic(auto, using(pg_rules::specs::Places::least_found, pg_rules::specs::Places::sooner_none))]
fn wide_values(values: &[Whole]) -> Option<u32>
    ensures { result ≡ least (flat_map (changes.wide_in no_names) values.now) }
{
    let mut found = None;
    for value in values {
        found = sooner(found, wide_whole(&NoNames, value));
    }
    found
}

/// The first place in a tuple that is too wide.
fn wide_tuple(tuple: &InsertTuple) -> Option<u32>
    ensures { result ≡ least (flat_map (changes.wide_in no_names) tuple.now.values) }
{
    wide_values(tuple.values.as_slice())
}

/// The first place in the tuples that is too wide.
#[tactic(auto, using(pg_rules::specs::Places::least_found, pg_rules::specs::Places::sooner_none))]
pub fn wide(tuples: &[InsertTuple]) -> Option<u32>
    ensures { result ≡ least (flat_map (λ t. flat_map (changes.wide_in no_names) t.values) tuples.now) }
{
    let mut found = None;
    for tuple in tuples {
        found = sooner(found, wide_tuple(tuple));
    }
    found
}
