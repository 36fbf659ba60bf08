//! The first place of each kind of fault in the items of SET and in a condition.
ghost use Rattle.std.specs.Prelude.{◌≡◌};
ghost use Rattle.std.specs.List.{flat_map};
ghost use Rattle.std.specs.Option.{option_to_list};
ghost use Rattle.pg_rules.specs.Catalog.{IsFew};
ghost use Rattle.pg_rules.specs.Definitions.Tables.{place_of};
ghost use Rattle.pg_rules.specs.Places.{least};
ghost use Rattle.pg_rules.specs.Changes as spec;
ghost use Rattle.pg_write.specs.ChangePasses as pass;

use pg_ast::{Name, SetItem, Whole};
use pg_catalog::{column_place, kind_at};
use pg_check::{ColumnKinds, wide_whole, wrong_whole};
use pg_rules::{ColumnEntry, place_if, sooner};
use pg_value::Kind;

/// The place of a column, 0 where there is none of the name.
pub fn place_of(columns: &[ColumnEntry], name: &Name) -> u32
    requires { IsFew columns.now }
    ensures { result ≡ place_of columns.now name.now }
{
    column_place(columns, &name.text).unwrap_or(0)
}

/// Whether a place is among some places.
fn is_place(place: u32, places: &[u32]) -> bool
    ensures { result ≡ spec.is_place place places.now }
{
    for other in places {
        if *other == place {
            return true;
        }
    }
    false
}

/// The place of an item of SET that names a key column.
fn key_set(columns: &[ColumnEntry], key: &[u32], set: &SetItem) -> Option<u32>
    requires { IsFew columns.now }
    ensures { result ≡ least (pass.key_set columns.now key.now set.now) }
{
    place_if(is_place(place_of(columns, &set.column), key), set.column.at)
}

/// The first key column that SET names.
#[tactic(auto, using(pg_rules::specs::Places::least_found, pg_rules::specs::Places::sooner_none))]
pub fn key_update(columns: &[ColumnEntry], key: &[u32], sets: &[SetItem]) -> Option<u32>
    requires { IsFew columns.now }
    ensures { result ≡ least (flat_map (pass.key_set columns.now key.now) sets.now) }
{
    let mut found = None;
    for set in sets {
        found = sooner(found, key_set(columns, key, set));
    }
    found
}

/// The first place of a wrong kind in an item of SET.
fn wrong_set(columns: &[ColumnEntry], set: &SetItem) -> Option<u32>
    requires { IsFew columns.now }
    ensures { result ≡ least (spec.wrong_set columns.now set.now) }
{
    let kind = kind_at(columns, place_of(columns, &set.column));
    wrong_whole(&ColumnKinds { columns }, kind, &set.value)
}

/// The first place of a wrong kind in SET.
#[tactic(auto, using(pg_rules::specs::Places::least_found, pg_rules::specs::Places::sooner_none))]
pub fn wrong_sets(columns: &[ColumnEntry], sets: &[SetItem]) -> Option<u32>
    requires { IsFew columns.now }
    ensures { result ≡ least (flat_map (spec.wrong_set columns.now) sets.now) }
{
    let mut found = None;
    for set in sets {
        found = sooner(found, wrong_set(columns, set));
    }
    found
}

/// The first place of a wrong kind in a condition.
pub fn wrong_condition(columns: &[ColumnEntry], condition: &Option<Whole>) -> Option<u32>
    ensures { result ≡ least (spec.wrong_condition (spec.names_of columns.now) condition.now) }
{
    match condition {
        Some(condition) => wrong_whole(&ColumnKinds { columns }, Kind::Bool, condition),
        None => None,
    }
}

/// The first place in an item of SET that is too wide.
fn wide_set(columns: &[ColumnEntry], set: &SetItem) -> Option<u32>
    ensures { result ≡ least (spec.wide_in (spec.names_of columns.now) set.now.value) }
{
    wide_whole(&ColumnKinds { columns }, &set.value)
}

/// The first place in SET that is too wide.
#[tactic(auto, using(pg_rules::specs::Places::least_found, pg_rules::specs::Places::sooner_none))]
pub fn wide_sets(columns: &[ColumnEntry], sets: &[SetItem]) -> Option<u32>
    ensures { result ≡ least (flat_map (λ s. spec.wide_in (spec.names_of columns.now) s.value) sets.now) }
{
    let mut found = None;
    for set in sets {
        found = sooner(found, wide_set(columns, set));
    }
    found
}

/// The first place in a condition that is too wide.
pub fn wide_condition(columns: &[ColumnEntry], condition: &Option<Whole>) -> Option<u32>
    ensures { result ≡ least (flat_map (spec.wide_in (spec.names_of columns.now)) (option_to_list condition.now)) }
{
    match condition {
        Some(condition) => wide_whole(&ColumnKinds { columns }, condition),
        None => None,
    }
}
