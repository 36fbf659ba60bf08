//! Property names that have two kinds in a graph.
ghost use Rattle.std.specs.Prelude.{◌≡◌, [], ◌∷◌, IfOk, OnOk, cond, map};
ghost use Rattle.std.specs.List.{flat_map};
ghost use Rattle.pg_rules.specs.Places.{least};
ghost use Rattle.pg_rules.specs.Definitions.Graphs as spec;
ghost use Rattle.pg_catalog.specs.NameSets.{add};
ghost use Rattle.pg_catalog.specs.PropertyRows as pass;
ghost use Rattle.pg_catalog.specs.PropertyRows.{row_view};

use crate::graph::property_rows::{Row, any_of, rows};
use crate::name_set::NameSet;
use pg_rules::{ElementEntry, PlacedElement, place_if, sooner};
use pg_value::{Kind, same_kind};
use std::alloc::{AllocError, Global};

impl<'a> NameSet<'a> {
    /// Adds a name, where it is asked for.
    fn add_if(&mut self, asked: bool, name: &'a str) -> Result<(), AllocError>
        ensures { OnOk result (self.new ≡ cond asked (add self.old name.now) self.old) }
    {
        if !asked {
            return Ok(());
        }
        match self.add(name) {
            Ok(_) => Ok(()),
            Err(_) => Err(AllocError),
        }
    }

    /// Adds the names of the properties of one kind.
    fn add_of_kind(&mut self, kind: Kind, rows: &[Row<'a>]) -> Result<(), AllocError>
        ensures { OnOk result (self.new ≡ pass.names_after kind self.old (map row_view rows.now)) }
    {
        for row in rows {
            self.add_if(same_kind(kind, row.kind), row.name)?;
        }
        Ok(())
    }
}

/// Whether a row of another kind has one of some names.
fn is_clash(kind: Kind, names: &NameSet<'_>, row: &Row<'_>) -> bool
    ensures { result ≡ pass.is_clash kind names.now (row_view row.now) }
{
    let is_kind = same_kind(kind, row.kind);
    let is_name = names.contains(row.name);
    !is_kind && is_name
}

/// Whether some row of another kind has one of some names.
fn clash_any(kind: Kind, names: &NameSet<'_>, rows: &[Row<'_>]) -> bool
    ensures { result ≡ pass.clash_with kind names.now (map row_view rows.now) }
{
    for row in rows {
        if is_clash(kind, names, row) {
            return true;
        }
    }
    false
}

/// Whether some row has another kind than one of the first rows of its name, which has this kind.
fn clash_kind(
    alloc: Global,
    kind: Kind,
    first: &[Row<'_>],
    second: &[Row<'_>],
) -> Result<bool, AllocError>
    ensures { IfOk result (λ b. b ≡ pass.clash_with kind (pass.names_after kind [] (map row_view first.now)) (map row_view second.now)) }
{
    let mut names = NameSet::new(alloc);
    match names.add_of_kind(kind, first) {
        Ok(()) => Ok(clash_any(kind, &names, second)),
        Err(_) => Err(AllocError),
    }
}

/// Whether some row has another kind than one of the first rows of its name.
fn clash_rows(alloc: Global, first: &[Row<'_>], second: &[Row<'_>]) -> Result<bool, AllocError>
    ensures { IfOk result (λ b. b ≡ pass.clash_by_kind (map row_view first.now) (map row_view second.now)) }
{
    let ints = clash_kind(alloc, Kind::Int, first, second)?;
    let texts = clash_kind(alloc, Kind::Text, first, second)?;
    let bools = clash_kind(alloc, Kind::Bool, first, second)?;
    Ok(any_of(ints, texts, bools))
}

/// Whether a property name of both element tables has two kinds.
fn clash(alloc: Global, e: &ElementEntry, f: &ElementEntry) -> Result<bool, AllocError>
    ensures { IfOk result (λ b. b ≡ spec.clash e.now f.now) }
{
    let first = rows(alloc, e)?;
    let second = rows(alloc, f)?;
    clash_rows(alloc, &first, &second)
}

/// The first of some element tables on which a property has another kind than on an earlier one.
#[tactic(auto, using(pg_rules::specs::Places::least_found, pg_rules::specs::Places::sooner_none))]
fn clash_later(
    alloc: Global,
    e: &ElementEntry,
    later: &[PlacedElement],
) -> Result<Option<u32>, AllocError>
    ensures { IfOk result (λ r. r ≡ least (flat_map (spec.at_if spec.clash e.now) later.now)) }
{
    let mut found = None;
    for f in later {
        let clashes = clash(alloc, e, &f.element)?;
        found = sooner(found, place_if(clashes, f.at));
    }
    Ok(found)
}

/// The first element table on which a property has another kind than on an earlier one.
#[tactic(auto, using(pg_rules::specs::Places::least_found, pg_rules::specs::Places::sooner_none))]
pub fn type_mismatch(alloc: Global, elements: &[PlacedElement]) -> Result<Option<u32>, AllocError>
    ensures { IfOk result (λ r. r ≡ least (spec.type_mismatch elements.now)) }
{
    let mut found = None;
    for (i, e) in elements.iter().enumerate() {
        let later = clash_later(alloc, &e.element, &elements[i + 1..])?;
        found = sooner(found, later);
    }
    Ok(found)
}
