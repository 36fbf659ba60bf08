//! Conditions inside patterns that use other variables than their own.
ghost use Rattle.std.specs.Prelude.{◌≡◌, ◌++◌, [], IfOk, OnOk};
ghost use Rattle.std.specs.List.{flat_map};
ghost use Rattle.std.specs.Option.{option_to_list};
ghost use Rattle.pg_rules.specs.Places.{least};
ghost use Rattle.pg_rules.specs.Queries.Collections.{named};
ghost use Rattle.pg_catalog.specs.NameSets.{add_all};
ghost use Rattle.pg_check.specs.Gathered.{use_view};
ghost use Rattle.pg_check.specs.Passes.{inner_view, own_names as own_of};
ghost use Rattle.pg_check.specs.UsePlaces as pass;

use crate::gather::{InnerCondition, Own};
use crate::uses::{UseOf, uses};
use pg_ast::Filler;
use pg_catalog::NameSet;
use pg_rules::{place_if, sooner};
use std::alloc::{AllocError, Global};

/// Adds the variable of a node or an edge.
fn add_variable<'a>(filler: &'a Filler, names: &mut NameSet<'a>) -> Result<(), AllocError>
    ensures { OnOk result (names.new ≡ add_all names.old (pass.texts_of (option_to_list filler.now.var))) }
{
    match &filler.var {
        Some(name) => {
            names.add(name.text.as_str())?;
            Ok(())
        }
        None => Ok(()),
    }
}

/// Adds the variables of some nodes or edges.
fn add_variables<'a>(fillers: &'a [Filler], names: &mut NameSet<'a>) -> Result<(), AllocError>
    ensures { OnOk result (names.new ≡ add_all names.old (pass.texts_of (named fillers.now))) }
{
    for filler in fillers {
        add_variable(filler, names)?;
    }
    Ok(())
}

/// Adds the variables that a condition may use.
fn add_own<'a>(own: Own<'a>, names: &mut NameSet<'a>) -> Result<(), AllocError>
    ensures { OnOk result (names.new ≡ add_all names.old (pass.texts_of (own_of own.entry))) }
{
    match own {
        Own::Alone(filler) => add_variable(filler, names),
        Own::Together(nodes, edges) => {
            add_variables(nodes, names)?;
            add_variables(edges, names)
        }
    }
}

/// The names of the variables that a condition may use.
fn own_names(alloc: Global, own: Own<'_>) -> Result<NameSet<'_>, AllocError>
    ensures { IfOk result (λ names. names ≡ add_all [] (pass.texts_of (own_of own.entry))) }
{
    let mut names = NameSet::new(alloc);
    match add_own(own, &mut names) {
        Ok(()) => Ok(names),
        Err(_) => Err(AllocError),
    }
}

/// The place of a variable that is none of some names.
fn foreign(names: &NameSet<'_>, used: UseOf<'_>) -> Option<u32>
    ensures { result ≡ least (pass.foreign names.now (use_view used.entry)) }
{
    place_if(!names.has(&used.variable.text), used.variable.at)
}

/// The first variable of some uses that is none of some names.
#[tactic(auto, using(pg_rules::specs::Places::least_found, pg_rules::specs::Places::sooner_none))]
fn foreign_of(names: &NameSet<'_>, used: &[UseOf<'_>]) -> Option<u32>
    ensures { result ≡ least (flat_map (λ u. pass.foreign names.now (use_view u)) used.now) }
{
    let mut found = None;
    for one in used {
        found = sooner(found, foreign(names, *one));
    }
    found
}

/// The first variable in a condition that is not its own.
fn foreign_in(alloc: Global, inner: InnerCondition<'_>) -> Result<Option<u32>, AllocError>
    ensures { IfOk result (λ r. r ≡ least (pass.strays_in (inner_view inner.entry))) }
{
    let names = own_names(alloc, inner.own)?;
    let used = uses(alloc, false, &inner.condition.expr)?;
    Ok(foreign_of(&names, &used))
}

/// The first variable in a condition inside a pattern that is not the condition's own.
#[tactic(auto, using(pg_rules::specs::Places::least_found, pg_rules::specs::Places::sooner_none))]
pub fn foreign_among(
    alloc: Global,
    conditions: &[InnerCondition<'_>],
) -> Result<Option<u32>, AllocError>
    ensures { IfOk result (λ r. r ≡ least (flat_map (λ i. pass.strays_in (inner_view i)) conditions.now)) }
{
    let mut found = None;
    for inner in conditions {
        let place = foreign_in(alloc, *inner)?;
        found = sooner(found, place);
    }
    Ok(found)
}
