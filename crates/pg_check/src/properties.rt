//! Properties that do not exist, and variables that no pattern names.
ghost use Rattle.std.specs.Prelude.{◌≡◌, false, IfOk};
ghost use Rattle.std.specs.List.{flat_map};
ghost use Rattle.pg_ast.specs.Trees.{tree_of};
ghost use Rattle.pg_rules.specs.Places.{least};
ghost use Rattle.pg_check.specs.Gathered.{seen_in, use_view};
ghost use Rattle.pg_check.specs.UsePlaces as pass;

use crate::uses::{UseOf, uses};
use crate::variables::Variables;
use pg_ast::Expr;
use pg_catalog::NameSet;
use pg_rules::{place_if, sooner};
use std::alloc::{AllocError, Global};

/// The place of a property that is none of some names.
fn missing(names: &NameSet<'_>, used: UseOf<'_>) -> Option<u32>
    ensures { result ≡ least (pass.missing names.now (use_view used.entry)) }
{
    match used.property {
        Some(name) => place_if(!names.has(&name.text), name.at),
        None => None,
    }
}

/// The first property of some uses that is none of some names.
#[tactic(auto, using(pg_rules::specs::Places::least_found, pg_rules::specs::Places::sooner_none))]
fn missing_of(names: &NameSet<'_>, used: &[UseOf<'_>]) -> Option<u32>
    ensures { result ≡ least (flat_map (λ u. pass.missing names.now (use_view u)) used.now) }
{
    let mut found = None;
    for one in used {
        found = sooner(found, missing(names, *one));
    }
    found
}

/// The first property of an expression that is none of some names.
fn missing_in(alloc: Global, names: &NameSet<'_>, expr: &Expr) -> Result<Option<u32>, AllocError>
    ensures { IfOk result (λ r. r ≡ least (flat_map (pass.missing names.now) (seen_in false (tree_of expr.now)))) }
{
    let used = uses(alloc, false, expr)?;
    Ok(missing_of(names, &used))
}

/// The first property of some expressions that is none of some names.
#[tactic(auto, using(pg_rules::specs::Places::least_found, pg_rules::specs::Places::sooner_none))]
pub fn missing_among(
    alloc: Global,
    names: &NameSet<'_>,
    exprs: &[&Expr],
) -> Result<Option<u32>, AllocError>
    ensures { IfOk result (λ r. r ≡ least (flat_map (λ e. flat_map (pass.missing names.now) (seen_in false (tree_of e.now))) exprs.now)) }
{
    let mut found = None;
    for expr in exprs {
        let place = missing_in(alloc, names, expr)?;
        found = sooner(found, place);
    }
    Ok(found)
}

/// The place of a variable that is none of some.
fn unknown(variables: &Variables<'_>, used: UseOf<'_>) -> Option<u32>
    ensures { result ≡ least (pass.unknown variables.now (use_view used.entry)) }
{
    place_if(!variables.has(used.variable), used.variable.at)
}

/// The first variable of some uses that is none of some.
#[tactic(auto, using(pg_rules::specs::Places::least_found, pg_rules::specs::Places::sooner_none))]
fn unknown_of(variables: &Variables<'_>, used: &[UseOf<'_>]) -> Option<u32>
    ensures { result ≡ least (flat_map (λ u. pass.unknown variables.now (use_view u)) used.now) }
{
    let mut found = None;
    for one in used {
        found = sooner(found, unknown(variables, *one));
    }
    found
}

/// The first variable of an expression that is none of some.
fn unknown_in(
    alloc: Global,
    variables: &Variables<'_>,
    expr: &Expr,
) -> Result<Option<u32>, AllocError>
    ensures { IfOk result (λ r. r ≡ least (flat_map (pass.unknown variables.now) (seen_in false (tree_of expr.now)))) }
{
    let used = uses(alloc, false, expr)?;
    Ok(unknown_of(variables, &used))
}

/// The first variable of some expressions that is none of some.
#[tactic(auto, using(pg_rules::specs::Places::least_found, pg_rules::specs::Places::sooner_none))]
pub fn unknown_among(
    alloc: Global,
    variables: &Variables<'_>,
    exprs: &[&Expr],
) -> Result<Option<u32>, AllocError>
    ensures { IfOk result (λ r. r ≡ least (flat_map (λ e. flat_map (pass.unknown variables.now) (seen_in false (tree_of e.now))) exprs.now)) }
{
    let mut found = None;
    for expr in exprs {
        let place = unknown_in(alloc, variables, expr)?;
        found = sooner(found, place);
    }
    Ok(found)
}
