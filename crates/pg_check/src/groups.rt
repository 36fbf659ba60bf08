//! Group variables outside aggregates, and aggregates that may not stand where they do.
ghost use Rattle.std.specs.Prelude.{◌≡◌, ◌∷◌, [], None, true, false, IfOk, map};
ghost use Rattle.std.specs.List.{flat_map, list_all, list_any};
ghost use Rattle.pg_ast.specs.Trees.{tree_of};
ghost use Rattle.pg_rules.specs.Places.{least};
ghost use Rattle.pg_rules.specs.Places as places;
ghost use Rattle.pg_rules.specs.Queries.Collections.{same_name};
ghost use Rattle.pg_check.specs.Gathered.{seen_in, use_view};
ghost use Rattle.pg_check.specs.UsePlaces as pass;

use crate::uses::{UseOf, uses};
use crate::variables::Variables;
use pg_ast::{Expr, Name};
use pg_rules::{place_if, sooner};
use std::alloc::{AllocError, Global};

/// Whether a variable stands for one element for each round of its part.
fn is_group(variables: &Variables<'_>, name: &Name) -> bool
    ensures { result ≡ pass.is_yes (pass.rounds variables.now name.now) }
{
    match variables.is_grouped(name) {
        Some(grouped) => grouped,
        None => false,
    }
}

/// Whether a variable stands for one element.
fn is_single(variables: &Variables<'_>, name: &Name) -> bool
    ensures { result ≡ pass.is_no (pass.rounds variables.now name.now) }
{
    match variables.is_grouped(name) {
        Some(grouped) => !grouped,
        None => false,
    }
}

/// The place of a group variable outside aggregates.
fn bare(variables: &Variables<'_>, used: UseOf<'_>) -> Option<u32>
    ensures { result ≡ least (pass.bare variables.now (use_view used.entry)) }
{
    let group = is_group(variables, used.variable);
    place_if(!used.inside && group, used.variable.at)
}

/// The first group variable of some uses outside aggregates.
#[tactic(auto, using(pg_rules::specs::Places::least_found, pg_rules::specs::Places::sooner_none))]
fn bare_of(variables: &Variables<'_>, used: &[UseOf<'_>]) -> Option<u32>
    ensures { result ≡ least (flat_map (λ u. pass.bare variables.now (use_view u)) used.now) }
{
    let mut found = None;
    for one in used {
        found = sooner(found, bare(variables, *one));
    }
    found
}

/// The first group variable of an expression outside aggregates.
fn bare_in(alloc: Global, variables: &Variables<'_>, expr: &Expr) -> Result<Option<u32>, AllocError>
    ensures { IfOk result (λ r. r ≡ least (flat_map (pass.bare variables.now) (seen_in false (tree_of expr.now)))) }
{
    let used = uses(alloc, false, expr)?;
    Ok(bare_of(variables, &used))
}

/// The first group variable of some expressions outside aggregates.
#[tactic(auto, using(pg_rules::specs::Places::least_found, pg_rules::specs::Places::sooner_none))]
pub fn bare_among(
    alloc: Global,
    variables: &Variables<'_>,
    exprs: &[&Expr],
) -> Result<Option<u32>, AllocError>
    ensures { IfOk result (λ r. r ≡ least (flat_map (λ e. flat_map (pass.bare variables.now) (seen_in false (tree_of e.now))) exprs.now)) }
{
    let mut found = None;
    for expr in exprs {
        let place = bare_in(alloc, variables, expr)?;
        found = sooner(found, place);
    }
    Ok(found)
}

/// Whether all of some uses are of one variable.
fn are_of(name: &Name, used: &[UseOf<'_>]) -> bool
    ensures { result ≡ list_all (λ u. same_name name.now u.variable) (map use_view used.now) }
{
    for one in used {
        if name.text != one.variable.text {
            return false;
        }
    }
    true
}

/// Whether there are uses, and all are of one variable.
fn are_of_one(used: &[UseOf<'_>]) -> bool
    ensures { result ≡ pass.are_of_one (map use_view used.now) }
{
    match used {
        [first, others @ ..] => are_of(first.variable, others),
        [] => false,
    }
}

/// Whether one of some uses is of a variable that stands for one element.
fn any_single(variables: &Variables<'_>, used: &[UseOf<'_>]) -> bool
    ensures { result ≡ list_any (pass.is_single variables.now) (map use_view used.now) }
{
    for one in used {
        if is_single(variables, one.variable) {
            return true;
        }
    }
    false
}

/// Whether an aggregate over some uses is at fault, which stands in another or does not.
fn is_misused(variables: &Variables<'_>, inside: bool, used: &[UseOf<'_>]) -> bool
    ensures { result ≡ pass.is_misused variables.now inside (map use_view used.now) }
{
    let of_one = are_of_one(used);
    let single = any_single(variables, used);
    inside || (!of_one || single)
}

/// The place of an aggregate over an expression that is at fault, which stands in another or does not.
fn misused_over(
    alloc: Global,
    variables: &Variables<'_>,
    inside: bool,
    argument: &Expr,
    at: u32,
) -> Result<Option<u32>, AllocError>
    ensures { IfOk result (λ r. r ≡ least (places.place_if (pass.is_misused variables.now inside (seen_in true (tree_of argument.now))) at)) }
{
    let used = uses(alloc, true, argument)?;
    Ok(place_if(is_misused(variables, inside, &used), at))
}

/// The place of COUNT of a variable that is at fault, which stands in another aggregate or does not.
fn misused_count(variables: &Variables<'_>, inside: bool, name: &Name, at: u32) -> Option<u32>
    ensures { result ≡ least (places.place_if (pass.is_misused variables.now inside (record { variable = name.now; property = None; inside = true } ∷ [])) at) }
{
    place_if(inside || is_single(variables, name), at)
}

/// The first aggregate of an expression that is at fault; the expression stands in an aggregate or does not.
#[tactic(auto, using(pg_ast::specs::Trees::is_unary, pg_ast::specs::Trees::is_binary, pg_ast::specs::Trees::is_agg, pg_rules::specs::Places::least_append))]
fn misused_in(
    alloc: Global,
    variables: &Variables<'_>,
    inside: bool,
    expr: &Expr,
) -> Result<Option<u32>, AllocError>
    ensures { IfOk result (λ r. r ≡ least (pass.misused_from variables.now inside (tree_of expr.now))) }
{
    match expr {
        Expr::Unary { arg, .. } => misused_in(alloc, variables, inside, arg.get()),
        Expr::Binary { left, right, .. } => {
            let first = misused_in(alloc, variables, inside, left.get())?;
            let second = misused_in(alloc, variables, inside, right.get())?;
            Ok(sooner(first, second))
        }
        Expr::Agg { arg, at, .. } => {
            let own = misused_over(alloc, variables, inside, arg.get(), *at)?;
            let inner = misused_in(alloc, variables, true, arg.get())?;
            Ok(sooner(own, inner))
        }
        Expr::CountVar { var, at } => Ok(misused_count(variables, inside, var, *at)),
        _ => Ok(None),
    }
}

/// The first aggregate of some expressions that is at fault.
#[tactic(auto, using(pg_rules::specs::Places::least_found, pg_rules::specs::Places::sooner_none))]
pub fn misused_among(
    alloc: Global,
    variables: &Variables<'_>,
    exprs: &[&Expr],
) -> Result<Option<u32>, AllocError>
    ensures { IfOk result (λ r. r ≡ least (flat_map (λ e. pass.misused_from variables.now false (tree_of e.now)) exprs.now)) }
{
    let mut found = None;
    for expr in exprs {
        let place = misused_in(alloc, variables, false, expr)?;
        found = sooner(found, place);
    }
    Ok(found)
}

/// The first aggregate of an expression.
#[tactic(auto, using(pg_ast::specs::Trees::is_unary, pg_ast::specs::Trees::is_binary, pg_ast::specs::Trees::is_agg, pg_rules::specs::Places::least_append))]
fn aggregate_in(expr: &Expr) -> Option<u32>
    ensures { result ≡ least (pass.aggregate_places (tree_of expr.now)) }
{
    match expr {
        Expr::Unary { arg, .. } => aggregate_in(arg.get()),
        Expr::Binary { left, right, .. } => {
            let first = aggregate_in(left.get());
            let second = aggregate_in(right.get());
            sooner(first, second)
        }
        Expr::Agg { arg, at, .. } => sooner(Some(*at), aggregate_in(arg.get())),
        Expr::CountVar { at, .. } => Some(*at),
        _ => None,
    }
}

/// The first aggregate of some expressions.
#[tactic(auto, using(pg_rules::specs::Places::least_found, pg_rules::specs::Places::sooner_none))]
pub fn aggregate_among(exprs: &[&Expr]) -> Option<u32>
    ensures { result ≡ least (flat_map (λ e. pass.aggregate_places (tree_of e.now)) exprs.now) }
{
    let mut found = None;
    for expr in exprs {
        found = sooner(found, aggregate_in(expr));
    }
    found
}
