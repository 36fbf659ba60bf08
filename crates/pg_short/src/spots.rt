//! Where a search stands.
ghost use Rattle.std.specs.Prelude.{◌≡◌, ◌++◌, ◌&&◌, filter, cond, [], ◌∷◌, map, drop, IfOk, OnOk, not};
ghost use Rattle.std.specs.List.{list_any, list_all};
ghost use Rattle.std.specs.Option.{option_copied};
ghost use Rattle.pg_expr.specs.Mentions.{mention_view};
ghost use Rattle.pg_auto.specs.Autos.{leg_view, stage_view};
ghost use Rattle.pg_auto.specs.Stages as stages;
ghost use Rattle.pg_auto.specs.Tests.{fits_mention};
ghost use Rattle.pg_short.specs.Spots as spec;
ghost use Rattle.pg_short.specs.Steps.{named_view, spot_view, fits_names};

use crate::rounds::copy_elem;
use pg_auto::{Leg, Stage};
use pg_expr::Mention;
use pg_meaning::CFiller;
use pg_value::ElemId;
use std::alloc::{AllocError, Global};

/// An element that stands for a variable that a stage to come names too.
#[derive(PartialEq, Eq, Hash, Drop)]
pub struct Named {
    pub var: u32,
    pub elem: ElemId,
}

/// A place of the automaton at a vertex, and what has been named that a stage to come names too.
#[derive(PartialEq, Eq, Hash, Drop)]
pub struct Spot {
    pub stage: usize,
    pub done: u32,
    pub at: ElemId,
    pub names: Vec<Named>,
}

/// Whether a node or an edge names a variable.
fn is_of(var: u32, filler: &CFiller) -> bool
    ensures { result ≡ stages.is_of var filler.now }
{
    match filler.var {
        None => false,
        Some(named) => named == var,
    }
}

/// Whether a node that may ask nothing names a variable.
fn is_of_node(var: u32, node: Option<&CFiller>) -> bool
    ensures { result ≡ stages.is_of_node var (option_copied node.entry) }
{
    match node {
        None => false,
        Some(filler) => is_of(var, filler),
    }
}

/// Whether a leg names a variable.
fn is_of_leg(var: u32, leg: &Leg<'_>) -> bool
    ensures { result ≡ stages.is_of_leg var (leg_view leg.now) }
{
    is_of(var, leg.edge) || is_of_node(var, leg.node)
}

/// Whether some legs name a variable.
fn are_of(var: u32, legs: &[Leg<'_>]) -> bool
    ensures { result ≡ list_any (stages.is_of_leg var) (map leg_view legs.now) }
{
    for leg in legs {
        if is_of_leg(var, leg) {
            return true;
        }
    }
    false
}

/// Whether a stage stands once and names a variable.
fn names(var: u32, stage: &Stage<'_>) -> bool
    ensures { result ≡ spec.names var (stage_view stage.now) }
{
    !stage.grouped && (is_of_node(var, stage.node) || are_of(var, stage.legs.as_slice()))
}

/// Whether one of some stages stands once and names a variable.
fn is_named(var: u32, stages: &[Stage<'_>]) -> bool
    ensures { result ≡ list_any (spec.names var) (map stage_view stages.now) }
{
    for stage in stages {
        if names(var, stage) {
            return true;
        }
    }
    false
}

/// Appends an element where one of some stages names its variable.
fn push_needed(
    alloc: Global,
    stages: &[Stage<'_>],
    var: u32,
    elem: &ElemId,
    out: &mut Vec<Named>,
) -> Result<(), AllocError>
    ensures { OnOk result (map named_view out.new.items ≡ map named_view out.old.items ++ cond (list_any (spec.names var) (map stage_view stages.now)) (record { var = var; elem = elem.now } ∷ []) []) }
{
    if is_named(var, stages) {
        let elem = copy_elem(alloc, elem)?;
        out.push(Named { var, elem })?;
    }
    Ok(())
}

/// Appends those of some names that some stages need.
pub fn push_names(
    alloc: Global,
    stages: &[Stage<'_>],
    names: &[Named],
    out: &mut Vec<Named>,
) -> Result<(), AllocError>
    ensures { OnOk result (map named_view out.new.items ≡ map named_view out.old.items ++ filter (λ m. list_any (spec.names m.var) (map stage_view stages.now)) (map named_view names.now)) }
{
    for name in names {
        push_needed(alloc, stages, name.var, &name.elem, out)?;
    }
    Ok(())
}

/// Appends those of some mentions that some stages need.
pub fn push_mentions(
    alloc: Global,
    stages: &[Stage<'_>],
    seen: &[Mention<'_>],
    out: &mut Vec<Named>,
) -> Result<(), AllocError>
    ensures { OnOk result (map named_view out.new.items ≡ map named_view out.old.items ++ filter (λ m. list_any (spec.names m.var) (map stage_view stages.now)) (map mention_view seen.now)) }
{
    for mention in seen {
        push_needed(alloc, stages, mention.var, mention.elem, out)?;
    }
    Ok(())
}

/// Whether a mention and a name that are of one variable name one element.
fn fits_name(mention: &Mention<'_>, name: &Named) -> bool
    ensures { result ≡ fits_mention (mention_view mention.now) (named_view name.now) }
{
    mention.var != name.var || *mention.elem == name.elem
}

/// Whether a mention names what names of its variable do.
fn fits_all(mention: &Mention<'_>, names: &[Named]) -> bool
    ensures { result ≡ list_all (fits_mention (mention_view mention.now)) (map named_view names.now) }
{
    for name in names {
        if !fits_name(mention, name) {
            return false;
        }
    }
    true
}

/// Whether what a round names, which is little, agrees with what is kept of what was named before.
pub fn fits_names(names: &[Named], seen: &[Mention<'_>]) -> bool
    ensures { result ≡ fits_names (map named_view names.now) (map mention_view seen.now) }
{
    for mention in seen {
        if !fits_all(mention, names) {
            return false;
        }
    }
    true
}

/// Appends an equal name.
fn push_copy(alloc: Global, name: &Named, out: &mut Vec<Named>) -> Result<(), AllocError>
    ensures { OnOk result (map named_view out.new.items ≡ map named_view out.old.items ++ named_view name.now ∷ []) }
{
    let elem = copy_elem(alloc, &name.elem)?;
    out.push(Named {
        var: name.var,
        elem,
    })?;
    Ok(())
}

/// Equal names.
fn copy_names(alloc: Global, names: &[Named]) -> Result<Vec<Named>, AllocError>
    ensures { IfOk result (λ copy. map named_view copy.items ≡ map named_view names.now) }
{
    let mut copy = Vec::new(alloc);
    for name in names {
        push_copy(alloc, name, &mut copy)?;
    }
    Ok(copy)
}

/// An equal spot.
pub fn copy_spot(alloc: Global, spot: &Spot) -> Result<Spot, AllocError>
    ensures { IfOk result (λ copy. spot_view copy ≡ spot_view spot.now) }
{
    let at = copy_elem(alloc, &spot.at)?;
    let names = copy_names(alloc, spot.names.as_slice())?;
    Ok(Spot {
        stage: spot.stage,
        done: spot.done,
        at,
        names,
    })
}
