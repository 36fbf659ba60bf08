//! What a round names, and whether it agrees.
ghost use Rattle.std.specs.Prelude.{◌≡◌, ◌++◌, map, IfOk, OnOk};
ghost use Rattle.std.specs.List.{list_all};
ghost use Rattle.std.specs.Option.{option_copied};
ghost use Rattle.pg_meaning.specs.Fits as fits;
ghost use Rattle.pg_expr.specs.Mentions.{mention_view};
ghost use Rattle.pg_auto.specs.Autos.{leg_view, stage_view};
ghost use Rattle.pg_auto.specs.Tests as spec;
ghost use Rattle.pg_auto.specs.Successors as successors;
ghost use Rattle.pg_search.specs.Checked.{IsCheckedStage};
ghost use Rattle.pg_short.specs.Rounds.{hops_in, reading};

use pg_auto::{Leg, Stage};
use pg_expr::Mention;
use pg_meaning::CFiller;
use pg_search::meets;
use pg_value::{ElemId, GraphShape};
use pg_view::{Neighbour, View};
use std::alloc::{AllocError, Global};

/// Appends what a node or an edge names.
fn push_mention<'a>(
    filler: &CFiller,
    elem: &'a ElemId,
    seen: &mut Vec<Mention<'a>>,
) -> Result<(), AllocError>
    ensures { OnOk result (map mention_view seen.new.items ≡ map mention_view seen.old.items ++ fits.mention filler.now elem.now) }
{
    if let Some(var) = filler.var {
        seen.push(Mention { var, elem })?;
    }
    Ok(())
}

/// Appends what a node that may ask nothing names.
fn push_node<'a>(
    node: Option<&CFiller>,
    elem: &'a ElemId,
    seen: &mut Vec<Mention<'a>>,
) -> Result<(), AllocError>
    ensures { OnOk result (map mention_view seen.new.items ≡ map mention_view seen.old.items ++ fits.node_mention (option_copied node.entry) elem.now) }
{
    match node {
        Some(filler) => push_mention(filler, elem, seen),
        None => Ok(()),
    }
}

/// Appends what legs, which are few, name over hops.
fn push_on_legs<'a>(
    legs: &[Leg<'_>],
    hops: &'a [Neighbour],
    seen: &mut Vec<Mention<'a>>,
) -> Result<(), AllocError>
    ensures { OnOk result (map mention_view seen.new.items ≡ map mention_view seen.old.items ++ fits.seen_on_legs (map leg_view legs.now) (hops_in hops.now)) }
{
    if let [leg, legs @ ..] = legs {
        if let [hop, hops @ ..] = hops {
            push_mention(leg.edge, &hop.edge, seen)?;
            push_node(leg.node, &hop.other, seen)?;
            push_on_legs(legs, hops, seen)?;
        }
    }
    Ok(())
}

/// What a round names, in order.
pub fn seen_in<'a>(
    alloc: Global,
    stage: &Stage<'_>,
    vertex: &'a ElemId,
    hops: &'a [Neighbour],
) -> Result<Vec<Mention<'a>>, AllocError>
    ensures { IfOk result (λ seen. map mention_view seen.items ≡ fits.seen_in (stage_view stage.now).round vertex.now (hops_in hops.now)) }
{
    let mut seen = Vec::new(alloc);
    push_node(stage.node, vertex, &mut seen)?;
    push_on_legs(stage.legs.as_slice(), hops, &mut seen)?;
    Ok(seen)
}

/// Whether two mentions that are of one variable name one element.
fn fits_mention(one: &Mention<'_>, other: &Mention<'_>) -> bool
    ensures { result ≡ spec.fits_mention (mention_view one.now) (mention_view other.now) }
{
    one.var != other.var || *one.elem == *other.elem
}

/// Whether a mention names what others of its variable name.
fn fits_all(one: &Mention<'_>, others: &[Mention<'_>]) -> bool
    ensures { result ≡ list_all (spec.fits_mention (mention_view one.now)) (map mention_view others.now) }
{
    for other in others {
        if !fits_mention(one, other) {
            return false;
        }
    }
    true
}

/// Whether the mentions of a round, which are few, agree.
pub fn agrees(seen: &[Mention<'_>]) -> bool
    ensures { result ≡ spec.agrees (map mention_view seen.now) }
{
    match seen {
        [] => true,
        [one, others @ ..] => fits_all(one, others) && agrees(others),
    }
}

/// Whether the variables of a round agree, and its condition is true.
pub fn is_round<V: View>(
    alloc: Global,
    view: &V,
    graph: &GraphShape,
    stage: &Stage<'_>,
    vertex: &ElemId,
    hops: &[Neighbour],
) -> Result<bool, AllocError>
    requires { IsCheckedStage (V.shapes view.now) (stage_view stage.now) }
    ensures { IfOk result (λ holds. holds ≡ successors.is_round (reading (V.shapes view.now) (V.tables view.now) graph.now vertex.now) (stage_view stage.now) vertex.now (hops_in hops.now)) }
{
    let _ = graph;
    let seen = seen_in(alloc, stage, vertex, hops)?;
    Ok(agrees(seen.as_slice()) && meets(view, stage.cond, seen.as_slice()))
}
