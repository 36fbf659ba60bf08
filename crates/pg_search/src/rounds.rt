//! The rounds that fit from a vertex, as walks by their numbers: each goes on from one walk.
ghost use Rattle.std.specs.Prelude.{◌≡◌, ◌<◌, [], ◌∷◌, length, map, flat_map, IfOk, OnOk};
ghost use Rattle.pg_keyed.specs.Lists.{Each};
ghost use Rattle.pg_auto.specs.Autos.{leg_view};
ghost use Rattle.pg_search.specs.Hops.{IsCheckedLeg};
ghost use Rattle.pg_search.specs.Numbers.{hops_at};
ghost use Rattle.pg_search.specs.Rounds as spec;
ghost use Rattle.pg_search.specs.Rounds.{AreAlong};
ghost use Rattle.pg_search.specs.Steps.{AreAdded};

use crate::hops::hops_of;
use crate::numbered::Numbered;
use pg_auto::Leg;
use pg_chunks::Steps;
use pg_value::{GraphShape, List};
use pg_view::{Neighbour, View};
use std::alloc::{AllocError, Global};
use std::sync::ledger::Ledger;

/// Appends the numbers of a walk with each of some hops behind it.
fn push_steps(
    numbers: &mut Numbered<'_>,
    walk: usize,
    hops: List<Neighbour>,
    out: &mut Vec<usize>,
) -> Result<(), AllocError>
    requires { walk < length numbers.old.walks }
    ensures { OnOk result (AreAdded numbers.old numbers.new out.old.items out.new.items (map (spec.with_hop (hops_at numbers.old walk)) hops)) }
{
    for hop in hops.into_vec() {
        let number = numbers.step(walk, hop)?;
        out.push(number)?;
    }
    Ok(())
}

/// Appends the numbers of a walk with each hop over a leg behind it.
fn push_longer<V: View, L: Ledger>(
    view: &V,
    alloc: Global,
    graph: &GraphShape,
    leg: &Leg<'_>,
    walk: usize,
    numbers: &mut Numbered<'_>,
    out: &mut Vec<usize>,
    steps: &mut Steps<L>,
) -> Result<(), AllocError>
    requires leg { IsCheckedLeg (V.shapes view.now) (leg_view leg.now) }
    requires walk { walk < length numbers.old.walks }
    ensures { OnOk result (AreAdded numbers.old numbers.new out.old.items out.new.items (spec.longer (V.shapes view.now) graph.now (V.tables view.now) numbers.old.start (leg_view leg.now) (hops_at numbers.old walk))) }
{
    let last = numbers.last(walk);
    let hops = hops_of(view, alloc, graph, leg, numbers.elem(last), steps)?;
    push_steps(numbers, walk, hops, out)
}

/// Appends the numbers of some walks, each with each hop over a leg behind it.
fn push_all_longer<V: View, L: Ledger>(
    view: &V,
    alloc: Global,
    graph: &GraphShape,
    leg: &Leg<'_>,
    walks: Vec<usize>,
    numbers: &mut Numbered<'_>,
    out: &mut Vec<usize>,
    steps: &mut Steps<L>,
) -> Result<(), AllocError>
    requires leg { IsCheckedLeg (V.shapes view.now) (leg_view leg.now) }
    requires walks { Each (λ k. k < length numbers.old.walks) walks.items }
    ensures { OnOk result (AreAdded numbers.old numbers.new out.old.items out.new.items (flat_map (spec.longer (V.shapes view.now) graph.now (V.tables view.now) numbers.old.start (leg_view leg.now)) (map (hops_at numbers.old) walks.items))) }
{
    for walk in walks {
        push_longer(view, alloc, graph, leg, walk, numbers, out, steps)?;
    }
    Ok(())
}

/// The numbers of some walks, each with hops over all of some legs behind it. It goes leg by leg, of which a round has at
/// most three.
pub fn along<V: View, L: Ledger>(
    view: &V,
    alloc: Global,
    graph: &GraphShape,
    legs: &[Leg<'_>],
    walks: Vec<usize>,
    numbers: &mut Numbered<'_>,
    steps: &mut Steps<L>,
) -> Result<Vec<usize>, AllocError>
    requires legs { Each (IsCheckedLeg (V.shapes view.now)) (map leg_view legs.now) }
    requires walks { Each (λ k. k < length numbers.old.walks) walks.items }
    ensures { IfOk result (λ found. AreAlong numbers.old numbers.new found.items (spec.along (V.shapes view.now) graph.now (V.tables view.now) numbers.old.start (map leg_view legs.now) (map (hops_at numbers.old) walks.items))) }
{
    match legs {
        [] => Ok(walks),
        [leg, legs @ ..] => {
            let mut next = Vec::new(alloc);
            push_all_longer(view, alloc, graph, leg, walks, numbers, &mut next, steps)?;
            along(view, alloc, graph, legs, next, numbers, steps)
        }
    }
}
