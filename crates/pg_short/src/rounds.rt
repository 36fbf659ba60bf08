//! The rounds of a stage that fit from a vertex, over a view.
ghost use Rattle.std.specs.Prelude.{◌≡◌, ◌≤◌, ◌+◌, ◌++◌, [], ◌∷◌, map, flat_map, filter, cond, sum_by, IfOk, OnOk};
ghost use Rattle.std.specs.Option.{option_copied};
ghost use Rattle.pg_keyed.specs.Lists.{Each};
ghost use Rattle.pg_meaning.specs.Walks.{last_vertex};
ghost use Rattle.pg_auto.specs.Autos.{leg_view, stage_view};
ghost use Rattle.pg_auto.specs.Successors as spec;
ghost use Rattle.pg_search.specs.Hops.{IsCheckedLeg, hop_view};
ghost use Rattle.pg_search.specs.Checked.{IsCheckedStage};
ghost use Rattle.pg_short.specs.Costs.{front_cost, fronts_cost, legs_cost};
ghost use Rattle.pg_short.specs.Rounds.{hops_in, all_hops, reading, longer_over, fitting_one};

use crate::conditions::is_round;
use pg_auto::{Leg, Stage};
use pg_chunks::Steps;
use pg_search::{hops_of, node_admits};
use pg_value::{ElemId, GraphShape, List, copy_key};
use pg_view::{Neighbour, View};
use std::alloc::{AllocError, Global};
use std::sync::ledger::Ledger;

/// An equal element.
pub fn copy_elem(alloc: Global, elem: &ElemId) -> Result<ElemId, AllocError>
    ensures { IfOk result (λ copy. copy ≡ elem.now) }
{
    Ok(ElemId {
        table: elem.table,
        key: copy_key(alloc, &elem.key)?,
    })
}

/// Appends an equal hop.
fn push_copy(alloc: Global, hop: &Neighbour, out: &mut List<Neighbour>) -> Result<(), AllocError>
    ensures { OnOk result (out.new ≡ out.old ++ hop.now ∷ []) }
{
    let edge = copy_elem(alloc, &hop.edge)?;
    let other = copy_elem(alloc, &hop.other)?;
    out.push(Neighbour { edge, other })
}

/// Hops, with one hop more behind them.
fn longer(alloc: Global, front: &[Neighbour], hop: Neighbour) -> Result<List<Neighbour>, AllocError>
    ensures { IfOk result (λ hops. hops ≡ front.now ++ hop ∷ []) }
{
    let mut hops = List::new(alloc);
    for before in front {
        push_copy(alloc, before, &mut hops)?;
    }
    hops.push(hop)?;
    Ok(hops)
}

/// Where the hops of a round, which are few, end from a vertex.
pub fn last_of<'a>(vertex: &'a ElemId, hops: &'a [Neighbour]) -> &'a ElemId
    ensures { result.now ≡ last_vertex vertex.now (hops_in hops.now) }
{
    match hops {
        [] => vertex,
        [hop, hops @ ..] => last_of(&hop.other, hops),
    }
}

/// Appends hops with each of some hops more behind them.
fn push_each(
    alloc: Global,
    front: &[Neighbour],
    hops: List<Neighbour>,
    found: &mut Vec<List<Neighbour>>,
) -> Result<(), AllocError>
    ensures { OnOk result (found.new.items ≡ found.old.items ++ map (λ hop. front.now ++ hop ∷ []) hops) }
{
    for hop in hops.into_vec() {
        let all = longer(alloc, front, hop)?;
        found.push(all)?;
    }
    Ok(())
}

/// Appends hops that have come so far with each hop over the next leg behind them.
fn push_longer<V: View, L: Ledger>(
    alloc: Global,
    view: &V,
    graph: &GraphShape,
    leg: &Leg<'_>,
    vertex: &ElemId,
    front: &[Neighbour],
    found: &mut Vec<List<Neighbour>>,
    steps: &mut Steps<L>,
) -> Result<(), AllocError>
    requires { IsCheckedLeg (V.shapes view.now) (leg_view leg.now) }
    ensures hops { OnOk result (all_hops found.new.items ≡ all_hops found.old.items ++ longer_over (reading (V.shapes view.now) (V.tables view.now) graph.now vertex.now) (leg_view leg.now) vertex.now front.now) }
    ensures cost { steps.new ≤ steps.old + front_cost (V.hop_cost view.now) (V.shapes view.now) graph.now (leg_view leg.now) vertex.now front.now }
{
    let at = last_of(vertex, front);
    let hops = hops_of(view, alloc, graph, leg, at, steps)?;
    push_each(alloc, front, hops, found)
}

/// All that have come so far, with each hop over the next leg.
fn extended<V: View, L: Ledger>(
    alloc: Global,
    view: &V,
    graph: &GraphShape,
    leg: &Leg<'_>,
    vertex: &ElemId,
    fronts: &[List<Neighbour>],
    steps: &mut Steps<L>,
) -> Result<Vec<List<Neighbour>>, AllocError>
    requires { IsCheckedLeg (V.shapes view.now) (leg_view leg.now) }
    ensures hops { IfOk result (λ found. all_hops found.items ≡ flat_map (longer_over (reading (V.shapes view.now) (V.tables view.now) graph.now vertex.now) (leg_view leg.now) vertex.now) fronts.now) }
    ensures cost { steps.new ≤ steps.old + sum_by (front_cost (V.hop_cost view.now) (V.shapes view.now) graph.now (leg_view leg.now) vertex.now) fronts.now }
{
    let mut found = Vec::new(alloc);
    for front in fronts {
        push_longer(
            alloc,
            view,
            graph,
            leg,
            vertex,
            front.as_slice(),
            &mut found,
            steps,
        )?;
    }
    Ok(found)
}

/// All that have come so far, with the hops over some legs, which are few.
fn along<V: View, L: Ledger>(
    alloc: Global,
    view: &V,
    graph: &GraphShape,
    legs: &[Leg<'_>],
    vertex: &ElemId,
    found: Vec<List<Neighbour>>,
    steps: &mut Steps<L>,
) -> Result<Vec<List<Neighbour>>, AllocError>
    requires { Each (IsCheckedLeg (V.shapes view.now)) (map leg_view legs.now) }
    ensures hops { IfOk result (λ all. all_hops all.items ≡ spec.along (reading (V.shapes view.now) (V.tables view.now) graph.now vertex.now) (map leg_view legs.now) vertex.now (all_hops found.items)) }
    ensures cost { steps.new ≤ steps.old + fronts_cost (V.hop_cost view.now) (V.shapes view.now) (V.tables view.now) graph.now (map leg_view legs.now) vertex.now (all_hops found.items) }
{
    match legs {
        [] => Ok(found),
        [leg, legs @ ..] => {
            let next = extended(alloc, view, graph, leg, vertex, found.as_slice(), steps)?;
            along(alloc, view, graph, legs, vertex, next, steps)
        }
    }
}

/// The hops that fit the node and the legs of a stage, each round from a vertex.
fn begun<V: View, L: Ledger>(
    alloc: Global,
    view: &V,
    graph: &GraphShape,
    stage: &Stage<'_>,
    vertex: &ElemId,
    steps: &mut Steps<L>,
) -> Result<Vec<List<Neighbour>>, AllocError>
    requires { IsCheckedStage (V.shapes view.now) (stage_view stage.now) }
    ensures hops { IfOk result (λ found. all_hops found.items ≡ spec.along (reading (V.shapes view.now) (V.tables view.now) graph.now vertex.now) (stage_view stage.now).round.legs vertex.now ([] ∷ [])) }
    ensures cost { steps.new ≤ steps.old + legs_cost (V.hop_cost view.now) (V.shapes view.now) (V.tables view.now) graph.now (stage_view stage.now).round.legs vertex.now }
{
    let mut first = Vec::new(alloc);
    first.push(List::new(alloc))?;
    along(
        alloc,
        view,
        graph,
        stage.legs.as_slice(),
        vertex,
        first,
        steps,
    )
}

/// Appends the hops of a round, where its variables agree and its condition is true.
fn push_round<V: View>(
    alloc: Global,
    view: &V,
    graph: &GraphShape,
    stage: &Stage<'_>,
    vertex: &ElemId,
    hops: List<Neighbour>,
    found: &mut Vec<List<Neighbour>>,
) -> Result<(), AllocError>
    requires { IsCheckedStage (V.shapes view.now) (stage_view stage.now) }
    ensures { OnOk result (found.new.items ≡ found.old.items ++ fitting_one (reading (V.shapes view.now) (V.tables view.now) graph.now vertex.now) (stage_view stage.now) vertex.now hops) }
{
    if is_round(alloc, view, graph, stage, vertex, hops.as_slice())? {
        found.push(hops)?;
    }
    Ok(())
}

/// Those of some rounds whose variables agree and whose condition is true.
fn fitting<V: View>(
    alloc: Global,
    view: &V,
    graph: &GraphShape,
    stage: &Stage<'_>,
    vertex: &ElemId,
    rounds: Vec<List<Neighbour>>,
) -> Result<Vec<List<Neighbour>>, AllocError>
    requires { IsCheckedStage (V.shapes view.now) (stage_view stage.now) }
    ensures { IfOk result (λ found. found.items ≡ flat_map (fitting_one (reading (V.shapes view.now) (V.tables view.now) graph.now vertex.now) (stage_view stage.now) vertex.now) rounds.items) }
{
    let mut found = Vec::new(alloc);
    for hops in rounds {
        push_round(alloc, view, graph, stage, vertex, hops, &mut found)?;
    }
    Ok(found)
}

/// The hops of each round of a stage that fits from a vertex. Each vertex on the way is read once for each leg.
pub fn rounds_from<V: View, L: Ledger>(
    alloc: Global,
    view: &V,
    graph: &GraphShape,
    stage: &Stage<'_>,
    vertex: &ElemId,
    steps: &mut Steps<L>,
) -> Result<Vec<List<Neighbour>>, AllocError>
    requires { IsCheckedStage (V.shapes view.now) (stage_view stage.now) }
    ensures rounds { IfOk result (λ found. all_hops found.items ≡ spec.rounds_from (reading (V.shapes view.now) (V.tables view.now) graph.now vertex.now) (stage_view stage.now) vertex.now) }
    ensures cost { steps.new ≤ steps.old + legs_cost (V.hop_cost view.now) (V.shapes view.now) (V.tables view.now) graph.now (stage_view stage.now).round.legs vertex.now }
{
    if !node_admits(view, stage.node, vertex) {
        return Ok(Vec::new(alloc));
    }
    let rounds = begun(alloc, view, graph, stage, vertex, steps)?;
    fitting(alloc, view, graph, stage, vertex, rounds)
}
