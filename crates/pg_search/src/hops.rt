//! The hops out of a vertex over a leg: the edges of the edge tables that the leg admits, in the directions of its arrow.
ghost use Rattle.std.specs.Prelude.{◌≡◌, ◌≤◌, ◌+◌, [], ◌∷◌, ◌++◌, cond, map, flat_map, IfOk, OnOk};
ghost use Rattle.pg_value.specs.declared.shape.GraphShape.{GraphShape};
ghost use Rattle.pg_meaning.specs.Walks.{graph_of};
ghost use Rattle.pg_view.specs.Neighbours.{neighbour};
ghost use Rattle.pg_auto.specs.Autos.{leg_view};
ghost use Rattle.pg_auto.specs.Successors.{led_to};
ghost use Rattle.pg_auto.specs.Tests as tests;
ghost use Rattle.pg_search.specs.Hops as spec;
ghost use Rattle.pg_search.specs.Hops.{IsCheckedLeg, hop_view};

use crate::conditions::{admits, is_read, node_admits};
use crate::reads::push_neighbours;
use pg_ast::Arrow;
use pg_auto::Leg;
use pg_chunks::Steps;
use pg_value::{Dir, EdgeNo, ElemId, GraphShape, List, TableSet};
use pg_view::{Neighbour, View};
use std::alloc::{AllocError, Global};
use std::sync::ledger::Ledger;

/// Appends the edges of an edge table to which an arrow leads from a vertex.
fn push_led<V: View, L: Ledger>(
    view: &V,
    alloc: Global,
    arrow: Arrow,
    edge: EdgeNo,
    vertex: &ElemId,
    out: &mut List<Neighbour>,
    steps: &mut Steps<L>,
) -> Result<(), AllocError>
    ensures ok { OnOk result (out.new ≡ out.old ++ map neighbour (led_to (V.shapes view.now) (V.tables view.now) arrow vertex.now edge)) }
    ensures counts { steps.old ≤ steps.new }
    ensures cost { steps.new ≤ steps.old + spec.led_cost (V.hop_cost view.now) arrow vertex.now.key edge }
{
    match arrow {
        Arrow::Right => push_neighbours(view, alloc, edge, Dir::Out, vertex, out, steps),
        Arrow::Left => push_neighbours(view, alloc, edge, Dir::In, vertex, out, steps),
        Arrow::Either => {
            push_neighbours(view, alloc, edge, Dir::Out, vertex, out, steps)?;
            push_neighbours(view, alloc, edge, Dir::In, vertex, out, steps)
        }
    }
}

/// Appends the same where a set of tables admits the edge table, and else reads nothing.
fn push_over<V: View, L: Ledger>(
    view: &V,
    alloc: Global,
    arrow: Arrow,
    set: TableSet,
    edge: EdgeNo,
    vertex: &ElemId,
    out: &mut List<Neighbour>,
    steps: &mut Steps<L>,
) -> Result<(), AllocError>
    ensures ok { OnOk result (out.new ≡ out.old ++ spec.neighbours_over (V.shapes view.now) (V.tables view.now) arrow set vertex.now edge) }
    ensures counts { steps.old ≤ steps.new }
    ensures cost { steps.new ≤ steps.old + spec.over_cost (V.hop_cost view.now) (V.shapes view.now) arrow set vertex.now.key edge }
{
    if is_read(view, set, edge) {
        push_led(view, alloc, arrow, edge, vertex, out, steps)
    } else {
        Ok(())
    }
}

/// Appends the edges to which an arrow leads from a vertex, of those of some edge tables that a set of tables admits, table
/// by table and in order of their keys, each with the vertex behind it. Those out of the vertex come before those into it.
pub fn push_read<V: View, L: Ledger>(
    view: &V,
    alloc: Global,
    edges: &[EdgeNo],
    arrow: Arrow,
    set: TableSet,
    vertex: &ElemId,
    out: &mut List<Neighbour>,
    steps: &mut Steps<L>,
) -> Result<(), AllocError>
    ensures ok { OnOk result (out.new ≡ out.old ++ map neighbour (spec.read_at (V.shapes view.now) (V.tables view.now) arrow set vertex.now edges.now)) }
    ensures counts { steps.old ≤ steps.new }
    ensures cost { steps.new ≤ steps.old + spec.read_cost (V.hop_cost view.now) (V.shapes view.now) arrow set vertex.now.key edges.now }
{
    for edge in edges {
        push_over(view, alloc, arrow, set, *edge, vertex, out, steps)?;
    }
    Ok(())
}

/// Whether a leg admits a hop: its edge first, and only then the vertex behind it.
pub fn leg_admits<V: View>(view: &V, leg: &Leg<'_>, hop: &Neighbour) -> bool
    requires { IsCheckedLeg (V.shapes view.now) (leg_view leg.now) }
    ensures { (graph : GraphShape) → result ≡ tests.leg_admits (graph_of (V.shapes view.now) graph (V.tables view.now)) (leg_view leg.now) (hop_view hop.now) }
{
    admits(view, leg.edge, &hop.edge) && node_admits(view, leg.node, &hop.other)
}

/// Appends a hop that a leg admits.
fn push_admitted<V: View>(
    view: &V,
    leg: &Leg<'_>,
    hop: Neighbour,
    out: &mut List<Neighbour>,
) -> Result<(), AllocError>
    requires { IsCheckedLeg (V.shapes view.now) (leg_view leg.now) }
    ensures { OnOk result ((graph : GraphShape) → out.new ≡ out.old ++ cond (tests.leg_admits (graph_of (V.shapes view.now) graph (V.tables view.now)) (leg_view leg.now) (hop_view hop)) (hop ∷ []) []) }
{
    if leg_admits(view, leg, &hop) {
        out.push(hop)?;
    }
    Ok(())
}

/// The hops that a leg admits of those that were read.
fn admitted<V: View>(
    view: &V,
    alloc: Global,
    leg: &Leg<'_>,
    read: List<Neighbour>,
) -> Result<List<Neighbour>, AllocError>
    requires { IsCheckedLeg (V.shapes view.now) (leg_view leg.now) }
    ensures { IfOk result (λ hops. (graph : GraphShape) → hops ≡ flat_map (λ hop. cond (tests.leg_admits (graph_of (V.shapes view.now) graph (V.tables view.now)) (leg_view leg.now) (hop_view hop)) (hop ∷ []) []) read) }
{
    let mut out = List::new(alloc);
    for hop in read.into_vec() {
        push_admitted(view, leg, hop, &mut out)?;
    }
    Ok(out)
}

/// The hops out of a vertex over a leg of a walk on a graph: only edge tables that the leg admits are read, an edge's
/// condition is judged before the row of the vertex behind it is read, and the list is exactly that of the hops that fit.
pub fn hops_of<V: View, L: Ledger>(
    view: &V,
    alloc: Global,
    graph: &GraphShape,
    leg: &Leg<'_>,
    vertex: &ElemId,
    steps: &mut Steps<L>,
) -> Result<List<Neighbour>, AllocError>
    requires { IsCheckedLeg (V.shapes view.now) (leg_view leg.now) }
    ensures ok { IfOk result (λ hops. hops ≡ map neighbour (spec.hops_of (V.shapes view.now) graph.now (V.tables view.now) (leg_view leg.now) vertex.now)) }
    ensures counts { steps.old ≤ steps.new }
    ensures cost { steps.new ≤ steps.old + spec.read_cost (V.hop_cost view.now) (V.shapes view.now) leg.now.arrow leg.now.edge.now.tables vertex.now.key graph.now.edges }
{
    let mut read = List::new(alloc);
    let edges = graph.edges.as_slice();
    push_read(
        view,
        alloc,
        edges,
        leg.arrow,
        leg.edge.tables,
        vertex,
        &mut read,
        steps,
    )?;
    admitted(view, alloc, leg, read)
}
