//! What a search reads of a view: the edges at a vertex.
ghost use Rattle.std.specs.Prelude.{◌≡◌, ◌≤◌, ◌+◌, ◌++◌, map, OnOk, OnErr};
ghost use Rattle.pg_meaning.specs.Reads.{neighbours_of};
ghost use Rattle.pg_view.specs.Neighbours as spec;
ghost use Rattle.pg_view.specs.Neighbours.{neighbour};

use pg_chunks::Steps;
use pg_value::{Dir, EdgeNo, EdgeShape, ElemId, List, TableNo};
use pg_view::{Neighbour, View};
use std::alloc::{AllocError, Global};
use std::sync::ledger::Ledger;

/// The table of the vertices at an end of an edge table.
fn end_table(shape: &EdgeShape, dir: Dir) -> TableNo
    ensures { result ≡ spec.end_table shape.now dir }
{
    match dir {
        Dir::Out => shape.source,
        Dir::In => shape.dest,
    }
}

/// Appends the edges of an edge table that have a vertex at that end, each with the vertex at its other end. The view is
/// asked only where the vertex is of the table that the edge table names there: for another there are none. After want of
/// memory `out` is as before.
pub fn push_neighbours<V: View, L: Ledger>(
    view: &V,
    alloc: Global,
    edge: EdgeNo,
    dir: Dir,
    vertex: &ElemId,
    out: &mut List<Neighbour>,
    steps: &mut Steps<L>,
) -> Result<(), AllocError>
    ensures ok { OnOk result (out.new ≡ out.old ++ map neighbour (neighbours_of (V.shapes view.now) (V.tables view.now) edge dir vertex.now)) }
    ensures err { OnErr result (out.new ≡ out.old) }
    ensures counts { steps.old ≤ steps.new }
    ensures cost { steps.new ≤ steps.old + V.hop_cost view.now edge dir vertex.now.key }
{
    match view.shapes().edges.get(edge.0 as usize) {
        Some(shape) => {
            if end_table(shape, dir).0 == vertex.table.0 {
                view.neighbours(alloc, edge, dir, &vertex.key, out, steps)
            } else {
                Ok(())
            }
        }
        None => Ok(()),
    }
}
