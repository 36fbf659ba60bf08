//! Vertices with their edges, gathered one after another.
ghost use Rattle.std.specs.Prelude.{◌≡◌, ◌++◌, [], ◌∷◌, length, IfOk, OnOk, Err};
ghost use Rattle.std.specs.Option.{option_copied};
ghost use Rattle.pg_keyed.specs.Keyed.{Ascends, Sought, merge};
ghost use Rattle.pg_value.specs.Order.{key_cmp};
ghost use Rattle.pg_adj.specs.Entries.{entry};
ghost use Rattle.pg_snap.specs.Sides.{vertex_key, AreSides};
ghost use Rattle.pg_snap.specs.Folds.{AreAsMany, AreMore, Gathered, Has, IsGrouped};
ghost use Rattle.pg_snap.specs.Under.{plains};

use crate::reached::{Reached, grouped};
use crate::vertex::{Side, Vertex};
use pg_adj::{EdgeEnds, Ends};
use pg_chunks::{Chunks, Steps};
use pg_shared::{Copied, SharedChunks};
use pg_value::{Dir, Key, List, Shared, copy_key};
use std::alloc::{AllocError, Global};
use std::sync::ledger::Ledger;

/// The vertex of an edge at that end.
pub fn end_of(ends: &EdgeEnds, dir: Dir) -> &Key
    ensures { result.now ≡ (entry dir ends.now).vertex }
{
    match dir {
        Dir::Out => &ends.source,
        Dir::In => &ends.dest,
    }
}

/// Copies of edges.
pub fn copied_sides(alloc: Global, all: &[Reached<'_>]) -> Result<List<Side>, AllocError>
    ensures { IfOk result (λ sides. sides ≡ plains all.now) }
{
    let mut sides = List::with_room(alloc, all.len())?;
    for reached in all {
        let edge = copy_key(alloc, reached.edge)?;
        let other = copy_key(alloc, reached.other)?;
        sides.push(Side { edge, other })?;
    }
    Ok(sides)
}

/// Adds a vertex with its edges, by the place at which it would stand among some.
pub fn add_vertex(
    alloc: Global,
    vertices: &mut Chunks<Vertex>,
    at: usize,
    key: &Key,
    sides: List<Side>,
) -> Result<(), AllocError>
    requires { Sought vertex_key key_cmp key.now.values vertices.old (Err at) }
    ensures { OnOk result (vertices.new ≡ merge vertex_key key_cmp vertices.old (record { key = key.now; sides = sides } ∷ [])) }
{
    let key = copy_key(alloc, key)?;
    let sides = Shared::new(alloc, sides)?;
    vertices.add(at, Vertex { key, sides })?;
    Ok(())
}

/// Appends copies of vertices. Their edges are shared. After want of memory some of them are appended.
fn push_copies(alloc: Global, vertices: &[Vertex], all: &mut Vec<Vertex>) -> Result<(), AllocError>
    ensures { OnOk result (all.new.items ≡ all.old.items ++ vertices.now) }
{
    'vertices: for vertex in vertices {
        all.push(vertex.copied(alloc)?)?;
    }
    Ok(())
}

/// Copies of vertices, in order. They are read chunk by chunk.
pub fn copies(alloc: Global, vertices: &Chunks<Vertex>) -> Result<Vec<Vertex>, AllocError>
    ensures value { IfOk result (λ all. all.items ≡ vertices.now) }
    ensures in_order { Ascends vertex_key key_cmp vertices.now }
{
    let mut all = Vec::with_capacity(alloc, vertices.len())?;
    let mut at = 0;
    'runs: while at < vertices.len() {
        let run = vertices.run(at);
        match push_copies(alloc, run, &mut all) {
            Ok(()) => at += run.len(),
            Err(failed) => return Err(failed),
        }
    }
    Ok(all)
}

/// Adds a vertex with the edges of its group, unless it is there.
fn add_grouped<L: Ledger>(
    alloc: Global,
    groups: &Ends,
    key: &Key,
    vertices: &mut Chunks<Vertex>,
    steps: &mut Steps<L>,
) -> Result<(), AllocError>
    requires { AreAsMany groups.now }
    ensures more { OnOk result (AreMore (IsGrouped groups.now) vertices.old vertices.new) }
    ensures there { OnOk result (Has key.now.values vertices.new) }
{
    match vertices.place_of(key) {
        Ok(_) => Ok(()),
        Err(at) => {
            let all = grouped(alloc, groups.group(key, steps))?;
            let sides = copied_sides(alloc, all.as_slice())?;
            add_vertex(alloc, vertices, at, key, sides)
        }
    }
}

/// The vertices at an end of edges, each with the edges of its group.
fn gathered<L: Ledger>(
    alloc: Global,
    groups: &Ends,
    ends: &[EdgeEnds],
    dir: Dir,
    steps: &mut Steps<L>,
) -> Result<Chunks<Vertex>, AllocError>
    requires { AreAsMany groups.now }
    ensures { IfOk result (Gathered dir groups.now ends.now) }
{
    let mut vertices = Chunks::new(alloc);
    'ends: for edge in ends {
        match add_grouped(alloc, groups, end_of(edge, dir), &mut vertices, steps) {
            Ok(()) => {}
            Err(failed) => return Err(failed),
        }
    }
    Ok(vertices)
}

/// The vertices at an end of edges, each with its edges, in the order in which these stand. Only want of memory refuses it.
pub fn vertices_of<L: Ledger>(
    alloc: Global,
    ends: &[EdgeEnds],
    dir: Dir,
    steps: &mut Steps<L>,
) -> Result<SharedChunks<Vertex>, AllocError>
    ensures { IfOk result (AreSides dir ends.now) }
{
    let groups = Ends::build(alloc, ends, dir)?;
    let vertices = gathered(alloc, &groups, ends, dir, steps)?;
    let changes = copies(alloc, &vertices)?;
    let empty = SharedChunks::build(alloc, Vec::new(alloc))?;
    empty.merged(alloc, changes.as_slice())
}
