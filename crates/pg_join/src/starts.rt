//! The vertices from which a path pattern is searched.
ghost use Rattle.std.specs.Prelude.{◌≡◌, ◌<◌, ◌++◌, ◌==◌, [], map, flat_map, filter, cond, IfOk, OnOk};
ghost use Rattle.std.specs.Int.{bit_at};
ghost use Rattle.pg_value.specs.Graph.{elem_of};
ghost use Rattle.pg_value.specs.Tables.{held_in};
ghost use Rattle.pg_meaning.specs.Sound.Patterns.{IsSoundPath};
ghost use Rattle.pg_auto.specs.Tests as tests;
ghost use Rattle.pg_join.specs.Selecting.{AreStarts};
ghost use Rattle.pg_join.specs.Starts as spec;

use pg_meaning::{CPart, CheckedPath};
use pg_value::{ElemId, GraphShape, List, TableNo, TableSet};
use pg_view::View;
use std::alloc::{AllocError, Global};

/// Whether a set has a table.
fn has_table(set: TableSet, table: TableNo) -> bool
    requires { table.0 < 64 }
    ensures { result ≡ tests.has_table set table }
{
    set.0 >> table.0 & 1 == 1
}

/// Whether a walk of a path pattern may begin in a vertex table, as its first node says.
fn may_begin(path: &CheckedPath, table: TableNo) -> bool
    requires { table.0 < 64 }
    ensures { result ≡ spec.may_begin path.now table }
{
    match path.parts.as_slice().first() {
        Some(CPart::Node(filler)) => has_table(filler.tables, table),
        _ => true,
    }
}

/// The set of one table, of at most 64.
fn only(table: TableNo) -> TableSet
    requires { table.0 < 64 }
    ensures { result ≡ spec.only table }
{
    TableSet(1 << table.0)
}

/// Appends vertices.
fn push_vertices(found: List<ElemId>, starts: &mut List<ElemId>) -> Result<(), AllocError>
    ensures { OnOk result (starts.new ≡ starts.old ++ found) }
{
    for vertex in found.into_vec() {
        starts.push(vertex)?;
    }
    Ok(())
}

/// Appends the rows of a vertex table of the graph.
fn push_table<V: View>(
    alloc: Global,
    view: &V,
    graph: &GraphShape,
    table: TableNo,
    starts: &mut List<ElemId>,
) -> Result<(), AllocError>
    requires { table.0 < 64 }
    ensures { OnOk result (starts.new ≡ starts.old ++ map elem_of (held_in table (V.tables view.now))) }
{
    let found = view.elements(alloc, graph, only(table))?;
    push_vertices(found, starts)
}

/// Appends the rows of a vertex table of the graph, where a walk of the path pattern may begin there.
fn push_starts<V: View>(
    alloc: Global,
    view: &V,
    path: &CheckedPath,
    table: TableNo,
    starts: &mut List<ElemId>,
) -> Result<(), AllocError>
    requires { table.0 < 64 }
    ensures { OnOk result (starts.new ≡ starts.old ++ spec.starts_in (V.tables view.now) path.now table) }
{
    if may_begin(path, table) {
        push_table(alloc, view, &path.graph, table, starts)?;
    }
    Ok(())
}

/// The vertices of the tables in which a walk of a path pattern may begin.
pub fn starts_of<V: View>(
    alloc: Global,
    view: &V,
    path: &CheckedPath,
) -> Result<List<ElemId>, AllocError>
    requires { IsSoundPath (V.shapes view.now) path.now }
    ensures { IfOk result (AreStarts (V.shapes view.now) (V.tables view.now) path.now) }
{
    view.well_made();
    let mut starts = List::new(alloc);
    for table in path.graph.vertices.as_slice() {
        push_starts(alloc, view, path, *table, &mut starts)?;
    }
    Ok(starts)
}
