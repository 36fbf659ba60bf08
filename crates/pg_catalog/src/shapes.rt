//! The shapes of tables and of edge tables.
ghost use Rattle.std.specs.Prelude.{◌≡◌, ◌++◌, IfOk, OnOk, map};
ghost use Rattle.pg_rules.specs.Catalog.Shapes as spec;

use indexmap::IndexMap;
use pg_rules::{ColumnEntry, EdgeEntry, GraphEntry, TableEntry};
use pg_value::{ColumnShape, EdgeShape, List, TableShape, Text};
use std::alloc::{AllocError, Global};

/// A copy of some places.
fn copy_places(alloc: Global, places: &[u32]) -> Result<List<u32>, AllocError>
    ensures { IfOk result (λ copy. copy ≡ places.now) }
{
    let mut out = List::new(alloc);
    for place in places {
        out.push(*place)?;
    }
    Ok(out)
}

/// The shapes of some columns.
fn column_shapes(alloc: Global, columns: &[ColumnEntry]) -> Result<List<ColumnShape>, AllocError>
    ensures { IfOk result (λ shapes. shapes ≡ map (λ c. c.shape) columns.now) }
{
    let mut out = List::new(alloc);
    for column in columns {
        out.push(column.shape)?;
    }
    Ok(out)
}

/// The shape of a table.
fn table_shape(alloc: Global, table: &TableEntry) -> Result<TableShape, AllocError>
    ensures { IfOk result (λ shape. shape ≡ spec.table_shape table.now) }
{
    let columns = column_shapes(alloc, table.columns.as_slice())?;
    let key = copy_places(alloc, table.key.as_slice())?;
    Ok(TableShape { columns, key })
}

/// The shapes of the tables, in their order.
pub fn table_shapes(
    alloc: Global,
    tables: &IndexMap<Text, TableEntry>,
) -> Result<List<TableShape>, AllocError>
    ensures { IfOk result (λ shapes. shapes ≡ spec.table_shapes tables.now.entries) }
{
    let mut out = List::new(alloc);
    for (_, table) in tables.iter() {
        out.push(table_shape(alloc, table)?)?;
    }
    Ok(out)
}

/// The shape of an edge table.
fn edge_shape(alloc: Global, edge: &EdgeEntry) -> Result<EdgeShape, AllocError>
    ensures { IfOk result (λ shape. shape ≡ spec.edge_shape edge.now) }
{
    let source_columns = copy_places(alloc, edge.source_columns.as_slice())?;
    let dest_columns = copy_places(alloc, edge.dest_columns.as_slice())?;
    Ok(EdgeShape {
        table: edge.element.table,
        source: edge.source,
        source_columns,
        dest: edge.dest,
        dest_columns,
    })
}

/// Appends the shapes of a graph's edge tables.
fn push_edges(
    alloc: Global,
    edges: &[EdgeEntry],
    out: &mut List<EdgeShape>,
) -> Result<(), AllocError>
    ensures { OnOk result (out.new ≡ out.old ++ map spec.edge_shape edges.now) }
{
    for edge in edges {
        out.push(edge_shape(alloc, edge)?)?;
    }
    Ok(())
}

/// The shapes of the edge tables of all graphs, in their order.
pub fn edge_shapes(
    alloc: Global,
    graphs: &IndexMap<Text, GraphEntry>,
) -> Result<List<EdgeShape>, AllocError>
    ensures { IfOk result (λ shapes. shapes ≡ spec.edge_shapes graphs.now.entries) }
{
    let mut out = List::new(alloc);
    for (_, graph) in graphs.iter() {
        push_edges(alloc, graph.edges.as_slice(), &mut out)?;
    }
    Ok(out)
}
