//! Keys of element tables, and the columns of edge tables that name rows of vertex tables.
ghost use Rattle.std.specs.Prelude.{◌≡◌};
ghost use Rattle.std.specs.Prelude.{not};
ghost use Rattle.std.specs.List.{flat_map};
ghost use Rattle.pg_rules.specs.Catalog.{IsFew, AreSmall};
ghost use Rattle.pg_rules.specs.Places.{least, place_if};
ghost use Rattle.pg_rules.specs.Definitions.Entries.{kind_at};
ghost use Rattle.pg_rules.specs.Definitions.Graphs as spec;

use crate::table::entry::column_place;
use crate::table::look_up::{columns_named, key_named};
use indexmap::IndexMap;
use pg_ast::{EdgeDef, EndDef, GraphDef, Name, VertexDef};
use pg_rules::{ColumnEntry, TableEntry, place_if, sooner};
use pg_value::{Kind, List, Text, same_kind};

/// The kind of the column at a place.
pub fn kind_at(columns: &[ColumnEntry], place: u32) -> Kind
    ensures { result ≡ kind_at columns.now place }
{
    match columns.get(place as usize) {
        Some(column) => column.shape.kind,
        None => Kind::Int,
    }
}

/// Whether a name is the column at a place.
fn is_column_at(columns: &[ColumnEntry], name: &Name, place: u32) -> bool
    requires { IsFew columns.now }
    ensures { result ≡ spec.is_column_at columns.now name.now place }
{
    match column_place(columns, &name.text) {
        Some(at) => at == place,
        None => false,
    }
}

/// Whether a column has the kind of that at a place of another table.
fn fits_column(columns: &[ColumnEntry], others: &[ColumnEntry], name: &Name, place: u32) -> bool
    requires { IsFew columns.now }
    ensures { result ≡ spec.fits_column columns.now others.now name.now place }
{
    match column_place(columns, &name.text) {
        Some(at) => same_kind(kind_at(columns, at), kind_at(others, place)),
        None => false,
    }
}

/// Whether some names are the columns at some places, one by one.
fn are_columns_at(columns: &[ColumnEntry], names: &[Name], places: &[u32]) -> bool
    requires { IsFew columns.now }
    ensures { result ≡ spec.pairwise (spec.is_column_at columns.now) names.now places.now }
{
    if names.len() != places.len() {
        return false;
    }
    for i in 0..places.len() {
        if !is_column_at(columns, &names[i], places[i]) {
            return false;
        }
    }
    true
}

/// Whether some columns have the kinds of those at some places of another table, one by one.
fn fit_columns(
    columns: &[ColumnEntry],
    others: &[ColumnEntry],
    names: &[Name],
    places: &[u32],
) -> bool
    requires { IsFew columns.now }
    ensures { result ≡ spec.pairwise (spec.fits_column columns.now others.now) names.now places.now }
{
    if names.len() != places.len() {
        return false;
    }
    for i in 0..places.len() {
        if !fits_column(columns, others, &names[i], places[i]) {
            return false;
        }
    }
    true
}

/// Whether some names are the columns of a table's primary key, in its order.
fn is_key(tables: &IndexMap<Text, TableEntry>, table: &Name, names: &[Name]) -> bool
    requires { AreSmall tables.now.entries }
    ensures { result ≡ spec.is_key tables.now.entries table.now names.now }
{
    let columns = columns_named(tables, &table.text);
    let key = key_named(tables, &table.text);
    are_columns_at(columns, names, key)
}

/// Whether a KEY list, where there is one, is the table's primary key.
fn key_fits(tables: &IndexMap<Text, TableEntry>, table: &Name, key: &Option<List<Name>>) -> bool
    requires { AreSmall tables.now.entries }
    ensures { result ≡ spec.key_fits tables.now.entries table.now key.now }
{
    match key {
        Some(names) => is_key(tables, table, names.as_slice()),
        None => true,
    }
}

/// Whether an end references a primary key, by columns of the same kinds.
fn end_fits(tables: &IndexMap<Text, TableEntry>, table: &Name, end: &EndDef) -> bool
    requires { AreSmall tables.now.entries }
    ensures { result ≡ spec.end_fits tables.now.entries table.now end.now }
{
    let columns = columns_named(tables, &table.text);
    let others = columns_named(tables, &end.table.text);
    let key = key_named(tables, &end.table.text);
    let referenced = is_key(tables, &end.table, end.target.as_slice());
    let fit = fit_columns(columns, others, end.columns.as_slice(), key);
    referenced && fit
}

/// Whether the key and both ends of an edge table match.
fn edge_fits(tables: &IndexMap<Text, TableEntry>, edge: &EdgeDef) -> bool
    requires { AreSmall tables.now.entries }
    ensures { result ≡ spec.edge_fits tables.now.entries edge.now }
{
    let own = key_fits(tables, &edge.table, &edge.key);
    let source = end_fits(tables, &edge.table, &edge.source);
    let dest = end_fits(tables, &edge.table, &edge.dest);
    own && (source && dest)
}

/// The first vertex table whose key does not match.
#[tactic(auto, using(pg_rules::specs::Places::least_found, pg_rules::specs::Places::sooner_none))]
fn mismatched_vertices(tables: &IndexMap<Text, TableEntry>, vertices: &[VertexDef]) -> Option<u32>
    requires { AreSmall tables.now.entries }
    ensures { result ≡ least (flat_map (λ v. place_if (not (spec.key_fits tables.now.entries v.table v.key)) v.table.at) vertices.now) }
{
    let mut found = None;
    for vertex in vertices {
        let fits = key_fits(tables, &vertex.table, &vertex.key);
        found = sooner(found, place_if(!fits, vertex.table.at));
    }
    found
}

/// The first edge table whose key or ends do not match.
#[tactic(auto, using(pg_rules::specs::Places::least_found, pg_rules::specs::Places::sooner_none))]
fn mismatched_edges(tables: &IndexMap<Text, TableEntry>, edges: &[EdgeDef]) -> Option<u32>
    requires { AreSmall tables.now.entries }
    ensures { result ≡ least (flat_map (λ e. place_if (not (spec.edge_fits tables.now.entries e)) e.table.at) edges.now) }
{
    let mut found = None;
    for edge in edges {
        found = sooner(found, place_if(!edge_fits(tables, edge), edge.table.at));
    }
    found
}

/// The first element table whose key columns do not match.
#[tactic(auto, using(pg_rules::specs::Places::least_append))]
pub fn graph_key_mismatch(tables: &IndexMap<Text, TableEntry>, graph: &GraphDef) -> Option<u32>
    requires { AreSmall tables.now.entries }
    ensures { result ≡ least (spec.key_mismatch tables.now.entries graph.now) }
{
    let vertices = mismatched_vertices(tables, graph.vertices.as_slice());
    let edges = mismatched_edges(tables, graph.edges.as_slice());
    sooner(vertices, edges)
}
