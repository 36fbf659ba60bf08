//! Tables and columns that a graph's definition names and that do not exist.
ghost use Rattle.std.specs.Prelude.{◌≡◌, IfOk};
ghost use Rattle.std.specs.List.{flat_map};
ghost use Rattle.pg_rules.specs.Catalog.{IsFew, AreSmall};
ghost use Rattle.pg_rules.specs.Places.{least};
ghost use Rattle.pg_rules.specs.Definitions.Graphs as spec;

use crate::name_set::{NameSet, names_of};
use crate::table::entry::column_place;
use crate::table::look_up::{columns_named, has_table};
use indexmap::IndexMap;
use pg_ast::{EdgeDef, EndDef, GraphDef, LabelDef, Labels, Name, PropDef, Props, VertexDef};
use pg_rules::{ColumnEntry, TableEntry, place_if, sooner};
use pg_value::{List, Text};
use std::alloc::{AllocError, Global};

/// A table that does not exist.
fn no_such(tables: &IndexMap<Text, TableEntry>, name: &Name) -> Option<u32>
    ensures { result ≡ least (spec.no_such tables.now.entries name.now) }
{
    place_if(!has_table(tables, &name.text), name.at)
}

/// A referenced table that does not exist, or is none of the vertex tables.
fn no_vertex(
    tables: &IndexMap<Text, TableEntry>,
    vertices: &NameSet<'_>,
    name: &Name,
) -> Option<u32>
    ensures { result ≡ least (spec.no_vertex tables.now.entries vertices.now name.now) }
{
    let is_table = has_table(tables, &name.text);
    let is_vertex = vertices.has(&name.text);
    place_if(!is_table || !is_vertex, name.at)
}

/// The first table that is missing at an edge table: its own, or one at an end.
#[tactic(auto, using(pg_rules::specs::Places::least_append))]
fn edge_without_table(
    tables: &IndexMap<Text, TableEntry>,
    vertices: &NameSet<'_>,
    edge: &EdgeDef,
) -> Option<u32>
    ensures { result ≡ least (spec.edge_without_table tables.now.entries vertices.now edge.now) }
{
    let own = no_such(tables, &edge.table);
    let source = no_vertex(tables, vertices, &edge.source.table);
    let dest = no_vertex(tables, vertices, &edge.dest.table);
    sooner(own, sooner(source, dest))
}

/// The first vertex table that does not exist.
#[tactic(auto, using(pg_rules::specs::Places::least_found, pg_rules::specs::Places::sooner_none))]
fn vertices_without_table(
    tables: &IndexMap<Text, TableEntry>,
    vertices: &[VertexDef],
) -> Option<u32>
    ensures { result ≡ least (flat_map (λ v. spec.no_such tables.now.entries v.table) vertices.now) }
{
    let mut found = None;
    for vertex in vertices {
        found = sooner(found, no_such(tables, &vertex.table));
    }
    found
}

/// The first table that is missing at some edge tables.
#[tactic(auto, using(pg_rules::specs::Places::least_found, pg_rules::specs::Places::sooner_none))]
fn edges_without_table(
    tables: &IndexMap<Text, TableEntry>,
    vertices: &NameSet<'_>,
    edges: &[EdgeDef],
) -> Option<u32>
    ensures { result ≡ least (flat_map (spec.edge_without_table tables.now.entries vertices.now) edges.now) }
{
    let mut found = None;
    for edge in edges {
        found = sooner(found, edge_without_table(tables, vertices, edge));
    }
    found
}

/// The first name of a table that does not exist, or is referenced and no vertex table of the graph.
#[tactic(auto, using(pg_rules::specs::Places::least_append))]
pub fn no_table(
    alloc: Global,
    tables: &IndexMap<Text, TableEntry>,
    graph: &GraphDef,
) -> Result<Option<u32>, AllocError>
    ensures { IfOk result (λ r. r ≡ least (spec.no_table tables.now.entries graph.now)) }
{
    let known = names_of(alloc, graph.vertices.as_slice())?;
    let vertices = vertices_without_table(tables, graph.vertices.as_slice());
    let edges = edges_without_table(tables, &known, graph.edges.as_slice());
    Ok(sooner(vertices, edges))
}

/// The first of some names that is no column.
#[tactic(auto, using(pg_rules::specs::Places::least_found, pg_rules::specs::Places::sooner_none))]
fn missing(columns: &[ColumnEntry], names: &[Name]) -> Option<u32>
    requires { IsFew columns.now }
    ensures { result ≡ least (spec.missing columns.now names.now) }
{
    let mut found = None;
    for name in names {
        found = sooner(
            found,
            place_if(column_place(columns, &name.text).is_none(), name.at),
        );
    }
    found
}

/// The first property whose column does not exist.
#[tactic(auto, using(pg_rules::specs::Places::least_found, pg_rules::specs::Places::sooner_none))]
fn missing_properties(columns: &[ColumnEntry], properties: &[PropDef]) -> Option<u32>
    requires { IsFew columns.now }
    ensures { result ≡ least (spec.missing columns.now (spec.column_names properties.now)) }
{
    let mut found = None;
    for property in properties {
        let is_missing = column_place(columns, &property.column.text).is_none();
        found = sooner(found, place_if(is_missing, property.column.at));
    }
    found
}

/// The first column that is missing in a KEY list.
fn missing_key(columns: &[ColumnEntry], key: &Option<List<Name>>) -> Option<u32>
    requires { IsFew columns.now }
    ensures { result ≡ least (spec.missing_key columns.now key.now) }
{
    match key {
        Some(names) => missing(columns, names.as_slice()),
        None => None,
    }
}

/// The first column that is missing in the properties of a label.
fn missing_listed(columns: &[ColumnEntry], properties: &Props) -> Option<u32>
    requires { IsFew columns.now }
    ensures { result ≡ least (spec.missing_listed columns.now properties.now) }
{
    match properties {
        Props::All => None,
        Props::Listed(listed) => missing_properties(columns, listed.as_slice()),
    }
}

/// The first column that is missing in the properties of some labels.
#[tactic(auto, using(pg_rules::specs::Places::least_found, pg_rules::specs::Places::sooner_none))]
fn missing_in_labels(columns: &[ColumnEntry], labels: &[LabelDef]) -> Option<u32>
    requires { IsFew columns.now }
    ensures { result ≡ least (flat_map (λ l. spec.missing_listed columns.now l.props) labels.now) }
{
    let mut found = None;
    for label in labels {
        found = sooner(found, missing_listed(columns, &label.props));
    }
    found
}

/// The first column that is missing in the properties of an element table.
fn missing_labelled(columns: &[ColumnEntry], labels: &Labels) -> Option<u32>
    requires { IsFew columns.now }
    ensures { result ≡ least (spec.missing_labelled columns.now labels.now) }
{
    match labels {
        Labels::Own(properties) => missing_listed(columns, properties),
        Labels::Given(given) => missing_in_labels(columns, given.as_slice()),
    }
}

/// The first column that is missing in the KEY list and the properties of an element table.
#[tactic(auto, using(pg_rules::specs::Places::least_append))]
fn missing_element(
    tables: &IndexMap<Text, TableEntry>,
    table: &Name,
    key: &Option<List<Name>>,
    labels: &Labels,
) -> Option<u32>
    requires { AreSmall tables.now.entries }
    ensures { result ≡ least (spec.missing_element tables.now.entries table.now key.now labels.now) }
{
    let columns = columns_named(tables, &table.text);
    let in_key = missing_key(columns, key);
    let in_labels = missing_labelled(columns, labels);
    sooner(in_key, in_labels)
}

/// The first column that is missing at one end of an edge table.
#[tactic(auto, using(pg_rules::specs::Places::least_append))]
fn missing_end(tables: &IndexMap<Text, TableEntry>, table: &Name, end: &EndDef) -> Option<u32>
    requires { AreSmall tables.now.entries }
    ensures { result ≡ least (spec.missing_end tables.now.entries table.now end.now) }
{
    let columns = columns_named(tables, &table.text);
    let own = missing(columns, end.columns.as_slice());
    let others = columns_named(tables, &end.table.text);
    let referenced = missing(others, end.target.as_slice());
    sooner(own, referenced)
}

/// The first column that is missing at an edge table.
#[tactic(auto, using(pg_rules::specs::Places::least_append))]
fn missing_edge(tables: &IndexMap<Text, TableEntry>, edge: &EdgeDef) -> Option<u32>
    requires { AreSmall tables.now.entries }
    ensures { result ≡ least (spec.missing_edge tables.now.entries edge.now) }
{
    let own = missing_element(tables, &edge.table, &edge.key, &edge.labels);
    let source = missing_end(tables, &edge.table, &edge.source);
    let dest = missing_end(tables, &edge.table, &edge.dest);
    sooner(own, sooner(source, dest))
}

/// The first column that is missing at some vertex tables.
#[tactic(auto, using(pg_rules::specs::Places::least_found, pg_rules::specs::Places::sooner_none))]
fn missing_vertices(tables: &IndexMap<Text, TableEntry>, vertices: &[VertexDef]) -> Option<u32>
    requires { AreSmall tables.now.entries }
    ensures { result ≡ least (flat_map (λ v. spec.missing_element tables.now.entries v.table v.key v.labels) vertices.now) }
{
    let mut found = None;
    for vertex in vertices {
        found = sooner(
            found,
            missing_element(tables, &vertex.table, &vertex.key, &vertex.labels),
        );
    }
    found
}

/// The first column that is missing at some edge tables.
#[tactic(auto, using(pg_rules::specs::Places::least_found, pg_rules::specs::Places::sooner_none))]
fn missing_edges(tables: &IndexMap<Text, TableEntry>, edges: &[EdgeDef]) -> Option<u32>
    requires { AreSmall tables.now.entries }
    ensures { result ≡ least (flat_map (spec.missing_edge tables.now.entries) edges.now) }
{
    let mut found = None;
    for edge in edges {
        found = sooner(found, missing_edge(tables, edge));
    }
    found
}

/// The first name of a column that is not in its table.
#[tactic(auto, using(pg_rules::specs::Places::least_append))]
pub fn no_column(tables: &IndexMap<Text, TableEntry>, graph: &GraphDef) -> Option<u32>
    requires { AreSmall tables.now.entries }
    ensures { result ≡ least (spec.no_column tables.now.entries graph.now) }
{
    let vertices = missing_vertices(tables, graph.vertices.as_slice());
    let edges = missing_edges(tables, graph.edges.as_slice());
    sooner(vertices, edges)
}
