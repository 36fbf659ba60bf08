//! The entry of a graph from its definition.
ghost use Rattle.std.specs.Prelude.{◌≡◌, ◌++◌, [], ◌∷◌, IfOk, OnOk, map};
ghost use Rattle.pg_rules.specs.Catalog.{IsFew, AreSmall};
ghost use Rattle.pg_rules.specs.Definitions.Entries as spec;

use crate::graph::keys::kind_at;
use crate::table::entry::{column_place, places_of};
use crate::table::look_up::{columns_named, number_of};
use indexmap::IndexMap;
use pg_ast::{EdgeDef, GraphDef, LabelDef, Labels, Name, PropDef, Props, VertexDef};
use pg_rules::{
    ColumnEntry, EdgeEntry, ElementEntry, GraphEntry, LabelEntry, PlacedElement, PropertyEntry,
    TableEntry,
};
use pg_value::{List, Text};
use std::alloc::{AllocError, Global};

/// A column as a property of its own name.
fn column_property(
    alloc: Global,
    column: &ColumnEntry,
    place: u32,
) -> Result<PropertyEntry, AllocError>
    ensures { IfOk result (λ p. p ≡ record { name = column.now.name; column = place; kind = column.now.shape.kind }) }
{
    let name = column.name.copy(alloc)?;
    Ok(PropertyEntry {
        name,
        column: place,
        kind: column.shape.kind,
    })
}

/// Each column as a property of its own name.
fn all_properties(alloc: Global, columns: &[ColumnEntry]) -> Result<List<PropertyEntry>, AllocError>
    requires { IsFew columns.now }
    ensures { IfOk result (λ ps. ps ≡ spec.all_from 0 columns.now) }
{
    let mut out = List::new(alloc);
    let mut place = 0u32;
    for column in columns {
        out.push(column_property(alloc, column, place)?)?;
        place += 1;
    }
    Ok(out)
}

/// A listed property: its column's place and kind, under its name.
fn property_of(
    alloc: Global,
    columns: &[ColumnEntry],
    property: &PropDef,
) -> Result<PropertyEntry, AllocError>
    requires { IsFew columns.now }
    ensures { IfOk result (λ p. p ≡ spec.property_of columns.now property.now) }
{
    let column = column_place(columns, &property.column.text).unwrap_or(0);
    let kind = kind_at(columns, column);
    let name = property.name.text.copy(alloc)?;
    Ok(PropertyEntry { name, column, kind })
}

/// The listed properties.
fn listed_properties(
    alloc: Global,
    columns: &[ColumnEntry],
    properties: &[PropDef],
) -> Result<List<PropertyEntry>, AllocError>
    requires { IsFew columns.now }
    ensures { IfOk result (λ ps. ps ≡ map (spec.property_of columns.now) properties.now) }
{
    let mut out = List::new(alloc);
    for property in properties {
        out.push(property_of(alloc, columns, property)?)?;
    }
    Ok(out)
}

/// The properties of a label: all columns, or those that are listed.
fn properties_of(
    alloc: Global,
    columns: &[ColumnEntry],
    properties: &Props,
) -> Result<List<PropertyEntry>, AllocError>
    requires { IsFew columns.now }
    ensures { IfOk result (λ ps. ps ≡ spec.properties_of columns.now properties.now) }
{
    match properties {
        Props::All => all_properties(alloc, columns),
        Props::Listed(listed) => listed_properties(alloc, columns, listed.as_slice()),
    }
}

/// A written label.
fn label_of(
    alloc: Global,
    columns: &[ColumnEntry],
    label: &LabelDef,
) -> Result<LabelEntry, AllocError>
    requires { IsFew columns.now }
    ensures { IfOk result (λ l. l ≡ spec.label_of columns.now label.now) }
{
    let name = label.name.text.copy(alloc)?;
    let properties = properties_of(alloc, columns, &label.props)?;
    Ok(LabelEntry { name, properties })
}

/// The written labels.
fn given_labels(
    alloc: Global,
    columns: &[ColumnEntry],
    labels: &[LabelDef],
) -> Result<List<LabelEntry>, AllocError>
    requires { IsFew columns.now }
    ensures { IfOk result (λ ls. ls ≡ map (spec.label_of columns.now) labels.now) }
{
    let mut out = List::new(alloc);
    for label in labels {
        out.push(label_of(alloc, columns, label)?)?;
    }
    Ok(out)
}

/// The table's own name as its only label.
fn own_label(
    alloc: Global,
    columns: &[ColumnEntry],
    table: &Name,
    properties: &Props,
) -> Result<List<LabelEntry>, AllocError>
    requires { IsFew columns.now }
    ensures { IfOk result (λ ls. ls ≡ record { name = table.now.text; properties = spec.properties_of columns.now properties.now } ∷ []) }
{
    let name = table.text.copy(alloc)?;
    let properties = properties_of(alloc, columns, properties)?;
    let mut out = List::new(alloc);
    out.push(LabelEntry { name, properties })?;
    Ok(out)
}

/// The labels of an element table: its own name, or those that are written.
fn labels_of(
    alloc: Global,
    columns: &[ColumnEntry],
    table: &Name,
    labels: &Labels,
) -> Result<List<LabelEntry>, AllocError>
    requires { IsFew columns.now }
    ensures { IfOk result (λ ls. ls ≡ spec.labels_of columns.now table.now labels.now) }
{
    match labels {
        Labels::Own(properties) => own_label(alloc, columns, table, properties),
        Labels::Given(given) => given_labels(alloc, columns, given.as_slice()),
    }
}

/// The entry of an element table.
fn element_of(
    alloc: Global,
    tables: &IndexMap<Text, TableEntry>,
    table: &Name,
    labels: &Labels,
) -> Result<ElementEntry, AllocError>
    requires { AreSmall tables.now.entries }
    ensures { IfOk result (λ e. e ≡ spec.element_of tables.now.entries table.now labels.now) }
{
    let columns = columns_named(tables, &table.text);
    let number = number_of(tables, &table.text);
    let labels = labels_of(alloc, columns, table, labels)?;
    Ok(ElementEntry {
        table: number,
        labels,
    })
}

/// The entry of an edge table.
fn edge_of(
    alloc: Global,
    tables: &IndexMap<Text, TableEntry>,
    edge: &EdgeDef,
) -> Result<EdgeEntry, AllocError>
    requires { AreSmall tables.now.entries }
    ensures { IfOk result (λ e. e ≡ spec.edge_of tables.now.entries edge.now) }
{
    let columns = columns_named(tables, &edge.table.text);
    let source = number_of(tables, &edge.source.table.text);
    let dest = number_of(tables, &edge.dest.table.text);
    let element = element_of(alloc, tables, &edge.table, &edge.labels)?;
    let source_columns = places_of(alloc, columns, edge.source.columns.as_slice())?;
    let dest_columns = places_of(alloc, columns, edge.dest.columns.as_slice())?;
    Ok(EdgeEntry {
        element,
        source,
        source_columns,
        dest,
        dest_columns,
    })
}

/// The entries of the vertex tables.
fn vertices_of(
    alloc: Global,
    tables: &IndexMap<Text, TableEntry>,
    vertices: &[VertexDef],
) -> Result<List<ElementEntry>, AllocError>
    requires { AreSmall tables.now.entries }
    ensures { IfOk result (λ es. es ≡ map (spec.vertex_of tables.now.entries) vertices.now) }
{
    let mut out = List::new(alloc);
    for vertex in vertices {
        out.push(element_of(alloc, tables, &vertex.table, &vertex.labels)?)?;
    }
    Ok(out)
}

/// The entries of the edge tables.
fn edges_of(
    alloc: Global,
    tables: &IndexMap<Text, TableEntry>,
    edges: &[EdgeDef],
) -> Result<List<EdgeEntry>, AllocError>
    requires { AreSmall tables.now.entries }
    ensures { IfOk result (λ es. es ≡ map (spec.edge_of tables.now.entries) edges.now) }
{
    let mut out = List::new(alloc);
    for edge in edges {
        out.push(edge_of(alloc, tables, edge)?)?;
    }
    Ok(out)
}

/// The entry of a graph.
pub fn graph_of(
    alloc: Global,
    tables: &IndexMap<Text, TableEntry>,
    graph: &GraphDef,
) -> Result<GraphEntry, AllocError>
    requires { AreSmall tables.now.entries }
    ensures { IfOk result (λ g. g ≡ spec.graph_of tables.now.entries graph.now) }
{
    let vertices = vertices_of(alloc, tables, graph.vertices.as_slice())?;
    let edges = edges_of(alloc, tables, graph.edges.as_slice())?;
    Ok(GraphEntry { vertices, edges })
}

/// The entry of an element table, with the place of its name.
fn placed_element(
    alloc: Global,
    tables: &IndexMap<Text, TableEntry>,
    table: &Name,
    labels: &Labels,
) -> Result<PlacedElement, AllocError>
    requires { AreSmall tables.now.entries }
    ensures { IfOk result (λ e. e ≡ record { at = table.now.at; element = spec.element_of tables.now.entries table.now labels.now }) }
{
    let element = element_of(alloc, tables, table, labels)?;
    Ok(PlacedElement {
        at: table.at,
        element,
    })
}

/// Appends the vertex tables' entries, each with the place of its name.
fn push_vertices(
    alloc: Global,
    tables: &IndexMap<Text, TableEntry>,
    vertices: &[VertexDef],
    out: &mut List<PlacedElement>,
) -> Result<(), AllocError>
    requires { AreSmall tables.now.entries }
    ensures { OnOk result (out.new ≡ out.old ++ map (spec.placed_vertex tables.now.entries) vertices.now) }
{
    for vertex in vertices {
        out.push(placed_element(alloc, tables, &vertex.table, &vertex.labels)?)?;
    }
    Ok(())
}

/// Appends the edge tables' entries, each with the place of its name.
fn push_edges(
    alloc: Global,
    tables: &IndexMap<Text, TableEntry>,
    edges: &[EdgeDef],
    out: &mut List<PlacedElement>,
) -> Result<(), AllocError>
    requires { AreSmall tables.now.entries }
    ensures { OnOk result (out.new ≡ out.old ++ map (spec.placed_edge tables.now.entries) edges.now) }
{
    for edge in edges {
        out.push(placed_element(alloc, tables, &edge.table, &edge.labels)?)?;
    }
    Ok(())
}

/// All element tables of a graph, the vertex tables first, each with the place of its name.
pub fn elements_of(
    alloc: Global,
    tables: &IndexMap<Text, TableEntry>,
    graph: &GraphDef,
) -> Result<List<PlacedElement>, AllocError>
    requires { AreSmall tables.now.entries }
    ensures { IfOk result (λ es. es ≡ spec.elements_of tables.now.entries graph.now) }
{
    let mut out = List::new(alloc);
    push_vertices(alloc, tables, graph.vertices.as_slice(), &mut out)?;
    push_edges(alloc, tables, graph.edges.as_slice(), &mut out)?;
    Ok(out)
}
