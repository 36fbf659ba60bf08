//! Look-ups in a graph of the catalog.
ghost use Rattle.std.specs.Prelude.{◌≡◌, ◌≤◌, ◌<◌, [], All, IfOk, map, length, slice_get};
ghost use Rattle.std.specs.List.{find, flat_map};
ghost use Rattle.std.specs.Option.{option_copied};
ghost use Rattle.pg_rules.specs.Catalog.{AreSmallGraphs, HasBit, IsSmallGraph};
ghost use Rattle.pg_rules.specs.Definitions.Graphs.{first_column, rows_of};
ghost use Rattle.pg_rules.specs.Catalog.GraphLookUps as spec;
ghost use Rattle.pg_ast.specs.Trees as label_spec;
ghost use Rattle.pg_meaning.specs.LabelSets as sets;
ghost use Rattle.pg_catalog.specs.GraphLookUps as pass;

use indexmap::IndexMap;
use pg_ast::LabelExpr;
use pg_rules::{EdgeEntry, ElementEntry, GraphEntry, LabelEntry, PropertyEntry};
use pg_value::{EdgeNo, GraphShape, List, TableNo, TableSet, Text};
use sqlite_items::Boxed;
use std::alloc::{AllocError, Global};

/// How many edge tables a graph has, as long as graphs are left to count.
fn counted(left: u32, edges: &[EdgeEntry]) -> u32
    requires { length edges.now ≤ 32 }
    ensures count { result ≡ pass.counted left edges.now }
    ensures few { result ≤ 32 }
{
    if left > 0 { edges.len() as u32 } else { 0 }
}

/// How many edge tables the first graphs have.
fn edges_before(graphs: &IndexMap<Text, GraphEntry>, graph: u32) -> u32
    requires { AreSmallGraphs graphs.now.entries }
    ensures count { result ≡ pass.edges_before graph graphs.now.entries }
    ensures few { result ≤ 512 }
{
    let mut left = graph;
    let mut count = 0u32;
    for (_, entry) in graphs.iter() {
        count += counted(left, entry.edges.as_slice());
        left = left.saturating_sub(1);
    }
    count
}

/// The tables of some elements.
fn table_numbers(alloc: Global, elements: &[ElementEntry]) -> Result<List<TableNo>, AllocError>
    ensures { IfOk result (λ ts. ts ≡ map (λ e. e.table) elements.now) }
{
    let mut out = List::new(alloc);
    for element in elements {
        out.push(element.table)?;
    }
    Ok(out)
}

/// As many numbers as edge tables, from the first on.
fn edge_numbers(alloc: Global, first: u32, edges: &[EdgeEntry]) -> Result<List<EdgeNo>, AllocError>
    requires first { first ≤ 512 }
    requires few { length edges.now ≤ 32 }
    ensures { IfOk result (λ es. es ≡ spec.numbers_from first edges.now) }
{
    let mut out = List::new(alloc);
    let mut number = first;
    for edge in edges {
        out.push(EdgeNo(number))?;
        number += 1;
    }
    Ok(out)
}

/// The vertex tables of the graph at a place, none where there is no such graph.
fn vertices_at(graphs: &IndexMap<Text, GraphEntry>, at: usize) -> &[ElementEntry]
    ensures { result.now ≡ pass.vertices_of (spec.graph_in (slice_get graphs.now.entries at)) }
{
    match graphs.get_index(at) {
        Some((_, entry)) => entry.vertices.as_slice(),
        None => &[],
    }
}

/// The edge tables of the graph at a place, none where there is no such graph.
fn edges_at(graphs: &IndexMap<Text, GraphEntry>, at: usize) -> &[EdgeEntry]
    requires { AreSmallGraphs graphs.now.entries }
    ensures edges { result.now ≡ pass.edges_of (spec.graph_in (slice_get graphs.now.entries at)) }
    ensures few { length result.now ≤ 32 }
{
    match graphs.get_index(at) {
        Some((_, entry)) => entry.edges.as_slice(),
        None => &[],
    }
}

/// The shape of a graph, an empty one where there is no such graph.
pub fn graph_shape(
    alloc: Global,
    graphs: &IndexMap<Text, GraphEntry>,
    graph: u32,
) -> Result<GraphShape, AllocError>
    requires { AreSmallGraphs graphs.now.entries }
    ensures { IfOk result (λ s. s ≡ spec.shape_of (spec.first_edge graphs.now.entries graph) (spec.graph_in (slice_get graphs.now.entries graph))) }
{
    let first = edges_before(graphs, graph);
    let vertices = table_numbers(alloc, vertices_at(graphs, graph as usize))?;
    let edges = edge_numbers(alloc, first, edges_at(graphs, graph as usize))?;
    Ok(GraphShape { vertices, edges })
}

/// The column of a property under a label.
fn in_label(properties: &[PropertyEntry], name: &Text) -> Option<u32>
    ensures { result ≡ pass.column_in properties.now name.now }
{
    for property in properties {
        if *name == property.name {
            return Some(property.column);
        }
    }
    None
}

/// The column of a property under the first label that has it.
fn in_labels(labels: &[LabelEntry], name: &Text) -> Option<u32>
    ensures { result ≡ first_column (flat_map rows_of labels.now) name.now }
{
    for label in labels {
        match in_label(label.properties.as_slice(), name) {
            Some(column) => return Some(column),
            None => {}
        }
    }
    None
}

/// The vertex table of a number.
fn vertex_in(vertices: &[ElementEntry], table: TableNo) -> Option<&ElementEntry>
    ensures { option_copied result ≡ find (spec.is_table table) vertices.now }
{
    for vertex in vertices {
        if vertex.table.0 == table.0 {
            return Some(vertex);
        }
    }
    None
}

/// The edge table of a number.
fn edge_in(edges: &[EdgeEntry], table: TableNo) -> Option<&ElementEntry>
    ensures { option_copied result ≡ find (spec.is_table table) (map (λ e. e.element) edges.now) }
{
    for edge in edges {
        if edge.element.table.0 == table.0 {
            return Some(&edge.element);
        }
    }
    None
}

/// The element table of a number, the vertex tables first.
fn element_in(graph: &GraphEntry, table: TableNo) -> Option<&ElementEntry>
    ensures { option_copied result ≡ find (spec.is_table table) (spec.elements_in graph.now) }
{
    match vertex_in(graph.vertices.as_slice(), table) {
        Some(vertex) => Some(vertex),
        None => edge_in(graph.edges.as_slice(), table),
    }
}

/// The column that an element table of a graph has for a property under any of its labels.
pub fn property_in(graph: &GraphEntry, table: TableNo, name: &Text) -> Option<u32>
    ensures { result ≡ spec.property_in (find (spec.is_table table) (spec.elements_in graph.now)) name.now }
{
    match element_in(graph, table) {
        Some(element) => in_labels(element.labels.as_slice(), name),
        None => None,
    }
}

/// Whether one of some labels has a name.
fn has_label(labels: &[LabelEntry], name: &Text) -> bool
    ensures { result ≡ sets.has_label (map (λ l. l.name) labels.now) name.now }
{
    for label in labels {
        if label.name == *name {
            return true;
        }
    }
    false
}

/// Whether an element table with these labels meets a label expression.
#[tactic(auto, using(pg_ast::specs::Trees::is_not, pg_ast::specs::Trees::is_and, pg_ast::specs::Trees::is_or))]
fn admits(labels: &[LabelEntry], label: &LabelExpr) -> bool
    ensures { result ≡ sets.admits (map (λ l. l.name) labels.now) (label_spec.label_tree label.now) }
{
    match label {
        LabelExpr::All => true,
        LabelExpr::Is(name) => has_label(labels, &name.text),
        LabelExpr::Not(inner) => {
            let inner = admits(labels, inner.get());
            !inner
        }
        LabelExpr::And(left, right) => {
            let left = admits(labels, left.get());
            let right = admits(labels, right.get());
            left && right
        }
        LabelExpr::Or(left, right) => {
            let left = admits(labels, left.get());
            let right = admits(labels, right.get());
            left || right
        }
    }
}

/// Whether an element table meets a label expression.
fn is_admitted(element: &ElementEntry, label: &LabelExpr) -> bool
    ensures { result ≡ pass.is_admitted (label_spec.label_tree label.now) element.now }
{
    admits(element.labels.as_slice(), label)
}

/// A set of tables with one more.
fn with(set: u64, table: u32) -> u64
    requires { table < 64 }
    ensures { result ≡ pass.with set table }
{
    set | (1u64 << table)
}

/// A set of tables, with one more where it is admitted.
fn with_if(set: u64, admitted: bool, table: u32) -> u64
    requires { table < 64 }
    ensures { result ≡ pass.with_if set admitted table }
{
    if admitted { with(set, table) } else { set }
}

/// The set of the vertex tables that meet a label expression.
fn vertex_tables(vertices: &[ElementEntry], label: &LabelExpr) -> u64
    requires { All HasBit vertices.now }
    ensures { spec.IsSetOf result (spec.admitted vertices.now (label_spec.label_tree label.now)) }
{
    let mut set = 0u64;
    for vertex in vertices {
        set = with_if(set, is_admitted(vertex, label), vertex.table.0);
    }
    set
}

/// The set of the edge tables that meet a label expression.
fn edge_tables(edges: &[EdgeEntry], label: &LabelExpr) -> u64
    requires { All (λ e. HasBit e.element) edges.now }
    ensures { spec.IsSetOf result (spec.admitted (map (λ e. e.element) edges.now) (label_spec.label_tree label.now)) }
{
    let mut set = 0u64;
    for edge in edges {
        set = with_if(set, is_admitted(&edge.element, label), edge.element.table.0);
    }
    set
}

/// The vertex tables or the edge tables of a graph that a label expression admits.
pub fn tables_of(graph: &GraphEntry, edges: bool, label: &LabelExpr) -> TableSet
    requires { IsSmallGraph graph.now }
    ensures { spec.IsSetOf result.0 (spec.admitted (spec.of_sort graph.now edges) (label_spec.label_tree label.now)) }
{
    if edges {
        TableSet(edge_tables(graph.edges.as_slice(), label))
    } else {
        TableSet(vertex_tables(graph.vertices.as_slice(), label))
    }
}
