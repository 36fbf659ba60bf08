//! Numbers that a graph's definition exceeds.
ghost use Rattle.std.specs.Prelude.{◌≡◌, ◌++◌};
ghost use Rattle.std.specs.List.{flat_map};
ghost use Rattle.pg_rules.specs.Places.{least};
ghost use Rattle.pg_rules.specs.Definitions.Graphs as spec;
ghost use Rattle.pg_rules.specs.Definitions.Tables.{beyond};

use pg_ast::{EdgeDef, GraphDef, LabelDef, Labels, VertexDef};
use pg_rules::{place_if, sooner};
use pg_value::List;

/// The ninth of some labels.
fn label_beyond(labels: &[LabelDef]) -> Option<u32>
    ensures { result ≡ least (spec.ninth_of labels.now) }
{
    match labels.get(8) {
        Some(label) => Some(label.at),
        None => None,
    }
}

/// The ninth label of an element table.
fn ninth_label(labels: &Labels) -> Option<u32>
    ensures { result ≡ least (spec.ninth_label labels.now) }
{
    match labels {
        Labels::Own(_) => None,
        Labels::Given(given) => label_beyond(given.as_slice()),
    }
}

/// The first ninth label of a vertex table.
#[tactic(auto, using(pg_rules::specs::Places::least_found, pg_rules::specs::Places::sooner_none))]
fn labels_of_vertices(vertices: &[VertexDef]) -> Option<u32>
    ensures { result ≡ least (flat_map (λ v. spec.ninth_label v.labels) vertices.now) }
{
    let mut found = None;
    for vertex in vertices {
        found = sooner(found, ninth_label(&vertex.labels));
    }
    found
}

/// The first ninth label of an edge table.
#[tactic(auto, using(pg_rules::specs::Places::least_found, pg_rules::specs::Places::sooner_none))]
fn labels_of_edges(edges: &[EdgeDef]) -> Option<u32>
    ensures { result ≡ least (flat_map (λ e. spec.ninth_label e.labels) edges.now) }
{
    let mut found = None;
    for edge in edges {
        found = sooner(found, ninth_label(&edge.labels));
    }
    found
}

/// The name of the 33rd element table, the vertex tables first.
fn element_beyond(vertices: &[VertexDef], edges: &[EdgeDef]) -> Option<u32>
    ensures { result ≡ least (beyond 32 (spec.vertex_names vertices.now ++ spec.edge_names edges.now)) }
{
    if vertices.len() > 32 {
        return Some(vertices[32].table.at);
    }
    match edges.get(32 - vertices.len()) {
        Some(edge) => Some(edge.table.at),
        None => None,
    }
}

/// The first thing beyond a limit, where there is room for a graph or not.
#[tactic(auto, using(pg_rules::specs::Places::least_append))]
pub fn graph_limit(is_full: bool, graph: &GraphDef) -> Option<u32>
    ensures { result ≡ least (spec.limit is_full graph.now) }
{
    let own = place_if(is_full, graph.at);
    let elements = element_beyond(graph.vertices.as_slice(), graph.edges.as_slice());
    let vertices = labels_of_vertices(graph.vertices.as_slice());
    let edges = labels_of_edges(graph.edges.as_slice());
    sooner(own, sooner(elements, sooner(vertices, edges)))
}
