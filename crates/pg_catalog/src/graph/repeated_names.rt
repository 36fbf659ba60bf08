//! Names that stand twice in a graph's definition.
ghost use Rattle.std.specs.Prelude.{◌≡◌, ◌++◌, IfOk};
ghost use Rattle.std.specs.List.{flat_map};
ghost use Rattle.pg_rules.specs.Places.{least};
ghost use Rattle.pg_rules.specs.Definitions.Graphs as spec;
ghost use Rattle.pg_rules.specs.Definitions.Tables.{repeats};

use crate::name_set::{repeated_element, repeated_name};
use pg_ast::{EdgeDef, GraphDef, LabelDef, Labels, Props, VertexDef};
use pg_rules::{place_if, sooner};
use pg_value::List;
use std::alloc::{AllocError, Global};

/// The first property that stands twice in a list.
fn twice_listed(alloc: Global, properties: &Props) -> Result<Option<u32>, AllocError>
    ensures { IfOk result (λ r. r ≡ least (spec.twice_listed properties.now)) }
{
    match properties {
        Props::All => Ok(None),
        Props::Listed(listed) => repeated_name(alloc, listed.as_slice()),
    }
}

/// The first property that stands twice in one of some labels.
#[tactic(auto, using(pg_rules::specs::Places::least_found, pg_rules::specs::Places::sooner_none))]
fn twice_in_labels(alloc: Global, labels: &[LabelDef]) -> Result<Option<u32>, AllocError>
    ensures { IfOk result (λ r. r ≡ least (flat_map (λ l. spec.twice_listed l.props) labels.now)) }
{
    let mut found = None;
    for label in labels {
        let again = twice_listed(alloc, &label.props)?;
        found = sooner(found, again);
    }
    Ok(found)
}

/// The first label that stands twice, or property that stands twice in one.
#[tactic(auto, using(pg_rules::specs::Places::least_append))]
fn twice_given(alloc: Global, labels: &[LabelDef]) -> Result<Option<u32>, AllocError>
    ensures { IfOk result (λ r. r ≡ least (repeats (spec.label_names labels.now) ++ flat_map (λ l. spec.twice_listed l.props) labels.now)) }
{
    let of_labels = repeated_name(alloc, labels)?;
    let of_properties = twice_in_labels(alloc, labels)?;
    Ok(sooner(of_labels, of_properties))
}

/// The first label or property that stands twice in an element table.
fn twice_labelled(alloc: Global, labels: &Labels) -> Result<Option<u32>, AllocError>
    ensures { IfOk result (λ r. r ≡ least (spec.twice_labelled labels.now)) }
{
    match labels {
        Labels::Own(properties) => twice_listed(alloc, properties),
        Labels::Given(given) => twice_given(alloc, given.as_slice()),
    }
}

/// The first label or property that stands twice in a vertex table.
#[tactic(auto, using(pg_rules::specs::Places::least_found, pg_rules::specs::Places::sooner_none))]
fn twice_in_vertices(alloc: Global, vertices: &[VertexDef]) -> Result<Option<u32>, AllocError>
    ensures { IfOk result (λ r. r ≡ least (flat_map (λ v. spec.twice_labelled v.labels) vertices.now)) }
{
    let mut found = None;
    for vertex in vertices {
        let again = twice_labelled(alloc, &vertex.labels)?;
        found = sooner(found, again);
    }
    Ok(found)
}

/// The first label or property that stands twice in an edge table.
#[tactic(auto, using(pg_rules::specs::Places::least_found, pg_rules::specs::Places::sooner_none))]
fn twice_in_edges(alloc: Global, edges: &[EdgeDef]) -> Result<Option<u32>, AllocError>
    ensures { IfOk result (λ r. r ≡ least (flat_map (λ e. spec.twice_labelled e.labels) edges.now)) }
{
    let mut found = None;
    for edge in edges {
        let again = twice_labelled(alloc, &edge.labels)?;
        found = sooner(found, again);
    }
    Ok(found)
}

/// A name that is taken, where the graph's own is or is not.
#[tactic(auto, using(pg_rules::specs::Places::least_append))]
pub fn graph_name_taken(
    alloc: Global,
    is_defined: bool,
    graph: &GraphDef,
) -> Result<Option<u32>, AllocError>
    ensures { IfOk result (λ r. r ≡ least (spec.name_taken is_defined graph.now)) }
{
    let own = place_if(is_defined, graph.name.at);
    let elements = repeated_element(alloc, graph.vertices.as_slice(), graph.edges.as_slice())?;
    let in_vertices = twice_in_vertices(alloc, graph.vertices.as_slice())?;
    let in_edges = twice_in_edges(alloc, graph.edges.as_slice())?;
    Ok(sooner(own, sooner(elements, sooner(in_vertices, in_edges))))
}
