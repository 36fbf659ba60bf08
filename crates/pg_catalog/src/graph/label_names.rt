//! The names of all labels of a graph, collected in one pass.
ghost use Rattle.std.specs.Prelude.{◌≡◌, [], IfOk, OnOk};
ghost use Rattle.std.specs.List.{flat_map};
ghost use Rattle.pg_rules.specs.Definitions.Graphs.{labels_in};
ghost use Rattle.pg_catalog.specs.NameSets.{add_all};
ghost use Rattle.pg_catalog.specs.PropertyKinds as spec;

use crate::name_set::NameSet;
use pg_rules::{EdgeEntry, ElementEntry, GraphEntry};
use std::alloc::{AllocError, Global};

impl<'a> NameSet<'a> {
    /// Adds the labels of some vertex tables.
    fn add_vertex_labels(&mut self, vertices: &'a [ElementEntry]) -> Result<(), AllocError>
        ensures { OnOk result (self.new ≡ add_all self.old (flat_map labels_in vertices.now)) }
    {
        for vertex in vertices {
            self.add_label_names(vertex.labels.as_slice())?;
        }
        Ok(())
    }

    /// Adds the labels of some edge tables.
    fn add_edge_labels(&mut self, edges: &'a [EdgeEntry]) -> Result<(), AllocError>
        ensures { OnOk result (self.new ≡ add_all self.old (flat_map spec.edge_labels edges.now)) }
    {
        for edge in edges {
            self.add_label_names(edge.element.labels.as_slice())?;
        }
        Ok(())
    }

    /// Adds the labels of a graph.
    fn add_labels_of(&mut self, graph: &'a GraphEntry) -> Result<(), AllocError>
        ensures { OnOk result (self.new ≡ add_all (add_all self.old (flat_map labels_in graph.now.vertices)) (flat_map spec.edge_labels graph.now.edges)) }
    {
        self.add_vertex_labels(graph.vertices.as_slice())?;
        self.add_edge_labels(graph.edges.as_slice())
    }
}

/// The names of all labels of a graph.
pub fn label_names(alloc: Global, graph: &GraphEntry) -> Result<NameSet<'_>, AllocError>
    ensures { IfOk result (spec.AreLabelsOf graph.now) }
{
    let mut names = NameSet::new(alloc);
    match names.add_labels_of(graph) {
        Ok(()) => Ok(names),
        Err(_) => Err(AllocError),
    }
}
