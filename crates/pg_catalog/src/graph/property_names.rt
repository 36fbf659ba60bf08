//! The names of all properties of a graph, collected in one pass.
ghost use Rattle.std.specs.Prelude.{◌≡◌, [], IfOk, OnOk};
ghost use Rattle.std.specs.List.{flat_map};
ghost use Rattle.pg_catalog.specs.PropertyNames as spec;
ghost use Rattle.pg_catalog.specs.NameSets.{add_all};

use crate::name_set::NameSet;
use pg_rules::{EdgeEntry, ElementEntry, GraphEntry, LabelEntry, PropertyEntry};
use std::alloc::{AllocError, Global};

impl<'a> NameSet<'a> {
    /// Adds the names of some properties.
    fn add_properties(&mut self, properties: &'a [PropertyEntry]) -> Result<(), AllocError>
        ensures { OnOk result (self.new ≡ add_all self.old (spec.listed properties.now)) }
    {
        for property in properties {
            self.add(property.name.as_str())?;
        }
        Ok(())
    }

    /// Adds the names of the properties under some labels.
    fn add_labels(&mut self, labels: &'a [LabelEntry]) -> Result<(), AllocError>
        ensures { OnOk result (self.new ≡ add_all self.old (flat_map spec.under_label labels.now)) }
    {
        for label in labels {
            self.add_properties(label.properties.as_slice())?;
        }
        Ok(())
    }

    /// Adds the names of the properties of some vertex tables.
    fn add_vertices(&mut self, vertices: &'a [ElementEntry]) -> Result<(), AllocError>
        ensures { OnOk result (self.new ≡ add_all self.old (flat_map spec.of_element vertices.now)) }
    {
        for vertex in vertices {
            self.add_labels(vertex.labels.as_slice())?;
        }
        Ok(())
    }

    /// Adds the names of the properties of some edge tables.
    fn add_edges(&mut self, edges: &'a [EdgeEntry]) -> Result<(), AllocError>
        ensures { OnOk result (self.new ≡ add_all self.old (flat_map spec.of_edge edges.now)) }
    {
        for edge in edges {
            self.add_labels(edge.element.labels.as_slice())?;
        }
        Ok(())
    }

    /// Adds the names of the properties of a graph.
    fn add_graph(&mut self, graph: &'a GraphEntry) -> Result<(), AllocError>
        ensures { OnOk result (self.new ≡ add_all (add_all self.old (flat_map spec.of_element graph.now.vertices)) (flat_map spec.of_edge graph.now.edges)) }
    {
        self.add_vertices(graph.vertices.as_slice())?;
        self.add_edges(graph.edges.as_slice())
    }
}

/// The names of all properties of a graph.
pub fn property_names(alloc: Global, graph: &GraphEntry) -> Result<NameSet<'_>, AllocError>
    ensures { IfOk result (spec.AreNamesOf graph.now) }
{
    let mut names = NameSet::new(alloc);
    match names.add_graph(graph) {
        Ok(()) => Ok(names),
        Err(_) => Err(AllocError),
    }
}
