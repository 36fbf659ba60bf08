//! The kinds of all properties of a graph by their names, collected in one pass.
ghost use Rattle.std.specs.Prelude.{◌≡◌, [], IfOk, OnOk, false, is_some, map};
ghost use Rattle.std.specs.List.{flat_map};
ghost use Rattle.std.specs.Map.{lookup};
ghost use Rattle.std.specs.Str.{bytes_eq};
ghost use Rattle.pg_catalog.specs.PropertyKinds as spec;

use indexmap::IndexMap;
use pg_rules::{EdgeEntry, ElementEntry, GraphEntry, LabelEntry, PropertyEntry};
use pg_value::{Kind, Text};
use std::alloc::{AllocError, Global};
use std::marker::Model;

/// Names of properties, each once and with a kind.
#[derive(Drop)]
pub struct PropertyKinds<'a> {
    kinds: IndexMap<&'a str, Kind>,
}

impl<'a> Model for PropertyKinds<'a> {
    ghost use Rattle.std.specs.Prelude.{ℕ, List, map};
    ghost use Rattle.pg_value.specs.declared.value.Kind.{Kind};

    ghost Value = { List (List ℕ × Kind) };

    ghost view = { λ k. map (λ e. (e.0.now, e.1)) k.kinds.entries };
}

impl<'a> PropertyKinds<'a> {
    /// No names. It takes no memory.
    pub(crate) fn new(alloc: Global) -> PropertyKinds<'a>
        ensures { result ≡ [] }
    {
        PropertyKinds {
            kinds: IndexMap::new(alloc),
        }
    }

    /// The kind of a name; None exactly where it is not among them.
    pub fn kind(&self, name: &Text) -> Option<Kind>
        ensures { result ≡ lookup (bytes_eq name.now) self.now }
    {
        self.get(name.as_str())
    }

    /// The kind of a name.
    fn get(&self, name: &str) -> Option<Kind>
        ensures { result ≡ lookup (bytes_eq name.now) self.now }
    {
        match self.kinds.get(name) {
            Some(kind) => Some(*kind),
            None => None,
        }
    }

    /// Adds the kind of a name that has none.
    fn insert(&mut self, name: &'a str, kind: Kind) -> Result<(), AllocError>
        requires { is_some (lookup (bytes_eq name.now) self.old) ≡ false }
        ensures { OnOk result (self.new ≡ spec.add_last self.old name.now kind) }
    {
        insert_kind(&mut self.kinds, name, kind)
    }

    /// Adds the kind of a name, where it has none.
    fn add(&mut self, name: &'a str, kind: Kind) -> Result<(), AllocError>
        ensures { OnOk result (self.new ≡ spec.add_kind self.old name.now kind) }
    {
        if self.get(name).is_some() {
            return Ok(());
        }
        self.insert(name, kind)
    }

    /// Adds the kinds of some properties.
    fn add_properties(&mut self, properties: &'a [PropertyEntry]) -> Result<(), AllocError>
        ensures { OnOk result (self.new ≡ spec.kinds_after self.old properties.now) }
    {
        for property in properties {
            self.add(property.name.as_str(), property.kind)?;
        }
        Ok(())
    }

    /// Adds the kinds of the properties under some labels.
    fn add_labels(&mut self, labels: &'a [LabelEntry]) -> Result<(), AllocError>
        ensures { OnOk result (self.new ≡ spec.kinds_after self.old (flat_map spec.under_label labels.now)) }
    {
        for label in labels {
            self.add_properties(label.properties.as_slice())?;
        }
        Ok(())
    }

    /// Adds the kinds of the properties of some vertex tables.
    fn add_vertices(&mut self, vertices: &'a [ElementEntry]) -> Result<(), AllocError>
        ensures { OnOk result (self.new ≡ spec.kinds_after self.old (flat_map spec.of_element vertices.now)) }
    {
        for vertex in vertices {
            self.add_labels(vertex.labels.as_slice())?;
        }
        Ok(())
    }

    /// Adds the kinds of the properties of some edge tables.
    fn add_edges(&mut self, edges: &'a [EdgeEntry]) -> Result<(), AllocError>
        ensures { OnOk result (self.new ≡ spec.kinds_after self.old (flat_map spec.of_edge edges.now)) }
    {
        for edge in edges {
            self.add_labels(edge.element.labels.as_slice())?;
        }
        Ok(())
    }

    /// Adds the kinds of the properties of a graph.
    fn add_graph(&mut self, graph: &'a GraphEntry) -> Result<(), AllocError>
        ensures { OnOk result (self.new ≡ spec.kinds_after (spec.kinds_after self.old (flat_map spec.of_element graph.now.vertices)) (flat_map spec.of_edge graph.now.edges)) }
    {
        self.add_vertices(graph.vertices.as_slice())?;
        self.add_edges(graph.edges.as_slice())
    }
}

/// Puts a name that is not there behind the others.
fn insert_kind<'a>(
    kinds: &mut IndexMap<&'a str, Kind>,
    name: &'a str,
    kind: Kind,
) -> Result<(), AllocError>
    requires { is_some (lookup (bytes_eq name.now) (map (λ e. (e.0.now, e.1)) kinds.old.entries)) ≡ false }
    ensures { OnOk result (map (λ e. (e.0.now, e.1)) kinds.new.entries ≡ spec.add_last (map (λ e. (e.0.now, e.1)) kinds.old.entries) name.now kind) }
{
    match kinds.insert(name, kind) {
        Ok(_) => Ok(()),
        Err(_) => Err(AllocError),
    }
}

/// The kinds of all properties of a graph.
pub fn property_kinds(alloc: Global, graph: &GraphEntry) -> Result<PropertyKinds<'_>, AllocError>
    ensures { IfOk result (spec.AreKindsOf graph.now) }
{
    let mut kinds = PropertyKinds::new(alloc);
    match kinds.add_graph(graph) {
        Ok(()) => Ok(kinds),
        Err(_) => Err(AllocError),
    }
}
