//! The catalog: the definition of tables and graphs, and the look-ups.
ghost use Rattle.std.specs.Prelude.{◌≡◌, [], IfOk, IfErr, OnOk, OnErr, is_some, None, false, ◌++◌, ◌∷◌, position, slice_get, length, ◌<◌};
ghost use Rattle.std.specs.Map.{keys_of};
ghost use Rattle.std.specs.Option.{option_copied, option_map};
ghost use Rattle.std.specs.Str.{bytes_eq};
ghost use Rattle.pg_rules.specs.Definitions.Tables as define;
ghost use Rattle.pg_rules.specs.Catalog.{IsFew};
ghost use Rattle.pg_rules.specs.Catalog.Shapes as shape;
ghost use Rattle.pg_rules.specs.Catalog.LookUps as spec;
ghost use Rattle.pg_rules.specs.Catalog.SoundDefinitions.{IsCatalog};
ghost use Rattle.pg_rules.specs.Definitions.Entries as entry;
ghost use Rattle.pg_rules.specs.Catalog.GraphLookUps as look;
ghost use Rattle.pg_ast.specs.Trees.{label_tree};
ghost use Rattle.pg_rules.specs.Definitions.Graphs as graph_judge;
ghost use Rattle.pg_rules.specs.Definitions as judge;
ghost use Rattle.pg_meaning.specs.Sound.Graphs as sound;
ghost use Rattle.pg_catalog.specs.PropertyNames as property;
ghost use Rattle.pg_catalog.specs.PropertyKinds as collected;

use crate::graph::entry::{elements_of, graph_of};
use crate::graph::keys::graph_key_mismatch;
use crate::graph::kinds_by_name::{PropertyKinds, property_kinds};
use crate::graph::label_agreement::label_mismatch;
use crate::graph::label_names::label_names;
use crate::graph::limits::graph_limit;
use crate::graph::look_up::{graph_shape, property_in, tables_of};
use crate::graph::property_kinds::type_mismatch;
use crate::graph::property_names::property_names;
use crate::graph::repeated_names::graph_name_taken;
use crate::graph::unknown_names;
use crate::name_set::NameSet;
use crate::shapes::{edge_shapes, table_shapes};
use crate::table::entry::{column_place, entry_of};
use crate::table::faults::{key_mismatch, limit, name_taken, no_column};
use crate::table::look_up::{columns_named, key_named};
use indexmap::IndexMap;
use pg_ast::{Define, GraphDef, LabelExpr, TableDef};
use pg_rules::{ColumnEntry, DefineFault, GraphEntry, TableEntry, sound_definitions, sound_shapes};
use pg_value::{GraphNo, GraphShape, Shapes, TableNo, TableSet, Text};
use std::alloc::{AllocError, Global};
use std::marker::Model;

/// The tables and property graphs that are defined, each in order of definition: at most 64 tables of at most 32 columns,
/// and at most 16 graphs of at most 32 edge tables each. `define` takes no name that a table or graph has. A catalog is sound:
/// what its tables and graphs name stands, and a property has one kind in a graph.
#[derive(Drop)]
pub struct Catalog {
    tables: IndexMap<Text, TableEntry>,
    graphs: IndexMap<Text, GraphEntry>,
}

impl Model for Catalog {
    ghost use Rattle.pg_rules.specs.Catalog.{Defined, of_entries};
    ghost use Rattle.pg_rules.specs.Catalog.SoundDefinitions.{IsCatalog};

    ghost Value = { Defined };

    ghost view = { λ c. of_entries c.tables.entries c.graphs.entries };

    ghost invariant = { λ c. IsCatalog (of_entries c.tables.entries c.graphs.entries) };
}

impl Catalog {
    /// A catalog of nothing. It takes no memory.
    pub fn new(alloc: Global) -> Catalog
        ensures { result ≡ spec.nothing }
    {
        Catalog {
            tables: IndexMap::new(alloc),
            graphs: IndexMap::new(alloc),
        }
    }

    /// What a holder of a catalog may rely on, whichever definitions it has taken: it is small enough for its numbers, and
    /// sound. It does nothing.
    pub fn soundness(&self)
        ensures { IsCatalog self.now }
    {
        let _ = &self.tables;
    }

    /// The number of a table; None exactly where no table has the name.
    pub fn table(&self, name: &Text) -> Option<TableNo>
        ensures { result ≡ option_map spec.table_number (spec.table_at self.now name.now) }
    {
        match self.tables.get_index_of(name) {
            Some(at) => Some(TableNo(at as u32)),
            None => None,
        }
    }

    /// The number of a graph; None exactly where no graph has the name.
    pub fn graph(&self, name: &Text) -> Option<GraphNo>
        ensures { result ≡ option_map spec.graph_number (spec.graph_at self.now name.now) }
    {
        match self.graphs.get_index_of(name) {
            Some(at) => Some(GraphNo(at as u32)),
            None => None,
        }
    }

    /// The name of a table; None exactly where there is no such table.
    pub fn table_name(&self, table: TableNo) -> Option<&Text>
        ensures { option_copied result ≡ spec.name_at self.now table }
    {
        match self.tables.get_index(table.0 as usize) {
            Some((name, _)) => Some(name),
            None => None,
        }
    }

    /// The place of a column in a table; None exactly where there is no such column or no such table.
    pub fn column(&self, table: TableNo, name: &Text) -> Option<u32>
        ensures { result ≡ spec.column_at self.now table name.now }
    {
        match self.tables.get_index(table.0 as usize) {
            Some((_, entry)) => column_place(entry.columns.as_slice(), name),
            None => None,
        }
    }

    /// The name of the column at a place, from 0, of a table; None exactly where there is no such column or no such table.
    pub fn column_name(&self, table: TableNo, column: u32) -> Option<&Text>
        ensures { option_copied result ≡ spec.column_name_at self.now table column }
    {
        match self.tables.get_index(table.0 as usize) {
            Some((_, entry)) => name_in(entry, column),
            None => None,
        }
    }

    /// The columns of a table, at most 32; none where no table has the name.
    pub fn columns_of(&self, name: &Text) -> &[ColumnEntry]
        ensures columns { result.now ≡ spec.columns_named self.now.0 name.now }
        ensures few { IsFew result.now }
    {
        columns_named(&self.tables, name)
    }

    /// The places of the columns of a table's primary key; none where no table has the name.
    pub fn key_of(&self, name: &Text) -> &[u32]
        ensures { result.now ≡ spec.key_named self.now.0 name.now }
    {
        key_named(&self.tables, name)
    }

    /// The shapes of all tables, by their numbers, and of the edge tables of all graphs, in order of definition: columns and
    /// tables that they name stand, keys are NOT NULL, and ends have the kinds of keys. Only want of memory refuses it.
    pub fn shapes(&self, alloc: Global) -> Result<Shapes, AllocError>
        ensures shapes { IfOk result (λ shapes. shapes ≡ shape.shapes self.now) }
        ensures sound { IfOk result sound.AreSoundShapes }
    {
        sound_shapes();
        let tables = table_shapes(alloc, &self.tables)?;
        let edges = edge_shapes(alloc, &self.graphs)?;
        Ok(Shapes { tables, edges })
    }

    /// The column that an element table of a graph has for a property under any of its labels; None exactly where there is
    /// no such graph, the table is no element table of it, or has no such property there.
    pub fn property(&self, graph: GraphNo, table: TableNo, name: &Text) -> Option<u32>
        ensures { result ≡ look.property_at self.now graph table name.now }
    {
        match self.graphs.get_index(graph.0 as usize) {
            Some((_, entry)) => property_in(entry, table, name),
            None => None,
        }
    }

    /// How many tables are defined.
    pub fn table_count(&self) -> u32
        ensures { result ≡ length self.now.0 }
    {
        self.tables.len() as u32
    }

    /// The names of all properties of a graph, collected in one pass over its element tables; none where there is no such
    /// graph. Only want of memory refuses it.
    pub fn property_names(&self, alloc: Global, graph: GraphNo) -> Result<NameSet<'_>, AllocError>
        ensures { IfOk result (property.AreNamesOf (look.graph_numbered self.now.1 graph)) }
    {
        match self.graphs.get_index(graph.0 as usize) {
            Some((_, entry)) => property_names(alloc, entry),
            None => Ok(NameSet::new(alloc)),
        }
    }

    /// The kinds of all properties of a graph by their names, collected in one pass over its element tables; none where there
    /// is no such graph. Only want of memory refuses it.
    pub fn property_kinds(
        &self,
        alloc: Global,
        graph: GraphNo,
    ) -> Result<PropertyKinds<'_>, AllocError>
        ensures { IfOk result (collected.AreKindsOf (look.graph_numbered self.now.1 graph)) }
    {
        match self.graphs.get_index(graph.0 as usize) {
            Some((_, entry)) => property_kinds(alloc, entry),
            None => Ok(PropertyKinds::new(alloc)),
        }
    }

    /// The names of all labels of a graph, collected in one pass over its element tables; none where there is no such graph.
    /// Only want of memory refuses it.
    pub fn label_names(&self, alloc: Global, graph: GraphNo) -> Result<NameSet<'_>, AllocError>
        ensures { IfOk result (collected.AreLabelsOf (look.graph_numbered self.now.1 graph)) }
    {
        match self.graphs.get_index(graph.0 as usize) {
            Some((_, entry)) => label_names(alloc, entry),
            None => Ok(NameSet::new(alloc)),
        }
    }

    /// The vertex tables of a graph, or its edge tables, whose labels meet a label expression (ISO/IEC 9075-16:2023, label
    /// expression): `!` is complement among the tables of that sort. It takes no memory. The set is empty where there is no
    /// such graph.
    pub fn tables_of(&self, graph: GraphNo, edges: bool, label: &LabelExpr) -> TableSet
        ensures { look.IsSetOf result.0 (look.tables_of self.now graph edges (label_tree label.now)) }
    {
        match self.graphs.get_index(graph.0 as usize) {
            Some((_, entry)) => tables_of(entry, edges, label),
            None => TableSet(0),
        }
    }

    /// The vertex tables and the edge tables of a graph, both in order of definition; edge tables are numbered over all
    /// graphs. Both lists are empty where there is no such graph; the tables of a graph stand, and differ. Only want of memory
    /// refuses it.
    pub fn graph_shape(&self, alloc: Global, graph: GraphNo) -> Result<GraphShape, AllocError>
        ensures shape { IfOk result (λ shape. shape ≡ look.graph_shape self.now graph) }
        ensures sound { IfOk result (λ found. graph.0 < length self.now.1 → sound.IsSoundGraph (shape.shapes self.now) found) }
    {
        sound_shapes();
        graph_shape(alloc, &self.graphs, graph.0)
    }

    /// Whether a table or a graph has a name.
    fn is_defined(&self, name: &Text) -> bool
        ensures { result ≡ define.is_defined self.now name.now }
    {
        self.tables.get_index_of(name).is_some() || self.graphs.get_index_of(name).is_some()
    }

    /// Whether there is no room for another table.
    fn is_full(&self) -> bool
        ensures { result ≡ define.is_full self.now }
    {
        self.tables.len() > 63
    }

    /// Why a table may not be defined.
    fn table_fault(
        &self,
        alloc: Global,
        table: &TableDef,
    ) -> Result<Option<DefineFault>, AllocError>
        ensures { IfOk result (λ r. r ≡ define.table_fault self.now table.now) }
    {
        if let Some(at) = name_taken(alloc, self.is_defined(&table.name.text), table)? {
            return Ok(Some(DefineFault::NameTaken { at }));
        }
        if let Some(at) = no_column(alloc, table)? {
            return Ok(Some(DefineFault::NoColumn { at }));
        }
        if let Some(at) = key_mismatch(table) {
            return Ok(Some(DefineFault::KeyMismatch { at }));
        }
        match limit(self.is_full(), table) {
            Some(at) => Ok(Some(DefineFault::Limit { at })),
            None => Ok(None),
        }
    }

    /// Defines a table, which stands behind the others, or says why not, and then the catalog is as before. NameTaken comes
    /// exactly where a table or graph has its name, or a column's name or a name in one primary key clause stands twice;
    /// NoColumn where a key names no column; KeyMismatch where there is not one primary key clause; Limit at the 65th
    /// table, the 33rd column, a key's 5th name, or a length of text outside 1 to 255. The first of these kinds that has
    /// a place is answered, at its first place. Memory may come at any point.
    pub fn define_table(&mut self, alloc: Global, table: &TableDef) -> Result<(), DefineFault>
        ensures ok { IfOk result (λ _. define.table_fault self.old table.now ≡ None) }
        ensures defined { OnOk result (self.new ≡ define.with_table self.old table.now) }
        ensures fault { IfErr result (define.IsFault (define.table_fault self.old table.now)) }
        ensures unchanged { OnErr result (self.new ≡ self.old) }
    {
        sound_definitions();
        let Ok(found) = self.table_fault(alloc, table) else {
            return Err(DefineFault::Memory);
        };
        if let Some(fault) = found {
            return Err(fault);
        }
        let Ok(entry) = entry_of(alloc, table) else {
            return Err(DefineFault::Memory);
        };
        let Ok(name) = table.name.text.copy(alloc) else {
            return Err(DefineFault::Memory);
        };
        match add(&mut self.tables, name, entry) {
            Ok(()) => Ok(()),
            Err(_) => Err(DefineFault::Memory),
        }
    }

    /// Whether there is no room for another graph.
    fn is_full_of_graphs(&self) -> bool
        ensures { result ≡ graph_judge.is_full self.now }
    {
        self.graphs.len() > 15
    }

    /// Why the labels and properties of a graph's element tables may not be defined, or what is beyond a limit.
    fn labels_fault(
        &self,
        alloc: Global,
        graph: &GraphDef,
    ) -> Result<Option<DefineFault>, AllocError>
        ensures { IfOk result (λ r. r ≡ graph_judge.labels_fault self.now graph.now) }
    {
        let elements = elements_of(alloc, &self.tables, graph)?;
        if let Some(at) = label_mismatch(alloc, elements.as_slice())? {
            return Ok(Some(DefineFault::LabelMismatch { at }));
        }
        if let Some(at) = type_mismatch(alloc, elements.as_slice())? {
            return Ok(Some(DefineFault::TypeMismatch { at }));
        }
        match graph_limit(self.is_full_of_graphs(), graph) {
            Some(at) => Ok(Some(DefineFault::Limit { at })),
            None => Ok(None),
        }
    }

    /// Why a graph may not be defined.
    fn graph_fault(
        &self,
        alloc: Global,
        graph: &GraphDef,
    ) -> Result<Option<DefineFault>, AllocError>
        ensures { IfOk result (λ r. r ≡ graph_judge.graph_fault self.now graph.now) }
    {
        if let Some(at) = graph_name_taken(alloc, self.is_defined(&graph.name.text), graph)? {
            return Ok(Some(DefineFault::NameTaken { at }));
        }
        if let Some(at) = unknown_names::no_table(alloc, &self.tables, graph)? {
            return Ok(Some(DefineFault::NoTable { at }));
        }
        if let Some(at) = unknown_names::no_column(&self.tables, graph) {
            return Ok(Some(DefineFault::NoColumn { at }));
        }
        if let Some(at) = graph_key_mismatch(&self.tables, graph) {
            return Ok(Some(DefineFault::KeyMismatch { at }));
        }
        self.labels_fault(alloc, graph)
    }

    /// Defines a property graph (ISO/IEC 9075-16:2023), which stands behind the others, or says why not, and then the
    /// catalog is as before. NameTaken comes exactly where a table or graph has its name, or an element table, a label of
    /// one element table or a property of one label is named twice; NoTable where a named table does not exist, or a
    /// referenced one is no vertex table of the graph; NoColumn where a named column is not in its table; KeyMismatch
    /// where a KEY list is not the table's primary key, or an end's lists do not match the vertex table's;
    /// LabelMismatch where a label of two element tables has other property names or kinds on them, or a property name
    /// means two columns of one table; TypeMismatch where a property name has two kinds; Limit at the 17th graph, the
    /// 33rd element table, or the 9th label of one. The first of these kinds that has a place is answered, at its first
    /// place. Memory may come at any point.
    pub fn define_graph(&mut self, alloc: Global, graph: &GraphDef) -> Result<(), DefineFault>
        ensures ok { IfOk result (λ _. graph_judge.graph_fault self.old graph.now ≡ None) }
        ensures defined { OnOk result (self.new ≡ entry.with_graph self.old graph.now) }
        ensures fault { IfErr result (define.IsFault (graph_judge.graph_fault self.old graph.now)) }
        ensures unchanged { OnErr result (self.new ≡ self.old) }
    {
        sound_definitions();
        let Ok(found) = self.graph_fault(alloc, graph) else {
            return Err(DefineFault::Memory);
        };
        if let Some(fault) = found {
            return Err(fault);
        }
        let Ok(entry) = graph_of(alloc, &self.tables, graph) else {
            return Err(DefineFault::Memory);
        };
        let Ok(name) = graph.name.text.copy(alloc) else {
            return Err(DefineFault::Memory);
        };
        match add_graph(&mut self.graphs, name, entry) {
            Ok(()) => Ok(()),
            Err(_) => Err(DefineFault::Memory),
        }
    }

    /// Defines a table or a property graph, which stands behind the others of its sort, or says why not, and then the
    /// catalog is as before: the first kind of fault, in the order of `DefineFault`, that has a place, at its first place.
    /// `define_table` and `define_graph` say where each comes. Memory may come at any point.
    pub fn define(&mut self, alloc: Global, definition: &Define) -> Result<(), DefineFault>
        ensures ok { IfOk result (λ _. judge.define_fault self.old definition.now ≡ None) }
        ensures defined { OnOk result (self.new ≡ judge.with_definition self.old definition.now) }
        ensures fault { IfErr result (define.IsFault (judge.define_fault self.old definition.now)) }
        ensures unchanged { OnErr result (self.new ≡ self.old) }
    {
        match definition {
            Define::Table(table) => self.define_table(alloc, table),
            Define::Graph(graph) => self.define_graph(alloc, graph),
        }
    }
}

/// The name of the column at a place of a table.
fn name_in(table: &TableEntry, column: u32) -> Option<&Text>
    ensures { option_copied result ≡ option_map (λ c. c.name) (slice_get table.now.columns column) }
{
    match table.columns.get(column as usize) {
        Some(entry) => Some(&entry.name),
        None => None,
    }
}

/// Puts a new table behind the others.
#[tactic(auto, using(crate::proofs::Growth::appended))]
fn add(
    tables: &mut IndexMap<Text, TableEntry>,
    name: Text,
    entry: TableEntry,
) -> Result<(), AllocError>
    requires { is_some (position (bytes_eq name) (keys_of tables.old.entries)) ≡ false }
    ensures ok { OnOk result (tables.new.entries ≡ tables.old.entries ++ (name, entry) ∷ []) }
    ensures err { OnErr result (tables.new.entries ≡ tables.old.entries) }
{
    match tables.insert(name, entry) {
        Ok(_) => Ok(()),
        Err(_) => Err(AllocError),
    }
}

/// Puts a new graph behind the others.
#[tactic(auto, using(crate::proofs::Growth::appended))]
fn add_graph(
    graphs: &mut IndexMap<Text, GraphEntry>,
    name: Text,
    entry: GraphEntry,
) -> Result<(), AllocError>
    requires { is_some (position (bytes_eq name) (keys_of graphs.old.entries)) ≡ false }
    ensures ok { OnOk result (graphs.new.entries ≡ graphs.old.entries ++ (name, entry) ∷ []) }
    ensures err { OnErr result (graphs.new.entries ≡ graphs.old.entries) }
{
    match graphs.insert(name, entry) {
        Ok(_) => Ok(()),
        Err(_) => Err(AllocError),
    }
}
