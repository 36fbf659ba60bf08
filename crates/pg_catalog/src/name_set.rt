//! Names in statements: sets of them, and those that stand twice, in one pass.
ghost use Rattle.std.specs.Prelude.{◌≡◌, ◌++◌, [], IfOk, OnOk, map};
ghost use Rattle.std.specs.List.{flat_map};
ghost use Rattle.pg_rules.specs.Places.{least, sooner};
ghost use Rattle.pg_rules.specs.Definitions.Graphs as graph;
ghost use Rattle.pg_rules.specs.Definitions.Tables.{member, repeats};
ghost use Rattle.pg_catalog.specs.NameSets as spec;

use indexmap::IndexSet;
use pg_ast::{ColumnDef, EdgeDef, LabelDef, Name, PropDef, SetItem, VertexDef};
use pg_rules::{place_if, sooner};
use pg_value::{List, Text};
use std::alloc::{AllocError, Global};
use std::marker::Model;

/// A part of a statement that has a name.
pub trait Named {
    ghost use Rattle.pg_ast.specs.declared.expr.Name.{Name};

    ghost named: { Self → Name };

    /// Its name.
    fn name(&self) -> &Name
        ensures { result.now ≡ named self.now };
}

impl Named for Name {
    ghost named = { λ n. n };

    fn name(&self) -> &Name {
        self
    }
}

impl Named for ColumnDef {
    ghost named = { λ c. c.name };

    fn name(&self) -> &Name {
        &self.name
    }
}

impl Named for LabelDef {
    ghost named = { λ l. l.name };

    fn name(&self) -> &Name {
        &self.name
    }
}

impl Named for PropDef {
    ghost named = { λ p. p.name };

    fn name(&self) -> &Name {
        &self.name
    }
}

impl Named for VertexDef {
    ghost named = { λ v. v.table };

    fn name(&self) -> &Name {
        &self.table
    }
}

impl Named for EdgeDef {
    ghost named = { λ e. e.table };

    fn name(&self) -> &Name {
        &self.table
    }
}

impl Named for SetItem {
    ghost named = { λ s. s.column };

    fn name(&self) -> &Name {
        &self.column
    }
}

/// Names, each once.
#[derive(Drop)]
pub struct NameSet<'a> {
    texts: IndexSet<&'a str>,
}

impl<'a> Model for NameSet<'a> {
    ghost use Rattle.std.specs.Prelude.{ℕ, List, map};

    ghost Value = { List (List ℕ) };

    ghost view = { λ s. map (λ k. k.now) s.texts.keys };
}

impl<'a> NameSet<'a> {
    /// No names. It takes no memory.
    pub fn new(alloc: Global) -> NameSet<'a>
        ensures { result ≡ [] }
    {
        NameSet {
            texts: IndexSet::new(alloc),
        }
    }

    /// Whether a name is among them.
    pub fn has(&self, name: &Text) -> bool
        ensures { result ≡ member name.now self.now }
    {
        self.contains(name.as_str())
    }

    /// Whether a text is among the names.
    pub(crate) fn contains(&self, text: &str) -> bool
        ensures { result ≡ member text.now self.now }
    {
        self.texts.contains(text)
    }

    /// Whether a text was among the names; it is from now on.
    pub fn add(&mut self, text: &'a str) -> Result<bool, AllocError>
        ensures again { IfOk result (λ again. again ≡ member text.now self.old) }
        ensures added { OnOk result (self.new ≡ spec.add self.old text.now) }
    {
        insert_text(&mut self.texts, text)
    }

    /// The place of the first name that was among them before it; all are from now on.
    #[tactic(auto, using(pg_rules::specs::Places::least_found, pg_rules::specs::Places::sooner_none))]
    fn add_named<T: Named>(&mut self, items: &'a [T]) -> Result<Option<u32>, AllocError>
        ensures found { IfOk result (λ place. place ≡ least (spec.repeats_after self.old (map T.named items.now))) }
        ensures added { OnOk result (self.new ≡ spec.add_all self.old (spec.texts_by T.named items.now)) }
    {
        let mut found = None;
        for item in items {
            let again = self.add(item.name().text.as_str())?;
            found = sooner(found, place_if(again, item.name().at));
        }
        Ok(found)
    }

    /// The place of the first element table whose name was among them before it, the vertex tables first.
    fn add_tables(
        &mut self,
        vertices: &'a [VertexDef],
        edges: &'a [EdgeDef],
    ) -> Result<Option<u32>, AllocError>
        ensures { IfOk result (λ place. place ≡ sooner (least (spec.repeats_after self.old (graph.vertex_names vertices.now))) (least (spec.repeats_after (spec.add_all self.old (graph.vertex_texts vertices.now)) (graph.edge_names edges.now)))) }
    {
        let of_vertices = self.add_named(vertices)?;
        let of_edges = self.add_named(edges)?;
        Ok(sooner(of_vertices, of_edges))
    }
}

/// Whether a text was in a set; it is from now on.
fn insert_text<'a>(texts: &mut IndexSet<&'a str>, text: &'a str) -> Result<bool, AllocError>
    ensures again { IfOk result (λ again. again ≡ member text.now (map (λ k. k.now) texts.old.keys)) }
    ensures added { OnOk result (map (λ k. k.now) texts.new.keys ≡ spec.add (map (λ k. k.now) texts.old.keys) text.now) }
{
    match texts.insert(text) {
        Ok(is_new) => Ok(!is_new),
        Err(_) => Err(AllocError),
    }
}

/// The names of some parts of a definition.
pub fn names_of<T: Named>(alloc: Global, items: &[T]) -> Result<NameSet<'_>, AllocError>
    ensures { IfOk result (λ names. names ≡ spec.add_all [] (spec.texts_by T.named items.now)) }
{
    let mut names = NameSet::new(alloc);
    match names.add_named(items) {
        Ok(_) => Ok(names),
        Err(_) => Err(AllocError),
    }
}

/// The first name that stands among those before it, found in one pass. Only want of memory refuses it.
pub fn repeated_name<T: Named>(alloc: Global, items: &[T]) -> Result<Option<u32>, AllocError>
    ensures { IfOk result (λ place. place ≡ least (repeats (map T.named items.now))) }
{
    let mut names = NameSet::new(alloc);
    let place = names.add_named(items);
    drop(names);
    place
}

/// The first name that stands among those before it in its own list.
#[tactic(auto, using(pg_rules::specs::Places::least_found, pg_rules::specs::Places::sooner_none))]
pub fn repeated_in_lists(alloc: Global, lists: &[List<Name>]) -> Result<Option<u32>, AllocError>
    ensures { IfOk result (λ place. place ≡ least (flat_map repeats lists.now)) }
{
    let mut found = None;
    for names in lists {
        let again = repeated_name(alloc, names.as_slice())?;
        found = sooner(found, again);
    }
    Ok(found)
}

/// The first element table that stands among those before it, the vertex tables first.
pub fn repeated_element(
    alloc: Global,
    vertices: &[VertexDef],
    edges: &[EdgeDef],
) -> Result<Option<u32>, AllocError>
    ensures { IfOk result (λ place. place ≡ least (repeats (graph.vertex_names vertices.now ++ graph.edge_names edges.now))) }
{
    let mut names = NameSet::new(alloc);
    let place = names.add_tables(vertices, edges);
    drop(names);
    place
}
