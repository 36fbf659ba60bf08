//! Labels and properties of the element tables of a graph that do not agree.
ghost use Rattle.std.specs.Prelude.{◌≡◌, [], IfOk, OnOk, cond, false, is_some, map};
ghost use Rattle.std.specs.List.{flat_map};
ghost use Rattle.std.specs.Map.{lookup};
ghost use Rattle.std.specs.Str.{bytes_eq};
ghost use Rattle.pg_rules.specs.Places.{least, place_if};
ghost use Rattle.pg_rules.specs.Definitions.Graphs as spec;
ghost use Rattle.pg_catalog.specs.NameSets.{add_by, add_all, member_by};
ghost use Rattle.pg_catalog.specs.PropertyRows as pass;
ghost use Rattle.pg_catalog.specs.PropertyRows.{row_view};

use crate::graph::property_rows::{Row, any_of, rows};
use crate::name_set::NameSet;
use indexmap::{IndexMap, IndexSet};
use pg_rules::{ElementEntry, LabelEntry, PlacedElement, place_if, sooner};
use pg_value::{Kind, List, same_kind};
use std::alloc::{AllocError, Global};
use std::marker::Model;

impl<'a> NameSet<'a> {
    /// Adds the names of some labels.
    pub(crate) fn add_label_names(&mut self, labels: &'a [LabelEntry]) -> Result<(), AllocError>
        ensures { OnOk result (self.new ≡ add_all self.old (map (λ l. l.name) labels.now)) }
    {
        for label in labels {
            self.add(label.name.as_str())?;
        }
        Ok(())
    }
}

/// Names of properties, each under a label, each pair once.
#[derive(Drop)]
struct LabelledNames<'a> {
    pairs: IndexSet<(&'a str, &'a str)>,
}

impl<'a> Model for LabelledNames<'a> {
    ghost use Rattle.std.specs.Prelude.{ℕ, List, map};

    ghost Value = { List (List ℕ × List ℕ) };

    ghost view = { λ s. map (λ k. (k.0.now, k.1.now)) s.pairs.keys };
}

impl<'a> LabelledNames<'a> {
    /// No names. It takes no memory.
    fn new(alloc: Global) -> LabelledNames<'a>
        ensures { result ≡ [] }
    {
        LabelledNames {
            pairs: IndexSet::new(alloc),
        }
    }

    /// Whether a name is there under a label.
    fn has(&self, label: &str, name: &str) -> bool
        ensures { result ≡ member_by pass.pair_eq (label.now, name.now) self.now }
    {
        let pair = (label, name);
        self.pairs.contains(&pair)
    }

    /// Adds a name under a label.
    fn add(&mut self, label: &'a str, name: &'a str) -> Result<(), AllocError>
        ensures { OnOk result (self.new ≡ add_by pass.pair_eq self.old (label.now, name.now)) }
    {
        insert_pair(&mut self.pairs, label, name)
    }

    /// Adds the name of a row under its label, where it is asked for.
    fn add_if(&mut self, asked: bool, row: &Row<'a>) -> Result<(), AllocError>
        ensures { OnOk result (self.new ≡ cond asked (add_by pass.pair_eq self.old (row.now.label.now, row.now.name.now)) self.old) }
    {
        if !asked {
            return Ok(());
        }
        self.add(row.label, row.name)
    }

    /// Adds the names of the properties of one kind.
    fn add_of_kind(&mut self, kind: Kind, rows: &[Row<'a>]) -> Result<(), AllocError>
        ensures { OnOk result (self.new ≡ pass.pairs_after kind self.old (map row_view rows.now)) }
    {
        for row in rows {
            self.add_if(same_kind(kind, row.kind), row)?;
        }
        Ok(())
    }
}

/// Adds a pair to a set.
fn insert_pair<'a>(
    pairs: &mut IndexSet<(&'a str, &'a str)>,
    label: &'a str,
    name: &'a str,
) -> Result<(), AllocError>
    ensures { OnOk result (map (λ k. (k.0.now, k.1.now)) pairs.new.keys ≡ add_by pass.pair_eq (map (λ k. (k.0.now, k.1.now)) pairs.old.keys) (label.now, name.now)) }
{
    match pairs.insert((label, name)) {
        Ok(_) => Ok(()),
        Err(_) => Err(AllocError),
    }
}

/// Whether a row of this kind, under a known label, is none of some pairs.
fn is_lacking(kind: Kind, labels: &NameSet<'_>, pairs: &LabelledNames<'_>, row: &Row<'_>) -> bool
    ensures { result ≡ pass.is_lacking kind labels.now pairs.now (row_view row.now) }
{
    let is_kind = same_kind(kind, row.kind);
    let is_label = labels.contains(row.label);
    let is_there = pairs.has(row.label, row.name);
    is_kind && (is_label && !is_there)
}

/// Whether some row of a kind, under a known label, is none of some pairs.
fn lacks_any(kind: Kind, labels: &NameSet<'_>, pairs: &LabelledNames<'_>, rows: &[Row<'_>]) -> bool
    ensures { result ≡ pass.lacks_of kind labels.now pairs.now (map row_view rows.now) }
{
    for row in rows {
        if is_lacking(kind, labels, pairs, row) {
            return true;
        }
    }
    false
}

/// Whether some row of a kind, under a known label, is none of the first rows.
fn lacks_kind(
    alloc: Global,
    kind: Kind,
    labels: &NameSet<'_>,
    first: &[Row<'_>],
    second: &[Row<'_>],
) -> Result<bool, AllocError>
    ensures { IfOk result (λ b. b ≡ pass.lacks_of kind labels.now (pass.pairs_after kind [] (map row_view first.now)) (map row_view second.now)) }
{
    let mut pairs = LabelledNames::new(alloc);
    match pairs.add_of_kind(kind, first) {
        Ok(()) => Ok(lacks_any(kind, labels, &pairs, second)),
        Err(_) => Err(AllocError),
    }
}

/// Whether some row, under a known label, is none of the first rows.
fn lacks_rows(
    alloc: Global,
    labels: &NameSet<'_>,
    first: &[Row<'_>],
    second: &[Row<'_>],
) -> Result<bool, AllocError>
    ensures { IfOk result (λ b. b ≡ pass.lacks_by_kind labels.now (map row_view first.now) (map row_view second.now)) }
{
    let ints = lacks_kind(alloc, Kind::Int, labels, first, second)?;
    let texts = lacks_kind(alloc, Kind::Text, labels, first, second)?;
    let bools = lacks_kind(alloc, Kind::Bool, labels, first, second)?;
    Ok(any_of(ints, texts, bools))
}

/// Whether the second element table has, under a known label, a property that the first has not.
fn lacks_under(
    alloc: Global,
    labels: &NameSet<'_>,
    e: &ElementEntry,
    f: &ElementEntry,
) -> Result<bool, AllocError>
    ensures { IfOk result (λ b. b ≡ pass.lacks_by_kind labels.now (spec.rows e.now) (spec.rows f.now)) }
{
    let first = rows(alloc, e)?;
    let second = rows(alloc, f)?;
    lacks_rows(alloc, labels, &first, &second)
}

/// Whether the second element table has, under a label of both, a property that the first has not.
fn lacks(alloc: Global, e: &ElementEntry, f: &ElementEntry) -> Result<bool, AllocError>
    ensures { IfOk result (λ b. b ≡ spec.lacks e.now f.now) }
{
    let mut labels = NameSet::new(alloc);
    labels.add_label_names(e.labels.as_slice())?;
    lacks_under(alloc, &labels, e, f)
}

/// Whether a label of both has other property names or kinds.
fn differ(alloc: Global, e: &ElementEntry, f: &ElementEntry) -> Result<bool, AllocError>
    ensures { IfOk result (λ b. b ≡ spec.differ e.now f.now) }
{
    let there = lacks(alloc, e, f)?;
    let back = lacks(alloc, f, e)?;
    Ok(there || back)
}

/// The first of some element tables that has a label otherwise than an earlier one.
#[tactic(auto, using(pg_rules::specs::Places::least_found, pg_rules::specs::Places::sooner_none))]
fn differ_later(
    alloc: Global,
    e: &ElementEntry,
    later: &[PlacedElement],
) -> Result<Option<u32>, AllocError>
    ensures { IfOk result (λ r. r ≡ least (flat_map (spec.at_if spec.differ e.now) later.now)) }
{
    let mut found = None;
    for f in later {
        let differs = differ(alloc, e, &f.element)?;
        found = sooner(found, place_if(differs, f.at));
    }
    Ok(found)
}

/// The first element table that has a label otherwise than one before it.
#[tactic(auto, using(pg_rules::specs::Places::least_found, pg_rules::specs::Places::sooner_none))]
fn any_differ(alloc: Global, elements: &[PlacedElement]) -> Result<Option<u32>, AllocError>
    ensures { IfOk result (λ r. r ≡ least (spec.later_of spec.differ elements.now)) }
{
    let mut found = None;
    for (i, e) in elements.iter().enumerate() {
        let later = differ_later(alloc, &e.element, &elements[i + 1..])?;
        found = sooner(found, later);
    }
    Ok(found)
}

/// The column that each property name has first.
#[derive(Drop)]
struct FirstColumns<'a> {
    columns: IndexMap<&'a str, u32>,
}

impl<'a> Model for FirstColumns<'a> {
    ghost use Rattle.std.specs.Prelude.{ℕ, List, map};

    ghost Value = { List (List ℕ × ℕ) };

    ghost view = { λ f. map (λ e. (e.0.now, e.1)) f.columns.entries };
}

impl<'a> FirstColumns<'a> {
    /// No columns. It takes no memory.
    fn new(alloc: Global) -> FirstColumns<'a>
        ensures { result ≡ [] }
    {
        FirstColumns {
            columns: IndexMap::new(alloc),
        }
    }

    /// The column of a name.
    fn get(&self, name: &str) -> Option<u32>
        ensures { result ≡ lookup (bytes_eq name.now) self.now }
    {
        match self.columns.get(name) {
            Some(column) => Some(*column),
            None => None,
        }
    }

    /// Adds the column of a name that has none.
    fn insert(&mut self, name: &'a str, column: u32) -> Result<(), AllocError>
        requires { is_some (lookup (bytes_eq name.now) self.old) ≡ false }
        ensures { OnOk result (self.new ≡ pass.add_last self.old name.now column) }
    {
        insert_column(&mut self.columns, name, column)
    }

    /// Adds the column of a name, where it has none.
    fn add(&mut self, name: &'a str, column: u32) -> Result<(), AllocError>
        ensures { OnOk result (self.new ≡ pass.add_first self.old name.now column) }
    {
        if self.get(name).is_some() {
            return Ok(());
        }
        self.insert(name, column)
    }

    /// Adds the columns of some rows.
    fn add_rows(&mut self, rows: &[Row<'a>]) -> Result<(), AllocError>
        ensures { OnOk result (self.new ≡ pass.firsts_after self.old (map row_view rows.now)) }
    {
        for row in rows {
            self.add(row.name, row.column)?;
        }
        Ok(())
    }

    /// Whether a name has a column.
    fn is_first(&self, name: &str, column: u32) -> bool
        ensures { result ≡ spec.is_place (lookup (bytes_eq name.now) self.now) column }
    {
        match self.get(name) {
            Some(first) => first == column,
            None => false,
        }
    }

    /// Whether some row has another column than the first of its name.
    fn has_other(&self, rows: &[Row<'_>]) -> bool
        ensures { result ≡ pass.other_column self.now (map row_view rows.now) }
    {
        for row in rows {
            if !self.is_first(row.name, row.column) {
                return true;
            }
        }
        false
    }
}

/// Puts the column of a name that has none behind the others.
fn insert_column<'a>(
    columns: &mut IndexMap<&'a str, u32>,
    name: &'a str,
    column: u32,
) -> Result<(), AllocError>
    requires { is_some (lookup (bytes_eq name.now) (map (λ e. (e.0.now, e.1)) columns.old.entries)) ≡ false }
    ensures { OnOk result (map (λ e. (e.0.now, e.1)) columns.new.entries ≡ pass.add_last (map (λ e. (e.0.now, e.1)) columns.old.entries) name.now column) }
{
    match columns.insert(name, column) {
        Ok(_) => Ok(()),
        Err(_) => Err(AllocError),
    }
}

/// Whether a property name means two columns among some rows.
fn two_columns_in(alloc: Global, rows: &[Row<'_>]) -> Result<bool, AllocError>
    ensures { IfOk result (λ b. b ≡ pass.other_column (pass.firsts_after [] (map row_view rows.now)) (map row_view rows.now)) }
{
    let mut first = FirstColumns::new(alloc);
    match first.add_rows(rows) {
        Ok(()) => Ok(first.has_other(rows)),
        Err(_) => Err(AllocError),
    }
}

/// Whether a property name means two columns of an element table.
fn two_columns(alloc: Global, element: &ElementEntry) -> Result<bool, AllocError>
    ensures { IfOk result (λ b. b ≡ spec.two_columns (spec.rows element.now)) }
{
    let rows = rows(alloc, element)?;
    two_columns_in(alloc, &rows)
}

/// The first element table on which a property name means two columns.
#[tactic(auto, using(pg_rules::specs::Places::least_found, pg_rules::specs::Places::sooner_none))]
fn any_two_columns(alloc: Global, elements: &[PlacedElement]) -> Result<Option<u32>, AllocError>
    ensures { IfOk result (λ r. r ≡ least (flat_map (λ e. place_if (spec.two_columns (spec.rows e.element)) e.at) elements.now)) }
{
    let mut found = None;
    for e in elements {
        let two = two_columns(alloc, &e.element)?;
        found = sooner(found, place_if(two, e.at));
    }
    Ok(found)
}

/// The first element table with a label otherwise than an earlier one, or with a property of two columns.
#[tactic(auto, using(pg_rules::specs::Places::least_append))]
pub fn label_mismatch(alloc: Global, elements: &[PlacedElement]) -> Result<Option<u32>, AllocError>
    ensures { IfOk result (λ r. r ≡ least (spec.label_mismatch elements.now)) }
{
    let differ = any_differ(alloc, elements)?;
    let columns = any_two_columns(alloc, elements)?;
    Ok(sooner(differ, columns))
}
