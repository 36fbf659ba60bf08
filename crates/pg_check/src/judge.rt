//! The first place of each kind of fault in a query.
ghost use Rattle.std.specs.Prelude.{◌≡◌, [], IfOk, map};
ghost use Rattle.pg_ast.specs.Trees.{tree_of};
ghost use Rattle.pg_ast.specs.declared.pattern.Query.{Query};
ghost use Rattle.pg_meaning.specs.Mentions as mention;
ghost use Rattle.pg_rules.specs.Catalog.GraphLookUps.{graph_numbered};
ghost use Rattle.pg_rules.specs.declared.entry.GraphEntry.{GraphEntry};
ghost use Rattle.pg_rules.specs.Places.{least};
ghost use Rattle.pg_rules.specs.Queries as spec;
ghost use Rattle.pg_rules.specs.Queries.Collections as part_of;
ghost use Rattle.pg_catalog.specs.PropertyKinds.{AreKindsOf};
ghost use Rattle.pg_check.specs.Gathered.{firsts_after, mention_view};
ghost use Rattle.pg_check.specs.Passes.{inner_view, path_walks};
ghost use Rattle.pg_check.specs.Judgement.{AreOf, trees};

use crate::clashes::late;
use crate::conditions::foreign_among;
use crate::gather::InnerCondition;
use crate::groups::{aggregate_among, bare_among, misused_among};
use crate::labels;
use crate::limits::{crowded_paths, large_paths, last_column, long_paths, ninth_path};
use crate::mentions::MentionOf;
use crate::properties::{missing_among, unknown_among};
use crate::types::{untrue_at_end, untrue_inside, wrong_operators};
use crate::variables::Variables;
use crate::widths::wide_in;
use pg_ast::{Expr, Query, Whole};
use pg_catalog::{Catalog, PropertyKinds};
use pg_rules::sooner;
use pg_value::GraphNo;
use std::alloc::{AllocError, Global};

/// The first label that no element table of the graph has.
pub fn no_label(
    alloc: Global,
    catalog: &Catalog,
    graph: GraphNo,
    query: &Query,
) -> Result<Option<u32>, AllocError>
    ensures { IfOk result (λ r. r ≡ least (spec.no_label (graph_numbered catalog.now.1 graph) query.now)) }
{
    let names = catalog.label_names(alloc, graph)?;
    Ok(labels::no_label(&names, query))
}

/// The first property that no element table of the graph has.
pub fn no_property(
    alloc: Global,
    catalog: &Catalog,
    graph: GraphNo,
    inner: &[&Expr],
    outer: &[&Expr],
) -> Result<Option<u32>, AllocError>
    ensures { (q : Query) → AreOf q inner.now outer.now → IfOk result (λ r. r ≡ least (spec.no_property (graph_numbered catalog.now.1 graph) q)) }
{
    let names = catalog.property_names(alloc, graph)?;
    let first = missing_among(alloc, &names, inner)?;
    let second = missing_among(alloc, &names, outer)?;
    Ok(sooner(first, second))
}

/// The first variable that no pattern names.
pub fn unknown(
    alloc: Global,
    variables: &Variables<'_>,
    inner: &[&Expr],
    outer: &[&Expr],
) -> Result<Option<u32>, AllocError>
    ensures { (q : Query) → AreOf q inner.now outer.now → variables.now ≡ firsts_after [] (part_of.mentions_of q) → IfOk result (λ r. r ≡ least (spec.unknown q)) }
{
    let first = unknown_among(alloc, variables, inner)?;
    let second = unknown_among(alloc, variables, outer)?;
    Ok(sooner(first, second))
}

/// The first variable in a condition inside a pattern that the condition may not use.
pub fn foreign(alloc: Global, conditions: &[InnerCondition<'_>]) -> Result<Option<u32>, AllocError>
    ensures { (q : Query) → map inner_view conditions.now ≡ part_of.inner_conditions q → IfOk result (λ r. r ≡ least (spec.foreign q)) }
{
    foreign_among(alloc, conditions)
}

/// The first of the later ones of two mentions that may not both stand.
pub fn clash(
    alloc: Global,
    walks: &[bool],
    mentions: &[MentionOf<'_>],
) -> Result<Option<u32>, AllocError>
    ensures { (q : Query) → map mention_view mentions.now ≡ part_of.mentions_of q → walks.now ≡ map path_walks q.paths → IfOk result (λ r. r ≡ least (spec.later_of (mention.clash part_of.same_name (spec.is_strict q)) (part_of.mentions_of q))) }
{
    late(alloc, walks, mentions)
}

/// The first group variable of the expressions outside patterns that stands outside aggregates.
fn bare(
    alloc: Global,
    variables: &Variables<'_>,
    outer: &[&Expr],
) -> Result<Option<u32>, AllocError>
    ensures { (q : Query) → trees outer.now ≡ part_of.outer q → variables.now ≡ firsts_after [] (part_of.mentions_of q) → IfOk result (λ r. r ≡ least (spec.bare q)) }
{
    bare_among(alloc, variables, outer)
}

/// The first aggregate outside patterns that is at fault.
fn misused(
    alloc: Global,
    variables: &Variables<'_>,
    outer: &[&Expr],
) -> Result<Option<u32>, AllocError>
    ensures { (q : Query) → trees outer.now ≡ part_of.outer q → variables.now ≡ firsts_after [] (part_of.mentions_of q) → IfOk result (λ r. r ≡ least (spec.misused q)) }
{
    misused_among(alloc, variables, outer)
}

/// The first aggregate inside a pattern.
fn inside(inner: &[&Expr]) -> Option<u32>
    ensures { (q : Query) → trees inner.now ≡ part_of.inner q → result ≡ least (spec.inside q) }
{
    aggregate_among(inner)
}

/// The first use of a group variable or aggregate that may not stand.
pub fn group_use(
    alloc: Global,
    variables: &Variables<'_>,
    inner: &[&Expr],
    outer: &[&Expr],
) -> Result<Option<u32>, AllocError>
    ensures { (q : Query) → AreOf q inner.now outer.now → variables.now ≡ firsts_after [] (part_of.mentions_of q) → IfOk result (λ r. r ≡ least (spec.group_use q)) }
{
    let bare = bare(alloc, variables, outer)?;
    let misused = misused(alloc, variables, outer)?;
    let nested = inside(inner);
    let aggregates = sooner(misused, nested);
    Ok(sooner(bare, aggregates))
}

/// The first condition, operator or aggregate that has a wrong kind.
pub fn types(
    kinds: &PropertyKinds<'_>,
    conditions: &[InnerCondition<'_>],
    condition: &Option<Whole>,
    inner: &[&Expr],
    outer: &[&Expr],
) -> Option<u32>
    ensures { (g : GraphEntry) (q : Query) → AreKindsOf g kinds.now → map inner_view conditions.now ≡ part_of.inner_conditions q → condition.now ≡ q.cond → AreOf q inner.now outer.now → result ≡ least (spec.types g q) }
{
    let inside = untrue_inside(kinds, conditions);
    let end = untrue_at_end(kinds, condition);
    let untrue = sooner(inside, end);
    let first = wrong_operators(kinds, inner);
    let second = wrong_operators(kinds, outer);
    let operators = sooner(first, second);
    sooner(untrue, operators)
}

/// The first literal, operator or aggregate that is too wide.
pub fn wide(kinds: &PropertyKinds<'_>, inner: &[&Expr], outer: &[&Expr]) -> Option<u32>
    ensures { (g : GraphEntry) (q : Query) → AreKindsOf g kinds.now → AreOf q inner.now outer.now → result ≡ least (spec.wide g q) }
{
    let first = wide_in(kinds, inner);
    let second = wide_in(kinds, outer);
    sooner(first, second)
}

/// The first thing beyond a limit.
pub fn limit(query: &Query, variables: &Variables<'_>) -> Option<u32>
    requires { variables.now ≡ firsts_after [] (part_of.mentions_of query.now) }
    ensures { result ≡ least (spec.limit query.now) }
{
    let paths = query.paths.as_slice();
    let path = ninth_path(paths);
    let column = last_column(query.columns.as_slice());
    let variable = variables.place_at(32);
    let edge = crowded_paths(paths);
    let number = large_paths(paths);
    let length = long_paths(paths);
    let of_paths = sooner(number, length);
    let of_parts = sooner(edge, of_paths);
    let of_names = sooner(variable, of_parts);
    let behind = sooner(column, of_names);
    sooner(path, behind)
}
