//! The conditions inside the patterns of a query, and the expressions outside them.
ghost use Rattle.std.specs.Prelude.{◌≡◌, ◌++◌, IfOk, OnOk, map};
ghost use Rattle.std.specs.List.{flat_map};
ghost use Rattle.std.specs.Option.{option_to_list};
ghost use Rattle.pg_ast.specs.Trees.{tree_of};
ghost use Rattle.pg_rules.specs.Queries.Collections as spec;
ghost use Rattle.pg_check.specs.Passes as pass;

use pg_ast::{ColumnItem, Expr, Filler, Part, PathPattern, Query, Whole};
use std::alloc::{AllocError, Global};

/// Whose variables a condition inside a pattern may use: those of one node or edge, or those of a group's nodes and edges.
#[derive(Clone, Copy)]
pub enum Own<'a> {
    Alone(&'a Filler),
    Together(&'a [Filler], &'a [Filler]),
}

/// A condition inside a pattern.
#[derive(Clone, Copy)]
pub struct InnerCondition<'a> {
    pub condition: &'a Whole,
    pub own: Own<'a>,
}

/// Appends a condition, where there is one.
#[tactic(auto, using(crate::proofs::Loops::mapped_push))]
fn push_condition<'a>(
    condition: &'a Option<Whole>,
    own: Own<'a>,
    out: &mut Vec<InnerCondition<'a>>,
) -> Result<(), AllocError>
    ensures { OnOk result (map pass.inner_view out.new.items ≡ map pass.inner_view out.old.items ++ pass.inner_with condition.now own.entry) }
{
    match condition {
        Some(condition) => {
            out.push(InnerCondition { condition, own })?;
            Ok(())
        }
        None => Ok(()),
    }
}

/// Appends the condition of a node or an edge.
fn push_filler<'a>(filler: &'a Filler, out: &mut Vec<InnerCondition<'a>>) -> Result<(), AllocError>
    ensures { OnOk result (map pass.inner_view out.new.items ≡ map pass.inner_view out.old.items ++ spec.inner_of filler.now) }
{
    push_condition(&filler.cond, Own::Alone(filler), out)
}

/// Appends the conditions of some nodes or edges.
fn push_fillers<'a>(
    fillers: &'a [Filler],
    out: &mut Vec<InnerCondition<'a>>,
) -> Result<(), AllocError>
    ensures { OnOk result (map pass.inner_view out.new.items ≡ map pass.inner_view out.old.items ++ flat_map spec.inner_of fillers.now) }
{
    for filler in fillers {
        push_filler(filler, out)?;
    }
    Ok(())
}

/// Appends the conditions of a group: those of its nodes and edges, and its own.
fn push_group<'a>(
    nodes: &'a [Filler],
    edges: &'a [Filler],
    condition: &'a Option<Whole>,
    out: &mut Vec<InnerCondition<'a>>,
) -> Result<(), AllocError>
    ensures { OnOk result (map pass.inner_view out.new.items ≡ map pass.inner_view out.old.items ++ (flat_map spec.inner_of (nodes.now ++ edges.now) ++ spec.inner_if condition.now (spec.named (nodes.now ++ edges.now)))) }
{
    push_fillers(nodes, out)?;
    push_fillers(edges, out)?;
    push_condition(condition, Own::Together(nodes, edges), out)
}

/// Appends the conditions of a part.
fn push_part<'a>(part: &'a Part, out: &mut Vec<InnerCondition<'a>>) -> Result<(), AllocError>
    ensures { OnOk result (map pass.inner_view out.new.items ≡ map pass.inner_view out.old.items ++ spec.inner_in part.now) }
{
    match part {
        Part::Node(filler) => push_filler(filler, out),
        Part::Edge { filler, .. } => push_filler(filler, out),
        Part::Group {
            nodes,
            edges,
            cond,
            ..
        } => push_group(nodes.as_slice(), edges.as_slice(), cond, out),
    }
}

/// Appends the conditions of some parts.
fn push_parts<'a>(parts: &'a [Part], out: &mut Vec<InnerCondition<'a>>) -> Result<(), AllocError>
    ensures { OnOk result (map pass.inner_view out.new.items ≡ map pass.inner_view out.old.items ++ flat_map spec.inner_in parts.now) }
{
    for part in parts {
        push_part(part, out)?;
    }
    Ok(())
}

/// Appends the conditions of a path pattern.
fn push_path<'a>(path: &'a PathPattern, out: &mut Vec<InnerCondition<'a>>) -> Result<(), AllocError>
    ensures { OnOk result (map pass.inner_view out.new.items ≡ map pass.inner_view out.old.items ++ flat_map spec.inner_in path.now.parts) }
{
    push_parts(path.parts.as_slice(), out)
}

/// The conditions inside some path patterns.
fn conditions_in(
    alloc: Global,
    paths: &[PathPattern],
) -> Result<Vec<InnerCondition<'_>>, AllocError>
    ensures { IfOk result (λ r. map pass.inner_view r.items ≡ flat_map (λ p. flat_map spec.inner_in p.parts) paths.now) }
{
    let mut out = Vec::new(alloc);
    for path in paths {
        push_path(path, &mut out)?;
    }
    Ok(out)
}

/// The conditions inside the patterns of a query, in order of writing.
#[tactic(auto, using(crate::proofs::Loops::flat_nested))]
pub fn inner_conditions(alloc: Global, query: &Query) -> Result<Vec<InnerCondition<'_>>, AllocError>
    ensures { IfOk result (λ r. map pass.inner_view r.items ≡ spec.inner_conditions query.now) }
{
    conditions_in(alloc, query.paths.as_slice())
}

/// The expressions of some conditions inside patterns.
#[tactic(auto, using(crate::proofs::Loops::mapped_push))]
pub fn inner_expressions<'a>(
    alloc: Global,
    conditions: &[InnerCondition<'a>],
) -> Result<Vec<&'a Expr>, AllocError>
    ensures { IfOk result (λ r. map (λ e. tree_of e.now) r.items ≡ map (λ i. tree_of i.condition.expr) (map pass.inner_view conditions.now)) }
{
    let mut out = Vec::new(alloc);
    for inner in conditions {
        out.push(&inner.condition.expr)?;
    }
    Ok(out)
}

/// Appends the expressions of some columns.
#[tactic(auto, using(crate::proofs::Loops::mapped_push))]
fn push_columns<'a>(columns: &'a [ColumnItem], out: &mut Vec<&'a Expr>) -> Result<(), AllocError>
    ensures { OnOk result (map (λ e. tree_of e.now) out.new.items ≡ map (λ e. tree_of e.now) out.old.items ++ map (λ c. tree_of c.expr.expr) columns.now) }
{
    for column in columns {
        out.push(&column.expr.expr)?;
    }
    Ok(())
}

/// The expression of a condition, where there is one.
fn expression_of(alloc: Global, condition: &Option<Whole>) -> Result<Vec<&Expr>, AllocError>
    ensures { IfOk result (λ r. map (λ e. tree_of e.now) r.items ≡ map (λ w. tree_of w.expr) (option_to_list condition.now)) }
{
    let mut out = Vec::new(alloc);
    if let Some(condition) = condition {
        out.push(&condition.expr)?;
    }
    Ok(out)
}

/// The expressions outside the patterns: the final condition, and the columns.
pub fn outer_expressions(alloc: Global, query: &Query) -> Result<Vec<&Expr>, AllocError>
    ensures { IfOk result (λ r. map (λ e. tree_of e.now) r.items ≡ spec.outer query.now) }
{
    let mut out = expression_of(alloc, &query.cond)?;
    push_columns(query.columns.as_slice(), &mut out)?;
    Ok(out)
}
