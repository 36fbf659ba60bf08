//! The rows of joined tuples.
ghost use Rattle.std.specs.Prelude.{◌≡◌, ◌++◌, ◌≤◌, ◌^◌, map, flat_map, length, true, IfOk, OnOk};
ghost use Rattle.pg_keyed.specs.Lists.{Each};
ghost use Rattle.pg_meaning.specs.Answers.{bound_to};
ghost use Rattle.pg_meaning.specs.CExprs.{ctree_of};
ghost use Rattle.pg_meaning.specs.Meaning.{OfVars, value_of};
ghost use Rattle.pg_meaning.specs.Sound.Queries.{IsSoundQuery, FitsBound, degrees_of};
ghost use Rattle.pg_join.specs.Rows as spec;
ghost use Rattle.pg_join.specs.Rows.{IsTuple, IsBoundTo};

use crate::slots::{bound_of, group_variables};
use pg_expr::{eval, truth};
use pg_meaning::{Bound, CheckedQuery, PathBinding, tuples_fit};
use pg_value::{List, Row, Truth};
use pg_view::View;
use std::alloc::{AllocError, Global};

/// Whether each walk of a tuple has fewer than 2^47 hops, as memory has room for.
fn is_short(tuple: &[&PathBinding]) -> bool
    ensures { result ≡ true → Each (λ b. length b.now.edges ≤ 2 ^ 47) tuple.now }
{
    for binding in tuple {
        if binding.edges.len() > 1 << 47 {
            return false;
        }
    }
    true
}

/// Whether the final condition, where there is one, is true of what the variables stand for.
fn is_kept<V: View>(view: &V, query: &CheckedQuery, bound: &Bound) -> bool
    requires sound { IsSoundQuery (V.shapes view.now) query.now }
    requires fits { FitsBound (degrees_of query.now) (V.tables view.now) bound.now }
    ensures { result ≡ spec.meets query.now.cond (OfVars (V.tables view.now) (bound_to bound.now)) }
{
    match &query.cond {
        None => true,
        Some(cond) => matches!(truth(cond, bound, view), Truth::True),
    }
}

/// The row of what the variables stand for.
fn row_of<V: View>(
    alloc: Global,
    view: &V,
    query: &CheckedQuery,
    bound: &Bound,
) -> Result<Row, AllocError>
    requires sound { IsSoundQuery (V.shapes view.now) query.now }
    requires fits { FitsBound (degrees_of query.now) (V.tables view.now) bound.now }
    ensures { IfOk result (λ row. row ≡ record { values = map (λ c. value_of (ctree_of c.expr) (OfVars (V.tables view.now) (bound_to bound.now))) query.now.columns }) }
{
    let mut values = List::new(alloc);
    for column in query.columns.as_slice() {
        values.push(eval(alloc, &column.expr, bound, view)?)?;
    }
    Row::new(alloc, values)
}

/// Appends the row of what the variables stand for, where the final condition keeps it.
fn push_kept<V: View>(
    alloc: Global,
    view: &V,
    query: &CheckedQuery,
    bound: &Bound,
    rows: &mut Vec<Row>,
) -> Result<(), AllocError>
    requires sound { IsSoundQuery (V.shapes view.now) query.now }
    requires fits { FitsBound (degrees_of query.now) (V.tables view.now) bound.now }
    ensures { OnOk result (rows.new.items ≡ rows.old.items ++ spec.bound_rows (V.tables view.now) query.now bound.now) }
{
    if is_kept(view, query, bound) {
        let row = row_of(alloc, view, query, bound)?;
        rows.push(row)?;
    }
    Ok(())
}

/// What the variables of a query stand for in a tuple, over which its expressions may be judged. It is refused where memory is
/// wanting, and where a walk has more hops than memory has room for.
fn fitting_bound<V: View>(
    alloc: Global,
    view: &V,
    query: &CheckedQuery,
    groups: &[bool],
    tuple: &[&PathBinding],
) -> Result<Bound, AllocError>
    requires sound { IsSoundQuery (V.shapes view.now) query.now }
    requires groups { groups.now ≡ spec.groups_of query.now }
    requires tuple { IsTuple (V.shapes view.now) (V.tables view.now) query.now (map (λ b. b.now) tuple.now) }
    ensures { IfOk result (IsBoundTo (V.shapes view.now) (V.tables view.now) query.now (map (λ b. b.now) tuple.now)) }
{
    tuples_fit();
    view.well_made();
    if !is_short(tuple) {
        return Err(AllocError);
    }
    bound_of(alloc, query, groups, tuple)
}

/// Appends the row of a tuple, where the final condition keeps it.
fn push_row<V: View>(
    alloc: Global,
    view: &V,
    query: &CheckedQuery,
    groups: &[bool],
    tuple: &[&PathBinding],
    rows: &mut Vec<Row>,
) -> Result<(), AllocError>
    requires sound { IsSoundQuery (V.shapes view.now) query.now }
    requires groups { groups.now ≡ spec.groups_of query.now }
    requires tuple { IsTuple (V.shapes view.now) (V.tables view.now) query.now (map (λ b. b.now) tuple.now) }
    ensures { OnOk result (rows.new.items ≡ rows.old.items ++ spec.rows_of (V.tables view.now) query.now (map (λ b. b.now) tuple.now)) }
{
    let bound = fitting_bound(alloc, view, query, groups, tuple)?;
    push_kept(alloc, view, query, &bound, rows)
}

/// The rows of tuples, one for each that the final condition keeps.
pub fn rows_of<V: View>(
    alloc: Global,
    view: &V,
    query: &CheckedQuery,
    tuples: &[List<&PathBinding>],
) -> Result<Vec<Row>, AllocError>
    requires sound { IsSoundQuery (V.shapes view.now) query.now }
    requires tuples { Each (λ t. IsTuple (V.shapes view.now) (V.tables view.now) query.now (map (λ b. b.now) t)) tuples.now }
    ensures { IfOk result (λ rows. rows.items ≡ flat_map (λ t. spec.rows_of (V.tables view.now) query.now (map (λ b. b.now) t)) tuples.now) }
{
    let groups = group_variables(alloc, query)?;
    let mut rows = Vec::new(alloc);
    for tuple in tuples {
        push_row(
            alloc,
            view,
            query,
            groups.as_slice(),
            tuple.as_slice(),
            &mut rows,
        )?;
    }
    Ok(rows)
}
