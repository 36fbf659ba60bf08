//! The checked trees of the expressions of a change.
ghost use Rattle.std.specs.Prelude.{◌≡◌, IfOk, [], map};
ghost use Rattle.pg_ast.specs.Trees.{tree_of};
ghost use Rattle.pg_rules.specs.Catalog.{IsFew};
ghost use Rattle.pg_rules.specs.Changes.InsertJudgement as inserts;
ghost use Rattle.pg_rules.specs.Changes as spec;
ghost use Rattle.pg_write.specs.ChangePasses as pass;

use crate::change::places::place_of;
use pg_ast::{Expr, InsertTuple, SetItem, Whole};
use pg_meaning::{CExpr, CheckedSet};
use pg_rules::ColumnEntry;
use pg_value::{List, Value, copy_value};
use sqlite_items::Boxed;
use std::alloc::{AllocError, Global};

/// An expression over the columns of a table, resolved.
#[tactic(auto, using(pg_ast::specs::Trees::is_unary, pg_ast::specs::Trees::is_binary, pg_ast::specs::Trees::is_agg))]
fn resolved(alloc: Global, columns: &[ColumnEntry], expr: &Expr) -> Result<CExpr, AllocError>
    requires { IsFew columns.now }
    ensures { IfOk result (λ r. r ≡ inserts.resolved columns.now (tree_of expr.now)) }
{
    match expr {
        Expr::Lit { value, .. } => {
            let value = copy_value(alloc, value)?;
            Ok(CExpr::Lit(value))
        }
        Expr::Column { name } => Ok(CExpr::Column(place_of(columns, name))),
        Expr::Unary { op, arg, .. } => {
            let arg = resolved(alloc, columns, arg.get())?;
            let arg = Boxed::new(alloc, arg)?;
            Ok(CExpr::Unary { op: *op, arg })
        }
        Expr::Binary {
            op,
            left,
            right,
            ..
        } => {
            let left = resolved(alloc, columns, left.get())?;
            let right = resolved(alloc, columns, right.get())?;
            let left = Boxed::new(alloc, left)?;
            let right = Boxed::new(alloc, right)?;
            Ok(CExpr::Binary {
                op: *op,
                left,
                right,
            })
        }
        Expr::TooWide { .. } => Ok(CExpr::Lit(Value::Null)),
        Expr::Property { .. } => Ok(CExpr::Lit(Value::Null)),
        Expr::Agg { .. } => Ok(CExpr::Lit(Value::Null)),
        Expr::CountVar { .. } => Ok(CExpr::Lit(Value::Null)),
    }
}

/// A condition, resolved, where there is one.
pub fn resolved_condition(
    alloc: Global,
    columns: &[ColumnEntry],
    condition: &Option<Whole>,
) -> Result<Option<CExpr>, AllocError>
    requires { IsFew columns.now }
    ensures { IfOk result (λ r. r ≡ spec.resolved_condition columns.now condition.now) }
{
    match condition {
        Some(condition) => {
            let tree = resolved(alloc, columns, &condition.expr)?;
            Ok(Some(tree))
        }
        None => Ok(None),
    }
}

/// An item of SET, resolved.
fn resolved_set(
    alloc: Global,
    columns: &[ColumnEntry],
    set: &SetItem,
) -> Result<CheckedSet, AllocError>
    requires { IsFew columns.now }
    ensures { IfOk result (λ r. r ≡ spec.resolved_set columns.now set.now) }
{
    let column = place_of(columns, &set.column);
    let value = resolved(alloc, columns, &set.value.expr)?;
    Ok(CheckedSet { column, value })
}

/// The items of SET, resolved.
pub fn resolved_sets(
    alloc: Global,
    columns: &[ColumnEntry],
    sets: &[SetItem],
) -> Result<List<CheckedSet>, AllocError>
    requires { IsFew columns.now }
    ensures { IfOk result (λ r. r ≡ map (spec.resolved_set columns.now) sets.now) }
{
    let mut out = List::new(alloc);
    for set in sets {
        out.push(resolved_set(alloc, columns, set)?)?;
    }
    Ok(out)
}

/// The values of a tuple, resolved; they name no columns.
fn resolved_values(alloc: Global, values: &[Whole]) -> Result<List<CExpr>, AllocError>
    ensures { IfOk result (λ r. r ≡ map pass.resolved_value values.now) }
{
    let mut out = List::new(alloc);
    for value in values {
        out.push(resolved(alloc, &[], &value.expr)?)?;
    }
    Ok(out)
}

/// The tuples of an INSERT, resolved.
pub fn resolved_tuples(
    alloc: Global,
    tuples: &[InsertTuple],
) -> Result<List<List<CExpr>>, AllocError>
    ensures { IfOk result (λ r. r ≡ map inserts.resolved_tuple tuples.now) }
{
    let mut out = List::new(alloc);
    for tuple in tuples {
        out.push(resolved_values(alloc, tuple.values.as_slice())?)?;
    }
    Ok(out)
}
