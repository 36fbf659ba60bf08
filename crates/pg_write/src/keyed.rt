//! The key that a condition asks for: as a conjunction it equals each key column with a literal.
ghost use Rattle.std.specs.Prelude.{◌≡◌, IfOk};
ghost use Rattle.std.specs.Option.{option_copied, option_map};
ghost use Rattle.pg_meaning.specs.CExprs.{ctree_of};
ghost use Rattle.pg_write.specs.KeyOfCondition as spec;

use pg_ast::BinOp;
use pg_meaning::CExpr;
use pg_value::{Key, List, Value, copy_value};
use std::alloc::{AllocError, Global};

fn is_and(op: BinOp) -> bool
    ensures { result ≡ spec.is_and op }
{
    matches!(op, BinOp::And)
}

fn is_equals(op: BinOp) -> bool
    ensures { result ≡ spec.is_equals op }
{
    matches!(op, BinOp::Eq)
}

/// Whether an expression is the column.
#[tactic(auto, using(pg_meaning::specs::CExprs::is_unary, pg_meaning::specs::CExprs::is_binary, pg_meaning::specs::CExprs::is_agg))]
fn is_column(expr: &CExpr, column: u32) -> bool
    ensures { result ≡ spec.is_column column (ctree_of expr.now) }
{
    match expr {
        CExpr::Column(place) => *place == column,
        CExpr::Lit(_) => false,
        CExpr::Property { var: _, columns: _ } => false,
        CExpr::Unary { op: _, arg: _ } => false,
        CExpr::Binary {
            op: _,
            left: _,
            right: _,
        } => false,
        CExpr::Agg { agg: _, arg: _ } => false,
        CExpr::CountVar { var: _ } => false,
    }
}

/// The literal that an expression is, if it is one.
#[tactic(auto, using(pg_meaning::specs::CExprs::is_unary, pg_meaning::specs::CExprs::is_binary, pg_meaning::specs::CExprs::is_agg))]
fn literal_in(expr: &CExpr) -> Option<&Value>
    ensures { option_copied result ≡ spec.literal_in (ctree_of expr.now) }
{
    match expr {
        CExpr::Lit(value) => Some(value),
        CExpr::Column(_) => None,
        CExpr::Property { var: _, columns: _ } => None,
        CExpr::Unary { op: _, arg: _ } => None,
        CExpr::Binary {
            op: _,
            left: _,
            right: _,
        } => None,
        CExpr::Agg { agg: _, arg: _ } => None,
        CExpr::CountVar { var: _ } => None,
    }
}

/// The literal on one side, where the other is the column.
fn literal_beside<'a>(left: &'a CExpr, right: &'a CExpr, column: u32) -> Option<&'a Value>
    ensures { option_copied result ≡ spec.literal_beside column (ctree_of left.now) (ctree_of right.now) }
{
    if is_column(left, column) {
        literal_in(right)
    } else if is_column(right, column) {
        literal_in(left)
    } else {
        None
    }
}

/// The literal that a column is to equal, if the condition says so as a conjunction. It calls itself as deep as the
/// expression's tree.
#[tactic(auto, using(pg_meaning::specs::CExprs::is_unary, pg_meaning::specs::CExprs::is_binary, pg_meaning::specs::CExprs::is_agg))]
fn literal_for(cond: &CExpr, column: u32) -> Option<&Value>
    ensures { option_copied result ≡ spec.literal_for column (ctree_of cond.now) }
{
    match cond {
        CExpr::Binary { op, left, right } => {
            if is_and(*op) {
                match literal_for(left.get(), column) {
                    Some(value) => Some(value),
                    None => literal_for(right.get(), column),
                }
            } else if is_equals(*op) {
                literal_beside(left.get(), right.get(), column)
            } else {
                None
            }
        }
        CExpr::Lit(_) | CExpr::Column(_) => None,
        CExpr::Property { var: _, columns: _ } => None,
        CExpr::Unary { op: _, arg: _ } => None,
        CExpr::Agg { agg: _, arg: _ } => None,
        CExpr::CountVar { var: _ } => None,
    }
}

/// The literals that some columns are to equal, if there is one for each.
fn literals_for(
    alloc: Global,
    cond: &CExpr,
    columns: &[u32],
) -> Result<Option<List<Value>>, AllocError>
    ensures { IfOk result (λ found. found ≡ spec.literals_for (ctree_of cond.now) columns.now) }
{
    let mut out = List::with_room(alloc, columns.len())?;
    for column in columns {
        match literal_for(cond, *column) {
            Some(value) => out.push(copy_value(alloc, value)?)?,
            None => return Ok(None),
        }
    }
    Ok(Some(out))
}

/// The key that a condition asks for, if it gives each key column a literal.
pub fn key_in(
    alloc: Global,
    cond: &Option<CExpr>,
    columns: &[u32],
) -> Result<Option<Key>, AllocError>
    ensures { IfOk result (λ found. option_map (λ k. k.values) found ≡ spec.key_in cond.now columns.now) }
{
    match cond {
        Some(cond) => match literals_for(alloc, cond, columns)? {
            Some(values) => Ok(Some(Key::new(values))),
            None => Ok(None),
        },
        None => Ok(None),
    }
}
