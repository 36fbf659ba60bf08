//! Trees of expressions from their parts.
ghost use Rattle.std.specs.Prelude.{◌≡◌, ◌<◌, ◌-◌};
ghost use Rattle.pg_ast.specs.declared.expr.Expr.TheVariants.{Unary, Binary, Agg as Aggregated};
ghost use Rattle.pg_ast.specs.Grammar.Exprs as spec;
ghost use Rattle.pg_grammar.specs.Kit.Reading.{OfMemory};
ghost use Rattle.pg_grammar.specs.Read.Exprs as read;

use crate::Fault;
use pg_ast::{AggWord, CountedExpr, Expr, Operator, UnOp};
use sqlite_items::Boxed;
use std::alloc::Global;

/// An expression behind which `left` operators may come, and which is not plain.
pub fn counted(expr: Expr, left: u8) -> CountedExpr
    ensures { result ≡ spec.counted expr left }
{
    CountedExpr {
        expr,
        left,
        plain: false,
    }
}

fn unary_of(alloc: Global, op: UnOp, arg: Expr, at: u32) -> Result<Expr, Fault>
    ensures { OfMemory result (Unary op arg at) }
{
    Ok(Expr::Unary {
        op,
        arg: Boxed::new(alloc, arg)?,
        at,
    })
}

/// That operator before `arg`.
pub fn applied(alloc: Global, op: UnOp, arg: CountedExpr, at: u32) -> Result<CountedExpr, Fault>
    ensures { OfMemory result (read.applied op arg at) }
{
    let left = arg.left;
    let expr = unary_of(alloc, op, arg.expr, at)?;
    Ok(counted(expr, left))
}

/// A test of `x` for NULL, which counts as one of its operators.
pub fn tested(alloc: Global, op: UnOp, x: CountedExpr, at: u32) -> Result<CountedExpr, Fault>
    requires { 0 < x.left }
    ensures { OfMemory result (spec.counted (Unary op x.expr at) (x.left - 1)) }
{
    let left = x.left - 1;
    let expr = unary_of(alloc, op, x.expr, at)?;
    Ok(counted(expr, left))
}

fn binary_of(alloc: Global, operator: Operator, left: Expr, right: Expr) -> Result<Expr, Fault>
    ensures { OfMemory result (Binary operator.op left right operator.at) }
{
    let left = Boxed::new(alloc, left)?;
    let right = Boxed::new(alloc, right)?;
    Ok(Expr::Binary {
        op: operator.op,
        left,
        right,
        at: operator.at,
    })
}

/// That operator between `x` and `y`.
pub fn joined(
    alloc: Global,
    operator: Operator,
    x: CountedExpr,
    y: CountedExpr,
) -> Result<CountedExpr, Fault>
    ensures { OfMemory result (read.joined operator x y) }
{
    let left = y.left;
    let expr = binary_of(alloc, operator, x.expr, y.expr)?;
    Ok(counted(expr, left))
}

fn agg_of(alloc: Global, word: AggWord, arg: Expr) -> Result<Expr, Fault>
    ensures { OfMemory result (Aggregated word.agg arg word.at) }
{
    Ok(Expr::Agg {
        agg: word.agg,
        arg: Boxed::new(alloc, arg)?,
        at: word.at,
    })
}

/// The aggregate of `arg`.
pub fn aggregated(alloc: Global, word: AggWord, arg: CountedExpr) -> Result<CountedExpr, Fault>
    ensures { OfMemory result (read.aggregated word arg) }
{
    let left = arg.left;
    let expr = agg_of(alloc, word, arg.expr)?;
    Ok(counted(expr, left))
}
