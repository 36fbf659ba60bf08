//! Expressions, a function a level of the grammar. `depth` is how many parentheses may still open, `left` how many
//! operators may still come.
ghost use Rattle.std.specs.Prelude.{◌<◌};
ghost use Rattle.pg_ast.specs.declared.counted.Scope.TheVariants.{Query as InQuery};
ghost use Rattle.pg_grammar.specs.Kit.Reading.{Reads};
ghost use Rattle.pg_grammar.specs.Read.Exprs as spec;

use crate::build::{aggregated, applied, counted, joined, tested};
use crate::operand::base;
use crate::operator::{
    agg_word, comparison, has_aggregates, operator, plus_or_minus, sees_aggregate, sees_comparison,
    word_operator,
};
use crate::{Cursor, Fault, name};
use pg_ast::{Agg, AggWord, BinOp, CountedExpr, CountedWhole, Expr, Scope, UnOp, Whole};
use std::alloc::Global;

/// IS NULL or IS NOT NULL behind `x`, which counts once.
#[tactic(auto, unfolding(crate::specs::Read::Exprs::null_test))]
fn null_test(alloc: Global, cursor: &mut Cursor<'_>, x: CountedExpr) -> Result<CountedExpr, Fault>
    requires { 0 < x.left }
    ensures { Reads (spec.null_test x cursor.old) result cursor.new }
{
    let at = cursor.word(b"IS")?.from;
    let op = if cursor.eat_word(b"NOT") {
        UnOp::IsNotNull
    } else {
        UnOp::IsNull
    };
    cursor.word(b"NULL")?;
    tested(alloc, op, x, at)
}

/// The name of a variable and `)`, behind COUNT and its `(`.
#[tactic(auto, unfolding(crate::specs::Read::Exprs::of_variable))]
fn of_variable(
    alloc: Global,
    cursor: &mut Cursor<'_>,
    word: AggWord,
    left: u8,
) -> Result<CountedExpr, Fault>
    ensures { Reads (spec.of_variable word left cursor.old) result cursor.new }
{
    let var = name(alloc, cursor)?;
    let var = cursor.closed(b")", var)?;
    Ok(counted(Expr::CountVar { var, at: word.at }, left))
}

/// Any number of `-` before a primary.
#[cycle(expr)]
#[tactic(auto, unfolding(crate::specs::Read::Exprs::unary))]
fn unary(
    alloc: Global,
    cursor: &mut Cursor<'_>,
    scope: Scope,
    depth: u8,
    left: u8,
) -> Result<CountedExpr, Fault>
    ensures { Reads (spec.unary (spec.primary scope depth) left cursor.old) result cursor.new }
{
    if left > 0 && cursor.sees_symbol(b"-") {
        let at = cursor.symbol(b"-")?.from;
        let arg = unary(alloc, cursor, scope, depth, left - 1)?;
        return applied(alloc, UnOp::Minus, arg, at);
    }
    primary(alloc, cursor, scope, depth, left)
}

/// `*` and a factor, behind `x`.
#[cycle(expr)]
#[tactic(auto, unfolding(crate::specs::Read::Exprs::next_factor))]
fn next_factor(
    alloc: Global,
    cursor: &mut Cursor<'_>,
    scope: Scope,
    depth: u8,
    x: CountedExpr,
) -> Result<CountedExpr, Fault>
    requires { 0 < x.left }
    ensures { Reads (spec.next_factor (spec.primary scope depth) x cursor.old) result cursor.new }
{
    let operator = operator(cursor, b"*", BinOp::Times)?;
    let y = unary(alloc, cursor, scope, depth, x.left - 1)?;
    joined(alloc, operator, x, y)
}

/// Factors with `*` between.
#[cycle(expr)]
#[tactic(auto, unfolding(crate::specs::Kit::Reading::turns, crate::specs::Read::Exprs::prod))]
fn prod(
    alloc: Global,
    cursor: &mut Cursor<'_>,
    scope: Scope,
    depth: u8,
    left: u8,
) -> Result<CountedExpr, Fault>
    ensures { Reads (spec.prod (spec.primary scope depth) left cursor.old) result cursor.new }
{
    let mut x = unary(alloc, cursor, scope, depth, left)?;
    for _turn in 0..cursor.len() {
        if x.left == 0 || !cursor.sees_symbol(b"*") {
            break;
        }
        x = next_factor(alloc, cursor, scope, depth, x)?;
    }
    Ok(x)
}

/// `+` or `-` and a product, behind `x`.
#[cycle(expr)]
#[tactic(auto, unfolding(crate::specs::Read::Exprs::next_term))]
fn next_term(
    alloc: Global,
    cursor: &mut Cursor<'_>,
    scope: Scope,
    depth: u8,
    x: CountedExpr,
) -> Result<CountedExpr, Fault>
    requires { 0 < x.left }
    ensures { Reads (spec.next_term (spec.primary scope depth) x cursor.old) result cursor.new }
{
    let operator = plus_or_minus(cursor)?;
    let y = prod(alloc, cursor, scope, depth, x.left - 1)?;
    joined(alloc, operator, x, y)
}

/// Products with `+` or `-` between.
#[cycle(expr)]
#[tactic(auto, unfolding(crate::specs::Kit::Reading::turns, crate::specs::Read::Exprs::sum))]
fn sum(
    alloc: Global,
    cursor: &mut Cursor<'_>,
    scope: Scope,
    depth: u8,
    left: u8,
) -> Result<CountedExpr, Fault>
    ensures { Reads (spec.sum (spec.primary scope depth) left cursor.old) result cursor.new }
{
    let mut x = prod(alloc, cursor, scope, depth, left)?;
    for _turn in 0..cursor.len() {
        if x.left == 0 || !cursor.sees_either_symbol(b"+", b"-") {
            break;
        }
        x = next_term(alloc, cursor, scope, depth, x)?;
    }
    Ok(x)
}

/// A comparison and a sum, behind `x`.
#[cycle(expr)]
#[tactic(auto, unfolding(crate::specs::Read::Exprs::compared))]
fn compared(
    alloc: Global,
    cursor: &mut Cursor<'_>,
    scope: Scope,
    depth: u8,
    x: CountedExpr,
) -> Result<CountedExpr, Fault>
    requires { 0 < x.left }
    ensures { Reads (spec.compared (spec.primary scope depth) x cursor.old) result cursor.new }
{
    let operator = comparison(cursor)?;
    let y = sum(alloc, cursor, scope, depth, x.left - 1)?;
    joined(alloc, operator, x, y)
}

/// A sum, and a comparison with another or a test for NULL behind it.
#[cycle(expr)]
#[tactic(auto, unfolding(crate::specs::Read::Exprs::boolean_test))]
fn test(
    alloc: Global,
    cursor: &mut Cursor<'_>,
    scope: Scope,
    depth: u8,
    left: u8,
) -> Result<CountedExpr, Fault>
    ensures { Reads (spec.boolean_test (spec.primary scope depth) left cursor.old) result cursor.new }
{
    let x = sum(alloc, cursor, scope, depth, left)?;
    if x.left > 0 && sees_comparison(cursor) {
        return compared(alloc, cursor, scope, depth, x);
    }
    if x.left > 0 && cursor.sees_word(b"IS") {
        return null_test(alloc, cursor, x);
    }
    Ok(x)
}

/// Any number of NOT before a test.
#[cycle(expr)]
#[tactic(auto, unfolding(crate::specs::Read::Exprs::neg))]
fn neg(
    alloc: Global,
    cursor: &mut Cursor<'_>,
    scope: Scope,
    depth: u8,
    left: u8,
) -> Result<CountedExpr, Fault>
    ensures { Reads (spec.neg (spec.primary scope depth) left cursor.old) result cursor.new }
{
    if left > 0 && cursor.sees_word(b"NOT") {
        let at = cursor.word(b"NOT")?.from;
        let arg = neg(alloc, cursor, scope, depth, left - 1)?;
        return applied(alloc, UnOp::Not, arg, at);
    }
    test(alloc, cursor, scope, depth, left)
}

/// AND and what stands behind it, behind `x`.
#[cycle(expr)]
#[tactic(auto, unfolding(crate::specs::Read::Exprs::next_neg))]
fn next_neg(
    alloc: Global,
    cursor: &mut Cursor<'_>,
    scope: Scope,
    depth: u8,
    x: CountedExpr,
) -> Result<CountedExpr, Fault>
    requires { 0 < x.left }
    ensures { Reads (spec.next_neg (spec.primary scope depth) x cursor.old) result cursor.new }
{
    let operator = word_operator(cursor, b"AND", BinOp::And)?;
    let y = neg(alloc, cursor, scope, depth, x.left - 1)?;
    joined(alloc, operator, x, y)
}

/// What AND joins.
#[cycle(expr)]
#[tactic(auto, unfolding(crate::specs::Kit::Reading::turns, crate::specs::Read::Exprs::conj))]
fn conj(
    alloc: Global,
    cursor: &mut Cursor<'_>,
    scope: Scope,
    depth: u8,
    left: u8,
) -> Result<CountedExpr, Fault>
    ensures { Reads (spec.conj (spec.primary scope depth) left cursor.old) result cursor.new }
{
    let mut x = neg(alloc, cursor, scope, depth, left)?;
    for _turn in 0..cursor.len() {
        if x.left == 0 || !cursor.sees_word(b"AND") {
            break;
        }
        x = next_neg(alloc, cursor, scope, depth, x)?;
    }
    Ok(x)
}

/// OR and what stands behind it, behind `x`.
#[cycle(expr)]
#[tactic(auto, unfolding(crate::specs::Read::Exprs::next_conj))]
fn next_conj(
    alloc: Global,
    cursor: &mut Cursor<'_>,
    scope: Scope,
    depth: u8,
    x: CountedExpr,
) -> Result<CountedExpr, Fault>
    requires { 0 < x.left }
    ensures { Reads (spec.next_conj (spec.primary scope depth) x cursor.old) result cursor.new }
{
    let operator = word_operator(cursor, b"OR", BinOp::Or)?;
    let y = conj(alloc, cursor, scope, depth, x.left - 1)?;
    joined(alloc, operator, x, y)
}

/// What OR joins: a whole expression.
#[cycle(expr)]
#[tactic(auto, unfolding(crate::specs::Kit::Reading::turns, crate::specs::Read::Exprs::any_of))]
fn any_of(
    alloc: Global,
    cursor: &mut Cursor<'_>,
    scope: Scope,
    depth: u8,
    left: u8,
) -> Result<CountedExpr, Fault>
    ensures { Reads (spec.any_of (spec.primary scope depth) left cursor.old) result cursor.new }
{
    let mut x = conj(alloc, cursor, scope, depth, left)?;
    for _turn in 0..cursor.len() {
        if x.left == 0 || !cursor.sees_word(b"OR") {
            break;
        }
        x = next_conj(alloc, cursor, scope, depth, x)?;
    }
    Ok(x)
}

/// An expression in parentheses.
#[cycle(expr)]
#[tactic(auto, unfolding(crate::specs::Read::Exprs::paren))]
fn paren(
    alloc: Global,
    cursor: &mut Cursor<'_>,
    scope: Scope,
    depth: u8,
    left: u8,
) -> Result<CountedExpr, Fault>
    ensures { Reads (spec.paren (spec.primary scope depth) left cursor.old) result cursor.new }
{
    cursor.symbol(b"(")?;
    let inner = any_of(alloc, cursor, scope, depth, left)?;
    let inner = cursor.closed(b")", inner)?;
    Ok(counted(inner.expr, inner.left))
}

/// An expression and `)`, behind the word of an aggregate and its `(`.
#[cycle(expr)]
#[tactic(auto, unfolding(crate::specs::Read::Exprs::of_expr))]
fn of_expr(
    alloc: Global,
    cursor: &mut Cursor<'_>,
    depth: u8,
    word: AggWord,
    left: u8,
) -> Result<CountedExpr, Fault>
    ensures { Reads (spec.of_expr (spec.primary InQuery depth) word left cursor.old) result cursor.new }
{
    let inner = any_of(alloc, cursor, Scope::Query, depth, left)?;
    let inner = cursor.closed(b")", inner)?;
    aggregated(alloc, word, inner)
}

/// What stands behind the word of an aggregate and its `(`.
#[cycle(expr)]
#[tactic(auto, unfolding(crate::specs::Read::Exprs::argument))]
fn argument(
    alloc: Global,
    cursor: &mut Cursor<'_>,
    depth: u8,
    word: AggWord,
    left: u8,
) -> Result<CountedExpr, Fault>
    ensures { Reads (spec.argument (spec.primary InQuery depth) word.agg word left cursor.old) result cursor.new }
{
    match word.agg {
        Agg::Count => {
            if cursor.sees_name_then(b")") {
                return of_variable(alloc, cursor, word, left);
            }
            of_expr(alloc, cursor, depth, word, left)
        }
        Agg::Sum | Agg::Min | Agg::Max => of_expr(alloc, cursor, depth, word, left),
    }
}

/// An aggregate.
#[cycle(expr)]
#[tactic(auto, unfolding(crate::specs::Read::Exprs::aggregate))]
fn aggregate(
    alloc: Global,
    cursor: &mut Cursor<'_>,
    depth: u8,
    left: u8,
) -> Result<CountedExpr, Fault>
    requires { 0 < left }
    ensures { Reads (spec.aggregate (spec.primary InQuery depth) left cursor.old) result cursor.new }
{
    let word = agg_word(cursor)?;
    cursor.symbol(b"(")?;
    argument(alloc, cursor, depth, word, left - 1)
}

/// What the operators join: an expression in parentheses, an aggregate, a reference or a literal.
#[cycle(expr)]
fn primary(
    alloc: Global,
    cursor: &mut Cursor<'_>,
    scope: Scope,
    depth: u8,
    left: u8,
) -> Result<CountedExpr, Fault>
    ensures { Reads (spec.primary scope depth left cursor.old) result cursor.new }
{
    if depth > 0 && cursor.sees_symbol(b"(") {
        return paren(alloc, cursor, scope, depth - 1, left);
    }
    if depth > 0 && left > 0 && has_aggregates(scope) && sees_aggregate(cursor) {
        return aggregate(alloc, cursor, depth - 1, left);
    }
    base(alloc, cursor, scope, left)
}

/// Reads an expression that stands in no other, and says whether it is plain: `name . name` and nothing else.
#[tactic(auto, unfolding(crate::specs::Read::Exprs::counted_whole, crate::specs::Read::Exprs::counted_expr))]
pub fn counted_whole(
    alloc: Global,
    cursor: &mut Cursor<'_>,
    scope: Scope,
) -> Result<CountedWhole, Fault>
    ensures { Reads (spec.counted_whole scope cursor.old) result cursor.new }
{
    let at = cursor.place();
    let CountedExpr {
        expr,
        left: _,
        plain,
    } = any_of(alloc, cursor, scope, 64, 255)?;
    Ok(CountedWhole {
        whole: Whole { expr, at },
        plain,
    })
}

/// Reads an expression that stands in no other: at most 255 operators, which are OR, AND, NOT, the comparisons, IS with
/// its NOT, `+`, `-`, `*` and the words of aggregates, and at most 64 parentheses open at any place.
#[tactic(auto, unfolding(crate::specs::Read::Exprs::whole))]
pub fn whole(alloc: Global, cursor: &mut Cursor<'_>, scope: Scope) -> Result<Whole, Fault>
    ensures { Reads (spec.whole scope cursor.old) result cursor.new }
{
    let CountedWhole { whole, plain: _ } = counted_whole(alloc, cursor, scope)?;
    Ok(whole)
}
