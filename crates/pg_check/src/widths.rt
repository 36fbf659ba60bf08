//! The width of an expression, and where a literal, an operator or an aggregate is too wide.
ghost use Rattle.std.specs.Prelude.{◌≡◌, ◌<◌, max, []};
ghost use Rattle.std.specs.List.{flat_map};
ghost use Rattle.pg_ast.specs.Trees.{tree_of};
ghost use Rattle.pg_meaning.specs.Typing as spec;
ghost use Rattle.pg_rules.specs.ExprFaults.{wide_at};
ghost use Rattle.pg_rules.specs.Places.{least, place_if, sooner};
ghost use Rattle.pg_rules.specs.Changes as changes;
ghost use Rattle.pg_check.specs.Scopes as pass;

use crate::name_kinds::NameKinds;
use pg_ast::{Agg, BinOp, Expr, UnOp, Whole};
use pg_catalog::PropertyKinds;
use pg_rules::{place_if, sooner};
use pg_value::Kind;

/// The width of an expression, as far as 127, and the first place in it that is too wide while its arguments are not.
#[derive(Clone, Copy)]
pub struct Measured {
    pub bits: u32,
    pub wide: Option<u32>,
}

/// A width as far as 127.
fn capped(width: u32) -> u32
    ensures { result ≡ pass.capped width }
{
    if width < 127 { width } else { 127 }
}

/// The width of an operator before or behind one operand.
fn unary_width(op: UnOp, width: u32) -> u32
    ensures { result ≡ spec.unary_width op width }
{
    match op {
        UnOp::Minus => width,
        UnOp::Not => 0,
        UnOp::IsNull => 0,
        UnOp::IsNotNull => 0,
    }
}

/// The greater of two widths.
fn wider(first: u32, second: u32) -> u32
    ensures { result ≡ max first second }
{
    if first < second { second } else { first }
}

/// The width of an operator between two operands.
fn binary_width(op: BinOp, first: u32, second: u32) -> u32
    requires first { first < 128 }
    requires second { second < 128 }
    ensures { result ≡ spec.binary_width op first second }
{
    match op {
        BinOp::Plus => wider(first, second) + 1,
        BinOp::Minus => wider(first, second) + 1,
        BinOp::Times => first + second,
        BinOp::Or => 0,
        BinOp::And => 0,
        BinOp::Eq => 0,
        BinOp::Ne => 0,
        BinOp::Lt => 0,
        BinOp::Le => 0,
        BinOp::Gt => 0,
        BinOp::Ge => 0,
    }
}

/// The width of an aggregate.
fn agg_width(agg: Agg, width: u32) -> u32
    requires { width < 128 }
    ensures { result ≡ spec.agg_width agg width }
{
    match agg {
        Agg::Count => 48,
        Agg::Sum => width + 48,
        Agg::Min => width,
        Agg::Max => width,
    }
}

/// Whether a width is too large while those of both arguments are not.
fn is_over(own: u32, first: u32, second: u32) -> bool
    ensures { result ≡ pass.is_over own first second }
{
    own > 126 && (first <= 126 && second <= 126)
}

/// The width of a column of a kind.
fn column_width(kind: Option<Kind>) -> u32
    ensures { result ≡ pass.column_width kind }
{
    match kind {
        Some(Kind::Int) => 31,
        Some(Kind::Text) => 0,
        Some(Kind::Bool) => 0,
        None => 0,
    }
}

/// The width of what a name of a kind stands for.
fn of_name(kind: Option<Kind>) -> Measured
    ensures bits { result.bits ≡ pass.capped (pass.column_width kind) }
    ensures wide { result.wide ≡ least [] }
    ensures small { result.bits < 128 }
{
    Measured {
        bits: column_width(kind),
        wide: None,
    }
}

/// The width of a literal.
fn of_literal(bits: u32, at: u32) -> Measured
    ensures bits { result.bits ≡ pass.capped bits }
    ensures wide { result.wide ≡ least (place_if (spec.too_wide bits) at) }
    ensures small { result.bits < 128 }
{
    Measured {
        bits: capped(bits),
        wide: place_if(bits > 126, at),
    }
}

/// The width of an operator before or behind one operand.
fn of_unary(op: UnOp, arg: Measured, at: u32) -> Measured
    requires { arg.bits < 128 }
    ensures bits { result.bits ≡ pass.capped (spec.unary_width op arg.bits) }
    ensures wide { result.wide ≡ sooner (least (place_if (pass.is_over (spec.unary_width op arg.bits) arg.bits 0) at)) arg.wide }
    ensures small { result.bits < 128 }
{
    let own = unary_width(op, arg.bits);
    Measured {
        bits: capped(own),
        wide: sooner(place_if(is_over(own, arg.bits, 0), at), arg.wide),
    }
}

/// The width of an operator between two operands.
fn of_binary(op: BinOp, left: Measured, right: Measured, at: u32) -> Measured
    requires left { left.bits < 128 }
    requires right { right.bits < 128 }
    ensures bits { result.bits ≡ pass.capped (spec.binary_width op left.bits right.bits) }
    ensures wide { result.wide ≡ sooner (least (place_if (pass.is_over (spec.binary_width op left.bits right.bits) left.bits right.bits) at)) (sooner left.wide right.wide) }
    ensures small { result.bits < 128 }
{
    let own = binary_width(op, left.bits, right.bits);
    let place = place_if(is_over(own, left.bits, right.bits), at);
    Measured {
        bits: capped(own),
        wide: sooner(place, sooner(left.wide, right.wide)),
    }
}

/// The width of an aggregate.
fn of_agg(agg: Agg, arg: Measured, at: u32) -> Measured
    requires { arg.bits < 128 }
    ensures bits { result.bits ≡ pass.capped (spec.agg_width agg arg.bits) }
    ensures wide { result.wide ≡ sooner (least (place_if (pass.is_over (spec.agg_width agg arg.bits) arg.bits 0) at)) arg.wide }
    ensures small { result.bits < 128 }
{
    let own = agg_width(agg, arg.bits);
    Measured {
        bits: capped(own),
        wide: sooner(place_if(is_over(own, arg.bits, 0), at), arg.wide),
    }
}

/// The width of an expression, and what in it is too wide.
#[tactic(auto, using(pg_ast::specs::Trees::is_unary, pg_ast::specs::Trees::is_binary, pg_ast::specs::Trees::is_agg))]
pub fn width<K: NameKinds>(kinds: &K, expr: &Expr) -> Measured
    ensures bits { result.bits ≡ pass.capped (spec.width_of (K.names kinds.now) (tree_of expr.now)) }
    ensures wide { result.wide ≡ least (wide_at (K.names kinds.now) (tree_of expr.now)) }
    ensures small { result.bits < 128 }
{
    match expr {
        Expr::Lit { bits, at, .. } => of_literal(*bits, *at),
        Expr::TooWide { at } => Measured {
            bits: 127,
            wide: Some(*at),
        },
        Expr::Column { name } => of_name(kinds.column(&name.text)),
        Expr::Property { var: _, name } => of_name(kinds.property(&name.text)),
        Expr::Unary { op, arg, at } => of_unary(*op, width(kinds, arg.get()), *at),
        Expr::Binary {
            op,
            left,
            right,
            at,
        } => {
            let left = width(kinds, left.get());
            let right = width(kinds, right.get());
            of_binary(*op, left, right, *at)
        }
        Expr::Agg { agg, arg, at } => of_agg(*agg, width(kinds, arg.get()), *at),
        Expr::CountVar { .. } => Measured {
            bits: 48,
            wide: None,
        },
    }
}

/// The first place in an expression that is too wide while its arguments are not.
pub fn wide_whole<K: NameKinds>(kinds: &K, whole: &Whole) -> Option<u32>
    ensures { result ≡ least (changes.wide_in (K.names kinds.now) whole.now) }
{
    width(kinds, &whole.expr).wide
}

/// The first place in some expressions that is too wide while its arguments are not.
#[tactic(auto, using(pg_rules::specs::Places::least_found, pg_rules::specs::Places::sooner_none))]
pub fn wide_in(kinds: &PropertyKinds<'_>, exprs: &[&Expr]) -> Option<u32>
    ensures { result ≡ least (flat_map (λ e. wide_at (pass.scope kinds.now) (tree_of e.now)) exprs.now) }
{
    let mut found = None;
    for expr in exprs {
        found = sooner(found, width(kinds, expr).wide);
    }
    found
}
