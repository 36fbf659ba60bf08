//! The kind of an expression, and where an operator, an aggregate or a condition has a wrong one.
ghost use Rattle.std.specs.Prelude.{◌≡◌, ◌&&◌};
ghost use Rattle.std.specs.List.{flat_map};
ghost use Rattle.std.specs.Option.{option_to_list};
ghost use Rattle.pg_ast.specs.Trees.{tree_of};
ghost use Rattle.pg_meaning.specs.Typing as spec;
ghost use Rattle.pg_rules.specs.ExprFaults.{types_at};
ghost use Rattle.pg_rules.specs.Places.{least};
ghost use Rattle.pg_rules.specs.Changes as changes;
ghost use Rattle.pg_check.specs.Scopes.{scope};
ghost use Rattle.pg_check.specs.Scopes as pass;

use crate::gather::InnerCondition;
use crate::name_kinds::NameKinds;
use pg_ast::{Agg, BinOp, Expr, UnOp, Whole};
use pg_catalog::PropertyKinds;
use pg_rules::{place_if, sooner};
use pg_value::{Kind, Value, same_kind};

/// The kind of a value, none for NULL.
fn value_kind(value: &Value) -> Option<Kind>
    ensures { result ≡ spec.value_kind value.now }
{
    match value {
        Value::Null => None,
        Value::Int(_) => Some(Kind::Int),
        Value::Text(_) => Some(Kind::Text),
        Value::Bool(_) => Some(Kind::Bool),
    }
}

/// The kind of an operator before or behind one operand.
fn unary_kind(op: UnOp) -> Kind
    ensures { result ≡ spec.unary_kind op }
{
    match op {
        UnOp::Minus => Kind::Int,
        UnOp::Not => Kind::Bool,
        UnOp::IsNull => Kind::Bool,
        UnOp::IsNotNull => Kind::Bool,
    }
}

/// The kind of an operator between two operands.
fn binary_kind(op: BinOp) -> Kind
    ensures { result ≡ spec.binary_kind op }
{
    match op {
        BinOp::Plus => Kind::Int,
        BinOp::Minus => Kind::Int,
        BinOp::Times => Kind::Int,
        BinOp::Or => Kind::Bool,
        BinOp::And => Kind::Bool,
        BinOp::Eq => Kind::Bool,
        BinOp::Ne => Kind::Bool,
        BinOp::Lt => Kind::Bool,
        BinOp::Le => Kind::Bool,
        BinOp::Gt => Kind::Bool,
        BinOp::Ge => Kind::Bool,
    }
}

/// The kind of an aggregate over values of a kind.
fn agg_kind(agg: Agg, kind: Option<Kind>) -> Option<Kind>
    ensures { result ≡ spec.agg_kind agg kind }
{
    match agg {
        Agg::Count => Some(Kind::Int),
        Agg::Sum => Some(Kind::Int),
        Agg::Min => kind,
        Agg::Max => kind,
    }
}

/// Whether something of a kind, or of any where it has none, may have this kind.
fn may_be(kind: Kind, other: Option<Kind>) -> bool
    ensures { result ≡ spec.may_be kind other }
{
    match other {
        None => true,
        Some(other) => same_kind(kind, other),
    }
}

/// Whether both may have one kind.
fn may_agree(first: Option<Kind>, second: Option<Kind>) -> bool
    ensures { result ≡ spec.may_agree first second }
{
    match first {
        None => true,
        Some(kind) => may_be(kind, second),
    }
}

/// Whether both may have this kind.
fn both_may_be(kind: Kind, first: Option<Kind>, second: Option<Kind>) -> bool
    ensures { result ≡ (spec.may_be kind first && spec.may_be kind second) }
{
    let one = may_be(kind, first);
    let other = may_be(kind, second);
    one && other
}

/// Whether an operator takes an operand of a kind.
fn unary_takes(op: UnOp, kind: Option<Kind>) -> bool
    ensures { result ≡ spec.unary_takes op kind }
{
    match op {
        UnOp::Minus => may_be(Kind::Int, kind),
        UnOp::Not => may_be(Kind::Bool, kind),
        UnOp::IsNull => true,
        UnOp::IsNotNull => true,
    }
}

/// Whether an operator takes operands of two kinds.
fn binary_takes(op: BinOp, first: Option<Kind>, second: Option<Kind>) -> bool
    ensures { result ≡ spec.binary_takes op first second }
{
    match op {
        BinOp::Or => both_may_be(Kind::Bool, first, second),
        BinOp::And => both_may_be(Kind::Bool, first, second),
        BinOp::Plus => both_may_be(Kind::Int, first, second),
        BinOp::Minus => both_may_be(Kind::Int, first, second),
        BinOp::Times => both_may_be(Kind::Int, first, second),
        BinOp::Eq => may_agree(first, second),
        BinOp::Ne => may_agree(first, second),
        BinOp::Lt => may_agree(first, second),
        BinOp::Le => may_agree(first, second),
        BinOp::Gt => may_agree(first, second),
        BinOp::Ge => may_agree(first, second),
    }
}

/// Whether an aggregate takes values of a kind.
fn agg_takes(agg: Agg, kind: Option<Kind>) -> bool
    ensures { result ≡ spec.agg_takes agg kind }
{
    match agg {
        Agg::Sum => may_be(Kind::Int, kind),
        Agg::Count => true,
        Agg::Min => true,
        Agg::Max => true,
    }
}

/// The kind of an expression, none where it may be any.
#[tactic(auto, using(pg_ast::specs::Trees::is_unary, pg_ast::specs::Trees::is_binary, pg_ast::specs::Trees::is_agg))]
pub fn kind<K: NameKinds>(kinds: &K, expr: &Expr) -> Option<Kind>
    ensures { result ≡ spec.kind_of (K.names kinds.now) (tree_of expr.now) }
{
    match expr {
        Expr::Lit { value, .. } => value_kind(value),
        Expr::TooWide { .. } => Some(Kind::Int),
        Expr::Column { name } => kinds.column(&name.text),
        Expr::Property { var: _, name } => kinds.property(&name.text),
        Expr::Unary { op, .. } => Some(unary_kind(*op)),
        Expr::Binary { op, .. } => Some(binary_kind(*op)),
        Expr::Agg { agg, arg, .. } => agg_kind(*agg, kind(kinds, arg.get())),
        Expr::CountVar { .. } => Some(Kind::Int),
    }
}

/// The first operator or aggregate that meets a wrong kind.
#[tactic(auto, using(pg_ast::specs::Trees::is_unary, pg_ast::specs::Trees::is_binary, pg_ast::specs::Trees::is_agg, pg_rules::specs::Places::least_append))]
fn wrong_in<K: NameKinds>(kinds: &K, expr: &Expr) -> Option<u32>
    ensures { result ≡ least (types_at (K.names kinds.now) (tree_of expr.now)) }
{
    match expr {
        Expr::Unary { op, arg, at } => {
            let own = place_if(!unary_takes(*op, kind(kinds, arg.get())), *at);
            sooner(own, wrong_in(kinds, arg.get()))
        }
        Expr::Binary {
            op,
            left,
            right,
            at,
        } => {
            let taken = binary_takes(*op, kind(kinds, left.get()), kind(kinds, right.get()));
            let own = place_if(!taken, *at);
            let first = wrong_in(kinds, left.get());
            sooner(own, sooner(first, wrong_in(kinds, right.get())))
        }
        Expr::Agg { agg, arg, at } => {
            let own = place_if(!agg_takes(*agg, kind(kinds, arg.get())), *at);
            sooner(own, wrong_in(kinds, arg.get()))
        }
        _ => None,
    }
}

/// The first place of a wrong kind in an expression that is to have a kind: its first token where it has another as a whole,
/// and the operators and aggregates in it that meet a wrong kind.
#[tactic(auto, using(pg_rules::specs::Places::least_append))]
pub fn wrong_whole<K: NameKinds>(kinds: &K, wanted: Kind, whole: &Whole) -> Option<u32>
    ensures { result ≡ least (changes.wrong (K.names kinds.now) wanted whole.now) }
{
    let own = place_if(!may_be(wanted, kind(kinds, &whole.expr)), whole.at);
    sooner(own, wrong_in(kinds, &whole.expr))
}

/// The first operator or aggregate of some expressions that meets a wrong kind.
#[tactic(auto, using(pg_rules::specs::Places::least_found, pg_rules::specs::Places::sooner_none))]
pub fn wrong_operators(kinds: &PropertyKinds<'_>, exprs: &[&Expr]) -> Option<u32>
    ensures { result ≡ least (flat_map (λ e. types_at (scope kinds.now) (tree_of e.now)) exprs.now) }
{
    let mut found = None;
    for expr in exprs {
        found = sooner(found, wrong_in(kinds, expr));
    }
    found
}

/// The place of a condition that is no truth value.
fn untrue(kinds: &PropertyKinds<'_>, condition: &Whole) -> Option<u32>
    ensures { result ≡ least (pass.untrue (scope kinds.now) condition.now) }
{
    place_if(
        !may_be(Kind::Bool, kind(kinds, &condition.expr)),
        condition.at,
    )
}

/// The first condition inside a pattern that is no truth value.
#[tactic(auto, using(pg_rules::specs::Places::least_found, pg_rules::specs::Places::sooner_none))]
pub fn untrue_inside(kinds: &PropertyKinds<'_>, conditions: &[InnerCondition<'_>]) -> Option<u32>
    ensures { result ≡ least (flat_map (λ i. pass.untrue (scope kinds.now) i.condition.now) conditions.now) }
{
    let mut found = None;
    for inner in conditions {
        found = sooner(found, untrue(kinds, inner.condition));
    }
    found
}

/// The place of a final condition that is no truth value.
pub fn untrue_at_end(kinds: &PropertyKinds<'_>, condition: &Option<Whole>) -> Option<u32>
    ensures { result ≡ least (flat_map (pass.untrue (scope kinds.now)) (option_to_list condition.now)) }
{
    match condition {
        Some(condition) => untrue(kinds, condition),
        None => None,
    }
}
