//! The operators on values (ISO/IEC 9075-2:2023, numeric value expression, comparison predicate, null predicate).
ghost use Rattle.std.specs.Prelude.{◌≡◌, ◌+ℤ◌, ◌-ℤ◌, ◌*ℤ◌, IfSome};
ghost use Rattle.pg_value.specs.declared.value.Value.{Value};
ghost use Rattle.pg_value.specs.declared.value.Value.TheVariants.{Bool as Truth'};
ghost use Rattle.pg_value.specs.Compare as comparison;
ghost use Rattle.pg_meaning.specs.Meaning as meaning;
ghost use Rattle.pg_meaning.specs.Meaning.{on_numbers};
ghost use Rattle.pg_meaning.specs.Sound.Kinds.{IsWithin};
ghost use Rattle.pg_meaning.specs.Typing.{widest};

use crate::logic::{as_truth, as_value, truth_and, truth_not, truth_or};
use crate::number::{number, number_in};
use pg_ast::{BinOp, UnOp};
use pg_value::{Cmp, Value, compare};

/// Whether a value is NULL.
pub fn is_null(value: &Value) -> bool
    ensures { result ≡ comparison.is_null value.now }
{
    matches!(value, Value::Null)
}

/// A number with the other sign; NULL of what is no number.
fn minus(value: &Value) -> Value
    requires { IsWithin widest (meaning.minus value.now) }
    ensures { result ≡ meaning.minus value.now }
{
    match number_in(value) {
        Some(n) => number(-n),
        None => Value::Null,
    }
}

/// The value of an operator with one operand. A number that it gives has at most 126 binary digits.
pub fn unary(op: UnOp, value: &Value) -> Value
    requires { IsWithin widest (meaning.unary op value.now) }
    ensures { result ≡ meaning.unary op value.now }
{
    match op {
        UnOp::Minus => minus(value),
        UnOp::Not => as_value(truth_not(as_truth(value))),
        UnOp::IsNull => Value::Bool(is_null(value)),
        UnOp::IsNotNull => Value::Bool(!is_null(value)),
    }
}

/// A sum; NULL where a side is no number.
fn sum(left: &Value, right: &Value) -> Value
    requires { IsWithin widest (on_numbers (λ m n. m +ℤ n) left.now right.now) }
    ensures { result ≡ on_numbers (λ m n. m +ℤ n) left.now right.now }
{
    match (number_in(left), number_in(right)) {
        (Some(m), Some(n)) => number(m + n),
        _ => Value::Null,
    }
}

/// A difference; NULL where a side is no number.
fn difference(left: &Value, right: &Value) -> Value
    requires { IsWithin widest (on_numbers (λ m n. m -ℤ n) left.now right.now) }
    ensures { result ≡ on_numbers (λ m n. m -ℤ n) left.now right.now }
{
    match (number_in(left), number_in(right)) {
        (Some(m), Some(n)) => number(m - n),
        _ => Value::Null,
    }
}

/// A product; NULL where a side is no number.
fn product(left: &Value, right: &Value) -> Value
    requires { IsWithin widest (on_numbers (λ m n. m *ℤ n) left.now right.now) }
    ensures { result ≡ on_numbers (λ m n. m *ℤ n) left.now right.now }
{
    match (number_in(left), number_in(right)) {
        (Some(m), Some(n)) => number(m * n),
        _ => Value::Null,
    }
}

/// The value of an operator with two operands. A number that it gives has at most 126 binary digits.
pub fn binary(op: BinOp, left: &Value, right: &Value) -> Value
    requires { IsWithin widest (meaning.binary op left.now right.now) }
    ensures { result ≡ meaning.binary op left.now right.now }
{
    match op {
        BinOp::Or => as_value(truth_or(as_truth(left), as_truth(right))),
        BinOp::And => as_value(truth_and(as_truth(left), as_truth(right))),
        BinOp::Eq => as_value(compare(Cmp::Eq, left, right)),
        BinOp::Ne => as_value(compare(Cmp::Ne, left, right)),
        BinOp::Lt => as_value(compare(Cmp::Lt, left, right)),
        BinOp::Le => as_value(compare(Cmp::Le, left, right)),
        BinOp::Gt => as_value(compare(Cmp::Gt, left, right)),
        BinOp::Ge => as_value(compare(Cmp::Ge, left, right)),
        BinOp::Plus => sum(left, right),
        BinOp::Minus => difference(left, right),
        BinOp::Times => product(left, right),
    }
}

/// The value that an operator has whatever stands on its right: FALSE of AND behind FALSE, and TRUE of OR behind TRUE.
pub fn settled(op: BinOp, left: &Value) -> Option<bool>
    ensures { IfSome result (λ b. (right : Value) → meaning.binary op left.now right ≡ Truth' b) }
{
    match (op, left) {
        (BinOp::And, Value::Bool(false)) => Some(false),
        (BinOp::Or, Value::Bool(true)) => Some(true),
        _ => None,
    }
}
