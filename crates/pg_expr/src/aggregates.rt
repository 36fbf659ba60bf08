//! Aggregates, one value after another (ISO/IEC 9075-2:2023, aggregate function).
ghost use Rattle.std.specs.Prelude.{◌≡◌, ◌+ℤ◌, [], true, false};
ghost use Rattle.std.specs.Ordering.{is_lt};
ghost use Rattle.pg_value.specs.Compare as comparison;
ghost use Rattle.pg_value.specs.declared.value.Value.TheVariants.{Int};
ghost use Rattle.pg_value.specs.Order as order;
ghost use Rattle.pg_value.specs.Order.{value_cmp};
ghost use Rattle.pg_meaning.specs.Meaning as meaning;
ghost use Rattle.pg_meaning.specs.Sound.Kinds.{IsWithin};
ghost use Rattle.pg_meaning.specs.Typing.{widest};
ghost use Rattle.pg_expr.specs.Aggregates as spec;
ghost use Rattle.pg_expr.specs.Operands.{seen};

use crate::number::{number, number_or_zero};
use crate::operand::Operand;
use crate::operators::is_null;
use pg_ast::Agg;
use pg_value::{Value, order_values};

/// An aggregate over nothing: 0 of COUNT, and NULL of the others.
pub fn nothing(agg: Agg) -> Value
    ensures { result ≡ meaning.aggregate agg [] }
{
    match agg {
        Agg::Count => number(0),
        Agg::Sum | Agg::Min | Agg::Max => Value::Null,
    }
}

/// Whether a value is before another.
fn is_before(left: &Value, right: &Value) -> bool
    ensures { result ≡ is_lt (value_cmp left.now right.now) }
{
    order_values(left, right).is_lt()
}

/// The lesser of two values, the first where they are equal; the second where the first is NULL.
fn lesser<'a>(so_far: Operand<'a>, value: Operand<'a>) -> Operand<'a>
    ensures { seen result ≡ spec.kept meaning.lesser (seen so_far.entry) (seen value.entry) }
{
    if is_null(so_far.get()) || is_before(value.get(), so_far.get()) {
        value
    } else {
        so_far
    }
}

/// The greater of two values, the first where they are equal; the second where the first is NULL.
fn greater<'a>(so_far: Operand<'a>, value: Operand<'a>) -> Operand<'a>
    ensures { seen result ≡ spec.kept meaning.greater (seen so_far.entry) (seen value.entry) }
{
    if is_null(so_far.get()) || is_before(so_far.get(), value.get()) {
        value
    } else {
        so_far
    }
}

/// The sum of two values, where what is no number counts as 0.
fn sum(left: &Value, right: &Value) -> Value
    requires { IsWithin widest (Int (order.number left.now +ℤ order.number right.now)) }
    ensures { result ≡ Int (order.number left.now +ℤ order.number right.now) }
{
    number(number_or_zero(left) + number_or_zero(right))
}

/// An aggregate over some values and one more, which is not NULL.
fn joined<'a>(agg: Agg, so_far: Operand<'a>, value: Operand<'a>) -> Operand<'a>
    requires { IsWithin widest (spec.joined agg (seen so_far) (seen value)) }
    ensures { seen result ≡ spec.joined agg (seen so_far.entry) (seen value.entry) }
{
    match agg {
        Agg::Count => Operand::Made(number(number_or_zero(so_far.get()) + 1)),
        Agg::Sum => Operand::Made(sum(so_far.get(), value.get())),
        Agg::Min => lesser(so_far, value),
        Agg::Max => greater(so_far, value),
    }
}

/// An aggregate over some values and one more, where NULL changes nothing. A number that it gives has at most 126 binary
/// digits.
pub fn added<'a>(agg: Agg, so_far: Operand<'a>, value: Operand<'a>) -> Operand<'a>
    requires { IsWithin widest (spec.added agg (seen so_far) (seen value)) }
    ensures { seen result ≡ spec.added agg (seen so_far.entry) (seen value.entry) }
{
    if is_null(value.get()) {
        so_far
    } else {
        joined(agg, so_far, value)
    }
}
