//! The numbers of values.
ghost use Rattle.std.specs.Prelude.{◌≡◌};
ghost use Rattle.pg_value.specs.declared.value.Value.TheVariants.{Int};
ghost use Rattle.pg_value.specs.Order as order;
ghost use Rattle.pg_expr.specs.Operands.{number_in};

use pg_value::Value;

/// The number that a value is, if it is one.
pub fn number_in(value: &Value) -> Option<i128>
    ensures { result ≡ number_in value.now }
{
    match value {
        Value::Int(n) => Some(n.get()),
        _ => None,
    }
}

/// A number as a value.
pub fn number(n: i128) -> Value
    ensures { result ≡ Int n }
{
    Value::int(n)
}

/// The number that a value is, and 0 where it is none.
pub fn number_or_zero(value: &Value) -> i128
    ensures { result ≡ order.number value.now }
{
    match number_in(value) {
        Some(n) => n,
        None => 0,
    }
}
