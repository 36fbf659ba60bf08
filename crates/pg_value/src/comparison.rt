//! The comparison of two values.
ghost use Rattle.std.specs.Prelude.{◌≡◌};
ghost use Rattle.pg_value.specs.Compare as spec;

use crate::{Cmp, Truth, Value, order_values};
use std::cmp::Ordering;

/// Whether `a op b` holds (ISO/IEC 9075-2:2023, 8.2): unknown exactly where one of them is NULL, else by the order of values.
/// SQL compares values of one kind; of two kinds the answer is by the order of kinds.
pub fn compare(op: Cmp, a: &Value, b: &Value) -> Truth
    ensures { result ≡ spec.compare op a.now b.now }
{
    if is_null(a) || is_null(b) {
        return Truth::Unknown;
    }
    if meets(op, order_values(a, b)) {
        Truth::True
    } else {
        Truth::False
    }
}

/// Whether a value is NULL.
fn is_null(value: &Value) -> bool
    ensures { result ≡ spec.is_null value.now }
{
    matches!(value, Value::Null)
}

/// Whether an order of two values meets the operator.
fn meets(op: Cmp, order: Ordering) -> bool
    ensures { result ≡ spec.meets op order }
{
    match op {
        Cmp::Eq => order.is_eq(),
        Cmp::Ne => order.is_ne(),
        Cmp::Lt => order.is_lt(),
        Cmp::Le => order.is_le(),
        Cmp::Gt => order.is_gt(),
        Cmp::Ge => order.is_ge(),
    }
}
