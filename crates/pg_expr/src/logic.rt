//! Three-valued logic (ISO/IEC 9075-2:2023, boolean value expression).
ghost use Rattle.std.specs.Prelude.{◌≡◌};
ghost use Rattle.pg_meaning.specs.Meaning as meaning;

use pg_value::{Truth, Value};

/// The truth of a value: unknown where it is NULL, and where it is no truth value.
pub fn as_truth(value: &Value) -> Truth
    ensures { result ≡ meaning.as_truth value.now }
{
    match value {
        Value::Bool(true) => Truth::True,
        Value::Bool(false) => Truth::False,
        _ => Truth::Unknown,
    }
}

/// A truth as a value, where unknown is NULL.
pub fn as_value(truth: Truth) -> Value
    ensures { result ≡ meaning.as_value truth }
{
    match truth {
        Truth::True => Value::Bool(true),
        Truth::False => Value::Bool(false),
        Truth::Unknown => Value::Null,
    }
}

/// NOT: unknown stays unknown.
pub fn truth_not(truth: Truth) -> Truth
    ensures { result ≡ meaning.truth_not truth }
{
    match truth {
        Truth::True => Truth::False,
        Truth::False => Truth::True,
        Truth::Unknown => Truth::Unknown,
    }
}

/// AND: false where one side is false, else unknown where one side is.
pub fn truth_and(left: Truth, right: Truth) -> Truth
    ensures { result ≡ meaning.truth_and left right }
{
    match (left, right) {
        (Truth::False, _) | (_, Truth::False) => Truth::False,
        (Truth::True, Truth::True) => Truth::True,
        _ => Truth::Unknown,
    }
}

/// OR: true where one side is true, else unknown where one side is.
pub fn truth_or(left: Truth, right: Truth) -> Truth
    ensures { result ≡ meaning.truth_or left right }
{
    match (left, right) {
        (Truth::True, _) | (_, Truth::True) => Truth::True,
        (Truth::False, Truth::False) => Truth::False,
        _ => Truth::Unknown,
    }
}
