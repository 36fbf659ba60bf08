//! Values: their kinds, their order and their printed form.
ghost use Rattle.std.specs.Prelude.{◌≡◌, ◌++◌, IfOk, OnOk, OnErr};
ghost use Rattle.pg_value.specs.declared.value.Value.TheVariants.{Int};
ghost use Rattle.pg_value.specs.Kinds as kinds;
ghost use Rattle.pg_value.specs.Order.{value_cmp};
ghost use Rattle.pg_value.specs.Print.{print_of};

use crate::{Number, Text};
use itoa::Buffer;
use std::alloc::{AllocError, Global};
use std::cmp::Ordering;

/// The kind of a value that is not NULL: a number, a text or a truth value.
#[derive(Clone, Copy)]
pub enum Kind {
    Int,
    Text,
    Bool,
}

/// Whether two kinds are one.
pub fn same_kind(a: Kind, b: Kind) -> bool
    ensures { result ≡ kinds.same_kind a b }
{
    match (a, b) {
        (Kind::Int, Kind::Int) | (Kind::Text, Kind::Text) | (Kind::Bool, Kind::Bool) => true,
        _ => false,
    }
}

/// A value of SQL, as a column holds it or as an expression gives it. Every kind has NULL. It takes 24 bytes, and a text what
/// it takes on the heap.
#[derive(Drop)]
pub enum Value {
    Null,
    Int(Number),
    Text(Text),
    Bool(bool),
}

impl Value {
    /// The value of a number.
    pub fn int(number: i128) -> Value
        ensures { result ≡ Int number }
    {
        Value::Int(Number::new(number))
    }
}

/// A truth value of SQL's three-valued logic (ISO/IEC 9075-2:2023, 8.1).
#[derive(Clone, Copy, Debug, PartialEq, Eq)]
pub enum Truth {
    True,
    False,
    Unknown,
}

/// A comparison operator: `=`, `<>`, `<`, `<=`, `>`, `>=`.
#[derive(Clone, Copy)]
pub enum Cmp {
    Eq,
    Ne,
    Lt,
    Le,
    Gt,
    Ge,
}

/// Which end of an edge a vertex is: `Out` where the edge leaves it, `In` where the edge arrives.
#[derive(Clone, Copy)]
pub enum Dir {
    Out,
    In,
}

/// How two values are ordered: NULL, then numbers by size, then texts by their bytes, then FALSE and TRUE.
pub fn order_values(a: &Value, b: &Value) -> Ordering
    ensures { result ≡ value_cmp a.now b.now }
{
    match a {
        Value::Null => match b {
            Value::Null => Ordering::Equal,
            _ => Ordering::Less,
        },
        Value::Int(m) => match b {
            Value::Null => Ordering::Greater,
            Value::Int(n) => m.get().cmp(&n.get()),
            _ => Ordering::Less,
        },
        Value::Text(s) => match b {
            Value::Null | Value::Int(_) => Ordering::Greater,
            Value::Text(t) => s.as_bytes().cmp(&t.as_bytes()),
            Value::Bool(_) => Ordering::Less,
        },
        Value::Bool(p) => match b {
            Value::Bool(q) => p.cmp(q),
            _ => Ordering::Greater,
        },
    }
}

/// An equal value. Only want of memory refuses it.
pub fn copy_value(alloc: Global, value: &Value) -> Result<Value, AllocError>
    ensures { IfOk result (λ copy. copy ≡ value.now) }
{
    match value {
        Value::Null => Ok(Value::Null),
        Value::Int(n) => Ok(Value::int(n.get())),
        Value::Text(t) => Ok(Value::Text(t.copy(alloc)?)),
        Value::Bool(b) => Ok(Value::Bool(*b)),
    }
}

/// Appends the printed form: `NULL`, a number in decimal digits with `-` where it is negative, `TRUE`, `FALSE`, or a text
/// between `'` with each `'` inside it twice. After want of memory `out` is as before.
pub fn print_value(value: &Value, out: &mut Text) -> Result<(), AllocError>
    ensures ok { OnOk result (out.new ≡ out.old ++ print_of value.now) }
    ensures err { OnErr result (out.new ≡ out.old) }
{
    match value {
        Value::Null => out.push_str("NULL"),
        Value::Int(n) => out.push_str(Buffer::new().format(n.get())),
        Value::Text(t) => out.push_quoted(t.as_str(), '\''),
        Value::Bool(true) => out.push_str("TRUE"),
        Value::Bool(false) => out.push_str("FALSE"),
    }
}
