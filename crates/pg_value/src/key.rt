//! The values of keys: how they are held, made and copied, and their order.
ghost use Rattle.std.specs.Prelude.{◌≡◌, [], ◌∷◌, length, IfOk};
ghost use Rattle.pg_value.specs.Keys.{key_list};
ghost use Rattle.pg_value.specs.Order.{row_cmp, key_cmp};

use crate::row::order_lists;
use crate::value::{copy_value, order_values};
use crate::{List, Value};
use std::alloc::{AllocError, Global};
use std::cmp::Ordering;
use std::marker::Model;
use std::slice;

/// The values of a key, which contracts see as their list. One value lies in their 32 bytes, and
/// several take 24 bytes each on the heap.
#[derive(Drop)]
pub struct KeyValues {
    held: Held,
}

/// How the values of a key are held.
#[derive(Drop)]
enum Held {
    One(Value),
    Many(List<Value>),
}

impl Model for KeyValues {
    ghost use Rattle.std.specs.Prelude.{List};
    ghost use Rattle.pg_value.specs.declared.value.Value.{Value as Single};

    ghost Value = { List Single };

    ghost use Rattle.pg_value.specs.Keys.{key_list};

    ghost view = { λ k. key_list k.held };
}

impl KeyValues {
    /// The values of a list. One value, or many with no room for more.
    pub fn from_list(values: List<Value>) -> KeyValues
        ensures { result ≡ values }
    {
        KeyValues {
            held: held_of(values),
        }
    }

    /// One value.
    pub fn one(value: Value) -> KeyValues
        ensures { result ≡ value ∷ [] }
    {
        KeyValues {
            held: Held::One(value),
        }
    }

    /// The values, in order of the key.
    pub fn as_slice(&self) -> &[Value]
        ensures { result.now ≡ self.now }
    {
        match &self.held {
            Held::One(value) => slice::from_ref(value),
            Held::Many(values) => values.as_slice(),
        }
    }

    /// How many values there are.
    pub fn len(&self) -> usize
        ensures { result ≡ length self.now }
    {
        self.as_slice().len()
    }

    /// Equal values. Where there is one, and it is no text of its own, it takes no memory. Only want of memory refuses it.
    pub fn copy(&self, alloc: Global) -> Result<KeyValues, AllocError>
        ensures { IfOk result (λ copy. copy ≡ self.now) }
    {
        Ok(KeyValues {
            held: copy_held(alloc, &self.held)?,
        })
    }

    /// How two keys' values are ordered: by the first that differs.
    pub fn order(&self, other: &KeyValues) -> Ordering
        ensures { result ≡ key_cmp self.now other.now }
    {
        match (&self.held, &other.held) {
            (Held::One(a), Held::One(b)) => order_values(a, b),
            _ => order_lists(self.as_slice(), other.as_slice()),
        }
    }
}

/// A list of values as a key holds it.
fn held_of(values: List<Value>) -> Held
    ensures { key_list result ≡ values }
{
    let mut items = values.into_vec();
    if items.len() == 1
        && let Some(value) = items.pop()
    {
        return Held::One(value);
    }
    Held::Many(List::from_vec(items).without_room())
}

/// Equal values. Only want of memory refuses it.
fn copy_held(alloc: Global, held: &Held) -> Result<Held, AllocError>
    ensures { IfOk result (λ copy. key_list copy ≡ key_list held.now) }
{
    match held {
        Held::One(value) => Ok(Held::One(copy_value(alloc, value)?)),
        Held::Many(values) => Ok(Held::Many(copy_values(alloc, values.as_slice())?)),
    }
}

/// An equal list of values, with room for no more. Only want of memory refuses it.
fn copy_values(alloc: Global, values: &[Value]) -> Result<List<Value>, AllocError>
    ensures { IfOk result (λ copy. copy ≡ values.now) }
{
    let mut out = List::with_room(alloc, values.len())?;
    for value in values {
        out.push(copy_value(alloc, value)?)?;
    }
    Ok(out)
}
