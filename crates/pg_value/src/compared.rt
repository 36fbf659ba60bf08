//! Values, keys and elements as keys of maps: equal where their order finds them equal, and what is equal is hashed alike.
ghost use Rattle.std.specs.Prelude.{◌≡◌};
ghost use Rattle.std.proofs.Common.{ap};
ghost use Rattle.pg_value.specs.Graph.{same_elem};
ghost use Rattle.pg_value.specs.Hashing.{value_writes, key_writes, elem_writes, same_value, same_key, elem_order, value_equivalence, value_partial, one_value, key_equivalence, key_partial, one_key, elem_equivalence, elem_partial, one_elem};

use crate::{ElemId, Key, Value, order_keys, order_values};
use std::cmp::Ordering;
use std::hash::{Hash, Hasher};

impl PartialEq for Value {
    ghost eq = { same_value };

    ghost laws = { value_partial };

    fn eq(&self, other: &Value) -> bool {
        matches!(order_values(self, other), Ordering::Equal)
    }
}

impl Eq for Value {
    ghost laws = { value_equivalence };
}

impl Hash for Value {
    ghost hash_input = { value_writes };

    ghost respects_eq = { λ a b h. ap value_writes (one_value a b h) };

    fn hash<H: Hasher>(&self, state: &mut H) {
        match self {
            Value::Null => state.write_u8(0),
            Value::Int(number) => state.write_i128(number.get()),
            Value::Text(text) => text.hash(state),
            Value::Bool(truth) => truth.hash(state),
        }
    }
}

impl PartialEq for Key {
    ghost eq = { same_key };

    ghost laws = { key_partial };

    fn eq(&self, other: &Key) -> bool {
        matches!(order_keys(self, other), Ordering::Equal)
    }
}

impl Eq for Key {
    ghost laws = { key_equivalence };
}

impl Hash for Key {
    ghost hash_input = { key_writes };

    ghost respects_eq = { λ a b h. ap key_writes (one_key a b h) };

    fn hash<H: Hasher>(&self, state: &mut H) {
        self.values.as_slice().hash(state);
    }
}

/// How two elements are ordered: by table, then by key.
fn order_elements(a: &ElemId, b: &ElemId) -> Ordering
    ensures { result ≡ elem_order a.now b.now }
{
    match a.table.0.cmp(&b.table.0) {
        Ordering::Equal => order_keys(&a.key, &b.key),
        order => order,
    }
}

impl PartialEq for ElemId {
    ghost eq = { same_elem };

    ghost laws = { elem_partial };

    fn eq(&self, other: &ElemId) -> bool {
        matches!(order_elements(self, other), Ordering::Equal)
    }
}

impl Eq for ElemId {
    ghost laws = { elem_equivalence };
}

impl Hash for ElemId {
    ghost hash_input = { elem_writes };

    ghost respects_eq = { λ a b h. ap elem_writes (one_elem a b h) };

    fn hash<H: Hasher>(&self, state: &mut H) {
        state.write_u32(self.table.0);
        self.key.hash(state);
    }
}
