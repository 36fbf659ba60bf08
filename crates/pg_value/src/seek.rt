//! The orders in which rows and writes are kept, and what is sought among them.
ghost use Rattle.std.specs.Prelude.{◌≡◌, length, slice_index_or, ◌<◌, ◌-◌, IsTrue};
ghost use Rattle.std.specs.declared.cmp.Ordering.TheVariants.{Less};
ghost use Rattle.pg_keyed.specs.Keyed.{Ascends, Sought};
ghost use Rattle.pg_value.specs.Order.{key_cmp, place_cmp};
ghost use Rattle.pg_value.specs.Orders.{keys, places};
ghost use Rattle.pg_value.specs.TablesLaws.{key_of};
ghost use Rattle.pg_value.specs.Writes.{named};

use crate::{Key, List, Stored, Value, Write, order_keys};
use pg_chunks::{Keyed, Probe};
use std::cmp::Ordering;

/// The writes of a transaction are kept in order of table and key.
impl Keyed for Write {
    type Key = (u32, List<Value>);

    ghost key_of = { named };

    ghost key_cmp = { place_cmp };

    fn order_item(&self, other: &Write) -> Ordering {
        match self.table.0.cmp(&other.table.0) {
            Ordering::Equal => order_keys(&self.key, &other.key),
            order => order,
        }
    }

    ghost exact = { places };
}

/// The rows of a table are kept in order of their keys.
impl Keyed for Stored {
    type Key = List<Value>;

    ghost key_of = { λ s. s.key.values };

    ghost key_cmp = { key_cmp };

    fn order_item(&self, other: &Stored) -> Ordering {
        order_keys(&self.key, &other.key)
    }

    ghost exact = { keys };
}

/// A row is sought by its key.
impl Probe<Stored> for Key {
    ghost sought = { λ k. k.values };

    fn order(&self, row: &Stored) -> Ordering {
        order_keys(&row.key, self)
    }
}

/// Whether the last of the rows stands before the key.
fn are_before_key(rows: &[Stored], key: &Key) -> bool
    ensures { IsTrue result → (d : Stored) → 0 < length rows.now → key_cmp (key_of (slice_index_or rows.now (length rows.now - 1) d)) key.now.values ≡ Less }
{
    match rows {
        [.., last] => matches!(order_keys(&last.key, key), Ordering::Less),
        [] => true,
    }
}

/// Where the row of a key stands among the rows of one table, or, as an `Err`, where it would stand. A key behind all
/// others is found at once, and any other by halving.
pub fn seek_row(rows: &[Stored], key: &Key) -> Result<usize, usize>
    requires { Ascends key_of key_cmp rows.now }
    ensures { Sought key_of key_cmp key.now.values rows.now result }
{
    if are_before_key(rows, key) {
        return Err(rows.len());
    }
    rows.binary_search_by(|row| order_keys(&row.key, key))
}
