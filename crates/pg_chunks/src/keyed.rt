//! What is kept in order of keys, and what is sought among it.
ghost use Rattle.std.specs.Prelude.{◌≡◌};
ghost use Rattle.std.specs.declared.cmp.Ordering.{Ordering};
ghost use Rattle.pg_keyed.specs.Orders.{Exact};

use std::cmp::Ordering;

/// An item that has a key. The order of keys is total, and keys that compare equal are equal.
pub trait Keyed: Drop {
    type Key;

    ghost key_of: { Self → Self.Key };

    ghost key_cmp: { Self.Key → Self.Key → Ordering };

    /// How the key of the item is ordered against that of another.
    fn order_item(&self, other: &Self) -> Ordering
        ensures { result ≡ key_cmp (key_of self.now) (key_of other.now) };

    ghost exact: { Exact key_cmp };
}

/// What stands for a key in a search.
pub trait Probe<T: Keyed> {
    ghost sought: { Self → T.Key };

    /// How the key of an item is ordered against the key that is sought.
    fn order(&self, item: &T) -> Ordering
        ensures { result ≡ T.key_cmp (T.key_of item.now) (sought self.now) };
}

/// An item stands for its own key.
impl<T: Keyed> Probe<T> for T {
    ghost sought = { T.key_of };

    fn order(&self, item: &T) -> Ordering {
        item.order_item(self)
    }
}
