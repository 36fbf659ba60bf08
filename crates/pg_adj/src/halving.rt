//! The counted search for the item of a key.
ghost use Rattle.std.specs.Prelude.{◌≡◌, ◌≤◌, ◌+◌, List, length};
ghost use Rattle.std.specs.Option.{option_copied};
ghost use Rattle.pg_keyed.specs.Keyed.{Ascends, get};
ghost use Rattle.pg_chunks.specs.Digits.{digits};
ghost use Rattle.pg_value.specs.declared.value.Value.{Value};
ghost use Rattle.pg_value.specs.Order.{key_cmp};

use pg_chunks::Steps;
use pg_value::Key;
use std::cmp::Ordering;
use std::sync::ledger::Ledger;

/// An item that stands among others in order of a key.
pub trait Placed {
    /// The values of its key.
    ghost place: { Self → List Value };

    /// How a key and the item's are ordered.
    fn order_to(&self, key: &Key) -> Ordering
        ensures { result ≡ key_cmp key.now.values (place self.now) };
}

/// The item of a key among items in order of their keys, found by halving. Each look at an item is a step.
pub fn find<'a, T: Placed, L: Ledger>(
    items: &'a [T],
    key: &Key,
    steps: &mut Steps<L>,
) -> Option<&'a T>
    requires { Ascends T.place key_cmp items.now }
    ensures value { option_copied result ≡ get T.place key_cmp key.now.values items.now }
    ensures counts { steps.old + 1 ≤ steps.new }
    ensures cost { steps.new ≤ steps.old + 1 + digits (length items.now) }
{
    steps.tick();
    let mut low = 0;
    let mut high = items.len();
    'halves: while low < high {
        let middle = low + (high - low) / 2;
        let item = &items[middle];
        steps.tick();
        match item.order_to(key) {
            Ordering::Greater => low = middle + 1,
            Ordering::Less => high = middle,
            Ordering::Equal => return Some(item),
        }
    }
    None
}
