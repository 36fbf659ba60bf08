//! The counted search for the write of a key.
ghost use Rattle.std.specs.Prelude.{◌≡◌, ◌≤◌, ◌+◌, length};
ghost use Rattle.std.specs.Option.{option_copied};
ghost use Rattle.pg_keyed.specs.Keyed.{Ascends, get};
ghost use Rattle.pg_chunks.specs.Digits.{digits};
ghost use Rattle.pg_value.specs.Order.{key_cmp};
ghost use Rattle.pg_value.specs.TablesLaws.{key_named};

use pg_value::{Key, Steps, Write, order_keys};
use std::cmp::Ordering;
use std::sync::ledger::Ledger;

/// The write of a key among writes to one table, found by halving. Each look at a write is a step.
fn halved<'a, L: Ledger>(writes: &'a [Write], key: &Key, steps: &mut Steps<L>) -> Option<&'a Write>
    requires { Ascends key_named key_cmp writes.now }
    ensures value { option_copied result ≡ get key_named key_cmp key.now.values writes.now }
    ensures counts { steps.old ≤ steps.new }
    ensures cost { steps.new ≤ steps.old + digits (length writes.now) }
{
    let mut low = 0;
    let mut high = writes.len();
    'halves: while low < high {
        let middle = low + (high - low) / 2;
        let write = &writes[middle];
        steps.tick();
        match order_keys(key, &write.key) {
            Ordering::Greater => low = middle + 1,
            Ordering::Less => high = middle,
            Ordering::Equal => return Some(write),
        }
    }
    None
}

/// The write of a key among writes to one table. A key before the first is seen at the first look. Where there is no write it
/// is one step.
pub fn write_of<'a, L: Ledger>(
    writes: &'a [Write],
    key: &Key,
    steps: &mut Steps<L>,
) -> Option<&'a Write>
    requires { Ascends key_named key_cmp writes.now }
    ensures value { option_copied result ≡ get key_named key_cmp key.now.values writes.now }
    ensures counts { steps.old + 1 ≤ steps.new }
    ensures cost { steps.new ≤ steps.old + 1 + digits (length writes.now) }
{
    steps.tick();
    match writes {
        [] => None,
        [first, rest @ ..] => match order_keys(key, &first.key) {
            Ordering::Less => None,
            Ordering::Equal => Some(first),
            Ordering::Greater => halved(rest, key, steps),
        },
    }
}
