//! Searches by halving, which count what they read.
ghost use Rattle.std.specs.Prelude.{◌≡◌, ◌+◌, ◌-◌, ◌<◌, ◌≤◌, ◌^◌, length};
ghost use Rattle.pg_keyed.specs.Lists.{Each};
ghost use Rattle.pg_keyed.specs.Keyed.{Ascends, Sought};
ghost use Rattle.pg_chunks.specs.Digits.{digits};
ghost use Rattle.pg_chunks.specs.Parts.{shift, place};
ghost use Rattle.pg_shared.specs.Parts.{joined, heads, Leads, IsKept};

use crate::part::Part;
use pg_chunks::{Keyed, Probe, Steps};
use std::cmp::Ordering;
use std::sync::ledger::Ledger;

/// Where the item of a key stands among items in order, or, as an `Err`, where it would stand.
fn search<T: Keyed, P: Probe<T>, L: Ledger>(
    items: &[T],
    key: &P,
    steps: &mut Steps<L>,
) -> Result<usize, usize>
    requires { Ascends T.key_of T.key_cmp items.now }
    ensures value { Sought T.key_of T.key_cmp (P.sought key.now) items.now result }
    ensures cost { steps.new ≤ steps.old + digits (length items.now) }
    ensures counts { steps.old ≤ steps.new }
{
    let mut low = 0;
    let mut high = items.len();
    while low < high {
        let middle = low + (high - low) / 2;
        steps.tick();
        match key.order(&items[middle]) {
            Ordering::Less => low = middle + 1,
            Ordering::Equal => return Ok(middle),
            Ordering::Greater => high = middle,
        }
    }
    Err(low)
}

/// How many chunks, from the front on, have a first item that is not above a key.
fn heads<T: Keyed, P: Probe<T>, L: Ledger>(
    parts: &[Part<T>],
    key: &P,
    steps: &mut Steps<L>,
) -> usize
    requires leads { Each Leads parts.now }
    requires ascends { Ascends T.key_of T.key_cmp (joined parts.now) }
    ensures value { result ≡ heads T.key_of T.key_cmp (P.sought key.now) parts.now }
    ensures cost { steps.new ≤ steps.old + digits (length parts.now) }
    ensures counts { steps.old ≤ steps.new }
    ensures some { 0 < length parts.now → steps.old + 1 ≤ steps.new }
{
    let mut low = 0;
    let mut high = parts.len();
    while low < high {
        let middle = low + (high - low) / 2;
        steps.tick();
        match key.order(&parts[middle].first) {
            Ordering::Greater => high = middle,
            _ => low = middle + 1,
        }
    }
    low
}

/// A place in a chunk, as one in the list of which so many items stand before the chunk.
fn behind(before: usize, found: Result<usize, usize>) -> Result<usize, usize>
    requires { before + place found < 2 ^ 63 }
    ensures { result ≡ shift before found }
{
    match found {
        Ok(at) => Ok(before + at),
        Err(at) => Err(before + at),
    }
}

/// Where the item of a key stands among the items of chunks, or, as an `Err`, where it would stand. The chunk is found by the
/// first items of all, and the item within it.
pub fn seek<T: Keyed, P: Probe<T>, L: Ledger>(
    parts: &[Part<T>],
    key: &P,
    steps: &mut Steps<L>,
) -> Result<usize, usize>
    requires kept { IsKept parts.now }
    requires ascends { Ascends T.key_of T.key_cmp (joined parts.now) }
    ensures value { Sought T.key_of T.key_cmp (P.sought key.now) (joined parts.now) result }
    ensures cost { steps.new ≤ steps.old + 1 + digits (length (joined parts.now)) }
    ensures counts { steps.old ≤ steps.new }
    ensures some { 0 < length (joined parts.now) → steps.old + 1 ≤ steps.new }
{
    let count = heads(parts, key, steps);
    if count == 0 {
        return Err(0);
    }
    let part = &parts[count - 1];
    behind(part.before, search(part.items.as_slice(), key, steps))
}
