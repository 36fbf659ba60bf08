//! Searches by halving, which count the items that they read.
ghost use Rattle.std.specs.Prelude.{ℕ, ◌≡◌, ◌+◌, ◌<◌, ◌≤◌, ◌^◌, ◌++◌, length};
ghost use Rattle.pg_keyed.specs.Lists.{Each};
ghost use Rattle.pg_keyed.specs.Keyed.{Ascends, Sought, rank};
ghost use Rattle.pg_chunks.specs.Digits.{digits};
ghost use Rattle.pg_chunks.specs.Parts.{joined, before_part, Starts, Fills, EndsBefore, shift, place, IsKept};

use crate::part::Chunk;
use crate::{Keyed, Probe, Steps};
use std::cmp::Ordering;
use std::sync::ledger::Ledger;

/// Where the item of a key stands among items in order, or, as an `Err`, where it would stand.
pub fn search<T: Keyed, P: Probe<T>, L: Ledger>(
    items: &[T],
    key: &P,
    steps: &mut Steps<L>,
) -> Result<usize, usize>
    requires { Ascends T.key_of T.key_cmp items.now }
    ensures value { Sought T.key_of T.key_cmp (P.sought key.now) items.now result }
    ensures cost { steps.new ≤ steps.old + digits (length items.now) }
    ensures counts { steps.old ≤ steps.new }
    ensures some { 0 < length items.now → steps.old + 1 ≤ steps.new }
{
    let mut low = 0;
    let mut high = items.len();
    while low < high {
        let middle = low + (high - low) / 2;
        steps.tick();
        match key.order(&items[middle]) {
            Ordering::Less => low = middle + 1,
            Ordering::Equal => return Ok(middle),
            Ordering::Greater => high = middle,
        }
    }
    Err(low)
}

/// Whether the last item of a part stands before a key.
fn ends_before<T: Keyed, P: Probe<T>>(chunk: &Chunk<T>, key: &P) -> bool
    requires { 0 < length chunk.now.items.items }
    ensures { EndsBefore T.key_of T.key_cmp (P.sought key.now) chunk.now.items.items result }
{
    let last = &chunk.items[chunk.items.len() - 1];
    matches!(key.order(last), Ordering::Less)
}

/// The first part that has an item which does not stand before the key; the number of parts where there is none.
pub fn part_of<T: Keyed, P: Probe<T>, L: Ledger>(
    full: &[Chunk<T>],
    key: &P,
    steps: &mut Steps<L>,
) -> usize
    requires fills { Each Fills full.now }
    requires ascends { Ascends T.key_of T.key_cmp (joined full.now) }
    ensures within { result ≤ length full.now }
    ensures low { before_part result full.now ≤ rank T.key_of T.key_cmp (P.sought key.now) (joined full.now) }
    ensures high { result < length full.now → rank T.key_of T.key_cmp (P.sought key.now) (joined full.now) < before_part (result + 1) full.now }
    ensures cost { steps.new ≤ steps.old + digits (length full.now) }
    ensures counts { steps.old ≤ steps.new }
    ensures some { 0 < length full.now → steps.old + 1 ≤ steps.new }
{
    let mut low = 0;
    let mut high = full.len();
    while low < high {
        let middle = low + (high - low) / 2;
        steps.tick();
        if ends_before(&full[middle], key) {
            low = middle + 1;
        } else {
            high = middle;
        }
    }
    low
}

/// A place in a part, as one in the list of which so many items stand before the part.
pub fn behind(start: usize, found: Result<usize, usize>) -> Result<usize, usize>
    requires { start + place found ≤ 2 ^ 63 }
    ensures { result ≡ shift start found }
{
    match found {
        Ok(at) => Ok(start + at),
        Err(at) => Err(start + at),
    }
}

/// Where the item of a key stands, or would stand, among the items of parts, of which this is the first that has an item which
/// does not stand before the key.
pub fn seek_part<T: Keyed, P: Probe<T>, L: Ledger>(
    full: &[Chunk<T>],
    part: usize,
    key: &P,
    steps: &mut Steps<L>,
) -> Result<usize, usize>
    requires starts { Starts 0 full.now }
    requires fills { Each Fills full.now }
    requires ascends { Ascends T.key_of T.key_cmp (joined full.now) }
    requires bound { length (joined full.now) ≤ 2 ^ 62 }
    requires within { part < length full.now }
    requires low { before_part part full.now ≤ rank T.key_of T.key_cmp (P.sought key.now) (joined full.now) }
    requires high { rank T.key_of T.key_cmp (P.sought key.now) (joined full.now) < before_part (part + 1) full.now }
    ensures value { Sought T.key_of T.key_cmp (P.sought key.now) (joined full.now) result }
    ensures cost { steps.new ≤ steps.old + 7 }
    ensures counts { steps.old ≤ steps.new }
{
    let chunk = &full[part];
    behind(chunk.start, search(chunk.items.as_slice(), key, steps))
}

/// Where the item of a key stands, or would stand, among the items of parts and those of a last part behind them.
pub fn seek_in<T: Keyed, P: Probe<T>, L: Ledger>(
    full: &[Chunk<T>],
    before: usize,
    last: &[T],
    key: &P,
    steps: &mut Steps<L>,
) -> Result<usize, usize>
    requires kept { IsKept full.now before last.now }
    requires ascends { Ascends T.key_of T.key_cmp (joined full.now ++ last.now) }
    ensures value { Sought T.key_of T.key_cmp (P.sought key.now) (joined full.now ++ last.now) result }
    ensures cost { steps.new ≤ steps.old + 1 + digits (length (joined full.now ++ last.now)) }
    ensures counts { steps.old ≤ steps.new }
    ensures some { 0 < length (joined full.now ++ last.now) → steps.old + 1 ≤ steps.new }
{
    let part = part_of(full, key, steps);
    if part < full.len() {
        seek_part(full, part, key, steps)
    } else {
        behind(before, search(last, key, steps))
    }
}
