//! Parts of a long list, and what is done to one of them.
ghost use Rattle.std.specs.Prelude.{ℕ, ◌≡◌, ◌+◌, ◌<◌, ◌≤◌, ◌^◌, ◌++◌, drop, length, insert, slice_get, slice_set, OnOk, OnErr, IfOk, IfErr, get_or};
ghost use Rattle.std.specs.Option.{option_copied};
ghost use Rattle.pg_keyed.specs.Lists.{Each};
ghost use Rattle.pg_chunks.specs.Parts.{joined, before_part, Starts, Fills, raised_from, StartsWithin, IsPartOf, Grown, IsRun, Set, Same};

use std::alloc::AllocFailed;

/// The most items that a part has.
pub const MOST: usize = 127;

/// How many items stand in each half of a part that is split.
const HALF: usize = 64;

/// A part of a list: some of its items, which stand together, and how many stand before them.
#[derive(Drop)]
pub struct Chunk<T> {
    pub start: usize,
    pub items: Vec<T>,
}

/// The part that holds the item at a place.
pub fn part_at<T>(full: &[Chunk<T>], at: usize) -> usize
    requires starts { Starts 0 full.now }
    requires within { at < length (joined full.now) }
    ensures { IsPartOf result at full.now }
{
    let mut low = 0;
    let mut high = full.len();
    while high - low > 1 {
        let middle = low + (high - low) / 2;
        if full[middle].start <= at {
            low = middle;
        } else {
            high = middle;
        }
    }
    low
}

/// Counts one more item before each part from a place on.
pub fn raise<T>(chunks: &mut [Chunk<T>], from: usize)
    requires from { from ≤ length chunks.old }
    requires bound { StartsWithin (2 ^ 62) chunks.old }
    ensures { chunks.new ≡ raised_from from chunks.old }
{
    for at in from..chunks.len() {
        chunks[at].start += 1;
    }
}

/// The same of the parts of a vector.
fn raise_all<T>(full: &mut Vec<Chunk<T>>, from: usize)
    requires from { from ≤ length full.old.items }
    requires bound { StartsWithin (2 ^ 62) full.old.items }
    ensures { full.new.items ≡ raised_from from full.old.items }
{
    raise(full.as_mut_slice(), from)
}

/// Puts an item among those of a full part, which is left with the first half; the other is handed out. After want of memory
/// the items are as before, and the item is handed back.
pub fn insert_split<T: Drop>(
    items: &mut Vec<T>,
    at: usize,
    item: T,
) -> Result<Vec<T>, AllocFailed<T>>
    requires full { length items.old.items ≡ 127 }
    requires within { at ≤ 127 }
    ensures ok { IfOk result (λ rest. items.new.items ++ rest.items ≡ insert items.old.items at item) }
    ensures half { OnOk result (length items.new.items ≡ 64) }
    ensures rest { IfOk result (λ rest. length rest.items ≡ 64) }
    ensures err { OnErr result (items.new.items ≡ items.old.items) }
    ensures back { IfErr result (λ failed. failed.value ≡ item) }
{
    match items.insert(at, item) {
        Ok(()) => match items.split_off(HALF) {
            Ok(rest) => Ok(rest),
            Err(_) => Err(AllocFailed {
                value: items.remove(at),
            }),
        },
        Err(failed) => Err(failed),
    }
}

/// Puts an item at a place, in its part, which has room. After want of memory the list is as before, and the item is handed
/// back.
fn insert_roomy<T: Drop>(
    full: &mut Vec<Chunk<T>>,
    part: usize,
    at: usize,
    item: T,
) -> Result<(), AllocFailed<T>>
    requires part { IsPartOf part at full.old.items }
    requires room { before_part (part + 1) full.old.items < before_part part full.old.items + 127 }
    requires bound { length (joined full.old.items) ≤ 2 ^ 62 }
    requires starts { Starts 0 full.old.items }
    requires fills { Each Fills full.old.items }
    ensures ok { OnOk result (Grown full.old.items at item full.new.items) }
    ensures err { OnErr result (Same full.old.items full.new.items) }
    ensures back { IfErr result (λ failed. failed.value ≡ item) }
{
    let chunk = &mut full[part];
    match chunk.items.insert(at - chunk.start, item) {
        Ok(()) => {
            raise_all(full, part + 1);
            Ok(())
        }
        Err(failed) => Err(failed),
    }
}

/// Puts an item at a place, in its part, which is full and becomes two. After want of memory the list is as before, and the
/// item is handed back.
fn insert_full<T: Drop>(
    full: &mut Vec<Chunk<T>>,
    part: usize,
    at: usize,
    item: T,
) -> Result<(), AllocFailed<T>>
    requires part { IsPartOf part at full.old.items }
    requires no_room { before_part (part + 1) full.old.items ≡ before_part part full.old.items + 127 }
    requires bound { length (joined full.old.items) ≤ 2 ^ 62 }
    requires starts { Starts 0 full.old.items }
    requires fills { Each Fills full.old.items }
    ensures ok { OnOk result (Grown full.old.items at item full.new.items) }
    ensures err { OnErr result (Same full.old.items full.new.items) }
    ensures back { IfErr result (λ failed. failed.value ≡ item) }
{
    if full.reserve(1).is_err() {
        return Err(AllocFailed { value: item });
    }
    let chunk = &mut full[part];
    let start = chunk.start;
    match insert_split(&mut chunk.items, at - start, item) {
        Ok(rest) => {
            let behind = Chunk {
                start: start + HALF,
                items: rest,
            };
            match full.insert(part + 1, behind) {
                Ok(()) => {
                    raise_all(full, part + 2);
                    Ok(())
                }
                Err(_) => unreachable!(),
            }
        }
        Err(failed) => Err(failed),
    }
}

/// Puts an item at a place before which no part ends. After want of memory the list is as before, and the item is handed back.
pub fn insert_at<T: Drop>(
    full: &mut Vec<Chunk<T>>,
    at: usize,
    item: T,
) -> Result<(), AllocFailed<T>>
    requires within { at < length (joined full.old.items) }
    requires bound { length (joined full.old.items) ≤ 2 ^ 62 }
    requires starts { Starts 0 full.old.items }
    requires fills { Each Fills full.old.items }
    ensures ok { OnOk result (Grown full.old.items at item full.new.items) }
    ensures err { OnErr result (Same full.old.items full.new.items) }
    ensures back { IfErr result (λ failed. failed.value ≡ item) }
{
    let part = part_at(full.as_slice(), at);
    if full[part].items.len() < MOST {
        insert_roomy(full, part, at, item)
    } else {
        insert_full(full, part, at, item)
    }
}

/// Replaces the item at a place.
pub fn set_at<T: Drop>(full: &mut Vec<Chunk<T>>, at: usize, item: T)
    requires within { at < length (joined full.old.items) }
    requires starts { Starts 0 full.old.items }
    requires fills { Each Fills full.old.items }
    ensures { Set full.old.items at item full.new.items }
{
    let part = part_at(full.as_slice(), at);
    let chunk = &mut full[part];
    let within = at - chunk.start;
    chunk.items[within] = item;
}

/// The item at a place among items.
pub fn item_at<T>(items: &[T], at: usize) -> Option<&T>
    ensures { option_copied result ≡ slice_get items.now at }
{
    items.get(at)
}

/// The item at a place of the parts.
pub fn get_at<T>(full: &[Chunk<T>], at: usize) -> Option<&T>
    requires starts { Starts 0 full.now }
    requires within { at < length (joined full.now) }
    ensures { option_copied result ≡ slice_get (joined full.now) at }
{
    let chunk = &full[part_at(full, at)];
    item_at(chunk.items.as_slice(), at - chunk.start)
}

/// Items from a place on.
pub fn items_from<T>(items: &[T], at: usize) -> &[T]
    requires { at ≤ length items.now }
    ensures { result.now ≡ drop at items.now }
{
    &items[at..]
}

/// The items of the part that holds a place, from there on.
pub fn run_at<T>(full: &[Chunk<T>], at: usize) -> &[T]
    requires starts { Starts 0 full.now }
    requires within { at < length (joined full.now) }
    ensures { IsRun at (joined full.now) result.now }
{
    let chunk = &full[part_at(full, at)];
    items_from(chunk.items.as_slice(), at - chunk.start)
}
