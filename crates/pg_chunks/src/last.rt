//! The last part of a long list, which takes what is put behind the others.
ghost use Rattle.std.specs.Prelude.{ℕ, ◌≡◌, ◌+◌, ◌<◌, ◌≤◌, ◌^◌, ◌++◌, ◌∷◌, [], length, insert, OnOk, OnErr, IfOk, IfErr};
ghost use Rattle.std.specs.Vec.{vec_len, vec_capacity};
ghost use Rattle.pg_chunks.specs.Parts.{joined, IsKept};

use crate::part::{Chunk, MOST, insert_split};
use std::alloc::AllocFailed;
use std::mem;

/// A new last part, of one item, behind a full one. After want of memory the item is handed back.
fn begin<T: Drop>(last: &mut Vec<T>, item: T) -> Result<Vec<T>, AllocFailed<T>>
    requires full { length last.old.items ≡ 127 }
    ensures same { last.new.items ≡ last.old.items }
    ensures ok { IfOk result (λ next. next.items ≡ item ∷ []) }
    ensures back { IfErr result (λ failed. failed.value ≡ item) }
{
    match last.split_off(MOST) {
        Ok(mut next) => {
            if next.reserve_exact(MOST).is_err() {
                return Err(AllocFailed { value: item });
            }
            match next.push(item) {
                Ok(()) => Ok(next),
                Err(failed) => Err(failed),
            }
        }
        Err(_) => Err(AllocFailed { value: item }),
    }
}

/// What stands behind a full last part once an item is put in at a place of it: behind all its items a new part of one item,
/// and elsewhere a half. After want of memory the part is as before, and the item is handed back.
fn overflow<T: Drop>(last: &mut Vec<T>, at: usize, item: T) -> Result<Vec<T>, AllocFailed<T>>
    requires full { length last.old.items ≡ 127 }
    requires within { at ≤ 127 }
    ensures ok { IfOk result (λ rest. last.new.items ++ rest.items ≡ insert last.old.items at item) }
    ensures low { 64 ≤ length last.new.items }
    ensures high { length last.new.items < 128 }
    ensures rest { IfOk result (λ rest. length rest.items < 128) }
    ensures err { OnErr result (last.new.items ≡ last.old.items) }
    ensures back { IfErr result (λ failed. failed.value ≡ item) }
{
    if at == MOST {
        begin(last, item)
    } else {
        insert_split(last, at, item)
    }
}

/// Makes the last part one of the others, and `rest` the last.
fn close<T: Drop>(full: &mut Vec<Chunk<T>>, before: &mut usize, last: &mut Vec<T>, rest: Vec<T>)
    requires room { vec_len full.old < vec_capacity full.old }
    requires kept { IsKept full.old.items before.old last.old.items }
    requires bound { before.old + 128 ≤ 2 ^ 62 }
    requires low { 64 ≤ length last.old.items }
    requires rest { length rest.items < 128 }
    ensures kept { IsKept full.new.items before.new last.new.items }
    ensures whole { joined full.new.items ++ last.new.items ≡ joined full.old.items ++ (last.old.items ++ rest.items) }
{
    let items = mem::replace(last, rest);
    let count = items.len();
    full.push_reserved(Chunk {
        start: *before,
        items,
    });
    *before += count;
}

/// Puts an item in at a place of the last part, which has room. A first item gets room for itself alone.
fn insert_short<T: Drop>(last: &mut Vec<T>, at: usize, item: T) -> Result<(), AllocFailed<T>>
    requires within { at ≤ length last.old.items }
    ensures ok { OnOk result (last.new.items ≡ insert last.old.items at item) }
    ensures err { OnErr result (last.new.items ≡ last.old.items) }
    ensures back { IfErr result (λ failed. failed.value ≡ item) }
{
    if last.is_empty() && last.reserve_exact(1).is_err() {
        return Err(AllocFailed { value: item });
    }
    last.insert(at, item)
}

/// Puts an item in at a place of the last part. After want of memory the list is as before, and the item is handed back.
pub fn insert_last<T: Drop>(
    full: &mut Vec<Chunk<T>>,
    before: &mut usize,
    last: &mut Vec<T>,
    at: usize,
    item: T,
) -> Result<(), AllocFailed<T>>
    requires kept { IsKept full.old.items before.old last.old.items }
    requires bound { before.old + 128 ≤ 2 ^ 62 }
    requires within { at ≤ length last.old.items }
    ensures kept { IsKept full.new.items before.new last.new.items }
    ensures ok { OnOk result (joined full.new.items ++ last.new.items ≡ joined full.old.items ++ insert last.old.items at item) }
    ensures err { OnErr result (joined full.new.items ++ last.new.items ≡ joined full.old.items ++ last.old.items) }
    ensures back { IfErr result (λ failed. failed.value ≡ item) }
{
    if last.len() < MOST {
        return insert_short(last, at, item);
    }
    if full.reserve(1).is_err() {
        return Err(AllocFailed { value: item });
    }
    match overflow(last, at, item) {
        Ok(rest) => {
            close(full, before, last, rest);
            Ok(())
        }
        Err(failed) => Err(failed),
    }
}
