//! Two runs' writes as one.
ghost use Rattle.std.specs.Prelude.{◌≡◌, ◌≤◌, ℕ, [], length, get_or, IfOk};
ghost use Rattle.std.specs.Option.{option_copied};
ghost use Rattle.pg_value.specs.Writes.{merge};
ghost use Rattle.pg_run.specs.Cuts.{AreCut, joined, woven, Stepped};

use crate::cut::{copy_write, writes_of};
use pg_value::{List, Write, order_keys};
use std::alloc::{AllocError, Global};
use std::cmp::Ordering;

/// The next write of two lists that are walked together, and what is left of both.
fn step<'a>(older: &mut &'a [Write], newer: &mut &'a [Write]) -> Option<&'a Write>
    ensures { Stepped older.old.now newer.old.now older.new.now newer.new.now (option_copied result) }
{
    match *older {
        [] => match *newer {
            [] => None,
            [y, ys @ ..] => {
                *newer = ys;
                Some(y)
            }
        },
        [x, xs @ ..] => match *newer {
            [] => {
                *older = xs;
                Some(x)
            }
            [y, ys @ ..] => match order_keys(&x.key, &y.key) {
                Ordering::Less => {
                    *older = xs;
                    Some(x)
                }
                Ordering::Equal => {
                    *older = xs;
                    *newer = ys;
                    Some(y)
                }
                Ordering::Greater => {
                    *newer = ys;
                    Some(y)
                }
            },
        },
    }
}

/// The writes of two lists to one table: where both have a key, the newer's.
fn merged(alloc: Global, older: &[Write], newer: &[Write]) -> Result<List<Write>, AllocError>
    ensures { IfOk result (λ out. out ≡ woven older.now newer.now) }
{
    let mut left = older;
    let mut right = newer;
    let mut out = List::new(alloc);
    while let Some(write) = step(&mut left, &mut right) {
        out.push(copy_write(alloc, write)?)?;
    }
    Ok(out)
}

/// The greater of two numbers of tables.
fn as_many(older: &[List<Write>], newer: &[List<Write>]) -> usize
    ensures older { length older.now ≤ result }
    ensures newer { length newer.now ≤ result }
{
    if older.len() < newer.len() {
        newer.len()
    } else {
        older.len()
    }
}

/// The writes of both in one list for each table.
fn merged_lists(
    alloc: Global,
    older: &[List<Write>],
    newer: &[List<Write>],
) -> Result<Vec<List<Write>>, AllocError>
    ensures { IfOk result (λ lists. (t : ℕ) → get_or lists.items t [] ≡ woven (get_or older.now t []) (get_or newer.now t [])) }
{
    let tables = as_many(older, newer);
    let mut lists = Vec::with_capacity(alloc, tables)?;
    for table in 0..tables {
        let list = merged(alloc, writes_of(older, table), writes_of(newer, table))?;
        lists.push(list)?;
    }
    Ok(lists)
}

/// The writes of both, each in one list for each table: where both have a place, the newer's.
pub fn merged_writes(
    alloc: Global,
    older: &[List<Write>],
    newer: &[List<Write>],
) -> Result<Vec<List<Write>>, AllocError>
    requires older { AreCut 0 older.now }
    requires newer { AreCut 0 newer.now }
    ensures whole { IfOk result (λ lists. joined lists.items ≡ merge (joined older.now) (joined newer.now)) }
    ensures cut { IfOk result (λ lists. AreCut 0 lists.items) }
{
    merged_lists(alloc, older, newer)
}
