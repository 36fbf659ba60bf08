//! The writes of runs to one table, as one list.
ghost use Rattle.std.specs.Prelude.{◌≡◌, [], IfOk};
ghost use Rattle.std.specs.Option.{option_copied};
ghost use Rattle.std.specs.List.{cons_option};
ghost use Rattle.pg_value.specs.TablesLaws.{writes_to};
ghost use Rattle.pg_snap.specs.Scans as spec;
ghost use Rattle.pg_snap.specs.Scans.{writes_of};

use pg_run::Run;
use pg_value::{Shared, TableNo, Write, order_keys};
use std::alloc::{AllocError, Global};
use std::cmp::Ordering;

/// A write of a run.
#[derive(Clone, Copy)]
pub struct Change<'a> {
    pub write: &'a Write,
}

/// The next of two lists of writes that are walked together, and what is left of both.
fn step<'s, 'a>(older: &mut &'s [Change<'a>], newer: &mut &'a [Write]) -> Option<Change<'a>>
    ensures { spec.Stepped (writes_of older.old.now) newer.old.now (writes_of older.new.now) newer.new.now (spec.write_if result) }
{
    match *older {
        [] => match *newer {
            [] => None,
            [y, ys @ ..] => {
                *newer = ys;
                Some(Change { write: y })
            }
        },
        [x, xs @ ..] => match *newer {
            [] => {
                *older = xs;
                Some(*x)
            }
            [y, ys @ ..] => match order_keys(&x.write.key, &y.key) {
                Ordering::Less => {
                    *older = xs;
                    Some(*x)
                }
                Ordering::Equal => {
                    *older = xs;
                    *newer = ys;
                    Some(Change { write: y })
                }
                Ordering::Greater => {
                    *newer = ys;
                    Some(Change { write: y })
                }
            },
        },
    }
}

/// Both lists as one: where both have a key, the newer's write.
fn both<'a>(
    alloc: Global,
    older: &[Change<'a>],
    newer: &'a [Write],
) -> Result<Vec<Change<'a>>, AllocError>
    ensures { IfOk result (λ all. writes_of all.items ≡ spec.both (writes_of older.now) newer.now) }
{
    let mut left = older;
    let mut right = newer;
    let mut all = Vec::new(alloc);
    while let Some(change) = step(&mut left, &mut right) {
        all.push(change)?;
    }
    Ok(all)
}

/// Writes to a table, and behind them those of a run.
fn with_run<'a>(
    alloc: Global,
    run: &'a Run,
    table: TableNo,
    older: Vec<Change<'a>>,
) -> Result<Vec<Change<'a>>, AllocError>
    ensures { IfOk result (λ all. writes_of all.items ≡ spec.both (writes_of older.entry.items) (writes_to table run.now.writes)) }
{
    let newer = run.writes(table);
    if newer.is_empty() {
        return Ok(older);
    }
    both(alloc, older.as_slice(), newer)
}

/// The same with several runs, the oldest first.
pub fn with_runs<'a>(
    alloc: Global,
    runs: &'a [Shared<Run>],
    table: TableNo,
    older: Vec<Change<'a>>,
) -> Result<Vec<Change<'a>>, AllocError>
    ensures { IfOk result (λ all. writes_of all.items ≡ spec.changes_on table (writes_of older.entry.items) runs.now) }
{
    match runs {
        [] => Ok(older),
        [run, more @ ..] => {
            let newer = with_run(alloc, run.get(), table, older)?;
            with_runs(alloc, more, table, newer)
        }
    }
}

/// The same with a transaction's own writes, if there are any.
pub fn with_own<'a>(
    alloc: Global,
    own: Option<&'a Run>,
    table: TableNo,
    older: Vec<Change<'a>>,
) -> Result<Vec<Change<'a>>, AllocError>
    ensures { IfOk result (λ all. writes_of all.items ≡ spec.changes_on table (writes_of older.entry.items) (cons_option (option_copied own.entry) [])) }
{
    match own {
        Some(run) => with_run(alloc, run, table, older),
        None => Ok(older),
    }
}
