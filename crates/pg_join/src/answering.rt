//! The answer of a query.
ghost use Rattle.std.specs.Prelude.{◌<◌, ◌≤◌, IfOk};
ghost use Rattle.std.specs.List.{AllZip};
ghost use Rattle.std.specs.List.Sorted.{IsSorted};
ghost use Rattle.pg_value.specs.Orders.{row_order};
ghost use Rattle.pg_meaning.specs.Answers.{Answer};
ghost use Rattle.pg_meaning.specs.Sound.Queries.{IsSoundQuery};
ghost use Rattle.pg_join.specs.Selecting.{IsKept};

use crate::joining::joined;
use crate::rows::rows_of;
use crate::searching::{kept, kept_in_turn};
use pg_meaning::{CheckedQuery, PathBinding, binding_by_path};
use pg_outside::Spawner;
use pg_value::{List, Row, sort_rows};
use pg_view::View;
use std::alloc::{AllocError, Global};

/// The answer of a query, from what is kept of each of its path patterns.
fn answer_from<V: View>(
    alloc: Global,
    view: &V,
    query: &CheckedQuery,
    kept: &[List<PathBinding>],
) -> Result<List<Row>, AllocError>
    requires sound { IsSoundQuery (V.shapes view.now) query.now }
    requires kept { AllZip (IsKept (V.shapes view.now) (V.tables view.now)) query.now.paths kept.now }
    ensures answer { IfOk result (Answer (V.shapes view.now) (V.tables view.now) query.now) }
    ensures sorted { IfOk result (IsSorted row_order) }
{
    binding_by_path();
    let tuples = joined(alloc, query.paths.as_slice(), kept)?;
    let mut rows = rows_of(alloc, view, query, tuples.as_slice())?;
    sort_rows(&mut rows)?;
    Ok(List::from_vec(rows))
}

/// What is kept of each path pattern of a query, by the tasks of a spawner.
fn kept_of_each<V: View, W: Spawner>(
    alloc: Global,
    view: &V,
    query: &CheckedQuery,
    workers: u32,
    spawner: &W,
) -> Result<List<List<PathBinding>>, AllocError>
    requires low { 0 < workers }
    requires high { workers ≤ 16 }
    requires sound { IsSoundQuery (V.shapes view.now) query.now }
    ensures { IfOk result (AllZip (IsKept (V.shapes view.now) (V.tables view.now)) query.now.paths) }
{
    let mut all = List::new(alloc);
    for path in query.paths.as_slice() {
        let kept = kept(alloc, view, path, workers, spawner)?;
        all.push(kept)?;
    }
    Ok(all)
}

/// The same without a spawner.
fn each_in_turn<V: View>(
    alloc: Global,
    view: &V,
    query: &CheckedQuery,
) -> Result<List<List<PathBinding>>, AllocError>
    requires sound { IsSoundQuery (V.shapes view.now) query.now }
    ensures { IfOk result (AllZip (IsKept (V.shapes view.now) (V.tables view.now)) query.now.paths) }
{
    let mut all = List::new(alloc);
    for path in query.paths.as_slice() {
        let kept = kept_in_turn(alloc, view, path)?;
        all.push(kept)?;
    }
    Ok(all)
}

/// The answer of a query over a view, in value order: one row for each joined tuple. The starts of each path pattern are cut
/// into at most `workers` stretches that follow one another, each searched by one task of the spawner. The query is sound for
/// the view's shapes. Only want of memory refuses it, the spawner's too. It returns if the spawner's tasks do.
pub fn answer<V: View, W: Spawner>(
    alloc: Global,
    view: &V,
    query: &CheckedQuery,
    workers: u32,
    spawner: &W,
) -> Result<List<Row>, AllocError>
    requires low { 0 < workers }
    requires high { workers ≤ 16 }
    requires sound { IsSoundQuery (V.shapes view.now) query.now }
    ensures answer { IfOk result (Answer (V.shapes view.now) (V.tables view.now) query.now) }
    ensures sorted { IfOk result (IsSorted row_order) }
{
    let kept = kept_of_each(alloc, view, query, workers, spawner)?;
    answer_from(alloc, view, query, kept.as_slice())
}

/// The same in the caller's thread alone, for callers that have no spawner.
pub fn answer_in_turn<V: View>(
    alloc: Global,
    view: &V,
    query: &CheckedQuery,
) -> Result<List<Row>, AllocError>
    requires sound { IsSoundQuery (V.shapes view.now) query.now }
    ensures answer { IfOk result (Answer (V.shapes view.now) (V.tables view.now) query.now) }
    ensures sorted { IfOk result (IsSorted row_order) }
{
    let kept = each_in_turn(alloc, view, query)?;
    answer_from(alloc, view, query, kept.as_slice())
}
