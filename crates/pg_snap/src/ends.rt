//! What the rows of an edge table name as their ends.
ghost use Rattle.std.specs.Prelude.{◌≡◌, [], ◌++◌, IfOk, OnOk};
ghost use Rattle.std.specs.List.{cons_option};
ghost use Rattle.pg_view.specs.Lists.{rows_in};
ghost use Rattle.pg_view.specs.RowEnds as spec;

use pg_adj::EdgeEnds;
use pg_rows::RowArrays;
use pg_run::row_ends;
use pg_shared::SharedChunks;
use pg_value::{EdgeShape, List, Stored};
use std::alloc::{AllocError, Global};

/// What a row of an edge table names as its ends; None where it names no two.
pub fn stored_ends(
    alloc: Global,
    shape: &EdgeShape,
    stored: &Stored,
) -> Result<Option<EdgeEnds>, AllocError>
    ensures { IfOk result (λ ends. ends ≡ spec.ends_in shape.now stored.now) }
{
    row_ends(alloc, shape, &stored.key, &stored.row)
}

/// Appends the ends of a row, where it names them.
fn push_some(all: &mut List<EdgeEnds>, ends: Option<EdgeEnds>) -> Result<(), AllocError>
    ensures { OnOk result (all.new ≡ all.old ++ cons_option ends []) }
{
    if let Some(ends) = ends {
        all.push(ends)?;
    }
    Ok(())
}

/// Appends the ends that some rows of an edge table name, in order. After want of memory some of them are appended.
fn push_ends(
    alloc: Global,
    shape: &EdgeShape,
    rows: &[Stored],
    all: &mut List<EdgeEnds>,
) -> Result<(), AllocError>
    ensures { OnOk result (all.new ≡ all.old ++ spec.all_ends shape.now rows.now) }
{
    for stored in rows {
        let ends = stored_ends(alloc, shape, stored)?;
        push_some(all, ends)?;
    }
    Ok(())
}

/// The rows of an edge table that name both ends, in order. They are read chunk by chunk.
fn ends_among(
    alloc: Global,
    shape: &EdgeShape,
    rows: &SharedChunks<Stored>,
) -> Result<List<EdgeEnds>, AllocError>
    ensures { IfOk result (λ all. all ≡ spec.all_ends shape.now rows.now) }
{
    let mut all = List::new(alloc);
    let mut at = 0;
    'runs: while at < rows.len() {
        let run = rows.run(at);
        match push_ends(alloc, shape, run, &mut all) {
            Ok(()) => at += run.len(),
            Err(failed) => return Err(failed),
        }
    }
    Ok(all)
}

/// The same, of the rows in the list of the edge table.
pub fn table_ends(
    alloc: Global,
    shape: &EdgeShape,
    rows: &RowArrays,
) -> Result<List<EdgeEnds>, AllocError>
    ensures { IfOk result (λ all. all ≡ spec.all_ends shape.now (rows_in rows.now shape.now.table)) }
{
    match rows.rows(shape.table) {
        Some(held) => ends_among(alloc, shape, held),
        None => Ok(List::new(alloc)),
    }
}
