//! The rows of one table, in chunks that are shared.
ghost use Rattle.std.specs.Prelude.{◌≡◌, ◌++◌, [], get_or, IfOk, OnOk};
ghost use Rattle.std.specs.Option.{option_copied, unwrap_or};
ghost use Rattle.pg_keyed.specs.Keyed.{Ascends};
ghost use Rattle.pg_value.specs.Order.{key_cmp};
ghost use Rattle.pg_value.specs.TablesLaws.{key_named, put_in};

use pg_chunks::Chunks;
use pg_shared::{Copied, SharedChunks};
use pg_value::{List, Stored, Write};
use std::alloc::{AllocError, Global};

/// Appends copies of rows. Their values are shared. After want of memory some of them are appended.
fn push_copies(alloc: Global, rows: &[Stored], all: &mut Vec<Stored>) -> Result<(), AllocError>
    ensures { OnOk result (all.new.items ≡ all.old.items ++ rows.now) }
{
    'rows: for row in rows {
        all.push(row.copied(alloc)?)?;
    }
    Ok(())
}

/// Copies of rows, in order. They are read chunk by chunk.
fn copies(alloc: Global, rows: &Chunks<Stored>) -> Result<Vec<Stored>, AllocError>
    ensures { IfOk result (λ all. all.items ≡ rows.now) }
{
    let mut all = Vec::with_capacity(alloc, rows.len())?;
    let mut at = 0;
    'runs: while at < rows.len() {
        let run = rows.run(at);
        match push_copies(alloc, run, &mut all) {
            Ok(()) => at += run.len(),
            Err(failed) => return Err(failed),
        }
    }
    Ok(all)
}

/// Rows in chunks that are shared.
pub fn shared(alloc: Global, rows: &Chunks<Stored>) -> Result<SharedChunks<Stored>, AllocError>
    ensures { IfOk result (λ shared. shared ≡ rows.now) }
{
    let _ = rows.len();
    let all = copies(alloc, rows)?;
    SharedChunks::build(alloc, all)
}

/// The rows of a table; None for one beyond the lists, which has none.
pub fn rows_of(tables: &[SharedChunks<Stored>], table: usize) -> Option<&SharedChunks<Stored>>
    ensures { unwrap_or (option_copied result) [] ≡ get_or tables.now table [] }
{
    match tables.get(table) {
        Some(rows) => Some(rows),
        None => None,
    }
}

/// The writes to a table; none beyond the lists.
pub fn writes_of(lists: &[List<Write>], table: usize) -> &[Write]
    ensures { result.now ≡ get_or lists.now table [] }
{
    match lists.get(table) {
        Some(list) => list.as_slice(),
        None => &[],
    }
}

/// The rows of a table under writes to it.
pub fn rows_under(
    alloc: Global,
    tables: &[SharedChunks<Stored>],
    table: usize,
    writes: &[Write],
) -> Result<SharedChunks<Stored>, AllocError>
    requires { Ascends key_named key_cmp writes.now }
    ensures { IfOk result (λ rows. rows ≡ put_in (get_or tables.now table []) writes.now) }
{
    match rows_of(tables, table) {
        Some(rows) => rows.merged(alloc, writes),
        None => SharedChunks::build(alloc, Vec::new(alloc))?.merged(alloc, writes),
    }
}
