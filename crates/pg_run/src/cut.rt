//! The writes of a commit, cut into one list for each table.
ghost use Rattle.std.specs.Prelude.{◌≡◌, [], drop, get_or, length, IfOk};
ghost use Rattle.pg_run.specs.Cuts.{AreCut, AreWithin, joined, leading};

use pg_value::{List, Row, Write, Writes, copy_key, copy_row};
use std::alloc::{AllocError, Global};

/// An equal row, where there is one. The values are shared.
fn copy_some(row: &Option<Row>) -> Result<Option<Row>, AllocError>
    ensures { IfOk result (λ copy. copy ≡ row.now) }
{
    match row {
        Some(row) => Ok(Some(copy_row(row)?)),
        None => Ok(None),
    }
}

/// An equal write, which shares the values of the row. Only want of memory refuses it.
pub fn copy_write(alloc: Global, write: &Write) -> Result<Write, AllocError>
    ensures { IfOk result (λ copy. copy ≡ write.now) }
{
    Ok(Write {
        table: write.table,
        key: copy_key(alloc, &write.key)?,
        row: copy_some(&write.row)?,
    })
}

/// Copies of the writes to a table that stand together from a place on, of as many writes as `end`.
fn table_writes(
    alloc: Global,
    writes: &Writes,
    end: u64,
    table: usize,
    from: u64,
) -> Result<List<Write>, AllocError>
    requires { end ≡ length writes.now.list }
    ensures { IfOk result (λ list. list ≡ leading table (drop from writes.now.list)) }
{
    let mut list = List::new(alloc);
    for at in from..end {
        let write = writes.at(at);
        if write.table.0 as usize != table {
            return Ok(list);
        }
        list.push(copy_write(alloc, write)?)?;
    }
    Ok(list)
}

/// Copies of writes to the first tables, in one list for each of these tables.
pub fn cut(alloc: Global, writes: &Writes, tables: usize) -> Result<Vec<List<Write>>, AllocError>
    requires { AreWithin tables writes.now.list }
    ensures whole { IfOk result (λ lists. joined lists.items ≡ writes.now.list) }
    ensures cut { IfOk result (λ lists. AreCut 0 lists.items) }
{
    let mut lists = Vec::with_capacity(alloc, tables)?;
    let end = writes.len();
    let mut at = 0;
    'tables: for table in 0..tables {
        match table_writes(alloc, writes, end, table, at) {
            Ok(list) => {
                at += list.len() as u64;
                lists.push(list)?;
            }
            Err(failed) => return Err(failed),
        }
    }
    Ok(lists)
}

/// The writes to the table of a number; none beyond the lists.
pub fn writes_of(lists: &[List<Write>], table: usize) -> &[Write]
    ensures { result.now ≡ get_or lists.now table [] }
{
    match lists.get(table) {
        Some(list) => list.as_slice(),
        None => &[],
    }
}
