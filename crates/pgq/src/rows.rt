//! How the writes of a statement are put among the rows of their table.
ghost use Rattle.std.specs.Prelude.{◌≡◌, [], ◌∷◌, ◌++◌, cond, is_some, IsTrue, IsFalse, IfOk, OnOk};
ghost use Rattle.std.specs.declared.option.Option.TheVariants.{Some};
ghost use Rattle.pg_keyed.specs.Keyed.{Ascends, Each};
ghost use Rattle.pg_value.specs.Order.{key_cmp};
ghost use Rattle.pg_value.specs.Log.{row_given};
ghost use Rattle.pg_value.specs.TablesLaws.{key_of, key_named, put_in};
ghost use Rattle.pg_value.specs.Writes.{named, write_at};
ghost use Rattle.pgq.specs.Commits.{HasRow, IsGone, IsTo, AreAlike};

use pg_chunks::Chunks;
use pg_value::{Stored, TableNo, Write, Writes, copy_key, copy_row};
use std::alloc::{AllocError, Global};

/// Puts the rows of writes among the rows of their table, by their keys: a row of the same key is replaced. A key behind all
/// others is found at once, and any other by halving. After want of memory some of them are put and the others are not.
fn put_rows(alloc: Global, rows: &mut Chunks<Stored>, writes: &Writes) -> Result<(), AllocError>
    requires ascends { Ascends key_of key_cmp rows.old }
    requires writes { Ascends key_named key_cmp writes.now.list }
    requires present { Each HasRow writes.now.list }
    ensures { OnOk result (rows.new ≡ put_in rows.old writes.now.list) }
{
    for at in 0..writes.len() {
        match put_row(alloc, rows, writes.at(at)) {
            Ok(()) => {}
            Err(failed) => return Err(failed),
        }
    }
    Ok(())
}

/// Puts one row among the rows of its table, by its key.
fn put_row(alloc: Global, rows: &mut Chunks<Stored>, write: &Write) -> Result<(), AllocError>
    requires { HasRow write.now }
    ensures { OnOk result (rows.new ≡ put_in rows.old (write.now ∷ [])) }
{
    let stored = stored(alloc, write)?;
    rows.put(stored)?;
    Ok(())
}

/// The row that a write gives, beside its key.
fn stored(alloc: Global, write: &Write) -> Result<Stored, AllocError>
    requires { HasRow write.now }
    ensures { IfOk result (λ s. row_given write.now ≡ Some s) }
{
    match &write.row {
        Some(row) => Ok(Stored {
            table: write.table,
            key: copy_key(alloc, &write.key)?,
            row: copy_row(row)?,
        }),
        None => unreachable!(),
    }
}

/// Whether the writes say that their rows are gone, by the first of them.
fn are_gone(writes: &Writes) -> bool
    requires { AreAlike writes.now.list }
    ensures gone { IsTrue result → Each IsGone writes.now.list }
    ensures rows { IsFalse result → Each HasRow writes.now.list }
{
    match writes.get(0) {
        Some(write) => write.row.is_none(),
        None => true,
    }
}

/// Whether one of the writes names the table and key of this one.
fn is_named(writes: &Writes, sought: &Write) -> bool
    ensures { result ≡ is_some (write_at (named sought.now) writes.now.list) }
{
    writes.place_of(sought).is_ok()
}

/// Puts a row behind all others.
fn push_row(rows: &mut Chunks<Stored>, row: Stored) -> Result<(), AllocError>
    requires { Ascends key_of key_cmp (rows.old ++ row ∷ []) }
    ensures { OnOk result (rows.new ≡ rows.old ++ row ∷ []) }
{
    rows.put(row)?;
    Ok(())
}

/// Puts the row of a table behind others that are kept, where no write names it.
fn keep_row(
    alloc: Global,
    kept: &mut Chunks<Stored>,
    table: TableNo,
    stored: &Stored,
    writes: &Writes,
) -> Result<(), AllocError>
    requires table { stored.now.table ≡ table }
    requires behind { Ascends key_of key_cmp (kept.old ++ stored.now ∷ []) }
    ensures { OnOk result (kept.new ≡ cond (is_some (write_at (table.0, key_of stored.now) writes.now.list)) kept.old (kept.old ++ stored.now ∷ [])) }
{
    let key = copy_key(alloc, &stored.key)?;
    let row = copy_row(&stored.row)?;
    let sought = Write {
        table,
        key,
        row: None,
    };
    if is_named(writes, &sought) {
        return Ok(());
    }
    push_row(
        kept,
        Stored {
            table,
            key: sought.key,
            row,
        },
    )
}

/// Takes the rows that writes name out of the rows of their table, in one pass: the others are copied. After want of memory
/// the rows are as before.
fn take_out(
    alloc: Global,
    rows: &mut Chunks<Stored>,
    table: TableNo,
    writes: &Writes,
) -> Result<(), AllocError>
    requires ascends { Ascends key_of key_cmp rows.old }
    requires table { Each (λ s. s.table ≡ table) rows.old }
    requires own { Each (IsTo table) writes.now.list }
    requires gone { Each IsGone writes.now.list }
    ensures { OnOk result (rows.new ≡ put_in rows.old writes.now.list) }
{
    let mut kept = Chunks::new(alloc);
    for at in 0..rows.len() {
        match keep_row(alloc, &mut kept, table, rows.at(at), writes) {
            Ok(()) => {}
            Err(failed) => return Err(failed),
        }
    }
    *rows = kept;
    Ok(())
}

/// Puts writes to a table among its rows: those that give rows replace the row of their key or are added, and those that say
/// that their rows are gone take these out. After want of memory the rows are of no use.
pub fn put_writes(
    alloc: Global,
    rows: &mut Chunks<Stored>,
    table: TableNo,
    writes: &Writes,
) -> Result<(), AllocError>
    requires ascends { Ascends key_of key_cmp rows.old }
    requires table { Each (λ s. s.table ≡ table) rows.old }
    requires writes { Ascends key_named key_cmp writes.now.list }
    requires own { Each (IsTo table) writes.now.list }
    requires alike { AreAlike writes.now.list }
    ensures { OnOk result (rows.new ≡ put_in rows.old writes.now.list) }
{
    if are_gone(writes) {
        take_out(alloc, rows, table, writes)
    } else {
        put_rows(alloc, rows, writes)
    }
}
