//! What a change reads of the tables.
ghost use Rattle.std.specs.Prelude.{◌≡◌, ◌++◌, [], IfOk, OnOk};
ghost use Rattle.std.specs.Option.{option_copied, option_map, unwrap_or};
ghost use Rattle.pg_value.specs.Tables.{Stored as StoredRow, Tables, held_in};
ghost use Rattle.pg_meaning.specs.Reads.{row_at};
ghost use Rattle.pg_view.specs.Lists.{Hold, joined};
ghost use Rattle.pg_write.specs.HeldRows.{all_stored};

use pg_chunks::Chunks;
use pg_value::{Key, Row, Stored, TableNo};
use std::alloc::{AllocError, Global};
use std::marker::Model;

/// A row that a table holds, beside its key. Both are lent by the tables.
#[derive(Clone, Copy)]
pub struct HeldRow<'a> {
    pub table: TableNo,
    pub key: &'a Key,
    pub row: &'a Row,
}

/// The tables of one version, as a change reads them.
pub trait TableRows {
    /// The tables.
    ghost tables: { Self → Tables };

    /// The row of a table with a key, None exactly where there is none.
    fn row(&self, table: TableNo, key: &Key) -> Option<&Row>
        ensures { option_copied result ≡ row_at (tables self.now) table key.now };

    /// All rows of a table, in order of their keys: 24 bytes for each. Only want of memory refuses it.
    fn rows(&self, alloc: Global, table: TableNo) -> Result<Vec<HeldRow<'_>>, AllocError>
        ensures { IfOk result (λ rows. all_stored rows.items ≡ held_in table (tables self.now)) };
}

/// The tables of which each has a list of rows, by its number.
#[derive(Drop)]
pub struct TableLists<'a> {
    lists: &'a [Chunks<Stored>],
}

impl<'a> Model for TableLists<'a> {
    ghost use Rattle.pg_value.specs.Tables.{Tables};
    ghost use Rattle.pg_view.specs.Lists.{Hold, joined};

    ghost Value = { Tables };

    ghost view = { λ t. joined t.lists.now };

    ghost invariant = { λ t. Hold t.lists.now (joined t.lists.now) };
}

impl<'a> TableLists<'a> {
    /// The tables whose rows stand in these lists, one for each table, by its number.
    pub fn new(lists: &'a [Chunks<Stored>]) -> TableLists<'a>
        requires { Hold lists.now (joined lists.now) }
        ensures { result ≡ joined lists.now }
    {
        TableLists { lists }
    }

    /// The rows of a table; None for one beyond the lists, which has none.
    fn list(&self, table: TableNo) -> Option<&Chunks<Stored>>
        ensures { unwrap_or (option_copied result) [] ≡ held_in table self.now }
    {
        self.lists.get(table.0 as usize)
    }
}

/// The row that is stored, where one is.
fn row_in(stored: Option<&Stored>) -> Option<&Row>
    ensures { option_copied result ≡ option_map (λ (s : StoredRow). s.row) (option_copied stored.entry) }
{
    match stored {
        Some(stored) => Some(&stored.row),
        None => None,
    }
}

/// Appends rows that stand together. After want of memory some of them are appended.
fn push_run<'a>(rows: &'a [Stored], out: &mut Vec<HeldRow<'a>>) -> Result<(), AllocError>
    ensures { OnOk result (all_stored out.new.items ≡ all_stored out.old.items ++ rows.now) }
{
    for stored in rows {
        out.push(HeldRow {
            table: stored.table,
            key: &stored.key,
            row: &stored.row,
        })?;
    }
    Ok(())
}

/// All rows of a list, chunk by chunk.
fn rows_among(alloc: Global, rows: &Chunks<Stored>) -> Result<Vec<HeldRow<'_>>, AllocError>
    ensures { IfOk result (λ out. all_stored out.items ≡ rows.now) }
{
    let mut out = Vec::with_capacity(alloc, rows.len())?;
    let mut at = 0;
    'runs: while at < rows.len() {
        let run = rows.run(at);
        match push_run(run, &mut out) {
            Ok(()) => at += run.len(),
            Err(failed) => return Err(failed),
        }
    }
    Ok(out)
}

impl<'a> TableRows for TableLists<'a> {
    ghost tables = { λ t. t };

    fn row(&self, table: TableNo, key: &Key) -> Option<&Row> {
        match self.list(table) {
            Some(rows) => row_in(rows.find(key)),
            None => None,
        }
    }

    fn rows(&self, alloc: Global, table: TableNo) -> Result<Vec<HeldRow<'_>>, AllocError> {
        match self.list(table) {
            Some(rows) => rows_among(alloc, rows),
            None => Ok(Vec::new(alloc)),
        }
    }
}
