//! The rows of all tables.
ghost use Rattle.std.specs.Prelude.{◌≡◌, ◌≤◌, ◌+◌, [], length, get_or, slice_get, IfOk};
ghost use Rattle.std.specs.Option.{option_copied, unwrap_or};
ghost use Rattle.pg_chunks.specs.Digits.{digits};
ghost use Rattle.pg_value.specs.TablesLaws.{stored_in};
ghost use Rattle.pg_rows.specs.Rows.{AreInOrder, AreUnder};

use crate::shared::{rows_of, rows_under, shared, writes_of};
use pg_chunks::{Chunks, Steps};
use pg_shared::SharedChunks;
use pg_value::{Key, List, Stored, TableNo, Write};
use std::alloc::{AllocError, Global};
use std::marker::Model;
use std::sync::ledger::Ledger;

/// The rows of all tables of one version, one list for each table by its number, in order of the keys: each row beside its
/// key. Nothing changes them. They stand in chunks of 64 to 127, which versions share; contracts see the lists.
#[derive(Drop)]
pub struct RowArrays {
    tables: Vec<SharedChunks<Stored>>,
}

impl Model for RowArrays {
    ghost use Rattle.std.specs.Prelude.{List as Lists};
    ghost use Rattle.pg_value.specs.Tables.{Stored as StoredRow};

    ghost Value = { Lists (Lists StoredRow) };

    ghost view = { λ r. r.tables.items };
}

/// The greater of two numbers.
fn greater(a: usize, b: usize) -> usize
    ensures first { a ≤ result }
    ensures second { b ≤ result }
{
    if a < b { b } else { a }
}

/// The row of a key among the rows of one table.
fn row_among<'a, L: Ledger>(
    rows: &'a SharedChunks<Stored>,
    key: &Key,
    steps: &mut Steps<L>,
) -> Option<&'a Stored>
    ensures value { option_copied result ≡ stored_in key.now.values rows.now }
    ensures counts { steps.old + 1 ≤ steps.new }
    ensures cost { steps.new ≤ steps.old + 1 + digits (length rows.now) }
{
    if rows.len() == 0 {
        steps.tick();
        return None;
    }
    match rows.seek(key, steps) {
        Ok(at) => Some(rows.at(at)),
        Err(_) => None,
    }
}

impl RowArrays {
    /// The rows of lists, one list for each table by its number. Keys are copied, and the values of rows are shared. Only want
    /// of memory refuses it.
    pub fn build(alloc: Global, lists: &[Chunks<Stored>]) -> Result<RowArrays, AllocError>
        ensures { IfOk result (λ rows. rows ≡ lists.now) }
    {
        let mut tables = Vec::with_capacity(alloc, lists.len())?;
        for list in lists {
            tables.push(shared(alloc, list)?)?;
        }
        Ok(RowArrays { tables })
    }

    /// The rows of a table, in order of their keys; None for a table beyond all that have rows.
    pub fn rows(&self, table: TableNo) -> Option<&SharedChunks<Stored>>
        ensures { unwrap_or (option_copied result) [] ≡ get_or self.now table.0 [] }
    {
        rows_of(self.tables.as_slice(), table.0 as usize)
    }

    /// How many rows a table has.
    pub fn len(&self, table: TableNo) -> u64
        ensures { result ≡ length (get_or self.now table.0 []) }
    {
        match self.rows(table) {
            Some(rows) => rows.len() as u64,
            None => 0,
        }
    }

    /// The row at a place in a table, from 0, in order of the keys; None exactly where it has no more than `at`.
    pub fn at(&self, table: TableNo, at: u64) -> Option<&Stored>
        ensures { option_copied result ≡ slice_get (get_or self.now table.0 []) at }
    {
        match self.rows(table) {
            Some(rows) => rows.get(at as usize),
            None => None,
        }
    }

    /// The row of a table with a key, None exactly where there is none. It takes at most one step and the binary digits of the
    /// number of the table's rows.
    pub fn get<L: Ledger>(&self, table: TableNo, key: &Key, steps: &mut Steps<L>) -> Option<&Stored>
        ensures value { option_copied result ≡ stored_in key.now.values (get_or self.now table.0 []) }
        ensures counts { steps.old + 1 ≤ steps.new }
        ensures cost { steps.new ≤ steps.old + 1 + digits (length (get_or self.now table.0 [])) }
    {
        match self.rows(table) {
            Some(rows) => row_among(rows, key, steps),
            None => {
                steps.tick();
                None
            }
        }
    }

    /// The same rows, which share all chunks. Only want of memory refuses it.
    pub fn share(&self, alloc: Global) -> Result<RowArrays, AllocError>
        ensures { IfOk result (λ same. same ≡ self.now) }
    {
        let mut tables = Vec::with_capacity(alloc, self.tables.len())?;
        for rows in &self.tables {
            tables.push(rows.share()?)?;
        }
        Ok(RowArrays { tables })
    }

    /// The same rows under writes, of which there is one list for each table by its number, in order of the keys. A table
    /// without writes shares all chunks, and any other those that no write touches, all but a few beside those that one does.
    /// These rows stay. Only want of memory refuses it.
    pub fn merged(&self, alloc: Global, lists: &[List<Write>]) -> Result<RowArrays, AllocError>
        requires { AreInOrder lists.now }
        ensures { IfOk result (AreUnder self.now lists.now) }
    {
        let count = greater(self.tables.len(), lists.len());
        let mut tables = Vec::with_capacity(alloc, count)?;
        for table in 0..count {
            let writes = writes_of(lists, table);
            tables.push(rows_under(alloc, self.tables.as_slice(), table, writes)?)?;
        }
        Ok(RowArrays { tables })
    }
}
