//! The rows of a statement, judged one after another.
ghost use Rattle.std.specs.Prelude.{◌≡◌, ◌<◌, ◌+◌, ◌^◌, ◌∷◌, [], None, Some, length, IfOk, IfErr};
ghost use Rattle.std.specs.Option.{option_copied};
ghost use Rattle.pg_value.specs.Writes.{merge, IsInOrder};
ghost use Rattle.pg_rules.specs.Changes.ChangeEffect.{context, columns_fault};
ghost use Rattle.pg_write.specs.JudgedRows as spec;

use crate::column::column_fault;
use crate::tables::TableRows;
use pg_rules::RowFault;
use pg_value::{Row, TableNo, TableShape, Write, Writes};
use std::alloc::AllocError;

/// What the rows of a statement meet: its table, the tables that it sees, and the writes of the transaction.
#[derive(Drop)]
pub struct Given<'a, T> {
    /// Whether the statement is an INSERT.
    pub insert: bool,
    /// The most writes that the transaction may have.
    pub limit: u64,
    pub table: TableNo,
    pub shape: &'a TableShape,
    pub tables: &'a T,
    pub writes: &'a Writes,
}

/// The rows of a statement so far, none of which has a fault.
#[derive(Drop)]
pub struct RowsSoFar {
    /// What they write.
    pub made: Writes,
    /// How many writes the transaction has with these.
    pub total: u64,
    /// How many rows they are.
    pub rows: u64,
}

/// The number with one more; only a number that no memory holds is refused.
pub fn one_more(number: u64) -> Result<u64, AllocError>
    ensures { IfOk result (λ n. n ≡ number + 1) }
{
    match number.checked_add(1) {
        Some(more) => Ok(more),
        None => Err(AllocError),
    }
}

impl RowsSoFar {
    /// Takes a row that has no fault, by its write and how many writes the transaction then has.
    fn add(&mut self, write: Write, total: u64) -> Result<(), AllocError>
        ensures made { IfOk result (λ _. spec.so_far self.new ≡ spec.with_row (spec.so_far self.old) write) }
        ensures total { IfOk result (λ _. self.new.total ≡ total) }
        ensures limit { IfOk result (λ _. self.new.made.limit ≡ self.old.made.limit) }
    {
        let rows = one_more(self.rows)?;
        match self.made.put(write) {
            Ok(()) => {
                self.rows = rows;
                self.total = total;
                Ok(())
            }
            Err(_) => Err(AllocError),
        }
    }
}

/// The first fault of a row's values; a row that is gone has none.
fn columns_fault(shape: &TableShape, row: &Option<Row>) -> Option<RowFault>
    requires { length shape.now.columns < 2 ^ 32 }
    ensures { result ≡ columns_fault shape.now row.now }
{
    match row {
        Some(row) => column_fault(shape, row.values.as_slice()),
        None => None,
    }
}

impl<'a, T: TableRows> Given<'a, T> {
    /// Whether the key of a write is in the tables, or among the rows so far.
    fn is_there(&self, made: &Writes, write: &Write) -> bool
        ensures { result ≡ spec.is_there_over (T.tables self.now.tables.now) made.now.list write.now }
    {
        self.tables.row(write.table, &write.key).is_some() || made.place_of(write).is_ok()
    }

    /// Duplicate, where an INSERT has a key that is there already.
    fn duplicate_fault(&self, made: &Writes, write: &Write) -> Option<RowFault>
        ensures { result ≡ spec.duplicate_over self.now.insert (T.tables self.now.tables.now) made.now.list write.now }
    {
        if self.insert && self.is_there(made, write) {
            Some(RowFault::Duplicate)
        } else {
            None
        }
    }

    /// Whether neither the rows so far nor the transaction has a write of the same key.
    fn is_new(&self, made: &Writes, write: &Write) -> bool
        ensures new { result ≡ spec.is_new self.now.writes.now.list made.now.list write.now }
        ensures made { IsInOrder made.now.list }
        ensures given { IsInOrder self.now.writes.now.list }
    {
        let in_made = made.place_of(write).is_ok();
        let in_writes = self.writes.place_of(write).is_ok();
        !in_made && !in_writes
    }

    /// How many writes the transaction has with one more row; None where that is beyond the limit.
    fn count_with(&self, so_far: &RowsSoFar, write: &Write) -> Option<u64>
        requires counted { spec.AreCounted self.now.limit self.now.writes.now.list so_far.now }
        ensures { result ≡ spec.count_within self.now.limit (spec.count_with self.now.writes.now.list so_far.now.made.list write.now) }
    {
        if self.is_new(&so_far.made, write) {
            if so_far.total < self.limit {
                Some(so_far.total + 1)
            } else {
                None
            }
        } else if so_far.total <= self.limit {
            Some(so_far.total)
        } else {
            None
        }
    }

    /// How many writes the transaction has with one more row, or the row's first fault.
    fn judge(&self, so_far: &RowsSoFar, write: &Write) -> Result<u64, RowFault>
        requires few { length self.now.shape.now.columns < 2 ^ 32 }
        requires counted { spec.AreCounted self.now.limit self.now.writes.now.list so_far.now }
        ensures right { IfOk result (λ _. spec.fault_over (context self.now.limit self.now.shape.now (T.tables self.now.tables.now) self.now.writes.now.list) self.now.insert so_far.now.made.list write.now ≡ None) }
        ensures count { IfOk result (λ n. n ≡ spec.count_with self.now.writes.now.list so_far.now.made.list write.now) }
        ensures fault { IfErr result (λ f. spec.fault_over (context self.now.limit self.now.shape.now (T.tables self.now.tables.now) self.now.writes.now.list) self.now.insert so_far.now.made.list write.now ≡ Some f) }
    {
        if let Some(fault) = columns_fault(self.shape, &write.row) {
            return Err(fault);
        }
        if let Some(fault) = self.duplicate_fault(&so_far.made, write) {
            return Err(fault);
        }
        match self.count_with(so_far, write) {
            Some(total) => Ok(total),
            None => Err(RowFault::TooManyWrites),
        }
    }

    /// Takes a row behind those so far, by its write, or says what its first fault is; they are as before then.
    pub fn take(&self, so_far: &mut RowsSoFar, write: Write) -> Result<Option<RowFault>, AllocError>
        requires few { length self.now.shape.now.columns < 2 ^ 32 }
        requires counted { spec.AreCounted self.now.limit self.now.writes.now.list so_far.old }
        ensures judged { IfOk result (λ f. spec.row_judged (context self.now.limit self.now.shape.now (T.tables self.now.tables.now) self.now.writes.now.list) self.now.insert (spec.so_far so_far.old) write ≡ spec.told f (spec.so_far so_far.new)) }
        ensures counted { IfOk result (λ _. spec.AreCounted self.now.limit self.now.writes.now.list so_far.new) }
    {
        match self.judge(so_far, &write) {
            Ok(total) => {
                so_far.add(write, total)?;
                Ok(None)
            }
            Err(fault) => Ok(Some(fault)),
        }
    }
}
