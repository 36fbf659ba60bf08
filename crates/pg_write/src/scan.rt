//! The rows that a change proposes, judged one after another over the tables.
ghost use Rattle.std.specs.Prelude.{◌≡◌, ◌<◌, ◌^◌, length, IfOk};
ghost use Rattle.pg_keyed.specs.Lists.{Each};
ghost use Rattle.pg_value.specs.Tables.{held_in};
ghost use Rattle.pg_value.specs.Writes.{merge};
ghost use Rattle.pg_expr.specs.Conditions.{IsCheckedForRow};
ghost use Rattle.pg_meaning.specs.Sound.Changes.{IsSoundFor, table_of};
ghost use Rattle.pg_rules.specs.Changes.ChangeEffect.{context, proposed};
ghost use Rattle.pg_write.specs.JudgedRows as spec;
ghost use Rattle.pg_write.specs.HeldRows.{all_stored, stored_of};
ghost use Rattle.pg_write.specs.KeyOfCondition.{key_in};

use crate::judged::{Given, RowsSoFar};
use crate::keyed::key_in;
use crate::proposed::{takes, tuple_write, write_for};
use crate::tables::{HeldRow, TableRows};
use pg_meaning::{CExpr, CheckedChange};
use pg_rules::RowFault;
use pg_value::{Key, List, Row};
use std::alloc::{AllocError, Global};
use std::slice;

impl<'a, T: TableRows> Given<'a, T> {
    /// Judges the rows of tuples.
    pub fn take_tuples(
        &self,
        alloc: Global,
        columns: &[u32],
        tuples: &[List<CExpr>],
        so_far: &mut RowsSoFar,
    ) -> Result<Option<RowFault>, AllocError>
        requires few { length self.now.shape.now.columns < 2 ^ 32 }
        requires counted { spec.AreCounted self.now.limit self.now.writes.now.list so_far.old }
        requires checked { Each (Each (IsCheckedForRow spec.no_values)) tuples.now }
        ensures judged { IfOk result (λ f. spec.judged (context self.now.limit self.now.shape.now (T.tables self.now.tables.now) self.now.writes.now.list) self.now.insert (spec.so_far so_far.old) (spec.writes_of self.now.table self.now.shape.now columns.now tuples.now) ≡ spec.told f (spec.so_far so_far.new)) }
        ensures counted { IfOk result (λ _. spec.AreCounted self.now.limit self.now.writes.now.list so_far.new) }
    {
        let nothing = Row::new(alloc, List::new(alloc))?;
        for tuple in tuples {
            let write = tuple_write(
                alloc,
                self.table,
                self.shape,
                columns,
                tuple.as_slice(),
                &nothing,
            )?;
            match self.take(so_far, write) {
                Ok(None) => {}
                Ok(Some(fault)) => return Ok(Some(fault)),
                Err(failed) => return Err(failed),
            }
        }
        Ok(None)
    }

    /// Judges what becomes of a row, where the condition is true of it.
    fn take_row(
        &self,
        alloc: Global,
        change: &CheckedChange,
        cond: &Option<CExpr>,
        held: HeldRow<'_>,
        so_far: &mut RowsSoFar,
    ) -> Result<Option<RowFault>, AllocError>
        requires few { length self.now.shape.now.columns < 2 ^ 32 }
        requires counted { spec.AreCounted self.now.limit self.now.writes.now.list so_far.old }
        requires cond { cond.now ≡ spec.condition_of change.now }
        requires checked { spec.IsCheckedFor change.now held.row.now }
        ensures judged { IfOk result (λ f. spec.row_taken (context self.now.limit self.now.shape.now (T.tables self.now.tables.now) self.now.writes.now.list) self.now.insert change.now (spec.so_far so_far.old) (stored_of held.entry) ≡ spec.told f (spec.so_far so_far.new)) }
        ensures counted { IfOk result (λ _. spec.AreCounted self.now.limit self.now.writes.now.list so_far.new) }
    {
        if !takes(cond, held.row) {
            return Ok(None);
        }
        let write = write_for(alloc, change, held)?;
        self.take(so_far, write)
    }

    /// Judges rows, of which it takes those of which the condition is true.
    fn take_rows(
        &self,
        alloc: Global,
        change: &CheckedChange,
        cond: &Option<CExpr>,
        rows: &[HeldRow<'_>],
        so_far: &mut RowsSoFar,
    ) -> Result<Option<RowFault>, AllocError>
        requires few { length self.now.shape.now.columns < 2 ^ 32 }
        requires counted { spec.AreCounted self.now.limit self.now.writes.now.list so_far.old }
        requires cond { cond.now ≡ spec.condition_of change.now }
        requires checked { spec.AreCheckedFor change.now (all_stored rows.now) }
        ensures judged { IfOk result (λ f. spec.rows_taken (context self.now.limit self.now.shape.now (T.tables self.now.tables.now) self.now.writes.now.list) self.now.insert change.now (spec.so_far so_far.old) (all_stored rows.now) ≡ spec.told f (spec.so_far so_far.new)) }
        ensures counted { IfOk result (λ _. spec.AreCounted self.now.limit self.now.writes.now.list so_far.new) }
    {
        for held in rows {
            match self.take_row(alloc, change, cond, *held, so_far) {
                Ok(None) => {}
                Ok(Some(fault)) => return Ok(Some(fault)),
                Err(failed) => return Err(failed),
            }
        }
        Ok(None)
    }

    /// Judges all rows of the table, of which it takes those of which the condition is true.
    fn take_all(
        &self,
        alloc: Global,
        change: &CheckedChange,
        cond: &Option<CExpr>,
        so_far: &mut RowsSoFar,
    ) -> Result<Option<RowFault>, AllocError>
        requires few { length self.now.shape.now.columns < 2 ^ 32 }
        requires counted { spec.AreCounted self.now.limit self.now.writes.now.list so_far.old }
        requires cond { cond.now ≡ spec.condition_of change.now }
        requires checked { spec.AreCheckedFor change.now (held_in self.now.table (T.tables self.now.tables.now)) }
        ensures judged { IfOk result (λ f. spec.rows_taken (context self.now.limit self.now.shape.now (T.tables self.now.tables.now) self.now.writes.now.list) self.now.insert change.now (spec.so_far so_far.old) (held_in self.now.table (T.tables self.now.tables.now)) ≡ spec.told f (spec.so_far so_far.new)) }
        ensures counted { IfOk result (λ _. spec.AreCounted self.now.limit self.now.writes.now.list so_far.new) }
    {
        let rows = self.tables.rows(alloc, self.table)?;
        self.take_rows(alloc, change, cond, rows.as_slice(), so_far)
    }

    /// Judges the row of a key, which it takes where the condition is true of it.
    fn take_one(
        &self,
        alloc: Global,
        change: &CheckedChange,
        cond: &Option<CExpr>,
        key: &Key,
        so_far: &mut RowsSoFar,
    ) -> Result<Option<RowFault>, AllocError>
        requires few { length self.now.shape.now.columns < 2 ^ 32 }
        requires counted { spec.AreCounted self.now.limit self.now.writes.now.list so_far.old }
        requires cond { cond.now ≡ spec.condition_of change.now }
        requires checked { spec.AreCheckedFor change.now (spec.row_at (T.tables self.now.tables.now) self.now.table key.now.values) }
        ensures judged { IfOk result (λ f. spec.rows_taken (context self.now.limit self.now.shape.now (T.tables self.now.tables.now) self.now.writes.now.list) self.now.insert change.now (spec.so_far so_far.old) (spec.row_at (T.tables self.now.tables.now) self.now.table key.now.values) ≡ spec.told f (spec.so_far so_far.new)) }
        ensures counted { IfOk result (λ _. spec.AreCounted self.now.limit self.now.writes.now.list so_far.new) }
    {
        match self.tables.row(self.table, key) {
            Some(row) => {
                let held = HeldRow {
                    table: self.table,
                    key,
                    row,
                };
                self.take_rows(alloc, change, cond, slice::from_ref(&held), so_far)
            }
            None => Ok(None),
        }
    }

    /// Judges the rows of the table of which the condition is true. Where it gives each key column a literal, no other row than
    /// that one is looked at.
    pub fn take_stored(
        &self,
        alloc: Global,
        change: &CheckedChange,
        cond: &Option<CExpr>,
        so_far: &mut RowsSoFar,
    ) -> Result<Option<RowFault>, AllocError>
        requires few { length self.now.shape.now.columns < 2 ^ 32 }
        requires counted { spec.AreCounted self.now.limit self.now.writes.now.list so_far.old }
        requires cond { cond.now ≡ spec.condition_of change.now }
        requires checked { spec.AreCheckedFor change.now (held_in self.now.table (T.tables self.now.tables.now)) }
        requires stored { spec.AreStored self.now.table self.now.shape.now (T.tables self.now.tables.now) }
        ensures judged { IfOk result (λ f. spec.rows_taken (context self.now.limit self.now.shape.now (T.tables self.now.tables.now) self.now.writes.now.list) self.now.insert change.now (spec.so_far so_far.old) (held_in self.now.table (T.tables self.now.tables.now)) ≡ spec.told f (spec.so_far so_far.new)) }
        ensures counted { IfOk result (λ _. spec.AreCounted self.now.limit self.now.writes.now.list so_far.new) }
    {
        match key_in(alloc, cond, self.shape.key.as_slice())? {
            Some(key) => self.take_one(alloc, change, cond, &key, so_far),
            None => self.take_all(alloc, change, cond, so_far),
        }
    }

    /// Judges all rows of a change.
    pub fn take_change(
        &self,
        alloc: Global,
        change: &CheckedChange,
        so_far: &mut RowsSoFar,
    ) -> Result<Option<RowFault>, AllocError>
        requires few { length self.now.shape.now.columns < 2 ^ 32 }
        requires counted { spec.AreCounted self.now.limit self.now.writes.now.list so_far.old }
        requires table { self.now.table ≡ table_of change.now }
        requires sound { IsSoundFor self.now.shape.now change.now }
        requires stored { spec.AreStored self.now.table self.now.shape.now (T.tables self.now.tables.now) }
        ensures judged { IfOk result (λ f. spec.judged (context self.now.limit self.now.shape.now (T.tables self.now.tables.now) self.now.writes.now.list) self.now.insert (spec.so_far so_far.old) (proposed self.now.shape.now (T.tables self.now.tables.now) change.now) ≡ spec.told f (spec.so_far so_far.new)) }
        ensures counted { IfOk result (λ _. spec.AreCounted self.now.limit self.now.writes.now.list so_far.new) }
    {
        match change {
            CheckedChange::Insert {
                table: _,
                columns,
                tuples,
            } => self.take_tuples(alloc, columns.as_slice(), tuples.as_slice(), so_far),
            CheckedChange::Update {
                table: _,
                sets: _,
                cond,
            }
            | CheckedChange::Delete { table: _, cond } => {
                self.take_stored(alloc, change, cond, so_far)
            }
        }
    }
}
