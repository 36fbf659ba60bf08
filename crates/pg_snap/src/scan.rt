//! The rows of one table, in order of their keys: one walk over a base and the writes of runs.
ghost use Rattle.std.specs.Prelude.{◌≡◌, ◌+◌, ◌<◌, ◌^◌, [], drop, slice_get, OnSome};
ghost use Rattle.std.specs.Option.{option_copied, unwrap_or};
ghost use Rattle.pg_snap.specs.Scans as spec;
ghost use Rattle.pg_snap.specs.Scans.{writes_of, Gives};

use crate::changes::Change;
use pg_shared::SharedChunks;
use pg_value::{Key, Row, Stored, order_keys};
use std::cmp::Ordering;
use std::marker::Model;

/// A row that a table holds, and its key.
#[derive(Clone, Copy)]
pub struct Held<'a> {
    pub key: &'a Key,
    pub row: &'a Row,
}

/// The row at a place.
fn row_at<'a>(rows: Option<&'a SharedChunks<Stored>>, at: usize) -> Option<&'a Stored>
    ensures value { option_copied result ≡ slice_get (unwrap_or (option_copied rows.entry) []) at }
    ensures within { OnSome result (at + 1 < 2 ^ 64) }
{
    match rows {
        Some(rows) => { if at < rows.len() { rows.get(at) } else { None } }
        None => None,
    }
}

/// Whether the row at a place stands before a key.
fn is_before(rows: Option<&SharedChunks<Stored>>, at: usize, key: &Key) -> bool
    ensures { result ≡ spec.stands_before key.now.values (drop at (unwrap_or (option_copied rows.entry) [])) }
{
    match row_at(rows, at) {
        Some(stored) => matches!(order_keys(&stored.key, key), Ordering::Less),
        None => false,
    }
}

/// The place behind the row at a place, where that has the key, and else the place.
fn past(rows: Option<&SharedChunks<Stored>>, at: usize, key: &Key) -> usize
    ensures { drop result (unwrap_or (option_copied rows.entry) []) ≡ spec.without key.now.values (drop at (unwrap_or (option_copied rows.entry) [])) }
{
    match row_at(rows, at) {
        Some(stored) => match order_keys(&stored.key, key) {
            Ordering::Equal => at + 1,
            _ => at,
        },
        None => at,
    }
}

/// The row at a place, behind which the place is then.
fn next_row<'a>(rows: Option<&'a SharedChunks<Stored>>, at: &mut usize) -> Option<Held<'a>>
    ensures { Gives (drop at.old (unwrap_or (option_copied rows.entry) [])) (drop at.new (unwrap_or (option_copied rows.entry) [])) result }
{
    match row_at(rows, *at) {
        Some(stored) => {
            *at += 1;
            Some(Held {
                key: &stored.key,
                row: &stored.row,
            })
        }
        None => None,
    }
}

/// The next row of a walk over rows and changes, from a place in each on, and the places behind it.
fn next_held<'a>(
    rows: Option<&'a SharedChunks<Stored>>,
    changes: &[Change<'a>],
    at: &mut usize,
    next: &mut usize,
) -> Option<Held<'a>>
    ensures { Gives (spec.under (drop at.old (unwrap_or (option_copied rows.entry) [])) (drop next.old (writes_of changes.now))) (spec.under (drop at.new (unwrap_or (option_copied rows.entry) [])) (drop next.new (writes_of changes.now))) result }
{
    'walk: while *next < changes.len() {
        let write = changes[*next].write;
        if is_before(rows, *at, &write.key) {
            return next_row(rows, at);
        }
        *at = past(rows, *at, &write.key);
        *next += 1;
        match &write.row {
            Some(row) => {
                return Some(Held {
                    key: &write.key,
                    row,
                });
            }
            None => {}
        }
    }
    next_row(rows, at)
}

/// The rows of a table that a walk has not come to yet, in order of their keys.
#[derive(Drop)]
pub struct Scan<'a> {
    rows: Option<&'a SharedChunks<Stored>>,
    at: usize,
    changes: Vec<Change<'a>>,
    next: usize,
}

impl<'a> Model for Scan<'a> {
    ghost use Rattle.std.specs.Prelude.{List, [], drop};
    ghost use Rattle.std.specs.Option.{option_copied, unwrap_or};
    ghost use Rattle.pg_value.specs.Tables.{Stored as StoredRow};
    ghost use Rattle.pg_snap.specs.Scans.{under, writes_of};

    ghost Value = { List StoredRow };

    ghost view = { λ s. under (drop s.at (unwrap_or (option_copied s.rows) [])) (drop s.next (writes_of s.changes.items)) };
}

impl<'a> Scan<'a> {
    /// The rows of one table under changes of it.
    pub(crate) fn new(rows: Option<&'a SharedChunks<Stored>>, changes: Vec<Change<'a>>) -> Scan<'a>
        ensures { result ≡ spec.under (unwrap_or (option_copied rows.entry) []) (writes_of changes.entry.items) }
    {
        Scan {
            rows,
            at: 0,
            changes,
            next: 0,
        }
    }

    /// The next row, until there is none. It takes no memory.
    pub fn next(&mut self) -> Option<Held<'a>>
        ensures { Gives self.old self.new result }
    {
        next_held(
            self.rows,
            self.changes.as_slice(),
            &mut self.at,
            &mut self.next,
        )
    }
}
