//! The rows of tables, of which each has a list, by its number.
ghost use Rattle.std.specs.Prelude.{◌≡◌, ◌≤◌, ◌+◌, [], length};
ghost use Rattle.std.specs.Option.{option_copied, unwrap_or};
ghost use Rattle.pg_chunks.specs.Digits.{digits};
ghost use Rattle.pg_value.specs.TablesLaws.{stored_in};
ghost use Rattle.pg_view.specs.Lists as spec;

use pg_chunks::{Chunks, Steps};
use pg_value::{Key, Stored, TableNo};
use std::sync::ledger::Ledger;

/// The rows of a table; None for one beyond the lists, which has none.
pub fn rows_in(lists: &[Chunks<Stored>], table: TableNo) -> Option<&Chunks<Stored>>
    ensures { unwrap_or (option_copied result) [] ≡ spec.rows_in lists.now table }
{
    match lists.get(table.0 as usize) {
        Some(rows) => Some(rows),
        None => None,
    }
}

/// The row of a key among the rows of one table.
fn row_among<'a, L: Ledger>(
    rows: &'a Chunks<Stored>,
    key: &Key,
    steps: &mut Steps<L>,
) -> Option<&'a Stored>
    ensures value { option_copied result ≡ stored_in key.now.values rows.now }
    ensures counts { steps.old + 1 ≤ steps.new }
    ensures cost { steps.new ≤ steps.old + 1 + digits (length rows.now) }
{
    if rows.is_empty() {
        steps.tick();
        return None;
    }
    match rows.seek(key, steps) {
        Ok(at) => rows.get(at),
        Err(_) => None,
    }
}

/// The row of a key among the rows of a table.
pub fn stored_in<'a, L: Ledger>(
    lists: &'a [Chunks<Stored>],
    table: TableNo,
    key: &Key,
    steps: &mut Steps<L>,
) -> Option<&'a Stored>
    ensures value { option_copied result ≡ stored_in key.now.values (spec.rows_in lists.now table) }
    ensures counts { steps.old + 1 ≤ steps.new }
    ensures cost { steps.new ≤ steps.old + 1 + digits (length (spec.rows_in lists.now table)) }
{
    match rows_in(lists, table) {
        Some(rows) => row_among(rows, key, steps),
        None => {
            steps.tick();
            None
        }
    }
}
