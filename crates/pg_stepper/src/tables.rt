//! What a change reads of a snapshot.
ghost use Rattle.std.specs.Prelude.{◌≡◌};
ghost use Rattle.std.specs.Option.{option_copied};
ghost use Rattle.pg_meaning.specs.Reads.{row_at};
ghost use Rattle.pg_snap.specs.Snapshots.{tables_of};

use pg_snap::Snapshot;
use pg_value::{Key, Row, Steps, TableNo};
use pg_view::View;
use pg_write::{HeldRow, TableRows};
use std::alloc::{AllocError, Global};
use std::marker::{Brand, Model};
use std::sync::ledger::{Blank, Ledger};

/// The tables of a snapshot, with its own writes if it has any.
#[derive(Drop)]
pub struct SnapshotRows<'a> {
    snapshot: &'a Snapshot,
}

impl<'a> Model for SnapshotRows<'a> {
    ghost use Rattle.pg_value.specs.Tables.{Tables};
    ghost use Rattle.pg_snap.specs.Snapshots.{tables_of};

    ghost Value = { Tables };

    ghost view = { λ t. tables_of t.snapshot.now };
}

impl<'a> SnapshotRows<'a> {
    /// The tables of a snapshot. It takes no memory.
    pub fn new(snapshot: &'a Snapshot) -> SnapshotRows<'a>
        ensures { result ≡ tables_of snapshot.now }
    {
        SnapshotRows { snapshot }
    }

    /// The row of a table with a key, None exactly where there is none.
    fn found(&self, table: TableNo, key: &Key) -> Option<&Row>
        ensures { option_copied result ≡ row_at self.now table key.now }
    {
        uncounted::<Brand>(Blank::new(1), self.snapshot, table, key)
    }
}

/// The row of a table with a key, with a counter of its own.
fn uncounted<'a, L: Ledger>(
    blank: Blank,
    snapshot: &'a Snapshot,
    table: TableNo,
    key: &Key,
) -> Option<&'a Row>
    requires name { blank.name ≡ L.name }
    requires parts { blank.parts ≡ L.parts }
    requires one { blank.parts ≡ 1 }
    ensures { option_copied result ≡ row_at (tables_of snapshot.now) table key.now }
{
    let mut steps = Steps::<L>::start(blank);
    snapshot.row(table, key, &mut steps)
}

impl<'a> TableRows for SnapshotRows<'a> {
    ghost tables = { λ t. t };

    fn row(&self, table: TableNo, key: &Key) -> Option<&Row> {
        self.found(table, key)
    }

    fn rows(&self, alloc: Global, table: TableNo) -> Result<Vec<HeldRow<'_>>, AllocError> {
        let mut rows = self.snapshot.scan(alloc, table)?;
        let mut out = Vec::new(alloc);
        while let Some(held) = rows.next() {
            out.push(HeldRow {
                table,
                key: held.key,
                row: held.row,
            })?;
        }
        Ok(out)
    }
}
