//! What the newest of runs says of a row.
ghost use Rattle.std.specs.Prelude.{◌≡◌, ◌≤◌, ◌+◌};
ghost use Rattle.pg_run.specs.Runs.{said};
ghost use Rattle.pg_snap.specs.Snapshots.{Counts, said_in};
ghost use Rattle.pg_snap.specs.Costs.{runs_cost};

use pg_run::{Found, Run};
use pg_value::{Key, Shared, Steps, TableNo};
use std::sync::ledger::Ledger;

/// What the newest of the runs that have a write of a key says of its row. The oldest run stands first.
pub fn newest<'a, L: Ledger>(
    runs: &'a [Shared<Run>],
    table: TableNo,
    key: &Key,
    steps: &mut Steps<L>,
) -> Found<'a>
    ensures value { said result ≡ said_in table key.now.values runs.now }
    ensures counts { Counts (said result) steps.old steps.new }
    ensures cost { steps.new ≤ steps.old + runs_cost table runs.now }
{
    match runs {
        [] => Found::Absent,
        [run, more @ ..] => match newest(more, table, key, steps) {
            Found::Absent => run.get().find(table, key, steps),
            Found::Gone => Found::Gone,
            Found::Row(row) => Found::Row(row),
        },
    }
}
