//! Snapshots.
ghost use Rattle.std.specs.Prelude.{◌≡◌, ◌≤◌, ◌<◌, ◌+◌, ◌*◌, [], ◌∷◌, ◌++◌, length, IfOk, OnOk, OnErr, slice_get};
ghost use Rattle.std.specs.declared.option.Option.TheVariants.{None, Some};
ghost use Rattle.std.specs.Option.{option_copied};
ghost use Rattle.pg_keyed.specs.Lists.{Each};
ghost use Rattle.pg_value.specs.Tables.{FitTables, held_in};
ghost use Rattle.pg_meaning.specs.Reads.{row_at};
ghost use Rattle.pg_run.specs.Runs.{said, RunOf};
ghost use Rattle.pg_snap.specs.Costs.{find_cost, runs_cost};
ghost use Rattle.pg_snap.specs.Snapshots.{AreMade, Counts, Cover, IsSnapshot, parts, said_in, tables_of};

use crate::changes::{with_own, with_runs};
use crate::newest::newest;
use crate::{Base, Scan};
use pg_run::{Found, Run};
use pg_value::{Key, Row, Shared, Steps, TableNo};
use std::alloc::{AllocError, Global};
use std::marker::Model;
use std::sync::ledger::Ledger;

/// How many runs there are at most over a base.
const ROOM: usize = 9;

/// Runs over a base, the oldest first. There is room for nine.
#[derive(Drop)]
pub struct SnapBuf {
    runs: Vec<Shared<Run>>,
}

impl Model for SnapBuf {
    ghost use Rattle.std.specs.Prelude.{◌≤◌, List, vec_capacity};
    ghost use Rattle.pg_run.specs.Runs.{RunOf};
    ghost use Rattle.pg_snap.specs.Snapshots.{AreMade};

    ghost Value = { List RunOf };

    ghost view = { λ b. b.runs.items };

    ghost invariant = { λ b. (9 ≤ vec_capacity b.runs) × AreMade b.runs.items };
}

impl SnapBuf {
    /// No runs. Only want of memory refuses it.
    pub fn new(alloc: Global) -> Result<SnapBuf, AllocError>
        ensures { IfOk result (λ buf. buf ≡ []) }
    {
        Ok(SnapBuf {
            runs: Vec::with_capacity(alloc, ROOM)?,
        })
    }

    /// Adds a run behind all others. It takes no memory.
    pub fn push(&mut self, run: Shared<Run>)
        requires { length self.old < 9 }
        ensures { self.new ≡ self.old ++ run ∷ [] }
    {
        run.get().well_made();
        self.runs.push_reserved(run);
    }

    /// The runs, the oldest first.
    fn as_slice(&self) -> &[Shared<Run>]
        ensures value { result.now ≡ self.now }
        ensures made { AreMade self.now }
    {
        self.runs.as_slice()
    }

    /// No runs, and the same room. It takes no memory.
    fn emptied(self) -> SnapBuf
        ensures { result ≡ [] }
    {
        let SnapBuf { mut runs } = self;
        runs.clear();
        SnapBuf { runs }
    }
}

/// The tables of one version, under a transaction's own writes if there are any: a base, the runs of the versions behind it,
/// and the own writes, which are read as one.
#[derive(Drop)]
pub struct Snapshot {
    base: Shared<Base>,
    buf: SnapBuf,
    own: Option<Run>,
    at: u64,
}

impl Model for Snapshot {
    ghost use Rattle.pg_snap.specs.Snapshots.{SnapOf, IsSnapshot};

    ghost Value = { SnapOf };

    ghost view = { λ s. record { base = s.base; runs = s.buf; own = s.own; at = s.at } };

    ghost invariant = { λ s. IsSnapshot (record { base = s.base; runs = s.buf; own = s.own; at = s.at }) };
}

impl Snapshot {
    /// The snapshot of a version, over a base and the runs of the versions behind the base, all of which were made for the
    /// same shapes. There are no own writes. It takes no memory.
    pub fn new(base: Shared<Base>, runs: SnapBuf, at: u64) -> Snapshot
        requires shapes { Each (λ (run : RunOf). run.shapes ≡ base.shapes) runs }
        requires cover { Cover base.no runs at }
        ensures { result ≡ record { base = base; runs = runs; own = None; at = at } }
    {
        base.get().well_made();
        let _ = runs.as_slice();
        Snapshot {
            base,
            buf: runs,
            own: None,
            at,
        }
    }

    /// Puts own writes in place of earlier ones. It takes no memory.
    pub fn put_own(&mut self, own: Run)
        requires { own.shapes ≡ self.old.base.shapes }
        ensures { self.new ≡ record { base = self.old.base; runs = self.old.runs; own = Some own; at = self.old.at } }
    {
        own.well_made();
        self.own = Some(own);
    }

    /// The room for runs, empty again. It takes no memory.
    pub fn into_buf(self) -> SnapBuf
        ensures { result ≡ [] }
    {
        let Snapshot { buf, .. } = self;
        buf.emptied()
    }

    /// The version.
    pub fn version(&self) -> u64
        ensures value { result ≡ self.now.at }
        ensures cover { Cover self.now.base.no self.now.runs self.now.at }
    {
        self.at
    }

    /// The version of the base.
    pub fn base_no(&self) -> u64
        ensures { result ≡ self.now.base.no }
    {
        self.base.get().no()
    }

    /// The base.
    pub(crate) fn base(&self) -> &Base
        ensures { result.now ≡ self.now.base }
    {
        self.base.get()
    }

    /// The runs, the oldest first.
    pub(crate) fn runs(&self) -> &[Shared<Run>]
        ensures { result.now ≡ self.now.runs }
    {
        self.buf.as_slice()
    }

    /// The own writes, if there are any.
    pub(crate) fn own(&self) -> Option<&Run>
        ensures { option_copied result ≡ self.now.own }
    {
        self.own.as_ref()
    }

    /// That the parts are well made, and that the tables fit the shapes. It does nothing.
    pub(crate) fn fits(&self)
        ensures made { IsSnapshot self.now }
        ensures tables { FitTables self.now.base.shapes (tables_of self.now) }
    {
        let _ = &self.base;
    }

    /// The rows of a table, in order of their keys. The writes of the runs to the table are put together first, so only want of
    /// memory refuses it; the walk takes none.
    pub fn scan(&self, alloc: Global, table: TableNo) -> Result<Scan<'_>, AllocError>
        ensures { IfOk result (λ scan. scan ≡ held_in table (tables_of self.now)) }
    {
        self.fits();
        let older = with_runs(alloc, self.runs(), table, Vec::new(alloc))?;
        let changes = with_own(alloc, self.own(), table, older)?;
        Ok(Scan::new(self.base().rows(table), changes))
    }

    /// What the own writes say of a row, or else the newest of the runs.
    fn newest<L: Ledger>(&self, table: TableNo, key: &Key, steps: &mut Steps<L>) -> Found<'_>
        ensures value { said result ≡ said_in table key.now.values (parts self.now) }
        ensures counts { Counts (said result) steps.old steps.new }
        ensures cost { steps.new ≤ steps.old + runs_cost table (parts self.now) }
    {
        let runs = self.buf.as_slice();
        match &self.own {
            Some(own) => match own.find(table, key, steps) {
                Found::Absent => newest(runs, table, key, steps),
                Found::Gone => Found::Gone,
                Found::Row(row) => Found::Row(row),
            },
            None => newest(runs, table, key, steps),
        }
    }

    /// The row of a table with a key, None exactly where there is none.
    pub(crate) fn found<L: Ledger>(
        &self,
        table: TableNo,
        key: &Key,
        steps: &mut Steps<L>,
    ) -> Option<&Row>
        ensures value { option_copied result ≡ row_at (tables_of self.now) table key.now }
        ensures counts { steps.old + 1 ≤ steps.new }
        ensures cost { steps.new ≤ steps.old + find_cost self.now table }
    {
        match self.newest(table, key, steps) {
            Found::Row(row) => Some(row),
            Found::Gone => None,
            Found::Absent => match self.base.get().row(table, key, steps) {
                Some(stored) => Some(&stored.row),
                None => None,
            },
        }
    }
}
