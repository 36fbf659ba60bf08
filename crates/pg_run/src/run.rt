//! The writes of versions that follow one another.
ghost use Rattle.std.specs.Prelude.{◌≡◌, ◌≤◌, ◌+◌, ◌-◌, [], length, get_or, map, IfOk};
ghost use Rattle.std.specs.Option.{option_copied};
ghost use Rattle.pg_chunks.specs.Digits.{digits};
ghost use Rattle.pg_value.specs.Tables.{FitWrites};
ghost use Rattle.pg_keyed.specs.Lists.{Each};
ghost use Rattle.pg_keyed.specs.Keyed.{Ascends};
ghost use Rattle.pg_value.specs.declared.shape.TableNo.{TableNo};
ghost use Rattle.pg_value.specs.Order.{key_cmp};
ghost use Rattle.pg_value.specs.TablesLaws.{key_named, writes_to};
ghost use Rattle.pg_value.specs.Writes.{IsInOrder, merge};
ghost use Rattle.pg_adj.specs.Groups as groups;
ghost use Rattle.pg_run.specs.Runs.{said, said_at, ends_in_run, entries_in_run};
ghost use Rattle.pg_run.specs.Cuts.{AreCut, joined};

use crate::cut::{cut, writes_of};
use crate::ends::ends_of;
use crate::find::write_of;
use crate::merge::merged_writes;
use pg_adj::{Adj, Group};
use pg_value::{Dir, EdgeNo, Key, List, Row, Shapes, Shared, Steps, TableNo, Write, Writes};
use std::alloc::{AllocError, Global};
use std::marker::Model;
use std::sync::ledger::Ledger;

/// What a run says of a row: nothing, that it is gone, or what it is.
#[derive(Clone, Copy)]
pub enum Found<'a> {
    Row(&'a Row),
    Gone,
    Absent,
}

/// The writes of versions that follow one another, or the own writes of a transaction: of each key the last, in order of table
/// and key, and the edges that these writes give, by the vertices at their ends. The rows are shared with the log.
#[derive(Drop)]
pub struct Run {
    shapes: Shared<Shapes>,
    after: u64,
    last: u64,
    tables: Vec<List<Write>>,
    ends: Adj,
}

impl Model for Run {
    ghost use Rattle.pg_run.specs.Runs.{RunOf};
    ghost use Rattle.pg_value.specs.Tables.{FitWrites};
    ghost use Rattle.pg_run.specs.Cuts.{AreCut, AreEnds, joined};

    ghost Value = { RunOf };

    ghost view = { λ r. record { shapes = r.shapes; after = r.after; last = r.last; writes = joined r.tables.items } };

    ghost invariant = { λ r. AreCut 0 r.tables.items × FitWrites r.shapes (joined r.tables.items) × AreEnds r.shapes.edges (joined r.tables.items) r.ends };
}

/// The run of some versions and of one list of writes for each table.
fn run_of(
    alloc: Global,
    shapes: Shared<Shapes>,
    after: u64,
    last: u64,
    tables: Vec<List<Write>>,
) -> Result<Run, AllocError>
    requires cut { AreCut 0 tables.items }
    requires fit { FitWrites shapes (joined tables.items) }
    ensures { IfOk result (λ run. run ≡ record { shapes = shapes; after = after; last = last; writes = joined tables.items }) }
{
    let ends = ends_of(alloc, shapes.get().edges.as_slice(), tables.as_slice())?;
    Ok(Run {
        shapes,
        after,
        last,
        tables,
        ends,
    })
}

/// The run of some versions and of a list of writes.
fn run_over(
    alloc: Global,
    writes: &Writes,
    after: u64,
    last: u64,
    shapes: &Shared<Shapes>,
) -> Result<Run, AllocError>
    requires { FitWrites shapes.now writes.now.list }
    ensures { IfOk result (λ run. run ≡ record { shapes = shapes.now; after = after; last = last; writes = writes.now.list }) }
{
    let tables = cut(alloc, writes, shapes.get().tables.len())?;
    run_of(alloc, shapes.share()?, after, last, tables)
}

impl Run {
    /// The run of one version, from 1, and of what its commit wrote. Only want of memory refuses it.
    pub fn of(
        alloc: Global,
        writes: &Writes,
        at: u64,
        shapes: &Shared<Shapes>,
    ) -> Result<Run, AllocError>
        requires first { 1 ≤ at }
        requires fit { FitWrites shapes.now writes.now.list }
        ensures { IfOk result (λ run. run ≡ record { shapes = shapes.now; after = at - 1; last = at; writes = writes.now.list }) }
    {
        run_over(alloc, writes, at - 1, at, shapes)
    }

    /// The run of no version: the own writes of a transaction. Only want of memory refuses it.
    pub fn own(alloc: Global, writes: &Writes, shapes: &Shared<Shapes>) -> Result<Run, AllocError>
        requires { FitWrites shapes.now writes.now.list }
        ensures { IfOk result (λ run. run ≡ record { shapes = shapes.now; after = 0; last = 0; writes = writes.now.list }) }
    {
        run_over(alloc, writes, 0, 0, shapes)
    }

    /// The run of the versions of both: where both wrote a key, the newer's write. Keys are copied, rows are shared. Only want
    /// of memory refuses it, and both stay.
    pub fn merge(alloc: Global, older: &Run, newer: &Run) -> Result<Run, AllocError>
        requires shapes { older.now.shapes ≡ newer.now.shapes }
        requires follows { older.now.last ≡ newer.now.after }
        ensures { IfOk result (λ run. run ≡ record { shapes = older.now.shapes; after = older.now.after; last = newer.now.last; writes = merge older.now.writes newer.now.writes }) }
    {
        let tables = merged_writes(alloc, older.tables.as_slice(), newer.tables.as_slice())?;
        run_of(
            alloc,
            older.shapes.share()?,
            older.after,
            newer.last,
            tables,
        )
    }

    /// The version after which the run begins.
    pub fn after(&self) -> u64
        ensures { result ≡ self.now.after }
    {
        self.after
    }

    /// The last version of the run.
    pub fn last(&self) -> u64
        ensures { result ≡ self.now.last }
    {
        self.last
    }

    /// The shapes that the run was made for.
    pub fn shapes(&self) -> &Shapes
        ensures { result.now ≡ self.now.shapes }
    {
        self.shapes.get()
    }

    /// The writes to a table, in order of their keys.
    pub fn writes(&self, table: TableNo) -> &[Write]
        ensures value { result.now ≡ writes_to table self.now.writes }
        ensures in_order { Ascends key_named key_cmp result.now }
    {
        writes_of(self.tables.as_slice(), table.0 as usize)
    }

    /// The writes, one list for each table by its number, each in order of the keys; none to a table beyond the lists.
    pub fn lists(&self) -> &[List<Write>]
        ensures value { (table : TableNo) → get_or result.now table.0 [] ≡ writes_to table self.now.writes }
        ensures in_order { Each (λ ws. Ascends key_named key_cmp ws) result.now }
    {
        self.tables.as_slice()
    }

    /// What the run says of the row of a table with a key. A table without writes takes one step.
    pub fn find<L: Ledger>(&self, table: TableNo, key: &Key, steps: &mut Steps<L>) -> Found<'_>
        ensures value { said result ≡ said_at table key.now.values self.now }
        ensures counts { steps.old + 1 ≤ steps.new }
        ensures cost { steps.new ≤ steps.old + 1 + digits (length (writes_to table self.now.writes)) }
    {
        match write_of(self.writes(table), key, steps) {
            Some(write) => match &write.row {
                Some(row) => Found::Row(row),
                None => Found::Gone,
            },
            None => Found::Absent,
        }
    }

    /// The edges of an edge table that the run's writes give and that have a vertex at that end, each with its other end.
    pub fn group<L: Ledger>(
        &self,
        edge: EdgeNo,
        dir: Dir,
        vertex: &Key,
        steps: &mut Steps<L>,
    ) -> Option<&Group>
        ensures edges { groups.edges_of (option_copied result) ≡ map (λ e. e.edge) (entries_in_run self.now edge dir vertex.now.values) }
        ensures others { groups.others_of (option_copied result) ≡ map (λ e. e.other) (entries_in_run self.now edge dir vertex.now.values) }
        ensures counts { steps.old + 1 ≤ steps.new }
        ensures cost { steps.new ≤ steps.old + 3 + digits (length (ends_in_run self.now edge)) }
    {
        self.ends.group(edge, dir, vertex, steps)
    }

    /// Their keys, in order.
    pub fn edges_of<L: Ledger>(
        &self,
        edge: EdgeNo,
        dir: Dir,
        vertex: &Key,
        steps: &mut Steps<L>,
    ) -> &[Key]
        ensures value { result.now ≡ map (λ e. e.edge) (entries_in_run self.now edge dir vertex.now.values) }
        ensures counts { steps.old + 1 ≤ steps.new }
        ensures cost { steps.new ≤ steps.old + 3 + digits (length (ends_in_run self.now edge)) }
    {
        match self.group(edge, dir, vertex, steps) {
            Some(group) => group.edges.as_slice(),
            None => &[],
        }
    }

    /// That the writes are in order and fit the shapes. It does nothing.
    pub fn well_made(&self)
        ensures in_order { IsInOrder self.now.writes }
        ensures fit { FitWrites self.now.shapes self.now.writes }
    {
        let _ = &self.tables;
    }
}
