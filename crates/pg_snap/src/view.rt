//! A snapshot as a view.
ghost use Rattle.std.specs.Prelude.{◌≡◌, ◌≤◌, ◌+◌, ◌*◌, ◌==◌, ◌++◌, ◌<◌, [], length, map, cond, slice_get, IfOk, OnOk, OnErr};
ghost use Rattle.std.specs.declared.option.Option.TheVariants.{Some};
ghost use Rattle.std.specs.Int.{bit_at};
ghost use Rattle.std.specs.List.{cons_option};
ghost use Rattle.pg_value.specs.Tables.{held_in};
ghost use Rattle.pg_value.specs.Graph.{elem_of};
ghost use Rattle.pg_meaning.specs.Reads.{elements_of};
ghost use Rattle.pg_view.specs.Neighbours as sides;
ghost use Rattle.pg_view.specs.Neighbours.{neighbours_at};
ghost use Rattle.pg_view.specs.Standing.{standing, standing_at, BeginsWith};
ghost use Rattle.pg_snap.specs.Costs as costs;
ghost use Rattle.pg_snap.specs.Costs.{base_search, entries, find_cost, runs_cost, runs_search};
ghost use Rattle.pg_snap.specs.Snapshots.{parts, tables_of};
ghost use Rattle.pg_snap.specs.Under as spec;
ghost use Rattle.pg_snap.specs.Under.{plain, plains};

use crate::Snapshot;
use crate::reached::{Reached, all_reached, under_own, under_runs};
use pg_value::{
    Dir, EdgeNo, EdgeShape, ElemId, GraphShape, Key, List, Row, Shapes, Steps, TableNo, TableSet,
    copy_key,
};
use pg_view::{Neighbour, View};
use std::alloc::{AllocError, Global};
use std::sync::ledger::Ledger;

/// Whether a number has the bit at a place.
fn has_bit(bits: u64, at: u32) -> bool
    requires { at < 64 }
    ensures { result ≡ (bit_at bits at == 1) }
{
    bits >> at & 1 == 1
}

/// An element of a table.
fn element(alloc: Global, table: TableNo, key: &Key) -> Result<ElemId, AllocError>
    ensures { IfOk result (λ elem. elem ≡ record { table = table; key = key.now }) }
{
    Ok(ElemId {
        table,
        key: copy_key(alloc, key)?,
    })
}

/// The table of the vertices at an end of an edge table.
fn end_table(shape: &EdgeShape, dir: Dir) -> TableNo
    ensures { result ≡ sides.end_table shape.now dir }
{
    match dir {
        Dir::Out => shape.source,
        Dir::In => shape.dest,
    }
}

/// The table of the vertices at the other end.
fn other_table(shape: &EdgeShape, dir: Dir) -> TableNo
    ensures { result ≡ sides.other_table shape.now dir }
{
    match dir {
        Dir::Out => shape.dest,
        Dir::In => shape.source,
    }
}

impl Snapshot {
    /// The edges of an edge table that name a vertex at that end: those of the base, and under them those of the runs and of
    /// the own writes.
    fn reached<L: Ledger>(
        &self,
        alloc: Global,
        edge: EdgeNo,
        shape: &EdgeShape,
        dir: Dir,
        vertex: &Key,
        steps: &mut Steps<L>,
    ) -> Result<Vec<Reached<'_>>, AllocError>
        requires { slice_get self.now.base.shapes.edges edge.0 ≡ Some shape.now }
        ensures value { IfOk result (λ all. plains all.items ≡ spec.reached_in self.now edge shape.now dir vertex.now.values) }
        ensures counts { steps.old ≤ steps.new }
        ensures cost { steps.new ≤ steps.old + (base_search self.now.base edge + runs_search edge (parts self.now)) + entries self.now edge dir vertex.now.values * runs_cost shape.now.table (parts self.now) }
    {
        self.fits();
        let olds = all_reached(alloc, self.base().sides(edge, dir, vertex, steps))?;
        let news = under_runs(alloc, self.runs(), edge, shape, dir, vertex, olds, steps)?;
        under_own(alloc, self.own(), edge, shape, dir, vertex, news, steps)
    }

    /// Appends an edge, where the vertex at its other end stands. After want of memory `out` is as before.
    fn push_standing<L: Ledger>(
        &self,
        alloc: Global,
        tables: (TableNo, TableNo),
        reached: Reached<'_>,
        out: &mut List<Neighbour>,
        steps: &mut Steps<L>,
    ) -> Result<(), AllocError>
        ensures ok { OnOk result (out.new ≡ out.old ++ cons_option (standing (tables_of self.now) tables.0 tables.1 (plain reached.entry).edge (plain reached.entry).other) []) }
        ensures err { OnErr result (out.new ≡ out.old) }
        ensures counts { steps.old + 1 ≤ steps.new }
        ensures cost { steps.new ≤ steps.old + (1 + find_cost self.now tables.1) }
    {
        steps.tick();
        if self.found(tables.1, reached.other, steps).is_some() {
            let edge = element(alloc, tables.0, reached.edge)?;
            let other = element(alloc, tables.1, reached.other)?;
            out.push(Neighbour { edge, other })?;
        }
        Ok(())
    }

    /// Appends those edges of which the vertices at the other ends stand.
    fn push_all_standing<L: Ledger>(
        &self,
        alloc: Global,
        tables: (TableNo, TableNo),
        all: &[Reached<'_>],
        out: &mut List<Neighbour>,
        steps: &mut Steps<L>,
    ) -> Result<(), AllocError>
        ensures ok { OnOk result (out.new ≡ out.old ++ spec.all_standing (tables_of self.now) tables.0 tables.1 (plains all.now)) }
        ensures front { BeginsWith out.old out.new }
        ensures counts { steps.old ≤ steps.new }
        ensures cost { steps.new ≤ steps.old + length all.now * (1 + find_cost self.now tables.1) }
    {
        'edges: for reached in all {
            match self.push_standing(alloc, tables, *reached, out, steps) {
                Ok(()) => {}
                Err(failed) => return Err(failed),
            }
        }
        Ok(())
    }

    /// Appends the edges of an edge table at a vertex that stands.
    fn push_found<L: Ledger>(
        &self,
        alloc: Global,
        edge: EdgeNo,
        shape: &EdgeShape,
        dir: Dir,
        vertex: &Key,
        out: &mut List<Neighbour>,
        steps: &mut Steps<L>,
    ) -> Result<(), AllocError>
        requires { slice_get self.now.base.shapes.edges edge.0 ≡ Some shape.now }
        ensures ok { OnOk result (out.new ≡ out.old ++ standing_at (tables_of self.now) shape.now dir vertex.now) }
        ensures front { BeginsWith out.old out.new }
        ensures counts { steps.old ≤ steps.new }
        ensures cost { steps.new ≤ steps.old + costs.group_cost self.now edge dir vertex.now shape.now }
    {
        self.fits();
        let tables = (shape.table, other_table(shape, dir));
        let all = self.reached(alloc, edge, shape, dir, vertex, steps)?;
        self.push_all_standing(alloc, tables, all.as_slice(), out, steps)
    }

    /// Appends the edges of an edge table at a vertex. After want of memory some of them are appended.
    fn push_neighbours<L: Ledger>(
        &self,
        alloc: Global,
        edge: EdgeNo,
        dir: Dir,
        vertex: &Key,
        out: &mut List<Neighbour>,
        steps: &mut Steps<L>,
    ) -> Result<(), AllocError>
        ensures ok { OnOk result (out.new ≡ out.old ++ neighbours_at self.now.base.shapes (tables_of self.now) edge dir vertex.now) }
        ensures front { BeginsWith out.old out.new }
        ensures counts { steps.old + 1 ≤ steps.new }
        ensures cost { steps.new ≤ steps.old + costs.hop_cost self.now edge dir vertex.now }
    {
        match self.base().shapes().edges.get(edge.0 as usize) {
            Some(shape) => match self.found(end_table(shape, dir), vertex, steps) {
                Some(_) => self.push_found(alloc, edge, shape, dir, vertex, out, steps),
                None => Ok(()),
            },
            None => {
                steps.tick();
                Ok(())
            }
        }
    }

    /// Appends the rows of a table as elements. After want of memory some of them are appended.
    fn push_rows(
        &self,
        alloc: Global,
        table: TableNo,
        out: &mut List<ElemId>,
    ) -> Result<(), AllocError>
        ensures { OnOk result (out.new ≡ out.old ++ map elem_of (held_in table (tables_of self.now))) }
    {
        let mut rows = self.scan(alloc, table)?;
        while let Some(held) = rows.next() {
            out.push(element(alloc, table, held.key)?)?;
        }
        Ok(())
    }

    /// The same, where the table's bit is set.
    fn push_elements(
        &self,
        alloc: Global,
        bits: u64,
        table: u32,
        out: &mut List<ElemId>,
    ) -> Result<(), AllocError>
        requires { table < 64 }
        ensures { OnOk result (out.new ≡ out.old ++ cond (bit_at bits table == 1) (map elem_of (held_in (record { 0 = table }) (tables_of self.now))) []) }
    {
        if !has_bit(bits, table) {
            return Ok(());
        }
        self.push_rows(alloc, TableNo(table), out)
    }

    /// The rows of the tables of which the bits are set.
    fn elements_in(&self, alloc: Global, bits: u64) -> Result<List<ElemId>, AllocError>
        ensures { IfOk result (λ elements. elements ≡ elements_of (tables_of self.now) (record { 0 = bits })) }
    {
        self.fits();
        let mut out = List::new(alloc);
        for table in 0..64 {
            self.push_elements(alloc, bits, table, &mut out)?;
        }
        Ok(out)
    }
}

impl View for Snapshot {
    ghost use Rattle.pg_snap.specs.Snapshots.{tables_of};
    ghost use Rattle.pg_snap.specs.Costs.{find_cost, hop_cost};

    ghost shapes = { λ s. s.base.shapes };

    ghost tables = { tables_of };

    ghost row_cost = { find_cost };

    ghost hop_cost = { hop_cost };

    fn shapes(&self) -> &Shapes {
        self.base().shapes()
    }

    fn row<L: Ledger>(&self, table: TableNo, key: &Key, steps: &mut Steps<L>) -> Option<&Row> {
        self.found(table, key, steps)
    }

    fn neighbours<L: Ledger>(
        &self,
        alloc: Global,
        edge: EdgeNo,
        dir: Dir,
        vertex: &Key,
        out: &mut List<Neighbour>,
        steps: &mut Steps<L>,
    ) -> Result<(), AllocError> {
        let before = out.len();
        match self.push_neighbours(alloc, edge, dir, vertex, out, steps) {
            Ok(()) => Ok(()),
            Err(failed) => {
                out.truncate(before);
                Err(failed)
            }
        }
    }

    fn elements(
        &self,
        alloc: Global,
        _graph: &GraphShape,
        set: TableSet,
    ) -> Result<List<ElemId>, AllocError> {
        self.elements_in(alloc, set.0)
    }

    fn well_made(&self) {
        self.fits();
    }
}
