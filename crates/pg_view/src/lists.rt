//! A view of one list of rows for each table.
ghost use Rattle.std.specs.Prelude.{◌≡◌, ◌≤◌, ◌+◌, ◌*◌, ◌==◌, ◌++◌, [], length, cond, map, IfOk, OnOk, OnErr, IfSome, slice_get};
ghost use Rattle.std.specs.declared.option.Option.TheVariants.{Some};
ghost use Rattle.std.specs.Int.{bit_at};
ghost use Rattle.std.specs.List.{cons_option};
ghost use Rattle.std.specs.Option.{option_copied};
ghost use Rattle.pg_value.specs.Tables.{Tables, FitTables, stored_at, held_in};
ghost use Rattle.pg_value.specs.Graph.{elem_of};
ghost use Rattle.pg_meaning.specs.Reads.{row_at, elements_of};
ghost use Rattle.pg_meaning.specs.Sound.Graphs.{AreSoundShapes};
ghost use Rattle.pg_view.specs.Lists as spec;
ghost use Rattle.pg_view.specs.Lists.{AreLists, Hold, joined};
ghost use Rattle.pg_adj.specs.Groups.{AreGroups};
ghost use Rattle.pg_view.specs.RowEnds.{all_ends};
ghost use Rattle.pg_view.specs.Neighbours.{end_table, other_table, neighbours_at};
ghost use Rattle.pg_view.specs.Standing.{standing, all_standing, standing_at, BeginsWith};
ghost use Rattle.pg_view.specs.Sides.{AreSides};

use crate::ends::ends_of;
use crate::rows::stored_in;
use crate::sides::{Sides, all_sides, side_at};
use crate::{Neighbour, View};
use pg_adj::Ends;
use pg_chunks::{Chunks, Steps};
use pg_value::{
    Dir, EdgeNo, EdgeShape, ElemId, GraphShape, Key, List, Row, Shapes, Stored, TableNo, TableSet,
    copy_key,
};
use std::alloc::{AllocError, Global};
use std::marker::Model;
use std::sync::ledger::Ledger;

/// A view of one list of rows for each table, in order of their keys. Rows are found by halving, and the edges at a vertex in
/// what is built for the edge tables that are asked for when the view is made; for others it is built at each call.
#[derive(Drop)]
pub struct Lists<'a> {
    shapes: &'a Shapes,
    lists: &'a [Chunks<Stored>],
    sides: Vec<Sides>,
}

impl<'a> Model for Lists<'a> {
    ghost use Rattle.pg_view.specs.Lists.{Version, joined, AreLists};
    ghost use Rattle.pg_view.specs.Sides.{AreSides};

    ghost Value = { Version };

    ghost view = { λ l. record { shapes = l.shapes.now; tables = joined l.lists.now } };

    ghost invariant = { λ l. AreLists l.shapes.now l.lists.now × AreSides l.lists.now l.shapes.now.edges l.sides.items };
}

/// Whether a number has the bit at a place.
fn has_bit(bits: u64, at: usize) -> bool
    ensures { result ≡ (bit_at bits at == 1) }
{
    at < 64 && bits >> at & 1 == 1
}

/// Appends the rows of the table of a number as elements, where the set has it. After want of memory some of them are appended.
fn push_elements(
    alloc: Global,
    set: TableSet,
    table: usize,
    rows: &Chunks<Stored>,
    out: &mut List<ElemId>,
) -> Result<(), AllocError>
    ensures { OnOk result (out.new ≡ out.old ++ cond (bit_at set.0 table == 1) (map elem_of rows.now) []) }
{
    if !has_bit(set.0, table) {
        return Ok(());
    }
    push_all(alloc, rows, out)
}

/// Appends all rows of a table as elements, chunk by chunk. After want of memory some of them are appended.
fn push_all(alloc: Global, rows: &Chunks<Stored>, out: &mut List<ElemId>) -> Result<(), AllocError>
    ensures { OnOk result (out.new ≡ out.old ++ map elem_of rows.now) }
{
    let mut at = 0;
    'runs: while at < rows.len() {
        let run = rows.run(at);
        match push_rows(alloc, run, out) {
            Ok(()) => at += run.len(),
            Err(failed) => return Err(failed),
        }
    }
    Ok(())
}

/// Appends rows as elements. After want of memory some of them are appended.
fn push_rows(alloc: Global, rows: &[Stored], out: &mut List<ElemId>) -> Result<(), AllocError>
    ensures { OnOk result (out.new ≡ out.old ++ map elem_of rows.now) }
{
    for stored in rows {
        let elem = element(alloc, stored.table, &stored.key)?;
        out.push(elem)?;
    }
    Ok(())
}

/// The rows of the tables of a set.
fn elements_in(
    alloc: Global,
    lists: &[Chunks<Stored>],
    set: TableSet,
) -> Result<List<ElemId>, AllocError>
    requires { Hold lists.now (joined lists.now) }
    ensures { IfOk result (λ elements. elements ≡ elements_of (joined lists.now) set) }
{
    let mut out = List::new(alloc);
    for (table, rows) in lists.iter().enumerate() {
        push_elements(alloc, set, table, rows, &mut out)?;
    }
    Ok(out)
}

/// The table of the vertices at an end of an edge table.
fn end_table(shape: &EdgeShape, dir: Dir) -> TableNo
    ensures { result ≡ end_table shape.now dir }
{
    match dir {
        Dir::Out => shape.source,
        Dir::In => shape.dest,
    }
}

/// The table of the vertices at the other end.
fn other_table(shape: &EdgeShape, dir: Dir) -> TableNo
    ensures { result ≡ other_table shape.now dir }
{
    match dir {
        Dir::Out => shape.dest,
        Dir::In => shape.source,
    }
}

impl<'a> Lists<'a> {
    /// A view of shapes and of one list of rows for each table, by its number. The edges of the edge tables `out` are built by
    /// their sources, and those of `into` by their destinations, so that they are found by halving; those of others are found
    /// too, but more slowly. Only want of memory refuses it.
    pub fn new(
        alloc: Global,
        shapes: &'a Shapes,
        lists: &'a [Chunks<Stored>],
        out: &[EdgeNo],
        into: &[EdgeNo],
    ) -> Result<Lists<'a>, AllocError>
        requires { AreLists shapes.now lists.now }
        ensures { IfOk result (λ view. view ≡ record { shapes = shapes.now; tables = joined lists.now }) }
    {
        let sides = all_sides(alloc, shapes.edges.as_slice(), lists, out, into)?;
        Ok(Lists {
            shapes,
            lists,
            sides,
        })
    }

    /// The row of a table with a key.
    fn stored<L: Ledger>(&self, table: TableNo, key: &Key, steps: &mut Steps<L>) -> Option<&Stored>
        ensures value { option_copied result ≡ stored_at (table.0, key.now.values) self.now.tables }
        ensures counts { steps.old + 1 ≤ steps.new }
        ensures cost { steps.new ≤ steps.old + spec.row_cost self.now table }
    {
        stored_in(self.lists, table, key, steps)
    }

    /// Appends an edge, where the vertex at its other end stands. After want of memory `out` is as before.
    fn push_standing<L: Ledger>(
        &self,
        alloc: Global,
        tables: (TableNo, TableNo),
        edge: &Key,
        other: &Key,
        out: &mut List<Neighbour>,
        steps: &mut Steps<L>,
    ) -> Result<(), AllocError>
        ensures ok { OnOk result (out.new ≡ out.old ++ cons_option (standing self.now.tables tables.0 tables.1 edge.now other.now) []) }
        ensures err { OnErr result (out.new ≡ out.old) }
        ensures counts { steps.old + 1 ≤ steps.new }
        ensures cost { steps.new ≤ steps.old + (1 + spec.row_cost self.now tables.1) }
    {
        steps.tick();
        if self.stored(tables.1, other, steps).is_some() {
            let edge = element(alloc, tables.0, edge)?;
            let other = element(alloc, tables.1, other)?;
            out.push(Neighbour { edge, other })?;
        }
        Ok(())
    }

    /// Appends those edges of which the vertices at the other ends stand.
    fn push_all_standing<L: Ledger>(
        &self,
        alloc: Global,
        tables: (TableNo, TableNo),
        edges: &[Key],
        others: &[Key],
        out: &mut List<Neighbour>,
        steps: &mut Steps<L>,
    ) -> Result<(), AllocError>
        requires { length edges.now ≡ length others.now }
        ensures ok { OnOk result (out.new ≡ out.old ++ all_standing self.now.tables tables.0 tables.1 edges.now others.now) }
        ensures front { BeginsWith out.old out.new }
        ensures counts { steps.old ≤ steps.new }
        ensures cost { steps.new ≤ steps.old + length edges.now * (1 + spec.row_cost self.now tables.1) }
    {
        'edges: for (i, edge) in edges.iter().enumerate() {
            match self.push_standing(alloc, tables, edge, &others[i], out, steps) {
                Ok(()) => {}
                Err(failed) => return Err(failed),
            }
        }
        Ok(())
    }

    /// Appends the edges of a group of which the vertices at the other ends stand.
    fn push_group<L: Ledger>(
        &self,
        alloc: Global,
        shape: &EdgeShape,
        dir: Dir,
        ends: &Ends,
        vertex: &Key,
        out: &mut List<Neighbour>,
        steps: &mut Steps<L>,
    ) -> Result<(), AllocError>
        requires { AreGroups dir (all_ends shape.now (held_in shape.now.table self.now.tables)) ends.now }
        ensures ok { OnOk result (out.new ≡ out.old ++ standing_at self.now.tables shape.now dir vertex.now) }
        ensures front { BeginsWith out.old out.new }
        ensures counts { steps.old ≤ steps.new }
        ensures cost { steps.new ≤ steps.old + spec.group_cost self.now dir vertex.now shape.now }
    {
        let tables = (shape.table, other_table(shape, dir));
        match ends.group(vertex, steps) {
            Some(group) => {
                let edges = group.edges.as_slice();
                let others = group.others.as_slice();
                self.push_all_standing(alloc, tables, edges, others, out, steps)
            }
            None => Ok(()),
        }
    }

    /// Appends the edges of an edge table at a vertex that stands. Where they were not asked for, they are found among its rows.
    fn push_found<L: Ledger>(
        &self,
        alloc: Global,
        edge: EdgeNo,
        shape: &EdgeShape,
        dir: Dir,
        vertex: &Key,
        out: &mut List<Neighbour>,
        steps: &mut Steps<L>,
    ) -> Result<(), AllocError>
        requires { slice_get self.now.shapes.edges edge.0 ≡ Some shape.now }
        ensures ok { OnOk result (out.new ≡ out.old ++ standing_at self.now.tables shape.now dir vertex.now) }
        ensures front { BeginsWith out.old out.new }
        ensures counts { steps.old ≤ steps.new }
        ensures cost { steps.new ≤ steps.old + spec.group_cost self.now dir vertex.now shape.now }
    {
        match side_at(self.sides.as_slice(), edge, dir) {
            Some(ends) => self.push_group(alloc, shape, dir, ends, vertex, out, steps),
            None => {
                let ends = ends_of(alloc, shape, self.lists, dir)?;
                self.push_group(alloc, shape, dir, &ends, vertex, out, steps)
            }
        }
    }

    /// Appends the edges of an edge table at a vertex. After want of memory some of them are appended.
    fn push_neighbours<L: Ledger>(
        &self,
        alloc: Global,
        edge: EdgeNo,
        dir: Dir,
        vertex: &Key,
        out: &mut List<Neighbour>,
        steps: &mut Steps<L>,
    ) -> Result<(), AllocError>
        ensures ok { OnOk result (out.new ≡ out.old ++ neighbours_at self.now.shapes self.now.tables edge dir vertex.now) }
        ensures front { BeginsWith out.old out.new }
        ensures counts { steps.old + 1 ≤ steps.new }
        ensures cost { steps.new ≤ steps.old + spec.hop_cost self.now edge dir vertex.now }
    {
        match self.shapes.edges.get(edge.0 as usize) {
            Some(shape) => match self.stored(end_table(shape, dir), vertex, steps) {
                Some(_) => self.push_found(alloc, edge, shape, dir, vertex, out, steps),
                None => Ok(()),
            },
            None => {
                steps.tick();
                Ok(())
            }
        }
    }
}

/// An element of a table.
fn element(alloc: Global, table: TableNo, key: &Key) -> Result<ElemId, AllocError>
    ensures { IfOk result (λ elem. elem ≡ record { table = table; key = key.now }) }
{
    Ok(ElemId {
        table,
        key: copy_key(alloc, key)?,
    })
}

impl<'a> View for Lists<'a> {
    ghost shapes = { λ v. v.shapes };

    ghost tables = { λ v. v.tables };

    ghost row_cost = { spec.row_cost };

    ghost hop_cost = { spec.hop_cost };

    fn shapes(&self) -> &Shapes {
        self.shapes
    }

    fn row<L: Ledger>(&self, table: TableNo, key: &Key, steps: &mut Steps<L>) -> Option<&Row> {
        match self.stored(table, key, steps) {
            Some(stored) => Some(&stored.row),
            None => None,
        }
    }

    fn neighbours<L: Ledger>(
        &self,
        alloc: Global,
        edge: EdgeNo,
        dir: Dir,
        vertex: &Key,
        out: &mut List<Neighbour>,
        steps: &mut Steps<L>,
    ) -> Result<(), AllocError> {
        let before = out.len();
        match self.push_neighbours(alloc, edge, dir, vertex, out, steps) {
            Ok(()) => Ok(()),
            Err(failed) => {
                out.truncate(before);
                Err(failed)
            }
        }
    }

    fn elements(
        &self,
        alloc: Global,
        _graph: &GraphShape,
        set: TableSet,
    ) -> Result<List<ElemId>, AllocError> {
        elements_in(alloc, self.lists, set)
    }

    fn well_made(&self) {
        let _ = &self.lists;
    }
}
