//! The edges of one edge table, by the vertices at one of their ends, under the writes of a run.
ghost use Rattle.std.specs.Prelude.{◌≡◌, slice_get, IfOk, OnOk};
ghost use Rattle.std.specs.Option.{option_copied};
ghost use Rattle.std.specs.declared.option.Option.TheVariants.{Some};
ghost use Rattle.pg_keyed.specs.Keyed.{Each};
ghost use Rattle.pg_value.specs.Tables.{IsInOrder};
ghost use Rattle.pg_value.specs.TablesLaws.{writes_to};
ghost use Rattle.pg_value.specs.Log.{put};
ghost use Rattle.pg_view.specs.Lists.{Hold, joined};
ghost use Rattle.pg_run.specs.Cuts.{write_ends};
ghost use Rattle.pg_snap.specs.Bases.{ends_held};
ghost use Rattle.pg_snap.specs.Sides.{AreSides};
ghost use Rattle.pg_snap.specs.Folds as spec;
ghost use Rattle.pg_snap.specs.Folds.{AreMore, Has, HasEnd, HasBoth, IsNew};

use crate::ends::stored_ends;
use crate::reached::{all_reached, under_run};
use crate::sides::sides_at;
use crate::vertex::{Side, Vertex};
use crate::vertices::{add_vertex, copied_sides, copies, end_of};
use pg_adj::EdgeEnds;
use pg_chunks::{Chunks, Steps};
use pg_rows::RowArrays;
use pg_run::{Run, row_ends};
use pg_shared::SharedChunks;
use pg_value::{Dir, EdgeNo, EdgeShape, Key, List, Write};
use std::alloc::{AllocError, Global};
use std::sync::ledger::Ledger;

/// An edge table of a version, seen from one of its ends: the rows of the version, the edges by the vertices there, and the run
/// that is put on them.
#[derive(Clone, Copy)]
pub struct Fold<'a> {
    pub rows: &'a RowArrays,
    pub old: &'a SharedChunks<Vertex>,
    pub run: &'a Run,
    pub edge: EdgeNo,
    pub shape: &'a EdgeShape,
    pub dir: Dir,
}

impl<'a> Fold<'a> {
    /// The edges at a vertex under the run.
    fn new_sides<L: Ledger>(
        &self,
        alloc: Global,
        vertex: &Key,
        steps: &mut Steps<L>,
    ) -> Result<List<Side>, AllocError>
        requires { spec.HasShape self.now }
        ensures { IfOk result (λ sides. sides ≡ spec.new_sides self.now vertex.now.values) }
    {
        let olds = all_reached(alloc, sides_at(self.old, vertex, steps))?;
        let news = under_run(
            alloc, self.run, self.edge, self.shape, self.dir, vertex, olds, steps,
        )?;
        copied_sides(alloc, news.as_slice())
    }

    /// Adds a vertex with its edges under the run, unless it is there.
    fn touch<L: Ledger>(
        &self,
        alloc: Global,
        vertex: &Key,
        touched: &mut Chunks<Vertex>,
        steps: &mut Steps<L>,
    ) -> Result<(), AllocError>
        requires { spec.HasShape self.now }
        ensures more { OnOk result (AreMore (IsNew self.now) touched.old touched.new) }
        ensures there { OnOk result (Has vertex.now.values touched.new) }
    {
        match touched.place_of(vertex) {
            Ok(_) => Ok(()),
            Err(at) => {
                let sides = self.new_sides(alloc, vertex, steps)?;
                add_vertex(alloc, touched, at, vertex, sides)
            }
        }
    }

    /// The same of the vertex at that end of an edge, if there is one.
    fn touch_end<L: Ledger>(
        &self,
        alloc: Global,
        ends: Option<EdgeEnds>,
        touched: &mut Chunks<Vertex>,
        steps: &mut Steps<L>,
    ) -> Result<(), AllocError>
        requires { spec.HasShape self.now }
        ensures more { OnOk result (AreMore (IsNew self.now) touched.old touched.new) }
        ensures there { OnOk result (HasEnd self.now.dir ends touched.new) }
    {
        match &ends {
            Some(ends) => self.touch(alloc, end_of(ends, self.dir), touched, steps),
            None => Ok(()),
        }
    }

    /// The same of the row that a write takes the place of, if there is one that names both ends.
    fn touch_old<L: Ledger>(
        &self,
        alloc: Global,
        write: &Write,
        touched: &mut Chunks<Vertex>,
        steps: &mut Steps<L>,
    ) -> Result<(), AllocError>
        requires { spec.HasShape self.now }
        ensures more { OnOk result (AreMore (IsNew self.now) touched.old touched.new) }
        ensures there { OnOk result (HasEnd self.now.dir (spec.old_ends self.now write.now) touched.new) }
    {
        match self.rows.get(self.shape.table, &write.key, steps) {
            Some(stored) => {
                let ends = stored_ends(alloc, self.shape, stored)?;
                self.touch_end(alloc, ends, touched, steps)
            }
            None => Ok(()),
        }
    }

    /// The same of the row that a write gives, if it gives one that names both ends.
    fn touch_new<L: Ledger>(
        &self,
        alloc: Global,
        write: &Write,
        touched: &mut Chunks<Vertex>,
        steps: &mut Steps<L>,
    ) -> Result<(), AllocError>
        requires { spec.HasShape self.now }
        ensures more { OnOk result (AreMore (IsNew self.now) touched.old touched.new) }
        ensures there { OnOk result (HasEnd self.now.dir (write_ends self.now.shape.now write.now) touched.new) }
    {
        match &write.row {
            Some(row) => {
                let ends = row_ends(alloc, self.shape, &write.key, row)?;
                self.touch_end(alloc, ends, touched, steps)
            }
            None => Ok(()),
        }
    }

    /// The same of both.
    fn touch_both<L: Ledger>(
        &self,
        alloc: Global,
        write: &Write,
        touched: &mut Chunks<Vertex>,
        steps: &mut Steps<L>,
    ) -> Result<(), AllocError>
        requires { spec.HasShape self.now }
        ensures more { OnOk result (AreMore (IsNew self.now) touched.old touched.new) }
        ensures there { OnOk result (HasBoth self.now touched.new write.now) }
    {
        self.touch_old(alloc, write, touched, steps)?;
        self.touch_new(alloc, write, touched, steps)
    }

    /// The vertices at that end of all edges that the run changes, with their edges under the run.
    fn touched<L: Ledger>(
        &self,
        alloc: Global,
        steps: &mut Steps<L>,
    ) -> Result<Chunks<Vertex>, AllocError>
        requires { spec.HasShape self.now }
        ensures new { IfOk result (λ touched. Each (IsNew self.now) touched) }
        ensures all { IfOk result (λ touched. Each (HasBoth self.now touched) (writes_to self.now.shape.now.table self.now.run.now.writes)) }
    {
        let mut touched = Chunks::new(alloc);
        'writes: for write in self.run.writes(self.shape.table) {
            match self.touch_both(alloc, write, &mut touched, steps) {
                Ok(()) => {}
                Err(failed) => return Err(failed),
            }
        }
        Ok(touched)
    }

    /// The edges under the run, by the vertices at that end. Only want of memory refuses it.
    pub fn vertices<L: Ledger>(
        &self,
        alloc: Global,
        steps: &mut Steps<L>,
    ) -> Result<SharedChunks<Vertex>, AllocError>
        requires shape { spec.HasShape self.now }
        requires hold { Hold self.now.rows.now (joined self.now.rows.now) }
        requires in_order { IsInOrder (joined self.now.rows.now) }
        requires sides { AreSides self.now.dir (ends_held (joined self.now.rows.now) self.now.shape.now) self.now.old.now }
        ensures { IfOk result (AreSides self.now.dir (ends_held (put (joined self.now.rows.now) self.now.run.now.writes) self.now.shape.now)) }
    {
        self.run.well_made();
        let _ = self.old.len();
        let touched = self.touched(alloc, steps)?;
        let changes = copies(alloc, &touched)?;
        self.old.merged(alloc, changes.as_slice())
    }
}
