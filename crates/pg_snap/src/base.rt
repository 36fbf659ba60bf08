//! A base: all rows of all tables of one version, and the edges of all edge tables by their ends.
ghost use Rattle.std.specs.Prelude.{◌≡◌, ◌≤◌, ◌+◌, [], IfOk};
ghost use Rattle.std.specs.Option.{option_copied, unwrap_or};
ghost use Rattle.pg_chunks.specs.Digits.{digits};
ghost use Rattle.pg_value.specs.Tables.{FitTables, held_in, stored_at};
ghost use Rattle.pg_value.specs.Log.{put};
ghost use Rattle.pg_meaning.specs.Sound.Graphs.{AreSoundShapes};
ghost use Rattle.pg_view.specs.Lists.{AreLists, Hold, joined};
ghost use Rattle.pg_snap.specs.Sides.{AreSidesOf};
ghost use Rattle.pg_snap.specs.Under.{sides_of};
ghost use Rattle.pg_snap.specs.Bases.{entries_in_base};
ghost use Rattle.pg_snap.specs.Costs.{base_cost, base_search};

use crate::sides::Sides;
use crate::vertex::Side;
use pg_chunks::{Chunks, Steps};
use pg_rows::RowArrays;
use pg_run::Run;
use pg_shared::SharedChunks;
use pg_value::{Dir, EdgeNo, Key, Shapes, Shared, Stored, TableNo};
use pg_view::lists_are_tables;
use std::alloc::{AllocError, Global};
use std::marker::{Brand, Model};
use std::sync::ledger::{Blank, Ledger};

/// All rows of one version, one list for each table in order of the keys, and the edges of each edge table by the vertices at
/// both ends. Nothing changes it, and snapshots share it.
#[derive(Drop)]
pub struct Base {
    shapes: Shared<Shapes>,
    no: u64,
    rows: RowArrays,
    sides: Sides,
}

impl Model for Base {
    ghost use Rattle.pg_view.specs.Lists.{AreLists, joined};
    ghost use Rattle.pg_snap.specs.Bases.{BaseOf};
    ghost use Rattle.pg_snap.specs.Sides.{AreSidesOf};

    ghost Value = { BaseOf };

    ghost view = { λ b. record { shapes = b.shapes; no = b.no; tables = joined b.rows } };

    ghost invariant = { λ b. AreLists b.shapes b.rows × AreSidesOf b.shapes.edges (joined b.rows) b.sides };
}

/// The edges of rows, with a counter of its own.
fn built<L: Ledger>(
    alloc: Global,
    blank: Blank,
    shapes: &Shapes,
    rows: &RowArrays,
) -> Result<Sides, AllocError>
    requires name { blank.name ≡ L.name }
    requires parts { blank.parts ≡ L.parts }
    requires one { blank.parts ≡ 1 }
    requires rows { Hold rows.now (joined rows.now) }
    ensures { IfOk result (AreSidesOf shapes.now.edges (joined rows.now)) }
{
    let mut steps = Steps::<L>::start(blank);
    Sides::build(alloc, shapes.edges.as_slice(), rows, &mut steps)
}

impl Base {
    /// The base of a version, of one list of rows for each table, by its number. Only want of memory refuses it.
    pub fn build(
        alloc: Global,
        rows: Vec<Chunks<Stored>>,
        no: u64,
        shapes: &Shared<Shapes>,
    ) -> Result<Base, AllocError>
        requires { AreLists shapes.now rows.items }
        ensures { IfOk result (λ base. base ≡ record { shapes = shapes.now; no = no; tables = joined rows.items }) }
    {
        let rows = RowArrays::build(alloc, rows.as_slice())?;
        let sides = built::<Brand>(alloc, Blank::new(1), shapes.get(), &rows)?;
        Ok(Base {
            shapes: shapes.share()?,
            no,
            rows,
            sides,
        })
    }

    /// The same base, which shares all chunks. Only want of memory refuses it.
    pub fn share(&self, alloc: Global) -> Result<Base, AllocError>
        ensures { IfOk result (λ same. same ≡ self.now) }
    {
        Ok(Base {
            shapes: self.shapes.share()?,
            no: self.no,
            rows: self.rows.share(alloc)?,
            sides: self.sides.share(alloc)?,
        })
    }

    /// The edges under the writes of a run, with a counter of its own.
    fn merged_sides<L: Ledger>(
        &self,
        alloc: Global,
        blank: Blank,
        run: &Run,
    ) -> Result<Sides, AllocError>
        requires name { blank.name ≡ L.name }
        requires parts { blank.parts ≡ L.parts }
        requires one { blank.parts ≡ 1 }
        requires shapes { run.now.shapes ≡ self.now.shapes }
        ensures { IfOk result (AreSidesOf self.now.shapes.edges (put self.now.tables run.now.writes)) }
    {
        let mut steps = Steps::<L>::start(blank);
        let shapes = self.shapes.get().edges.as_slice();
        self.sides
            .merged(alloc, shapes, &self.rows, run, &mut steps)
    }

    /// The base of a later version: this one under the writes of a run that follows it. It shares all chunks of rows that no
    /// write touches, and those of vertices of which it changes no edge, all but a few beside the others. Only want of memory refuses it, and this base stays.
    pub fn merged(&self, alloc: Global, run: &Run) -> Result<Base, AllocError>
        requires shapes { run.now.shapes ≡ self.now.shapes }
        requires follows { run.now.after ≡ self.now.no }
        ensures { IfOk result (λ base. base ≡ record { shapes = self.now.shapes; no = run.now.last; tables = put self.now.tables run.now.writes }) }
    {
        run.well_made();
        lists_are_tables();
        let rows = self.rows.merged(alloc, run.lists())?;
        let sides = self.merged_sides::<Brand>(alloc, Blank::new(1), run)?;
        Ok(Base {
            shapes: self.shapes.share()?,
            no: run.last(),
            rows,
            sides,
        })
    }

    /// The same tables as a base of the same version for other shapes. It shares all rows. Only want of memory refuses it, and
    /// this base stays.
    pub fn reshaped(&self, alloc: Global, shapes: &Shared<Shapes>) -> Result<Base, AllocError>
        requires sound { AreSoundShapes shapes.now }
        requires fit { FitTables shapes.now self.now.tables }
        ensures { IfOk result (λ base. base ≡ record { shapes = shapes.now; no = self.now.no; tables = self.now.tables }) }
    {
        lists_are_tables();
        let rows = self.rows.merged(alloc, &[])?;
        let sides = built::<Brand>(alloc, Blank::new(1), shapes.get(), &rows)?;
        Ok(Base {
            shapes: shapes.share()?,
            no: self.no,
            rows,
            sides,
        })
    }

    /// The version.
    pub fn no(&self) -> u64
        ensures { result ≡ self.now.no }
    {
        self.no
    }

    /// The shapes of the tables and of the edge tables.
    pub fn shapes(&self) -> &Shapes
        ensures { result.now ≡ self.now.shapes }
    {
        self.shapes.get()
    }

    /// The rows of a table, in order of their keys; None for a table beyond all that have rows.
    pub fn rows(&self, table: TableNo) -> Option<&SharedChunks<Stored>>
        ensures { unwrap_or (option_copied result) [] ≡ held_in table self.now.tables }
    {
        self.rows.rows(table)
    }

    /// The row of a table with a key, None exactly where there is none.
    pub fn row<L: Ledger>(&self, table: TableNo, key: &Key, steps: &mut Steps<L>) -> Option<&Stored>
        ensures value { option_copied result ≡ stored_at (table.0, key.now.values) self.now.tables }
        ensures counts { steps.old + 1 ≤ steps.new }
        ensures cost { steps.new ≤ steps.old + base_cost self.now table }
    {
        self.rows.get(table, key, steps)
    }

    /// The rows of an edge table that name a vertex at that end, each with its other end, in order of their keys.
    pub fn sides<L: Ledger>(
        &self,
        edge: EdgeNo,
        dir: Dir,
        vertex: &Key,
        steps: &mut Steps<L>,
    ) -> &[Side]
        ensures value { result.now ≡ sides_of (entries_in_base self.now edge dir vertex.now.values) }
        ensures counts { steps.old + 1 ≤ steps.new }
        ensures cost { steps.new ≤ steps.old + base_search self.now edge }
    {
        self.sides.at(edge, dir, vertex, steps)
    }

    /// That the shapes are well made, and that the tables fit them. It does nothing.
    pub fn well_made(&self)
        ensures shapes { AreSoundShapes self.now.shapes }
        ensures tables { FitTables self.now.shapes self.now.tables }
    {
        let _ = &self.rows;
    }
}
