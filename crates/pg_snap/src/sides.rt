//! The edges of all edge tables by the vertices at their ends, in chunks that bases share.
ghost use Rattle.std.specs.Prelude.{◌≡◌, ◌≤◌, ◌+◌, [], length, slice_get, IfOk};
ghost use Rattle.std.specs.declared.option.Option.TheVariants.{Some};
ghost use Rattle.std.specs.List.{AllZip};
ghost use Rattle.pg_chunks.specs.Digits.{digits};
ghost use Rattle.pg_keyed.specs.Keyed.{Each};
ghost use Rattle.pg_value.specs.Tables.{IsInOrder};
ghost use Rattle.pg_value.specs.Log.{put};
ghost use Rattle.pg_view.specs.Lists.{Hold, joined};
ghost use Rattle.pg_snap.specs.Bases.{ends_held};
ghost use Rattle.pg_snap.specs.Sides as spec;
ghost use Rattle.pg_snap.specs.Sides.{AreBothSides, AreSidesOf};

use crate::ends::table_ends;
use crate::fold::Fold;
use crate::vertex::{Side, Vertex};
use crate::vertices::vertices_of;
use pg_chunks::Steps;
use pg_rows::RowArrays;
use pg_run::Run;
use pg_shared::SharedChunks;
use pg_value::{Dir, EdgeNo, EdgeShape, Key};
use std::alloc::{AllocError, Global};
use std::marker::Model;
use std::sync::ledger::Ledger;

/// The edges of one edge table by their sources and by their destinations.
#[derive(Drop)]
pub struct BothSides {
    pub out: SharedChunks<Vertex>,
    pub into: SharedChunks<Vertex>,
}

/// The edges at a vertex among some; none where it is not among them.
pub fn sides_at<'a, L: Ledger>(
    vertices: &'a SharedChunks<Vertex>,
    key: &Key,
    steps: &mut Steps<L>,
) -> &'a [Side]
    ensures value { result.now ≡ spec.sides_at key.now.values vertices.now }
    ensures counts { steps.old + 1 ≤ steps.new }
    ensures cost { steps.new ≤ steps.old + 2 + digits (length vertices.now) }
{
    steps.tick();
    match vertices.find(key, steps) {
        Some(vertex) => vertex.sides.as_slice(),
        None => &[],
    }
}

impl BothSides {
    /// The edges of rows of an edge table that name both ends.
    fn build<L: Ledger>(
        alloc: Global,
        shape: &EdgeShape,
        rows: &RowArrays,
        steps: &mut Steps<L>,
    ) -> Result<BothSides, AllocError>
        requires { Hold rows.now (joined rows.now) }
        ensures { IfOk result (AreBothSides (ends_held (joined rows.now) shape.now)) }
    {
        let ends = table_ends(alloc, shape, rows)?;
        Ok(BothSides {
            out: vertices_of(alloc, ends.as_slice(), Dir::Out, steps)?,
            into: vertices_of(alloc, ends.as_slice(), Dir::In, steps)?,
        })
    }

    /// The same edges. The chunks are shared.
    fn share(&self) -> Result<BothSides, AllocError>
        ensures { IfOk result (λ same. same ≡ self.now) }
    {
        Ok(BothSides {
            out: self.out.share()?,
            into: self.into.share()?,
        })
    }

    /// The edges of an edge table under the writes of a run. A table without writes shares all chunks.
    fn merged<L: Ledger>(
        &self,
        alloc: Global,
        edge: EdgeNo,
        shape: &EdgeShape,
        rows: &RowArrays,
        run: &Run,
        steps: &mut Steps<L>,
    ) -> Result<BothSides, AllocError>
        requires shape { slice_get run.now.shapes.edges edge.0 ≡ Some shape.now }
        requires hold { Hold rows.now (joined rows.now) }
        requires in_order { IsInOrder (joined rows.now) }
        requires sides { AreBothSides (ends_held (joined rows.now) shape.now) self.now }
        ensures { IfOk result (AreBothSides (ends_held (put (joined rows.now) run.now.writes) shape.now)) }
    {
        if run.writes(shape.table).is_empty() {
            run.well_made();
            return self.share();
        }
        Ok(BothSides {
            out: Fold {
                rows,
                old: &self.out,
                run,
                edge,
                shape,
                dir: Dir::Out,
            }
            .vertices(alloc, steps)?,
            into: Fold {
                rows,
                old: &self.into,
                run,
                edge,
                shape,
                dir: Dir::In,
            }
            .vertices(alloc, steps)?,
        })
    }

    /// The edges by the vertices at that end.
    fn side(&self, dir: Dir) -> &SharedChunks<Vertex>
        ensures { result.now ≡ spec.side dir self.now }
    {
        match dir {
            Dir::Out => &self.out,
            Dir::In => &self.into,
        }
    }
}

/// The number of an edge table. Beyond 2^32 of them there is no memory.
fn edge_no(at: usize) -> Result<EdgeNo, AllocError>
    ensures { IfOk result (λ edge. edge.0 ≡ at) }
{
    match u32::try_from(at) {
        Ok(no) => Ok(EdgeNo(no)),
        Err(_) => Err(AllocError),
    }
}

/// The edges of all edge tables by their ends. Edges are in it whose ends name no rows.
#[derive(Drop)]
pub struct Sides {
    tables: Vec<BothSides>,
}

impl Model for Sides {
    ghost use Rattle.std.specs.Prelude.{List};
    ghost use Rattle.pg_snap.specs.declared.sides.BothSides.{BothSides as Both};

    ghost Value = { List Both };

    ghost view = { λ s. s.tables.items };
}

impl Sides {
    /// The edges of the rows of edge tables, where there is one list of rows for each table. It sorts the edges by their ends.
    /// Only want of memory refuses it.
    pub fn build<L: Ledger>(
        alloc: Global,
        shapes: &[EdgeShape],
        rows: &RowArrays,
        steps: &mut Steps<L>,
    ) -> Result<Sides, AllocError>
        requires { Hold rows.now (joined rows.now) }
        ensures { IfOk result (AreSidesOf shapes.now (joined rows.now)) }
    {
        let mut tables = Vec::with_capacity(alloc, shapes.len())?;
        for shape in shapes {
            tables.push(BothSides::build(alloc, shape, rows, steps)?)?;
        }
        Ok(Sides { tables })
    }

    /// The edges of the rows under the writes of a run. Chunks that hold no end of an edge that is written or was are shared,
    /// all but a few beside those that do. Only want of memory refuses it, and these edges stay.
    pub fn merged<L: Ledger>(
        &self,
        alloc: Global,
        shapes: &[EdgeShape],
        rows: &RowArrays,
        run: &Run,
        steps: &mut Steps<L>,
    ) -> Result<Sides, AllocError>
        requires shapes { run.now.shapes.edges ≡ shapes.now }
        requires hold { Hold rows.now (joined rows.now) }
        requires in_order { IsInOrder (joined rows.now) }
        requires sides { AreSidesOf shapes.now (joined rows.now) self.now }
        ensures { IfOk result (AreSidesOf shapes.now (put (joined rows.now) run.now.writes)) }
    {
        let mut tables = Vec::with_capacity(alloc, shapes.len())?;
        'shapes: for (at, shape) in shapes.iter().enumerate() {
            let both = self.tables[at].merged(alloc, edge_no(at)?, shape, rows, run, steps)?;
            tables.push(both)?;
        }
        Ok(Sides { tables })
    }

    /// The same edges, which share all chunks. Only want of memory refuses it.
    pub fn share(&self, alloc: Global) -> Result<Sides, AllocError>
        ensures { IfOk result (λ same. same ≡ self.now) }
    {
        let mut tables = Vec::with_capacity(alloc, self.tables.len())?;
        for both in &self.tables {
            tables.push(both.share()?)?;
        }
        Ok(Sides { tables })
    }

    /// The edges of an edge table at a vertex, each with its other end; none where no edge has it at that end.
    pub fn at<L: Ledger>(
        &self,
        edge: EdgeNo,
        dir: Dir,
        vertex: &Key,
        steps: &mut Steps<L>,
    ) -> &[Side]
        ensures value { result.now ≡ spec.sides_at vertex.now.values (spec.side_of_table dir (slice_get self.now edge.0)) }
        ensures counts { steps.old + 1 ≤ steps.new }
        ensures cost { steps.new ≤ steps.old + 2 + digits (length (spec.side_of_table dir (slice_get self.now edge.0))) }
    {
        match self.tables.get(edge.0 as usize) {
            Some(both) => sides_at(both.side(dir), vertex, steps),
            None => {
                steps.tick();
                &[]
            }
        }
    }
}
