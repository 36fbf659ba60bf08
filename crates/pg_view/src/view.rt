//! The view of the tables of a version.
ghost use Rattle.std.specs.Prelude.{ℕ, ◌≡◌, ◌≤◌, ◌+◌, ◌++◌, IfOk, OnOk, OnErr};
ghost use Rattle.std.specs.Option.{option_copied};
ghost use Rattle.pg_value.specs.declared.value.Dir.{Dir};
ghost use Rattle.pg_value.specs.declared.row.Key.{Key};
ghost use Rattle.pg_value.specs.declared.shape.TableNo.{TableNo};
ghost use Rattle.pg_value.specs.declared.shape.EdgeNo.{EdgeNo};
ghost use Rattle.pg_value.specs.declared.shape.Shapes.{Shapes};
ghost use Rattle.pg_value.specs.Tables.{Tables, FitTables};
ghost use Rattle.pg_meaning.specs.Reads.{row_at, elements_of};
ghost use Rattle.pg_meaning.specs.Sound.Graphs.{AreSoundShapes};

use pg_chunks::Steps;
use pg_value::{Dir, EdgeNo, ElemId, GraphShape, Key, List, Row, Shapes, TableNo, TableSet};
use std::alloc::{AllocError, Global};
use std::sync::ledger::Ledger;

/// An edge that has a vertex at one end, and the vertex at its other end.
#[derive(Drop)]
pub struct Neighbour {
    pub edge: ElemId,
    pub other: ElemId,
}

/// The tables of one version, as evaluation and searches read them. Each read raises its counter by at least one, and at
/// most by the cost of its kind.
pub trait View: Sync {
    ghost use Rattle.pg_view.specs.Neighbours.{neighbours_at};

    /// The shapes of the tables and of the edge tables.
    ghost shapes: { Self → Shapes };

    /// The tables.
    ghost tables: { Self → Tables };

    /// The most steps to find a row of a table.
    ghost row_cost: { Self → TableNo → ℕ };

    /// The most steps to find the edges of an edge table that have the vertex of a key at that end.
    ghost hop_cost: { Self → EdgeNo → Dir → Key → ℕ };

    /// The shapes of the tables and of the edge tables.
    fn shapes(&self) -> &Shapes
        ensures { result.now ≡ shapes self.now };

    /// The row of a table with a key, None exactly where there is none.
    fn row<L: Ledger>(&self, table: TableNo, key: &Key, steps: &mut Steps<L>) -> Option<&Row>
        ensures value { option_copied result ≡ row_at (tables self.now) table key.now }
        ensures counts { steps.old + 1 ≤ steps.new }
        ensures cost { steps.new ≤ steps.old + row_cost self.now table };

    /// Appends the edges of an edge table that have the vertex of a key at that end, in order of their keys, each with the
    /// vertex at its other end. After want of memory `out` is as before.
    fn neighbours<L: Ledger>(
        &self,
        alloc: Global,
        edge: EdgeNo,
        dir: Dir,
        vertex: &Key,
        out: &mut List<Neighbour>,
        steps: &mut Steps<L>,
    ) -> Result<(), AllocError>
        ensures ok { OnOk result (out.new ≡ out.old ++ neighbours_at (shapes self.now) (tables self.now) edge dir vertex.now) }
        ensures err { OnErr result (out.new ≡ out.old) }
        ensures counts { steps.old + 1 ≤ steps.new }
        ensures cost { steps.new ≤ steps.old + hop_cost self.now edge dir vertex.now };

    /// The rows of the tables of a set, which are vertex tables of the graph, in order of table and key.
    fn elements(
        &self,
        alloc: Global,
        graph: &GraphShape,
        set: TableSet,
    ) -> Result<List<ElemId>, AllocError>
        ensures { IfOk result (λ elements. elements ≡ elements_of (tables self.now) set) };

    /// That the shapes are well made, and that the tables fit them. It does nothing.
    fn well_made(&self)
        ensures shapes { AreSoundShapes (shapes self.now) }
        ensures tables { FitTables (shapes self.now) (tables self.now) };
}
