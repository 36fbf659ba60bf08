//! What a view of lists has built of the edges of its edge tables.
ghost use Rattle.std.specs.Prelude.{◌≡◌, IfOk, IfSome};
ghost use Rattle.std.specs.Option.{option_copied};
ghost use Rattle.pg_adj.specs.Groups.{AreGroups};
ghost use Rattle.pg_view.specs.Lists as spec;
ghost use Rattle.pg_view.specs.RowEnds as row;
ghost use Rattle.pg_view.specs.Sides.{IsSides, AreSides};
ghost use Rattle.pg_view.specs.Sides as built;

use crate::ends::ends_of;
use pg_adj::Ends;
use pg_chunks::Chunks;
use pg_value::{Dir, EdgeNo, EdgeShape, Stored};
use std::alloc::{AllocError, Global};

/// The edges of one edge table by the vertices at their ends, for those ends at which they were asked for.
#[derive(Drop)]
pub struct Sides {
    pub out: Option<Ends>,
    pub into: Option<Ends>,
}

/// The rows of an edge table by the vertices at that end, where they are asked for.
fn side_if(
    alloc: Global,
    shape: &EdgeShape,
    lists: &[Chunks<Stored>],
    dir: Dir,
    is_asked: bool,
) -> Result<Option<Ends>, AllocError>
    ensures { IfOk result (λ side. IfSome side (AreGroups dir (row.all_ends shape.now (spec.rows_in lists.now shape.now.table)))) }
{
    if !is_asked {
        return Ok(None);
    }
    Ok(Some(ends_of(alloc, shape, lists, dir)?))
}

/// Whether the edge table of a number is among some.
fn is_among(edges: &[EdgeNo], number: usize) -> bool {
    edges.iter().any(|edge| edge.0 as usize == number)
}

/// What is built of one edge table, by its number.
fn sides_of(
    alloc: Global,
    shape: &EdgeShape,
    number: usize,
    lists: &[Chunks<Stored>],
    out: &[EdgeNo],
    into: &[EdgeNo],
) -> Result<Sides, AllocError>
    ensures { IfOk result (IsSides lists.now shape.now) }
{
    Ok(Sides {
        out: side_if(alloc, shape, lists, Dir::Out, is_among(out, number))?,
        into: side_if(alloc, shape, lists, Dir::In, is_among(into, number))?,
    })
}

/// What is built of all edge tables.
pub fn all_sides(
    alloc: Global,
    shapes: &[EdgeShape],
    lists: &[Chunks<Stored>],
    out: &[EdgeNo],
    into: &[EdgeNo],
) -> Result<Vec<Sides>, AllocError>
    ensures { IfOk result (λ all. AreSides lists.now shapes.now all.items) }
{
    let mut all = Vec::with_capacity(alloc, shapes.len())?;
    for (number, shape) in shapes.iter().enumerate() {
        all.push(sides_of(alloc, shape, number, lists, out, into)?)?;
    }
    Ok(all)
}

/// What is built of an edge table at that end.
pub fn side_at(sides: &[Sides], edge: EdgeNo, dir: Dir) -> Option<&Ends>
    ensures { option_copied result ≡ built.side_at sides.now edge dir }
{
    match sides.get(edge.0 as usize) {
        Some(both) => match dir {
            Dir::Out => both.out.as_ref(),
            Dir::In => both.into.as_ref(),
        },
        None => None,
    }
}
