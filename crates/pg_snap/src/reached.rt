//! The edges that have a vertex at one end, under the writes of runs.
ghost use Rattle.std.specs.Prelude.{◌≡◌, ◌≤◌, ◌+◌, ◌*◌, [], length, slice_get, IfOk};
ghost use Rattle.std.specs.Option.{option_copied};
ghost use Rattle.std.specs.List.{cons_option};
ghost use Rattle.std.specs.declared.option.Option.TheVariants.{Some};
ghost use Rattle.pg_keyed.specs.Keyed as keyed;
ghost use Rattle.pg_value.specs.Order.{key_cmp};
ghost use Rattle.pg_value.specs.TablesLaws.{key_named, writes_to};
ghost use Rattle.pg_snap.specs.Costs.{run_cost, runs_cost, run_search, runs_search, runs_entries};
ghost use Rattle.pg_snap.specs.Under as spec;
ghost use Rattle.pg_snap.specs.Under.{plains, plain_if, zipped, Stepped};

use crate::vertex::Side;
use pg_adj::Group;
use pg_run::{Found, Run};
use pg_value::{Dir, EdgeNo, EdgeShape, Key, Shared, Steps, TableNo, order_keys};
use std::alloc::{AllocError, Global};
use std::cmp::Ordering;
use std::sync::ledger::Ledger;

/// An edge that has a vertex at one end: its key, and that of the vertex at its other end.
#[derive(Clone, Copy)]
pub struct Reached<'a> {
    pub edge: &'a Key,
    pub other: &'a Key,
}

/// Keys of edges and those of their other ends, one beside the other.
fn paired<'a>(
    alloc: Global,
    edges: &'a [Key],
    others: &'a [Key],
) -> Result<Vec<Reached<'a>>, AllocError>
    requires { length edges.now ≡ length others.now }
    ensures { IfOk result (λ all. plains all.items ≡ zipped edges.now others.now) }
{
    let mut all = Vec::with_capacity(alloc, edges.len())?;
    for (i, edge) in edges.iter().enumerate() {
        all.push(Reached {
            edge,
            other: &others[i],
        })?;
    }
    Ok(all)
}

/// The edges of a list.
pub fn all_reached<'a>(alloc: Global, sides: &'a [Side]) -> Result<Vec<Reached<'a>>, AllocError>
    ensures { IfOk result (λ all. plains all.items ≡ sides.now) }
{
    let mut all = Vec::with_capacity(alloc, sides.len())?;
    for side in sides {
        all.push(Reached {
            edge: &side.edge,
            other: &side.other,
        })?;
    }
    Ok(all)
}

/// The edges of a group.
pub fn grouped<'a>(alloc: Global, group: Option<&'a Group>) -> Result<Vec<Reached<'a>>, AllocError>
    requires { spec.AsMany (option_copied group) }
    ensures { IfOk result (λ all. plains all.items ≡ spec.grouped (option_copied group.entry)) }
{
    match group {
        Some(group) => paired(alloc, group.edges.as_slice(), group.others.as_slice()),
        None => Ok(Vec::new(alloc)),
    }
}

/// Whether a run has a write of a row.
fn is_named<L: Ledger>(run: &Run, table: TableNo, key: &Key, steps: &mut Steps<L>) -> bool
    ensures value { result ≡ keyed.is_named key_named key_cmp key.now.values (writes_to table run.now.writes) }
    ensures counts { steps.old + 1 ≤ steps.new }
    ensures cost { steps.new ≤ steps.old + run_cost table run.now }
{
    match run.find(table, key, steps) {
        Found::Absent => false,
        Found::Gone => true,
        Found::Row(_) => true,
    }
}

/// Those of some edges that no write of the run names.
fn unnamed<'a, L: Ledger>(
    alloc: Global,
    run: &Run,
    table: TableNo,
    olds: &[Reached<'a>],
    steps: &mut Steps<L>,
) -> Result<Vec<Reached<'a>>, AllocError>
    ensures value { IfOk result (λ kept. plains kept.items ≡ spec.unnamed (writes_to table run.now.writes) (plains olds.now)) }
    ensures counts { steps.old ≤ steps.new }
    ensures cost { steps.new ≤ steps.old + length olds.now * run_cost table run.now }
{
    let mut kept = Vec::with_capacity(alloc, olds.len())?;
    'olds: for old in olds {
        if !is_named(run, table, old.edge, steps) {
            match kept.push(*old) {
                Ok(()) => {}
                Err(failed) => return Err(AllocError::from(failed)),
            }
        }
    }
    Ok(kept)
}

/// The next edge of two lists that are walked together, and what is left of both.
fn step<'s, 'a>(olds: &mut &'s [Reached<'a>], news: &mut &'s [Reached<'a>]) -> Option<Reached<'a>>
    ensures { Stepped (plains olds.old.now) (plains news.old.now) (plains olds.new.now) (plains news.new.now) (plain_if result) }
{
    match *olds {
        [] => match *news {
            [] => None,
            [y, ys @ ..] => {
                *news = ys;
                Some(*y)
            }
        },
        [x, xs @ ..] => match *news {
            [] => {
                *olds = xs;
                Some(*x)
            }
            [y, ys @ ..] => match order_keys(x.edge, y.edge) {
                Ordering::Less => {
                    *olds = xs;
                    Some(*x)
                }
                Ordering::Equal => {
                    *olds = xs;
                    *news = ys;
                    Some(*y)
                }
                Ordering::Greater => {
                    *news = ys;
                    Some(*y)
                }
            },
        },
    }
}

/// Both lists, in order of the keys of the edges.
fn woven<'a>(
    alloc: Global,
    olds: &[Reached<'a>],
    news: &[Reached<'a>],
) -> Result<Vec<Reached<'a>>, AllocError>
    ensures { IfOk result (λ all. plains all.items ≡ spec.woven (plains olds.now) (plains news.now)) }
{
    let mut left = olds;
    let mut right = news;
    let mut all = Vec::new(alloc);
    while let Some(next) = step(&mut left, &mut right) {
        all.push(next)?;
    }
    Ok(all)
}

/// The edges from a vertex under the writes of a run: those that it names go, and those that it gives come. A run without
/// writes to the edge table takes one step.
pub fn under_run<'a, L: Ledger>(
    alloc: Global,
    run: &'a Run,
    edge: EdgeNo,
    shape: &EdgeShape,
    dir: Dir,
    vertex: &Key,
    olds: Vec<Reached<'a>>,
    steps: &mut Steps<L>,
) -> Result<Vec<Reached<'a>>, AllocError>
    requires { slice_get run.now.shapes.edges edge.0 ≡ Some shape.now }
    ensures value { IfOk result (λ all. plains all.items ≡ spec.under_run edge dir vertex.now.values shape.now.table (plains olds.entry.items) run.now) }
    ensures counts { steps.old ≤ steps.new }
    ensures cost { steps.new ≤ steps.old + run_search edge run.now + length olds.entry.items * run_cost shape.now.table run.now }
{
    if run.writes(shape.table).is_empty() {
        steps.tick();
        return Ok(olds);
    }
    let group = run.group(edge, dir, vertex, steps);
    let news = grouped(alloc, group)?;
    let kept = unnamed(alloc, run, shape.table, olds.as_slice(), steps)?;
    woven(alloc, kept.as_slice(), news.as_slice())
}

/// The same under several runs, the oldest first.
pub fn under_runs<'a, L: Ledger>(
    alloc: Global,
    runs: &'a [Shared<Run>],
    edge: EdgeNo,
    shape: &EdgeShape,
    dir: Dir,
    vertex: &Key,
    olds: Vec<Reached<'a>>,
    steps: &mut Steps<L>,
) -> Result<Vec<Reached<'a>>, AllocError>
    requires { spec.HaveShape edge shape.now runs.now }
    ensures value { IfOk result (λ all. plains all.items ≡ spec.under_runs edge dir vertex.now.values shape.now.table (plains olds.entry.items) runs.now) }
    ensures counts { steps.old ≤ steps.new }
    ensures cost { steps.new ≤ steps.old + runs_search edge runs.now + (length olds.entry.items + runs_entries edge dir vertex.now.values runs.now) * runs_cost shape.now.table runs.now }
{
    match runs {
        [] => Ok(olds),
        [run, more @ ..] => {
            let news = under_run(alloc, run.get(), edge, shape, dir, vertex, olds, steps)?;
            under_runs(alloc, more, edge, shape, dir, vertex, news, steps)
        }
    }
}

/// The same under a transaction's own writes, if there are any.
pub fn under_own<'a, L: Ledger>(
    alloc: Global,
    own: Option<&'a Run>,
    edge: EdgeNo,
    shape: &EdgeShape,
    dir: Dir,
    vertex: &Key,
    olds: Vec<Reached<'a>>,
    steps: &mut Steps<L>,
) -> Result<Vec<Reached<'a>>, AllocError>
    requires { spec.HaveShape edge shape.now (cons_option (option_copied own) []) }
    ensures value { IfOk result (λ all. plains all.items ≡ spec.under_runs edge dir vertex.now.values shape.now.table (plains olds.entry.items) (cons_option (option_copied own.entry) [])) }
    ensures counts { steps.old ≤ steps.new }
    ensures cost { steps.new ≤ steps.old + runs_search edge (cons_option (option_copied own.entry) []) + length olds.entry.items * runs_cost shape.now.table (cons_option (option_copied own.entry) []) }
{
    match own {
        Some(run) => under_run(alloc, run, edge, shape, dir, vertex, olds, steps),
        None => Ok(olds),
    }
}
