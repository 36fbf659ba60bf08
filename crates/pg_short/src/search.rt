//! A search in order of least lengths: the steps that it has found.
ghost use Rattle.std.specs.Prelude.{ℕ, ◌≡◌, ◌≤◌, ◌<◌, ◌+◌, ◌++◌, [], map, length, slice_get, Some, IfOk, OnOk, OnErr};
ghost use Rattle.pg_keyed.specs.Lists.{Each};
ghost use Rattle.pg_auto.specs.Autos.{stage_view};
ghost use Rattle.pg_search.specs.Checked.{IsCheckedStage};
ghost use Rattle.pg_short.specs.Costs.{IsRead, spot_cost, spots_cost};
ghost use Rattle.pg_short.specs.Steps.{Step as FoundStep, step_view, spot_view};
ghost use Rattle.pg_short.specs.Searches.{IsMore, first_step};
ghost use Rattle.pg_auto.specs.Autos.{pattern};
ghost use Rattle.pg_short.specs.Found.{IsVisit, IsSearching, IsPopped, IsBegun, IsSearched, task_over};

use crate::queue::Queue;
use crate::rounds::copy_elem;
use crate::spots::{Spot, copy_spot};
use crate::steps::{Step, steps_from};
use crate::visited::put;
use indexmap::IndexSet;
use pg_auto::{Auto, tests_tell};
use pg_chunks::Steps;
use pg_value::{ElemId, List};
use pg_view::View;
use std::alloc::{AllocError, Global};
use std::sync::ledger::Ledger;

/// What a search keeps: the steps that it has found; the numbers of those that led to their spots first, in that order; these
/// spots; and the steps that wait.
#[derive(Drop)]
pub struct Search {
    pub found: Vec<Step>,
    pub order: Vec<usize>,
    pub spots: IndexSet<Spot>,
    pub waiting: Queue,
}

/// Appends steps to those that are found, from where on they wait.
fn push_found(new: Vec<Step>, found: &mut Vec<Step>, waiting: &mut Queue) -> Result<(), AllocError>
    ensures found { OnOk result (map step_view found.new.items ≡ map step_view found.old.items ++ map step_view new.items) }
    ensures waiting { OnOk result (IsMore (length found.old.items) (map step_view new.items) waiting.old waiting.new) }
{
    for step in new {
        waiting.push(step.long, found.len())?;
        found.push(step)?;
    }
    Ok(())
}

/// Visits the step of a number, which leads to a spot that was not visited: the steps from it wait from now on.
fn visit<V: View, L: Ledger>(
    alloc: Global,
    view: &V,
    auto: &Auto<'_>,
    number: usize,
    search: &mut Search,
    steps: &mut Steps<L>,
) -> Result<(), AllocError>
    requires checked { Each (IsCheckedStage (V.shapes view.now)) (map stage_view auto.now.stages) }
    requires number { number < length search.old.found.items }
    ensures visit { OnOk result (IsVisit (V.shapes view.now) (V.tables view.now) auto.now.graph.now (map stage_view auto.now.stages) number search.old search.new) }
    ensures cost { (step : FoundStep) → slice_get (map step_view search.old.found.items) number ≡ Some step → steps.new ≤ steps.old + spot_cost (V.hop_cost view.now) (V.shapes view.now) (V.tables view.now) auto.now.graph.now (map stage_view auto.now.stages) step.spot }
{
    let new = steps_from(alloc, view, auto, number, &search.found[number], steps)?;
    search.order.push(number)?;
    push_found(new, &mut search.found, &mut search.waiting)
}

/// Goes on from a number that was taken from those that wait: its step is visited where its spot was not visited before, and
/// else passed over.
pub fn go_on<V: View, L: Ledger>(
    alloc: Global,
    view: &V,
    auto: &Auto<'_>,
    start: &ElemId,
    least: (usize, usize),
    search: &mut Search,
    steps: &mut Steps<L>,
) -> Result<(), AllocError>
    requires checked { Each (IsCheckedStage (V.shapes view.now)) (map stage_view auto.now.stages) }
    requires popped { IsPopped (task_over (V.shapes view.now) (V.tables view.now) (pattern auto.now) start.now) least search.old }
    ensures searching { OnOk result (IsSearching (task_over (V.shapes view.now) (V.tables view.now) (pattern auto.now) start.now) search.new) }
    ensures cost { OnOk result (steps.new + spots_cost (V.hop_cost view.now) (task_over (V.shapes view.now) (V.tables view.now) (pattern auto.now) start.now) (map spot_view search.old.spots.keys) ≤ steps.old + spots_cost (V.hop_cost view.now) (task_over (V.shapes view.now) (V.tables view.now) (pattern auto.now) start.now) (map spot_view search.new.spots.keys)) }
    ensures reads { OnErr result (IsRead (V.hop_cost view.now) (task_over (V.shapes view.now) (V.tables view.now) (pattern auto.now) start.now) (map spot_view search.old.spots.keys) steps.old steps.new) }
{
    tests_tell();
    let _ = start;
    let spot = copy_spot(alloc, &search.found[least.1].spot)?;
    if put(&mut search.spots, spot)? {
        visit(alloc, view, auto, least.1, search, steps)
    } else {
        Ok(())
    }
}

/// The step at the start, which no round leads to.
fn first_step(alloc: Global, start: &ElemId) -> Result<Step, AllocError>
    ensures { IfOk result (λ step. step_view step ≡ first_step start.now) }
{
    let spot = Spot {
        stage: 0,
        done: 0,
        at: copy_elem(alloc, start)?,
        names: Vec::new(alloc),
    };
    Ok(Step {
        before: 0,
        spot,
        hops: List::new(alloc),
        long: 0,
    })
}

/// A search that has found the start alone, which waits.
fn begun(alloc: Global, start: &ElemId) -> Result<Search, AllocError>
    ensures { IfOk result (IsBegun start.now) }
{
    let mut found = Vec::new(alloc);
    found.push(first_step(alloc, start)?)?;
    let mut waiting = Queue::new(alloc);
    waiting.push(0, 0)?;
    Ok(Search {
        found,
        order: Vec::new(alloc),
        spots: IndexSet::new(alloc),
        waiting,
    })
}

/// Goes on until no step waits. A search of more turns than a count has room for is one for which memory is wanting.
fn go_on_all<V: View, L: Ledger>(
    alloc: Global,
    view: &V,
    auto: &Auto<'_>,
    start: &ElemId,
    search: &mut Search,
    steps: &mut Steps<L>,
) -> Result<(), AllocError>
    requires checked { Each (IsCheckedStage (V.shapes view.now)) (map stage_view auto.now.stages) }
    requires searching { IsSearching (task_over (V.shapes view.now) (V.tables view.now) (pattern auto.now) start.now) search.old }
    ensures searched { OnOk result (IsSearched (task_over (V.shapes view.now) (V.tables view.now) (pattern auto.now) start.now) search.new) }
    ensures reads { IsRead (V.hop_cost view.now) (task_over (V.shapes view.now) (V.tables view.now) (pattern auto.now) start.now) (map spot_view search.old.spots.keys) steps.old steps.new }
{
    for _turn in 0..usize::MAX {
        match search.waiting.pop() {
            Some(least) => go_on(alloc, view, auto, start, least, search, steps)?,
            None => return Ok(()),
        }
    }
    Err(AllocError)
}

/// A search from the start to its end: every spot that a walk from there comes to is visited, at its least length.
pub fn search_from<V: View, L: Ledger>(
    alloc: Global,
    view: &V,
    auto: &Auto<'_>,
    start: &ElemId,
    steps: &mut Steps<L>,
) -> Result<Search, AllocError>
    requires { Each (IsCheckedStage (V.shapes view.now)) (map stage_view auto.now.stages) }
    ensures searched { IfOk result (IsSearched (task_over (V.shapes view.now) (V.tables view.now) (pattern auto.now) start.now)) }
    ensures reads { IsRead (V.hop_cost view.now) (task_over (V.shapes view.now) (V.tables view.now) (pattern auto.now) start.now) [] steps.old steps.new }
{
    let mut search = begun(alloc, start)?;
    go_on_all(alloc, view, auto, start, &mut search, steps)?;
    Ok(search)
}
