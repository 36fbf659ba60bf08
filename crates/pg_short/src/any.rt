//! What ANY and ANY SHORTEST keep of the walks of every length from one start.
ghost use Rattle.std.specs.Prelude.{ℕ, ◌≡◌, ◌≤◌, ◌<◌, ◌+◌, ◌++◌, true, map, flat_map, length, Contains, IfOk, OnOk};
ghost use Rattle.pg_keyed.specs.Lists.{Each};
ghost use Rattle.pg_value.specs.Graph.{vertices};
ghost use Rattle.pg_value.specs.Tables.{IsInOrder};
ghost use Rattle.pg_ast.specs.declared.pattern.Selector.TheVariants.{Any, AnyShortest};
ghost use Rattle.pg_meaning.specs.Outlines.{is_walk};
ghost use Rattle.pg_meaning.specs.Sound.Patterns.{IsSoundPath};
ghost use Rattle.pg_auto.specs.Autos.{pattern, stage_view};
ghost use Rattle.pg_auto.specs.Stages.{pattern_of, stages_of};
ghost use Rattle.pg_short.specs.Costs.{NamesOnce, costs_of, short_cost, visits_cost};
ghost use Rattle.pg_short.specs.Steps.{step_view};
ghost use Rattle.pg_short.specs.Selections.{AreSelected, IsShort};
ghost use Rattle.pg_short.specs.Walks as spec;

use crate::bindings::binding_of;
use crate::search::{Search, search_from};
use crate::steps::Step;
use crate::traces::trace;
use pg_auto::{Auto, Stage, start_stands, steps_end, steps_on, tests_tell};
use pg_chunks::Steps;
use pg_meaning::{CheckedPath, PathBinding, hops_are_neighbours};
use pg_search::{is_vertex, sound_are_checked};
use pg_value::{ElemId, List};
use pg_view::View;
use std::alloc::{AllocError, Global};
use std::sync::ledger::Ledger;

/// Appends the binding of the walk to the step of a number, where that leads behind the last stage.
fn push_end(
    alloc: Global,
    stages: &[Stage<'_>],
    start: &ElemId,
    vars: &[u32],
    found: &[Step],
    number: usize,
    out: &mut List<PathBinding>,
) -> Result<(), AllocError>
    requires number { number < length found.now }
    requires stand { spec.Stand (map stage_view stages.now) start.now (map step_view found.now) }
    ensures short { OnOk result (Each IsShort out.old → Each IsShort out.new) }
    ensures given { OnOk result (out.new ≡ out.old ++ spec.end_at (map stage_view stages.now) start.now vars.now (spec.state_to (map stage_view stages.now) start.now (map step_view found.now) number)) }
{
    if stages.len() <= found[number].spot.stage {
        let rounds = trace(alloc, stages, found, number)?;
        let binding = binding_of(alloc, start, vars, rounds.as_slice())?;
        out.push(binding)
    } else {
        Ok(())
    }
}

/// The bindings of the walks to those of some steps that lead behind the last stage.
fn ends(
    alloc: Global,
    stages: &[Stage<'_>],
    start: &ElemId,
    vars: &[u32],
    found: &[Step],
    order: &[usize],
) -> Result<List<PathBinding>, AllocError>
    requires numbers { (k : ℕ) → Contains order.now k → k < length found.now }
    requires stand { spec.Stand (map stage_view stages.now) start.now (map step_view found.now) }
    ensures short { IfOk result (Each IsShort) }
    ensures given { IfOk result (λ out. out ≡ flat_map (spec.end_to (map stage_view stages.now) start.now vars.now (map step_view found.now)) order.now) }
{
    let mut out = List::new(alloc);
    for number in order {
        push_end(alloc, stages, start, vars, found, *number, &mut out)?;
    }
    Ok(out)
}

/// The same as `any_shortest_from` from a vertex.
fn shortest_from<V: View, L: Ledger>(
    view: &V,
    alloc: Global,
    path: &CheckedPath,
    auto: &Auto<'_>,
    start: &ElemId,
    steps: &mut Steps<L>,
) -> Result<List<PathBinding>, AllocError>
    requires auto { pattern auto.now ≡ pattern_of path.now }
    requires sound { IsSoundPath (V.shapes view.now) path.now }
    requires walk { is_walk path.now.mode ≡ true }
    requires order { IsInOrder (V.tables view.now) }
    requires vertex { Contains (vertices path.now.graph (V.tables view.now)) start.now }
    ensures short { IfOk result (Each IsShort) }
    ensures selected { IfOk result (AreSelected AnyShortest (V.shapes view.now) (V.tables view.now) path.now start.now) }
    ensures reads { NamesOnce (stages_of path.now) → steps.new ≤ steps.old + visits_cost (costs_of (V.shapes view.now) (V.tables view.now) (V.row_cost view.now) (V.hop_cost view.now)) path.now }
{
    hops_are_neighbours();
    sound_are_checked();
    start_stands();
    steps_on();
    steps_end();
    tests_tell();
    let search = search_from(alloc, view, auto, start, steps)?;
    ends(
        alloc,
        auto.stages.as_slice(),
        start,
        path.vars.as_slice(),
        search.found.as_slice(),
        search.order.as_slice(),
    )
}

/// What ANY SHORTEST keeps of the bindings that a path pattern allows from an element: of those that end at one vertex one,
/// of least length. There are none where the element is no vertex of the graph. The automaton is the path pattern's, which
/// was checked over the view's shapes and whose mode is WALK. Only want of memory refuses it; a walk of 2^34 vertices or more is
/// one for which memory is wanting.
///
/// Where no variable stands in two parts other than as the first node and further on, it reads, whether it is refused or
/// not, at most the row of the element and, from each place of the pattern, each vertex of the graph once (`short_cost`).
pub fn any_shortest_from<V: View, L: Ledger>(
    view: &V,
    alloc: Global,
    path: &CheckedPath,
    auto: &Auto<'_>,
    start: &ElemId,
    steps: &mut Steps<L>,
) -> Result<List<PathBinding>, AllocError>
    requires auto { pattern auto.now ≡ pattern_of path.now }
    requires sound { IsSoundPath (V.shapes view.now) path.now }
    requires walk { is_walk path.now.mode ≡ true }
    ensures short { IfOk result (Each IsShort) }
    ensures selected { IfOk result (AreSelected AnyShortest (V.shapes view.now) (V.tables view.now) path.now start.now) }
    ensures reads { NamesOnce (stages_of path.now) → steps.new ≤ steps.old + short_cost (costs_of (V.shapes view.now) (V.tables view.now) (V.row_cost view.now) (V.hop_cost view.now)) path.now }
{
    view.well_made();
    if is_vertex(view, &path.graph, start, steps) {
        shortest_from(view, alloc, path, auto, start, steps)
    } else {
        Ok(List::new(alloc))
    }
}

/// What ANY keeps of them: of those that end at one vertex one. It is one of least length, since these are found first.
pub fn any_from<V: View, L: Ledger>(
    view: &V,
    alloc: Global,
    path: &CheckedPath,
    auto: &Auto<'_>,
    start: &ElemId,
    steps: &mut Steps<L>,
) -> Result<List<PathBinding>, AllocError>
    requires auto { pattern auto.now ≡ pattern_of path.now }
    requires sound { IsSoundPath (V.shapes view.now) path.now }
    requires walk { is_walk path.now.mode ≡ true }
    ensures short { IfOk result (Each IsShort) }
    ensures selected { IfOk result (AreSelected Any (V.shapes view.now) (V.tables view.now) path.now start.now) }
    ensures reads { NamesOnce (stages_of path.now) → steps.new ≤ steps.old + short_cost (costs_of (V.shapes view.now) (V.tables view.now) (V.row_cost view.now) (V.hop_cost view.now)) path.now }
{
    any_shortest_from(view, alloc, path, auto, start, steps)
}
