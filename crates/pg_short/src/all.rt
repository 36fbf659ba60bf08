//! What ALL SHORTEST keeps of the walks of every length from one start.
ghost use Rattle.std.specs.Prelude.{◌≡◌, ◌≤◌, ◌+◌, true, Contains, IfOk};
ghost use Rattle.pg_keyed.specs.Lists.{Each};
ghost use Rattle.pg_value.specs.Graph.{vertices};
ghost use Rattle.pg_value.specs.Tables.{IsInOrder};
ghost use Rattle.pg_ast.specs.declared.pattern.Selector.TheVariants.{AllShortest};
ghost use Rattle.pg_meaning.specs.Outlines.{is_walk};
ghost use Rattle.pg_meaning.specs.Sound.Patterns.{IsSoundPath};
ghost use Rattle.pg_auto.specs.Autos.{pattern};
ghost use Rattle.pg_auto.specs.Stages.{pattern_of, stages_of};
ghost use Rattle.pg_short.specs.Costs.{NamesOnce, costs_of, short_cost, visits_cost};
ghost use Rattle.pg_short.specs.Selections.{AreSelected, IsShort};

use crate::back::whole_walks;
use crate::search::search_from;
use pg_auto::{Auto, start_stands, steps_end, steps_on, tests_tell, walks_by_bindings};
use pg_chunks::Steps;
use pg_meaning::{CheckedPath, PathBinding, hops_are_neighbours};
use pg_search::{is_vertex, sound_are_checked};
use pg_value::{ElemId, List};
use pg_view::View;
use std::alloc::{AllocError, Global};
use std::sync::ledger::Ledger;

/// The same as `all_shortest_from` from a vertex.
fn all_from<V: View, L: Ledger>(
    view: &V,
    alloc: Global,
    path: &CheckedPath,
    auto: &Auto<'_>,
    start: &ElemId,
    steps: &mut Steps<L>,
) -> Result<List<PathBinding>, AllocError>
    requires auto { pattern auto.now ≡ pattern_of path.now }
    requires sound { IsSoundPath (V.shapes view.now) path.now }
    requires walk { is_walk path.now.mode ≡ true }
    requires order { IsInOrder (V.tables view.now) }
    requires vertex { Contains (vertices path.now.graph (V.tables view.now)) start.now }
    ensures short { IfOk result (Each IsShort) }
    ensures selected { IfOk result (AreSelected AllShortest (V.shapes view.now) (V.tables view.now) path.now start.now) }
    ensures reads { NamesOnce (stages_of path.now) → steps.new ≤ steps.old + visits_cost (costs_of (V.shapes view.now) (V.tables view.now) (V.row_cost view.now) (V.hop_cost view.now)) path.now }
{
    hops_are_neighbours();
    sound_are_checked();
    start_stands();
    steps_on();
    steps_end();
    tests_tell();
    walks_by_bindings();
    let search = search_from(alloc, view, auto, start, steps)?;
    whole_walks(
        alloc,
        auto.stages.as_slice(),
        start,
        path.vars.as_slice(),
        &search,
    )
}

/// What ALL SHORTEST keeps of the bindings that a path pattern allows from an element: of those that end at one vertex all of
/// least length, each once. There are none where the element is no vertex of the graph. The automaton is the path pattern's,
/// which was checked over the view's shapes and whose mode is WALK. Only want of memory refuses it; a walk of 2^34 vertices or
/// more is one for which memory is wanting. It reads what `any_shortest_from` reads.
pub fn all_shortest_from<V: View, L: Ledger>(
    view: &V,
    alloc: Global,
    path: &CheckedPath,
    auto: &Auto<'_>,
    start: &ElemId,
    steps: &mut Steps<L>,
) -> Result<List<PathBinding>, AllocError>
    requires auto { pattern auto.now ≡ pattern_of path.now }
    requires sound { IsSoundPath (V.shapes view.now) path.now }
    requires walk { is_walk path.now.mode ≡ true }
    ensures short { IfOk result (Each IsShort) }
    ensures selected { IfOk result (AreSelected AllShortest (V.shapes view.now) (V.tables view.now) path.now start.now) }
    ensures reads { NamesOnce (stages_of path.now) → steps.new ≤ steps.old + short_cost (costs_of (V.shapes view.now) (V.tables view.now) (V.row_cost view.now) (V.hop_cost view.now)) path.now }
{
    view.well_made();
    if is_vertex(view, &path.graph, start, steps) {
        all_from(view, alloc, path, auto, start, steps)
    } else {
        Ok(List::new(alloc))
    }
}
