//! Every allowed binding of a path pattern from one start.
ghost use Rattle.std.specs.Prelude.{◌≡◌, ◌<◌, ◌≤◌, ◌+◌, ◌↔◌, [], ◌∷◌, false, cond, map, length, slice_get, Some, Contains, IsTrue, IfOk, OnOk};
ghost use Rattle.pg_keyed.specs.Lists.{Each};
ghost use Rattle.pg_value.specs.Graph.{vertices};
ghost use Rattle.pg_value.specs.Tables.{IsInOrder};
ghost use Rattle.pg_meaning.specs.Outlines.{walks_on};
ghost use Rattle.pg_meaning.specs.Sound.Patterns.{IsSoundPath, outlines};
ghost use Rattle.pg_auto.specs.Autos.{pattern, stage_view};
ghost use Rattle.pg_auto.specs.Ranks.{AreBounded};
ghost use Rattle.pg_auto.specs.Stages.{pattern_of};
ghost use Rattle.pg_auto.specs.States.{first_state};
ghost use Rattle.pg_auto.specs.Steps.{IsSoundTask};
ghost use Rattle.pg_auto.specs.Successors as successors;
ghost use Rattle.pg_search.specs.declared.states.Kept.{Kept};
ghost use Rattle.pg_search.specs.Checked.{IsCheckedStage};
ghost use Rattle.pg_search.specs.Found.{ArePaths};
ghost use Rattle.pg_search.specs.Numbers.{IsWithin, state_of, first_numbers};
ghost use Rattle.pg_search.specs.Searches as spec;
ghost use Rattle.pg_search.specs.Searches.{IsFine, IsVisiting, PutStates};

use crate::bindings::found;
use crate::laws::sound_are_checked;
use crate::numbered::Numbered;
use crate::states::{Kept, States};
use crate::visit::visit;
use pg_ast::Mode;
use pg_auto::{
    Auto, ends_by_bindings, first_is_valid, ranks_fall, sound_are_bounded, start_stands, steps_end,
    steps_on, tests_tell, weights_fall,
};
use pg_chunks::Steps;
use pg_meaning::{CheckedPath, PathBinding};
use pg_value::{ElemId, GraphShape, List, TableNo};
use pg_view::View;
use std::alloc::{AllocError, Global};
use std::marker::Brand;
use std::sync::ledger::{Blank, Ledger};

/// Whether a table is among some.
fn is_among(tables: &[TableNo], table: TableNo) -> bool
    ensures { result ≡ spec.is_among tables.now table }
{
    for other in tables {
        if other.0 == table.0 {
            return true;
        }
    }
    false
}

/// Whether an element is a vertex of a graph: its table first, and only then its row.
pub fn is_vertex<V: View, L: Ledger>(
    view: &V,
    graph: &GraphShape,
    elem: &ElemId,
    steps: &mut Steps<L>,
) -> bool
    ensures vertex { IsInOrder (V.tables view.now) → IsTrue result ↔ Contains (vertices graph.now (V.tables view.now)) elem.now }
    ensures cost { steps.new ≤ steps.old + cond (spec.is_among graph.now.vertices elem.now.table) (V.row_cost view.now elem.now.table) 0 }
{
    is_among(graph.vertices.as_slice(), elem.table)
        && view.row(elem.table, &elem.key, steps).is_some()
}

/// Visits the state at a place.
fn visit_at<V: View, L: Ledger>(
    view: &V,
    alloc: Global,
    auto: &Auto<'_>,
    mode: Mode,
    at: usize,
    numbers: &mut Numbered<'_>,
    states: &mut States,
    steps: &mut Steps<L>,
) -> Result<(), AllocError>
    requires stages { Each (IsCheckedStage (V.shapes view.now)) (map stage_view auto.now.stages) }
    requires fine { (a : Kept) → slice_get states.old at ≡ Some a → IsFine numbers.old mode a }
    requires kept { Each (IsWithin numbers.old) states.old }
    ensures { OnOk result ((a : Kept) → slice_get states.old at ≡ Some a → PutStates numbers.old numbers.new states.old states.new (successors.next_states (spec.task_at (V.shapes view.now) auto.now.graph.now (V.tables view.now) (map stage_view auto.now.stages) mode numbers.old.start) (state_of numbers.old a))) }
{
    match states.get(at) {
        Some(state) => visit(view, alloc, auto, mode, &state, numbers, states, steps),
        None => Ok(()),
    }
}

/// Visits the states, and those that follow them, until none waits.
fn visit_all<V: View, L: Ledger>(
    view: &V,
    alloc: Global,
    auto: &Auto<'_>,
    mode: Mode,
    numbers: &mut Numbered<'_>,
    states: &mut States,
    steps: &mut Steps<L>,
) -> Result<(), AllocError>
    requires stages { Each (IsCheckedStage (V.shapes view.now)) (map stage_view auto.now.stages) }
    requires sound { IsSoundTask (spec.task_at (V.shapes view.now) auto.now.graph.now (V.tables view.now) (map stage_view auto.now.stages) mode numbers.old.start) }
    requires bounded { AreBounded mode (map stage_view auto.now.stages) }
    requires visiting { IsVisiting (spec.task_at (V.shapes view.now) auto.now.graph.now (V.tables view.now) (map stage_view auto.now.stages) mode numbers.old.start) numbers.old states.old 0 }
    ensures { OnOk result (IsVisiting (spec.task_at (V.shapes view.now) auto.now.graph.now (V.tables view.now) (map stage_view auto.now.stages) mode numbers.old.start) numbers.new states.new (length states.new)) }
{
    tests_tell();
    steps_on();
    ranks_fall();
    weights_fall();
    let mut at = 0;
    'states: while at < states.len() {
        visit_at(view, alloc, auto, mode, at, numbers, states, steps)?;
        at += 1;
    }
    Ok(())
}

/// The state at the start, alone.
fn first_states(alloc: Global) -> Result<States, AllocError>
    ensures { IfOk result (λ states. states ≡ record { stage = 0; done = 0; walk = 0; singles = 0; groups = 0 } ∷ []) }
{
    let mut states = States::new(alloc);
    states.put(Kept {
        stage: 0,
        done: 0,
        walk: 0,
        singles: 0,
        groups: 0,
    })?;
    Ok(states)
}

/// The same as `paths` from a vertex.
fn paths_from<V: View, L: Ledger>(
    view: &V,
    alloc: Global,
    path: &CheckedPath,
    auto: &Auto<'_>,
    start: &ElemId,
    steps: &mut Steps<L>,
) -> Result<List<PathBinding>, AllocError>
    requires auto { pattern auto.now ≡ pattern_of path.now }
    requires sound { IsSoundPath (V.shapes view.now) path.now }
    requires ends { walks_on path.now.mode (outlines path.now) ≡ false }
    requires order { IsInOrder (V.tables view.now) }
    requires vertex { Contains (vertices path.now.graph (V.tables view.now)) start.now }
    ensures { IfOk result (ArePaths (V.shapes view.now) (V.tables view.now) path.now start.now) }
{
    sound_are_checked();
    sound_are_bounded();
    first_is_valid();
    start_stands();
    steps_on();
    steps_end();
    ranks_fall();
    ends_by_bindings();
    let mut numbers = Numbered::new(alloc, start)?;
    let mut states = first_states(alloc)?;
    visit_all(
        view,
        alloc,
        auto,
        path.mode,
        &mut numbers,
        &mut states,
        steps,
    )?;
    found(
        alloc,
        &numbers,
        auto.stages.len(),
        path.vars.as_slice(),
        &states,
    )
}

/// The same as `paths`, with a counter of its own.
fn paths_counted<V: View, L: Ledger>(
    blank: Blank,
    view: &V,
    alloc: Global,
    path: &CheckedPath,
    auto: &Auto<'_>,
    start: &ElemId,
) -> Result<List<PathBinding>, AllocError>
    requires name { blank.name ≡ L.name }
    requires parts { blank.parts ≡ L.parts }
    requires one { blank.parts ≡ 1 }
    requires auto { pattern auto.now ≡ pattern_of path.now }
    requires sound { IsSoundPath (V.shapes view.now) path.now }
    requires ends { walks_on path.now.mode (outlines path.now) ≡ false }
    ensures { IfOk result (ArePaths (V.shapes view.now) (V.tables view.now) path.now start.now) }
{
    view.well_made();
    let mut steps = Steps::<L>::start(blank);
    if is_vertex(view, &path.graph, start, &mut steps) {
        paths_from(view, alloc, path, auto, start, &mut steps)
    } else {
        Ok(List::new(alloc))
    }
}

/// Every allowed binding of a path pattern that begins at an element, each once. There are none where the element is no
/// vertex of the graph. The automaton is the path pattern's, which was checked over the view's shapes and whose walks end:
/// its mode is not WALK, or each of its quantifiers has an upper number. Only want of memory refuses it.
pub fn paths<V: View>(
    view: &V,
    alloc: Global,
    path: &CheckedPath,
    auto: &Auto<'_>,
    start: &ElemId,
) -> Result<List<PathBinding>, AllocError>
    requires auto { pattern auto.now ≡ pattern_of path.now }
    requires sound { IsSoundPath (V.shapes view.now) path.now }
    requires ends { walks_on path.now.mode (outlines path.now) ≡ false }
    ensures { IfOk result (ArePaths (V.shapes view.now) (V.tables view.now) path.now start.now) }
{
    paths_counted::<V, Brand>(Blank::new(1), view, alloc, path, auto, start)
}
