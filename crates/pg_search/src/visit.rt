//! A state is visited: the states that follow it are put behind the others.
ghost use Rattle.std.specs.Prelude.{ℕ, ◌≡◌, ◌<◌, ◌^◌, ◌-◌, [], ◌∷◌, cond, List, length, map, slice_get, Some, OnOk};
ghost use Rattle.pg_keyed.specs.Lists.{Each};
ghost use Rattle.pg_meaning.specs.Walks.{Hop};
ghost use Rattle.pg_auto.specs.Autos.{stage_view};
ghost use Rattle.pg_auto.specs.Stages.{Stage as StageView};
ghost use Rattle.pg_auto.specs.Counts as counts;
ghost use Rattle.pg_auto.specs.Successors as successors;
ghost use Rattle.pg_search.specs.Checked.{IsCheckedStage};
ghost use Rattle.pg_search.specs.Numbers.{IsWithin, state_of};
ghost use Rattle.pg_search.specs.Searches as spec;
ghost use Rattle.pg_search.specs.Searches.{IsFine, PutStates};

use crate::conditions::node_admits;
use crate::entering::push_rounds;
use crate::numbered::Numbered;
use crate::rounds::along;
use crate::states::{Kept, States};
use pg_ast::Mode;
use pg_auto::{Auto, Stage};
use pg_chunks::Steps;
use pg_value::GraphShape;
use pg_view::View;
use std::alloc::{AllocError, Global};
use std::sync::ledger::Ledger;

/// Whether another round may begin.
fn may_enter(stage: &Stage<'_>, done: u32) -> bool
    ensures { result ≡ counts.may_enter (stage_view stage.now) done }
{
    match stage.high {
        Some(high) => done < high,
        None => true,
    }
}

/// Puts the states of one round more. The stage's first node is judged before any edge is read.
fn push_entered<V: View, L: Ledger>(
    view: &V,
    alloc: Global,
    graph: &GraphShape,
    mode: Mode,
    stage: &Stage<'_>,
    state: &Kept,
    numbers: &mut Numbered<'_>,
    states: &mut States,
    steps: &mut Steps<L>,
) -> Result<(), AllocError>
    requires stage { IsCheckedStage (V.shapes view.now) (stage_view stage.now) }
    requires fine { IsFine numbers.old mode state.now }
    requires kept { Each (IsWithin numbers.old) states.old }
    ensures { OnOk result ((stages : List StageView) → PutStates numbers.old numbers.new states.old states.new (successors.entered (spec.task_at (V.shapes view.now) graph.now (V.tables view.now) stages mode numbers.old.start) (state_of numbers.old state.now) (stage_view stage.now))) }
{
    let at = numbers.last(state.walk);
    if node_admits(view, stage.node, numbers.elem(at)) {
        let own = vec![in alloc; state.walk]?;
        let walks = along(
            view,
            alloc,
            graph,
            stage.legs.as_slice(),
            own,
            numbers,
            steps,
        )?;
        push_rounds(view, alloc, mode, stage, state, walks, numbers, states)
    } else {
        Ok(())
    }
}

/// Puts the states of one round more, where another round may begin.
fn push_if_entered<V: View, L: Ledger>(
    view: &V,
    alloc: Global,
    graph: &GraphShape,
    mode: Mode,
    stage: &Stage<'_>,
    state: &Kept,
    numbers: &mut Numbered<'_>,
    states: &mut States,
    steps: &mut Steps<L>,
) -> Result<(), AllocError>
    requires stage { IsCheckedStage (V.shapes view.now) (stage_view stage.now) }
    requires fine { IsFine numbers.old mode state.now }
    requires kept { Each (IsWithin numbers.old) states.old }
    ensures { OnOk result ((stages : List StageView) → PutStates numbers.old numbers.new states.old states.new (cond (counts.may_enter (stage_view stage.now) state.now.done) (successors.entered (spec.task_at (V.shapes view.now) graph.now (V.tables view.now) stages mode numbers.old.start) (state_of numbers.old state.now) (stage_view stage.now)) [])) }
{
    if may_enter(stage, state.done) {
        push_entered(
            view, alloc, graph, mode, stage, state, numbers, states, steps,
        )
    } else {
        Ok(())
    }
}

/// Puts the state that leaves a stage, where enough of its rounds are done.
fn push_if_left(
    stage: &Stage<'_>,
    state: &Kept,
    numbers: &Numbered<'_>,
    states: &mut States,
) -> Result<(), AllocError>
    requires stage { state.now.stage < 2 ^ 64 - 1 }
    requires within { IsWithin numbers.now state.now }
    requires kept { Each (IsWithin numbers.now) states.old }
    ensures { OnOk result (PutStates numbers.now numbers.now states.old states.new (cond (counts.may_leave (stage_view stage.now) state.now.done) (successors.leave (state_of numbers.now state.now) ∷ []) [])) }
{
    numbers.are_numbers();
    if stage.low <= state.done {
        states.put(Kept {
            stage: state.stage + 1,
            done: 0,
            walk: state.walk,
            singles: state.singles,
            groups: state.groups,
        })
    } else {
        Ok(())
    }
}

/// Puts the states that follow a state in a stage.
fn push_successors<V: View, L: Ledger>(
    view: &V,
    alloc: Global,
    graph: &GraphShape,
    mode: Mode,
    stage: &Stage<'_>,
    state: &Kept,
    numbers: &mut Numbered<'_>,
    states: &mut States,
    steps: &mut Steps<L>,
) -> Result<(), AllocError>
    requires stage { IsCheckedStage (V.shapes view.now) (stage_view stage.now) }
    requires number { state.now.stage < 2 ^ 64 - 1 }
    requires fine { IsFine numbers.old mode state.now }
    requires kept { Each (IsWithin numbers.old) states.old }
    ensures { OnOk result ((stages : List StageView) → PutStates numbers.old numbers.new states.old states.new (successors.successors (spec.task_at (V.shapes view.now) graph.now (V.tables view.now) stages mode numbers.old.start) (state_of numbers.old state.now) (stage_view stage.now))) }
{
    push_if_entered(
        view, alloc, graph, mode, stage, state, numbers, states, steps,
    )?;
    push_if_left(stage, state, numbers, states)
}

/// Puts the states that follow a state, of which there are none behind the last stage.
pub fn visit<V: View, L: Ledger>(
    view: &V,
    alloc: Global,
    auto: &Auto<'_>,
    mode: Mode,
    state: &Kept,
    numbers: &mut Numbered<'_>,
    states: &mut States,
    steps: &mut Steps<L>,
) -> Result<(), AllocError>
    requires stages { Each (IsCheckedStage (V.shapes view.now)) (map stage_view auto.now.stages) }
    requires fine { IsFine numbers.old mode state.now }
    requires kept { Each (IsWithin numbers.old) states.old }
    ensures { OnOk result (PutStates numbers.old numbers.new states.old states.new (successors.next_states (spec.task_at (V.shapes view.now) auto.now.graph.now (V.tables view.now) (map stage_view auto.now.stages) mode numbers.old.start) (state_of numbers.old state.now))) }
{
    let count = auto.stages.len();
    if state.stage < count {
        let stage = auto.stages.at(state.stage);
        push_successors(
            view, alloc, auto.graph, mode, stage, state, numbers, states, steps,
        )
    } else {
        Ok(())
    }
}
