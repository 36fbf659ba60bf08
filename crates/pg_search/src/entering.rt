//! The states of one round more.
ghost use Rattle.std.specs.Prelude.{ℕ, ◌≡◌, ◌<◌, ◌≤◌, ◌||◌, ◌&&◌, ◌^◌, ◌-◌, [], ◌∷◌, ◌++◌, true, false, cond, List, length, map, flat_map, IfOk, OnOk};
ghost use Rattle.pg_keyed.specs.Lists.{Each};
ghost use Rattle.pg_value.specs.declared.shape.GraphShape.{GraphShape};
ghost use Rattle.pg_meaning.specs.Walks.{Hop};
ghost use Rattle.pg_meaning.specs.Fits.{seen_in as what_is_seen};
ghost use Rattle.pg_auto.specs.Autos.{stage_view};
ghost use Rattle.pg_auto.specs.Stages.{Stage as StageView};
ghost use Rattle.pg_auto.specs.Counts as counts;
ghost use Rattle.pg_auto.specs.Successors as successors;
ghost use Rattle.pg_auto.specs.Tests as tests;
ghost use Rattle.pg_search.specs.Checked.{IsCheckedStage};
ghost use Rattle.pg_search.specs.Chains.{list_at};
ghost use Rattle.pg_search.specs.Numbers.{IsWithin, hops_at, mentions_at, elem_at, state_of};
ghost use Rattle.pg_search.specs.Searches as spec;
ghost use Rattle.pg_search.specs.Searches.{IsRoundWalk, IsSomeRound, AreRounds, IsFine, IsEntered, PutStates};
ghost use Rattle.pg_search.specs.Seen.{fit_all as fit_all_no};
ghost use Rattle.pg_search.specs.Steps.{AreSeen};

use crate::follows::{agree, fit_all, follows, meets_seen};
use crate::numbered::Numbered;
use crate::seen::{firsts, name_all, seen_in};
use crate::states::{Kept, States};
use pg_ast::Mode;
use pg_auto::Stage;
use pg_view::View;
use std::alloc::{AllocError, Global};

/// How many rounds of a stage are told apart: up to the greatest number, or up to the least where there is no greatest.
fn cap_of(stage: &Stage<'_>) -> u32
    ensures { result ≡ counts.cap (stage_view stage.now) }
{
    match stage.high {
        Some(high) => high,
        None => stage.low,
    }
}

/// The count of rounds after another one.
fn next_of(stage: &Stage<'_>, done: u32) -> u32
    ensures { result ≡ counts.next_of (stage_view stage.now) done }
{
    let cap = cap_of(stage);
    if done < cap { done + 1 } else { done }
}

/// Whether all three hold.
fn all(first: bool, second: bool, third: bool) -> bool
    ensures { result ≡ (first && (second && third)) }
{
    first && second && third
}

/// Whether what a round names fits what parts that stand once have named, where it is of such a part itself.
fn fits_singles(
    stage: &Stage<'_>,
    numbers: &Numbered<'_>,
    singles: usize,
    seen: &[(u32, usize)],
) -> bool
    requires { singles < length numbers.now.names }
    ensures { result ≡ (stage.now.grouped || fit_all_no (list_at numbers.now.names singles) seen.now) }
{
    stage.grouped || fit_all(numbers, singles, seen)
}

/// Whether what a round names agrees, also with what was named before, and the mode permits its hops.
fn may_go_on(
    mode: Mode,
    stage: &Stage<'_>,
    numbers: &Numbered<'_>,
    state: &Kept,
    walk: usize,
    seen: &[(u32, usize)],
) -> bool
    requires walk { walk < length numbers.now.walks }
    requires within { IsWithin numbers.now state.now }
    ensures { (hops : List Hop) → IsRoundWalk numbers.now state.now (stage_view stage.now) walk hops → AreSeen numbers.now seen.now (what_is_seen (stage_view stage.now).round (state_of numbers.now state.now).at hops) → tests.permits mode numbers.now.start (hops_at numbers.now state.now.walk) ≡ true → tests.agrees (mentions_at numbers.now state.now.singles) ≡ true → result ≡ (tests.agrees (what_is_seen (stage_view stage.now).round (state_of numbers.now state.now).at hops) && (tests.permits mode numbers.now.start (hops_at numbers.now state.now.walk ++ hops) && tests.agrees (mentions_at numbers.now state.now.singles ++ spec.singles_of (stage_view stage.now) (what_is_seen (stage_view stage.now).round (state_of numbers.now state.now).at hops)))) }
{
    numbers.are_numbers();
    let agreed = agree(seen);
    let permitted = follows(numbers, mode, walk, stage.legs.len());
    let fit = fits_singles(stage, numbers, state.singles, seen);
    all(agreed, permitted, fit)
}

/// Whether a round fits, with all that came before it.
fn goes_on<V: View>(
    view: &V,
    alloc: Global,
    mode: Mode,
    stage: &Stage<'_>,
    numbers: &Numbered<'_>,
    state: &Kept,
    walk: usize,
    seen: &[(u32, usize)],
) -> Result<bool, AllocError>
    requires stage { IsCheckedStage (V.shapes view.now) (stage_view stage.now) }
    requires walk { walk < length numbers.now.walks }
    requires within { IsWithin numbers.now state.now }
    ensures { IfOk result (λ b. (stages : List StageView) (graph : GraphShape) (hops : List Hop) → IsRoundWalk numbers.now state.now (stage_view stage.now) walk hops → AreSeen numbers.now seen.now (what_is_seen (stage_view stage.now).round (state_of numbers.now state.now).at hops) → tests.permits mode numbers.now.start (hops_at numbers.now state.now.walk) ≡ true → tests.agrees (mentions_at numbers.now state.now.singles) ≡ true → b ≡ spec.passes (spec.task_at (V.shapes view.now) graph (V.tables view.now) stages mode numbers.now.start) (state_of numbers.now state.now) (stage_view stage.now) hops) }
{
    if may_go_on(mode, stage, numbers, state, walk, seen) {
        meets_seen(view, alloc, numbers, stage.cond, seen)
    } else {
        Ok(false)
    }
}

/// The state of one round more of a part that stands once.
fn entered_once(
    stage: &Stage<'_>,
    numbers: &mut Numbered<'_>,
    state: &Kept,
    walk: usize,
    seen: Vec<(u32, usize)>,
) -> Result<Kept, AllocError>
    requires grouped { stage.now.grouped ≡ false }
    requires walk { walk < length numbers.old.walks }
    requires within { IsWithin numbers.old state.now }
    requires seen { Each (λ m. m.1 < length numbers.old.elems) seen.items }
    ensures { IfOk result (λ next. (hops : List Hop) → IsRoundWalk numbers.old state.now (stage_view stage.now) walk hops → AreSeen numbers.old seen.items (what_is_seen (stage_view stage.now).round (state_of numbers.old state.now).at hops) → IsEntered numbers.old numbers.new next (successors.enter (state_of numbers.old state.now) (stage_view stage.now) hops)) }
{
    let singles = name_all(numbers, state.singles, seen)?;
    Ok(Kept {
        stage: state.stage,
        done: next_of(stage, state.done),
        walk,
        singles,
        groups: state.groups,
    })
}

/// The state of one round more of a quantified part.
fn entered_again(
    alloc: Global,
    stage: &Stage<'_>,
    numbers: &mut Numbered<'_>,
    state: &Kept,
    walk: usize,
    seen: Vec<(u32, usize)>,
) -> Result<Kept, AllocError>
    requires grouped { stage.now.grouped ≡ true }
    requires walk { walk < length numbers.old.walks }
    requires within { IsWithin numbers.old state.now }
    requires seen { Each (λ m. m.1 < length numbers.old.elems) seen.items }
    ensures { IfOk result (λ next. (hops : List Hop) → IsRoundWalk numbers.old state.now (stage_view stage.now) walk hops → AreSeen numbers.old seen.items (what_is_seen (stage_view stage.now).round (state_of numbers.old state.now).at hops) → IsEntered numbers.old numbers.new next (successors.enter (state_of numbers.old state.now) (stage_view stage.now) hops)) }
{
    let each_once = firsts(alloc, seen)?;
    let groups = name_all(numbers, state.groups, each_once)?;
    Ok(Kept {
        stage: state.stage,
        done: next_of(stage, state.done),
        walk,
        singles: state.singles,
        groups,
    })
}

/// The state of one round more.
fn entered(
    alloc: Global,
    stage: &Stage<'_>,
    numbers: &mut Numbered<'_>,
    state: &Kept,
    walk: usize,
    seen: Vec<(u32, usize)>,
) -> Result<Kept, AllocError>
    requires walk { walk < length numbers.old.walks }
    requires within { IsWithin numbers.old state.now }
    requires seen { Each (λ m. m.1 < length numbers.old.elems) seen.items }
    ensures { IfOk result (λ next. (hops : List Hop) → IsRoundWalk numbers.old state.now (stage_view stage.now) walk hops → AreSeen numbers.old seen.items (what_is_seen (stage_view stage.now).round (state_of numbers.old state.now).at hops) → IsEntered numbers.old numbers.new next (successors.enter (state_of numbers.old state.now) (stage_view stage.now) hops)) }
{
    if stage.grouped {
        entered_again(alloc, stage, numbers, state, walk, seen)
    } else {
        entered_once(stage, numbers, state, walk, seen)
    }
}

/// Puts the state of one round more.
fn put_entered(
    alloc: Global,
    stage: &Stage<'_>,
    state: &Kept,
    walk: usize,
    seen: Vec<(u32, usize)>,
    numbers: &mut Numbered<'_>,
    states: &mut States,
) -> Result<(), AllocError>
    requires walk { walk < length numbers.old.walks }
    requires within { IsWithin numbers.old state.now }
    requires seen { Each (λ m. m.1 < length numbers.old.elems) seen.items }
    requires kept { Each (IsWithin numbers.old) states.old }
    ensures { OnOk result ((hops : List Hop) → IsRoundWalk numbers.old state.now (stage_view stage.now) walk hops → AreSeen numbers.old seen.items (what_is_seen (stage_view stage.now).round (state_of numbers.old state.now).at hops) → PutStates numbers.old numbers.new states.old states.new (successors.enter (state_of numbers.old state.now) (stage_view stage.now) hops ∷ [])) }
{
    let next = entered(alloc, stage, numbers, state, walk, seen)?;
    numbers.are_numbers();
    states.put(next)
}

/// Puts the state of one round more, where the round fits.
fn push_round<V: View>(
    view: &V,
    alloc: Global,
    mode: Mode,
    stage: &Stage<'_>,
    state: &Kept,
    walk: usize,
    numbers: &mut Numbered<'_>,
    states: &mut States,
) -> Result<(), AllocError>
    requires stage { IsCheckedStage (V.shapes view.now) (stage_view stage.now) }
    requires walk { IsSomeRound numbers.old state.now (stage_view stage.now) walk }
    requires fine { IsFine numbers.old mode state.now }
    requires kept { Each (IsWithin numbers.old) states.old }
    ensures { OnOk result ((stages : List StageView) (graph : GraphShape) (hops : List Hop) → IsRoundWalk numbers.old state.now (stage_view stage.now) walk hops → PutStates numbers.old numbers.new states.old states.new (spec.entered_if (spec.task_at (V.shapes view.now) graph (V.tables view.now) stages mode numbers.old.start) (state_of numbers.old state.now) (stage_view stage.now) hops)) }
{
    let at = numbers.last(state.walk);
    let seen = seen_in(alloc, numbers, stage, at, walk)?;
    let fits = goes_on(view, alloc, mode, stage, numbers, state, walk, &seen)?;
    if fits {
        put_entered(alloc, stage, state, walk, seen, numbers, states)
    } else {
        Ok(())
    }
}

/// Puts the states of some rounds more, of those that fit.
pub fn push_rounds<V: View>(
    view: &V,
    alloc: Global,
    mode: Mode,
    stage: &Stage<'_>,
    state: &Kept,
    walks: Vec<usize>,
    numbers: &mut Numbered<'_>,
    states: &mut States,
) -> Result<(), AllocError>
    requires stage { IsCheckedStage (V.shapes view.now) (stage_view stage.now) }
    requires walks { Each (IsSomeRound numbers.old state.now (stage_view stage.now)) walks.items }
    requires fine { IsFine numbers.old mode state.now }
    requires kept { Each (IsWithin numbers.old) states.old }
    ensures { OnOk result ((stages : List StageView) (graph : GraphShape) (rounds : List (List Hop)) → AreRounds numbers.old state.now (stage_view stage.now) walks.items rounds → PutStates numbers.old numbers.new states.old states.new (flat_map (spec.entered_if (spec.task_at (V.shapes view.now) graph (V.tables view.now) stages mode numbers.old.start) (state_of numbers.old state.now) (stage_view stage.now)) rounds)) }
{
    for walk in walks {
        push_round(view, alloc, mode, stage, state, walk, numbers, states)?;
    }
    Ok(())
}
