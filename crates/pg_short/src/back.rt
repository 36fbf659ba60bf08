//! Back from the ends of shortest walks to the start, over tight steps.
ghost use Rattle.std.specs.Prelude.{ℕ, ◌≡◌, ◌<◌, ◌+◌, ◌++◌, [], ◌∷◌, map, flat_map, length, slice_get, Some, Contains, IfOk, OnOk};
ghost use Rattle.pg_keyed.specs.Lists.{Each};
ghost use Rattle.pg_auto.specs.Autos.{stage_view};
ghost use Rattle.pg_meaning.specs.Bindings.{path_binding};
ghost use Rattle.pg_auto.specs.States as states;
ghost use Rattle.pg_short.specs.Steps.{Step as StepView, step_view, spot_view};
ghost use Rattle.pg_short.specs.Found.{steps_in};
ghost use Rattle.pg_short.specs.Selections.{IsShort};
ghost use Rattle.pg_short.specs.Tight.{AreTogether, AreTight, IsTight, list_in, numbers_in};
ghost use Rattle.pg_short.specs.Walks.{round_of};
ghost use Rattle.pg_short.specs.Rests as spec;
ghost use Rattle.pg_short.specs.Rests.{AreEnds, AreLed, AreWhole, AreWithin, IsRest, IsWithin, PutBack};

use crate::bindings::not_too_many;
use crate::rests::with_round;
use crate::search::Search;
use crate::steps::Step;
use crate::tight::tight_steps;
use crate::traces::round_of;
use crate::visited::place_of;
use pg_auto::Stage;
use pg_meaning::PathBinding;
use pg_search::{Kept, Numbered, States, binding_of_items};
use pg_value::{ElemId, List};
use std::alloc::{AllocError, Global};

/// What is left of a walk, with a step in front, from a place on, by the step before it.
fn with_step(
    alloc: Global,
    stages: &[Stage<'_>],
    numbers: &mut Numbered<'_>,
    place: usize,
    before: &Step,
    step: &Step,
    rest: Kept,
) -> Result<Kept, AllocError>
    requires { IsWithin numbers.old rest }
    ensures { IfOk result (λ a. IsRest numbers.old numbers.new a (place, spec.joined (spec.round_walk (round_of (map stage_view stages.now) (step_view before.now) (step_view step.now))) (spec.left_of numbers.old rest))) }
{
    match round_of(stages, before, step) {
        Some(round) => with_round(alloc, numbers, place, &round, rest),
        None => Ok(Kept {
            stage: place,
            done: 0,
            walk: rest.walk,
            singles: rest.singles,
            groups: rest.groups,
        }),
    }
}

/// Puts what is left of a walk with a tight step in front, where it is not among the others.
fn put_step(
    alloc: Global,
    stages: &[Stage<'_>],
    search: &Search,
    numbers: &mut Numbered<'_>,
    states: &mut States,
    number: usize,
    rest: Kept,
) -> Result<(), AllocError>
    requires together { AreTogether (steps_in search.now) search.now.order.items (map spot_view search.now.spots.keys) }
    requires tight { IsTight (steps_in search.now) search.now.order.items rest.stage number }
    requires kept { AreWithin numbers.old states.old }
    requires rest { IsWithin numbers.old rest }
    ensures { OnOk result (PutBack (map stage_view stages.now) (steps_in search.now) search.now.order.items (number ∷ []) (spec.left_of numbers.old rest) numbers.old numbers.new states.old states.new) }
{
    let step = &search.found[number];
    let before = &search.found[step.before];
    match place_of(&search.spots, &before.spot) {
        Some(place) => {
            let kept = with_step(alloc, stages, numbers, place, before, step, rest)?;
            states.put(kept)
        }
        None => Ok(()),
    }
}

/// The same of some tight steps that lead to one place.
fn put_steps(
    alloc: Global,
    stages: &[Stage<'_>],
    search: &Search,
    numbers: &mut Numbered<'_>,
    states: &mut States,
    tight: &[usize],
    rest: Kept,
) -> Result<(), AllocError>
    requires together { AreTogether (steps_in search.now) search.now.order.items (map spot_view search.now.spots.keys) }
    requires tight { (k : ℕ) → Contains tight.now k → IsTight (steps_in search.now) search.now.order.items rest.stage k }
    requires kept { AreWithin numbers.old states.old }
    requires rest { IsWithin numbers.old rest }
    ensures { OnOk result (PutBack (map stage_view stages.now) (steps_in search.now) search.now.order.items tight.now (spec.left_of numbers.old rest) numbers.old numbers.new states.old states.new) }
{
    for number in tight {
        put_step(alloc, stages, search, numbers, states, *number, rest)?;
    }
    Ok(())
}

/// Goes back from what is left of one walk.
fn go_back(
    alloc: Global,
    stages: &[Stage<'_>],
    search: &Search,
    tight: &[Vec<usize>],
    numbers: &mut Numbered<'_>,
    states: &mut States,
    rest: Kept,
) -> Result<(), AllocError>
    requires together { AreTogether (steps_in search.now) search.now.order.items (map spot_view search.now.spots.keys) }
    requires tight { AreTight (steps_in search.now) search.now.order.items (numbers_in tight.now) (length search.now.found.items) }
    requires kept { AreWithin numbers.old states.old }
    requires rest { Contains states.old rest }
    ensures { OnOk result (PutBack (map stage_view stages.now) (steps_in search.now) search.now.order.items (list_in (numbers_in tight.now) rest.stage) (spec.left_of numbers.old rest) numbers.old numbers.new states.old states.new) }
{
    match tight.get(rest.stage) {
        Some(steps) => put_steps(
            alloc,
            stages,
            search,
            numbers,
            states,
            steps.as_slice(),
            rest,
        ),
        None => Ok(()),
    }
}

/// Goes back from what is left of walks, until there is nothing new. More turns than a count has room for are as if memory were
/// wanting.
fn go_back_all(
    alloc: Global,
    stages: &[Stage<'_>],
    search: &Search,
    tight: &[Vec<usize>],
    numbers: &mut Numbered<'_>,
    states: &mut States,
) -> Result<(), AllocError>
    requires together { AreTogether (steps_in search.now) search.now.order.items (map spot_view search.now.spots.keys) }
    requires tight { AreTight (steps_in search.now) search.now.order.items (numbers_in tight.now) (length search.now.found.items) }
    requires kept { AreWithin numbers.old states.old }
    requires led { AreLed (map stage_view stages.now) (steps_in search.now) search.now.order.items (spec.rests_of numbers.old states.old) 0 }
    ensures kept { OnOk result (AreWithin numbers.new states.new) }
    ensures start { OnOk result (numbers.new.start ≡ numbers.old.start) }
    ensures led { OnOk result (AreLed (map stage_view stages.now) (steps_in search.now) search.now.order.items (spec.rests_of numbers.new states.new) (length states.new)) }
{
    for at in 0..usize::MAX {
        match states.get(at) {
            Some(rest) => go_back(alloc, stages, search, tight, numbers, states, rest)?,
            None => return Ok(()),
        }
    }
    Err(AllocError)
}

/// Puts a place behind the last stage, from which nothing is left.
fn put_end(
    stages: &[Stage<'_>],
    search: &Search,
    states: &mut States,
    place: usize,
) -> Result<(), AllocError>
    requires together { AreTogether (steps_in search.now) search.now.order.items (map spot_view search.now.spots.keys) }
    requires place { place < length search.now.order.items }
    ensures { OnOk result (AreEnds (map stage_view stages.now) (steps_in search.now) search.now.order.items states.old place → AreEnds (map stage_view stages.now) (steps_in search.now) search.now.order.items states.new (place + 1)) }
{
    if stages.len() <= search.found[search.order[place]].spot.stage {
        states.put(Kept {
            stage: place,
            done: 0,
            walk: 0,
            singles: 0,
            groups: 0,
        })
    } else {
        Ok(())
    }
}

/// The places behind the last stage, from which nothing is left.
fn ends(alloc: Global, stages: &[Stage<'_>], search: &Search) -> Result<States, AllocError>
    requires { AreTogether (steps_in search.now) search.now.order.items (map spot_view search.now.spots.keys) }
    ensures { IfOk result (λ states. AreEnds (map stage_view stages.now) (steps_in search.now) search.now.order.items states (length search.now.order.items)) }
{
    let mut states = States::new(alloc);
    for place in 0..search.order.len() {
        put_end(stages, search, &mut states, place)?;
    }
    Ok(states)
}

/// The binding of what is left of a walk from its start on.
fn binding_back(
    alloc: Global,
    numbers: &Numbered<'_>,
    vars: &[u32],
    rest: &Kept,
) -> Result<PathBinding, AllocError>
    requires { IsWithin numbers.now rest.now }
    ensures given { IfOk result (λ b. b ≡ path_binding (states.binding_of numbers.now.start vars.now (spec.left_of numbers.now rest.now))) }
    ensures short { IfOk result IsShort }
{
    let mut hops = numbers.walks().items(alloc, rest.walk)?;
    let mut singles = numbers.names().items(alloc, rest.singles)?;
    let mut groups = numbers.names().items(alloc, rest.groups)?;
    hops.reverse();
    singles.reverse();
    groups.reverse();
    let binding = binding_of_items(alloc, numbers, vars, &hops, &singles, &groups)?;
    let vertices = not_too_many(binding.vertices)?;
    Ok(PathBinding {
        vertices,
        edges: binding.edges,
        vars: binding.vars,
    })
}

/// Appends the binding of what is left of a walk, where that is from a place on.
fn push_whole(
    alloc: Global,
    numbers: &Numbered<'_>,
    vars: &[u32],
    place: usize,
    rest: &Kept,
    out: &mut List<PathBinding>,
) -> Result<(), AllocError>
    requires { IsWithin numbers.now rest.now }
    ensures given { OnOk result (out.new ≡ out.old ++ spec.whole_at numbers.now.start vars.now place (spec.rest_of numbers.now rest.now)) }
    ensures short { OnOk result (Each IsShort out.old → Each IsShort out.new) }
{
    if rest.stage == place {
        out.push(binding_back(alloc, numbers, vars, rest)?)
    } else {
        Ok(())
    }
}

/// The same of what is left of a walk by its number among others.
fn push_whole_at(
    alloc: Global,
    numbers: &Numbered<'_>,
    vars: &[u32],
    place: usize,
    states: &States,
    at: usize,
    out: &mut List<PathBinding>,
) -> Result<(), AllocError>
    requires { AreWithin numbers.now states.now }
    ensures given { OnOk result (out.new ≡ out.old ++ spec.whole_in numbers.now vars.now place (slice_get states.now at)) }
    ensures short { OnOk result (Each IsShort out.old → Each IsShort out.new) }
{
    match states.get(at) {
        Some(rest) => push_whole(alloc, numbers, vars, place, &rest, out),
        None => Ok(()),
    }
}

/// The bindings of what is left of walks from a place on.
fn whole(
    alloc: Global,
    numbers: &Numbered<'_>,
    vars: &[u32],
    place: usize,
    states: &States,
) -> Result<List<PathBinding>, AllocError>
    requires { AreWithin numbers.now states.now }
    ensures given { IfOk result (λ out. out ≡ flat_map (spec.whole_at numbers.now.start vars.now place) (spec.rests_of numbers.now states.now)) }
    ensures short { IfOk result (Each IsShort) }
{
    let mut out = List::new(alloc);
    for at in 0..states.len() {
        push_whole_at(alloc, numbers, vars, place, states, at, &mut out)?;
    }
    Ok(out)
}

/// The bindings of the walks that tight steps make, each once.
pub fn whole_walks(
    alloc: Global,
    stages: &[Stage<'_>],
    start: &ElemId,
    vars: &[u32],
    search: &Search,
) -> Result<List<PathBinding>, AllocError>
    requires together { AreTogether (steps_in search.now) search.now.order.items (map spot_view search.now.spots.keys) }
    requires first { 0 < length search.now.found.items }
    requires begun { (first : StepView) → slice_get (steps_in search.now) 0 ≡ Some first → Contains (map spot_view search.now.spots.keys) first.spot }
    ensures given { IfOk result (AreWhole (map stage_view stages.now) start.now vars.now (steps_in search.now) search.now.order.items) }
    ensures short { IfOk result (Each IsShort) }
{
    let tight = tight_steps(alloc, search)?;
    let mut numbers = Numbered::new(alloc, start)?;
    let mut states = ends(alloc, stages, search)?;
    go_back_all(alloc, stages, search, &tight, &mut numbers, &mut states)?;
    numbers.are_apart();
    states.are_distinct();
    match place_of(&search.spots, &search.found[0].spot) {
        Some(place) => whole(alloc, &numbers, vars, place, &states),
        None => Ok(List::new(alloc)),
    }
}
