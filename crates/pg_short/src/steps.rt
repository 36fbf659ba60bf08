//! The steps of a search.
ghost use Rattle.std.specs.Prelude.{◌≡◌, ◌≤◌, ◌<◌, ◌+◌, ◌^◌, ◌++◌, [], ◌∷◌, map, flat_map, cond, filter, length, drop, slice_get, option_map, Some, IfOk, OnOk};
ghost use Rattle.pg_expr.specs.Mentions.{mention_view};
ghost use Rattle.pg_auto.specs.Autos.{stage_view};
ghost use Rattle.pg_auto.specs.Counts as counts;
ghost use Rattle.pg_auto.specs.States.{singles_in};
ghost use Rattle.pg_auto.specs.Successors.{rounds_from as rounds_of};
ghost use Rattle.pg_keyed.specs.Lists.{Each};
ghost use Rattle.pg_search.specs.Checked.{IsCheckedStage};
ghost use Rattle.pg_short.specs.Rounds.{hops_in, all_hops, reading};
ghost use Rattle.pg_short.specs.Costs.{legs_cost, stage_cost, spot_cost};
ghost use Rattle.pg_short.specs.Spots.{needed};
ghost use Rattle.pg_short.specs.Steps as spec;
ghost use Rattle.pg_short.specs.Steps.{named_view, step_view};

use crate::conditions::seen_in;
use crate::rounds::{copy_elem, last_of, rounds_from};
use crate::spots::{Named, Spot, fits_names, push_mentions, push_names};
use pg_auto::{Auto, Stage};
use pg_chunks::Steps;
use pg_expr::Mention;
use pg_value::{ElemId, List};
use pg_view::{Neighbour, View};
use std::alloc::{AllocError, Global};
use std::sync::ledger::Ledger;

/// A step of a search: the number of the step before it, where it leads and by which hops, and how many hops lead there from
/// the start.
#[derive(Drop)]
pub struct Step {
    pub before: usize,
    pub spot: Spot,
    pub hops: List<Neighbour>,
    pub long: usize,
}

/// Whether a count is below a greatest number, where there is one.
fn is_below(high: Option<u32>, done: u32) -> bool
    ensures { result ≡ spec.is_below high done }
{
    match high {
        None => true,
        Some(high) => done < high,
    }
}

/// Whether another round of a stage may begin where so many are done.
fn may_enter(stage: &Stage<'_>, done: u32) -> bool
    ensures { result ≡ counts.may_enter (stage_view stage.now) done }
{
    is_below(stage.high, done)
}

/// Whether enough rounds of a stage are done.
fn may_leave(stage: &Stage<'_>, done: u32) -> bool
    ensures { result ≡ counts.may_leave (stage_view stage.now) done }
{
    stage.low <= done
}

/// How many rounds are told apart: up to the greatest number, or up to the least where there is no greatest.
fn cap(low: u32, high: Option<u32>) -> u32
    ensures { result ≡ spec.cap low high }
{
    match high {
        None => low,
        Some(high) => high,
    }
}

/// The count after another round.
fn next_of(stage: &Stage<'_>, done: u32) -> u32
    ensures { result ≡ counts.next_of (stage_view stage.now) done }
{
    let most = cap(stage.low, stage.high);
    if done < most { done + 1 } else { done }
}

/// What a round names for the parts that stand once.
pub fn singles<'a>(
    alloc: Global,
    stage: &Stage<'_>,
    vertex: &'a ElemId,
    hops: &'a [Neighbour],
) -> Result<Vec<Mention<'a>>, AllocError>
    ensures { IfOk result (λ seen. map mention_view seen.items ≡ singles_in (stage_view stage.now) vertex.now (hops_in hops.now)) }
{
    if stage.grouped {
        Ok(Vec::new(alloc))
    } else {
        seen_in(alloc, stage, vertex, hops)
    }
}

/// The stages from a number on; none beyond the last.
fn stages_from<'s, 'a>(stages: &'s [Stage<'a>], from: usize) -> &'s [Stage<'a>]
    ensures { result.now ≡ drop from stages.now }
{
    if from <= stages.len() {
        &stages[from..]
    } else {
        &[]
    }
}

/// What the stages from a number on need of some names and of what a round names.
fn names_after(
    alloc: Global,
    stages: &[Stage<'_>],
    from: usize,
    names: &[Named],
    seen: &[Mention<'_>],
) -> Result<Vec<Named>, AllocError>
    ensures { IfOk result (λ after. map named_view after.items ≡ needed (map stage_view stages.now) from (map named_view names.now ++ map mention_view seen.now)) }
{
    let later = stages_from(stages, from);
    let mut after = Vec::new(alloc);
    push_names(alloc, later, names, &mut after)?;
    push_mentions(alloc, later, seen, &mut after)?;
    Ok(after)
}

/// A count of hops with more of them. A walk that is too long for it is one for which memory is wanting.
fn add(long: usize, more: usize) -> Result<usize, AllocError>
    ensures { IfOk result (λ all. all ≡ long + more) }
{
    match long.checked_add(more) {
        Some(all) => Ok(all),
        None => Err(AllocError),
    }
}

/// Where a round leads from a spot.
fn spot_in(
    alloc: Global,
    stages: &[Stage<'_>],
    from: &Spot,
    stage: &Stage<'_>,
    hops: &[Neighbour],
    seen: &[Mention<'_>],
) -> Result<Spot, AllocError>
    ensures { IfOk result (λ spot. spec.spot_view spot ≡ spec.spot_in (map stage_view stages.now) (spec.spot_view from.now) (stage_view stage.now) (hops_in hops.now) (map mention_view seen.now)) }
{
    let at = copy_elem(alloc, last_of(&from.at, hops))?;
    let names = names_after(alloc, stages, from.stage, from.names.as_slice(), seen)?;
    Ok(Spot {
        stage: from.stage,
        done: next_of(stage, from.done),
        at,
        names,
    })
}

/// Where a round leads from a step, where what the round names agrees with what was named.
fn spot_if(
    alloc: Global,
    stages: &[Stage<'_>],
    from: &Spot,
    stage: &Stage<'_>,
    hops: &[Neighbour],
) -> Result<Option<Spot>, AllocError>
    ensures { IfOk result (λ spot. option_map spec.spot_view spot ≡ spec.spot_if (map stage_view stages.now) (spec.spot_view from.now) (stage_view stage.now) (hops_in hops.now)) }
{
    let seen = singles(alloc, stage, &from.at, hops)?;
    if fits_names(from.names.as_slice(), seen.as_slice()) {
        let spot = spot_in(alloc, stages, from, stage, hops, seen.as_slice())?;
        Ok(Some(spot))
    } else {
        Ok(None)
    }
}

/// Appends the step by a round from a step with a number, where what the round names agrees with what was named.
fn push_in(
    alloc: Global,
    stages: &[Stage<'_>],
    number: usize,
    step: &Step,
    stage: &Stage<'_>,
    hops: List<Neighbour>,
    found: &mut Vec<Step>,
) -> Result<(), AllocError>
    ensures { OnOk result (map step_view found.new.items ≡ map step_view found.old.items ++ spec.step_if (map stage_view stages.now) number (step_view step.now) (stage_view stage.now) hops) }
{
    let spot = spot_if(alloc, stages, &step.spot, stage, hops.as_slice())?;
    if let Some(spot) = spot {
        let long = add(step.long, hops.len())?;
        found.push(Step {
            before: number,
            spot,
            hops,
            long,
        })?;
    }
    Ok(())
}

/// Appends the steps by some rounds.
fn push_all_in(
    alloc: Global,
    stages: &[Stage<'_>],
    number: usize,
    step: &Step,
    stage: &Stage<'_>,
    rounds: Vec<List<Neighbour>>,
    found: &mut Vec<Step>,
) -> Result<(), AllocError>
    ensures { OnOk result (map step_view found.new.items ≡ map step_view found.old.items ++ flat_map (spec.step_if (map stage_view stages.now) number (step_view step.now) (stage_view stage.now)) rounds.items) }
{
    for hops in rounds {
        push_in(alloc, stages, number, step, stage, hops, found)?;
    }
    Ok(())
}

/// Appends the step out of the stage of a step.
fn push_out(
    alloc: Global,
    stages: &[Stage<'_>],
    number: usize,
    step: &Step,
    found: &mut Vec<Step>,
) -> Result<(), AllocError>
    ensures { OnOk result (map step_view found.new.items ≡ map step_view found.old.items ++ spec.step_out (map stage_view stages.now) number (step_view step.now) ∷ []) }
{
    let from = &step.spot;
    let stage = add(from.stage, 1)?;
    let names = names_after(alloc, stages, stage, from.names.as_slice(), &[])?;
    let spot = Spot {
        stage,
        done: 0,
        at: copy_elem(alloc, &from.at)?,
        names,
    };
    found.push(Step {
        before: number,
        spot,
        hops: List::new(alloc),
        long: step.long,
    })?;
    Ok(())
}

/// Appends the steps by each round more of the stage of a step.
fn push_rounds<V: View, L: Ledger>(
    alloc: Global,
    view: &V,
    auto: &Auto<'_>,
    number: usize,
    step: &Step,
    stage: &Stage<'_>,
    found: &mut Vec<Step>,
    steps: &mut Steps<L>,
) -> Result<(), AllocError>
    requires { IsCheckedStage (V.shapes view.now) (stage_view stage.now) }
    ensures made { OnOk result (map step_view found.new.items ≡ map step_view found.old.items ++ spec.steps_in (map stage_view auto.now.stages) number (step_view step.now) (stage_view stage.now) (rounds_of (reading (V.shapes view.now) (V.tables view.now) auto.now.graph.now step.now.spot.at) (stage_view stage.now) step.now.spot.at)) }
    ensures cost { steps.new ≤ steps.old + legs_cost (V.hop_cost view.now) (V.shapes view.now) (V.tables view.now) auto.now.graph.now (stage_view stage.now).round.legs step.now.spot.at }
{
    let rounds = rounds_from(alloc, view, auto.graph, stage, &step.spot.at, steps)?;
    push_all_in(
        alloc,
        auto.stages.as_slice(),
        number,
        step,
        stage,
        rounds,
        found,
    )
}

/// The same, where another round may begin.
fn push_entered<V: View, L: Ledger>(
    alloc: Global,
    view: &V,
    auto: &Auto<'_>,
    number: usize,
    step: &Step,
    stage: &Stage<'_>,
    found: &mut Vec<Step>,
    steps: &mut Steps<L>,
) -> Result<(), AllocError>
    requires { IsCheckedStage (V.shapes view.now) (stage_view stage.now) }
    ensures made { OnOk result (map step_view found.new.items ≡ map step_view found.old.items ++ spec.steps_entered (V.shapes view.now) (V.tables view.now) auto.now.graph.now (map stage_view auto.now.stages) number (step_view step.now) (stage_view stage.now)) }
    ensures cost { steps.new ≤ steps.old + stage_cost (V.hop_cost view.now) (V.shapes view.now) (V.tables view.now) auto.now.graph.now (stage_view stage.now) step.now.spot.done step.now.spot.at }
{
    if may_enter(stage, step.spot.done) {
        push_rounds(alloc, view, auto, number, step, stage, found, steps)
    } else {
        Ok(())
    }
}

/// Appends the step out of a stage, where enough rounds are done.
fn push_left(
    alloc: Global,
    stages: &[Stage<'_>],
    number: usize,
    step: &Step,
    stage: &Stage<'_>,
    found: &mut Vec<Step>,
) -> Result<(), AllocError>
    ensures { OnOk result (map step_view found.new.items ≡ map step_view found.old.items ++ spec.steps_left (map stage_view stages.now) number (step_view step.now) (stage_view stage.now)) }
{
    if may_leave(stage, step.spot.done) {
        push_out(alloc, stages, number, step, found)
    } else {
        Ok(())
    }
}

/// The steps from a step with a number, in a stage.
fn steps_in<V: View, L: Ledger>(
    alloc: Global,
    view: &V,
    auto: &Auto<'_>,
    number: usize,
    step: &Step,
    stage: &Stage<'_>,
    steps: &mut Steps<L>,
) -> Result<Vec<Step>, AllocError>
    requires { IsCheckedStage (V.shapes view.now) (stage_view stage.now) }
    ensures made { IfOk result (λ found. map step_view found.items ≡ spec.steps_of (V.shapes view.now) (V.tables view.now) auto.now.graph.now (map stage_view auto.now.stages) number (step_view step.now) (stage_view stage.now)) }
    ensures cost { steps.new ≤ steps.old + stage_cost (V.hop_cost view.now) (V.shapes view.now) (V.tables view.now) auto.now.graph.now (stage_view stage.now) step.now.spot.done step.now.spot.at }
{
    let mut found = Vec::new(alloc);
    push_entered(alloc, view, auto, number, step, stage, &mut found, steps)?;
    push_left(
        alloc,
        auto.stages.as_slice(),
        number,
        step,
        stage,
        &mut found,
    )?;
    Ok(found)
}

/// The steps from a step with a number.
pub fn steps_from<V: View, L: Ledger>(
    alloc: Global,
    view: &V,
    auto: &Auto<'_>,
    number: usize,
    step: &Step,
    steps: &mut Steps<L>,
) -> Result<Vec<Step>, AllocError>
    requires { Each (IsCheckedStage (V.shapes view.now)) (map stage_view auto.now.stages) }
    ensures made { IfOk result (λ found. map step_view found.items ≡ spec.next_steps (V.shapes view.now) (V.tables view.now) auto.now.graph.now (map stage_view auto.now.stages) number (step_view step.now)) }
    ensures cost { steps.new ≤ steps.old + spot_cost (V.hop_cost view.now) (V.shapes view.now) (V.tables view.now) auto.now.graph.now (map stage_view auto.now.stages) (spec.spot_view step.now.spot) }
{
    match auto.stages.get(step.spot.stage) {
        Some(stage) => steps_in(alloc, view, auto, number, step, stage, steps),
        None => Ok(Vec::new(alloc)),
    }
}
