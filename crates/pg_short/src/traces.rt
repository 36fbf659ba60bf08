//! The walk to a step of a search, traced back to the start by the steps before it.
ghost use Rattle.std.specs.Prelude.{◌≡◌, ◌<◌, ◌++◌, map, length, option_map, IfOk, OnOk};
ghost use Rattle.std.specs.Option.{option_to_list};
ghost use Rattle.pg_auto.specs.Autos.{stage_view};
ghost use Rattle.pg_short.specs.Steps.{step_view};
ghost use Rattle.pg_short.specs.Walks as spec;
ghost use Rattle.pg_short.specs.Walks.{IsTraced};

use crate::bindings::WalkedRound;
use crate::steps::Step;
use pg_auto::Stage;
use std::alloc::{AllocError, Global};

/// The round by which a step goes on from another; None where it leaves the stage.
pub fn round_of<'w, 's>(
    stages: &'w [Stage<'s>],
    before: &'w Step,
    step: &'w Step,
) -> Option<WalkedRound<'w, 's>>
    ensures { option_map spec.round_view result ≡ spec.round_of (map stage_view stages.now) (step_view before.now) (step_view step.now) }
{
    if step.spot.stage != before.spot.stage {
        return None;
    }
    match stages.get(before.spot.stage) {
        Some(stage) => Some(WalkedRound {
            stage,
            from: &before.spot.at,
            hops: step.hops.as_slice(),
        }),
        None => None,
    }
}

/// Appends the round by which a step goes on from another, where it does not leave the stage.
fn push_round<'w, 's>(
    stages: &'w [Stage<'s>],
    before: &'w Step,
    step: &'w Step,
    out: &mut Vec<WalkedRound<'w, 's>>,
) -> Result<(), AllocError>
    ensures { OnOk result (spec.rounds_in out.new.items ≡ spec.rounds_in out.old.items ++ option_to_list (spec.round_of (map stage_view stages.now) (step_view before.now) (step_view step.now))) }
{
    if let Some(round) = round_of(stages, before, step) {
        out.push(round)?;
    }
    Ok(())
}

/// The rounds that lead from the start to the step of a number. It takes as many turns as the walk has steps.
pub fn trace<'w, 's>(
    alloc: Global,
    stages: &'w [Stage<'s>],
    found: &'w [Step],
    number: usize,
) -> Result<Vec<WalkedRound<'w, 's>>, AllocError>
    requires { number < length found.now }
    ensures { IfOk result (λ rounds. IsTraced (map stage_view stages.now) (map step_view found.now) number (spec.rounds_in rounds.items)) }
{
    let mut rounds = Vec::new(alloc);
    let mut at = number;
    let mut step = &found[number];
    'steps: while step.before < at {
        at = step.before;
        let before = &found[at];
        push_round(stages, before, step, &mut rounds)?;
        step = before;
    }
    rounds.reverse();
    Ok(rounds)
}
