//! What is left of walks, by numbers. It is kept from its end on, so that walks that end alike share their ends.
ghost use Rattle.std.specs.Prelude.{◌≡◌, ◌<◌, ◌++◌, [], ◌∷◌, map, length, reverse, Some, IfOk, OnOk};
ghost use Rattle.pg_expr.specs.Mentions.{mention_view};
ghost use Rattle.pg_short.specs.Rounds.{hops_in};
ghost use Rattle.pg_short.specs.Walks.{round_view};
ghost use Rattle.pg_short.specs.Rests as spec;
ghost use Rattle.pg_short.specs.Rests.{IsFarther, IsNamedOn, IsRest, IsWithin};

use crate::bindings::{WalkedRound, groups};
use crate::rounds::copy_elem;
use crate::steps::singles;
use pg_expr::Mention;
use pg_search::{Kept, Numbered};
use pg_view::Neighbour;
use std::alloc::{AllocError, Global};

/// Appends an equal hop.
fn push_copy(alloc: Global, hop: &Neighbour, out: &mut Vec<Neighbour>) -> Result<(), AllocError>
    ensures { OnOk result (out.new.items ≡ out.old.items ++ hop.now ∷ []) }
{
    let edge = copy_elem(alloc, &hop.edge)?;
    let other = copy_elem(alloc, &hop.other)?;
    out.push(Neighbour { edge, other })?;
    Ok(())
}

/// Equal hops.
fn copy_hops(alloc: Global, hops: &[Neighbour]) -> Result<Vec<Neighbour>, AllocError>
    ensures { IfOk result (λ copy. copy.items ≡ hops.now) }
{
    let mut copy = Vec::new(alloc);
    for hop in hops {
        push_copy(alloc, hop, &mut copy)?;
    }
    Ok(copy)
}

/// The number of a walk with hops behind it.
fn step_all(
    numbers: &mut Numbered<'_>,
    walk: usize,
    hops: Vec<Neighbour>,
) -> Result<usize, AllocError>
    requires { walk < length numbers.old.walks }
    ensures { IfOk result (λ k. IsFarther numbers.old walk (hops_in hops.items) k numbers.new) }
{
    let mut at = walk;
    for hop in hops {
        at = numbers.step(at, hop)?;
    }
    Ok(at)
}

/// The same, the last of the hops first.
fn step_back(
    alloc: Global,
    numbers: &mut Numbered<'_>,
    walk: usize,
    hops: &[Neighbour],
) -> Result<usize, AllocError>
    requires { walk < length numbers.old.walks }
    ensures { IfOk result (λ k. IsFarther numbers.old walk (reverse (hops_in hops.now)) k numbers.new) }
{
    let mut back = copy_hops(alloc, hops)?;
    back.reverse();
    step_all(numbers, walk, back)
}

/// The number of mentions with one more.
fn name_one(
    alloc: Global,
    numbers: &mut Numbered<'_>,
    names: usize,
    mention: &Mention<'_>,
) -> Result<usize, AllocError>
    requires { names < length numbers.old.names }
    ensures { IfOk result (λ k. IsNamedOn numbers.old names (mention_view mention.now ∷ []) k numbers.new) }
{
    let elem = numbers.add(copy_elem(alloc, mention.elem)?)?;
    numbers.name(names, mention.var as usize, elem)
}

/// The number of mentions with others behind them.
fn name_all(
    alloc: Global,
    numbers: &mut Numbered<'_>,
    names: usize,
    seen: &[Mention<'_>],
) -> Result<usize, AllocError>
    requires { names < length numbers.old.names }
    ensures { IfOk result (λ k. IsNamedOn numbers.old names (map mention_view seen.now) k numbers.new) }
{
    let mut at = names;
    for mention in seen {
        at = name_one(alloc, numbers, at, mention)?;
    }
    Ok(at)
}

/// The same, the last of them first.
fn name_back(
    alloc: Global,
    numbers: &mut Numbered<'_>,
    names: usize,
    mut seen: Vec<Mention<'_>>,
) -> Result<usize, AllocError>
    requires { names < length numbers.old.names }
    ensures { IfOk result (λ k. IsNamedOn numbers.old names (reverse (map mention_view seen.entry.items)) k numbers.new) }
{
    seen.reverse();
    name_all(alloc, numbers, names, seen.as_slice())
}

/// What is left of a walk, with a round in front, from a place on.
pub fn with_round(
    alloc: Global,
    numbers: &mut Numbered<'_>,
    place: usize,
    round: &WalkedRound<'_, '_>,
    rest: Kept,
) -> Result<Kept, AllocError>
    requires { IsWithin numbers.old rest }
    ensures { IfOk result (λ a. IsRest numbers.old numbers.new a (place, spec.joined (spec.round_walk (Some (round_view round.now))) (spec.left_of numbers.old rest))) }
{
    let walk = step_back(alloc, numbers, rest.walk, round.hops)?;
    let seen = singles(alloc, round.stage, round.from, round.hops)?;
    let singles = name_back(alloc, numbers, rest.singles, seen)?;
    let seen = groups(alloc, round.stage, round.from, round.hops)?;
    let groups = name_back(alloc, numbers, rest.groups, seen)?;
    Ok(Kept {
        stage: place,
        done: 0,
        walk,
        singles,
        groups,
    })
}
