//! What a round names, by the numbers of its elements.
ghost use Rattle.std.specs.Prelude.{ℕ, ◌≡◌, ◌<◌, [], ◌∷◌, ◌++◌, List, length, map, IfOk, OnOk};
ghost use Rattle.std.specs.Option.{option_copied};
ghost use Rattle.pg_keyed.specs.Lists.{Each};
ghost use Rattle.pg_meaning.specs.Walks.{Hop};
ghost use Rattle.pg_meaning.specs.Fits.{Mention, seen_on_legs, seen_in};
ghost use Rattle.pg_auto.specs.Autos.{leg_view, stage_view};
ghost use Rattle.pg_search.specs.Numbers.{elem_at, hops_at};
ghost use Rattle.pg_search.specs.Seen as spec;
ghost use Rattle.pg_search.specs.Steps.{AreSeen, IsNamed};

use crate::numbered::Numbered;
use pg_auto::{Leg, Stage};
use pg_meaning::CFiller;
use std::alloc::{AllocError, Global};

/// Appends what a node or an edge says of its variable.
fn push_mention(
    filler: &CFiller,
    elem: usize,
    out: &mut Vec<(u32, usize)>,
) -> Result<(), AllocError>
    ensures { OnOk result (out.new.items ≡ out.old.items ++ spec.mention_no filler.now elem) }
{
    if let Some(var) = filler.var {
        out.push((var, elem))?;
    }
    Ok(())
}

/// Appends what a node says of its variable, which may ask nothing.
fn push_node_mention(
    node: Option<&CFiller>,
    elem: usize,
    out: &mut Vec<(u32, usize)>,
) -> Result<(), AllocError>
    ensures { OnOk result (out.new.items ≡ out.old.items ++ spec.node_mention_no (option_copied node.entry) elem) }
{
    match node {
        Some(filler) => push_mention(filler, elem, out),
        None => Ok(()),
    }
}

/// Appends what a leg names, of an edge and the vertex behind it.
fn push_leg(
    leg: &Leg<'_>,
    edge: usize,
    to: usize,
    out: &mut Vec<(u32, usize)>,
) -> Result<(), AllocError>
    ensures { OnOk result (out.new.items ≡ out.old.items ++ spec.leg_nos (leg_view leg.now) (edge, to)) }
{
    push_mention(leg.edge, edge, out)?;
    push_node_mention(leg.node, to, out)
}

/// Appends what legs name over the last hops of a walk. It goes back through them, of which there are at most three.
fn push_on_legs(
    numbers: &Numbered<'_>,
    legs: &[Leg<'_>],
    walk: usize,
    out: &mut Vec<(u32, usize)>,
) -> Result<(), AllocError>
    requires { walk < length numbers.now.walks }
    ensures { OnOk result ((seen : List Mention) (base hops : List Hop) → AreSeen numbers.now out.old.items seen → hops_at numbers.now walk ≡ base ++ hops → length hops ≡ length legs.now → AreSeen numbers.now out.new.items (seen ++ seen_on_legs (map leg_view legs.now) hops)) }
{
    numbers.are_numbers();
    let count = legs.len();
    if count == 0 {
        return Ok(());
    }
    let front = &legs[..count - 1];
    match numbers.link(walk) {
        Some(link) => {
            push_on_legs(numbers, front, link.before, out)?;
            push_leg(&legs[count - 1], link.first, link.second, out)
        }
        None => Ok(()),
    }
}

/// What a round names that goes from a vertex over the last hops of a walk.
pub fn seen_in(
    alloc: Global,
    numbers: &Numbered<'_>,
    stage: &Stage<'_>,
    at: usize,
    walk: usize,
) -> Result<Vec<(u32, usize)>, AllocError>
    requires walk { walk < length numbers.now.walks }
    requires at { at < length numbers.now.elems }
    ensures { IfOk result (λ seen. (base hops : List Hop) → hops_at numbers.now walk ≡ base ++ hops → length hops ≡ length stage.now.legs → AreSeen numbers.now seen.items (seen_in (stage_view stage.now).round (elem_at numbers.now at) hops)) }
{
    let mut seen = Vec::new(alloc);
    push_node_mention(stage.node, at, &mut seen)?;
    push_on_legs(numbers, stage.legs.as_slice(), walk, &mut seen)?;
    Ok(seen)
}

/// The number of mentions with others behind them.
pub fn name_all(
    numbers: &mut Numbered<'_>,
    names: usize,
    seen: Vec<(u32, usize)>,
) -> Result<usize, AllocError>
    requires names { names < length numbers.old.names }
    requires seen { Each (λ m. m.1 < length numbers.old.elems) seen.items }
    ensures { IfOk result (λ k. IsNamed numbers.old names seen.items k numbers.new) }
{
    let mut at = names;
    for mention in seen {
        at = numbers.name(at, mention.0 as usize, mention.1)?;
    }
    Ok(at)
}

/// Whether one of some mentions is of a variable.
fn has_variable(seen: &[(u32, usize)], var: u32) -> bool
    ensures { result ≡ spec.has_variable seen.now var }
{
    for mention in seen {
        if mention.0 == var {
            return true;
        }
    }
    false
}

/// Each variable once, at the first element that it names.
pub fn firsts(alloc: Global, seen: Vec<(u32, usize)>) -> Result<Vec<(u32, usize)>, AllocError>
    ensures { IfOk result (λ firsts. firsts.items ≡ spec.firsts_no seen.items) }
{
    let mut out = Vec::new(alloc);
    for mention in seen {
        push_first(&mut out, mention)?;
    }
    Ok(out)
}

/// Appends a mention where its variable is not mentioned yet.
fn push_first(out: &mut Vec<(u32, usize)>, mention: (u32, usize)) -> Result<(), AllocError>
    ensures { OnOk result (out.new.items ≡ spec.with_first out.old.items mention) }
{
    if !has_variable(out, mention.0) {
        out.push(mention)?;
    }
    Ok(())
}
