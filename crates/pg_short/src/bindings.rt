//! The binding of a walk that is given by its rounds.
ghost use Rattle.std.specs.Prelude.{◌≡◌, ◌<◌, ◌^◌, ◌++◌, map, length, IfOk, OnOk};
ghost use Rattle.pg_meaning.specs.Bindings.{path_binding};
ghost use Rattle.pg_meaning.specs.Fits.{elements, firsts};
ghost use Rattle.pg_meaning.specs.Walks.{vertices_of, edges_of};
ghost use Rattle.pg_expr.specs.Mentions.{mention_view};
ghost use Rattle.pg_auto.specs.Autos.{stage_view};
ghost use Rattle.pg_auto.specs.States as states;
ghost use Rattle.pg_short.specs.Rounds.{hops_in};
ghost use Rattle.pg_short.specs.Selections.{IsShort};
ghost use Rattle.pg_short.specs.Walks as spec;

use crate::conditions::seen_in;
use crate::rounds::copy_elem;
use crate::steps::singles;
use pg_auto::Stage;
use pg_expr::Mention;
use pg_meaning::PathBinding;
use pg_value::{ElemId, List};
use pg_view::Neighbour;
use std::alloc::{AllocError, Global};

/// A round of a stage, from a vertex over hops.
#[derive(Drop)]
pub struct WalkedRound<'w, 's> {
    pub stage: &'w Stage<'s>,
    pub from: &'w ElemId,
    pub hops: &'w [Neighbour],
}

/// Appends the vertices behind some hops.
fn push_vertices(
    alloc: Global,
    hops: &[Neighbour],
    out: &mut List<ElemId>,
) -> Result<(), AllocError>
    ensures { OnOk result (out.new ≡ out.old ++ map (λ hop. hop.to) (hops_in hops.now)) }
{
    for hop in hops {
        out.push(copy_elem(alloc, &hop.other)?)?;
    }
    Ok(())
}

/// Appends the edges of some hops.
fn push_edges(alloc: Global, hops: &[Neighbour], out: &mut List<ElemId>) -> Result<(), AllocError>
    ensures { OnOk result (out.new ≡ out.old ++ edges_of (hops_in hops.now)) }
{
    for hop in hops {
        out.push(copy_elem(alloc, &hop.edge)?)?;
    }
    Ok(())
}

/// The most vertices of a walk that is given. A longer walk is one for which memory is wanting.
const MOST_VERTICES: usize = 17_179_869_183;

/// The same vertices, where they are not too many.
pub fn not_too_many(vertices: List<ElemId>) -> Result<List<ElemId>, AllocError>
    ensures same { IfOk result (λ list. list ≡ vertices) }
    ensures short { IfOk result (λ list. length list < 2 ^ 34) }
{
    if vertices.len() <= MOST_VERTICES {
        Ok(vertices)
    } else {
        Err(AllocError)
    }
}

/// The vertices of a walk from a vertex.
fn vertices_along(
    alloc: Global,
    start: &ElemId,
    rounds: &[WalkedRound<'_, '_>],
) -> Result<List<ElemId>, AllocError>
    ensures { IfOk result (λ list. list ≡ vertices_of start.now (spec.hops_along (spec.rounds_in rounds.now))) }
{
    let mut vertices = List::new(alloc);
    vertices.push(copy_elem(alloc, start)?)?;
    for round in rounds {
        push_vertices(alloc, round.hops, &mut vertices)?;
    }
    Ok(vertices)
}

/// The edges of a walk.
fn edges_along(alloc: Global, rounds: &[WalkedRound<'_, '_>]) -> Result<List<ElemId>, AllocError>
    ensures { IfOk result (λ list. list ≡ edges_of (spec.hops_along (spec.rounds_in rounds.now))) }
{
    let mut edges = List::new(alloc);
    for round in rounds {
        push_edges(alloc, round.hops, &mut edges)?;
    }
    Ok(edges)
}

/// Whether one of some mentions is of a variable.
fn has_variable(seen: &[Mention<'_>], var: u32) -> bool
    ensures { result ≡ spec.has_variable (map mention_view seen.now) var }
{
    for mention in seen {
        if mention.var == var {
            return true;
        }
    }
    false
}

/// Appends a mention, where its variable is not mentioned yet.
fn push_first<'w>(mention: &Mention<'w>, out: &mut Vec<Mention<'w>>) -> Result<(), AllocError>
    ensures { OnOk result (map mention_view out.new.items ≡ spec.with_first (map mention_view out.old.items) (mention_view mention.now)) }
{
    if !has_variable(out.as_slice(), mention.var) {
        out.push(Mention {
            var: mention.var,
            elem: mention.elem,
        })?;
    }
    Ok(())
}

/// Each variable once, at the first element that it names.
fn firsts<'w>(alloc: Global, seen: &[Mention<'w>]) -> Result<Vec<Mention<'w>>, AllocError>
    ensures { IfOk result (λ out. map mention_view out.items ≡ firsts (map mention_view seen.now)) }
{
    let mut out = Vec::new(alloc);
    for mention in seen {
        push_first(mention, &mut out)?;
    }
    Ok(out)
}

/// What a round names for the quantified parts.
pub fn groups<'w>(
    alloc: Global,
    stage: &Stage<'_>,
    vertex: &'w ElemId,
    hops: &'w [Neighbour],
) -> Result<Vec<Mention<'w>>, AllocError>
    ensures { IfOk result (λ seen. map mention_view seen.items ≡ states.groups_in (stage_view stage.now) vertex.now (hops_in hops.now)) }
{
    if stage.grouped {
        let seen = seen_in(alloc, stage, vertex, hops)?;
        firsts(alloc, seen.as_slice())
    } else {
        Ok(Vec::new(alloc))
    }
}

/// Appends what a round names for the parts that stand once.
fn push_singles<'w>(
    alloc: Global,
    round: &WalkedRound<'w, '_>,
    out: &mut Vec<Mention<'w>>,
) -> Result<(), AllocError>
    ensures { OnOk result (map mention_view out.new.items ≡ map mention_view out.old.items ++ spec.singles_at (spec.round_view round.now)) }
{
    let mut seen = singles(alloc, round.stage, round.from, round.hops)?;
    out.append(&mut seen)
}

/// Appends what a round names for the quantified parts.
fn push_groups<'w>(
    alloc: Global,
    round: &WalkedRound<'w, '_>,
    out: &mut Vec<Mention<'w>>,
) -> Result<(), AllocError>
    ensures { OnOk result (map mention_view out.new.items ≡ map mention_view out.old.items ++ spec.groups_at (spec.round_view round.now)) }
{
    let mut seen = groups(alloc, round.stage, round.from, round.hops)?;
    out.append(&mut seen)
}

/// What rounds name for the parts that stand once.
fn singles_along<'w>(
    alloc: Global,
    rounds: &[WalkedRound<'w, '_>],
) -> Result<Vec<Mention<'w>>, AllocError>
    ensures { IfOk result (λ seen. map mention_view seen.items ≡ spec.singles_along (spec.rounds_in rounds.now)) }
{
    let mut seen = Vec::new(alloc);
    for round in rounds {
        push_singles(alloc, round, &mut seen)?;
    }
    Ok(seen)
}

/// Appends what rounds name for the quantified parts.
fn push_all_groups<'w>(
    alloc: Global,
    rounds: &[WalkedRound<'w, '_>],
    out: &mut Vec<Mention<'w>>,
) -> Result<(), AllocError>
    ensures { OnOk result (map mention_view out.new.items ≡ map mention_view out.old.items ++ spec.groups_along (spec.rounds_in rounds.now)) }
{
    for round in rounds {
        push_groups(alloc, round, out)?;
    }
    Ok(())
}

/// What a walk names: each variable of the parts that stand once at its first element, and the variables of the quantified
/// parts once for each round.
fn named_along<'w>(
    alloc: Global,
    rounds: &[WalkedRound<'w, '_>],
) -> Result<Vec<Mention<'w>>, AllocError>
    ensures { IfOk result (λ seen. map mention_view seen.items ≡ spec.named_along (spec.rounds_in rounds.now)) }
{
    let singles = singles_along(alloc, rounds)?;
    let mut named = firsts(alloc, singles.as_slice())?;
    push_all_groups(alloc, rounds, &mut named)?;
    Ok(named)
}

/// Appends an element, where it stands for a variable.
fn push_named(
    alloc: Global,
    var: u32,
    mention: &Mention<'_>,
    out: &mut List<ElemId>,
) -> Result<(), AllocError>
    ensures { OnOk result (out.new ≡ out.old ++ spec.named_at var (mention_view mention.now)) }
{
    if mention.var == var {
        out.push(copy_elem(alloc, mention.elem)?)
    } else {
        Ok(())
    }
}

/// The elements that stand for a variable.
fn list_of(alloc: Global, named: &[Mention<'_>], var: u32) -> Result<List<ElemId>, AllocError>
    ensures { IfOk result (λ list. list ≡ elements (map mention_view named.now) var) }
{
    let mut list = List::new(alloc);
    for mention in named {
        push_named(alloc, var, mention, &mut list)?;
    }
    Ok(list)
}

/// The elements that stand for each of some variables.
fn lists_of(
    alloc: Global,
    named: &[Mention<'_>],
    vars: &[u32],
) -> Result<List<List<ElemId>>, AllocError>
    ensures { IfOk result (λ lists. lists ≡ map (elements (map mention_view named.now)) vars.now) }
{
    let mut lists = List::new(alloc);
    for var in vars {
        lists.push(list_of(alloc, named, *var)?)?;
    }
    Ok(lists)
}

/// The binding of the walk that goes from a vertex through some rounds, one after another: its vertices and edges, and the
/// list of each of some variables. A walk of 2^34 vertices or more is one for which memory is wanting.
pub fn binding_of(
    alloc: Global,
    start: &ElemId,
    vars: &[u32],
    rounds: &[WalkedRound<'_, '_>],
) -> Result<PathBinding, AllocError>
    ensures given { IfOk result (λ b. b ≡ path_binding (states.binding_of start.now vars.now (spec.walk_along (spec.rounds_in rounds.now)))) }
    ensures short { IfOk result IsShort }
{
    let vertices = not_too_many(vertices_along(alloc, start, rounds)?)?;
    let edges = edges_along(alloc, rounds)?;
    let named = named_along(alloc, rounds)?;
    let vars = lists_of(alloc, named.as_slice(), vars)?;
    Ok(PathBinding {
        vertices,
        edges,
        vars,
    })
}
