//! Where a query mentions its variables.
ghost use Rattle.std.specs.Prelude.{◌≡◌, ◌++◌, ◌∷◌, [], false, true, IfOk, OnOk, map, ◌<◌, ◌+◌, ◌==◌, ◌||◌, slice_get, option_to_list, drop, length, is_some, filter_map};
ghost use Rattle.pg_meaning.specs.Outlines as outline;
ghost use Rattle.pg_meaning.specs.Mentions.{mention_at, mentions_in, mentions_from};
ghost use Rattle.pg_rules.specs.Queries.Collections as spec;
ghost use Rattle.pg_check.specs.Gathered as pass;

use crate::quantifiers::quant_of;
use pg_ast::{Filler, Name, Part, PathPattern, Query};
use std::alloc::{AllocError, Global};

/// A node or an edge of a path pattern: its variable, and the number of the quantified part in which it stands.
#[derive(Clone, Copy)]
pub struct PlacedSpot<'a> {
    pub variable: Option<&'a Name>,
    pub edge: bool,
    pub part: Option<usize>,
}

/// A variable where a node or an edge names it: the number of its path pattern and of the quantified part in which it stands,
/// and whether it is the first or the last node of its path pattern.
#[derive(Clone, Copy)]
pub struct MentionOf<'a> {
    pub variable: &'a Name,
    pub edge: bool,
    pub path: usize,
    pub part: Option<usize>,
    pub end: bool,
}

/// Appends a node or an edge.
#[tactic(auto, using(crate::proofs::Loops::mapped_push))]
fn push_spot<'a>(
    edge: bool,
    part: Option<usize>,
    filler: &'a Filler,
    out: &mut Vec<PlacedSpot<'a>>,
) -> Result<(), AllocError>
    ensures { OnOk result (map pass.spot_view out.new.items ≡ map pass.spot_view out.old.items ++ outline.spot edge part filler.now.var ∷ []) }
{
    out.push(PlacedSpot {
        variable: filler.var.as_ref(),
        edge,
        part,
    })?;
    Ok(())
}

/// Appends the edge at a place, where there is one.
fn push_edge_at<'a>(
    part: Option<usize>,
    edges: &'a [Filler],
    at: usize,
    out: &mut Vec<PlacedSpot<'a>>,
) -> Result<(), AllocError>
    ensures { OnOk result (map pass.spot_view out.new.items ≡ map pass.spot_view out.old.items ++ pass.spots_of_edges part (option_to_list (slice_get edges.now at))) }
{
    match edges.get(at) {
        Some(edge) => push_spot(true, part, edge, out),
        None => Ok(()),
    }
}

/// Appends a node, and the edge at a place, where there is one.
fn push_pair<'a>(
    part: Option<usize>,
    node: &'a Filler,
    edges: &'a [Filler],
    at: usize,
    out: &mut Vec<PlacedSpot<'a>>,
) -> Result<(), AllocError>
    ensures { OnOk result (map pass.spot_view out.new.items ≡ map pass.spot_view out.old.items ++ (outline.spot false part node.now.var ∷ pass.spots_of_edges part (option_to_list (slice_get edges.now at)))) }
{
    push_spot(false, part, node, out)?;
    push_edge_at(part, edges, at, out)
}

/// Appends some edges.
fn push_edges<'a>(
    part: Option<usize>,
    edges: &'a [Filler],
    out: &mut Vec<PlacedSpot<'a>>,
) -> Result<(), AllocError>
    ensures { OnOk result (map pass.spot_view out.new.items ≡ map pass.spot_view out.old.items ++ pass.spots_of_edges part edges.now) }
{
    for edge in edges {
        push_spot(true, part, edge, out)?;
    }
    Ok(())
}

/// Appends some nodes, each with the edge that follows it.
fn push_pairs<'a>(
    part: Option<usize>,
    nodes: &'a [Filler],
    edges: &'a [Filler],
    out: &mut Vec<PlacedSpot<'a>>,
) -> Result<(), AllocError>
    ensures { OnOk result (map pass.spot_view out.new.items ++ pass.spots_of_edges part (drop (length nodes.now) edges.now) ≡ map pass.spot_view out.old.items ++ pass.chain part nodes.now edges.now) }
{
    for (i, node) in nodes.iter().enumerate() {
        push_pair(part, node, edges, i, out)?;
    }
    Ok(())
}

/// Appends the edges from a place on.
fn push_rest<'a>(
    part: Option<usize>,
    edges: &'a [Filler],
    from: usize,
    out: &mut Vec<PlacedSpot<'a>>,
) -> Result<(), AllocError>
    ensures { OnOk result (map pass.spot_view out.new.items ≡ map pass.spot_view out.old.items ++ pass.spots_of_edges part (drop from edges.now)) }
{
    if from < edges.len() {
        push_edges(part, &edges[from..], out)
    } else {
        Ok(())
    }
}

/// Appends nodes and edges in turn, a node first.
fn push_chain<'a>(
    part: Option<usize>,
    nodes: &'a [Filler],
    edges: &'a [Filler],
    out: &mut Vec<PlacedSpot<'a>>,
) -> Result<(), AllocError>
    ensures { OnOk result (map pass.spot_view out.new.items ≡ map pass.spot_view out.old.items ++ pass.chain part nodes.now edges.now) }
{
    push_pairs(part, nodes, edges, out)?;
    push_rest(part, edges, nodes.len(), out)
}

/// The number of a part, where it is quantified.
fn number_if(part: &Part, number: usize) -> Option<usize>
    ensures { result ≡ outline.part_if (is_some (spec.quant_of part.now)) number }
{
    if quant_of(part).is_some() {
        Some(number)
    } else {
        None
    }
}

/// Appends the nodes and edges of the part of a number.
fn push_part<'a>(
    number: usize,
    part: &'a Part,
    out: &mut Vec<PlacedSpot<'a>>,
) -> Result<(), AllocError>
    ensures { OnOk result (map pass.spot_view out.new.items ≡ map pass.spot_view out.old.items ++ outline.spots_in number (spec.outline_of part.now)) }
{
    let placed = number_if(part, number);
    match part {
        Part::Node(filler) => push_spot(false, placed, filler, out),
        Part::Edge { filler, .. } => push_spot(true, placed, filler, out),
        Part::Group { nodes, edges, .. } => {
            push_chain(placed, nodes.as_slice(), edges.as_slice(), out)
        }
    }
}

/// The nodes and edges of some parts.
fn spots_in(alloc: Global, parts: &[Part]) -> Result<Vec<PlacedSpot<'_>>, AllocError>
    ensures { IfOk result (λ r. map pass.spot_view r.items ≡ outline.spots_from 0 (map spec.outline_of parts.now)) }
{
    let mut out = Vec::new(alloc);
    for (i, part) in parts.iter().enumerate() {
        push_part(i, part, &mut out)?;
    }
    Ok(out)
}

/// The end that a node or an edge is, where it is the first or the last: a node that stands in no quantified part.
fn is_end(outermost: bool, spot: PlacedSpot<'_>) -> bool
    ensures { result ≡ (pass.end_if outermost (pass.spot_view spot.entry)).end }
{
    outermost && (!spot.edge && spot.part.is_none())
}

/// Appends the mention of a node or an edge that has a variable.
#[tactic(auto, using(crate::proofs::Loops::mapped_push))]
fn push_mention<'a>(
    path: usize,
    outermost: bool,
    spot: PlacedSpot<'a>,
    out: &mut Vec<MentionOf<'a>>,
) -> Result<(), AllocError>
    ensures { OnOk result (map pass.mention_view out.new.items ≡ map pass.mention_view out.old.items ++ pass.mention_of path outermost spot.entry) }
{
    let end = is_end(outermost, spot);
    match spot.variable {
        Some(variable) => {
            out.push(MentionOf {
                variable,
                edge: spot.edge,
                path,
                part: spot.part,
                end,
            })?;
            Ok(())
        }
        None => Ok(()),
    }
}

/// Whether a place is the first or the last.
fn is_outermost(place: usize, length: usize) -> bool
    requires { place < length }
    ensures { result ≡ ((place == 0) || ((place + 1) == length)) }
{
    place == 0 || place + 1 == length
}

/// Appends the mentions of a path pattern's nodes and edges.
fn push_mentions<'a>(
    path: usize,
    spots: &[PlacedSpot<'a>],
    out: &mut Vec<MentionOf<'a>>,
) -> Result<(), AllocError>
    ensures { OnOk result (map pass.mention_view out.new.items ≡ map pass.mention_view out.old.items ++ filter_map (mention_at path) (pass.marked true (map pass.spot_view spots.now))) }
{
    for (i, spot) in spots.iter().enumerate() {
        push_mention(path, is_outermost(i, spots.len()), *spot, out)?;
    }
    Ok(())
}

/// Appends the mentions of a path pattern.
fn push_path<'a>(
    alloc: Global,
    number: usize,
    path: &'a PathPattern,
    out: &mut Vec<MentionOf<'a>>,
) -> Result<(), AllocError>
    ensures { OnOk result (map pass.mention_view out.new.items ≡ map pass.mention_view out.old.items ++ mentions_in number (spec.outlines path.now)) }
{
    let spots = spots_in(alloc, path.parts.as_slice())?;
    push_mentions(number, &spots, out)
}

/// The mentions of one path pattern, in order of writing, as of a path pattern of a number.
pub fn path_mentions(
    alloc: Global,
    number: usize,
    path: &PathPattern,
) -> Result<Vec<MentionOf<'_>>, AllocError>
    ensures { IfOk result (λ r. map pass.mention_view r.items ≡ mentions_in number (spec.outlines path.now)) }
{
    let mut out = Vec::new(alloc);
    push_path(alloc, number, path, &mut out)?;
    Ok(out)
}

/// The mentions of some path patterns.
fn mentions_of_paths(alloc: Global, paths: &[PathPattern]) -> Result<Vec<MentionOf<'_>>, AllocError>
    ensures { IfOk result (λ r. map pass.mention_view r.items ≡ mentions_from 0 (map spec.outlines paths.now)) }
{
    let mut out = Vec::new(alloc);
    for (i, path) in paths.iter().enumerate() {
        push_path(alloc, i, path, &mut out)?;
    }
    Ok(out)
}

/// The mentions of a query's path patterns, in order of writing.
pub fn mentions(alloc: Global, query: &Query) -> Result<Vec<MentionOf<'_>>, AllocError>
    ensures { IfOk result (λ r. map pass.mention_view r.items ≡ spec.mentions_of query.now) }
{
    mentions_of_paths(alloc, query.paths.as_slice())
}
