//! Nodes and groups between edges.
ghost use Rattle.std.specs.Prelude.{◌≡◌};
ghost use Rattle.pg_grammar.specs.Kit.Reading.{Reads, OfMemory};
ghost use Rattle.pg_pattern.specs.Read.Patterns as spec;

use crate::edges::{edge, sees_edge};
use crate::fillers::{condition, node, node_rest};
use crate::quantifiers::quantifier;
use pg_ast::{Arrow, Chain, Filler, Part, Quant, Whole};
use pg_grammar::{Cursor, Fault};
use pg_value::List;
use std::alloc::Global;

/// A chain of one node.
fn first_of(alloc: Global, node: Filler) -> Result<Chain, Fault>
    ensures { OfMemory result (spec.first_of node) }
{
    let mut nodes = List::new(alloc);
    nodes.push(node)?;
    Ok(Chain {
        nodes,
        arrows: List::new(alloc),
        edges: List::new(alloc),
    })
}

/// The chain with that edge and that node behind it.
fn linked(chain: Chain, arrow: Arrow, edge: Filler, node: Filler) -> Result<Chain, Fault>
    ensures { OfMemory result (spec.linked chain arrow edge node) }
{
    let Chain {
        mut nodes,
        mut arrows,
        mut edges,
    } = chain;
    nodes.push(node)?;
    arrows.push(arrow)?;
    edges.push(edge)?;
    Ok(Chain {
        nodes,
        arrows,
        edges,
    })
}

/// An edge and a node, behind a chain.
#[tactic(auto, unfolding(crate::specs::Read::Patterns::link))]
fn link(alloc: Global, cursor: &mut Cursor<'_>, chain: Chain) -> Result<Chain, Fault>
    ensures { Reads (spec.link chain cursor.old) result cursor.new }
{
    let (arrow, filler) = edge(alloc, cursor)?;
    let node = node(alloc, cursor)?;
    linked(chain, arrow, filler, node)
}

/// One or more edges, each with a node behind it.
#[tactic(auto, unfolding(pg_grammar::specs::Kit::Reading::turns))]
fn links(alloc: Global, cursor: &mut Cursor<'_>, chain: Chain) -> Result<Chain, Fault>
    ensures { Reads (spec.links chain cursor.old) result cursor.new }
{
    let mut found = link(alloc, cursor, chain)?;
    for _turn in 0..cursor.len() {
        if !sees_edge(cursor) {
            break;
        }
        found = link(alloc, cursor, found)?;
    }
    Ok(found)
}

/// A node, and edges with a node behind each.
#[tactic(auto, unfolding(crate::specs::Read::Patterns::chain))]
fn chain(alloc: Global, cursor: &mut Cursor<'_>) -> Result<Chain, Fault>
    ensures { Reads (spec.chain cursor.old) result cursor.new }
{
    let node = node(alloc, cursor)?;
    let chain = first_of(alloc, node)?;
    links(alloc, cursor, chain)
}

/// A group of that chain.
fn group_of(chain: Chain, cond: Option<Whole>, quant: Option<Quant>) -> Part
    ensures { result ≡ spec.group_of chain cond quant }
{
    let Chain {
        nodes,
        arrows,
        edges,
    } = chain;
    Part::Group {
        nodes,
        arrows,
        edges,
        cond,
        quant,
    }
}

/// A group from behind its `(`.
#[tactic(auto, unfolding(crate::specs::Read::Patterns::group_rest))]
fn group_rest(alloc: Global, cursor: &mut Cursor<'_>) -> Result<Part, Fault>
    ensures { Reads (spec.group_rest cursor.old) result cursor.new }
{
    let chain = chain(alloc, cursor)?;
    let cond = condition(alloc, cursor)?;
    let (chain, cond) = cursor.closed(b")", (chain, cond))?;
    let quant = quantifier(cursor)?;
    Ok(group_of(chain, cond, quant))
}

/// Reads a node, or a group with its quantifier if it has one. A group begins with two `(`.
#[tactic(auto, unfolding(crate::specs::Read::Patterns::block))]
pub fn block(alloc: Global, cursor: &mut Cursor<'_>) -> Result<Part, Fault>
    ensures { Reads (spec.block cursor.old) result cursor.new }
{
    let at = cursor.symbol(b"(")?.from;
    if cursor.sees_symbol(b"(") {
        return group_rest(alloc, cursor);
    }
    let node = node_rest(alloc, cursor, at)?;
    Ok(Part::Node(node))
}
