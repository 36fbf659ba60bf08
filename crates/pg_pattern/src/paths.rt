//! Path patterns.
ghost use Rattle.std.specs.Prelude.{◌≡◌, Ok};
ghost use Rattle.pg_grammar.specs.Kit.Reading.{Reads, ReadsSurely, sees_if};
ghost use Rattle.pg_grammar.specs.Kit.Sets.{any};
ghost use Rattle.pg_pattern.specs.Read.Patterns as spec;

use crate::blocks::block;
use crate::edges::{edge, sees_edge};
use crate::quantifiers::quantifier;
use pg_ast::{Mode, Part, PathPattern, Selector};
use pg_grammar::{Cursor, Fault, Unexpected};
use pg_value::List;
use std::alloc::Global;

/// An edge with its quantifier.
#[tactic(auto, unfolding(crate::specs::Read::Patterns::quantified_edge))]
fn quantified_edge(alloc: Global, cursor: &mut Cursor<'_>) -> Result<Part, Fault>
    ensures { Reads (spec.quantified_edge cursor.old) result cursor.new }
{
    let (arrow, filler) = edge(alloc, cursor)?;
    let quant = quantifier(cursor)?;
    Ok(Part::Edge {
        arrow,
        filler,
        quant,
    })
}

/// An edge with its quantifier, and the node or group behind it.
#[tactic(auto, unfolding(crate::specs::Read::Patterns::next_edge))]
fn next_edge(
    alloc: Global,
    cursor: &mut Cursor<'_>,
    mut parts: List<Part>,
) -> Result<List<Part>, Fault>
    ensures { Reads (spec.next_edge parts cursor.old) result cursor.new }
{
    parts.push(quantified_edge(alloc, cursor)?)?;
    parts.push(block(alloc, cursor)?)?;
    Ok(parts)
}

/// What comes next of a path pattern: an edge and what stands behind it, or a node or group.
#[tactic(auto, unfolding(crate::specs::Read::Patterns::next_block))]
fn next_block(
    alloc: Global,
    cursor: &mut Cursor<'_>,
    mut parts: List<Part>,
) -> Result<List<Part>, Fault>
    ensures { Reads (spec.next_block parts cursor.old) result cursor.new }
{
    if sees_edge(cursor) {
        return next_edge(alloc, cursor, parts);
    }
    parts.push(block(alloc, cursor)?)?;
    Ok(parts)
}

/// Whether the path pattern goes on.
fn sees_part(cursor: &Cursor<'_>) -> bool
    ensures { result ≡ sees_if (any spec.parts_on) cursor.now }
{
    cursor.sees_symbol(b"-") || cursor.sees_either_symbol(b"<", b"(")
}

/// A node or group, and what goes on with it.
#[tactic(auto, unfolding(pg_grammar::specs::Kit::Reading::turns))]
fn parts(alloc: Global, cursor: &mut Cursor<'_>) -> Result<List<Part>, Fault>
    ensures { Reads (spec.parts cursor.old) result cursor.new }
{
    let mut found = List::new(alloc);
    found.push(block(alloc, cursor)?)?;
    for _turn in 0..cursor.len() {
        if !sees_part(cursor) {
            break;
        }
        found = next_block(alloc, cursor, found)?;
    }
    Ok(found)
}

/// ANY, ANY SHORTEST or ALL SHORTEST, where one of them comes.
#[tactic(auto, unfolding(crate::specs::Read::Patterns::selector))]
fn selector(cursor: &mut Cursor<'_>) -> Result<Selector, Unexpected>
    ensures { ReadsSurely (spec.selector cursor.old) result cursor.new }
{
    if cursor.eat_word(b"ANY") {
        if cursor.eat_word(b"SHORTEST") {
            return Ok(Selector::AnyShortest);
        }
        return Ok(Selector::Any);
    }
    if cursor.eat_word(b"ALL") {
        cursor.word(b"SHORTEST")?;
        return Ok(Selector::AllShortest);
    }
    Ok(Selector::Every)
}

/// The word of a mode, where one comes. WALK is meant without one.
#[tactic(auto, unfolding(crate::specs::Read::Patterns::mode))]
fn mode(cursor: &mut Cursor<'_>) -> Mode
    ensures { spec.mode cursor.old ≡ Ok (result, cursor.new) }
{
    if cursor.eat_word(b"WALK") {
        return Mode::Walk;
    }
    if cursor.eat_word(b"TRAIL") {
        return Mode::Trail;
    }
    if cursor.eat_word(b"ACYCLIC") {
        return Mode::Acyclic;
    }
    if cursor.eat_word(b"SIMPLE") {
        return Mode::Simple;
    }
    Mode::Walk
}

/// PATH or PATHS, where one of them comes.
#[tactic(auto, unfolding(crate::specs::Read::Patterns::path_word))]
fn path_word(cursor: &mut Cursor<'_>)
    ensures { spec.path_word cursor.old ≡ Ok (tt, cursor.new) }
{
    if !cursor.eat_word(b"PATH") {
        cursor.eat_word(b"PATHS");
    }
}

/// Reads a path pattern.
#[tactic(auto, unfolding(crate::specs::Read::Patterns::path_at))]
pub fn path(alloc: Global, cursor: &mut Cursor<'_>) -> Result<PathPattern, Fault>
    ensures { Reads (spec.path cursor.old) result cursor.new }
{
    let at = cursor.place();
    let selector = selector(cursor)?;
    let mode = mode(cursor);
    path_word(cursor);
    let parts = parts(alloc, cursor)?;
    Ok(PathPattern {
        selector,
        mode,
        parts,
        at,
    })
}
