//! Edges. `at` is the place of an edge's first token.
ghost use Rattle.std.specs.Prelude.{◌≡◌, Ok};
ghost use Rattle.pg_grammar.specs.Kit.Reading.{Reads, sees_if};
ghost use Rattle.pg_grammar.specs.Kit.Sets.{any};
ghost use Rattle.pg_pattern.specs.Read.Patterns as spec;

use crate::fillers::{bare, bracket};
use pg_ast::{Arrow, Filler};
use pg_grammar::{Cursor, Fault};
use std::alloc::Global;

/// Behind `-` or `-[..]-`: with `>` it points to the right, else either way.
#[tactic(auto, unfolding(crate::specs::Read::Patterns::ended))]
fn ended(cursor: &mut Cursor<'_>, filler: Filler) -> (Arrow, Filler)
    ensures { spec.ended filler cursor.old ≡ Ok (result, cursor.new) }
{
    let arrow = if cursor.eat_symbol(b">") {
        Arrow::Right
    } else {
        Arrow::Either
    };
    (arrow, filler)
}

/// Behind `-`, from `[` on.
#[tactic(auto, unfolding(crate::specs::Read::Patterns::bracketed))]
fn bracketed(alloc: Global, cursor: &mut Cursor<'_>, at: u32) -> Result<(Arrow, Filler), Fault>
    ensures { Reads (spec.bracketed at cursor.old) result cursor.new }
{
    let filler = bracket(alloc, cursor, at)?;
    let filler = cursor.closed(b"-", filler)?;
    Ok(ended(cursor, filler))
}

/// Behind `-`.
#[tactic(auto, unfolding(crate::specs::Read::Patterns::after_minus))]
fn after_minus(alloc: Global, cursor: &mut Cursor<'_>, at: u32) -> Result<(Arrow, Filler), Fault>
    ensures { Reads (spec.after_minus at cursor.old) result cursor.new }
{
    if cursor.sees_symbol(b"[") {
        return bracketed(alloc, cursor, at);
    }
    Ok(ended(cursor, bare(at)))
}

/// Behind `<-`.
#[tactic(auto, unfolding(crate::specs::Read::Patterns::pointed_left))]
fn pointed_left(alloc: Global, cursor: &mut Cursor<'_>, at: u32) -> Result<(Arrow, Filler), Fault>
    ensures { Reads (spec.pointed_left at cursor.old) result cursor.new }
{
    if !cursor.sees_symbol(b"[") {
        return Ok((Arrow::Left, bare(at)));
    }
    let filler = bracket(alloc, cursor, at)?;
    Ok((Arrow::Left, cursor.closed(b"-", filler)?))
}

/// Whether an edge comes.
pub fn sees_edge(cursor: &Cursor<'_>) -> bool
    ensures { result ≡ sees_if (any spec.edge_first) cursor.now }
{
    cursor.sees_either_symbol(b"-", b"<")
}

/// Reads an edge in any of its forms: `-[..]->`, `<-[..]-`, `-[..]-`, `->`, `<-`, `-`.
#[tactic(auto, unfolding(crate::specs::Read::Patterns::edge))]
pub fn edge(alloc: Global, cursor: &mut Cursor<'_>) -> Result<(Arrow, Filler), Fault>
    ensures { Reads (spec.edge cursor.old) result cursor.new }
{
    if cursor.sees_symbol(b"-") {
        let at = cursor.symbol(b"-")?.from;
        return after_minus(alloc, cursor, at);
    }
    let at = cursor.symbol(b"<")?.from;
    cursor.symbol(b"-")?;
    pointed_left(alloc, cursor, at)
}
