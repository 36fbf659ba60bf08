//! What stands in a node or an edge. `at` is the place of that node's or edge's first token.
ghost use Rattle.std.specs.Prelude.{◌≡◌};
ghost use Rattle.pg_ast.specs.Grammar.Patterns as grammar;
ghost use Rattle.pg_grammar.specs.Kit.Reading.{Reads, ReadsRef, sees_if};
ghost use Rattle.pg_grammar.specs.Kit.Sets.{any};
ghost use Rattle.pg_pattern.specs.Read.Patterns as spec;

use pg_ast::{Filler, LabelExpr, Name, Scope, Whole};
use pg_grammar::{Cursor, Fault, Unexpected, label_expr, name, whole};
use pg_lex::Token;
use std::alloc::Global;

/// A name where one comes.
#[tactic(auto, unfolding(crate::specs::Read::Patterns::variable))]
fn variable(alloc: Global, cursor: &mut Cursor<'_>) -> Result<Option<Name>, Fault>
    ensures { Reads (spec.variable cursor.old) result cursor.new }
{
    if !cursor.sees_name() {
        return Ok(None);
    }
    let found = name(alloc, cursor)?;
    Ok(Some(found))
}

/// Whether a label expression comes.
fn sees_label(cursor: &Cursor<'_>) -> bool
    ensures { result ≡ sees_if (any spec.label_first) cursor.now }
{
    cursor.sees_word(b"IS") || cursor.sees_symbol(b":")
}

/// IS or `:`.
#[tactic(auto, unfolding(crate::specs::Read::Patterns::label_sign))]
fn label_sign<'a>(cursor: &mut Cursor<'a>) -> Result<&'a Token, Unexpected>
    ensures { ReadsRef (spec.label_sign cursor.old) result cursor.new }
{
    if cursor.sees_word(b"IS") {
        return cursor.word(b"IS");
    }
    cursor.symbol(b":")
}

/// A label expression behind IS or `:`, where one of them comes.
#[tactic(auto, unfolding(crate::specs::Read::Patterns::label))]
fn label(alloc: Global, cursor: &mut Cursor<'_>) -> Result<Option<LabelExpr>, Fault>
    ensures { Reads (spec.label cursor.old) result cursor.new }
{
    if !sees_label(cursor) {
        return Ok(None);
    }
    label_sign(cursor)?;
    let found = label_expr(alloc, cursor)?;
    Ok(Some(found))
}

/// Reads a condition behind WHERE, where WHERE comes.
#[tactic(auto, unfolding(crate::specs::Read::Patterns::condition))]
pub fn condition(alloc: Global, cursor: &mut Cursor<'_>) -> Result<Option<Whole>, Fault>
    ensures { Reads (spec.condition cursor.old) result cursor.new }
{
    if !cursor.eat_word(b"WHERE") {
        return Ok(None);
    }
    let found = whole(alloc, cursor, Scope::Query)?;
    Ok(Some(found))
}

/// A variable, a label expression and a condition, each where it comes.
#[tactic(auto, unfolding(crate::specs::Read::Patterns::filler))]
fn filler(alloc: Global, cursor: &mut Cursor<'_>, at: u32) -> Result<Filler, Fault>
    ensures { Reads (spec.filler at cursor.old) result cursor.new }
{
    let var = variable(alloc, cursor)?;
    let label = label(alloc, cursor)?;
    let cond = condition(alloc, cursor)?;
    Ok(Filler {
        var,
        label,
        cond,
        at,
    })
}

/// Reads a node from behind its `(`.
#[tactic(auto, unfolding(crate::specs::Read::Patterns::node_rest))]
pub fn node_rest(alloc: Global, cursor: &mut Cursor<'_>, at: u32) -> Result<Filler, Fault>
    ensures { Reads (spec.node_rest at cursor.old) result cursor.new }
{
    let found = filler(alloc, cursor, at)?;
    Ok(cursor.closed(b")", found)?)
}

/// Reads a node: a filler in parentheses.
#[tactic(auto, unfolding(crate::specs::Read::Patterns::node))]
pub fn node(alloc: Global, cursor: &mut Cursor<'_>) -> Result<Filler, Fault>
    ensures { Reads (spec.node cursor.old) result cursor.new }
{
    let at = cursor.symbol(b"(")?.from;
    node_rest(alloc, cursor, at)
}

/// Reads a filler in brackets.
#[tactic(auto, unfolding(crate::specs::Read::Patterns::bracket))]
pub fn bracket(alloc: Global, cursor: &mut Cursor<'_>, at: u32) -> Result<Filler, Fault>
    ensures { Reads (spec.bracket at cursor.old) result cursor.new }
{
    cursor.symbol(b"[")?;
    let found = filler(alloc, cursor, at)?;
    Ok(cursor.closed(b"]", found)?)
}

/// The filler of an edge without brackets.
pub fn bare(at: u32) -> Filler
    ensures { result ≡ grammar.bare at }
{
    Filler {
        var: None,
        label: None,
        cond: None,
        at,
    }
}
