//! Literals: numbers, texts, TRUE, FALSE and NULL.
ghost use Rattle.pg_ast.specs.Words.Terminals.{W};
ghost use Rattle.pg_grammar.specs.Kit.Reading.{Reads, ReadsSurely};
ghost use Rattle.pg_grammar.specs.Read.Exprs as spec;

use crate::number::number_literal;
use crate::text::{bytes_of, copy_text};
use crate::{Cursor, Fault, Unexpected};
use pg_ast::Expr;
use pg_value::Value;
use std::alloc::Global;

/// A number.
#[tactic(auto, unfolding(crate::specs::Read::Exprs::number))]
fn number(cursor: &mut Cursor<'_>) -> Result<Expr, Unexpected>
    ensures { ReadsSurely (spec.number cursor.old) result cursor.new }
{
    let token = cursor.number()?;
    Ok(number_literal(bytes_of(token), token.from))
}

/// A text.
#[tactic(auto, unfolding(crate::specs::Read::Exprs::text))]
fn text(alloc: Global, cursor: &mut Cursor<'_>) -> Result<Expr, Fault>
    ensures { Reads (spec.text cursor.old) result cursor.new }
{
    let token = cursor.text()?;
    let text = copy_text(alloc, token)?;
    Ok(Expr::Lit {
        value: Value::Text(text),
        bits: 0,
        at: token.from,
    })
}

/// The value that this word writes.
#[tactic(auto, unfolding(crate::specs::Read::Exprs::constant))]
fn constant(cursor: &mut Cursor<'_>, word: &[u8], value: Value) -> Result<Expr, Unexpected>
    ensures { ReadsSurely (spec.constant (W word.now) value cursor.old) result cursor.new }
{
    let token = cursor.word(word)?;
    Ok(Expr::Lit {
        value,
        bits: 0,
        at: token.from,
    })
}

/// A literal.
#[tactic(auto, unfolding(crate::specs::Read::Exprs::literal))]
pub fn literal(alloc: Global, cursor: &mut Cursor<'_>) -> Result<Expr, Fault>
    ensures { Reads (spec.literal cursor.old) result cursor.new }
{
    if cursor.sees_number() {
        return Ok(number(cursor)?);
    }
    if cursor.sees_text() {
        return text(alloc, cursor);
    }
    if cursor.sees_word(b"TRUE") {
        return Ok(constant(cursor, b"TRUE", Value::Bool(true))?);
    }
    if cursor.sees_word(b"FALSE") {
        return Ok(constant(cursor, b"FALSE", Value::Bool(false))?);
    }
    Ok(constant(cursor, b"NULL", Value::Null)?)
}
