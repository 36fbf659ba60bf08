//! Quantifiers. `at` is the place of a quantifier's first token.
ghost use Rattle.std.specs.Prelude.{◌≡◌};
ghost use Rattle.pg_grammar.specs.Kit.Reading.{ReadsSurely, sees_if};
ghost use Rattle.pg_grammar.specs.Kit.Sets.{any};
ghost use Rattle.pg_pattern.specs.Read.Patterns as spec;

use pg_ast::Quant;
use pg_grammar::{Cursor, Unexpected, bytes_of, kept};

/// A number, or 2^32 - 1 where it is greater.
#[tactic(auto, unfolding(crate::specs::Read::Patterns::number))]
fn number(cursor: &mut Cursor<'_>) -> Result<u32, Unexpected>
    ensures { ReadsSurely (spec.number cursor.old) result cursor.new }
{
    let token = cursor.number()?;
    Ok(kept(bytes_of(token)))
}

/// A number where one comes.
#[tactic(auto, unfolding(crate::specs::Read::Patterns::upper))]
fn upper(cursor: &mut Cursor<'_>) -> Result<Option<u32>, Unexpected>
    ensures { ReadsSurely (spec.upper cursor.old) result cursor.new }
{
    if !cursor.sees_number() {
        return Ok(None);
    }
    let found = number(cursor)?;
    Ok(Some(found))
}

/// Behind `{` and a number.
#[tactic(auto, unfolding(crate::specs::Read::Patterns::after_number))]
fn after_number(cursor: &mut Cursor<'_>, at: u32, low: u32) -> Result<Quant, Unexpected>
    ensures { ReadsSurely (spec.after_number at low cursor.old) result cursor.new }
{
    if !cursor.eat_symbol(b",") {
        cursor.symbol(b"}")?;
        return Ok(Quant {
            low,
            high: Some(low),
            at,
        });
    }
    let high = upper(cursor)?;
    cursor.symbol(b"}")?;
    Ok(Quant { low, high, at })
}

/// Behind `{`.
#[tactic(auto, unfolding(crate::specs::Read::Patterns::after_brace))]
fn after_brace(cursor: &mut Cursor<'_>, at: u32) -> Result<Quant, Unexpected>
    ensures { ReadsSurely (spec.after_brace at cursor.old) result cursor.new }
{
    if !cursor.eat_symbol(b",") {
        let low = number(cursor)?;
        return after_number(cursor, at, low);
    }
    let high = number(cursor)?;
    cursor.symbol(b"}")?;
    Ok(Quant {
        low: 0,
        high: Some(high),
        at,
    })
}

/// A quantifier.
#[tactic(auto, unfolding(crate::specs::Read::Patterns::quant))]
fn quant(cursor: &mut Cursor<'_>) -> Result<Quant, Unexpected>
    ensures { ReadsSurely (spec.quant cursor.old) result cursor.new }
{
    if cursor.sees_symbol(b"{") {
        let at = cursor.symbol(b"{")?.from;
        return after_brace(cursor, at);
    }
    if cursor.sees_symbol(b"*") {
        let at = cursor.symbol(b"*")?.from;
        return Ok(Quant {
            low: 0,
            high: None,
            at,
        });
    }
    let at = cursor.symbol(b"+")?.from;
    Ok(Quant {
        low: 1,
        high: None,
        at,
    })
}

/// Whether a quantifier comes.
fn sees_quantifier(cursor: &Cursor<'_>) -> bool
    ensures { result ≡ sees_if (any spec.quant_first) cursor.now }
{
    cursor.sees_symbol(b"{") || cursor.sees_either_symbol(b"*", b"+")
}

/// Reads a quantifier where one comes: `{n}`, `{n,}`, `{n,m}`, `{,m}`, `*` or `+`.
#[tactic(auto, unfolding(crate::specs::Read::Patterns::quantifier))]
pub fn quantifier(cursor: &mut Cursor<'_>) -> Result<Option<Quant>, Unexpected>
    ensures { ReadsSurely (spec.quantifier cursor.old) result cursor.new }
{
    if !sees_quantifier(cursor) {
        return Ok(None);
    }
    let found = quant(cursor)?;
    Ok(Some(found))
}
