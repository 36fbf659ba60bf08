//! Operators between two operands, and the words of aggregates.
ghost use Rattle.std.specs.Prelude.{◌≡◌};
ghost use Rattle.pg_ast.specs.Words.Terminals.{S, W};
ghost use Rattle.pg_grammar.specs.Kit.Reading.{ReadsSurely, sees_if};
ghost use Rattle.pg_grammar.specs.Kit.Sets.{any};
ghost use Rattle.pg_grammar.specs.Read.Exprs as spec;

use crate::{Cursor, Unexpected};
use pg_ast::{Agg, AggWord, BinOp, Operator, Scope};

/// The operator that this symbol writes.
#[tactic(auto, unfolding(crate::specs::Read::Exprs::operator))]
pub fn operator(cursor: &mut Cursor<'_>, symbol: &[u8], op: BinOp) -> Result<Operator, Unexpected>
    ensures { ReadsSurely (spec.operator (S symbol.now) op cursor.old) result cursor.new }
{
    let token = cursor.symbol(symbol)?;
    Ok(Operator { op, at: token.from })
}

/// The operator that this word writes.
#[tactic(auto, unfolding(crate::specs::Read::Exprs::operator))]
pub fn word_operator(
    cursor: &mut Cursor<'_>,
    word: &[u8],
    op: BinOp,
) -> Result<Operator, Unexpected>
    ensures { ReadsSurely (spec.operator (W word.now) op cursor.old) result cursor.new }
{
    let token = cursor.word(word)?;
    Ok(Operator { op, at: token.from })
}

/// Whether a comparison comes.
pub fn sees_comparison(cursor: &Cursor<'_>) -> bool
    ensures { result ≡ sees_if (any spec.comparison_signs) cursor.now }
{
    cursor.sees_symbol(b"=")
        || cursor.sees_symbol(b"<>")
        || cursor.sees_symbol(b"<")
        || cursor.sees_symbol(b"<=")
        || cursor.sees_symbol(b">")
        || cursor.sees_symbol(b">=")
}

/// A comparison.
#[tactic(auto, unfolding(crate::specs::Read::Exprs::comparison))]
pub fn comparison(cursor: &mut Cursor<'_>) -> Result<Operator, Unexpected>
    ensures { ReadsSurely (spec.comparison cursor.old) result cursor.new }
{
    if cursor.sees_symbol(b"=") {
        return operator(cursor, b"=", BinOp::Eq);
    }
    if cursor.sees_symbol(b"<>") {
        return operator(cursor, b"<>", BinOp::Ne);
    }
    if cursor.sees_symbol(b"<") {
        return operator(cursor, b"<", BinOp::Lt);
    }
    if cursor.sees_symbol(b"<=") {
        return operator(cursor, b"<=", BinOp::Le);
    }
    if cursor.sees_symbol(b">") {
        return operator(cursor, b">", BinOp::Gt);
    }
    operator(cursor, b">=", BinOp::Ge)
}

/// `+` or `-`.
#[tactic(auto, unfolding(crate::specs::Read::Exprs::plus_or_minus))]
pub fn plus_or_minus(cursor: &mut Cursor<'_>) -> Result<Operator, Unexpected>
    ensures { ReadsSurely (spec.plus_or_minus cursor.old) result cursor.new }
{
    if cursor.sees_symbol(b"+") {
        return operator(cursor, b"+", BinOp::Plus);
    }
    operator(cursor, b"-", BinOp::Minus)
}

/// Whether aggregates may stand there.
pub fn has_aggregates(scope: Scope) -> bool
    ensures { result ≡ spec.has_aggregates scope }
{
    match scope {
        Scope::Insert | Scope::Change => false,
        Scope::Query => true,
    }
}

/// Whether the word of an aggregate comes.
pub fn sees_aggregate(cursor: &Cursor<'_>) -> bool
    ensures { result ≡ sees_if (any spec.agg_words) cursor.now }
{
    cursor.sees_word(b"COUNT")
        || cursor.sees_word(b"SUM")
        || cursor.sees_word(b"MIN")
        || cursor.sees_word(b"MAX")
}

/// The aggregate of this word.
#[tactic(auto, unfolding(crate::specs::Read::Exprs::agg_word_of))]
fn agg_word_of(cursor: &mut Cursor<'_>, word: &[u8], agg: Agg) -> Result<AggWord, Unexpected>
    ensures { ReadsSurely (spec.agg_word_of (W word.now) agg cursor.old) result cursor.new }
{
    let token = cursor.word(word)?;
    Ok(AggWord {
        agg,
        at: token.from,
    })
}

/// The word of an aggregate.
#[tactic(auto, unfolding(crate::specs::Read::Exprs::agg_word))]
pub fn agg_word(cursor: &mut Cursor<'_>) -> Result<AggWord, Unexpected>
    ensures { ReadsSurely (spec.agg_word cursor.old) result cursor.new }
{
    if cursor.sees_word(b"COUNT") {
        return agg_word_of(cursor, b"COUNT", Agg::Count);
    }
    if cursor.sees_word(b"SUM") {
        return agg_word_of(cursor, b"SUM", Agg::Sum);
    }
    if cursor.sees_word(b"MIN") {
        return agg_word_of(cursor, b"MIN", Agg::Min);
    }
    agg_word_of(cursor, b"MAX", Agg::Max)
}
