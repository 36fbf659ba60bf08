//! The begin and the end of a transaction.
ghost use Rattle.pg_grammar.specs.Kit.Reading.{ReadsSurely};
ghost use Rattle.pg_sql.specs.Read as spec;

use pg_ast::Statement;
use pg_grammar::{Cursor, Unexpected};

/// BEGIN, with TRANSACTION or without.
#[tactic(auto, unfolding(crate::specs::Read::begin, crate::specs::Read::Parts::skip))]
fn begin(cursor: &mut Cursor<'_>) -> Result<Statement, Unexpected>
    ensures { ReadsSurely (spec.begin cursor.old) result cursor.new }
{
    cursor.word(b"BEGIN")?;
    cursor.eat_word(b"TRANSACTION");
    Ok(Statement::Begin)
}

/// START TRANSACTION.
#[tactic(auto, unfolding(crate::specs::Read::start))]
fn start(cursor: &mut Cursor<'_>) -> Result<Statement, Unexpected>
    ensures { ReadsSurely (spec.start cursor.old) result cursor.new }
{
    cursor.word(b"START")?;
    cursor.word(b"TRANSACTION")?;
    Ok(Statement::Begin)
}

/// COMMIT, with WORK or without.
#[tactic(auto, unfolding(crate::specs::Read::commit, crate::specs::Read::Parts::skip))]
fn commit(cursor: &mut Cursor<'_>) -> Result<Statement, Unexpected>
    ensures { ReadsSurely (spec.commit cursor.old) result cursor.new }
{
    cursor.word(b"COMMIT")?;
    cursor.eat_word(b"WORK");
    Ok(Statement::Commit)
}

/// ROLLBACK, with WORK or without.
#[tactic(auto, unfolding(crate::specs::Read::rollback, crate::specs::Read::Parts::skip))]
fn rollback(cursor: &mut Cursor<'_>) -> Result<Statement, Unexpected>
    ensures { ReadsSurely (spec.rollback cursor.old) result cursor.new }
{
    cursor.word(b"ROLLBACK")?;
    cursor.eat_word(b"WORK");
    Ok(Statement::Rollback)
}

/// Reads the begin or the end of a transaction.
#[tactic(auto, unfolding(crate::specs::Read::transaction))]
pub fn transaction(cursor: &mut Cursor<'_>) -> Result<Statement, Unexpected>
    ensures { ReadsSurely (spec.transaction cursor.old) result cursor.new }
{
    if cursor.sees_word(b"BEGIN") {
        return begin(cursor);
    }
    if cursor.sees_word(b"START") {
        return start(cursor);
    }
    if cursor.sees_word(b"COMMIT") {
        return commit(cursor);
    }
    rollback(cursor)
}
