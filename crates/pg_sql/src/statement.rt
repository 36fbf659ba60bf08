//! Statements.
ghost use Rattle.std.specs.Prelude.{IfOk, IfErr};
ghost use Rattle.pg_ast.specs.Grammar.{IsStatement};
ghost use Rattle.pg_ast.specs.Words.Terminals.{IsEnded};
ghost use Rattle.pg_grammar.specs.Kit.Reading.{Reads, ReadsSurely};
ghost use Rattle.pg_sql.specs.Answers.{IsFault, AnswersOnly, OneTree};
ghost use Rattle.pg_sql.specs.Read as spec;

use crate::edges::graph;
use crate::inserts::insert;
use crate::tables::table;
use crate::transaction::transaction;
use crate::updates::{delete, update};
use pg_ast::{Define, Statement};
use pg_grammar::{Cursor, Fault, Unexpected};
use pg_lex::Token;
use pg_pattern::{ParseFault, query};
use pg_value::List;
use std::alloc::Global;

/// CREATE TABLE or CREATE PROPERTY GRAPH.
#[tactic(auto, unfolding(crate::specs::Read::define))]
fn define(alloc: Global, cursor: &mut Cursor<'_>) -> Result<Define, Fault>
    ensures { Reads (spec.define cursor.old) result cursor.new }
{
    let create = cursor.word(b"CREATE")?;
    if cursor.sees_word(b"TABLE") {
        return table(alloc, cursor, create);
    }
    graph(alloc, cursor, create)
}

/// A statement without its `;`.
#[tactic(auto, unfolding(crate::specs::Read::body))]
fn body(alloc: Global, cursor: &mut Cursor<'_>) -> Result<Statement, Fault>
    ensures { Reads (spec.body cursor.old) result cursor.new }
{
    if cursor.sees_word(b"CREATE") {
        let define = define(alloc, cursor)?;
        return Ok(Statement::Define(define));
    }
    if cursor.sees_word(b"INSERT") {
        let insert = insert(alloc, cursor)?;
        return Ok(Statement::Insert(insert));
    }
    if cursor.sees_word(b"UPDATE") {
        let update = update(alloc, cursor)?;
        return Ok(Statement::Update(update));
    }
    if cursor.sees_word(b"DELETE") {
        let delete = delete(alloc, cursor)?;
        return Ok(Statement::Delete(delete));
    }
    if cursor.sees_word(b"SELECT") {
        let query = query(alloc, cursor)?;
        return Ok(Statement::Query(query));
    }
    Ok(transaction(cursor)?)
}

/// A statement with its `;`.
#[tactic(auto, unfolding(crate::specs::Read::statement))]
fn terminated(alloc: Global, cursor: &mut Cursor<'_>) -> Result<Statement, Fault>
    ensures { Reads (spec.statement cursor.old) result cursor.new }
{
    let statement = body(alloc, cursor)?;
    Ok(cursor.closed(b";", statement)?)
}

/// What was read, where the end comes behind it.
fn ended<T: Drop>(cursor: &mut Cursor<'_>, read: T) -> Result<T, Unexpected>
    ensures { ReadsSurely (spec.ended read cursor.old) result cursor.new }
{
    cursor.end()?;
    Ok(read)
}

/// A statement with its `;`, and the end.
#[tactic(auto, unfolding(crate::specs::Read::whole_statement))]
fn whole_statement(alloc: Global, cursor: &mut Cursor<'_>) -> Result<Statement, Fault>
    ensures { Reads (spec.whole_statement cursor.old) result cursor.new }
{
    let statement = terminated(alloc, cursor)?;
    Ok(ended(cursor, statement)?)
}

/// The statement that the tokens are: one of the grammar, `;`, and `End`. `Syntax` comes exactly where they are none, at
/// the first byte of the first token that no statement continues. `Memory` comes where memory runs out.
pub fn parse_statement(alloc: Global, tokens: &List<Token>) -> Result<Statement, ParseFault>
    requires { IsEnded tokens.now }
    ensures tree { IfOk result (λ t. IsStatement t tokens.now) }
    ensures only { (t : Statement) → IsStatement t tokens.now → AnswersOnly t result }
    ensures fault { IfErr result (IsFault tokens.now) }
{
    let mut cursor = Cursor::new(tokens.as_slice());
    match whole_statement(alloc, &mut cursor) {
        Ok(statement) => Ok(statement),
        Err(Fault::Memory) => Err(ParseFault::Memory),
        Err(Fault::Syntax) => Err(ParseFault::Syntax { at: cursor.place() }),
    }
}

/// A token list has at most one tree.
pub fn one_tree()
    ensures { OneTree }
{}
