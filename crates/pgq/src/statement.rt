//! A statement of a script, read and answered.
ghost use Rattle.std.specs.Prelude.{◌≡◌, ◌<◌, ◌^◌, length, IfOk, OnOk};
ghost use Rattle.pg_script.specs.declared.script.Item.TheVariants.{Sql};
ghost use Rattle.pg_lex.specs.Parts.{IsPartAt};
ghost use Rattle.pgq.specs.Engine.{IsReady, Answers, AnswersTo};
ghost use Rattle.pgq.specs.Asking.{IsWrittenParsed};
ghost use Rattle.pg_rules.specs.Written.{IsWritten};
ghost use Rattle.pg_language.specs.Language.{says, reading_of};

use crate::asking::ask;
use crate::change::change;
use crate::definition::define;
use crate::engine::Engine;
use crate::refusal::not_yet;
use pg_ast::Statement;
use pg_rules::written_statements;
use pg_script::{FaultKind, Outcome, Script};
use pg_sql::{Parsed, read_statement};
use std::alloc::{AllocError, Global};

/// Carries out a statement that begins at a place, or refuses it there where it is not run yet.
fn carry_out(
    alloc: Global,
    engine: &mut Engine,
    section: u32,
    tree: &Statement,
    at: u32,
) -> Result<Outcome, AllocError>
    requires ready { IsReady engine.old }
    requires written { IsWritten tree.now }
    ensures ready { OnOk result (IsReady engine.new) }
    ensures answers { IfOk result (λ o. AnswersTo (says at tree.now) section engine.old o engine.new) }
{
    match tree {
        Statement::Define(definition) => define(alloc, engine, section, definition, at),
        Statement::Insert(_) => change(alloc, engine, section, tree),
        Statement::Update(_) => change(alloc, engine, section, tree),
        Statement::Delete(_) => change(alloc, engine, section, tree),
        Statement::Query(query) => ask(alloc, engine, section, query),
        Statement::Begin => Ok(not_yet(at)),
        Statement::Commit => Ok(not_yet(at)),
        Statement::Rollback => Ok(not_yet(at)),
    }
}

/// Answers what a part of the text reads as: the statement, or Syntax at the first token that none continues.
fn answer_parsed(
    alloc: Global,
    engine: &mut Engine,
    section: u32,
    parsed: &Parsed,
) -> Result<Outcome, AllocError>
    requires ready { IsReady engine.old }
    requires written { IsWrittenParsed parsed.now }
    ensures ready { OnOk result (IsReady engine.new) }
    ensures answers { IfOk result (λ o. AnswersTo (reading_of parsed.now) section engine.old o engine.new) }
{
    match parsed {
        Parsed::Fault { at } => Ok(Outcome::AtByte {
            kind: FaultKind::Syntax,
            byte: *at,
        }),
        Parsed::Statement { tree, at } => carry_out(alloc, engine, section, tree, *at),
    }
}

/// Answers the statement of a section from one place of the script's text up to another: Syntax at the first token that no statement
/// continues, NotYet at its first token where it is not run yet, and else by the catalog, the tables and the log. After want
/// of memory the engine is of no use.
pub fn answer(
    alloc: Global,
    script: &Script,
    engine: &mut Engine,
    section: u32,
    from: u32,
    to: u32,
) -> Result<Outcome, AllocError>
    requires length { length script.now.text < 2 ^ 32 }
    requires part { IsPartAt script.now.text from to }
    requires ready { IsReady engine.old }
    ensures ready { OnOk result (IsReady engine.new) }
    ensures answers { IfOk result (λ o. Answers script.now section engine.old (Sql from to) o engine.new) }
{
    written_statements();
    let parsed = read_statement(alloc, &script.text, from, to)?;
    answer_parsed(alloc, engine, section, &parsed)
}
