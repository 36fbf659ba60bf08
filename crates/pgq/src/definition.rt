//! Definitions, which the setup carries out.
ghost use Rattle.std.specs.Prelude.{◌≡◌, length, IfOk, OnOk};
ghost use Rattle.pg_script.specs.Judged.{Defines};
ghost use Rattle.pgq.specs.Definitions.{tables_then, IsDefinedBy};
ghost use Rattle.pgq.specs.Engine.{IsReady, AnswersTo};
ghost use Rattle.pg_language.specs.Language.{name_of};

use crate::engine::Engine;
use crate::refusal::{define_refusal, told};
use pg_ast::Define;
use pg_chunks::Chunks;
use pg_script::{FaultKind, Outcome};
use pg_value::{Stored, Text};
use std::alloc::{AllocError, Global};

/// The name of what is defined.
fn name_of(alloc: Global, definition: &Define) -> Result<Text, AllocError>
    ensures { IfOk result (λ name. name ≡ name_of definition.now) }
{
    match definition {
        Define::Table(table) => table.name.text.copy(alloc),
        Define::Graph(graph) => graph.name.text.copy(alloc),
    }
}

/// Makes room for the rows of what is defined.
fn add_table(
    alloc: Global,
    tables: &mut Vec<Chunks<Stored>>,
    definition: &Define,
) -> Result<(), AllocError>
    ensures { OnOk result (tables.new.items ≡ tables_then definition.now tables.old.items) }
{
    match definition {
        Define::Table(_) => {
            tables.push(Chunks::new(alloc))?;
            Ok(())
        }
        Define::Graph(_) => Ok(()),
    }
}

/// After the catalog has taken a definition: everything is folded to a base at the log's length.
fn finish_definition(
    alloc: Global,
    engine: &mut Engine,
    definition: &Define,
) -> Result<Outcome, AllocError>
    ensures engine { OnOk result (IsDefinedBy definition.now engine.old engine.new) }
    ensures outcome { IfOk result (λ o. o ≡ Outcome.Defined (name_of definition.now) (length engine.old.log)) }
{
    add_table(alloc, &mut engine.tables, definition)?;
    engine.shapes = engine.catalog.shapes(alloc)?;
    let name = name_of(alloc, definition)?;
    let at = engine.log.len() as u64;
    engine.base = at;
    Ok(Outcome::Defined { name, at })
}

/// Carries out a definition, whose statement begins at a place. Only the setup may define; a session is refused there, and
/// so is a definition with a fault, at the fault's place. After a refusal the engine is as before; after want of memory it is of no use.
pub fn define(
    alloc: Global,
    engine: &mut Engine,
    section: u32,
    definition: &Define,
    at: u32,
) -> Result<Outcome, AllocError>
    requires { IsReady engine.old }
    ensures ready { OnOk result (IsReady engine.new) }
    ensures answers { IfOk result (λ o. AnswersTo (Defines definition.now at) section engine.old o engine.new) }
{
    if section != 0 {
        return Ok(Outcome::AtByte {
            kind: FaultKind::DefinitionInSession,
            byte: at,
        });
    }
    match engine.catalog.define(alloc, definition) {
        Ok(()) => finish_definition(alloc, engine, definition),
        Err(fault) => told(define_refusal(fault)),
    }
}
