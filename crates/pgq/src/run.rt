//! The run of a script of a setup and at most one session.
ghost use Rattle.std.specs.Prelude.{◌≡◌, ◌<◌, ◌^◌, map, length, slice_get, IfOk, OnOk};
ghost use Rattle.std.specs.Option.{option_map};
ghost use Rattle.std.specs.declared.option.Option.TheVariants.{Some};
ghost use Rattle.pg_keyed.specs.Keyed.{Each};
ghost use Rattle.pgq.specs.Engine.{IsReady, Answers};
ghost use Rattle.pgq.specs.Sections.{IsStatementIn, IsRunnable, HasAnswered, IsRun, printed_by};
ghost use Rattle.pgq.specs.Sections.{HasRunSection, HaveRun};

use crate::engine::Engine;
use crate::statement::answer;
use pg_catalog::Catalog;
use pg_language::Statements;
use pg_script::{Item, Outcome, Script, Section, SectionOut, Transcript};
use pg_session::stepped_runs_are_legal;
use pg_value::{List, TableNo, Text};
use std::alloc::{AllocError, Global};

/// Answers one item of a section, which is a statement.
fn answer_item(
    alloc: Global,
    script: &Script,
    engine: &mut Engine,
    section: u32,
    item: &Item,
) -> Result<Outcome, AllocError>
    requires length { length script.now.text < 2 ^ 32 }
    requires statement { IsStatementIn script.now.text item.now }
    requires ready { IsReady engine.old }
    ensures ready { OnOk result (IsReady engine.new) }
    ensures answers { IfOk result (λ o. Answers script.now section engine.old item.now o engine.new) }
{
    match *item {
        Item::Sql { from, to } => answer(alloc, script, engine, section, from, to),
        Item::After { .. } => unreachable!(),
    }
}

/// Answers the items of a section in order.
fn answer_items(
    alloc: Global,
    script: &Script,
    engine: &mut Engine,
    section: u32,
    items: &[Item],
) -> Result<List<Outcome>, AllocError>
    requires length { length script.now.text < 2 ^ 32 }
    requires statements { Each (IsStatementIn script.now.text) items.now }
    requires ready { IsReady engine.old }
    ensures ready { OnOk result (IsReady engine.new) }
    ensures answered { IfOk result (λ outs. HasAnswered script.now section items.now engine.old outs engine.new) }
    ensures all { IfOk result (λ outs. length outs ≡ length items.now) }
{
    let mut outcomes = List::new(alloc);
    'items: for item in items {
        match answer_item(alloc, script, engine, section, item) {
            Ok(outcome) => match outcomes.push(outcome) {
                Ok(()) => {}
                Err(failed) => return Err(failed),
            },
            Err(failed) => return Err(failed),
        }
    }
    Ok(outcomes)
}

/// Runs a section, by its number, to its end.
fn run_section(
    alloc: Global,
    script: &Script,
    engine: &mut Engine,
    number: u32,
    section: &Section,
) -> Result<SectionOut, AllocError>
    requires runnable { IsRunnable script.now }
    requires stands { slice_get script.now.sections number ≡ Some section.now }
    requires ready { IsReady engine.old }
    ensures ready { OnOk result (IsReady engine.new) }
    ensures run { IfOk result (λ out. HasRunSection script.now number section.now engine.old out engine.new) }
{
    let name = section.name.copy(alloc)?;
    let outcomes = answer_items(alloc, script, engine, number, section.items.as_slice())?;
    Ok(SectionOut {
        name,
        outcomes,
        rolled_back: false,
    })
}

/// Runs all sections, one after another.
fn run_sections(
    alloc: Global,
    script: &Script,
    engine: &mut Engine,
) -> Result<List<SectionOut>, AllocError>
    requires runnable { IsRunnable script.now }
    requires ready { IsReady engine.old }
    ensures { IfOk result (λ outs. HaveRun script.now script.now.sections engine.old outs engine.new) }
{
    let mut outs = List::new(alloc);
    'sections: for (i, section) in script.sections.as_slice().iter().enumerate() {
        match run_section(alloc, script, engine, i as u32, section) {
            Ok(out) => match outs.push(out) {
                Ok(()) => {}
                Err(failed) => return Err(failed),
            },
            Err(failed) => return Err(failed),
        }
    }
    Ok(outs)
}

/// The name of the table of a number.
fn table_name(alloc: Global, catalog: &Catalog, table: u32) -> Result<Text, AllocError>
    requires { table < length catalog.now.0 }
    ensures { IfOk result (λ name. option_map (λ t. t.0) (slice_get catalog.now.0 table) ≡ Some name) }
{
    match catalog.table_name(TableNo(table)) {
        Some(name) => name.copy(alloc),
        None => unreachable!(),
    }
}

/// The names of all tables, by their numbers.
fn table_names(alloc: Global, catalog: &Catalog) -> Result<List<Text>, AllocError>
    ensures { IfOk result (λ names. names ≡ map (λ t. t.0) catalog.now.0) }
{
    let mut names = List::new(alloc);
    'tables: for table in 0..catalog.table_count() {
        match table_name(alloc, catalog, table) {
            Ok(name) => match names.push(name) {
                Ok(()) => {}
                Err(failed) => return Err(failed),
            },
            Err(failed) => return Err(failed),
        }
    }
    Ok(names)
}

/// The transcript of sections that have run.
fn transcript_of(
    engine: Engine,
    has_setup: bool,
    sections: List<SectionOut>,
    tables: List<Text>,
) -> Transcript
    ensures { result ≡ printed_by engine has_setup sections tables }
{
    Transcript {
        has_setup,
        sections,
        tables,
        log: engine.log,
        peak: engine.peak,
    }
}

/// Runs a script of a setup and at most one session: the transcript of its stepped run. Only want of memory refuses it.
pub fn run(alloc: Global, script: &Script) -> Result<Transcript, AllocError>
    requires { IsRunnable script.now }
    ensures { IfOk result (IsRun script.now) }
{
    let mut engine = Engine::new(alloc);
    let sections = run_sections(alloc, script, &mut engine)?;
    let tables = table_names(alloc, &engine.catalog)?;
    stepped_runs_are_legal::<Statements>();
    Ok(transcript_of(engine, script.has_setup, sections, tables))
}
