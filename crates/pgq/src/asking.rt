//! Queries: each is checked, and answered.
ghost use Rattle.std.specs.Prelude.{◌≡◌, length, map, None, IfOk};
ghost use Rattle.std.specs.List.{list_any};
ghost use Rattle.std.specs.List.Sorted.{IsSorted};
ghost use Rattle.pg_value.specs.Log.{after};
ghost use Rattle.pg_value.specs.Orders.{row_order};
ghost use Rattle.pg_meaning.specs.Answers.{Answer};
ghost use Rattle.pg_meaning.specs.Sound.Queries.{IsSoundQuery};
ghost use Rattle.pg_rules.specs.Queries.{query_fault};
ghost use Rattle.pg_rules.specs.Queries.CheckedQueries.{checked_query};
ghost use Rattle.pg_rules.specs.Written.{IsWrittenQuery};
ghost use Rattle.pg_script.specs.Judged.{Asks};
ghost use Rattle.pgq.specs.Asking as spec;
ghost use Rattle.pgq.specs.Engine.{IsReady, AnswersTo};

use crate::engine::Engine;
use crate::refusal::{query_refusal, told};
use pg_ast::{Arrow, Query};
use pg_check::check;
use pg_join::answer_in_turn;
use pg_meaning::{CPart, CheckedColumn, CheckedPath, CheckedQuery};
use pg_rules::accepted_queries_are_sound;
use pg_script::Outcome;
use pg_value::{EdgeNo, List, Row, Text};
use pg_view::{Lists, lists_are_tables};
use std::alloc::{AllocError, Global};

/// Whether an arrow may lead over an edge against its direction.
fn leads_back(arrow: Arrow) -> bool
    ensures { result ≡ spec.leads_back arrow }
{
    match arrow {
        Arrow::Right => false,
        Arrow::Left => true,
        Arrow::Either => true,
    }
}

/// Whether one of some arrows may.
fn any_leads_back(arrows: &[Arrow]) -> bool
    ensures { result ≡ list_any spec.leads_back arrows.now }
{
    for arrow in arrows {
        if leads_back(*arrow) {
            return true;
        }
    }
    false
}

/// Whether an arrow of a part may.
fn part_leads_back(part: &CPart) -> bool
    ensures { result ≡ spec.part_leads_back part.now }
{
    match part {
        CPart::Node(_) => false,
        CPart::Edge { arrow, .. } => leads_back(*arrow),
        CPart::Group { arrows, .. } => any_leads_back(arrows.as_slice()),
    }
}

/// Whether an arrow of some parts may.
fn parts_lead_back(parts: &[CPart]) -> bool
    ensures { result ≡ list_any spec.part_leads_back parts.now }
{
    for part in parts {
        if part_leads_back(part) {
            return true;
        }
    }
    false
}

/// Whether an arrow of some path patterns may.
fn paths_lead_back(paths: &[CheckedPath]) -> bool
    ensures { result ≡ spec.paths_lead_back paths.now }
{
    for path in paths {
        if parts_lead_back(path.parts.as_slice()) {
            return true;
        }
    }
    false
}

/// The names of the columns of an answer.
fn names_of(alloc: Global, columns: &[CheckedColumn]) -> Result<List<Text>, AllocError>
    ensures { IfOk result (λ names. names ≡ map (λ c. c.name) columns.now) }
{
    let mut names = List::new(alloc);
    for column in columns {
        names.push(column.name.copy(alloc)?)?;
    }
    Ok(names)
}

/// The rows of a query, in value order over the whole log. Of the graph's edge tables edges are found fast by their sources,
/// and by their destinations where an arrow may lead there.
fn rows_of(alloc: Global, engine: &Engine, query: &CheckedQuery) -> Result<List<Row>, AllocError>
    requires ready { IsReady engine.now }
    requires sound { IsSoundQuery engine.now.shapes query.now }
    ensures answer { IfOk result (Answer engine.now.shapes (after engine.now.log (length engine.now.log)) query.now) }
    ensures sorted { IfOk result (λ rows. IsSorted row_order rows) }
{
    lists_are_tables();
    let lists = engine.tables.as_slice();
    let edges = query.graph.edges.as_slice();
    let into: &[EdgeNo] = if paths_lead_back(query.paths.as_slice()) {
        edges
    } else {
        &[]
    };
    match Lists::new(alloc, &engine.shapes, lists, edges, into) {
        Ok(view) => answer_in_turn(alloc, &view, query),
        Err(failed) => Err(failed),
    }
}

/// The answer of a query that is not refused.
fn answer_query(
    alloc: Global,
    engine: &Engine,
    section: u32,
    query: &Query,
    checked: &CheckedQuery,
) -> Result<Outcome, AllocError>
    requires ready { IsReady engine.now }
    requires written { IsWrittenQuery query.now }
    requires right { query_fault engine.now.catalog query.now ≡ None }
    requires checked { checked.now ≡ checked_query engine.now.catalog query.now }
    ensures { IfOk result (λ o. AnswersTo (Asks query.now) section engine.now o engine.now) }
{
    engine.catalog.soundness();
    accepted_queries_are_sound();
    let rows = rows_of(alloc, engine, checked)?;
    let names = names_of(alloc, checked.columns.as_slice())?;
    Ok(Outcome::Rows {
        at: engine.log.len() as u64,
        base: engine.base,
        names,
        rows,
    })
}

/// The answer of a query, in a section: the place at which it is refused, or its rows. Only want of memory gives none.
pub fn ask(
    alloc: Global,
    engine: &Engine,
    section: u32,
    query: &Query,
) -> Result<Outcome, AllocError>
    requires ready { IsReady engine.now }
    requires written { IsWrittenQuery query.now }
    ensures { IfOk result (λ o. AnswersTo (Asks query.now) section engine.now o engine.now) }
{
    match check(alloc, &engine.catalog, query) {
        Ok(checked) => answer_query(alloc, engine, section, query, &checked),
        Err(fault) => told(query_refusal(fault)),
    }
}
