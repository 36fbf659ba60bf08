//! Queries over the tokens of a cursor.
ghost use Rattle.pg_grammar.specs.Kit.Reading.{Reads, ReadsSurely};
ghost use Rattle.pg_pattern.specs.Read as spec;

use crate::columns::columns;
use crate::fillers::condition;
use crate::paths::path;
use pg_ast::{ColumnItem, PathPattern, Query};
use pg_grammar::{Cursor, Fault, Unexpected, name, separated};
use pg_value::List;
use std::alloc::Global;

/// Path patterns with commas between.
fn paths(alloc: Global, cursor: &mut Cursor<'_>) -> Result<List<PathPattern>, Fault>
    ensures { Reads (spec.paths cursor.old) result cursor.new }
{
    separated(alloc, cursor, path)
}

/// What a query begins with: SELECT * FROM GRAPH_TABLE.
#[tactic(auto, unfolding(crate::specs::Read::head))]
fn head(cursor: &mut Cursor<'_>) -> Result<(), Unexpected>
    ensures { ReadsSurely (spec.head cursor.old) result cursor.new }
{
    cursor.word(b"SELECT")?;
    cursor.symbol(b"*")?;
    cursor.word(b"FROM")?;
    cursor.word(b"GRAPH_TABLE")?;
    Ok(())
}

/// COLUMNS and the columns.
#[tactic(auto, unfolding(crate::specs::Read::column_list))]
fn column_list(alloc: Global, cursor: &mut Cursor<'_>) -> Result<List<ColumnItem>, Fault>
    ensures { Reads (spec.column_list cursor.old) result cursor.new }
{
    cursor.word(b"COLUMNS")?;
    columns(alloc, cursor)
}

/// What stands in the parentheses of GRAPH_TABLE.
#[tactic(auto, unfolding(crate::specs::Read::inside))]
fn inside(alloc: Global, cursor: &mut Cursor<'_>) -> Result<Query, Fault>
    ensures { Reads (spec.inside cursor.old) result cursor.new }
{
    let graph = name(alloc, cursor)?;
    cursor.word(b"MATCH")?;
    let paths = paths(alloc, cursor)?;
    let cond = condition(alloc, cursor)?;
    let columns = column_list(alloc, cursor)?;
    Ok(Query {
        graph,
        paths,
        cond,
        columns,
    })
}

/// A query without its alias.
#[tactic(auto, unfolding(crate::specs::Read::bare_query))]
fn bare_query(alloc: Global, cursor: &mut Cursor<'_>) -> Result<Query, Fault>
    ensures { Reads (spec.bare_query cursor.old) result cursor.new }
{
    head(cursor)?;
    cursor.symbol(b"(")?;
    let query = inside(alloc, cursor)?;
    Ok(cursor.closed(b")", query)?)
}

/// The alias behind a query, where AS or a name comes.
#[tactic(auto, unfolding(crate::specs::Read::aliased))]
fn aliased(cursor: &mut Cursor<'_>, query: Query) -> Result<Query, Unexpected>
    ensures { ReadsSurely (spec.aliased query cursor.old) result cursor.new }
{
    if cursor.eat_word(b"AS") {
        cursor.name()?;
        return Ok(query);
    }
    if cursor.sees_name() {
        cursor.name()?;
    }
    Ok(query)
}

/// Reads a query, and its alias where AS or a name follows its last `)`. The alias has no effect.
#[tactic(auto, unfolding(crate::specs::Read::query))]
pub fn query(alloc: Global, cursor: &mut Cursor<'_>) -> Result<Query, Fault>
    ensures { Reads (spec.query cursor.old) result cursor.new }
{
    let query = bare_query(alloc, cursor)?;
    Ok(aliased(cursor, query)?)
}
