//! CREATE PROPERTY GRAPH: its edge tables, and the statement.
ghost use Rattle.pg_grammar.specs.Kit.Reading.{Reads};
ghost use Rattle.pg_sql.specs.Read.Graphs as spec;

use crate::labels::labels;
use crate::vertices::{key, own_key, vertex_tables};
use pg_ast::{Define, EdgeDef, EndDef, GraphDef};
use pg_grammar::{Cursor, Fault, listed, name, names};
use pg_lex::Token;
use pg_value::List;
use std::alloc::Global;

/// The source or the destination of an edge table.
#[tactic(auto, unfolding(crate::specs::Read::Graphs::end_point))]
fn end_point(alloc: Global, cursor: &mut Cursor<'_>) -> Result<EndDef, Fault>
    ensures { Reads (spec.end_point cursor.old) result cursor.new }
{
    let columns = key(alloc, cursor)?;
    cursor.word(b"REFERENCES")?;
    let table = name(alloc, cursor)?;
    let target = names(alloc, cursor)?;
    Ok(EndDef {
        columns,
        table,
        target,
    })
}

/// An edge table.
#[tactic(auto, unfolding(crate::specs::Read::Graphs::edge))]
fn edge(alloc: Global, cursor: &mut Cursor<'_>) -> Result<EdgeDef, Fault>
    ensures { Reads (spec.edge cursor.old) result cursor.new }
{
    let table = name(alloc, cursor)?;
    let key = own_key(alloc, cursor)?;
    cursor.word(b"SOURCE")?;
    let source = end_point(alloc, cursor)?;
    cursor.word(b"DESTINATION")?;
    let dest = end_point(alloc, cursor)?;
    let labels = labels(alloc, cursor, &table)?;
    Ok(EdgeDef {
        table,
        key,
        source,
        dest,
        labels,
    })
}

/// Edge tables in parentheses, with commas between.
#[tactic(auto, unfolding(crate::specs::Read::Graphs::edges))]
fn edges(alloc: Global, cursor: &mut Cursor<'_>) -> Result<List<EdgeDef>, Fault>
    ensures { Reads (spec.edges cursor.old) result cursor.new }
{
    listed(alloc, cursor, edge)
}

/// Reads the edge tables, where they stand.
#[tactic(auto, unfolding(crate::specs::Read::Graphs::edge_tables))]
fn edge_tables(alloc: Global, cursor: &mut Cursor<'_>) -> Result<List<EdgeDef>, Fault>
    ensures { Reads (spec.edge_tables cursor.old) result cursor.new }
{
    if !cursor.eat_word(b"EDGE") {
        return Ok(List::new(alloc));
    }
    cursor.word(b"TABLES")?;
    edges(alloc, cursor)
}

/// Reads CREATE PROPERTY GRAPH from PROPERTY on, behind that CREATE.
#[tactic(auto, unfolding(crate::specs::Read::Graphs::graph))]
pub fn graph(alloc: Global, cursor: &mut Cursor<'_>, create: &Token) -> Result<Define, Fault>
    ensures { Reads (spec.graph create.now cursor.old) result cursor.new }
{
    cursor.word(b"PROPERTY")?;
    cursor.word(b"GRAPH")?;
    let name = name(alloc, cursor)?;
    let vertices = vertex_tables(alloc, cursor)?;
    let edges = edge_tables(alloc, cursor)?;
    Ok(Define::Graph(GraphDef {
        name,
        vertices,
        edges,
        at: create.from,
    }))
}
