//! Vertex tables, and the keys of element tables.
ghost use Rattle.pg_grammar.specs.Kit.Reading.{Reads};
ghost use Rattle.pg_sql.specs.Read.Graphs as spec;

use crate::labels::labels;
use pg_ast::{Name, VertexDef};
use pg_grammar::{Cursor, Fault, listed, name, names};
use pg_value::List;
use std::alloc::Global;

/// Reads KEY and the names of a key.
#[tactic(auto, unfolding(crate::specs::Read::Graphs::key))]
pub fn key(alloc: Global, cursor: &mut Cursor<'_>) -> Result<List<Name>, Fault>
    ensures { Reads (spec.key cursor.old) result cursor.new }
{
    cursor.word(b"KEY")?;
    names(alloc, cursor)
}

/// Reads the key of an element table, where it stands.
#[tactic(auto, unfolding(crate::specs::Read::Graphs::own_key))]
pub fn own_key(alloc: Global, cursor: &mut Cursor<'_>) -> Result<Option<List<Name>>, Fault>
    ensures { Reads (spec.own_key cursor.old) result cursor.new }
{
    if !cursor.sees_word(b"KEY") {
        return Ok(None);
    }
    let key = key(alloc, cursor)?;
    Ok(Some(key))
}

/// A vertex table.
#[tactic(auto, unfolding(crate::specs::Read::Graphs::vertex))]
fn vertex(alloc: Global, cursor: &mut Cursor<'_>) -> Result<VertexDef, Fault>
    ensures { Reads (spec.vertex cursor.old) result cursor.new }
{
    let table = name(alloc, cursor)?;
    let key = own_key(alloc, cursor)?;
    let labels = labels(alloc, cursor, &table)?;
    Ok(VertexDef { table, key, labels })
}

/// Vertex tables in parentheses, with commas between.
#[tactic(auto, unfolding(crate::specs::Read::Graphs::vertices))]
fn vertices(alloc: Global, cursor: &mut Cursor<'_>) -> Result<List<VertexDef>, Fault>
    ensures { Reads (spec.vertices cursor.old) result cursor.new }
{
    listed(alloc, cursor, vertex)
}

/// Reads the vertex tables of a graph.
#[tactic(auto, unfolding(crate::specs::Read::Graphs::vertex_tables))]
pub fn vertex_tables(alloc: Global, cursor: &mut Cursor<'_>) -> Result<List<VertexDef>, Fault>
    ensures { Reads (spec.vertex_tables cursor.old) result cursor.new }
{
    cursor.word(b"VERTEX")?;
    cursor.word(b"TABLES")?;
    vertices(alloc, cursor)
}
