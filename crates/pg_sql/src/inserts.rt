//! INSERT.
ghost use Rattle.pg_grammar.specs.Kit.Reading.{Reads};
ghost use Rattle.pg_sql.specs.Read.Changes as spec;

use pg_ast::{Insert, InsertTuple, Name, Scope, Whole};
use pg_grammar::{Cursor, Fault, name, names, separated, whole};
use pg_value::List;
use std::alloc::Global;

/// A value of a tuple.
fn value(alloc: Global, cursor: &mut Cursor<'_>) -> Result<Whole, Fault>
    ensures { Reads (spec.value cursor.old) result cursor.new }
{
    whole(alloc, cursor, Scope::Insert)
}

/// Values with commas between.
fn value_list(alloc: Global, cursor: &mut Cursor<'_>) -> Result<List<Whole>, Fault>
    ensures { Reads (spec.value_list cursor.old) result cursor.new }
{
    separated(alloc, cursor, value)
}

/// Values in parentheses.
#[tactic(auto, unfolding(crate::specs::Read::Changes::tuple))]
fn tuple(alloc: Global, cursor: &mut Cursor<'_>) -> Result<InsertTuple, Fault>
    ensures { Reads (spec.tuple cursor.old) result cursor.new }
{
    let at = cursor.symbol(b"(")?.from;
    let values = value_list(alloc, cursor)?;
    let values = cursor.closed(b")", values)?;
    Ok(InsertTuple { values, at })
}

/// Tuples with commas between.
fn tuple_list(alloc: Global, cursor: &mut Cursor<'_>) -> Result<List<InsertTuple>, Fault>
    ensures { Reads (spec.tuple_list cursor.old) result cursor.new }
{
    separated(alloc, cursor, tuple)
}

/// Reads the names of columns, where they stand.
#[tactic(auto, unfolding(crate::specs::Read::Changes::columns))]
fn columns(alloc: Global, cursor: &mut Cursor<'_>) -> Result<Option<List<Name>>, Fault>
    ensures { Reads (spec.columns cursor.old) result cursor.new }
{
    if !cursor.sees_symbol(b"(") {
        return Ok(None);
    }
    let names = names(alloc, cursor)?;
    Ok(Some(names))
}

/// Reads INSERT.
#[tactic(auto, unfolding(crate::specs::Read::Changes::insert))]
pub fn insert(alloc: Global, cursor: &mut Cursor<'_>) -> Result<Insert, Fault>
    ensures { Reads (spec.insert cursor.old) result cursor.new }
{
    cursor.word(b"INSERT")?;
    cursor.word(b"INTO")?;
    let table = name(alloc, cursor)?;
    let columns = columns(alloc, cursor)?;
    cursor.word(b"VALUES")?;
    let tuples = tuple_list(alloc, cursor)?;
    Ok(Insert {
        table,
        columns,
        tuples,
    })
}
