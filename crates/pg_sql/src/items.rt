//! The items of CREATE TABLE: columns and keys.
ghost use Rattle.pg_grammar.specs.Kit.Reading.{Reads, ReadsSurely};
ghost use Rattle.pg_sql.specs.Read.Tables as spec;

use crate::types::kind;
use pg_ast::{Item, Mark};
use pg_grammar::{Cursor, Fault, Unexpected, listed, name, names};
use pg_value::List;
use std::alloc::Global;

/// NOT NULL or PRIMARY KEY.
#[tactic(auto, unfolding(crate::specs::Read::Tables::mark))]
fn mark(cursor: &mut Cursor<'_>) -> Result<Mark, Unexpected>
    ensures { ReadsSurely (spec.mark cursor.old) result cursor.new }
{
    if cursor.eat_word(b"NOT") {
        cursor.word(b"NULL")?;
        return Ok(Mark::NotNull);
    }
    cursor.word(b"PRIMARY")?;
    cursor.word(b"KEY")?;
    Ok(Mark::Primary)
}

/// Any number of NOT NULL and PRIMARY KEY.
#[tactic(auto, unfolding(pg_grammar::specs::Kit::Reading::turns))]
fn marks(alloc: Global, cursor: &mut Cursor<'_>) -> Result<List<Mark>, Fault>
    ensures { Reads (spec.marks cursor.old) result cursor.new }
{
    let mut found = List::new(alloc);
    for _turn in 0..cursor.len() {
        if !cursor.sees_either_word(b"NOT", b"PRIMARY") {
            break;
        }
        found.push(mark(cursor)?)?;
    }
    Ok(found)
}

/// A column.
#[tactic(auto, unfolding(crate::specs::Read::Tables::column))]
fn column(alloc: Global, cursor: &mut Cursor<'_>) -> Result<Item, Fault>
    ensures { Reads (spec.column cursor.old) result cursor.new }
{
    let name = name(alloc, cursor)?;
    let kind = kind(cursor)?;
    let marks = marks(alloc, cursor)?;
    Ok(Item::Column { name, kind, marks })
}

/// A column or PRIMARY KEY with its columns.
#[tactic(auto, unfolding(crate::specs::Read::Tables::item))]
fn item(alloc: Global, cursor: &mut Cursor<'_>) -> Result<Item, Fault>
    ensures { Reads (spec.item cursor.old) result cursor.new }
{
    if cursor.eat_word(b"PRIMARY") {
        cursor.word(b"KEY")?;
        let names = names(alloc, cursor)?;
        return Ok(Item::Key { names });
    }
    column(alloc, cursor)
}

/// Reads the items of CREATE TABLE, in parentheses.
#[tactic(auto, unfolding(crate::specs::Read::Tables::items))]
pub fn items(alloc: Global, cursor: &mut Cursor<'_>) -> Result<List<Item>, Fault>
    ensures { Reads (spec.items cursor.old) result cursor.new }
{
    listed(alloc, cursor, item)
}
