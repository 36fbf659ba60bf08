//! UPDATE and DELETE.
ghost use Rattle.pg_grammar.specs.Kit.Reading.{Reads};
ghost use Rattle.pg_sql.specs.Read.Changes as spec;

use pg_ast::{Delete, Scope, SetItem, Update, Whole};
use pg_grammar::{Cursor, Fault, name, separated, whole};
use pg_value::List;
use std::alloc::Global;

/// A column, `=` and an expression.
#[tactic(auto, unfolding(crate::specs::Read::Changes::set_item))]
fn set_item(alloc: Global, cursor: &mut Cursor<'_>) -> Result<SetItem, Fault>
    ensures { Reads (spec.set_item cursor.old) result cursor.new }
{
    let column = name(alloc, cursor)?;
    cursor.symbol(b"=")?;
    let value = whole(alloc, cursor, Scope::Change)?;
    Ok(SetItem { column, value })
}

/// Assignments with commas between.
fn set_list(alloc: Global, cursor: &mut Cursor<'_>) -> Result<List<SetItem>, Fault>
    ensures { Reads (spec.set_list cursor.old) result cursor.new }
{
    separated(alloc, cursor, set_item)
}

/// Reads WHERE and its expression, where they stand.
#[tactic(auto, unfolding(crate::specs::Read::Changes::any_condition, crate::specs::Read::Changes::condition))]
fn any_condition(alloc: Global, cursor: &mut Cursor<'_>) -> Result<Option<Whole>, Fault>
    ensures { Reads (spec.any_condition cursor.old) result cursor.new }
{
    if !cursor.eat_word(b"WHERE") {
        return Ok(None);
    }
    let whole = whole(alloc, cursor, Scope::Change)?;
    Ok(Some(whole))
}

/// Reads UPDATE.
#[tactic(auto, unfolding(crate::specs::Read::Changes::update))]
pub fn update(alloc: Global, cursor: &mut Cursor<'_>) -> Result<Update, Fault>
    ensures { Reads (spec.update cursor.old) result cursor.new }
{
    cursor.word(b"UPDATE")?;
    let table = name(alloc, cursor)?;
    cursor.word(b"SET")?;
    let sets = set_list(alloc, cursor)?;
    let cond = any_condition(alloc, cursor)?;
    Ok(Update { table, sets, cond })
}

/// Reads DELETE.
#[tactic(auto, unfolding(crate::specs::Read::Changes::delete))]
pub fn delete(alloc: Global, cursor: &mut Cursor<'_>) -> Result<Delete, Fault>
    ensures { Reads (spec.delete cursor.old) result cursor.new }
{
    cursor.word(b"DELETE")?;
    cursor.word(b"FROM")?;
    let table = name(alloc, cursor)?;
    let cond = any_condition(alloc, cursor)?;
    Ok(Delete { table, cond })
}
