//! The columns of a query.
ghost use Rattle.std.specs.Prelude.{◌≡◌, Option};
ghost use Rattle.pg_grammar.specs.Kit.Reading.{Reads, OfMemory};
ghost use Rattle.pg_pattern.specs.Read as spec;

use pg_ast::{ColumnItem, CountedWhole, Expr, Name, Scope};
use pg_grammar::{Cursor, Fault, counted_whole, listed, name};
use pg_value::List;
use std::alloc::Global;

/// A copy of the name of the property that the expression is.
fn property_name(alloc: Global, expr: &Expr) -> Result<Option<Name>, Fault>
    ensures { OfMemory result (spec.property_name expr.now) }
{
    match expr {
        Expr::Property { var: _, name } => {
            let text = name.text.copy(alloc)?;
            Ok(Some(Name { text, at: name.at }))
        }
        _ => Ok(None),
    }
}

/// A copy of the property's name, where the expression is `name . name` and nothing else.
fn own_name(alloc: Global, column: &CountedWhole) -> Result<Option<Name>, Fault>
    ensures { OfMemory result (spec.own_name column.now) }
{
    if !column.plain {
        return Ok(None);
    }
    property_name(alloc, &column.whole.expr)
}

/// AS and a name.
#[tactic(auto, unfolding(crate::specs::Read::title))]
fn title(alloc: Global, cursor: &mut Cursor<'_>) -> Result<Name, Fault>
    ensures { Reads (spec.title cursor.old) result cursor.new }
{
    cursor.word(b"AS")?;
    name(alloc, cursor)
}

/// The name behind AS, or else its own name.
#[tactic(auto, unfolding(crate::specs::Read::column_name))]
fn column_name(alloc: Global, cursor: &mut Cursor<'_>, own: Option<Name>) -> Result<Name, Fault>
    ensures { Reads (spec.column_name own cursor.old) result cursor.new }
{
    match own {
        Some(own) => {
            if !cursor.sees_word(b"AS") {
                return Ok(own);
            }
            title(alloc, cursor)
        }
        None => title(alloc, cursor),
    }
}

/// An expression and its name.
#[tactic(auto, unfolding(crate::specs::Read::column))]
fn column(alloc: Global, cursor: &mut Cursor<'_>) -> Result<ColumnItem, Fault>
    ensures { Reads (spec.column cursor.old) result cursor.new }
{
    let found = counted_whole(alloc, cursor, Scope::Query)?;
    let own = own_name(alloc, &found)?;
    let name = column_name(alloc, cursor, own)?;
    Ok(ColumnItem {
        expr: found.whole,
        name,
    })
}

/// Reads one or more columns in parentheses, with commas between.
#[tactic(auto, unfolding(crate::specs::Read::columns))]
pub fn columns(alloc: Global, cursor: &mut Cursor<'_>) -> Result<List<ColumnItem>, Fault>
    ensures { Reads (spec.columns cursor.old) result cursor.new }
{
    listed(alloc, cursor, column)
}
