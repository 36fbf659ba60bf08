//! CREATE TABLE from its items: the columns, and the PRIMARY KEY clauses of columns and of the table in text order.
ghost use Rattle.std.specs.Prelude.{◌≡◌, ◌++◌, [], ◌∷◌, IfOk, map, filter, filter_map, flat_map};
ghost use Rattle.std.specs.List.{cons_option, list_any};
ghost use Rattle.pg_ast.specs.Grammar.Definitions.{is_primary, is_not_null, column_of, keys_of};
ghost use Rattle.pg_grammar.specs.Kit.Reading.{Reads};
ghost use Rattle.pg_sql.specs.Read.Tables as spec;

use crate::items::items;
use pg_ast::{ColumnDef, Define, Item, Mark, Name, TableDef};
use pg_grammar::{Cursor, Fault, name};
use pg_lex::Token;
use pg_value::List;
use std::alloc::{AllocError, Global};

/// What the items read so far define.
#[derive(Drop)]
struct Parts {
    columns: List<ColumnDef>,
    keys: List<List<Name>>,
}

/// A list of an equal name alone.
fn only_name(alloc: Global, name: &Name) -> Result<List<Name>, AllocError>
    ensures { IfOk result (λ names. names ≡ name.now ∷ []) }
{
    let text = name.text.copy(alloc)?;
    let mut names = List::new(alloc);
    names.push(Name { text, at: name.at })?;
    Ok(names)
}

/// The keys, and one of that column alone for each PRIMARY KEY among its marks.
fn with_key_marks(
    alloc: Global,
    keys: List<List<Name>>,
    name: &Name,
    marks: &[Mark],
) -> Result<List<List<Name>>, AllocError>
    ensures { IfOk result (λ all. all ≡ keys ++ map (λ _. name.now ∷ []) (filter is_primary marks.now)) }
{
    let mut keys = keys;
    for mark in marks {
        match mark {
            Mark::NotNull => {}
            Mark::Primary => keys.push(only_name(alloc, name)?)?,
        }
    }
    Ok(keys)
}

/// Whether NOT NULL is among the marks.
fn has_not_null(marks: &[Mark]) -> bool
    ensures { result ≡ list_any is_not_null marks.now }
{
    for mark in marks {
        if *mark == Mark::NotNull {
            return true;
        }
    }
    false
}

/// The parts with what one more item defines.
fn with_item(alloc: Global, parts: Parts, item: Item) -> Result<Parts, AllocError>
    ensures columns { IfOk result (λ all. all.columns ≡ parts.columns ++ cons_option (column_of item) []) }
    ensures keys { IfOk result (λ all. all.keys ≡ parts.keys ++ keys_of item) }
{
    let Parts {
        mut columns,
        mut keys,
    } = parts;
    match item {
        Item::Column { name, kind, marks } => {
            keys = with_key_marks(alloc, keys, &name, marks.as_slice())?;
            let not_null = has_not_null(marks.as_slice());
            columns.push(ColumnDef {
                name,
                kind,
                not_null,
            })?;
        }
        Item::Key { names } => keys.push(names)?,
    }
    Ok(Parts { columns, keys })
}

/// What the items define.
fn parts_of(alloc: Global, items: List<Item>) -> Result<Parts, AllocError>
    ensures columns { IfOk result (λ all. all.columns ≡ filter_map column_of items) }
    ensures keys { IfOk result (λ all. all.keys ≡ flat_map keys_of items) }
{
    let mut parts = Parts {
        columns: List::new(alloc),
        keys: List::new(alloc),
    };
    for item in items.into_vec() {
        parts = with_item(alloc, parts, item)?;
    }
    Ok(parts)
}

/// Reads CREATE TABLE from TABLE on, behind that CREATE.
#[tactic(auto, unfolding(crate::specs::Read::Tables::table))]
pub fn table(alloc: Global, cursor: &mut Cursor<'_>, create: &Token) -> Result<Define, Fault>
    ensures { Reads (spec.table create.now cursor.old) result cursor.new }
{
    cursor.word(b"TABLE")?;
    let name = name(alloc, cursor)?;
    let items = items(alloc, cursor)?;
    let Parts { columns, keys } = parts_of(alloc, items)?;
    Ok(Define::Table(TableDef {
        name,
        columns,
        keys,
        at: create.from,
    }))
}
