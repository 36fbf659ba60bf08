//! The properties and labels of an element table.
ghost use Rattle.pg_grammar.specs.Kit.Reading.{Reads, ReadsSurely};
ghost use Rattle.pg_sql.specs.Read.Graphs as spec;

use pg_ast::{LabelDef, Labels, Name, PropDef, Props};
use pg_grammar::{Cursor, Fault, Unexpected, listed, name};
use pg_value::List;
use std::alloc::Global;

/// Reads AS and a name, where they stand.
#[tactic(auto, unfolding(crate::specs::Read::Graphs::new_name))]
fn new_name(alloc: Global, cursor: &mut Cursor<'_>) -> Result<Option<Name>, Fault>
    ensures { Reads (spec.new_name cursor.old) result cursor.new }
{
    if !cursor.eat_word(b"AS") {
        return Ok(None);
    }
    let name = name(alloc, cursor)?;
    Ok(Some(name))
}

/// A column as a property, under its name or another.
#[tactic(auto, unfolding(crate::specs::Read::Graphs::prop))]
fn prop(alloc: Global, cursor: &mut Cursor<'_>) -> Result<PropDef, Fault>
    ensures { Reads (spec.prop cursor.old) result cursor.new }
{
    let column = name(alloc, cursor)?;
    match new_name(alloc, cursor)? {
        Some(name) => Ok(PropDef { column, name }),
        None => {
            let text = column.text.copy(alloc)?;
            let name = Name {
                text,
                at: column.at,
            };
            Ok(PropDef { column, name })
        }
    }
}

/// Properties in parentheses, with commas between.
#[tactic(auto, unfolding(crate::specs::Read::Graphs::prop_items))]
fn prop_items(alloc: Global, cursor: &mut Cursor<'_>) -> Result<List<PropDef>, Fault>
    ensures { Reads (spec.prop_items cursor.old) result cursor.new }
{
    listed(alloc, cursor, prop)
}

/// ARE ALL COLUMNS, where ARE may be left out.
#[tactic(auto, unfolding(crate::specs::Read::Graphs::all_columns, crate::specs::Read::Parts::skip))]
fn all_columns(cursor: &mut Cursor<'_>) -> Result<Props, Unexpected>
    ensures { ReadsSurely (spec.all_columns cursor.old) result cursor.new }
{
    cursor.eat_word(b"ARE");
    cursor.word(b"ALL")?;
    cursor.word(b"COLUMNS")?;
    Ok(Props::All)
}

/// PROPERTIES and which.
#[tactic(auto, unfolding(crate::specs::Read::Graphs::properties))]
fn properties(alloc: Global, cursor: &mut Cursor<'_>) -> Result<Props, Fault>
    ensures { Reads (spec.properties cursor.old) result cursor.new }
{
    cursor.word(b"PROPERTIES")?;
    if cursor.sees_symbol(b"(") {
        let props = prop_items(alloc, cursor)?;
        return Ok(Props::Listed(props));
    }
    Ok(all_columns(cursor)?)
}

/// NO PROPERTIES, or PROPERTIES and which.
#[tactic(auto, unfolding(crate::specs::Read::Graphs::props))]
fn props(alloc: Global, cursor: &mut Cursor<'_>) -> Result<Props, Fault>
    ensures { Reads (spec.props cursor.old) result cursor.new }
{
    if cursor.eat_word(b"NO") {
        cursor.word(b"PROPERTIES")?;
        return Ok(Props::Listed(List::new(alloc)));
    }
    properties(alloc, cursor)
}

/// The properties of a label, all columns where nothing says which.
#[tactic(auto, unfolding(crate::specs::Read::Graphs::any_props))]
fn any_props(alloc: Global, cursor: &mut Cursor<'_>) -> Result<Props, Fault>
    ensures { Reads (spec.any_props cursor.old) result cursor.new }
{
    if cursor.sees_either_word(b"NO", b"PROPERTIES") {
        return props(alloc, cursor);
    }
    Ok(Props::All)
}

/// DEFAULT LABEL: a label of the name of the table.
#[tactic(auto, unfolding(crate::specs::Read::Graphs::default_label))]
fn default_label(alloc: Global, cursor: &mut Cursor<'_>, table: &Name) -> Result<LabelDef, Fault>
    ensures { Reads (spec.default_label table.now cursor.old) result cursor.new }
{
    let at = cursor.word(b"DEFAULT")?.from;
    cursor.word(b"LABEL")?;
    let props = any_props(alloc, cursor)?;
    let text = table.text.copy(alloc)?;
    Ok(LabelDef {
        name: Name { text, at },
        props,
        at,
    })
}

/// A label.
#[tactic(auto, unfolding(crate::specs::Read::Graphs::label))]
fn label(alloc: Global, cursor: &mut Cursor<'_>, table: &Name) -> Result<LabelDef, Fault>
    ensures { Reads (spec.label table.now cursor.old) result cursor.new }
{
    if cursor.sees_word(b"LABEL") {
        let at = cursor.word(b"LABEL")?.from;
        let name = name(alloc, cursor)?;
        let props = any_props(alloc, cursor)?;
        return Ok(LabelDef { name, props, at });
    }
    default_label(alloc, cursor, table)
}

/// One or more labels.
#[tactic(auto, unfolding(pg_grammar::specs::Kit::Reading::turns))]
fn label_list(alloc: Global, cursor: &mut Cursor<'_>, table: &Name) -> Result<List<LabelDef>, Fault>
    ensures { Reads (spec.label_list table.now cursor.old) result cursor.new }
{
    let mut found = List::new(alloc);
    found.push(label(alloc, cursor, table)?)?;
    for _turn in 0..cursor.len() {
        if !cursor.sees_either_word(b"LABEL", b"DEFAULT") {
            break;
        }
        found.push(label(alloc, cursor, table)?)?;
    }
    Ok(found)
}

/// Reads the labels of the table of that name.
#[tactic(auto, unfolding(crate::specs::Read::Graphs::labels))]
pub fn labels(alloc: Global, cursor: &mut Cursor<'_>, table: &Name) -> Result<Labels, Fault>
    ensures { Reads (spec.labels table.now cursor.old) result cursor.new }
{
    if cursor.sees_either_word(b"LABEL", b"DEFAULT") {
        let labels = label_list(alloc, cursor, table)?;
        return Ok(Labels::Given(labels));
    }
    let props = any_props(alloc, cursor)?;
    Ok(Labels::Own(props))
}
