//! Names, and lists of names.
ghost use Rattle.pg_grammar.specs.Kit.Reading.{Reads};
ghost use Rattle.pg_grammar.specs.Read as spec;

use crate::text::copy_text;
use crate::{Cursor, Fault, listed};
use pg_ast::Name;
use pg_value::List;
use std::alloc::Global;

/// Reads a name.
#[tactic(auto, unfolding(crate::specs::Read::name))]
pub fn name(alloc: Global, cursor: &mut Cursor<'_>) -> Result<Name, Fault>
    ensures { Reads (spec.name cursor.old) result cursor.new }
{
    let token = cursor.name()?;
    let text = copy_text(alloc, token)?;
    Ok(Name {
        text,
        at: token.from,
    })
}

/// Reads one or more names in parentheses, with commas between.
#[tactic(auto, unfolding(crate::specs::Read::names))]
pub fn names(alloc: Global, cursor: &mut Cursor<'_>) -> Result<List<Name>, Fault>
    ensures { Reads (spec.names cursor.old) result cursor.new }
{
    listed(alloc, cursor, name)
}
