//! Lists with commas between.
ghost use Rattle.pg_ast.specs.Words.Names.{comma};
ghost use Rattle.pg_grammar.specs.Kit.Reading.{Parser, Reads, separated, listed};
ghost use Rattle.pg_grammar.specs.Kit.Callable.{IsCallable, IsReader};

use crate::{Cursor, Fault};
use pg_value::List;
use std::alloc::Global;

/// Reads one or more of what `item` reads, with commas between.
#[tactic(auto, unfolding(crate::specs::Kit::Reading::turns))]
pub fn separated<T: Drop, F: Fn(Global, &mut Cursor<'_>) -> Result<T, Fault>>(
    alloc: Global,
    cursor: &mut Cursor<'_>,
    item: F,
) -> Result<List<T>, Fault>
    requires { IsCallable (F.pre item) }
    ensures { (p : Parser T) → IsReader p (F.post item) → Reads (separated comma p cursor.old) result cursor.new }
{
    let mut found = List::new(alloc);
    found.push(item(alloc, cursor)?)?;
    for _turn in 0..cursor.len() {
        if !cursor.eat_symbol(b",") {
            break;
        }
        found.push(item(alloc, cursor)?)?;
    }
    Ok(found)
}

/// Reads one or more of what `item` reads, with commas between, in parentheses.
pub fn listed<T: Drop, F: Fn(Global, &mut Cursor<'_>) -> Result<T, Fault>>(
    alloc: Global,
    cursor: &mut Cursor<'_>,
    item: F,
) -> Result<List<T>, Fault>
    requires { IsCallable (F.pre item) }
    ensures { (p : Parser T) → IsReader p (F.post item) → Reads (listed p cursor.old) result cursor.new }
{
    cursor.symbol(b"(")?;
    let found = separated(alloc, cursor, item)?;
    Ok(cursor.closed(b")", found)?)
}
