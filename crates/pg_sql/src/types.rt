//! The types of columns.
ghost use Rattle.pg_grammar.specs.Kit.Reading.{ReadsSurely};
ghost use Rattle.pg_sql.specs.Read.Tables as spec;

use pg_ast::ColumnType;
use pg_grammar::{Cursor, Unexpected, bytes_of, kept};

/// VARCHAR, and the number of bytes where it stands.
#[tactic(auto, unfolding(crate::specs::Read::Tables::varchar))]
fn varchar(cursor: &mut Cursor<'_>) -> Result<ColumnType, Unexpected>
    ensures { ReadsSurely (spec.varchar cursor.old) result cursor.new }
{
    let word = cursor.word(b"VARCHAR")?;
    if !cursor.eat_symbol(b"(") {
        return Ok(ColumnType::Varchar {
            bytes: 255,
            at: word.from,
        });
    }
    let number = cursor.number()?;
    cursor.symbol(b")")?;
    Ok(ColumnType::Varchar {
        bytes: kept(bytes_of(number)),
        at: number.from,
    })
}

/// Reads a column's type.
#[tactic(auto, unfolding(crate::specs::Read::Tables::kind))]
pub fn kind(cursor: &mut Cursor<'_>) -> Result<ColumnType, Unexpected>
    ensures { ReadsSurely (spec.kind cursor.old) result cursor.new }
{
    if cursor.eat_word(b"INTEGER") {
        return Ok(ColumnType::Integer);
    }
    if cursor.eat_word(b"INT") {
        return Ok(ColumnType::Integer);
    }
    if cursor.eat_word(b"BOOLEAN") {
        return Ok(ColumnType::Boolean);
    }
    varchar(cursor)
}
