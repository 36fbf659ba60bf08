//! What an expression is made of outside of parentheses: references and literals.
ghost use Rattle.pg_grammar.specs.Kit.Reading.{Reads};
ghost use Rattle.pg_grammar.specs.Read.Exprs as spec;

use crate::build::counted;
use crate::literal::literal;
use crate::{Cursor, Fault, name};
use pg_ast::{CountedExpr, Expr, Scope};
use std::alloc::Global;

/// The name of a column.
#[tactic(auto, unfolding(crate::specs::Read::Exprs::column))]
fn column(alloc: Global, cursor: &mut Cursor<'_>) -> Result<Expr, Fault>
    ensures { Reads (spec.column cursor.old) result cursor.new }
{
    let name = name(alloc, cursor)?;
    Ok(Expr::Column { name })
}

/// A variable, `.` and the name of a property.
#[tactic(auto, unfolding(crate::specs::Read::Exprs::property))]
fn property(alloc: Global, cursor: &mut Cursor<'_>) -> Result<Expr, Fault>
    ensures { Reads (spec.property cursor.old) result cursor.new }
{
    let var = name(alloc, cursor)?;
    cursor.symbol(b".")?;
    let name = name(alloc, cursor)?;
    Ok(Expr::Property { var, name })
}

/// A column, behind which `left` operators may come.
fn counted_column(alloc: Global, cursor: &mut Cursor<'_>, left: u8) -> Result<CountedExpr, Fault>
    ensures { Reads (spec.counted_column left cursor.old) result cursor.new }
{
    let expr = column(alloc, cursor)?;
    Ok(counted(expr, left))
}

/// A property, which is plain.
fn counted_property(alloc: Global, cursor: &mut Cursor<'_>, left: u8) -> Result<CountedExpr, Fault>
    ensures { Reads (spec.counted_property left cursor.old) result cursor.new }
{
    let expr = property(alloc, cursor)?;
    Ok(CountedExpr {
        expr,
        left,
        plain: true,
    })
}

/// A literal.
fn counted_literal(alloc: Global, cursor: &mut Cursor<'_>, left: u8) -> Result<CountedExpr, Fault>
    ensures { Reads (spec.counted_literal left cursor.old) result cursor.new }
{
    let expr = literal(alloc, cursor)?;
    Ok(counted(expr, left))
}

/// What may stand there outside of parentheses.
#[tactic(auto, unfolding(crate::specs::Read::Exprs::base))]
pub fn base(
    alloc: Global,
    cursor: &mut Cursor<'_>,
    scope: Scope,
    left: u8,
) -> Result<CountedExpr, Fault>
    ensures { Reads (spec.base scope left cursor.old) result cursor.new }
{
    match scope {
        Scope::Insert => counted_literal(alloc, cursor, left),
        Scope::Change => {
            if cursor.sees_name() {
                return counted_column(alloc, cursor, left);
            }
            counted_literal(alloc, cursor, left)
        }
        Scope::Query => {
            if cursor.sees_name() {
                return counted_property(alloc, cursor, left);
            }
            counted_literal(alloc, cursor, left)
        }
    }
}
