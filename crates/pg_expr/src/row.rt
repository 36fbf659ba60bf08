//! Expressions over a row of a table.
ghost use Rattle.std.specs.Prelude.{◌≡◌, IfOk};
ghost use Rattle.std.specs.Option.{option_copied, unwrap_or};
ghost use Rattle.pg_value.specs.declared.value.Value.TheVariants.{Null};
ghost use Rattle.pg_meaning.specs.CExprs.{ctree_of};
ghost use Rattle.pg_meaning.specs.Meaning.{OfRow, column_of, elems_of, value_of, truth_of};
ghost use Rattle.pg_expr.specs.Conditions.{IsCheckedForRow};
ghost use Rattle.pg_expr.specs.Operands.{seen};
ghost use Rattle.pg_expr.specs.References.{property_at};

use crate::evaluate::value;
use crate::logic::as_truth;
use crate::operand::Operand;
use crate::references::References;
use pg_chunks::Steps;
use pg_meaning::{CExpr, value_by_variables, values_within_widths};
use pg_value::{ElemId, Row, Truth, Value};
use std::alloc::{AllocError, Global};
use std::sync::ledger::Ledger;

/// A row has columns, and no variables.
impl References for Row {
    ghost use Rattle.pg_meaning.specs.Meaning.{OfRow};

    ghost scope = { λ row. OfRow row };

    fn column(&self, place: u32) -> Option<&Value> {
        self.values.get().get(place as usize)
    }

    fn property<L: Ledger>(
        &self,
        _elem: &ElemId,
        _columns: &[Option<u32>],
        _steps: &mut Steps<L>,
    ) -> Option<&Value> {
        None
    }

    fn elements(&self, _var: u32) -> &[ElemId] {
        &[]
    }
}

/// The value of an expression over a row.
fn value_over<'a>(expr: &'a CExpr, row: &'a Row) -> Operand<'a>
    requires { IsCheckedForRow row.now expr.now }
    ensures { seen result ≡ value_of (ctree_of expr.now) (OfRow row.now) }
{
    values_within_widths();
    value_by_variables();
    value(row, None, expr)
}

/// The value of an expression over a row, as `pg_meaning` defines it. The expression was checked for columns that the row's
/// values fit, or names no column. Only want of memory refuses it: a text that is the value is copied.
pub fn eval_row<'a>(alloc: Global, expr: &'a CExpr, row: &'a Row) -> Result<Value, AllocError>
    requires { IsCheckedForRow row.now expr.now }
    ensures { IfOk result (λ v. v ≡ value_of (ctree_of expr.now) (OfRow row.now)) }
{
    value_over(expr, row).into_value(alloc)
}

/// The truth of a condition over a row, as `pg_meaning` defines it. The condition was checked for columns that the row's
/// values fit, or names no column. It takes no memory.
pub fn truth_row<'a>(expr: &'a CExpr, row: &'a Row) -> Truth
    requires { IsCheckedForRow row.now expr.now }
    ensures { result ≡ truth_of (ctree_of expr.now) (OfRow row.now) }
{
    as_truth(value_over(expr, row).get())
}
