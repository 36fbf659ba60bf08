//! Expressions over a view and what the variables of a query stand for.
ghost use Rattle.std.specs.Prelude.{◌≡◌, slice_index_or, IfOk};
ghost use Rattle.std.specs.declared.option.Option.TheVariants.{None};
ghost use Rattle.std.specs.Option.{option_copied, unwrap_or};
ghost use Rattle.pg_value.specs.declared.value.Value.TheVariants.{Null};
ghost use Rattle.pg_meaning.specs.Answers.{bound_to};
ghost use Rattle.pg_meaning.specs.CExprs.{ctree_of};
ghost use Rattle.pg_meaning.specs.Meaning.{OfVars, column_of, elems_of, value_of, truth_of};
ghost use Rattle.pg_expr.specs.Conditions.{IsCheckedForBound};
ghost use Rattle.pg_expr.specs.Operands.{seen};
ghost use Rattle.pg_expr.specs.References.{property_at};

use crate::evaluate::value;
use crate::logic::as_truth;
use crate::operand::Operand;
use crate::references::References;
use pg_chunks::Steps;
use pg_meaning::{Bound, CExpr, Slot, value_by_variables, values_within_widths};
use pg_value::{ElemId, TableNo, Truth, Value};
use pg_view::View;
use std::alloc::{AllocError, Global};
use std::slice;
use std::sync::ledger::Ledger;

/// The column that is given for a table.
pub fn place_in(columns: &[Option<u32>], table: TableNo) -> Option<u32>
    ensures { result ≡ slice_index_or columns.now table.0 None }
{
    match columns.get(table.0 as usize) {
        Some(place) => *place,
        None => None,
    }
}

/// The tables of a view, and what the variables of a query stand for.
#[derive(Drop)]
struct BoundIn<'a, V> {
    view: &'a V,
    bound: &'a Bound,
}

impl<'a, V: View> References for BoundIn<'a, V> {
    ghost use Rattle.pg_meaning.specs.Answers.{bound_to};
    ghost use Rattle.pg_meaning.specs.Meaning.{OfVars};

    ghost scope = { λ b. OfVars (V.tables b.view.now) (bound_to b.bound.now) };

    fn column(&self, _place: u32) -> Option<&Value> {
        None
    }

    fn property<L: Ledger>(
        &self,
        elem: &ElemId,
        columns: &[Option<u32>],
        steps: &mut Steps<L>,
    ) -> Option<&Value> {
        let place = place_in(columns, elem.table)?;
        let row = self.view.row(elem.table, &elem.key, steps)?;
        row.values.get().get(place as usize)
    }

    fn elements(&self, var: u32) -> &[ElemId] {
        match self.bound.vars.get(var as usize) {
            Some(Slot::One(elem)) => slice::from_ref(elem),
            Some(Slot::Many(elems)) => elems.as_slice(),
            None => &[],
        }
    }
}

/// The value of an expression over a view.
fn value_over<'a, V: View>(over: &'a BoundIn<'a, V>, expr: &'a CExpr) -> Operand<'a>
    requires { IsCheckedForBound (V.shapes over.now.view.now) (V.tables over.now.view.now) over.now.bound.now expr.now }
    ensures { seen result ≡ value_of (ctree_of expr.now) (OfVars (V.tables over.now.view.now) (bound_to over.now.bound.now)) }
{
    values_within_widths();
    value_by_variables();
    over.view.well_made();
    value(over, None, expr)
}

/// The value of an expression over a view, as `pg_meaning` defines it: its variables stand for what is bound to them. The
/// expression was checked over the view's shapes for variables that may stand for that. Only want of memory refuses it: a
/// text that is the value is copied.
pub fn eval<'a, V: View>(
    alloc: Global,
    expr: &'a CExpr,
    bound: &'a Bound,
    view: &'a V,
) -> Result<Value, AllocError>
    requires { IsCheckedForBound (V.shapes view.now) (V.tables view.now) bound.now expr.now }
    ensures { IfOk result (λ v. v ≡ value_of (ctree_of expr.now) (OfVars (V.tables view.now) (bound_to bound.now))) }
{
    value_over(&BoundIn { view, bound }, expr).into_value(alloc)
}

/// The truth of a condition over a view, as `pg_meaning` defines it: its variables stand for what is bound to them. The
/// condition was checked over the view's shapes for variables that may stand for that. It takes no memory.
pub fn truth<'a, V: View>(expr: &'a CExpr, bound: &'a Bound, view: &'a V) -> Truth
    requires { IsCheckedForBound (V.shapes view.now) (V.tables view.now) bound.now expr.now }
    ensures { result ≡ truth_of (ctree_of expr.now) (OfVars (V.tables view.now) (bound_to bound.now)) }
{
    as_truth(value_over(&BoundIn { view, bound }, expr).get())
}
