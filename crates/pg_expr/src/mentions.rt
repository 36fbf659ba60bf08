//! Conditions over a view and a few elements, each borrowed where it is held, as a search judges them.
ghost use Rattle.std.specs.Prelude.{◌≡◌, []};
ghost use Rattle.std.specs.List.{cons_option};
ghost use Rattle.std.specs.Option.{option_copied, unwrap_or};
ghost use Rattle.pg_value.specs.declared.value.Value.TheVariants.{Null};
ghost use Rattle.pg_meaning.specs.CExprs.{ctree_of};
ghost use Rattle.pg_meaning.specs.Meaning.{OfVars, column_of, elems_of, value_of, truth_of};
ghost use Rattle.pg_expr.specs.Conditions.{IsCheckedForOnes};
ghost use Rattle.pg_expr.specs.Mentions.{stood_for};
ghost use Rattle.pg_expr.specs.Operands.{seen};
ghost use Rattle.pg_expr.specs.References.{property_at};

use crate::evaluate::value;
use crate::logic::as_truth;
use crate::operand::Operand;
use crate::references::References;
use crate::view::place_in;
use pg_chunks::Steps;
use pg_meaning::{CExpr, value_by_variables, values_within_widths};
use pg_value::{ElemId, Truth, Value};
use pg_view::View;
use std::slice;
use std::sync::ledger::Ledger;

/// An element that stands for a variable.
#[derive(Clone, Copy)]
pub struct Mention<'a> {
    pub var: u32,
    pub elem: &'a ElemId,
}

/// The first element that stands for a variable, where there is one. It goes through all of them, which are few.
fn first_of<'a>(mentions: &[Mention<'a>], var: u32) -> Option<&'a ElemId>
    ensures { cons_option (option_copied result) [] ≡ stood_for mentions.now var }
{
    for mention in mentions {
        if mention.var == var {
            return Some(mention.elem);
        }
    }
    None
}

/// The tables of a view, and a few elements that stand for variables.
#[derive(Drop)]
struct MentionsIn<'a, V> {
    view: &'a V,
    mentions: &'a [Mention<'a>],
}

impl<'a, V: View> References for MentionsIn<'a, V> {
    ghost use Rattle.pg_meaning.specs.Meaning.{OfVars};
    ghost use Rattle.pg_expr.specs.Mentions.{stood_for};

    ghost scope = { λ m. OfVars (V.tables m.view.now) (stood_for m.mentions.now) };

    fn column(&self, _place: u32) -> Option<&Value> {
        None
    }

    fn property<L: Ledger>(
        &self,
        elem: &ElemId,
        columns: &[Option<u32>],
        steps: &mut Steps<L>,
    ) -> Option<&Value> {
        let place = place_in(columns, elem.table)?;
        let row = self.view.row(elem.table, &elem.key, steps)?;
        row.values.get().get(place as usize)
    }

    fn elements(&self, var: u32) -> &[ElemId] {
        match first_of(self.mentions, var) {
            Some(elem) => slice::from_ref(elem),
            None => &[],
        }
    }
}

/// The value of an expression over a view and a few elements.
fn value_over<'a, V: View>(over: &'a MentionsIn<'a, V>, expr: &'a CExpr) -> Operand<'a>
    requires { IsCheckedForOnes (V.shapes over.now.view.now) expr.now }
    ensures { seen result ≡ value_of (ctree_of expr.now) (OfVars (V.tables over.now.view.now) (stood_for over.now.mentions.now)) }
{
    values_within_widths();
    value_by_variables();
    over.view.well_made();
    value(over, None, expr)
}

/// The truth of a condition over a view, as `pg_meaning` defines it: each of its variables stands for the first element that
/// is given for it, and for none where none is. The condition was checked over the view's shapes. It takes no memory, and
/// the elements stay where they are held.
pub fn truth_of_mentions<'a, V: View>(
    expr: &'a CExpr,
    mentions: &'a [Mention<'a>],
    view: &'a V,
) -> Truth
    requires { IsCheckedForOnes (V.shapes view.now) expr.now }
    ensures { result ≡ truth_of (ctree_of expr.now) (OfVars (V.tables view.now) (stood_for mentions.now)) }
{
    as_truth(value_over(&MentionsIn { view, mentions }, expr).get())
}
