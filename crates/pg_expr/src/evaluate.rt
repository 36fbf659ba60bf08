//! The evaluation of a checked expression.
ghost use Rattle.std.specs.Prelude.{◌≡◌, not, is_some, slice_get};
ghost use Rattle.pg_meaning.specs.CExprs.{ctree_of};
ghost use Rattle.pg_meaning.specs.Meaning as meaning;
ghost use Rattle.pg_meaning.specs.Meaning.{present, elems_of, value_of, vars_of};
ghost use Rattle.pg_expr.specs.Evaluable.{IsEvaluable, IsGroupEvaluable};
ghost use Rattle.pg_expr.specs.Operands.{seen};
ghost use Rattle.pg_expr.specs.References.{chosen_in, values_at, MayChoose};

use crate::aggregates::{added, nothing};
use crate::number::number;
use crate::operand::Operand;
use crate::operators::{binary, settled, unary};
use crate::references::{Chosen, References, elements, property};
use pg_ast::Agg;
use pg_meaning::CExpr;
use pg_value::Value;

/// The first variable of an expression, where it has one.
#[tactic(auto, using(pg_meaning::specs::CExprs::is_unary, pg_meaning::specs::CExprs::is_binary, pg_meaning::specs::CExprs::is_agg))]
fn variable(expr: &CExpr) -> Option<u32>
    ensures { result ≡ slice_get (vars_of (ctree_of expr.now)) 0 }
{
    match expr {
        CExpr::Lit(_) | CExpr::Column(_) => None,
        CExpr::Property { var, columns: _ } => Some(*var),
        CExpr::Unary { op: _, arg } => variable(arg.get()),
        CExpr::Binary { op: _, left, right } => match variable(left.get()) {
            None => variable(right.get()),
            found => found,
        },
        CExpr::Agg { agg: _, arg } => variable(arg.get()),
        CExpr::CountVar { var } => Some(*var),
    }
}

/// The value of an expression, for an element that an aggregate has chosen where it stands in one. AND and OR stop at the
/// left where it settles their value, and no text is copied. It calls itself as deep as the expression's tree.
#[cycle(value)]
#[tactic(auto, using(pg_meaning::specs::CExprs::is_unary, pg_meaning::specs::CExprs::is_binary, pg_meaning::specs::CExprs::is_agg))]
pub fn value<'a, R: References>(
    references: &'a R,
    chosen: Option<Chosen<'a>>,
    expr: &'a CExpr,
) -> Operand<'a>
    requires evaluable { IsEvaluable (not (is_some chosen)) (ctree_of expr.now) (chosen_in chosen (R.scope references.now)) }
    requires choice { MayChoose chosen (R.scope references.now) }
    ensures { seen result ≡ value_of (ctree_of expr.now) (chosen_in chosen.entry (R.scope references.now)) }
{
    match expr {
        CExpr::Lit(literal) => Operand::Borrowed(literal),
        CExpr::Column(place) => Operand::found(references.column(*place)),
        CExpr::Property { var, columns } => property(references, chosen, *var, columns.as_slice()),
        CExpr::Unary { op, arg } => {
            let arg = value(references, chosen, arg.get());
            Operand::Made(unary(*op, arg.get()))
        }
        CExpr::Binary { op, left, right } => {
            let left = value(references, chosen, left.get());
            match settled(*op, left.get()) {
                Some(truth) => Operand::Made(Value::Bool(truth)),
                None => {
                    let right = value(references, chosen, right.get());
                    Operand::Made(binary(*op, left.get(), right.get()))
                }
            }
        }
        CExpr::Agg { agg, arg } => match variable(arg.get()) {
            Some(var) => aggregate(references, *agg, var, arg.get()),
            None => Operand::Made(nothing(*agg)),
        },
        CExpr::CountVar { var } => {
            Operand::Made(number(elements(references, chosen, *var).len() as i128))
        }
    }
}

/// An aggregate over the elements of a variable.
#[cycle(value)]
fn aggregate<'a, R: References>(
    references: &'a R,
    agg: Agg,
    var: u32,
    arg: &'a CExpr,
) -> Operand<'a>
    requires { IsGroupEvaluable agg (ctree_of arg.now) (R.scope references.now) var }
    ensures { seen result ≡ meaning.aggregate agg (present (values_at (ctree_of arg.now) (R.scope references.now) var (elems_of (R.scope references.now) var))) }
{
    let mut so_far = Operand::Made(nothing(agg));
    for elem in references.elements(var) {
        let chosen = Some(Chosen { var, elem });
        so_far = added(agg, so_far, value(references, chosen, arg));
    }
    so_far
}
