//! Where an expression uses variables.
ghost use Rattle.std.specs.Prelude.{◌≡◌, ◌++◌, ◌∷◌, [], None, Some, true, IfOk, OnOk, map};
ghost use Rattle.std.specs.Option.{option_copied};
ghost use Rattle.pg_ast.specs.Trees.{tree_of};
ghost use Rattle.pg_check.specs.Gathered as pass;

use pg_ast::{Expr, Name};
use std::alloc::{AllocError, Global};

/// A use of a variable: by a property, or without one in COUNT(v); and whether an aggregate stands around it.
#[derive(Clone, Copy)]
pub struct UseOf<'a> {
    pub variable: &'a Name,
    pub property: Option<&'a Name>,
    pub inside: bool,
}

/// Appends a use.
#[tactic(auto, using(crate::proofs::Loops::mapped_push))]
fn push_use<'a>(used: UseOf<'a>, out: &mut Vec<UseOf<'a>>) -> Result<(), AllocError>
    ensures { OnOk result (map pass.use_view out.new.items ≡ map pass.use_view out.old.items ++ pass.use_view used.entry ∷ []) }
{
    out.push(used)?;
    Ok(())
}

/// Appends the uses in an expression, which stands in an aggregate or does not.
#[tactic(auto, using(pg_ast::specs::Trees::is_unary, pg_ast::specs::Trees::is_binary, pg_ast::specs::Trees::is_agg))]
fn push_uses<'a>(inside: bool, expr: &'a Expr, out: &mut Vec<UseOf<'a>>) -> Result<(), AllocError>
    ensures { OnOk result (map pass.use_view out.new.items ≡ map pass.use_view out.old.items ++ pass.seen_in inside (tree_of expr.now)) }
{
    match expr {
        Expr::Lit { .. } => Ok(()),
        Expr::TooWide { .. } => Ok(()),
        Expr::Column { .. } => Ok(()),
        Expr::Property { var, name } => push_use(
            UseOf {
                variable: var,
                property: Some(name),
                inside,
            },
            out,
        ),
        Expr::Unary { arg, .. } => push_uses(inside, arg.get(), out),
        Expr::Binary { left, right, .. } => {
            push_uses(inside, left.get(), out)?;
            push_uses(inside, right.get(), out)
        }
        Expr::Agg { arg, .. } => push_uses(true, arg.get(), out),
        Expr::CountVar { var, .. } => push_use(
            UseOf {
                variable: var,
                property: None,
                inside: true,
            },
            out,
        ),
    }
}

/// The uses in an expression, which stands in an aggregate or does not.
pub fn uses(alloc: Global, inside: bool, expr: &Expr) -> Result<Vec<UseOf<'_>>, AllocError>
    ensures { IfOk result (λ r. map pass.use_view r.items ≡ pass.seen_in inside (tree_of expr.now)) }
{
    let mut out = Vec::new(alloc);
    push_uses(inside, expr, &mut out)?;
    Ok(out)
}
