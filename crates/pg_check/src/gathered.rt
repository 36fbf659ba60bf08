//! What the judgement of a query goes over, gathered once.
ghost use Rattle.std.specs.Prelude.{◌≡◌, IfOk, map};
ghost use Rattle.pg_check.specs.Judgement.{IsGathered};
ghost use Rattle.pg_check.specs.Passes.{path_walks};

use crate::gather::{InnerCondition, inner_conditions, inner_expressions, outer_expressions};
use crate::mentions::{MentionOf, mentions};
use crate::quantifiers::walks_on;
use crate::variables::Variables;
use pg_ast::{Expr, PathPattern, Query};
use std::alloc::{AllocError, Global};

/// The conditions inside the patterns, the expressions inside and outside them, the mentions of variables, the variables, and
/// for each path pattern whether every walk is allowed and a part of it may be repeated without end.
#[derive(Drop)]
pub struct Gathered<'a> {
    pub conditions: Vec<InnerCondition<'a>>,
    pub inner: Vec<&'a Expr>,
    pub outer: Vec<&'a Expr>,
    pub mentions: Vec<MentionOf<'a>>,
    pub variables: Variables<'a>,
    pub walks: Vec<bool>,
}

/// Whether each path pattern allows every walk and has a part that may be repeated without end.
#[tactic(auto, using(crate::proofs::Loops::mapped_push))]
fn walks(alloc: Global, paths: &[PathPattern]) -> Result<Vec<bool>, AllocError>
    ensures { IfOk result (λ r. r.items ≡ map path_walks paths.now) }
{
    let mut out = Vec::new(alloc);
    for path in paths {
        out.push(walks_on(path))?;
    }
    Ok(out)
}

/// What the judgement of a query goes over.
pub fn gather(alloc: Global, query: &Query) -> Result<Gathered<'_>, AllocError>
    ensures { IfOk result (IsGathered query.now) }
{
    let conditions = inner_conditions(alloc, query)?;
    let inner = inner_expressions(alloc, &conditions)?;
    let outer = outer_expressions(alloc, query)?;
    let mentions = mentions(alloc, query)?;
    let variables = Variables::of(alloc, &mentions)?;
    let walks = walks(alloc, query.paths.as_slice())?;
    Ok(Gathered {
        conditions,
        inner,
        outer,
        mentions,
        variables,
        walks,
    })
}
