//! The first place of each kind of fault, over what is gathered of a query.
ghost use Rattle.std.specs.Prelude.{◌≡◌, IfOk};
ghost use Rattle.pg_rules.specs.Catalog.GraphLookUps.{graph_numbered};
ghost use Rattle.pg_rules.specs.Places.{least};
ghost use Rattle.pg_rules.specs.Queries as spec;
ghost use Rattle.pg_check.specs.Judgement.{IsGathered};

use crate::gathered::Gathered;
use crate::judge;
use pg_ast::Query;
use pg_catalog::Catalog;
use pg_rules::sooner;
use pg_value::GraphNo;
use std::alloc::{AllocError, Global};

/// The first property that no element table of the graph has.
pub fn no_property(
    alloc: Global,
    catalog: &Catalog,
    graph: GraphNo,
    query: &Query,
    gathered: &Gathered<'_>,
) -> Result<Option<u32>, AllocError>
    requires { IsGathered query.now gathered.now }
    ensures { IfOk result (λ r. r ≡ least (spec.no_property (graph_numbered catalog.now.1 graph) query.now)) }
{
    let _ = query;
    judge::no_property(alloc, catalog, graph, &gathered.inner, &gathered.outer)
}

/// The first variable that may not stand where it does: one that no pattern names, one that a condition inside a pattern may
/// not use, or the later of two mentions that may not both stand.
pub fn bad_variable(
    alloc: Global,
    query: &Query,
    gathered: &Gathered<'_>,
) -> Result<Option<u32>, AllocError>
    requires { IsGathered query.now gathered.now }
    ensures { IfOk result (λ r. r ≡ least (spec.bad_variable query.now)) }
{
    let _ = query;
    let unknown = judge::unknown(alloc, &gathered.variables, &gathered.inner, &gathered.outer)?;
    let foreign = judge::foreign(alloc, &gathered.conditions)?;
    let clash = judge::clash(alloc, &gathered.walks, &gathered.mentions)?;
    let later = sooner(foreign, clash);
    Ok(sooner(unknown, later))
}

/// The first use of a group variable or aggregate that may not stand.
pub fn group_use(
    alloc: Global,
    query: &Query,
    gathered: &Gathered<'_>,
) -> Result<Option<u32>, AllocError>
    requires { IsGathered query.now gathered.now }
    ensures { IfOk result (λ r. r ≡ least (spec.group_use query.now)) }
{
    let _ = query;
    judge::group_use(alloc, &gathered.variables, &gathered.inner, &gathered.outer)
}

/// The first condition, operator or aggregate that has a wrong kind.
pub fn types(
    alloc: Global,
    catalog: &Catalog,
    graph: GraphNo,
    query: &Query,
    gathered: &Gathered<'_>,
) -> Result<Option<u32>, AllocError>
    requires { IsGathered query.now gathered.now }
    ensures { IfOk result (λ r. r ≡ least (spec.types (graph_numbered catalog.now.1 graph) query.now)) }
{
    let kinds = catalog.property_kinds(alloc, graph)?;
    Ok(judge::types(
        &kinds,
        &gathered.conditions,
        &query.cond,
        &gathered.inner,
        &gathered.outer,
    ))
}

/// The first literal, operator or aggregate that is too wide.
pub fn wide(
    alloc: Global,
    catalog: &Catalog,
    graph: GraphNo,
    query: &Query,
    gathered: &Gathered<'_>,
) -> Result<Option<u32>, AllocError>
    requires { IsGathered query.now gathered.now }
    ensures { IfOk result (λ r. r ≡ least (spec.wide (graph_numbered catalog.now.1 graph) query.now)) }
{
    let _ = query;
    let kinds = catalog.property_kinds(alloc, graph)?;
    Ok(judge::wide(&kinds, &gathered.inner, &gathered.outer))
}

/// The first thing beyond a limit.
pub fn limit(query: &Query, gathered: &Gathered<'_>) -> Option<u32>
    requires { IsGathered query.now gathered.now }
    ensures { result ≡ least (spec.limit query.now) }
{
    judge::limit(query, &gathered.variables)
}
