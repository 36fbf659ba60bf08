//! Why a query is refused: the first kind of fault that has a place, at its first place.
ghost use Rattle.std.specs.Prelude.{◌≡◌, IfOk};
ghost use Rattle.pg_rules.specs.Catalog.GraphLookUps.{graph_numbered};
ghost use Rattle.pg_rules.specs.Queries.{query_fault};
ghost use Rattle.pg_check.specs.Judgement as spec;
ghost use Rattle.pg_check.specs.Judgement.{IsGathered};

use crate::gathered::{Gathered, gather};
use crate::judge::no_label;
use crate::places::{bad_variable, group_use, limit, no_property, types, wide};
use crate::quantifiers::{bounds, unbounded};
use pg_ast::Query;
use pg_catalog::Catalog;
use pg_rules::QueryFault;
use pg_value::GraphNo;
use std::alloc::{AllocError, Global};

/// The last three kinds: Types, Wide and Limit.
fn kinds_fault(
    alloc: Global,
    catalog: &Catalog,
    graph: GraphNo,
    query: &Query,
    gathered: &Gathered<'_>,
) -> Result<Option<QueryFault>, AllocError>
    requires { IsGathered query.now gathered.now }
    ensures { IfOk result (λ r. r ≡ spec.kinds_fault (graph_numbered catalog.now.1 graph) query.now) }
{
    if let Some(at) = types(alloc, catalog, graph, query, gathered)? {
        return Ok(Some(QueryFault::Types { at }));
    }
    if let Some(at) = wide(alloc, catalog, graph, query, gathered)? {
        return Ok(Some(QueryFault::Wide { at }));
    }
    match limit(query, gathered) {
        Some(at) => Ok(Some(QueryFault::Limit { at })),
        None => Ok(None),
    }
}

/// BadVariable, GroupUse and the kinds behind them.
fn variables_fault(
    alloc: Global,
    catalog: &Catalog,
    graph: GraphNo,
    query: &Query,
    gathered: &Gathered<'_>,
) -> Result<Option<QueryFault>, AllocError>
    requires { IsGathered query.now gathered.now }
    ensures { IfOk result (λ r. r ≡ spec.variables_fault (graph_numbered catalog.now.1 graph) query.now) }
{
    if let Some(at) = bad_variable(alloc, query, gathered)? {
        return Ok(Some(QueryFault::BadVariable { at }));
    }
    if let Some(at) = group_use(alloc, query, gathered)? {
        return Ok(Some(QueryFault::GroupUse { at }));
    }
    kinds_fault(alloc, catalog, graph, query, gathered)
}

/// NoProperty and the kinds behind it.
fn properties_fault(
    alloc: Global,
    catalog: &Catalog,
    graph: GraphNo,
    query: &Query,
    gathered: &Gathered<'_>,
) -> Result<Option<QueryFault>, AllocError>
    requires { IsGathered query.now gathered.now }
    ensures { IfOk result (λ r. r ≡ spec.properties_fault (graph_numbered catalog.now.1 graph) query.now) }
{
    if let Some(at) = no_property(alloc, catalog, graph, query, gathered)? {
        return Ok(Some(QueryFault::NoProperty { at }));
    }
    if let Some(at) = unbounded(query) {
        return Ok(Some(QueryFault::Unbounded { at }));
    }
    if let Some(at) = bounds(query) {
        return Ok(Some(QueryFault::Bounds { at }));
    }
    variables_fault(alloc, catalog, graph, query, gathered)
}

/// NoLabel and the kinds behind it.
fn labels_fault(
    alloc: Global,
    catalog: &Catalog,
    graph: GraphNo,
    query: &Query,
) -> Result<Option<QueryFault>, AllocError>
    ensures { IfOk result (λ r. r ≡ spec.labels_fault (graph_numbered catalog.now.1 graph) query.now) }
{
    if let Some(at) = no_label(alloc, catalog, graph, query)? {
        return Ok(Some(QueryFault::NoLabel { at }));
    }
    let gathered = gather(alloc, query)?;
    properties_fault(alloc, catalog, graph, query, &gathered)
}

/// Why a query is refused: the first kind, in the order of `QueryFault`, that has a place, at its first place. Only want of
/// memory keeps it from answering.
pub fn fault(
    alloc: Global,
    catalog: &Catalog,
    query: &Query,
) -> Result<Option<QueryFault>, AllocError>
    ensures { IfOk result (λ r. r ≡ query_fault catalog.now query.now) }
{
    match catalog.graph(&query.graph.text) {
        None => Ok(Some(QueryFault::NoGraph { at: query.graph.at })),
        Some(graph) => labels_fault(alloc, catalog, graph, query),
    }
}
