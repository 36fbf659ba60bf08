//! The check of a query: why it is refused, or its checked tree.
ghost use Rattle.std.specs.Prelude.{◌≡◌, None, [], IfOk, IfErr};
ghost use Rattle.pg_rules.specs.Catalog.GraphLookUps.{graph_numbered};
ghost use Rattle.pg_rules.specs.Queries.{names_of, query_fault};
ghost use Rattle.pg_rules.specs.Queries.Collections.{mentions_of};
ghost use Rattle.pg_rules.specs.Queries.CheckedQueries as spec;
ghost use Rattle.pg_check.specs.Gathered.{firsts_after};
ghost use Rattle.pg_check.specs.ColumnPlaces.{AreColumns};
ghost use Rattle.pg_check.specs.Resolved as resolved;
ghost use Rattle.pg_check.specs.Resolved.{Fits};

use crate::column_places::ColumnPlaces;
use crate::gather::{inner_conditions, inner_expressions, outer_expressions};
use crate::items::checked_columns;
use crate::mentions::mentions;
use crate::resolve::{checked_condition, checked_paths};
use crate::variables::Variables;
use crate::verdict::fault;
use pg_ast::{ColumnItem, Query};
use pg_catalog::Catalog;
use pg_meaning::{CheckedColumn, CheckedQuery};
use pg_rules::{QueryFault, accepted_queries};
use pg_value::{GraphNo, List};
use std::alloc::{AllocError, Global};

/// The columns over the kinds of the graph's properties.
fn columns_over(
    alloc: Global,
    catalog: &Catalog,
    graph: GraphNo,
    variables: &Variables<'_>,
    places: &ColumnPlaces<'_>,
    items: &[ColumnItem],
) -> Result<List<CheckedColumn>, AllocError>
    requires fits { Fits variables.now }
    requires columns { AreColumns catalog.now graph places.now }
    ensures { IfOk result (λ r. r ≡ resolved.capped_columns catalog.now graph variables.now (names_of (graph_numbered catalog.now.1 graph)) items.now) }
{
    let kinds = catalog.property_kinds(alloc, graph)?;
    let columns = checked_columns(alloc, catalog, graph, variables, places, &kinds, items);
    drop(kinds);
    columns
}

/// The checked tree over a graph and variables.
fn built(
    alloc: Global,
    catalog: &Catalog,
    graph: GraphNo,
    variables: &Variables<'_>,
    places: &ColumnPlaces<'_>,
    query: &Query,
) -> Result<CheckedQuery, AllocError>
    requires fits { Fits variables.now }
    requires columns { AreColumns catalog.now graph places.now }
    ensures { IfOk result (λ r. r ≡ resolved.built catalog.now graph variables.now (names_of (graph_numbered catalog.now.1 graph)) query.now) }
{
    let shape = catalog.graph_shape(alloc, graph)?;
    let paths = checked_paths(
        alloc,
        catalog,
        graph,
        variables,
        places,
        query.paths.as_slice(),
    )?;
    let cond = checked_condition(alloc, catalog, graph, variables, places, &query.cond)?;
    let columns = columns_over(
        alloc,
        catalog,
        graph,
        variables,
        places,
        query.columns.as_slice(),
    )?;
    Ok(CheckedQuery {
        graph: shape,
        paths,
        cond,
        columns,
        vars: variables.count(),
    })
}

/// The variables of a query that is not refused.
fn variables_of<'a>(
    alloc: Global,
    catalog: &Catalog,
    query: &'a Query,
) -> Result<Variables<'a>, AllocError>
    requires { query_fault catalog.now query.now ≡ None }
    ensures variables { IfOk result (λ v. v ≡ firsts_after [] (mentions_of query.now)) }
    ensures fits { IfOk result Fits }
{
    accepted_queries();
    let _ = catalog;
    let mentions = mentions(alloc, query)?;
    match Variables::of(alloc, &mentions) {
        Ok(variables) => Ok(variables),
        Err(_) => Err(AllocError),
    }
}

/// The places of the columns of the properties that a query uses.
fn places_in<'a>(
    alloc: Global,
    catalog: &Catalog,
    graph: GraphNo,
    query: &'a Query,
) -> Result<ColumnPlaces<'a>, AllocError>
    ensures { IfOk result (AreColumns catalog.now graph) }
{
    let conditions = inner_conditions(alloc, query)?;
    let mut exprs = inner_expressions(alloc, &conditions)?;
    let outer = outer_expressions(alloc, query)?;
    for expr in &outer {
        exprs.push(*expr)?;
    }
    ColumnPlaces::of(alloc, catalog, graph, &exprs)
}

/// The checked tree of a query that is not refused.
fn checked_query(
    alloc: Global,
    catalog: &Catalog,
    query: &Query,
) -> Result<CheckedQuery, AllocError>
    requires { query_fault catalog.now query.now ≡ None }
    ensures { IfOk result (λ r. r ≡ spec.checked_query catalog.now query.now) }
{
    accepted_queries();
    let Some(graph) = catalog.graph(&query.graph.text) else {
        unreachable!()
    };
    let variables = variables_of(alloc, catalog, query)?;
    let places = places_in(alloc, catalog, graph, query)?;
    built(alloc, catalog, graph, &variables, &places, query)
}

/// Checks a query (ISO/IEC 9075-16:2023, GRAPH_TABLE): its checked tree, or why it is refused. NoGraph comes exactly where its
/// graph does not exist, and then NoLabel, NoProperty, Unbounded, Bounds, BadVariable, GroupUse, Types, Wide and Limit as
/// `QueryFault` says of each; the first of these kinds that has a place is answered, at its first place. Memory may come at any
/// point.
pub fn check(alloc: Global, catalog: &Catalog, query: &Query) -> Result<CheckedQuery, QueryFault>
    ensures right { IfOk result (λ _. query_fault catalog.now query.now ≡ None) }
    ensures checked { IfOk result (λ r. r ≡ spec.checked_query catalog.now query.now) }
    ensures fault { IfErr result (resolved.IsFault (query_fault catalog.now query.now)) }
{
    let Ok(found) = fault(alloc, catalog, query) else {
        return Err(QueryFault::Memory);
    };
    if let Some(fault) = found {
        return Err(fault);
    }
    match checked_query(alloc, catalog, query) {
        Ok(checked) => Ok(checked),
        Err(_) => Err(QueryFault::Memory),
    }
}
