//! The checked tree of a query.
ghost use Rattle.std.specs.Prelude.{◌≡◌, IfOk, map, option_map};
ghost use Rattle.pg_meaning.specs.declared.checked.CExpr.TheVariants as variants;
ghost use Rattle.pg_ast.specs.Trees.{tree_of};
ghost use Rattle.pg_rules.specs.Catalog.GraphLookUps as look;
ghost use Rattle.pg_rules.specs.Queries.CheckedQueries as spec;
ghost use Rattle.pg_check.specs.ColumnPlaces.{AreColumns};
ghost use Rattle.pg_check.specs.Resolved.{Fits, names_in};

use crate::column_places::ColumnPlaces;
use crate::mentions::path_mentions;
use crate::variables::Variables;
use pg_ast::{Arrow, Expr, Filler, LabelExpr, Name, Part, PathPattern, Whole};
use pg_catalog::Catalog;
use pg_meaning::{CExpr, CFiller, CPart, CheckedPath};
use pg_value::{GraphNo, List, TableSet, Value, copy_value};
use sqlite_items::Boxed;
use std::alloc::{AllocError, Global};

/// The tables that the labels of a node or an edge admit; without labels all of that sort.
pub fn admitted(
    catalog: &Catalog,
    graph: GraphNo,
    edges: bool,
    label: &Option<LabelExpr>,
) -> TableSet
    ensures value { result ≡ spec.set_of (look.tables_of catalog.now graph edges (spec.label_of label.now)) }
    ensures tables { look.IsSetOf result.0 (look.tables_of catalog.now graph edges (spec.label_of label.now)) }
{
    match label {
        Some(label) => catalog.tables_of(graph, edges, label),
        None => catalog.tables_of(graph, edges, &LabelExpr::All),
    }
}

/// A property of a variable, resolved.
fn checked_property(
    alloc: Global,
    catalog: &Catalog,
    graph: GraphNo,
    variables: &Variables<'_>,
    places: &ColumnPlaces<'_>,
    var: &Name,
    name: &Name,
) -> Result<CExpr, AllocError>
    requires fits { Fits variables.now }
    requires columns { AreColumns catalog.now graph places.now }
    ensures { IfOk result (λ r. r ≡ variants.Property (spec.number_of (names_in variables.now) var.now) (spec.columns_of catalog.now graph name.now.text)) }
{
    let columns = places.places_of(alloc, catalog, graph, name)?;
    Ok(CExpr::Property {
        var: variables.number_of(var),
        columns,
    })
}

/// An expression, resolved.
#[tactic(auto, using(pg_ast::specs::Trees::is_unary, pg_ast::specs::Trees::is_binary, pg_ast::specs::Trees::is_agg))]
pub fn checked_tree(
    alloc: Global,
    catalog: &Catalog,
    graph: GraphNo,
    variables: &Variables<'_>,
    places: &ColumnPlaces<'_>,
    expr: &Expr,
) -> Result<CExpr, AllocError>
    requires fits { Fits variables.now }
    requires columns { AreColumns catalog.now graph places.now }
    ensures { IfOk result (λ r. r ≡ spec.checked_tree catalog.now graph (names_in variables.now) (tree_of expr.now)) }
{
    match expr {
        Expr::Lit { value, .. } => {
            let value = copy_value(alloc, value)?;
            Ok(CExpr::Lit(value))
        }
        Expr::TooWide { .. } => Ok(CExpr::Lit(Value::Null)),
        Expr::Column { .. } => Ok(CExpr::Lit(Value::Null)),
        Expr::Property { var, name } => {
            checked_property(alloc, catalog, graph, variables, places, var, name)
        }
        Expr::Unary { op, arg, .. } => {
            let arg = checked_tree(alloc, catalog, graph, variables, places, arg.get())?;
            let arg = Boxed::new(alloc, arg)?;
            Ok(CExpr::Unary { op: *op, arg })
        }
        Expr::Binary {
            op,
            left,
            right,
            ..
        } => {
            let left = checked_tree(alloc, catalog, graph, variables, places, left.get())?;
            let right = checked_tree(alloc, catalog, graph, variables, places, right.get())?;
            let left = Boxed::new(alloc, left)?;
            let right = Boxed::new(alloc, right)?;
            Ok(CExpr::Binary {
                op: *op,
                left,
                right,
            })
        }
        Expr::Agg { agg, arg, .. } => {
            let arg = checked_tree(alloc, catalog, graph, variables, places, arg.get())?;
            let arg = Boxed::new(alloc, arg)?;
            Ok(CExpr::Agg { agg: *agg, arg })
        }
        Expr::CountVar { var, .. } => Ok(CExpr::CountVar {
            var: variables.number_of(var),
        }),
    }
}

/// A condition, resolved, where there is one.
pub fn checked_condition(
    alloc: Global,
    catalog: &Catalog,
    graph: GraphNo,
    variables: &Variables<'_>,
    places: &ColumnPlaces<'_>,
    condition: &Option<Whole>,
) -> Result<Option<CExpr>, AllocError>
    requires fits { Fits variables.now }
    requires columns { AreColumns catalog.now graph places.now }
    ensures { IfOk result (λ r. r ≡ spec.checked_condition catalog.now graph (names_in variables.now) condition.now) }
{
    match condition {
        Some(condition) => {
            let tree = checked_tree(alloc, catalog, graph, variables, places, &condition.expr)?;
            Ok(Some(tree))
        }
        None => Ok(None),
    }
}

/// The number of a variable, where there is one.
fn number_if(variables: &Variables<'_>, name: &Option<Name>) -> Option<u32>
    requires { Fits variables.now }
    ensures { result ≡ option_map (spec.number_of (names_in variables.now)) name.now }
{
    match name {
        Some(name) => Some(variables.number_of(name)),
        None => None,
    }
}

/// A node or an edge, resolved.
fn checked_filler(
    alloc: Global,
    catalog: &Catalog,
    graph: GraphNo,
    variables: &Variables<'_>,
    places: &ColumnPlaces<'_>,
    edge: bool,
    filler: &Filler,
) -> Result<CFiller, AllocError>
    requires fits { Fits variables.now }
    requires columns { AreColumns catalog.now graph places.now }
    ensures { IfOk result (λ r. r ≡ spec.checked_filler catalog.now graph (names_in variables.now) edge filler.now) }
{
    let cond = checked_condition(alloc, catalog, graph, variables, places, &filler.cond)?;
    Ok(CFiller {
        var: number_if(variables, &filler.var),
        tables: admitted(catalog, graph, edge, &filler.label),
        cond,
    })
}

/// Nodes or edges, resolved.
fn checked_fillers(
    alloc: Global,
    catalog: &Catalog,
    graph: GraphNo,
    variables: &Variables<'_>,
    places: &ColumnPlaces<'_>,
    edge: bool,
    fillers: &[Filler],
) -> Result<List<CFiller>, AllocError>
    requires fits { Fits variables.now }
    requires columns { AreColumns catalog.now graph places.now }
    ensures { IfOk result (λ r. r ≡ map (spec.checked_filler catalog.now graph (names_in variables.now) edge) fillers.now) }
{
    let mut out = List::new(alloc);
    for filler in fillers {
        let one = checked_filler(alloc, catalog, graph, variables, places, edge, filler)?;
        out.push(one)?;
    }
    Ok(out)
}

/// A copy of some arrows.
fn copy_arrows(alloc: Global, arrows: &[Arrow]) -> Result<List<Arrow>, AllocError>
    ensures { IfOk result (λ copy. copy ≡ arrows.now) }
{
    let mut out = List::new(alloc);
    for arrow in arrows {
        out.push(*arrow)?;
    }
    Ok(out)
}

/// A part of a path pattern, resolved.
fn checked_part(
    alloc: Global,
    catalog: &Catalog,
    graph: GraphNo,
    variables: &Variables<'_>,
    places: &ColumnPlaces<'_>,
    part: &Part,
) -> Result<CPart, AllocError>
    requires fits { Fits variables.now }
    requires columns { AreColumns catalog.now graph places.now }
    ensures { IfOk result (λ r. r ≡ spec.checked_part catalog.now graph (names_in variables.now) part.now) }
{
    match part {
        Part::Node(filler) => {
            let filler = checked_filler(alloc, catalog, graph, variables, places, false, filler)?;
            Ok(CPart::Node(filler))
        }
        Part::Edge {
            arrow,
            filler,
            quant,
        } => {
            let filler = checked_filler(alloc, catalog, graph, variables, places, true, filler)?;
            Ok(CPart::Edge {
                arrow: *arrow,
                filler,
                quant: *quant,
            })
        }
        Part::Group {
            nodes,
            arrows,
            edges,
            cond,
            quant,
        } => {
            let nodes = checked_fillers(
                alloc,
                catalog,
                graph,
                variables,
                places,
                false,
                nodes.as_slice(),
            )?;
            let arrows = copy_arrows(alloc, arrows.as_slice())?;
            let edges = checked_fillers(
                alloc,
                catalog,
                graph,
                variables,
                places,
                true,
                edges.as_slice(),
            )?;
            let cond = checked_condition(alloc, catalog, graph, variables, places, cond)?;
            Ok(CPart::Group {
                nodes,
                arrows,
                edges,
                cond,
                quant: *quant,
            })
        }
    }
}

/// The parts of a path pattern, resolved.
fn checked_parts(
    alloc: Global,
    catalog: &Catalog,
    graph: GraphNo,
    variables: &Variables<'_>,
    places: &ColumnPlaces<'_>,
    parts: &[Part],
) -> Result<List<CPart>, AllocError>
    requires fits { Fits variables.now }
    requires columns { AreColumns catalog.now graph places.now }
    ensures { IfOk result (λ r. r ≡ map (spec.checked_part catalog.now graph (names_in variables.now)) parts.now) }
{
    let mut out = List::new(alloc);
    for part in parts {
        let one = checked_part(alloc, catalog, graph, variables, places, part)?;
        out.push(one)?;
    }
    Ok(out)
}

/// The numbers of a path pattern's own variables, in order of first mention in it.
fn own_numbers(
    alloc: Global,
    variables: &Variables<'_>,
    path: &PathPattern,
) -> Result<List<u32>, AllocError>
    requires { Fits variables.now }
    ensures { IfOk result (λ r. r ≡ map (spec.number_of (names_in variables.now)) (spec.own_variables path.now)) }
{
    let mentions = path_mentions(alloc, 0, path)?;
    let own = Variables::of(alloc, &mentions)?;
    own.numbers(alloc, variables)
}

/// A path pattern, resolved.
fn checked_path(
    alloc: Global,
    catalog: &Catalog,
    graph: GraphNo,
    variables: &Variables<'_>,
    places: &ColumnPlaces<'_>,
    path: &PathPattern,
) -> Result<CheckedPath, AllocError>
    requires fits { Fits variables.now }
    requires columns { AreColumns catalog.now graph places.now }
    ensures { IfOk result (λ r. r ≡ spec.checked_path catalog.now graph (names_in variables.now) path.now) }
{
    let shape = catalog.graph_shape(alloc, graph)?;
    let parts = checked_parts(
        alloc,
        catalog,
        graph,
        variables,
        places,
        path.parts.as_slice(),
    )?;
    let vars = own_numbers(alloc, variables, path)?;
    Ok(CheckedPath {
        graph: shape,
        selector: path.selector,
        mode: path.mode,
        parts,
        vars,
    })
}

/// Path patterns, resolved.
pub fn checked_paths(
    alloc: Global,
    catalog: &Catalog,
    graph: GraphNo,
    variables: &Variables<'_>,
    places: &ColumnPlaces<'_>,
    paths: &[PathPattern],
) -> Result<List<CheckedPath>, AllocError>
    requires fits { Fits variables.now }
    requires columns { AreColumns catalog.now graph places.now }
    ensures { IfOk result (λ r. r ≡ map (spec.checked_path catalog.now graph (names_in variables.now)) paths.now) }
{
    let mut out = List::new(alloc);
    for path in paths {
        let one = checked_path(alloc, catalog, graph, variables, places, path)?;
        out.push(one)?;
    }
    Ok(out)
}
