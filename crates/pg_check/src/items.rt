//! The columns of a checked query.
ghost use Rattle.std.specs.Prelude.{◌≡◌, IfOk, map};
ghost use Rattle.pg_check.specs.ColumnPlaces.{AreColumns};
ghost use Rattle.pg_check.specs.Resolved.{Fits, names_in, capped_column};
ghost use Rattle.pg_check.specs.Scopes.{scope};

use crate::column_places::ColumnPlaces;
use crate::resolve::checked_tree;
use crate::types::kind;
use crate::variables::Variables;
use crate::widths::width;
use pg_ast::ColumnItem;
use pg_catalog::{Catalog, PropertyKinds};
use pg_meaning::CheckedColumn;
use pg_value::{GraphNo, List};
use std::alloc::{AllocError, Global};

/// A column, resolved.
fn checked_column(
    alloc: Global,
    catalog: &Catalog,
    graph: GraphNo,
    variables: &Variables<'_>,
    places: &ColumnPlaces<'_>,
    kinds: &PropertyKinds<'_>,
    item: &ColumnItem,
) -> Result<CheckedColumn, AllocError>
    requires fits { Fits variables.now }
    requires columns { AreColumns catalog.now graph places.now }
    ensures { IfOk result (λ r. r ≡ capped_column catalog.now graph (names_in variables.now) (scope kinds.now) item.now) }
{
    let expr = checked_tree(alloc, catalog, graph, variables, places, &item.expr.expr)?;
    let name = item.name.text.copy(alloc)?;
    Ok(CheckedColumn {
        expr,
        name,
        kind: kind(kinds, &item.expr.expr),
        width: width(kinds, &item.expr.expr).bits,
    })
}

/// Columns, resolved.
pub fn checked_columns(
    alloc: Global,
    catalog: &Catalog,
    graph: GraphNo,
    variables: &Variables<'_>,
    places: &ColumnPlaces<'_>,
    kinds: &PropertyKinds<'_>,
    items: &[ColumnItem],
) -> Result<List<CheckedColumn>, AllocError>
    requires fits { Fits variables.now }
    requires columns { AreColumns catalog.now graph places.now }
    ensures { IfOk result (λ r. r ≡ map (capped_column catalog.now graph (names_in variables.now) (scope kinds.now)) items.now) }
{
    let mut out = List::new(alloc);
    for item in items {
        let one = checked_column(alloc, catalog, graph, variables, places, kinds, item)?;
        out.push(one)?;
    }
    Ok(out)
}
