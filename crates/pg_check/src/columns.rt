//! The columns of a property.
ghost use Rattle.std.specs.Prelude.{◌≡◌, IfOk};
ghost use Rattle.pg_rules.specs.Queries.CheckedQueries as spec;

use pg_catalog::Catalog;
use pg_value::{GraphNo, List, TableNo, Text};
use std::alloc::{AllocError, Global};

/// For each table the place of its column for a property.
pub fn columns_of(
    alloc: Global,
    catalog: &Catalog,
    graph: GraphNo,
    name: &Text,
) -> Result<List<Option<u32>>, AllocError>
    ensures { IfOk result (λ r. r ≡ spec.columns_of catalog.now graph name.now) }
{
    let mut out = List::new(alloc);
    for table in 0..catalog.table_count() {
        match out.push(catalog.property(graph, TableNo(table), name)) {
            Ok(()) => {}
            Err(_) => return Err(AllocError),
        }
    }
    Ok(out)
}
