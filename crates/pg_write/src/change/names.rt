//! The names of columns in a change that the table has not.
ghost use Rattle.std.specs.Prelude.{◌≡◌, ◌∷◌, [], is_some, not};
ghost use Rattle.std.specs.List.{flat_map};
ghost use Rattle.pg_ast.specs.Trees.{tree_of};
ghost use Rattle.pg_rules.specs.Catalog.{IsFew};
ghost use Rattle.pg_rules.specs.Definitions.Graphs.{missing};
ghost use Rattle.pg_rules.specs.Places.{least};
ghost use Rattle.pg_rules.specs.Changes as spec;
ghost use Rattle.pg_write.specs.ChangePasses as pass;

use pg_ast::{Expr, Name, SetItem, Whole};
use pg_catalog::column_place;
use pg_rules::{ColumnEntry, place_if, sooner};

/// The place of a name that is no column.
fn missing_name(columns: &[ColumnEntry], name: &Name) -> Option<u32>
    requires { IsFew columns.now }
    ensures { result ≡ least (missing columns.now (name.now ∷ [])) }
{
    place_if(column_place(columns, &name.text).is_none(), name.at)
}

/// The first of some names that is no column.
#[tactic(auto, using(pg_rules::specs::Places::least_found, pg_rules::specs::Places::sooner_none))]
pub fn missing_names(columns: &[ColumnEntry], names: &[Name]) -> Option<u32>
    requires { IsFew columns.now }
    ensures { result ≡ least (missing columns.now names.now) }
{
    let mut found = None;
    for name in names {
        found = sooner(found, missing_name(columns, name));
    }
    found
}

/// The first name in an expression that is no column.
#[tactic(auto, using(pg_ast::specs::Trees::is_unary, pg_ast::specs::Trees::is_binary, pg_ast::specs::Trees::is_agg, crate::proofs::Missing::missing_append))]
fn missing_in(columns: &[ColumnEntry], expr: &Expr) -> Option<u32>
    requires { IsFew columns.now }
    ensures { result ≡ least (missing columns.now (spec.columns_in (tree_of expr.now))) }
{
    match expr {
        Expr::Column { name } => missing_name(columns, name),
        Expr::Unary { arg, .. } => missing_in(columns, arg.get()),
        Expr::Binary { left, right, .. } => {
            let first = missing_in(columns, left.get());
            sooner(first, missing_in(columns, right.get()))
        }
        Expr::Agg { arg, .. } => missing_in(columns, arg.get()),
        Expr::Lit { .. } => None,
        Expr::TooWide { .. } => None,
        Expr::Property { .. } => None,
        Expr::CountVar { .. } => None,
    }
}

/// The first name in a condition that is no column.
pub fn missing_in_condition(columns: &[ColumnEntry], condition: &Option<Whole>) -> Option<u32>
    requires { IsFew columns.now }
    ensures { result ≡ least (missing columns.now (spec.named_in_condition condition.now)) }
{
    match condition {
        Some(condition) => missing_in(columns, &condition.expr),
        None => None,
    }
}

/// The first name in an item of SET that is no column.
fn missing_in_set(columns: &[ColumnEntry], set: &SetItem) -> Option<u32>
    requires { IsFew columns.now }
    ensures { result ≡ least (missing columns.now (set.now.column ∷ spec.named_in set.now.value)) }
{
    let own = missing_name(columns, &set.column);
    sooner(own, missing_in(columns, &set.value.expr))
}

/// The first name in SET that is no column.
#[tactic(auto, using(pg_rules::specs::Places::least_found, pg_rules::specs::Places::sooner_none))]
pub fn missing_in_sets(columns: &[ColumnEntry], sets: &[SetItem]) -> Option<u32>
    requires { IsFew columns.now }
    ensures { result ≡ least (flat_map (pass.missing_in_set columns.now) sets.now) }
{
    let mut found = None;
    for set in sets {
        found = sooner(found, missing_in_set(columns, set));
    }
    found
}
