//! The properties of an element table, label by label.
ghost use Rattle.std.specs.Prelude.{◌≡◌, ◌++◌, ◌||◌, IfOk, OnOk, map};
ghost use Rattle.pg_rules.specs.Definitions.Graphs as spec;
ghost use Rattle.pg_catalog.specs.PropertyRows.{row_view, under};
ghost use Rattle.std.specs.List.{flat_map};

use pg_rules::{ElementEntry, LabelEntry, PropertyEntry};
use pg_value::{Kind, List};
use std::alloc::{AllocError, Global};

/// A property under a label.
#[derive(Clone, Copy)]
pub struct Row<'a> {
    pub label: &'a str,
    pub name: &'a str,
    pub kind: Kind,
    pub column: u32,
}

/// Appends the properties under a label.
#[tactic(auto, using(crate::proofs::NameSets::mapped_push))]
fn push_rows<'a>(
    label: &'a str,
    properties: &'a [PropertyEntry],
    out: &mut Vec<Row<'a>>,
) -> Result<(), AllocError>
    ensures { OnOk result (map row_view out.new.items ≡ map row_view out.old.items ++ map (under label.now) properties.now) }
{
    for property in properties {
        let row = Row {
            label,
            name: property.name.as_str(),
            kind: property.kind,
            column: property.column,
        };
        out.push(row)?;
    }
    Ok(())
}

/// The properties under some labels, label by label.
fn rows_in(alloc: Global, labels: &[LabelEntry]) -> Result<Vec<Row<'_>>, AllocError>
    ensures { IfOk result (λ rs. map row_view rs.items ≡ flat_map spec.rows_of labels.now) }
{
    let mut out = Vec::new(alloc);
    for label in labels {
        push_rows(label.name.as_str(), label.properties.as_slice(), &mut out)?;
    }
    Ok(out)
}

/// All properties of an element table, label by label.
pub fn rows(alloc: Global, element: &ElementEntry) -> Result<Vec<Row<'_>>, AllocError>
    ensures { IfOk result (λ rs. map row_view rs.items ≡ spec.rows element.now) }
{
    rows_in(alloc, element.labels.as_slice())
}

/// Whether one of three is so.
pub fn any_of(a: bool, b: bool, c: bool) -> bool
    ensures { result ≡ (a || (b || c)) }
{
    a || (b || c)
}
