//! The tests of single elements that a search makes: a filler admits an element of its tables for which its condition is true.
ghost use Rattle.std.specs.Prelude.{◌≡◌, ◌==◌, IfSome};
ghost use Rattle.std.specs.Int.{bit_at};
ghost use Rattle.std.specs.Option.{option_copied};
ghost use Rattle.pg_value.specs.declared.shape.GraphShape.{GraphShape};
ghost use Rattle.pg_meaning.specs.Meaning.{OfVars};
ghost use Rattle.pg_meaning.specs.Fits.{scope_of, mention};
ghost use Rattle.pg_meaning.specs.Walks.{graph_of};
ghost use Rattle.pg_auto.specs.Tests as spec;
ghost use Rattle.pg_auto.specs.Successors as successors;
ghost use Rattle.pg_expr.specs.Conditions.{IsCheckedForOnes};
ghost use Rattle.pg_expr.specs.Mentions.{stood_for};

use pg_expr::{Mention, truth_of_mentions};
use pg_meaning::{CExpr, CFiller};
use pg_value::{EdgeNo, ElemId, TableNo, TableSet, Truth};
use pg_view::View;
use std::slice;

/// Whether a number has the bit at a place.
fn has_bit(bits: u64, at: u32) -> bool
    ensures { result ≡ (bit_at bits at == 1) }
{
    at < 64 && bits >> at & 1 == 1
}

/// Whether a set has a table.
pub fn has_table(set: TableSet, table: TableNo) -> bool
    ensures { result ≡ spec.has_table set table }
{
    has_bit(set.0, table.0)
}

/// Whether a condition, where there is one, is true over some elements.
pub fn meets<V: View>(view: &V, condition: Option<&CExpr>, mentions: &[Mention<'_>]) -> bool
    requires { IfSome (option_copied condition) (IsCheckedForOnes (V.shapes view.now)) }
    ensures { result ≡ spec.meets (option_copied condition.entry) (OfVars (V.tables view.now) (stood_for mentions.now)) }
{
    match condition {
        Some(condition) => matches!(truth_of_mentions(condition, mentions, view), Truth::True),
        None => true,
    }
}

/// Whether a condition, where there is one, is true of the element that stands for a filler's own variable.
fn meets_alone<V: View>(view: &V, filler: &CFiller, elem: &ElemId) -> bool
    requires { IfSome filler.now.cond (IsCheckedForOnes (V.shapes view.now)) }
    ensures { (graph : GraphShape) → result ≡ spec.meets filler.now.cond (scope_of (graph_of (V.shapes view.now) graph (V.tables view.now)) (mention filler.now elem.now)) }
{
    match filler.var {
        Some(var) => {
            let own = Mention { var, elem };
            meets(view, filler.cond.as_ref(), slice::from_ref(&own))
        }
        None => meets(view, filler.cond.as_ref(), &[]),
    }
}

/// Whether a filler admits an element: its table first, and only then its condition, for which its row may be read.
pub fn admits<V: View>(view: &V, filler: &CFiller, elem: &ElemId) -> bool
    requires { IfSome filler.now.cond (IsCheckedForOnes (V.shapes view.now)) }
    ensures { (graph : GraphShape) → result ≡ spec.admits (graph_of (V.shapes view.now) graph (V.tables view.now)) filler.now elem.now }
{
    has_table(filler.tables, elem.table) && meets_alone(view, filler, elem)
}

/// Whether a node, which may ask nothing, admits a vertex.
pub fn node_admits<V: View>(view: &V, node: Option<&CFiller>, vertex: &ElemId) -> bool
    requires { IfSome (option_copied node) (λ filler. IfSome filler.cond (IsCheckedForOnes (V.shapes view.now))) }
    ensures { (graph : GraphShape) → result ≡ spec.node_admits (graph_of (V.shapes view.now) graph (V.tables view.now)) (option_copied node.entry) vertex.now }
{
    match node {
        Some(filler) => admits(view, filler, vertex),
        None => true,
    }
}

/// Whether a set of tables admits an edge table: the edges of others are not read.
pub fn is_read<V: View>(view: &V, set: TableSet, edge: EdgeNo) -> bool
    ensures { result ≡ successors.is_read (V.shapes view.now) set edge }
{
    match view.shapes().edges.get(edge.0 as usize) {
        Some(shape) => has_table(set, shape.table),
        None => false,
    }
}
