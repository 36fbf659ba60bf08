//! Checked trees, and what they mean: the values of expressions, label sets, the walks of a graph that fit a pattern, their
//! bindings, selections among these, and the answer of a query. Here too are the kinds and widths of expressions.
#![tactic(auto)]

mod checked;
mod laws;

pub use checked::{
    Bound, CExpr, CFiller, CPart, CheckedChange, CheckedColumn, CheckedPath, CheckedQuery,
    CheckedSet, PathBinding, Slot,
};
pub use laws::{
    answers_are_one, binding_by_path, bindings_stand, hops_are_neighbours, narrow_values,
    one_hop_answers, one_hop_bindings, selections_by_start, tuples_fit, value_by_variables,
    values_within_widths,
};
