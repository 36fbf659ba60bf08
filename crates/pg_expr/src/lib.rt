//! The values of checked expressions, over a row or over what the variables of a query stand for.
#![tactic(auto)]

mod aggregates;
mod evaluate;
mod logic;
mod mentions;
mod number;
mod operand;
mod operators;
mod references;
mod row;
mod view;

pub use mentions::{Mention, truth_of_mentions};
pub use row::{eval_row, truth_row};
pub use view::{eval, truth};
