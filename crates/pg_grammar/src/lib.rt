//! Reads the parts that several statements share, exactly by their grammar: the kit of parsers on lists of tokens and of
//! laws that join them to rules, a cursor over tokens, names, lists of names, label expressions and expressions.
//!
//! A rule of `pg_ast` says which tree a list of tokens is. Each function here gives what its parser on lists gives, and
//! a law says of that parser that it reads the rule: that tree and no other, and otherwise it stops exactly at the first
//! token that nothing of the rule continues.
#![tactic(auto)]

mod bounded;
mod build;
mod cursor;
mod expr;
mod fault;
mod identifiers;
mod label;
mod laws;
mod list;
mod literal;
mod number;
mod operand;
mod operator;
mod text;

pub use bounded::kept;
pub use cursor::Cursor;
pub use expr::{counted_whole, whole};
pub use fault::{Fault, Unexpected};
pub use identifiers::{name, names};
pub use label::label_expr;
pub use laws::{label_limits, one_label_expr, one_list_of_names, one_whole, whole_limits};
pub use list::{listed, separated};
pub use text::bytes_of;
