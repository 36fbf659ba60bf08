//! Reads queries over graphs, `SELECT * FROM GRAPH_TABLE (..)`, exactly by their grammar (ISO/IEC 9075-16:2023).
//!
//! The rules stand with the trees, in `pg_ast`. Each function here gives what its parser on lists of tokens gives, in
//! `specs/`, and a law says of that parser that it reads the rule: that tree and no other, and otherwise it stops
//! exactly at the first token that nothing of the rule continues.
#![tactic(auto)]

mod blocks;
mod columns;
mod edges;
mod fault;
mod fillers;
mod paths;
mod quantifiers;
mod queries;
mod tables;

pub use fault::ParseFault;
pub use queries::query;
pub use tables::{one_query, parse_graph_table};
