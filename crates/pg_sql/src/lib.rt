//! Reads statements, exactly by their grammar: CREATE TABLE, CREATE PROPERTY GRAPH (ISO/IEC 9075-16:2023), INSERT, UPDATE,
//! DELETE, queries, and the begin and end of a transaction.
//!
//! `IsStatement` of `pg_ast` says which tree a list of tokens is. `parse_statement` gives that tree, or the place of the
//! first token that no statement continues.
#![tactic(auto)]

mod edges;
mod inserts;
mod items;
mod labels;
mod parsed;
mod read;
mod statement;
mod tables;
mod transaction;
mod types;
mod updates;
mod vertices;

pub use parsed::Parsed;
pub use read::read_statement;
pub use statement::{one_tree, parse_statement};
