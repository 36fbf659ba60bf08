//! Where INSERT, UPDATE and DELETE are refused before they read the tables, and the checked change.
pub mod checked;
pub mod insert;
pub mod names;
pub mod places;
pub mod resolve;
pub mod verdict;
