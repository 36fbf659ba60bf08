//! Changes: where INSERT, UPDATE and DELETE are refused before they read the tables, and their effect over them, which is the
//! writes then or the first faulty row.
#![tactic(auto)]

mod apply;
mod change;
mod column;
mod fault;
mod judged;
mod keyed;
mod laws;
mod proposed;
mod refused;
mod scan;
mod tables;
mod values;

pub use apply::effect;
pub use change::resolve::{resolve_change, resolve_delete, resolve_update, resolve_values};
pub use laws::effects_fit;
pub use refused::EffectRefused;
pub use tables::{HeldRow, TableLists, TableRows};
